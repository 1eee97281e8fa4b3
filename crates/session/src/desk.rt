// The memory that a paper is kept in, as one value.
ghost use Rattle.std.specs.Prelude.{◌≡◌, ◌+◌, ◌-◌, ◌*◌, ◌<◌, ◌≤◌, true, false, [], ◌∷◌, ◌++◌, length, drop, MatchResult, slice_index};
ghost use Rattle.kept.specs.Props.{props};
ghost use Rattle.session.specs.Memory.{Held, slots_of, tables};

use crate::Refusal;
use changes::Row;
use kept::Text;
use model::Change;

/// How many words stand before the row of changes. Words 0 to 2 are the limits of cells, changes and undos, and word 3 is how many changes there are: by
/// their numbers here, as the C interface lends them (specs/Memory.antt).
pub const HEAD: usize = 16;

/// The lent words: the cells are the slots of the text. The pieces begin with the limits and how many changes there are; the row of changes and the
/// tables of the text follow. The third slice is the log of what can be undone. It has no `Debug`, which would print all of the memory.
/// What holds of the log is asked for by each call and is no ghost field: between a call's entry in the log and its write it does not hold.
#[derive(Drop)]
pub struct Desk<'a> {
    pub cells: &'a mut [u32],
    pub pieces: &'a mut [u32],
    pub undo: &'a mut [u32],
    ghost held: { Held cells.now pieces.now } by { Prim.hlevel props },
}

// How many slots the text has. (Of the pieces alone, here and below, as `cells` has both slices apart.)
pub fn slots_in(pieces: &[u32]) -> usize
    requires few { slice_index pieces.now 0 ≤ 1000000 }
    requires some { 0 < length pieces.now }
    ensures is { result ≡ slots_of pieces.now }
    ensures enough { slice_index pieces.now 0 ≤ 768 * (result - 1) }
{
    pieces::slots_for(pieces[0] as usize)
}

// Where the tables of the text begin.
pub fn tables_from(pieces: &[u32]) -> usize
    requires { 1 < length pieces.now }
    ensures { result ≡ 16 + 2 * slice_index pieces.now 1 }
{
    HEAD + 2 * pieces[1] as usize
}

// The text, to be read.
pub fn text_in<'a>(cells: &'a [u32], pieces: &'a [u32]) -> Text<'a>
    requires { Held cells.now pieces.now }
    ensures cells { result.cells.now ≡ cells.now }
    ensures tables { result.tables.now ≡ tables pieces.now }
    ensures slots { result.slots ≡ slots_of pieces.now }
{
    Text {
        cells,
        tables: &pieces[tables_from(pieces)..],
        slots: slots_in(pieces),
    }
}

// The row of changes, of all the pieces or of those before the tables.
pub fn row_in(pieces: &[u32]) -> Row<'_>
    requires few { 16 + 2 * slice_index pieces.now 3 ≤ length pieces.now }
    ensures words { result.words.now ≡ drop 16 pieces.now }
    ensures len { result.len ≡ slice_index pieces.now 3 }
{
    Row {
        words: &pieces[HEAD..],
        len: pieces[3] as usize,
    }
}

impl<'a> Desk<'a> {
    ghost use Rattle.changes.specs.Row.{change_at};
    ghost use Rattle.history.specs.Entry.{but_last};
    ghost use Rattle.model.specs.Calls.{with_became};
    ghost use Rattle.model.specs.Paper.{touched as touches};
    ghost use Rattle.model.specs.Values.{change_of};
    ghost use Rattle.session.specs.Acts.{allows, with_changes};
    ghost use Rattle.session.specs.Desks.{Writes, paper_in};
    ghost use Rattle.session.specs.declared.refusal.Refusal.TheVariants.{NoSuchChange, PastLimits};

    /// The text, to be read.
    pub fn text(&self) -> Text<'_>
        ensures cells { result.cells.now ≡ self.now.cells.now }
        ensures tables { result.tables.now ≡ tables self.now.pieces.now }
        ensures slots { result.slots ≡ slots_of self.now.pieces.now }
    {
        text_in(self.cells, self.pieces)
    }

    /// How many cells the paper has.
    pub fn count_cells(&self) -> usize
        ensures { result ≡ length (paper_in self.now).cells }
    {
        self.text().count()
    }

    /// How many cells have the mark of a change.
    pub fn touched(&self, change: u32) -> u32
        ensures { result ≡ touches (paper_in self.now).cells change }
    {
        sweep::touched(&self.text(), change)
    }

    /// The row of changes.
    pub fn row(&self) -> Row<'_>
        ensures words { result.words.now ≡ drop 16 self.now.pieces.now }
        ensures len { result.len ≡ slice_index self.now.pieces.now 3 }
    {
        row_in(self.pieces)
    }

    /// Change number `change`.
    pub fn find_change(&self, change: u32) -> Result<Change, Refusal>
        ensures { MatchResult result (λ x. (change < slice_index self.now.pieces.now 3) × (change_of x ≡ change_at (drop 16 self.now.pieces.now) change)) (λ e. (e ≡ NoSuchChange) × (slice_index self.now.pieces.now 3 ≤ change)) }
    {
        self.row().get(change as usize).ok_or(Refusal::NoSuchChange)
    }

    /// The number of a new change, if the limits allow one more and so many cells.
    pub fn room(&self, cells: usize) -> Result<u32, Refusal>
        ensures { MatchResult result (λ number. (number ≡ slice_index self.now.pieces.now 3) × (allows self.now.pieces.now cells ≡ true)) (λ e. (e ≡ PastLimits) × (allows self.now.pieces.now cells ≡ false)) }
    {
        if cells <= self.pieces[0] as usize && self.pieces[3] < self.pieces[1] {
            Ok(self.pieces[3])
        } else {
            Err(Refusal::PastLimits)
        }
    }

    /// One change more, which is open.
    pub fn add_change(&mut self, author: u32)
        requires { slice_index self.old.pieces.now 3 < slice_index self.old.pieces.now 1 }
        ensures { Writes self.old self.new (with_changes (paper_in self.old) ((paper_in self.old).changes ++ (record { author = author; became = 0 } ∷ []))) }
    {
        let pieces = &mut *self.pieces;
        let number = pieces[3];
        changes::add(&mut pieces[HEAD..], number as usize, author);
        pieces[3] = number + 1;
    }

    /// The latest change goes.
    pub fn drop_change(&mut self)
        requires { 0 < slice_index self.old.pieces.now 3 }
        ensures { Writes self.old self.new (with_changes (paper_in self.old) (but_last (paper_in self.old).changes)) }
    {
        let pieces = &mut *self.pieces;
        let left = pieces[3] - 1;
        pieces[3] = left;
    }

    /// What became of a change is noted: a number, as a `Change` has it, since undoing makes one open again.
    pub fn judge(&mut self, change: u32, became: u32)
        requires { change < slice_index self.old.pieces.now 3 }
        ensures { Writes self.old self.new (with_changes (paper_in self.old) (with_became (paper_in self.old).changes change became)) }
    {
        let number = self.pieces[3] as usize;
        changes::decide(&mut self.pieces[HEAD..], number, change as usize, became);
    }
}
