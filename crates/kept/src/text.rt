// A text that is kept in pieces, as one value: lent to be read, or lent to be changed.
ghost use Rattle.std.specs.Prelude.{◌≡◌, ◌+◌, ◌-◌, ◌*◌, ◌/◌, ◌<◌, ◌≤◌, false, [], ◌++◌, length, take, drop, slice_index_or, slice_set};
ghost use Rattle.std.specs.List.{AllByRecursion};
ghost use Rattle.kept.specs.Props.{props};
ghost use Rattle.model.specs.Paper.{new_cells, view};
ghost use Rattle.model.specs.Values.{cell_of, way_number};
ghost use Rattle.slots.specs.Cells.{all_cells};
ghost use Rattle.pieces.specs.Store.{Gap, Located, before, no_cell, number, piece, slot, used as uses};
ghost use Rattle.pieces.specs.Edits.{replaced};
ghost use Rattle.pieces.specs.Marks.{Lacks, has};
ghost use Rattle.kept.specs.Kept.{Kept, memo_of, tree_at};

use crate::{
    ACCEPTED, CELLS, LEAVES, Memo, REJECTED, cut, insert_here, pack, read_memo, remove_here,
    write_here,
};
use model::{Cell, Way};
use pieces::Spot;

// Where the store's own tree of lengths begins: in way 0 every cell is seen.
const EVERYTHING: usize = 2048;

// How many cells are put into a piece at once at most. One that is cut in its middle has room for 512; with parts of 512 many pieces would be just full after
// long puts, and be cut again by the next.
const PART: usize = 320;

// Where the tree of counts of a way begins.
fn tree_of(way: Way) -> usize
    ensures { result ≡ tree_at way }
{
    match way {
        Way::Everything => EVERYTHING,
        Way::Accepted => ACCEPTED,
        Way::Rejected => REJECTED,
    }
}

/// A text that is only read: two lent slices of words, and how many slots there are.
/// No `PartialEq` and no `Hash`: the same cells may stand in other words.
#[derive(Clone, Copy, Debug)]
pub struct Text<'a> {
    pub cells: &'a [u32],
    pub tables: &'a [u32],
    pub slots: usize,
    ghost kept: { Kept cells.now tables.now slots } by { Prim.hlevel props },
}

// A piece goes by its number, here and in the crates above: a value of a text and a number would promise only that the piece is there, which each loop over
// the numbers gives.
impl<'a> Text<'a> {
    ghost use Rattle.kept.specs.Text.{cells_in, FoundSeen};

    /// How many cells piece `k` has.
    pub fn used(&self, k: usize) -> usize
        requires { k < 2048 }
        ensures { result ≡ uses self.now.tables.now k }
    {
        pieces::used(self.tables, k)
    }

    /// The number of cell `j` of piece `k`.
    pub fn number_of(&self, k: usize, j: usize) -> usize
        requires here { k < self.now.slots }
        requires within { j ≤ 1024 }
        ensures { result ≡ number self.now.tables.now k j }
    {
        pieces::number_of(self.tables, self.slots, k, j)
    }

    /// The words of the cells of piece `k`.
    pub fn words_of(&self, k: usize) -> &'a [u32]
        requires { k < self.now.slots }
        ensures cells { all_cells result.now ≡ piece self.now.cells.now self.now.tables.now k }
        ensures long { length result.now ≡ 4 * uses self.now.tables.now k }
    {
        slots::part(self.cells, self.number_of(k, 0), self.used(k))
    }

    /// Cell `j` of piece `k`.
    pub fn cell(&self, k: usize, j: usize) -> Cell
        requires here { k < self.now.slots }
        requires within { j < uses self.now.tables.now k }
        ensures { cell_of result ≡ slice_index_or (cells_in self.now) (before self.now.tables.now k + j) no_cell }
    {
        slots::read(self.cells, self.number_of(k, j))
    }

    /// How many cells there are.
    pub fn count(&self) -> usize
        ensures { result ≡ before self.now.tables.now self.now.slots }
    {
        pieces::count(self.tables, self.slots)
    }

    /// Where cell number `place` stands.
    pub fn locate(&self, place: usize) -> Spot
        requires { place < before self.now.tables.now self.now.slots }
        ensures { Located self.now.tables.now self.now.slots place result.piece result.offset }
    {
        pieces::locate(self.tables, self.slots, place)
    }

    /// Whether piece `k` may have a cell with the mark. If not, it has none.
    pub fn may_have(&self, k: usize, mark: u32) -> bool
        requires here { k < self.now.slots }
        requires some { 0 < mark }
        ensures is { result ≡ has self.now.tables.now (slot self.now.tables.now k) mark }
        ensures lacks { result ≡ false → AllByRecursion (Lacks mark) (piece self.now.cells.now self.now.tables.now k) }
    {
        pieces::may_have(self.tables, self.slots, k, mark)
    }

    /// How many cells are seen.
    pub fn seen(&self, way: Way) -> usize
        ensures { result ≡ length (view (way_number way) (cells_in self.now)) }
    {
        self.tables[tree_of(way) + 1] as usize
    }

    /// How many cells of piece `k` are seen.
    pub fn seen_in(&self, k: usize, way: Way) -> usize
        requires { k < self.now.slots }
        ensures { result ≡ length (view (way_number way) (piece self.now.cells.now self.now.tables.now k)) }
    {
        self.tables[tree_of(way) + LEAVES + k] as usize
    }

    /// In which piece seen cell number `place` stands, and how many seen cells of the piece stand before it.
    pub fn find_seen(&self, way: Way, place: usize) -> Spot
        requires { place < length (view (way_number way) (cells_in self.now)) }
        ensures { FoundSeen self.now.cells.now self.now.tables.now self.now.slots (way_number way) place result.piece result.offset }
    {
        tree::find(&self.tables[tree_of(way)..], place)
    }

    /// What is kept of piece `k` about rows.
    pub fn memo(&self, k: usize) -> Memo
        requires { k < self.now.slots }
        ensures { result ≡ memo_of self.now.tables.now (slot self.now.tables.now k) }
    {
        read_memo(self.tables, self.tables[k] as usize)
    }

    // Where a cell that is put in at `place` goes: at the front, or just behind the cell before it.
    fn gap(&self, place: usize) -> Spot
        requires { place ≤ before self.now.tables.now self.now.slots }
        ensures { Gap self.now.tables.now self.now.slots place result.piece result.offset }
    {
        // By its two fields, here and below: a method for each such spot would say less.
        if place == 0 {
            return Spot {
                piece: 0,
                offset: 0,
            };
        }
        let before = self.locate(place - 1);
        Spot {
            piece: before.piece,
            offset: before.offset + 1,
        }
    }
}

/// A text that is changed. It has no `Clone`, as it holds memory that is lent to be changed, and nothing prints or compares it.
#[derive(Drop)]
pub struct TextMut<'a> {
    pub cells: &'a mut [u32],
    pub tables: &'a mut [u32],
    pub slots: usize,
    ghost kept: { Kept cells.now tables.now slots } by { Prim.hlevel props },
}

impl<'a> TextMut<'a> {
    ghost use Rattle.kept.specs.Text.{Rewrites, cells_of_mut};

    /// The same text, to be read.
    pub fn text(&self) -> Text<'_>
        ensures cells { result.cells.now ≡ self.now.cells.now }
        ensures tables { result.tables.now ≡ self.now.tables.now }
        ensures slots { result.slots ≡ self.now.slots }
    {
        Text {
            cells: self.cells,
            tables: self.tables,
            slots: self.slots,
        }
    }

    /// Writes the cell at a spot.
    pub fn overwrite(&mut self, at: Spot, cell: Cell)
        requires here { at.piece < self.old.slots }
        requires within { at.offset < uses self.old.tables.now at.piece }
        ensures { Rewrites self.old self.new (slice_set (cells_of_mut self.old) (before self.old.tables.now at.piece + at.offset) (cell_of cell)) }
    {
        write_here(self.cells, self.tables, self.slots, at, cell);
    }

    /// Puts letters into the text at `place`: new cells in one style, put in by one change.
    /// (The change and not its mark, here and in `slots`, as the model's `new_cells` has it: the bound is what its mark needs.)
    pub fn put(&mut self, place: usize, letters: &[u8], style: u32, change: u32)
        requires place { place ≤ length (cells_of_mut self.old) }
        requires few { length letters.now ≤ 1024 }
        requires fits { length (cells_of_mut self.old) + length letters.now ≤ 768 * (self.old.slots - 1) }
        requires mark { change < 4294967295 }
        ensures { Rewrites self.old self.new (take place (cells_of_mut self.old) ++ (new_cells letters.now style change ++ drop place (cells_of_mut self.old))) }
    {
        // As long as the most letters of a call, as there is no heap.
        let mut new = [0; 4 * CELLS];
        slots::fill(&mut new, 0, letters, style, change);
        self.insert(place, &new[..4 * letters.len()]);
    }

    /// Puts the cells whose words `new` has into the text at `place`, however many they are.
    /// (Words and no `Cells`, here and below: they are pasted as words, and only counted in fours.)
    pub fn insert(&mut self, place: usize, new: &[u32])
        requires place { place ≤ length (cells_of_mut self.old) }
        requires fits { length (cells_of_mut self.old) + length new.now / 4 ≤ 768 * (self.old.slots - 1) }
        ensures { Rewrites self.old self.new (take place (cells_of_mut self.old) ++ (all_cells new.now ++ drop place (cells_of_mut self.old))) }
    {
        // The place by hand: each part goes behind the one before it, and the last may be shorter.
        let mut at = place;
        for part in new.chunks(4 * PART) {
            self.insert_part(at, part);
            at += part.len() / 4;
        }
    }

    /// Takes `n` cells out of the text, from `place` on.
    pub fn remove(&mut self, place: usize, n: usize)
        requires { place + n ≤ length (cells_of_mut self.old) }
        ensures { Rewrites self.old self.new (take place (cells_of_mut self.old) ++ drop (place + n) (cells_of_mut self.old)) }
    {
        let mut left = n;
        // Not a `for`, as only a turn itself shows how many cells it takes out.
        while left > 0 {
            left -= self.remove_some(place, left);
        }
    }

    // Puts cells into the text at `place`, no more than a part.
    fn insert_part(&mut self, place: usize, new: &[u32])
        requires place { place ≤ length (cells_of_mut self.old) }
        requires few { length new.now / 4 ≤ 512 }
        requires fits { length (cells_of_mut self.old) + length new.now / 4 ≤ 768 * (self.old.slots - 1) }
        ensures { Rewrites self.old self.new (replaced (cells_of_mut self.old) place 0 (all_cells new.now)) }
    {
        let at = self.make_room(place, new.len() / 4);
        self.insert_at(at, new);
    }

    // Sees to it that `n` cells, no more than a part, fit the piece at `place`: the cells are packed together where no slot is left, and a piece that still has
    // no room is cut in two. Returns where they go.
    fn make_room(&mut self, place: usize, n: usize) -> Spot
        requires place { place ≤ length (cells_of_mut self.old) }
        requires few { n ≤ 512 }
        requires fits { length (cells_of_mut self.old) + n ≤ 768 * (self.old.slots - 1) }
        ensures same { Rewrites self.old self.new (cells_of_mut self.old) }
        ensures gap { Gap self.new.tables.now self.new.slots place result.piece result.offset }
        ensures room { uses self.new.tables.now result.piece + n ≤ 1024 }
    {
        let text = self.text();
        let at = text.gap(place);
        if text.used(at.piece) + n <= CELLS {
            return at;
        }
        self.spare_last();
        let text = self.text();
        let at = text.gap(place);
        if text.used(at.piece) + n <= CELLS {
            return at;
        }
        self.cut_at(at)
    }

    // Sees to it that the last piece is empty.
    fn spare_last(&mut self)
        requires { length (cells_of_mut self.old) < 768 * (self.old.slots - 1) }
        ensures same { Rewrites self.old self.new (cells_of_mut self.old) }
        ensures spare { uses self.new.tables.now (self.new.slots - 1) ≡ 0 }
    {
        let text = self.text();
        if text.used(text.slots - 1) > 0 {
            pack(self.cells, self.tables, self.slots);
        }
    }

    // Cuts the piece of a gap in its middle. Returns where the gap is then.
    fn cut_at(&mut self, at: Spot) -> Spot
        requires here { at.piece < self.old.slots }
        requires within { at.offset ≤ uses self.old.tables.now at.piece }
        requires some { 0 < uses self.old.tables.now at.piece }
        requires spare { uses self.old.tables.now (self.old.slots - 1) ≡ 0 }
        ensures same { Rewrites self.old self.new (cells_of_mut self.old) }
        ensures gap { Gap self.new.tables.now self.new.slots (before self.old.tables.now at.piece + at.offset) result.piece result.offset }
        ensures room { uses self.new.tables.now result.piece ≤ 512 }
    {
        cut(self.cells, self.tables, self.slots, at.piece);
        let half = self.text().used(at.piece);
        if at.offset <= half {
            return at;
        }
        Spot {
            piece: at.piece + 1,
            offset: at.offset - half,
        }
    }

    // Puts the cells in at a gap. They fit the piece there.
    fn insert_at(&mut self, at: Spot, new: &[u32])
        requires here { at.piece < self.old.slots }
        requires within { at.offset ≤ uses self.old.tables.now at.piece }
        requires fits { uses self.old.tables.now at.piece + length new.now / 4 ≤ 1024 }
        ensures { Rewrites self.old self.new (replaced (cells_of_mut self.old) (before self.old.tables.now at.piece + at.offset) 0 (all_cells new.now)) }
    {
        insert_here(self.cells, self.tables, self.slots, at, new);
    }

    // Takes out cells from `place` on, as far as one piece has them and at most `n`. Returns how many.
    fn remove_some(&mut self, place: usize, n: usize) -> usize
        requires within { place + n ≤ before self.old.tables.now self.old.slots }
        requires some { 0 < n }
        ensures edited { Rewrites self.old self.new (replaced (cells_of_mut self.old) place result []) }
        ensures some { 0 < result }
        ensures most { result ≤ n }
    {
        let text = self.text();
        let at = text.locate(place);
        // In cells: where a file is written the same is counted in words, so there is no method for both.
        let m = n.min(text.used(at.piece) - at.offset);
        remove_here(self.cells, self.tables, self.slots, at, m);
        m
    }
}
