// Strike, accept, reject and style over the cells of a text, said once: each is a sweep, which goes over cells in order, drops some and changes others.
#![tactic(auto)]

ghost use Rattle.std.specs.Prelude.{◌≡◌, ℕ, suc, ◌+◌, ◌*◌, ◌/◌, ◌<◌, ◌≤◌, ◌||◌, List, ◌++◌, length, take, drop, ◌==◌, nat_eq, slice_index};
ghost use Rattle.changes.specs.Rows.{changes_in};
ghost use Rattle.model.specs.Paper.{author_of, pick, touched as touches};
ghost use Rattle.model.specs.Values.{cell_of};
ghost use Rattle.kept.specs.Kept.{Kept as KeptText};
ghost use Rattle.pieces.specs.Edits.{Changed, Resized};
ghost use Rattle.pieces.specs.Store.{Order, Store, piece, slot, used};
ghost use Rattle.kept.specs.Text.{cells_in, cells_of_mut, Rewrites};
ghost use Rattle.slots.specs.Cells.{Kept, all_cells, cell_at, cells_at};
ghost use Rattle.sweep.specs.Sweep.{changed as afterwards, concerned as concerned_in, fate as fate_of, goes as is_gone, left_of, marked, Noted, OneMeaning, swept, swept_run, SweptPiece};
ghost use Rattle.tree.specs.Tree.{Sums};

use changes::Row;
use kept::{Text, TextMut};
use model::Cell;
use pieces::Spot;

/// What a sweep does to the cells it comes to. A strike writes the mark, which is one more than the number of its change.
#[derive(Clone, Copy, Debug, PartialEq, Eq, Hash)]
pub enum Action {
    Strike { author: u32, mark: u32 },
    Accept { change: u32 },
    Reject { change: u32 },
    Style { style: u32 },
}

/// What the model says of the four is a sweep.
pub fn one_meaning()
    ensures { OneMeaning }
{}

// Whether the mark is that of the change.
fn is_mark(mark: u32, change: u32) -> bool
    ensures { result ≡ (mark == suc change) }
{
    // In 64 bits, as the mark of the greatest change would not fit a word.
    u64::from(mark) == u64::from(change) + 1
}

/// Whether the mark is that of a change of the author.
pub fn is_of(mark: u32, author: u32, row: &Row) -> bool
    ensures { result ≡ (author_of (changes_in row.now) mark == suc author) }
{
    if mark == 0 {
        return false;
    }
    match row.get((mark - 1) as usize) {
        Some(change) => change.author == author,
        None => author == 0,
    }
}

// No mark if the mark is that of the change.
fn cleared(mark: u32, change: u32) -> u32
    ensures { result ≡ pick (mark == suc change) 0 mark }
{
    if is_mark(mark, change) { 0 } else { mark }
}

// What a cell is afterwards if it stays.
fn changed(cell: Cell, action: Action) -> Cell
    ensures { cell_of result ≡ afterwards action (cell_of cell) }
{
    match action {
        Action::Strike { mark, .. } => {
            let struck = if cell.struck == 0 { mark } else { cell.struck };
            Cell { struck, ..cell }
        }
        Action::Accept { change } => {
            let put_in = cleared(cell.put_in, change);
            Cell { put_in, ..cell }
        }
        Action::Reject { change } => {
            let struck = cleared(cell.struck, change);
            Cell { struck, ..cell }
        }
        Action::Style { style } => Cell { style, ..cell },
    }
}

// Piece `k` gets the length `n`, and its set of marks the one that the action writes.
// The slices apart, as the text is between two states here.
fn shrink(p: &mut [u32], s: usize, k: usize, n: usize, action: Action)
    requires order { Order p.old s }
    requires here { k < s }
    requires small { n ≤ 1024 }
    requires sums { Sums (drop 2048 p.old) }
    ensures resized { Resized p.old p.new k n }
    ensures sums { Sums (drop 2048 p.new) }
    ensures noted { Noted action p.new (slot p.new k) }
{
    pieces::resize(p, k, n);
    match action {
        Action::Strike { mark, .. } => {
            // 0 is no mark: such a strike notes none.
            if mark > 0 {
                pieces::add_mark(p, s, k, mark);
            }
        }
        Action::Accept { .. } | Action::Reject { .. } | Action::Style { .. } => {}
    }
}

/// Whether a cell has the mark of the change.
pub fn is_touched(cell: Cell, change: u32) -> bool
    ensures { result ≡ (nat_eq cell.put_in (suc change) || cell.struck == suc change) }
{
    is_mark(cell.put_in, change) || is_mark(cell.struck, change)
}

// A law, and no more: no word holds a greater number than a word can.
fn words_fit(words: &[u32])
    ensures { (k : ℕ) → slice_index words.now k < 4294967296 }
{}

// How many of the cells whose words `cells` has have the mark. (By the mark, which whoever asks has at hand.)
fn marked_cells(cells: &[u32], mark: u32) -> usize
    ensures count { result ≡ marked mark (all_cells cells.now) }
    ensures few { result ≤ length cells.now / 4 }
{
    (slots::Cells { words: cells })
        .filter(|cell| cell.put_in == mark || cell.struck == mark)
        .count()
}

// How many cells of piece `k` have the mark of the change.
fn touched_piece(text: &Text, k: usize, change: u32) -> usize
    requires { k < text.now.slots }
    ensures count { result ≡ touches (piece text.now.cells.now text.now.tables.now k) change }
    ensures few { result ≤ 1024 }
{
    // The greatest number is none of a change: its mark would not fit a word.
    let Some(mark) = change.checked_add(1) else {
        words_fit(text.cells);
        return 0;
    };
    if !text.may_have(k, mark) {
        return 0;
    }
    marked_cells(text.words_of(k), mark)
}

// How many cells of piece `k` a sweep is about: those with the mark of the change that is decided, or all. If there are none, it leaves the piece as it is.
fn concerned(text: &Text, k: usize, action: Action) -> usize
    requires { k < text.now.slots }
    ensures count { result ≡ concerned_in action (piece text.now.cells.now text.now.tables.now k) }
    ensures few { result ≤ 1024 }
{
    match action {
        Action::Accept { change } | Action::Reject { change } => touched_piece(text, k, change),
        Action::Strike { .. } | Action::Style { .. } => text.used(k),
    }
}

// What a sweep does, with the changes of which its marks tell. No `PartialEq` and no `Hash`, as `Row` has none.
#[derive(Clone, Copy, Debug)]
struct Sweep<'a> {
    row: Row<'a>,
    action: Action,
}

impl<'a> Sweep<'a> {
    // Whether a cell goes.
    fn goes(&self, cell: Cell) -> bool
        ensures { result ≡ is_gone self.now.action (changes_in self.now.row) (cell_of cell) }
    {
        match self.action {
            Action::Strike { author, .. } => is_of(cell.put_in, author, &self.row),
            Action::Accept { change } => is_mark(cell.struck, change),
            Action::Reject { change } => is_mark(cell.put_in, change),
            Action::Style { .. } => false,
        }
    }

    // What becomes of a cell: it goes, or it stays, changed or not.
    fn fate(&self, cell: Cell) -> Option<Cell>
        ensures { left_of result ≡ fate_of self.now.action (changes_in self.now.row) (cell_of cell) }
    {
        if self.goes(cell) {
            None
        } else {
            Some(changed(cell, self.action))
        }
    }

    // Writes what becomes of cell `i` behind the first `stay` cells, all counted from number `at` on. Returns how many there are now.
    // `at` stands beside the words, here and below: the contracts say of all the words which may have changed (`Kept`); of a slice each caller would have to
    // say again what part of the words it is.
    fn sweep_cell(&self, c: &mut [u32], at: usize, i: usize, stay: usize) -> usize
        requires room { 4 * (at + i) + 4 ≤ length c.old }
        requires behind { stay ≤ i }
        ensures behind { result ≤ i + 1 }
        ensures cells { cells_at c.new at result ≡ cells_at c.old at stay ++ fate_of self.now.action (changes_in self.now.row) (cell_at c.old (at + i)) }
        ensures kept { Kept c.old c.new at result }
    {
        match self.fate(slots::read(c, at + i)) {
            None => stay,
            Some(cell) => {
                slots::write(c, at + stay, cell);
                stay + 1
            }
        }
    }

    // Sweeps the `n` cells from number `at` on. What is left of them stands at the front. Returns how many are left.
    fn sweep_cells(&self, c: &mut [u32], at: usize, n: usize) -> usize
        requires room { 4 * (at + n) ≤ length c.old }
        ensures few { result ≤ n }
        ensures cells { cells_at c.new at result ≡ swept self.now.action (changes_in self.now.row) (cells_at c.old at n) }
        ensures kept { Kept c.old c.new at n }
    {
        let mut stay = 0;
        // An index, as the cells that stay are written over the lent words that are read.
        for i in 0..n {
            stay = self.sweep_cell(c, at, i, stay);
        }
        stay
    }

    // Sweeps the `n` cells from number `at` on, and moves the `behind` cells that follow them down. Returns how many of the `n` are left.
    fn sweep_slot(&self, c: &mut [u32], at: usize, n: usize, behind: usize) -> usize
        requires { 4 * (at + n + behind) ≤ length c.old }
        ensures few { result ≤ n }
        ensures cells { cells_at c.new at result ≡ swept self.now.action (changes_in self.now.row) (cells_at c.old at n) }
        ensures moved { cells_at c.new (at + result) behind ≡ cells_at c.old (at + n) behind }
        ensures kept { Kept c.old c.new at (n + behind) }
    {
        let left = self.sweep_cells(c, at, n);
        slots::copy(c, at + n, at + left, behind);
        left
    }

    // Sweeps `n` cells of a piece, from the spot on. Returns how many of them are left.
    // The slices apart, as the text is between two states here.
    fn sweep_piece(&self, c: &mut [u32], p: &mut [u32], s: usize, spot: Spot, n: usize) -> usize
        requires store { Store c.old p.old s }
        requires here { spot.piece < s }
        requires within { spot.offset + n ≤ used p.old spot.piece }
        ensures changed { Changed c.old p.old c.new p.new s spot.piece (swept_run self.now.action (changes_in self.now.row) (piece c.old p.old spot.piece) spot.offset n) }
        ensures store { Store c.new p.new s }
        ensures left { result ≡ length (swept self.now.action (changes_in self.now.row) (take n (drop spot.offset (piece c.old p.old spot.piece)))) }
        ensures few { result ≤ n }
    {
        let at = pieces::number_of(p, s, spot.piece, spot.offset);
        let has = pieces::used(p, spot.piece);
        let left = self.sweep_slot(c, at, n, has - (spot.offset + n));
        shrink(p, s, spot.piece, has - n + left, self.action);
        left
    }

    // Sweeps `n` cells of a piece, from the spot on, and tallies it. Returns how many of them are left.
    // The slices apart, as in `sweep_piece`.
    fn sweep_part(&self, c: &mut [u32], p: &mut [u32], s: usize, spot: Spot, n: usize) -> usize
        requires kept { KeptText c.old p.old s }
        requires here { spot.piece < s }
        requires within { spot.offset + n ≤ used p.old spot.piece }
        ensures swept { SweptPiece c.old p.old c.new p.new s spot.piece (swept_run self.now.action (changes_in self.now.row) (piece c.old p.old spot.piece) spot.offset n) }
        ensures left { result ≡ length (swept self.now.action (changes_in self.now.row) (take n (drop spot.offset (piece c.old p.old spot.piece)))) }
        ensures few { result ≤ n }
    {
        let left = self.sweep_piece(c, p, s, spot, n);
        kept::tally(c, p, s, spot.piece);
        left
    }

    // Sweeps all cells of piece `k`, and makes its set of marks anew, from the cells that are left (no contract says that it has no others). A piece without a cell that the sweep
    // is about is only read. Returns how many such cells there were.
    // The slices apart, as in `sweep_piece`: of a `TextMut` each contract would have to say too that it is the same memory, as `Rewrites` does for a whole sweep.
    fn sweep_whole(&self, c: &mut [u32], p: &mut [u32], s: usize, k: usize) -> usize
        requires kept { KeptText c.old p.old s }
        requires here { k < s }
        ensures swept { SweptPiece c.old p.old c.new p.new s k (swept self.now.action (changes_in self.now.row) (piece c.old p.old k)) }
        ensures count { result ≡ concerned_in self.now.action (piece c.old p.old k) }
        ensures few { result ≤ 1024 }
    {
        let text = Text {
            cells: c,
            tables: p,
            slots: s,
        };
        let count = concerned(&text, k, self.action);
        if count == 0 {
            return 0;
        }
        // Written out, as a spot is just these two numbers.
        let start = Spot {
            piece: k,
            offset: 0,
        };
        let has = text.used(k);
        self.sweep_part(c, p, s, start, has);
        pieces::remark(c, p, s, k);
        count
    }
}

/// Sweeps the `n` cells of the text from `place` on.
pub fn sweep_run(text: &mut TextMut, row: &Row, place: usize, n: usize, action: Action)
    requires { place + n ≤ length (cells_of_mut text.old) }
    ensures { Rewrites text.old text.new (swept_run action (changes_in row.now) (cells_of_mut text.old) place n) }
{
    let sweep = Sweep { row: *row, action };
    let mut next = place;
    let mut left = n;
    // Not a `for`, as only a turn itself shows how many cells it takes.
    while left > 0 {
        let lent = text.text();
        let spot = lent.locate(next);
        // As many as stand in this piece. In two lines, as a function of them would have to give both the spot and the number.
        let has = lent.used(spot.piece) - spot.offset;
        let m = left.min(has);
        next += sweep.sweep_part(text.cells, text.tables, text.slots, spot, m);
        left -= m;
    }
}

/// Sweeps all cells of the text. Returns how many of them the action was about: those that had the mark of the change that is decided, or all.
pub fn sweep_all(text: &mut TextMut, row: &Row, action: Action) -> u32
    ensures swept { Rewrites text.old text.new (swept action (changes_in row.now) (cells_of_mut text.old)) }
    ensures count { result ≡ concerned_in action (cells_of_mut text.old) }
{
    let sweep = Sweep { row: *row, action };
    let mut count = 0;
    // By its number, which each question about a piece takes.
    for k in 0..text.slots {
        count += sweep.sweep_whole(text.cells, text.tables, text.slots, k);
    }
    count as u32
}

/// How many cells have the mark of the change.
pub fn touched(text: &Text, change: u32) -> u32
    ensures { result ≡ touches (cells_in text.now) change }
{
    let mut count = 0;
    // By its number, which each question about a piece takes.
    for k in 0..text.slots {
        count += touched_piece(text, k, change);
    }
    count as u32
}
