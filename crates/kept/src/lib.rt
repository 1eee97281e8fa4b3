// A paper's cells in pieces, as one value, with what is kept of each piece: how many of its cells are seen in each way, and what it does to rows. Whoever
// changes cells of a piece over the slices tallies that piece; the methods of `TextMut` do it themselves.
#![tactic(auto)]

ghost use Rattle.std.specs.Prelude.{◌≡◌, ℕ, ◌+◌, ◌-◌, ◌*◌, ◌/◌, ◌<◌, ◌≤◌, ◌≢◌, List, [], ◌∷◌, length, drop, slice_set};
ghost use Rattle.model.specs.Paper.{view};
ghost use Rattle.model.specs.Values.{cell_of, way_number};
ghost use Rattle.slots.specs.Cells.{all_cells};
ghost use Rattle.tree.specs.Tree.{Sums};
ghost use Rattle.pieces.specs.Edits.{replaced};
ghost use Rattle.pieces.specs.Store.{before, cells_of, cleared_cells, piece, slot, Store, used as uses};
ghost use Rattle.kept.specs.Kept.{Above, Around, cleared_tables, Counted, Kept, leaf, memo_of, Right, Room, Tallied, Trees};
ghost use Rattle.kept.specs.Leaves.{MovedUp};
ghost use Rattle.kept.specs.Text.{Edited};

mod memo;
mod text;

use breaks::{Begun, Reached};
pub use memo::Memo;
use model::{Cell, Way};
use pieces::Spot;
pub use text::{Text, TextMut};

// How many cells a slot takes.
const CELLS: usize = 1024;

// The words of the tables where the trees of counts of ways 1 and 2 begin, and the memos; and where these end.
const ACCEPTED: usize = 10240;

const REJECTED: usize = 14336;

const MEMOS: usize = 18432;

const WORDS: usize = 34816;

// How many words a memo has.
const MEMO: usize = 8;

// Where the leaves of a tree stand in it.
const LEAVES: usize = 2048;

// How many of some cells are seen in ways 1 and 2, as the leaves of the trees say it.
#[derive(Clone, Copy, Debug, PartialEq, Eq, Hash)]
struct SeenCounts {
    accepted: u32,
    rejected: u32,
}

const NONE: SeenCounts = SeenCounts {
    accepted: 0,
    rejected: 0,
};

// How many of the cells are seen.
fn count_seen(cells: &[u32], way: Way) -> usize
    ensures count { result ≡ length (view (way_number way) (all_cells cells.now)) }
    ensures few { result ≤ length cells.now / 4 }
{
    (slots::Cells { words: cells })
        .filter(|x| way.sees(*x))
        .count()
}

// The memo of slot `i`.
fn read_memo(p: &[u32], i: usize) -> Memo
    requires words { 34816 ≤ length p.now }
    requires inside { i < 2048 }
    ensures { result ≡ memo_of p.now i }
{
    let at = MEMOS + MEMO * i;
    Memo {
        width: p[at],
        way: p[at + 1],
        before: Begun {
            long: p[at + 2],
            space: p[at + 3],
        },
        reached: Reached {
            rows: p[at + 4],
            begun: Begun {
                long: p[at + 5],
                space: p[at + 6],
            },
        },
    }
}

/// Piece `k` gets a memo.
/// The slices apart, here and below, as the cells are only read.
pub fn remember(c: &[u32], p: &mut [u32], s: usize, k: usize, memo: Memo)
    requires kept { Kept c.now p.old s }
    requires here { k < s }
    requires right { Right memo (piece c.now p.old k) }
    ensures above { Above p.old p.new }
    ensures kept { Kept c.now p.new s }
{
    let at = MEMOS + MEMO * p[k] as usize;
    p[at] = memo.width;
    p[at + 1] = memo.way;
    p[at + 2] = memo.before.long;
    p[at + 3] = memo.before.space;
    p[at + 4] = memo.reached.rows;
    p[at + 5] = memo.reached.begun.long;
    p[at + 6] = memo.reached.begun.space;
}

// Counts the cells in both ways. They are no more than a piece has.
fn seen_of(cells: &[u32]) -> SeenCounts
    requires { length cells.now / 4 ≤ 1024 }
    ensures accepted { result.accepted ≡ length (view 1 (all_cells cells.now)) }
    ensures rejected { result.rejected ≡ length (view 2 (all_cells cells.now)) }
{
    SeenCounts {
        accepted: count_seen(cells, Way::Accepted) as u32,
        rejected: count_seen(cells, Way::Rejected) as u32,
    }
}

// The counts of one cell.
fn seen_of_cell(x: Cell) -> SeenCounts
    ensures accepted { result.accepted ≡ length (view 1 (cell_of x ∷ [])) }
    ensures rejected { result.rejected ≡ length (view 2 (cell_of x ∷ [])) }
{
    SeenCounts {
        accepted: u32::from(Way::Accepted.sees(x)),
        rejected: u32::from(Way::Rejected.sees(x)),
    }
}

// What is kept of piece `k`: these counts, and a memo that says nothing.
fn set_tally(p: &mut [u32], s: usize, k: usize, seen: SeenCounts)
    requires trees { Trees p.old s }
    requires here { k < s }
    requires most { s ≤ 2048 }
    requires slot { slot p.old k < 2048 }
    requires accepted { seen.accepted ≤ 1024 }
    requires rejected { seen.rejected ≤ 1024 }
    ensures counted { Counted p.old p.new k seen.accepted seen.rejected }
    ensures trees { Trees p.new s }
{
    let i = p[k] as usize;
    tree::set(&mut p[ACCEPTED..], k, seen.accepted);
    tree::set(&mut p[REJECTED..], k, seen.rejected);
    p[MEMOS + MEMO * i] = 0;
}

// The counts of piece `k` follow a change of its cells: `gone` went, and `new` came.
fn change_tally(p: &mut [u32], s: usize, k: usize, gone: SeenCounts, new: SeenCounts)
    requires trees { Trees p.old s }
    requires here { k < s }
    requires most { s ≤ 2048 }
    requires slot { slot p.old k < 2048 }
    requires accepted { Room p.old 10240 k gone.accepted new.accepted }
    requires rejected { Room p.old 14336 k gone.rejected new.rejected }
    ensures counted { Counted p.old p.new k (leaf p.old 10240 k - gone.accepted + new.accepted) (leaf p.old 14336 k - gone.rejected + new.rejected) }
    ensures trees { Trees p.new s }
{
    let seen = SeenCounts {
        accepted: p[ACCEPTED + LEAVES + k] - gone.accepted + new.accepted,
        rejected: p[REJECTED + LEAVES + k] - gone.rejected + new.rejected,
    };
    set_tally(p, s, k, seen);
}

/// What is kept of piece `k` follows its cells: its counts are made anew, and its memo says nothing.
pub fn tally(c: &[u32], p: &mut [u32], s: usize, k: usize)
    requires store { Store c.now p.old s }
    requires trees { Trees p.old s }
    requires here { k < s }
    ensures above { Above p.old p.new }
    ensures store { Store c.now p.new s }
    ensures trees { Trees p.new s }
    ensures here { Tallied c.now p.new k }
    ensures others { (j : ℕ) → j < s → j ≢ k → Tallied c.now p.old j → Tallied c.now p.new j }
{
    let cells = slots::part(c, CELLS * p[k] as usize, pieces::used(p, k));
    set_tally(p, s, k, seen_of(cells));
}

/// Makes an empty text in `s` slots. Every word of the slots and of the tables is known afterwards.
pub fn clear(c: &mut [u32], p: &mut [u32], s: usize)
    requires some { 0 < s }
    requires most { s ≤ 2048 }
    requires cells { 4096 * s ≤ length c.old }
    requires words { 34816 ≤ length p.old }
    ensures cells { c.new ≡ cleared_cells c.old s }
    ensures words { p.new ≡ cleared_tables p.old s }
    ensures empty { cells_of c.new p.new s ≡ [] }
    ensures kept { Kept c.new p.new s }
{
    p[ACCEPTED..WORDS].fill(0);
    pieces::clear(c, p, s);
}

// The leaves of the tree that begins at word `t` follow a cut of piece `k`: the last one moves behind leaf k, and those between move up by one.
fn move_up(p: &mut [u32], t: usize, s: usize, k: usize)
    requires sums { Sums (drop t p.old) }
    requires here { k + 1 < s }
    requires most { s ≤ 2048 }
    ensures { MovedUp p.old p.new t s k }
{
    pieces::rotate(p, t + LEAVES + k + 1, t + LEAVES + s - 1);
    tree::rebuild(&mut p[t..]);
}

// Cuts piece `k` in its middle. The last piece is empty, and takes the second half.
fn cut(c: &mut [u32], p: &mut [u32], s: usize, k: usize)
    requires kept { Kept c.old p.old s }
    requires here { k + 1 < s }
    requires spare { uses p.old (s - 1) ≡ 0 }
    ensures kept { Kept c.new p.new s }
    ensures around { Around c.old p.old c.new p.new s }
    ensures text { cells_of c.new p.new s ≡ cells_of c.old p.old s }
    ensures before { before p.new k ≡ before p.old k }
    ensures here { uses p.new k ≡ uses p.old k / 2 }
    ensures next { uses p.new (k + 1) ≡ uses p.old k - uses p.old k / 2 }
{
    let middle = Spot {
        piece: k,
        offset: pieces::used(p, k) / 2,
    };
    pieces::split(c, p, s, middle);
    move_up(p, ACCEPTED, s, k);
    move_up(p, REJECTED, s, k);
    tally(c, p, s, k);
    tally(c, p, s, k + 1);
}

// Packs the cells together. The last piece is empty afterwards, unless there are too many cells.
fn pack(c: &mut [u32], p: &mut [u32], s: usize)
    requires kept { Kept c.old p.old s }
    ensures kept { Kept c.new p.new s }
    ensures around { Around c.old p.old c.new p.new s }
    ensures text { cells_of c.new p.new s ≡ cells_of c.old p.old s }
    ensures spare { before p.old s < 768 * (s - 1) → uses p.new (s - 1) ≡ 0 }
{
    pieces::repack(c, p, s);
    // By number, as each turn changes the words that hold the pieces.
    for k in 0..s {
        tally(c, p, s, k);
    }
}

// Writes the cell at a spot, and what is kept of its piece follows.
// By the slices, here and in the next two, as between the two steps what is kept of the piece is not true, which a `TextMut` does not allow.
fn write_here(c: &mut [u32], p: &mut [u32], s: usize, at: Spot, cell: Cell)
    requires kept { Kept c.old p.old s }
    requires here { at.piece < s }
    requires within { at.offset < uses p.old at.piece }
    ensures { Edited c.old p.old c.new p.new s (slice_set (cells_of c.old p.old s) (before p.old at.piece + at.offset) (cell_of cell)) }
{
    let gone = slots::read(c, pieces::number_of(p, s, at.piece, at.offset));
    pieces::write_here(c, p, s, at, cell);
    change_tally(p, s, at.piece, seen_of_cell(gone), seen_of_cell(cell));
}

// Puts the cells whose words `new` has in at a spot, and what is kept of its piece follows. They fit the piece.
fn insert_here(c: &mut [u32], p: &mut [u32], s: usize, at: Spot, new: &[u32])
    requires kept { Kept c.old p.old s }
    requires here { at.piece < s }
    requires within { at.offset ≤ uses p.old at.piece }
    requires fits { uses p.old at.piece + length new.now / 4 ≤ 1024 }
    ensures { Edited c.old p.old c.new p.new s (replaced (cells_of c.old p.old s) (before p.old at.piece + at.offset) 0 (all_cells new.now)) }
{
    pieces::insert_here(c, p, s, at, new);
    change_tally(p, s, at.piece, NONE, seen_of(new));
}

// Takes `n` cells out of a piece, from a spot of it on, and what is kept of it follows.
fn remove_here(c: &mut [u32], p: &mut [u32], s: usize, at: Spot, n: usize)
    requires kept { Kept c.old p.old s }
    requires here { at.piece < s }
    requires within { at.offset + n ≤ uses p.old at.piece }
    ensures { Edited c.old p.old c.new p.new s (replaced (cells_of c.old p.old s) (before p.old at.piece + at.offset) n []) }
{
    let gone = seen_of(slots::part(c, pieces::number_of(p, s, at.piece, at.offset), n));
    pieces::remove_here(c, p, s, at, n);
    change_tally(p, s, at.piece, gone, NONE);
}
