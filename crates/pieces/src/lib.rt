// A paper's cells kept in pieces, over two lent slices of words: `c` has `s` slots of 1,024 cells, and `p` says in which order the slots stand (words 0
// to 2047), how many cells each has (from word 2048 on, a tree of counts with 2,048 leaves) and which marks they may have (from word 6144 on, two words
// a slot). Every slot is a piece of the text, an unused one has no cells. Words of `c` past the slots and words of `p` past 10240 are never touched.
// These are functions of the slices: `kept` makes one value of them, with tables of its own that follow after each.
#![tactic(auto)]

ghost use Rattle.std.specs.Prelude.{◌≡◌, ℕ, ◌+◌, ◌-◌, ◌*◌, ◌/◌, ◌<◌, ◌≤◌, false, ◌≢◌, List, [], ◌++◌, ◌∷◌, length, take, drop};
ghost use Rattle.std.specs.List.{range_with_len, AllByRecursion};
ghost use Rattle.pieces.specs.Store.{used as uses, slot, number, piece, cells_of, before, cleared_cells, cleared_words, Located, Order, Table, Store};
ghost use Rattle.model.specs.Values.{cell_of};
ghost use Rattle.pieces.specs.Marks.{bits, has, noted, noted_cells, two_bits as two_bits_set, with_set, Beside, Grown, Has, Joined, Lacks};
ghost use Rattle.pieces.specs.Edits.{replaced, Changed, Cut, Filled, Packed, Recounted, Resized, Rotated, SameText, Shifted};
ghost use Rattle.slots.specs.Cells.{all_cells};
ghost use Rattle.tree.specs.Tree.{Sums};

use model::Cell;
pub use tree::Spot;

// How many cells a slot takes.
const CELLS: usize = 1024;

// How many cells a piece gets when pieces are packed: room is left, so that not every put cuts a piece.
const FULL: usize = 768;

// The words of `p` where the tree begins, where its leaves begin, where the first and the second words of the sets of marks begin, and where these end.
// Tables beside one another, as `p` is lent memory.
const TREE: usize = 2048;

const LEAVES: usize = 4096;

const LOW: usize = 6144;

const HIGH: usize = 8192;

const WORDS: usize = 10240;

// How many slots a paper of at most `max_cells` cells gets: more than it needs, so that slots seldom run short.
pub fn slots_for(max_cells: usize) -> usize
    requires { max_cells ≤ 1000000 }
    ensures slots { result ≡ max_cells / 576 + 4 }
    ensures most { result ≤ 2048 }
    ensures enough { max_cells ≤ 768 * (result - 1) }
{
    max_cells / 576 + 4
}

// How many cells piece `k` has. (Of the tables alone, like the next: steps of an edit have no text.)
pub fn used(p: &[u32], k: usize) -> usize
    requires leaf { k < 2048 }
    requires words { 6144 ≤ length p.now }
    ensures { result ≡ uses p.now k }
{
    p[LEAVES + k] as usize
}

// The number of cell `j` of piece `k`.
// By a piece and a place in it: half of the callers have no spot, and ask for the front of a piece or for the place behind its cells.
// `s`, here and below, is for the contract alone: it says of how many slots the order is.
pub fn number_of(p: &[u32], s: usize, k: usize, j: usize) -> usize
    requires order { Order p.now s }
    requires here { k < s }
    requires within { j ≤ 1024 }
    ensures { result ≡ number p.now k j }
{
    CELLS * p[k] as usize + j
}

// How many cells there are. This and the next two ask for the tables alone.
pub fn count(p: &[u32], s: usize) -> usize
    requires { Table p.now s }
    ensures { result ≡ before p.now s }
{
    p[TREE + 1] as usize
}

// Where cell number `place` of the text stands.
pub fn locate(p: &[u32], s: usize, place: usize) -> Spot
    requires table { Table p.now s }
    requires place { place < before p.now s }
    ensures { Located p.now s place result.piece result.offset }
{
    tree::find(&p[TREE..], place)
}

// Whether bits `i` and `j` of a word are set.
fn has_bits(word: u32, i: u32, j: u32) -> bool
    requires first { i < 32 }
    requires second { j < 32 }
    ensures { result ≡ bits word i j }
{
    ((word >> i) % 2 == 1) & ((word >> j) % 2 == 1)
}

// A word with bits `i` and `j` alone.
fn two_bits(i: u32, j: u32) -> u32
    requires first { i < 32 }
    requires second { j < 32 }
    ensures { result ≡ two_bits_set i j }
{
    (1 << i) | (1 << j)
}

// Whether piece `k` may have a cell with the mark. If not, it has none.
pub fn may_have(p: &[u32], s: usize, k: usize, mark: u32) -> bool
    requires order { Order p.now s }
    requires here { k < s }
    requires some { 0 < mark }
    ensures is { result ≡ has p.now (slot p.now k) mark }
    ensures lacks { result ≡ false → (c : List ℕ) → Store c p.now s → AllByRecursion (Lacks mark) (piece c p.now k) }
{
    let i = p[k] as usize;
    let low = has_bits(p[LOW + i], mark % 32, mark % 31);
    let high = has_bits(p[HIGH + i], mark / 32 % 32, mark % 29);
    low & high
}

// The set of marks of piece `k` gets the mark.
pub fn add_mark(p: &mut [u32], s: usize, k: usize, mark: u32)
    requires order { Order p.old s }
    requires here { k < s }
    requires some { 0 < mark }
    ensures is { p.new ≡ noted p.old (slot p.old k) mark }
    ensures grown { Grown p.old p.new }
    ensures has { Has p.new (slot p.old k) mark }
{
    let i = p[k] as usize;
    note(p, i, mark);
}

// Makes the set of marks of piece `k` anew: it then has the marks of its cells, and no others.
// The slices apart, as the cells are only read; so the words of the piece are told by them, and not by a text.
pub fn remark(c: &[u32], p: &mut [u32], s: usize, k: usize)
    requires store { Store c.now p.old s }
    requires here { k < s }
    ensures is { p.new ≡ noted_cells (with_set p.old (slot p.old k) 0 0) (slot p.old k) (piece c.now p.old k) }
    ensures beside { Beside p.old p.new }
    ensures store { Store c.now p.new s }
{
    let i = p[k] as usize;
    let n = used(p, k);
    p[LOW + i] = 0;
    p[HIGH + i] = 0;
    note_cells(p, i, slots::part(c, CELLS * i, n));
}

// Makes the sets of marks of all pieces anew. (It tells no more of them than what always holds, as a set may have too many marks at any time.)
// The slices apart, as for `remark`.
fn remark_all(c: &[u32], p: &mut [u32], s: usize)
    requires { Store c.now p.old s }
    ensures beside { Beside p.old p.new }
    ensures store { Store c.now p.new s }
{
    // By number, as each turn changes the words that hold the pieces.
    for k in 0..s {
        remark(c, p, s, k);
    }
}

// Makes an empty text in `s` slots. Every word of the slots, the order, the tree and the sets is known afterwards.
// The slices apart, as there is no text in them yet.
pub fn clear(c: &mut [u32], p: &mut [u32], s: usize)
    requires some { 0 < s }
    requires most { s ≤ 2048 }
    requires cells { 4096 * s ≤ length c.old }
    requires words { 10240 ≤ length p.old }
    ensures cells { c.new ≡ cleared_cells c.old s }
    ensures words { p.new ≡ cleared_words p.old s }
    ensures store { Store c.new p.new s }
    ensures empty { cells_of c.new p.new s ≡ [] }
{
    c[..4 * CELLS * s].fill(0);
    p[..WORDS].fill(0);
    enumerate(p, s);
}

// The first `n` words become 0, 1, 2, ...
fn enumerate(w: &mut [u32], n: usize)
    requires few { n ≤ 2048 }
    requires long { n ≤ length w.old }
    ensures { w.new ≡ range_with_len 0 n ++ drop n w.old }
{
    for (i, word) in w[..n].iter_mut().enumerate() {
        *word = i as u32;
    }
}

// Piece `k` gets the length `n`. The counts above it are not right afterwards.
fn set_length(p: &mut [u32], k: usize, n: usize)
    requires leaf { k < 2048 }
    requires words { 6144 ≤ length p.old }
    requires small { n ≤ 1024 }
    ensures { Resized p.old p.new k n }
{
    p[LEAVES + k] = n as u32;
}

// Piece `k` gets the length `n`, and the counts above it follow.
pub fn resize(p: &mut [u32], k: usize, n: usize)
    requires leaf { k < 2048 }
    requires words { 6144 ≤ length p.old }
    requires small { n ≤ 1024 }
    requires sums { Sums (drop 2048 p.old) }
    ensures resized { Resized p.old p.new k n }
    ensures sums { Sums (drop 2048 p.new) }
{
    tree::set(&mut p[TREE..], k, n as u32);
}

// All counts are made right again.
fn recount(p: &mut [u32], s: usize)
    requires { Order p.old s }
    ensures same { Recounted p.old p.new }
    ensures sums { Sums (drop 2048 p.new) }
{
    tree::rebuild(&mut p[TREE..]);
}

// The set of marks of slot `i` gets the mark, if it is one.
fn note(p: &mut [u32], i: usize, mark: u32)
    requires inside { i < 2048 }
    requires words { 10240 ≤ length p.old }
    ensures { p.new ≡ noted p.old i mark }
{
    if mark == 0 {
        return;
    }
    let low = p[LOW + i] | two_bits(mark % 32, mark % 31);
    let high = p[HIGH + i] | two_bits(mark / 32 % 32, mark % 29);
    p[LOW + i] = low;
    p[HIGH + i] = high;
}

// The set of slot `i` gets the marks of the cells whose words `cells` has.
fn note_cells(p: &mut [u32], i: usize, cells: &[u32])
    requires inside { i < 2048 }
    requires words { 10240 ≤ length p.old }
    ensures { p.new ≡ noted_cells p.old i (all_cells cells.now) }
{
    for cell in (slots::Cells { words: cells }) {
        note(p, i, cell.put_in);
        note(p, i, cell.struck);
    }
}

// The set of slot `a` gets the marks of that of slot `b`.
fn join(p: &mut [u32], a: usize, b: usize)
    requires target { a < 2048 }
    requires source { b < 2048 }
    requires words { 10240 ≤ length p.old }
    ensures { Joined p.old p.new a b }
{
    let low = p[LOW + a] | p[LOW + b];
    let high = p[HIGH + a] | p[HIGH + b];
    p[LOW + a] = low;
    p[HIGH + a] = high;
}

// Makes room for the cells whose words `new` has in the slot of a piece, at a spot of it, and writes them there.
fn insert_cells(c: &mut [u32], p: &[u32], s: usize, at: Spot, new: &[u32])
    requires order { Order p.now s }
    requires room { 4096 * s ≤ length c.old }
    requires here { at.piece < s }
    requires within { at.offset ≤ uses p.now at.piece }
    requires fits { uses p.now at.piece + length new.now / 4 ≤ 1024 }
    ensures { Filled c.old c.new p.now at.piece (replaced (piece c.old p.now at.piece) at.offset 0 (all_cells new.now)) }
{
    let number = number_of(p, s, at.piece, at.offset);
    slots::copy(
        c,
        number,
        number + new.len() / 4,
        used(p, at.piece) - at.offset,
    );
    slots::paste(c, number, new);
}

// Takes `n` cells out of the slot of a piece, from a spot of it on.
fn remove_cells(c: &mut [u32], p: &[u32], s: usize, at: Spot, n: usize)
    requires order { Order p.now s }
    requires room { 4096 * s ≤ length c.old }
    requires here { at.piece < s }
    requires within { at.offset + n ≤ uses p.now at.piece }
    ensures { Filled c.old c.new p.now at.piece (replaced (piece c.old p.now at.piece) at.offset n []) }
{
    let number = number_of(p, s, at.piece, at.offset);
    slots::copy(c, number + n, number, used(p, at.piece) - (at.offset + n));
}

// Copies `n` cells, from the spot `from` on, into the slot of piece `i` behind its cells.
fn append_cells(c: &mut [u32], p: &[u32], s: usize, i: usize, from: Spot, n: usize)
    requires order { Order p.now s }
    requires room { 4096 * s ≤ length c.old }
    requires target { i < s }
    requires source { from.piece < s }
    requires within { from.offset + n ≤ uses p.now from.piece }
    requires fits { uses p.now i + n ≤ 1024 }
    ensures { Filled c.old c.new p.now i (piece c.old p.now i ++ take n (drop from.offset (piece c.old p.now from.piece))) }
{
    slots::copy(
        c,
        number_of(p, s, from.piece, from.offset),
        number_of(p, s, i, used(p, i)),
        n,
    );
}

/// Puts the cells whose words `new` has in at a spot. They fit the slot there.
pub fn insert_here(c: &mut [u32], p: &mut [u32], s: usize, at: Spot, new: &[u32])
    requires store { Store c.old p.old s }
    requires here { at.piece < s }
    requires within { at.offset ≤ uses p.old at.piece }
    requires fits { uses p.old at.piece + length new.now / 4 ≤ 1024 }
    ensures changed { Changed c.old p.old c.new p.new s at.piece (replaced (piece c.old p.old at.piece) at.offset 0 (all_cells new.now)) }
    ensures store { Store c.new p.new s }
{
    insert_cells(c, p, s, at, new);
    let more = used(p, at.piece) + new.len() / 4;
    resize(p, at.piece, more);
    let i = p[at.piece] as usize;
    note_cells(p, i, new);
}

/// Takes `n` cells out of a piece, from a spot of it on.
pub fn remove_here(c: &mut [u32], p: &mut [u32], s: usize, at: Spot, n: usize)
    requires store { Store c.old p.old s }
    requires here { at.piece < s }
    requires within { at.offset + n ≤ uses p.old at.piece }
    ensures changed { Changed c.old p.old c.new p.new s at.piece (replaced (piece c.old p.old at.piece) at.offset n []) }
    ensures store { Store c.new p.new s }
{
    remove_cells(c, p, s, at, n);
    let left = used(p, at.piece) - n;
    resize(p, at.piece, left);
}

/// Writes the cell at a spot.
pub fn write_here(c: &mut [u32], p: &mut [u32], s: usize, at: Spot, cell: Cell)
    requires store { Store c.old p.old s }
    requires here { at.piece < s }
    requires within { at.offset < uses p.old at.piece }
    ensures changed { Changed c.old p.old c.new p.new s at.piece (replaced (piece c.old p.old at.piece) at.offset 1 (cell_of cell ∷ [])) }
    ensures store { Store c.new p.new s }
{
    let number = number_of(p, s, at.piece, at.offset);
    let i = p[at.piece] as usize;
    note(p, i, cell.put_in);
    note(p, i, cell.struck);
    slots::write(c, number, cell);
}

// Takes out `n` cells, from the spot `from` on, and puts them behind the cells of piece `i`. The counts are not right afterwards.
fn shift(c: &mut [u32], p: &mut [u32], s: usize, i: usize, from: Spot, n: usize)
    requires order { Order p.old s }
    requires room { 4096 * s ≤ length c.old }
    requires target { i < s }
    requires source { from.piece < s }
    requires two { i ≢ from.piece }
    requires within { from.offset + n ≤ uses p.old from.piece }
    requires fits { uses p.old i + n ≤ 1024 }
    ensures { Shifted c.old p.old c.new p.new s i from.piece from.offset n }
{
    let target = p[i] as usize;
    let source = p[from.piece] as usize;
    append_cells(c, p, s, i, from, n);
    let more = used(p, i) + n;
    set_length(p, i, more);
    join(p, target, source);
    remove_cells(c, p, s, from, n);
    let left = used(p, from.piece) - n;
    set_length(p, from.piece, left);
}

// The word at `to` moves down to `from`, and those between move up by one.
pub fn rotate(p: &mut [u32], from: usize, to: usize)
    requires order { from ≤ to }
    requires within { to < length p.old }
    ensures { Rotated p.old p.new from to }
{
    // Not by the library's `rotate_right`: that one calls `memmove`, which the archive for C would then need from outside. `copy_within` does not.
    let last = p[to];
    p.copy_within(from..to, from + 1);
    p[from] = last;
}

/// Cuts a piece at a spot: the last piece, which is empty, moves behind it and takes what follows.
pub fn split(c: &mut [u32], p: &mut [u32], s: usize, at: Spot)
    requires store { Store c.old p.old s }
    requires here { at.piece + 1 < s }
    requires within { at.offset ≤ uses p.old at.piece }
    requires spare { uses p.old (s - 1) ≡ 0 }
    ensures cut { Cut c.old p.old c.new p.new s at.piece at.offset }
    ensures store { Store c.new p.new s }
{
    rotate(p, at.piece + 1, s - 1);
    rotate(p, LEAVES + at.piece + 1, LEAVES + s - 1);
    let n = used(p, at.piece) - at.offset;
    shift(c, p, s, at.piece + 1, at, n);
    recount(p, s);
}

/// Packs the cells together: fills each piece up to 768 cells from those behind it. The last piece is empty afterwards, unless there are too many cells.
/// A piece takes all marks of each piece that it takes cells from, so the sets are made anew at the end: else they would fill up, and no piece be passed over.
pub fn repack(c: &mut [u32], p: &mut [u32], s: usize)
    requires { Store c.old p.old s }
    ensures same { SameText c.old p.old c.new p.new s }
    ensures store { Store c.new p.new s }
    ensures spare { before p.old s < 768 * (s - 1) → uses p.new (s - 1) ≡ 0 }
{
    let mut i = 0;
    // By number, as each turn changes the words that hold the pieces.
    for j in 1..s {
        i = settle(c, p, s, i, j);
    }
    recount(p, s);
    remark_all(c, p, s);
}

// Packs the cells of piece `j` into the pieces from `i` on. Returns the last of them.
fn settle(c: &mut [u32], p: &mut [u32], s: usize, i: usize, j: usize) -> usize
    requires order { Order p.old s }
    requires room { 4096 * s ≤ length c.old }
    requires here { j < s }
    requires first { i ≤ j }
    requires packed { Packed p.old i j }
    ensures same { SameText c.old p.old c.new p.new s }
    ensures first { result ≤ j }
    ensures packed { Packed p.new result (j + 1) }
{
    let mut i = i;
    // Not a `for`, as a turn may stay at the same piece: it says with which piece to go on.
    while i < j && used(p, j) > 0 {
        i = pour(c, p, s, i, j);
    }
    i
}

// Fills piece `i` up from piece `j`, or goes on to the next piece if it is full. Returns the piece to go on with.
fn pour(c: &mut [u32], p: &mut [u32], s: usize, i: usize, j: usize) -> usize
    requires order { Order p.old s }
    requires room { 4096 * s ≤ length c.old }
    requires here { j < s }
    requires first { i < j }
    requires some { 0 < uses p.old j }
    requires packed { Packed p.old i j }
    ensures same { SameText c.old p.old c.new p.new s }
    ensures first { result ≤ j }
    ensures packed { Packed p.new result j }
    ensures falls { j - result + uses p.new j < j - i + uses p.old j }
{
    let has = used(p, i);
    if has >= FULL {
        return i + 1;
    }
    let n = (FULL - has).min(used(p, j));
    // Its two fields say at once that it is the front of the piece.
    let front = Spot {
        piece: j,
        offset: 0,
    };
    shift(c, p, s, i, front, n);
    i
}
