// Writes into the log of what can be undone the entry of a call that is about to write, from the paper before the call.
#![tactic(auto)]

ghost use Rattle.std.specs.Prelude.{◌≡◌, ◌+◌, ◌*◌, ◌/◌, ◌<◌, ◌≤◌, List, [], ◌∷◌, length, take, drop};
ghost use Rattle.changes.specs.Rows.{changes_in};
ghost use Rattle.history.specs.Entry.{entry_of, marks_of, staying as staying_of, was_put};
ghost use Rattle.history.specs.Log.{Keeps};
ghost use Rattle.history.specs.Words.{marks_written};
ghost use Rattle.model.specs.Calls.{strikes, styles};
ghost use Rattle.model.specs.Paper.{Change, cells_written, touched as touches};
ghost use Rattle.model.specs.Values.{cell_of};
ghost use Rattle.pieces.specs.Store.{piece};
ghost use Rattle.kept.specs.Text.{cells_in};
ghost use Rattle.recorder.specs.Records.{Marked, Ready, Records, Seals, Stretched, decided, written};
ghost use Rattle.slots.specs.Cells.{all_cells};

use changes::Row;
use history::entry::{self, CELL, HEAD, Head, Kind, MARK};
use history::log;
use kept::Text;
use model::{Cell, Verdict};

// Writes the head and the size of an entry at `at`, as the log tells the place, around its letters, cells or marks. It becomes the latest of what can be undone.
fn seal(u: &mut [u32], at: usize, head: Head)
    requires { Ready u.old at head }
    ensures seals { Seals u.old u.new at head }
    ensures rest { drop (at + head.size) u.new ≡ drop (at + head.size) u.old }
{
    entry::write_head(u, at, head);
    entry::write_tail(u, at, head.size);
    log::push(u, head.size, head.count);
}

// Writes the letters.
fn copy_letters(words: &mut [u32], letters: &[u8])
    requires { length letters.now ≤ length words.old }
    ensures { words.new ≡ written words.old letters.now }
{
    // An index, as nothing says what `words` are after a loop over `iter_mut().zip(letters)`.
    for (i, letter) in letters.iter().enumerate() {
        words[i] = u32::from(*letter);
    }
}

// An author is about to put letters in at a place, in one style.
// `u` and `limit` stand apart, here and below, for the reason in history's log.
// Each of the four makes room, writes and seals: a function that took the writing as a closure would have to say of any call of it what it asks and what it leaves, in more lines than it saves here.
pub fn put(u: &mut [u32], limit: u32, author: u32, place: u32, style: u32, letters: &[u8])
    requires log { Keeps u.old limit }
    requires few { length letters.now ≤ 1024 }
    ensures records { Records u.old u.new limit (was_put author place style letters.now) }
    ensures rest { drop (16 + 16 * limit) u.new ≡ drop (16 + 16 * limit) u.old }
{
    let n = letters.len() as u32;
    let Some(at) = log::make_room(u, limit, 1 + n) else {
        return;
    };
    copy_letters(&mut u[at + HEAD..], letters);
    let head = Head {
        size: 8 + n,
        count: 1 + n,
        kind: Kind::Put,
        who: author,
        place,
        standing: n,
        style,
    };
    seal(u, at, head);
}

// The words of the cells of the text from `place` on that stand in one piece, at most `most` of them.
// A place and how many, here and below, as calls have them: a range would be made only to be taken apart.
fn stretch_at<'a>(text: &Text<'a>, place: usize, most: usize) -> &'a [u32]
    requires some { 0 < most }
    requires within { place + most ≤ length (cells_in text.now) }
    ensures { Stretched (cells_in text.now) place most result.now }
{
    let spot = text.locate(place);
    // As many as stand in this piece. In two lines, as below only their words are needed, and in a sweep only their number.
    let has = text.used(spot.piece) - spot.offset;
    let from = text.number_of(spot.piece, spot.offset);
    slots::part(text.cells, from, most.min(has))
}

// Writes the `n` cells of the text from `place` on.
fn copy_text(words: &mut [u32], text: &Text, place: usize, n: usize)
    requires within { place + n ≤ length (cells_in text.now) }
    requires target { 4 * n ≤ length words.old }
    ensures { words.new ≡ written words.old (cells_written (take n (drop place (cells_in text.now)))) }
{
    let mut done = 0;
    // By hand, as only a piece knows how many of the cells stand in it.
    while done < n {
        let part = stretch_at(text, place + done, n - done);
        // Pasted cell by cell, and not by the library's `copy_from_slice`: that one becomes a call of `memmove`, which the archive for C would then need from outside.
        slots::paste(words, done, part);
        done += part.len() / CELL;
    }
}

// How many of the cells with these words stay when the author strikes them out.
fn staying(words: &[u32], author: u32, row: &Row) -> u32
    requires { length words.now < 4294967296 }
    ensures { result ≡ staying_of (all_cells words.now) (changes_in row.now) author }
{
    (slots::Cells { words })
        .filter(|cell| !sweep::is_of(cell.put_in, author, row))
        .count() as u32
}

// An author is about to strike out the `n` cells from `place` on.
pub fn strike(u: &mut [u32], limit: u32, text: &Text, row: &Row, author: u32, place: u32, n: u32)
    requires log { Keeps u.old limit }
    requires within { place + n ≤ length (cells_in text.now) }
    ensures records { Records u.old u.new limit (entry_of (record { cells = cells_in text.now; changes = changes_in row.now }) (strikes author place n)) }
    ensures rest { drop (16 + 16 * limit) u.new ≡ drop (16 + 16 * limit) u.old }
{
    let Some(at) = log::make_room(u, limit, 1 + n) else {
        return;
    };
    let to = at + HEAD;
    copy_text(&mut u[to..], text, place as usize, n as usize);
    let standing = staying(&u[to..to + CELL * n as usize], author, row);
    let head = Head {
        size: 8 + 4 * n,
        count: 1 + n,
        kind: Kind::Strike,
        who: author,
        place,
        standing,
        style: 0,
    };
    seal(u, at, head);
}

// The `n` cells from `place` on are about to get a style.
pub fn style(u: &mut [u32], limit: u32, text: &Text, place: u32, n: u32, style: u32)
    requires log { Keeps u.old limit }
    requires within { place + n ≤ length (cells_in text.now) }
    ensures records { (cs : List Change) → Records u.old u.new limit (entry_of (record { cells = cells_in text.now; changes = cs }) (styles place n style)) }
    ensures rest { drop (16 + 16 * limit) u.new ≡ drop (16 + 16 * limit) u.old }
{
    let Some(at) = log::make_room(u, limit, 1 + n) else {
        return;
    };
    copy_text(&mut u[at + HEAD..], text, place as usize, n as usize);
    let head = Head {
        size: 8 + 4 * n,
        count: 1 + n,
        kind: Kind::Style,
        who: 0,
        place,
        standing: n,
        style,
    };
    seal(u, at, head);
}

// Writes a cell that has the mark of the change with its place. Returns how many are written, one or none, as a number, since it is added up.
fn mark_cell(words: &mut [u32], cell: Cell, change: u32, place: usize) -> usize
    requires low { place < 4294967296 }
    requires target { 5 * touches (cell_of cell ∷ []) change ≤ length words.old }
    ensures { Marked words.old words.new (cell_of cell ∷ []) change place result }
{
    if !sweep::is_touched(cell, change) {
        return 0;
    }
    words[0] = place as u32;
    slots::write(&mut words[1..], 0, cell);
    1
}

// Writes those of the cells with these words that have the mark, each with its place, the first cell's being `first`. Returns how many.
fn mark_cells(words: &mut [u32], cells: &[u32], change: u32, first: usize) -> usize
    requires low { first + length cells.now / 4 ≤ 4294967296 }
    requires target { 5 * touches (all_cells cells.now) change ≤ length words.old }
    ensures { Marked words.old words.new (all_cells cells.now) change first result }
{
    let mut found = 0;
    for (i, cell) in (slots::Cells { words: cells }).enumerate() {
        found += mark_cell(&mut words[MARK * found..], cell, change, first + i);
    }
    found
}

// The same of piece `k`, whose first cell has the place `first` in the text.
// Here and below a change is not the last of all `u32`, as its mark is one more. A bound and no type: a change is a number as calls and lent words have it.
fn mark_piece(words: &mut [u32], text: &Text, k: usize, change: u32, first: usize) -> usize
    requires mark { change < 4294967295 }
    requires here { k < text.now.slots }
    requires low { first ≤ 1024 * k }
    requires target { 5 * touches (piece text.now.cells.now text.now.tables.now k) change ≤ length words.old }
    ensures { Marked words.old words.new (piece text.now.cells.now text.now.tables.now k) change first result }
{
    if !text.may_have(k, change + 1) {
        return 0;
    }
    mark_cells(words, text.words_of(k), change, first)
}

// Writes all cells of the text that have the mark, each with its place.
fn mark_text(words: &mut [u32], text: &Text, change: u32)
    requires mark { change < 4294967295 }
    requires target { 5 * touches (cells_in text.now) change ≤ length words.old }
    ensures { words.new ≡ written words.old (marks_written (marks_of (cells_in text.now) change 0)) }
{
    let mut found = 0;
    let mut first = 0;
    // An index, as the order of the slots is lent memory, and as the words of a piece are needed, where `layout::Seen` gives its cells.
    for k in 0..text.slots {
        found += mark_piece(&mut words[MARK * found..], text, k, change, first);
        first += text.used(k);
    }
}

// A change is about to be accepted or rejected; `count` cells have its mark.
// The verdict stands apart from the change, as it only says of which kind the entry is.
pub fn decision(u: &mut [u32], limit: u32, text: &Text, change: u32, verdict: Verdict, count: u32)
    requires log { Keeps u.old limit }
    requires mark { change < 4294967295 }
    requires count { count ≡ touches (cells_in text.now) change }
    ensures records { (cs : List Change) → Records u.old u.new limit (entry_of (record { cells = cells_in text.now; changes = cs }) (decided verdict change)) }
    ensures rest { drop (16 + 16 * limit) u.new ≡ drop (16 + 16 * limit) u.old }
{
    let Some(at) = log::make_room(u, limit, 1 + count) else {
        return;
    };
    mark_text(&mut u[at + HEAD..], text, change);
    let head = Head {
        size: 8 + 5 * count,
        count: 1 + count,
        kind: Kind::from(verdict),
        who: change,
        place: 0,
        standing: 0,
        style: 0,
    };
    seal(u, at, head);
}
