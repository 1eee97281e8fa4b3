// Takes back, on a text, what an entry of the undo log says: `u` has the log's words and is only read.
#![tactic(auto)]

ghost use Rattle.std.specs.Prelude.{◌≡◌, ◌+◌, ◌-◌, ◌*◌, ◌/◌, ◌≤◌, length, drop};
ghost use Rattle.model.specs.Paper.{pick};
ghost use Rattle.model.specs.Values.{cell_of};
ghost use Rattle.slots.specs.Cells.{all_cells};
ghost use Rattle.kept.specs.Text.{Rewrites, cells_of_mut};
ghost use Rattle.history.specs.Entry.{run_back, mark_back, marks_back};
ghost use Rattle.restore.specs.Back.{goes, first_mark, marks_in, taken_back, CanMark, CanTakeBack, Undoable, Undone};

use history::entry::{self, CELL, HEAD, Head, Kind, MARK};
use kept::TextMut;
use model::{Cell, Verdict};

// In place of the `standing` cells from `place` on come those whose words `old` has.
fn run(text: &mut TextMut, place: usize, standing: usize, old: &[u32])
    requires within { place + standing ≤ length (cells_of_mut text.old) }
    requires fits { length (cells_of_mut text.old) + length old.now / 4 ≤ 768 * (text.old.slots - 1) + standing }
    ensures { Rewrites text.old text.new (run_back place standing (all_cells old.now) (cells_of_mut text.old)) }
{
    text.remove(place, standing);
    text.insert(place, old);
}

// Whether the cell went when the change was decided. One of its two marks counts; `u64`, as a mark may be one more than any change.
// The verdict and the change stand apart, here and below: a value of both would be made only to be taken apart here.
fn went(cell: Cell, verdict: Verdict, change: u32) -> bool
    ensures { result ≡ goes verdict change (cell_of cell) }
{
    let mark = match verdict {
        Verdict::Accepted => cell.struck,
        Verdict::Rejected => cell.put_in,
    };
    // The test of a mark as `sweep` has it, which this crate does not stand above.
    u64::from(mark) == u64::from(change) + 1
}

// One mark, by its five words: a cell that went is put in again at its place, one that stayed is overwritten there.
fn mark(text: &mut TextMut, words: &[u32], verdict: Verdict, change: u32)
    requires source { length words.now ≡ 5 }
    requires place { (first_mark words.now).place + pick (goes verdict change (first_mark words.now).cell) 0 1 ≤ length (cells_of_mut text.old) }
    requires fits { length (cells_of_mut text.old) + pick (goes verdict change (first_mark words.now).cell) 1 0 ≤ 768 * (text.old.slots - 1) }
    ensures { Rewrites text.old text.new (mark_back (goes verdict change (first_mark words.now).cell) (first_mark words.now) (cells_of_mut text.old)) }
{
    let place = words[0] as usize;
    let old = &words[1..];
    let cell = slots::read(old, 0);
    if went(cell, verdict, change) {
        text.insert(place, old);
        return;
    }
    let spot = text.text().locate(place);
    text.overwrite(spot, cell);
}

// The marks whose words there are, one after another.
fn marks(text: &mut TextMut, words: &[u32], verdict: Verdict, change: u32)
    requires { CanMark (goes verdict change) (marks_in words.now) (cells_of_mut text.old) text.old.slots }
    ensures { Rewrites text.old text.new (marks_back (goes verdict change) (marks_in words.now) (cells_of_mut text.old)) }
{
    for part in words.chunks_exact(MARK) {
        mark(text, part, verdict, change);
    }
}

// What the entry with this head did to the cells is taken back. `words` begins with its letters, cells or marks.
fn take_back(text: &mut TextMut, head: Head, words: &[u32])
    requires some { 1 ≤ head.count }
    requires can { CanTakeBack head.kind head words.now (cells_of_mut text.old) text.old.slots }
    ensures { Rewrites text.old text.new (taken_back head.kind head words.now (cells_of_mut text.old)) }
{
    let n = head.count as usize - 1;
    let place = head.place as usize;
    let standing = head.standing as usize;
    match head.kind {
        Kind::Put => text.remove(place, standing),
        Kind::Strike | Kind::Style => run(text, place, standing, &words[..CELL * n]),
        Kind::Accept => marks(text, &words[..MARK * n], Verdict::Accepted, head.who),
        Kind::Reject => marks(text, &words[..MARK * n], Verdict::Rejected, head.who),
    }
}

// The entry that stands in `u` at word `at` is undone, as far as it is about cells: the changes are the caller's.
// A place beside the words, as the log's steps tell it.
pub fn undo(text: &mut TextMut, u: &[u32], at: usize)
    requires { Undoable u.now at (cells_of_mut text.old) text.old.slots }
    ensures { Undone u.now at text.old text.new }
{
    let head = entry::read_head(u, at);
    take_back(text, head, &u[at + HEAD..]);
}
