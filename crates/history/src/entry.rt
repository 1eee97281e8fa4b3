// The words of one entry of the log: a head of seven words, then letters, cells or marks, and the entry's size again.
ghost use Rattle.std.specs.Prelude.{◌≡◌, ◌+◌, ◌-◌, ◌≤◌, ◌++◌, length, take, drop, slice_set};
ghost use Rattle.history.specs.Head.{kind_number, kind_at, verdict_kind, head_list, head_at, HeadReads, EntryWritten, EntryStands, PayloadStands, LetterStands, CellsStand, MarksStand, CellsMake, MarksMake, WrittenLong};

use model::Verdict;

// How many words a head has, a cell, and a mark: its place before the cell.
pub const HEAD: usize = 7;

pub const CELL: usize = 4;

pub const MARK: usize = 5;

// The call that was done.
#[derive(Clone, Copy, Debug, PartialEq, Eq, Hash)]
pub enum Kind {
    Put,
    Strike,
    Accept,
    Reject,
    Style,
}

// One shape for all kinds, 0 where a kind has no such number: the seven words stand in lent memory for each, and an enum would be taken apart to write them and made again to read them.
#[derive(Clone, Copy, Debug, PartialEq, Eq, Hash)]
pub struct Head {
    // how many words the entry has, and what it counts
    pub size: u32,
    pub count: u32,
    pub kind: Kind,
    // the author; where a change was accepted or rejected, the change
    pub who: u32,
    pub place: u32,
    // how many cells stand there now
    pub standing: u32,
    pub style: u32,
}

impl From<Kind> for u32 {
    ghost from_gives = { λ kind n. n ≡ kind_number kind };

    fn from(kind: Kind) -> u32 {
        match kind {
            Kind::Put => 0,
            Kind::Strike => 1,
            Kind::Accept => 2,
            Kind::Reject => 3,
            Kind::Style => 4,
        }
    }
}

/// Any other number is that of a change of style: a log has no others, and to read one cannot fail.
impl From<u32> for Kind {
    ghost from_gives = { λ n kind. kind ≡ kind_at n };

    fn from(number: u32) -> Kind {
        match number {
            0 => Kind::Put,
            1 => Kind::Strike,
            2 => Kind::Accept,
            3 => Kind::Reject,
            _ => Kind::Style,
        }
    }
}

/// That of a decision.
impl From<Verdict> for Kind {
    ghost from_gives = { λ verdict kind. kind ≡ verdict_kind verdict };

    fn from(verdict: Verdict) -> Kind {
        match verdict {
            Verdict::Accepted => Kind::Accept,
            Verdict::Rejected => Kind::Reject,
        }
    }
}

// The head of the entry that stands at `at`: a place beside the words, here and below, as the log tells where an entry stands in lent memory.
pub fn read_head(u: &[u32], at: usize) -> Head
    requires { at + 7 ≤ length u.now }
    ensures words { result ≡ head_at u.now at }
    ensures entry { HeadReads u.now at result }
{
    let words = &u[at..];
    let [size, count, kind, who, place, standing, style, ..] = *words else {
        unreachable!()
    };
    Head {
        size,
        count,
        kind: Kind::from(kind),
        who,
        place,
        standing,
        style,
    }
}

// Writes the head of an entry at `at`.
pub fn write_head(u: &mut [u32], at: usize, head: Head)
    requires { at + 7 ≤ length u.old }
    ensures { u.new ≡ take at u.old ++ (head_list head ++ drop (at + 7) u.old) }
{
    u[at..at + HEAD].copy_from_slice(&[
        head.size,
        head.count,
        u32::from(head.kind),
        head.who,
        head.place,
        head.standing,
        head.style,
    ]);
}

// Writes the size of the entry at `at` as its last word.
pub fn write_tail(u: &mut [u32], at: usize, size: u32)
    requires some { 1 ≤ size }
    requires within { at + size ≤ length u.old }
    ensures { u.new ≡ slice_set u.old (at + size - 1) size }
{
    u[at + size as usize - 1] = size;
}

// An entry is written by its head, its letters, cells or marks from its seventh word on, and its tail; and read back from there.
pub fn entry_is_written()
    ensures written { EntryWritten }
    ensures stands { EntryStands }
    ensures payload { PayloadStands }
    ensures letter { LetterStands }
{}

// Cells stand in four words each, and marks in five, one after another.
pub fn cells_and_marks_stand()
    ensures cells { CellsStand }
    ensures marks { MarksStand }
    ensures make_cells { CellsMake }
    ensures make_marks { MarksMake }
    ensures long { WrittenLong }
{}
