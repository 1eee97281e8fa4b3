// What a paper is on which several people write: the types that the code passes around, and the laws of their meaning (specs/).
#![tactic(auto)]

ghost use Rattle.std.specs.Prelude.{◌≡◌};

pub mod changes;
pub mod letters;
mod verdict;
mod way;

pub use verdict::Verdict;
pub use way::{UnknownWay, Way};

// A letter with a style. `put_in` and `struck` name the open change that put it in or struck it out: 0 for none, else one more
// than the change's number. These are the four numbers that stand for a cell in a paper's file and in lent memory,
// so that a mark is a number and no option.
#[derive(Clone, Copy, Debug, PartialEq, Eq, Hash)]
pub struct Cell {
    pub letter: u32,
    pub style: u32,
    pub put_in: u32,
    pub struck: u32,
}

// A change has an author, and what became of it: 0 open, 1 accepted, 2 rejected. It is a number, as lent words and files have one; in lent words any may stand.
#[derive(Clone, Copy, Debug, PartialEq, Eq, Hash)]
pub struct Change {
    pub author: u32,
    pub became: u32,
}
