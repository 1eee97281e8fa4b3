// Rows letter by letter. The rows of a text are found by going from one row to the next; here the same rows are found by going from one letter to the
// next, so that what one part of the text does to the rows can be kept: all that matters of what stands before it is the row that has begun there.
#![tactic(auto)]

ghost use Rattle.std.specs.Prelude.{◌≡◌, ◌/◌, ◌≤◌, length};
ghost use Rattle.model.specs.Paper.{view};
ghost use Rattle.model.specs.Values.{way_number};
ghost use Rattle.slots.specs.Cells.{all_cells};
ghost use Rattle.breaks.specs.Breaks.{passed, scan};
ghost use Rattle.breaks.specs.Laws.{Breaks};

use model::Way;

// The letter that ends a paragraph, as a word.
const END: u32 = 10;

const SPACE: u32 = 32;

/// A row that has begun: how many letters it has so far, and one more than the place of the last space among them, or 0.
#[derive(Clone, Copy, Debug, PartialEq, Eq, Hash)]
pub struct Begun {
    pub long: u32,
    pub space: u32,
}

/// What letters did to the rows: how many rows ended among them, and the row that has begun after them.
#[derive(Clone, Copy, Debug, PartialEq, Eq, Hash)]
pub struct Reached {
    pub rows: u32,
    pub begun: Begun,
}

impl Begun {
    /// A row without letters, as at the start of a text.
    pub const NONE: Begun = Begun { long: 0, space: 0 };

    /// The row goes on by one letter. The end of a paragraph ends the row. A letter that does not fit breaks it: behind its last space, or after `width`
    /// letters where it has none. The letters behind the break are in the next row.
    #[tactic(auto, unfolding(crate::specs::Breaks::passed, crate::specs::Breaks::break_at))]
    pub fn pass(self, letter: u32, width: u32) -> Reached
        requires begun { self.long ≤ width }
        requires most { width ≤ 256 }
        ensures { result ≡ passed width self letter }
    {
        if letter == END {
            return Reached {
                rows: 1,
                begun: Begun::NONE,
            };
        }
        let long = self.long + 1;
        let space = if letter == SPACE { long } else { self.space };
        if long <= width {
            return Reached {
                rows: 0,
                begun: Begun { long, space },
            };
        }
        let next = if space == 0 { width } else { space };
        // The last space of a row is one of its letters. The type does not say so, and where it is not so nothing is left.
        let long = long.saturating_sub(next);
        Reached {
            rows: 1,
            begun: Begun { long, space: 0 },
        }
    }
}

/// What the cells with these words do to the rows, those that are seen in a way to look, where a row has begun before them.
pub fn reach(words: &[u32], way: Way, width: u32, begun: Begun) -> Reached
    requires least { 1 ≤ width }
    requires most { width ≤ 256 }
    requires begun { begun.long ≤ width }
    requires cells { length words.now / 4 ≤ 1024 }
    ensures reached { result ≡ scan width begun (view (way_number way) (all_cells words.now)) }
    ensures wide { result.begun.long ≤ width }
    ensures few { result.rows ≤ 1024 }
{
    let mut reached = Reached { rows: 0, begun };
    for cell in (slots::Cells { words }) {
        if way.sees(cell) {
            let next = reached.begun.pass(cell.letter, width);
            reached = Reached {
                rows: reached.rows + next.rows,
                begun: next.begun,
            };
        }
    }
    reached
}

// The rows that are reached letter by letter are those of the text, whatever follows. A law, which is the contract of a function.
pub fn same_rows()
    ensures { Breaks }
{}
