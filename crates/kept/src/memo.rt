// What is kept of a piece about rows.
use breaks::{Begun, Reached};

/// What the letters of a piece do to rows of a width that begin before it: seen in a way to look, with the row that has begun before the piece. With width 0 it says nothing.
#[derive(Clone, Copy, Debug, PartialEq, Eq, Hash)]
pub struct Memo {
    pub width: u32,
    pub way: u32,
    pub before: Begun,
    pub reached: Reached,
}
