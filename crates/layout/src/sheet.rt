// The rows in which a text stands, as it is looked at in one way.
ghost use Rattle.std.specs.Prelude.{◌≡◌, ◌≤◌};
ghost use Rattle.model.specs.Values.{way_number};

use crate::Seen;
use crate::seen::rest_of;
use breaks::Begun;
use kept::{Memo, Text};
use model::Way;
use pieces::Spot;

// The letter that ends a paragraph, as a word: `printing` has bytes.
const END: u32 = 10;

const SPACE: u32 = 32;

/// A row: how many cells it has, and the spot from which the next row goes.
#[derive(Clone, Copy, Debug, PartialEq, Eq, Hash)]
pub struct Row {
    pub long: u32,
    pub next: Spot,
}

/// Rows that were written as an answer: how many bytes it has, and whether a piece before them had no memo that fits.
#[derive(Clone, Copy, Debug, PartialEq, Eq, Hash)]
pub struct Showing {
    pub long: usize,
    pub anew: bool,
}

/// What a piece does to rows, and whether that was found anew.
#[derive(Clone, Copy, Debug, PartialEq, Eq, Hash)]
pub struct Effect {
    pub memo: Memo,
    pub anew: bool,
}

/// Where the rows stand at the front of a piece, or behind all pieces: the number of the piece, how many rows have ended, how many cells are seen before it,
/// and the row that has begun there; and whether a piece before had no memo that fits.
#[derive(Clone, Copy, Debug, PartialEq, Eq, Hash)]
pub struct Front {
    pub piece: usize,
    pub rows: u32,
    pub seen: usize,
    pub begun: Begun,
    pub anew: bool,
}

// The number of a way to look, as a word of a memo.
fn number(way: Way) -> u32
    ensures { result ≡ way_number way }
{
    match way {
        Way::Everything => 0,
        Way::Accepted => 1,
        Way::Rejected => 2,
    }
}

/// A text as it is looked at in one way, in rows of a width.
/// No `PartialEq` and no `Hash`, as `Text` has none.
#[derive(Clone, Copy, Debug)]
pub struct Sheet<'a> {
    pub text: Text<'a>,
    pub way: Way,
    pub width: u32,
    ghost least: { 1 ≤ width },
    ghost most: { width ≤ 256 },
}

impl<'a> Sheet<'a> {
    ghost use Rattle.std.specs.Prelude.{◌+◌, ◌*◌, ◌<◌, ◌++◌, true, length, take, drop};
    ghost use Rattle.model.specs.Paper.{view};
    ghost use Rattle.model.specs.Rows.{rows};
    ghost use Rattle.kept.specs.Kept.{memo_of};
    ghost use Rattle.kept.specs.Text.{cells_in};
    ghost use Rattle.pieces.specs.Store.{slot};
    ghost use Rattle.layout.specs.Shown.{Shown};
    ghost use Rattle.model.specs.Calls.{lines};
    ghost use Rattle.codec.specs.Bytes.{cells_bytes, answer_bytes};
    ghost use Rattle.codec.specs.Over.{over};
    ghost use Rattle.layout.specs.Fronts.{IsFront, MemoIs};
    ghost use Rattle.layout.specs.Found.{RowIs, SpotIs, Within, ahead};

    /// Writes `n` rows from row number `first` on as an answer; or nothing, where these rows are not there.
    pub fn show(&self, first: u32, n: u32, out: &mut [u8]) -> Option<Showing>
        requires few { n ≤ 64 }
        requires room { 262405 ≤ length out.old }
        ensures { Shown (rows self.now.width (view (way_number self.now.way) (cells_in self.now.text))) first n out.old out.new result }
    {
        let front = self.front_before(first);
        let start = Seen::after(&self.text, self.way, front.seen - front.begun.long as usize);
        let from = self.pass_rows(start.spot, first - front.rows)?;
        let _ = self.pass_rows(from, n)?;
        let anew = front.anew || from.piece > front.piece;
        let long = self.write_rows(from, n, out);
        Some(Showing { long, anew })
    }

    /// What piece `k` does to rows, where a row has begun before it: as it is kept, or found letter by letter.
    pub fn effect(&self, k: usize, begun: Begun) -> Effect
        requires here { k < self.now.text.slots }
        requires begun { begun.long ≤ self.now.width }
        ensures { MemoIs self.now k begun result.memo }
    {
        if self.is_kept(k, begun) {
            return Effect {
                memo: self.text.memo(k),
                anew: false,
            };
        }
        let memo = Memo {
            width: self.width,
            way: number(self.way),
            before: begun,
            reached: breaks::reach(self.text.words_of(k), self.way, self.width, begun),
        };
        Effect { memo, anew: true }
    }

    // Whether it is kept: whether the memo of the piece is one of this width, this way and this row.
    fn is_kept(&self, k: usize, begun: Begun) -> bool
        requires here { k < self.now.text.slots }
        requires begun { begun.long ≤ self.now.width }
        ensures { result ≡ true → MemoIs self.now k begun (memo_of self.now.text.tables.now (slot self.now.text.tables.now k)) }
    {
        let way = number(self.way);
        let kept = self.text.memo(k);
        kept.width == self.width && (kept.way == way && kept.before == begun)
    }

    // The front of the piece in which row number `first` ends, or of what stands behind all pieces; or of a piece before that has no memo that fits, if the row is
    // not far behind it.
    fn front_before(&self, first: u32) -> Front
        ensures front { IsFront self.now result }
        ensures before { result.rows ≤ first }
    {
        let mut front = Front {
            piece: 0,
            rows: 0,
            seen: 0,
            begun: Begun::NONE,
            anew: false,
        };
        // By number, which each question about a piece takes.
        for k in 0..self.text.slots {
            let seen = self.text.seen_in(k, self.way);
            // Rows that are half full would have no more cells than this piece: to pass them takes no longer than to find what the piece does.
            let near = (first - front.rows) as usize * self.width as usize / 2 <= seen;
            if near && !self.is_kept(k, front.begun) {
                return front;
            }
            let effect = self.effect(k, front.begun);
            let reached = effect.memo.reached;
            if front.rows + reached.rows > first {
                return front;
            }
            front = Front {
                piece: k + 1,
                rows: front.rows + reached.rows,
                seen: front.seen + seen,
                begun: reached.begun,
                anew: front.anew || effect.anew,
            };
        }
        front
    }

    // A spot and no `Seen` goes in, here and below: a row ends at a spot, and a value that promised `Within` would carry the text once more.
    // The row that goes from a spot, or none where no cell is left. Of its first `width` + 1 cells it goes to the first end of a paragraph; else, where
    // there are not so many, it has them all; else it goes to the last space, and where there is none it has `width` cells.
    fn row_from(&self, from: Spot) -> Option<Row>
        requires { Within self.now from }
        ensures { RowIs self.now from result }
    {
        // Counted by hand, as it is wanted after the loops too.
        let mut long = 0;
        // the row as it is if it goes to the last space so far
        let mut space = None;
        let mut offset = from.offset;
        // By number, as a spot names its piece; and not over `Seen`, here and below, as that value is made anew for each letter, and rows took half as long again.
        for piece in from.piece..self.text.slots {
            for x in rest_of(&self.text, Spot { piece, offset }) {
                let at = Spot { piece, offset };
                offset += 1;
                if self.way.sees(x) {
                    let next = Spot { piece, offset };
                    if x.letter == END {
                        return Some(Row { long, next });
                    }
                    if x.letter == SPACE {
                        space = Some(Row { long, next });
                    }
                    long += 1;
                    if long > self.width {
                        return Some(space.unwrap_or(Row {
                            long: self.width,
                            next: at,
                        }));
                    }
                }
            }
            offset = 0;
        }
        if long == 0 {
            return None;
        }
        let next = Spot {
            piece: self.text.slots,
            offset: 0,
        };
        Some(Row { long, next })
    }

    // The spot after `n` rows, or none where there are fewer.
    fn pass_rows(&self, from: Spot, n: u32) -> Option<Spot>
        requires { Within self.now from }
        ensures { SpotIs self.now from n result }
    {
        let mut spot = from;
        // As many rows as are asked for: the number of a row is not read.
        for _i in 0..n {
            spot = self.row_from(spot)?.next;
        }
        Some(spot)
    }

    // Writes the first `n` cells that are seen from a spot on. The answer is the place after them.
    // A place beside the bytes, for the reason in `codec`: a value of both would have to promise that they are the same bytes.
    fn write_cells(&self, from: Spot, n: u32, out: &mut [u8], at: usize) -> usize
        requires from { Within self.now from }
        requires enough { n ≤ length (ahead self.now from) }
        requires room { at + 16 * n ≤ length out.old }
        ensures bytes { out.new ≡ over out.old at (cells_bytes (take n (ahead self.now from))) }
        ensures next { result ≡ at + 16 * n }
    {
        let mut at = at;
        let mut left = n;
        let mut offset = from.offset;
        for piece in from.piece..self.text.slots {
            // Asked before each piece as well, as behind the last cell there may be many empty ones.
            if left == 0 {
                return at;
            }
            for x in rest_of(&self.text, Spot { piece, offset }) {
                if left == 0 {
                    return at;
                }
                if self.way.sees(x) {
                    at = codec::cell(out, at, x);
                    left -= 1;
                }
            }
            offset = 0;
        }
        at
    }

    // Writes `n` rows from a spot on as an answer, and says how many bytes it has.
    fn write_rows(&self, from: Spot, n: u32, out: &mut [u8]) -> usize
        requires from { Within self.now from }
        requires few { n ≤ 64 }
        requires enough { n ≤ length (rows self.now.width (ahead self.now from)) }
        requires room { 262405 ≤ length out.old }
        ensures bytes { out.new ≡ answer_bytes (lines (take n (rows self.now.width (ahead self.now from)))) ++ drop result out.old }
        ensures long { result ≡ length (answer_bytes (lines (take n (rows self.now.width (ahead self.now from))))) }
    {
        let mut at = codec::begin_rows(out, 0, n);
        let mut spot = from;
        // As many rows as are asked for: the number of a row is not read.
        for _i in 0..n {
            let row = self.row_from(spot).unwrap();
            at = codec::number(out, at, row.long);
            at = self.write_cells(spot, row.long, out, at);
            spot = row.next;
        }
        at
    }
}
