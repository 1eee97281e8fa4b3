// The cells that are seen of a text, in their order, from a spot on.
ghost use Rattle.std.proofs.Props.{props};
ghost use Rattle.layout.specs.Spots.{Inside, Rests};

use kept::Text;
use model::{Cell, Way};
use pieces::Spot;
use slots::Cells;

/// What is seen of a text from a spot on. Each cell comes with the spot at which it stands.
/// No `PartialEq` and no `Hash`, as `Text` has none.
#[derive(Clone, Copy, Debug)]
pub struct Seen<'a> {
    text: Text<'a>,
    way: Way,
    pub(crate) spot: Spot,
    // What is left of the spot's piece.
    rest: Cells<'a>,
    ghost inside: { Inside text.tables.now text.slots spot.piece spot.offset } by { Prim.hlevel props },
    ghost rests: { Rests text spot rest.words.now } by { Prim.hlevel props },
}

// What is left of a spot's piece; nothing behind the last piece.
pub(crate) fn rest_of<'a>(text: &Text<'a>, spot: Spot) -> Cells<'a>
    requires { Inside text.now.tables.now text.now.slots spot.piece spot.offset }
    ensures { Rests text.now spot result.words.now }
{
    if spot.piece == text.slots {
        return Cells { words: &[] };
    }
    let number = text.number_of(spot.piece, spot.offset);
    let n = text.used(spot.piece) - spot.offset;
    Cells {
        words: slots::part(text.cells, number, n),
    }
}

impl<'a> Seen<'a> {
    ghost use Rattle.std.specs.Prelude.{◌≡◌, drop};
    ghost use Rattle.model.specs.Values.{way_number};
    ghost use Rattle.model.specs.Paper.{view};
    ghost use Rattle.kept.specs.Text.{cells_in};
    ghost use Rattle.layout.specs.Seen.{still, FirstSeen};

    /// What is seen behind the first `place` cells that are seen.
    pub fn after(text: &Text<'a>, way: Way, place: usize) -> Seen<'a>
        ensures text { result.text ≡ text.now }
        ensures way { result.way ≡ way }
        ensures rest { still result ≡ drop place (view (way_number way) (cells_in text.now)) }
    {
        // Spots by their two fields, here and below: which cell is meant is seen at once.
        if place == 0 {
            // No tree is gone down where nothing is passed over.
            let start = Spot {
                piece: 0,
                offset: 0,
            };
            return Seen::new(text, way, start);
        }
        if place >= text.seen(way) {
            let end = Spot {
                piece: text.slots,
                offset: 0,
            };
            return Seen::new(text, way, end);
        }
        let at = text.find_seen(way, place);
        let front = Spot {
            piece: at.piece,
            offset: 0,
        };
        let mut seen = Seen::new(text, way, front);
        // So many cells of the piece are passed over: only the number of them is known.
        for _i in 0..at.offset {
            let _ = seen.next();
        }
        seen
    }

    /// The same from a spot on.
    pub(crate) fn new(text: &Text<'a>, way: Way, spot: Spot) -> Seen<'a>
        requires { Inside text.now.tables.now text.now.slots spot.piece spot.offset }
        ensures text { result.text ≡ text.now }
        ensures way { result.way ≡ way }
        ensures spot { result.spot ≡ spot }
    {
        Seen {
            text: *text,
            way,
            spot,
            rest: rest_of(text, spot),
        }
    }

    /// The first cell that is to come, where it stands, and what is left of its piece behind it.
    #[inline]
    fn first(&self) -> Option<(Spot, Cell, Cells<'a>)>
        ensures { FirstSeen self.now result }
    {
        let mut offset = self.spot.offset;
        let mut rest = self.rest;
        // By its number, which each question about a piece takes.
        for piece in self.spot.piece..self.text.slots {
            // The place is counted by hand: what is left of the piece goes out with the cell, so that no adapter can hold it.
            while let Some(x) = rest.next() {
                if self.way.sees(x) {
                    return Some((Spot { piece, offset }, x, rest));
                }
                offset += 1;
            }
            let next = Spot {
                piece: piece + 1,
                offset: 0,
            };
            offset = 0;
            rest = rest_of(&self.text, next);
        }
        None
    }
}

impl<'a> Iterator for Seen<'a> {
    ghost use Rattle.std.specs.Iterator.{item_count};
    ghost use Rattle.layout.specs.Seen.{still, Gives};

    type Item = (Spot, Cell);

    ghost next_gives = { Gives };

    ghost remaining = { item_count still };

    // Inlined, as is `first`: else a search takes a quarter longer. Not `inline(always)`, by which `after` passes over cells at half the speed.
    #[inline]
    fn next(&mut self) -> Option<(Spot, Cell)> {
        let (at, cell, rest) = self.first()?;
        let spot = Spot {
            piece: at.piece,
            offset: at.offset + 1,
        };
        *self = Seen {
            text: self.text,
            way: self.way,
            spot,
            rest,
        };
        Some((at, cell))
    }
}
