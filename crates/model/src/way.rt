// The three ways to look at a paper.
ghost use Rattle.std.specs.Prelude.{◌≡◌};
ghost use Rattle.model.specs.Paper.{seen};
ghost use Rattle.model.specs.Values.{NumbersWay, cell_of, way_number};

use crate::Cell;

/// Everything; as if all open changes were accepted; as if all were rejected.
#[derive(Clone, Copy, Debug, PartialEq, Eq, Hash)]
pub enum Way {
    Everything,
    Accepted,
    Rejected,
}

/// A number that names no way to look.
#[derive(Clone, Copy, Debug, PartialEq, Eq, Hash)]
pub struct UnknownWay(pub u32);

impl TryFrom<u32> for Way {
    type Error = UnknownWay;

    ghost try_from_gives = { NumbersWay };

    fn try_from(number: u32) -> Result<Self, UnknownWay> {
        match number {
            0 => Ok(Way::Everything),
            1 => Ok(Way::Accepted),
            2 => Ok(Way::Rejected),
            _ => Err(UnknownWay(number)),
        }
    }
}

impl Way {
    /// Whether a cell is seen.
    #[tactic(auto, unfolding(crate::specs::Paper::seen))]
    pub fn sees(self, x: Cell) -> bool
        ensures { result ≡ seen (way_number self) (cell_of x) }
    {
        match self {
            Way::Everything => true,
            Way::Accepted => x.struck == 0,
            Way::Rejected => x.put_in == 0,
        }
    }
}
