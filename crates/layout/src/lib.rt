// Ways to look at a text that is kept in pieces: which cells are seen, and how they stand in rows of a width.
#![tactic(auto)]

ghost use Rattle.std.specs.Prelude.{◌≤◌, length};
ghost use Rattle.model.specs.Paper.{view};
ghost use Rattle.model.specs.Rows.{rows};
ghost use Rattle.model.specs.Values.{way_number};
ghost use Rattle.kept.specs.Kept.{Above, Kept};
ghost use Rattle.kept.specs.Text.{cells_in};
ghost use Rattle.layout.specs.Shown.{Shown};

mod seen;
mod sheet;

use breaks::Begun;
use kept::Text;
use model::Way;
pub use seen::Seen;
pub use sheet::Showing;
use sheet::{Effect, Sheet};

/// Writes `n` rows from row number `first` on as an answer; or nothing, where these rows are not there.
// What a `Sheet` asks of a width is asked here, so that a caller needs none. 262405 bytes are room for the longest answer, here and below.
pub fn show(
    text: &Text,
    way: Way,
    width: u32,
    first: u32,
    n: u32,
    out: &mut [u8],
) -> Option<Showing>
    requires least { 1 ≤ width }
    requires most { width ≤ 256 }
    requires few { n ≤ 64 }
    requires room { 262405 ≤ length out.old }
    ensures { Shown (rows width (view (way_number way) (cells_in text.now))) first n out.old out.new result }
{
    let sheet = Sheet {
        text: *text,
        way,
        width,
    };
    sheet.show(first, n, out)
}

/// Keeps what the pieces do to the rows up to row number `first`, so that these need not be found again while the pieces stay as they are.
/// (The contract does not say what is kept: no answer depends on it.)
/// The slices apart, as the tables are written while the cells are read.
pub fn keep(c: &[u32], p: &mut [u32], s: usize, way: Way, width: u32, first: u32)
    requires kept { Kept c.now p.old s }
    requires least { 1 ≤ width }
    requires most { width ≤ 256 }
    ensures above { Above p.old p.new }
    ensures kept { Kept c.now p.new s }
{
    let mut rows = 0;
    let mut begun = Begun::NONE;
    // By number, as each turn changes the tables.
    for k in 0..s {
        let text = Text {
            cells: c,
            tables: p,
            slots: s,
        };
        let sheet = Sheet { text, way, width };
        let Effect { memo, anew } = sheet.effect(k, begun);
        if anew {
            kept::remember(c, p, s, k, memo);
        }
        rows += memo.reached.rows;
        begun = memo.reached.begun;
        if rows > first {
            return;
        }
    }
}
