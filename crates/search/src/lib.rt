// Where some letters stand first in a text that is kept in pieces, as it is seen in a way to look.
#![tactic(auto)]

ghost use Rattle.std.specs.Prelude.{◌≡◌, ◌+◌, ◌≤◌, MatchOption, length};
ghost use Rattle.model.specs.Paper.{view};
ghost use Rattle.model.specs.Rows.{find_in};
ghost use Rattle.model.specs.Values.{way_number};
ghost use Rattle.kept.specs.Text.{cells_in};

use kept::Text;
use layout::Seen;
use model::Way;

// How many letters are sought at most.
const MOST: usize = 256;

// The first place, at or after `from`, at which the letters stand among the cells that are seen, if they do. Cells that are not seen are passed over.
// Each cell is read once at most, and over all of them the steps back in `letters` are no more than the steps on.
pub fn find(text: &Text, way: Way, from: u32, letters: &[u8]) -> Option<u32>
    requires some { 1 ≤ length letters.now }
    requires most { length letters.now ≤ 256 }
    ensures { let found = find_in (view (way_number way) (cells_in text.now)) letters.now from 0 in MatchOption result (found ≡ 0) (λ place. found ≡ place + 1) }
{
    // As long as the longest letters may be, as a search gets no heap.
    let mut table = [0; MOST];
    finder::prepare(letters, &mut table);
    let mut matched = 0;
    let from = from as usize;
    for (i, (_, x)) in Seen::after(text, way, from).enumerate() {
        matched = finder::step(letters, &table, matched, x.letter);
        if matched == letters.len() {
            return Some((from + i + 1 - matched) as u32);
        }
    }
    None
}
