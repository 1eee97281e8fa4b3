// A paper's file as answers: a part of its numbers, written from where they stand in memory. Each part of the file is a run of words: how many changes
// there are, the row of changes, and for each piece the words of its cells.
#![tactic(auto)]

ghost use Rattle.std.specs.Prelude.{◌≡◌, ◌+◌, ◌-◌, ◌*◌, ◌≤◌, length, take, drop};
ghost use Rattle.model.specs.Paper.{cells_written};
ghost use Rattle.changes.specs.Rows.{changes_in};
ghost use Rattle.pieces.specs.Store.{before};
ghost use Rattle.kept.specs.Text.{cells_in};
ghost use Rattle.codec.specs.Bytes.{words_bytes};
ghost use Rattle.codec.specs.Over.{over};
ghost use Rattle.saving.specs.Saved.{head, file, Saved};

use changes::Row;
use kept::Text;

// Writes words as numbers. The answer is the place after them, here and below.
// A place beside the bytes, here and below, for the reason in `codec`: a value of both would have to promise in each contract that they are the same bytes.
fn write_words(words: &[u32], out: &mut [u8], at: usize) -> usize
    requires { at + 4 * length words.now ≤ length out.old }
    ensures bytes { out.new ≡ over out.old at (words_bytes words.now) }
    ensures next { result ≡ at + 4 * length words.now }
{
    let mut at = at;
    for word in words {
        at = codec::number(out, at, *word);
    }
    at
}

// Writes `n` numbers from number `from` on of those before the cells: how many changes there are, and the changes.
fn write_head(row: &Row, from: usize, n: usize, out: &mut [u8], at: usize) -> usize
    requires row { row.now.len ≤ 65536 }
    requires there { n ≤ 1 + 2 * row.now.len - from }
    requires room { at + 4 * n ≤ length out.old }
    ensures bytes { out.new ≡ over out.old at (words_bytes (take n (drop from (head (changes_in row.now))))) }
    ensures next { result ≡ at + 4 * n }
{
    if n == 0 {
        return at;
    }
    if from > 0 {
        return write_words(&row.words[from - 1..from - 1 + n], out, at);
    }
    let at = codec::number(out, at, row.len as u32);
    write_words(&row.words[..n - 1], out, at)
}

// Writes `n` numbers from number `from` on of those of the cells: in each piece they are a run of words.
fn write_cells(text: &Text, from: usize, n: usize, out: &mut [u8], at: usize) -> usize
    requires there { from + n ≤ 4 * before text.now.tables.now text.now.slots }
    requires room { at + 4 * n ≤ length out.old }
    ensures bytes { out.new ≡ over out.old at (words_bytes (take n (drop from (cells_written (cells_in text.now))))) }
    ensures next { result ≡ at + 4 * n }
{
    let mut next = from;
    let mut left = n;
    let mut at = at;
    // From piece to piece: each step goes as far as its piece.
    while left > 0 {
        let spot = text.locate(next / 4);
        let first = 4 * spot.offset + next % 4;
        // In words, where an edit counts in cells: so there is no method for both.
        let m = left.min(4 * text.used(spot.piece) - first);
        let start = 4 * text.number_of(spot.piece, 0) + first;
        at = write_words(&text.cells[start..start + m], out, at);
        next += m;
        left -= m;
    }
    at
}

// Writes `n` numbers of the file from number `from` on as an answer, and says how many bytes it has; or nothing, where these numbers are not there.
// 262405 bytes are room for the longest answer of any call, and each call is lent so many.
pub fn save(text: &Text, row: &Row, from: u32, n: u32, out: &mut [u8]) -> Option<usize>
    requires row { row.now.len ≤ 65536 }
    requires few { n ≤ 1024 }
    requires room { 262405 ≤ length out.old }
    ensures { Saved (file text.now row.now) from n out.old out.new result }
{
    let count = n;
    let from = from as usize;
    let n = n as usize;
    let before = 1 + 2 * row.len;
    if before + 4 * text.count() < from + n {
        return None;
    }
    let first = n.min(before.saturating_sub(from));
    let at = codec::begin_numbers(out, 0, count);
    let at = write_head(row, from, first, out, at);
    let place = from.saturating_sub(before);
    Some(write_cells(text, place, n - first, out, at))
}
