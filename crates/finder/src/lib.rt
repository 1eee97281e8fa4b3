// Finding some letters in linear time (Knuth, Morris and Pratt), fed one letter at a time, so that a caller can walk over a text that
// lies in pieces.
#![tactic(auto)]

ghost use Rattle.std.specs.Prelude.{◌≡◌, ◌<◌, ◌≤◌, length, drop};
ghost use Rattle.finder.specs.Laws.{FullIsFound, UnfoundIsAbsent};
ghost use Rattle.finder.specs.Match.{Step, Table};

// Fills the table: its entry at k is the length of the longest proper border of the first k + 1 letters. The words past these stay.
// The table is lent memory of a fixed size, as a search gets no heap.
pub fn prepare(letters: &[u8], table: &mut [u32])
    requires in_bounds { (1 ≤ length letters.now) × (length letters.now ≤ 256) }
    requires letters_in_bounds { length letters.now ≤ length table.old }
    ensures borders { Table letters.now table.new (length letters.now) }
    ensures rest { drop (length letters.now) table.new ≡ drop (length letters.now) table.old }
{
    table[0] = 0;
    let mut k = 0;
    // An index, as each step reads the entries before the one that it fills.
    for i in 1..letters.len() {
        k = step(letters, table, k, u32::from(letters[i]));
        table[i] = k as u32;
    }
}

// The letters and their table apart: `prepare` steps over a table that is filled only up to a letter, when no value can promise a whole one.
// How many of the letters stand at the end of a text, after one letter more, where `matched` of them stood there before it. If it is
// all of them, they are found. Over a whole text the steps back are no more than the steps on.
pub fn step(letters: &[u8], table: &[u32], matched: usize, letter: u32) -> usize
    requires matched_in_bounds { (matched < length letters.now) × (matched ≤ length table.now) }
    requires table { Table letters.now table.now matched }
    ensures { Step letters.now matched letter result }
{
    let mut k = matched;
    // From border to border: the table says where to go, and nothing is counted.
    while u32::from(letters[k]) != letter {
        if k == 0 {
            return 0;
        }
        k = table[k - 1] as usize;
    }
    k + 1
}

// Where all of the letters match for the first time, they are found.
pub fn full_is_found()
    ensures { FullIsFound }
{}

// Where all was read and they never matched whole, they are not there.
pub fn unfound_is_absent()
    ensures { UnfoundIsAbsent }
{}

#[cfg(test)]
mod tests {
    use super::*;

    // The place of the letters in a text, or its length.
    fn place(letters: &[u8], text: &[u8]) -> usize
        requires { (1 ≤ length letters.now) × (length letters.now ≤ 256) }
    {
        // As long as the longest letters may be.
        let mut table = [0; 256];
        prepare(letters, &mut table);
        let mut k = 0;
        for (i, letter) in text.iter().enumerate() {
            k = step(letters, &table, k, u32::from(*letter));
            if k == letters.len() {
                return i + 1 - k;
            }
        }
        text.len()
    }

    #[test]
    fn places(rt: HostRuntime) {
        assert_eq!(rt; place(b"aaab", b"aaaaaab"), 3);
        assert_eq!(rt; place(b"abcabd", b"abcabcabd"), 3);
        assert_eq!(rt; place(b"abab", b"abaabaabb"), 9);
        assert_eq!(rt; place(b"a", b""), 0);
    }
}
