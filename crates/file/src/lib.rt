// A paper's file: the numbers in a text, and the paper that some numbers are.
#![tactic(auto)]

ghost use Rattle.std.specs.Prelude.{◌≡◌, ◌+◌, ◌-◌, ◌*◌, ◌<◌, false, length, Ok, Err, MatchBool, MatchOption, MatchResult, slice_index, slice_index_or};
ghost use Rattle.file.specs.Laws.{OneWay, ReadsBack, WordsAre};
ghost use Rattle.file.specs.Paper.{Ceases, IsFile};
ghost use Rattle.file.specs.Places.{MarkFits, NumberFits, last};
ghost use Rattle.file.specs.Scan.{NoNumber, NumberAt, PastWhite};
ghost use Rattle.file.specs.Words.{AllRead, Digit, Stops, white};
ghost use Rattle.model.specs.Paper.{Cell as PaperCell, Change as PaperChange};
ghost use Rattle.model.specs.Values.{cell_of, change_of};

use model::{Cell, Change};

// The limits of a printed paper. Those of a transcript's desk are as large, but another program's: each has its own.
const MAX_CHANGES: u32 = 128;

const MAX_CELLS: usize = 2048;

// Space, newline, carriage return, tab: without the form feed of `is_ascii_whitespace`.
fn is_white(c: u8) -> bool
    ensures { result ≡ white c }
{
    matches!(c, b' ' | b'\n' | b'\r' | b'\t')
}

// The digit c after digits that are worth `value`, if it is a digit and the number is not too large.
fn with_digit(value: u32, c: u8) -> Option<u32>
    ensures { MatchOption result (Digit c → 10 * value + (c - 48) < 4294967296 → ⊥) (λ v. Digit c × (v ≡ 10 * value + (c - 48)) × (v < 4294967296)) }
{
    if !c.is_ascii_digit() {
        return None;
    }
    u32::try_from(10 * u64::from(value) + u64::from(c - b'0')).ok()
}

// What is left of a text behind the white space that it begins with.
fn past_white(text: &[u8]) -> &[u8]
    ensures { PastWhite text.now result.now }
{
    let mut left = text;
    // Here and in `number`, what is left gets shorter byte by byte, and a byte may end the loop: no iterator gives what is left.
    while let [c, rest @ ..] = left
        && is_white(*c)
    {
        left = rest;
    }
    left
}

// The number below 2^32 that the first word of a text is, and what is left behind it. Where that word is none, nothing behind the byte that shows it is read.
fn number(text: &[u8]) -> Option<(u32, &[u8])>
    requires some { 0 < length text.now }
    requires word { white (slice_index text.now 0) ≡ false }
    ensures { MatchOption result (NoNumber text.now) (λ p. NumberAt text.now p.0 p.1.now) }
{
    let mut value = 0;
    let mut left = text;
    while let [c, rest @ ..] = left
        && !is_white(*c)
    {
        value = with_digit(value, *c)?;
        left = rest;
    }
    Some((value, left))
}

// Writes the numbers of a text, one after another, and says how many there are. They are digits, the first of which may be 0, and white space parts them.
// Otherwise it says which of them, counted from 0, is no number below 2^32 or has no room; those before it are written.
// Into lent words and not a vector, as it takes no memory and so fails at a number only.
pub fn numbers(text: &[u8], out: &mut [u32]) -> Result<usize, usize>
    ensures { MatchResult result (AllRead text.now out.old out.new) (Stops text.now out.old out.new) }
{
    // Counted by hand, as the count is also the answer once the words end.
    let mut count = 0;
    let mut left = past_white(text);
    while !left.is_empty() {
        if count == out.len() {
            return Err(count);
        }
        let (n, rest) = number(left).ok_or(count)?;
        out[count] = n;
        count += 1;
        left = past_white(rest);
    }
    Ok(count)
}

// Whether a cell's mark is none, or of a change that is there and open.
fn mark_fits(numbers: &[u32], mark: u32) -> bool
    requires { last numbers.now < length numbers.now }
    ensures { MatchBool result (MarkFits numbers.now mark) (MarkFits numbers.now mark → ⊥) }
{
    mark == 0 || mark <= numbers[0] && numbers[2 * mark as usize] == 0
}

// Whether the number at place i fits, where those before it do.
fn number_fits(numbers: &[u32], i: usize) -> bool
    requires { i < length numbers.now }
    ensures { MatchBool result (NumberFits numbers.now i) (NumberFits numbers.now i → ⊥) }
{
    let number = numbers[i];
    let last = 2 * numbers[0] as usize;
    if i == 0 {
        return number <= MAX_CHANGES;
    }
    // A change is its author and what became of it, by their places too, as `changes` has its words; the limits of both stand here.
    if i <= last {
        return number < if i % 2 == 1 { 256 } else { 3 };
    }
    let at = i - 1 - last;
    // The numbers of a cell by their places in it: no enum, as it would say no more than the order of a cell's fields.
    at < 4 * MAX_CELLS
        && match at % 4 {
            0 => matches!(number, 10 | 32..=126),
            1 => number < 256,
            _ => mark_fits(numbers, number),
        }
}

/// The numbers of the file of a paper that fits, and how many changes and cells the paper has.
#[derive(Clone, Copy, Debug, PartialEq, Eq, Hash)]
pub struct File<'a> {
    pub numbers: &'a [u32],
    pub changes: usize,
    pub cells: usize,
    ghost fits: { IsFile numbers.now changes cells },
}

impl<'a> File<'a> {
    ghost use Rattle.file.specs.File.{paper_in};

    /// Reads the file that some numbers are, or says at which place they cease to be one: the place of the first number that does not fit.
    /// Where the numbers stop too early, that is how many there are.
    pub fn read(numbers: &'a [u32]) -> Result<File<'a>, usize>
        ensures { MatchResult result (λ f. f.numbers.now ≡ numbers.now) (Ceases numbers.now) }
    {
        // An index in the chain: whether a number fits depends on its place, and the place is the answer.
        if let Some(i) = (0..numbers.len()).find(|i| !number_fits(numbers, *i)) {
            return Err(i);
        }
        let Some((changes, rest)) = numbers.split_first() else {
            return Err(0);
        };
        let changes = *changes as usize;
        if rest.len() < 2 * changes || (rest.len() - 2 * changes) % 4 > 0 {
            return Err(numbers.len());
        }
        Ok(File {
            numbers,
            changes,
            cells: (rest.len() - 2 * changes) / 4,
        })
    }

    /// Change number `k`.
    pub fn change(&self, k: usize) -> Change
        requires { k < self.now.changes }
        ensures { (d : PaperChange) → slice_index_or (paper_in self.now).changes k d ≡ change_of result }
    {
        changes::read(&self.numbers[1..], k)
    }

    /// Cell number `k`.
    pub fn cell(&self, k: usize) -> Cell
        requires { k < self.now.cells }
        ensures { (d : PaperCell) → slice_index_or (paper_in self.now).cells k d ≡ cell_of result }
    {
        slots::read(&self.numbers[1 + 2 * self.changes..], k)
    }
}

// White space parts the words of a text.
pub fn words_are()
    ensures { WordsAre }
{}

// What is read from the file of a paper that fits is that paper.
pub fn reads_back()
    ensures { ReadsBack }
{}

// Numbers are a file in one way, and cease to be one at one place, but not both.
pub fn one_way()
    ensures { OneWay }
{}

#[cfg(test)]
mod tests {
    use super::*;

    // The place at which the numbers of a text cease to be a file.
    fn refused(text: &[u8]) -> Option<usize> {
        // Lent words, as `numbers` fills them.
        let mut room = [0; 16];
        match numbers(text, &mut room) {
            Ok(n) => File::read(&room[..n]).err(),
            Err(k) => Some(k),
        }
    }

    #[test]
    fn files(rt: HostRuntime) {
        let cases: [(&[u8], Option<usize>); 13] = [
            (b"0", None),
            (b" 1 7 0\n97 0 1 0\r\n10\t255 0 01", None),
            (b"", Some(0)),
            (b"129", Some(0)),
            (b"1 256 0", Some(1)),
            (b"1 7 3", Some(2)),
            (b"1 7", Some(2)),
            (b"1 7 1 97 0 0 1", Some(6)),
            (b"0 97 0 1 0", Some(3)),
            (b"0 97 0 0", Some(4)),
            (b"0 9 0 0 0", Some(1)),
            (b"0 97 0x 0 0", Some(2)),
            (b"0 4294967296", Some(1)),
        ];
        for (text, place) in cases {
            assert_eq!(rt; refused(text), place);
        }
    }
}
