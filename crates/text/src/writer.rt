// An answer's bytes to a line of text. Each part of an answer has a function, which takes the bytes that begin with the part, appends it
// to the line, and gives the bytes after it.
ghost use Rattle.std.specs.Prelude.{◌≡◌, ℕ, ◌+◌, ◌≤◌, true, List, [], ◌++◌, length, decimal, MatchResult, OnOk};
ghost use Rattle.model.specs.Calls.{Answer};
ghost use Rattle.codec.specs.Bytes.{answer_bytes};
ghost use Rattle.text.specs.Lines.{Step, got, Stops, Adds, Fails, Lacks};
ghost use Rattle.text.specs.Shown.{word_at, mark_line, escape_line, cell_line, number_shown, spaced_shown, cell_shown, counted, row_shown, refusal_shown, pair_shown, table_shown, numbers_shown, form_shown, answer_shown, answer_line, showable};

use crate::fault::{Fault, Stop};
use itoa::Buffer;
use std::alloc::{AllocError, Global};

// An index, as a cell's numbers stand at fixed places in it. A number at the start of the bytes is read so too, here and below, so that there is
// one way to read a number.
fn word(bytes: &[u8], at: usize) -> u32
    requires { at + 4 ≤ length bytes.now }
    ensures { result ≡ word_at bytes.now at }
{
    u32::from_le_bytes([bytes[at], bytes[at + 1], bytes[at + 2], bytes[at + 3]])
}

// The decimal digits of `n`.
pub fn push_number(out: &mut Vec<u8>, n: u64) -> Result<(), AllocError>
    ensures { OnOk result (out.new.items ≡ out.old.items ++ decimal n) }
{
    let mut digits = Buffer::new();
    out.extend_from_slice(digits.format(n).as_bytes())
}

// What stands before a letter that is put in, struck out, or both.
fn mark_of(put_in: u32, struck: u32) -> &'static [u8]
    ensures { result.now ≡ mark_line put_in struck }
{
    match (put_in, struck) {
        (0, 0) => b"",
        (0, _) => b"-",
        (_, 0) => b"+",
        _ => "±".as_bytes(),
    }
}

fn escape_of(letter: u8) -> &'static [u8]
    ensures { result.now ≡ escape_line letter }
{
    match letter {
        b'+' | b'-' | b'|' | b'\\' => b"\\",
        _ => b"",
    }
}

// A letter, with its marks before it. It appends bytes, and no `Display` writes it, as a letter may be any byte.
pub fn push_cell(out: &mut Vec<u8>, letter: u8, put_in: u32, struck: u32) -> Result<(), AllocError>
    ensures { OnOk result (out.new.items ≡ out.old.items ++ cell_line letter put_in struck) }
{
    out.extend_from_slice(mark_of(put_in, struck))?;
    out.extend_from_slice(escape_of(letter))?;
    out.push(letter)?;
    Ok(())
}

// A number.
fn number<'a>(bytes: &'a [u8], out: &mut Vec<u8>) -> Result<&'a [u8], Stop<'a>>
    ensures { Adds (number_shown out.old.items bytes.now) out.new.items result }
{
    if bytes.len() < 4 {
        return Err(Stop::At(bytes));
    }
    push_number(out, u64::from(word(bytes, 0)))?;
    Ok(&bytes[4..])
}

// A part that an answer can have many of. The three that follow derive nothing, as no value of them is made.
trait Part {
    // What its bytes add to the line so far.
    ghost shown: { List ℕ → List ℕ → Step (List ℕ) };

    fn write<'a>(bytes: &'a [u8], out: &mut Vec<u8>) -> Result<&'a [u8], Stop<'a>>
        ensures { Adds (shown out.old.items bytes.now) out.new.items result };
}

// A space and a number.
struct Spaced;

impl Part for Spaced {
    ghost shown = { spaced_shown };

    fn write<'a>(bytes: &'a [u8], out: &mut Vec<u8>) -> Result<&'a [u8], Stop<'a>> {
        out.push(b' ')?;
        number(bytes, out)
    }
}

// A cell is four numbers: its letter, its style, and by which changes it was put in and struck out.
struct Cell;

impl Part for Cell {
    ghost shown = { cell_shown };

    fn write<'a>(bytes: &'a [u8], out: &mut Vec<u8>) -> Result<&'a [u8], Stop<'a>> {
        if bytes.len() < 16 {
            return Err(Stop::At(bytes));
        }
        let Ok(letter) = u8::try_from(word(bytes, 0)) else {
            return Err(Stop::At(bytes));
        };
        push_cell(out, letter, word(bytes, 8), word(bytes, 12))?;
        Ok(&bytes[16..])
    }
}

// A row: its cells, and a bar after them.
struct Row;

impl Part for Row {
    ghost shown = { row_shown };

    fn write<'a>(bytes: &'a [u8], out: &mut Vec<u8>) -> Result<&'a [u8], Stop<'a>> {
        let rest = counted::<Cell>(bytes, out)?;
        out.push(b'|')?;
        Ok(rest)
    }
}

// A count, and so many of a kind.
fn counted<'a, P: Part>(bytes: &'a [u8], out: &mut Vec<u8>) -> Result<&'a [u8], Stop<'a>>
    ensures { Adds (counted P.shown out.old.items bytes.now) out.new.items result }
{
    if bytes.len() < 4 {
        return Err(Stop::At(bytes));
    }
    let mut left = &bytes[4..];
    for _ in 0..word(bytes, 0) {
        left = P::write(left, out)?;
    }
    Ok(left)
}

// A refusal and its place.
fn refusal<'a>(bytes: &'a [u8], out: &mut Vec<u8>) -> Result<&'a [u8], Stop<'a>>
    ensures { Adds (refusal_shown out.old.items bytes.now) out.new.items result }
{
    out.extend_from_slice(b"refused")?;
    let rest = Spaced::write(bytes, out)?;
    out.extend_from_slice(b" at")?;
    Spaced::write(rest, out)
}

// Two numbers.
fn pair<'a>(bytes: &'a [u8], out: &mut Vec<u8>) -> Result<&'a [u8], Stop<'a>>
    ensures { Adds (pair_shown out.old.items bytes.now) out.new.items result }
{
    let rest = number(bytes, out)?;
    Spaced::write(rest, out)
}

// Rows, with a bar before the first.
fn table<'a>(bytes: &'a [u8], out: &mut Vec<u8>) -> Result<&'a [u8], Stop<'a>>
    ensures { Adds (table_shown out.old.items bytes.now) out.new.items result }
{
    out.extend_from_slice(b"rows |")?;
    counted::<Row>(bytes, out)
}

// A row of numbers.
fn list<'a>(bytes: &'a [u8], out: &mut Vec<u8>) -> Result<&'a [u8], Stop<'a>>
    ensures { Adds (numbers_shown out.old.items bytes.now) out.new.items result }
{
    out.extend_from_slice(b"numbers")?;
    counted::<Spaced>(bytes, out)
}

// Any of the five forms, by the first byte.
fn form<'a>(bytes: &'a [u8], out: &mut Vec<u8>) -> Result<&'a [u8], Stop<'a>>
    ensures { Adds (form_shown out.old.items bytes.now) out.new.items result }
{
    // The numbers are those that an answer's bytes begin with: an enum would be made of the byte only to be matched at once.
    match bytes {
        [0, rest @ ..] => refusal(rest, out),
        [1, rest @ ..] => number(rest, out),
        [2, rest @ ..] => pair(rest, out),
        [3, rest @ ..] => table(rest, out),
        [4, rest @ ..] => list(rest, out),
        _ => Err(Stop::At(bytes)),
    }
}

// A whole answer.
fn whole<'a>(heap: Global, bytes: &'a [u8]) -> Result<Vec<u8>, Stop<'a>>
    ensures { MatchResult result (λ v. answer_shown bytes.now ≡ got v.items []) (Stops (answer_shown bytes.now)) }
{
    let mut out = Vec::new(heap);
    let rest = form(bytes, &mut out)?;
    if rest.is_empty() {
        Ok(out)
    } else {
        Err(Stop::At(rest))
    }
}

// The line of an answer, from its bytes. Bytes that are no answer are refused at the place of the part that does not fit.
pub fn write_answer(heap: Global, answer: &[u8]) -> Result<Vec<u8>, Fault>
    ensures shown { MatchResult result (λ v. answer_shown answer.now ≡ got v.items []) (Fails (answer_shown answer.now) answer.now) }
    ensures line { (a : Answer) → showable a ≡ true → answer.now ≡ answer_bytes a → MatchResult result (λ v. v.items ≡ answer_line a) Lacks }
{
    match whole(heap, answer) {
        Ok(line) => Ok(line),
        Err(Stop::At(rest)) => Err(Fault::Place(answer.len() - rest.len())),
        Err(Stop::NoMemory) => Err(Fault::Memory),
    }
}
