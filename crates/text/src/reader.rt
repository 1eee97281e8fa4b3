// A line of text to the bytes of a call. Each part of a line has a function, which takes what is left of the line and gives what is left
// after the part, or what is left from the first byte on that does not fit.
ghost use Rattle.std.specs.Prelude.{◌≡◌, ◌<◌, ◌≤◌, false, [], ◌∷◌, ◌++◌, length, is_ok, is_some, if◌then◌else◌, MatchResult};
ghost use Rattle.model.specs.Paper.{pick};
ghost use Rattle.codec.specs.Bytes.{word_bytes, words_bytes};
ghost use Rattle.text.specs.Lines.{got, stop, Reads, Passes, Collects, letters_of, literal_in, digits_in, number_in, field_in, numbers_in, head_in, mark_of, letters_in, quoted_in, tail_in, shape_of, call_of, Stops, Lacks, call_in, line_reading, Makes, Fails, BytesOf, RefusedAt, limits_in, limits_reading, LimitsRead};

use crate::fault::{Fault, Stop};
use std::alloc::{AllocError, Global};

// What a byte between quotes is: one of four, so neither an option nor a result says it.
#[derive(Clone, Copy, Debug, PartialEq, Eq, Hash)]
enum Mark {
    Letter(u8),
    Backslash,
    Quote,
    Wrong,
}

// The shape of a call's line: its word, how many numbers, and whether letters come last: a flag, as no letters are here for it to go with.
#[derive(Clone, Copy, Debug, PartialEq, Eq, Hash)]
struct Shape {
    word: &'static [u8],
    count: usize,
    lettered: bool,
}

impl Shape {
    // The shape of the call of number `k`.
    fn of(k: u8) -> Shape
        ensures { (result.word.now ≡ (shape_of k).word) × (result.count ≡ (shape_of k).count) × (result.lettered ≡ (shape_of k).lettered) × (result.count ≤ 4) }
    {
        // The numbers that a call's bytes begin with: an enum would name the twelve here and in a list for `read_line`, and be a number again in `write_call`.
        let (word, count, lettered): (&'static [u8], usize, bool) = match k {
            0 => (b"put", 3, true),
            1 => (b"strike", 3, false),
            2 => (b"accept", 1, false),
            3 => (b"reject", 1, false),
            4 => (b"style", 3, false),
            5 => (b"undo", 0, false),
            6 => (b"redo", 0, false),
            7 => (b"show", 4, false),
            8 => (b"find", 2, true),
            9 => (b"count", 1, false),
            10 => (b"change", 1, false),
            _ => (b"save", 2, false),
        };
        Shape {
            word,
            count,
            lettered,
        }
    }
}

// The bytes of `word`.
fn literal<'a>(line: &'a [u8], word: &[u8]) -> Result<&'a [u8], &'a [u8]>
    ensures { Passes (literal_in word.now line.now) tt result }
{
    let mut left = line;
    for w in word {
        match left {
            [x, rest @ ..] if *x == *w => left = rest,
            _ => return Err(left),
        }
    }
    Ok(left)
}

// The digits of a number after its first, which gave `n`.
fn digits(line: &[u8], mut n: u32) -> Result<(u32, &[u8]), &[u8]>
    ensures { Reads (digits_in n line.now) result }
{
    let mut left = line;
    // What is left gets shorter byte by byte, and a byte may end the number: no iterator gives what is left.
    while let [x @ b'0'..=b'9', rest @ ..] = left {
        // `as`: with `u64::from` the proof that the product fits did not close, as the loop's state has no bound of `n`.
        let more = n as u64 * 10 + u64::from(*x - b'0');
        match u32::try_from(more) {
            Ok(more) => n = more,
            Err(_) => return Err(left),
        }
        left = rest;
    }
    Ok((n, left))
}

// A number: 0, or digits that do not begin with 0, up to 4294967295.
fn number(line: &[u8]) -> Result<(u32, &[u8]), &[u8]>
    ensures { Reads (number_in line.now) result }
{
    match line {
        [b'0', rest @ ..] => Ok((0, rest)),
        [x @ b'1'..=b'9', rest @ ..] => digits(rest, u32::from(*x - b'0')),
        _ => Err(line),
    }
}

// A space and a number.
fn field(line: &[u8]) -> Result<(u32, &[u8]), &[u8]>
    ensures { Reads (field_in line.now) result }
{
    number(literal(line, b" ")?)
}

// A number for each of `all`, after a space.
fn numbers<'a>(line: &'a [u8], all: &mut [u32]) -> Result<&'a [u8], &'a [u8]>
    ensures length { length all.new ≡ length all.old }
    ensures read { Passes (numbers_in (length all.old) [] line.now) all.new result }
{
    let mut left = line;
    for n in all.iter_mut() {
        let (v, rest) = field(left)?;
        *n = v;
        left = rest;
    }
    Ok(left)
}

// A word and the numbers.
fn head<'a>(line: &'a [u8], word: &[u8], all: &mut [u32]) -> Result<&'a [u8], &'a [u8]>
    ensures length { length all.new ≡ length all.old }
    ensures read { Passes (head_in word.now (length all.old) line.now) all.new result }
{
    numbers(literal(line, word)?, all)
}

fn meaning(escaped: bool, x: u8) -> Mark
    ensures { result ≡ mark_of escaped x }
{
    if escaped {
        match x {
            b'n' => Mark::Letter(b'\n'),
            b'"' => Mark::Letter(b'"'),
            b'\\' => Mark::Letter(b'\\'),
            _ => Mark::Wrong,
        }
    } else {
        match x {
            b'"' => Mark::Quote,
            b'\\' => Mark::Backslash,
            b'\n' => Mark::Wrong,
            _ => Mark::Letter(x),
        }
    }
}

// Letters up to the closing quote.
fn letters<'a>(heap: Global, line: &'a [u8]) -> Result<(Vec<u8>, &'a [u8]), Stop<'a>>
    ensures { Collects (letters_in false [] line.now) result }
{
    let mut text = Vec::new(heap);
    let mut escaped = false;
    let mut left = line;
    // What is left gets shorter byte by byte, and a byte may end the letters: no iterator gives what is left.
    while let [x, rest @ ..] = left {
        match meaning(escaped, *x) {
            Mark::Letter(letter) => {
                text.push(letter)?;
                escaped = false;
            }
            Mark::Backslash => escaped = true,
            Mark::Quote => return Ok((text, rest)),
            Mark::Wrong => return Err(Stop::At(left)),
        }
        left = rest;
    }
    Err(Stop::At(left))
}

// Letters between quotes, after a space.
fn quoted<'a>(heap: Global, line: &'a [u8]) -> Result<(Vec<u8>, &'a [u8]), Stop<'a>>
    ensures { Collects (quoted_in line.now) result }
{
    letters(heap, literal(line, b" \"")?)
}

// The letters, where the line has any: whether it has is the shape's to say.
fn tail<'a>(
    heap: Global,
    line: &'a [u8],
    lettered: bool,
) -> Result<(Option<Vec<u8>>, &'a [u8]), Stop<'a>>
    ensures { MatchResult result (λ p. (tail_in lettered line.now ≡ got (letters_of p.0) p.1.now) × (is_some p.0 ≡ lettered)) (Stops (tail_in lettered line.now)) }
{
    if lettered {
        let (text, rest) = quoted(heap, line)?;
        Ok((Some(text), rest))
    } else {
        Ok((None, line))
    }
}

// A whole line as call number `k`: its numbers, and its letters.
fn parse<'a>(
    heap: Global,
    line: &'a [u8],
    k: u8,
    numbers: &mut [u32],
) -> Result<Option<Vec<u8>>, Stop<'a>>
    requires { length numbers.old ≡ (shape_of k).count }
    ensures length { length numbers.new ≡ length numbers.old }
    ensures read { MatchResult result (λ text. (call_in k line.now ≡ got (call_of k numbers.new (letters_of text)) []) × (is_some text ≡ (shape_of k).lettered)) (Stops (call_in k line.now)) }
{
    let shape = Shape::of(k);
    let rest = head(line, shape.word, numbers)?;
    let (text, rest) = tail(heap, rest, shape.lettered)?;
    // Here, in `limits` and in the writer's `whole`: a function's contract would be longer than these lines.
    if rest.is_empty() {
        Ok(text)
    } else {
        Err(Stop::At(rest))
    }
}

// Four bytes, low byte first: a function, as both calls need what it says of a failure.
fn push_word(out: &mut Vec<u8>, n: u32) -> Result<(), AllocError>
    ensures { out.new.items ≡ (if is_ok result then out.old.items ++ word_bytes n else out.old.items) }
{
    out.extend_from_slice(&n.to_le_bytes())
}

// The bytes of call number `k`.
fn write_call(heap: Global, k: u8, numbers: &[u32], text: Option<Vec<u8>>) -> Result<Vec<u8>, Fault>
    ensures { MatchResult result (λ v. v.items ≡ k ∷ (words_bytes numbers.now ++ pick (is_some text) (word_bytes (length (letters_of text)) ++ letters_of text) [])) Lacks }
{
    let mut out = Vec::new(heap);
    out.push(k)?;
    for n in numbers {
        push_word(&mut out, *n)?;
    }
    if let Some(text) = text {
        let Ok(count) = u32::try_from(text.len()) else {
            return Err(Fault::Memory);
        };
        push_word(&mut out, count)?;
        out.extend_from_slice(text.as_slice())?;
    }
    Ok(out)
}

// The bytes of a line that is read as call number `k`.
fn read_as(heap: Global, line: &[u8], k: u8) -> Result<Vec<u8>, Fault>
    requires { k < 12 }
    ensures { MatchResult result (λ v. Makes (call_in k line.now) v.items) (Fails (call_in k line.now) line.now) }
{
    // An array, as a vector could want memory where no line does: no call has more numbers.
    let mut all = [0; 4];
    let numbers = &mut all[..Shape::of(k).count];
    match parse(heap, line, k, numbers) {
        Ok(text) => write_call(heap, k, numbers, text),
        // As in the writer: one function for both would have to ask that `rest` is no longer than the whole, which each shows in its own way.
        Err(Stop::At(rest)) => Err(Fault::Place(line.len() - rest.len())),
        Err(Stop::NoMemory) => Err(Fault::Memory),
    }
}

// The bytes of the call that a line is. A line that is no call is refused at the first byte that does not fit: the furthest place that is
// reached by reading it as any of the calls.
pub fn read_line(heap: Global, line: &[u8]) -> Result<Vec<u8>, Fault>
    ensures { MatchResult result (λ v. BytesOf (line_reading line.now) v.items) (RefusedAt (line_reading line.now)) }
{
    let mut far: usize = 0;
    // By number, as in `Shape::of`: a line names its kind by a word, and an enum would need a list of its kinds to go over.
    for k in 0..12 {
        match read_as(heap, line, k) {
            Ok(call) => return Ok(call),
            Err(Fault::Place(at)) => far = far.max(at),
            Err(Fault::Memory) => return Err(Fault::Memory),
        }
    }
    Err(Fault::Place(far))
}

// The three limits, as the line has them.
fn limits(line: &[u8]) -> Result<[u32; 3], &[u8]>
    ensures { MatchResult result (λ ns. (limits_in line.now ≡ got ns []) × (length ns ≡ 3)) (λ rest. limits_in line.now ≡ stop rest.now) }
{
    let mut numbers = [0; 3];
    let rest = head(line, b"limits", &mut numbers)?;
    if rest.is_empty() {
        Ok(numbers)
    } else {
        Err(rest)
    }
}

// The limits of a file's first line: `limits CELLS CHANGES UNDOS`. Three numbers, as the type of limits is the session's,
// on which this crate does not stand.
pub fn read_limits(line: &[u8]) -> Result<(u32, u32, u32), usize>
    ensures { LimitsRead (limits_reading line.now) result }
{
    match limits(line) {
        Ok(numbers) => {
            let [cells, changes, undos] = numbers;
            Ok((cells, changes, undos))
        }
        Err(rest) => Err(line.len() - rest.len()),
    }
}
