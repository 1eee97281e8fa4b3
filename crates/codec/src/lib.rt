// Calls and answers as bytes. A call is read whole; its letters stay where they are, as a part of the bytes. An answer of up to two
// numbers is written at once; rows and rows of numbers are written piece by piece, each piece at a place of the lent bytes.
#![tactic(auto)]

ghost use Rattle.std.specs.Prelude.{◌≡◌, ◌+◌, ◌<◌, ◌≤◌, [], ◌∷◌, ◌++◌, length, drop, Ok, Err, slice_index};
ghost use Rattle.model.specs.Values.{cell_of};
ghost use Rattle.codec.specs.Bytes.{word_bytes, words_bytes, cells_bytes, answer_bytes};
ghost use Rattle.codec.specs.Kinds.{form_number};
ghost use Rattle.codec.specs.Reading.{reading, call_is, ceases, head_length};
ghost use Rattle.codec.specs.Values.{meaning, told};
ghost use Rattle.codec.specs.Over.{over};
ghost use Rattle.codec.specs.Laws.{ReadableIs, ReadsBack, ReadsOnly, OneAnswer};

mod form;
mod kind;

use form::Form;
use kind::Kind;

// The numbers of a call. The letters of Put and Find are not in it: they stand beside it, where they came. So a call is a plain value of numbers, and
// no contract that speaks of one has to speak of bytes that are lent. A way to look is a number here,
// since any number can come: one that names no way is refused by whoever has the paper.
#[derive(Clone, Copy, Debug, PartialEq, Eq, Hash)]
pub enum Call {
    Put {
        author: u32,
        place: u32,
        style: u32,
    },
    Strike {
        author: u32,
        place: u32,
        count: u32,
    },
    Accept {
        change: u32,
    },
    Reject {
        change: u32,
    },
    Style {
        place: u32,
        count: u32,
        style: u32,
    },
    Undo,
    Redo,
    Show {
        way: u32,
        width: u32,
        row: u32,
        count: u32,
    },
    Find {
        way: u32,
        from: u32,
    },
    Count {
        way: u32,
    },
    Change {
        change: u32,
    },
    Save {
        from: u32,
        count: u32,
    },
}

// The answers of up to two numbers: the number of a refusal and its place; a number; two numbers. A refusal is two numbers here, as the answer's
// bytes have it: which refusals there are is the session's.
#[derive(Clone, Copy, Debug, PartialEq, Eq, Hash)]
pub enum Answer {
    Refused(u32, u32),
    Number(u32),
    Two(u32, u32),
}

// The call that these bytes are and its letters, which are all after its fields, or the place where they cease to be a call.
pub fn read(bytes: &[u8]) -> Result<(Call, &[u8]), usize>
    ensures { elim result [
      | Ok p ↦ (reading bytes.now ≡ call_is (meaning p.0 p.1.now)) × (p.1.now ≡ drop (head_length (slice_index bytes.now 0)) bytes.now)
      | Err i ↦ (reading bytes.now ≡ ceases i) × (i ≤ length bytes.now)
    ] }
{
    let Some(first) = bytes.first() else {
        return Err(0);
    };
    let Ok(kind) = Kind::try_from(*first) else {
        return Err(0);
    };
    let len = bytes.len();
    let head = kind.head_length();
    if len < head {
        return Err(len);
    }
    let whole = head + kind.letter_count(bytes) as usize;
    if len < whole {
        return Err(len);
    }
    if whole < len {
        return Err(whole);
    }
    Ok((kind.call(bytes), &bytes[head..]))
}

// Writes a number at a place: one of a row of numbers, or how many cells a row has. The answer is the place after it, here and below.
// In this function and the next four the bytes and the place are two parameters: the bytes are lent memory that callers fill piece by piece, in
// loops whose state is the place. A value of both would need a clause more in each contract: that it still writes to the same bytes, as `Rewrites` of
// `pieces` has.
pub fn number(out: &mut [u8], at: usize, n: u32) -> usize
    requires { at + 4 ≤ length out.old }
    ensures bytes { out.new ≡ over out.old at (word_bytes n) }
    ensures next { result ≡ at + 4 }
{
    out[at..at + 4].copy_from_slice(&n.to_le_bytes());
    at + 4
}

// Begins an answer: its form, and its first number.
fn begin(out: &mut [u8], at: usize, form: Form, n: u32) -> usize
    requires { at + 5 ≤ length out.old }
    ensures bytes { out.new ≡ over out.old at (form_number form ∷ word_bytes n) }
    ensures next { result ≡ at + 5 }
{
    out[at] = u8::from(form);
    number(out, at + 1, n)
}

// Begins an answer of rows: how many there are. Rows and numbers have a function each, as a form in a parameter would let callers begin any other.
pub fn begin_rows(out: &mut [u8], at: usize, count: u32) -> usize
    requires { at + 5 ≤ length out.old }
    ensures bytes { out.new ≡ over out.old at (3 ∷ word_bytes count) }
    ensures next { result ≡ at + 5 }
{
    begin(out, at, Form::Rows, count)
}

// Begins an answer of a row of numbers: how many there are.
pub fn begin_numbers(out: &mut [u8], at: usize, count: u32) -> usize
    requires { at + 5 ≤ length out.old }
    ensures bytes { out.new ≡ over out.old at (4 ∷ word_bytes count) }
    ensures next { result ≡ at + 5 }
{
    begin(out, at, Form::Numbers, count)
}

// Writes a cell of a row.
pub fn cell(out: &mut [u8], at: usize, x: model::Cell) -> usize
    requires { at + 16 ≤ length out.old }
    ensures bytes { out.new ≡ over out.old at (cells_bytes (cell_of x ∷ [])) }
    ensures next { result ≡ at + 16 }
{
    let at = number(out, at, x.letter);
    let at = number(out, at, x.style);
    let at = number(out, at, x.put_in);
    number(out, at, x.struck)
}

// Writes an answer of two numbers.
fn pair(out: &mut [u8], form: Form, m: u32, n: u32) -> usize
    requires { 9 ≤ length out.old }
    ensures bytes { out.new ≡ over out.old 0 (form_number form ∷ words_bytes (m ∷ (n ∷ []))) }
    ensures next { result ≡ 9 }
{
    let at = begin(out, 0, form, m);
    number(out, at, n)
}

// Writes an answer of up to two numbers, and says how many bytes it has.
#[tactic(auto, using(crate::proofs::Writes::over_start), unfolding(crate::specs::Bytes::answer_bytes, crate::specs::Bytes::words_bytes, crate::specs::Bytes::word_bytes))]
pub fn write(answer: Answer, out: &mut [u8]) -> usize
    requires { 9 ≤ length out.old }
    ensures bytes { out.new ≡ answer_bytes (told answer) ++ drop result out.old }
    ensures long { result ≡ length (answer_bytes (told answer)) }
{
    match answer {
        Answer::Refused(number, place) => pair(out, Form::Refused, number, place),
        Answer::Number(n) => begin(out, 0, Form::Number, n),
        Answer::Two(m, n) => pair(out, Form::Two, m, n),
    }
}

// A call is readable if, and only if, each of its bytes is below 256.
pub fn readable_is()
    ensures { ReadableIs }
{}

// The bytes of a call are read as that call.
pub fn reads_back()
    ensures { ReadsBack }
{}

// Only those bytes are read as it.
pub fn reads_only()
    ensures { ReadsOnly }
{}

// Two answers with the same bytes are the same answer.
pub fn one_answer()
    ensures { OneAnswer }
{}
