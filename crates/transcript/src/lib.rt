// The answers to a file of calls, a line for each. What they are is in specs/.
#![tactic(auto)]

ghost use Rattle.std.specs.Prelude.{◌≡◌, true, MatchResult};
ghost use Rattle.model.specs.Calls.{Answer as Saying};
ghost use Rattle.codec.specs.Bytes.{answer_bytes};
ghost use Rattle.session.specs.Refusals.{refusal_told};
ghost use Rattle.text.specs.Lines.{Lacks, limits_reading};
ghost use Rattle.text.specs.Shown.{showable};
ghost use Rattle.transcript.specs.Serving.{Appends, LimitsFound, RoomFound};
ghost use Rattle.transcript.specs.Transcript.{AnswersCalls, told_line, transcript};

mod lines;
mod open;

use codec::Answer;
use lines::Lines;
use open::OpenDesk;
use session::{Limits, Refusal};
use std::alloc::Global;
use text::Fault;

// The most that this program has room for: limits of its own, as other programs have theirs.
const MOST_CELLS: u32 = 2048;

const MOST_CHANGES: u32 = 128;

const MOST_UNDOS: u32 = 2048;

// Appends the line of an answer that can be shown, from its bytes.
fn tell(answer: &[u8], out: &mut Vec<u8>) -> Result<(), Fault>
    ensures { (a : Saying) → showable a ≡ true → answer.now ≡ answer_bytes a → Appends (told_line a) out.old.items out.new.items result }
{
    let line = text::write_answer(*out.allocator(), answer)?;
    out.extend_from_slice(line.as_slice())?;
    out.push(b'\n')?;
    Ok(())
}

// Appends the line of a refusal.
fn refuse(refusal: Refusal, out: &mut Vec<u8>) -> Result<(), Fault>
    ensures { Appends (told_line (refusal_told refusal)) out.old.items out.new.items result }
{
    // As many bytes as a refusal has.
    let mut bytes = [0; 9];
    let _long = codec::write(Answer::from(refusal), &mut bytes);
    tell(&bytes, out)
}

// Limits that no desk can have are refused, and limits that there is no room for here.
fn check(limits: Limits) -> Result<(), Refusal>
    ensures { RoomFound limits.cells limits.changes limits.undos result }
{
    if !limits.are_allowed() {
        return Err(Refusal::LimitsOutOfRange);
    }
    if limits.cells > MOST_CELLS || limits.changes > MOST_CHANGES || limits.undos > MOST_UNDOS {
        return Err(Refusal::TooLittleMemory);
    }
    Ok(())
}

// The limits in the first line, if there is room for them.
fn limits_of(first: &[u8]) -> Result<Limits, Refusal>
    ensures { LimitsFound (limits_reading first.now) result }
{
    let (cells, changes, undos) = text::read_limits(first).map_err(|at| Refusal::NotACall { at })?;
    let limits = Limits {
        cells,
        changes,
        undos,
    };
    check(limits)?;
    Ok(limits)
}

// The answers to a file of calls, or want of memory. Each line of the file ends with byte 10 or with the file.
pub fn answer_file(heap: Global, file: &[u8]) -> Result<Vec<u8>, Fault>
    ensures { MatchResult result (λ v. v.items ≡ transcript file.now) Lacks }
{
    let mut out = Vec::new(heap);
    let mut lines = Lines { rest: file };
    let Some(first) = lines.next() else {
        return Ok(out);
    };
    match limits_of(first) {
        Ok(limits) => {
            let mut desk = OpenDesk::open(heap, limits)?;
            for line in lines {
                desk.answer_line(line, &mut out)?;
            }
        }
        Err(refusal) => refuse(refusal, &mut out)?,
    }
    Ok(out)
}

// For every list of calls, the answers to its file are those of the model.
pub fn answers_calls()
    ensures { AnswersCalls }
{
    text::reads_back();
    text::limits_back();
}
