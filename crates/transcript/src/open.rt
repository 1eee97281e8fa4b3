// An open desk in memory of its own.
ghost use Rattle.std.specs.Prelude.{◌≡◌, ◌≤◌, true, IfOk, vec_len};
ghost use Rattle.session.specs.Memory.{Sound};
ghost use Rattle.transcript.specs.OneSound.{sound_prop};
ghost use Rattle.transcript.specs.Transcript.{room_for};

use crate::{refuse, tell};
use session::{ANSWER_BYTES, Limits, Refusal};
use std::alloc::{AllocError, Global};
use text::Fault;

// A desk and the memory that it lends. It has no `Debug`, which would print all of that. The memory is on the heap, as it is too much for a stack:
// so there can be want of it where a desk is opened.
#[derive(Drop)]
pub(crate) struct OpenDesk {
    cells: Vec<u32>,
    pieces: Vec<u32>,
    undo: Vec<u32>,
    // Room for the longest answer.
    answer: Vec<u8>,
    ghost sound: { Sound cells.items pieces.items undo.items } by { sound_prop cells.items pieces.items undo.items },
    ghost room: { 262405 ≤ vec_len answer },
}

impl OpenDesk {
    ghost use Rattle.model.specs.Calls.{new_desk};
    ghost use Rattle.transcript.specs.Transcript.{limits_for};
    ghost use Rattle.transcript.specs.Serving.{Answered, CallDone};
    ghost use Rattle.transcript.specs.Open.{StandsFor, limits_at};

    // An empty desk with these limits.
    pub(crate) fn open(heap: Global, limits: Limits) -> Result<OpenDesk, AllocError>
        requires { room_for limits.cells limits.changes limits.undos ≡ true }
        ensures { IfOk result (λ d. (limits_at d ≡ limits_for limits.cells limits.changes limits.undos) × StandsFor d new_desk) }
    {
        let asked = session::words_for(limits);
        let mut cells = vec![in heap; 0; asked.cells]?;
        let mut pieces = vec![in heap; 0; asked.pieces]?;
        let mut undo = vec![in heap; 0; asked.undo]?;
        let answer = vec![in heap; 0; ANSWER_BYTES]?;
        match session::open(
            cells.as_mut_slice(),
            pieces.as_mut_slice(),
            undo.as_mut_slice(),
            limits,
        ) {
            Ok(()) => Ok(OpenDesk {
                cells,
                pieces,
                undo,
                answer,
            }),
            Err(_) => unreachable!(),
        }
    }

    // Does the call that the bytes are, and appends its answer.
    fn answer_call(&mut self, call: &[u8], out: &mut Vec<u8>) -> Result<(), Fault>
        ensures { CallDone self.old call.now out.old.items self.new out.new.items result }
    {
        // Each letter was put in by a call: so every answer can be shown.
        model::letters::nothing_from_nowhere();
        let long = session::call(
            self.cells.as_mut_slice(),
            self.pieces.as_mut_slice(),
            self.undo.as_mut_slice(),
            call,
            self.answer.as_mut_slice(),
        );
        tell(&self.answer.as_slice()[..long], out)
    }

    // Answers one line.
    pub(crate) fn answer_line(&mut self, line: &[u8], out: &mut Vec<u8>) -> Result<(), Fault>
        ensures { Answered self.old line.now out.old.items self.new out.new.items result }
    {
        match text::read_line(*out.allocator(), line) {
            Ok(call) => self.answer_call(call.as_slice(), out),
            Err(Fault::Place(at)) => refuse(Refusal::NotACall { at }, out),
            Err(Fault::Memory) => Err(Fault::Memory),
        }
    }
}
