// The desk on lent memory: three slices of words, which the caller lends to every call. `open` makes an empty desk in them, `call` does a call that
// comes as bytes and writes the answer as bytes. What memory holds, and what each promises of it, is in specs/.
#![tactic(auto)]

ghost use Rattle.std.specs.Prelude.{◌≡◌, ◌+◌, ◌*◌, ◌≤◌, ◌&&◌, ◌∷◌, ◌++◌, length, take, drop, replicate, nat_le};
ghost use Rattle.codec.specs.Reading.{reading};
ghost use Rattle.session.specs.Contract.{Called, Opening, good_limits};
ghost use Rattle.session.specs.Desks.{Tried};
ghost use Rattle.session.specs.Keeping.{AnyChain, FromOpening, MainPromise};
ghost use Rattle.session.specs.Memory.{Sound, cells_words, pieces_words, undo_words};

mod calls;
mod cells;
mod deciding;
mod desk;
mod range;
mod recording;
mod refusal;
mod undoing;
mod writes;

use codec::Answer;
use desk::{Desk, HEAD};
pub use refusal::Refusal;

/// How many bytes the longest answer has: 64 rows of 256 cells. Contracts have the number itself, as include/desk.h tells it to callers in C. They ask for
/// it of the slice, here and below: that is C's, and what it has beyond the answer is promised to stay.
pub const ANSWER_BYTES: usize = 262_405;

const MOST_CELLS: u32 = 1_000_000;

const MOST_CHANGES: u32 = 65_536;

const MOST_UNDOS: u32 = 1_000_000;

// How many cells and changes a paper may have, and how much can be undone.
#[derive(Clone, Copy, Debug, PartialEq, Eq, Hash)]
pub struct Limits {
    pub cells: u32,
    pub changes: u32,
    pub undos: u32,
}

// How many words each slice has, or has to have.
#[derive(Clone, Copy, Debug, PartialEq, Eq, Hash)]
pub struct Sizes {
    pub cells: usize,
    pub pieces: usize,
    pub undo: usize,
}

impl Limits {
    /// Whether a desk can be opened with these limits.
    pub fn are_allowed(self) -> bool
        ensures { result ≡ good_limits self.cells self.changes self.undos }
    {
        self.cells <= MOST_CELLS && (self.changes <= MOST_CHANGES && self.undos <= MOST_UNDOS)
    }

    /// Whether slices that have so many words are as long as these limits ask for.
    pub fn have_room(self, lent: Sizes) -> bool
        ensures { result ≡ (nat_le (cells_words self.cells) lent.cells && (nat_le (pieces_words self.changes) lent.pieces && nat_le (undo_words self.undos) lent.undo)) }
    {
        let asked = words_for(self);
        asked.cells <= lent.cells && (asked.pieces <= lent.pieces && asked.undo <= lent.undo)
    }
}

// The sizes that the limits ask for, whether or not a desk can be opened with them. (By numbers: `pieces::slots_for` has a bound, which such limits may pass.)
pub fn words_for(limits: Limits) -> Sizes
    ensures cells { result.cells ≡ cells_words limits.cells }
    ensures pieces { result.pieces ≡ pieces_words limits.changes }
    ensures undo { result.undo ≡ undo_words limits.undos }
{
    Sizes {
        cells: 4096 * (limits.cells as usize / 576 + 4),
        pieces: 34832 + 2 * limits.changes as usize,
        undo: 16 + 16 * limits.undos as usize,
    }
}

// An empty desk in lent memory, or refusal 3. The slices stand apart, as the C interface lends them.
pub fn open(
    cells: &mut [u32],
    pieces: &mut [u32],
    undo: &mut [u32],
    limits: Limits,
) -> Result<(), Refusal>
    ensures { Opening result limits.cells limits.changes limits.undos cells.old pieces.old undo.old cells.new pieces.new undo.new }
{
    if !limits.are_allowed() {
        return Err(Refusal::LimitsOutOfRange);
    }
    // By name, here and in `capi`: a function of the three slices would be no shorter.
    let lent = Sizes {
        cells: cells.len(),
        pieces: pieces.len(),
        undo: undo.len(),
    };
    if !limits.have_room(lent) {
        return Err(Refusal::TooLittleMemory);
    }
    begin(pieces, limits);
    let tables = HEAD + 2 * limits.changes as usize;
    let slots = pieces::slots_for(limits.cells as usize);
    kept::clear(cells, &mut pieces[tables..], slots);
    history::log::clear(undo, limits.undos);
    Ok(())
}

// The limits, and no change.
fn begin(pieces: &mut [u32], limits: Limits)
    requires { 16 + 2 * limits.changes ≤ length pieces.old }
    ensures { pieces.new ≡ (limits.cells ∷ (limits.changes ∷ (limits.undos ∷ replicate (13 + 2 * limits.changes) 0))) ++ drop (16 + 2 * limits.changes) pieces.old }
{
    pieces[..HEAD + 2 * limits.changes as usize].fill(0);
    pieces[0] = limits.cells;
    pieces[1] = limits.changes;
    pieces[2] = limits.undos;
}

// Does the call that the bytes are, or refuses it, and writes the answer into the first bytes of `answer`; returns how many those are. Bytes that are no
// call are refused by 1, a call out of range by 2; the other checks are the calls' own, in the order of the refusals' numbers. The slices stand apart, as the C interface lends them.
pub fn call(
    cells: &mut [u32],
    pieces: &mut [u32],
    undo: &mut [u32],
    bytes: &[u8],
    answer: &mut [u8],
) -> usize
    requires sound { Sound cells.old pieces.old undo.old }
    requires room { 262405 ≤ length answer.old }
    ensures called { Called cells.old pieces.old undo.old bytes.now cells.new pieces.new undo.new (take result answer.new) }
    ensures within { result ≤ length answer.old }
    ensures rest { drop result answer.new ≡ drop result answer.old }
{
    match try_call(cells, pieces, undo, bytes, answer) {
        Ok(long) => long,
        Err(refusal) => codec::write(Answer::from(refusal), answer),
    }
}

// Does the call that the bytes are, or says why it is refused. It makes the desk of the slices that are lent.
fn try_call(
    cells: &mut [u32],
    pieces: &mut [u32],
    undo: &mut [u32],
    bytes: &[u8],
    answer: &mut [u8],
) -> Result<usize, Refusal>
    requires sound { Sound cells.old pieces.old undo.old }
    requires room { 262405 ≤ length answer.old }
    ensures { Tried cells.old pieces.old undo.old (reading bytes.now) cells.new pieces.new undo.new answer.old answer.new result }
{
    // Not `map_err` and `?`: tried, and the proof that the call is the one that was read did not close.
    match codec::read(bytes) {
        Ok((call, letters)) => {
            let mut desk = Desk {
                cells,
                pieces,
                undo,
            };
            desk.serve(call, letters, answer)
        }
        Err(at) => Err(Refusal::NotACall { at }),
    }
}

// In any chain of calls, with any bytes, the answers are those of the desk that memory stood for; after opening, of the empty desk.
pub fn any_chain()
    ensures stands { AnyChain }
    ensures opened { FromOpening }
{}

// Whoever keeps to the contracts of open and call answers every list of calls as the model does, within the memory that is asked for.
pub fn main_promise()
    ensures { MainPromise }
{}
