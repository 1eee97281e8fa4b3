// The C interface: a slice is passed as a pointer and a length. include/desk.h tells what a caller has to know.
#![tactic(auto)]

ghost use Rattle.std.specs.Prelude.{◌≡◌, ◌&&◌, length, nat_le};
ghost use Rattle.capi.specs.Interface.{CallReturns, Callable, NamesSlice, OpenReturns, StaysCallable, code, long_enough, words_told};
ghost use Rattle.session.specs.Refusals.{refusal_number, refusal_place};

use session::{ANSWER_BYTES, Limits, Refusal, Sizes};

/// One of the slices that are lent.
#[derive(Clone, Copy, Debug, PartialEq, Eq, Hash)]
pub enum Slice {
    Cells,
    Pieces,
    Undo,
}

/// A number that names no slice.
#[derive(Clone, Copy, Debug, PartialEq, Eq, Hash)]
pub struct UnknownSlice(pub u32);

impl TryFrom<u32> for Slice {
    type Error = UnknownSlice;

    ghost try_from_gives = { NamesSlice };

    fn try_from(number: u32) -> Result<Self, UnknownSlice> {
        match number {
            // the numbers that C knows the slices by
            0 => Ok(Slice::Cells),
            1 => Ok(Slice::Pieces),
            2 => Ok(Slice::Undo),
            _ => Err(UnknownSlice(number)),
        }
    }
}

// How many words a slice has to have for a desk with these limits: 0 the cells, 1 the pieces, 2 what can be undone; it is a number, as C passes it.
#[unsafe(no_mangle)]
pub extern "C" fn desk_words(which: u32, cells: u32, changes: u32, undos: u32) -> i64
    ensures { result ≡ words_told which cells changes undos }
{
    let limits = Limits {
        cells,
        changes,
        undos,
    };
    let Ok(slice) = Slice::try_from(which) else {
        return refused(Refusal::OutOfRange);
    };
    if !limits.are_allowed() {
        return refused(Refusal::LimitsOutOfRange);
    }
    let asked = session::words_for(limits);
    match slice {
        Slice::Cells => asked.cells as i64,
        Slice::Pieces => asked.pieces as i64,
        Slice::Undo => asked.undo as i64,
    }
}

// Opens a desk with an empty paper in lent memory, whatever that holds. C passes each slice apart.
#[unsafe(no_mangle)]
pub extern "C" fn desk_open(
    cells: &mut [u32],
    pieces: &mut [u32],
    undo: &mut [u32],
    max_cells: u32,
    max_changes: u32,
    max_undos: u32,
) -> i64
    ensures { OpenReturns result max_cells max_changes max_undos cells.old pieces.old undo.old cells.new pieces.new undo.new }
{
    let limits = Limits {
        cells: max_cells,
        changes: max_changes,
        undos: max_undos,
    };
    match session::open(cells, pieces, undo, limits) {
        Ok(()) => 0,
        Err(refusal) => refused(refusal),
    }
}

// Does a call at an open desk. Memory that is long enough for the limits in it has to be what desk_open left and only desk_call has changed since.
// C passes each slice apart.
#[unsafe(no_mangle)]
pub extern "C" fn desk_call(
    cells: &mut [u32],
    pieces: &mut [u32],
    undo: &mut [u32],
    call: &[u8],
    answer: &mut [u8],
) -> i64
    requires { Callable cells.old pieces.old undo.old }
    ensures { CallReturns (long_enough cells.old pieces.old undo.old && nat_le 262405 (length answer.old)) result cells.old pieces.old undo.old call.now answer.old cells.new pieces.new undo.new answer.new }
{
    if suffices(cells, pieces, undo) && ANSWER_BYTES <= answer.len() {
        session::call(cells, pieces, undo, call, answer) as i64
    } else {
        -1
    }
}

// Whether memory is as long as the limits in it ask for. The slices stand apart, as C passes them.
fn suffices(cells: &[u32], pieces: &[u32], undo: &[u32]) -> bool
    ensures { result ≡ long_enough cells.now pieces.now undo.now }
{
    // the first three words of the pieces
    let [max_cells, max_changes, max_undos, ..] = pieces else {
        return false;
    };
    let limits = Limits {
        cells: *max_cells,
        changes: *max_changes,
        undos: *max_undos,
    };
    let lent = Sizes {
        cells: cells.len(),
        pieces: pieces.len(),
        undo: undo.len(),
    };
    limits.are_allowed() && limits.have_room(lent)
}

// A refusal as one number. No `From`, as neither type is of this crate.
fn refused(refusal: Refusal) -> i64
    ensures { result ≡ code (refusal_number refusal) (refusal_place refusal) }
{
    -(i64::from(refusal.number()) * 4_294_967_296 + i64::from(refusal.place()))
}

// What desk_call asks of memory holds once desk_open has opened it, and after every desk_call.
pub fn stays_callable()
    ensures { StaysCallable }
{}
