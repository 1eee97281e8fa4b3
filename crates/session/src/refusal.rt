// Why something is turned away.
ghost use Rattle.std.specs.Prelude.{◌≡◌, ◌≤◌};
ghost use Rattle.codec.specs.Values.{told};
ghost use Rattle.session.specs.declared.refusal.Refusal.TheVariants.{OutOfRange};
ghost use Rattle.session.specs.Refusals.{refusal_number, refusal_place, refusal_told};

use codec::Answer;
use model::UnknownWay;

/// The reasons for which opening a desk, or a call, is turned away. Such a call changes nothing.
#[derive(Clone, Copy, Debug, PartialEq, Eq, Hash)]
pub enum Refusal {
    /// The bytes are no call: number `at` is the first that does not fit.
    NotACall { at: usize },
    /// A number or the letters are out of range.
    OutOfRange,
    /// No desk can have these limits.
    LimitsOutOfRange,
    /// The memory that is lent is smaller than the limits ask for.
    TooLittleMemory,
    /// The cells are not there. The field of the call that says where they begin is number `field`.
    NoSuchCells { field: u32 },
    NoSuchChange,
    /// The change is accepted or rejected already.
    NotOpen,
    NothingToUndo,
    NothingToRedo,
    NoSuchRows,
    /// The file has no such numbers.
    NoSuchNumbers,
    /// The paper would have more cells or changes than its limits.
    PastLimits,
}

impl Refusal {
    /// The number by which a caller of the desk knows the reason. The checks run in the order of these numbers.
    /// (A method: some reasons have one number, so that it alone does not stand for the refusal.)
    pub fn number(self) -> u32
        ensures is { result ≡ refusal_number self }
        ensures small { result ≤ 9 }
    {
        match self {
            Refusal::NotACall { .. } => 1,
            Refusal::OutOfRange => 2,
            Refusal::LimitsOutOfRange | Refusal::TooLittleMemory => 3,
            Refusal::NoSuchCells { .. } => 4,
            Refusal::NoSuchChange => 5,
            Refusal::NotOpen => 6,
            Refusal::NothingToUndo | Refusal::NothingToRedo => 7,
            Refusal::NoSuchRows | Refusal::NoSuchNumbers => 8,
            Refusal::PastLimits => 9,
        }
    }

    /// The place that the refusal points to. One that four bytes cannot hold is told as the highest that they can.
    pub fn place(self) -> u32
        ensures { result ≡ refusal_place self }
    {
        match self {
            Refusal::NotACall { at } => u32::try_from(at).unwrap_or(u32::MAX),
            Refusal::LimitsOutOfRange => 1,
            Refusal::NoSuchCells { field } => field,
            Refusal::NoSuchRows => 2,
            Refusal::OutOfRange
            | Refusal::TooLittleMemory
            | Refusal::NoSuchChange
            | Refusal::NotOpen
            | Refusal::NothingToUndo
            | Refusal::NothingToRedo
            | Refusal::NoSuchNumbers
            | Refusal::PastLimits => 0,
        }
    }
}

impl From<UnknownWay> for Refusal {
    ghost from_gives = { λ way refusal. refusal ≡ OutOfRange };

    fn from(_way: UnknownWay) -> Refusal {
        Refusal::OutOfRange
    }
}

impl From<Refusal> for Answer {
    ghost from_gives = { λ refusal answer. told answer ≡ refusal_told refusal };

    fn from(refusal: Refusal) -> Answer {
        Answer::Refused(refusal.number(), refusal.place())
    }
}
