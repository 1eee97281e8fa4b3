// The twelve kinds of calls: a call's first byte says which it is, and so how long the call is and what its fields mean.
ghost use Rattle.std.specs.Prelude.{◌≡◌, ℕ, ◌+◌, ◌*◌, ◌≤◌, List, length, slice_index};
ghost use Rattle.codec.specs.Kinds.{NumbersKind, kind_number};
ghost use Rattle.codec.specs.Reading.{field, head_length, letter_count, call_of};
ghost use Rattle.codec.specs.Values.{meaning};

use crate::Call;

/// The kinds in the order of their first bytes, from 0 on.
#[derive(Clone, Copy, Debug, PartialEq, Eq, Hash)]
pub enum Kind {
    Put,
    Strike,
    Accept,
    Reject,
    Style,
    Undo,
    Redo,
    Show,
    Find,
    Count,
    Change,
    Save,
}

/// A byte with which no call begins.
#[derive(Clone, Copy, Debug, PartialEq, Eq, Hash)]
pub struct UnknownKind(pub u8);

// The first bytes are numbers here, and in `text`, which reads lines as them.
impl TryFrom<u8> for Kind {
    type Error = UnknownKind;

    ghost try_from_gives = { NumbersKind };

    fn try_from(first: u8) -> Result<Self, UnknownKind> {
        match first {
            0 => Ok(Kind::Put),
            1 => Ok(Kind::Strike),
            2 => Ok(Kind::Accept),
            3 => Ok(Kind::Reject),
            4 => Ok(Kind::Style),
            5 => Ok(Kind::Undo),
            6 => Ok(Kind::Redo),
            7 => Ok(Kind::Show),
            8 => Ok(Kind::Find),
            9 => Ok(Kind::Count),
            10 => Ok(Kind::Change),
            11 => Ok(Kind::Save),
            _ => Err(UnknownKind(first)),
        }
    }
}

// Field number `k` of a call: four bytes, low byte first. (`word` of `text` reads an answer's number so: two functions, as their contracts name
// different things, and this one is the call's own.)
fn field(bytes: &[u8], k: usize) -> u32
    requires { 5 + 4 * k ≤ length bytes.now }
    ensures { result ≡ field bytes.now k }
{
    let at = 1 + 4 * k;
    u32::from_le_bytes([bytes[at], bytes[at + 1], bytes[at + 2], bytes[at + 3]])
}

impl Kind {
    /// How many bytes a call has before its letters.
    pub fn head_length(self) -> usize
        ensures { result ≡ head_length (kind_number self) }
    {
        match self {
            Kind::Put | Kind::Show => 17,
            Kind::Strike | Kind::Style | Kind::Find => 13,
            Kind::Save => 9,
            Kind::Accept | Kind::Reject | Kind::Count | Kind::Change => 5,
            Kind::Undo | Kind::Redo => 1,
        }
    }

    /// How many letters a call should have.
    pub fn letter_count(self, bytes: &[u8]) -> u32
        requires { (slice_index bytes.now 0 ≡ kind_number self) × (head_length (kind_number self) ≤ length bytes.now) }
        ensures { result ≡ letter_count bytes.now }
    {
        match self {
            Kind::Put => field(bytes, 3),
            Kind::Find => field(bytes, 2),
            Kind::Strike
            | Kind::Accept
            | Kind::Reject
            | Kind::Style
            | Kind::Undo
            | Kind::Redo
            | Kind::Show
            | Kind::Count
            | Kind::Change
            | Kind::Save => 0,
        }
    }

    /// The numbers of the call that begins with these bytes.
    pub fn call(self, bytes: &[u8]) -> Call
        requires { (slice_index bytes.now 0 ≡ kind_number self) × (head_length (kind_number self) ≤ length bytes.now) }
        ensures { (ls : List ℕ) → meaning result ls ≡ call_of bytes.now ls }
    {
        match self {
            Kind::Put => Call::Put {
                author: field(bytes, 0),
                place: field(bytes, 1),
                style: field(bytes, 2),
            },
            Kind::Strike => Call::Strike {
                author: field(bytes, 0),
                place: field(bytes, 1),
                count: field(bytes, 2),
            },
            Kind::Accept => Call::Accept {
                change: field(bytes, 0),
            },
            Kind::Reject => Call::Reject {
                change: field(bytes, 0),
            },
            Kind::Style => Call::Style {
                place: field(bytes, 0),
                count: field(bytes, 1),
                style: field(bytes, 2),
            },
            Kind::Undo => Call::Undo,
            Kind::Redo => Call::Redo,
            Kind::Show => Call::Show {
                way: field(bytes, 0),
                width: field(bytes, 1),
                row: field(bytes, 2),
                count: field(bytes, 3),
            },
            Kind::Find => Call::Find {
                way: field(bytes, 0),
                from: field(bytes, 1),
            },
            Kind::Count => Call::Count {
                way: field(bytes, 0),
            },
            Kind::Change => Call::Change {
                change: field(bytes, 0),
            },
            Kind::Save => Call::Save {
                from: field(bytes, 0),
                count: field(bytes, 1),
            },
        }
    }
}
