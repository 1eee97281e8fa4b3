// Why a line, or a part of one, is not read or not written.
ghost use Rattle.std.specs.Prelude.{◌≡◌};
ghost use Rattle.text.specs.declared.fault.Fault.TheVariants.{Memory};
ghost use Rattle.text.specs.declared.fault.Stop.TheVariants.{At, NoMemory};

use std::alloc::{AllocError, AllocFailed};
use thiserror::Error;

#[derive(Clone, Copy, Debug, PartialEq, Eq, Hash, Error)]
pub enum Fault {
    // The place of the first byte that does not fit.
    #[error("byte {0} does not fit")]
    Place(usize),
    // There is no memory, or there are more letters than a call can have.
    #[error("out of memory")]
    Memory,
}

impl From<AllocError> for Fault {
    ghost from_gives = { λ _ r. r ≡ Memory };

    fn from(_e: AllocError) -> Fault {
        Fault::Memory
    }
}

impl<T: Drop> From<AllocFailed<T>> for Fault {
    ghost from_gives = { λ _ r. r ≡ Memory };

    fn from(_e: AllocFailed<T>) -> Fault {
        Fault::Memory
    }
}

// Why a part is not read or not written.
#[derive(Clone, Copy, Debug, PartialEq, Eq, Hash)]
pub(crate) enum Stop<'a> {
    // It does not fit, from its first byte here on.
    At(&'a [u8]),
    NoMemory,
}

impl<'a> From<&'a [u8]> for Stop<'a> {
    ghost from_gives = { λ rest r. r ≡ At rest };

    fn from(rest: &'a [u8]) -> Stop<'a> {
        Stop::At(rest)
    }
}

impl<'a> From<AllocError> for Stop<'a> {
    ghost from_gives = { λ _ r. r ≡ NoMemory };

    fn from(_e: AllocError) -> Stop<'a> {
        Stop::NoMemory
    }
}

impl<'a> From<AllocFailed<u8>> for Stop<'a> {
    ghost from_gives = { λ _ r. r ≡ NoMemory };

    fn from(_e: AllocFailed<u8>) -> Stop<'a> {
        Stop::NoMemory
    }
}
