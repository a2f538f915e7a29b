//! Why there are no calls.
ghost use Rattle.std.specs.Prelude.{◌≡◌, ◌++◌, Some, codes, decimal};
ghost use Rattle.protocols.specs.declared.error.ProtocolError.TheVariants.{NoMemory};
ghost use Rattle.protocols.specs.Words.{error_text};

use std::alloc::{AllocError, AllocFailed};
use std::error::Error;
use std::fmt;

#[derive(Clone, Copy, Debug, PartialEq, Eq)]
pub enum ProtocolError {
    // the number of the first unreadable line, from 1
    Unreadable(u64),
    NoMemory,
}

impl fmt::Display for ProtocolError {
    ghost output = { λ e. Some (error_text e) };

    fn fmt<W: fmt::Write>(&self, f: &mut fmt::Formatter<W>) -> fmt::Result {
        match self {
            ProtocolError::Unreadable(line) => write!(f, "unreadable line {line}"),
            ProtocolError::NoMemory => write!(f, "out of memory"),
        }
    }
}

impl Error for ProtocolError {}

impl From<AllocError> for ProtocolError {
    ghost from_gives = { λ _ e. e ≡ NoMemory };

    fn from(_none: AllocError) -> ProtocolError {
        Self::NoMemory
    }
}

impl<T: Drop> From<AllocFailed<T>> for ProtocolError {
    ghost from_gives = { λ _ e. e ≡ NoMemory };

    fn from(_none: AllocFailed<T>) -> ProtocolError {
        Self::from(AllocError)
    }
}
