//! Why a call is refused, in the order in which the conditions are tried.

ghost use Rattle.std.specs.Prelude.{◌≡◌, is_err};

use std::alloc::{AllocError, AllocFailed};

#[derive(Clone, Copy, Debug, PartialEq, Eq)]
pub enum Refusal {
    NoSuchLine = 1,
    LinesExhausted = 2,
    SerialsExhausted = 3,
    NotLater = 4,
    NameBroken = 5,
    ReadingOutOfRange = 6,
    MeasuredLater = 7,
    ReadingThere = 9,
    NoReading = 10,
    NodesShort = 11,
    NotAShelf = 12,
    ShelfTaken = 13,
    ShelfEmpty = 14,
    EndsCrossed = 15,
    ScriptTooLong = 17,
    Unreadable = 18,
    OutOfPlace = 19,
    ReportFull = 20,
}

impl Refusal {
    pub fn number(self) -> u8 {
        self as u8
    }

    /// This refusal where its condition holds.
    pub fn given_if(self, condition: bool) -> Result<(), Refusal>
        ensures { is_err result ≡ condition }
    {
        if condition { Err(self) } else { Ok(()) }
    }
}

/// Why there is no answer: the call was refused, or there is no memory for the lists.
#[derive(Clone, Copy, Debug, PartialEq, Eq)]
pub enum Failure {
    Refused(Refusal),
    OutOfMemory,
}

impl From<Refusal> for Failure {
    fn from(why: Refusal) -> Failure {
        Failure::Refused(why)
    }
}

impl From<AllocError> for Failure {
    fn from(_: AllocError) -> Failure {
        Failure::OutOfMemory
    }
}

impl<T: Drop> From<AllocFailed<T>> for Failure {
    fn from(_failed: AllocFailed<T>) -> Failure {
        Failure::OutOfMemory
    }
}
