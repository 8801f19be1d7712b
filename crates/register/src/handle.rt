//! Handles: a line at rest and a sitting are two types of plain numbers, a place and a serial.
//! Each is moved, never copied, and only a spent one may be let go. No caller makes one or takes one apart: whoever works
//! with any numbers makes the calls as plain values.

ghost use Rattle.std.specs.Prelude.{◌≡◌};

use crate::refusal::Refusal;
use std::marker::PhantomData;

/// The serial of a spent handle: no line ever has it. A handle is two plain numbers, so only one of them can mark it as spent.
pub const SPENT: u32 = u32::MAX;

/// The numbers of a handle: a place of the table and a serial. They may be copied, and may be those of no line.
#[derive(Clone, Copy)]
pub struct Parts {
    pub place: u32,
    pub serial: u32,
}

/// The handle of a line that is in the state `S`.
pub struct Handle<S> {
    place: u32,
    serial: u32,
    state: PhantomData<S>,
}

/// The state of a line that is at rest.
pub enum Resting {}

/// The state of a line in a sitting.
pub enum InSitting {}

/// A line at rest.
pub type Line = Handle<Resting>;

/// A line in a sitting.
pub type Sitting = Handle<InSitting>;

impl<S> Drop for Handle<S> {
    fn drop(self)
        requires { self.serial ≡ 4294967295 }
    {
        let Handle {
            place: _,
            serial: _,
            state: _,
        } = self;
    }
}

impl<S> Handle<S> {
    /// The handle of these two numbers, whether or not a line has it. A `From` of a pair would not say which is which.
    pub(crate) fn from_parts(place: u32, serial: u32) -> Handle<S>
        ensures place { result.place ≡ place }
        ensures serial { result.serial ≡ serial }
    {
        Handle {
            place,
            serial,
            state: PhantomData,
        }
    }

    /// The handle's numbers; the handle is no more.
    pub(crate) fn into_parts(self) -> (u32, u32)
        ensures place { result.0 ≡ self.place }
        ensures serial { result.1 ≡ self.serial }
    {
        let Handle {
            place,
            serial,
            state: _,
        } = self;
        (place, serial)
    }

    /// The place of the handle; the handle is no more.
    pub(crate) fn spend(self) -> u32
        ensures { result ≡ self.place }
    {
        let (place, _) = self.into_parts();
        place
    }

    pub fn place(&self) -> u32
        ensures { result ≡ self.now.place }
    {
        self.place
    }

    pub fn serial(&self) -> u32
        ensures { result ≡ self.now.serial }
    {
        self.serial
    }
}

/// A declined call gives the handle back, and says why.
pub struct Refused<H> {
    pub handle: H,
    pub why: Refusal,
}
