//! Readings: deviations in whole microhertz.

mod value;

ghost use Rattle.std.specs.Prelude.{◌≡◌};
ghost use Rattle.kinds.specs.Range.{InRange};

/// A deviation in microhertz.
#[derive(Clone, Copy)]
pub struct Reading {
    microhertz: i64,
    ghost within: { InRange microhertz },
}

/// A number outside the range of readings.
#[derive(Clone, Copy, Debug, PartialEq, Eq)]
pub struct OutOfRange;

impl Reading {
    /// How many microhertz. It is no `From`, so that a caller names the unit.
    pub fn microhertz(self) -> i64
        ensures value { result ≡ self.microhertz }
        ensures range { InRange result }
    {
        self.microhertz
    }
}
