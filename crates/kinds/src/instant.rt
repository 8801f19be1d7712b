//! Instants: whole numbers of seconds.

mod key;

ghost use Rattle.std.specs.Prelude.{◌≡◌, ◌<◌};

/// A whole number of seconds.
#[derive(Clone, Copy, PartialEq, Eq, PartialOrd)]
pub struct Instant {
    seconds: u32,
    ghost fits: { seconds < 4294967296 },
}

impl From<u32> for Instant {
    ghost from_gives = { λ seconds instant. instant.seconds ≡ seconds };

    fn from(seconds: u32) -> Instant {
        Instant { seconds }
    }
}

impl Instant {
    /// How many seconds. It is no `From`, so that a caller names the unit.
    pub fn seconds(self) -> u32
        ensures { result ≡ self.seconds }
    {
        self.seconds
    }
}
