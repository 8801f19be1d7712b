//! Readings as values that own nothing.

ghost use Rattle.std.specs.Prelude.{◌≡◌};
ghost use Rattle.kinds.specs.Reading.{Checked, reading_of};
ghost use Rattle.kinds.specs.Readings.{reading_of-microhertz};

use crate::reading::{OutOfRange, Reading};
use tree::Value;

impl Reading {
    const LEAST: i64 = -1000000000000;

    const GREATEST: i64 = 1000000000000;
}

impl TryFrom<i64> for Reading {
    type Error = OutOfRange;

    ghost try_from_gives = { Checked };

    fn try_from(microhertz: i64) -> Result<Reading, OutOfRange> {
        if (Self::LEAST..=Self::GREATEST).contains(&microhertz) {
            Ok(Reading { microhertz })
        } else {
            Err(OutOfRange)
        }
    }
}

/// A reading owns nothing: its word is its value, and it has no link.
impl Value for Reading {
    ghost word = { λ reading. reading.microhertz };

    ghost nested = { λ _. 0 };

    ghost value = { λ word _. reading_of word };

    ghost back = { reading_of-microhertz };

    fn to_word(self) -> i64 {
        self.microhertz
    }

    fn to_link(self) -> u16 {
        0
    }

    /// A reading's word is in range. Any other word gives the nearest reading.
    fn from_parts(stored: i64, _link: u16) -> Reading {
        Reading {
            microhertz: stored.clamp(Self::LEAST, Self::GREATEST),
        }
    }
}
