//! What is entered and asked: 16 generators, read three times an hour, and one sitting an hour. Nothing here is random, so
//! that two programs with the same plan have the same answers.

/// The readings of an hour: three of each generator.
pub const PER_SITTING: u32 = 48;

/// The entries of a round that is timed.
pub const ENTRIES: u32 = 256;

/// The questions of a round that is timed.
pub const QUESTIONS: u32 = 4096;

/// The totals over a whole card in a round that is timed.
pub const WHOLE_CARDS: u32 = 64;

const HOUR: u32 = 3600;

/// The seconds from one reading of a generator to the next.
const STEP: u32 = 1200;

/// The steps of a short span, which has 18 readings.
const SHORT: u32 = 18;

/// How many generators there are.
const GENERATORS: u32 = 16;

const NAMES: [&[u8]; 16] = [
    b"SG-01", b"SG-02", b"SG-03", b"SG-04", b"SG-05", b"SG-06", b"SG-07", b"SG-08", b"SG-09",
    b"SG-10", b"SG-11", b"SG-12", b"SG-13", b"SG-14", b"SG-15", b"SG-16",
];

pub fn generator(i: u32) -> &'static [u8] {
    NAMES[(i % GENERATORS) as usize]
}

/// The recorded instant of a sitting.
pub fn recorded(sitting: u32) -> u32 {
    sitting.saturating_add(1).saturating_mul(HOUR)
}

/// The measured instant of an entry of a sitting.
pub fn measured(sitting: u32, entry: u32) -> u32 {
    recorded(sitting).saturating_sub((entry / GENERATORS).saturating_mul(STEP))
}

/// What is read at an instant.
pub fn microhertz(measured: u32) -> i64 {
    i64::from(measured) * 31 % 2000001 - 1000000
}

/// How many sittings fill the log, and how often each kind of work is timed.
#[derive(Clone, Copy)]
pub struct Plan {
    pub sittings: u32,
    pub rounds: u32,
}

impl Plan {
    /// The number of readings of each generator.
    fn steps(&self) -> u32 {
        self.sittings.saturating_mul(3)
    }

    /// The recorded instant of the last sitting.
    pub fn last(&self) -> u32 {
        recorded(self.sittings.saturating_sub(1))
    }

    /// The measured instant of a reading that is there, another one for each of the entries of a round.
    pub fn there(&self, i: u32) -> u32 {
        let step = scattered(i / GENERATORS, self.steps());
        step.saturating_add(1).saturating_mul(STEP)
    }

    /// A measured instant without a reading, another one for each of the entries of a round.
    pub fn between(&self, i: u32) -> u32 {
        self.there(i).saturating_sub(1 + i % STEP)
    }

    /// The recorded instant of a question.
    pub fn known(&self, i: u32) -> u32 {
        recorded(scattered(i, self.sittings))
    }

    /// The ends of the short span of a question.
    pub fn short_span(&self, i: u32) -> (u32, u32) {
        let from = scattered(i, self.steps().saturating_sub(SHORT)).saturating_mul(STEP);
        (from.saturating_add(1), from.saturating_add(SHORT * STEP))
    }
}

/// Numbers below a bound, the next far from the one before.
fn scattered(i: u32, bound: u32) -> u32 {
    i.wrapping_mul(7919).checked_rem(bound).unwrap_or(0)
}
