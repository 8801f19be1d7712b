//! Taking times.

use std::io;
use std::rt::Clock;
use std::time::Instant;

/// The least time that a number of calls took in any round.
#[derive(Clone, Copy)]
pub struct Work {
    pub title: &'static str,
    pub calls: u32,
    pub nanoseconds: u64,
}

impl Work {
    pub fn new(title: &'static str, calls: u32) -> Work {
        Work {
            title,
            calls,
            nanoseconds: u64::MAX,
        }
    }

    /// Takes the time from `start` as that of a round.
    pub fn take_round(&mut self, rt: &impl Clock, start: Instant) -> io::Result<()> {
        let spent = start.elapsed(rt)?;
        let nanoseconds = spent
            .as_secs()
            .saturating_mul(1000000000)
            .saturating_add(u64::from(spent.subsec_nanos()));
        self.nanoseconds = self.nanoseconds.min(nanoseconds);
        Ok(())
    }
}
