//! Instants as the bench reads them.
//! The register counts seconds and knows no calendar; here instant 0 is the midnight that begins day 0, the last day of
//! the month before.

use std::fmt;

pub const MINUTE: u32 = 60;

pub const HOUR: u32 = 3600;

pub const DAY: u32 = 86400;

/// An instant, printed as a day of the month and a time of day.
#[derive(Clone, Copy)]
pub struct Moment(pub u32);

impl fmt::Display for Moment {
    fn fmt<W: fmt::Write>(&self, f: &mut fmt::Formatter<W>) -> fmt::Result {
        let day = self.0 / DAY;
        let hour = self.0 % DAY / HOUR;
        let minute = self.0 % HOUR / MINUTE;
        write!(f, "day {day:>2} {hour:02}:{minute:02}")
    }
}

/// The instants from one to another, both included.
#[derive(Clone, Copy)]
pub struct Span {
    pub from: u32,
    pub to: u32,
}
