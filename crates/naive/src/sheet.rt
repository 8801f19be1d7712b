//! A sheet: the readings that are left after entries were applied in turn.

use crate::order::Order;
use std::alloc::{AllocError, Global};
use std::cmp::Ordering;

#[derive(Clone, Copy, Debug)]
pub enum Change {
    Record(i64),
    Correct(i64),
    Withdraw,
}

impl Change {
    /// The reading that it puts on the sheet.
    pub fn microhertz(self) -> Option<i64> {
        match self {
            Change::Record(microhertz) => Some(microhertz),
            Change::Correct(microhertz) => Some(microhertz),
            Change::Withdraw => None,
        }
    }
}

#[derive(Clone, Copy, Debug)]
pub struct Entry<'n> {
    pub name: &'n [u8],
    pub measured: u32,
    pub change: Change,
}

#[derive(Clone, Copy)]
struct Reading<'n> {
    name: &'n [u8],
    measured: u32,
    microhertz: i64,
}

/// How many readings there are, and their sum.
#[derive(Clone, Copy, Debug, PartialEq, Eq)]
pub struct Total {
    pub count: u64,
    pub sum: i64,
}

/// Readings in no order; no two have one name and one measured instant.
#[derive(Drop)]
pub struct Sheet<'n> {
    readings: Vec<Reading<'n>>,
}

impl<'n> Sheet<'n> {
    pub fn empty(alloc: Global) -> Sheet<'n> {
        Sheet {
            readings: Vec::new(alloc),
        }
    }

    /// Drops what the name has at that instant, and puts the entry's reading there, if it has one.
    pub fn apply(&mut self, entry: Entry<'n>) -> Result<(), AllocError> {
        self.readings.retain(|reading| !(reading.name == entry.name
            && reading.measured == entry.measured));
        if let Some(microhertz) = entry.change.microhertz() {
            self.readings.push(Reading {
                name: entry.name,
                measured: entry.measured,
                microhertz,
            })?;
        }
        Ok(())
    }

    pub fn has(&self, name: &[u8], measured: u32) -> bool {
        self.total(name, measured, measured).count > 0
    }

    /// The latest measured instant of the name that is not after `until`, with its reading.
    pub fn latest(&self, name: &[u8], until: u32) -> Option<(u32, i64)> {
        let mut latest: Option<(u32, i64)> = None;
        for reading in self.readings.iter() {
            let is_later = latest.is_none_or(|(measured, _)| measured < reading.measured);
            if reading.name == name && reading.measured <= until && is_later {
                latest = Some((reading.measured, reading.microhertz));
            }
        }
        latest
    }

    /// The readings of the name from `from` to `to`, both included.
    pub fn total(&self, name: &[u8], from: u32, to: u32) -> Total {
        let mut total = Total { count: 0, sum: 0 };
        for reading in self.readings.iter() {
            if reading.name == name && from <= reading.measured && reading.measured <= to {
                total.count = total.count.saturating_add(1);
                total.sum = total.sum.saturating_add(reading.microhertz);
            }
        }
        total
    }

    /// The first name of the sheet, or the first after a given one.
    pub fn first_name(&self, order: Order, after: Option<&[u8]>) -> Option<&'n [u8]> {
        let mut first: Option<&'n [u8]> = None;
        for reading in self.readings.iter() {
            let name = reading.name;
            let follows = after.is_none_or(|given| order.compare(given, name) == Ordering::Less);
            let precedes = first.is_none_or(|found| order.compare(name, found) == Ordering::Less);
            if follows && precedes {
                first = Some(name);
            }
        }
        first
    }

    /// How many names have a reading.
    pub fn names(&self) -> u32 {
        let mut names = 0u32;
        let mut last = None;
        for _ in 0..self.readings.len() {
            last = self.first_name(Order::Forward, last);
            if last.is_none() {
                break;
            }
            names = names.saturating_add(1);
        }
        names
    }
}
