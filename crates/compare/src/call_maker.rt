//! Makes calls from a seed: mostly some that fit the lines there are, and some that do not.

use crate::calls::Call;
use crate::random::Random;
use crate::samples;
use naive::{Change, Entry, Handle, State};

/// Most calls are for the first few lines, so that these get sittings of many entries.
const CLOSE_LINES: usize = 4;

const LETTERS: &[u8] = b"AAAABYZa@";

/// What calls are drawn from: random numbers, and a recorded instant near the last ones.
#[derive(Drop)]
pub struct CallMaker {
    random: Random,
    clock: u32,
    /// One call in so many opens a line.
    opening: usize,
    /// How many names are used.
    names: usize,
}

impl CallMaker {
    pub fn new(random: Random) -> CallMaker {
        let mut random = random;
        let opening = random.pick(&[3, 40, 150, 150], 40);
        let names = random.pick(&[1, 3, 10, 40], 10);
        CallMaker {
            random,
            clock: 5,
            opening,
            names,
        }
    }

    /// A call that mostly fits the state of a live line.
    pub fn next_call(&mut self, naive: &naive::Register<'static>) -> Call {
        if self.random.one_in(15) {
            return self.stray_call(naive);
        }
        if self.random.one_in(self.opening) {
            return Call::Open;
        }
        let position = self.random.below(naive.count_lines().min(CLOSE_LINES));
        match naive.line_at(position) {
            None => Call::Open,
            Some((handle, State::Resting)) => self.call_at_rest(handle),
            Some((_, State::Stowed(shelf))) => Call::Fetch(shelf),
            Some((handle, State::Sitting(recorded))) => self.call_in_sitting(handle, recorded),
        }
    }

    /// A call that need not fit the state of the line, nor any line.
    fn stray_call(&mut self, naive: &naive::Register<'static>) -> Call {
        let position = self.random.below(naive.count_lines());
        let made_up = Handle {
            place: self.random.instant_below(66),
            serial: self.random.instant_below(20),
        };
        let handle = match naive.line_at(position) {
            Some((handle, _)) if self.random.one_in(2) => handle,
            _ => made_up,
        };
        match self.random.below(5) {
            0 => Call::Fetch(self.random.pick(LETTERS, b'A')),
            1 | 2 => self.call_at_rest(handle),
            _ => self.call_in_sitting(handle, 5),
        }
    }

    fn call_at_rest(&mut self, handle: Handle) -> Call {
        match self.random.below(20) {
            0 => Call::Branch(handle),
            1 => Call::Stow(handle, self.random.pick(LETTERS, b'A')),
            2 if self.random.one_in(2) => Call::Retire(handle),
            3..9 => {
                self.clock = self.clock.saturating_add(self.random.instant_below(4));
                Call::Begin(handle, self.clock)
            }
            _ => self.question(handle),
        }
    }

    fn question(&mut self, handle: Handle) -> Call {
        let recorded = samples::recorded(&mut self.random, self.clock);
        let name = samples::name(&mut self.random, self.names);
        match self.random.below(4) {
            0 => {
                let measured = samples::measured(&mut self.random, self.clock);
                Call::AsOf(handle, recorded, name, measured)
            }
            1 => {
                let (from, to) = samples::span(&mut self.random, self.clock);
                Call::Total(handle, recorded, name, from, to)
            }
            2 => Call::NextName(handle, recorded, None),
            _ => Call::NextName(handle, recorded, Some(name)),
        }
    }

    fn call_in_sitting(&mut self, handle: Handle, recorded: u32) -> Call {
        match self.random.below(12) {
            0 | 1 => Call::Commit(handle),
            2 if self.random.one_in(2) => Call::Abandon(handle),
            _ => Call::Enter(handle, self.entry(recorded)),
        }
    }

    fn entry(&mut self, recorded: u32) -> Entry<'static> {
        let name = samples::name(&mut self.random, self.names);
        let measured = samples::measured(&mut self.random, self.clock);
        let microhertz = samples::reading(&mut self.random);
        let change = match self.random.below(7) {
            0 | 1 => Change::Withdraw,
            2 => Change::Correct(microhertz),
            _ => Change::Record(microhertz),
        };
        let is_late = self.random.one_in(10);
        Entry {
            name,
            measured: if is_late {
                measured
            } else {
                measured.min(recorded)
            },
            change,
        }
    }
}
