//! A generator of numbers from a seed: the same seed always gives the same numbers.

ghost use Rattle.std.specs.Prelude.{◌<◌};

const FACTOR: u64 = 6364136223846793005;

const STEP: u64 = 1442695040888963407;

/// How many of the high bits are given; the low ones repeat too soon.
const GIVEN_BITS: u32 = 32;

#[derive(Clone, Copy)]
pub struct Random {
    state: u64,
}

impl Random {
    pub fn from_seed(seed: u64) -> Random {
        let mut random = Random { state: seed };
        random.step();
        // Seeds that follow each other give states that are far from each other.
        random.state ^= random.state >> GIVEN_BITS;
        random.step();
        random
    }

    fn step(&mut self) {
        self.state = self.state.wrapping_mul(FACTOR).wrapping_add(STEP);
    }

    /// A number below `end`, or 0 where there is none.
    pub fn below(&mut self, end: usize) -> usize
        ensures { 0 < end → result < end }
    {
        self.step();
        let drawn = (self.state >> GIVEN_BITS) as usize;
        drawn.checked_rem(end).unwrap_or(0)
    }

    pub fn instant_below(&mut self, end: u32) -> u32 {
        u32::try_from(self.below(end as usize)).unwrap_or(0)
    }

    /// Whether a draw of one in `count` was hit.
    pub fn one_in(&mut self, count: usize) -> bool {
        self.below(count) == 0
    }

    /// One of the items, or the other where there are none.
    pub fn pick<T: Copy>(&mut self, items: &[T], other: T) -> T {
        let index = self.below(items.len());
        items.get(index).copied().unwrap_or(other)
    }
}
