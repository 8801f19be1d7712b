//! What can be known of the free nodes of a pool without knowing what its trees share.

/// Entries and commits want as many free nodes.
const WANTED: u32 = 256;

/// No tree of a register is higher.
const HIGHEST: u32 = 24;

/// The fewest and the most nodes that may be free.
#[derive(Clone, Copy)]
pub struct FreeNodes {
    size: u32,
    fewest: u32,
    most: u32,
}

impl FreeNodes {
    /// All nodes of a pool of this size are free.
    pub fn all(size: u32) -> FreeNodes {
        FreeNodes {
            size,
            fewest: size,
            most: size,
        }
    }

    pub fn size(self) -> u32 {
        self.size
    }

    /// The number in use that makes a tally the longest text.
    pub fn longest_in_use(self) -> u32 {
        let mut longest = 0u32;
        for in_use in 0..self.size {
            if self.length_of_tally(in_use) > self.length_of_tally(longest) {
                longest = in_use;
            }
        }
        longest
    }

    /// How many digits a tally has beyond two, with so many nodes in use.
    fn length_of_tally(self, in_use: u32) -> u32 {
        let free = self.size.saturating_sub(in_use);
        more_digits(in_use).saturating_add(more_digits(free))
    }

    /// Just as many are free.
    pub fn are(self, free: u32) -> FreeNodes {
        FreeNodes {
            fewest: free,
            most: free,
            ..self
        }
    }

    /// At most so many were taken, and any number may have come free.
    pub fn after_taking(self, most: u32) -> FreeNodes {
        FreeNodes {
            size: self.size,
            fewest: self.fewest.saturating_sub(most),
            most: self.size,
        }
    }

    /// Whether too few are free for an entry or a commit; where both may be, as it is said.
    pub fn is_short(self, said: bool) -> bool {
        self.most < WANTED || (self.fewest < WANTED && said)
    }
}

/// How many digits a number has beyond one.
fn more_digits(number: u32) -> u32 {
    number.checked_ilog10().unwrap_or(0)
}

/// The most nodes that an entry adds, on a sheet of so many names and a card of so many readings.
pub fn added_by_entry(names: u32, readings: u64) -> u32 {
    let sheet = height(u64::from(names)).saturating_mul(3);
    let card = height(readings).saturating_mul(3);
    sheet.saturating_add(card).saturating_add(2)
}

/// The most nodes that a commit adds to a line of so many stages.
pub fn added_by_commit(stages: u32) -> u32 {
    height(u64::from(stages)).saturating_add(1)
}

/// The greatest height of a balanced tree of so many nodes.
fn height(nodes: u64) -> u32 {
    let mut height = 0u32;
    let mut lower = 0u64;
    let mut fewest = 1u64;
    for _ in 0..HIGHEST {
        if nodes < fewest {
            break;
        }
        height = height.saturating_add(1);
        let higher = fewest.saturating_add(lower).saturating_add(1);
        lower = fewest;
        fewest = higher;
    }
    height
}
