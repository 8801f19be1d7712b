//! The log of the month: what was entered at each sitting, and when.

use crate::moment::{DAY, HOUR, MINUTE};

/// The seconds from one reading of a sweep to the next.
pub const STEP: u32 = 30 * MINUTE;

/// What one sitting enters.
pub struct Page {
    pub title: &'static str,
    pub recorded: u32,
    pub entries: &'static [Entry],
}

pub enum Entry {
    /// Readings of one generator, half an hour apart.
    Sweep {
        generator: &'static str,
        from: u32,
        readings: &'static [i64],
    },
    /// Another reading for one that was copied down wrongly.
    Correction {
        generator: &'static str,
        measured: u32,
        reading: i64,
    },
    /// A reading that is not to count.
    Withdrawal {
        generator: &'static str,
        measured: u32,
    },
}

pub static FIRST_WEEK: Page = Page {
    title: "the sweeps of the first week",
    recorded: 7 * DAY + 18 * HOUR,
    entries: &[
        Entry::Sweep {
            generator: "SG-3",
            from: 2 * DAY + 9 * HOUR,
            readings: &[120, 118, 121, 119],
        },
        Entry::Sweep {
            generator: "SG-7",
            from: 2 * DAY + 14 * HOUR,
            readings: &[250, 2480, 251, 249],
        },
        Entry::Sweep {
            generator: "SG-12",
            from: 3 * DAY + 9 * HOUR,
            readings: &[-95, -31, -30, -33],
        },
    ],
};

pub static SECOND_WEEK: Page = Page {
    title: "the sweeps of the second week, and what was wrong in the first",
    recorded: 14 * DAY + 18 * HOUR,
    entries: &[
        Entry::Correction {
            generator: "SG-7",
            measured: 2 * DAY + 14 * HOUR + 30 * MINUTE,
            reading: 248,
        },
        Entry::Withdrawal {
            generator: "SG-12",
            measured: 3 * DAY + 9 * HOUR,
        },
        Entry::Sweep {
            generator: "SG-3",
            from: 9 * DAY + 9 * HOUR,
            readings: &[124, 123, 125],
        },
        Entry::Sweep {
            generator: "SG-7",
            from: 9 * DAY + 14 * HOUR,
            readings: &[262, 260, 261],
        },
    ],
};

/// Its second sweep has the time of the first, so that the register refuses it.
pub static SPOILT: Page = Page {
    title: "the sweeps of the third week, one at a wrong time",
    recorded: 21 * DAY + 18 * HOUR,
    entries: &[
        Entry::Sweep {
            generator: "SG-7",
            from: 16 * DAY + 9 * HOUR,
            readings: &[270, 271],
        },
        Entry::Sweep {
            generator: "SG-7",
            from: 16 * DAY + 9 * HOUR,
            readings: &[274, 273],
        },
    ],
};

pub static THIRD_WEEK: Page = Page {
    title: "the sweeps of the third week, and a new generator",
    recorded: 21 * DAY + 18 * HOUR,
    entries: &[
        Entry::Sweep {
            generator: "SG-7",
            from: 16 * DAY + 9 * HOUR,
            readings: &[270, 271],
        },
        Entry::Sweep {
            generator: "SG-7",
            from: 16 * DAY + 14 * HOUR,
            readings: &[274, 273],
        },
        Entry::Sweep {
            generator: "FG-1",
            from: 17 * DAY + 9 * HOUR,
            readings: &[-1200450, -1200447, -1200452],
        },
    ],
};

pub static FOURTH_WEEK: Page = Page {
    title: "the sweeps of the fourth week",
    recorded: 28 * DAY + 18 * HOUR,
    entries: &[
        Entry::Sweep {
            generator: "SG-3",
            from: 23 * DAY + 9 * HOUR,
            readings: &[127, 128, 126, 129],
        },
        Entry::Sweep {
            generator: "SG-12",
            from: 24 * DAY + 9 * HOUR,
            readings: &[-22, -23, -21],
        },
        Entry::Sweep {
            generator: "FG-1",
            from: 24 * DAY + 14 * HOUR,
            readings: &[-1200311, -1200309],
        },
    ],
};
