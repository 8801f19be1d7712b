//! Runs a script on the proved register and on the one of plain lists, and compares the reports.

use crate::counts::Counts;
use crate::memory::{MOST_NODES, MOST_ROOM, Memory};
use crate::random::Random;
use crate::script_maker::{Manner, ScriptMaker};
use naive::{Lent, Ran};
use std::alloc::{AllocError, Global};

const SIZES: [u32; 14] = [
    0, 1, 8, 255, 256, 257, 260, 270, 290, 320, 400, 700, 1024, 1024,
];

const LINE_FEED: u8 = 10;

const LATE_SERIALS: [u32; 5] = [4294967280, 4294967290, 4294967293, 4294967294, 4294967295];

/// A script, what its runs were lent, and how they differed.
#[derive(Drop)]
pub struct Difference {
    pub script: Vec<u8>,
    pub lent: Lent,
    pub report: Vec<u8>,
    pub stopped: u8,
    pub naive: Ran,
}

impl Difference {
    /// The number of the refusal that ended the run over plain lists, or 0.
    pub fn naive_stopped(&self) -> u8 {
        self.naive.stopped.map_or(0, |why| why.number())
    }

    /// The first lines of the two reports that are not the same.
    pub fn lines(&self) -> (&[u8], &[u8]) {
        let naive = self.naive.report.as_bytes();
        let mut naive_lines = naive.split(|byte| *byte == LINE_FEED);
        for line in self.report.split(|byte| *byte == LINE_FEED) {
            let naive_line = naive_lines.next().unwrap_or(b"");
            if line != naive_line {
                return (line, naive_line);
            }
        }
        (b"", naive_lines.next().unwrap_or(b""))
    }

    fn is_none(&self) -> bool {
        self.naive.report.as_bytes() == self.report.as_slice()
            && self.naive_stopped() == self.stopped
    }
}

/// The manner of a script: mostly short ones, and some that are long enough to fill a pool.
fn manner(random: &mut Random) -> Manner {
    let lines = if random.one_in(12) { 500 } else { 60 };
    Manner {
        lines: random.below(lines),
        shelves: random.pick(&[1, 2, 4, 4, 26], 4),
        names: random.pick(&[1, 3, 10, 40], 10),
        spoilt: random.pick(&[4, 15, 40], 15),
    }
}

fn lent(random: &mut Random) -> Lent {
    let late = random.pick(&LATE_SERIALS, 1);
    let size = random.pick(&SIZES, 1024);
    let short_room = random.below(900);
    Lent {
        nodes: if random.one_in(100) { MOST_NODES } else { size },
        first_serial: if random.one_in(10) { late } else { 1 },
        room: if random.one_in(6) {
            short_room
        } else {
            MOST_ROOM
        },
    }
}

/// Compares both runs of the script of this seed, and counts its lines.
pub fn compare_script(
    alloc: Global,
    seed: u64,
    memory: &mut Memory,
    counts: &mut Counts,
) -> Result<Option<Difference>, AllocError> {
    let mut random = Random::from_seed(seed);
    let manner = manner(&mut random);
    let lent = lent(&mut random);
    let script = ScriptMaker::script(alloc, random, manner)?;
    let (report, stopped) = memory.run(script.as_slice(), lent);
    let naive = naive::run(alloc, script.as_slice(), lent, report)?;
    counts.script(script.as_slice(), report, stopped);
    let report = Vec::from_slice(alloc, report)?;
    let difference = Difference {
        script,
        lent,
        report,
        stopped,
        naive,
    };
    Ok(Some(difference).filter(|difference| !difference.is_none()))
}
