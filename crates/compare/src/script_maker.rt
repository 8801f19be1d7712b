//! Makes scripts from a seed: sittings and questions in all orders, and lines that cannot be read.

use crate::random::Random;
use crate::samples;
use std::alloc::{AllocError, Global};

const LINE_FEED: u8 = 10;

const TAB: u8 = 9;

/// The longest script that is run.
const LONGEST: usize = 32768;

/// Letters outside a sitting, the more often the likelier, and inside.
const OUTSIDE: &[u8] = b"NSSSSSSSQQQQQTTTTTUUBBD";

const INSIDE: &[u8] = b"RRRRRRRRCCCWWEEEX";

const ANYWHERE: &[u8] = b"NDUBSQTRCWEX";

const SHELVES: &[u8] = b"ABCDEFGHIJKLMNOPQRSTUVWXYZ";

const STRANGE_LETTERS: &[u8] = b"AnquZ0 -\x00\xff\rM";

const STRANGE_SHELVES: &[u8] = b"a@[0 -\r\x00\xff";

const NOISE: &[u8] = b"\t\t\t\tNDUBSQTRCWEXAB019- \r\x00\xff";

const LONGEST_NOISE: usize = 12;

/// Fields that some place of a line cannot have.
const STRANGE_FIELDS: [&[u8]; 24] = [
    b"",
    b"0",
    b"00",
    b"01",
    b"-0",
    b"-01",
    b"-",
    b"--1",
    b"+1",
    b"-1",
    b"1-",
    b" 1",
    b"1 ",
    b"1\r",
    b"1.5",
    b"0x1",
    b"4294967295",
    b"4294967296",
    b"999999999999999999",
    b"1000000000000000000",
    b"-1000000000000000000",
    b"AB",
    b"\xff",
    b"U",
];

/// How a script is to be.
#[derive(Clone, Copy)]
pub struct Manner {
    pub lines: usize,
    /// How many letters of shelves are used.
    pub shelves: usize,
    /// How many names are used.
    pub names: usize,
    /// One line in so many is spoilt.
    pub spoilt: usize,
}

#[derive(Drop)]
pub struct ScriptMaker {
    alloc: Global,
    random: Random,
    manner: Manner,
    script: Vec<u8>,
    /// Whether a sitting is likely to be open.
    inside: bool,
    /// Close to the last recorded instant.
    clock: u32,
}

impl ScriptMaker {
    /// A script of this seed and manner.
    pub fn script(alloc: Global, random: Random, manner: Manner) -> Result<Vec<u8>, AllocError> {
        let mut maker = ScriptMaker {
            alloc,
            random,
            manner,
            script: Vec::new(alloc),
            inside: false,
            clock: 5,
        };
        maker.add_openings()?;
        for _ in 0..manner.lines {
            maker.add_line()?;
        }
        maker.finish()
    }

    /// Mostly a line is opened on each shelf first, so that few sittings fail to begin.
    fn add_openings(&mut self) -> Result<(), AllocError> {
        if self.random.one_in(6) {
            return Ok(());
        }
        for letter in SHELVES.iter().take(self.manner.shelves) {
            self.put(b"N\t")?;
            self.put(&[*letter, LINE_FEED])?;
        }
        Ok(())
    }

    fn finish(self) -> Result<Vec<u8>, AllocError> {
        let ScriptMaker {
            alloc: _,
            mut random,
            manner: _,
            mut script,
            inside: _,
            clock: _,
        } = self;
        if random.one_in(3) {
            let _ = script.pop();
        }
        if random.one_in(60) {
            let length = LONGEST.saturating_add(random.below(3)).saturating_sub(1);
            script.resize(length, LINE_FEED)?;
        }
        Ok(script)
    }

    fn add_line(&mut self) -> Result<(), AllocError> {
        if self.random.one_in(30) {
            return self.put(&[LINE_FEED]);
        }
        let letter = self.letter();
        let line = self.line_of(letter)?;
        if self.random.one_in(self.manner.spoilt) {
            self.put_spoilt(line.as_slice())?;
        } else {
            if letter == b'S' && self.random.one_in(2) {
                self.put(b"U\n")?;
            }
            self.put(line.as_slice())?;
            self.note(letter);
        }
        self.put(&[LINE_FEED])
    }

    fn letter(&mut self) -> u8 {
        if self.random.one_in(25) {
            self.random.pick(ANYWHERE, b'U')
        } else if self.inside {
            self.random.pick(INSIDE, b'E')
        } else {
            self.random.pick(OUTSIDE, b'U')
        }
    }

    /// Notes what a line does to the sitting, if it is accepted.
    fn note(&mut self, letter: u8) {
        match letter {
            b'S' => self.inside = true,
            b'E' | b'X' => self.inside = false,
            _ => {}
        }
    }

    fn put(&mut self, bytes: &[u8]) -> Result<(), AllocError> {
        self.script.extend_from_slice(bytes)
    }

    /// A line of this command that can be read.
    fn line_of(&mut self, letter: u8) -> Result<Vec<u8>, AllocError> {
        let mut line = Vec::new(self.alloc);
        line.push(letter)?;
        match letter {
            b'N' | b'D' => self.add_shelf(&mut line)?,
            b'B' => {
                self.add_shelf(&mut line)?;
                self.add_shelf(&mut line)?;
            }
            b'S' => {
                self.add_shelf(&mut line)?;
                self.add_next_recorded(&mut line)?;
            }
            b'Q' | b'T' => self.add_question(letter, &mut line)?,
            b'R' | b'C' | b'W' => self.add_entry(letter, &mut line)?,
            _ => {}
        }
        Ok(line)
    }

    fn add_shelf(&mut self, line: &mut Vec<u8>) -> Result<(), AllocError> {
        let letter = if self.random.one_in(40) {
            self.random.pick(STRANGE_SHELVES, b'a')
        } else {
            let index = self.random.below(self.manner.shelves);
            SHELVES.get(index).copied().unwrap_or(b'A')
        };
        line.push(TAB)?;
        line.push(letter)?;
        Ok(())
    }

    fn add_next_recorded(&mut self, line: &mut Vec<u8>) -> Result<(), AllocError> {
        if self.random.one_in(40) {
            let recorded = samples::instant(&mut self.random, self.clock);
            return self.add_number(line, i64::from(recorded));
        }
        self.clock = self.clock.saturating_add(self.random.instant_below(4));
        self.add_number(line, i64::from(self.clock))
    }

    fn add_question(&mut self, letter: u8, line: &mut Vec<u8>) -> Result<(), AllocError> {
        self.add_shelf(line)?;
        let recorded = samples::recorded(&mut self.random, self.clock);
        self.add_number(line, i64::from(recorded))?;
        self.add_name(line)?;
        if letter == b'T' {
            let (from, to) = samples::span(&mut self.random, self.clock);
            self.add_number(line, i64::from(from))?;
            return self.add_number(line, i64::from(to));
        }
        self.add_measured(line)
    }

    fn add_entry(&mut self, letter: u8, line: &mut Vec<u8>) -> Result<(), AllocError> {
        self.add_name(line)?;
        self.add_measured(line)?;
        if letter != b'W' {
            let microhertz = samples::reading(&mut self.random);
            self.add_number(line, microhertz)?;
        }
        Ok(())
    }

    fn add_measured(&mut self, line: &mut Vec<u8>) -> Result<(), AllocError> {
        let measured = samples::measured(&mut self.random, self.clock);
        self.add_number(line, i64::from(measured))
    }

    fn add_name(&mut self, line: &mut Vec<u8>) -> Result<(), AllocError> {
        let name = samples::name(&mut self.random, self.manner.names);
        line.push(TAB)?;
        line.extend_from_slice(name)
    }

    fn add_number(&self, line: &mut Vec<u8>, number: i64) -> Result<(), AllocError> {
        let text = format!(in self.alloc; "\t{number}")?;
        line.extend_from_slice(text.as_bytes())
    }

    /// A line that was made to be read, changed so that mostly it cannot be.
    fn put_spoilt(&mut self, line: &[u8]) -> Result<(), AllocError> {
        match self.random.below(9) {
            0 => {
                self.put(line)?;
                self.put(b"\t1")
            }
            1 => {
                self.put(line)?;
                self.put(&[TAB])
            }
            2 => {
                self.put(&[TAB])?;
                self.put(line)
            }
            3 => {
                let last_tab = line.iter().rposition(|byte| *byte == TAB);
                self.put(line.get(..last_tab.unwrap_or(0)).unwrap_or(b""))
            }
            4 => {
                let letter = self.random.pick(STRANGE_LETTERS, b'A');
                self.put(&[letter])?;
                self.put(line.get(1..).unwrap_or(b""))
            }
            5 => {
                self.put(line.get(..1).unwrap_or(b""))?;
                self.put(line)
            }
            6 => self.put_noise(),
            _ => self.put_with_strange_field(line),
        }
    }

    /// Bytes of which some lines that can be read could be made.
    fn put_noise(&mut self) -> Result<(), AllocError> {
        for _ in 0..self.random.below(LONGEST_NOISE) {
            let byte = self.random.pick(NOISE, TAB);
            self.put(&[byte])?;
        }
        Ok(())
    }

    /// The line with another text in the place of one of its fields.
    fn put_with_strange_field(&mut self, line: &[u8]) -> Result<(), AllocError> {
        let fields = line.split(|byte| *byte == TAB).count();
        let changed = self.random.below(fields);
        let strange = self.random.pick(&STRANGE_FIELDS, b"");
        let mut index = 0usize;
        for field in line.split(|byte| *byte == TAB) {
            if index > 0 {
                self.put(&[TAB])?;
            }
            if index == changed {
                self.put(strange)?;
            } else {
                self.put(field)?;
            }
            index = index.saturating_add(1);
        }
        Ok(())
    }
}
