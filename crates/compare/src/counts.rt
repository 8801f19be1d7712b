//! Counts of what was compared.

use crate::calls::{Answer, Outcome};

pub const COMMANDS: [u8; 12] = *b"NDUBSQTRCWEX";

/// One more than the greatest number of a refusal.
pub const REFUSALS: usize = 21;

const LINE_FEED: u8 = 10;

const TAB: u8 = 9;

/// How many answers there were, and of which kinds.
#[derive(Clone, Copy)]
pub struct Answers {
    pub all: u64,
    pub refusals: [u64; REFUSALS],
    /// Questions that were answered with a reading, a total or a name.
    pub found: u64,
    /// Questions that were answered with none.
    pub none: u64,
}

/// How many scripts there were, and how many lines of each command.
#[derive(Clone, Copy)]
pub struct Counts {
    pub scripts: u64,
    pub commands: [u64; 12],
    pub answers: Answers,
}

impl Answers {
    pub fn new() -> Answers {
        Answers {
            all: 0,
            refusals: [0; REFUSALS],
            found: 0,
            none: 0,
        }
    }

    pub fn refusal(&mut self, number: u8) {
        if let Some(count) = self.refusals.get_mut(usize::from(number)) {
            *count = count.saturating_add(1);
        }
    }

    /// Counts the answer of a call.
    pub fn call(&mut self, outcome: Outcome) {
        self.all = self.all.saturating_add(1);
        match outcome {
            Ok(Answer::Reading(None) | Answer::Name(None)) => self.count_none(),
            Ok(Answer::Reading(Some(_)) | Answer::Name(Some(_)) | Answer::Total(_)) => {
                self.count_found()
            }
            Ok(_) => {}
            Err(number) => self.refusal(number),
        }
    }

    /// Counts a line of a report.
    fn line(&mut self, line: &[u8]) {
        self.all = self.all.saturating_add(1);
        let mut fields = line.split(|byte| *byte == TAB);
        let _number = fields.next();
        let word = fields.next().unwrap_or(b"");
        match (word, fields.next()) {
            (b"no", Some(number)) => self.refusal(number_of(number)),
            (b"none", None) => self.count_none(),
            (_, Some(_)) => self.count_found(),
            _ => {}
        }
    }

    fn count_found(&mut self) {
        self.found = self.found.saturating_add(1);
    }

    fn count_none(&mut self) {
        self.none = self.none.saturating_add(1);
    }
}

impl Counts {
    pub fn new() -> Counts {
        Counts {
            scripts: 0,
            commands: [0; 12],
            answers: Answers::new(),
        }
    }

    /// Counts a script's lines that are not empty beside those of its report, and the refusal that ended it, or 0.
    pub fn script(&mut self, script: &[u8], report: &[u8], stopped: u8) {
        self.scripts = self.scripts.saturating_add(1);
        self.answers.refusal(stopped);
        let lines = script
            .split(|byte| *byte == LINE_FEED)
            .filter(|line| !line.is_empty());
        for (line, answer) in lines.zip(report.split(|byte| *byte == LINE_FEED)) {
            if answer.is_empty() {
                break;
            }
            self.command(line);
            self.answers.line(answer);
        }
    }

    fn command(&mut self, line: &[u8]) {
        let is_command = line.get(1).copied().unwrap_or(TAB) == TAB;
        let letter = line.first();
        let position = COMMANDS.iter().position(|known| Some(known) == letter);
        if let (Some(index), true) = (position, is_command) {
            if let Some(count) = self.commands.get_mut(index) {
                *count = count.saturating_add(1);
            }
        }
    }
}

/// The number that is written in a field of at most two digits.
fn number_of(digits: &[u8]) -> u8 {
    let mut number = 0u8;
    for digit in digits {
        number = number
            .saturating_mul(10)
            .saturating_add(digit.saturating_sub(b'0'));
    }
    number
}
