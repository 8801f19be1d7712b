//! Runs a script, and writes its report.

use crate::command::{Command, Question, read_command};
use crate::field::{number, split_fields};
use crate::nodes::FreeNodes;
use crate::order::Order;
use crate::refusal::{Failure, Refusal};
use crate::register::{Handle, Register};
use crate::sheet::{Entry, Total};
use std::alloc::{AllocError, Global};

const LINE_FEED: u8 = 10;

/// A register uses no more of the nodes that it is lent.
const MOST_NODES: u32 = 65535;

const LONGEST_SCRIPT: usize = 32768;

/// What a run is lent: nodes, of which lists take none, the first serial, and the room for the report.
#[derive(Clone, Copy)]
pub struct Lent {
    pub nodes: u32,
    pub first_serial: u32,
    pub room: usize,
}

/// The report of a run, and why it stopped early, if it did.
#[derive(Drop)]
pub struct Ran {
    pub report: String,
    pub stopped: Option<Refusal>,
}

/// What the other register's report says of nodes at one line.
#[derive(Clone, Copy)]
enum OtherAnswer {
    NodesShort,
    InUse(u32),
    Other,
    /// The report ends before this line, since it had no room.
    NoRoom,
}

/// The answer of a line.
#[derive(Clone, Copy)]
enum Answer {
    Done,
    Nodes {
        in_use: u32,
        free: u32,
        lines: usize,
    },
    Reading(Option<(u32, i64)>),
    Total(Total),
}

/// The open sitting, and the shelf that its line goes back on.
#[derive(Clone, Copy)]
struct Seat {
    handle: Handle,
    shelf: u8,
}

#[derive(Drop)]
struct Session<'n> {
    register: Register<'n>,
    free: FreeNodes,
    seat: Option<Seat>,
}

impl<'n> Session<'n> {
    /// Carries out one line that is not empty.
    fn line(
        &mut self,
        alloc: Global,
        line: &'n [u8],
        other: OtherAnswer,
    ) -> Result<Result<Answer, Refusal>, AllocError> {
        let Some(command) = read_command(alloc, line)? else {
            return Ok(Err(Refusal::Unreadable));
        };
        match self.carry_out(command, other) {
            Ok(answer) => Ok(Ok(answer)),
            Err(Failure::Refused(why)) => Ok(Err(why)),
            Err(Failure::OutOfMemory) => Err(AllocError),
        }
    }

    fn outside(&self) -> Result<(), Refusal> {
        Refusal::OutOfPlace.given_if(self.seat.is_some())
    }

    fn seat(&self) -> Result<Seat, Refusal> {
        self.seat.ok_or(Refusal::OutOfPlace)
    }

    fn carry_out(&mut self, command: Command<'n>, other: OtherAnswer) -> Result<Answer, Failure> {
        match command {
            Command::Open(shelf) => self.open(shelf),
            Command::Retire(shelf) => self.retire(shelf),
            Command::Tally => self.tally(other),
            Command::Branch(shelf, new_shelf) => self.branch(shelf, new_shelf),
            Command::Begin(shelf, recorded) => self.begin(shelf, recorded),
            Command::Ask(shelf, question) => self.ask(shelf, question),
            Command::Enter(entry) => self.enter(entry, other),
            Command::Commit => self.commit(other),
            Command::Abandon => self.abandon(),
        }
    }

    fn stow_or_retire(&mut self, handle: Handle, shelf: u8) -> Result<Answer, Failure> {
        if let Err(why) = self.register.stow(handle, shelf) {
            self.register.retire(handle)?;
            return Err(why.into());
        }
        Ok(Answer::Done)
    }

    fn open(&mut self, shelf: u8) -> Result<Answer, Failure> {
        self.outside()?;
        let handle = self.register.open_line()?;
        self.stow_or_retire(handle, shelf)
    }

    fn retire(&mut self, shelf: u8) -> Result<Answer, Failure> {
        self.outside()?;
        let handle = self.register.fetch(shelf)?;
        self.register.retire(handle)?;
        self.free = self.free.after_taking(0);
        Ok(Answer::Done)
    }

    fn branch(&mut self, shelf: u8, new_shelf: u8) -> Result<Answer, Failure> {
        self.outside()?;
        let handle = self.register.fetch(shelf)?;
        let branched = self.register.branch(handle);
        self.register.stow(handle, shelf)?;
        self.stow_or_retire(branched?, new_shelf)
    }

    fn begin(&mut self, shelf: u8, recorded: u32) -> Result<Answer, Failure> {
        self.outside()?;
        let handle = self.register.fetch(shelf)?;
        if let Err(why) = self.register.begin(handle, recorded) {
            self.register.stow(handle, shelf)?;
            return Err(why.into());
        }
        self.seat = Some(Seat { handle, shelf });
        Ok(Answer::Done)
    }

    /// With no live line all nodes are free; else those in use are as the other register says. Where its line had no
    /// room, the number stands for them that makes the line the longest, so that it has no room here either.
    fn tally(&mut self, other: OtherAnswer) -> Result<Answer, Failure> {
        self.outside()?;
        let lines = self.register.count_lines();
        let said = match other {
            OtherAnswer::InUse(in_use) => in_use,
            OtherAnswer::NodesShort | OtherAnswer::Other => 0,
            OtherAnswer::NoRoom => self.free.longest_in_use(),
        };
        let in_use = if lines == 0 { 0 } else { said };
        let free = self.free.size().saturating_sub(in_use);
        self.free = self.free.are(free);
        Ok(Answer::Nodes {
            in_use,
            free,
            lines,
        })
    }

    fn ask(&mut self, shelf: u8, question: Question<'n>) -> Result<Answer, Failure> {
        self.outside()?;
        let handle = self.register.fetch(shelf)?;
        let answer = self.answer(handle, question);
        self.register.stow(handle, shelf)?;
        answer
    }

    fn answer(&self, handle: Handle, question: Question<'n>) -> Result<Answer, Failure> {
        match question {
            Question::AsOf(recorded, name, measured) => {
                let reading = self.register.as_of(handle, recorded, name, measured)?;
                Ok(Answer::Reading(reading))
            }
            Question::Total(recorded, name, from, to) => {
                let total = self.register.total(handle, recorded, name, from, to)?;
                Ok(Answer::Total(total))
            }
        }
    }

    fn enter(&mut self, entry: Entry<'n>, other: OtherAnswer) -> Result<Answer, Failure> {
        let handle = self.seat()?.handle;
        let growth = self.register.growth_of_entry(handle, entry.name)?;
        let is_short = self.free.is_short(other.is_short());
        self.register.enter(handle, entry, is_short)?;
        self.free = self.free.after_taking(growth);
        Ok(Answer::Done)
    }

    fn commit(&mut self, other: OtherAnswer) -> Result<Answer, Failure> {
        let handle = self.seat()?.handle;
        let growth = self.register.growth_of_commit(handle)?;
        let is_short = self.free.is_short(other.is_short());
        self.register.commit(handle, is_short)?;
        self.leave_seat(growth)
    }

    fn abandon(&mut self) -> Result<Answer, Failure> {
        let handle = self.seat()?.handle;
        self.register.abandon(handle)?;
        self.leave_seat(0)
    }

    fn leave_seat(&mut self, growth: u32) -> Result<Answer, Failure> {
        let seat = self.seat()?;
        self.register.stow(seat.handle, seat.shelf)?;
        self.seat = None;
        self.free = self.free.after_taking(growth);
        Ok(Answer::Done)
    }
}

impl OtherAnswer {
    /// What a line of the report says: `no` and 11, or the nodes in use, the nodes free and the live lines.
    fn from_line(alloc: Global, line: &[u8]) -> Result<OtherAnswer, AllocError> {
        if line.is_empty() {
            return Ok(OtherAnswer::NoRoom);
        }
        let fields = split_fields(alloc, line)?;
        Ok(OtherAnswer::from_fields(fields.as_slice()).unwrap_or(OtherAnswer::Other))
    }

    fn from_fields(fields: &[&[u8]]) -> Option<OtherAnswer> {
        match fields {
            [_, word, why] if *word == b"no".as_slice() && *why == b"11".as_slice() => Some(
                OtherAnswer::NodesShort,
            ),
            [_, in_use, _, _] => Some(OtherAnswer::InUse(u32::try_from(number(in_use)?).ok()?)),
            _ => None,
        }
    }

    /// Whether the line was refused with 11. One that had no room may have been, and no answer is longer.
    fn is_short(self) -> bool {
        matches!(self, OtherAnswer::NodesShort | OtherAnswer::NoRoom)
    }
}

/// The report's line on a script line.
fn report_line(
    alloc: Global,
    number: u32,
    outcome: Result<Answer, Refusal>,
) -> Result<String, AllocError> {
    match outcome {
        Ok(Answer::Done) => format!(in alloc; "{number}\tok\n"),
        Ok(Answer::Reading(None)) => format!(in alloc; "{number}\tnone\n"),
        Ok(Answer::Reading(Some((measured, microhertz)))) => {
            format!(in alloc; "{number}\t{measured}\t{microhertz}\n")
        }
        Ok(Answer::Total(Total { count, sum })) => format!(in alloc; "{number}\t{count}\t{sum}\n"),
        Ok(
            Answer::Nodes {
                in_use,
                free,
                lines,
            },
        ) => format!(in alloc; "{number}\t{in_use}\t{free}\t{lines}\n"),
        Err(why) => {
            let refusal = why.number();
            format!(in alloc; "{number}\tno\t{refusal}\n")
        }
    }
}

/// A report that never grows past its room.
#[derive(Drop)]
struct Report {
    text: String,
    room: usize,
}

impl Report {
    /// Adds the line where it has room, and says whether it had.
    fn add(&mut self, line: &str) -> Result<bool, AllocError> {
        if line.len() > self.room.saturating_sub(self.text.len()) {
            return Ok(false);
        }
        self.text.push_str(line)?;
        Ok(true)
    }

    fn ended(self, stopped: Option<Refusal>) -> Ran {
        let Report { text, room: _ } = self;
        Ran {
            report: text,
            stopped,
        }
    }
}

/// Runs a script over plain lists. What a list cannot know of nodes it takes, as far as the rules leave it open, from
/// `other_report`, the other register's report.
pub fn run(
    alloc: Global,
    script: &[u8],
    lent: Lent,
    other_report: &[u8],
) -> Result<Ran, AllocError> {
    let mut report = Report {
        text: String::new(alloc),
        room: lent.room,
    };
    if script.len() > LONGEST_SCRIPT {
        return Ok(report.ended(Some(Refusal::ScriptTooLong)));
    }
    let mut session = Session {
        register: Register::new(alloc, Order::Forward, lent.first_serial),
        free: FreeNodes::all(lent.nodes.min(MOST_NODES)),
        seat: None,
    };
    let mut other_lines = other_report.split(|byte| *byte == LINE_FEED);
    let mut lines = 0u32;
    let mut refused = 0u32;
    for ended_line in script.split_inclusive(|byte| *byte == LINE_FEED) {
        lines = lines.saturating_add(1);
        let line = without_line_feed(ended_line);
        if line.is_empty() {
            continue;
        }
        let other = OtherAnswer::from_line(alloc, other_lines.next().unwrap_or(b""))?;
        let outcome = session.line(alloc, line, other)?;
        if outcome.is_err() {
            refused = refused.saturating_add(1);
        }
        let text = report_line(alloc, lines, outcome)?;
        if !report.add(text.as_str())? {
            return Ok(report.ended(Some(Refusal::ReportFull)));
        }
    }
    let end = format!(in alloc; "end\t{lines}\t{refused}\t0\n")?;
    if !report.add(end.as_str())? {
        return Ok(report.ended(Some(Refusal::ReportFull)));
    }
    Ok(report.ended(None))
}

fn without_line_feed(line: &[u8]) -> &[u8] {
    match line {
        [others @ .., LINE_FEED] => others,
        _ => line,
    }
}
