//! The register: lines as plain lists of entries, and the calls on them.

use crate::nodes::{added_by_commit, added_by_entry};
use crate::order::Order;
use crate::refusal::{Failure, Refusal};
use crate::sheet::{Change, Entry, Sheet, Total};
use std::alloc::{AllocError, Global};

const MOST_LINES: usize = 64;

const LAST_SERIAL: u32 = 4294967294;

const LONGEST_NAME: usize = 16;

const GREATEST_READING: i64 = 1000000000000;

/// A line's place in the table, and its serial.
#[derive(Clone, Copy, Debug, PartialEq, Eq)]
pub struct Handle {
    pub place: u32,
    pub serial: u32,
}

/// What a live line is doing.
#[derive(Clone, Copy, PartialEq, Eq)]
pub enum State {
    Resting,
    Stowed(u8),
    /// In a sitting at this recorded instant.
    Sitting(u32),
}

/// An entry, and the recorded instant of its sitting.
#[derive(Clone, Copy)]
struct Recorded<'n> {
    at: u32,
    entry: Entry<'n>,
}

/// A line: the recorded instants of its stages, and all entries in the order in which they were made. Those of an open
/// sitting stand at the end.
#[derive(Drop)]
struct Line<'n> {
    handle: Handle,
    state: State,
    stages: Vec<u32>,
    entries: Vec<Recorded<'n>>,
}

#[derive(Drop)]
pub struct Register<'n> {
    alloc: Global,
    order: Order,
    next_serial: u32,
    lines: Vec<Line<'n>>,
}

impl<'n> Line<'n> {
    /// The sheet that all entries up to and including `recorded` make.
    fn sheet(&self, alloc: Global, recorded: u32) -> Result<Sheet<'n>, AllocError> {
        let mut sheet = Sheet::empty(alloc);
        for made in self.entries.iter() {
            if made.at <= recorded {
                sheet.apply(made.entry)?;
            }
        }
        Ok(sheet)
    }

    fn count_stages(&self) -> u32 {
        u32::try_from(self.stages.len()).unwrap_or(u32::MAX)
    }
}

impl<'n> Register<'n> {
    pub fn new(alloc: Global, order: Order, first_serial: u32) -> Register<'n> {
        Register {
            alloc,
            order,
            next_serial: first_serial,
            lines: Vec::new(alloc),
        }
    }

    pub fn count_lines(&self) -> usize {
        self.lines.len()
    }

    /// The handle and the state of the live line at this position of the list.
    pub fn line_at(&self, position: usize) -> Option<(Handle, State)> {
        let line = self.lines.get(position)?;
        Some((line.handle, line.state))
    }

    fn is_free(&self, place: u32) -> bool {
        !self.lines.iter().any(|line| line.handle.place == place)
    }

    fn is_taken(&self, shelf: u8) -> bool {
        self.lines
            .iter()
            .any(|line| line.state == State::Stowed(shelf))
    }

    fn line(&self, handle: Handle) -> Result<&Line<'n>, Refusal> {
        self.lines
            .iter()
            .find(|line| line.handle == handle)
            .ok_or(Refusal::NoSuchLine)
    }

    fn line_mut(&mut self, handle: Handle) -> Result<&mut Line<'n>, Refusal> {
        let position = self.lines.iter().position(|line| line.handle == handle);
        match position {
            Some(position) => self.lines.get_mut(position).ok_or(Refusal::NoSuchLine),
            None => Err(Refusal::NoSuchLine),
        }
    }

    /// The line at rest of this handle.
    fn resting(&self, handle: Handle) -> Result<&Line<'n>, Refusal> {
        let line = self.line(handle)?;
        Refusal::NoSuchLine.given_if(line.state != State::Resting)?;
        Ok(line)
    }

    /// The line in a sitting of this handle, and the sitting's recorded instant.
    fn sitting(&self, handle: Handle) -> Result<(&Line<'n>, u32), Refusal> {
        let line = self.line(handle)?;
        match line.state {
            State::Sitting(recorded) => Ok((line, recorded)),
            State::Resting | State::Stowed(_) => Err(Refusal::NoSuchLine),
        }
    }

    fn set_state(&mut self, handle: Handle, state: State) -> Result<(), Refusal> {
        self.line_mut(handle)?.state = state;
        Ok(())
    }

    /// The handle that the next line gets.
    fn next_handle(&self) -> Result<Handle, Refusal> {
        Refusal::LinesExhausted.given_if(self.lines.len() >= MOST_LINES)?;
        Refusal::SerialsExhausted.given_if(self.next_serial > LAST_SERIAL)?;
        let mut places = 0..MOST_LINES as u32;
        let place = places
            .find(|place| self.is_free(*place))
            .ok_or(Refusal::LinesExhausted)?;
        Ok(Handle {
            place,
            serial: self.next_serial,
        })
    }

    fn add(&mut self, line: Line<'n>) -> Result<(), AllocError> {
        self.lines.push(line)?;
        self.next_serial = self.next_serial.saturating_add(1);
        Ok(())
    }

    pub fn open_line(&mut self) -> Result<Handle, Failure> {
        let handle = self.next_handle()?;
        self.add(Line {
            handle,
            state: State::Resting,
            stages: Vec::new(self.alloc),
            entries: Vec::new(self.alloc),
        })?;
        Ok(handle)
    }

    /// The new line; the old one keeps its handle.
    pub fn branch(&mut self, handle: Handle) -> Result<Handle, Failure> {
        let line = self.resting(handle)?;
        let new = self.next_handle()?;
        let stages = Vec::from_slice(self.alloc, line.stages.as_slice())?;
        let entries = Vec::from_slice(self.alloc, line.entries.as_slice())?;
        self.add(Line {
            handle: new,
            state: State::Resting,
            stages,
            entries,
        })?;
        Ok(new)
    }

    pub fn stow(&mut self, handle: Handle, shelf: u8) -> Result<(), Refusal> {
        self.resting(handle)?;
        Refusal::NotAShelf.given_if(!shelf.is_ascii_uppercase())?;
        Refusal::ShelfTaken.given_if(self.is_taken(shelf))?;
        self.set_state(handle, State::Stowed(shelf))
    }

    pub fn fetch(&mut self, shelf: u8) -> Result<Handle, Refusal> {
        Refusal::NotAShelf.given_if(!shelf.is_ascii_uppercase())?;
        let handle = self
            .lines
            .iter()
            .find(|line| line.state == State::Stowed(shelf))
            .map(|line| line.handle)
            .ok_or(Refusal::ShelfEmpty)?;
        self.set_state(handle, State::Resting)?;
        Ok(handle)
    }

    pub fn retire(&mut self, handle: Handle) -> Result<(), Refusal> {
        self.resting(handle)?;
        self.lines.retain(|line| line.handle != handle);
        Ok(())
    }

    pub fn begin(&mut self, handle: Handle, recorded: u32) -> Result<(), Refusal> {
        let line = self.resting(handle)?;
        let last = line.stages.last().copied();
        Refusal::NotLater.given_if(last.is_some_and(|last| recorded <= last))?;
        self.set_state(handle, State::Sitting(recorded))
    }

    /// Makes an entry. `nodes_short` says whether the pool has too few free nodes for it.
    pub fn enter(
        &mut self,
        handle: Handle,
        entry: Entry<'n>,
        nodes_short: bool,
    ) -> Result<(), Failure> {
        let (line, recorded) = self.sitting(handle)?;
        check_name(entry.name)?;
        check_reading(entry.change)?;
        Refusal::MeasuredLater.given_if(entry.measured > recorded)?;
        let sheet = line.sheet(self.alloc, recorded)?;
        let is_there = sheet.has(entry.name, entry.measured);
        match entry.change {
            Change::Record(_) => Refusal::ReadingThere.given_if(is_there)?,
            Change::Correct(_) | Change::Withdraw => Refusal::NoReading.given_if(!is_there)?,
        }
        Refusal::NodesShort.given_if(nodes_short)?;
        let made = Recorded {
            at: recorded,
            entry,
        };
        self.line_mut(handle)?.entries.push(made)?;
        Ok(())
    }

    /// Adds the stage. `nodes_short` says whether the pool has too few free nodes for it.
    pub fn commit(&mut self, handle: Handle, nodes_short: bool) -> Result<(), Failure> {
        let (_, recorded) = self.sitting(handle)?;
        Refusal::NodesShort.given_if(nodes_short)?;
        let line = self.line_mut(handle)?;
        line.stages.push(recorded)?;
        line.state = State::Resting;
        Ok(())
    }

    pub fn abandon(&mut self, handle: Handle) -> Result<(), Refusal> {
        let (_, recorded) = self.sitting(handle)?;
        let line = self.line_mut(handle)?;
        line.entries.retain(|made| made.at != recorded);
        line.state = State::Resting;
        Ok(())
    }

    pub fn as_of(
        &self,
        handle: Handle,
        recorded: u32,
        name: &[u8],
        measured: u32,
    ) -> Result<Option<(u32, i64)>, Failure> {
        let line = self.resting(handle)?;
        check_name(name)?;
        let sheet = line.sheet(self.alloc, recorded)?;
        Ok(sheet.latest(name, measured))
    }

    pub fn total(
        &self,
        handle: Handle,
        recorded: u32,
        name: &[u8],
        from: u32,
        to: u32,
    ) -> Result<Total, Failure> {
        let line = self.resting(handle)?;
        check_name(name)?;
        Refusal::EndsCrossed.given_if(from > to)?;
        let sheet = line.sheet(self.alloc, recorded)?;
        Ok(sheet.total(name, from, to))
    }

    /// The first name after the given one, or the first of all.
    pub fn next_name(
        &self,
        handle: Handle,
        recorded: u32,
        after: Option<&[u8]>,
    ) -> Result<Option<&'n [u8]>, Failure> {
        let line = self.resting(handle)?;
        if let Some(name) = after {
            check_name(name)?;
        }
        let sheet = line.sheet(self.alloc, recorded)?;
        Ok(sheet.first_name(self.order, after))
    }

    /// The most nodes that an entry for this name may add, before it is made.
    pub fn growth_of_entry(&self, handle: Handle, name: &[u8]) -> Result<u32, Failure> {
        let (line, recorded) = self.sitting(handle)?;
        let sheet = line.sheet(self.alloc, recorded)?;
        let card = sheet.total(name, 0, u32::MAX);
        Ok(added_by_entry(sheet.names(), card.count))
    }

    /// The most nodes that committing may add, before it is done.
    pub fn growth_of_commit(&self, handle: Handle) -> Result<u32, Failure> {
        let (line, _) = self.sitting(handle)?;
        Ok(added_by_commit(line.count_stages()))
    }
}

fn check_name(name: &[u8]) -> Result<(), Refusal> {
    let is_name = !name.is_empty()
        && name.len() <= LONGEST_NAME
        && name.iter().all(|byte| byte.is_ascii_uppercase()
            || byte.is_ascii_digit()
            || *byte == b'-');
    Refusal::NameBroken.given_if(!is_name)
}

fn check_reading(change: Change) -> Result<(), Refusal> {
    let microhertz = change.microhertz().unwrap_or(0);
    let is_reading = -GREATEST_READING <= microhertz && microhertz <= GREATEST_READING;
    Refusal::ReadingOutOfRange.given_if(!is_reading)
}
