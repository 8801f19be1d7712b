//! The table of lines: 64 places, changed one at a time, and only here.

ghost use Rattle.std.specs.Prelude.{◌≡◌, ◌<◌, length, is_none, IfSome, None, Some, slice_index_or, slice_set};
ghost use Rattle.std.specs.Option.{option_map};
ghost use Rattle.register.specs.declared.table.State.TheVariants.{Sitting as sitting, Stowed as stowed};
ghost use Rattle.register.specs.Tables.{Lies, RestsAs, SitsAs, StowedAs, all_free, in_state, line_of, live, lowest, resting_record};

use crate::handle::{Line, Sitting};
use crate::refusal::Refusal;

/// What a live line is doing.
#[derive(Clone, Copy, PartialEq, Eq)]
pub enum State {
    /// A caller holds the line's handle.
    AtRest,
    /// A caller holds the handle of a sitting on the line: its recorded instant, and the root of its working sheet.
    Sitting { recorded: u32, sheet: u16 },
    /// The line lies on this shelf.
    Stowed(u8),
}

/// A live line's serial, the root of its tree of stages, and what the line is doing.
#[derive(Clone, Copy)]
pub struct Record {
    pub serial: u32,
    pub root: u16,
    pub state: State,
}

impl Record {
    /// The record of a line at rest.
    pub fn resting(serial: u32, root: u16) -> Record
        ensures { result ≡ resting_record serial root }
    {
        Record {
            serial,
            root,
            state: State::AtRest,
        }
    }

    /// The record of the same line at rest.
    pub fn rested(self) -> Record
        ensures { result ≡ resting_record self.serial self.root }
    {
        Record::resting(self.serial, self.root)
    }

    /// The record of the same line on a shelf.
    pub fn stowed(self, letter: u8) -> Record
        ensures { result ≡ record { serial = self.serial; root = self.root; state = stowed letter } }
    {
        Record {
            state: State::Stowed(letter),
            ..self
        }
    }

    /// The record of the same line in a sitting.
    pub fn seated(self, recorded: u32, sheet: u16) -> Record
        ensures { result ≡ record { serial = self.serial; root = self.root; state = sitting recorded sheet } }
    {
        Record {
            state: State::Sitting { recorded, sheet },
            ..self
        }
    }
}

/// The 64 places, each free or with the record of a live line: an array and no map, since nothing is taken from the heap.
/// A place is a `u32` in a handle and a `usize` in the array. There is no `From` between them, and `as` is proved to lose
/// nothing.
#[derive(Drop)]
pub struct Table {
    lines: [Option<Record>; 64],
    ghost sized: { length lines ≡ 64 },
}

impl Table {
    /// A table of free places.
    pub fn new() -> Table
        ensures { result.lines ≡ all_free }
    {
        Table { lines: [None; 64] }
    }

    /// The lowest free place.
    pub fn vacancy(&self) -> Option<usize>
        ensures place { result ≡ lowest is_none self.now.lines }
        ensures within { IfSome result (λ p. p < 64) }
    {
        self.lines.iter().position(|line| line.is_none())
    }

    /// The lowest place in this state.
    fn place_in(&self, state: State) -> Option<usize>
        ensures place { result ≡ lowest (in_state state) self.now.lines }
        ensures within { IfSome result (λ p. p < 64) }
    {
        self.lines
            .iter()
            .position(|line| matches!(line, Some(line) if line.state == state))
    }

    /// The lowest place in this state, and the record of its line.
    pub fn find(&self, state: State) -> Option<(u32, Record)>
        ensures place { option_map (λ found. found.0) result ≡ lowest (in_state state) self.now.lines }
        ensures line { IfSome result (λ found. Lies self.now.lines found.0 found.1) }
    {
        let place = self.place_in(state)?;
        let record = self.lines[place]?;
        Some((place as u32, record))
    }

    /// The record of the line with this place and serial.
    fn line(&self, place: u32, serial: u32) -> Option<Record>
        ensures { result ≡ line_of self.now.lines place serial }
    {
        let record = self.at(place)?;
        (record.serial == serial).then_some(record)
    }

    /// The record of the line at rest that has this handle.
    pub fn resting(&self, line: &Line) -> Result<Record, Refusal>
        ensures { RestsAs self.now.lines line.now.place line.now.serial result }
    {
        match self.line(line.place(), line.serial()) {
            Some(record) if record.state == State::AtRest => Ok(record),
            _ => Err(Refusal::NoSuchLine),
        }
    }

    /// The record of the line in a sitting that has this handle, the recorded instant, and the root of the working sheet.
    pub fn sitting(&self, sitting: &Sitting) -> Result<(Record, u32, u16), Refusal>
        ensures { SitsAs self.now.lines sitting.now.place sitting.now.serial result }
    {
        let record = self
            .line(sitting.place(), sitting.serial())
            .ok_or(Refusal::NoSuchLine)?;
        match record.state {
            State::Sitting { recorded, sheet } => Ok((record, recorded, sheet)),
            _ => Err(Refusal::NoSuchLine),
        }
    }

    /// The number of live lines. By a loop, since `filter(..).count()` takes twice the time.
    pub fn live(&self) -> u32
        ensures { result ≡ live self.now.lines }
    {
        let mut count = 0;
        for line in self.lines.iter() {
            if line.is_some() {
                count += 1;
            }
        }
        count
    }

    /// The record at this place; past the last place there is none.
    fn at(&self, place: u32) -> Option<Record>
        ensures { result ≡ slice_index_or self.now.lines place None }
    {
        *self.lines.get(place as usize)?
    }

    /// Puts a line on this place; past the last place there is none to change.
    pub fn put(&mut self, place: u32, line: Record)
        ensures { self.new.lines ≡ slice_set self.old.lines place (Some line) }
    {
        self.set(place, Some(line));
    }

    /// Frees this place; past the last place there is none to change.
    pub fn free(&mut self, place: u32)
        ensures { self.new.lines ≡ slice_set self.old.lines place None }
    {
        self.set(place, None);
    }

    fn set(&mut self, place: u32, line: Option<Record>)
        ensures { self.new.lines ≡ slice_set self.old.lines place line }
    {
        let i = place as usize;
        if i < self.lines.len() {
            self.lines[i] = line;
        }
    }

    /// The record of a line that may be laid on this shelf.
    pub fn may_stow(&self, line: &Line, letter: u8) -> Result<Record, Refusal>
        ensures { StowedAs self.now.lines line.now.place line.now.serial letter result }
    {
        let record = self.resting(line)?;
        if !letter.is_ascii_uppercase() {
            return Err(Refusal::NotAShelf);
        }
        if self.place_in(State::Stowed(letter)).is_some() {
            return Err(Refusal::ShelfTaken);
        }
        Ok(record)
    }
}
