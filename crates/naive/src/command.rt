//! Commands of a script.

use crate::field::{instant, reading, shelf, split_fields};
use crate::sheet::{Change, Entry};
use std::alloc::{AllocError, Global};

/// A question about the readings of a name, as of a recorded instant.
#[derive(Clone, Copy)]
pub enum Question<'n> {
    AsOf(u32, &'n [u8], u32),
    Total(u32, &'n [u8], u32, u32),
}

#[derive(Clone, Copy)]
pub enum Command<'n> {
    Open(u8),
    Retire(u8),
    Tally,
    Branch(u8, u8),
    Begin(u8, u32),
    Ask(u8, Question<'n>),
    Enter(Entry<'n>),
    Commit,
    Abandon,
}

/// The command of a line; none where the line cannot be read.
pub fn read_command<'n>(alloc: Global, line: &'n [u8]) -> Result<Option<Command<'n>>, AllocError> {
    let fields = split_fields(alloc, line)?;
    Ok(command_of(fields.as_slice()))
}

fn command_of<'n>(fields: &[&'n [u8]]) -> Option<Command<'n>> {
    let (command, others) = fields.split_first()?;
    let [letter] = *command else {
        return None;
    };
    match *letter {
        b'R' | b'C' | b'W' => Some(Command::Enter(entry_of(*letter, others)?)),
        b'Q' | b'T' => question_of(*letter, others),
        _ => call_of(*letter, others),
    }
}

/// The command of a letter that is neither an entry's nor a question's.
fn call_of<'n>(letter: u8, fields: &[&'n [u8]]) -> Option<Command<'n>> {
    match (letter, fields) {
        (b'N', [s]) => Some(Command::Open(shelf(s)?)),
        (b'D', [s]) => Some(Command::Retire(shelf(s)?)),
        (b'U', []) => Some(Command::Tally),
        (b'B', [s, t]) => Some(Command::Branch(shelf(s)?, shelf(t)?)),
        (b'S', [s, r]) => Some(Command::Begin(shelf(s)?, instant(r)?)),
        (b'E', []) => Some(Command::Commit),
        (b'X', []) => Some(Command::Abandon),
        _ => None,
    }
}

fn question_of<'n>(letter: u8, fields: &[&'n [u8]]) -> Option<Command<'n>> {
    match (letter, fields) {
        (b'Q', [s, r, name, m]) => Some(Command::Ask(
            shelf(s)?,
            Question::AsOf(instant(r)?, *name, instant(m)?),
        )),
        (b'T', [s, r, name, from, to]) => Some(Command::Ask(
            shelf(s)?,
            Question::Total(instant(r)?, *name, instant(from)?, instant(to)?),
        )),
        _ => None,
    }
}

fn entry_of<'n>(letter: u8, fields: &[&'n [u8]]) -> Option<Entry<'n>> {
    let (name, measured, change) = match (letter, fields) {
        (b'R', [name, m, v]) => (*name, *m, Change::Record(reading(v)?)),
        (b'C', [name, m, v]) => (*name, *m, Change::Correct(reading(v)?)),
        (b'W', [name, m]) => (*name, *m, Change::Withdraw),
        _ => return None,
    };
    Some(Entry {
        name,
        measured: instant(measured)?,
        change,
    })
}
