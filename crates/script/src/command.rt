//! The command that a line says.

ghost use Rattle.std.specs.Prelude.{◌≡◌, drop, Some};
ghost use Rattle.std.specs.Option.{option_map};
ghost use Rattle.script.specs.Commands.{requested, request_of, arguments_of, given, ends, first_as};
ghost use Rattle.script.specs.Fields.{left};
ghost use Rattle.script.specs.Numerals.{byte_of, instant_of, reading_of};

use crate::lexer::Lexer;

#[derive(Clone, Copy, Debug, PartialEq, Eq)]
pub enum Command<'s> {
    /// Opens a line, and stows it on the shelf.
    Open {
        shelf: u8,
    },
    /// Branches the line of a shelf, and stows the new one on the other.
    Branch {
        from: u8,
        to: u8,
    },
    /// Begins a sitting on the line of the shelf, at a recorded instant.
    Begin {
        shelf: u8,
        recorded: u32,
    },
    /// Asks the line of the shelf, as of a recorded instant, for the latest reading of a name up to a measured one.
    AsOf {
        shelf: u8,
        recorded: u32,
        name: &'s [u8],
        measured: u32,
    },
    /// Asks it for the total of a name's readings from one measured instant to another.
    Total {
        shelf: u8,
        recorded: u32,
        name: &'s [u8],
        from: u32,
        to: u32,
    },
    /// Retires the line of the shelf.
    Retire {
        shelf: u8,
    },
    /// Asks for the tally.
    Tally,
    /// Records a reading of a name, measured at an instant.
    Record {
        name: &'s [u8],
        measured: u32,
        reading: i64,
    },
    /// Puts another reading in the place of one.
    Correct {
        name: &'s [u8],
        measured: u32,
        reading: i64,
    },
    /// Withdraws a reading.
    Withdraw {
        name: &'s [u8],
        measured: u32,
    },
    /// Commits the sitting.
    Commit,
    /// Abandons the sitting.
    Abandon,
}

/// The command that a line's fields say, or none where the line is unreadable.
pub fn read_command<'s>(mut fields: Lexer<'s>) -> Option<Command<'s>>
    ensures { option_map requested result ≡ request_of (left fields.entry) }
{
    let letter = byte(&mut fields)?;
    let command = arguments(letter, &mut fields)?;
    fields.next().is_none().then_some(command)
}

/// The command of a letter, with the fields that it takes.
fn arguments<'s>(letter: u8, fields: &mut Lexer<'s>) -> Option<Command<'s>>
    ensures { arguments_of letter (left fields.old) ≡ given (option_map requested result) (λ request. ends request (left fields.new)) }
{
    match letter {
        b'N' => Some(Command::Open {
            shelf: byte(fields)?,
        }),
        b'B' => Some(Command::Branch {
            from: byte(fields)?,
            to: byte(fields)?,
        }),
        b'S' => Some(Command::Begin {
            shelf: byte(fields)?,
            recorded: instant(fields)?,
        }),
        b'Q' => Some(Command::AsOf {
            shelf: byte(fields)?,
            recorded: instant(fields)?,
            name: name(fields)?,
            measured: instant(fields)?,
        }),
        b'T' => Some(Command::Total {
            shelf: byte(fields)?,
            recorded: instant(fields)?,
            name: name(fields)?,
            from: instant(fields)?,
            to: instant(fields)?,
        }),
        b'D' => Some(Command::Retire {
            shelf: byte(fields)?,
        }),
        b'U' => Some(Command::Tally),
        b'R' => Some(Command::Record {
            name: name(fields)?,
            measured: instant(fields)?,
            reading: reading(fields)?,
        }),
        b'C' => Some(Command::Correct {
            name: name(fields)?,
            measured: instant(fields)?,
            reading: reading(fields)?,
        }),
        b'W' => Some(Command::Withdraw {
            name: name(fields)?,
            measured: instant(fields)?,
        }),
        b'E' => Some(Command::Commit),
        b'X' => Some(Command::Abandon),
        _ => None,
    }
}

/// The next field, where it is one byte.
fn byte(fields: &mut Lexer<'_>) -> Option<u8>
    ensures value { result ≡ first_as byte_of (left fields.old) }
    ensures rest { left fields.new ≡ drop 1 (left fields.old) }
{
    fields.next()?.shelf()
}

/// The next field, as the bytes of a name.
fn name<'s>(fields: &mut Lexer<'s>) -> Option<&'s [u8]>
    ensures value { option_map (λ name. name.now) result ≡ first_as Some (left fields.old) }
    ensures rest { left fields.new ≡ drop 1 (left fields.old) }
{
    Some(fields.next()?.name())
}

/// The next field, where it is an instant.
fn instant(fields: &mut Lexer<'_>) -> Option<u32>
    ensures value { result ≡ first_as instant_of (left fields.old) }
    ensures rest { left fields.new ≡ drop 1 (left fields.old) }
{
    fields.next()?.instant()
}

/// The next field, where it is a reading.
fn reading(fields: &mut Lexer<'_>) -> Option<i64>
    ensures value { result ≡ first_as reading_of (left fields.old) }
    ensures rest { left fields.new ≡ drop 1 (left fields.old) }
{
    fields.next()?.reading()
}
