//! The refusal that has a number, its text, and what of a text fits.

ghost use Rattle.std.specs.Prelude.{◌≡◌, [], MatchOption};
ghost use Rattle.tinglacier.specs.Numbers.{HasNumber, OfNone};
ghost use Rattle.tinglacier.specs.Texts.{TextOf, Copied};

use register::Refusal;

/// The refusal that has the number.
fn refusal_of(number: u8) -> Option<Refusal>
    ensures { MatchOption result (OfNone number) (HasNumber number) }
{
    match number {
        1 => Some(Refusal::NoSuchLine),
        2 => Some(Refusal::LinesExhausted),
        3 => Some(Refusal::SerialsExhausted),
        4 => Some(Refusal::NotLater),
        5 => Some(Refusal::NameBroken),
        6 => Some(Refusal::ReadingOutOfRange),
        7 => Some(Refusal::MeasuredLater),
        8 => Some(Refusal::TreeTooHigh),
        9 => Some(Refusal::ReadingThere),
        10 => Some(Refusal::NoReading),
        11 => Some(Refusal::NodesShort),
        12 => Some(Refusal::NotAShelf),
        13 => Some(Refusal::ShelfTaken),
        14 => Some(Refusal::ShelfEmpty),
        15 => Some(Refusal::EndsCrossed),
        17 => Some(Refusal::ScriptTooLong),
        18 => Some(Refusal::Unreadable),
        19 => Some(Refusal::OutOfPlace),
        20 => Some(Refusal::ReportFull),
        _ => None,
    }
}

/// The text of the refusal that has the number; empty, where none has it.
pub fn text_of(number: u8) -> &'static [u8]
    ensures { TextOf number result.now }
{
    match refusal_of(number) {
        Some(why) => why.text().as_bytes(),
        None => b"",
    }
}

/// Copies the bytes to the front of the room, as many as fit, and gives their number.
pub fn copy_front(bytes: &[u8], room: &mut [u8]) -> usize
    ensures { Copied bytes.now result room.old room.new }
{
    let length = bytes.len().min(room.len());
    room[..length].copy_from_slice(&bytes[..length]);
    length
}
