//! Why a call is declined: one table, in the order of precedence.

ghost use Rattle.std.specs.Prelude.{◌≡◌, Some};
ghost use Rattle.register.specs.Refusals.{number_of, refusal_text};
ghost use Rattle.register.specs.declared.refusal.Refusal.TheVariants.{NameBroken, ReadingOutOfRange};

use kinds::{NotAName, OutOfRange};
use std::error::Error;
use std::fmt;

#[derive(Clone, Copy, PartialEq, Eq, Debug)]
pub enum Refusal {
    NoSuchLine = 1,
    LinesExhausted = 2,
    SerialsExhausted = 3,
    NotLater = 4,
    NameBroken = 5,
    ReadingOutOfRange = 6,
    MeasuredLater = 7,
    TreeTooHigh = 8,
    ReadingThere = 9,
    NoReading = 10,
    NodesShort = 11,
    NotAShelf = 12,
    ShelfTaken = 13,
    ShelfEmpty = 14,
    EndsCrossed = 15,
    ScriptTooLong = 17,
    Unreadable = 18,
    OutOfPlace = 19,
    /// A report line does not fit.
    ReportFull = 20,
}

impl Refusal {
    /// What the refusal says.
    pub fn text(self) -> &'static str
        ensures { result.now ≡ refusal_text self }
    {
        match self {
            Self::NoSuchLine => "no line has the handle and the state that the call needs",
            Self::LinesExhausted => "all 64 lines are live",
            Self::SerialsExhausted => "the next serial would pass 4,294,967,294",
            Self::NotLater =>
                "a sitting's recorded instant is not greater than the line's last stage",
            Self::NameBroken => "the name breaks its rule",
            Self::ReadingOutOfRange => "the reading is outside its range",
            Self::MeasuredLater =>
                "the measured instant is greater than the sitting's recorded instant",
            Self::TreeTooHigh => "a tree that the call walks is higher than 24",
            Self::ReadingThere => "recording where a reading is",
            Self::NoReading => "correcting or withdrawing where no reading is",
            Self::NodesShort => "fewer than 256 nodes are free",
            Self::NotAShelf => "the letter is not A to Z",
            Self::ShelfTaken => "stowing where a line lies",
            Self::ShelfEmpty => "fetching where no line lies",
            Self::EndsCrossed => "the first end of a range is greater than the second",
            Self::ScriptTooLong => "the script has more than 32,768 bytes",
            Self::Unreadable => "a wrong letter or number of fields, or an unreadable field",
            Self::OutOfPlace => "the command does not belong inside, or outside, a sitting",
            Self::ReportFull => "the report does not fit",
        }
    }
}

impl fmt::Display for Refusal {
    ghost output = { λ why. Some (refusal_text why) };

    fn fmt<W: fmt::Write>(&self, f: &mut fmt::Formatter<W>) -> fmt::Result {
        f.write_str(self.text())
    }
}

impl Error for Refusal {}

/// The number by which callers know a refusal: an enum's number has no `From` of its own, so `as` gives it.
impl From<Refusal> for u8 {
    ghost from_gives = { λ why number. number ≡ number_of why };

    fn from(why: Refusal) -> u8 {
        why as u8
    }
}

impl From<NotAName> for Refusal {
    ghost from_gives = { λ _ why. why ≡ NameBroken };

    fn from(_: NotAName) -> Refusal {
        Refusal::NameBroken
    }
}

impl From<OutOfRange> for Refusal {
    ghost from_gives = { λ _ why. why ≡ ReadingOutOfRange };

    fn from(_: OutOfRange) -> Refusal {
        Refusal::ReadingOutOfRange
    }
}
