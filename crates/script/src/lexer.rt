//! The fields of a line, read one by one.

ghost use Rattle.std.specs.Prelude.{◌≡◌, ◌-◌, ◌<◌, ◌≤◌, ◌↔◌, min, length, take, drop, IsNone, IfSome};
ghost use Rattle.script.specs.Fields.{fields_of, Parts, text_of, IsFieldOf, IsNextPart, Lexed, left};
ghost use Rattle.script.specs.Numerals.{digits_of, number_of, instant_of, reading_of, byte_of, NumberWritten, ReadingWritten};

use crate::lines::length_before;

/// The most digits of a number.
const MAX_DIGITS: usize = 18;

/// The first number of more digits.
const NUMBER_LIMIT: u64 = 1_000_000_000_000_000_000;

/// A part of the bytes that are read, and where it begins there.
#[derive(Clone, Copy, Debug, PartialEq, Eq)]
pub struct Part<'s> {
    pub place: usize,
    pub text: &'s [u8],
}

/// A field of a line.
#[derive(Clone, Copy, Debug, PartialEq, Eq)]
pub enum Field<'s> {
    /// 1 to 18 digits without a needless leading zero, and their value.
    Number(Part<'s>, u64),
    /// A minus sign and such digits other than 0, and the magnitude.
    Negative(Part<'s>, u64),
    /// Any other bytes.
    Word(Part<'s>),
}

impl<'s> Field<'s> {
    /// The bytes of the field.
    pub fn name(&self) -> &'s [u8]
        ensures { result.now ≡ text_of self.now }
    {
        match *self {
            Field::Number(part, _) | Field::Negative(part, _) | Field::Word(part) => part.text,
        }
    }

    /// The byte of a field of one byte.
    pub fn shelf(&self) -> Option<u8>
        ensures { result ≡ byte_of (text_of self.now) }
    {
        match self.name() {
            [byte] => Some(*byte),
            _ => None,
        }
    }

    /// The field as a number of at most 32 bits.
    pub fn instant(&self) -> Option<u32>
        ensures { Lexed self.now → result ≡ instant_of (text_of self.now) }
    {
        match *self {
            Field::Number(_, value) => u32::try_from(value).ok(),
            _ => None,
        }
    }

    /// The field as a number that may be negative.
    #[tactic(auto, using(crate::proofs::Readings::readings))]
    pub fn reading(&self) -> Option<i64>
        ensures value { Lexed self.now → result ≡ reading_of (text_of self.now) }
        ensures written { ReadingWritten (text_of self.now) }
    {
        match *self {
            Field::Number(_, value) if value < NUMBER_LIMIT => i64::try_from(value).ok(),
            Field::Negative(_, magnitude) if magnitude < NUMBER_LIMIT => {
                Some(-i64::try_from(magnitude).ok()?)
            }
            _ => None,
        }
    }
}

impl<'s> From<Part<'s>> for Field<'s> {
    ghost from_gives = { IsFieldOf };

    fn from(part: Part<'s>) -> Field<'s> {
        if let Some(value) = number(part.text) {
            Field::Number(part, value)
        } else if let [b'-', digits @ ..] = part.text
            && let Some(magnitude @ 1..) = number(digits)
        {
            Field::Negative(part, magnitude)
        } else {
            Field::Word(part)
        }
    }
}

/// Reads the fields of a line. `script` is what was given up to the line's end, and `next` the place of the next field,
/// which is past the end once the last field is given, where `get` finds nothing.
#[derive(Drop)]
pub struct Lexer<'s> {
    script: &'s [u8],
    next: usize,
}

impl<'s> Lexer<'s> {
    /// For the line from `start` up to `end`, or up to the script's end where that comes first.
    #[tactic(auto, using(crate::proofs::Lexing::new_fields))]
    pub fn new(script: &'s [u8], start: usize, end: usize) -> Lexer<'s>
        ensures script { result.script.now ≡ take end script.now }
        ensures place { result.next ≡ min start (length (take end script.now)) }
        ensures fields { left result ≡ fields_of (take (end - start) (drop start script.now)) }
        ensures parts { Parts (take (end - start) (drop start script.now)) (left result) }
    {
        let script = &script[..end.min(script.len())];
        Lexer {
            script,
            next: within(start, script),
        }
    }

    /// The next part of the line, up to a tab or to the line's end, or none after the last.
    /// A `split` at the tabs would not tell the places in the bytes that are read.
    fn part(&self) -> Option<Part<'s>>
        ensures none { IsNone result ↔ (length self.now.script.now < self.now.next) }
        ensures part { IfSome result (λ part. IsNextPart self.now part) }
    {
        let line = self.script.get(self.next..)?;
        Some(Part {
            place: self.next,
            text: &line[..length_before(line, b'\t')],
        })
    }
}

impl<'s> Iterator for Lexer<'s> {
    ghost use Rattle.std.specs.Iterator.{item_count};
    ghost use Rattle.script.specs.Fields.{GivesNext, left};

    type Item = Field<'s>;

    ghost next_gives = { GivesNext };

    ghost remaining = { item_count left };

    /// The next field, or none after the last.
    #[tactic(auto, using(crate::proofs::Lexing::field_given))]
    fn next(&mut self) -> Option<Field<'s>> {
        let part = self.part()?;
        self.next += part.text.len() + 1;
        Some(Field::from(part))
    }
}

/// The place, or the end of the bytes where that comes first.
fn within(place: usize, bytes: &[u8]) -> usize
    ensures { result ≡ min place (length bytes.now) }
{
    place.min(bytes.len())
}

/// The number that a text writes: 1 to 18 digits without a needless leading zero.
#[tactic(auto, using(crate::proofs::Digits::number_written, crate::proofs::Digits::number_digits))]
pub fn number(text: &[u8]) -> Option<u64>
    ensures value { result ≡ number_of text.now }
    ensures written { NumberWritten text.now }
{
    match text {
        [b'0'] => Some(0),
        [b'1'..=b'9', ..] if text.len() <= MAX_DIGITS => digits(text),
        _ => None,
    }
}

/// The number that 18 digits at most write. By a loop, since `parse`, which needs the text as UTF-8, takes twice the time.
fn digits(text: &[u8]) -> Option<u64>
    requires { length text.now ≤ 18 }
    ensures { result ≡ digits_of text.now }
{
    let mut value: u64 = 0;
    for digit in text {
        if !digit.is_ascii_digit() {
            return None;
        }
        value = value * 10 + u64::from(*digit - b'0');
    }
    Some(value)
}
