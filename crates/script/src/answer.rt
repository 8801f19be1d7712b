//! What a line of the script is answered, and its line of the report.

ghost use Rattle.std.specs.Prelude.{◌≡◌};
ghost use Rattle.std.specs.Option.{option_map};
ghost use Rattle.report.specs.Report.{KeepsRoom, Lined};
ghost use Rattle.register.specs.Calls.{found_answer, total_answer};
ghost use Rattle.script.specs.Answers.{Says, answer_pieces, answer_to};

use kinds::{Instant, Reading};
use register::{Refusal, Tally};
use report::{Full, Piece, Report};
use tree::Total;

/// What an accepted command gives.
#[derive(Clone, Copy)]
pub(crate) enum Reply {
    /// The command has no value.
    Done,
    /// The tally's three numbers.
    Counted(Tally),
    /// The latest reading, with its measured instant, if there is one.
    Found(Option<(u32, i64)>),
    /// The number of readings, and their sum.
    Totalled(Total),
}

/// The answer to a command that has no value.
pub(crate) fn answer_to(res: Result<(), Refusal>) -> Result<Reply, Refusal>
    ensures { result ≡ answer_to res }
{
    res.map(|()| Reply::Done)
}

/// A reading with its measured instant, as plain numbers.
fn plain(found: Option<(Instant, Reading)>) -> Option<(u32, i64)>
    ensures { result ≡ option_map (λ x. (x.0.seconds, x.1.microhertz)) found }
{
    found.map(|(measured, reading)| (measured.seconds(), reading.microhertz()))
}

/// The answer to a question for a reading.
pub(crate) fn reading_answer(
    res: Result<Option<(Instant, Reading)>, Refusal>,
) -> Result<Reply, Refusal>
    ensures { Says (found_answer res) result }
{
    res.map(|found| Reply::Found(plain(found)))
}

/// The answer to a question for a total.
pub(crate) fn total_answer(res: Result<Total, Refusal>) -> Result<Reply, Refusal>
    ensures { Says (total_answer res) result }
{
    res.map(|total| Reply::Totalled(total))
}

/// Writes the report line of this answer to the line of this number.
pub(crate) fn write_answer(
    report: &mut Report<'_>,
    number: u32,
    answer: Result<Reply, Refusal>,
) -> Result<(), Full>
    ensures same { KeepsRoom report.old report.new }
    ensures lined { Lined report.old (answer_pieces number answer) result report.new }
{
    let number = Piece::from(number);
    match answer {
        Ok(Reply::Done) => report.line(&[number, Piece::Accepted]),
        Ok(Reply::Counted(tally)) => report.line(&[
            number,
            Piece::from(tally.in_use),
            Piece::from(tally.free),
            Piece::from(tally.lines),
        ]),
        Ok(Reply::Found(None)) => report.line(&[number, Piece::Nothing]),
        Ok(Reply::Found(Some((measured, reading)))) => report.line(&[
            number,
            Piece::from(measured),
            Piece::Number(reading),
        ]),
        Ok(Reply::Totalled(total)) => report.line(&[
            number,
            Piece::from(total.count),
            Piece::Number(total.sum),
        ]),
        Err(why) => report.line(&[
            number,
            Piece::Refused,
            Piece::from(u32::from(u8::from(why))),
        ]),
    }
}
