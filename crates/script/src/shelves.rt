//! Lines on shelves: what the requests outside a sitting do.

ghost use Rattle.std.specs.Prelude.{◌≡◌, [], ◌∷◌, None};
ghost use Rattle.register.specs.Calls.{as_of, done, done_answer, line_handle, retires as retiring, stows, total};
ghost use Rattle.register.specs.Registers.{HandsBack, SameLoan, Tells};
ghost use Rattle.script.specs.Answers.{answer_to};
ghost use Rattle.script.specs.Commands.{asks, branches, opens, retires};
ghost use Rattle.script.specs.Runs.{Carried, Cleared, forward};
ghost use Rattle.script.specs.Standings.{Leads, MayLie, Ready, Resting, RunsBy};

use crate::answer::{Reply, reading_answer, total_answer};
use kinds::Name;
use register::{Line, Refusal, Refused, Register};

/// Lays a line at rest on a shelf where none lies.
pub(crate) fn lay_back(register: &mut Register<'_, Name>, line: Line, shelf: u8)
    requires { MayLie register.old (line_handle line) shelf }
    ensures told { Tells forward register.old (stows (line_handle line) shelf) done register.new }
    ensures lent { SameLoan register.old register.new }
{
    register.stow(line, shelf).unwrap();
}

/// Retires a line that is at rest.
fn end_line(register: &mut Register<'_, Name>, line: Line)
    requires { Resting register.old (line_handle line) }
    ensures told { Tells forward register.old (retiring (line_handle line)) done register.new }
    ensures lent { SameLoan register.old register.new }
{
    register.retire(line).unwrap();
}

/// Retires the line that a refused call gave back, and gives the reason.
fn end_refused(register: &mut Register<'_, Name>, refused: Refused<Line>) -> Refusal
    requires { Resting register.old (line_handle refused.handle) }
    ensures told { Tells forward register.old (retiring (line_handle refused.handle)) done register.new }
    ensures lent { SameLoan register.old register.new }
    ensures why { result ≡ refused.why }
{
    let Refused { handle, why } = refused;
    end_line(register, handle);
    why
}

/// Lays the old line back on its shelf, and then stows the new one.
fn stow_both(
    register: &mut Register<'_, Name>,
    old: Line,
    from: u8,
    new: Line,
    to: u8,
) -> Result<(), Refused<Line>>
    requires { MayLie register.old (line_handle old) from }
    ensures told { RunsBy register.old ((stows (line_handle old) from, done) ∷ (stows (line_handle new) to, done_answer result) ∷ []) register.new }
    ensures lent { SameLoan register.old register.new }
    ensures back { HandsBack new result }
{
    lay_back(register, old, from);
    register.stow(new, to)
}

/// Opens a line and stows it on the shelf. A line whose stowing is refused is retired.
pub(crate) fn open_on(register: &mut Register<'_, Name>, shelf: u8) -> Result<(), Refusal>
    requires { Ready register.old None }
    ensures leads { Leads register.old None register.new None (λ s s'. Carried s (opens shelf) (answer_to result) s') }
    ensures lent { SameLoan register.old register.new }
{
    let line = register.open_line()?;
    match register.stow(line, shelf) {
        Ok(()) => Ok(()),
        Err(refused) => Err(end_refused(register, refused)),
    }
}

/// Branches the line of a shelf, lays it back, and stows the new one on the other shelf. A new line whose stowing is
/// refused is retired.
pub(crate) fn branch_on(register: &mut Register<'_, Name>, from: u8, to: u8) -> Result<(), Refusal>
    requires { Ready register.old None }
    ensures leads { Leads register.old None register.new None (λ s s'. Carried s (branches from to) (answer_to result) s') }
    ensures lent { SameLoan register.old register.new }
{
    let line = register.fetch(from)?;
    let (old, new) = match register.branch(line) {
        Ok(lines) => lines,
        Err(refused) => {
            let Refused { handle, why } = refused;
            lay_back(register, handle, from);
            return Err(why);
        }
    };
    match stow_both(register, old, from, new, to) {
        Ok(()) => Ok(()),
        Err(refused) => Err(end_refused(register, refused)),
    }
}

/// Asks the line of the shelf for the latest reading of a name, and lays it back.
pub(crate) fn as_of_on(
    register: &mut Register<'_, Name>,
    shelf: u8,
    recorded: u32,
    name: &[u8],
    measured: u32,
) -> Result<Reply, Refusal>
    requires { Ready register.old None }
    ensures leads { Leads register.old None register.new None (λ s s'. Carried s (asks shelf recorded (as_of name.now measured)) result s') }
    ensures lent { SameLoan register.old register.new }
{
    let line = register.fetch(shelf)?;
    let answer = reading_answer(register.as_of(&line, recorded, name, measured));
    lay_back(register, line, shelf);
    answer
}

/// Asks the line of the shelf for the total of a name's readings, and lays it back.
pub(crate) fn total_on(
    register: &mut Register<'_, Name>,
    shelf: u8,
    recorded: u32,
    name: &[u8],
    from: u32,
    to: u32,
) -> Result<Reply, Refusal>
    requires { Ready register.old None }
    ensures leads { Leads register.old None register.new None (λ s s'. Carried s (asks shelf recorded (total name.now from to)) result s') }
    ensures lent { SameLoan register.old register.new }
{
    let line = register.fetch(shelf)?;
    let answer = total_answer(register.total(&line, recorded, name, from, to));
    lay_back(register, line, shelf);
    answer
}

/// Retires the line of the shelf.
pub(crate) fn retire_on(register: &mut Register<'_, Name>, shelf: u8) -> Result<(), Refusal>
    requires { Ready register.old None }
    ensures leads { Leads register.old None register.new None (λ s s'. Carried s (retires shelf) (answer_to result) s') }
    ensures lent { SameLoan register.old register.new }
{
    let line = register.fetch(shelf)?;
    end_line(register, line);
    Ok(())
}

/// Retires the lines of all shelves.
pub(crate) fn clear(register: &mut Register<'_, Name>)
    requires { Ready register.old None }
    ensures leads { Leads register.old None register.new None (λ s s'. Cleared 26 s.now s'.now) }
    ensures lent { SameLoan register.old register.new }
{
    for shelf in b'A'..=b'Z' {
        let _ = retire_on(register, shelf);
    }
}
