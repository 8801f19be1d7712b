//! The open sitting of a run: how it begins and how it ends.

ghost use Rattle.std.specs.Prelude.{◌≡◌, Some, None};
ghost use Rattle.register.specs.Calls.{abandons as abandoning, done, line_handle, sitting_handle};
ghost use Rattle.register.specs.Registers.{SameLoan, Tells};
ghost use Rattle.script.specs.Answers.{answer_to};
ghost use Rattle.script.specs.Commands.{begins, commits};
ghost use Rattle.script.specs.Runs.{Carried, Left, forward};
ghost use Rattle.script.specs.Standings.{InSitting, Leads, Ready, begun_by, commit_answer, left_open};

use crate::answer::Reply;
use crate::shelves::lay_back;
use kinds::Name;
use register::{Line, Refusal, Refused, Register, Sitting};

/// The open sitting, and the shelf that its line goes back on.
pub(crate) struct OpenSitting {
    pub(crate) sitting: Sitting,
    pub(crate) shelf: u8,
}

/// Begins a sitting on the line of the shelf. A line that is refused goes back there.
pub(crate) fn begin_on(
    register: &mut Register<'_, Name>,
    shelf: u8,
    recorded: u32,
) -> Result<OpenSitting, Refusal>
    requires { Ready register.old None }
    ensures leads { Leads register.old None register.new (begun_by result) (λ s s'. Carried s (begins shelf recorded) (answer_to result) s') }
    ensures lent { SameLoan register.old register.new }
{
    let line = register.fetch(shelf)?;
    match register.begin(line, recorded) {
        Ok(sitting) => Ok(OpenSitting { sitting, shelf }),
        Err(refused) => {
            let Refused { handle, why } = refused;
            lay_back(register, handle, shelf);
            Err(why)
        }
    }
}

/// Commits the sitting, and lays its line back. A refused commit gives the open sitting back.
pub(crate) fn commit_sitting(
    register: &mut Register<'_, Name>,
    seat: OpenSitting,
) -> Result<(), Refused<OpenSitting>>
    requires { Ready register.old (Some seat) }
    ensures leads { Leads register.old (Some seat) register.new (left_open result) (λ s s'. Carried s commits (commit_answer result) s') }
    ensures lent { SameLoan register.old register.new }
{
    let OpenSitting { sitting, shelf } = seat;
    match register.commit(sitting) {
        Ok(line) => {
            lay_back(register, line, shelf);
            Ok(())
        }
        Err(refused) => {
            let Refused { handle, why } = refused;
            Err(Refused {
                handle: OpenSitting {
                    sitting: handle,
                    shelf,
                },
                why,
            })
        }
    }
}

/// The answer to a commit, and the sitting that a refused one leaves open.
pub(crate) fn after_commit(
    res: Result<(), Refused<OpenSitting>>,
) -> (Result<Reply, Refusal>, Option<OpenSitting>)
    ensures answer { result.0 ≡ commit_answer res }
    ensures seat { result.1 ≡ left_open res }
{
    match res {
        Ok(()) => (Ok(Reply::Done), None),
        Err(refused) => {
            let Refused { handle, why } = refused;
            (Err(why), Some(handle))
        }
    }
}

/// Gives up a sitting that is open in the register.
fn give_up(register: &mut Register<'_, Name>, sitting: Sitting) -> Line
    requires { InSitting register.old (sitting_handle sitting) }
    ensures told { Tells forward register.old (abandoning (sitting_handle sitting)) done register.new }
    ensures lent { SameLoan register.old register.new }
    ensures same { line_handle result ≡ sitting_handle sitting }
{
    register.abandon(sitting).unwrap()
}

/// Abandons the sitting, and lays its line back.
pub(crate) fn abandon_sitting(register: &mut Register<'_, Name>, seat: OpenSitting)
    requires { Ready register.old (Some seat) }
    ensures leads { Leads register.old (Some seat) register.new None (λ s s'. Left s s'.now) }
    ensures lent { SameLoan register.old register.new }
{
    let OpenSitting { sitting, shelf } = seat;
    let line = give_up(register, sitting);
    lay_back(register, line, shelf);
}
