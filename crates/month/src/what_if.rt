//! What the log would say if the reference had been off: the same corrections on a branch of it.

ghost use Rattle.register.specs.Registers.{IsInSitting, Keeps};

use crate::moment::Span;
use crate::shelves;
use crate::shelves::{BRANCH, LOG};
use kinds::Name;
use register::{Refusal, Register, Sitting};

/// The question to a branch: from when to when the reference was off, and what is to be added to each reading.
#[derive(Clone, Copy)]
pub struct Shift {
    pub recorded: u32,
    pub span: Span,
    pub added: i64,
}

/// Branches the log, and shifts the readings of these generators on the branch.
pub fn shift_on_branch(
    register: &mut Register<'_, Name>,
    generators: &[Name],
    shift: &Shift,
) -> Result<(), Refusal> {
    shelves::branch(register, LOG, BRANCH)?;
    let sitting = shelves::begin(register, BRANCH, shift.recorded)?;
    let entered = shift_all(register, &sitting, generators, shift);
    shelves::end(register, BRANCH, sitting, entered)
}

fn shift_all(
    register: &mut Register<'_, Name>,
    sitting: &Sitting,
    generators: &[Name],
    shift: &Shift,
) -> Result<(), Refusal>
    ensures { Keeps IsInSitting register.old register.new }
{
    for generator in generators {
        shift_one(register, sitting, generator.text().as_bytes(), shift)?;
    }
    Ok(())
}

/// Corrects the readings of a generator, from the latest to the earliest. A line in a sitting answers no question, so the
/// log is asked, which has the same readings.
fn shift_one(
    register: &mut Register<'_, Name>,
    sitting: &Sitting,
    generator: &[u8],
    shift: &Shift,
) -> Result<(), Refusal>
    ensures { Keeps IsInSitting register.old register.new }
{
    let known = shift.recorded;
    let count = shelves::total(register, LOG, known, generator, shift.span)?.count;
    let mut latest = shift.span.to;
    for _ in 0..count {
        let Some((measured, reading)) = shelves::as_of(register, LOG, known, generator, latest)?
        else {
            break;
        };
        let shifted = reading.microhertz().saturating_add(shift.added);
        register.correct(sitting, generator, measured.seconds(), shifted)?;
        latest = measured.seconds().saturating_sub(1);
    }
    Ok(())
}
