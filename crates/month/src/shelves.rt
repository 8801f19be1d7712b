//! Lines on shelves. Between two uses each line lies on a shelf of the register, where nobody holds it. No line is lost
//! on the way: what a refusal gives back is laid back on its shelf, and a line that no shelf takes is retired.

ghost use Rattle.std.specs.Prelude.{IfOk};
ghost use Rattle.register.specs.Calls.{line_handle, sitting_handle};
ghost use Rattle.register.specs.Registers.{IsAtRest, IsInSitting, Keeps, KeepsOthers};

use crate::moment::Span;
use crate::pages::{Entry, Page, STEP};
use kinds::{Instant, Name, Reading};
use register::{Line, Refusal, Refused, Register, Sitting};
use std::alloc::{AllocError, Global};
use tree::Total;

/// The shelf of the log of the month.
pub const LOG: u8 = b'L';

/// The shelf of a branch of the log.
pub const BRANCH: u8 = b'B';

/// Lays a line on a shelf. Where that is refused, the line is retired.
fn lay(register: &mut Register<'_, Name>, line: Line, shelf: u8) -> Result<(), Refusal>
    requires { IsAtRest register.old (line_handle line) }
    ensures lines { KeepsOthers IsAtRest (line_handle line) register.old register.new }
    ensures sittings { Keeps IsInSitting register.old register.new }
{
    match register.stow(line, shelf) {
        Ok(()) => Ok(()),
        Err(refused) => {
            let Refused { handle, why } = refused;
            register.retire(handle).unwrap();
            Err(why)
        }
    }
}

/// Lays the line that a refused call gave back on a shelf, and gives the reason of that call.
fn lay_back(register: &mut Register<'_, Name>, refused: Refused<Line>, shelf: u8) -> Refusal
    requires { IsAtRest register.old (line_handle refused.handle) }
{
    let Refused { handle, why } = refused;
    let _ = lay(register, handle, shelf);
    why
}

/// Opens a line, without a stage, on a shelf.
pub fn open(register: &mut Register<'_, Name>, shelf: u8) -> Result<(), Refusal> {
    let line = register.open_line()?;
    lay(register, line, shelf)
}

/// Branches the line of one shelf. The new line comes to lie on the other.
pub fn branch(register: &mut Register<'_, Name>, from: u8, to: u8) -> Result<(), Refusal> {
    let line = register.fetch(from)?;
    match register.branch(line) {
        Ok((old, new)) => {
            let back = lay(register, old, from);
            lay(register, new, to)?;
            back
        }
        Err(refused) => Err(lay_back(register, refused, from)),
    }
}

/// Retires the line of a shelf.
pub fn retire(register: &mut Register<'_, Name>, shelf: u8) -> Result<(), Refusal> {
    let line = register.fetch(shelf)?;
    register.retire(line).unwrap();
    Ok(())
}

/// Enters a page in one sitting. Where an entry is refused, the sitting is abandoned, and the line is as it was.
pub fn enter(register: &mut Register<'_, Name>, shelf: u8, page: &Page) -> Result<(), Refusal> {
    let sitting = begin(register, shelf, page.recorded)?;
    let entered = make_entries(register, &sitting, page.entries);
    end(register, shelf, sitting, entered)
}

/// Begins a sitting on the line of a shelf. A line that is refused is laid back.
pub(crate) fn begin(
    register: &mut Register<'_, Name>,
    shelf: u8,
    recorded: u32,
) -> Result<Sitting, Refusal>
    ensures { IfOk result (λ sitting. IsInSitting register.new (sitting_handle sitting)) }
{
    let line = register.fetch(shelf)?;
    match register.begin(line, recorded) {
        Ok(sitting) => Ok(sitting),
        Err(refused) => Err(lay_back(register, refused, shelf)),
    }
}

/// Ends a sitting and lays its line on a shelf: commits where all entries were accepted, and else abandons. A sitting
/// whose commit is refused is abandoned too.
pub(crate) fn end(
    register: &mut Register<'_, Name>,
    shelf: u8,
    sitting: Sitting,
    entered: Result<(), Refusal>,
) -> Result<(), Refusal>
    requires { IsInSitting register.old (sitting_handle sitting) }
{
    let committed = match entered {
        Ok(()) => register.commit(sitting),
        Err(why) => Err(Refused {
            handle: sitting,
            why,
        }),
    };
    match committed {
        Ok(line) => lay(register, line, shelf),
        Err(refused) => Err(give_up(register, refused, shelf)),
    }
}

/// Abandons the sitting that could not be committed and lays its line on a shelf. Gives the reason.
fn give_up(register: &mut Register<'_, Name>, refused: Refused<Sitting>, shelf: u8) -> Refusal
    requires { IsInSitting register.old (sitting_handle refused.handle) }
{
    let Refused { handle, why } = refused;
    let line = register.abandon(handle).unwrap();
    let _ = lay(register, line, shelf);
    why
}

/// Makes the entries in order, up to the first that is refused.
fn make_entries(
    register: &mut Register<'_, Name>,
    sitting: &Sitting,
    entries: &[Entry],
) -> Result<(), Refusal>
    ensures { Keeps IsInSitting register.old register.new }
{
    for entry in entries {
        make_entry(register, sitting, entry)?;
    }
    Ok(())
}

fn make_entry(
    register: &mut Register<'_, Name>,
    sitting: &Sitting,
    entry: &Entry,
) -> Result<(), Refusal>
    ensures { Keeps IsInSitting register.old register.new }
{
    match entry {
        Entry::Sweep {
            generator,
            from,
            readings,
        } => record_sweep(register, sitting, generator.as_bytes(), *from, readings),
        Entry::Correction {
            generator,
            measured,
            reading,
        } => register.correct(sitting, generator.as_bytes(), *measured, *reading),
        Entry::Withdrawal {
            generator,
            measured,
        } => register.withdraw(sitting, generator.as_bytes(), *measured),
    }
}

fn record_sweep(
    register: &mut Register<'_, Name>,
    sitting: &Sitting,
    generator: &[u8],
    from: u32,
    readings: &[i64],
) -> Result<(), Refusal>
    ensures { Keeps IsInSitting register.old register.new }
{
    let mut measured = from;
    for reading in readings {
        register.record(sitting, generator, measured, *reading)?;
        measured = measured.saturating_add(STEP);
    }
    Ok(())
}

/// The latest reading of a generator at an instant, as the line of a shelf knew it at another.
pub fn as_of(
    register: &mut Register<'_, Name>,
    shelf: u8,
    known: u32,
    generator: &[u8],
    measured: u32,
) -> Result<Option<(Instant, Reading)>, Refusal>
    ensures { Keeps IsInSitting register.old register.new }
{
    let line = register.fetch(shelf)?;
    let found = register.as_of(&line, known, generator, measured);
    lay(register, line, shelf)?;
    found
}

/// How many readings of a generator are measured in a span, and their sum.
pub fn total(
    register: &mut Register<'_, Name>,
    shelf: u8,
    known: u32,
    generator: &[u8],
    span: Span,
) -> Result<Total, Refusal>
    ensures { Keeps IsInSitting register.old register.new }
{
    let line = register.fetch(shelf)?;
    let total = register.total(&line, known, generator, span.from, span.to);
    lay(register, line, shelf)?;
    total
}

/// All generators, in the order of their names.
pub fn generators(
    alloc: Global,
    register: &mut Register<'_, Name>,
    shelf: u8,
    known: u32,
) -> anyhow::Result<Vec<Name>> {
    let mut names = Vec::new(alloc);
    let mut next = next_generator(register, shelf, known, None)?;
    // Each name has a node of its own, so there are no more names than nodes in use.
    for _ in 0..register.tally().in_use {
        let Some(name) = next else { break };
        names.push(name).map_err(AllocError::from)?;
        next = next_generator(register, shelf, known, Some(name))?;
    }
    Ok(names)
}

/// The first generator after this one, or the first of all.
fn next_generator(
    register: &mut Register<'_, Name>,
    shelf: u8,
    known: u32,
    generator: Option<Name>,
) -> Result<Option<Name>, Refusal> {
    let line = register.fetch(shelf)?;
    let next = match generator {
        None => register.first_name(&line, known),
        Some(generator) => register.next_name(&line, known, generator.text().as_bytes()),
    };
    lay(register, line, shelf)?;
    next
}
