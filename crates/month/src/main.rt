//! A month of a bench with four signal generators: its sweeps are entered and corrected, a branch shows what would be
//! if the reference had been off, and in the end everything is retired.

#![tactic(auto)]

mod moment;
mod pages;
mod shelves;
mod telling;
mod what_if;

use kinds::Name;
use moment::{DAY, HOUR, MINUTE, Moment, Span};
use pool::Node;
use register::Register;
use shelves::{BRANCH, LOG};
use what_if::Shift;

const NODES: usize = 1024;

const FIRST_SERIAL: u32 = 1;

const MONTH: Span = Span {
    from: DAY,
    to: 31 * DAY,
};

const REFERENCE_WAS_HIGH: Shift = Shift {
    recorded: 15 * DAY + 9 * HOUR,
    span: Span {
        from: DAY,
        to: 8 * DAY,
    },
    added: -10,
};

/// What the certificate of one date says, as known on three others.
fn certify(rt: &impl Print, register: &mut Register<'_, Name>) -> anyhow::Result<()> {
    let measured = 2 * DAY + 14 * HOUR + 45 * MINUTE;
    println!(rt; "\nThe certificate of SG-7 for {}", Moment(measured))?;
    for known in [7 * DAY, 8 * DAY, 15 * DAY] {
        telling::certify(rt, register, "SG-7", measured, known)?;
    }
    Ok(())
}

/// The first half of the month: two weeks, and a certificate.
fn begin_month(rt: &impl Print, register: &mut Register<'_, Name>) -> anyhow::Result<()> {
    println!(rt; "A month of a bench with four signal generators")?;
    println!(rt; "Readings are deviations in whole microhertz.")?;
    shelves::open(register, LOG)?;
    telling::enter(rt, register, &pages::FIRST_WEEK)?;
    telling::enter(rt, register, &pages::SECOND_WEEK)?;
    certify(rt, register)
}

/// A branch is corrected while the log goes on: neither shows on the other.
fn ask_what_if(
    rt: &(impl Print + AllocGlobal),
    register: &mut Register<'_, Name>,
) -> anyhow::Result<()> {
    let shift = REFERENCE_WAS_HIGH;
    println!(rt;
        "\n{}: what if the reference was 10 high in the first week? A branch is corrected",
        Moment(shift.recorded)
    )?;
    let generators = shelves::generators(rt.alloc(), register, LOG, shift.recorded)?;
    what_if::shift_on_branch(register, &generators, &shift)?;
    telling::enter(rt, register, &pages::SPOILT)?;
    telling::enter(rt, register, &pages::THIRD_WEEK)?;
    let known = 22 * DAY;
    println!(rt; "\nThe log and the branch, as known on {}", Moment(known))?;
    let generators = shelves::generators(rt.alloc(), register, LOG, known)?;
    telling::compare(rt, register, &generators, known, MONTH)?;
    shelves::retire(register, BRANCH)?;
    println!(rt; "\nThe branch is retired")?;
    Ok(())
}

/// The end of the month: the certificate again, the totals for trimming, and the end of the log.
fn end_month(
    rt: &(impl Print + AllocGlobal),
    register: &mut Register<'_, Name>,
) -> anyhow::Result<()> {
    telling::enter(rt, register, &pages::FOURTH_WEEK)?;
    certify(rt, register)?;
    let known = 29 * DAY;
    println!(rt; "\nTotals for trimming, as known on {}", Moment(known))?;
    let generators = shelves::generators(rt.alloc(), register, LOG, known)?;
    telling::trim(rt, register, &generators, known, MONTH)?;
    shelves::retire(register, LOG)?;
    println!(rt; "\nThe log is retired")?;
    telling::print_tally(rt, register)
}

fn main(rt: HostRuntime) -> anyhow::Result<()> {
    let mut nodes = [Node::default(); NODES];
    let mut register = Register::new(&mut nodes, FIRST_SERIAL);
    begin_month(&rt, &mut register)?;
    ask_what_if(&rt, &mut register)?;
    end_month(&rt, &mut register)
}
