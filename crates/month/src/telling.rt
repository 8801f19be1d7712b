//! What the program prints.

use crate::moment::{Moment, Span};
use crate::pages::{Entry, Page};
use crate::shelves;
use crate::shelves::{BRANCH, LOG};
use kinds::Name;
use register::Register;
use std::str;
use tree::Total;

/// Prints a page and enters it in the log.
pub fn enter(
    rt: &impl Print,
    register: &mut Register<'_, Name>,
    page: &Page,
) -> anyhow::Result<()> {
    println!(rt; "\n{}: {}", Moment(page.recorded), page.title)?;
    for entry in page.entries {
        print_entry(rt, entry)?;
    }
    match shelves::enter(register, LOG, page) {
        Ok(()) => println!(rt; "  entered")?,
        Err(why) => println!(rt; "  abandoned: refused ({}): {why}", u8::from(why))?,
    }
    Ok(())
}

fn print_entry(rt: &impl Print, entry: &Entry) -> anyhow::Result<()> {
    match entry {
        Entry::Sweep {
            generator,
            from,
            readings,
        } => {
            print!(rt; "  {generator:<5} {}:", Moment(*from))?;
            for reading in *readings {
                print!(rt; " {reading}")?;
            }
            println!(rt;)?;
        }
        Entry::Correction {
            generator,
            measured,
            reading,
        } => println!(rt;
            "  {generator:<5} {}: corrected to {reading}",
            Moment(*measured)
        )?,
        Entry::Withdrawal {
            generator,
            measured,
        } => println!(rt; "  {generator:<5} {}: withdrawn", Moment(*measured))?,
    }
    Ok(())
}

/// Prints how much of the register is in use.
pub fn print_tally(rt: &impl Print, register: &Register<'_, Name>) -> anyhow::Result<()> {
    let tally = register.tally();
    println!(rt;
        "  lines: {}, nodes in use: {}, free: {}",
        tally.lines, tally.in_use, tally.free
    )?;
    Ok(())
}

/// Prints what the log says of a generator at one date, as it was known at another.
pub fn certify(
    rt: &impl Print,
    register: &mut Register<'_, Name>,
    generator: &str,
    measured: u32,
    known: u32,
) -> anyhow::Result<()> {
    let found = shelves::as_of(register, LOG, known, generator.as_bytes(), measured)?;
    print!(rt; "  as known on {}: ", Moment(known))?;
    match found {
        None => println!(rt; "nothing")?,
        Some((measured, reading)) => {
            println!(rt;
                "{} on {}",
                reading.microhertz(),
                Moment(measured.seconds())
            )?;
        }
    }
    Ok(())
}

/// Prints the totals of the log and of the branch side by side.
pub fn compare(
    rt: &impl Print,
    register: &mut Register<'_, Name>,
    generators: &[Name],
    known: u32,
    span: Span,
) -> anyhow::Result<()> {
    for generator in generators {
        let text = generator.text();
        let name = text.as_bytes();
        let log = shelves::total(register, LOG, known, name, span)?;
        let branch = shelves::total(register, BRANCH, known, name, span)?;
        println!(rt;
            "  {:<5} log {:>2} readings, sum {:>8}; branch {:>2} readings, sum {:>8}",
            str::from_utf8(name)?,
            log.count,
            log.sum,
            branch.count,
            branch.sum
        )?;
    }
    Ok(())
}

/// Prints the exact sum of each generator's readings, and what to trim it by.
pub fn trim(
    rt: &impl Print,
    register: &mut Register<'_, Name>,
    generators: &[Name],
    known: u32,
    span: Span,
) -> anyhow::Result<()> {
    for generator in generators {
        let text = generator.text();
        let name = text.as_bytes();
        let total = shelves::total(register, LOG, known, name, span)?;
        print!(rt; "  {:<5} ", str::from_utf8(name)?)?;
        print_trim(rt, total)?;
    }
    Ok(())
}

/// Prints a sum, and the mean as a whole number and what is left of the sum.
fn print_trim(rt: &impl Print, total: Total) -> anyhow::Result<()> {
    let count = i64::from(total.count);
    let mean = total
        .sum
        .checked_div(count)
        .zip(total.sum.checked_rem(count));
    match mean {
        None => println!(rt; "no readings")?,
        Some((mean, left)) => println!(rt;
            "{count:>2} readings, sum {:>8}: mean {mean}, with {left} left over",
            total.sum
        )?,
    }
    Ok(())
}
