//! Runs scripts and calls, made from a seed, on the proved register and on one of plain lists, and compares what they
//! answer. Arguments: the first seed, the number of scripts, and the number of runs of calls under each order of names.

#![tactic(auto)]

mod call_maker;
mod calls;
mod counts;
mod memory;
mod random;
mod samples;
mod script_maker;
mod scripts;
mod tail_first;
mod trials;

use anyhow::{Context, bail};
use counts::{Answers, COMMANDS, Counts, REFUSALS};
use kinds::{BackwardName, Name};
use memory::Memory;
use naive::Order;
use scripts::{Difference, compare_script};
use std::alloc::AllocError;
use std::io::Write;
use tail_first::TailFirst;
use trials::{CallDifference, compare_calls};

const SEED: u64 = 1;

const SCRIPTS: u64 = 2000;

const RUNS: u64 = 200;

/// A number that is given as an argument, or else the other.
fn argument(rt: &HostRuntime, position: usize, other: u64) -> anyhow::Result<u64> {
    match std::env::args(rt)?.nth(position) {
        Some(text) => text.parse::<u64>().context("a seed or a count"),
        None => Ok(other),
    }
}

/// Prints the script, and the first lines of the two reports that are not the same.
fn show(rt: &HostRuntime, difference: &Difference) -> anyhow::Result<()> {
    let lent = difference.lent;
    println!(rt;
        "{} nodes, first serial {}, room {}",
        lent.nodes, lent.first_serial, lent.room
    )?;
    rt.stdout().write_all(difference.script.as_slice())?;
    let (line, naive_line) = difference.lines();
    println!(rt;
        "\nthe report, ended with {}, has the line:",
        difference.stopped
    )?;
    rt.stdout().write_all(line)?;
    let naive_stopped = difference.naive_stopped();
    println!(rt; "\nthe report from plain lists, ended with {naive_stopped}, has in its place:")?;
    rt.stdout().write_all(naive_line)?;
    println!(rt;)?;
    Ok(())
}

fn show_call(rt: &HostRuntime, difference: CallDifference) -> anyhow::Result<()> {
    let CallDifference {
        call,
        answer,
        wanted,
        before,
        after,
    } = difference;
    println!(rt; "the call {call:?}")?;
    println!(rt; "answered {answer:?}, and by plain lists {wanted:?}")?;
    println!(rt;
        "before it {} nodes in use and {} free, after it {} and {}",
        before.in_use, before.free, after.in_use, after.free
    )?;
    Ok(())
}

fn print_answers(rt: &HostRuntime, answers: &Answers) -> anyhow::Result<()> {
    for (number, count) in (0..REFUSALS).zip(answers.refusals) {
        if number > 0 && count > 0 {
            println!(rt; "  refused with {number}: {count}")?;
        }
    }
    println!(rt;
        "  questions with an answer: {}, with none: {}",
        answers.found, answers.none
    )?;
    Ok(())
}

fn print_counts(rt: &HostRuntime, counts: &Counts) -> anyhow::Result<()> {
    println!(rt;
        "{} scripts with {} lines",
        counts.scripts, counts.answers.all
    )?;
    for (letter, count) in COMMANDS.iter().zip(counts.commands) {
        println!(rt; "  command {}: {count}", char::from(*letter))?;
    }
    print_answers(rt, &counts.answers)
}

fn compare_scripts(
    rt: &HostRuntime,
    first: u64,
    scripts: u64,
    memory: &mut Memory,
) -> anyhow::Result<()> {
    let mut counts = Counts::new();
    for index in 0..scripts {
        let seed = first.wrapping_add(index);
        if let Some(difference) = compare_script(rt.alloc(), seed, memory, &mut counts)? {
            show(rt, &difference)?;
            bail!("the reports of the script of seed {seed} differ");
        }
    }
    print_counts(rt, &counts)
}

/// Compares the calls of one seed under one order.
fn compare_run(
    rt: &HostRuntime,
    order: Order,
    seed: u64,
    memory: &mut Memory,
    counts: &mut Answers,
) -> Result<Option<CallDifference>, AllocError> {
    match order {
        Order::Forward => compare_calls::<Name>(rt.alloc(), order, seed, memory, counts),
        Order::Backward => compare_calls::<BackwardName>(rt.alloc(), order, seed, memory, counts),
        Order::TailFirst => compare_calls::<TailFirst>(rt.alloc(), order, seed, memory, counts),
    }
}

fn compare_runs(
    rt: &HostRuntime,
    order: Order,
    first: u64,
    runs: u64,
    memory: &mut Memory,
) -> anyhow::Result<()> {
    let mut counts = Answers::new();
    for index in 0..runs {
        let seed = first.wrapping_add(index);
        if let Some(difference) = compare_run(rt, order, seed, memory, &mut counts)? {
            show_call(rt, difference)?;
            bail!("the calls of seed {seed} differ under the order {order:?}");
        }
    }
    println!(rt;
        "{runs} runs under the order {order:?} with {} calls",
        counts.all
    )?;
    print_answers(rt, &counts)
}

fn main(rt: HostRuntime) -> anyhow::Result<()> {
    let first = argument(&rt, 1, SEED)?;
    let scripts = argument(&rt, 2, SCRIPTS)?;
    let runs = argument(&rt, 3, RUNS)?;
    let mut memory = Memory::new(rt.alloc())?;
    compare_scripts(&rt, first, scripts, &mut memory)?;
    for order in [Order::Forward, Order::Backward, Order::TailFirst] {
        compare_runs(&rt, order, first, runs, &mut memory)?;
    }
    println!(rt; "no differences")?;
    Ok(())
}
