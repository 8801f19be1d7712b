//! The rounds in which each kind of work is timed.

use crate::load::{ENTRIES, Plan, recorded};
use crate::log::{self, Kind, Question};
use crate::watch::Work;
use kinds::Name;
use register::{Action, Parts, Register};
use std::rt::Clock;
use std::time::Instant;

/// The branches of a round.
const BRANCHES: u32 = 64;

/// The sittings of a round, made on a branch of the full log.
const SITTINGS: u32 = 8;

/// What was found at one size of the log.
#[derive(Clone, Copy)]
pub struct Found {
    /// The nodes in use by the full log.
    pub nodes: u32,
    /// The sum of all answers, by which two programs are compared.
    pub answers: i64,
    pub works: [Work; 10],
}

/// Fills a log, times each kind of work on it and retires it, and times how logs are filled and retired.
pub fn time_all(
    rt: &impl Clock,
    register: &mut Register<'_, Name>,
    plan: Plan,
) -> anyhow::Result<Found> {
    let line = log::open(register)?;
    log::sit(register, line, 0, plan.sittings)?;
    let nodes = register.tally().in_use;
    let recording = enter(rt, register, line, Kind::Record, plan)?;
    let correcting = enter(rt, register, line, Kind::Correct, plan)?;
    let withdrawing = enter(rt, register, line, Kind::Withdraw, plan)?;
    let (answers, [as_of, short, whole]) = ask_all(rt, register, line, plan)?;
    let sitting = sit(rt, register, line, plan)?;
    let branching = branch(rt, register, line, plan)?;
    register.perform(Action::Retire(line))?;
    let (filling, retiring) = fill_and_retire(rt, register, plan)?;
    let works = [
        filling,
        recording,
        correcting,
        withdrawing,
        as_of,
        short,
        whole,
        sitting,
        branching,
        retiring,
    ];
    Ok(Found {
        nodes,
        answers,
        works,
    })
}

/// Makes entries of one kind, in a sitting that is abandoned.
fn enter(
    rt: &impl Clock,
    register: &mut Register<'_, Name>,
    line: Parts,
    kind: Kind,
    plan: Plan,
) -> anyhow::Result<Work> {
    let mut work = Work::new(kind.title(), ENTRIES);
    for _ in 0..plan.rounds {
        register.perform(Action::Begin(line, recorded(plan.sittings)))?;
        let start = Instant::now(rt)?;
        log::enter_all(register, line, kind, plan)?;
        work.take_round(rt, start)?;
        register.perform(Action::Abandon(line))?;
    }
    Ok(work)
}

/// Asks all kinds of questions.
fn ask_all(
    rt: &impl Clock,
    register: &Register<'_, Name>,
    line: Parts,
    plan: Plan,
) -> anyhow::Result<(i64, [Work; 3])> {
    let (a, as_of) = ask(rt, register, line, Question::AsOf, plan)?;
    let (b, short) = ask(rt, register, line, Question::ShortTotal, plan)?;
    let (c, whole) = ask(rt, register, line, Question::WholeTotal, plan)?;
    let answers = a.wrapping_add(b).wrapping_add(c);
    Ok((answers, [as_of, short, whole]))
}

fn ask(
    rt: &impl Clock,
    register: &Register<'_, Name>,
    line: Parts,
    question: Question,
    plan: Plan,
) -> anyhow::Result<(i64, Work)> {
    let mut work = Work::new(question.title(), question.count());
    let mut answers = 0;
    for _ in 0..plan.rounds {
        let start = Instant::now(rt)?;
        answers = log::ask_all(register, line, question, plan)?;
        work.take_round(rt, start)?;
    }
    Ok((answers, work))
}

/// Makes whole sittings, on a branch that is retired.
fn sit(
    rt: &impl Clock,
    register: &mut Register<'_, Name>,
    line: Parts,
    plan: Plan,
) -> anyhow::Result<Work> {
    let mut work = Work::new("sitting", SITTINGS);
    for _ in 0..plan.rounds {
        let new = log::branch(register, line)?;
        let start = Instant::now(rt)?;
        log::sit(register, new, plan.sittings, SITTINGS)?;
        work.take_round(rt, start)?;
        register.perform(Action::Retire(new))?;
    }
    Ok(work)
}

/// Branches and retires.
fn branch(
    rt: &impl Clock,
    register: &mut Register<'_, Name>,
    line: Parts,
    plan: Plan,
) -> anyhow::Result<Work> {
    let mut work = Work::new("branch and retire", BRANCHES);
    for _ in 0..plan.rounds {
        let start = Instant::now(rt)?;
        log::branch_and_retire(register, line, BRANCHES)?;
        work.take_round(rt, start)?;
    }
    Ok(work)
}

/// Fills a log and retires it.
fn fill_and_retire(
    rt: &impl Clock,
    register: &mut Register<'_, Name>,
    plan: Plan,
) -> anyhow::Result<(Work, Work)> {
    let mut filling = Work::new("sitting, while the log grows", plan.sittings);
    let mut retiring = Work::new("retire the log", 1);
    for _ in 0..plan.rounds {
        let line = log::open(register)?;
        let start = Instant::now(rt)?;
        log::sit(register, line, 0, plan.sittings)?;
        filling.take_round(rt, start)?;
        let start = Instant::now(rt)?;
        register.perform(Action::Retire(line))?;
        retiring.take_round(rt, start)?;
    }
    Ok((filling, retiring))
}
