//! The calls that are timed. They are made as plain values, so that a failure on the way may leave a line behind.

use crate::load::{self, ENTRIES, PER_SITTING, Plan, QUESTIONS, WHOLE_CARDS};
use anyhow::bail;
use kinds::Name;
use register::{Action, Answer, Change, Parts, Refusal, Register, Reply};

/// What is done at each of the entries of a round.
#[derive(Clone, Copy)]
pub enum Kind {
    Record,
    Correct,
    Withdraw,
}

impl Kind {
    pub fn title(self) -> &'static str {
        match self {
            Kind::Record => "recording",
            Kind::Correct => "correcting",
            Kind::Withdraw => "withdrawing",
        }
    }

    /// The measured instant of an entry of a round, and what is done there.
    fn entry(self, plan: Plan, i: u32) -> (u32, Change) {
        match self {
            Kind::Record => (plan.between(i), Change::Record(i64::from(i))),
            Kind::Correct => (plan.there(i), Change::Correct(i64::from(i))),
            Kind::Withdraw => (plan.there(i), Change::Withdraw),
        }
    }
}

/// What is asked in a round.
#[derive(Clone, Copy)]
pub enum Question {
    AsOf,
    ShortTotal,
    WholeTotal,
}

impl Question {
    pub fn title(self) -> &'static str {
        match self {
            Question::AsOf => "as-of",
            Question::ShortTotal => "total of 18 readings",
            Question::WholeTotal => "total of a whole card",
        }
    }

    pub fn count(self) -> u32 {
        match self {
            Question::AsOf | Question::ShortTotal => QUESTIONS,
            Question::WholeTotal => WHOLE_CARDS,
        }
    }

    /// A question of a round to a line, as a plain value.
    fn plain(self, line: Parts, plan: Plan, i: u32) -> register::Question<'static> {
        let generator = load::generator(i);
        let last = plan.last();
        match self {
            Question::AsOf => {
                register::Question::AsOf(line, plan.known(i), generator, plan.between(i))
            }
            Question::ShortTotal => {
                let (from, to) = plan.short_span(i);
                register::Question::Total(line, last, generator, from, to)
            }
            Question::WholeTotal => register::Question::Total(line, last, generator, 0, last),
        }
    }
}

/// The line that a call gives.
fn given(answer: Answer) -> anyhow::Result<Parts> {
    match answer? {
        Reply::Handed(line) => Ok(line),
        _ => bail!("no line is given"),
    }
}

/// Opens a line.
pub fn open(register: &mut Register<'_, Name>) -> anyhow::Result<Parts> {
    given(register.perform(Action::Open))
}

/// Branches a new line off another.
pub fn branch(register: &mut Register<'_, Name>, line: Parts) -> anyhow::Result<Parts> {
    given(register.perform(Action::Branch(line)))
}

/// Makes sittings one after another, each of them an hour of readings.
pub fn sit(
    register: &mut Register<'_, Name>,
    line: Parts,
    first: u32,
    count: u32,
) -> Result<(), Refusal> {
    for sitting in first..first.saturating_add(count) {
        sit_once(register, line, sitting)?;
    }
    Ok(())
}

fn sit_once(register: &mut Register<'_, Name>, line: Parts, sitting: u32) -> Result<(), Refusal> {
    register.perform(Action::Begin(line, load::recorded(sitting)))?;
    for entry in 0..PER_SITTING {
        let generator = load::generator(entry);
        let measured = load::measured(sitting, entry);
        let change = Change::Record(load::microhertz(measured));
        register.perform(Action::Enter(line, generator, measured, change))?;
    }
    register.perform(Action::Commit(line))?;
    Ok(())
}

/// Makes the entries of a round.
pub fn enter_all(
    register: &mut Register<'_, Name>,
    line: Parts,
    kind: Kind,
    plan: Plan,
) -> Result<(), Refusal> {
    for i in 0..ENTRIES {
        let (measured, change) = kind.entry(plan, i);
        register.perform(Action::Enter(line, load::generator(i), measured, change))?;
    }
    Ok(())
}

/// Asks the questions of a round, and adds the answers.
pub fn ask_all(
    register: &Register<'_, Name>,
    line: Parts,
    question: Question,
    plan: Plan,
) -> Result<i64, Refusal> {
    let mut answers = 0i64;
    for i in 0..question.count() {
        let reply = register.ask(question.plain(line, plan, i))?;
        answers = answers.wrapping_add(added(reply));
    }
    Ok(answers)
}

/// The sum of the numbers in an answer.
fn added(reply: Reply) -> i64 {
    match reply {
        Reply::Found(Some((measured, reading))) => {
            let seconds = i64::from(measured.seconds());
            reading.microhertz().wrapping_add(seconds)
        }
        Reply::Totalled(total) => total.sum.wrapping_add(i64::from(total.count)),
        _ => 0,
    }
}

/// Branches a line off another and retires it, a number of times.
pub fn branch_and_retire(
    register: &mut Register<'_, Name>,
    line: Parts,
    count: u32,
) -> anyhow::Result<()> {
    for _ in 0..count {
        let new = branch(register, line)?;
        register.perform(Action::Retire(new))?;
    }
    Ok(())
}
