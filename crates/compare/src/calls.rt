//! The calls of a register, and how each of the two registers answers them. The proved one is given them as plain
//! values, which may have the numbers of any handle.

use kinds::NameOrder;
use naive::{Change, Entry, Failure, Handle, Total};
use register::Call::{Ask, Do};
use register::{Action, Parts, Question, Register, Reply};
use std::alloc::AllocError;

const LONGEST_NAME: usize = 16;

/// A call with the numbers of its handle, which may fit no line.
#[derive(Clone, Copy, Debug)]
pub enum Call {
    Open,
    Branch(Handle),
    Stow(Handle, u8),
    Fetch(u8),
    Retire(Handle),
    Begin(Handle, u32),
    Enter(Handle, Entry<'static>),
    Commit(Handle),
    Abandon(Handle),
    AsOf(Handle, u32, &'static [u8], u32),
    Total(Handle, u32, &'static [u8], u32, u32),
    NextName(Handle, u32, Option<&'static [u8]>),
}

/// The bytes of a name, with zero bytes behind.
#[derive(Clone, Copy, Debug, PartialEq, Eq)]
pub struct Text {
    bytes: [u8; LONGEST_NAME],
    length: usize,
}

/// What an accepted call gives.
#[derive(Clone, Copy, Debug, PartialEq, Eq)]
pub enum Answer {
    Done,
    /// The handle of a line that was opened, branched off or fetched.
    Handle(Handle),
    Reading(Option<(u32, i64)>),
    Total(Total),
    Name(Option<Text>),
    /// A tally, which plain lists cannot give.
    Tally,
}

/// What a call gives, or the number of its refusal.
pub type Outcome = Result<Answer, u8>;

impl Text {
    fn of(name: &[u8]) -> Text {
        let mut bytes = [0; LONGEST_NAME];
        for (place, byte) in bytes.iter_mut().zip(name) {
            *place = *byte;
        }
        Text {
            bytes,
            length: name.len(),
        }
    }
}

impl Call {
    pub fn is_question(self) -> bool {
        matches!(self, Call::AsOf(..) | Call::Total(..) | Call::NextName(..))
    }
}

/// The handle's numbers, as the proved register takes them.
fn parts_of(handle: Handle) -> Parts {
    Parts {
        place: handle.place,
        serial: handle.serial,
    }
}

fn entry_of(handle: Handle, entry: Entry<'static>) -> Action<'static> {
    let change = match entry.change {
        Change::Record(microhertz) => register::Change::Record(microhertz),
        Change::Correct(microhertz) => register::Change::Correct(microhertz),
        Change::Withdraw => register::Change::Withdraw,
    };
    Action::Enter(parts_of(handle), entry.name, entry.measured, change)
}

fn next_name(handle: Handle, recorded: u32, after: Option<&'static [u8]>) -> Question<'static> {
    match after {
        Some(name) => Question::NextName(parts_of(handle), recorded, name),
        None => Question::FirstName(parts_of(handle), recorded),
    }
}

/// The call as the proved register takes it.
fn plain(call: Call) -> register::Call<'static> {
    match call {
        Call::Open => Do(Action::Open),
        Call::Fetch(shelf) => Do(Action::Fetch(shelf)),
        Call::Branch(handle) => Do(Action::Branch(parts_of(handle))),
        Call::Stow(handle, shelf) => Do(Action::Stow(parts_of(handle), shelf)),
        Call::Retire(handle) => Do(Action::Retire(parts_of(handle))),
        Call::Begin(handle, recorded) => Do(Action::Begin(parts_of(handle), recorded)),
        Call::Enter(handle, entry) => Do(entry_of(handle, entry)),
        Call::Commit(handle) => Do(Action::Commit(parts_of(handle))),
        Call::Abandon(handle) => Do(Action::Abandon(parts_of(handle))),
        Call::AsOf(handle, recorded, name, measured) => {
            Ask(Question::AsOf(parts_of(handle), recorded, name, measured))
        }
        Call::Total(handle, recorded, name, from, to) => {
            Ask(Question::Total(parts_of(handle), recorded, name, from, to))
        }
        Call::NextName(handle, recorded, after) => Ask(next_name(handle, recorded, after)),
    }
}

/// What the proved register gives, in the terms of the comparison.
fn answer_of(reply: Reply) -> Answer {
    match reply {
        Reply::Done => Answer::Done,
        Reply::Handed(Parts { place, serial }) => Answer::Handle(Handle { place, serial }),
        Reply::Counted(_) => Answer::Tally,
        Reply::Found(found) => Answer::Reading(found.map(|(measured, reading)| (
            measured.seconds(),
            reading.microhertz(),
        ))),
        Reply::Totalled(tree::Total { count, sum }) => Answer::Total(Total {
            count: u64::from(count),
            sum,
        }),
        Reply::Named(name) => Answer::Name(name.map(|name| Text::of(name.text().as_bytes()))),
    }
}

/// How the proved register answers.
pub fn call_proved<N: NameOrder>(register: &mut Register<'_, N>, call: Call) -> Outcome {
    let answered = match plain(call) {
        Do(action) => register.perform(action),
        Ask(question) => register.ask(question),
    };
    match answered {
        Ok(reply) => Ok(answer_of(reply)),
        Err(why) => Err(u8::from(why)),
    }
}

/// How the register of plain lists answers. `nodes_short` says whether fewer nodes are free than an entry wants.
pub fn call_naive(
    register: &mut naive::Register<'static>,
    call: Call,
    nodes_short: bool,
) -> Result<Outcome, AllocError> {
    match answer_naive(register, call, nodes_short) {
        Ok(answer) => Ok(Ok(answer)),
        Err(Failure::Refused(why)) => Ok(Err(why.number())),
        Err(Failure::OutOfMemory) => Err(AllocError),
    }
}

fn answer_naive(
    register: &mut naive::Register<'static>,
    call: Call,
    nodes_short: bool,
) -> Result<Answer, Failure> {
    match call {
        Call::Open => Ok(Answer::Handle(register.open_line()?)),
        Call::Branch(handle) => Ok(Answer::Handle(register.branch(handle)?)),
        Call::Stow(handle, shelf) => {
            register.stow(handle, shelf)?;
            Ok(Answer::Done)
        }
        Call::Fetch(shelf) => Ok(Answer::Handle(register.fetch(shelf)?)),
        Call::Retire(handle) => {
            register.retire(handle)?;
            Ok(Answer::Done)
        }
        Call::Begin(handle, recorded) => {
            register.begin(handle, recorded)?;
            Ok(Answer::Done)
        }
        Call::Enter(handle, entry) => {
            register.enter(handle, entry, nodes_short)?;
            Ok(Answer::Done)
        }
        Call::Commit(handle) => {
            register.commit(handle, nodes_short)?;
            Ok(Answer::Done)
        }
        Call::Abandon(handle) => {
            register.abandon(handle)?;
            Ok(Answer::Done)
        }
        Call::AsOf(handle, recorded, name, measured) => {
            let reading = register.as_of(handle, recorded, name, measured)?;
            Ok(Answer::Reading(reading))
        }
        Call::Total(handle, recorded, name, from, to) => {
            let total = register.total(handle, recorded, name, from, to)?;
            Ok(Answer::Total(total))
        }
        Call::NextName(handle, recorded, after) => {
            let name = register.next_name(handle, recorded, after)?;
            Ok(Answer::Name(name.map(Text::of)))
        }
    }
}
