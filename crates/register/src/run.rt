//! Calls as plain values, with any numbers as handles, carried out one after another.

ghost use Rattle.std.specs.Prelude.{◌≡◌, min, map, true, length, take, drop, is_err, Some, None};
ghost use Rattle.register.specs.Calls.{as_of, asks, branch_answer, done_answer, enters, entry_answer, found_answer, line_answer, line_handle, name_answer, next_name, sitting_handle, total as totals, total_answer};
ghost use Rattle.register.specs.Contents.{names};
ghost use Rattle.register.specs.Law.{Ran};
ghost use Rattle.register.specs.Plain.{action_of, answer_of, call_of, question_of};
ghost use Rattle.register.specs.Registers.{Answers, SameLoan, Tells};
ghost use Rattle.register.specs.Shown.{newly_made};

use crate::entries::Change;
use crate::handle::{Handle, Line, Parts, Refused, Sitting};
use crate::questions::Tally;
use crate::refusal::Refusal;
use crate::register::Register;
use kinds::{Instant, Name, NameOrder, Reading};
use pool::Node;
use tree::Total;

/// A call that may change a register. Names are any bytes.
#[derive(Clone, Copy)]
pub enum Action<'c> {
    Open,
    Branch(Parts),
    /// A sitting at a recorded instant.
    Begin(Parts, u32),
    /// At a name and a measured instant.
    Enter(Parts, &'c [u8], u32, Change),
    Commit(Parts),
    Abandon(Parts),
    /// On a shelf.
    Stow(Parts, u8),
    Fetch(u8),
    Retire(Parts),
}

/// A call that changes nothing. All but the tally ask a line as of a recorded instant.
#[derive(Clone, Copy)]
pub enum Question<'c> {
    Tally,
    /// The latest reading of a name up to a measured instant.
    AsOf(Parts, u32, &'c [u8], u32),
    /// The readings of a name from one measured instant to another.
    Total(Parts, u32, &'c [u8], u32, u32),
    FirstName(Parts, u32),
    NextName(Parts, u32, &'c [u8]),
}

/// A call on a register.
#[derive(Clone, Copy)]
pub enum Call<'c> {
    Do(Action<'c>),
    Ask(Question<'c>),
}

/// What an accepted call gives.
#[derive(Clone, Copy)]
pub enum Reply {
    Done,
    Handed(Parts),
    Counted(Tally),
    Found(Option<(Instant, Reading)>),
    Totalled(Total),
    Named(Option<Name>),
}

/// The answer to a call: what it gives, or why it is declined.
pub type Answer = Result<Reply, Refusal>;

/// The numbers of a handle; the handle is no more.
fn numbers_of<S>(handle: Handle<S>) -> Parts
    ensures place { result.place ≡ handle.place }
    ensures serial { result.serial ≡ handle.serial }
{
    let (place, serial) = handle.into_parts();
    Parts { place, serial }
}

/// Why a call was declined. The handle that comes back is no more: the caller has its numbers.
fn reason<S>(refused: Refused<Handle<S>>) -> Refusal
    ensures { result ≡ refused.why }
{
    let Refused { handle, why } = refused;
    let _ = handle.into_parts();
    why
}

/// The answer of a call that gives a line.
fn handed(res: Result<Line, Refusal>) -> Answer
    ensures answer { answer_of result ≡ line_answer res }
    ensures declined { is_err result ≡ is_err res }
{
    res.map(|line| Reply::Handed(numbers_of(line)))
}

/// The answer of a branching: the new line.
fn branched(res: Result<(Line, Line), Refused<Line>>) -> Answer
    ensures answer { answer_of result ≡ branch_answer res }
    ensures declined { is_err result ≡ is_err res }
{
    match res {
        Ok((old, new)) => {
            let _ = old.into_parts();
            Ok(Reply::Handed(numbers_of(new)))
        }
        Err(refused) => Err(reason(refused)),
    }
}

/// The answer of a call that ends with a line.
fn spent(res: Result<(), Refused<Line>>) -> Answer
    ensures answer { answer_of result ≡ done_answer res }
    ensures declined { is_err result ≡ is_err res }
{
    match res {
        Ok(()) => Ok(Reply::Done),
        Err(refused) => Err(reason(refused)),
    }
}

/// The answer of a call that begins a sitting or ends one.
fn turned<S, T>(res: Result<Handle<S>, Refused<Handle<T>>>) -> Answer
    ensures answer { answer_of result ≡ done_answer res }
    ensures declined { is_err result ≡ is_err res }
{
    match res {
        Ok(handle) => {
            let _ = handle.into_parts();
            Ok(Reply::Done)
        }
        Err(refused) => Err(reason(refused)),
    }
}

/// The answer of an entry.
fn entered(res: Result<(), Refusal>) -> Answer
    ensures answer { answer_of result ≡ entry_answer res }
    ensures declined { is_err result ≡ is_err res }
{
    res.map(|_| Reply::Done)
}

/// The answer of a question for a reading.
fn found(res: Result<Option<(Instant, Reading)>, Refusal>) -> Answer
    ensures { answer_of result ≡ found_answer res }
{
    res.map(|reading| Reply::Found(reading))
}

/// The answer of a question for a total.
fn totalled(res: Result<Total, Refusal>) -> Answer
    ensures { answer_of result ≡ total_answer res }
{
    res.map(|total| Reply::Totalled(total))
}

/// The answer of a question for a name.
fn named(res: Result<Option<Name>, Refusal>) -> Answer
    ensures { answer_of result ≡ name_answer res }
{
    res.map(|name| Reply::Named(name))
}

impl Parts {
    fn line(self) -> Line
        ensures { line_handle result ≡ self }
    {
        Line::from_parts(self.place, self.serial)
    }

    fn sitting(self) -> Sitting
        ensures { sitting_handle result ≡ self }
    {
        Sitting::from_parts(self.place, self.serial)
    }
}

impl<'m, N: NameOrder> Register<'m, N> {
    /// Makes an entry in the sitting of this handle.
    fn enter_at(&mut self, handle: Parts, name: &[u8], measured: u32, change: Change) -> Answer
        ensures told { Tells (names N.Key.words N.Key.key N.cmp N.NameOrder.named N.NameOrder.name) self.old (enters handle name.now measured change) (answer_of result) self.new }
        ensures lent { SameLoan self.old self.new }
        ensures same { is_err result ≡ true → self.new ≡ self.old }
    {
        let sitting = handle.sitting();
        let result = self.enter(&sitting, name, measured, change);
        let _ = sitting.into_parts();
        entered(result)
    }

    /// Asks the line of this handle for a reading.
    fn as_of_at(&self, handle: Parts, recorded: u32, name: &[u8], measured: u32) -> Answer
        ensures { Answers (names N.Key.words N.Key.key N.cmp N.NameOrder.named N.NameOrder.name) self.now (asks handle recorded (as_of name.now measured)) (answer_of result) }
    {
        let line = handle.line();
        let result = self.as_of(&line, recorded, name, measured);
        let _ = line.into_parts();
        found(result)
    }

    /// Asks the line of this handle for a total.
    fn total_at(&self, handle: Parts, recorded: u32, name: &[u8], from: u32, to: u32) -> Answer
        ensures { Answers (names N.Key.words N.Key.key N.cmp N.NameOrder.named N.NameOrder.name) self.now (asks handle recorded (totals name.now from to)) (answer_of result) }
    {
        let line = handle.line();
        let result = self.total(&line, recorded, name, from, to);
        let _ = line.into_parts();
        totalled(result)
    }

    /// Asks the line of this handle for its first name.
    fn first_name_at(&self, handle: Parts, recorded: u32) -> Answer
        ensures { Answers (names N.Key.words N.Key.key N.cmp N.NameOrder.named N.NameOrder.name) self.now (asks handle recorded (next_name None)) (answer_of result) }
    {
        let line = handle.line();
        let result = self.first_name(&line, recorded);
        let _ = line.into_parts();
        named(result)
    }

    /// Asks the line of this handle for the name after this one.
    fn next_name_at(&self, handle: Parts, recorded: u32, name: &[u8]) -> Answer
        ensures { Answers (names N.Key.words N.Key.key N.cmp N.NameOrder.named N.NameOrder.name) self.now (asks handle recorded (next_name (Some name.now))) (answer_of result) }
    {
        let line = handle.line();
        let result = self.next_name(&line, recorded, name);
        let _ = line.into_parts();
        named(result)
    }

    /// Carries out an action.
    pub fn perform(&mut self, action: Action<'_>) -> Answer
        ensures told { Tells (names N.Key.words N.Key.key N.cmp N.NameOrder.named N.NameOrder.name) self.old (action_of action.entry) (answer_of result) self.new }
        ensures lent { SameLoan self.old self.new }
        ensures same { is_err result ≡ true → self.new ≡ self.old }
    {
        match action {
            Action::Open => handed(self.open_line()),
            Action::Branch(handle) => branched(self.branch(handle.line())),
            Action::Begin(handle, recorded) => turned(self.begin(handle.line(), recorded)),
            Action::Enter(handle, name, measured, change) => self.enter_at(
                handle, name, measured, change,
            ),
            Action::Commit(handle) => turned(self.commit(handle.sitting())),
            Action::Abandon(handle) => turned(self.abandon(handle.sitting())),
            Action::Stow(handle, letter) => spent(self.stow(handle.line(), letter)),
            Action::Fetch(letter) => handed(self.fetch(letter)),
            Action::Retire(handle) => spent(self.retire(handle.line())),
        }
    }

    /// Answers a question.
    pub fn ask(&self, question: Question<'_>) -> Answer
        ensures { Answers (names N.Key.words N.Key.key N.cmp N.NameOrder.named N.NameOrder.name) self.now (question_of question.entry) (answer_of result) }
    {
        match question {
            Question::Tally => Ok(Reply::Counted(self.tally())),
            Question::AsOf(handle, recorded, name, measured) => self.as_of_at(
                handle, recorded, name, measured,
            ),
            Question::Total(handle, recorded, name, from, to) => self.total_at(
                handle, recorded, name, from, to,
            ),
            Question::FirstName(handle, recorded) => self.first_name_at(handle, recorded),
            Question::NextName(handle, recorded, name) => self.next_name_at(handle, recorded, name),
        }
    }
}

/// How many calls are carried out: as many as there is room for answers.
fn turns(calls: &[Call<'_>], answers: &[Answer]) -> usize
    ensures { result ≡ min (length calls.now) (length answers.now) }
{
    calls.len().min(answers.len())
}

/// Carries out the first calls, so many as `most` says, on a register newly made over this memory, and writes their answers.
fn carry_out<N: NameOrder>(
    memory: &mut [Node],
    first_serial: u32,
    calls: &[Call<'_>],
    answers: &mut [Answer],
    most: usize,
)
    requires { most ≡ min (length calls.now) (length answers.old) }
    ensures ran { Ran (names N.Key.words N.Key.key N.cmp N.NameOrder.named N.NameOrder.name) (newly_made (min (length memory.old) 65535) first_serial) (map call_of (take most calls.now)) (map answer_of (take most answers.new)) (take 65535 memory.new) }
    ensures rest { drop most answers.new ≡ drop most answers.old }
    ensures beyond { drop 65535 memory.new ≡ drop 65535 memory.old }
{
    let mut register = Register::<N>::new(memory, first_serial);
    for turn in 0..most {
        answers[turn] = match calls[turn] {
            Call::Do(action) => register.perform(action),
            Call::Ask(question) => register.ask(question),
        };
    }
}

/// Carries out calls one after another on a register newly made over this memory, and writes their answers.
/// As many calls are carried out as there is room for answers; their number is given. The register ends with the run: the memory is
/// its lender's again, and the nodes, the first 65,535 at most, are as the last call left them. What lies behind them is not written.
pub fn run_calls<N: NameOrder>(
    memory: &mut [Node],
    first_serial: u32,
    calls: &[Call<'_>],
    answers: &mut [Answer],
) -> usize
    ensures count { result ≡ min (length calls.now) (length answers.old) }
    ensures ran { Ran (names N.Key.words N.Key.key N.cmp N.NameOrder.named N.NameOrder.name) (newly_made (min (length memory.old) 65535) first_serial) (map call_of (take result calls.now)) (map answer_of (take result answers.new)) (take 65535 memory.new) }
    ensures rest { drop result answers.new ≡ drop result answers.old }
    ensures beyond { drop 65535 memory.new ≡ drop 65535 memory.old }
{
    let most = turns(calls, answers);
    carry_out::<N>(memory, first_serial, calls, answers, most);
    most
}
