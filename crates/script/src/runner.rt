//! Runs a script in a register of its own.

ghost use Rattle.std.specs.Prelude.{◌≡◌, ◌<◌, ◌≤◌, min, length, drop, take, Some, None, MatchResult};
ghost use Rattle.register.specs.Registers.{SameLoan, ShownBy};
ghost use Rattle.register.specs.Runs.{Moment};
ghost use Rattle.register.specs.Shown.{Shown};
ghost use Rattle.register.specs.declared.refusal.Refusal.TheVariants.{ReportFull};
ghost use Rattle.script.specs.Fields.{left};
ghost use Rattle.report.specs.Report.{KeepsRoom, used};
ghost use Rattle.script.specs.Commands.{requested};
ghost use Rattle.script.specs.Runs.{Answered, Carried, Ended, forward};
ghost use Rattle.script.specs.Standings.{Leads, Ready, Stands, moment, standing};
ghost use Rattle.script.specs.Scripts.{Finished, RanLine, RanLines, TooLong};
ghost use Rattle.script.specs.Whole.{RanScript};

use crate::answer::{Reply, answer_to, write_answer};
use crate::command::{Command, read_command};
use crate::lexer::Lexer;
use crate::script_lines::ScriptLines;
use crate::shelves::{as_of_on, branch_on, clear, open_on, retire_on, total_on};
use crate::sitting::{OpenSitting, abandon_sitting, after_commit, begin_on, commit_sitting};
use kinds::Name;
use pool::Node;
use register::{Refusal, Register};
use report::{Full, Piece, Report};
use thiserror::Error;

/// The longest script that is run, in bytes.
const LONGEST_SCRIPT: usize = 32768;

/// A run that was refused: how long the report is, and why it stopped.
#[derive(Clone, Copy, Debug, Error)]
#[error("refused ({}): {why}", u8::from(*.why))]
pub struct Stopped {
    pub length: usize,
    pub why: Refusal,
}

/// Carries out a command outside a sitting.
fn answer_outside(
    register: &mut Register<'_, Name>,
    command: Command<'_>,
) -> (Result<Reply, Refusal>, Option<OpenSitting>)
    requires { Ready register.old None }
    ensures leads { Leads register.old None register.new result.1 (λ s s'. Carried s (requested command.entry) result.0 s') }
    ensures lent { SameLoan register.old register.new }
{
    match command {
        Command::Open { shelf } => (answer_to(open_on(register, shelf)), None),
        Command::Branch { from, to } => (answer_to(branch_on(register, from, to)), None),
        Command::Begin { shelf, recorded } => match begin_on(register, shelf, recorded) {
            Ok(seat) => (Ok(Reply::Done), Some(seat)),
            Err(why) => (Err(why), None),
        },
        Command::AsOf {
            shelf,
            recorded,
            name,
            measured,
        } => (as_of_on(register, shelf, recorded, name, measured), None),
        Command::Total {
            shelf,
            recorded,
            name,
            from,
            to,
        } => (total_on(register, shelf, recorded, name, from, to), None),
        Command::Retire { shelf } => (answer_to(retire_on(register, shelf)), None),
        Command::Tally => (Ok(Reply::Counted(register.tally())), None),
        _ => (Err(Refusal::OutOfPlace), None),
    }
}

/// Carries out a command inside the open sitting.
fn answer_inside(
    register: &mut Register<'_, Name>,
    seat: OpenSitting,
    command: Command<'_>,
) -> (Result<Reply, Refusal>, Option<OpenSitting>)
    requires { Ready register.old (Some seat) }
    ensures leads { Leads register.old (Some seat) register.new result.1 (λ s s'. Carried s (requested command.entry) result.0 s') }
    ensures lent { SameLoan register.old register.new }
{
    match command {
        Command::Record {
            name,
            measured,
            reading,
        } => {
            let entry = register.record(&seat.sitting, name, measured, reading);
            (answer_to(entry), Some(seat))
        }
        Command::Correct {
            name,
            measured,
            reading,
        } => {
            let entry = register.correct(&seat.sitting, name, measured, reading);
            (answer_to(entry), Some(seat))
        }
        Command::Withdraw { name, measured } => {
            let entry = register.withdraw(&seat.sitting, name, measured);
            (answer_to(entry), Some(seat))
        }
        Command::Commit => after_commit(commit_sitting(register, seat)),
        Command::Abandon => {
            abandon_sitting(register, seat);
            (Ok(Reply::Done), None)
        }
        _ => (Err(Refusal::OutOfPlace), Some(seat)),
    }
}

/// Carries out the command of a line.
fn answer(
    register: &mut Register<'_, Name>,
    seat: Option<OpenSitting>,
    fields: Lexer<'_>,
) -> (Result<Reply, Refusal>, Option<OpenSitting>)
    requires { Ready register.old seat }
    ensures leads { Leads register.old seat register.new result.1 (λ s s'. Answered s (left fields.entry) result.0 s') }
    ensures lent { SameLoan register.old register.new }
{
    match read_command(fields) {
        None => (Err(Refusal::Unreadable), seat),
        Some(command) => match seat {
            None => answer_outside(register, command),
            Some(seat) => answer_inside(register, seat, command),
        },
    }
}

/// Abandons an open sitting, and retires the lines of all shelves.
fn give_everything_up(register: &mut Register<'_, Name>, seat: Option<OpenSitting>)
    requires { Ready register.old seat }
    ensures leads { Leads register.old seat register.new None (λ s s'. Ended s'.now s s'.now.shown.used) }
    ensures lent { SameLoan register.old register.new }
{
    match seat {
        None => {}
        Some(seat) => abandon_sitting(register, seat),
    }
    clear(register);
}

/// The nodes in use.
fn nodes_in_use(register: &Register<'_, Name>) -> u32
    ensures { (s : Shown) → ShownBy forward register.now s → result ≡ s.used }
{
    register.tally().in_use
}

/// How many lines of a script came so far, and how many of them were refused. The register and the report are no fields: with them as
/// fields, a proof knows nothing of the lent memory after a call. Nor is the open sitting: a handle is moved by each call that it is
/// for, and nothing is moved out from behind a `&mut`.
#[derive(Clone, Copy, Default)]
struct Progress {
    lines: u32,
    refused: u32,
}

impl Progress {
    /// Carries out the line of these fields, and reports it. Gives the sitting that is open then.
    fn run_line(
        &mut self,
        register: &mut Register<'_, Name>,
        seat: Option<OpenSitting>,
        report: &mut Report<'_>,
        fields: Lexer<'_>,
    ) -> (Result<(), Full>, Option<OpenSitting>)
        requires few { self.old.refused < 32768 }
        requires ready { Ready register.old seat }
        ensures same { KeepsRoom report.old report.new }
        ensures counted { self.new.lines ≡ self.old.lines }
        ensures ran { Leads register.old seat register.new result.1 (λ s s'. RanLine Answered self.old.lines (left fields.entry) result.0 s s' self.old.refused self.new.refused report.old report.new) }
        ensures lent { SameLoan register.old register.new }
    {
        let (answer, seat) = answer(register, seat, fields);
        self.refused += u32::from(answer.is_err());
        (write_answer(report, self.lines, answer), seat)
    }

    /// Carries out the lines of the script and reports each that is not empty, up to the first whose report line does not
    /// fit. Gives the sitting that is open then.
    fn run_lines(
        &mut self,
        register: &mut Register<'_, Name>,
        report: &mut Report<'_>,
        script: &[u8],
    ) -> (Result<(), Full>, Option<OpenSitting>)
        requires short { length script.now ≤ 32768 }
        requires first { (self.old.lines ≡ 0) × (self.old.refused ≡ 0) }
        requires ready { Ready register.old None }
        ensures same { KeepsRoom report.old report.new }
        ensures ran { Leads register.old None register.new result.1 (λ s s'. used report.old ≡ 0 → (end : Moment) → RanLines Answered (Ended end) s script.now result.0 self.new s' report.new) }
        ensures lent { SameLoan register.old register.new }
    {
        let mut seat = None;
        for line in ScriptLines::new(script) {
            self.lines += 1;
            if line.is_empty() {
                continue;
            }
            let (ran, next) = self.run_line(register, seat, report, line.fields());
            seat = next;
            if ran.is_err() {
                return (ran, seat);
            }
        }
        (Ok(()), seat)
    }
}

/// Carries out the script and writes its report, up to the first line that does not fit. Everything is given up then.
fn run_whole(
    register: &mut Register<'_, Name>,
    report: &mut Report<'_>,
    script: &[u8],
) -> Result<(), Full>
    requires short { length script.now ≤ 32768 }
    requires ready { Ready register.old None }
    ensures same { KeepsRoom report.old report.new }
    ensures finished { (s : Shown) → Stands register.old None s → used report.old ≡ 0 → (s' : Shown) × ShownBy forward register.new s' × (s'.used ≡ 0) × Finished Answered (Ended (moment register.new s')) (standing register.old s None) script.now result report.new }
    ensures lent { SameLoan register.old register.new }
{
    let mut progress = Progress::default();
    let (ran, seat) = progress.run_lines(register, report, script);
    give_everything_up(register, seat);
    ran?;
    report.line(&[
        Piece::End,
        Piece::from(progress.lines),
        Piece::from(progress.refused),
        Piece::from(nodes_in_use(register)),
    ])
}

/// Runs a script that is short enough in a register made over `nodes`, and writes its report into `out`.
fn run_short(
    script: &[u8],
    nodes: &mut [Node],
    first_serial: u32,
    out: &mut [u8],
) -> Result<usize, Stopped>
    requires { length script.now ≤ 32768 }
    ensures within { MatchResult result (λ n. n ≤ length out.old) (λ stopped. stopped.length ≤ length out.old) }
    ensures beyond { drop 65535 nodes.new ≡ drop 65535 nodes.old }
    ensures ran { RanScript (min (length nodes.old) 65535) first_serial script.now result out.old out.new (take 65535 nodes.new) }
{
    let mut register = Register::new(nodes, first_serial);
    let mut report = Report::new(out);
    let whole = run_whole(&mut register, &mut report, script);
    let length = report.len();
    let why = Refusal::ReportFull;
    whole.map(|()| length).map_err(|_| Stopped { length, why })
}

/// Runs a script in a register made over `nodes`, and writes its report into `out`. Gives the report's length.
/// The register's nodes are the first of `nodes`, 65,535 at most; all of them are free afterwards. What lies behind them is not
/// written. A script of more than 32,768 bytes writes nothing.
pub fn run(
    script: &[u8],
    nodes: &mut [Node],
    first_serial: u32,
    out: &mut [u8],
) -> Result<usize, Stopped>
    ensures within { MatchResult result (λ n. n ≤ length out.old) (λ stopped. stopped.length ≤ length out.old) }
    ensures beyond { drop 65535 nodes.new ≡ drop 65535 nodes.old }
    ensures long { 32768 < length script.now → TooLong result out.old out.new × (nodes.new ≡ nodes.old) }
    ensures ran { length script.now ≤ 32768 → RanScript (min (length nodes.old) 65535) first_serial script.now result out.old out.new (take 65535 nodes.new) }
{
    if script.len() > LONGEST_SCRIPT {
        return Err(Stopped {
            length: 0,
            why: Refusal::ScriptTooLong,
        });
    }
    run_short(script, nodes, first_serial, out)
}
