//! The register for C: a script is run in memory that the caller lends.
#![tactic(auto)]

ghost use Rattle.std.specs.Prelude.{◌≡◌, ◌<◌, ◌≤◌, [], min, length, drop, take};
ghost use Rattle.register.specs.Refusals.{refusal_text};
ghost use Rattle.register.specs.declared.refusal.Refusal.{Refusal};
ghost use Rattle.tinglacier.specs.Layouts.{NodeLayout, OutcomeLayout};
ghost use Rattle.tinglacier.specs.Numbers.{HasNumber, OfNone};
ghost use Rattle.tinglacier.specs.Outcomes.{NotRun, Ran};
ghost use Rattle.tinglacier.specs.Texts.{Copied};

mod outcome;
#[cfg(test)]
mod tests;
mod text;

pub use outcome::Outcome;
use pool::Node;
use script::run;
use text::{copy_front, text_of};

/// Runs a script in a register made over `nodes`, and writes its report into `report`. The register's nodes are the first of `nodes`,
/// 65,535 at most; all of them are free afterwards. What lies behind them is not written. A script of more than 32,768 bytes writes
/// nothing.
#[unsafe(no_mangle)]
pub extern "C" fn tinglacier_run(
    script: &[u8],
    nodes: &mut [Node],
    first_serial: u32,
    report: &mut [u8],
) -> Outcome
    ensures node_layout { NodeLayout }
    ensures outcome_layout { OutcomeLayout }
    ensures within { result.length ≤ length report.old }
    ensures beyond { drop 65535 nodes.new ≡ drop 65535 nodes.old }
    ensures long { 32768 < length script.now → NotRun result report.old report.new × (nodes.new ≡ nodes.old) }
    ensures ran { length script.now ≤ 32768 → Ran (min (length nodes.old) 65535) first_serial script.now result report.old report.new (take 65535 nodes.new) }
{
    Outcome::from(run(script, nodes, first_serial, report))
}

/// Writes the text of the refusal that has the number, as far as it fits into `room`. Gives the bytes written, which are 0 where
/// no refusal has the number.
#[unsafe(no_mangle)]
pub extern "C" fn tinglacier_refusal_text(number: u8, room: &mut [u8]) -> usize
    ensures text { (why : Refusal) → HasNumber number why → Copied (refusal_text why) result room.old room.new }
    ensures none { OfNone number → Copied [] result room.old room.new }
{
    copy_front(text_of(number), room)
}
