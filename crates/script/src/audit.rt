//! The audit of a script: a run with nodes, a first serial and room for the report that are the same for every script.

ghost use Rattle.std.specs.Prelude.{◌≡◌, ◌<◌, ◌≤◌, List, length, MatchResult};
ghost use Rattle.pool.specs.declared.node.Node.{Node as node};
ghost use Rattle.script.specs.Scripts.{TooLong};
ghost use Rattle.script.specs.Whole.{RanScript};

use crate::runner::{Stopped, run};
use pool::Node;

/// The nodes of an audit.
const NODES: usize = 1024;

/// The serial of the first line that an audit opens.
const FIRST_SERIAL: u32 = 1;

/// The bytes of an audit's report.
pub const REPORT_BYTES: usize = 65536;

/// The first serial. The clauses say of the other two numbers, too, which they are.
fn first_serial() -> u32
    ensures serial { result ≡ 1 }
    ensures nodes { NODES ≡ 1024 }
    ensures room { REPORT_BYTES ≡ 65536 }
{
    FIRST_SERIAL
}

/// Runs a script in a register of 1,024 nodes whose first serial is 1, and writes its report into the 65,536 bytes. Gives the
/// report's length.
pub fn run_audit(script: &[u8], report: &mut [u8; REPORT_BYTES]) -> Result<usize, Stopped>
    ensures within { MatchResult result (λ n. n ≤ 65536) (λ stopped. stopped.length ≤ 65536) }
    ensures room { length report.old ≡ 65536 }
    ensures long { 32768 < length script.now → TooLong result report.old report.new }
    ensures ran { length script.now ≤ 32768 → (memory : List node) × RanScript 1024 1 script.now result report.old report.new memory }
{
    let mut nodes = [Node::default(); NODES];
    run(script, &mut nodes, first_serial(), report)
}
