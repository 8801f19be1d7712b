//! Runs the audit script on standard input in a register of its own, and prints the report.

#![tactic(auto)]

ghost use Rattle.std.specs.Prelude.{◌≤◌, length, IfOk};

use script::{REPORT_BYTES, run_audit};
use std::io;
use std::io::{Read, Write};

/// One byte more than the longest script, so that a longer one shows.
const SCRIPT_BYTES: usize = 32769;

/// Reads standard input up to its end or until the buffer is full, and gives how many bytes came. Each read asks for all that is
/// left of the buffer, which `read_to_end` does not, so that a message that comes whole is read whole; and no read needs the heap.
fn read_script(rt: &HostRuntime, script: &mut [u8]) -> io::Result<usize>
    ensures { IfOk result (λ n. n ≤ length script.new) }
{
    let mut input = rt.stdin();
    let mut read = 0;
    while read < script.len() {
        let count = input.read(&mut script[read..])?;
        if count == 0 {
            break;
        }
        read += count;
    }
    Ok(read)
}

/// Prints the report of the script; a refusal is an error after the report's whole lines.
fn audit(rt: &HostRuntime) -> anyhow::Result<()> {
    let mut script = [0; SCRIPT_BYTES];
    let size = read_script(rt, &mut script)?;
    let mut report = [0; REPORT_BYTES];
    let (length, ended) = match run_audit(&script[..size], &mut report) {
        Ok(length) => (length, Ok(())),
        Err(stopped) => (stopped.length, Err(stopped.into())),
    };
    rt.stdout().write_all(&report[..length])?;
    ended
}

fn main(rt: HostRuntime) -> anyhow::Result<()> {
    audit(&rt)
}
