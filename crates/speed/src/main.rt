//! How long the register's calls take. With two arguments, the sittings that fill the log and the rounds in which each
//! kind of work is done, it prints the least time of each kind. Without arguments it does a small amount of the same
//! work, and prints what is the same at every run.

#![tactic(auto)]

mod load;
mod log;
mod rounds;
mod watch;

use load::Plan;
use pool::Node;
use register::Register;
use rounds::{Found, time_all};
use std::env;
use std::rt::{Clock, Env};

/// The most nodes that a register uses.
const NODES: usize = 65535;

const FIRST_SERIAL: u32 = 1;

/// The plan where no other is given.
const SMALL: Plan = Plan {
    sittings: 20,
    rounds: 1,
};

/// The plan of the arguments, or none where there are none.
fn read_plan(rt: &(impl Env + AllocGlobal)) -> anyhow::Result<Option<Plan>> {
    let mut arguments = env::args(rt)?.skip(1);
    let (Some(sittings), Some(rounds)) = (arguments.next(), arguments.next()) else {
        return Ok(None);
    };
    Ok(Some(Plan {
        sittings: sittings.parse()?,
        rounds: rounds.parse()?,
    }))
}

fn run(rt: &(impl Clock + AllocGlobal), plan: Plan) -> anyhow::Result<Found> {
    let mut nodes = vec![in rt.alloc(); Node::default(); NODES]?;
    let mut register = Register::new(&mut nodes, FIRST_SERIAL);
    let found = time_all(rt, &mut register, plan)?;
    anyhow::ensure!(register.tally().in_use == 0, "nodes are in use at the end");
    Ok(found)
}

/// Prints what was found: a line for the nodes and for the answers, and one for each kind of work.
fn print_found(rt: &impl Print, found: Found) -> anyhow::Result<()> {
    println!(rt; "nodes\t{}\nanswers\t{}", found.nodes, found.answers)?;
    for work in found.works {
        println!(rt; "{}\t{}\t{}", work.title, work.calls, work.nanoseconds)?;
    }
    Ok(())
}

fn main(rt: HostRuntime) -> anyhow::Result<()> {
    match read_plan(&rt)? {
        Some(plan) => print_found(&rt, run(&rt, plan)?),
        None => {
            println!(rt; "answers\t{}", run(&rt, SMALL)?.answers)?;
            Ok(())
        }
    }
}
