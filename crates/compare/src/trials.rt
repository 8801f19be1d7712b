//! Runs of calls, drawn from a seed, on the proved register and on the one of plain lists, under one order of names.

use crate::call_maker::CallMaker;
use crate::calls::{Call, Outcome, call_naive, call_proved};
use crate::counts::Answers;
use crate::memory::Memory;
use crate::random::Random;
use kinds::NameOrder;
use naive::{Failure, Order, State};
use register::{Register, Tally};
use std::alloc::{AllocError, Global};

const CALLS: usize = 150;

const MANY_CALLS: usize = 1500;

/// Entries and commits want as many free nodes.
const WANTED: u32 = 256;

/// Calls in which each of 64 lines can be brought to rest and retired.
const LAST_CALLS: usize = 192;

const SIZES: [u32; 8] = [0, 257, 300, 600, 1024, 1024, 1024, 1024];

const LATE_SERIALS: [u32; 3] = [4294967280, 4294967294, 4294967295];

/// A call that was answered otherwise, or left other tallies than the rules allow.
#[derive(Clone, Copy)]
pub struct CallDifference {
    pub call: Call,
    pub answer: Outcome,
    pub wanted: Outcome,
    pub before: Tally,
    pub after: Tally,
}

/// The most nodes that the call may add.
fn growth(naive: &naive::Register<'static>, call: Call) -> Result<u32, AllocError> {
    let growth = match call {
        Call::Enter(handle, entry) => naive.growth_of_entry(handle, entry.name),
        Call::Commit(handle) => naive.growth_of_commit(handle),
        _ => Ok(0),
    };
    match growth {
        Ok(growth) => Ok(growth),
        Err(Failure::Refused(_)) => Ok(0),
        Err(Failure::OutOfMemory) => Err(AllocError),
    }
}

/// Makes one call on both registers.
fn step<N: NameOrder>(
    proved: &mut Register<'_, N>,
    naive: &mut naive::Register<'static>,
    call: Call,
    size: u32,
    counts: &mut Answers,
) -> Result<Option<CallDifference>, AllocError> {
    let before = proved.tally();
    let growth = growth(naive, call)?;
    let answer = call_proved(proved, call);
    let wanted = call_naive(naive, call, before.free < WANTED)?;
    let after = proved.tally();
    counts.call(answer);
    let live = naive.count_lines();
    let is_kept = after.in_use == before.in_use;
    let is_lawful = after.in_use.saturating_add(after.free) == size
        && after.lines as usize == live
        && after.in_use <= before.in_use.saturating_add(growth)
        && (is_kept || (answer.is_ok() && !call.is_question()))
        && (live > 0 || after.in_use == 0);
    if answer == wanted && is_lawful {
        return Ok(None);
    }
    Ok(Some(CallDifference {
        call,
        answer,
        wanted,
        before,
        after,
    }))
}

/// The call that brings the first line of the list nearer to its end.
fn last_call(naive: &naive::Register<'static>) -> Option<Call> {
    let (handle, state) = naive.line_at(0)?;
    match state {
        State::Resting => Some(Call::Retire(handle)),
        State::Stowed(shelf) => Some(Call::Fetch(shelf)),
        State::Sitting(_) => Some(Call::Abandon(handle)),
    }
}

/// Compares the calls of this seed, under the order N, which is `order` in the register of plain lists.
/// At the end all lines are retired, so that all nodes have to be free.
pub fn compare_calls<N: NameOrder>(
    alloc: Global,
    order: Order,
    seed: u64,
    memory: &mut Memory,
    counts: &mut Answers,
) -> Result<Option<CallDifference>, AllocError> {
    let mut random = Random::from_seed(seed);
    let size = random.pick(&SIZES, 1024);
    let late = random.pick(&LATE_SERIALS, 1);
    let first_serial = if random.one_in(8) { late } else { 1 };
    let calls = if random.one_in(15) { MANY_CALLS } else { CALLS };
    let mut maker = CallMaker::new(random);
    let mut proved: Register<'_, N> = Register::new(memory.nodes(size), first_serial);
    let mut naive = naive::Register::new(alloc, order, first_serial);
    for index in 0..calls.saturating_add(LAST_CALLS) {
        let next = if index < calls {
            Some(maker.next_call(&naive))
        } else {
            last_call(&naive)
        };
        let Some(call) = next else {
            break;
        };
        let difference = step(&mut proved, &mut naive, call, size, counts)?;
        if difference.is_some() {
            return Ok(difference);
        }
    }
    Ok(None)
}
