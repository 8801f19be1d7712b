//! A register of readings under two clocks: handles, the table of lines, and the calls on them.

#![tactic(auto)]

mod entries;
mod handle;
mod law;
mod lines;
mod questions;
mod refusal;
mod register;
mod run;
mod sheet;
mod sittings;
mod table;
mod worked;

pub use entries::Change;
pub use handle::{Handle, InSitting, Line, Parts, Refused, Resting, Sitting};
pub use law::every_run_is_lawful;
pub use questions::Tally;
pub use refusal::Refusal;
pub use register::{MOST_NODES, Register};
pub use run::{Action, Answer, Call, Question, Reply, run_calls};
pub use worked::worked_examples_hold;
