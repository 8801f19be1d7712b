//! A register kept in plain lists, and a runner of scripts over it, written from the pages of `docs/`: something else
//! to hold the proved register against. Only how many nodes are in use is beyond it, since lists share nothing.

#![tactic(auto)]

mod command;
mod field;
mod nodes;
mod order;
mod refusal;
mod register;
mod runner;
mod sheet;

pub use nodes::FreeNodes;
pub use order::Order;
pub use refusal::{Failure, Refusal};
pub use register::{Handle, Register, State};
pub use runner::{Lent, Ran, run};
pub use sheet::{Change, Entry, Total};
