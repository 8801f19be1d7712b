//! The kinds of keys and values that a register keeps: instants and names, and readings.

#![tactic(auto)]

mod backward;
mod instant;
mod name;
mod order;
mod reading;

pub use backward::BackwardName;
pub use instant::Instant;
pub use name::{Name, NameText, NotAName};
pub use order::NameOrder;
pub use reading::{OutOfRange, Reading};
