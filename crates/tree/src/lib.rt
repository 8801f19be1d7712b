//! A persistent AVL tree over a pool, one text for every kind of key and value.

#![tactic(auto)]

mod end;
mod inserting;
mod key;
mod laws;
mod lookup;
mod place;
mod range;
mod rebuild;
mod removing;
mod root;
mod value;

pub use inserting::insert;
pub use key::Key;
pub use laws::{laws_hold, worked_facts_hold};
pub use lookup::{after, at_most, find, first, last};
pub use range::{Total, total_between};
pub use rebuild::root_height;
pub use removing::remove;
pub use root::Root;
pub use value::Value;
