//! A pool of nodes with reference counts over lent memory. A node's count is the number of its owners,
//! always, so that no node is freed while something still leads to it.

#![tactic(auto)]

mod node;
mod pool;
mod state;

pub use node::{Node, Words};
pub use pool::{Pool, node_in};
pub use state::PoolState;
