//! The pool: nodes in lent memory, and the free list through those that are not in use.

use crate::node::Node;

mod look;
mod make;
mod owners;
mod store;

pub use look::node_in;

/// Nodes are numbered from 1: node n is element n - 1 of the slice. They name one another by number and not by `Box`, since
/// their memory is lent, and 0 names none, as in a node's links. They are 65,535 at most, so `as u16` is proved to lose nothing.
#[derive(Drop)]
pub struct Pool<'m> {
    /// The nodes, borrowed for as long as the pool is there.
    nodes: &'m mut [Node],
    /// The first node of the free list, or 0.
    free: u16,
    /// How many nodes are in use.
    used: u16,
}
