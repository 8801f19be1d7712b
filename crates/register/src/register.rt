//! A register: lent memory, the table of lines, and the serial of the next line, for one order of names.

ghost use Rattle.std.specs.Prelude.{◌≤◌, List, length};
ghost use Rattle.register.specs.Kept.{Kept, pool_in};
ghost use Rattle.register.specs.Places.{Place};

use crate::table::Table;
use pool::{Node, PoolState};
use std::marker::PhantomData;

/// The most nodes that a register has.
pub const MOST_NODES: usize = 65535;

/// A register over lent memory, for the order N of names. Its nodes are the first of the memory, 65,535 at most; they are held
/// for the lines of its table, and for nothing else. The memory is a field of its own and not in a pool: a proof knows of a `&mut` in
/// a struct what it holds afterwards, and of one in a struct inside a struct it does not.
#[derive(Drop)]
pub struct Register<'m, N> {
    /// The whole of the lent memory.
    pub(crate) nodes: &'m mut [Node],
    /// How many of its first nodes are the register's.
    pub(crate) size: usize,
    /// The first of its free nodes, and how many of its nodes are in use.
    pub(crate) state: PoolState,
    pub(crate) table: Table,
    /// The serial that the next line gets; 4,294,967,295 where there is no next line.
    pub(crate) next: u32,
    pub(crate) order: PhantomData<N>,
    ghost small: { size ≤ 65535 },
    ghost within: { size ≤ length nodes.now },
    ghost counted: { state.used ≤ size },
    ghost kept: { ∥ ((places : List Place) × Kept (pool_in nodes size state) table.lines places) ∥₁ },
}
