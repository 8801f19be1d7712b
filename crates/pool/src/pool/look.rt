//! Reading a node, and what a pool is made of.

ghost use Rattle.std.specs.Prelude.{◌≡◌, ◌<◌, List};
ghost use Rattle.pool.specs.Held.{Held, Holds, HoldsBy};
ghost use Rattle.pool.specs.Node.{node_at};
ghost use Rattle.pool.specs.declared.node.Node.{Node as NodeIs};
ghost use Rattle.pool.specs.Sound.{memory_of, used_of};

use crate::node::Node;
use crate::pool::Pool;
use crate::pool::store::read;
use crate::state::PoolState;

impl Pool<'_> {
    /// Its nodes, to be read.
    pub fn nodes(&self) -> &[Node]
        ensures { result.now ≡ memory_of self.now }
    {
        self.nodes
    }

    #[tactic(auto, unfolding(crate::specs::Held::Holds))]
    /// Where its free list begins, and how many nodes are in use.
    pub fn state(&self) -> PoolState
        ensures free { result.free ≡ self.now.free }
        ensures used { result.used ≡ used_of self.now }
        ensures held { (mem : List NodeIs) (hs : List Held) → mem ≡ memory_of self.now → Holds self.now hs → HoldsBy mem result hs }
    {
        PoolState {
            free: self.free,
            used: self.used,
        }
    }
}

/// Reads the node n, which is in use.
pub fn node_in(nodes: &[Node], n: u16) -> Node
    requires { 0 < (node_at nodes.now n).count }
    ensures { result ≡ node_at nodes.now n }
{
    read(nodes, n)
}
