//! What a pool knows beside its nodes.

ghost use Rattle.std.specs.Prelude.{◌≡◌, ℕ, ◌+◌, ◌^◌, ◌<◌, ◌≤◌, List, [], ◌∷◌, length};
ghost use Rattle.pool.specs.FreeList.{FreePast};
ghost use Rattle.pool.specs.Held.{CarriesIn, Held, HoldsBy, HoldsIn, held};
ghost use Rattle.pool.specs.Reached.{AccountedIn};
ghost use Rattle.pool.specs.Sound.{SoundIn};
ghost use Rattle.pool.specs.Tree.{Tree};
ghost use Rattle.pool.specs.declared.node.Node.{Node as NodeIs};

use crate::node::Node;
use crate::pool::Pool;

/// The first node of a free list, and how many nodes are in use. It goes with the memory of the nodes, of which and of this
/// a pool is made for each change.
#[derive(Clone, Copy)]
pub struct PoolState {
    /// The first node of the free list, or 0.
    pub(crate) free: u16,
    /// How many nodes are in use.
    pub(crate) used: u16,
}

impl PoolState {
    /// Makes all of these nodes free, each once on the free list. They are 65,535 at most.
    pub fn new(nodes: &mut [Node]) -> PoolState
        requires { length nodes.old ≤ 65535 }
        ensures used { result.used ≡ 0 }
        ensures free { HoldsIn nodes.new result.free result.used [] }
        ensures size { length nodes.new ≡ length nodes.old }
    {
        PoolState {
            free: free_all(nodes),
            used: 0,
        }
    }

    /// One owner more of the node n, which is in use; 0 is no node.
    pub fn retain(&mut self, nodes: &mut [Node], n: u16)
        requires held { (hs : List Held) × HoldsBy nodes.old self.old hs × (length hs < 2 ^ 31) }
        requires carried { (t : Tree) × CarriesIn nodes.old n t }
        ensures owned { (t : Tree) (hs : List Held) → HoldsBy nodes.old self.old hs → CarriesIn nodes.old n t → HoldsBy nodes.new self.new (held n t ∷ hs) }
        ensures used { self.new.used ≡ self.old.used }
        ensures size { length nodes.new ≡ length nodes.old }
    {
        let mut pool = Pool::over(nodes, *self);
        pool.retain(n);
        *self = pool.state();
    }

    /// One owner fewer of the node n; 0 is no node. The last owner gives the node back, and then its links.
    pub fn release(&mut self, nodes: &mut [Node], n: u16)
        requires { (t : Tree) × (hs : List Held) × HoldsBy nodes.old self.old (held n t ∷ hs) }
        ensures owned { (t : Tree) (hs : List Held) → HoldsBy nodes.old self.old (held n t ∷ hs) → HoldsBy nodes.new self.new hs }
        ensures fewer { self.new.used ≤ self.old.used }
        ensures size { length nodes.new ≡ length nodes.old }
    {
        let mut pool = Pool::over(nodes, *self);
        pool.release(n);
        *self = pool.state();
    }

    /// How many nodes are in use: those that outside owners reach, and no others.
    pub fn in_use(&self) -> u16
        ensures used { result ≡ self.now.used }
        ensures accounted { (mem : List NodeIs) (roots : List ℕ) → SoundIn mem self.now.free self.now.used roots → AccountedIn mem self.now.free self.now.used roots }
    {
        self.used
    }

    /// How many of these nodes are free.
    pub fn available(&self, nodes: &[Node]) -> u16
        requires small { length nodes.now ≤ 65535 }
        requires within { self.now.used ≤ length nodes.now }
        ensures { result + self.now.used ≡ length nodes.now }
    {
        nodes.len() as u16 - self.in_use()
    }
}

/// Makes every node free, and returns the first of the free list.
fn free_all(nodes: &mut [Node]) -> u16
    requires { length nodes.old ≤ 65535 }
    ensures free { FreePast nodes.new result 0 }
    ensures size { length nodes.new ≡ length nodes.old }
{
    let mut first = 0;
    // By index, since a proof knows nothing of what is written through `iter_mut().enumerate().rev()`.
    for i in (0..nodes.len()).rev() {
        nodes[i] = Node::vacant(first);
        first = i as u16 + 1;
    }
    first
}
