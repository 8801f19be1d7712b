//! A pool is made of nodes and of what is known of them.

ghost use Rattle.std.specs.Prelude.{◌≡◌, ℕ, List};
ghost use Rattle.pool.specs.Held.{Carries, CarriesIn, Held, Holds, HoldsBy};
ghost use Rattle.pool.specs.Tree.{Tree};
ghost use Rattle.pool.specs.Sound.{memory_of, used_of};

use crate::node::Node;
use crate::pool::Pool;
use crate::state::PoolState;

impl<'m> Pool<'m> {
    #[tactic(auto, unfolding(crate::specs::Held::Holds))]
    /// A pool of these nodes, with this free list and so many nodes in use.
    pub fn over(nodes: &'m mut [Node], state: PoolState) -> Pool<'m>
        ensures lent { result.nodes.ghost_name ≡ nodes.entry.ghost_name }
        ensures nodes { memory_of result ≡ nodes.old }
        ensures free { result.free ≡ state.free }
        ensures used { used_of result ≡ state.used }
        ensures held { (hs : List Held) → HoldsBy nodes.old state hs → Holds result hs }
        ensures carried { (n : ℕ) (t : Tree) → CarriesIn nodes.old n t → Carries result n t }
    {
        Pool {
            nodes,
            free: state.free,
            used: state.used,
        }
    }
}
