//! Every write of the pool, each stated as one change of the memory. That a number is not 0 is required, and no `NonZeroU16`
//! is taken: callers know it by the facts of the pool, and would have to unwrap one. That it is a number of the pool, and that
//! the pool keeps its size, are facts of the pool and the number, or of two pools, which no type of one says.

ghost use Rattle.std.specs.Prelude.{◌≡◌, ◌+◌, ◌-◌, ◌^◌, ◌<◌, ◌≤◌, length, slice_set};
ghost use Rattle.pool.specs.Node.{free_node, node_at, with_count};
ghost use Rattle.pool.specs.Puts.{Puts};
ghost use Rattle.pool.specs.Sound.{lender_of, memory_of, used_of};

use crate::node::Node;
use crate::pool::Pool;

/// Nodes are numbered from 1.
fn place(n: u16) -> usize
    requires { 0 < n }
    ensures { result ≡ n - 1 }
{
    usize::from(n) - 1
}

/// Reads the node n, free or in use.
pub(crate) fn read(nodes: &[Node], n: u16) -> Node
    requires numbered { 0 < n }
    requires within { n ≤ length nodes.now }
    ensures { result ≡ node_at nodes.now n }
{
    nodes[place(n)]
}

impl Pool<'_> {
    /// Reads the node n, free or in use.
    pub(crate) fn read(&self, n: u16) -> Node
        requires numbered { 0 < n }
        requires within { n ≤ length (memory_of self.now) }
        ensures { result ≡ node_at (memory_of self.now) n }
    {
        read(self.nodes, n)
    }

    /// Writes the node n.
    pub(crate) fn put(&mut self, n: u16, node: Node)
        requires numbered { 0 < n }
        requires within { n ≤ length (memory_of self.old) }
        ensures { Puts self.old n node self.new }
    {
        self.nodes[place(n)] = node;
    }

    /// Counts one owner more of the node n.
    pub(crate) fn raise(&mut self, n: u16)
        requires numbered { 0 < n }
        requires within { n ≤ length (memory_of self.old) }
        requires fits { (node_at (memory_of self.old) n).count + 1 < 2 ^ 32 }
        ensures { Puts self.old n (with_count (node_at (memory_of self.old) n) ((node_at (memory_of self.old) n).count + 1)) self.new }
    {
        let node = self.read(n);
        self.put(n, node.with_count(node.count + 1));
    }

    /// Counts one owner fewer of the node n.
    pub(crate) fn lower(&mut self, n: u16)
        requires numbered { 0 < n }
        requires within { n ≤ length (memory_of self.old) }
        requires some { 0 < (node_at (memory_of self.old) n).count }
        ensures { Puts self.old n (with_count (node_at (memory_of self.old) n) ((node_at (memory_of self.old) n).count - 1)) self.new }
    {
        let node = self.read(n);
        self.put(n, node.with_count(node.count - 1));
    }

    /// Takes the first node off the free list, and writes the contents into it with one owner.
    pub(crate) fn fill_first(&mut self, contents: Node) -> u16
        requires numbered { 0 < self.old.free }
        requires within { self.old.free ≤ length (memory_of self.old) }
        requires next { (node_at (memory_of self.old) self.old.free).key.low ≤ 65535 }
        requires small { length (memory_of self.old) ≤ 65535 }
        requires room { used_of self.old < length (memory_of self.old) }
        ensures node { result ≡ self.old.free }
        ensures memory { memory_of self.new ≡ slice_set (memory_of self.old) (self.old.free - 1) (with_count contents 1) }
        ensures free { self.new.free ≡ (node_at (memory_of self.old) self.old.free).key.low }
        ensures used { used_of self.new ≡ used_of self.old + 1 }
        ensures size { length (memory_of self.new) ≡ length (memory_of self.old) }
        ensures lent { lender_of self.new ≡ lender_of self.old }
    {
        let n = self.free;
        let next = self.read(n).key.low as u16;
        self.put(n, contents.with_count(1));
        self.free = next;
        self.used += 1;
        n
    }

    /// Puts the node n at the front of the free list.
    pub(crate) fn give_back(&mut self, n: u16)
        requires numbered { 0 < n }
        requires within { n ≤ length (memory_of self.old) }
        requires some { 0 < used_of self.old }
        ensures memory { memory_of self.new ≡ slice_set (memory_of self.old) (n - 1) (free_node self.old.free) }
        ensures free { self.new.free ≡ n }
        ensures used { used_of self.new ≡ used_of self.old - 1 }
        ensures size { length (memory_of self.new) ≡ length (memory_of self.old) }
        ensures lent { lender_of self.new ≡ lender_of self.old }
    {
        let vacant = Node::vacant(self.free);
        self.put(n, vacant);
        self.free = n;
        self.used -= 1;
    }
}
