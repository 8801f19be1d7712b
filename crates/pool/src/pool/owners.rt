//! Taking nodes, adding and dropping owners. No node in use changes but for its count.

ghost use Rattle.std.specs.Prelude.{◌≡◌, ℕ, ◌+◌, ◌^◌, ◌<◌, ◌≤◌, List, ◌∷◌, length, ℤ};
ghost use Rattle.pool.specs.Held.{Carries, CarriesLinks, Held, Holds, TakenApart, held};
ghost use Rattle.pool.specs.Node.{node_at};
ghost use Rattle.pool.specs.Sound.{lender_of, memory_of, used_of};
ghost use Rattle.pool.specs.Tree.{Tree, fork, fork_of};

use crate::node::{Node, Words};
use crate::pool::Pool;

impl Pool<'_> {
    /// Takes a free node for these contents, with one owner. It takes over the owners of its three links.
    /// The count of `contents` is not read.
    pub fn take(&mut self, contents: Node) -> u16
        requires held { (nested : Tree) × (left : Tree) × (right : Tree) × (hs : List Held) × Holds self.old (held contents.left left ∷ held contents.nested nested ∷ held contents.right right ∷ hs) }
        requires room { used_of self.old < length (memory_of self.old) }
        ensures owned { (nested left right : Tree) (hs : List Held) → Holds self.old (held contents.left left ∷ held contents.nested nested ∷ held contents.right right ∷ hs) → Holds self.new (held result (fork_of contents nested left right) ∷ hs) }
        ensures used { used_of self.new ≡ used_of self.old + 1 }
        ensures fresh { (node_at (memory_of self.new) result).count ≡ 1 }
        ensures size { length (memory_of self.new) ≡ length (memory_of self.old) }
        ensures lent { lender_of self.new ≡ lender_of self.old }
    {
        self.fill_first(contents)
    }

    /// One owner more of the node n, which is in use; 0 is no node.
    pub fn retain(&mut self, n: u16)
        requires held { (hs : List Held) × Holds self.old hs × (length hs < 2 ^ 31) }
        requires carried { (t : Tree) × Carries self.old n t }
        ensures owned { (t : Tree) (hs : List Held) → Holds self.old hs → Carries self.old n t → Holds self.new (held n t ∷ hs) }
        ensures again { (t : Tree) (hs : List Held) → Holds self.old (held n t ∷ hs) → Holds self.new (held n t ∷ held n t ∷ hs) }
        ensures kept { (m : ℕ) (t : Tree) → Carries self.old m t → Carries self.new m t }
        ensures used { used_of self.new ≡ used_of self.old }
        ensures size { length (memory_of self.new) ≡ length (memory_of self.old) }
        ensures lent { lender_of self.new ≡ lender_of self.old }
    {
        if n != 0 {
            self.raise(n);
        }
    }

    /// One owner more of each link of a node.
    fn retain_links(&mut self, node: Node)
        requires { (nested : Tree) × (left : Tree) × (right : Tree) × (hs : List Held) × Holds self.old hs × CarriesLinks self.old node nested left right × (length hs + 2 < 2 ^ 31) }
        ensures owned { (nested left right : Tree) (hs : List Held) → Holds self.old hs → CarriesLinks self.old node nested left right → Holds self.new (held node.nested nested ∷ held node.left left ∷ held node.right right ∷ hs) }
        ensures used { used_of self.new ≡ used_of self.old }
        ensures size { length (memory_of self.new) ≡ length (memory_of self.old) }
        ensures lent { lender_of self.new ≡ lender_of self.old }
    {
        self.retain(node.right);
        self.retain(node.left);
        self.retain(node.nested);
    }

    /// One owner fewer of the node n; 0 is no node. The last owner gives the node back, and then its links.
    #[cycle(release_release_links)]
    pub fn release(&mut self, n: u16)
        requires { (t : Tree) × (hs : List Held) × Holds self.old (held n t ∷ hs) }
        ensures owned { (t : Tree) (hs : List Held) → Holds self.old (held n t ∷ hs) → Holds self.new hs }
        ensures fewer { used_of self.new ≤ used_of self.old }
        ensures shared { 1 < (node_at (memory_of self.old) n).count → used_of self.new ≡ used_of self.old }
        ensures last { (node_at (memory_of self.old) n).count ≡ 1 → used_of self.new < used_of self.old }
        ensures size { length (memory_of self.new) ≡ length (memory_of self.old) }
        ensures lent { lender_of self.new ≡ lender_of self.old }
    {
        if n != 0 {
            let node = self.read(n);
            if node.is_shared() {
                self.lower(n);
            } else {
                self.give_back(n);
                self.release_links(node);
            }
        }
    }

    /// One owner fewer of each link of a node.
    #[cycle(release_release_links)]
    fn release_links(&mut self, node: Node)
        requires { (nested : Tree) × (left : Tree) × (right : Tree) × (hs : List Held) × Holds self.old (held node.left left ∷ held node.nested nested ∷ held node.right right ∷ hs) }
        ensures owned { (nested left right : Tree) (hs : List Held) → Holds self.old (held node.left left ∷ held node.nested nested ∷ held node.right right ∷ hs) → Holds self.new hs }
        ensures fewer { used_of self.new ≤ used_of self.old }
        ensures size { length (memory_of self.new) ≡ length (memory_of self.old) }
        ensures lent { lender_of self.new ≡ lender_of self.old }
    {
        self.release(node.left);
        self.release(node.nested);
        self.release(node.right);
    }

    /// The owner of the node n becomes the owner of its left, nested and right.
    /// A node with no other owner goes straight back to the free list, and its links are not touched.
    pub fn take_apart(&mut self, n: u16) -> Node
        requires held { (t : Tree) × (hs : List Held) × Holds self.old (held n t ∷ hs) × (length hs + 2 < 2 ^ 31) }
        requires numbered { 0 < n }
        ensures node { result ≡ node_at (memory_of self.old) n }
        ensures owned { (key : Words) (word : ℤ) (height : ℕ) (nested left right : Tree) (hs : List Held) → Holds self.old (held n (fork key word height nested left right) ∷ hs) → TakenApart self.new result key word height nested left right hs }
        ensures shared { 1 < result.count → used_of self.new ≡ used_of self.old }
        ensures last { result.count ≡ 1 → used_of self.new + 1 ≡ used_of self.old }
        ensures size { length (memory_of self.new) ≡ length (memory_of self.old) }
        ensures lent { lender_of self.new ≡ lender_of self.old }
    {
        let node = self.read(n);
        if node.is_shared() {
            self.lower(n);
            self.retain_links(node);
        } else {
            self.give_back(n);
        }
        node
    }
}
