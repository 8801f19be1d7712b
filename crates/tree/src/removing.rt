//! Taking a key out of a tree.

ghost use Rattle.std.specs.Prelude.{◌≡◌, ℕ, ◌+◌, ◌*◌, ◌<◌, ◌≤◌, List, ◌∷◌, length, ℤ};
ghost use Rattle.pool.specs.Held.{Carries, Held, Holds, held};
ghost use Rattle.pool.specs.Sound.{lender_of, memory_of, used_of};
ghost use Rattle.pool.specs.Tree.{Tree, fork};
ghost use Rattle.tree.specs.Insert.{compared};
ghost use Rattle.tree.specs.Removable.{FirstTaken, Joinable, Leaving, Removable, leaving};
ghost use Rattle.tree.specs.Remove.{first as first_item, join as joined, remove as removed, without_first};
ghost use Rattle.tree.specs.Shape.{height};

use crate::key::Key;
use crate::place::compare_at;
use crate::rebuild::balance;
use pool::{Node, Pool, Words};
use std::cmp::Ordering;

/// The first node of a tree, taken apart, and the tree without it.
#[derive(Clone, Copy)]
struct First {
    node: Node,
    rest: u16,
}

impl First {
    /// A node with nothing on its left is the first, and its right side is the rest.
    fn here(node: Node) -> First
        ensures { result ≡ record { node = node; rest = node.right } }
    {
        First {
            node,
            rest: node.right,
        }
    }

    /// The node whose left side gave the first away, over the rest.
    fn under(self, node: Node) -> Node
        ensures { result ≡ record node { left = self.rest } }
    {
        Node {
            left: self.rest,
            ..node
        }
    }

    /// The first node over a left side and the rest.
    fn over(self, left: u16) -> Node
        ensures { result ≡ record self.node { left = left; right = self.rest } }
    {
        Node {
            left,
            right: self.rest,
            ..self.node
        }
    }
}

/// Takes the first node out of the tree of the node n. The owner of n becomes the owner of what the first node
/// owns, and the owner of the rest.
fn take_first(pool: &mut Pool<'_>, n: u16) -> First
    requires ready { Removable pool.old n }
    requires numbered { 0 < n }
    ensures owned { (key : Words) (word : ℤ) (tall : ℕ) (nested left right : Tree) (hs : List Held) → Holds pool.old (held n (fork key word tall nested left right) ∷ hs) → FirstTaken pool.new result.node result.rest (first_item key word nested left) (without_first key word nested left right) hs }
    ensures used { (t : Tree) → Carries pool.old n t → used_of pool.new + 3 ≤ used_of pool.old + 3 * height t }
    ensures size { length (memory_of pool.new) ≡ length (memory_of pool.old) }
    ensures lent { lender_of pool.new ≡ lender_of pool.old }
{
    let node = pool.take_apart(n);
    if node.left == 0 {
        return First::here(node);
    }
    let lower = take_first(pool, node.left);
    let rest = balance(pool, lower.under(node));
    First {
        node: lower.node,
        rest,
    }
}

/// Joins the two sides of a node that goes, under the first node of the right side.
fn join(pool: &mut Pool<'_>, left: u16, right: u16) -> u16
    requires ready { Joinable pool.old left right }
    ensures owned { (l r : Tree) (hs : List Held) → Holds pool.old (held left l ∷ held right r ∷ hs) → Holds pool.new (held result (joined l r) ∷ hs) }
    ensures used { (r : Tree) → Carries pool.old right r → used_of pool.new ≤ used_of pool.old + 3 * height r }
    ensures within { (l r : Tree) (hs : List Held) → Holds pool.old (held left l ∷ held right r ∷ hs) → used_of pool.new ≤ used_of pool.old + 3 * height r }
    ensures size { length (memory_of pool.new) ≡ length (memory_of pool.old) }
    ensures lent { lender_of pool.new ≡ lender_of pool.old }
{
    if left == 0 {
        return right;
    }
    if right == 0 {
        return left;
    }
    let first = take_first(pool, right);
    balance(pool, first.over(left))
}

/// Joins the two sides of a node that was taken apart. What its value owned is let go.
fn join_sides(pool: &mut Pool<'_>, node: Node) -> u16
    requires ready { Leaving pool.old node }
    ensures owned { (nested l r : Tree) (hs : List Held) → Holds pool.old (leaving node nested l r hs) → Holds pool.new (held result (joined l r) ∷ hs) }
    ensures used { (nested l r : Tree) (hs : List Held) → Holds pool.old (leaving node nested l r hs) → used_of pool.new ≤ used_of pool.old + 3 * height r }
    ensures size { length (memory_of pool.new) ≡ length (memory_of pool.old) }
    ensures lent { lender_of pool.new ≡ lender_of pool.old }
{
    pool.release(node.nested);
    join(pool, node.left, node.right)
}

/// Takes a key out of the tree of the node n; a key that is not there leaves the tree as it is.
/// The owner of n becomes the owner of the result, and what the key's value owns is let go.
pub fn remove<K: Key>(pool: &mut Pool<'_>, n: u16, key: K) -> u16
    requires ready { Removable pool.old n }
    ensures owned { (t : Tree) (hs : List Held) → Holds pool.old (held n t ∷ hs) → Holds pool.new (held result (removed (compared K.Key.key K.cmp key) t) ∷ hs) }
    ensures used { (t : Tree) → Carries pool.old n t → used_of pool.new ≤ used_of pool.old + 3 * height t }
    ensures size { length (memory_of pool.new) ≡ length (memory_of pool.old) }
    ensures lent { lender_of pool.new ≡ lender_of pool.old }
{
    if n == 0 {
        return 0;
    }
    let node = pool.take_apart(n);
    match compare_at(key, node) {
        Ordering::Less => {
            let left = remove(pool, node.left, key);
            balance(pool, Node { left, ..node })
        }
        Ordering::Equal => join_sides(pool, node),
        Ordering::Greater => {
            let right = remove(pool, node.right, key);
            balance(pool, Node { right, ..node })
        }
    }
}
