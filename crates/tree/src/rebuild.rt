//! Nodes put together with their heights, and rotated where one side is too high. The room for three nodes is asked for by itself,
//! since it is what a caller has to look at: `Balanceable` speaks of the trees.

ghost use Rattle.std.specs.Prelude.{◌≡◌, suc, ◌+◌, ◌<◌, ◌≤◌, max, List, ◌∷◌, length, nat_lt};
ghost use Rattle.pool.specs.Held.{Carries, CarriesIn, Held, Holds, held};
ghost use Rattle.pool.specs.Node.{node_at};
ghost use Rattle.pool.specs.Sound.{lender_of, memory_of, used_of};
ghost use Rattle.pool.specs.Tree.{Tree};
ghost use Rattle.tree.specs.Append.{LeansRight};
ghost use Rattle.tree.specs.Ends.{at_end};
ghost use Rattle.tree.specs.Made.{Made};
ghost use Rattle.tree.specs.Ready.{Balanceable, Buildable, Doubled, sides, three_sides};
ghost use Rattle.tree.specs.Rebuild.{balance as balanced, node, rotate_double, rotate_left, rotate_right};
ghost use Rattle.tree.specs.Shape.{height};

use crate::end::End;
use pool::{Node, Pool, node_in};

/// The height that the root of a tree stores; no node has height 0.
pub fn root_height(nodes: &[Node], n: u16) -> u8
    requires { (t : Tree) × CarriesIn nodes.now n t }
    ensures { (t : Tree) → CarriesIn nodes.now n t → result ≡ height t }
{
    if n == 0 { 0 } else { node_in(nodes, n).height }
}

/// The height that a node of the pool stores.
fn stored_height(pool: &Pool<'_>, n: u16) -> u8
    requires { (t : Tree) × Carries pool.now n t }
    ensures { (t : Tree) → Carries pool.now n t → result ≡ height t }
{
    root_height(pool.nodes(), n)
}

/// The height of a node over two sides of these heights: one more than the greater.
fn height_over(left: u8, right: u8) -> u8
    requires { (left ≤ 254) × (right ≤ 254) }
    ensures { result ≡ suc (max left right) }
{
    left.max(right) + 1
}

/// Puts a root over its two sides. The new node takes over their owners. The root's height and count are not read.
pub(crate) fn build(pool: &mut Pool<'_>, root: Node) -> u16
    requires ready { Buildable pool.old root }
    requires room { used_of pool.old < length (memory_of pool.old) }
    ensures owned { (nested l r : Tree) (hs : List Held) → Holds pool.old (sides root nested l r hs) → Holds pool.new (held result (node root.key root.word nested l r) ∷ hs) }
    ensures used { used_of pool.new ≡ used_of pool.old + 1 }
    ensures fresh { (node_at (memory_of pool.new) result).count ≡ 1 }
    ensures size { length (memory_of pool.new) ≡ length (memory_of pool.old) }
    ensures lent { lender_of pool.new ≡ lender_of pool.old }
{
    let height = height_over(
        stored_height(pool, root.left),
        stored_height(pool, root.right),
    );
    pool.take(Node { height, ..root })
}

/// Puts two roots together again, with the side before the lower, the one between them, and the one behind the upper.
/// The root of the side between comes up.
fn rotate_double(pool: &mut Pool<'_>, lower: Node, middle: u16, upper: Node) -> u16
    requires ready { Doubled pool.old lower upper middle }
    requires room { used_of pool.old + 3 ≤ length (memory_of pool.old) }
    ensures owned { (inner nested l m r : Tree) (hs : List Held) → Holds pool.old (three_sides lower upper middle inner nested l m r hs) → Holds pool.new (held result (rotate_double lower.key lower.word inner upper.key upper.word nested l m r) ∷ hs) }
    ensures made { Made pool.old pool.new 3 result }
{
    let root = pool.take_apart(middle);
    let left = build(
        pool,
        Node {
            right: root.left,
            ..lower
        },
    );
    let right = build(
        pool,
        Node {
            left: root.right,
            ..upper
        },
    );
    build(
        pool,
        Node {
            left,
            right,
            ..root
        },
    )
}

/// Whether a side comes up by a double rotation: where its inner side is the higher one.
fn is_double(outer: u8, inner: u8) -> bool
    ensures { result ≡ nat_lt outer inner }
{
    outer < inner
}

/// The root of the side on this end comes up, or the root of that side's inner side where that is the higher one.
fn rotate(pool: &mut Pool<'_>, root: Node, end: End) -> u16
    requires ready { Balanceable pool.old root }
    requires numbered { 0 < at_end end root.left root.right }
    requires room { used_of pool.old + 3 ≤ length (memory_of pool.old) }
    ensures owned { (nested l r : Tree) (hs : List Held) → Holds pool.old (sides root nested l r hs) → Holds pool.new (held result (at_end end rotate_right rotate_left root.key root.word nested l r) ∷ hs) }
    ensures made { Made pool.old pool.new 3 result }
    ensures single { end ≡ End.Last → (nested l r : Tree) (hs : List Held) → Holds pool.old (sides root nested l r hs) → LeansRight r → (node_at (memory_of pool.old) root.right).count ≡ 1 → used_of pool.new ≡ used_of pool.old + 1 }
{
    let (near, far) = end.turned(root.left, root.right);
    let child = pool.take_apart(near);
    let (outer, inner) = end.turned(child.left, child.right);
    if is_double(stored_height(pool, outer), stored_height(pool, inner)) {
        let (lower, upper) = end.turned(child, root);
        rotate_double(pool, lower, inner, upper)
    } else {
        let below = build(pool, end.over(root, inner, far));
        build(pool, end.over(child, outer, below))
    }
}

/// Whether a side is too high beside the other: by 2 or more.
fn is_too_high(side: u8, other: u8) -> bool
    requires { other ≤ 254 }
    ensures { result ≡ nat_lt (other + 1) side }
{
    other + 1 < side
}

/// Puts a root over its two sides, and rotates where one side is too high.
pub(crate) fn balance(pool: &mut Pool<'_>, root: Node) -> u16
    requires ready { Balanceable pool.old root }
    requires room { used_of pool.old + 3 ≤ length (memory_of pool.old) }
    ensures owned { (nested l r : Tree) (hs : List Held) → Holds pool.old (sides root nested l r hs) → Holds pool.new (held result (balanced root.key root.word nested l r) ∷ hs) }
    ensures made { Made pool.old pool.new 3 result }
    ensures level { (nested l r : Tree) (hs : List Held) → Holds pool.old (sides root nested l r hs) → height l ≤ height r + 1 → height r ≤ height l + 1 → used_of pool.new ≡ used_of pool.old + 1 }
    ensures single { (nested l r : Tree) (hs : List Held) → Holds pool.old (sides root nested l r hs) → height l + 1 < height r → LeansRight r → (node_at (memory_of pool.old) root.right).count ≡ 1 → used_of pool.new ≡ used_of pool.old + 1 }
{
    let before = stored_height(pool, root.left);
    let behind = stored_height(pool, root.right);
    if is_too_high(before, behind) {
        rotate(pool, root, End::First)
    } else if is_too_high(behind, before) {
        rotate(pool, root, End::Last)
    } else {
        build(pool, root)
    }
}
