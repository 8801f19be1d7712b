//! The number and the sum of what lies in a range of keys.

ghost use Rattle.std.specs.Prelude.{◌≡◌, ◌+◌, ◌^◌, ◌<◌, List, [], ◌∷◌, pos, negsuc, ◌+ℤ◌, ◌≤ℤ◌, if◌then◌else◌};
ghost use Rattle.std.specs.Ordering.{is_lt};
ghost use Rattle.std.specs.List.{AllByRecursion};
ghost use Rattle.pool.specs.Held.{CarriesIn, SoundMemory};
ghost use Rattle.pool.specs.Tree.{Tree};
ghost use Rattle.tree.specs.Range.{Modest, Totals, inside, walk, within};
ghost use Rattle.tree.specs.Shape.{Ascending, Balanced, item, items};

use crate::key::Key;
use crate::lookup::top;
use crate::place::is_before;
use pool::Node;
use std::ops::Add;

/// How many keys, and the sum of their words.
#[derive(Clone, Copy, Default)]
pub struct Total {
    pub count: u32,
    pub sum: i64,
}

impl Add for Total {
    ghost use Rattle.tree.specs.Totals.{Fits, Sums};

    type Output = Total;

    ghost can_add = { Fits };

    ghost add_gives = { Sums };

    fn add(self, other: Total) -> Total {
        Total {
            count: self.count + other.count,
            sum: self.sum + other.sum,
        }
    }
}

/// What a node itself adds: its word, where its key lies in the range.
fn own<K: Key>(node: Node, low: K, high: K) -> Total
    ensures { (nested : Tree) → Totals (if inside K.cmp low high (K.Key.key node.key) then item (K.Key.key node.key) node.word nested ∷ [] else []) result }
{
    let key = K::from_words(node.key);
    if low <= key && key <= high {
        Total {
            count: 1,
            sum: node.word,
        }
    } else {
        Total::default()
    }
}

/// The left link, or 0 where no key of the left side is as great as `low`.
fn left_from<K: Key>(node: Node, low: K) -> u16
    ensures { result ≡ (if is_lt (K.cmp low (K.Key.key node.key)) then node.left else 0) }
{
    if is_before(low, node) { node.left } else { 0 }
}

/// The right link, or 0 where every key of the right side is past `high`.
fn right_to<K: Key>(node: Node, high: K) -> u16
    ensures { result ≡ (if is_lt (K.cmp (K.Key.key node.key) high) then node.right else 0) }
{
    if K::from_words(node.key) < high {
        node.right
    } else {
        0
    }
}

/// How many keys lie from `low` to `high`, both included, and the sum of their words.
/// `carried` asks all of one tree, and `Readable` does not say which tree it has.
/// A side is walked only where it can have such keys. Each word is at most 1,000,000,000,000 either way,
/// so that the sum is exact.
pub fn total_between<K: Key>(nodes: &[Node], root: u16, low: K, high: K) -> Total
    requires held { SoundMemory nodes.now }
    requires carried { (t : Tree) × CarriesIn nodes.now root t × (Balanced t × Ascending K.cmp (items K.Key.key t) × AllByRecursion Modest (items K.Key.key t)) }
    ensures answered { (t : Tree) → CarriesIn nodes.now root t → Totals (walk K.cmp K.Key.key low high t) result }
    ensures listed { (t : Tree) → CarriesIn nodes.now root t → Ascending K.cmp (items K.Key.key t) → Totals (within K.cmp low high (items K.Key.key t)) result }
{
    let Some(node) = top(nodes, root) else {
        return Total::default();
    };
    let below = total_between(nodes, left_from(node, low), low, high);
    let above = total_between(nodes, right_to(node, high), low, high);
    below + (own(node, low, high) + above)
}
