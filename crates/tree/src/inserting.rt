//! Putting a key with its value into a tree.

ghost use Rattle.std.specs.Prelude.{◌≡◌, ◌+◌, ◌*◌, ◌<◌, ◌≤◌, List, ◌∷◌, length};
ghost use Rattle.pool.specs.Held.{Carries, Held, Holds, held};
ghost use Rattle.pool.specs.Node.{node_at};
ghost use Rattle.pool.specs.Sound.{lender_of, memory_of, used_of};
ghost use Rattle.pool.specs.Tree.{Tree, fork};
ghost use Rattle.tree.specs.Append.{Behind};
ghost use Rattle.tree.specs.Insert.{Present, compared, insert as inserted};
ghost use Rattle.tree.specs.Insertable.{Insertable, entry_of, replacing, revalued_of};
ghost use Rattle.tree.specs.Made.{Made};
ghost use Rattle.tree.specs.Shape.{height};

use crate::key::Key;
use crate::place::compare_at;
use crate::rebuild::{balance, build};
use crate::value::Value;
use pool::{Node, Pool};
use std::cmp::Ordering;

/// The contents of a node for a key with its value, with no sides yet.
fn entry<K: Key, V: Value>(key: K, value: V) -> Node
    ensures { result ≡ entry_of (K.Key.words key) (V.Value.word value) (V.Value.nested value) }
{
    Node {
        key: key.to_words(),
        word: value.to_word(),
        nested: value.to_link(),
        ..Node::default()
    }
}

/// The contents of a node with another value.
fn revalued<V: Value>(node: Node, value: V) -> Node
    ensures { result ≡ revalued_of node (V.Value.word value) (V.Value.nested value) }
{
    Node {
        word: value.to_word(),
        nested: value.to_link(),
        count: 0,
        ..node
    }
}

/// Puts a node together again with another value. What the old value owned is let go.
fn replace<V: Value>(pool: &mut Pool<'_>, node: Node, value: V) -> u16
    requires held { (old : Tree) × (nested : Tree) × (left : Tree) × (right : Tree) × (hs : List Held) × Holds pool.old (replacing node (V.Value.nested value) old nested left right hs) }
    requires room { used_of pool.old < length (memory_of pool.old) }
    ensures owned { (old nested left right : Tree) (hs : List Held) → Holds pool.old (replacing node (V.Value.nested value) old nested left right hs) → Holds pool.new (held result (fork node.key (V.Value.word value) node.height nested left right) ∷ hs) }
    ensures made { Made pool.old pool.new 1 result }
{
    pool.release(node.nested);
    pool.take(revalued(node, value))
}

/// Puts a key with its value into the tree of the node n: a new node, or a new value where the key already is.
/// The owner of n and the owner of what the value owns become the owner of the result.
pub fn insert<K: Key, V: Value>(pool: &mut Pool<'_>, n: u16, key: K, value: V) -> u16
    requires ready { Insertable pool.old n (V.Value.nested value) }
    ensures owned { (t nested : Tree) (hs : List Held) → Holds pool.old (held n t ∷ held (V.Value.nested value) nested ∷ hs) → Holds pool.new (held result (inserted (compared K.Key.key K.cmp key) (K.Key.words key) (V.Value.word value) nested t) ∷ hs) }
    ensures used { (t : Tree) → Carries pool.old n t → used_of pool.new ≤ used_of pool.old + 3 * height t + 1 }
    ensures replaced { (t : Tree) → Carries pool.old n t → Present (compared K.Key.key K.cmp key) t → used_of pool.new ≤ used_of pool.old + 3 * height t }
    ensures appended { (t : Tree) → Carries pool.old n t → Behind (compared K.Key.key K.cmp key) t → used_of pool.new ≤ used_of pool.old + height t + 1 }
    ensures fresh { (node_at (memory_of pool.new) result).count ≡ 1 }
    ensures size { length (memory_of pool.new) ≡ length (memory_of pool.old) }
    ensures lent { lender_of pool.new ≡ lender_of pool.old }
{
    if n == 0 {
        return build(pool, entry(key, value));
    }
    let node = pool.take_apart(n);
    match compare_at(key, node) {
        Ordering::Less => {
            let left = insert(pool, node.left, key, value);
            balance(pool, Node { left, ..node })
        }
        Ordering::Equal => replace(pool, node, value),
        Ordering::Greater => {
            let right = insert(pool, node.right, key, value);
            balance(pool, Node { right, ..node })
        }
    }
}
