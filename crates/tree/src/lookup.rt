//! Questions to a tree of ascending keys, answered on the way down. Each takes the nodes of a pool and a root: the number
//! of a node, or 0 for the tree without one. Nothing is written, and no owner changes.

ghost use Rattle.std.specs.Prelude.{◌≡◌, ◌↔◌, if◌then◌else◌, IfSome, IsNone, Some};
ghost use Rattle.pool.specs.Held.{CarriesIn};
ghost use Rattle.pool.specs.Node.{node_at};
ghost use Rattle.pool.specs.Tree.{Tree};
ghost use Rattle.std.specs.Option.{option_or};
ghost use Rattle.std.specs.Ordering.{is_ge};
ghost use Rattle.tree.specs.Answer.{GivenItem, GivenValue};
ghost use Rattle.tree.specs.Ends.{at_end};
ghost use Rattle.tree.specs.Lookup.{after, at_most, find, first, first_after, first_of, item_at, last, last_at_most, last_of};
ghost use Rattle.tree.specs.Readable.{Readable};
ghost use Rattle.tree.specs.Shape.{Ascending, items};

use crate::end::End;
use crate::key::Key;
use crate::place::{compare_at, is_before, side};
use crate::value::Value;
use pool::{Node, node_in};
use std::cmp::Ordering;

/// The node at the root of a tree, if it has one.
pub(crate) fn top(nodes: &[Node], root: u16) -> Option<Node>
    requires { Readable nodes.now root }
    ensures none { IsNone result ↔ (root ≡ 0) }
    ensures some { IfSome result (λ node. node ≡ node_at nodes.now root) }
{
    if root == 0 {
        None
    } else {
        Some(node_in(nodes, root))
    }
}

/// The value that a node has.
fn value_of<V: Value>(node: Node) -> V
    ensures { result ≡ V.Value.value node.word node.nested }
{
    V::from_parts(node.word, node.nested)
}

/// The key and the value that a node has.
fn item_of<K: Key, V: Value>(node: Node) -> (K, V)
    ensures { result ≡ (K.Key.key node.key, V.Value.value node.word node.nested) }
{
    (K::from_words(node.key), value_of(node))
}

/// What was found on a side of the node, or else the node's own key and value.
fn or_item<K: Key, V: Value>(found: Option<(K, V)>, node: Node) -> Option<(K, V)>
    ensures { result ≡ option_or found (Some (K.Key.key node.key, V.Value.value node.word node.nested)) }
{
    found.or(Some(item_of(node)))
}

/// What was found on the key's side of the node, or else the node's own key and value where its key is at most that key.
fn or_at_most<K: Key, V: Value>(
    found: Option<(K, V)>,
    node: Node,
    ordering: Ordering,
) -> Option<(K, V)>
    ensures { result ≡ (if is_ge ordering then option_or found (Some (K.Key.key node.key, V.Value.value node.word node.nested)) else found) }
{
    if ordering.is_ge() {
        or_item(found, node)
    } else {
        found
    }
}

/// The value of the key.
pub fn find<K: Key, V: Value>(nodes: &[Node], root: u16, key: K) -> Option<V>
    requires { Readable nodes.now root }
    ensures answered { (t : Tree) → CarriesIn nodes.now root t → GivenValue nodes.now V.Value.value (find K.Key.key K.cmp key t) result }
    ensures listed { (t : Tree) → CarriesIn nodes.now root t → Ascending K.cmp (items K.Key.key t) → GivenValue nodes.now V.Value.value (item_at K.cmp key (items K.Key.key t)) result }
{
    let node = top(nodes, root)?;
    match compare_at(key, node) {
        Ordering::Equal => Some(value_of(node)),
        unequal => find(nodes, side(node, unequal), key),
    }
}

/// The greatest key that is at most this one, with its value.
pub fn at_most<K: Key, V: Value>(nodes: &[Node], root: u16, key: K) -> Option<(K, V)>
    requires { Readable nodes.now root }
    ensures answered { (t : Tree) → CarriesIn nodes.now root t → GivenItem nodes.now V.Value.value (at_most K.Key.key K.cmp key t) result }
    ensures listed { (t : Tree) → CarriesIn nodes.now root t → Ascending K.cmp (items K.Key.key t) → GivenItem nodes.now V.Value.value (last_at_most K.cmp key (items K.Key.key t)) result }
{
    let node = top(nodes, root)?;
    let ordering = compare_at(key, node);
    let found = at_most(nodes, side(node, ordering), key);
    or_at_most(found, node, ordering)
}

/// The least key after this one, with its value.
pub fn after<K: Key, V: Value>(nodes: &[Node], root: u16, key: K) -> Option<(K, V)>
    requires { Readable nodes.now root }
    ensures answered { (t : Tree) → CarriesIn nodes.now root t → GivenItem nodes.now V.Value.value (after K.Key.key K.cmp key t) result }
    ensures listed { (t : Tree) → CarriesIn nodes.now root t → Ascending K.cmp (items K.Key.key t) → GivenItem nodes.now V.Value.value (first_after K.cmp key (items K.Key.key t)) result }
{
    let node = top(nodes, root)?;
    if is_before(key, node) {
        or_item(after(nodes, side(node, Ordering::Less), key), node)
    } else {
        after(nodes, side(node, Ordering::Greater), key)
    }
}

/// The key at this end, with its value.
fn outermost<K: Key, V: Value>(nodes: &[Node], root: u16, end: End) -> Option<(K, V)>
    requires { Readable nodes.now root }
    ensures answered { (t : Tree) → CarriesIn nodes.now root t → GivenItem nodes.now V.Value.value (at_end end (first K.Key.key K.cmp t) (last K.Key.key K.cmp t)) result }
    ensures listed { (t : Tree) → CarriesIn nodes.now root t → GivenItem nodes.now V.Value.value (at_end end (first_of (items K.Key.key t)) (last_of (items K.Key.key t))) result }
{
    let node = top(nodes, root)?;
    or_item(outermost(nodes, end.side(node), end), node)
}

/// The least key, with its value.
pub fn first<K: Key, V: Value>(nodes: &[Node], root: u16) -> Option<(K, V)>
    requires { Readable nodes.now root }
    ensures answered { (t : Tree) → CarriesIn nodes.now root t → GivenItem nodes.now V.Value.value (first K.Key.key K.cmp t) result }
    ensures listed { (t : Tree) → CarriesIn nodes.now root t → GivenItem nodes.now V.Value.value (first_of (items K.Key.key t)) result }
{
    outermost(nodes, root, End::First)
}

/// The greatest key, with its value.
pub fn last<K: Key, V: Value>(nodes: &[Node], root: u16) -> Option<(K, V)>
    requires { Readable nodes.now root }
    ensures answered { (t : Tree) → CarriesIn nodes.now root t → GivenItem nodes.now V.Value.value (last K.Key.key K.cmp t) result }
    ensures listed { (t : Tree) → CarriesIn nodes.now root t → GivenItem nodes.now V.Value.value (last_of (items K.Key.key t)) result }
{
    outermost(nodes, root, End::Last)
}
