//! How a key lies to a node: before its key, at it, or behind it.

ghost use Rattle.std.specs.Prelude.{◌≡◌};
ghost use Rattle.std.specs.Ordering.{is_lt};
ghost use Rattle.tree.specs.Lookup.{by_order};

use crate::key::Key;
use pool::Node;
use std::cmp::Ordering;

/// How the key compares with the key of a node.
pub(crate) fn compare_at<K: Key>(key: K, node: Node) -> Ordering
    ensures { result ≡ K.cmp key (K.Key.key node.key) }
{
    key.cmp(&K::from_words(node.key))
}

/// Whether the key is before the key of a node.
pub(crate) fn is_before<K: Key>(key: K, node: Node) -> bool
    ensures { result ≡ is_lt (K.cmp key (K.Key.key node.key)) }
{
    key < K::from_words(node.key)
}

/// The side of the keys that compare so with the key of a node; that key itself is on neither.
pub(crate) fn side(node: Node, ordering: Ordering) -> u16
    ensures { result ≡ by_order ordering node.left 0 node.right }
{
    match ordering {
        Ordering::Less => node.left,
        Ordering::Equal => 0,
        Ordering::Greater => node.right,
    }
}
