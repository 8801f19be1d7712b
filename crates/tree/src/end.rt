//! The two ends of the order of keys: the first is to the left, the last to the right.

ghost use Rattle.std.specs.Prelude.{◌≡◌};
ghost use Rattle.tree.specs.Ends.{at_end};

use pool::Node;

/// An end of the keys.
#[derive(Clone, Copy)]
pub(crate) enum End {
    First,
    Last,
}

impl End {
    /// Gives the pair as it is at the first end, and swapped at the last. So it turns left and right into near and far, and
    /// back.
    pub(crate) fn turned<T>(self, first: T, second: T) -> (T, T)
        ensures first { result.0 ≡ at_end self first second }
        ensures second { result.1 ≡ at_end self second first }
    {
        match self {
            End::First => (first, second),
            End::Last => (second, first),
        }
    }

    /// The side of a node on this end.
    pub(crate) fn side(self, node: Node) -> u16
        ensures { result ≡ at_end self node.left node.right }
    {
        self.turned(node.left, node.right).0
    }

    /// The node over other sides: `near` on this end, `far` on the other.
    pub(crate) fn over(self, node: Node, near: u16, far: u16) -> Node
        ensures { result ≡ record node { left = at_end self near far; right = at_end self far near } }
    {
        let (left, right) = self.turned(near, far);
        Node {
            left,
            right,
            ..node
        }
    }
}
