//! A node: a key of two words, a value word, three links, a height and a count.

ghost use Rattle.std.specs.Prelude.{◌≡◌, nat_lt};
ghost use Rattle.pool.specs.Node.{free_node, with_count};

/// A key of two 64-bit words.
#[derive(Clone, Copy, Default, PartialEq, Eq, PartialOrd, Ord)]
#[repr(C)]
pub struct Words {
    pub high: u64,
    pub low: u64,
}

/// A node of 40 bytes, in C's layout, so that C can lend it. A link is the number of another node, and 0 is no link, here and
/// wherever a node is named: an `Option` of a 16-bit number, also of a `NonZeroU16`, takes 4 bytes, and the node would have 48.
#[derive(Clone, Copy, Default)]
#[repr(C)]
pub struct Node {
    pub key: Words,
    pub word: i64,
    pub left: u16,
    pub right: u16,
    pub nested: u16,
    pub height: u8,
    /// The number of the node's owners: links of other nodes, and outside owners. 0 is a free node.
    pub count: u32,
}

/// This compiles only where a node has 40 bytes.
const _ROOM: [u8; 40] = [0; size_of::<Node>()];

impl Node {
    /// A free node has no links, and its key's low word names the next free node.
    pub(crate) fn vacant(next: u16) -> Node
        ensures { result ≡ free_node next }
    {
        Node {
            key: Words {
                high: 0,
                low: u64::from(next),
            },
            ..Node::default()
        }
    }

    pub(crate) fn with_count(self, count: u32) -> Node
        ensures { result ≡ with_count self count }
    {
        Node { count, ..self }
    }

    /// Whether the node has more than one owner.
    pub(crate) fn is_shared(self) -> bool
        ensures { result ≡ nat_lt 1 self.count }
    {
        self.count > 1
    }
}
