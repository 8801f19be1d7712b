//! The text of a name.

ghost use Rattle.std.specs.Prelude.{◌≡◌, ◌≤◌, take};

use crate::name::LONGEST;

/// The bytes of a name, at most 16, with zero bytes behind: an array, since nothing is taken from the heap.
#[derive(Clone, Copy, Debug, PartialEq, Eq, PartialOrd, Ord, Hash)]
pub struct NameText {
    pub bytes: [u8; LONGEST],
    pub count: usize,
    ghost within: { count ≤ 16 },
}

impl NameText {
    pub fn as_bytes(&self) -> &[u8]
        ensures { result.now ≡ take self.now.count self.now.bytes }
    {
        &self.bytes[..self.count]
    }
}
