//! Kinds of values, and what they own.

ghost use Rattle.std.specs.Prelude.{◌≡◌, ℕ, ℤ};

/// A kind of value goes into a node's signed word and nested link and comes back unchanged.
/// Its calls are no `From`: the contract of that is a relation, and the law needs functions.
pub trait Value: Copy {
    ghost word: { Self → ℤ };

    /// What the value owns: the root of a nested tree, or 0 for nothing.
    ghost nested: { Self → ℕ };

    ghost value: { ℤ → ℕ → Self };

    fn to_word(self) -> i64
        ensures { result ≡ word self };

    fn to_link(self) -> u16
        ensures { result ≡ nested self };

    fn from_parts(stored: i64, link: u16) -> Self
        ensures { result ≡ value stored link };

    /// A value comes back unchanged.
    ghost back: { (v : Self) → value (word v) (nested v) ≡ v };
}
