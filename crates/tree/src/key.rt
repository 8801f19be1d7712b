//! Kinds of keys.

ghost use Rattle.std.specs.Prelude.{◌≡◌};
ghost use Rattle.std.specs.declared.cmp.Ordering.TheVariants.{Equal};
ghost use Rattle.pool.specs.declared.node.Words.{Words};

use pool::Words;

/// A kind of key goes into two words and comes back unchanged. Its order is that of `Ord`.
/// `to_words` and `from_words` are no `From`: the contract of that is a relation, and the laws need two functions.
pub trait Key: Copy + Ord {
    ghost words: { Self → Words };

    ghost key: { Words → Self };

    fn to_words(self) -> Words
        ensures { result ≡ words self };

    fn from_words(stored: Words) -> Self
        ensures { result ≡ key stored };

    /// A key comes back unchanged.
    ghost back: { (k : Self) → key (words k) ≡ k };

    /// Two keys are equal exactly when their words are.
    ghost equal: { (a b : Self) → words a ≡ words b → Self.cmp a b ≡ Equal };

    ghost same: { (a b : Self) → Self.cmp a b ≡ Equal → words a ≡ words b };
}
