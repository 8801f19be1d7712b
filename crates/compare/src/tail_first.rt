//! A third order of names, beside the two of `kinds`: by the bytes from the ninth on, and then by the first eight.

ghost use Rattle.std.specs.Prelude.{◌≡◌};
ghost use Rattle.std.proofs.Common.{rules};
ghost use Rattle.std.specs.Cmp.Rules.{comparing};
ghost use Rattle.pool.specs.declared.node.Words.{Words};

use kinds::{Name, NameOrder};
use pool::Words;
use tree::Key;

/// A name's last eight bytes, with zero bytes behind, and its first eight: the derived order goes by them in turn.
#[derive(Clone, Copy, PartialEq, Eq, PartialOrd, Ord)]
pub struct TailFirst {
    tail: u64,
    head: u64,
}

impl Key for TailFirst {
    ghost words = { λ name. record { high = name.head; low = name.tail } };

    ghost key = { λ words. record { tail = words.low; head = words.high } };

    ghost back = { Prim.search rules };

    ghost equal = { Prim.search (comparing, rules) };

    ghost same = { Prim.search (comparing, rules) };

    fn to_words(self) -> Words {
        Words {
            high: self.head,
            low: self.tail,
        }
    }

    fn from_words(stored: Words) -> TailFirst {
        TailFirst {
            tail: stored.low,
            head: stored.high,
        }
    }
}

impl NameOrder for TailFirst {
    ghost named = { λ given. record { tail = given.words.low; head = given.words.high } };

    ghost name = { λ key. record { words = record { high = key.head; low = key.tail } } };

    ghost kept = { Prim.search rules };

    fn from_name(given: Name) -> TailFirst {
        TailFirst::from_words(given.to_words())
    }

    fn to_name(self) -> Name {
        Name::from_words(self.to_words())
    }
}
