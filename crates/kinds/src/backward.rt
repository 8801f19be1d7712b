//! Names in the backward order.

ghost use Rattle.std.specs.Prelude.{◌≡◌, ℕ, List};
ghost use Rattle.kinds.specs.Lexical.{by_words, lexical};
ghost use Rattle.kinds.specs.Name.{IsName};
ghost use Rattle.kinds.specs.Packed.{name_of};
ghost use Rattle.std.proofs.Common.{rules};
ghost use Rattle.std.specs.Cmp.{partial_order_from_own_ties};
ghost use Rattle.std.specs.Cmp.Rules.{comparing};
ghost use Rattle.std.specs.Ordering.{as_partial_cmp, flip_args, on};

use crate::name::Name;
use pool::Words;
use std::cmp::Ordering;
use tree::Key;

/// A name in the backward order: by bytes, the greater first.
/// `Reverse<Name>` would not do: it is no `Key`, and no clause of its `cmp` speaks of the bytes.
#[derive(Clone, Copy, PartialEq, Eq)]
pub struct BackwardName {
    pub name: Name,
}

impl Ord for BackwardName {
    ghost cmp = { flip_args (on (λ backward. backward.name.words) by_words) };

    ghost total = { Prim.search (comparing, rules) };

    ghost matches_partial_cmp = { Prim.search (comparing, rules) };

    ghost matches_eq = { Prim.search (comparing, rules) };

    fn cmp(&self, other: &BackwardName) -> Ordering
        ensures words { result ≡ by_words other.now.name.words self.now.name.words }
        ensures bytes { (a b : List ℕ) → IsName a → IsName b → self.now.name ≡ name_of a → other.now.name ≡ name_of b → result ≡ lexical b a }
    {
        other.name.cmp(&self.name)
    }
}

/// As `cmp`; a derive would go forward.
impl PartialOrd for BackwardName {
    ghost partial_cmp = { as_partial_cmp (flip_args (on (λ backward. backward.name.words) by_words)) };

    ghost laws = { partial_order_from_own_ties (Prim.search (comparing, rules)) (Prim.search (comparing, rules)) };

    fn partial_cmp(&self, other: &BackwardName) -> Option<Ordering> {
        Some(self.cmp(other))
    }
}

impl Key for BackwardName {
    ghost words = { λ backward. backward.name.words };

    ghost key = { λ words. record { name = record { words = words } } };

    ghost back = { Prim.search rules };

    ghost equal = { Prim.search (comparing, rules) };

    ghost same = { Prim.search (comparing, rules) };

    fn to_words(self) -> Words {
        self.name.to_words()
    }

    fn from_words(stored: Words) -> BackwardName {
        BackwardName {
            name: Name::from_words(stored),
        }
    }
}
