//! Orders of names.

ghost use Rattle.std.specs.Prelude.{◌≡◌};
ghost use Rattle.kinds.specs.declared.name.Name.{Name};
ghost use Rattle.std.proofs.Common.{rules};

use crate::backward::BackwardName;
use crate::name::Name;
use tree::Key;

/// An order of names: a kind of key that has a key for each name.
/// Its calls are no `From`: the contract of a `From` is a relation, and the law below needs two functions.
pub trait NameOrder: Key {
    ghost named: { Name → Self };

    ghost name: { Self → Name };

    fn from_name(given: Name) -> Self
        ensures { result ≡ named given };

    fn to_name(self) -> Name
        ensures { result ≡ name self };

    /// A name comes back unchanged, so that two names have two keys.
    ghost kept: { (n : Name) → name (named n) ≡ n };
}

impl NameOrder for Name {
    ghost named = { λ given. given };

    ghost name = { λ key. key };

    ghost kept = { Prim.search rules };

    fn from_name(given: Name) -> Name {
        given
    }

    fn to_name(self) -> Name {
        self
    }
}

impl NameOrder for BackwardName {
    ghost named = { λ given. record { name = given } };

    ghost name = { λ key. key.name };

    ghost kept = { Prim.search rules };

    fn from_name(given: Name) -> BackwardName {
        BackwardName { name: given }
    }

    fn to_name(self) -> Name {
        self.name
    }
}
