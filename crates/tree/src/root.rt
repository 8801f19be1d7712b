//! A nested tree as a value.

ghost use Rattle.std.specs.Prelude.{◌≡◌, pos};
ghost use Rattle.std.proofs.Common.{rules};

use crate::value::Value;

/// A nested tree or none, as a value: it owns its root, and 0 is no tree.
#[derive(Clone, Copy)]
pub struct Root {
    pub link: u16,
}

impl Value for Root {
    ghost word = { λ _. pos 0 };

    ghost nested = { λ root. root.link };

    ghost value = { λ _ link. record { link = link } };

    ghost back = { Prim.search rules };

    fn to_word(self) -> i64 {
        0
    }

    fn to_link(self) -> u16 {
        self.link
    }

    fn from_parts(_stored: i64, link: u16) -> Root {
        Root { link }
    }
}
