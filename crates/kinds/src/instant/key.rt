//! Instants as keys, by their number.

ghost use Rattle.std.specs.Prelude.{◌≡◌};
ghost use Rattle.std.proofs.Common.{rules};
ghost use Rattle.std.specs.Cmp.Rules.{comparing};
ghost use Rattle.std.specs.Ordering.{nat_cmp, on};
ghost use Rattle.kinds.specs.Instant.{instant_of};
ghost use Rattle.kinds.specs.Instants.{instant_of-seconds};

use crate::instant::Instant;
use pool::Words;
use std::cmp::Ordering;
use tree::Key;

/// Instants go by their number. By hand, since `cmp` states it, and a derive has no clause.
impl Ord for Instant {
    ghost cmp = { on (λ instant. instant.seconds) nat_cmp };

    ghost total = { Prim.search (comparing, rules) };

    ghost matches_partial_cmp = { Prim.search (comparing, rules) };

    ghost matches_eq = { Prim.search (comparing, rules) };

    fn cmp(&self, other: &Instant) -> Ordering
        ensures { result ≡ nat_cmp self.now.seconds other.now.seconds }
    {
        self.seconds.cmp(&other.seconds)
    }
}

impl Key for Instant {
    ghost words = { λ instant. record { high = 0; low = instant.seconds } };

    ghost key = { λ words. instant_of words.low };

    ghost back = { instant_of-seconds };

    ghost equal = { Prim.search (comparing, rules) };

    ghost same = { Prim.search (comparing, rules) };

    fn to_words(self) -> Words {
        Words {
            high: 0,
            low: u64::from(self.seconds),
        }
    }

    /// An instant's low word is within its limit. Any other starts again at 0 past it, so `as` is proved to lose nothing.
    fn from_words(stored: Words) -> Instant {
        Instant {
            seconds: (stored.low % 4294967296) as u32,
        }
    }
}
