//! Names, kept as two words and compared by their bytes.

mod text;

ghost use Rattle.std.specs.Prelude.{◌≡◌, ◌≤◌, ◌↔◌, ℕ, IsTrue, List, length, take};
ghost use Rattle.std.proofs.Common.{rules};
ghost use Rattle.std.specs.Cmp.Rules.{comparing};
ghost use Rattle.std.specs.Ordering.{on};
ghost use Rattle.kinds.specs.Lexical.{by_words, lexical};
ghost use Rattle.kinds.specs.Name.{IsName, IsNameByte};
ghost use Rattle.kinds.specs.Packed.{Checked, bytes_of, front, name_of, packed, padded, spelled, weighed};

use pool::Words;
use std::cmp::Ordering;
pub use text::NameText;
use tree::Key;

/// A name of 1 to 16 bytes, kept as two words: its bytes as digits of a number, the first the greatest, with zero bytes
/// behind.
#[derive(Clone, Copy, PartialEq, Eq, PartialOrd)]
pub struct Name {
    words: Words,
}

/// Bytes that break the rule of names.
#[derive(Clone, Copy, Debug, PartialEq, Eq)]
pub struct NotAName;

const LONGEST: usize = 16;

impl TryFrom<&[u8]> for Name {
    type Error = NotAName;

    ghost try_from_gives = { λ bytes result. Checked bytes.now result };

    #[tactic(auto, using(crate::proofs::Spelling::checked))]
    fn try_from(bytes: &[u8]) -> Result<Name, NotAName> {
        if is_name(bytes) {
            Ok(Name { words: pack(bytes) })
        } else {
            Err(NotAName)
        }
    }
}

impl Name {
    /// The name's bytes, which end before the first zero byte.
    #[tactic(auto, using(crate::proofs::Writing::texts))]
    pub fn text(self) -> NameText
        ensures count { result.count ≡ length (bytes_of self) }
        ensures bytes { result.bytes ≡ padded (bytes_of self) }
        ensures shown { take result.count result.bytes ≡ bytes_of self }
    {
        let mut bytes = self.spelled();
        let count = count_before_zero(&bytes);
        bytes[count..].fill(0);
        NameText { bytes, count }
    }

    /// The bytes of both words.
    #[tactic(auto, unfolding(crate::specs::Packed::spelled))]
    fn spelled(self) -> [u8; LONGEST]
        ensures { result ≡ spelled self }
    {
        let mut bytes = [0; LONGEST];
        bytes[..8].copy_from_slice(&self.words.high.to_be_bytes());
        bytes[8..].copy_from_slice(&self.words.low.to_be_bytes());
        bytes
    }
}

/// Names go by their bytes, a shorter prefix first. A zero byte is below every byte of a name, so that their words go
/// the same way. By hand, since `cmp` states both, and a derive has no clause.
impl Ord for Name {
    ghost cmp = { on (λ name. name.words) by_words };

    ghost total = { Prim.search (comparing, rules) };

    ghost matches_partial_cmp = { Prim.search (comparing, rules) };

    ghost matches_eq = { Prim.search (comparing, rules) };

    #[tactic(auto, using(crate::proofs::ByBytes::ordered))]
    fn cmp(&self, other: &Name) -> Ordering
        ensures words { result ≡ by_words self.now.words other.now.words }
        ensures bytes { (a b : List ℕ) → IsName a → IsName b → self.now ≡ name_of a → other.now ≡ name_of b → result ≡ lexical a b }
    {
        self.words.cmp(&other.words)
    }
}

impl Key for Name {
    ghost words = { λ name. name.words };

    ghost key = { λ words. record { words = words } };

    ghost back = { Prim.search rules };

    ghost equal = { Prim.search (comparing, rules) };

    ghost same = { Prim.search (comparing, rules) };

    fn to_words(self) -> Words {
        self.words
    }

    fn from_words(stored: Words) -> Name {
        Name { words: stored }
    }
}

/// How many bytes stand before the first zero byte.
fn count_before_zero(bytes: &[u8]) -> usize
    ensures { result ≡ length (front bytes.now) }
{
    bytes.iter().take_while(|byte| **byte != 0).count()
}

fn is_name(bytes: &[u8]) -> bool
    ensures { IsTrue result ↔ IsName bytes.now }
{
    !bytes.is_empty() && bytes.len() <= LONGEST && bytes.iter().copied().all(is_name_byte)
}

fn is_name_byte(byte: u8) -> bool
    ensures { IsTrue result ↔ IsNameByte byte }
{
    matches!(byte, b'A'..=b'Z' | b'0'..=b'9' | b'-')
}

/// The first 8 bytes go into the high word, the others into the low word.
#[tactic(auto, using(crate::proofs::Packing::halves))]
fn pack(bytes: &[u8]) -> Words
    requires { length bytes.now ≤ 16 }
    ensures { result ≡ packed bytes.now }
{
    let (high, low) = bytes.split_at(bytes.len().min(8));
    Words {
        high: word_from(high),
        low: word_from(low),
    }
}

/// The bytes as a number with zero bytes behind, the first the greatest.
#[tactic(auto, using(crate::proofs::Packing::word_weighed))]
fn word_from(bytes: &[u8]) -> u64
    requires { length bytes.now ≤ 8 }
    ensures { result ≡ weighed 8 bytes.now }
{
    let mut word = [0; 8];
    word[..bytes.len()].copy_from_slice(bytes);
    u64::from_be_bytes(word)
}
