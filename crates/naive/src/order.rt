//! Orders of names.

use std::cmp::Ordering;

#[derive(Clone, Copy, Debug, PartialEq, Eq)]
pub enum Order {
    /// By bytes, a name that another begins with before it.
    Forward,
    /// The other way round.
    Backward,
    /// By the bytes from the ninth on, and then by the first eight.
    TailFirst,
}

const HEAD: usize = 8;

impl Order {
    pub fn compare(self, a: &[u8], b: &[u8]) -> Ordering {
        match self {
            Order::Forward => a.cmp(b),
            Order::Backward => b.cmp(a),
            Order::TailFirst => tail(a).cmp(tail(b)).then(head(a).cmp(head(b))),
        }
    }
}

fn head(name: &[u8]) -> &[u8] {
    name.get(..HEAD).unwrap_or(name)
}

fn tail(name: &[u8]) -> &[u8] {
    name.get(HEAD..).unwrap_or(b"")
}
