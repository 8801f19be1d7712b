//! A report: lines of pieces, whole or not at all, in bytes that the caller lends.
#![tactic(auto)]

mod report;

pub use report::{Full, Piece, Report};
