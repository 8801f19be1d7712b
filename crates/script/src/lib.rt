//! Reads a script line by line, runs it in a register, and reports each line.
#![tactic(auto)]

mod answer;
mod audit;
mod command;
mod lexer;
mod lines;
mod runner;
mod script_lines;
mod shelves;
mod sitting;

pub use audit::{REPORT_BYTES, run_audit};
pub use command::{Command, read_command};
pub use lexer::{Field, Lexer, Part};
pub use lines::line_end;
pub use runner::{Stopped, run};
pub use script_lines::{ScriptLine, ScriptLines};
