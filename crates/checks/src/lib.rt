//! Examples of what the register and the script runner answer, each proved safe and then run.

#![tactic(auto)]

#[cfg(test)]
mod lines;
#[cfg(test)]
mod names;
#[cfg(test)]
mod runs;
#[cfg(test)]
mod scripts;
