//! The top call: everything that the program does, over any shelf of files, sinks and gate.
//!
//! `run` takes the words after the program's name, reads the files that they name, and writes the answer.
//! Its contract says for every list of words and all files which bytes are written and which refusal comes.
#![tactic(auto)]

mod checking;
mod cores;
mod covers;
mod distances;
mod lines;
mod loading;
mod messages;
mod replies;
mod resources;
mod running;
mod solving;
mod sources;
mod statuses;
mod summaries;

pub use running::run;
pub use statuses::{Status, Which};

#[cfg(test)]
mod hostile;
#[cfg(test)]
mod tests;
#[cfg(test)]
mod trials;
