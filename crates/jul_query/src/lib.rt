//! The command line: what the words after the program's name ask for.
//!
//! The words are split by one `clap` command without subcommands, and then taken by the rules of `specs/Words.antt`. Begin
//! with `parse_words`.
#![tactic(auto)]

mod command_line;
mod counting;
mod numbers;
mod parsing;
mod queries;
mod settings;
mod sources;

pub use command_line::{CommandLine, split_words};
pub use counting::is_counted_twice;
pub use parsing::parse_words;
pub use queries::{Form, Input, Problem, Purpose, Query, Settings, Task, Work};

#[cfg(test)]
mod tests;
