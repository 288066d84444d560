//! Results as text: writing them, and reading them as a witness.
//!
//! The text of a result has a word, the numbers of vertices and places of the graph, for distances the sources,
//! and for each vertex a line of numbers. A bare text has one number a line and nothing else. Start with
//! `write_cores`, `write_distances`, `write_cover` and `read_witness`, which reads what these three write and
//! the shorter texts of version 1; a text that is no witness has one `WitnessFault`.
#![tactic(auto)]

mod bare_texts;
mod columns;
mod faults;
mod forms;
mod heads;
mod laws;
mod lines;
mod reading;
mod rules;
mod scanning;
mod summaries;
mod texts;
mod witnesses;

pub use bare_texts::write_bare;
pub use faults::{WitnessError, WitnessFault, WitnessKind};
pub use reading::read_witness;
pub use summaries::{greatest_number, greatest_value, number_count, times_in};
pub use texts::{write_cores, write_cover, write_distances};
pub use witnesses::{Columns, Witness};

#[cfg(test)]
mod tests;
