//! Graph files: reading them, and writing a graph as one.
//!
//! A file is in the text format AdjacencyGraph or WeightedAdjacencyGraph of the Problem Based
//! Benchmark Suite (PBBS): a header word, the numbers of vertices and places, the offsets, the targets,
//! and in a weighted file the weights. Start with `read_graph`; a file that is no graph has one `Fault`. `generate` makes a
//! graph from a seed.
#![tactic(auto)]

mod blocks;
mod cutting;
mod drawing;
mod faults;
mod filling;
mod generating;
mod intakes;
mod joining;
mod lists;
mod pipelines;
mod reading;
mod readings;
mod remainders;
mod rules;
mod sizes;
mod spares;
mod spreading;
mod storing;
mod streaming;
mod values;
mod writing;

pub use faults::{Fault, FaultKind, ReadError, StreamError};
pub use generating::{generate, generate_by};
pub use reading::read_graph;
pub use streaming::{MAX_BLOCK, read_stream};
pub use writing::write_graph;

#[cfg(test)]
mod tests;
