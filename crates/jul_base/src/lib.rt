//! What every other crate stands on: columns of numbers, graphs as a file lists them, files and sinks of
//! bytes that may fail, the gate before each chunk of work, and the limits of a run.
//!
//! A graph is in the form of the Problem Based Benchmark Suite (PBBS): an offset for each vertex and the
//! targets of all edges in one list. Start with `RawGraph`; `load_all` and `write_whole` move bytes.
#![tactic(auto)]

mod columns;
mod gates;
mod graphs;
mod lawfulness;
mod limits;
mod loading;
mod memory_calls;
mod memory_shelves;
mod memory_sinks;
mod orders;
mod real_shelves;
mod real_sinks;
mod results;
mod shares;
mod shelves;
mod sinks;
mod sums;
mod text_blocks;
mod writing;

pub use columns::{Column, Ids};
pub use gates::{CountGate, Gate, OpenGate};
pub use graphs::RawGraph;
pub use limits::{MAX_BYTES, MAX_M, MAX_N, MAX_SOURCES, MAX_W, NONE};
pub use loading::{LoadError, load_all};
pub use memory_shelves::MemShelf;
pub use memory_sinks::MemSink;
pub use orders::in_order;
pub use real_shelves::RealShelf;
pub use real_sinks::RealSink;
pub use results::{Cores, Cover, Distances};
pub use shares::{Free, Share};
pub use shelves::Shelf;
pub use sinks::{Failed, Sink};
pub use sums::sums_before;
pub use text_blocks::TextBlock;
pub use writing::{write_u64, write_whole};

#[cfg(test)]
mod tests;
