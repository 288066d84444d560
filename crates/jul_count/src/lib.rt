//! How many places lead from a subset of vertices to each target: the counting edge map of Julienne (Dhulipala, Blelloch,
//! Shun, SPAA 2017).
//!
//! Open a `CountWords` with a word for each vertex, and hand it to `edge_map_count` with a subset. The same table serves
//! the next call, since each call leaves all words at 0. `edge_counts_noted` counts the same in no order, into
//! lists that are used again. `pack` takes sets down to the elements that a test keeps.
#![tactic(auto)]

mod adding;
mod draining;
mod edge_counts;
mod noted_counts;
mod packing;

pub use edge_counts::edge_map_count;
pub use noted_counts::edge_counts_noted;
pub use packing::pack;

#[cfg(test)]
mod tests;
