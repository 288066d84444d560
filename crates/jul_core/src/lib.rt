//! Coreness and level of each vertex, by peeling over buckets: Julienne's work-efficient k-core (Dhulipala, Blelloch, Shun,
//! SPAA 2017).
//!
//! Vertices wait in the bucket of their degree among the vertices that are left. A round draws the first bucket, counts the
//! places that lead from its vertices to each other vertex, and moves each of these that is left down by its count
//! (`moving`), but not below the bucket drawn. That the graph is symmetric is tested by `is_found_symmetric`, where several workers
//! are to do it.
#![tactic(auto)]

mod columns;
mod engine;
mod moving;
mod rounds;
mod symmetry;

pub use engine::{PeelOut, cores_of, peel};
pub use symmetry::is_found_symmetric;

#[cfg(test)]
mod tests;
