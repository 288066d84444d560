//! Least distances from a list of sources, by parallel rounds of relaxations over shared words.
//!
//! `distances` is delta-stepping (Meyer, Sanders, J. Algorithms 2003), and wBFS where `delta` is 1 (Dhulipala, Blelloch,
//! Shun, SPAA 2017). Vertices wait in the bucket of their tentative distance divided by `delta`. A round draws the first
//! bucket, relaxes the places of its vertices (`rounds`), takes over what the words have become (`settling`) and moves the
//! vertices that were lowered (`moving`).
#![tactic(auto)]

mod engine;
mod floors;
mod limits;
mod moving;
mod relaxing;
mod rounds;
mod searching;
mod settling;
mod starting;

pub use engine::{DistOut, distances, least_distances};
pub use floors::DistanceFloors;
pub use limits::MAX_SUM;

#[cfg(test)]
mod tests;
