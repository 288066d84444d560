//! Functions applied to the edges that leave a subset of vertices: the edge maps of Ligra (Shun, Blelloch, PPoPP 2013).
//!
//! Implement `EdgeFn`, and hand it to `edge_map` with a subset. `edge_push` walks the rows of the members, `edge_pull`
//! the in-rows of the wanted targets, and `edge_map` chooses between them by the size of the work. `edge_map_with_threshold`
//! leaves to the caller how much work is for a push, and `edge_map_by_reach` pushes where there are no in-rows.
//! `edge_push_noted` and `edge_notes_by_reach` list what they found in no order, for rounds of a few vertices.
#![tactic(auto)]

mod functions;
mod maps;
mod noting;
mod pulling;
mod pulls;
mod pushes;
mod reaching;
mod switching;
mod thresholds;

pub use functions::{Direction, EdgeFn};
pub use maps::{EdgeOut, NotedOut, PullOut};
pub use noting::edge_push_noted;
pub use pulls::edge_pull;
pub use pushes::edge_push;
pub use reaching::{edge_map_by_reach, edge_notes_by_reach};
pub use switching::edge_map;
pub use thresholds::edge_map_with_threshold;

#[cfg(test)]
mod tests;
