//! Sets of vertices as in Ligra, kept as a list or as marks, with a map and a filter over their members.
//!
//! Make a `VertexSubset` with `VertexSubset::from_list`, and hand it to `vertex_map` or `vertex_filter` with a team
//! of threads. Contracts see its members as an increasing list, whichever way they are kept.
#![tactic(auto)]

mod chunks;
mod errors;
mod filters;
mod functions;
mod lists;
mod maps;
mod marks;
mod subsets;

pub use chunks::{chunk_at, joined};
pub use errors::SubsetError;
pub use filters::vertex_filter;
pub use functions::{VertexFn, VertexTest};
pub use maps::vertex_map;
pub use subsets::VertexSubset;

#[cfg(test)]
mod tests;
