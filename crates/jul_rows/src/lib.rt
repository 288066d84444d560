//! The rows of a graph, its in-rows, and the sets that its rows stand for.
//!
//! The form is that of Ligra (Shun, Blelloch, PPoPP 2013): compressed sparse rows. Start with `Rows`,
//! which is made of a graph that a file lists; `flip` gives `InRows` and `elements` gives `SetRows`. `push_members`
//! walks the rows of some vertices, and calls a `Visit` at each place.
#![tactic(auto)]

mod cuts;
mod distinct;
mod flipping;
mod in_rows;
mod mirroring;
mod out_rows;
mod pushing;
mod reaching;
mod set_rows;
mod symmetry;
mod tally;
mod visits;

pub use in_rows::InRows;
pub use out_rows::Rows;
pub use pushing::{push_members, push_row};
pub use reaching::reach_of;
pub use set_rows::SetRows;
pub use visits::Visit;

#[cfg(test)]
mod tests;
