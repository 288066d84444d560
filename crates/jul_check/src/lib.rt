//! Checkers of results that anyone may have written: cores, distances and set covers.
//!
//! A yes on cores or on distances implies that they are right, whoever wrote the columns; a yes on a cover that the
//! chosen sets hold every element. A no names the least vertex that fails and its first reason. The rows need not be
//! symmetric.
#![tactic(auto)]

mod core_checks;
mod core_order;
mod cover_checks;
mod cover_marks;
mod distance_checks;
mod source_marks;
mod tree_marks;
mod verdict_search;
mod verdicts;

pub use core_checks::check_cores;
pub use cover_checks::check_cover;
pub use distance_checks::check_distances;
pub use verdicts::{Reason, Verdict};

#[cfg(test)]
mod tests;
