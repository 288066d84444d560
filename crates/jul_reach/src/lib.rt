//! Two algorithms over edge maps, as examples: which vertices a walk from a source leads to, and the least vertex of a
//! subset from which a place leads to each vertex. The second lowers shared words.
//!
//! `docs/ADD-AN-ALGORITHM.md` goes through them line by line.
#![tactic(auto)]

mod marks;
mod offering;
mod reaching;
#[cfg(test)]
mod tests;
mod words;

pub use offering::{LeastSources, OfferSource, least_sources};
pub use reaching::{Unreached, reached_from};
