//! Set cover by bids: the approximate cover of Julienne (Dhulipala, Blelloch, Shun, SPAA 2017), in rounds.
//!
//! Sets wait in the bucket of the logarithm of their size, the greatest first. A round draws a bucket, packs its sets down to
//! the elements that aren't covered (`packing`), lets each that is still large bid for its elements over words that workers
//! lower (`offering`), chooses those that won half (`choosing`, and `counting` by workers), and lets these take theirs. Where
//! one bucket is drawn again and again, all sets are kept packed, and a round costs what it changes (`keeping`). `cover` does
//! it over tables and buckets that are handed in, `cover_of` makes its own.
#![tactic(auto)]

mod choosing;
mod columns;
mod counting;
mod engine;
mod holding;
mod keeping;
mod kept_rounds;
mod moving;
mod offering;
mod packed_sets;
mod packing;
mod rounds;
mod sizes;
mod tables;
mod taking;
mod touching;
mod turns;
mod winning;

pub use engine::{CoverOut, cover, cover_of};

#[cfg(test)]
mod tests;
