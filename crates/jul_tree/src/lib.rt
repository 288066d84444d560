//! Hops and parents: the tree that bears distances out, by rounds over tight places.
//!
//! A place is tight where the distance of its target is that of its source and its weight together. Breadth first over
//! tight places gives the least number of places of a walk of least sum, also where places of weight 0 make a ring.
#![tactic(auto)]

mod engine;
mod growing;
mod hooking;
mod keys;
mod parents;
mod rounds;
mod setting;

pub use engine::{TreeOut, hops_and_parents, tree};

#[cfg(test)]
mod tests;
