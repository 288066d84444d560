//! What the searches find, a number for each vertex in each column.

use crate::columns::Column;

/// Cores: for each vertex its coreness and the round of peeling in which it is taken away.
#[derive(Drop)]
pub struct Cores {
    /// The greatest k for which the vertex stands in a list whose members each have k places into it.
    pub core: Column,
    /// Round in which the vertex is taken, counted from 0.
    pub level: Column,
}

/// Distances from a list of sources, each to the nearest, with the tree that bears them out.
#[derive(Drop)]
pub struct Distances {
    /// Least sum of weights of a walk from a source, or `NONE`.
    pub dist: Column,
    /// Least number of places of such a walk, or `NONE`.
    pub hops: Column,
    /// The least vertex before the last place of such a walk, or `NONE`.
    pub parent: Column,
}

/// A set cover: which sets were chosen, and which covers each element.
#[derive(Drop)]
pub struct Cover {
    /// Round in which the set was chosen, or `NONE`.
    pub round: Column,
    /// The set that covers the vertex, or `NONE` where it is no element.
    pub by: Column,
}
