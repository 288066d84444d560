//! The limits of a run, and the number that stands for none.

/// The most vertices of a graph.
pub const MAX_N: u32 = 16_777_216;

/// The most places (edges in file order) of a graph.
pub const MAX_M: u32 = 134_217_728;

/// The greatest weight of an edge.
pub const MAX_W: u32 = 4_294_967_295;

/// The most bytes of a file.
pub const MAX_BYTES: u64 = 4_294_967_296;

/// The most sources that distances are taken from.
pub const MAX_SOURCES: u32 = 1_024;

/// What a column holds where there is no number, as the distance of an unreached vertex.
pub const NONE: u64 = 18_446_744_073_709_551_615;
