//! A graph as a file lists it.
ghost use Rattle.std.specs.Prelude.{◌↔◌, IsTrue};

use crate::columns::Ids;
use crate::lawfulness::{are_below, begins_with_zero, rises};
use crate::limits::{MAX_M, MAX_N, MAX_W};

/// A graph in compressed sparse rows: where the row of each vertex begins in the list of all targets, the
/// targets, and their weights. There are no weights where each is 1.
///
/// The place of an edge is its index among the targets. The form is that of PBBS.
#[derive(Drop)]
pub struct RawGraph {
    /// Whether the graph has weights of its own.
    pub weighted: bool,
    /// For each vertex the place at which its row begins.
    pub offsets: Ids,
    /// For each place the vertex that its edge leads to.
    pub targets: Ids,
    /// For each place its weight, or nothing where the graph has none.
    pub weights: Ids,
}

impl RawGraph {
    ghost use Rattle.jul_base.specs.Graph.{IsLawful, FitsSizes};

    /// Whether the lists are those of a graph within the limits: the first offset is 0 and offsets never fall, none
    /// of them exceeds the number of places, targets are vertices, and there is a weight for each place or none at
    /// all. A graph that was read from a file always is. Two passes over the offsets and one over each other list;
    /// takes no memory.
    pub fn is_lawful(&self) -> bool
        ensures { IsTrue result ↔ IsLawful self.now }
    {
        let offsets = self.offsets.as_slice();
        let targets = self.targets.as_slice();
        self.fits_sizes()
            && begins_with_zero(offsets)
            && rises(offsets)
            && are_below(offsets, targets.len() + 1)
            && are_below(self.weights.as_slice(), MAX_W as usize + 1)
            && are_below(targets, offsets.len())
    }

    /// Whether the lists are as long as they may be, and fit together.
    fn fits_sizes(&self) -> bool
        ensures { IsTrue result ↔ FitsSizes self.now }
    {
        let n = self.offsets.len();
        let m = self.targets.len();
        let weights = if self.weighted { m } else { 0 };
        n <= MAX_N as usize
            && m <= MAX_M as usize
            && self.weights.len() == weights
            && (n != 0 || m == 0)
    }
}
