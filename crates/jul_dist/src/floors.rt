//! What no word goes below.
ghost use Rattle.jul_base.specs.DistanceList.{distance_list};

use jul_rows::Rows;
use jul_words::Floors;

/// The least distance of each vertex from the nearest of the sources, `NONE` where no walk leads to it. It is never
/// computed: it stands for the list in contracts.
#[derive(Drop)]
pub struct DistanceFloors<'a> {
    /// The graph.
    pub rows: &'a Rows,
    /// Vertices of it, of which the nearest counts.
    pub sources: &'a [u32],
}

impl<'a> Floors for DistanceFloors<'a> {
    ghost numbers = { λ floors. distance_list floors.rows.now floors.sources.now };
}
