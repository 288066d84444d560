//! The tasks `wbfs` and `delta`: least distances from the nearest of some sources, with the hops and the parents that bear them out.
ghost use Rattle.std.specs.Prelude.{◌≤◌, IfOk, IfErr, OnOk};
ghost use Rattle.jul_base.specs.Sources.{AreNamedSources, AreSources};
ghost use Rattle.jul_base.specs.Graph.{vertices};
ghost use Rattle.jul_witness.specs.Lawful.{AreLawfulDistances};
ghost use Rattle.jul_witness.specs.declared.witnesses.Columns.TheVariants as results;
ghost use Rattle.jul_query.specs.Queries.{distances};
ghost use Rattle.jul_cmd.specs.Suited.{IsSuited};
ghost use Rattle.jul_cmd.specs.Solving.{AreValues, IsResult};
ghost use Rattle.jul_cmd.specs.Parts.{IsUnsolved};

use crate::resources::Resources;
use crate::sources::check_sources;
use crate::statuses::Status;
use jul_base::{Column, Distances, Gate, MAX_N};
use jul_dist::least_distances;
use jul_rows::Rows;
use jul_tree::hops_and_parents;
use std::thread::Threads;

/// The least distances from the nearest source, or why there are none. `delta` is the width of a bucket of distances.
pub fn find_distances<R: Threads + Sync, G: Gate>(
    resources: &Resources<'_, '_, R, G>,
    rows: &Rows,
    sources: &[u32],
    delta: u32,
) -> Result<Column, Status>
    requires sources { AreNamedSources sources.now }
    requires delta { 1 ≤ delta }

    ensures suited { OnOk result (IsSuited rows.now (distances sources.now)) }
    ensures sources { OnOk result (AreSources (vertices rows.now) sources.now) }
    ensures found { IfOk result (AreValues rows.now (distances sources.now)) }
    ensures refused { IfErr result (IsUnsolved rows.now (distances sources.now)) }
{
    check_sources(sources, rows.n())?;
    let column = least_distances(
        resources.rt,
        resources.alloc,
        &resources.team,
        rows,
        None,
        sources,
        u64::from(delta),
        resources.open_buckets,
    )?;
    Ok(column)
}

/// The least distances from the nearest source with hops and parents, or why there are none.
pub fn find_tree<R: Threads + Sync, G: Gate>(
    resources: &Resources<'_, '_, R, G>,
    rows: &Rows,
    sources: &[u32],
    delta: u32,
) -> Result<Distances, Status>
    requires sources { AreNamedSources sources.now }
    requires delta { 1 ≤ delta }

    ensures suited { OnOk result (IsSuited rows.now (distances sources.now)) }
    ensures whole { IfOk result (λ found.
        IsResult rows.now (distances sources.now) (results.Distances found)) }
    ensures lawful { IfOk result AreLawfulDistances }
    ensures refused { IfErr result (IsUnsolved rows.now (distances sources.now)) }
{
    prove!(rows.n() <= MAX_N);
    let dist = find_distances(resources, rows, sources, delta)?;
    let (hops, parent) = hops_and_parents(
        resources.rt,
        resources.alloc,
        &resources.team,
        rows,
        None,
        sources,
        dist.as_slice(),
    )?;
    Ok(Distances { dist, hops, parent })
}
