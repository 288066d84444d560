//! The task `kcore`: the coreness and the level of each vertex of a symmetric graph.
ghost use Rattle.std.specs.Prelude.{IfOk, IfErr, OnOk, IsTrue, MatchOption};
ghost use Rattle.jul_base.specs.Symmetry.{IsSymmetric, IsFirstAsymmetricPlace};
ghost use Rattle.jul_witness.specs.Lawful.{AreLawfulCores};
ghost use Rattle.jul_witness.specs.declared.witnesses.Columns.TheVariants as results;
ghost use Rattle.jul_query.specs.Queries.{cores};
ghost use Rattle.jul_cmd.specs.Suited.{IsSuited};
ghost use Rattle.jul_cmd.specs.Solving.{AreValues, IsResult};
ghost use Rattle.jul_cmd.specs.Parts.{IsUnsolved};

use crate::resources::Resources;
use crate::statuses::Status;
use jul_base::{Cores, Gate, MAX_N};
use jul_core::{cores_of, is_found_symmetric};
use jul_rows::Rows;
use std::alloc::AllocError;
use std::thread::Threads;

// Whether the graph is symmetric, or the refusal of its first asymmetric place.
fn check_symmetry<R: Threads + Sync, G: Gate>(
    resources: &Resources<'_, '_, R, G>,
    rows: &Rows,
    is_symmetric: bool,
) -> Result<(), Status>
    requires { IsTrue is_symmetric → IsSymmetric rows.now }

    ensures suited { OnOk result (IsSymmetric rows.now × IsSuited rows.now cores) }
    ensures refused { IfErr result (IsUnsolved rows.now cores) }
{
    prove!(rows.n() <= MAX_N);
    if is_symmetric {
        return Ok(());
    }
    match first_asymmetry(resources, rows)? {
        None => Ok(()),
        Some(place) => Err(Status::Asymmetric { place }),
    }
}

// The first asymmetric place. Several workers first try to find the graph symmetric.
fn first_asymmetry<R: Threads + Sync, G: Gate>(
    resources: &Resources<'_, '_, R, G>,
    rows: &Rows,
) -> Result<Option<u32>, AllocError>
    ensures { IfOk result (λ found.
        MatchOption found (IsSymmetric rows.now) (IsFirstAsymmetricPlace rows.now)) }
{
    if resources.team.workers <= 1 {
        return rows.first_asymmetry();
    }
    if is_found_symmetric(resources.rt, resources.alloc, &resources.team, rows)? {
        return Ok(None);
    }
    rows.first_asymmetry_by_tallies()
}

/// The coreness and the level of each vertex, or why there are none. A graph that is known to be symmetric isn't tested.
pub fn find_cores<R: Threads + Sync, G: Gate>(
    resources: &Resources<'_, '_, R, G>,
    rows: &Rows,
    is_symmetric: bool,
) -> Result<Cores, Status>
    requires { IsTrue is_symmetric → IsSymmetric rows.now }

    ensures suited { OnOk result (IsSuited rows.now cores) }
    ensures values { IfOk result (λ found. AreValues rows.now cores found.core) }
    ensures whole { IfOk result (λ found. IsResult rows.now cores (results.Cores found)) }
    ensures lawful { IfOk result AreLawfulCores }
    ensures refused { IfErr result (IsUnsolved rows.now cores) }
{
    prove!(rows.n() <= MAX_N);
    check_symmetry(resources, rows, is_symmetric)?;
    let found = cores_of(
        resources.rt,
        resources.alloc,
        &resources.team,
        rows,
        resources.open_buckets,
    )?;
    Ok(found)
}
