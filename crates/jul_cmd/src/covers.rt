//! The task `cover`: an approximate set cover, in rounds.
ghost use Rattle.std.specs.Prelude.{IfOk, IfErr, OnOk};
ghost use Rattle.jul_witness.specs.Lawful.{IsLawfulCover};
ghost use Rattle.jul_witness.specs.declared.witnesses.Columns.TheVariants as results;
ghost use Rattle.jul_query.specs.Queries.{cover};
ghost use Rattle.jul_cmd.specs.Suited.{IsSuited};
ghost use Rattle.jul_cmd.specs.Solving.{IsResult};
ghost use Rattle.jul_cmd.specs.Parts.{IsUnsolved};

use crate::resources::Resources;
use crate::statuses::Status;
use jul_base::{Cover, Gate, MAX_N};
use jul_cover::cover_of;
use jul_rows::Rows;
use std::thread::Threads;

/// The rounds of a cover and the set of each element, or why there are none. The rows are given back before the rounds begin.
pub fn find_cover<R: Threads + Sync, G: Gate>(
    resources: &Resources<'_, '_, R, G>,
    rows: Rows,
) -> Result<Cover, Status>
    ensures suited { OnOk result (IsSuited rows cover) }
    ensures whole { IfOk result (λ found. IsResult rows cover (results.Cover found)) }
    ensures lawful { IfOk result IsLawfulCover }
    ensures refused { IfErr result (IsUnsolved rows cover) }
{
    prove!(rows.n() <= MAX_N);
    let found = cover_of(
        resources.rt,
        resources.alloc,
        &resources.team,
        rows,
        resources.open_buckets,
    )?;
    Ok(found)
}
