//! The columns of what was drawn, and the degrees that a peeling starts from.
ghost use Rattle.std.specs.Prelude.{◌≡◌, ◌<◌, length, All, IfOk};
ghost use Rattle.jul_base.specs.Graph.{vertices};
ghost use Rattle.jul_core.specs.Peels.{AreWritten, AreCoredBy, AreDegrees, draws_before};

use jul_base::{Column, Cores, MAX_N};
use jul_bucket::Draw;
use jul_rows::Rows;
use std::alloc::{AllocError, Global};

/// The number of its draw and the bucket that it was drawn from, for each vertex that is in a draw.
///
/// They are made once all is drawn: the rounds don't read them, and are the time when most memory is in use.
pub(crate) fn columns_of(alloc: Global, rows: &Rows, draws: &[Draw]) -> Result<Cores, AllocError>
    requires draws { draws.now ≡ draws_before rows.now (length draws.now) }

    ensures { IfOk result (AreCoredBy rows.now draws.now) }
{
    let mut core = vec![in alloc; 0u64; rows.n() as usize]?;
    let mut level = vec![in alloc; 0u64; rows.n() as usize]?;
    write_draws(rows, draws, core.as_mut_slice(), level.as_mut_slice());
    Ok(Cores {
        core: Column::from_vec(core),
        level: Column::from_vec(level),
    })
}

/// Writes the number of each draw, and its bucket, at its vertices.
fn write_draws(rows: &Rows, draws: &[Draw], core: &mut [u64], level: &mut [u64])
    requires draws { draws.now ≡ draws_before rows.now (length draws.now) }
    requires core { length core.old ≡ vertices rows.now }
    requires level { length level.old ≡ vertices rows.now }

    ensures { AreCoredBy rows.now draws.now (record { core = core.new; level = level.new }) }
{
    prove!(rows.n() <= MAX_N);
    for (number, draw) in draws.iter().enumerate() {
        let ids = draw.ids.as_slice();
        write_at(ids, number as u64, level);
        write_at(ids, draw.bucket, core);
    }
}

/// Writes a number at each of these vertices.
fn write_at(ids: &[u32], number: u64, column: &mut [u64])
    requires within { All (λ v. v < length column.old) ids.now }

    ensures { AreWritten ids.now number column.old column.new }
{
    for id in ids {
        column[*id as usize] = number;
    }
}

/// The degree of each vertex.
pub(crate) fn degrees(alloc: Global, rows: &Rows) -> Result<Vec<u64>, AllocError>
    ensures { IfOk result (λ degrees. AreDegrees rows.now degrees.items) }
{
    let mut degrees = Vec::with_capacity(alloc, rows.n() as usize)?;
    for v in 0..rows.n() {
        degrees.push(u64::from(rows.degree(v)))?;
    }
    Ok(degrees)
}
