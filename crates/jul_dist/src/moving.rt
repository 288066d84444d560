//! Where the vertices go whose numbers fell.
ghost use Rattle.std.specs.Prelude.{◌≡◌, ◌≤◌, All, OnOk};
ghost use Rattle.jul_dist.specs.Moving.{moves_of, CanGo, HasMoved};

use jul_bucket::{Buckets, Dest};
use std::alloc::AllocError;

/// So many vertices are moved at a time, so that the list of their moves stays small where a round lowers many.
const GROUP: usize = 4096;

/// Moves each of these vertices to the bucket of its number, group after group. The list is used again for each group.
pub(crate) fn move_all(
    ids: &[u32],
    values: &[u64],
    delta: u64,
    buckets: &mut Buckets,
    moves: &mut Vec<(u32, u64)>,
) -> Result<(), AllocError>
    requires delta { 1 ≤ delta }
    requires can_go { All (CanGo buckets.old delta values.now) ids.now }

    ensures { OnOk result (HasMoved delta values.now ids.now buckets.old buckets.new) }
{
    let mut rest = ids;
    'groups: while rest.len() > 0 {
        let (group, later) = rest.split_at(rest.len().min(GROUP));
        moves_to(group, values, delta, buckets, moves)?;
        buckets.update_buckets(moves.as_slice())?;
        rest = later;
    }
    Ok(())
}

/// The move of each of these vertices to the bucket of its number, in order, but for those that are there already. They
/// stand in place of what `moves` held.
fn moves_to(
    ids: &[u32],
    values: &[u64],
    delta: u64,
    buckets: &Buckets,
    moves: &mut Vec<(u32, u64)>,
) -> Result<(), AllocError>
    requires delta { 1 ≤ delta }
    requires can_go { All (CanGo buckets.now delta values.now) ids.now }

    ensures { OnOk result (moves.new.items ≡ moves_of buckets.now delta values.now ids.now) }
{
    moves.clear();
    for v in ids {
        let next = values[*v as usize] / delta;
        match buckets.get_bucket(buckets.place(*v), next) {
            Dest::Null => {}
            Dest::Open(_) | Dest::Overflow => moves.push((*v, next))?,
        }
    }
    Ok(())
}
