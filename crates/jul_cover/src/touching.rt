//! Which sets a round touches.
ghost use Rattle.std.specs.Prelude.{◌≡◌, ℕ, ◌<◌, ◌++◌, length, All, IfOk, OnOk};
ghost use Rattle.std.specs.List.{flat_map};
ghost use Rattle.jul_cover.specs.PackedSets.{pack_at, ArePacked};
ghost use Rattle.jul_cover.specs.Keeping.{AreWithin, holders_at, holders_of};

use crate::packed_sets::PackedSets;
use crate::packing::pack_of;
use jul_rows::InRows;
use std::alloc::{AllocError, Global};

/// The sets that hold something of what is left of these, each maybe more than once.
pub(crate) fn touched_by(
    alloc: Global,
    packs: &PackedSets,
    holders: &InRows,
    sets: &[u32],
) -> Result<Vec<u32>, AllocError>
    requires packed { ArePacked packs.now }
    requires within { AreWithin packs.now.n holders.now }
    requires in_range { All (λ s. s < packs.now.n) sets.now }

    ensures { IfOk result (λ touched. touched.items ≡ holders_of (pack_at packs.now) holders.now sets.now) }
{
    let mut touched = Vec::new(alloc);
    for s in sets {
        push_holders(&mut touched, holders, pack_of(packs, *s))?;
    }
    Ok(touched)
}

/// Puts the sets that hold each of these elements behind others.
fn push_holders(
    touched: &mut Vec<u32>,
    holders: &InRows,
    elements: &[u32],
) -> Result<(), AllocError>
    requires in_range { All (λ e. e < length holders.now.places) elements.now }

    ensures { OnOk result (touched.new.items ≡ touched.old.items ++ flat_map (holders_at holders.now) elements.now) }
{
    for e in elements {
        touched.extend_from_slice(holders.sources(*e))?;
    }
    Ok(())
}
