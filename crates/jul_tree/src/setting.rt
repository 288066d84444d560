//! Numbers for the vertices that a round reached.
ghost use Rattle.std.specs.Prelude.{◌≡◌, ◌≢◌, ◌<◌, length, All, IfOk, replicate, slice_index};
ghost use Rattle.std.specs.List.Sorted.{IsStrictlyIncreasing};
ghost use Rattle.jul_base.specs.declared.limits.TheConstants.{NONE};
ghost use Rattle.jul_tree.specs.Hooking.{HasSet};

use jul_base::NONE;
use std::alloc::{AllocError, Global};

/// Gives these vertices, which have no number, this one.
pub(crate) fn set_hops(hops: &mut [u64], ids: &[u32], hop: u64)
    requires increasing { IsStrictlyIncreasing ids.now }
    requires none { All (λ v. slice_index hops.old v ≡ NONE) ids.now }
    requires within { All (λ v. v < length hops.old) ids.now }
    requires some { hop ≢ NONE }

    ensures { HasSet hops.old hops.new ids.now hop }
{
    for id in ids {
        hops[*id as usize] = hop;
    }
}

/// 0 for each source, `NONE` for each other vertex below `n`.
pub(crate) fn first_hops(alloc: Global, n: u32, sources: &[u32]) -> Result<Vec<u64>, AllocError>
    requires increasing { IsStrictlyIncreasing sources.now }
    requires within { All (λ s. s < n) sources.now }

    ensures { IfOk result (λ hops. HasSet (replicate n NONE) hops.items sources.now 0) }
{
    let mut hops = vec![in alloc; NONE; n as usize]?;
    set_hops(hops.as_mut_slice(), sources, 0);
    Ok(hops)
}
