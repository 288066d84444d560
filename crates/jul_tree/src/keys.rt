//! Hops and parent as one number, so that the lesser key has fewer hops, and with as many hops the lesser parent.
ghost use Rattle.std.specs.Prelude.{◌≡◌, ◌≤◌};
ghost use Rattle.jul_base.specs.declared.limits.TheConstants.{MAX_N};
ghost use Rattle.jul_tree.specs.Hooking.{key, parent_of};

use jul_base::NONE;

/// From one number of hops to the next, in a key.
const STEP: u64 = 4_294_967_296;

/// The key of so many hops and a parent.
#[inline]
pub(crate) fn key_of(hop: u64, parent: u32) -> u64
    requires few { hop ≤ MAX_N }

    ensures { result ≡ key hop parent }
{
    hop * STEP + u64::from(parent)
}

/// The parent that a key word tells, `NONE` where none was offered.
#[inline]
pub(crate) fn parent_in(word: u64) -> u64
    ensures { result ≡ parent_of word }
{
    if word == NONE { NONE } else { word % STEP }
}
