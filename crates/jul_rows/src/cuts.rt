//! Lists that stand one after another in one list, which bounds cut.
ghost use Rattle.std.specs.Prelude.{◌≡◌, ◌+◌, ◌<◌, length};
ghost use Rattle.jul_rows.specs.Cuts.{part, IsCut};

/// The part number `v` of `items`: those from bound number `v` up to the next bound.
#[inline]
pub fn part_of<'a>(bounds: &[u32], items: &'a [u32], v: u32) -> &'a [u32]
    requires cut { IsCut bounds.now (length items.now) }
    requires in_range { v + 1 < length bounds.now }

    ensures { result.now ≡ part bounds.now items.now v }
{
    let at = v as usize;
    &items[bounds[at] as usize..bounds[at + 1] as usize]
}
