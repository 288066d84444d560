//! Which vertices have a vertex of greater core before them, by one sort.
//!
//! The vertices are sorted by level and then id. One pass in that order keeps the greatest core so far.
ghost use Rattle.std.specs.Prelude.{◌≡◌, length, IfOk};
ghost use Rattle.jul_check.specs.CoreChecks.{is_outranked};
ghost use Rattle.jul_check.specs.CoreOrder.{IsByLevel};
ghost use Rattle.jul_check.specs.Marks.{AreMarks};

use jul_base::Cores;
use std::alloc::{AllocError, Global};

/// A mark for each of `n` vertices, set where some vertex before it has a greater core.
///
/// Takes memory for a pair and a mark a vertex.
pub(crate) fn mark_outranked(alloc: Global, c: &Cores, n: u32) -> Result<Vec<bool>, AllocError>
    requires core { length c.now.core ≡ n }
    requires level { length c.now.level ≡ n }

    ensures marks { IfOk result (λ marks. AreMarks n (is_outranked c.now n) marks.items) }
{
    let order = by_level(alloc, c, n)?;
    mark_in_order(alloc, c, order.as_slice(), n)
}

/// The vertices behind their levels, in the order of the check.
fn by_level(alloc: Global, c: &Cores, n: u32) -> Result<Vec<(u64, u32)>, AllocError>
    requires level { length c.now.level ≡ n }

    ensures order { IfOk result (λ order. IsByLevel c.now n order.items) }
{
    let mut order = Vec::with_capacity(alloc, n as usize)?;
    for v in 0..n {
        order.push((c.level.get(v as usize), v))?;
    }
    order.sort_unstable();
    Ok(order)
}

/// The marks of `mark_outranked`, where the order is known.
fn mark_in_order(
    alloc: Global,
    c: &Cores,
    order: &[(u64, u32)],
    n: u32,
) -> Result<Vec<bool>, AllocError>
    requires core { length c.now.core ≡ n }
    requires order { IsByLevel c.now n order.now }

    ensures marks { IfOk result (λ marks. AreMarks n (is_outranked c.now n) marks.items) }
{
    let mut marks = vec![in alloc; false; n as usize]?;
    let mut greatest = 0;
    for (_, v) in order {
        let at = *v as usize;
        let core = c.core.get(at);
        marks[at] = core < greatest;
        greatest = greatest.max(core);
    }
    Ok(marks)
}
