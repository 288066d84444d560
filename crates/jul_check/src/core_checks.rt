//! The check of cores.
//!
//! Two bounds on each vertex by one pass over its row, and an order of all vertices: with the bounds, no list
//! that holds a vertex can have more places into it than the vertex's core.
ghost use Rattle.std.specs.Prelude.{◌≡◌, ℕ, ◌<◌, length, slice_index, All, IfOk};
ghost use Rattle.jul_base.specs.Numbers.{IsColumn};
ghost use Rattle.jul_base.specs.Graph.{vertices};
ghost use Rattle.jul_base.specs.Coreness.{IsCoreness};
ghost use Rattle.jul_base.specs.Levels.{IsLevel};
ghost use Rattle.jul_check.specs.CoreChecks.{at_least, not_before, is_outranked};
ghost use Rattle.jul_check.specs.CoreChecks.{fails_cores, core_reasons, cores_verdict};
ghost use Rattle.jul_check.specs.Marks.{AreMarks};
ghost use Rattle.jul_check.specs.declared.verdicts.Verdict.TheVariants.{Yes};

use crate::core_order::mark_outranked;
use crate::verdict_search::{VertexTest, first_failing};
use crate::verdicts::{Reason, Verdict};
use jul_base::Cores;
use jul_rows::Rows;
use std::alloc::{AllocError, Global};

/// What the row of a vertex says of it.
struct RowTally {
    /// Places that lead to vertices of at least the core of this one.
    at_least: u64,
    /// Places that lead to vertices that aren't before this one.
    not_before: u64,
}

/// Whether the columns are cores of the graph, or the least vertex that shows they are not.
///
/// A yes implies that each number of `core` is the coreness of its vertex. Corenesses with the rounds of
/// peeling as levels are accepted. Memory that runs out is the only refusal. Takes memory for a pair and a
/// mark a vertex.
pub fn check_cores(alloc: Global, rows: &Rows, c: &Cores) -> Result<Verdict, AllocError>
    requires core { length c.now.core ≡ vertices rows.now }
    requires level { length c.now.level ≡ vertices rows.now }

    ensures verdict { IfOk result (λ verdict. verdict ≡ cores_verdict rows.now c.now) }
    ensures sound { IfOk result (λ verdict. verdict ≡ Yes → (v : ℕ) → v < vertices rows.now →
        IsCoreness rows.now v (slice_index c.now.core v)) }
    ensures accepts { IfOk result (λ verdict.
        IsColumn (vertices rows.now) (IsCoreness rows.now) c.now.core →
        IsColumn (vertices rows.now) (IsLevel rows.now) c.now.level → verdict ≡ Yes) }
{
    let test = CoreTest {
        rows,
        c,
        outranked: mark_outranked(alloc, c, rows.n())?,
    };
    Ok(first_failing(rows, &test))
}

/// Cores with a mark for each vertex that is out of order.
#[derive(Drop)]
struct CoreTest<'a> {
    rows: &'a Rows,
    c: &'a Cores,
    /// Whether some vertex before this one has a greater core.
    outranked: Vec<bool>,
}

impl<'a> VertexTest for CoreTest<'a> {
    ghost can_test = { λ t v. (v < vertices t.rows.now) × (length t.c.now.core ≡ vertices t.rows.now)
        × (length t.c.now.level ≡ vertices t.rows.now)
        × AreMarks (vertices t.rows.now) (is_outranked t.c.now (vertices t.rows.now)) t.outranked.items };

    ghost fails = { λ t. fails_cores t.rows.now t.c.now };

    ghost reasons = { core_reasons };

    fn first_reason(&self, v: u32) -> Option<Reason> {
        let at = v as usize;
        let core = self.c.core.get(at);
        let RowTally {
            at_least,
            not_before,
        } = tally(self.c, self.rows.row(v), v);
        if at_least < core {
            Some(Reason::LowerBound)
        } else if core < not_before {
            Some(Reason::UpperBound)
        } else if self.outranked[at] {
            Some(Reason::Order)
        } else {
            None
        }
    }
}

/// Both counts of the row of `v`.
fn tally(c: &Cores, row: &[u32], v: u32) -> RowTally
    requires row { All (λ w. w < length c.now.core) row.now }
    requires level { length c.now.level ≡ length c.now.core }
    requires vertex { v < length c.now.core }

    ensures at_least { result.at_least ≡ at_least c.now v row.now }
    ensures not_before { result.not_before ≡ not_before c.now v row.now }
{
    let core = c.core.get(v as usize);
    let level = c.level.get(v as usize);
    let mut at_least = 0;
    let mut not_before = 0;
    for w in row {
        let at = *w as usize;
        if core <= c.core.get(at) {
            at_least += 1;
        }
        let there = c.level.get(at);
        if !(there < level || (there == level && *w < v)) {
            not_before += 1;
        }
    }
    RowTally {
        at_least,
        not_before,
    }
}
