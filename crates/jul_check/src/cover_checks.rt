//! The check of a set cover.
ghost use Rattle.std.specs.Prelude.{◌≡◌, ◌<◌, length, IfOk};
ghost use Rattle.jul_base.specs.CoverRounds.{IsCover};
ghost use Rattle.jul_base.specs.Graph.{vertices};
ghost use Rattle.jul_base.specs.Sets.{sets_of};
ghost use Rattle.jul_check.specs.CoverChecks.{is_element, is_in_its_set, fails_cover, cover_reasons};
ghost use Rattle.jul_check.specs.CoverChecks.{cover_verdict, HoldsEveryElement};
ghost use Rattle.jul_check.specs.Marks.{AreMarks};
ghost use Rattle.jul_check.specs.declared.verdicts.Verdict.TheVariants.{Yes};

use crate::cover_marks::{Marks, mark_all};
use crate::verdict_search::{VertexTest, first_failing};
use crate::verdicts::{Reason, Verdict};
use jul_base::{Cover, NONE};
use jul_rows::Rows;
use std::alloc::{AllocError, Global};

/// Whether the columns are a set cover of the graph, or the least vertex that shows they are not.
///
/// A yes implies that every element is in a set that was chosen. It doesn't say that few were. The columns of the
/// rounds of the cover are accepted. Memory that runs out is the only refusal. Takes memory for two marks a vertex.
pub fn check_cover(alloc: Global, rows: &Rows, c: &Cover) -> Result<Verdict, AllocError>
    requires round { length c.now.round ≡ vertices rows.now }
    requires by { length c.now.by ≡ vertices rows.now }

    ensures verdict { IfOk result (λ verdict. verdict ≡ cover_verdict rows.now c.now) }
    ensures sound { IfOk result (λ verdict. verdict ≡ Yes → HoldsEveryElement rows.now c.now.round) }
    ensures accepts { IfOk result (λ verdict. IsCover (sets_of rows.now) c.now → verdict ≡ Yes) }
{
    let test = CoverTest {
        rows,
        c,
        marks: mark_all(alloc, rows, c)?,
    };
    Ok(first_failing(rows, &test))
}

/// A cover with the marks of its vertices.
#[derive(Drop)]
struct CoverTest<'a> {
    rows: &'a Rows,
    c: &'a Cover,
    marks: Marks,
}

impl<'a> VertexTest for CoverTest<'a> {
    ghost can_test = { λ t v. (v < vertices t.rows.now) × (length t.c.now.round ≡ vertices t.rows.now)
        × (length t.c.now.by ≡ vertices t.rows.now)
        × AreMarks (vertices t.rows.now) (is_element t.rows.now) t.marks.element.items
        × AreMarks (vertices t.rows.now) (is_in_its_set t.rows.now t.c.now) t.marks.held.items };

    ghost fails = { λ t. fails_cover t.rows.now t.c.now };

    ghost reasons = { cover_reasons };

    fn first_reason(&self, v: u32) -> Option<Reason> {
        let at = v as usize;
        let by = self.c.by.get(at);
        if !self.marks.element[at] {
            if by == NONE {
                None
            } else {
                Some(Reason::NoElement)
            }
        } else if by >= self.rows.n() as u64 {
            Some(Reason::NotCovered)
        } else if !self.marks.held[at] {
            Some(Reason::NotHeld)
        } else if self.c.round.get(by as usize) == NONE {
            Some(Reason::NotChosen)
        } else {
            None
        }
    }
}
