//! What the rows say of each vertex, where a cover is checked: one pass over all places.
ghost use Rattle.std.specs.Prelude.{◌≡◌, ◌+◌, ◌<◌, [], length, IfOk};
ghost use Rattle.jul_base.specs.Graph.{vertices};
ghost use Rattle.jul_check.specs.CoverChecks.{is_element, is_in_its_set};
ghost use Rattle.jul_check.specs.CoverMarks.{HasMarked};
ghost use Rattle.jul_check.specs.Marks.{AreMarks};

use jul_base::Cover;
use jul_rows::Rows;
use std::alloc::{AllocError, Global};

/// Two marks for each vertex.
#[derive(Drop)]
pub(crate) struct Marks {
    /// Whether the vertex stands in some set.
    pub(crate) element: Vec<bool>,
    /// Whether the vertex stands in the set that is said to cover it.
    pub(crate) held: Vec<bool>,
}

/// The marks of all vertices. Takes memory for two marks a vertex.
pub(crate) fn mark_all(alloc: Global, rows: &Rows, c: &Cover) -> Result<Marks, AllocError>
    requires by { length c.now.by ≡ vertices rows.now }

    ensures element { IfOk result (λ marks.
        AreMarks (vertices rows.now) (is_element rows.now) marks.element.items) }
    ensures held { IfOk result (λ marks.
        AreMarks (vertices rows.now) (is_in_its_set rows.now c.now) marks.held.items) }
{
    let mut marks = begin(alloc, rows, c)?;
    for s in 0..rows.n() {
        mark_row(rows, c, s, &mut marks);
    }
    Ok(marks)
}

/// No mark yet.
fn begin(alloc: Global, rows: &Rows, c: &Cover) -> Result<Marks, AllocError>
    ensures none { IfOk result (HasMarked rows.now c.now 0 []) }
{
    let n = rows.n() as usize;
    Ok(Marks {
        element: vec![in alloc; false; n]?,
        held: vec![in alloc; false; n]?,
    })
}

/// Marks what the row of `s` says.
fn mark_row(rows: &Rows, c: &Cover, s: u32, marks: &mut Marks)
    requires by { length c.now.by ≡ vertices rows.now }
    requires vertex { s < vertices rows.now }
    requires before { HasMarked rows.now c.now s [] marks.old }

    ensures after { HasMarked rows.now c.now (s + 1) [] marks.new }
{
    for w in rows.row(s) {
        let at = *w as usize;
        marks.element[at] = true;
        if c.by.get(at) == s as u64 {
            marks.held[at] = true;
        }
    }
}
