//! Which vertices have a parent that bears their distance and their hops out.
//!
//! The row of a parent may be long and its children many, so that no row is searched for each of them. One pass over all
//! places in order marks the target of each place that comes from its parent and bears it out.
ghost use Rattle.std.specs.Prelude.{◌≡◌, ◌+◌, ◌<◌, ◌==◌, length, IfOk};
ghost use Rattle.jul_base.specs.Graph.{vertices, IsLawful};
ghost use Rattle.jul_check.specs.DistanceChecks.{is_parent};
ghost use Rattle.jul_check.specs.Marks.{AreMarks};
ghost use Rattle.jul_check.specs.TreeMarks.{parent_of, is_borne, is_marked};

use jul_base::{Distances, NONE};
use jul_rows::Rows;
use std::alloc::{AllocError, Global};

/// A mark for each vertex, set where the parent that is named for it is one: a vertex with numbers and one hop fewer,
/// with a place that makes the vertex's distance of its own. Takes memory for a mark a vertex.
pub(crate) fn mark_tree(alloc: Global, rows: &Rows, d: &Distances) -> Result<Vec<bool>, AllocError>
    requires dist { length d.now.dist ≡ vertices rows.now }
    requires hops { length d.now.hops ≡ vertices rows.now }
    requires parent { length d.now.parent ≡ vertices rows.now }

    ensures marks { IfOk result (λ marks.
        AreMarks (vertices rows.now) (λ v. is_parent rows.now d.now v (parent_of d.now v)) marks.items) }
{
    let mut marks = vec![in alloc; false; rows.n() as usize]?;
    for u in 0..rows.n() {
        mark_row(rows, d, u, &mut marks);
    }
    Ok(marks)
}

/// Marks the vertices that `u` bears out.
fn mark_row(rows: &Rows, d: &Distances, u: u32, marks: &mut Vec<bool>)
    requires lawful { IsLawful rows.now }
    requires dist { length d.now.dist ≡ vertices rows.now }
    requires hops { length d.now.hops ≡ vertices rows.now }
    requires parent { length d.now.parent ≡ vertices rows.now }
    requires vertex { u < vertices rows.now }
    requires before { AreMarks (vertices rows.now) (is_marked rows.now d.now u) marks.old.items }

    ensures after { AreMarks (vertices rows.now) (is_marked rows.now d.now (u + 1)) marks.new.items }
{
    if d.dist.get(u as usize) == NONE || d.hops.get(u as usize) == NONE {
        return;
    }
    let mut place = rows.first_place(u);
    for v in rows.row(u) {
        if is_borne(d, u, *v, rows.weight(place)) {
            marks[*v as usize] = true;
        }
        place += 1;
    }
}

/// Whether `v` names `u` as its parent, and is one hop and `weight` behind it.
#[inline]
fn is_borne(d: &Distances, u: u32, v: u32, weight: u32) -> bool
    requires source { u < length d.now.dist }
    requires source_hops { u < length d.now.hops }
    requires target { v < length d.now.dist }
    requires target_hops { v < length d.now.hops }
    requires target_parent { v < length d.now.parent }

    ensures { result ≡ is_borne d.now u v weight }
{
    let source = u as usize;
    let target = v as usize;
    d.parent.get(target) == u as u64
        && is_sum(d.dist.get(source), weight, d.dist.get(target))
        && is_sum(d.hops.get(source), 1, d.hops.get(target))
}

/// Whether `number` and `more` are `sum`, which may exceed what a word holds.
#[inline]
fn is_sum(number: u64, more: u32, sum: u64) -> bool
    ensures { result ≡ (number + more == sum) }
{
    number <= sum && sum - number == more as u64
}
