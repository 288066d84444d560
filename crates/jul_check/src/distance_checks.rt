//! The check of distances with the tree that bears them out.
//!
//! One pass over the places marks the vertices whose parents bear them out, another over vertices and places finds the
//! first vertex that fails. No sum is made, so that none wraps: numbers are compared by what one is more than the other.
ghost use Rattle.std.specs.Prelude.{◌≡◌, ◌+◌, ◌<◌, length, nat_lt, find, IfOk};
ghost use Rattle.jul_base.specs.Graph.{vertices, IsLawful};
ghost use Rattle.jul_base.specs.Sets.{has};
ghost use Rattle.jul_base.specs.Sources.{AreSources};
ghost use Rattle.jul_base.specs.Distances.{AreDistances};
ghost use Rattle.jul_base.specs.Trees.{AreTree};
ghost use Rattle.jul_check.specs.DistanceChecks.{is_lowerable, is_parent};
ghost use Rattle.jul_check.specs.DistanceChecks.{fails_as, fails_distances};
ghost use Rattle.jul_check.specs.DistanceChecks.{distance_reasons, distances_verdict};
ghost use Rattle.jul_check.specs.Marks.{AreMarks};
ghost use Rattle.jul_check.specs.TreeMarks.{parent_of};
ghost use Rattle.jul_check.specs.declared.verdicts.Verdict.TheVariants.{Yes};

use crate::source_marks::mark_sources;
use crate::tree_marks::mark_tree;
use crate::verdict_search::{VertexTest, first_failing};
use crate::verdicts::{Reason, Verdict};
use jul_base::{Distances, NONE};
use jul_rows::Rows;
use std::alloc::{AllocError, Global};

/// Whether the columns are distances from the sources, each to the nearest, with hops and parents that bear them out, or
/// the least vertex that shows they are not. `sources` is an increasing list of 1 to `MAX_SOURCES` vertices.
///
/// A yes implies that each number of `dist` is the least distance of its vertex. Distances with the least hops and the
/// least parents are accepted. Memory that runs out is the only refusal. Takes memory for two marks a vertex.
pub fn check_distances(
    alloc: Global,
    rows: &Rows,
    sources: &[u32],
    d: &Distances,
) -> Result<Verdict, AllocError>
    requires sources { AreSources (vertices rows.now) sources.now }
    requires dist { length d.now.dist ≡ vertices rows.now }
    requires hops { length d.now.hops ≡ vertices rows.now }
    requires parent { length d.now.parent ≡ vertices rows.now }

    ensures verdict { IfOk result (λ verdict. verdict ≡ distances_verdict rows.now sources.now d.now) }
    ensures sound { IfOk result (λ verdict. verdict ≡ Yes → AreDistances rows.now sources.now d.now.dist) }
    ensures accepts { IfOk result (λ verdict.
        AreTree rows.now sources.now d.now.dist d.now.hops d.now.parent → verdict ≡ Yes) }
{
    let test = DistanceTest {
        rows,
        sources,
        d,
        is_source: mark_sources(alloc, sources, rows.n())?,
        is_borne: mark_tree(alloc, rows, d)?,
    };
    Ok(first_failing(rows, &test))
}

/// Distances with two marks for each vertex.
#[derive(Drop)]
struct DistanceTest<'a> {
    rows: &'a Rows,
    /// Contracts alone read the list, `is_source` stands for it.
    sources: &'a [u32],
    d: &'a Distances,
    /// Whether the vertex is a source.
    is_source: Vec<bool>,
    /// Whether its parent bears it out.
    is_borne: Vec<bool>,
}

impl<'a> VertexTest for DistanceTest<'a> {
    ghost can_test = { λ t v. IsLawful t.rows.now × (v < vertices t.rows.now)
        × (length t.d.now.dist ≡ vertices t.rows.now) × (length t.d.now.hops ≡ vertices t.rows.now)
        × (length t.d.now.parent ≡ vertices t.rows.now)
        × AreMarks (vertices t.rows.now) (has t.sources.now) t.is_source.items
        × AreMarks (vertices t.rows.now)
        (λ u. is_parent t.rows.now t.d.now u (parent_of t.d.now u)) t.is_borne.items };

    ghost fails = { λ t. fails_distances t.rows.now t.sources.now t.d.now };

    ghost reasons = { distance_reasons };

    fn first_reason(&self, v: u32) -> Option<Reason> {
        let at = v as usize;
        let (is_source, is_borne) = (self.is_source[at], self.is_borne[at]);
        first_reason(self.rows, is_source, self.d, v, is_borne)
    }
}

/// The first reason that `v` fails, where `is_source` tells whether it is a source, and `mark` whether its parent bears it
/// out.
fn first_reason(rows: &Rows, is_source: bool, d: &Distances, v: u32, mark: bool) -> Option<Reason>
    requires lawful { IsLawful rows.now }
    requires vertex { v < vertices rows.now }
    requires dist { length d.now.dist ≡ vertices rows.now }
    requires hops { length d.now.hops ≡ vertices rows.now }
    requires parent { length d.now.parent ≡ vertices rows.now }
    requires mark { mark ≡ is_parent rows.now d.now v (parent_of d.now v) }

    ensures { result ≡ find (fails_as rows.now is_source d.now v) distance_reasons }
{
    let at = v as usize;
    let (dist, hops, parent) = (d.dist.get(at), d.hops.get(at), d.parent.get(at));
    if is_source && !(dist == 0 && hops == 0 && parent == NONE) {
        return Some(Reason::Source);
    }
    if dist == NONE {
        let is_unreached = hops == NONE && parent == NONE;
        return if is_source || is_unreached {
            None
        } else {
            Some(Reason::Unreached)
        };
    }
    if is_lowerable(rows, d.dist.as_slice(), v) {
        return Some(Reason::Lowerable);
    }
    let has_parent = hops != NONE && parent != NONE && mark;
    if is_source || has_parent {
        None
    } else {
        Some(Reason::Parent)
    }
}

/// Whether some place of `v` leads to a vertex without a number, or with a greater one than along the place.
fn is_lowerable(rows: &Rows, dist: &[u64], v: u32) -> bool
    requires lawful { IsLawful rows.now }
    requires vertex { v < vertices rows.now }
    requires size { length dist.now ≡ vertices rows.now }

    ensures { result ≡ is_lowerable rows.now dist.now v }
{
    let number = dist[v as usize];
    let mut place = rows.first_place(v);
    for w in rows.row(v) {
        let there = dist[*w as usize];
        if there == NONE || exceeds(there, number, rows.weight(place)) {
            return true;
        }
        place += 1;
    }
    false
}

/// Whether `there` is greater than the sum of `number` and `weight`, which may exceed what a word holds.
#[inline]
fn exceeds(there: u64, number: u64, weight: u32) -> bool
    ensures { result ≡ nat_lt (number + weight) there }
{
    number < there && there - number > weight as u64
}
