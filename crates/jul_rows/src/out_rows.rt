//! The row of each vertex: the targets of its edges, in file order.
ghost use Rattle.std.specs.Prelude.{◌≡◌, ℕ, ◌+◌, ◌<◌, ◌≤◌, ◌↔◌, length, slice_index, IfOk, IfSome, IsSome};
ghost use Rattle.jul_base.specs.declared.limits.TheConstants.{MAX_N, MAX_M};
ghost use Rattle.jul_base.specs.Graph.{vertices, places, target, weight, row, row_start, row_end};
ghost use Rattle.jul_base.specs.Graph.{IsLawful, IsPlaceOf};
ghost use Rattle.jul_rows.specs.Listed.{listed};

use jul_base::{Ids, RawGraph};
use std::alloc::{AllocError, Global};
use std::marker::Model;

/// A graph by rows. A contract sees the graph itself, and each graph that is kept is lawful.
///
/// The places of `v` are the `degree(v)` numbers from `first_place(v)` on.
#[derive(Drop)]
pub struct Rows {
    raw: RawGraph,
}

impl Model for Rows {
    ghost use Rattle.jul_base.specs.declared.graphs.RawGraph.{RawGraph};
    ghost use Rattle.jul_base.specs.Graph.{IsLawful};

    ghost Value = { RawGraph };

    ghost view = { λ r. r.raw };

    ghost invariant = { λ r. IsLawful r.raw };
}

impl Rows {
    /// The rows of the graph `raw`. Takes no memory.
    #[inline]
    pub fn of(raw: RawGraph) -> Rows
        requires lawful { IsLawful raw }

        ensures graph { result ≡ raw }
    {
        Rows { raw }
    }

    /// The rows of the graph with these lists, which has no weights of its own where the last one is empty. Lists of no
    /// lawful graph give none. Takes a copy of each list.
    pub fn of_lists(
        alloc: Global,
        offsets: &[u32],
        targets: &[u32],
        weights: &[u32],
    ) -> Result<Option<Rows>, AllocError>
        ensures lawful { IfOk result (λ rows. IsSome rows ↔ IsLawful (listed offsets.now targets.now weights.now)) }
        ensures graph { IfOk result (λ rows. IfSome rows (λ r. r ≡ listed offsets.now targets.now weights.now)) }
    {
        let raw = RawGraph {
            weighted: !weights.is_empty(),
            offsets: Ids::from_vec(Vec::from_slice(alloc, offsets)?),
            targets: Ids::from_vec(Vec::from_slice(alloc, targets)?),
            weights: Ids::from_vec(Vec::from_slice(alloc, weights)?),
        };
        if raw.is_lawful() {
            Ok(Some(Rows::of(raw)))
        } else {
            Ok(None)
        }
    }

    /// The graph as the file listed it.
    #[inline]
    pub(crate) fn raw(&self) -> &RawGraph
        ensures graph { result.now ≡ self.now }
        ensures lawful { IsLawful self.now }
    {
        &self.raw
    }

    /// The number of vertices.
    #[inline]
    pub fn n(&self) -> u32
        ensures count { result ≡ vertices self.now }
        ensures few { result ≤ MAX_N }
        ensures lawful { IsLawful self.now }
    {
        self.raw.offsets.len() as u32
    }

    /// The number of places.
    #[inline]
    pub fn m(&self) -> u32
        ensures count { result ≡ places self.now }
        ensures few { result ≤ MAX_M }
        ensures lawful { IsLawful self.now }
    {
        self.raw.targets.len() as u32
    }

    /// The targets of `v`, in file order.
    #[inline]
    pub fn row(&self, v: u32) -> &[u32]
        requires { v < vertices self.now }

        ensures row { result.now ≡ row self.now v }
        ensures degree { row_start self.now v + length result.now ≡ row_end self.now v }

        // The target number k is that of place number k of the row, and a vertex.
        ensures target { (k : ℕ) → k < length result.now →
            slice_index result.now k ≡ target self.now (row_start self.now v + k) }
        ensures place { (k : ℕ) → k < length result.now →
            IsPlaceOf self.now v (row_start self.now v + k) }
        ensures vertex { (k : ℕ) → k < length result.now →
            slice_index result.now k < vertices self.now }
    {
        let start = self.first_place(v) as usize;
        let end = self.end_place(v) as usize;
        &self.raw.targets.as_slice()[start..end]
    }

    /// The first place of `v`, or that of the next row where `v` has none.
    #[inline]
    pub fn first_place(&self, v: u32) -> u32
        requires { v < vertices self.now }

        ensures place { result ≡ row_start self.now v }
        ensures within { result ≤ places self.now }
        ensures few { result ≤ MAX_M }
    {
        self.raw.offsets.get(v as usize)
    }

    /// The place after the last one of `v`.
    #[inline]
    pub(crate) fn end_place(&self, v: u32) -> u32
        requires { v < vertices self.now }

        ensures place { result ≡ row_end self.now v }
        ensures ordered { row_start self.now v ≤ result }
        ensures within { result ≤ places self.now }
        ensures few { result ≤ MAX_M }
    {
        let next = v as usize + 1;
        if next < self.raw.offsets.len() {
            self.raw.offsets.get(next)
        } else {
            self.raw.targets.len() as u32
        }
    }

    /// The number of places of `v`.
    #[inline]
    pub fn degree(&self, v: u32) -> u32
        requires { v < vertices self.now }

        ensures end { row_start self.now v + result ≡ row_end self.now v }
        ensures row { result ≡ length (row self.now v) }
        ensures within { row_end self.now v ≤ places self.now }
        ensures few { row_end self.now v ≤ MAX_M }
    {
        self.end_place(v) - self.first_place(v)
    }

    /// The weight of the edge at `place`, which is 1 in an unweighted graph.
    #[inline]
    pub fn weight(&self, place: u32) -> u32
        requires { place < places self.now }

        ensures weight { result ≡ weight self.now place }
    {
        if self.raw.weighted {
            self.raw.weights.get(place as usize)
        } else {
            1
        }
    }
}
