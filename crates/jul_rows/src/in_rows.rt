//! The in-row of each vertex: the places that lead to it, and their sources.
ghost use Rattle.std.specs.Prelude.{◌≡◌, ℕ, ◌<◌, ◌≤◌, [], length};
ghost use Rattle.std.specs.List.{slice_index_or};
ghost use Rattle.jul_base.specs.declared.limits.TheConstants.{MAX_N};
ghost use Rattle.jul_rows.specs.Cuts.{parts, IsCut};

use crate::cuts::part_of;
use std::marker::Model;

/// The in-edges of a graph by their targets, as `Rows::flip` gives them: the transpose of the rows.
///
/// A contract sees for each vertex the list of its places and the list of their sources.
#[derive(Drop)]
pub struct InRows {
    bounds: Vec<u32>,
    places: Vec<u32>,
    sources: Vec<u32>,
}

impl Model for InRows {
    ghost use Rattle.std.specs.Prelude.{◌≡◌, length};
    ghost use Rattle.jul_base.specs.InRows.{InEdges};
    ghost use Rattle.jul_rows.specs.Cuts.{parts, IsCut};

    ghost Value = { InEdges };

    ghost view = { λ r. record {
      places = parts r.bounds.items r.places.items;
      sources = parts r.bounds.items r.sources.items;
    } };

    ghost invariant = { λ r. IsCut r.bounds.items (length r.places.items)
        × (length r.sources.items ≡ length r.places.items) };
}

impl InRows {
    /// In-rows whose places and sources are cut at the same bounds.
    pub(crate) fn of(bounds: Vec<u32>, places: Vec<u32>, sources: Vec<u32>) -> InRows
        requires cut { IsCut bounds.items (length places.items) }
        requires as_many { length sources.items ≡ length places.items }

        ensures { result ≡ record {
          places = parts bounds.items places.items;
          sources = parts bounds.items sources.items;
        } }
    {
        InRows {
            bounds,
            places,
            sources,
        }
    }

    /// The number of vertices.
    #[inline]
    pub fn n(&self) -> u32
        ensures count { result ≡ length self.now.places }
        ensures as_many { result ≡ length self.now.sources }
        ensures few { result ≤ MAX_N }
    {
        (self.bounds.len() - 1) as u32
    }

    /// The sources of the places that lead to `v`, in the order of `places`.
    #[inline]
    pub fn sources(&self, v: u32) -> &[u32]
        requires { v < length self.now.places }

        ensures sources { result.now ≡ slice_index_or self.now.sources v [] }
        ensures as_many { length result.now ≡ length (slice_index_or self.now.places v []) }
    {
        part_of(self.bounds.as_slice(), self.sources.as_slice(), v)
    }

    /// The places that lead to `v`, in increasing order.
    #[inline]
    pub fn places(&self, v: u32) -> &[u32]
        requires { v < length self.now.places }

        ensures places { result.now ≡ slice_index_or self.now.places v [] }
    {
        part_of(self.bounds.as_slice(), self.places.as_slice(), v)
    }
}
