//! The distinct targets of each vertex.
ghost use Rattle.std.specs.Prelude.{◌≡◌, ◌↔◌, ℕ, ◌<◌, ◌≤◌, [], length, All, IsTrue};
ghost use Rattle.std.specs.List.{slice_index_or};
ghost use Rattle.std.specs.List.Sorted.{IsStrictlyIncreasing};
ghost use Rattle.jul_base.specs.declared.limits.TheConstants.{MAX_N};
ghost use Rattle.jul_base.specs.Sets.{AreSets, IsElementOf};
ghost use Rattle.jul_rows.specs.Cuts.{parts, IsCut};
ghost use Rattle.jul_rows.specs.Gathering.{AreMarks};

use crate::cuts::part_of;
use std::marker::Model;

/// A set of vertices for each vertex: the distinct targets of its row, as `Rows::elements` gives them.
///
/// A contract sees the list of the sets, each an increasing list.
#[derive(Drop)]
pub struct SetRows {
    bounds: Vec<u32>,
    items: Vec<u32>,
    marks: Vec<bool>,
}

impl Model for SetRows {
    ghost use Rattle.std.specs.Prelude.{ℕ, List, length};
    ghost use Rattle.jul_base.specs.Sets.{AreSets};
    ghost use Rattle.jul_rows.specs.Cuts.{parts, IsCut};
    ghost use Rattle.jul_rows.specs.Gathering.{AreMarks};

    ghost Value = { List (List ℕ) };

    ghost view = { λ r. parts r.bounds.items r.items.items };

    ghost invariant = { λ r. IsCut r.bounds.items (length r.items.items)
        × AreSets (parts r.bounds.items r.items.items)
        × AreMarks (parts r.bounds.items r.items.items) r.marks.items };
}

impl SetRows {
    /// The sets that bounds cut from `items`, with a mark for each vertex that stands in one.
    pub(crate) fn of(bounds: Vec<u32>, items: Vec<u32>, marks: Vec<bool>) -> SetRows
        requires cut { IsCut bounds.items (length items.items) }
        requires sets { AreSets (parts bounds.items items.items) }
        requires marks { AreMarks (parts bounds.items items.items) marks.items }

        ensures { result ≡ parts bounds.items items.items }
    {
        SetRows {
            bounds,
            items,
            marks,
        }
    }

    /// The number of sets, which is that of vertices.
    #[inline]
    pub fn n(&self) -> u32
        ensures count { result ≡ length self.now }
        ensures few { result ≤ MAX_N }
        ensures sets { AreSets self.now }
    {
        (self.bounds.len() - 1) as u32
    }

    /// The elements of set `s`, in increasing order.
    #[inline]
    pub fn set(&self, s: u32) -> &[u32]
        requires { s < length self.now }

        ensures set { result.now ≡ slice_index_or self.now s [] }
        ensures increasing { IsStrictlyIncreasing result.now }
        ensures within { All (λ e. e < length self.now) result.now }
    {
        part_of(self.bounds.as_slice(), self.items.as_slice(), s)
    }

    /// Whether `v` stands in some set.
    #[inline]
    pub fn is_element(&self, v: u32) -> bool
        requires { v < length self.now }

        ensures { IsTrue result ↔ IsElementOf self.now v }
    {
        self.marks[v as usize]
    }
}
