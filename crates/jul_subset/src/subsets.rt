//! Subsets of the vertices of a graph, in two forms.
ghost use Rattle.std.specs.Prelude.{◌≡◌, ℕ, ◌<◌, ◌≤◌, ◌↔◌, true, false, IsTrue, OnErr, OnOk, IfOk, MatchOption};
ghost use Rattle.std.specs.Prelude.{length, All, Contains};
ghost use Rattle.std.specs.List.Sorted.{IsStrictlyIncreasing};
ghost use Rattle.jul_base.specs.declared.limits.TheConstants.{MAX_N};
ghost use Rattle.jul_subset.specs.Subsets.{Subset, IsSubset};
ghost use Rattle.jul_subset.specs.Marks.{marked};

use crate::marks::{listed, marks_at};
use std::alloc::{AllocError, Global};
use std::marker::Model;

/// How the members are kept.
#[derive(Drop)]
pub(crate) enum Kept {
    /// The members in increasing order.
    Sparse(Vec<u32>),
    /// A mark for each vertex, and how many have one.
    Dense { len: u32, marks: Vec<bool> },
}

/// A set of vertices below `n`. Sparse it is a list of its members, dense it has a mark for each vertex.
#[derive(Drop)]
pub struct VertexSubset {
    alloc: Global,
    n: u32,
    kept: Kept,
}

impl Model for VertexSubset {
    ghost use Rattle.jul_subset.specs.Subsets.{Subset, IsSubset};

    ghost Value = { Subset };

    ghost use Rattle.jul_subset.specs.Views.{subset_of, FitsMarks};

    ghost view = { subset_of };

    ghost invariant = { λ s. IsSubset (subset_of s) × FitsMarks s.n s.kept };
}

impl VertexSubset {
    /// The sparse subset of these vertices below `n`. Takes no memory.
    pub fn from_increasing(alloc: Global, n: u32, ids: Vec<u32>) -> VertexSubset
        requires few { n ≤ MAX_N }
        requires increasing { IsStrictlyIncreasing ids.items }
        requires within { All (λ v. v < n) ids.items }

        ensures subset { result ≡ record { n = n; members = ids.items; dense = false } }
    {
        VertexSubset {
            alloc,
            n,
            kept: Kept::Sparse(ids),
        }
    }

    /// The number of vertices of the graph. Its clause `subset` says what is true of every subset.
    #[inline]
    pub fn n(&self) -> u32
        ensures n { result ≡ self.now.n }
        ensures subset { IsSubset self.now }
    {
        self.n
    }

    /// Whether `v` is a member. Constant time where the subset is dense, else a binary search.
    #[inline]
    pub fn contains(&self, v: u32) -> bool
        ensures member { IsTrue result ↔ Contains self.now.members v }
        ensures outside { self.now.n ≤ v → result ≡ false }
    {
        match &self.kept {
            Kept::Sparse(ids) => ids.as_slice().binary_search(&v).is_ok(),
            Kept::Dense { len: _, marks } => match marks.get(v as usize) {
                Some(mark) => *mark,
                None => false,
            },
        }
    }

    /// How many members there are. Constant time.
    #[inline]
    pub fn len(&self) -> u32
        ensures { result ≡ length self.now.members }
    {
        match &self.kept {
            Kept::Sparse(ids) => ids.len() as u32,
            Kept::Dense { len, marks: _ } => *len,
        }
    }

    /// Whether there is a mark for each vertex, in place of a list.
    #[inline]
    pub fn is_dense(&self) -> bool
        ensures { result ≡ self.now.dense }
    {
        match &self.kept {
            Kept::Sparse(_) => false,
            Kept::Dense { len: _, marks: _ } => true,
        }
    }

    /// The members in increasing order, where the subset is sparse. Takes no memory.
    #[inline]
    pub fn as_slice(&self) -> Option<&[u32]>
        ensures { MatchOption result (self.now.dense ≡ true)
            (λ ids. (self.now.dense ≡ false) × (ids.now ≡ self.now.members)) }
    {
        match &self.kept {
            Kept::Sparse(ids) => Some(ids.as_slice()),
            Kept::Dense { len: _, marks: _ } => None,
        }
    }

    /// The members in increasing order.
    pub fn ids(&self) -> Result<Vec<u32>, AllocError>
        ensures { IfOk result (λ ids. ids.items ≡ self.now.members) }
    {
        match &self.kept {
            Kept::Sparse(ids) => Vec::from_slice(self.alloc, ids.as_slice()),
            Kept::Dense { len, marks } => listed(self.alloc, *len as usize, marks.as_slice()),
        }
    }

    /// The same vertices, dense. Takes the memory of the marks alone.
    pub fn dense_copy(&self) -> Result<VertexSubset, AllocError>
        ensures { IfOk result (λ copy.
            copy ≡ record { n = self.now.n; members = self.now.members; dense = true }) }
    {
        let len = self.len();
        let marks = self.member_marks()?;
        Ok(VertexSubset {
            alloc: self.alloc,
            n: self.n,
            kept: Kept::Dense { len, marks },
        })
    }

    /// A mark for each vertex, set at the members.
    fn member_marks(&self) -> Result<Vec<bool>, AllocError>
        ensures len { IfOk result (λ marks. length marks.items ≡ self.now.n) }
        ensures set { IfOk result (λ marks. marked marks.items ≡ self.now.members) }
    {
        match &self.kept {
            Kept::Sparse(ids) => marks_at(self.alloc, self.n, ids.as_slice()),
            Kept::Dense { len: _, marks } => Vec::from_slice(self.alloc, marks.as_slice()),
        }
    }

    /// Keeps the same members as marks. After an error nothing is changed.
    pub fn to_dense(&mut self) -> Result<(), AllocError>
        ensures ok { OnOk result
            (self.new ≡ record { n = self.old.n; members = self.old.members; dense = true }) }
        ensures err { OnErr result (self.new ≡ self.old) }
    {
        if let Kept::Sparse(ids) = &self.kept {
            let len = ids.len() as u32;
            let marks = marks_at(self.alloc, self.n, ids.as_slice())?;
            self.kept = Kept::Dense { len, marks };
        }
        Ok(())
    }

    /// Keeps the same members as a list. After an error nothing is changed.
    pub fn to_sparse(&mut self) -> Result<(), AllocError>
        ensures ok { OnOk result
            (self.new ≡ record { n = self.old.n; members = self.old.members; dense = false }) }
        ensures err { OnErr result (self.new ≡ self.old) }
    {
        if let Kept::Dense { len, marks } = &self.kept {
            let ids = listed(self.alloc, *len as usize, marks.as_slice())?;
            self.kept = Kept::Sparse(ids);
        }
        Ok(())
    }
}
