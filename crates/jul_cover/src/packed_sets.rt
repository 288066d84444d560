//! Sets that are kept packed.

/// A list for each vertex, one behind another in one list of elements. A list that gets shorter leaves room behind it.
#[derive(Drop)]
pub(crate) struct PackedSets {
    /// How many sets there are.
    pub(crate) n: u32,
    /// Where each set begins.
    pub(crate) starts: Vec<usize>,
    /// How many elements each set has.
    pub(crate) lens: Vec<usize>,
    /// The elements.
    pub(crate) items: Vec<u32>,
}
