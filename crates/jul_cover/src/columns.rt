//! What the rounds write down.

/// The columns of a cover under way.
#[derive(Drop)]
pub(crate) struct Columns {
    /// The round of each set that was chosen, `NONE` elsewhere.
    pub(crate) round: Vec<u64>,
    /// The set that covers each element, `NONE` where none does.
    pub(crate) by: Vec<u64>,
    /// Whether nothing covers an element, in one byte each, so that packing reads little.
    pub(crate) marks: Vec<bool>,
}
