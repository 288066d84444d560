//! The two tables of words over which workers make a cover.
use jul_words::MinWords;

/// Tables with a word for each element.
#[derive(Drop)]
pub(crate) struct Tables<'a, 'b> {
    /// Where sets bid for their elements.
    pub(crate) bids: &'a MinWords,
    /// Where chosen sets take theirs.
    pub(crate) owners: &'b MinWords,
}
