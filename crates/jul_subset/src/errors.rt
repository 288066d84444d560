//! Why a list of ids is no subset.
ghost use Rattle.std.specs.Prelude.{◌≡◌};
ghost use Rattle.jul_subset.specs.declared.errors.SubsetError.TheVariants.{Memory};

use std::alloc::{AllocError, AllocFailed};
use thiserror::Error;

/// Why no subset was made of a list. A list that is wrong is named by its first wrong id.
#[derive(Clone, Copy, Debug, PartialEq, Eq, Error)]
pub enum SubsetError {
    /// The id at this place isn't below `n`.
    #[error("Range")]
    Range { at: usize },
    /// The id at this place stands at an earlier one too.
    #[error("Repeat")]
    Repeat { at: usize },
    /// Memory ran out, which says nothing of the list.
    #[error("Memory")]
    Memory,
}

impl From<AllocError> for SubsetError {
    ghost from_gives = { λ _ e. e ≡ Memory };

    fn from(_e: AllocError) -> SubsetError {
        SubsetError::Memory
    }
}

impl<T: Drop> From<AllocFailed<T>> for SubsetError {
    ghost from_gives = { λ _ e. e ≡ Memory };

    fn from(_e: AllocFailed<T>) -> SubsetError {
        SubsetError::Memory
    }
}
