//! Why there are no lines.
ghost use Rattle.std.specs.Prelude.{◌≡◌};
ghost use Rattle.jul_stream_trials.specs.declared.errors.TrialError.TheVariants.{Unwritten, Memory};
ghost use Rattle.jul_stream_trials.specs.Errors.{loading_error, message_of, code_of};

use jul_base::{Failed, LoadError};
use std::alloc::{AllocError, AllocFailed};

/// Why there are no lines.
#[derive(Clone, Copy, Debug, PartialEq, Eq)]
pub enum TrialError {
    /// The input isn't a list of cases.
    Malformed,
    /// The input couldn't be read.
    Unread,
    /// The lines couldn't be written.
    Unwritten,
    /// Memory ran out.
    Memory,
}

impl TrialError {
    /// The line on standard error.
    pub fn message(self) -> &'static str
        ensures { result.now ≡ message_of self }
    {
        match self {
            TrialError::Malformed => "the input is no list of cases\n",
            TrialError::Unread => "read fault\n",
            TrialError::Unwritten => "write fault\n",
            TrialError::Memory => "out of memory\n",
        }
    }

    /// The exit code, never 0.
    pub fn code(self) -> u8
        ensures { result ≡ code_of self }
    {
        match self {
            TrialError::Malformed => 3,
            TrialError::Unread => 5,
            TrialError::Unwritten => 6,
            TrialError::Memory => 7,
        }
    }
}

impl From<AllocError> for TrialError {
    ghost from_gives = { λ _ e. e ≡ Memory };

    fn from(_e: AllocError) -> TrialError {
        TrialError::Memory
    }
}

impl<T: Drop> From<AllocFailed<T>> for TrialError {
    ghost from_gives = { λ _ e. e ≡ Memory };

    fn from(_e: AllocFailed<T>) -> TrialError {
        TrialError::Memory
    }
}

impl From<Failed> for TrialError {
    ghost from_gives = { λ _ e. e ≡ Unwritten };

    fn from(_e: Failed) -> TrialError {
        TrialError::Unwritten
    }
}

impl From<LoadError> for TrialError {
    ghost from_gives = { λ l e. e ≡ loading_error l };

    fn from(e: LoadError) -> TrialError {
        match e {
            LoadError::Failed => TrialError::Unread,
            LoadError::Memory => TrialError::Memory,
        }
    }
}
