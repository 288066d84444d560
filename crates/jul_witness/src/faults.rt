//! What may be wrong with a witness file, and why one was not read.
ghost use Rattle.std.specs.Prelude.{◌≡◌, ◌≤◌, length};
ghost use Rattle.jul_witness.specs.Names.{kind_name};
ghost use Rattle.jul_witness.specs.declared.faults.WitnessError.TheVariants.{Bad, Memory};

use std::alloc::{AllocError, AllocFailed};
use std::fmt;
use thiserror::Error;

/// What is wrong with a witness file.
#[derive(Clone, Copy, Debug, PartialEq, Eq)]
pub enum WitnessKind {
    /// The first token is none of `Cores`, `Distances` and `Cover`, nor one of these with a 2 behind it.
    Header,
    /// A token is no number of its range, nor a minus sign that may stand there for `NONE`.
    Number,
    /// Tokens are missing at the end.
    Truncated,
    /// A token stands behind the last one of the witness.
    Trailing,
    /// The file is longer than the limit.
    TooLong,
    /// A source isn't greater than the source before it.
    SourceOrder,
}

impl WitnessKind {
    /// The name of the kind, as messages have it. Takes no memory.
    pub fn name(self) -> &'static str
        ensures text { result.now ≡ kind_name self }
        ensures short { length result.now ≤ 15 }
    {
        match self {
            WitnessKind::Header => "Header",
            WitnessKind::Number => "Number",
            WitnessKind::Truncated => "Truncated",
            WitnessKind::Trailing => "Trailing",
            WitnessKind::TooLong => "TooLong",
            WitnessKind::SourceOrder => "SourceOrder",
        }
    }
}

impl fmt::Display for WitnessKind {
    ghost use Rattle.std.specs.Prelude.{Some};

    ghost output = { λ x. Some (kind_name x) };

    fn fmt<W: fmt::Write>(&self, f: &mut fmt::Formatter<W>) -> fmt::Result {
        f.write_str(self.name())
    }
}

/// The first fault of a witness file.
#[derive(Clone, Copy, Debug, PartialEq, Eq)]
pub struct WitnessFault {
    /// What is wrong.
    pub kind: WitnessKind,
    /// The number of the token that has the fault, counted from 0. Where tokens are missing it is
    /// the number of tokens, and in a file that is too long 0.
    pub token: u64,
    /// The index of that token's first byte. Where tokens are missing it is the length of the file,
    /// and in a file that is too long the limit.
    pub at: u64,
}

/// Why a witness was not read.
#[derive(Clone, Copy, Debug, PartialEq, Eq, Error)]
pub enum WitnessError {
    /// The file is no witness, and this is its first fault.
    #[error("Bad")]
    Bad(WitnessFault),
    /// Memory ran out, which says nothing of the file.
    #[error("Memory")]
    Memory,
}

impl From<WitnessFault> for WitnessError {
    ghost from_gives = { λ f e. e ≡ Bad f };

    fn from(fault: WitnessFault) -> WitnessError {
        WitnessError::Bad(fault)
    }
}

impl From<AllocError> for WitnessError {
    ghost from_gives = { λ _ e. e ≡ Memory };

    fn from(_e: AllocError) -> WitnessError {
        WitnessError::Memory
    }
}

impl<T: Drop> From<AllocFailed<T>> for WitnessError {
    ghost from_gives = { λ _ e. e ≡ Memory };

    fn from(_e: AllocFailed<T>) -> WitnessError {
        WitnessError::Memory
    }
}
