//! What may be wrong with a graph file, and why one was not read.
ghost use Rattle.std.specs.Prelude.{◌≡◌, ◌≤◌, length};
ghost use Rattle.jul_adj.specs.Names.{kind_name, streamed};
ghost use Rattle.jul_adj.specs.declared.faults.ReadError.TheVariants.{Bad, Memory};
ghost use Rattle.jul_adj.specs.declared.faults.StreamError.TheVariants as streams;

use jul_base::Failed;
use std::alloc::{AllocError, AllocFailed};
use std::fmt;
use thiserror::Error;

/// What is wrong with a graph file, in the order in which the kinds are tried at one token.
#[derive(Clone, Copy, Debug, PartialEq, Eq)]
pub enum FaultKind {
    /// The first token is neither `AdjacencyGraph` nor `WeightedAdjacencyGraph`.
    Header,
    /// A number is not one or more digits; a weight of a minus sign and digits is `NegativeWeight`.
    BadNumber,
    /// The number of vertices is above `MAX_N`.
    TooManyVertices,
    /// The number of places is above `MAX_M`.
    TooManyEdges,
    /// The first offset is not 0.
    FirstOffset,
    /// An offset is above the number of places.
    OffsetRange,
    /// An offset is less than the one before it.
    OffsetOrder,
    /// A target is not below the number of vertices.
    TargetRange,
    /// A weight is a minus sign and one or more digits, `-0` too.
    NegativeWeight,
    /// A weight is above `MAX_W`.
    WeightRange,
    /// Tokens are missing at the end.
    Truncated,
    /// A token stands behind the last one of the graph.
    Trailing,
    /// The file is longer than the limit.
    TooLong,
}

impl FaultKind {
    /// The name of the kind, as messages have it. Takes no memory.
    pub fn name(self) -> &'static str
        ensures text { result.now ≡ kind_name self }
        ensures short { length result.now ≤ 15 }
    {
        match self {
            FaultKind::Header => "Header",
            FaultKind::BadNumber => "BadNumber",
            FaultKind::TooManyVertices => "TooManyVertices",
            FaultKind::TooManyEdges => "TooManyEdges",
            FaultKind::FirstOffset => "FirstOffset",
            FaultKind::OffsetRange => "OffsetRange",
            FaultKind::OffsetOrder => "OffsetOrder",
            FaultKind::TargetRange => "TargetRange",
            FaultKind::NegativeWeight => "NegativeWeight",
            FaultKind::WeightRange => "WeightRange",
            FaultKind::Truncated => "Truncated",
            FaultKind::Trailing => "Trailing",
            FaultKind::TooLong => "TooLong",
        }
    }
}

impl fmt::Display for FaultKind {
    ghost use Rattle.std.specs.Prelude.{Some};

    ghost output = { λ x. Some (kind_name x) };

    fn fmt<W: fmt::Write>(&self, f: &mut fmt::Formatter<W>) -> fmt::Result {
        f.write_str(self.name())
    }
}

/// The first fault of a graph file.
#[derive(Clone, Copy, Debug, PartialEq, Eq)]
pub struct Fault {
    /// What is wrong.
    pub kind: FaultKind,
    /// The number of the token that has the fault, counted from 0. Where tokens are missing it is
    /// the number of tokens, and in a file that is too long 0.
    pub token: u64,
    /// The index of that token's first byte. Where tokens are missing it is the length of the file,
    /// and in a file that is too long the limit.
    pub at: u64,
}

/// Why a graph was not read.
#[derive(Clone, Copy, Debug, PartialEq, Eq, Error)]
pub enum ReadError {
    /// The file is no graph, and this is its first fault.
    #[error("Bad")]
    Bad(Fault),
    /// Memory ran out, which says nothing of the file.
    #[error("Memory")]
    Memory,
}

impl From<Fault> for ReadError {
    ghost from_gives = { λ f e. e ≡ Bad f };

    fn from(fault: Fault) -> ReadError {
        ReadError::Bad(fault)
    }
}

impl From<AllocError> for ReadError {
    ghost from_gives = { λ _ e. e ≡ Memory };

    fn from(_e: AllocError) -> ReadError {
        ReadError::Memory
    }
}

impl<T: Drop> From<AllocFailed<T>> for ReadError {
    ghost from_gives = { λ _ e. e ≡ Memory };

    fn from(_e: AllocFailed<T>) -> ReadError {
        ReadError::Memory
    }
}

/// Why a graph was not read from a shelf.
#[derive(Clone, Copy, Debug, PartialEq, Eq, Error)]
pub enum StreamError {
    /// The shelf failed, or no file has the name.
    #[error("Failed")]
    Failed,
    /// The file is no graph, and this is its first fault.
    #[error("Bad")]
    Bad(Fault),
    /// Memory ran out, which says nothing of the file.
    #[error("Memory")]
    Memory,
}

impl From<Failed> for StreamError {
    ghost from_gives = { λ _ e. e ≡ streams.Failed };

    fn from(_e: Failed) -> StreamError {
        StreamError::Failed
    }
}

impl From<AllocError> for StreamError {
    ghost from_gives = { λ _ e. e ≡ streams.Memory };

    fn from(_e: AllocError) -> StreamError {
        StreamError::Memory
    }
}

impl From<ReadError> for StreamError {
    ghost from_gives = { λ r e. e ≡ streamed r };

    fn from(e: ReadError) -> StreamError {
        match e {
            ReadError::Bad(fault) => StreamError::Bad(fault),
            ReadError::Memory => StreamError::Memory,
        }
    }
}
