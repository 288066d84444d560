//! How a run ends.
ghost use Rattle.std.specs.Prelude.{◌≡◌};
ghost use Rattle.jul_cmd.specs.declared.statuses.Status.TheVariants.{Memory};
ghost use Rattle.jul_cmd.specs.Statuses.{stream_refusal, witness_refusal};

use jul_adj::{Fault, StreamError};
use jul_check::Reason;
use jul_witness::{WitnessError, WitnessFault};
use std::alloc::AllocError;

/// A file that the words name.
#[derive(Clone, Copy, Debug, PartialEq, Eq)]
pub enum Which {
    /// The graph file.
    Graph,
    /// The witness file.
    Witness,
}

/// How a run ends. A later refusal comes only where no earlier one has its cause.
#[derive(Clone, Copy, Debug, PartialEq, Eq)]
pub enum Status {
    /// The whole answer was written.
    Done,
    /// The witness isn't borne out by the graph, and the verdict was written whole.
    No {
        /// The least vertex that fails.
        vertex: u32,
        /// The first reason that it fails.
        reason: Reason,
    },
    /// The words are not of a form that is taken.
    Usage,
    /// The graph file has a fault, and this is its first one.
    GraphFault(Fault),
    /// The witness file has a fault, and this is its first one.
    WitnessFault(WitnessFault),
    /// The witness has another number of vertices than the graph.
    SizeDiffers {
        /// The number of vertices of the witness.
        witness: u32,
        /// The number of vertices of the graph.
        graph: u32,
    },
    /// The witness names another number of places than the graph has.
    PlacesDiffer {
        /// The number of places that the witness names.
        witness: u32,
        /// The number of places of the graph.
        graph: u32,
    },
    /// The witness names other sources than the words.
    SourcesDiffer {
        /// The least index at which the two lists don't have the same entry, or only one has an entry.
        at: u32,
    },
    /// The graph is not symmetric.
    Asymmetric {
        /// The least place from some `u` to some `w` for which the row of `u` has more entries `w` than the row of
        /// `w` has entries `u`.
        place: u32,
    },
    /// A source is not below the number of vertices.
    SourceRange {
        /// The first such source.
        source: u32,
        /// The number of vertices of the graph.
        n: u32,
    },
    /// A file could not be read to its end, or is missing.
    ReadFault {
        /// Which one.
        file: Which,
    },
    /// The answer could not be written whole.
    WriteFault,
    /// Memory ran out. Nothing was written.
    Memory,
}

impl Status {
    ghost use Rattle.jul_cmd.specs.Statuses.{code_of};

    /// The exit code of the program. Takes no memory.
    pub fn code(&self) -> u8
        ensures { result ≡ code_of self.now }
    {
        match self {
            Status::Done => 0,
            Status::No { .. } => 1,
            Status::Usage => 2,
            Status::GraphFault(_) | Status::WitnessFault(_) => 3,
            Status::SizeDiffers { .. }
            | Status::PlacesDiffer { .. }
            | Status::SourcesDiffer { .. }
            | Status::Asymmetric { .. }
            | Status::SourceRange { .. } => 4,
            Status::ReadFault { .. } => 5,
            Status::WriteFault => 6,
            Status::Memory => 7,
        }
    }
}

impl From<AllocError> for Status {
    ghost from_gives = { λ _ status. status ≡ Memory };

    fn from(_e: AllocError) -> Status {
        Status::Memory
    }
}

impl From<StreamError> for Status {
    ghost from_gives = { λ error status. status ≡ stream_refusal error };

    fn from(error: StreamError) -> Status {
        match error {
            StreamError::Failed => Status::ReadFault { file: Which::Graph },
            StreamError::Bad(fault) => Status::GraphFault(fault),
            StreamError::Memory => Status::Memory,
        }
    }
}

impl From<WitnessError> for Status {
    ghost from_gives = { λ error status. status ≡ witness_refusal error };

    fn from(error: WitnessError) -> Status {
        match error {
            WitnessError::Bad(fault) => Status::WitnessFault(fault),
            WitnessError::Memory => Status::Memory,
        }
    }
}
