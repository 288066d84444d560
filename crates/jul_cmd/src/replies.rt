//! An answer that is ready to be written.
ghost use Rattle.std.specs.Prelude.{◌≡◌, ◌≤◌, OnOk, OnErr};
ghost use Rattle.jul_base.specs.Sinks.{Appended, FailedWriting};

use crate::lines::Line;
use crate::statuses::Status;
use jul_base::{Column, Failed, Ids, Sink, write_whole};
use jul_witness::{Columns, write_bare};

/// The text of an answer.
#[derive(Drop)]
pub enum Text {
    /// A column, as a bare text.
    Bare(Column),
    /// All columns of a result, with the number of places of the graph and, for distances, the sources.
    Whole {
        /// The number of places of the graph.
        places: u32,
        /// The sources.
        sources: Ids,
        /// The columns.
        columns: Columns,
    },
    /// One line.
    Line(Line),
}

/// An answer that is ready to be written.
#[derive(Drop)]
pub struct Reply {
    /// The status of a run whose text was written whole.
    pub status: Status,
    /// The text.
    pub text: Text,
}

impl Text {
    ghost use Rattle.jul_cmd.specs.Parts.{text_of, IsWritable};

    /// Writes the text. After `Failed` a part of it was appended that isn't the whole. Takes no memory.
    pub fn write<O: Sink>(&self, out: &mut O) -> Result<(), Failed>
        requires { IsWritable self.now }

        ensures ok { OnOk result (Appended (O.state out.old) (O.state out.new) (text_of self.now)) }
        ensures err { OnErr result (FailedWriting (O.state out.old) (O.state out.new) (text_of self.now)) }
    {
        match self {
            Text::Bare(column) => write_bare(out, column.as_slice()),
            Text::Whole {
                places,
                sources,
                columns,
            } => columns.write(out, *places, sources.as_slice()),
            Text::Line(line) => write_whole(out, line.as_slice()),
        }
    }
}
