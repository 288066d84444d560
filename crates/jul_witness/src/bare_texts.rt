//! The bare text of a column: a number or a minus sign a line.
ghost use Rattle.std.specs.Prelude.{◌≡◌, ◌≤◌, ◌++◌, OnOk, OnErr};
ghost use Rattle.jul_base.specs.Sinks.{Appended, FailedWriting, IsSent};
ghost use Rattle.jul_witness.specs.Texts.{bare_line, bare_text};

use crate::lines::put_value;
use jul_base::{Failed, Sink, TextBlock};

fn put_line<S: Sink>(block: &mut TextBlock, sink: &mut S, value: u64) -> Result<(), Failed>
    ensures ok { OnOk result (IsSent (S.state sink.old) (S.state sink.new) block.new
        (block.old ++ bare_line value)) }
    ensures err { OnErr result (FailedWriting (S.state sink.old) (S.state sink.new)
        (block.old ++ bare_line value)) }
    ensures faults { (S.state sink.old).faults ≤ (S.state sink.new).faults }
{
    put_value(block, sink, value, b"\n")
}

/// Writes each number of a column on a line of its own, `NONE` as a minus sign. Takes no memory.
///
/// After `Failed` a part of the text was appended that isn't the whole. Such a text is no witness.
pub fn write_bare<S: Sink>(sink: &mut S, column: &[u64]) -> Result<(), Failed>
    ensures ok { OnOk result (Appended (S.state sink.old) (S.state sink.new) (bare_text column.now)) }
    ensures err { OnErr result (FailedWriting (S.state sink.old) (S.state sink.new)
        (bare_text column.now)) }
    ensures faults { (S.state sink.old).faults ≤ (S.state sink.new).faults }
{
    let mut block = TextBlock::new();
    for value in column {
        put_line(&mut block, sink, *value)?;
    }
    block.flush(sink)
}
