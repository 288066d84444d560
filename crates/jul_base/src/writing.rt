//! The writing of a whole piece, whatever parts a sink takes it in.
ghost use Rattle.std.specs.Prelude.{◌≡◌, ◌+◌, ◌<◌, ◌≤◌, decimal, OnOk, OnErr};
ghost use Rattle.jul_base.specs.Sinks.{Appended, FailedWriting};

use crate::sinks::{Failed, Sink};
use itoa::Buffer;

/// Appends all of `bytes` to the sink.
///
/// After `Failed` a part was appended that isn't the whole. Takes no memory.
pub fn write_whole<S: Sink>(sink: &mut S, bytes: &[u8]) -> Result<(), Failed>
    ensures ok { OnOk result (Appended (S.state sink.old) (S.state sink.new) bytes.now) }
    ensures err { OnErr result (FailedWriting (S.state sink.old) (S.state sink.new) bytes.now) }
    ensures faults { (S.state sink.old).faults ≤ (S.state sink.new).faults }
{
    let mut done = 0;
    while done < bytes.len() {
        done += sink.write(&bytes[done..])?;
    }
    Ok(())
}

/// Appends the decimal text of `value`, without leading zeros.
///
/// After `Failed` a part was appended that isn't the whole. Takes no memory.
pub fn write_u64<S: Sink>(sink: &mut S, value: u64) -> Result<(), Failed>
    ensures ok { OnOk result (Appended (S.state sink.old) (S.state sink.new) (decimal value)) }
    ensures err { OnErr result (FailedWriting (S.state sink.old) (S.state sink.new) (decimal value)) }
    ensures faults { (S.state sink.old).faults ≤ (S.state sink.new).faults }
{
    let mut buffer = Buffer::new();
    write_whole(sink, buffer.format(value).as_bytes())
}
