//! Text on its way to a sink, gathered into blocks.
ghost use Rattle.std.specs.Prelude.{◌≡◌, ◌++◌, ◌≤◌, List, ℕ, [], decimal, OnOk, OnErr};
ghost use Rattle.jul_base.specs.Sinks.{Appended, FailedWriting, IsSent};

use crate::sinks::{Failed, Sink};
use crate::writing::write_whole;
use arrayvec::ArrayVec;
use itoa::Buffer;
use std::marker::Model;

/// How many bytes a block gathers before it is written.
const BLOCK: usize = 65_536;

/// Bytes that wait for their sink, which gets them a block at a time. Contracts see them as a list.
///
/// After `Failed` the part that the sink got is a prefix of all that was put, and the block is of no more use.
#[derive(Drop)]
pub struct TextBlock {
    waiting: ArrayVec<u8, BLOCK>,
}

impl Model for TextBlock {
    ghost Value = { List ℕ };

    ghost view = { λ b. b.waiting.items };
}

impl TextBlock {
    /// A block with nothing in it. Takes no memory.
    pub fn new() -> TextBlock
        ensures { result ≡ [] }
    {
        TextBlock {
            waiting: ArrayVec::new(),
        }
    }

    /// Puts bytes behind those that wait, and writes those where the block has no room. Takes no memory.
    #[inline]
    pub fn put<S: Sink>(&mut self, sink: &mut S, piece: &[u8]) -> Result<(), Failed>
        ensures ok { OnOk result (IsSent (S.state sink.old) (S.state sink.new) self.new (self.old ++ piece.now)) }
        ensures err { OnErr result (FailedWriting (S.state sink.old) (S.state sink.new) (self.old ++ piece.now)) }
        ensures faults { (S.state sink.old).faults ≤ (S.state sink.new).faults }
    {
        if let Ok(()) = self.waiting.try_extend_from_slice(piece) {
            return Ok(());
        }
        self.put_next(sink, piece)
    }

    // Writes those that wait, and puts the bytes into the empty block, or writes them too where they are more
    // than it has room for.
    #[cold]
    #[inline(never)]
    fn put_next<S: Sink>(&mut self, sink: &mut S, piece: &[u8]) -> Result<(), Failed>
        ensures ok { OnOk result (IsSent (S.state sink.old) (S.state sink.new) self.new (self.old ++ piece.now)) }
        ensures err { OnErr result (FailedWriting (S.state sink.old) (S.state sink.new) (self.old ++ piece.now)) }
        ensures faults { (S.state sink.old).faults ≤ (S.state sink.new).faults }
    {
        self.flush(sink)?;
        if let Ok(()) = self.waiting.try_extend_from_slice(piece) {
            return Ok(());
        }
        write_whole(sink, piece)
    }

    /// Puts the decimal text of `value`, without leading zeros. Takes no memory.
    #[inline]
    pub fn put_u64<S: Sink>(&mut self, sink: &mut S, value: u64) -> Result<(), Failed>
        ensures ok { OnOk result (IsSent (S.state sink.old) (S.state sink.new) self.new (self.old ++ decimal value)) }
        ensures err { OnErr result (FailedWriting (S.state sink.old) (S.state sink.new) (self.old ++ decimal value)) }
        ensures faults { (S.state sink.old).faults ≤ (S.state sink.new).faults }
    {
        let mut buffer = Buffer::new();
        self.put(sink, buffer.format(value).as_bytes())
    }

    /// Writes what waits. Takes no memory.
    pub fn flush<S: Sink>(&mut self, sink: &mut S) -> Result<(), Failed>
        ensures ok { OnOk result (Appended (S.state sink.old) (S.state sink.new) self.old) }
        ensures empty { OnOk result (self.new ≡ []) }
        ensures err { OnErr result (FailedWriting (S.state sink.old) (S.state sink.new) self.old) }
        ensures faults { (S.state sink.old).faults ≤ (S.state sink.new).faults }
    {
        write_whole(sink, self.waiting.as_slice())?;
        self.waiting.clear();
        Ok(())
    }
}
