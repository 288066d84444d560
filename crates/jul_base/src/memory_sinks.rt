//! A sink in memory, which fails where a test wants it to.
ghost use Rattle.std.specs.Prelude.{◌≡◌, ◌⊎◌, ◌+◌, ◌<◌, ◌≤◌, ◌↔◌, ℕ, [], length, take, min, true, IsErr, IfOk, OnOk, OnErr, vec_len, vec_capacity};
ghost use Rattle.jul_base.specs.Sinks.{Rose, Appended};
ghost use Rattle.jul_base.specs.Memory.{call_after, is_listed};

use crate::memory_calls::is_to_fail;
use crate::sinks::{Failed, Sink};

/// A sink that tells its bytes. It takes at most `most` bytes a write, and fails the writes whose numbers,
/// counted from 1, are in `fails`, and a write that would grow it past its capacity.
#[derive(Drop)]
pub struct MemSink {
    /// The bytes written.
    pub bytes: Vec<u8>,
    /// The most bytes a write takes, at least 1.
    pub most: usize,
    /// The numbers of the writes that fail.
    pub fails: Vec<u64>,
    room: usize,
    calls: u64,
    faults: u64,
    ghost moves: { 1 ≤ most },
    ghost fits: { room ≤ vec_capacity bytes },
}

impl MemSink {
    ghost use Rattle.jul_base.specs.MemorySinks.{sink_state, calls_of, room_of};

    /// A sink that writes into `room`, which is empty with a reserved capacity. Takes no memory.
    pub fn new(room: Vec<u8>, most: usize, fails: Vec<u64>) -> MemSink
        requires empty { room.items ≡ [] }
        requires some { 1 ≤ most }
        ensures bytes { result.bytes ≡ room }
        ensures most { result.most ≡ most }
        ensures fails { result.fails ≡ fails }
        ensures room { room_of result ≡ vec_capacity room }
        ensures calls { calls_of result ≡ 0 }
        ensures faults { (sink_state result).faults ≡ 0 }
    {
        MemSink {
            room: room.capacity(),
            bytes: room,
            most,
            fails,
            calls: 0,
            faults: 0,
        }
    }
}

impl Sink for MemSink {
    ghost use Rattle.jul_base.specs.MemorySinks.{sink_state, calls_of, room_of, HasKept};

    ghost state = { sink_state };

    fn write(&mut self, piece: &[u8]) -> Result<usize, Failed>
        ensures within { IfOk result (λ n. n ≤ length piece.now) }
        ensures some { IfOk result (λ n. 0 < length piece.now → 0 < n) }
        ensures ok { IfOk result (λ n. Appended (sink_state self.old) (sink_state self.new) (take n piece.now)) }

        ensures err { OnErr result ((sink_state self.new).written ≡ (sink_state self.old).written) }
        ensures rose { OnErr result (Rose (sink_state self.old).faults (sink_state self.new).faults) }
        ensures stands { OnOk result ((sink_state self.new).faults ≡ (sink_state self.old).faults) }
        ensures faults { (sink_state self.old).faults ≤ (sink_state self.new).faults }

        // It fails exactly by its list and for want of room, and takes as much as it may.
        ensures fails { IsErr result ↔ ((is_listed self.old.fails.items (call_after (calls_of self.old)) ≡ true)
            ⊎ (room_of self.old < vec_len self.old.bytes + min self.old.most (length piece.now))) }
        ensures moved { IfOk result (λ n. n ≡ min self.old.most (length piece.now)) }
        ensures call { calls_of self.new ≡ call_after (calls_of self.old) }
        ensures kept { HasKept self.old self.new }
    {
        self.calls = self.calls.saturating_add(1);
        let count = piece.len().min(self.most);
        let is_full = self.room < self.bytes.len() + count;
        if is_full || is_to_fail(&self.fails, self.calls) {
            self.faults = self.faults.saturating_add(1);
            return Err(Failed);
        }
        if self.bytes.extend_from_slice(&piece[..count]).is_err() {
            self.faults = self.faults.saturating_add(1);
            return Err(Failed);
        }
        Ok(count)
    }
}
