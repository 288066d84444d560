//! Where bytes are written.
ghost use Rattle.std.specs.Prelude.{◌≡◌, ◌<◌, ◌≤◌, ℕ, length, take, IfOk, OnOk, OnErr};
ghost use Rattle.jul_base.specs.Sinks.{SinkState, Rose, Appended};

/// A file or a sink failed. Its own count of faults says that it did.
#[derive(Clone, Copy, Debug, PartialEq, Eq)]
pub struct Failed;

/// Where bytes are written, a piece at a time.
///
/// Contracts see the bytes written, where the sink tells them, and a count of faults, which only a call that fails raises.
pub trait Sink {
    ghost state: { Self → SinkState };

    /// Appends the first bytes of `piece` and answers how many: at least one, unless `piece` is empty.
    ///
    /// After `Failed` the sink has what it had before, and its count of faults rose. It may be called again.
    fn write(&mut self, piece: &[u8]) -> Result<usize, Failed>
        ensures within { IfOk result (λ n. n ≤ length piece.now) }
        ensures some { IfOk result (λ n. 0 < length piece.now → 0 < n) }
        ensures ok { IfOk result (λ n. Appended (state self.old) (state self.new) (take n piece.now)) }

        ensures err { OnErr result ((state self.new).written ≡ (state self.old).written) }
        ensures rose { OnErr result (Rose (state self.old).faults (state self.new).faults) }
        ensures stands { OnOk result ((state self.new).faults ≡ (state self.old).faults) }
        ensures faults { (state self.old).faults ≤ (state self.new).faults };
}
