//! Where bytes are read: files under their names.
ghost use Rattle.std.specs.Prelude.{◌≡◌, ◌≤◌, ◌⊎◌, ℕ, length, true, is_ok, IsTrue, IsErr, IfSome, IfOk, OnOk, OnErr};
ghost use Rattle.std.specs.Option.{option_map};
ghost use Rattle.jul_base.specs.Sinks.{Rose};
ghost use Rattle.jul_base.specs.Shelves.{ShelfState, IsMissing, Moves, after_open, after_failed_open, after_read, files_and_last};

use crate::sinks::Failed;

/// Files under their names, of which one is open at a time.
///
/// Contracts see the files with their bytes, the bytes left of the open one and the name opened last, where
/// the shelf tells them; whether a file is open; and a count of faults, which only a call that fails raises. No call
/// changes a file.
pub trait Shelf {
    ghost state: { Self → ShelfState };

    /// Opens the file of this name from its beginning.
    ///
    /// `Failed` says that the count of faults rose or that no file has the name. No file is open then.
    fn open(&mut self, name: &str) -> Result<(), Failed>
        ensures ok { OnOk result ((state self.new).told ≡ option_map (after_open name.now) (state self.old).told) }
        ensures err { OnErr result ((state self.new).told ≡ option_map (after_failed_open name.now) (state self.old).told) }
        ensures is_open { (state self.new).is_open ≡ is_ok result }

        ensures missing { IsMissing (state self.old) name.now → IsErr result }
        ensures cause { OnErr result (Rose (state self.old).faults (state self.new).faults
            ⊎ IsMissing (state self.old) name.now) }
        ensures stands { OnOk result ((state self.new).faults ≡ (state self.old).faults) }
        ensures faults { (state self.old).faults ≤ (state self.new).faults };

    /// Moves the first bytes that are left into the front of `buf` and answers how many. It answers 0 for a
    /// `buf` that isn't empty exactly at the end of the file.
    ///
    /// After `Failed` the count of faults rose, and the file is still open; some bytes may be lost.
    fn read(&mut self, buf: &mut [u8]) -> Result<usize, Failed>
        requires { IsTrue (state self.old).is_open }
        ensures within { IfOk result (λ n. n ≤ length buf.old) }
        ensures moves { IfOk result (λ n. IfSome (state self.old).told (λ t. Moves t n buf.old buf.new)) }
        ensures ok { IfOk result (λ n. (state self.new).told ≡ option_map (after_read n) (state self.old).told) }
        ensures is_open { (state self.new).is_open ≡ true }

        ensures err { OnErr result (files_and_last (state self.new).told ≡ files_and_last (state self.old).told) }
        ensures rose { OnErr result (Rose (state self.old).faults (state self.new).faults) }
        ensures stands { OnOk result ((state self.new).faults ≡ (state self.old).faults) }
        ensures faults { (state self.old).faults ≤ (state self.new).faults };
}
