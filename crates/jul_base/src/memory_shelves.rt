//! A shelf in memory, which fails where a test wants it to.
ghost use Rattle.std.specs.Prelude.{◌≡◌, ◌⊎◌, ◌+◌, ◌<◌, ◌≤◌, ◌↔◌, ℕ, [], ◌++◌, ◌^◌, length, take, drop, min, true, false, is_ok, None, Some, IsTrue, IsErr, IfOk, IfSome, IfNone, OnErr, OnOk};
ghost use Rattle.std.specs.Option.{option_map};
ghost use Rattle.jul_base.specs.Sinks.{Rose};
ghost use Rattle.jul_base.specs.Shelves.{IsMissing, Moves, contents, after_open, after_failed_open, after_read, files_and_last};
ghost use Rattle.jul_base.specs.Memory.{call_after, is_listed, files_of, bytes_at, name_at};

use crate::memory_calls::is_to_fail;
use crate::shelves::Shelf;
use crate::sinks::Failed;

/// A file of a shelf that is open: its place among the files and how many of its bytes were read.
#[derive(Clone, Copy)]
struct OpenFile {
    index: usize,
    taken: usize,
}

/// A shelf that tells its files. It moves at most `most` bytes a read, and fails the calls whose numbers,
/// counted from 1, are in `fails`, and the opening of an unknown name. Of two files with one name the first counts.
#[derive(Drop)]
pub struct MemShelf {
    /// The files: a name and its bytes.
    pub files: Vec<(String, Vec<u8>)>,
    /// The most bytes a read moves, at least 1.
    pub most: usize,
    /// The numbers of the calls that fail.
    pub fails: Vec<u64>,
    calls: u64,
    faults: u64,
    current: Option<OpenFile>,
    last: Option<usize>,
    ghost moves: { 1 ≤ most },
}

impl MemShelf {
    ghost use Rattle.jul_base.specs.MemoryShelves.{shelf_state, calls_of};

    /// A shelf of these files, of which none is open. Takes no memory.
    pub fn new(files: Vec<(String, Vec<u8>)>, most: usize, fails: Vec<u64>) -> MemShelf
        requires { 1 ≤ most }
        ensures files { result.files ≡ files }
        ensures most { result.most ≡ most }
        ensures fails { result.fails ≡ fails }
        ensures calls { calls_of result ≡ 0 }
        ensures faults { (shelf_state result).faults ≡ 0 }
        ensures closed { (shelf_state result).is_open ≡ false }
        ensures told { (shelf_state result).told ≡ Some (record { files = files_of files.items; left = []; last = None }) }
    {
        MemShelf {
            files,
            most,
            fails,
            calls: 0,
            faults: 0,
            current: None,
            last: None,
        }
    }
}

// The place of the first file of this name.
fn find_file(files: &Vec<(String, Vec<u8>)>, name: &str) -> Option<usize>
    ensures found { IfSome result (λ i.
        contents (files_of files.now.items) name.now ≡ Some (bytes_at files.now.items i)) }
    ensures named { IfSome result (λ i. name_at files.now.items i ≡ Some name.now) }
    ensures none { IfNone result (contents (files_of files.now.items) name.now ≡ None) }
{
    for i in 0..files.len() {
        if files[i].0.as_str() == name {
            return Some(i);
        }
    }
    None
}

// Moves the bytes of a file from `taken` on into the front of `buf`, at most `most`, and says how many.
fn move_bytes(
    files: &Vec<(String, Vec<u8>)>,
    index: usize,
    taken: usize,
    buf: &mut [u8],
    most: usize,
) -> usize
    ensures count { result ≡ min (length (drop taken (bytes_at files.now.items index))) (min most (length buf.old)) }
    ensures moved { buf.new ≡ take result (drop taken (bytes_at files.now.items index)) ++ drop result buf.old }
    ensures fits { taken + result < 2 ^ 64 }
{
    let Some(file) = files.get(index) else {
        return 0;
    };
    let bytes = file.1.as_slice();
    if bytes.len() <= taken {
        return 0;
    }
    let rest = &bytes[taken..];
    let count = rest.len().min(most.min(buf.len()));
    buf[..count].copy_from_slice(&rest[..count]);
    count
}

impl Shelf for MemShelf {
    ghost use Rattle.jul_base.specs.MemoryShelves.{shelf_state, calls_of, HasKept};

    ghost state = { shelf_state };

    fn open(&mut self, name: &str) -> Result<(), Failed>
        ensures ok { OnOk result
            ((shelf_state self.new).told ≡ option_map (after_open name.now) (shelf_state self.old).told) }
        ensures err { OnErr result
            ((shelf_state self.new).told ≡ option_map (after_failed_open name.now) (shelf_state self.old).told) }
        ensures is_open { (shelf_state self.new).is_open ≡ is_ok result }

        ensures missing { IsMissing (shelf_state self.old) name.now → IsErr result }
        ensures cause { OnErr result (Rose (shelf_state self.old).faults (shelf_state self.new).faults
            ⊎ IsMissing (shelf_state self.old) name.now) }
        ensures stands { OnOk result ((shelf_state self.new).faults ≡ (shelf_state self.old).faults) }
        ensures faults { (shelf_state self.old).faults ≤ (shelf_state self.new).faults }

        // It fails exactly by its list and for an unknown name; only a failure by the list is a fault.
        ensures fails { IsErr result ↔ ((is_listed self.old.fails.items (call_after (calls_of self.old)) ≡ true)
            ⊎ (contents (files_of self.old.files.items) name.now ≡ None)) }
        ensures listed { is_listed self.old.fails.items (call_after (calls_of self.old)) ≡ true →
            Rose (shelf_state self.old).faults (shelf_state self.new).faults }
        ensures unlisted { is_listed self.old.fails.items (call_after (calls_of self.old)) ≡ false →
            (shelf_state self.new).faults ≡ (shelf_state self.old).faults }
        ensures call { calls_of self.new ≡ call_after (calls_of self.old) }
        ensures kept { HasKept self.old self.new }
    {
        self.calls = self.calls.saturating_add(1);
        let found = find_file(&self.files, name);
        self.last = found;
        self.current = None;
        if is_to_fail(&self.fails, self.calls) {
            self.faults = self.faults.saturating_add(1);
            return Err(Failed);
        }
        let Some(index) = found else {
            return Err(Failed);
        };
        self.current = Some(OpenFile { index, taken: 0 });
        Ok(())
    }

    fn read(&mut self, buf: &mut [u8]) -> Result<usize, Failed>
        requires { IsTrue (shelf_state self.old).is_open }
        ensures within { IfOk result (λ n. n ≤ length buf.old) }
        ensures moves { IfOk result (λ n. IfSome (shelf_state self.old).told (λ t. Moves t n buf.old buf.new)) }
        ensures ok { IfOk result (λ n. (shelf_state self.new).told ≡ option_map (after_read n) (shelf_state self.old).told) }
        ensures is_open { (shelf_state self.new).is_open ≡ true }

        ensures err { OnErr result
            (files_and_last (shelf_state self.new).told ≡ files_and_last (shelf_state self.old).told) }
        ensures rose { OnErr result (Rose (shelf_state self.old).faults (shelf_state self.new).faults) }
        ensures stands { OnOk result ((shelf_state self.new).faults ≡ (shelf_state self.old).faults) }
        ensures faults { (shelf_state self.old).faults ≤ (shelf_state self.new).faults }

        // It fails exactly by its list, and moves as much as it may.
        ensures fails { IsErr result ↔ (is_listed self.old.fails.items (call_after (calls_of self.old)) ≡ true) }
        ensures moved { IfOk result (λ n. IfSome (shelf_state self.old).told (λ t.
            n ≡ min (length t.left) (min self.old.most (length buf.old)))) }
        ensures call { calls_of self.new ≡ call_after (calls_of self.old) }
        ensures kept { HasKept self.old self.new }
    {
        self.calls = self.calls.saturating_add(1);
        if is_to_fail(&self.fails, self.calls) {
            self.faults = self.faults.saturating_add(1);
            return Err(Failed);
        }
        let Some(OpenFile { index, taken }) = self.current else {
            return Err(Failed);
        };
        let count = move_bytes(&self.files, index, taken, buf, self.most);
        self.current = Some(OpenFile {
            index,
            taken: taken + count,
        });
        Ok(count)
    }
}
