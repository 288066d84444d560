//! Blocks of a file, and their numbers, which several threads read.
ghost use Rattle.std.specs.Prelude.{◌≡◌, ◌≤◌, length, None, IsTrue, OnOk, IfOk};
ghost use Rattle.jul_adj.specs.Blocks.{bytes_in, IsBlock, IsReadOn, IsReadBlock, IsLeft};

use crate::cutting::{pieces, read_together};
use crate::faults::StreamError;
use crate::spares::{Stack, give_back};
use jul_base::{Gate, Shelf};
use jul_pool::Team;
use jul_text::{cut_points, white_span};
use std::alloc::{AllocError, Global};
use std::mem;
use std::thread::Threads;

/// What threads have read of a block: the numbers up to a bound of each cut of what lies between its first and its last
/// white byte. None is a cut that may have a token of another kind.
#[derive(Drop)]
pub(crate) struct Numbers {
    pub(crate) first: usize,
    pub(crate) last: usize,
    pub(crate) points: Vec<usize>,
    pub(crate) bound: u32,
    pub(crate) cuts: Vec<Option<Vec<u32>>>,
}

/// What one read of a shelf brought, and its numbers, if threads have read them.
#[derive(Drop)]
pub(crate) struct Block {
    room: Vec<u8>,
    pub(crate) count: usize,
    pub(crate) numbers: Option<Numbers>,
    // Lists that threads have filled, to be filled again.
    stacks: Vec<Stack>,
}

// Reads the next bytes of the open file, at most so many, into the front of a room.
fn read_front<F: Shelf>(files: &mut F, room: &mut [u8], most: usize) -> Result<usize, StreamError>
    requires is_open { IsTrue (F.state files.old).is_open }
    requires some { 1 ≤ most }
    requires room { most ≤ length room.old }

    ensures read { IfOk result (λ n. IsReadOn (F.state files.old) (F.state files.new) most n room.new) }
    ensures room { length room.new ≡ length room.old }
    ensures left { IsLeft (F.state files.old) (F.state files.new) result }
{
    let count = files.read(&mut room[..most])?;
    Ok(count)
}

impl Block {
    /// A block of no bytes. Takes no memory.
    pub(crate) fn new(alloc: Global) -> Block
        ensures block { IsBlock result }
        ensures count { result.count ≡ 0 }
    {
        Block {
            room: Vec::new(alloc),
            count: 0,
            numbers: None,
            stacks: Vec::new(alloc),
        }
    }

    /// The bytes.
    pub(crate) fn bytes(&self) -> &[u8]
        requires { self.now.count ≤ length self.now.room.items }

        ensures bytes { result.now ≡ bytes_in self.now }
        ensures count { length result.now ≡ self.now.count }
    {
        &self.room[..self.count]
    }

    /// Lets the bytes go, and keeps the lists of their numbers to be filled again.
    pub(crate) fn clear(&mut self)
        ensures count { self.new.count ≡ 0 }
        ensures none { self.new.numbers ≡ None }
    {
        self.count = 0;
        if let Some(numbers) = mem::replace(&mut self.numbers, None) {
            give_back(numbers.cuts, &mut self.stacks);
        }
    }

    // Takes memory for so many bytes, where there is none yet.
    fn make_room(&mut self, alloc: Global, most: usize) -> Result<(), AllocError>
        ensures room { OnOk result (most ≤ length self.new.room.items) }
        ensures numbers { self.new.numbers ≡ self.old.numbers }
    {
        if self.room.len() < most {
            self.room = vec![in alloc; 0u8; most]?;
        }
        Ok(())
    }

    /// Reads the next bytes of the open file, at most so many, in place of those of the block.
    pub(crate) fn fill<F: Shelf>(
        &mut self,
        alloc: Global,
        files: &mut F,
        most: usize,
    ) -> Result<(), StreamError>
        requires is_open { IsTrue (F.state files.old).is_open }
        requires some { 1 ≤ most }

        ensures read { OnOk result (IsReadBlock (F.state files.old) (F.state files.new) most self.new) }
        ensures left { IsLeft (F.state files.old) (F.state files.new) result }
    {
        self.clear();
        self.make_room(alloc, most)?;
        self.count = read_front(files, &mut self.room, most)?;
        Ok(())
    }

    /// Reads the numbers of the block up to a bound, by several threads.
    pub(crate) fn read_numbers<R: Threads + Sync, G: Gate>(
        &mut self,
        rt: &R,
        alloc: Global,
        team: &Team<'_, G>,
        bound: u32,
    ) -> Result<(), AllocError>
        requires block { IsBlock self.old }
        requires size { self.old.count ≤ 4194304 }

        ensures block { OnOk result (IsBlock self.new) }
        ensures bytes { bytes_in self.new ≡ bytes_in self.old }
        ensures count { self.new.count ≡ self.old.count }
    {
        let text = &self.room[..self.count];
        let Some((first, last)) = white_span(text) else {
            return Ok(());
        };
        let middle = &text[first..last];
        let pieces = pieces(middle.len());
        let points = cut_points(alloc, middle, pieces)?;
        let stacks = mem::replace(&mut self.stacks, Vec::new(alloc));
        let read = read_together(rt, alloc, team, middle, &points, pieces, bound, stacks)?;
        self.stacks = read.stacks;
        self.numbers = Some(Numbers {
            first,
            last,
            points,
            bound,
            cuts: read.cuts,
        });
        Ok(())
    }
}
