//! A file that is read from a shelf block by block, while threads read the numbers of the block before.
ghost use Rattle.std.specs.Prelude.{◌≡◌, ℕ, ◌+◌, ◌<◌, ◌≤◌, ◌^◌, List, [], length, IsTrue, OnOk, IfSome};
ghost use Rattle.std.specs.Thread.{IsSync};
ghost use Rattle.jul_text.specs.Tokens.{tokens};
ghost use Rattle.jul_adj.specs.Blocks.{bytes_in, IsBlock, IsReadBlock, IsLeft};
ghost use Rattle.jul_adj.specs.Intakes.{HasTaken, HasTakenBlock};
ghost use Rattle.jul_adj.specs.Pipelines.{HasReadOn, HasAdvanced, AreBlocks, bytes_read};
ghost use Rattle.jul_adj.specs.Reading.{read_tokens, Gives};

use crate::blocks::Block;
use crate::cutting::team_for;
use crate::faults::{ReadError, StreamError};
use crate::intakes::Intake;
use jul_base::{Gate, RawGraph, Shelf};
use jul_pool::Team;
use std::alloc::{AllocError, Global};
use std::mem;
use std::thread::{Threads, join_mut};

/// A file of which the last blocks that were read may not be taken yet.
#[derive(Drop)]
pub(crate) struct Pipeline {
    intake: Intake,
    // The block before the last, or no bytes where it was taken.
    behind: Block,
    // The last block.
    ahead: Block,
}

// Takes a block, and reads the next one in its place.
fn replace_block<F: Shelf>(
    intake: &mut Intake,
    block: &mut Block,
    alloc: Global,
    files: &mut F,
    most: usize,
) -> Result<(), StreamError>
    requires is_open { IsTrue (F.state files.old).is_open }
    requires some { 1 ≤ most }
    requires block { IsBlock block.old }
    requires count { intake.old.feeder.fed + block.old.count < 2 ^ 63 }

    ensures taken { OnOk result (HasTakenBlock intake.old intake.new block.old) }
    ensures read { OnOk result (IsReadBlock (F.state files.old) (F.state files.new) most block.new) }
    ensures left { IsLeft (F.state files.old) (F.state files.new) result }
{
    intake.feed_block(block)?;
    block.fill(alloc, files, most)?;
    Ok(())
}

// The same for the block behind, while other threads read the numbers of the one ahead up to a bound.
fn replace_beside<R: Threads + Sync, F: Shelf, G: Gate>(
    rt: &R,
    alloc: Global,
    others: &Team<'_, G>,
    bound: u32,
    ahead: &mut Block,
    intake: &mut Intake,
    behind: &mut Block,
    files: &mut F,
    most: usize,
) -> Result<(), StreamError>
    requires is_open { IsTrue (F.state files.old).is_open }
    requires some { 1 ≤ most }
    requires ahead { IsBlock ahead.old }
    requires size { ahead.old.count ≤ 4194304 }
    requires behind { IsBlock behind.old }
    requires count { intake.old.feeder.fed + behind.old.count < 2 ^ 63 }

    ensures numbers { OnOk result (IsBlock ahead.new) }
    ensures bytes { bytes_in ahead.new ≡ bytes_in ahead.old }
    ensures size { ahead.new.count ≡ ahead.old.count }

    ensures taken { OnOk result (HasTakenBlock intake.old intake.new behind.old) }
    ensures read { OnOk result (IsReadBlock (F.state files.old) (F.state files.new) most behind.new) }
    ensures left { IsLeft (F.state files.old) (F.state files.new) result }
{
    let (numbers, next) = join_mut(
        rt,
        &mut || -> Result<(), AllocError>
            requires { IsSync R.row × IsBlock ahead.now × (ahead.now.count ≤ 4194304) }
        { ahead.read_numbers(rt, alloc, others, bound) },
        &mut || -> Result<(), StreamError>
            requires { IsTrue (F.state files.now).is_open × (1 ≤ most) × IsBlock behind.now
                × (intake.now.feeder.fed + behind.now.count < 2 ^ 63) }
        { replace_block(intake, behind, alloc, files, most) },
    );
    next?;
    numbers?;
    Ok(())
}

impl Pipeline {
    /// A file of which nothing was read. Takes no memory.
    pub(crate) fn new(alloc: Global) -> Pipeline
        ensures read { HasReadOn [] result }
        ensures blocks { AreBlocks result }
        ensures count { bytes_read result ≡ 0 }
    {
        Pipeline {
            intake: Intake::new(alloc),
            behind: Block::new(alloc),
            ahead: Block::new(alloc),
        }
    }

    /// How many bytes the last block has.
    pub(crate) fn last_count(&self) -> usize
        ensures { result ≡ self.now.ahead.count }
    {
        self.ahead.count
    }

    // Takes all that was read.
    fn take_all(&mut self) -> Result<(), AllocError>
        requires blocks { AreBlocks self.old }
        requires count { bytes_read self.old < 2 ^ 63 }

        ensures taken { (bytes : List ℕ) → HasReadOn bytes self.old →
            OnOk result (HasTaken bytes self.new.intake) }
        ensures count { OnOk result (self.new.intake.feeder.fed ≡ bytes_read self.old) }
        ensures behind { OnOk result (IsBlock self.new.behind) }
        ensures empty { OnOk result (self.new.behind.count ≡ 0) }
    {
        self.intake.feed_block(&self.behind)?;
        self.intake.feed_block(&self.ahead)?;
        self.behind.clear();
        Ok(())
    }

    // The bound up to which other workers of the team read the numbers of the last block: that of the tokens behind those
    // that were taken, which may be another. None where there are no others, or the tokens may be no numbers.
    fn bound_ahead<G: Gate>(&self, team: &Team<'_, G>) -> Option<u32>
        ensures { IfSome result (λ _. 1 < team.now.workers) }
    {
        if team.workers == 1 {
            return None;
        }
        self.intake.bound()
    }

    /// Reads the next block of the open file, of at most so many bytes, and meanwhile takes the block behind the last one.
    /// Other workers of the team read the numbers of the last one, if it is long enough. If not, it is taken too, before.
    pub(crate) fn advance<R: Threads + Sync, F: Shelf, G: Gate>(
        &mut self,
        rt: &R,
        alloc: Global,
        team: &Team<'_, G>,
        files: &mut F,
        most: usize,
    ) -> Result<(), StreamError>
        requires is_open { IsTrue (F.state files.old).is_open }
        requires some { 1 ≤ most }
        requires few { most ≤ 4194304 }
        requires blocks { AreBlocks self.old }
        requires count { bytes_read self.old < 2 ^ 63 }

        ensures advanced { OnOk result (HasAdvanced self.old self.new) }
        ensures read { OnOk result (IsReadBlock (F.state files.old) (F.state files.new) most self.new.ahead) }
        ensures left { IsLeft (F.state files.old) (F.state files.new) result }
    {
        let team = team_for(team, self.ahead.count);
        let Some(bound) = self.bound_ahead(&team) else {
            self.take_all()?;
            return self.ahead.fill(alloc, files, most);
        };
        let others = Team {
            workers: team.workers - 1,
            chunk: team.chunk,
            gate: team.gate,
        };
        replace_beside(
            rt,
            alloc,
            &others,
            bound,
            &mut self.ahead,
            &mut self.intake,
            &mut self.behind,
            files,
            most,
        )?;
        mem::swap(&mut self.ahead, &mut self.behind);
        Ok(())
    }

    /// What the file says, of which all bytes were read.
    pub(crate) fn finish(mut self) -> Result<RawGraph, ReadError>
        requires blocks { AreBlocks self }
        requires count { bytes_read self < 2 ^ 63 }

        ensures { (bytes : List ℕ) → HasReadOn bytes self →
            Gives result (read_tokens (tokens bytes) (length bytes)) }
    {
        self.take_all()?;
        let Pipeline {
            intake,
            behind: _,
            ahead: _,
        } = self;
        intake.finish()
    }
}
