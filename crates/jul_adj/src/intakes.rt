//! A graph file that comes in pieces.
ghost use Rattle.std.specs.Prelude.{◌≡◌, ℕ, ◌+◌, ◌<◌, ◌≤◌, ◌^◌, List, [], length, slice_range, IfOk, OnOk};
ghost use Rattle.jul_text.specs.Tokens.{tokens};
ghost use Rattle.jul_text.specs.Cuts.{EndsWhite, AreCutPoints};
ghost use Rattle.jul_adj.specs.Cutting.{IsReadAs, AreCutsRead};
ghost use Rattle.jul_adj.specs.Blocks.{bytes_in, IsBlock, AreNumbersOf};
ghost use Rattle.jul_adj.specs.Reading.{read_tokens, Gives};

use crate::blocks::{Block, Numbers};
use crate::cutting::PIECE;
use crate::faults::ReadError;
use crate::readings::Reading;
use jul_base::RawGraph;
use jul_text::{Feeder, Mark, read_numbers, white_span};
use std::alloc::{AllocError, Global};

/// A graph file of which some bytes were taken.
#[derive(Drop)]
pub(crate) struct Intake {
    feeder: Feeder,
    reading: Reading,
    // The marks of the tokens that ended in the latest piece, if it was marked.
    marks: Vec<Mark>,
    // The numbers of the latest piece, if it was read as numbers.
    values: Vec<u32>,
}

// A part of a text.
fn part(text: &[u8], from: usize, to: usize) -> &[u8]
    requires rising { from ≤ to }
    requires within { to ≤ length text.now }

    ensures { result.now ≡ slice_range text.now from to }
{
    &text[from..to]
}

impl Intake {
    ghost use Rattle.jul_adj.specs.Intakes.{HasTaken, Takes, TakesBehindWhite};

    /// A file of which no byte was taken. Takes no memory.
    pub(crate) fn new(alloc: Global) -> Intake
        ensures taken { HasTaken [] result }
        ensures count { result.feeder.fed ≡ 0 }
    {
        Intake {
            feeder: Feeder::new(),
            reading: Reading::new(alloc),
            marks: Vec::new(alloc),
            values: Vec::new(alloc),
        }
    }

    // Takes the next bytes, which are few.
    fn feed(&mut self, piece: &[u8]) -> Result<(), AllocError>
        requires { self.old.feeder.fed + length piece.now < 2 ^ 63 }

        ensures taken { Takes self.old result self.new piece.now }
        ensures count { OnOk result (self.new.feeder.fed ≡ self.old.feeder.fed + length piece.now) }
    {
        self.marks.clear();
        self.feeder.feed(piece, &mut self.marks)?;
        self.reading.take(&self.marks)
    }

    // Takes the next bytes, which end in a white byte, as those before do. Where they are not all numbers that go on
    // with the same part of the file, their tokens are marked.
    fn feed_cut(&mut self, cut: &[u8]) -> Result<(), AllocError>
        requires white { EndsWhite cut.now }
        requires count { self.old.feeder.fed + length cut.now < 2 ^ 63 }

        ensures taken { TakesBehindWhite self.old result self.new cut.now }
        ensures count { OnOk result (self.new.feeder.fed ≡ self.old.feeder.fed + length cut.now) }
    {
        if let Some(bound) = self.reading.bound() {
            if read_numbers(cut, bound, &mut self.values)?
                && self.reading.take_values(&self.values, bound)?
            {
                self.feeder.pass(cut);
                return Ok(());
            }
        }
        self.feed(cut)
    }

    // The same, where another thread has read the bytes as numbers up to a bound, if they are.
    fn feed_read(
        &mut self,
        cut: &[u8],
        read: &Option<Vec<u32>>,
        bound: u32,
    ) -> Result<(), AllocError>
        requires white { EndsWhite cut.now }
        requires read { IsReadAs cut.now bound read.now }
        requires count { self.old.feeder.fed + length cut.now < 2 ^ 63 }

        ensures taken { TakesBehindWhite self.old result self.new cut.now }
        ensures count { OnOk result (self.new.feeder.fed ≡ self.old.feeder.fed + length cut.now) }
    {
        if let Some(values) = read {
            if self.reading.take_values(values, bound)? {
                self.feeder.pass(cut);
                return Ok(());
            }
        }
        self.feed_cut(cut)
    }

    // Takes the next bytes, of which each cut was read.
    fn feed_cuts(
        &mut self,
        text: &[u8],
        points: &[usize],
        cuts: &[Option<Vec<u32>>],
        bound: u32,
    ) -> Result<(), AllocError>
        requires white { EndsWhite text.now }
        requires some { 0 < length cuts.now }
        requires points { AreCutPoints text.now (length cuts.now) points.now }
        requires read { AreCutsRead text.now points.now (length cuts.now) bound cuts.now }
        requires count { self.old.feeder.fed + length text.now < 2 ^ 63 }

        ensures taken { TakesBehindWhite self.old result self.new text.now }
        ensures count { OnOk result (self.new.feeder.fed ≡ self.old.feeder.fed + length text.now) }
    {
        for number in 0..cuts.len() {
            let cut = part(text, points[number], points[number + 1]);
            self.feed_read(cut, &cuts[number], bound)?;
        }
        Ok(())
    }

    // Takes the next bytes, which are few.
    fn feed_piece(&mut self, piece: &[u8]) -> Result<(), AllocError>
        requires { self.old.feeder.fed + length piece.now < 2 ^ 63 }

        ensures taken { Takes self.old result self.new piece.now }
        ensures count { OnOk result (self.new.feeder.fed ≡ self.old.feeder.fed + length piece.now) }
    {
        match white_span(piece) {
            Some((first, last)) => {
                self.feed(&piece[..first])?;
                self.feed_cut(&piece[first..last])?;
                self.feed(&piece[last..])
            }
            None => self.feed(piece),
        }
    }

    /// Takes the next bytes of the file, a piece at a time.
    pub(crate) fn feed_pieces(&mut self, bytes: &[u8]) -> Result<(), AllocError>
        requires { self.old.feeder.fed + length bytes.now < 2 ^ 63 }

        ensures taken { Takes self.old result self.new bytes.now }
        ensures count { OnOk result (self.new.feeder.fed ≡ self.old.feeder.fed + length bytes.now) }
    {
        let mut at = 0;
        while at < bytes.len() {
            let count = PIECE.min(bytes.len() - at);
            self.feed_piece(&bytes[at..at + count])?;
            at += count;
        }
        Ok(())
    }

    // Takes the next bytes, of whose numbers threads have read what they could.
    fn feed_numbers(&mut self, bytes: &[u8], numbers: &Numbers) -> Result<(), AllocError>
        requires numbers { AreNumbersOf bytes.now numbers.now }
        requires count { self.old.feeder.fed + length bytes.now < 2 ^ 63 }

        ensures taken { Takes self.old result self.new bytes.now }
        ensures count { OnOk result (self.new.feeder.fed ≡ self.old.feeder.fed + length bytes.now) }
    {
        let first = numbers.first;
        let last = numbers.last;
        self.feed(&bytes[..first])?;
        self.feed_cuts(
            &bytes[first..last],
            &numbers.points,
            &numbers.cuts,
            numbers.bound,
        )?;
        self.feed(&bytes[last..])
    }

    /// The greatest number that the next tokens may be, where they are several that are alike. Takes no memory.
    pub(crate) fn bound(&self) -> Option<u32> {
        self.reading.bound()
    }

    /// Takes a block, the next bytes of the file.
    pub(crate) fn feed_block(&mut self, block: &Block) -> Result<(), AllocError>
        requires block { IsBlock block.now }
        requires count { self.old.feeder.fed + block.now.count < 2 ^ 63 }

        ensures taken { Takes self.old result self.new (bytes_in block.now) }
        ensures count { OnOk result (self.new.feeder.fed ≡ self.old.feeder.fed + block.now.count) }
    {
        match &block.numbers {
            Some(numbers) => self.feed_numbers(block.bytes(), numbers),
            None => self.feed_pieces(block.bytes()),
        }
    }

    /// What the file says, of which all bytes were taken.
    pub(crate) fn finish(self) -> Result<RawGraph, ReadError>
        ensures { (b : List ℕ) → HasTaken b self → Gives result (read_tokens (tokens b) (length b)) }
    {
        let Intake {
            feeder,
            mut reading,
            marks: _,
            values: _,
        } = self;
        let len = feeder.count();
        if let Some(last) = feeder.finish() {
            reading.take(&[last])?;
        }
        match reading.finish(len) {
            Ok(graph) => Ok(graph),
            Err(fault) => Err(ReadError::Bad(fault)),
        }
    }
}
