//! Real files and standard input: the trusted edge.
ghost use Rattle.std.specs.Prelude.{◌≡◌, ◌||◌, None, is_some, false};

use crate::shelves::Shelf;
use crate::sinks::Failed;
use std::fs;
use std::io::{Input, Read};
use std::rt::Files;

/// The files of the system, and standard input under the name `-`. It tells contracts no bytes.
#[derive(Drop)]
pub struct RealShelf<R: Files + Input + Drop> {
    rt: R,
    file: Option<R::File>,
    input: Option<R::Reader>,
    faults: u64,
}

impl<R: Files + Input + Drop> RealShelf<R> {
    /// A shelf of which no file is open. Takes no memory.
    pub fn new(rt: R) -> RealShelf<R>
        ensures closed { (⟦<RealShelf<R> as Shelf>⟧.state result).is_open ≡ false }
        ensures faults { (⟦<RealShelf<R> as Shelf>⟧.state result).faults ≡ 0 }
    {
        RealShelf {
            rt,
            file: None,
            input: None,
            faults: 0,
        }
    }
}

impl<R: Files + Input + Drop> Shelf for RealShelf<R> {
    ghost state = { λ s. record { told = None; is_open = is_some s.file || is_some s.input; faults = s.faults } };

    fn open(&mut self, name: &str) -> Result<(), Failed> {
        self.file = None;
        self.input = None;
        if name == "-" {
            self.input = Some(self.rt.reader());
            return Ok(());
        }
        match fs::open(&self.rt, name) {
            Ok(file) => {
                self.file = Some(file);
                Ok(())
            }
            Err(_) => {
                self.faults = self.faults.saturating_add(1);
                Err(Failed)
            }
        }
    }

    fn read(&mut self, buf: &mut [u8]) -> Result<usize, Failed> {
        let outcome = if let Some(file) = &mut self.file {
            file.read(buf)
        } else if let Some(input) = &mut self.input {
            input.read(buf)
        } else {
            return Err(Failed);
        };
        match outcome {
            Ok(count) => Ok(count),
            Err(_) => {
                self.faults = self.faults.saturating_add(1);
                Err(Failed)
            }
        }
    }
}
