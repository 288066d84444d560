//! Graph files read in blocks of few bytes and of many, each with a line that tells what the reading gave.
//!
//! The files come on standard input (`cases`), and the lines go to standard output (`lines`). Tests compare them with
//! those of an implementation that shares no code with this one.
#![tactic(auto)]

mod cases;
mod checksums;
mod errors;
mod lines;
mod readings;
mod reports;
mod running;

use crate::running::run;
use jul_base::{RealShelf, RealSink, write_whole};
use std::process::ExitCode;

fn main(rt: HostRuntime) -> ExitCode {
    let mut out = RealSink::new(rt.stdout());
    let mut err = RealSink::new(rt.stderr());
    let mut files = RealShelf::new(rt);
    match run(&rt, rt.alloc(), &mut files, &mut out) {
        Ok(()) => ExitCode::from(0),
        Err(error) => {
            let _ = write_whole(&mut err, error.message().as_bytes());
            ExitCode::from(error.code())
        }
    }
}
