//! The program: the words of the command line, the files of the system, standard output and standard error.
//!
//! All that it does is `jul_cmd::run`; here are only its objects and the exit code.
#![tactic(auto)]

use jul_base::{OpenGate, RealShelf, RealSink, write_whole};
use jul_cmd::{Status, run};
use std::alloc::{AllocError, Global};
use std::process::ExitCode;
use std::rt::Env;
use std::{env, io};

/// The words after the program's name. Words that are not all UTF-8 are read as none, which are not taken.
fn words_of_program<R: Env + AllocGlobal>(rt: &R) -> Result<Vec<String>, AllocError> {
    match env::args(rt) {
        Ok(args) => args.skip(1).collect(rt.alloc()),
        Err(error) if error.kind() == io::ErrorKind::OutOfMemory => Err(AllocError),
        Err(_) => Ok(Vec::new(rt.alloc())),
    }
}

fn main(rt: HostRuntime) -> ExitCode {
    let mut err = RealSink::new(rt.stderr());
    let Ok(words) = words_of_program(&rt) else {
        let _ = write_whole(&mut err, b"out of memory\n");
        return ExitCode::from(Status::Memory.code());
    };
    let mut files = RealShelf::new(rt);
    let mut out = RealSink::new(rt.stdout());
    let status = run(
        &rt,
        rt.alloc(),
        words.as_slice(),
        &mut files,
        &mut out,
        &mut err,
        &OpenGate,
    );
    ExitCode::from(status.code())
}
