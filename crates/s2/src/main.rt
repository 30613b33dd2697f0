//! The program: the command line, the files and the standard streams, handed to the top call.
#![tactic(auto)]

mod words;

use s2_base::Memory;
use s2_io::{FileDesk, StdSink, StdSource};
use s2_run::{Status, serve};
use std::process::ExitCode;

/// Runs the command of the words over the file system and the standard streams.
fn status_of(rt: HostRuntime, words: &[String]) -> Status {
    let alloc = rt.alloc();
    let mut input = StdSource::new(rt.stdin());
    let mut console = StdSink::new(rt.stdout());
    let mut report = StdSink::new(rt.stderr());
    let mut desk = FileDesk::new(rt);
    serve(
        alloc,
        words,
        &mut desk,
        &mut input,
        &mut console,
        &mut report,
        &mut None,
    )
}

fn main(rt: HostRuntime) -> ExitCode {
    let status = match words::read(&rt) {
        Ok(words) => status_of(rt, words.as_slice()),
        Err(Memory) => Status::Memory,
    };
    ExitCode::from(status.number())
}
