//! The program `rpt`: the real folder and streams for the top call.
#![tactic(auto)]

use rpt_cli::run_command;
use rpt_outside::{FolderFiles, OpenGate, StreamSink};
use std::alloc::AllocError;
use std::env;
use std::process::ExitCode;

/// The status where the runtime doesn't give the words as text. The top call never answers it.
const NO_WORDS: u8 = 11;

fn main(rt: HostRuntime) -> ExitCode {
    let Ok(words) = words(&rt) else {
        return ExitCode::from(NO_WORDS);
    };
    let mut out = StreamSink::new(rt.stdout());
    let mut messages = StreamSink::new(rt.stderr());
    let alloc = rt.alloc();
    let mut files = FolderFiles::new(rt);
    let status = run_command(
        &rt,
        alloc,
        &words,
        &mut files,
        &mut out,
        &mut messages,
        &OpenGate,
    );
    ExitCode::from(status)
}

// The words of the command line, without the program's name.
fn words(rt: &HostRuntime) -> Result<Vec<String>, AllocError> {
    match env::args(rt) {
        Ok(words) => words.skip(1).collect(rt.alloc()),
        Err(_) => Err(AllocError),
    }
}
