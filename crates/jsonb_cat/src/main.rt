//! Reads a JSON text from standard input, and writes the text of its value to standard output.
#![tactic(auto)]

pub mod cat;

use std::alloc::Global;
use std::process::ExitCode;
use std::rt::Env;
use std::{env, io};

// The program's arguments without its own name.
fn words(rt: &(impl Env + AllocGlobal)) -> io::Result<Vec<String>> {
    let words: Vec<String> = env::args(rt)?.skip(1).collect(rt.alloc())?;
    Ok(words)
}

fn main(rt: HostRuntime) -> ExitCode {
    let Ok(words) = words(&rt) else {
        return ExitCode::FAILURE;
    };
    let (mut input, mut out, mut err) = (rt.stdin(), rt.stdout(), rt.stderr());
    ExitCode::from(cat::run(rt.alloc(), &words, &mut input, &mut out, &mut err))
}
