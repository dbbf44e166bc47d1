//! Parses the JSON texts or calculates with the numbers of each line of standard input, one or two a line, and prints
//! the result of each; or, of a text behind `o `, what each call that allocates returns. `tests/differential` runs it,
//! and `tests/oom`, which makes its allocations fail, one after the other.
#![tactic(auto)]

mod answer;
mod calls;
mod messages;
mod numbers;
mod same;
mod straight;
mod tree;

use std::alloc::Global;
use std::io;
use std::io::{BufRead, BufReader, BufWriter, Write};

fn main(rt: HostRuntime) -> io::Result<()> {
    let alloc = rt.alloc();
    let mut out = BufWriter::new(alloc, io::writer(&rt))?;
    for line in BufReader::new(alloc, rt.reader())?.lines(alloc) {
        let line = line?;
        match line.as_str().strip_prefix("o ") {
            Some(text) => report(alloc, text, &mut out)?,
            None => {
                let answer = answer::answer(alloc, line.as_str())?;
                writeln!(out, "{answer}")?;
            }
        }
    }
    out.flush()
}

// Writes a line for each call that allocates.
fn report<W: Write>(alloc: Global, text: &str, out: &mut W) -> io::Result<()> {
    calls::report(alloc, text, out)?;
    messages::report(alloc, out)
}
