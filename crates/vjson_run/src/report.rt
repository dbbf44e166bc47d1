//! What is reported on standard error, and what is written on standard output.

ghost use Rattle.std.specs.Prelude.{◌≡◌, [], None, OnOk};
ghost use Rattle.std.specs.List.{flat_map};
ghost use Rattle.vjson_run.specs.Lines.{count_line, counts_of, line_text};
ghost use Rattle.vjson_run.specs.Output.{PrintsNothing, PrintsPart};

use crate::lines::{Line, append_line};
use crate::location::{append_shown, shown_line};
use crate::options::BLOCK;
use itoa::Buffer;
use std::alloc::{AllocError, Global};
use std::io;
use std::io::Write;
use vjson_text::Message;

/// Standard output, with what isn't written yet, and the error by which it failed.
#[derive(Drop)]
pub struct Output<W> {
    writer: W,
    pub bytes: Vec<u8>,
    error: Option<io::Error>,
}

impl<W: Write> Output<W> {
    /// An output of which nothing is held yet.
    pub fn new(alloc: Global, writer: W) -> Output<W>
        ensures writer { result.writer ≡ writer }
        ensures bytes { result.bytes.items ≡ [] }
        ensures error { result.error ≡ None }
    {
        Output {
            writer,
            bytes: Vec::new(alloc),
            error: None,
        }
    }

    /// The error by which it failed.
    pub fn error(&self) -> Option<io::Error>
        ensures { result ≡ self.now.error }
    {
        self.error
    }

    /// Writes what is held.
    pub fn flush(&mut self)
        ensures nothing { PrintsNothing W.contents self.old self.new }
        ensures empty { self.new.bytes.items ≡ [] }
    {
        if self.error.is_none() {
            if let Err(error) = self.writer.write_all(&self.bytes) {
                self.error = Some(error);
            }
        }
        self.bytes.clear();
    }

    /// Writes what is held, where it is as many bytes as a block.
    pub fn flush_much(&mut self, block: usize)
        ensures nothing { PrintsNothing W.contents self.old self.new }
    {
        if self.bytes.len() >= block {
            self.flush();
        }
    }
}

/// Prints the lines, each with a line feed, unless the output fails.
pub fn print_lines<W: Write>(lines: &[Line], out: &mut Output<W>) -> Result<(), AllocError>
    ensures ok { OnOk result (PrintsPart W.contents out.old out.new (flat_map line_text lines.now)) }
{
    'lines: for line in lines {
        append_line(&line.text, &mut out.bytes)?;
        out.flush_much(BLOCK);
        if out.error().is_some() {
            return Ok(());
        }
    }
    Ok(())
}

// Prints a count and a line.
fn print_count<W: Write>(count: usize, line: &Line, out: &mut Output<W>) -> Result<(), AllocError>
    ensures ok { OnOk result (PrintsPart W.contents out.old out.new (count_line count line.now)) }
{
    let mut buffer = Buffer::new();
    out.bytes
        .extend_from_slice(buffer.format(count).as_bytes())?;
    append_line(&line.text, &mut out.bytes)?;
    out.flush_much(BLOCK);
    Ok(())
}

/// Prints of sorted lines how often each key is there, and the first line with it; of none 0, unless by parts.
pub fn print_counts<W: Write>(
    lines: &[Line],
    by_parts: bool,
    out: &mut Output<W>,
) -> Result<(), AllocError>
    ensures ok { OnOk result (PrintsPart W.contents out.old out.new (counts_of by_parts lines.now)) }
{
    let Some((first, others)) = lines.split_first() else {
        if !by_parts {
            out.bytes.extend_from_slice(b"0\n")?;
        }
        return Ok(());
    };
    let mut line = first;
    let mut count: usize = 1;
    'lines: for next in others {
        if line == next {
            count += 1;
            continue;
        }
        print_count(count, line, out)?;
        line = next;
        count = 1;
    }
    print_count(count, line, out)?;
    Ok(())
}

// An error's words without the system's number.
fn words_of(alloc: Global, error: &io::Error) -> Result<String, AllocError> {
    let text = format!(in alloc; "{error}")?;
    match text.as_str().split_once(" (os error") {
        Some((words, _)) => String::from_str(alloc, words),
        None => Ok(text),
    }
}

fn try_report_stream<E: Write>(
    alloc: Global,
    err: &mut E,
    name: &str,
    error: &io::Error,
) -> Result<(), AllocError> {
    let mut line = String::from_str(alloc, "vjson: ")?;
    append_shown(name.as_bytes(), &mut line)?;
    line.push_str(": ")?;
    line.push_str(words_of(alloc, error)?.as_str())?;
    line.push('\n')?;
    let _ = err.write_all(line.as_bytes());
    Ok(())
}

/// Reports that a file or a stream failed.
pub fn report_stream<E: Write>(alloc: Global, err: &mut E, name: &str, error: &io::Error) {
    if try_report_stream(alloc, err, name, error).is_err() {
        report_memory(err);
    }
}

/// Reports that memory ran out.
pub fn report_memory<E: Write>(err: &mut E) {
    let _ = err.write_all(b"vjson: out of memory\n");
}

/// A location of a file.
#[derive(Clone, Copy)]
pub struct Spot<'a> {
    pub name: &'a str,
    pub line: u64,
    pub column: u64,
}

fn try_report_fault<E: Write>(
    alloc: Global,
    err: &mut E,
    spot: Spot<'_>,
    message: &Message,
    text: &[u8],
    offset: usize,
) -> Result<(), AllocError> {
    let mut line = String::new(alloc);
    append_shown(spot.name.as_bytes(), &mut line)?;
    let (row, column) = (spot.line, spot.column);
    let numbers = format!(in alloc; ":{row}:{column}: ")?;
    line.push_str(numbers.as_str())?;
    let words = format!(in alloc; "{message}")?;
    append_shown(words.as_bytes(), &mut line)?;
    line.push('\n')?;
    line.push_str(shown_line(alloc, text, offset)?.as_str())?;
    line.push('\n')?;
    let _ = err.write_all(line.as_bytes());
    Ok(())
}

/// Says what is wrong with a text, and where.
pub fn report_fault<E: Write>(
    alloc: Global,
    err: &mut E,
    spot: Spot<'_>,
    message: &Message,
    text: &[u8],
    offset: usize,
) {
    if try_report_fault(alloc, err, spot, message, text, offset).is_err() {
        report_memory(err);
    }
}
