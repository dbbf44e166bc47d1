//! The texts of an input: its lines, or all of it.

ghost use Rattle.std.specs.Prelude.{◌≡◌, ◌<◌, ◌+◌, ◌++◌, ◌∷◌, ℕ, List, length, true, false, Ok, IfOk, IfSome, OnOk, vec_len};
ghost use Rattle.std.specs.Io.BufRead.{take_through, drop_through, DropsThrough};
ghost use Rattle.std.specs.Io.KnownBytes.{IsAtEnd, Keeps};
ghost use Rattle.std.specs.Str.Lines.{lines};
ghost use Rattle.jsonb_spec.specs.Ascii as ascii;
ghost use Rattle.jsonb_spec.specs.Program.Input.{is_blank, is_blank_line, without_end, without_mark};

use memchr::memchr;
use std::io;
use std::io::{BufRead, ErrorKind};

/// The bytes without a byte order mark at their start.
pub fn without_mark(bytes: &[u8]) -> &[u8]
    ensures { result.now ≡ without_mark bytes.now }
{
    match bytes {
        [0xEF, 0xBB, 0xBF, rest @ ..] => rest,
        _ => bytes,
    }
}

/// A line without its line feed, and without a carriage return before that.
pub fn without_end(line: &[u8]) -> &[u8]
    ensures { result.now ≡ without_end line.now }
{
    match line {
        [text @ .., b'\r', b'\n'] => text,
        [text @ .., b'\n'] => text,
        _ => line,
    }
}

// Whether the byte is a space, a tab, a line feed or a carriage return.
fn is_blank(byte: u8) -> bool
    ensures { result ≡ is_blank byte }
{
    byte == b' ' || (byte == b'\t' || (byte == b'\n' || byte == b'\r'))
}

/// Whether a line has whitespace alone.
pub fn is_blank_line(line: &[u8]) -> bool
    ensures { result ≡ is_blank_line line.now }
{
    'bytes: for byte in line {
        if !is_blank(*byte) {
            return false;
        }
    }
    true
}

// Appends a line of the bytes that the input holds, with its line feed. False where they have none, and nothing is
// appended.
fn append_buffered_line<R: BufRead>(input: &mut R, buf: &mut Vec<u8>) -> io::Result<bool>
    ensures bytes { result ≡ Ok true → IfSome (R.remaining input.old)
        (λ xs. buf.new.items ≡ buf.old.items ++ take_through ascii.line_feed xs) }
    ensures rest { result ≡ Ok true → DropsThrough (R.remaining input.old) (R.remaining input.new) ascii.line_feed }
    ensures some { result ≡ Ok true → vec_len buf.old < vec_len buf.new }
    ensures nothing { result ≡ Ok false → buf.new.items ≡ buf.old.items }
    ensures same { result ≡ Ok false → Keeps (R.remaining input.old) (R.remaining input.new) }
{
    let available = match input.fill_buf() {
        Ok(available) => available,
        Err(error) => {
            if error.kind() == ErrorKind::Interrupted {
                return Ok(false);
            }
            return Err(error);
        }
    };
    let Some(index) = memchr(b'\n', available) else {
        return Ok(false);
    };
    buf.extend_from_slice(&available[..index + 1])?;
    input.consume(index + 1);
    Ok(true)
}

/// Appends what the input has up to its next line feed, and that, as `read_until` does; a line that the input holds is
/// found at once. Returns how many bytes it appended.
///
/// # Errors
///
/// Where the input fails, or memory runs out.
pub fn read_line<R: BufRead>(input: &mut R, buf: &mut Vec<u8>) -> io::Result<usize>
    ensures ok { IfOk result (λ n. vec_len buf.new ≡ vec_len buf.old + n) }
    ensures bytes { OnOk result (IfSome (R.remaining input.old)
        (λ xs. buf.new.items ≡ buf.old.items ++ take_through ascii.line_feed xs)) }
    ensures rest { OnOk result (DropsThrough (R.remaining input.old) (R.remaining input.new) ascii.line_feed) }
    ensures end { IfOk result (λ n. n ≡ 0 → IsAtEnd (R.remaining input.old)) }
{
    let start = buf.len();
    if append_buffered_line(input, buf)? {
        return Ok(buf.len() - start);
    }
    input.read_until(b'\n', buf)
}

/// The lines of some bytes are what they begin with up to a line feed, without its end, and the lines of what follows.
pub fn lines_begin_with_the_first()
    ensures { (bytes : List ℕ) → 0 < length bytes → lines bytes
        ≡ without_end (take_through ascii.line_feed bytes) ∷ lines (drop_through ascii.line_feed bytes) }
{}
