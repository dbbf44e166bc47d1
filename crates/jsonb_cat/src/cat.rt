//! What the program does, over any streams.

ghost use Rattle.std.specs.Prelude.{◌≡◌, ◌↔◌, ◌⊎◌, ℕ, ◌+◌, ◌≤◌, List, [], ◌∷◌, ◌++◌, take, map, vec_len, vec_capacity, string_bytes, MatchOption, OnOk, OnErr, IfOk, IfErr, IfSome, Err};
ghost use Rattle.std.specs.Io.KnownBytes.{IsAtEnd};
ghost use Rattle.jsonb_spec.specs.Ascii as ascii;
ghost use Rattle.jsonb_spec.specs.Mode.{Mode as GrammarMode};
ghost use Rattle.text_scan.specs.Answer.{mode_of};
ghost use Rattle.jsonb_spec.specs.Parsing.Memory.{MayAllocate};
ghost use Rattle.jsonb.specs.Follows.{FailsAsSpecified};
ghost use Rattle.jsonb.specs.Parses.{Rejects};
ghost use Rattle.jsonb_spec.specs.Program.{WordsChoose, IsLineOf, LacksCapacity, IsAccepted, IsAnswered};

use jsonb::parser::{Grammar, Mode};
use jsonb::{Error, Result, append_text};
use std::alloc::Global;
use std::io;
use std::io::{Read, Write};

const USAGE: &str = "usage: jsonb_cat [--standard]";

// How often the input is read at most.
const MAX_READS: u32 = 1 << 20;

// How many bytes are free at least when the input is read.
const MIN_FREE: usize = 4096;

// How many bytes more than the input has are space for the line.
const SPARE: usize = 64;

/// The mode of the program's arguments, or `None` where it doesn't take them.
pub fn choose_mode(words: &[String]) -> Option<Mode>
    ensures { MatchOption result ((mode : GrammarMode) → WordsChoose (map string_bytes words.now) mode → ⊥)
        (λ mode. WordsChoose (map string_bytes words.now) (mode_of mode)) }
{
    match words {
        [] => Some(Mode::Extended),
        [word] if word.as_str() == "--standard" => Some(Mode::Standard),
        _ => None,
    }
}

/// Appends to `out` the text of the document that `input` is, and a line feed. After an error `out` holds what it held.
pub fn convert(alloc: Global, mode: Mode, input: &[u8], out: &mut Vec<u8>) -> Result<()>
    ensures ok { OnOk result ((line : List ℕ) × IsLineOf (mode_of mode) input.now line
        × (out.new.items ≡ out.old.items ++ line)) }
    // What is rejected is no document. Which fault it is, and where, and what is at the offset that is named.
    ensures rejects { Rejects (mode_of mode) input.now result }
    ensures follows { FailsAsSpecified (mode_of mode) input.now result }
    ensures memory { result ≡ Err Error.OutOfMemory → MayAllocate input.now
        ⊎ LacksCapacity (mode_of mode) input.now (vec_capacity out.old) (vec_len out.old) }
    ensures err { OnErr result (out.new.items ≡ out.old.items) }
    // Where the input is what was appended, without the line feed, the same is appended again.
    ensures again { OnOk result ((text : List ℕ) → out.new.items ≡ out.old.items ++ (text ++ ascii.line_feed ∷ [])
        → (line : List ℕ) → IsLineOf (mode_of mode) text line ↔ (line ≡ text ++ ascii.line_feed ∷ [])) }
{
    let old_len = out.len();
    append_text(alloc, input, Grammar::from(mode), out)?;
    if out.push(b'\n').is_err() {
        out.truncate(old_len);
        return Err(Error::OutOfMemory);
    }
    Ok(())
}

// Grows the buffer where fewer bytes than `MIN_FREE` are in it after the first `filled`.
fn grow(buffer: &mut Vec<u8>, filled: usize) -> io::Result<()>
    requires { filled ≤ vec_len buffer.old }
    ensures space { OnOk result (filled + MIN_FREE ≤ vec_len buffer.new) }
    ensures filled { OnOk result (take filled buffer.new.items ≡ take filled buffer.old.items) }
{
    let len = buffer.len();
    if len - filled < MIN_FREE {
        buffer.resize(len.saturating_mul(2).max(2 * MIN_FREE), 0)?;
        if buffer.len() - filled < MIN_FREE {
            return Err(io::Error::from(io::ErrorKind::OutOfMemory));
        }
    }
    Ok(())
}

// All bytes of the input. A read that fails ends it, and so does an input that goes on after `MAX_READS` reads.
fn read_input<R: Read>(alloc: Global, input: &mut R) -> Result<Vec<u8>>
    ensures bytes { IfOk result (λ v. IfSome (R.remaining input.old) (λ bytes. v.items ≡ bytes)) }
    ensures end { OnOk result (IsAtEnd (R.remaining input.new)) }
    ensures err { IfErr result (λ e. e ≡ Error.InvalidUtf8) }
{
    let mut buffer = Vec::new(alloc);
    let mut filled = 0;
    'reads: for _ in 0..MAX_READS {
        grow(&mut buffer, filled)?;
        let count = input.read(&mut buffer[filled..])?;
        if count == 0 {
            buffer.truncate(filled);
            return Ok(buffer);
        }
        filled += count;
    }
    Err(Error::InvalidUtf8)
}

// What is written for the input: the text of its value, and a line feed.
fn line_of<R: Read>(alloc: Global, mode: Mode, input: &mut R) -> Result<Vec<u8>>
    ensures line { IfOk result (λ line. IfSome (R.remaining input.old)
        (λ bytes. IsLineOf (mode_of mode) bytes line.items)) }
    ensures end { OnOk result (IsAtEnd (R.remaining input.new)) }
{
    let bytes = read_input(alloc, input)?;
    // Mostly the line isn't longer than the input. It is copied 64 bytes at a time, and what is too much is taken back.
    let mut line = Vec::new(alloc);
    let _made = line.reserve_exact(bytes.len().saturating_add(SPARE));
    convert(alloc, mode, &bytes, &mut line)?;
    Ok(line)
}

/// Runs the program with these arguments, without its own name, over these streams, and returns its exit status: 0
/// where the value was written, 1 where the input was rejected or a stream failed, 2 where the arguments are wrong.
pub fn run<R: Read, W: Write, E: Write>(
    alloc: Global,
    words: &[String],
    input: &mut R,
    out: &mut W,
    err: &mut E,
) -> u8
    ensures status { result ≤ 2 }
    ensures usage { result ≡ 2 ↔ ((mode : GrammarMode) → WordsChoose (map string_bytes words.now) mode → ⊥) }
    ensures untouched { result ≡ 2 → (input.new ≡ input.old) × (out.new ≡ out.old) }
    ensures answered { result ≡ 0 → IsAtEnd (R.remaining input.new) × IfSome (R.remaining input.old)
        (λ bytes. IsAnswered (map string_bytes words.now) bytes (W.contents out.old) (W.contents out.new)) }
    ensures failed { result ≡ 1 → (out.new ≡ out.old) ⊎ (IsAtEnd (R.remaining input.new)
        × IfSome (R.remaining input.old) (λ bytes. IsAccepted (map string_bytes words.now) bytes)) }
{
    let Some(mode) = choose_mode(words) else {
        let _ = writeln!(err, "{USAGE}");
        return 2;
    };
    match line_of(alloc, mode, input) {
        Ok(line) => match out.write_all(&line) {
            Ok(()) => 0,
            Err(_) => 1,
        },
        Err(e) => {
            let _ = writeln!(err, "{e}");
            1
        }
    }
}
