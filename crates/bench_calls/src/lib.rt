//! What the benchmark calls from C: each function does one operation on a text, over and over, so that the caller
//! can time it.
//!
//! From C, `alloc` is passed as nothing, and a slice as a pointer and a length:
//! `size_t jsonb_bench_read(const unsigned char *text, size_t text_len, size_t rounds)`.
#![tactic(auto)]

ghost use Rattle.std.specs.Prelude.{◌≡◌, ◌≤◌};
ghost use Rattle.bench_calls.specs.Rounds.{CountsRounds};
ghost use Rattle.jsonb_spec.specs.Grammar.{IsDocument};
ghost use Rattle.jsonb_spec.specs.Mode.{standard, extended};
ghost use Rattle.jsonb_spec.specs.Tree.{Tree};

use jsonb::{
    Grammar, JsonAst, Mode, append_part, append_sort_key, append_text, check, parse_value,
    parse_value_standard_mode,
};
use jsonb_core::error::Error;
use jsonb_path::read_keys;
use std::alloc::Global;

/// Reads the text as standard JSON `rounds` times, and drops each value. The answer is how many rounds went
/// well before the first that did not, and so it is `rounds` where all did.
#[unsafe(no_mangle)]
pub extern "C" fn jsonb_bench_read(alloc: Global, text: &[u8], rounds: usize) -> usize
    ensures counts { CountsRounds standard text.now rounds result }
{
    for round in 0..rounds {
        if parse_value_standard_mode(alloc, text).is_err() {
            return round;
        }
    }
    rounds
}

/// Reads the text as standard JSON `rounds` times, and drops each error. The answer is how many rounds rejected it
/// before the first that did not, and so it is `rounds` where all did.
#[unsafe(no_mangle)]
pub extern "C" fn jsonb_bench_reject(alloc: Global, text: &[u8], rounds: usize) -> usize
    ensures most { result ≤ rounds }
    // No round rejects a document. One where memory runs out isn't counted.
    ensures document { (t : Tree) → IsDocument standard text.now t → result ≡ 0 }
{
    for round in 0..rounds {
        let Err(error) = parse_value_standard_mode(alloc, text) else {
            return round;
        };
        if matches!(error, Error::OutOfMemory) {
            return round;
        }
    }
    rounds
}

/// Reads the text as extended JSON `rounds` times, and drops each value. The answer is how many rounds went well before
/// the first that did not, and so it is `rounds` where all did.
#[unsafe(no_mangle)]
pub extern "C" fn jsonb_bench_read_extended(alloc: Global, text: &[u8], rounds: usize) -> usize
    ensures counts { CountsRounds extended text.now rounds result }
{
    for round in 0..rounds {
        if parse_value(alloc, text).is_err() {
            return round;
        }
    }
    rounds
}

/// Reads the text as standard JSON into a [`JsonAst`] `rounds` times, and drops each, with no value made of it. The
/// answer is how many rounds went well before the first that did not, and so it is `rounds` where all did.
#[unsafe(no_mangle)]
pub extern "C" fn jsonb_bench_read_ast(alloc: Global, text: &[u8], rounds: usize) -> usize
    ensures counts { CountsRounds standard text.now rounds result }
{
    for round in 0..rounds {
        if JsonAst::parse(alloc, text, Mode::Standard).is_err() {
            return round;
        }
    }
    rounds
}

/// Parses the text as standard JSON and appends its serialized form `rounds` times to one buffer that is emptied
/// before, with no value and no tree. The answer is how many rounds went well before the first that did not.
#[unsafe(no_mangle)]
pub extern "C" fn jsonb_bench_straight_text(alloc: Global, text: &[u8], rounds: usize) -> usize
    ensures counts { CountsRounds standard text.now rounds result }
{
    let mut written = Vec::new(alloc);
    for round in 0..rounds {
        written.clear();
        if append_text(alloc, text, Grammar::Standard, &mut written).is_err() {
            return round;
        }
    }
    rounds
}

/// Parses the text as standard JSON and appends its sort key `rounds` times to one buffer that is emptied before, with
/// no value and no tree. The answer is how many rounds went well before the first that did not.
#[unsafe(no_mangle)]
pub extern "C" fn jsonb_bench_straight_key(alloc: Global, text: &[u8], rounds: usize) -> usize
    ensures counts { CountsRounds standard text.now rounds result }
{
    let mut key = Vec::new(alloc);
    for round in 0..rounds {
        key.clear();
        if append_sort_key(alloc, text, Grammar::Standard, &mut key).is_err() {
            return round;
        }
    }
    rounds
}

/// Checks the text as standard JSON `rounds` times, and makes nothing of it. The answer is how many rounds went well
/// before the first that did not.
#[unsafe(no_mangle)]
pub extern "C" fn jsonb_bench_check(alloc: Global, text: &[u8], rounds: usize) -> usize
    ensures counts { CountsRounds standard text.now rounds result }
{
    for round in 0..rounds {
        if check(alloc, text, Grammar::Standard).is_err() {
            return round;
        }
    }
    rounds
}

/// Parses the text as standard JSON and appends the text of its part at the path (RFC 6901) `rounds` times to one
/// buffer that is emptied before, with no value and no tree. The answer is how many rounds found it before the first
/// that did not.
#[unsafe(no_mangle)]
pub extern "C" fn jsonb_bench_part(alloc: Global, path: &[u8], text: &[u8], rounds: usize) -> usize
    ensures counts { CountsRounds standard text.now rounds result }
{
    let mut written = Vec::new(alloc);
    for round in 0..rounds {
        written.clear();
        let Ok(Some(keys)) = read_keys(alloc, path) else {
            return round;
        };
        if !matches!(
            append_part(alloc, text, Grammar::Standard, &keys, &mut written),
            Ok(true)
        ) {
            return round;
        }
    }
    rounds
}

/// Parses the text as extended JSON and appends its serialized form `rounds` times to one buffer that is emptied
/// before, with no value and no tree. The answer is how many rounds went well before the first that did not.
#[unsafe(no_mangle)]
pub extern "C" fn jsonb_bench_straight_extended(alloc: Global, text: &[u8], rounds: usize) -> usize
    ensures counts { CountsRounds extended text.now rounds result }
{
    let mut written = Vec::new(alloc);
    for round in 0..rounds {
        written.clear();
        if append_text(alloc, text, Grammar::Extended, &mut written).is_err() {
            return round;
        }
    }
    rounds
}

/// Reads the text once, and writes the value's text `rounds` times into one buffer. The answer is how many
/// rounds went well before the first that did not, and 0 where the text is rejected.
#[unsafe(no_mangle)]
pub extern "C" fn jsonb_bench_write(alloc: Global, text: &[u8], rounds: usize) -> usize
    ensures counts { CountsRounds standard text.now rounds result }
{
    let Ok(value) = parse_value_standard_mode(alloc, text) else {
        return 0;
    };
    let mut written = Vec::new(alloc);
    for round in 0..rounds {
        written.clear();
        if value.write_text(&mut written).is_err() {
            return round;
        }
    }
    rounds
}

/// Reads the text once, and writes the value's sort key `rounds` times into one buffer. The answer is how many rounds
/// went well before the first that did not, and 0 where the text is rejected.
#[unsafe(no_mangle)]
pub extern "C" fn jsonb_bench_sort_key(alloc: Global, text: &[u8], rounds: usize) -> usize
    ensures counts { CountsRounds standard text.now rounds result }
{
    let Ok(value) = parse_value_standard_mode(alloc, text) else {
        return 0;
    };
    let mut key = Vec::new(alloc);
    for round in 0..rounds {
        key.clear();
        if value.write_sort_key(&mut key).is_err() {
            return round;
        }
    }
    rounds
}

/// Reads the text twice, and compares the two values with `==` `rounds` times. The answer is how many rounds
/// found them equal before the first that did not, and 0 where the text is rejected.
#[unsafe(no_mangle)]
pub extern "C" fn jsonb_bench_compare(alloc: Global, text: &[u8], rounds: usize) -> usize
    ensures counts { CountsRounds standard text.now rounds result }
{
    let Ok(left) = parse_value_standard_mode(alloc, text) else {
        return 0;
    };
    let Ok(right) = parse_value_standard_mode(alloc, text) else {
        return 0;
    };
    for round in 0..rounds {
        if left != right {
            return round;
        }
    }
    rounds
}

/// Reads the text once, and clones the value `rounds` times, dropping each clone. The answer is how many rounds
/// went well before the first that did not, and 0 where the text is rejected.
#[unsafe(no_mangle)]
pub extern "C" fn jsonb_bench_clone(alloc: Global, text: &[u8], rounds: usize) -> usize
    ensures counts { CountsRounds standard text.now rounds result }
{
    let Ok(original) = parse_value_standard_mode(alloc, text) else {
        return 0;
    };
    for round in 0..rounds {
        if original.clone().is_err() {
            return round;
        }
    }
    rounds
}
