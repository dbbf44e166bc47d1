//! A text in the colours that jq has on a terminal.

ghost use Rattle.std.specs.Prelude.{◌≡◌, ◌++◌, ◌∷◌, ℕ, List, drop, IfOk, OnOk, true};
ghost use Rattle.jsonb_spec.specs.Program.Colours.{AreShown, IsShownAs, colour_of, end_of, is_mark, piece_len, shown_piece, string_len};

use std::alloc::AllocError;

// The escape sequences of a terminal that begin a colour, and the one that ends each.
const OF_KEYS: &[u8] = b"\x1b[34;1m";

const OF_STRINGS: &[u8] = b"\x1b[0;32m";

const OF_NULL: &[u8] = b"\x1b[1;30m";

const OF_MARKS: &[u8] = b"\x1b[1;39m";

const END: &[u8] = b"\x1b[0m";

// How many bytes a string has with which the bytes begin: all where it has no end.
fn string_len(bytes: &[u8]) -> usize
    ensures { result ≡ string_len true bytes.now }
{
    let mut passed = true;
    'bytes: for (i, byte) in bytes.iter().enumerate() {
        if passed {
            passed = false;
        } else if *byte == b'"' {
            return i + 1;
        } else {
            passed = *byte == b'\\';
        }
    }
    bytes.len()
}

// How many bytes the piece has with which the bytes begin: a string, null, or else one byte.
fn piece_len(bytes: &[u8]) -> usize
    ensures { result ≡ piece_len bytes.now }
{
    let Some((first, more)) = bytes.split_first() else {
        return 0;
    };
    if *first == b'"' {
        return string_len(bytes);
    }
    if *first == b'n' && more.len() > 2 {
        return 4;
    }
    1
}

// Whether arrays and objects are written with the byte.
fn is_mark(byte: u8) -> bool
    ensures { result ≡ is_mark byte }
{
    matches!(byte, b'[' | b']' | b'{' | b'}' | b',' | b':')
}

// The colour of a piece by its first byte, and by what is behind it: a string before a colon is a key.
fn colour_of(first: u8, behind: &[u8]) -> &'static [u8]
    ensures { result.now ≡ colour_of first behind.now }
{
    if first == b'"' {
        if behind.first() == Some(&b':') {
            return OF_KEYS;
        }
        return OF_STRINGS;
    }
    if first == b'n' {
        return OF_NULL;
    }
    if is_mark(first) {
        return OF_MARKS;
    }
    &[]
}

// What ends a colour.
fn end_of(colour: &[u8]) -> &'static [u8]
    ensures { result.now ≡ end_of colour.now }
{
    match colour {
        [] => &[],
        _ => END,
    }
}

// Appends the first piece of the bytes in its colour. What is behind it is returned.
fn append_piece<'b>(first: u8, bytes: &'b [u8], out: &mut Vec<u8>) -> Result<&'b [u8], AllocError>
    requires { (cs : List ℕ) × (bytes.now ≡ first ∷ cs) }
    ensures behind { IfOk result (λ behind. behind.now ≡ drop (piece_len bytes.now) bytes.now) }
    ensures shown { OnOk result (out.new.items ≡ out.old.items ++ shown_piece first bytes.now) }
{
    let (piece, behind) = bytes.split_at(piece_len(bytes));
    let colour = colour_of(first, behind);
    out.extend_from_slice(colour)?;
    out.extend_from_slice(piece)?;
    out.extend_from_slice(end_of(colour))?;
    Ok(behind)
}

// Appends the bytes piece by piece, each in its colour.
fn append_coloured(bytes: &[u8], out: &mut Vec<u8>) -> Result<(), AllocError>
    ensures ok { OnOk result ((shown : List ℕ) × AreShown bytes.now shown × (out.new.items ≡ out.old.items ++ shown)) }
{
    let mut rest = bytes;
    'pieces: while let Some((first, _)) = rest.split_first() {
        rest = append_piece(*first, rest, out)?;
    }
    Ok(())
}

/// Appends the bytes as a terminal has them: in colours, or else as they are.
pub fn show(colours: bool, bytes: &[u8], out: &mut Vec<u8>) -> Result<(), AllocError>
    ensures ok { OnOk result ((shown : List ℕ) × IsShownAs colours bytes.now shown
        × (out.new.items ≡ out.old.items ++ shown)) }
{
    if colours {
        append_coloured(bytes, out)
    } else {
        out.extend_from_slice(bytes)
    }
}
