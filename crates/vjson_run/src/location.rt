//! The line of a text that an error is shown in.

use memchr::{memchr, memrchr};
use std::alloc::{AllocError, Global};

// How many bytes are shown before and after the location.
const AROUND: usize = 60;

/// The line around an offset, without its line feed, and the offset in it.
pub fn line_around(text: &[u8], offset: usize) -> (&[u8], usize) {
    let (before, behind) = text.split_at(offset.min(text.len()));
    let start = match memrchr(b'\n', before) {
        Some(index) => index.saturating_add(1),
        None => 0,
    };
    let len = memchr(b'\n', behind).unwrap_or(behind.len());
    let from = before.len().saturating_sub(AROUND).max(start);
    let shown = text
        .get(from..before.len().saturating_add(len.min(AROUND)))
        .unwrap_or(&[]);
    (shown, before.len().saturating_sub(from))
}

/// Appends bytes for a terminal: control characters and what is no UTF-8 become question marks.
pub fn append_shown(bytes: &[u8], out: &mut String) -> Result<(), AllocError> {
    let mut rest = bytes;
    'parts: for _ in 0..bytes.len() {
        let (good, behind) = match str::from_utf8(rest) {
            Ok(_) => (rest, &rest[rest.len()..]),
            Err(error) => rest.split_at(error.valid_up_to().min(rest.len())),
        };
        if let Ok(text) = str::from_utf8(good) {
            'characters: for character in text.chars() {
                if character == '\t' || !character.is_control() {
                    out.push(character)?;
                } else {
                    out.push('?')?;
                }
            }
        }
        match behind.split_first() {
            None => return Ok(()),
            Some((_, more)) => {
                out.push('?')?;
                rest = more;
            }
        }
        if rest.is_empty() {
            return Ok(());
        }
    }
    Ok(())
}

/// The line as it is shown, and under it a caret at the offset.
pub fn shown_line(alloc: Global, text: &[u8], offset: usize) -> Result<String, AllocError> {
    let (line, location) = line_around(text, offset);
    let (before, behind) = line.split_at(location.min(line.len()));
    let mut shown = String::from_str(alloc, "  ")?;
    append_shown(before, &mut shown)?;
    let mut margin = String::new(alloc);
    'margin: for character in shown.chars() {
        margin.push(if character == '\t' { '\t' } else { ' ' })?;
    }
    append_shown(behind, &mut shown)?;
    shown.push('\n')?;
    shown.push_str(margin.as_str())?;
    shown.push('^')?;
    Ok(shown)
}
