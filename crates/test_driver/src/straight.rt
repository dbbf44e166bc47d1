//! Serialized forms and sort keys that are appended straight from a text, beside those of its value, and texts that are
//! only checked.

use jsonb::{Error, Grammar};
use std::alloc::{AllocError, Global};

// What the buffers hold before.
const FRONT: &[u8] = b"front";

/// Whether this serialized form is appended. The text is also checked alone.
pub fn gives_text(alloc: Global, mode: Grammar, text: &[u8], form: &[u8]) -> jsonb::Result<bool> {
    jsonb::check(alloc, text, mode)?;
    let mut buffer = Vec::from_slice(alloc, FRONT)?;
    jsonb::append_text(alloc, text, mode, &mut buffer)?;
    Ok(buffer.strip_prefix(FRONT) == Some(form))
}

/// Whether this sort key is appended.
pub fn gives_key(alloc: Global, mode: Grammar, text: &[u8], key: &[u8]) -> jsonb::Result<bool> {
    let mut buffer = Vec::from_slice(alloc, FRONT)?;
    jsonb::append_sort_key(alloc, text, mode, &mut buffer)?;
    Ok(buffer.strip_prefix(FRONT) == Some(key))
}

/// The sort key that is appended to nothing.
pub fn key(alloc: Global, mode: Grammar, text: &[u8]) -> jsonb::Result<Vec<u8>> {
    let mut key = Vec::new(alloc);
    jsonb::append_sort_key(alloc, text, mode, &mut key)?;
    Ok(key)
}

/// Whether all three functions fail with this error, and leave the buffer as it was.
pub fn rejects(
    alloc: Global,
    mode: Grammar,
    text: &[u8],
    error: &Error,
) -> Result<bool, AllocError> {
    let error = error.clone()?;
    let mut buffer = Vec::from_slice(alloc, FRONT)?;
    let are_errors = is_error(jsonb::append_text(alloc, text, mode, &mut buffer), &error)
        && is_error(
            jsonb::append_sort_key(alloc, text, mode, &mut buffer),
            &error,
        )
        && is_error(jsonb::check(alloc, text, mode), &error);
    Ok(are_errors && &buffer[..] == FRONT)
}

fn is_error(answer: jsonb::Result<()>, error: &Error) -> bool {
    match answer {
        Ok(()) => false,
        Err(e) => e == *error,
    }
}
