//! The path of keys, appended to a buffer.

ghost use Rattle.std.specs.Prelude.{◌≡◌, ◌++◌, ◌∷◌, [], map, string_bytes, OnOk};
ghost use Rattle.jsonb_spec.specs.Path.{encoded_byte, encoded_key, encoded_keys};

use std::alloc::AllocError;

/// Appends the path (RFC 6901) of these keys.
///
/// # Errors
///
/// Where `path` could not grow.
pub fn append_path(keys: &[String], path: &mut Vec<u8>) -> Result<(), AllocError>
    ensures { OnOk result (path.new.items ≡ path.old.items ++ encoded_keys (map string_bytes keys.now)) }
{
    'keys: for key in keys {
        append_step(key.as_bytes(), path)?;
    }
    Ok(())
}

/// Appends the step of a path (RFC 6901) for this key.
///
/// # Errors
///
/// Where `path` could not grow.
pub fn append_step(key: &[u8], path: &mut Vec<u8>) -> Result<(), AllocError>
    ensures { OnOk result (path.new.items ≡ path.old.items ++ encoded_keys (key.now ∷ [])) }
{
    path.push(b'/')?;
    append_key(key, path)
}

// Appends a key as it is encoded in a path.
fn append_key(key: &[u8], path: &mut Vec<u8>) -> Result<(), AllocError>
    ensures { OnOk result (path.new.items ≡ path.old.items ++ encoded_key key.now) }
{
    'bytes: for byte in key {
        append_byte(*byte, path)?;
    }
    Ok(())
}

// Appends a byte of a key as it is encoded in a path.
#[inline(always)]
fn append_byte(byte: u8, path: &mut Vec<u8>) -> Result<(), AllocError>
    ensures { OnOk result (path.new.items ≡ path.old.items ++ encoded_byte byte) }
{
    if byte == b'~' {
        path.extend_from_slice(b"~0")?;
        return Ok(());
    }
    if byte == b'/' {
        path.extend_from_slice(b"~1")?;
        return Ok(());
    }
    path.push(byte)?;
    Ok(())
}
