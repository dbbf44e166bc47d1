//! Cells of a row.

ghost use Rattle.std.specs.Prelude.{◌≡◌, ◌++◌, OnOk};
ghost use Rattle.std.specs.List.{flat_map};
ghost use Rattle.jsonb_spec.specs.Program.Printed.{cell_byte, cell_letter};

use std::alloc::AllocError;

// The letter by which a cell has what ends cells and lines, and a backslash.
fn cell_letter(byte: u8) -> Option<u8>
    ensures { result ≡ cell_letter byte }
{
    match byte {
        b'\t' => Some(b't'),
        b'\n' => Some(b'n'),
        b'\r' => Some(b'r'),
        b'\\' => Some(b'\\'),
        _ => None,
    }
}

// Appends a byte of a cell.
fn append_cell_byte(byte: u8, row: &mut Vec<u8>) -> Result<(), AllocError>
    ensures ok { OnOk result (row.new.items ≡ row.old.items ++ cell_byte byte) }
{
    let Some(letter) = cell_letter(byte) else {
        row.push(byte)?;
        return Ok(());
    };
    row.extend_from_slice(&[b'\\', letter])
}

/// Appends bytes as a cell of a row: what ends cells and lines, and a backslash, as a letter behind a backslash.
///
/// # Errors
///
/// Where `row` could not grow.
pub fn append_cell(bytes: &[u8], row: &mut Vec<u8>) -> Result<(), AllocError>
    ensures ok { OnOk result (row.new.items ≡ row.old.items ++ flat_map cell_byte bytes.now) }
{
    'bytes: for byte in bytes {
        append_cell_byte(*byte, row)?;
    }
    Ok(())
}
