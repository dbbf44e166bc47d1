//! The bytes of a string in a serialized form.

ghost use Rattle.std.specs.Prelude.{◌≡◌, ◌<◌, ◌≤◌, length, option_map, IfSome};
ghost use Rattle.key_document.specs.FromText.{control_of, escape_of, escaped_byte, hexadecimal_value, is_name, item_of};

/// The next byte of a string, and the bytes behind it.
pub(crate) fn read_item(bytes: &[u8]) -> Option<(u8, &[u8])>
    ensures exact { option_map (λ r. (r.0, r.1.now)) result ≡ item_of bytes.now }
    ensures shorter { IfSome result (λ r. length r.1.now < length bytes.now) }
{
    let Some((first, behind)) = bytes.split_first() else {
        return None;
    };
    if *first == b'\\' {
        return read_escape(behind);
    }
    Some((*first, behind))
}

// The byte that a backslash and these bytes mean, and the bytes behind that.
fn read_escape(bytes: &[u8]) -> Option<(u8, &[u8])>
    ensures exact { option_map (λ r. (r.0, r.1.now)) result ≡ escape_of bytes.now }
    ensures within { IfSome result (λ r. length r.1.now ≤ length bytes.now) }
{
    let Some((letter, behind)) = bytes.split_first() else {
        return None;
    };
    if *letter == b'u' {
        return read_control(behind);
    }
    Some((escaped_byte(*letter), behind))
}

// The byte that four hexadecimal digits mean, and the bytes behind them.
fn read_control(bytes: &[u8]) -> Option<(u8, &[u8])>
    ensures exact { option_map (λ r. (r.0, r.1.now)) result ≡ control_of bytes.now }
    ensures within { IfSome result (λ r. length r.1.now ≤ length bytes.now) }
{
    match bytes {
        [_, _, high, low, rest @ ..] => Some((16 * (*high % 2) + hexadecimal_value(*low), rest)),
        _ => None,
    }
}

// The byte that the letter behind a backslash means.
fn escaped_byte(letter: u8) -> u8
    ensures { result ≡ escaped_byte letter }
{
    match letter {
        b'n' => b'\n',
        b'r' => b'\r',
        b't' => b'\t',
        _ => letter,
    }
}

// What a hexadecimal digit in small letters means.
fn hexadecimal_value(digit: u8) -> u8
    ensures exact { result ≡ hexadecimal_value digit }
    ensures small { result < 32 }
{
    if digit < b':' {
        digit % 16
    } else {
        digit % 16 + 9
    }
}

/// Whether a colon comes first: what is before it is a name.
#[inline(always)]
pub(crate) fn is_name(bytes: &[u8]) -> bool
    ensures { result ≡ is_name bytes.now }
{
    match bytes.split_first() {
        Some((first, _)) => *first == b':',
        None => false,
    }
}
