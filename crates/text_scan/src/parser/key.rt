//! Keys, in quotes and without.
ghost use Rattle.std.specs.Prelude.{◌≡◌, ◌<◌, ◌≤◌, ◌+◌};
ghost use Rattle.text_scan.specs.QuotedString.{EndsKey};
ghost use Rattle.jsonb_spec.specs.Parsing.BareKey.{key_step};

/// Where the search for the end of a key stops.
#[derive(Clone, Copy)]
pub enum KeyEnd {
    // At a byte that begins no character of a key.
    At(usize),
    // There is none. The index may pass the end of the bytes.
    Past(usize),
}

// How many bytes a character of a key takes whose first byte is this, or 0 where no key has one.
fn character_len(byte: u8) -> usize
    ensures value { result ≡ key_step byte }
    ensures bound { result ≤ 4 }
{
    match byte {
        b'a'..=b'z' | b'A'..=b'Z' | b'0'..=b'9' | b'_' | b'$' => 1,
        0xC0..=0xDF => 2,
        0xE0..=0xEF => 3,
        0xF0..=0xFF => 4,
        _ => 0,
    }
}

/// Looks for the end of a key. A character is stepped over by its first byte, without a look at the others.
pub fn find_key_end(bytes: &[u8]) -> KeyEnd
    ensures { EndsKey bytes.now result }
{
    let mut at = 0;
    'characters: while at < bytes.len() {
        let len = character_len(bytes[at]);
        if len == 0 {
            return KeyEnd::At(at);
        }
        at += len;
    }
    KeyEnd::Past(at)
}
