//! Characters of a text, counted in its bytes.

ghost use Rattle.std.specs.Prelude.{◌≡◌, ◌≤◌, length};
ghost use Rattle.std.specs.List.{count_by};
ghost use Rattle.jsonb_spec.specs.Characters.{begins_character, character_at};

/// Which character of the text the byte at `index` is of, counted from 1 at the byte at `first`: with the first byte of
/// a line the column in characters. In UTF-8 each byte but 0x80 to 0xBF begins one. An index past the end counts as the
/// end of the text, where one begins. It is 1 where `index` isn't behind `first`.
///
/// The time is linear in the bytes between the two, and nothing is allocated.
pub fn character_at(text: &[u8], first: usize, index: usize) -> usize
    ensures { result ≡ character_at text.now first index }
{
    if first >= index || first >= text.len() {
        return 1;
    }
    let behind = &text[first + 1..];
    if index < text.len() {
        return characters(&behind[..index - first]) + 1;
    }
    characters(behind) + 2
}

// How many bytes begin a character.
fn characters(bytes: &[u8]) -> usize
    ensures count { result ≡ count_by begins_character bytes.now }
    ensures within { result ≤ length bytes.now }
{
    let mut count: usize = 0;
    let mut rest = bytes;
    'bytes: while let Some((byte, others)) = rest.split_first() {
        if begins_character(*byte) {
            count += 1;
        }
        rest = others;
    }
    count
}

fn begins_character(byte: u8) -> bool
    ensures { result ≡ begins_character byte }
{
    !(byte > 0x7F && byte < 0xC0)
}
