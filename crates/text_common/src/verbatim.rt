//! Scalars that are put in from where they are in a text.
ghost use Rattle.std.specs.Prelude.{◌≡◌, ◌∷◌, [], ℕ, Some, MatchBool};
ghost use Rattle.jsonb_spec.specs.Ascii as ascii;
ghost use Rattle.jsonb_spec.specs.Grammar.StringBody.{standard_escape};
ghost use Rattle.jsonb_spec.specs.Text.StringText.{byte_text};

/// What is in the text.
#[derive(Clone, Copy)]
pub enum Verbatim {
    /// An integer of a standard text, which is serialized as it is.
    Integer,
    /// A decimal of an extended text, which is serialized as it is.
    Decimal,
    /// A string of JSON that is serialized as it is.
    Same,
    /// Any string of JSON.
    Escaped,
}

// What each letter means behind a backslash, and 0 where it means nothing.
static MEANINGS: [u8; 256] = [
    0, 0, 0, 0, 0, 0, 0, 0, 0, 0, 0, 0, 0, 0, 0, 0, 0, 0, 0, 0, 0, 0, 0, 0, 0, 0, 0, 0, 0, 0, 0, 0,
    0, 0, 34, 0, 0, 0, 0, 0, 0, 0, 0, 0, 0, 0, 0, 47, 0, 0, 0, 0, 0, 0, 0, 0, 0, 0, 0, 0, 0, 0, 0,
    0, 0, 0, 0, 0, 0, 0, 0, 0, 0, 0, 0, 0, 0, 0, 0, 0, 0, 0, 0, 0, 0, 0, 0, 0, 0, 0, 0, 0, 92, 0,
    0, 0, 0, 0, 8, 0, 0, 0, 12, 0, 0, 0, 0, 0, 0, 0, 10, 0, 0, 0, 13, 0, 9, 0, 0, 0, 0, 0, 0, 0, 0,
    0, 0, 0, 0, 0, 0, 0, 0, 0, 0, 0, 0, 0, 0, 0, 0, 0, 0, 0, 0, 0, 0, 0, 0, 0, 0, 0, 0, 0, 0, 0, 0,
    0, 0, 0, 0, 0, 0, 0, 0, 0, 0, 0, 0, 0, 0, 0, 0, 0, 0, 0, 0, 0, 0, 0, 0, 0, 0, 0, 0, 0, 0, 0, 0,
    0, 0, 0, 0, 0, 0, 0, 0, 0, 0, 0, 0, 0, 0, 0, 0, 0, 0, 0, 0, 0, 0, 0, 0, 0, 0, 0, 0, 0, 0, 0, 0,
    0, 0, 0, 0, 0, 0, 0, 0, 0, 0, 0, 0, 0, 0, 0, 0, 0, 0, 0, 0, 0, 0, 0, 0, 0, 0, 0, 0, 0, 0, 0, 0,
    0, 0, 0,
];

/// The byte that a backslash and this letter mean in both modes.
#[inline(always)]
pub fn short_byte(letter: u8) -> Option<u8>
    ensures { result ≡ standard_escape letter }
{
    let byte = MEANINGS[usize::from(letter)];
    if byte == 0 {
        return None;
    }
    Some(byte)
}

/// Whether an escape of this letter is serialized as it is.
#[inline(always)]
pub fn is_verbatim_letter(letter: u8) -> bool
    ensures { MatchBool result ((byte : ℕ) × (standard_escape letter ≡ Some byte)
        × (byte_text byte ≡ ascii.backslash ∷ letter ∷ [])) (Unit {0}) }
{
    matches!(letter, b'"' | b'\\' | b'n' | b'r' | b't')
}
