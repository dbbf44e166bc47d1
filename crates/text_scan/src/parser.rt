//! The parts of a text, as searches over bytes.

ghost use Rattle.std.specs.Prelude.{◌≡◌, ◌↔◌, IsTrue};
ghost use Rattle.jsonb_spec.specs.Mode.{strictness};
ghost use Rattle.text_scan.specs.Answer.{mode_of, grammar_of};

pub mod exact;
pub mod extended_number;
pub mod integer;
pub mod key;
pub mod number;
pub mod string;
pub mod vector;
pub mod verbatim;
pub mod whitespace;

/// The grammar of a text.
#[derive(Clone, Copy, Debug, PartialEq, Eq)]
pub enum Mode {
    /// JSON as RFC 8259 has it, with more whitespace and escapes, and 64-bit integers alone as numbers.
    Standard,
    /// Literals in either case, single quotes, unquoted keys, elided elements, texts of whitespace alone, decimals and
    /// hexadecimals, and comments.
    Extended,
}

/// A law: two modes are equal exactly where they are the same one, and `clone` never fails and returns the same mode.
pub fn modes_compare(left: &Mode, right: &Mode)
    ensures equal { IsTrue (⟦<Mode as PartialEq>⟧.eq left.now right.now) ↔ (mode_of left.now ≡ mode_of right.now) }
    ensures clone { (a b : Mode) → ⟦<Mode as Clone>⟧.is_infallible a × (⟦<Mode as Clone>⟧.is_clone a b → b ≡ a) }
{}

/// The grammar of a text, of four.
#[derive(Clone, Copy, Debug, Eq, PartialEq)]
pub enum Grammar {
    /// JSON as RFC 8259 has it, with more whitespace and escapes, and 64-bit integers alone as numbers.
    Standard,
    /// Standard, with what `Mode::Extended` has, and with decimals and hexadecimals.
    Extended,
    /// JSON to the letter of RFC 8259, with exact decimals.
    Json,
    /// Extended, with exponents.
    ExtendedJson,
}

impl Grammar {
    /// The mode that its words, quotes, keys and escapes are of.
    #[inline(always)]
    pub fn mode(self) -> Mode
        ensures { strictness (mode_of result) ≡ strictness (grammar_of self) }
    {
        match self {
            Grammar::Standard | Grammar::Json => Mode::Standard,
            Grammar::Extended | Grammar::ExtendedJson => Mode::Extended,
        }
    }
}

impl From<Mode> for Grammar {
    ghost use Rattle.std.specs.Prelude.{◌≡◌};
    ghost use Rattle.text_scan.specs.Answer.{mode_of, grammar_of};

    ghost from_gives = { λ mode grammar. grammar_of grammar ≡ mode_of mode };

    #[inline(always)]
    fn from(mode: Mode) -> Grammar {
        match mode {
            Mode::Standard => Grammar::Standard,
            Mode::Extended => Grammar::Extended,
        }
    }
}

/// A law: two grammars are equal exactly where they are the same one, and `clone` never fails and returns the same one.
pub fn grammars_compare(left: &Grammar, right: &Grammar)
    ensures equal { IsTrue (⟦<Grammar as PartialEq>⟧.eq left.now right.now)
        ↔ (grammar_of left.now ≡ grammar_of right.now) }
    ensures clone { (a b : Grammar) → ⟦<Grammar as Clone>⟧.is_infallible a
        × (⟦<Grammar as Clone>⟧.is_clone a b → b ≡ a) }
{}
