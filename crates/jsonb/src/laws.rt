//! Laws of the grammar. Each is the contract of a function that does nothing.

ghost use Rattle.std.specs.Option.{unwrap_or};
ghost use Rattle.std.specs.Prelude.{◌≡◌, ◌≢◌, ◌↔◌, ◌⊎◌, ◌++◌, ◌+◌, ◌*◌, ◌^◌, ℕ, List, [], None, length, unsigned_abs};
ghost use Rattle.std.specs.Str.Parse.{digits_value, starts_with_minus};
ghost use Rattle.jsonb_spec.specs.Code.{Code, number_not_carried};
ghost use Rattle.jsonb_spec.specs.Grammar.{Derives, IsDocument};
ghost use Rattle.jsonb_spec.specs.Grammar.ExactNumber.{IsExactDecimal};
ghost use Rattle.jsonb_spec.specs.Grammar.StringBody.{Decodes};
ghost use Rattle.jsonb_spec.specs.Grammar.StringFault.{IsFaultyBody};
ghost use Rattle.jsonb_spec.specs.Mode.{Mode, standard, extended, json, extended_json};
ghost use Rattle.jsonb_spec.specs.Accessors.{as_number};
ghost use Rattle.jsonb_spec.specs.Number.Signed.{signed_by};
ghost use Rattle.jsonb_spec.specs.Order.{Same};
ghost use Rattle.jsonb_spec.specs.Tree.{Num, Tree};
ghost use Rattle.jsonb_spec.specs.Parsing.{fault};
ghost use Rattle.jsonb_spec.specs.Parsing.Document.{document_of};
ghost use Rattle.jsonb_spec.specs.JsonText.{IsJsonText};

/// A text is a document of at most one tree. Where the text of a value is a proper prefix of that of another, both are
/// numbers.
pub fn grammar_is_unambiguous()
    ensures tree { (mode : Mode) → (bytes : List ℕ) → (t u : Tree) → IsDocument mode bytes t
        → IsDocument mode bytes u → t ≡ u }
    ensures numbers { (mode : Mode) → (m n : ℕ) → (bytes rest : List ℕ) → (t u : Tree) → Derives mode m bytes t
        → Derives mode n (bytes ++ rest) u → rest ≢ [] → (as_number t ≢ None) × (as_number u ≢ None) }
    ensures same { (mode : Mode) → (m n : ℕ) → (bytes : List ℕ) → (t u : Tree) → Derives mode m bytes t
        → Derives mode n bytes u → t ≡ u }
{}

/// The contents of a string decode to at most one text, and malformed contents to none.
pub fn decoding_is_unambiguous()
    ensures text { (mode : Mode) → (bytes s t : List ℕ) → Decodes mode bytes s → Decodes mode bytes t → s ≡ t }
    ensures fault { (mode : Mode) → (bytes : List ℕ) → (code : Code) → (read : ℕ) → (text : List ℕ)
        → IsFaultyBody mode bytes code read → Decodes mode bytes text → ⊥ }
{}

/// A document of JSON is one of extended JSON, of the same tree.
pub fn json_is_extended_json()
    ensures { (bytes : List ℕ) → (t : Tree) → IsDocument json bytes t → IsDocument extended_json bytes t }
{}

/// A document of extended mode is one of extended JSON, of the same tree.
pub fn extended_is_extended_json()
    ensures { (bytes : List ℕ) → (t : Tree) → IsDocument extended bytes t → IsDocument extended_json bytes t }
{}

/// The documents of JSON are the texts of RFC 8259's own productions, of the same trees.
pub fn json_texts_are_those_of_its_productions()
    ensures { (bytes : List ℕ) → (t : Tree) → IsDocument json bytes t ↔ IsJsonText bytes t }
{}

/// A document of JSON is one of standard mode too, of the same value, or the first fault that standard mode finds is a
/// number that it doesn't carry. Wherever a text is a document of both, its value is the same.
pub fn standard_takes_integers_of_json()
    ensures takes { (bytes : List ℕ) → (t : Tree) → IsDocument json bytes t
        → ((u : Tree) × IsDocument standard bytes u × Same t u)
        ⊎ ((offset : ℕ) × (document_of standard bytes ≡ fault number_not_carried offset)) }
    ensures same { (bytes : List ℕ) → (t u : Tree) → IsDocument json bytes t → IsDocument standard bytes u → Same t u }
{}

/// The number of a decimal with an exponent is exactly the one that is written: its sign and its digits, with the point
/// moved to the right or to the left. Nothing is rounded.
pub fn exponents_are_exact()
    ensures sign { (bytes : List ℕ) → (n : Num) → (d : IsExactDecimal bytes n)
        → n.whole ≡ signed_by (starts_with_minus d.sign) (unsigned_abs n.whole) }
    ensures value { (bytes : List ℕ) → (n : Num) → (d : IsExactDecimal bytes n)
        → unsigned_abs n.whole * 10 ^ (length (unwrap_or d.fraction []) + d.left)
        ≡ digits_value 10 (d.whole ++ unwrap_or d.fraction []) * 10 ^ (n.scale + d.right) }
{}
