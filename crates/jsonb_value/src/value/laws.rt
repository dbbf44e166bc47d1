//! Laws of the texts of values and of documents. Each is the contract of a function that does nothing.

ghost use Rattle.std.specs.Prelude.{◌≡◌, ◌≢◌, ◌↔◌, ℕ, List, Some, None};
ghost use Rattle.jsonb_spec.specs.Grammar.{IsDocument};
ghost use Rattle.jsonb_spec.specs.Mode.{Mode, standard, extended};
ghost use Rattle.jsonb_spec.specs.Order.{Same};
ghost use Rattle.jsonb_spec.specs.Proper.{IsProper};
ghost use Rattle.jsonb_spec.specs.Text.Range.{IsInRange, IsIntegerRange, IsInRangeOf};
ghost use Rattle.jsonb_spec.specs.Text.ReadsBack.{ReadsBackAs};
ghost use Rattle.jsonb_spec.specs.Text.{text_of};
ghost use Rattle.jsonb_spec.specs.Tree.{Tree};

/// A value in range has a text, and what is written of it reads back as the same value. Values in range with one text
/// are the same, and of values whose numbers are all integers the same ones have one text.
pub fn value_texts_read_back()
    ensures written { (mode : Mode) → (t : Tree) → IsInRangeOf mode t → text_of t ≢ None }
    ensures reads_back { (mode : Mode) → (t : Tree) → IsProper t → IsInRangeOf mode t → (bytes : List ℕ)
        → text_of t ≡ Some bytes → ReadsBackAs mode bytes t }
    ensures same { (t u : Tree) → IsProper t → IsProper u → IsInRange t → IsInRange u
        → text_of t ≡ text_of u → Same t u }
    ensures integers { (t u : Tree) → IsProper t → IsProper u → IsIntegerRange t → IsIntegerRange u
        → (text_of t ≡ text_of u) ↔ Same t u }
{}

/// What is read in a mode is in the mode's range, and each standard document is an extended one, of the same value.
pub fn documents_are_in_range()
    ensures range { (mode : Mode) → (bytes : List ℕ) → (t : Tree) → IsDocument mode bytes t
        → IsInRangeOf mode t × IsProper t }
    ensures extended { (bytes : List ℕ) → (t : Tree) → IsDocument standard bytes t
        → (u : Tree) × IsDocument extended bytes u × Same u t }
{}
