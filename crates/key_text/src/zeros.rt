//! The zeros that end decimals, which a key doesn't have.

ghost use Rattle.std.specs.Prelude.{◌≡◌, ◌++◌, ◌∷◌, ℕ, suc, List, length, replicate};
ghost use Rattle.jsonb_spec.specs.Proper.{IsProperNumber};
ghost use Rattle.jsonb_spec.specs.Text.NumberText.{number_text};
ghost use Rattle.jsonb_spec.specs.Tree.{Num};
ghost use Rattle.jsonb_spec.specs.Document.Counts.{count_of, AreZeros};
ghost use Rattle.key_text.specs.Counts.{Completes};
ghost use Rattle.jsonb_spec.specs.SortKey.FewestDigits.{fewest_digits};
ghost use Rattle.jsonb_spec.specs.SortKey.Text.{Preserves};

use key_value::KeyError;

/// The zeros that end the numbers of a value, from those of its first number on.
pub trait Zeros: Sized {
    /// These are the counts of the bytes of a key that are left: how many zeros end the number whose key begins there,
    /// and 0 where none does.
    ghost due: { Self → List ℕ → Type 0 };

    /// Appends the zeros of the next number, behind a point. The buffer ends with its text with the fewest digits, which
    /// begins at the index `start`. Where its key begins, so many bytes of the whole key are left.
    ///
    /// # Errors
    ///
    /// `OutOfMemory` where the buffer could not grow, and `Invalid` only where the zeros are of no such key.
    fn append_next(&mut self, left: usize, start: usize, buf: &mut Vec<u8>) -> Result<(), KeyError>
        ensures completes { (n : Num) → IsProperNumber n → (front : List ℕ) → length front ≡ start
            → buf.old.items ≡ front ++ number_text (fewest_digits n) → (passed : ℕ) → (counts : List ℕ)
            → left ≡ suc (length counts) → due self.old (replicate passed 0 ++ count_of n ∷ counts)
            → Completes (due self.new) counts (front ++ number_text n) result buf.old buf.new }
        ensures preserves { Preserves buf.old buf.new };
}

/// The zeros of a value whose numbers end in none.
#[derive(Clone, Copy, Drop)]
pub(crate) struct NoZeros;

impl Zeros for NoZeros {
    ghost due = { λ none counts. AreZeros counts };

    #[inline(always)]
    fn append_next(
        &mut self,
        left: usize,
        start: usize,
        buf: &mut Vec<u8>,
    ) -> Result<(), KeyError> {
        Ok(())
    }
}
