//! What is due of a document's zeros while its key is walked.

ghost use Rattle.std.specs.Prelude.{◌≡◌, ◌<◌, ◌^◌, ◌++◌, ◌∷◌, ◌↔◌, ℕ, suc, List, length, replicate, IfOk, MatchResult};
ghost use Rattle.jsonb_spec.specs.Proper.{IsProperNumber};
ghost use Rattle.jsonb_spec.specs.Text.NumberText.{number_text};
ghost use Rattle.jsonb_spec.specs.Tree.{Num};
ghost use Rattle.key_document.specs.Check.{Fits, IsCounted, ZerosFit};
ghost use Rattle.key_document.specs.DueZeros.{AreDue};
ghost use Rattle.jsonb_spec.specs.Document.Counts.{count_of};
ghost use Rattle.key_text.specs.Counts.{Completes};
ghost use Rattle.jsonb_spec.specs.SortKey.FewestDigits.{fewest_digits};
ghost use Rattle.jsonb_spec.specs.SortKey.Text.{Preserves};
ghost use Rattle.jsonb_spec.specs.Document.Zeros.{zeros_of};

use key_text::Zeros;
use key_value::KeyError;
use key_zeros::append_ending;
use key_zeros::entry::next_entry;

/// What is known of the next number with zeros while a key is walked.
#[derive(Clone, Copy)]
pub(crate) struct ZerosDue<'z> {
    /// How many bytes of the key are left where the number's first byte is; 0 where no zeros are left.
    pub(crate) at: usize,
    /// How many zeros it has.
    pub(crate) count: u8,
    /// The entries behind it.
    pub(crate) entries: &'z [u8],
}

/// What is known of the first number with zeros, where so many bytes of the key are left.
pub(crate) fn zeros_due(left: usize, zeros: &[u8]) -> Result<ZerosDue<'_>, KeyError>
    ensures due { left < 2 ^ 63 → (counts : List ℕ) → length counts ≡ left → zeros.now ≡ zeros_of 0 counts
        → MatchResult result (λ due. AreDue due counts) (λ e. ⊥) }
    ensures fits { left < 2 ^ 63 → (most : List ℕ) → length most ≡ left
        → MatchResult result (λ due. Fits due most ↔ ZerosFit most zeros.now) (λ e. ZerosFit most zeros.now → ⊥) }
    ensures counted { IfOk result IsCounted }
{
    if zeros.is_empty() {
        return Ok(ZerosDue {
            at: 0,
            count: 0,
            entries: zeros,
        });
    }
    let Some((before, count, entries)) = next_entry(zeros) else {
        return Err(KeyError::Invalid);
    };
    if before >= left {
        return Err(KeyError::Invalid);
    }
    Ok(ZerosDue {
        at: left - before,
        count,
        entries,
    })
}

impl<'z> ZerosDue<'z> {
    // Appends the zeros that are due behind a number whose text begins at this index of the buffer.
    #[inline(never)]
    fn append_due(&mut self, start: usize, buf: &mut Vec<u8>) -> Result<(), KeyError>
        ensures completes { (n : Num) → IsProperNumber n → (front : List ℕ) → length front ≡ start
            → buf.old.items ≡ front ++ number_text (fewest_digits n) → (passed : ℕ) → (counts : List ℕ)
            → self.old.at ≡ suc (length counts) → AreDue self.old (replicate passed 0 ++ count_of n ∷ counts)
            → Completes (AreDue self.new) counts (front ++ number_text n) result buf.old buf.new }
        ensures preserves { Preserves buf.old buf.new }
    {
        if start > buf.len() {
            return Err(KeyError::Invalid);
        }
        let pointed = buf[start..].contains(&b'.');
        append_ending(pointed, self.count, buf)?;
        let next = zeros_due(self.at.saturating_sub(1), self.entries)?;
        *self = next;
        Ok(())
    }
}

impl<'z> Zeros for ZerosDue<'z> {
    ghost due = { AreDue };

    #[inline(always)]
    fn append_next(
        &mut self,
        left: usize,
        start: usize,
        buf: &mut Vec<u8>,
    ) -> Result<(), KeyError> {
        if left != self.at {
            return Ok(());
        }
        self.append_due(start, buf)
    }
}
