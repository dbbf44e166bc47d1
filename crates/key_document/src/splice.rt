//! The zeros of a key in which a part is put, or from which one is taken.

ghost use Rattle.std.specs.Prelude.{◌≡◌, ◌<◌, ◌^◌, ◌++◌, List, ℕ, IfOk, length, true};
ghost use Rattle.key_document.specs.Splices.{AppendsZeros, AreSpliced, CutsOnError, spliced_counts};
ghost use Rattle.jsonb_spec.specs.Document.{behind_key};
ghost use Rattle.jsonb_spec.specs.SortKey.Text.{Preserves};
ghost use Rattle.jsonb_spec.specs.Document.Numbers.{Pends};
ghost use Rattle.jsonb_spec.specs.Document.Zeros.{zeros_of};

use crate::document::end_zeros;
use crate::error::DocumentError;
use crate::zeros::{all_left, copy, more_plain, pass};

/// How many bytes of the new key are before the slot of a change, are the name and the part there, and are behind
/// it.
#[derive(Clone, Copy)]
pub(crate) struct Lengths {
    pub(crate) front: usize,
    pub(crate) name: usize,
    pub(crate) part: usize,
    pub(crate) behind: usize,
}

/// Appends what follows the new key, which begins at `start`, and returns true: its zeros, and their end. They are
/// those of the old key, which has so many bytes, before the slot and behind it, and between them those of the part.
/// After an error the new key is gone too.
#[inline(always)]
pub(crate) fn splice_tail(
    out: &mut Vec<u8>,
    start: usize,
    key_len: usize,
    zeros: &[u8],
    part_zeros: &[u8],
    lengths: &Lengths,
) -> Result<bool, DocumentError>
    ensures spliced { (front entry part behind : List ℕ)
        → AreSpliced key_len zeros.now part_zeros.now lengths.now front entry part behind
        → AppendsZeros result out.old out.new
        (behind_key (zeros_of 0 (spliced_counts front lengths.now.name part behind))) }
    ensures answer { IfOk result (λ answer. answer ≡ true) }
    ensures preserves { CutsOnError start result out.old out.new }
{
    if zeros.is_empty() && part_zeros.is_empty() {
        return Ok(true);
    }
    match splice_zeros(out, key_len, zeros, part_zeros, lengths) {
        Ok(()) => Ok(true),
        Err(error) => {
            out.truncate(start);
            Err(error)
        }
    }
}

// Appends the zeros, and their end.
#[inline(never)]
fn splice_zeros(
    out: &mut Vec<u8>,
    key_len: usize,
    zeros: &[u8],
    part_zeros: &[u8],
    lengths: &Lengths,
) -> Result<(), DocumentError>
    ensures spliced { (front entry part behind : List ℕ)
        → AreSpliced key_len zeros.now part_zeros.now lengths.now front entry part behind
        → AppendsZeros result out.old out.new
        (behind_key (zeros_of 0 (spliced_counts front lengths.now.name part behind))) }
    ensures preserves { Preserves out.old out.new }
{
    let start = out.len();
    join_zeros(out, key_len, zeros, part_zeros, lengths)?;
    end_zeros(start, out)?;
    Ok(())
}

// Appends the zeros alone.
fn join_zeros(
    out: &mut Vec<u8>,
    key_len: usize,
    zeros: &[u8],
    part_zeros: &[u8],
    lengths: &Lengths,
) -> Result<(), DocumentError>
    ensures joined { (front entry part behind : List ℕ)
        → AreSpliced key_len zeros.now part_zeros.now lengths.now front entry part behind
        → AppendsZeros result out.old out.new (zeros_of 0 (spliced_counts front lengths.now.name part behind)) }
    ensures preserves { Preserves out.old out.new }
{
    let all = all_left(zeros)?;
    let part_all = all_left(part_zeros)?;
    let entry = key_len
        .saturating_sub(lengths.front)
        .saturating_sub(lengths.behind);
    let (plain, left) = copy(0, all, lengths.front, out)?;
    let rest = pass(left, entry)?;
    let named = more_plain(plain, lengths.name)?;
    let (more, _) = copy(named, part_all, lengths.part, out)?;
    copy(more, rest, lengths.behind, out)?;
    Ok(())
}

/// Appends what follows the key of a part, which is at this offset in that of the value, and has this size: of the
/// zeros those of the part, and their end.
pub(crate) fn cut_zeros(
    out: &mut Vec<u8>,
    zeros: &[u8],
    offset: usize,
    size: usize,
) -> Result<(), DocumentError>
    ensures cut { (before part behind : List ℕ) → zeros.now ≡ zeros_of 0 (before ++ (part ++ behind))
        → length before ≡ offset → length part ≡ size → length (before ++ (part ++ behind)) < 2 ^ 63
        → AppendsZeros result out.old out.new (behind_key (zeros_of 0 part)) }
    ensures preserves { Preserves out.old out.new }
{
    let all = all_left(zeros)?;
    match take_zeros(out, all, offset, size) {
        Ok(_) => Ok(()),
        Err(error) => Err(error),
    }
}

/// Appends what follows the key of a part of so many bytes, before which so many others come: of the zeros that are left
/// those of the part, and their end. The answer is what is left behind the part.
pub(crate) fn take_zeros<'z>(
    out: &mut Vec<u8>,
    left: Option<(usize, u8, &'z [u8])>,
    gap: usize,
    size: usize,
) -> Result<Option<(usize, u8, &'z [u8])>, DocumentError>
    ensures taken { (before part behind : List ℕ) → Pends (before ++ (part ++ behind)) left.entry
        → length before ≡ gap → length part ≡ size → length (before ++ (part ++ behind)) < 2 ^ 63
        → AppendsZeros result out.old out.new (behind_key (zeros_of 0 part)) }
    ensures rest { (before part behind : List ℕ) → Pends (before ++ (part ++ behind)) left.entry
        → length before ≡ gap → length part ≡ size → length (before ++ (part ++ behind)) < 2 ^ 63
        → IfOk result (Pends behind) }
    ensures preserves { Preserves out.old out.new }
{
    let start = out.len();
    let rest = pass(left, gap)?;
    let (_, behind) = copy(0, rest, size, out)?;
    end_zeros(start, out)?;
    Ok(behind)
}
