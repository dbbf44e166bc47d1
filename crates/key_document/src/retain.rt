//! A key that is walked while parts of it are left out: its bytes that stay are appended, or their zeros.

ghost use Rattle.std.specs.Prelude.{◌≡◌, ◌<◌, ◌+◌, ◌++◌, ◌||◌, Bool, List, ℕ, length, MatchResult, true, Vec, vec_len};
ghost use Rattle.std.specs.Vec.{vec_capacity};
ghost use Rattle.key_document.specs.Retaining.{AreAhead, LeavesOut, Retains, WritesOn, output_of, unless};
ghost use Rattle.key_document.specs.Splices.{AppendsZeros};
ghost use Rattle.key_document.specs.declared.error.DocumentError.TheVariants.{OutOfMemory};
ghost use Rattle.key_document.specs.declared.retain.Output.{Output};
ghost use Rattle.jsonb_spec.specs.SortKey.Text.{Preserves};

use crate::error::DocumentError;
use crate::zeros::{copy, pass};
use key_walk::walk::front;

/// What is written of bytes.
#[derive(Clone, Copy)]
pub(crate) enum Output<'z> {
    /// The bytes themselves.
    Bytes,
    /// Their zeros: how many bytes without any are at the end of what was written, and what is left of those of the key.
    Zeros(usize, Option<(usize, u8, &'z [u8])>),
}

/// A key that is walked.
#[derive(Clone, Copy)]
pub(crate) struct Retaining<'k, 'z> {
    pub(crate) output: Output<'z>,
    /// The bytes from the first one on that stays and isn't written yet.
    pub(crate) pending: &'k [u8],
    /// Whether anything was left out.
    pub(crate) found: bool,
}

/// Passes the bytes from here to those behind them: they stay, or they go.
#[inline(always)]
pub(crate) fn pass_bytes<'k, 'z>(
    retaining: &Retaining<'k, 'z>,
    goes: bool,
    here: &'k [u8],
    behind: &'k [u8],
    out: &mut Vec<u8>,
) -> Result<Retaining<'k, 'z>, DocumentError>
    ensures passed { (first : Output) → (bytes counts one one_counts ahead_counts later later_counts old : List ℕ)
        → here.now ≡ one ++ behind.now → length one_counts ≡ length one
        → Retains first bytes counts here.now (one_counts ++ ahead_counts) (unless goes one later)
        (unless goes one_counts later_counts) retaining.now old out.old.items
        → MatchResult result
        (λ next. Retains first bytes counts behind.now ahead_counts later later_counts next old out.new.items
        × (next.found ≡ (retaining.now.found || goes)))
        (λ e. (goes ≡ true) × (e ≡ OutOfMemory)
        × (vec_capacity out.old < length old + length (output_of first bytes counts))) }
    ensures preserves { Preserves out.old out.new }
{
    if !goes {
        return Ok(*retaining);
    }
    write_up_to(retaining, here, behind, out)
}

// Writes what stays of the bytes before these, which go.
#[inline(never)]
fn write_up_to<'k, 'z>(
    retaining: &Retaining<'k, 'z>,
    here: &'k [u8],
    behind: &'k [u8],
    out: &mut Vec<u8>,
) -> Result<Retaining<'k, 'z>, DocumentError>
    ensures written { (first : Output) → (bytes counts one one_counts ahead_counts later later_counts old : List ℕ)
        → here.now ≡ one ++ behind.now → length one_counts ≡ length one
        → Retains first bytes counts here.now (one_counts ++ ahead_counts) later later_counts retaining.now old
        out.old.items
        → MatchResult result
        (λ next. Retains first bytes counts behind.now ahead_counts later later_counts next old out.new.items
        × (next.found ≡ true))
        (λ e. (e ≡ OutOfMemory) × (vec_capacity out.old < length old + length (output_of first bytes counts))) }
    ensures preserves { Preserves out.old out.new }
{
    reserve(retaining, out);
    let stays = front(retaining.pending, here);
    let written = write_bytes(&retaining.output, stays, out)?;
    let size = here.len().saturating_sub(behind.len());
    let output = leave_out(&written, size)?;
    Ok(Retaining {
        output,
        pending: behind,
        found: true,
    })
}

// Reserves capacity for all that may stay of a key, before its first byte is written.
fn reserve(retaining: &Retaining<'_, '_>, out: &mut Vec<u8>)
    ensures same { out.new.items ≡ out.old.items }
    ensures preserves { Preserves out.old out.new }
{
    if retaining.found {
        return;
    }
    if let Output::Bytes = retaining.output {
        let _reserved = out.try_reserve(retaining.pending.len());
    }
}

/// Writes all that is left of the key, which stays.
pub(crate) fn write_rest(
    retaining: &Retaining<'_, '_>,
    out: &mut Vec<u8>,
) -> Result<(), DocumentError>
    ensures written { (first : Output) → (bytes counts last last_counts old : List ℕ) → length last_counts ≡ length last
        → Retains first bytes counts last last_counts last last_counts retaining.now old out.old.items
        → MatchResult result (λ x. out.new.items ≡ old ++ output_of first bytes counts)
        (λ e. (e ≡ OutOfMemory) × (vec_capacity out.old < length old + length (output_of first bytes counts))) }
    ensures preserves { Preserves out.old out.new }
{
    write_bytes(&retaining.output, retaining.pending, out)?;
    Ok(())
}

// Appends the next bytes of the key, or their zeros.
fn write_bytes<'z>(
    output: &Output<'z>,
    bytes: &[u8],
    out: &mut Vec<u8>,
) -> Result<Output<'z>, DocumentError>
    ensures written { (counts behind : List ℕ) → length counts ≡ length bytes.now
        → AreAhead output.now (counts ++ behind)
        → WritesOn output.now bytes.now counts behind result out.old out.new }
    ensures preserves { Preserves out.old out.new }
{
    match *output {
        Output::Bytes => {
            out.extend_from_slice(bytes)?;
            Ok(Output::Bytes)
        }
        Output::Zeros(plain, left) => {
            let (more, rest) = copy(plain, left, bytes.len(), out)?;
            Ok(Output::Zeros(more, rest))
        }
    }
}

// Leaves out so many bytes of the key, or their zeros.
fn leave_out<'z>(output: &Output<'z>, size: usize) -> Result<Output<'z>, DocumentError>
    ensures { (counts behind : List ℕ) → length counts ≡ size → AreAhead output.now (counts ++ behind)
        → LeavesOut output.now behind result }
{
    match *output {
        Output::Bytes => Ok(Output::Bytes),
        Output::Zeros(plain, left) => {
            let rest = pass(left, size)?;
            Ok(Output::Zeros(plain, rest))
        }
    }
}
