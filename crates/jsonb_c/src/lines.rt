//! A text whose lines are texts of their own.
ghost use Rattle.std.specs.Prelude.{◌≡◌, ◌≢◌, ◌⊎◌, ◌≤◌, All, IfOk, MatchResult};
ghost use Rattle.jsonb_spec.specs.Parsing.Lines.{lines_of};
ghost use Rattle.jsonb_c.specs.Interface.{FailsFor, Reports, status_of};
ghost use Rattle.jsonb_spec.specs.Interface.{FillsBuffer, IsAccepted, IsStatus};
ghost use Rattle.jsonb_spec.specs.Interface.Lines.{AreTextsOfLines, LinesMayAllocate};
ghost use Rattle.jsonb_c.specs.Lines.{IsLineRejected};

use crate::{
    ACCEPTED, Failure, NOTHING, OUT_OF_MEMORY, REJECTED, Rejection, TOO_SHORT, buffer_of,
    choose_grammar, put, reason_of, report,
};
use jsonb::append_text_lines;
use std::alloc::Global;

/// Writes the value of each line as text, with a line feed behind it, to the start of `out`, and the size of all to
/// `size`. The last line of the text may lack its line feed. Where `out` is too short, it stays as it is, and `size` is
/// what is needed. Where a line is rejected, `start` is the offset at which it begins, and the position counts from
/// there.
#[unsafe(no_mangle)]
pub extern "C" fn vizhoniku_lines(
    alloc: Global,
    mode: u32,
    text: &[u8],
    out: &mut [u8],
    size: &mut usize,
    start: &mut usize,
    rejection: &mut Rejection,
) -> u32
    // Documents are accepted, unless memory ran out.
    ensures status { IsStatus mode TOO_SHORT result }
    ensures accepted { mode ≤ 3 → All (IsAccepted mode) (lines_of text.now)
        → (result ≡ ACCEPTED) ⊎ (result ≡ TOO_SHORT) ⊎ (result ≡ OUT_OF_MEMORY) }
    ensures memory { result ≡ OUT_OF_MEMORY → LinesMayAllocate mode text.now }

    // What is written is the text of each document's tree, and no other byte of the buffer changes.
    ensures fills { FillsBuffer (AreTextsOfLines mode text.now) ACCEPTED result size.new out.old out.new }

    // Which line it is that is rejected, which fault, and where.
    ensures reports { Reports (IsLineRejected mode text.now start.new) result rejection.new }
    ensures no_start { result ≢ REJECTED → start.new ≡ 0 }
{
    match texts_of_lines(alloc, mode, text, start) {
        Ok(bytes) => {
            *rejection = NOTHING;
            *size = bytes.len();
            put(&bytes, out)
        }
        Err(rejected) => {
            *size = 0;
            report(rejected, rejection)
        }
    }
}

// The texts of the values of the lines. Where a line is rejected, `start` is the offset at which it begins, and else 0.
fn texts_of_lines(
    alloc: Global,
    mode: u32,
    text: &[u8],
    start: &mut usize,
) -> Result<Vec<u8>, Failure>
    ensures texts { IfOk result (λ bytes. AreTextsOfLines mode text.now bytes.items) }
    ensures fails { FailsFor mode (IsLineRejected mode text.now start.new) (LinesMayAllocate mode text.now) result }
    ensures no_start { MatchResult result (λ _. start.new ≡ 0) (λ reason. status_of reason ≢ REJECTED → start.new ≡ 0) }
{
    *start = 0;
    let Some(grammar) = choose_grammar(mode) else {
        return Err(Failure::UnknownMode);
    };
    let mut bytes = buffer_of(alloc, text.len());
    match append_text_lines(alloc, text, grammar, &mut bytes) {
        Ok(()) => Ok(bytes),
        Err(rejected) => {
            let reason = reason_of(&rejected.error, 1);
            *start = start_of(&reason, rejected.start);
            Err(reason)
        }
    }
}

// Where the line begins for which there are no texts, if it is rejected, and else 0.
fn start_of(reason: &Failure, start: usize) -> usize
    ensures rejected { status_of reason.now ≡ REJECTED → result ≡ start }
    ensures other { status_of reason.now ≢ REJECTED → result ≡ 0 }
{
    match reason {
        Failure::Text(_) => start,
        _ => 0,
    }
}
