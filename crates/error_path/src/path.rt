//! The path of the part at which a text is rejected.
ghost use Rattle.std.specs.Prelude.{◌≡◌, List, ℕ, IfOk};
ghost use Rattle.jsonb_spec.specs.Path.ErrorPath.{IsErrorPath};
ghost use Rattle.error_path.specs.Faults.{text_upto};
ghost use Rattle.jsonb_spec.specs.Path.{IsPath};
ghost use Rattle.text_scan.specs.Answer.{grammar_of};

use crate::handler::PassedPart;
use crate::place::{Place, is_error_path};
use crate::steps::Steps;
use jsonb_core::error::{Error, ParseErrorCode};
use jsonb_path::append_path;
use std::alloc::{AllocError, Global};
use text_parse::{Grammar, parse_text};

/// Where a text is rejected.
#[derive(Clone, Copy)]
pub enum Fault {
    /// After a number that isn't representable, which ends before this offset.
    Number(usize),
    /// After a key that is repeated, which ends before this offset.
    Key(usize),
    /// Where the parser stops.
    Other,
}

/// The path (RFC 6901) of the part of the text's value at which the text is rejected: the innermost element or member
/// that has the fault, which is the one before where a comma or an end is missing, and the next one, or the object, where
/// a comment there has no end; of a repeated key the member. A text that isn't rejected has the path of the whole.
///
/// A pass over the text finds the part. Then a value is put there, and what is open is closed: where that gives a
/// document, in which the value is at the path, and the text is wrong there, it is the part. The time is linear in the
/// text, of which it takes up to five times that of `check`.
///
/// # Errors
///
/// Where memory ran out, and also where what the pass found weren't the part, of which no text is known.
pub fn error_path(
    alloc: Global,
    text: &[u8],
    grammar: Grammar,
    fault: Fault,
) -> Result<Vec<u8>, AllocError>
    ensures path { IfOk result (λ path. (keys : List (List ℕ)) × IsPath path.items keys) }
    // It leads to a part that is wrong, or is behind a key that comes twice.
    ensures leads { IfOk result (λ path. (keys : List (List ℕ)) × IsPath path.items keys
        × IsErrorPath (grammar_of grammar) (text_upto fault text.now) keys) }
{
    let text = text_upto(text, fault);
    let place = find_place(alloc, text, grammar)?;
    if !is_error_path(alloc, text, grammar, &place)? {
        return Err(AllocError);
    }
    let mut path = Vec::new(alloc);
    append_path(&place.keys, &mut path)?;
    Ok(path)
}

// The text up to where it is rejected, or all of it.
fn text_upto(text: &[u8], fault: Fault) -> &[u8]
    ensures { result.now ≡ text_upto fault text.now }
{
    match fault {
        Fault::Number(after) | Fault::Key(after) => match text.get(..after) {
            Some(front) => front,
            None => text,
        },
        Fault::Other => text,
    }
}

// Where the part is due at which a pass over the text stops. A byte is put behind the text that is nowhere: where the
// text ends too early, the parser says by that byte whether a part had ended.
fn find_place(alloc: Global, text: &[u8], grammar: Grammar) -> Result<Place, AllocError> {
    let mut passed = Vec::from_slice(alloc, text)?;
    passed.extend_from_slice(b" \x01")?;
    let mut steps = Steps::new(alloc);
    let lacks_comma = match parse_text::<PassedPart>(&mut steps, alloc, &passed, grammar) {
        Ok(_) => false,
        Err(reported) => lacks_comma(&reported)?,
    };
    steps.into_place(alloc, text, grammar, lacks_comma)
}

// Whether the error is the lack of a comma, or of the end of a container.
fn lacks_comma(reported: &Option<Error>) -> Result<bool, AllocError> {
    match reported {
        Some(Error::OutOfMemory) => Err(AllocError),
        Some(
            Error::Syntax(
                ParseErrorCode::ExpectedArrayCommaOrEnd | ParseErrorCode::ExpectedObjectCommaOrEnd,
                _,
            ),
        ) => Ok(true),
        _ => Ok(false),
    }
}
