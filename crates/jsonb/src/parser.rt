//! The parsers of JSON texts: from left to right, up to the first fault.

ghost use Rattle.std.specs.Prelude.{◌≡◌, ◌≢◌, ◌+◌, ◌<◌, ◌≤◌, ℕ, List, [], ◌∷◌, drop, ◌⊎◌, MatchOption, IfOk, IfErr, IfSome, Err, None, Ok, Some, true, length};
ghost use Rattle.jsonb_spec.specs.Grammar.{IsDocument};
ghost use Rattle.jsonb_spec.specs.Mode.{standard, extended};
ghost use Rattle.jsonb_spec.specs.Order.{Same};
ghost use Rattle.jsonb_spec.specs.Proper.{IsProper};
ghost use Rattle.jsonb_spec.specs.Text.Range.{IsInRange, IsInRangeOf, IsIntegerRange};
ghost use Rattle.jsonb_spec.specs.Tree.{Tree};
ghost use Rattle.jsonb_value.specs.View.{view};
ghost use Rattle.text_scan.specs.Answer.{grammar_of};
ghost use Rattle.jsonb_spec.specs.Parsing.Memory.{MayAllocate};
ghost use Rattle.jsonb_spec.specs.Parsing.Document.{source_of};
ghost use Rattle.jsonb.specs.Follows.{FollowsSpecification};
ghost use Rattle.jsonb.specs.Parses.{Parses};
ghost use Rattle.text_parse.specs.Handler.{Misses};

mod ast;
mod handler;
mod lines;
mod members;
mod part;
mod straight;
mod zeros;

pub use ast::JsonAst;
use handler::ValuePart;
use jsonb_core::error::{Error, Result};
use jsonb_value::value::Value;
pub use lines::{RejectedLine, append_text_lines};
pub use part::append_part;
use std::alloc::Global;
pub use straight::{append_sort_key, append_text, check, may_allocate};
use text_parse::parse_text;
pub use text_scan::parser::{Grammar, Mode, grammars_compare, modes_compare};
pub use zeros::may_end_in_zeros;

/// Parses a whole text.
///
/// Strings without escapes are borrowed from `buf`. The time is linear in the text, and in an object of n members each
/// costs log n comparisons of keys; a text with a repeated key is parsed twice. It allocates for arrays, objects, their
/// keys, and strings with escapes.
///
/// ```
/// let value = jsonb::parse_value_in(rt.alloc(), b"{\"a\": [1.50e1, true]}", Grammar::Json)?;
/// assert_eq!(rt; value.get_by_name("a").and_then(|a| a.array_length()), Some(2));
/// ```
///
/// # Errors
///
/// Those of [`JsonAst::parse`].
pub fn parse_value_in(alloc: Global, buf: &[u8], grammar: Grammar) -> Result<Value<'_>>
    // What is returned is the one tree of the document; what is rejected is none, unless memory ran out.
    ensures parses { Parses (grammar_of grammar) view buf.now result }
    ensures follows { FollowsSpecification (grammar_of grammar) view buf.now result }

    // What is parsed is in range, so that what is written of it reads back.
    ensures in_range { IfOk result (λ v. IsInRangeOf (grammar_of grammar) (view v)) }
    ensures proper { IfOk result (λ v. IsProper (view v)) }
{
    match grammar {
        Grammar::Json => parse_value_by::<true>(alloc, buf, grammar),
        Grammar::Standard | Grammar::Extended | Grammar::ExtendedJson => {
            parse_value_by::<false>(alloc, buf, grammar)
        }
    }
}

// The same by a handler that distinguishes strings without an escape, or doesn't.
#[inline(always)]
fn parse_value_by<const PLAIN: bool>(
    alloc: Global,
    buf: &[u8],
    grammar: Grammar,
) -> Result<Value<'_>>
    ensures parses { Parses (grammar_of grammar) view buf.now result }
    ensures follows { FollowsSpecification (grammar_of grammar) view buf.now result }
    ensures in_range { IfOk result (λ v. IsInRangeOf (grammar_of grammar) (view v)) }
    ensures proper { IfOk result (λ v. IsProper (view v)) }
{
    match parse_text::<ValuePart<PLAIN>>(&mut (), alloc, buf, grammar) {
        Ok(made) => Ok(made.value),
        Err(reported) => value_of_tree(alloc, buf, grammar, reported),
    }
}

/// Parses a whole text of standard JSON.
///
/// The cost is that of [`parse_value_in`].
///
/// ```
/// let value = jsonb::parse_value_standard_mode(rt.alloc(), b"{\"a\": [1, true]}")?;
/// assert_eq!(rt; value.get_by_name("a").and_then(|a| a.array_length()), Some(2));
/// assert!(rt; jsonb::parse_value_standard_mode(rt.alloc(), b"{a: 1}").is_err());
/// ```
///
/// # Errors
///
/// Those of [`JsonAst::parse`].
pub fn parse_value_standard_mode(alloc: Global, buf: &[u8]) -> Result<Value<'_>>
    // What is returned is the one tree of the document; what is rejected is none, unless memory ran out.
    ensures parses { Parses standard view buf.now result }
    ensures follows { FollowsSpecification standard view buf.now result }

    // What is parsed is in the range of integers, so that what is written of it reads back.
    ensures in_range { IfOk result (λ v. IsIntegerRange (view v)) }
    ensures proper { IfOk result (λ v. IsProper (view v)) }

    // Each standard document is an extended one, of the same value.
    ensures extended { IfOk result (λ v. (u : Tree) × IsDocument extended buf.now u × Same u (view v)) }
{
    parse_value_in(alloc, buf, Grammar::Standard)
}

/// Parses a whole text of extended JSON.
///
/// The cost is that of [`parse_value_in`].
///
/// ```
/// let value = jsonb::parse_value(rt.alloc(), b"{n: 0x1F, list: [,+.5]} // a comment")?;
/// assert_eq!(rt; value.get_by_name("n").and_then(|n| n.as_u64()), Some(31));
/// ```
///
/// # Errors
///
/// Those of [`JsonAst::parse`].
pub fn parse_value(alloc: Global, buf: &[u8]) -> Result<Value<'_>>
    // What is returned is the one tree of the document; what is rejected is none, unless memory ran out.
    ensures parses { Parses extended view buf.now result }
    ensures follows { FollowsSpecification extended view buf.now result }

    // What is parsed is in range, so that what is written of it reads back.
    ensures in_range { IfOk result (λ v. IsInRange (view v)) }
    ensures proper { IfOk result (λ v. IsProper (view v)) }
{
    parse_value_in(alloc, buf, Grammar::Extended)
}

// What is returned of a text of which no value was made: the error that was reported, or, where a key comes twice, what
// the text's tree says. It is a call of its own, so that no space for a tree is made and cleared before each text.
#[cold]
#[inline(never)]
fn value_of_tree(
    alloc: Global,
    buf: &[u8],
    grammar: Grammar,
    reported: Option<Error>,
) -> Result<Value<'_>>
    requires misses { Misses true reported (source_of (grammar_of grammar) buf.now) }
    requires memory { reported ≡ Some Error.OutOfMemory → MayAllocate buf.now }
    ensures parses { Parses (grammar_of grammar) view buf.now result }
    ensures follows { FollowsSpecification (grammar_of grammar) view buf.now result }
{
    match reported {
        Some(error) => Err(error),
        None => JsonAst::parse_in(alloc, buf, grammar)?.into_value(alloc),
    }
}
