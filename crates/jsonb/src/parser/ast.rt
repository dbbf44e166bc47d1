//! JSON values as they were written.
ghost use Rattle.std.specs.Prelude.{◌≡◌, ◌<◌, IfOk, Err};
ghost use Rattle.jsonb.specs.AstView.{ast_view};
ghost use Rattle.text_scan.specs.Answer.{grammar_of, mode_of};
ghost use Rattle.jsonb_spec.specs.Located.{IsLocated};
ghost use Rattle.jsonb.specs.Follows.{FollowsSpecification};
ghost use Rattle.jsonb.specs.Parses.{Parses};
ghost use Rattle.jsonb.specs.Source.{source_view};

mod clone;
mod equality;
mod into_value;

use super::{Grammar, Mode};
use jsonb_core::error::{Error, Result};
use jsonb_core::number::Number;
use std::alloc::Global;
use std::borrow::CowStr;
use text_parse::parse_text;

/// A parsed text: its value, with strings borrowed from it where they have no escapes. A parser returns an object's
/// members in the order of their keys; each is its key, its value and the offset after the key.
#[derive(Debug, Drop)]
pub enum JsonAst<'a> {
    Null,
    Bool(bool),
    String(CowStr<'a>),
    Number(Number),
    Array(Vec<JsonAst<'a>>),
    Object(Vec<(CowStr<'a>, JsonAst<'a>, usize)>),
}

impl<'a> JsonAst<'a> {
    /// Parses a whole text.
    ///
    /// The time is linear in the text, and sorting the n members of an object takes n log n comparisons of keys.
    ///
    /// ```
    /// let tree = JsonAst::parse(rt.alloc(), b"{b: 1, a: 'x'}", Mode::Extended)?;
    /// let JsonAst::Object(members) = &tree else { return Ok(()) };
    /// assert_eq!(rt; members[0].0.as_str(), "a");
    /// assert_eq!(rt; members[0].2, 8); // the offset after the key
    /// ```
    ///
    /// # Errors
    ///
    /// `Syntax` with what is wrong and where, if the text is no document of the mode; the text is parsed from left to
    /// right, and the first fault is reported. `OutOfMemory` only where the text holds `[`, `{` or a backslash.
    pub fn parse(alloc: Global, buf: &'a [u8], mode: Mode) -> Result<JsonAst<'a>>
        // What is returned is the one tree of the document; what is rejected is none, unless memory ran out.
        ensures parses { Parses (mode_of mode) ast_view buf.now result }
        ensures follows { FollowsSpecification (mode_of mode) ast_view buf.now result }

        // Each value is in the text where it was parsed. Each object's keys ascend, and each member's own key ends
        // at its index.
        ensures source { IfOk result (λ v. IsLocated (mode_of mode) buf.now (source_view v)) }
    {
        JsonAst::parse_in(alloc, buf, Grammar::from(mode))
    }

    /// Parses a whole text of one of four grammars. The cost and the errors are those of [`JsonAst::parse`].
    pub fn parse_in(alloc: Global, buf: &'a [u8], grammar: Grammar) -> Result<JsonAst<'a>>
        // What is returned is the one tree of the document; what is rejected is none, unless memory ran out.
        ensures parses { Parses (grammar_of grammar) ast_view buf.now result }
        ensures follows { FollowsSpecification (grammar_of grammar) ast_view buf.now result }

        // Each value is in the text where it was parsed. Each object's keys ascend, and each member's own key ends
        // at its index.
        ensures source { IfOk result (λ v. IsLocated (grammar_of grammar) buf.now (source_view v)) }
    {
        match parse_text::<JsonAst>(&mut (), alloc, buf, grammar) {
            Ok(tree) => Ok(tree),
            Err(reported) => match reported {
                Some(error) => Err(error),
                None => unreachable!(),
            },
        }
    }
}

impl Default for JsonAst<'_> {
    ghost use Rattle.std.specs.Prelude.{◌≡◌};
    ghost use Rattle.jsonb.specs.declared.parser.ast.JsonAst.{Null};

    ghost is_default = { λ a. a ≡ Null };

    fn default() -> Self {
        JsonAst::Null
    }
}
