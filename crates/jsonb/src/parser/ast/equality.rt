//! Equality of `JsonAst`s by their parts.
ghost use Rattle.std.specs.Prelude.{◌≡◌};
ghost use Rattle.std.specs.Cmp.{on_equiv, on_per, partial_equiv_from_equiv};
ghost use Rattle.std.specs.Ordering.{on};
ghost use Rattle.jsonb.specs.Source.{source_view, sources_view, source_members_view};
ghost use Rattle.jsonb_spec.specs.Source.Equality.{source_eq, sources_eq, source_members_eq};
ghost use Rattle.jsonb.specs.SourceLaws.{source_eq_equiv};

use super::JsonAst;
use std::borrow::CowStr;

impl PartialEq for JsonAst<'_> {
    ghost eq = { on source_view source_eq };

    ghost laws = { on_per source_view (partial_equiv_from_equiv source_eq_equiv) };

    fn eq(&self, other: &Self) -> bool {
        same(self, other)
    }
}

impl Eq for JsonAst<'_> {
    ghost laws = { on_equiv source_view source_eq_equiv };
}

// Inlined into the loops, so that only containers are calls there.
#[inline(always)]
#[cycle(same)]
fn same<'a>(left: &JsonAst<'a>, right: &JsonAst<'a>) -> bool
    ensures { result ≡ source_eq (source_view left.now) (source_view right.now) }
{
    match (left, right) {
        (JsonAst::Null, JsonAst::Null) => true,
        (JsonAst::Bool(a), JsonAst::Bool(b)) => a == b,
        (JsonAst::String(a), JsonAst::String(b)) => a == b,
        (JsonAst::Number(a), JsonAst::Number(b)) => a == b,
        (JsonAst::Array(a), JsonAst::Array(b)) => same_items(a, b),
        (JsonAst::Object(a), JsonAst::Object(b)) => same_members(a, b),
        _ => false,
    }
}

#[cycle(same)]
fn same_items<'a>(left: &Vec<JsonAst<'a>>, right: &Vec<JsonAst<'a>>) -> bool
    ensures { result ≡ sources_eq (sources_view left.now.items) (sources_view right.now.items) }
{
    'items: for (i, item) in left.iter().enumerate() {
        if i >= right.len() {
            return false;
        }
        if !same(item, &right[i]) {
            return false;
        }
    }
    left.len() >= right.len()
}

#[cycle(same)]
fn same_members<'a>(
    left: &Vec<(CowStr<'a>, JsonAst<'a>, usize)>,
    right: &Vec<(CowStr<'a>, JsonAst<'a>, usize)>,
) -> bool
    ensures { result ≡ source_members_eq (source_members_view left.now.items) (source_members_view right.now.items) }
{
    'members: for (i, member) in left.iter().enumerate() {
        if i >= right.len() {
            return false;
        }
        let other = &right[i];
        if member.0 != other.0 || !same(&member.1, &other.1) || member.2 != other.2 {
            return false;
        }
    }
    left.len() >= right.len()
}
