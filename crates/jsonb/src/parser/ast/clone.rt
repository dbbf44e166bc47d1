//! `clone` of a `JsonAst`, part by part. What is borrowed stays borrowed.
ghost use Rattle.std.specs.Prelude.{◌≡◌, IfOk, IfErr};
ghost use Rattle.std.specs.Cow.{cow_str_bytes};
ghost use Rattle.jsonb_spec.specs.Tree.{escaped};
ghost use Rattle.jsonb_core.specs.View.{mark_view};
ghost use Rattle.jsonb_spec.specs.Source.Equality.{SourceHoldsNoMemory};
ghost use Rattle.jsonb.specs.Source.{source_view, sources_view, source_members_view};

use super::JsonAst;
use std::alloc::AllocError;
use std::borrow::CowStr;

impl<'a> Clone for JsonAst<'a> {
    ghost is_clone = { λ a b. source_view b ≡ source_view a };

    ghost is_infallible = { λ a. SourceHoldsNoMemory (source_view a) };

    fn clone(&self) -> Result<JsonAst<'a>, AllocError> {
        copy(self)
    }
}

// Inlined into the loops, so that only containers are calls there.
#[inline(always)]
#[cycle(copy)]
fn copy<'a>(ast: &JsonAst<'a>) -> Result<JsonAst<'a>, AllocError>
    ensures same { IfOk result (λ a. source_view a ≡ source_view ast.now) }
    ensures memory { IfErr result (λ _. ¬ (SourceHoldsNoMemory (source_view ast.now))) }
{
    match ast {
        JsonAst::Null => Ok(JsonAst::Null),
        JsonAst::Bool(b) => Ok(JsonAst::Bool(*b)),
        JsonAst::String(text) => Ok(JsonAst::String(copy_text(text)?)),
        JsonAst::Number(number) => Ok(JsonAst::Number(*number)),
        JsonAst::Array(items) => Ok(JsonAst::Array(copy_items(items)?)),
        JsonAst::Object(members) => Ok(JsonAst::Object(copy_members(members)?)),
    }
}

// `clone` of a `CowStr` says nothing of the variant.
fn copy_text<'a>(text: &CowStr<'a>) -> Result<CowStr<'a>, AllocError>
    ensures bytes { IfOk result (λ t. cow_str_bytes t ≡ cow_str_bytes text.now) }
    ensures mark { IfOk result (λ t. mark_view t ≡ mark_view text.now) }
    ensures memory { IfErr result (λ _. mark_view text.now ≡ escaped) }
{
    match text {
        CowStr::Borrowed(bytes) => Ok(CowStr::Borrowed(*bytes)),
        CowStr::Owned(bytes) => Ok(CowStr::Owned(bytes.clone()?)),
    }
}

#[cycle(copy)]
fn copy_items<'a>(items: &Vec<JsonAst<'a>>) -> Result<Vec<JsonAst<'a>>, AllocError>
    ensures { IfOk result (λ v. sources_view v.items ≡ sources_view items.now.items) }
{
    let mut copies = Vec::with_capacity(*items.allocator(), items.len())?;
    'items: for item in items {
        copies.push(copy(item)?)?;
    }
    Ok(copies)
}

#[cycle(copy)]
fn copy_members<'a>(
    members: &Vec<(CowStr<'a>, JsonAst<'a>, usize)>,
) -> Result<Vec<(CowStr<'a>, JsonAst<'a>, usize)>, AllocError>
    ensures { IfOk result (λ v. source_members_view v.items ≡ source_members_view members.now.items) }
{
    let mut copies = Vec::with_capacity(*members.allocator(), members.len())?;
    'members: for member in members {
        copies.push((copy_text(&member.0)?, copy(&member.1)?, member.2))?;
    }
    Ok(copies)
}
