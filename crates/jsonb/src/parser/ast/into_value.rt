//! The value of a parsed text. An object's members are inserted one after the other, and a later equal key replaces an
//! earlier one.
ghost use Rattle.std.specs.Prelude.{◌≡◌, IfOk, IfErr};
ghost use Rattle.jsonb_value.specs.View.{view, trees_view, members_view};
ghost use Rattle.jsonb.specs.AstView.{ast_view, asts_view, written_members};
ghost use Rattle.jsonb_spec.specs.Accessors.{IsContainer};

use super::JsonAst;
use crate::parser::handler::put_member;
use jsonb_core::error::{Error, Result};
use jsonb_value::value::{Object, Value};
use std::alloc::Global;
use std::borrow::CowStr;

impl<'a> JsonAst<'a> {
    /// The value with the same tree. Its only error is an allocation failure, and the tree is then dropped.
    ///
    /// It allocates for arrays and objects; strings move. Machine stack grows with the depth of the tree.
    ///
    /// ```
    /// let tree = JsonAst::parse(rt.alloc(), b"[1, 2]", Mode::Standard)?;
    /// assert_eq!(rt; tree.into_value(rt.alloc())?.array_length(), Some(2));
    /// ```
    pub fn into_value(self, alloc: Global) -> Result<Value<'a>>
        ensures ok { IfOk result (λ v. view v ≡ ast_view self.entry) }
        ensures memory { IfErr result (λ e. (e ≡ Error.OutOfMemory) × IsContainer (ast_view self.entry)) }
    {
        build(alloc, self)
    }
}

// Inlined into the loops, so that only containers are calls there.
#[inline(always)]
#[cycle(build)]
fn build<'a>(alloc: Global, ast: JsonAst<'a>) -> Result<Value<'a>>
    ensures ok { IfOk result (λ v. view v ≡ ast_view ast.entry) }
    ensures memory { IfErr result (λ e. (e ≡ Error.OutOfMemory) × IsContainer (ast_view ast.entry)) }
{
    match ast {
        JsonAst::Null => Ok(Value::Null),
        JsonAst::Bool(b) => Ok(Value::Bool(b)),
        JsonAst::String(text) => Ok(Value::String(text)),
        JsonAst::Number(number) => Ok(Value::Number(number)),
        JsonAst::Array(items) => Ok(Value::Array(build_items(alloc, items)?)),
        JsonAst::Object(members) => Ok(Value::Object(build_members(alloc, members)?)),
    }
}

#[cycle(build)]
fn build_items<'a>(alloc: Global, items: Vec<JsonAst<'a>>) -> Result<Vec<Value<'a>>>
    ensures ok { IfOk result (λ v. trees_view v.items ≡ asts_view items.entry.items) }
    ensures memory { IfErr result (λ e. e ≡ Error.OutOfMemory) }
{
    let mut values = Vec::with_capacity(alloc, items.len())?;
    'items: for item in items {
        values.push(build(alloc, item)?)?;
    }
    Ok(values)
}

#[cycle(build)]
fn build_members<'a>(
    alloc: Global,
    members: Vec<(CowStr<'a>, JsonAst<'a>, usize)>,
) -> Result<Object<'a>>
    ensures ok { IfOk result (λ m. members_view m.entries ≡ written_members members.entry.items) }
    ensures memory { IfErr result (λ e. e ≡ Error.OutOfMemory) }
{
    let mut object = Object::new(alloc);
    'members: for (key, ast, _) in members {
        let name = key.into_owned(alloc)?;
        put_member(&mut object, name, build(alloc, ast)?)?;
    }
    Ok(object)
}
