//! A `Value` is made with no `JsonAst` between, and is silent about a repeated key: then the text is parsed again as a
//! `JsonAst`.
ghost use Rattle.std.specs.Prelude.{◌≡◌, List, [], ◌∷◌, ◌++◌, false, true, None, Ok, MatchBool, MatchResult, IfOk, OnOk, string_bytes};
ghost use Rattle.std.specs.BTreeMap.{insert_entry, is_at};
ghost use Rattle.std.specs.Map.{lookup};
ghost use Rattle.std.specs.String.{string_cmp};
ghost use Rattle.jsonb_spec.specs.Tree.Tree.{object};
ghost use Rattle.jsonb_value.specs.View.{members_view, view};
ghost use Rattle.jsonb.specs.FrameContents.{Completes, FramesHold, MapHolds};
ghost use Rattle.jsonb_spec.specs.Source.{tree_of_source};

use crate::parser::Mode;
use jsonb_core::error::Error;
use jsonb_value::value::{Object, Value};
use std::alloc::{AllocError, AllocFailed, Global};
use std::borrow::CowStr;
use std::mem;
use text_parse::{Failed, Handler, OpenObject, Scalar, Text, Wants};
use text_scan::parser::string::decode_contents;

// A value that is made. Strings that are written without an escape are distinguished, or not.
#[derive(Drop)]
pub(in crate::parser) struct ValuePart<'a, const PLAIN: bool> {
    pub(in crate::parser) value: Value<'a>,
}

impl<'a, const PLAIN: bool> Handler<'a> for ValuePart<'a, PLAIN> {
    type Sink = ();

    type Items = Vec<Value<'a>>;

    type Members = Object<'a>;

    type Key = String;

    ghost sees = { λ v s. view v.value ≡ tree_of_source s };

    // Nothing is held.
    ghost is_verbatim = { λ k v. ⊥ };

    ghost holds = { λ text sink due fs cs. FramesHold (λ v s. view v ≡ tree_of_source s) (λ key k offset. string_bytes key ≡ k.1) (λ ms found. MapHolds found ms.entries) due fs cs };

    ghost completes = { λ text sink f s fs cs. Completes (λ v s. view v ≡ tree_of_source s) (λ ms s. object (members_view ms.entries) ≡ tree_of_source s) f s × FramesHold (λ v s. view v ≡ tree_of_source s) (λ key k offset. string_bytes key ≡ k.1) (λ ms found. MapHolds found ms.entries) true fs cs };

    ghost filled = { λ text sink v s fs cs. (view v.value ≡ tree_of_source s) × FramesHold (λ v s. view v ≡ tree_of_source s) (λ key k offset. string_bytes key ≡ k.1) (λ ms found. MapHolds found ms.entries) true fs cs };

    ghost base = { λ sink. [] };

    ghost silent = { true };

    ghost writes = { false };

    ghost preserves = { false };

    ghost reports_plain = { PLAIN };

    #[inline(always)]
    fn wants() -> Wants
        ensures verbatim { result.verbatim ≡ false }
        ensures plain { result.plain ≡ PLAIN }
    {
        Wants {
            plain: PLAIN,
            verbatim: false,
        }
    }

    #[inline(always)]
    fn scalar(value: Scalar<'a>) -> Self {
        let value = match value {
            Scalar::Null => Value::Null,
            Scalar::Bool(value) => Value::Bool(value),
            Scalar::Number(value) => Value::Number(value),
            Scalar::String(Text::Plain(text)) => Value::String(CowStr::Borrowed(text)),
            Scalar::String(Text::Borrowed(text)) => Value::String(CowStr::Borrowed(text)),
            Scalar::String(Text::Decoded(text)) => Value::String(text),
            Scalar::Verbatim(_) => Value::Null,
        };
        ValuePart { value }
    }

    #[inline(always)]
    fn escaped_string(
        alloc: Global,
        body: &'a str,
        mode: Mode,
        offset: usize,
    ) -> Result<Self, Error> {
        let text = decode_contents(alloc, body.as_bytes(), mode, true, offset)?;
        Ok(ValuePart {
            value: Value::String(text),
        })
    }

    #[inline(always)]
    fn root(sink: &mut (), value: &Self, from: usize, to: usize) -> Result<(), AllocError> {
        Ok(())
    }

    #[inline(always)]
    fn items(sink: &mut (), alloc: Global, at: usize) -> Result<Vec<Value<'a>>, AllocError> {
        Ok(Vec::new(alloc))
    }

    #[inline(always)]
    fn next_item(sink: &mut (), items: &mut Vec<Value<'a>>) -> Result<(), AllocError> {
        Ok(())
    }

    #[inline(always)]
    fn push(
        sink: &mut (),
        items: &mut Vec<Value<'a>>,
        value: Self,
        from: usize,
        to: usize,
    ) -> Result<(), AllocError> {
        push_scalar(items, value.value)
    }

    #[inline(always)]
    fn push_inner(
        sink: &mut (),
        items: &mut Vec<Value<'a>>,
        value: Self,
        is_last: bool,
    ) -> Result<(), AllocError> {
        grow(items, is_last);
        if let Err(rejected) = items.push(value.value) {
            rejected.value.dismantle();
            return Err(AllocError);
        }
        Ok(())
    }

    #[inline(always)]
    fn end_items(sink: &mut (), items: &mut Vec<Value<'a>>, at: usize) -> Result<(), AllocError> {
        give_back(items);
        Ok(())
    }

    #[inline(always)]
    fn array(sink: &(), items: Vec<Value<'a>>) -> Self {
        ValuePart {
            value: Value::Array(items),
        }
    }

    #[inline(always)]
    fn members(
        sink: &mut (),
        alloc: Global,
        at: usize,
    ) -> Result<OpenObject<Object<'a>, String>, AllocError> {
        Ok(OpenObject {
            members: Object::new(alloc),
            key: String::new(alloc),
        })
    }

    #[inline(always)]
    fn key(
        sink: &mut (),
        object: &mut OpenObject<Object<'a>, String>,
        alloc: Global,
        text: Text<'a>,
        from: usize,
        after: usize,
    ) -> Result<String, AllocError> {
        match text {
            Text::Plain(text) => String::from_str(alloc, text),
            Text::Borrowed(text) => String::from_str(alloc, text),
            Text::Decoded(text) => text.into_owned(alloc),
        }
    }

    #[inline(always)]
    fn insert(
        sink: &mut (),
        object: &mut OpenObject<Object<'a>, String>,
        key: String,
        value: Self,
        from: usize,
        to: usize,
    ) -> Result<bool, AllocError> {
        put_member(&mut object.members, key, value.value)
    }

    #[inline(always)]
    fn insert_inner(
        sink: &mut (),
        object: &mut OpenObject<Object<'a>, String>,
        alloc: Global,
        value: Self,
    ) -> Result<bool, AllocError> {
        let key = mem::replace(&mut object.key, String::new(alloc));
        put_member(&mut object.members, key, value.value)
    }

    #[inline(always)]
    fn finish(
        sink: &mut (),
        alloc: Global,
        members: &mut Object<'a>,
        reported: &mut Option<Error>,
        at: usize,
    ) -> Result<(), Failed> {
        Ok(())
    }

    #[inline(always)]
    fn object(sink: &(), members: Object<'a>) -> Self {
        ValuePart {
            value: Value::Object(members),
        }
    }

    #[inline(always)]
    fn dismantle(self) {
        self.value.dismantle();
    }
}

// Pushes a scalar, unless memory runs out. Space is made first: a push that may fail would give the value back, and the
// slot for that is cleared before each value.
#[inline(always)]
pub(in crate::parser) fn push_scalar<V: Drop>(
    items: &mut Vec<V>,
    value: V,
) -> Result<(), AllocError>
    ensures { OnOk result (items.new.items ≡ items.old.items ++ value ∷ []) }
{
    items.try_reserve(1)?;
    items.push_reserved(value);
    Ok(())
}

// Makes space for a value, and for no other, where it is the array's only one. Arrays in arrays often have but one.
#[inline(always)]
pub(in crate::parser) fn grow<V: Drop>(items: &mut Vec<V>, is_last: bool)
    ensures { items.new.items ≡ items.old.items }
{
    if is_last && items.capacity() == 0 {
        let _made = items.reserve_exact(1);
    }
}

// An array that was parsed holds space for so many values more than it has, and no more.
const SPARE: usize = 15;

// Gives back space that nothing needs, where there is enough of it to be worth the call.
fn give_back(items: &mut Vec<Value>)
    ensures { items.new.items ≡ items.old.items }
{
    if items.capacity() - items.len() > SPARE {
        items.shrink_to_fit();
    }
}

// Puts in a member. True where no other had its key; else the other's value is gone. All members are put in here,
// so that the map's own code is in this function and in no other, and its answer takes no memory.
#[inline(never)]
pub(in crate::parser) fn put_member<'a>(
    members: &mut Object<'a>,
    key: String,
    value: Value<'a>,
) -> Result<bool, AllocError>
    ensures entries { IfOk result (λ _. members.new.entries
        ≡ insert_entry string_cmp members.old.entries key value.entry) }
    ensures missing { IfOk result (λ is_new. MatchBool is_new
        (lookup (is_at (string_cmp key)) members.old.entries ≡ None) (Unit {0})) }
{
    match members.insert(key, value) {
        Ok(None) => Ok(true),
        other => drop_after_error(other),
    }
}

// Drops what the map gave back instead of a new member: the value that a repeated key had, or the one that there
// was no memory for. Either may nest deep. It is a call of its own, so that `put_member` makes no space for what it
// drops.
#[cold]
#[inline(never)]
fn drop_after_error<'a>(
    given: Result<Option<Value<'a>>, AllocFailed<(String, Value<'a>)>>,
) -> Result<bool, AllocError>
    ensures { MatchResult given.entry (λ _. result ≡ Ok false) (λ _. IfOk result (λ _. ⊥)) }
{
    match given {
        Ok(Some(old)) => {
            old.dismantle();
            Ok(false)
        }
        Ok(None) => Ok(false),
        Err(rejected) => {
            let (_, value) = rejected.value;
            value.dismantle();
            Err(AllocError)
        }
    }
}
