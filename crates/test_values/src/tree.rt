// Trees with a member out of order and again, and deep ones that are compared.
use jsonb::{Grammar, JsonAst};
use jsonb_core::number::Number;
use jsonb_value::value::Value;
use std::alloc::{AllocError, Global};
use std::borrow::CowStr;
use std::test::Fail;

fn integer<'a>(value: u64) -> JsonAst<'a> {
    JsonAst::Number(Number::UInt64(value))
}

fn ast_by_hand<'a>(alloc: Global) -> Result<JsonAst<'a>, AllocError> {
    let items = JsonAst::Array(vec![in alloc; JsonAst::Null]?);
    Ok(JsonAst::Object(vec![in alloc;
        (CowStr::Borrowed("a"), integer(1), 4),
        (CowStr::Borrowed("b"), items, 8),
        (CowStr::Borrowed("a"), integer(2), 17),
    ]?))
}

fn is_written(value: &Value, text: &mut Vec<u8>, wanted: &[u8]) -> bool {
    value.write_text(text).is_ok() && text.as_slice() == wanted
}

#[test]
fn later_members_replace(rt: HostRuntime) -> Result<(), Fail> {
    let mut text = Vec::new(rt.alloc());
    let tree = ast_by_hand(rt.alloc())?;
    let value = tree.into_value(rt.alloc())?;
    assert!(rt; is_written(&value, &mut text, b"{\"a\":2,\"b\":[null]}"));
    Ok(())
}

fn is_cloned(tree: &JsonAst) -> bool {
    match tree.clone() {
        Ok(clone) => clone == *tree,
        Err(_) => false,
    }
}

// Objects in arrays, 128 levels of both.
fn deep_text(alloc: Global) -> Result<Vec<u8>, AllocError> {
    let mut text = Vec::new(alloc);
    for _ in 0..64 {
        text.extend_from_slice(b"[{\"a\":")?;
    }
    text.push(b'1')?;
    for _ in 0..64 {
        text.extend_from_slice(b"}]")?;
    }
    Ok(text)
}

// Each container is cloned and compared once. Twice at each of 128 levels would never end.
#[test]
fn deep_trees_are_cloned_and_compared(rt: HostRuntime) -> Result<(), Fail> {
    let text = deep_text(rt.alloc())?;
    let tree = JsonAst::parse_in(rt.alloc(), &text, Grammar::Standard)?;
    assert!(rt; is_cloned(&tree));
    Ok(())
}
