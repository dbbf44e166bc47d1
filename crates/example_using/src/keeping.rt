//! Keeping values, beside the texts that they were read from or without them.

ghost use Rattle.std.specs.Prelude.{◌≡◌, IfOk};
ghost use Rattle.jsonb_spec.specs.Grammar.{IsDocument};
ghost use Rattle.jsonb_spec.specs.Mode.{extended};
ghost use Rattle.jsonb_spec.specs.Owned.{owned_tree};
ghost use Rattle.jsonb_spec.specs.Tree.{Tree};
ghost use Rattle.jsonb_value.specs.View.{view};

use jsonb::{Result, Value};
use std::alloc::Global;
use std::collections::BTreeMap;

/// The value of a text that may be let go: its strings are its own.
pub fn read_owned<'a>(alloc: Global, text: &[u8]) -> Result<Value<'a>>
    ensures { IfOk result (λ v. (t : Tree) × IsDocument extended text.now t × (view v ≡ owned_tree t)) }
{
    let value = jsonb::parse_value(alloc, text)?;
    value.to_owned_value(alloc)
}

/// Values by name. Each may borrow from a text that lives as long as `'a`.
pub type Index<'a> = BTreeMap<String, Value<'a>>;

/// Parses the texts, each with its name, into one index.
pub fn index_of<'a>(alloc: Global, texts: &'a [(String, Vec<u8>)]) -> Result<Index<'a>> {
    let mut index = Index::new(alloc);
    for (name, text) in texts {
        let value = jsonb::parse_value(alloc, text)?;
        drop(index.insert(name.clone()?, value)?);
    }
    Ok(index)
}

/// The first name whose value equals this one.
pub fn name_of<'i, 'a>(index: &'i Index<'a>, value: &Value<'a>) -> Option<&'i str> {
    for (name, retained) in index.iter() {
        if retained == value {
            return Some(name.as_str());
        }
    }
    None
}
