//! The items and the members of a key, one after the other.

ghost use Rattle.std.specs.Prelude.{◌≡◌, ◌≢◌, ◌↔◌, ◌<◌, ◌++◌, ◌∷◌, ◌⊎◌, List, ℕ, length, IfSome, MatchOption, None, if◌then◌else◌};
ghost use Rattle.jsonb_spec.specs.SortKey.Readable.{IsReadable};
ghost use Rattle.jsonb_spec.specs.SortKey.AtKeys.{AtKey, Leaves, Splits, SplitsNamed};
ghost use Rattle.key_walk.specs.Parts.{BeginsNoKey, IsFirstByte, kind_of_tree};
ghost use Rattle.jsonb_spec.specs.Accessors.{as_boolean};
ghost use Rattle.jsonb_spec.specs.SortKey.{key_of, items_key, members_key, text_key};
ghost use Rattle.jsonb_spec.specs.SortKey.Kind as kind;
ghost use Rattle.jsonb_spec.specs.Tree.{Tree, array, object, Trees, no_trees, more_trees, Members, no_members, more_members};

use crate::skip::{after_end, after_key, after_text};
use jsonb_core::sort_key::kind;

/// What kind of value a key is of.
#[derive(Clone, Copy, Debug, PartialEq, Eq, Drop)]
pub enum Kind {
    Null,
    Bool,
    Number,
    String,
    Array,
    Object,
}

/// The kind of the value of JSON's kinds whose key the bytes begin with. It is determined by the first byte alone, so
/// other bytes may have a kind too; `None` where no key of such a value begins with that byte.
#[inline(always)]
pub fn kind_of(key: &[u8]) -> Option<Kind>
    ensures kind { AtKey key.now (λ t more. result ≡ kind_of_tree t) }
    ensures none { (result ≡ None) ↔ BeginsNoKey key.now }
{
    let Some((first, _)) = key.split_first() else {
        return None;
    };
    kind_by_byte(*first)
}

// The kind whose keys begin with this byte.
fn kind_by_byte(first: u8) -> Option<Kind>
    ensures { MatchOption result ((kind : Kind) → IsFirstByte kind first → ⊥) (λ kind. IsFirstByte kind first) }
{
    match first {
        kind::FALSE | kind::TRUE => Some(Kind::Bool),
        // Numbers below 0, and the others.
        0x38..=0x7E | kind::ZERO..=0xC7 => Some(Kind::Number),
        kind::STRING => Some(Kind::String),
        kind::OBJECT => Some(Kind::Object),
        kind::ARRAY => Some(Kind::Array),
        kind::NULL => Some(Kind::Null),
        _ => None,
    }
}

/// The boolean whose key the bytes begin with; `None` where they begin with that of another value. Of other bytes it
/// may be either, or `None`.
pub fn boolean_of(key: &[u8]) -> Option<bool>
    ensures boolean { AtKey key.now (λ t more. result ≡ as_boolean t) }
{
    let (first, _) = key.split_first()?;
    boolean_by_byte(*first)
}

// The boolean whose key is this byte.
fn boolean_by_byte(first: u8) -> Option<bool>
    ensures { MatchOption result ((first ≢ kind.false) × (first ≢ kind.true))
        (λ b. first ≡ (if b then kind.true else kind.false)) }
{
    match first {
        kind::FALSE => Some(false),
        kind::TRUE => Some(true),
        _ => None,
    }
}

/// What is behind the first byte of an array's key: its items, and what follows the array. `None` for any other
/// value.
pub fn items_of(key: &[u8]) -> Option<&[u8]>
    ensures array { (ts : Trees) → (more : List ℕ) → key.now ≡ key_of (array ts) ++ more
        → Leaves result (items_key ts ++ more) }
    ensures some { IfSome result (λ rest. key.now ≡ kind.array ∷ rest.now) }
{
    body_of(kind::ARRAY, key)
}

/// What is behind the first byte of an object's key: its members, and what follows the object. `None` for any other
/// value.
pub fn members_of(key: &[u8]) -> Option<&[u8]>
    ensures object { (ms : Members) → (more : List ℕ) → key.now ≡ key_of (object ms) ++ more
        → Leaves result (members_key ms ++ more) }
    ensures some { IfSome result (λ rest. key.now ≡ kind.object ∷ rest.now) }
{
    body_of(kind::OBJECT, key)
}

fn body_of(kind: u8, key: &[u8]) -> Option<&[u8]>
    ensures found { (body : List ℕ) → key.now ≡ kind ∷ body → Leaves result body }
    ensures some { IfSome result (λ rest. key.now ≡ kind ∷ rest.now) }
{
    let (first, rest) = key.split_first()?;
    if *first != kind {
        return None;
    }
    Some(rest)
}

/// The key of the next item, and the items after it; `None` where there is none.
pub fn next_item(items: &[u8]) -> Option<(&[u8], &[u8])>
    ensures over { (more : List ℕ) → items.now ≡ items_key no_trees ++ more → result ≡ None }
    ensures next { (t : Tree) → IsReadable t → (ts : Trees) → (more : List ℕ)
        → items.now ≡ items_key (more_trees t ts) ++ more → Splits result (key_of t) (items_key ts ++ more) }
    ensures shorter { IfSome result (λ r. length r.1.now < length items.now) }
{
    match after_end(false, items) {
        Some(_) => None,
        None => item_of(items),
    }
}

// The key that the bytes begin with, and what follows it.
fn item_of(items: &[u8]) -> Option<(&[u8], &[u8])>
    ensures next { AtKey items.now (λ t more. Splits result (key_of t) more) }
    ensures shorter { IfSome result (λ r. length r.1.now < length items.now) }
{
    let rest = after_key(items)?;
    Some((front(items, rest), rest))
}

/// The name of the next member as a text's key, the key of its value, and the members after it; `None` where there is
/// none.
#[inline(always)]
pub fn next_member(members: &[u8]) -> Option<(&[u8], &[u8], &[u8])>
    ensures over { (more : List ℕ) → members.now ≡ members_key no_members ++ more → result ≡ None }
    ensures next { (name : List ℕ) → (t : Tree) → IsReadable t → (ms : Members) → (more : List ℕ)
        → members.now ≡ members_key (more_members name t ms) ++ more
        → SplitsNamed result (text_key name) (key_of t) (members_key ms ++ more) }
    ensures shorter { IfSome result (λ r. length r.2.now < length members.now) }
{
    match after_end(true, members) {
        Some(_) => None,
        None => member_of(members),
    }
}

// The name and the key that the bytes begin with, and what follows.
#[inline(always)]
fn member_of(members: &[u8]) -> Option<(&[u8], &[u8], &[u8])>
    ensures next { (name : List ℕ) → (t : Tree) → IsReadable t → (more : List ℕ)
        → members.now ≡ text_key name ++ (key_of t ++ more) → SplitsNamed result (text_key name) (key_of t) more }
    ensures shorter { IfSome result (λ r. length r.2.now < length members.now) }
{
    let value = after_text(members)?;
    let rest = after_key(value)?;
    let name = front(members, value);
    let part = front(value, rest);
    Some((name, part, rest))
}

/// The bytes before what is left of them.
pub fn front<'k>(bytes: &'k [u8], rest: &[u8]) -> &'k [u8]
    ensures { (before : List ℕ) → bytes.now ≡ before ++ rest.now → result.now ≡ before }
{
    let Some(len) = bytes.len().checked_sub(rest.len()) else {
        return bytes;
    };
    let (before, _) = bytes.split_at(len);
    before
}
