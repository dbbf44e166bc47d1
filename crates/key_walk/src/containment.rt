//! Whether a value contains another, straight from their keys.

ghost use Rattle.std.specs.Prelude.{Bool, ◌≡◌, ◌<◌, ◌≤◌, ◌++◌, List, ℕ, suc, length, true, false, IsTrue, IfOk, IfSome, Ok};
ghost use Rattle.jsonb_spec.specs.SortKey.Readable.{IsReadable, IsReadableAt};
ghost use Rattle.jsonb_spec.specs.Containment.{contains, holds, holds_items, holds_members, any_item};
ghost use Rattle.jsonb_spec.specs.SortKey.AtKeys.{AtParts, Leaves, ReportsOrder};
ghost use Rattle.jsonb_spec.specs.SortKey.Open.{Open, is_object, open_key, IsOpen, IsScalar};
ghost use Rattle.jsonb_spec.specs.SortKey.Parts.{opened_tree};
ghost use Rattle.key_walk.specs.SideBySide.{AreReadableAt, HaveReadableAt, EndsWith, IsLeft, FindsMember, IsPassed, SameKeys, Occurs, OccursInside, EndsInside, ReportsHeld, Reported, Walks};
ghost use Rattle.jsonb_spec.specs.Order.{bytes_cmp};
ghost use Rattle.jsonb_spec.specs.SortKey.{key_of, items_key, members_key, text_key};
ghost use Rattle.jsonb_spec.specs.Tree.{Tree, Trees, Members};

use crate::find::NoKey;
use crate::skip::{
    MAX_DEPTH, after_end, after_key, after_parts, after_scalar, after_text, is_over, opening,
};
use crate::walk::{front, items_of};
use std::cmp::Ordering;

/// Whether the value of the first key contains that of the second, as `@>` of PostgreSQL's `jsonb` has it: an object
/// the members of another, each by its name, with a value that contains the other's; an array the items of another,
/// each in some item; a scalar an equal one; and an array a scalar that is an item of it. Nothing is allocated. The
/// members of two objects are passed once; each item of the other array is looked for among all items.
///
/// # Errors
///
/// `NoKey` where the bytes aren't two keys of values of JSON's kinds with at most 512 nested arrays and objects, as far
/// as they were looked at.
pub fn contains<'k>(key: &'k [u8], other: &'k [u8]) -> Result<bool, NoKey>
    ensures { (t u : Tree) → IsReadable t → IsReadable u → (more behind : List ℕ) → key.now ≡ key_of t ++ more
        → other.now ≡ key_of u ++ behind → result ≡ Ok (contains t u) }
{
    let Some((first, _)) = other.split_first() else {
        return Err(NoKey);
    };
    let mut walk = Walk {
        key,
        other,
        ours: key,
        theirs: other,
        depth: MAX_DEPTH,
        in_object: false,
    };
    if let Some(object) = opening(*first) {
        return walk.has_parts(object);
    }
    if let Some(items) = items_of(key) {
        walk.ours = items;
        return walk.has_scalar_item();
    }
    walk.has_equal()
}

// Two keys that are walked side by side, and what of each is still to come. The value that their bytes begin with is
// looked for in the one that our bytes begin with. Where it is found, both go on behind it. So a level of two arrays
// takes 48 bytes of machine stack, and one of two objects less.
#[derive(Drop)]
struct Walk<'k> {
    key: &'k [u8],
    other: &'k [u8],
    ours: &'k [u8],
    theirs: &'k [u8],
    // How many arrays and objects may be opened.
    depth: usize,
    // Of which kind the last of ours is in which all of theirs was found.
    in_object: bool,
}

impl<'k> Walk<'k> {
    // Whether the value holds the other.
    #[inline(always)]
    #[cycle(walk)]
    fn has_value(&mut self) -> Result<bool, NoKey>
        ensures held { ReportsHeld 512 IsReadableAt key_of holds (Occurs self.new) self.old result }
        ensures walks { Walks self.old self.new result }
    {
        let Some((first, _)) = self.theirs.split_first() else {
            return Err(NoKey);
        };
        let Some(object) = opening(*first) else {
            return self.has_equal();
        };
        if !self.has_parts(object)? {
            return Ok(false);
        }
        self.close()?;
        Ok(true)
    }

    // Whether the value holds the object, or the array. Where it does, ours are some of its parts and what follows it.
    #[inline(always)]
    #[cycle(walk)]
    fn has_parts(&mut self, object: bool) -> Result<bool, NoKey>
        ensures held { (depth : ℕ) → self.old.depth ≡ depth → depth ≤ 512 → (t : Tree) → (o : Open)
            → is_object o ≡ object → IsReadableAt depth t → IsReadableAt depth (opened_tree o) → (more behind : List ℕ)
            → Occurs self.old (key_of t ++ more) (key_of (opened_tree o) ++ behind)
            → Reported (holds t (opened_tree o)) (EndsInside object self.new more behind) result }
        ensures walks { Walks self.old self.new result }
    {
        let Some((mine, ours)) = self.ours.split_first() else {
            return Err(NoKey);
        };
        let Some((other, theirs)) = self.theirs.split_first() else {
            return Err(NoKey);
        };
        if *mine != *other {
            return Ok(false);
        }
        let Some(inner) = self.depth.checked_sub(1) else {
            return Err(NoKey);
        };
        self.depth = inner;
        self.ours = ours;
        self.theirs = theirs;
        let found = self.has_open(object)?;
        self.depth += 1;
        Ok(found)
    }

    // Whether what is left of the object, or of the array, holds all of the other.
    #[inline(always)]
    #[cycle(walk)]
    fn has_open(&mut self, object: bool) -> Result<bool, NoKey>
        ensures held { (depth : ℕ) → self.old.depth ≡ depth → depth ≤ 511 → (a b : Open) → is_object a ≡ object
            → is_object b ≡ object → IsReadableAt (suc depth) (opened_tree a)
            → IsReadableAt (suc depth) (opened_tree b) → (more behind : List ℕ)
            → Occurs self.old (open_key a ++ more) (open_key b ++ behind)
            → Reported (holds (opened_tree a) (opened_tree b)) (EndsInside object self.new more behind) result }
        ensures walks { Walks self.old self.new result }
    {
        if object {
            self.has_members()
        } else {
            self.has_items()
        }
    }

    // Whether the members hold the others. Both are in the order of their names.
    #[inline(never)]
    #[cycle(walk)]
    fn has_members(&mut self) -> Result<bool, NoKey>
        ensures held { ReportsHeld 511 HaveReadableAt members_key holds_members (EndsInside true self.new) self.old
            result }
        ensures walks { Walks self.old self.new result }
    {
        'members: loop {
            if let Some(theirs) = after_end(true, self.theirs) {
                self.theirs = theirs;
                self.in_object = true;
                return Ok(true);
            }
            if !self.find_member()? {
                return Ok(false);
            }
            if !self.has_value()? {
                return Ok(false);
            }
        }
    }

    // Whether the items hold the others.
    #[inline(never)]
    #[cycle(walk)]
    fn has_items(&mut self) -> Result<bool, NoKey>
        ensures held { ReportsHeld 511 AreReadableAt items_key holds_items (EndsInside false self.new) self.old result }
        ensures walks { Walks self.old self.new result }
    {
        let items = self.ours.len();
        'others: loop {
            if let Some(theirs) = after_end(false, self.theirs) {
                self.theirs = theirs;
                self.in_object = false;
                return Ok(true);
            }
            if !self.has_item(items)? {
                return Ok(false);
            }
        }
    }

    // Whether one of the items holds the other value. The key ends with the items and what follows, so many bytes.
    #[inline(always)]
    #[cycle(walk)]
    fn has_item(&mut self, items: usize) -> Result<bool, NoKey>
        ensures held { (depth : ℕ) → self.old.depth ≡ depth → depth ≤ 511 → (ts : Trees) → (u : Tree)
            → AreReadableAt depth ts → IsReadableAt depth u → (more behind : List ℕ)
            → EndsWith self.old.key.now (items_key ts ++ more)
            → items ≡ length (items_key ts ++ more)
            → IsLeft self.old.other.now self.old.theirs.now (key_of u ++ behind)
            → Reported (any_item (λ t. holds t u) ts) (OccursInside false self.new more behind) result }
        ensures walks { Walks self.old self.new result }
    {
        let Some((first, _)) = self.theirs.split_first() else {
            return Err(NoKey);
        };
        if opening(*first).is_none() {
            self.ours = last_bytes(self.key, items);
            return self.has_scalar_item();
        }
        let wanted = self.theirs.len();
        let mut item = items;
        'items: loop {
            self.ours = last_bytes(self.key, item);
            if is_over(false, self.ours) {
                return Ok(false);
            }
            if self.has_value()? {
                return Ok(true);
            }
            let Some(others) = self.behind_item(item) else {
                return Err(NoKey);
            };
            item = others;
            self.theirs = last_bytes(self.other, wanted);
        }
    }

    // Whether one of our items is their scalar.
    #[inline(never)]
    fn has_scalar_item(&mut self) -> Result<bool, NoKey>
        ensures held { (depth levels : ℕ) → depth ≤ 511 → (ts : Trees) → (u : Tree) → AreReadableAt depth ts
            → IsReadableAt levels u → IsScalar u → (more behind : List ℕ)
            → Occurs self.old (items_key ts ++ more) (key_of u ++ behind)
            → Reported (any_item (λ t. holds t u) ts) (OccursInside false self.new more behind) result }
        ensures keys { SameKeys self.old self.new }
        ensures passed { IsPassed self.old self.new result }
    {
        let Some(theirs) = after_scalar(self.theirs) else {
            return Err(NoKey);
        };
        let wanted = front(self.theirs, theirs);
        'items: while !is_over(false, self.ours) {
            if let Some(ours) = self.ours.strip_prefix(wanted) {
                self.ours = ours;
                self.theirs = theirs;
                return Ok(true);
            }
            let Some(ours) = after_key(self.ours) else {
                return Err(NoKey);
            };
            self.ours = ours;
        }
        Ok(false)
    }

    // Whether our value is their scalar.
    #[inline(never)]
    fn has_equal(&mut self) -> Result<bool, NoKey>
        ensures held { (depth levels : ℕ) → (t u : Tree) → IsReadableAt depth t → IsReadableAt levels u → IsScalar u
            → (more behind : List ℕ) → Occurs self.old (key_of t ++ more) (key_of u ++ behind)
            → Reported (holds t u) (Occurs self.new more behind) result }
        ensures keys { SameKeys self.old self.new }
        ensures passed { IsPassed self.old self.new result }
    {
        let Some(theirs) = after_scalar(self.theirs) else {
            return Err(NoKey);
        };
        let Some(ours) = self.ours.strip_prefix(front(self.theirs, theirs)) else {
            return Ok(false);
        };
        self.ours = ours;
        self.theirs = theirs;
        Ok(true)
    }

    // Whether one of our members has the name of their first one. Both go on with the values then.
    #[inline(never)]
    fn find_member(&mut self) -> Result<bool, NoKey>
        ensures found { (depth : ℕ) → depth ≤ 511 → (ms : Members) → HaveReadableAt depth ms → (name : List ℕ)
            → (more behind : List ℕ) → Occurs self.old (members_key ms ++ more) (text_key name ++ behind)
            → FindsMember depth ms name self.new more behind result }
        ensures keys { SameKeys self.old self.new }
        ensures within { IfOk result (λ found. IsTrue found → length self.new.theirs.now ≤ length self.old.theirs.now) }
    {
        let Some(theirs) = after_text(self.theirs) else {
            return Err(NoKey);
        };
        let name = front(self.theirs, theirs);
        'members: while !is_over(true, self.ours) {
            let (order, value) = compare_names(self.ours, name);
            match order {
                Ordering::Less => {}
                Ordering::Equal => {
                    self.ours = value;
                    self.theirs = theirs;
                    return Ok(true);
                }
                Ordering::Greater => return Ok(false),
            }
            let Some(value) = after_text(self.ours) else {
                return Err(NoKey);
            };
            let Some(ours) = after_key(value) else {
                return Err(NoKey);
            };
            self.ours = ours;
        }
        Ok(false)
    }

    // Passes what is left of our object or array.
    #[inline(never)]
    fn close(&mut self) -> Result<(), NoKey>
        ensures closed { (object : Bool) → (more behind : List ℕ) → EndsInside object self.old more behind
            → (result ≡ Ok tt) × Occurs self.new more behind }
        ensures keys { SameKeys self.old self.new }
        ensures theirs { self.new.theirs.now ≡ self.old.theirs.now }
    {
        let Some(ours) = behind(self.in_object, self.ours) else {
            return Err(NoKey);
        };
        self.ours = ours;
        Ok(())
    }

    // How many bytes of our key are behind the item with which so many of the last ones begin.
    #[inline(never)]
    fn behind_item(&self, item: usize) -> Option<usize>
        ensures found { (t : Tree) → IsReadable t → (more : List ℕ) → EndsWith self.now.key.now (key_of t ++ more)
            → item ≡ length (key_of t ++ more) → result ≡ Some (length more) }
        ensures shorter { IfSome result (λ others. others < item) }
    {
        let others = after_key(last_bytes(self.key, item))?;
        Some(others.len())
    }
}

// How the name whose key the bytes begin with compares with the one of this key, and what is behind it where they
// are equal.
fn compare_names<'k>(bytes: &'k [u8], name: &[u8]) -> (Ordering, &'k [u8])
    ensures compares { (text more wanted : List ℕ) → bytes.now ≡ text_key text ++ more → name.now ≡ text_key wanted
        → ReportsOrder (bytes_cmp text wanted) more result }
{
    match bytes.split_at_checked(name.len()) {
        Some((head, rest)) => (head.cmp(name), rest),
        None => (bytes.cmp(name), bytes),
    }
}

// The bytes behind an object or an array, of which the bytes begin with some of its parts.
fn behind(object: bool, parts: &[u8]) -> Option<&[u8]>
    ensures { AtParts object parts.now (λ o more. Leaves result more) }
{
    match after_end(object, parts) {
        Some(rest) => Some(rest),
        None => after_parts(object, parts),
    }
}

// So many of the last bytes.
fn last_bytes(bytes: &[u8], len: usize) -> &[u8]
    ensures last { (rest : List ℕ) → EndsWith bytes.now rest → len ≡ length rest → result.now ≡ rest }
    ensures within { length result.now ≤ len }
{
    match bytes.len().checked_sub(len) {
        Some(before) => {
            let (_, last) = bytes.split_at(before);
            last
        }
        None => bytes,
    }
}
