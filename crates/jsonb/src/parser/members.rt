//! The members of an object: their order, and repeated keys.
ghost use Rattle.std.specs.Prelude.{◌≡◌, map, ℕ, List, IsPermutation};
ghost use Rattle.text_scan.specs.Answer.{Gives};
ghost use Rattle.jsonb_spec.specs.Parsing.Container.{object_or_fault};
ghost use Rattle.jsonb_spec.specs.Source.{first_repeat, object_source, source_members_of, spot_of, spot_cmp, SpotsAreSorted};
ghost use Rattle.jsonb.specs.Source.{found_of};

use super::JsonAst;
use jsonb_core::error::{Error, ParseErrorCode, Result};
use std::alloc::Global;
use std::borrow::CowStr;
use std::cmp::Ordering;

// A key, its value, and the index after the key.
pub(super) type Member<'a> = (CowStr<'a>, JsonAst<'a>, usize);

// By the key's bytes, and then by the index after the key.
fn member_cmp(a: &Member, b: &Member) -> Ordering
    ensures { result ≡ spot_cmp (spot_of (found_of a.now)) (spot_of (found_of b.now)) }
{
    a.0.as_str()
        .as_bytes()
        .cmp(b.0.as_str().as_bytes())
        .then(a.2.cmp(&b.2))
}

fn sort_members(members: &mut Vec<Member>)
    ensures permutation { IsPermutation members.old.items members.new.items }
    ensures ascending { SpotsAreSorted (map spot_of (map found_of members.new.items)) }
{
    members.sort_unstable_by(member_cmp);
}

// Puts the members in the order of their keys, and reports a key that comes twice.
pub(super) fn settle_members(alloc: Global, members: &mut Vec<Member>) -> Result<()>
    ensures parses { (rest : List ℕ) → Gives
        (λ _. (object_source (source_members_of (map found_of members.new.items)), rest)) result
        (object_or_fault (first_repeat (map spot_of (map found_of members.old.items)))
        (map found_of members.old.items) rest) }
{
    sort_members(members);
    for i in 1..members.len() {
        let earlier = &members[i - 1];
        let later = &members[i];
        if earlier.0.as_str().as_bytes() == later.0.as_str().as_bytes() {
            let key = String::from_str(alloc, later.0.as_str())?;
            return Err(Error::Syntax(ParseErrorCode::ObjectDuplicateKey(key), later.2));
        }
    }
    Ok(())
}
