//! Members passed up to a name.

ghost use Rattle.std.specs.Prelude.{◌≡◌, ◌<◌, ◌≤◌, ◌++◌, List, ℕ, length, IfOk, IfSome, MatchOption, MatchResult};
ghost use Rattle.jsonb_spec.specs.Keys.{IsBelowKeys};
ghost use Rattle.jsonb_spec.specs.SortKey.{members_key, text_key};
ghost use Rattle.jsonb_spec.specs.Tree.{Members};
ghost use Rattle.jsonb_spec.specs.SortKey.AtKeys.{Leaves};
ghost use Rattle.jsonb_spec.specs.SortKey.Checked.{HaveReadable};
ghost use Rattle.key_walk.specs.Fronts.{IsKeyFront};
ghost use Rattle.key_walk.specs.Passing.{PassesBelow};

use crate::find::NoKey;
use crate::names::{Front, after_member_name, compare_key, key_front};
use crate::skip::{after_key, is_over};
use std::cmp::Ordering;

/// What is left of members behind those whose names are below another one.
#[derive(Clone, Copy)]
pub struct Passed<'k> {
    /// The members from the first one on whose name isn't below.
    pub rest: &'k [u8],
    /// What is behind the name of that one, where it is the same.
    pub same: Option<&'k [u8]>,
}

/// Passes the members whose names are below the one whose key the other bytes begin with. The answer is what is left of
/// them, and what is behind that name.
///
/// # Errors
///
/// `NoKey` where a name, a value or the end is missing.
pub fn pass_below<'k>(members: &'k [u8], other: &'k [u8]) -> Result<(Passed<'k>, &'k [u8]), NoKey>
    ensures passed { (ms : Members) → HaveReadable ms → (name more : List ℕ) → members.now ≡ members_key ms
        → other.now ≡ text_key name ++ more
        → MatchResult result (λ r. PassesBelow ms name r.0 × (r.1.now ≡ more)) (λ e. ⊥) }
    ensures within { IfOk result (λ r. (length r.0.rest.now ≤ length members.now) × (length r.1.now < length other.now)
        × IfSome r.0.same (λ value. length value.now ≤ length r.0.rest.now)) }
{
    let Some(value) = after_member_name(other) else {
        return Err(NoKey);
    };
    let size = other.len() - value.len();
    let (name, _) = other.split_at(size);
    let passed = pass_members(key_front(other, size), name, members)?;
    Ok((passed, value))
}

// Passes the members whose names are below the one with this key, which has this front.
#[inline(always)]
fn pass_members<'k>(front: Front, name: &[u8], members: &'k [u8]) -> Result<Passed<'k>, NoKey>
    requires { IsKeyFront name.now front }
    ensures passed { (ms : Members) → HaveReadable ms → (text : List ℕ) → members.now ≡ members_key ms
        → name.now ≡ text_key text → MatchResult result (PassesBelow ms text) (λ e. ⊥) }
    ensures within { IfOk result (λ r. (length r.rest.now ≤ length members.now)
        × IfSome r.same (λ value. length value.now ≤ length r.rest.now)) }
{
    let mut rest = members;
    'members: loop {
        match compare_key(front, name, rest) {
            Ordering::Less => return Ok(Passed { rest, same: None }),
            Ordering::Equal => {
                let Some(value) = behind(name, rest) else {
                    return Err(NoKey);
                };
                return Ok(Passed {
                    rest,
                    same: Some(value),
                });
            }
            Ordering::Greater => {}
        }
        let Some(value) = after_member_name(rest) else {
            if is_over(true, rest) {
                return Ok(Passed { rest, same: None });
            }
            return Err(NoKey);
        };
        let Some(others) = after_key(value) else {
            return Err(NoKey);
        };
        rest = others;
    }
}

// The bytes behind these, with which they begin.
#[inline(always)]
fn behind<'k>(first: &[u8], bytes: &'k [u8]) -> Option<&'k [u8]>
    ensures found { (more : List ℕ) → bytes.now ≡ first.now ++ more → Leaves result more }
    ensures within { IfSome result (λ rest. length rest.now ≤ length bytes.now) }
{
    if first.len() > bytes.len() {
        return None;
    }
    let (_, rest) = bytes.split_at(first.len());
    Some(rest)
}
