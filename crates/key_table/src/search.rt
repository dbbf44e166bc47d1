//! Members found by a table.

ghost use Rattle.std.specs.Prelude.{◌≡◌, ◌<◌, ◌≤◌, ◌+◌, ◌-◌, ◌*◌, ◌/◌, ◌^◌, ◌++◌, List, ℕ, length, IfOk, IfSome};
ghost use Rattle.jsonb_spec.specs.SortKey.AtKeys.{Leaves};
ghost use Rattle.jsonb_spec.specs.SortKey.Front.{AreNoZeros};
ghost use Rattle.key_walk.specs.Fronts.{IsFront};
ghost use Rattle.key_table.specs.Results.{FindsByTable, GivesRange};
ghost use Rattle.jsonb_spec.specs.Table.{in_two};

use crate::entry::{behind, entry_count, two_at};
use key_walk::find::NoKey;
use key_walk::names::{Front, NO_FRONT, after_front, compare_wanted, front_of, front_of_four};
use std::cmp::Ordering;

// How many bytes a name has at most whose front is its whole key.
const SHORT: usize = 6;

/// The offset and the size in the key of the value of the member of that name, which is found by halves in the table of
/// the object; `None` where there is no such member.
///
/// # Errors
///
/// `NoKey` only where the bytes are no key, or the others aren't its table.
pub fn find_by_table(key: &[u8], table: &[u8], name: &[u8]) -> Result<Option<(usize, usize)>, NoKey>
    ensures finds { FindsByTable key.now table.now name.now result }
{
    let front = some_front_of(name);
    let mut next = NO_FRONT;
    let mut low: usize = 0;
    let mut high = entry_count(table.len());
    'halves: while low < high {
        let middle = (low + high) / 2;
        let Some(member) = behind(key, two_at(table, 2 * middle)) else {
            return Err(NoKey);
        };
        match compare_wanted::<false>(front, &mut next, name, member) {
            Ordering::Less => high = middle,
            Ordering::Greater => low = middle + 1,
            Ordering::Equal => {
                let end = end_of(key.len(), table, middle);
                return range_to(end, key, after_front(front, member));
            }
        }
    }
    Ok(None)
}

// A front of the name: of a long one that of 4 bytes.
#[inline(always)]
fn some_front_of(name: &[u8]) -> Front
    ensures front { IsFront name.now result }
    ensures plain { result.size ≡ 0 → result.low ≡ 0 → AreNoZeros name.now 7 }
{
    if name.len() > SHORT {
        if let Some(front) = front_of_four(name) {
            return front;
        }
    }
    front_of(name)
}

// Where the member of this entry ends in a key of this size: where the next one begins, or before the object's end.
#[inline(always)]
fn end_of(key_size: usize, table: &[u8], entry: usize) -> usize
    requires { entry < (length table.now - 3) / 2 }
    ensures next { entry + 1 < (length table.now - 3) / 2 → (before more : List ℕ) → (number : ℕ) → number < 2 ^ 16
        → length before ≡ 2 * entry + 2 → table.now ≡ before ++ (in_two number ++ more) → result ≡ number }
    ensures last { entry + 1 ≡ (length table.now - 3) / 2 → result ≡ key_size - 2 }
{
    let next = entry + 1;
    if next < entry_count(table.len()) {
        return two_at(table, 2 * next);
    }
    key_size.saturating_sub(2)
}

// The offset and the size of what is in the key before this end, and from these last bytes on.
#[inline(always)]
fn range_to(end: usize, key: &[u8], last: Option<&[u8]>) -> Result<Option<(usize, usize)>, NoKey>
    ensures found { (before bytes more : List ℕ) → key.now ≡ before ++ (bytes ++ more)
        → Leaves last.entry (bytes ++ more) → end + length more ≡ length key.now → GivesRange key.now bytes result }
    ensures within { IfOk result (λ answer. IfSome answer (λ r. r.0 + r.1 ≤ length key.now)) }
{
    let Some(last) = last else {
        return Err(NoKey);
    };
    let Some(offset) = key.len().checked_sub(last.len()) else {
        return Err(NoKey);
    };
    if end > key.len() || end < offset {
        return Err(NoKey);
    }
    Ok(Some((offset, end - offset)))
}
