//! What the bytes begin with, which are left of an array or an object.

ghost use Rattle.std.specs.Prelude.{◌≡◌, ◌++◌, List, ℕ, IfOk};
ghost use Rattle.key_walk.specs.NextPart.{BeginsWithPart, IsPartOf};
ghost use Rattle.jsonb_spec.specs.SortKey.Open.{Open, is_object, open_key, IsOpen};

use crate::find::NoKey;
use crate::skip::{after_end, after_name, after_scalar, opening};
use crate::walk::{Kind, kind_of};

/// A value that is neither an array nor an object.
#[derive(Clone, Copy)]
pub struct ScalarPart<'k> {
    /// Whether it is of a member.
    pub is_member: bool,
    /// Its kind.
    pub kind: Kind,
    /// The first byte of its key.
    pub first: u8,
    /// The bytes from the member's name on, or from the item on.
    pub part: &'k [u8],
    /// Those from its key on.
    pub value: &'k [u8],
    /// Those behind it.
    pub after: &'k [u8],
}

/// An array or an object that begins.
#[derive(Clone, Copy)]
pub struct Opened<'k> {
    /// Which of the two.
    pub object: bool,
    /// The bytes from its key on, which is behind the name of a member.
    pub value: &'k [u8],
    /// Those from the first of its parts on.
    pub parts: &'k [u8],
}

/// What the bytes of an array or an object begin with.
#[derive(Clone, Copy)]
pub enum Part<'k> {
    /// Its end, and the bytes behind that.
    End(&'k [u8]),
    /// A part that is an array or an object.
    Opening(Opened<'k>),
    /// Another part.
    Scalar(ScalarPart<'k>),
}

/// What the bytes begin with, which are left of an object or an array.
///
/// # Errors
///
/// `NoKey` only where the bytes aren't left of one.
#[inline(always)]
pub fn read_part(object: bool, bytes: &[u8]) -> Result<Part<'_>, NoKey>
    ensures next { (o : Open) → is_object o ≡ object → (left : ℕ) → IsOpen o left → (more : List ℕ)
        → bytes.now ≡ open_key o ++ more → BeginsWithPart o left more bytes.now result }
    ensures within { IfOk result (IsPartOf bytes.now) }
{
    if let Some(after) = after_end(object, bytes) {
        return Ok(Part::End(after));
    }
    let Some(value) = after_name(object, bytes) else {
        return Err(NoKey);
    };
    let Some((first, parts)) = value.split_first() else {
        return Err(NoKey);
    };
    if let Some(object) = opening(*first) {
        return Ok(Part::Opening(Opened {
            object,
            value,
            parts,
        }));
    }
    let Some(kind) = kind_of(value) else {
        return Err(NoKey);
    };
    let Some(after) = after_scalar(value) else {
        return Err(NoKey);
    };
    Ok(Part::Scalar(ScalarPart {
        is_member: object,
        kind,
        first: *first,
        part: bytes,
        value,
        after,
    }))
}
