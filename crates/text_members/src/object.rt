//! The members of one object: their keys, and where their bytes are.
ghost use Rattle.std.specs.Prelude.{◌≡◌, ◌≤◌, length};
ghost use Rattle.text_members.specs.Bytes.{AreBytes};

use crate::members::Member;

/// The members of an object, and what their keys are in: the text, and the keys that were decoded.
#[derive(Clone, Copy)]
pub struct Keys<'m> {
    pub text: &'m [u8],
    pub decoded: &'m [u8],
    pub members: &'m [Member],
    pub ghost text_bytes: { AreBytes text.now },
    pub ghost decoded_bytes: { AreBytes decoded.now },
}

impl<'m> Keys<'m> {
    /// The members with their keys.
    #[inline(always)]
    pub fn new(text: &'m [u8], decoded: &'m [u8], members: &'m [Member]) -> Keys<'m>
        ensures text { result.text ≡ text.entry }
        ensures decoded { result.decoded ≡ decoded.entry }
        ensures members { result.members ≡ members.entry }
    {
        Keys {
            text,
            decoded,
            members,
        }
    }
}

/// Where members are put in order: the first `floor` bytes that are written stay, and commas are between members or
/// not. What is written from the index `copied` on was copied from `source`.
#[derive(Clone, Copy)]
pub struct Site<'m> {
    pub floor: usize,
    pub commas: bool,
    pub copied: usize,
    pub source: &'m [u8],
}

/// The bytes of an object's members in the order of the text: the first `count` of these, of which the first one is
/// at the index `first` of what is written. Commas are between them or not.
#[derive(Clone, Copy)]
pub struct Pieces<'m> {
    pub members: &'m [Member],
    pub bytes: &'m [u8],
    pub count: usize,
    pub first: usize,
    pub commas: bool,
    pub ghost within: { count ≤ length bytes.now },
}
