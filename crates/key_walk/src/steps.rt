//! All that is in an array or an object, one step after the other.

ghost use Rattle.std.specs.Prelude.{◌≡◌, ◌≢◌, ◌<◌, ◌≤◌, ◌+◌, ◌++◌, ◌∷◌, [], List, ℕ, length, IfErr, IfOk, IfSome, OnOk};
ghost use Rattle.jsonb_spec.specs.SortKey.Open.{Open, is_object, open_key, IsOpen};

use crate::find::NoKey;
use crate::part::{Part, ScalarPart, read_part};
use crate::skip::{MAX_DEPTH, kind_at, outermost};

/// A walk over all that is in an array or an object: the arrays and objects that are open, and the bytes that are left.
#[derive(Drop)]
pub struct Steps<'k> {
    /// Which of those that are open are objects, outermost first.
    pub objects: [bool; MAX_DEPTH],
    /// How many are open.
    pub depth: usize,
    /// What is left of the key.
    pub rest: &'k [u8],
    ghost sized: { length objects ≡ 512 },
    ghost deep: { depth ≤ 512 },
}

/// What a step passes.
#[derive(Clone, Copy)]
pub enum Step<'k> {
    /// The end of an array or an object; or the beginning of one, and the name before it.
    Edge,
    /// Another value, and the name before it.
    Scalar(ScalarPart<'k>),
}

impl<'k> Steps<'k> {
    ghost use Rattle.key_walk.specs.Steps.{IsAmid, IsWithin, StepsOver};

    /// The walk over the parts of an array or an object, which the bytes begin with.
    #[inline(always)]
    pub fn over(object: bool, parts: &'k [u8]) -> Steps<'k>
        ensures begun { (o : Open) → is_object o ≡ object → IsOpen o 511 → (more : List ℕ)
            → parts.entry.now ≡ open_key o ++ more → IsAmid (o ∷ []) more result }
        ensures rest { result.rest.now ≡ parts.entry.now }
        ensures depth { result.depth ≡ 1 }
    {
        Steps {
            objects: outermost(object),
            depth: 1,
            rest: parts,
        }
    }

    /// The next step; `None` behind the end of the array or the object.
    ///
    /// # Errors
    ///
    /// `NoKey` only where the bytes aren't parts of one.
    #[inline(always)]
    pub fn next(&mut self) -> Result<Option<Step<'k>>, NoKey>
        ensures steps { (opens : List Open) → (more : List ℕ) → IsAmid opens more self.old
            → StepsOver opens more self.old result self.new }
        ensures shorter { IfOk result (λ step. IfSome step (λ _. length self.new.rest.now < length self.old.rest.now)) }
    {
        let Some(top) = self.depth.checked_sub(1) else {
            return Ok(None);
        };
        match read_part(kind_at(&self.objects, top), self.rest)? {
            Part::End(after) => {
                self.depth = top;
                self.rest = after;
                Ok(Some(Step::Edge))
            }
            Part::Opening(opened) => {
                self.open(opened.object, opened.parts)?;
                Ok(Some(Step::Edge))
            }
            Part::Scalar(part) => {
                self.rest = part.after;
                Ok(Some(Step::Scalar(part)))
            }
        }
    }

    // Goes on with the parts of an array or an object.
    #[inline(always)]
    fn open(&mut self, object: bool, parts: &'k [u8]) -> Result<(), NoKey>
        ensures opened { OnOk result (IsWithin object parts.entry.now self.old self.new) }
        ensures full { IfErr result (λ _. self.old.depth ≡ 512) }
    {
        if self.depth == MAX_DEPTH {
            return Err(NoKey);
        }
        self.objects[self.depth] = object;
        self.depth += 1;
        self.rest = parts;
        Ok(())
    }
}
