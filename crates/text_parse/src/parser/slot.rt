//! Where a value goes: an element of an array, a member of an object, or the value of a text.
ghost use Rattle.std.specs.Prelude.{◌≡◌, ℕ, Bool, List, MatchBool, true, false, IfErr, IfOk};
ghost use Rattle.jsonb_spec.specs.Source.{Source};
ghost use Rattle.text_parse.specs.Scalars.{IsGiven};
ghost use Rattle.text_parse.specs.Slots.{Takes, TakesPart};
ghost use Rattle.text_parse.specs.Steps.{IsRoot};
ghost use Rattle.text_parse.specs.declared.parser.frame.Frame.{Frame};
ghost use Rattle.text_parse.specs.declared.parser.frame.Frame.TheVariants.{Array, Object};

use super::frame::{Frame, OpenObject};
use super::handler::Handler;
use std::alloc::AllocError;

// A slot for a value that holds no others.
pub(super) trait Slot<'a, V: Handler<'a>>: Drop + Sized {
    // What is held of what the value is put into.
    type Container;

    // From a sink, a container and the slot to what they are then, this source of this text was put in.
    ghost takes: { V.Sink → Self.Container → Self → V.Sink → Self.Container → List ℕ → Source → Type 0 };

    // Whether it takes memory to put in a value.
    ghost writes: { Bool };

    // Puts in a value that is in the text between two indices, or one that is held. False where its key is there
    // already, and the handler is silent about it.
    fn put(
        self,
        sink: &mut V::Sink,
        container: &mut Self::Container,
        value: V,
        from: usize,
        to: usize,
    ) -> Result<bool, AllocError>
        ensures put { IfOk result (λ is_new. MatchBool is_new (Takes (IsGiven V.sees V.is_verbatim value from to)
            (takes sink.old container.old self sink.new container.new)) (V.silent ≡ true)) }
        ensures memory { IfErr result (λ _. writes ≡ true) }
        ensures base { V.base sink.new ≡ V.base sink.old };
}

// The next element of an array.
#[derive(Drop)]
pub(super) struct Element;

// The member of an object that has this key.
#[derive(Drop)]
pub(super) struct Member<K> {
    pub(super) key: K,
}

// The value of a text, which is put in where the text ends.
#[derive(Drop)]
pub(super) struct Root;

// A scalar as it is given to be put in, with its indices in the text.
#[derive(Drop)]
pub(super) struct Given<V> {
    pub(super) value: V,
    pub(super) from: usize,
    pub(super) to: usize,
}

impl<'a, V: Handler<'a>> Slot<'a, V> for Element {
    type Container = V::Items;

    ghost takes = { λ sink items slot filled more. TakesPart V.holds sink (Array items) filled (Array more) };

    ghost writes = { true };

    #[inline(always)]
    fn put(
        self,
        sink: &mut V::Sink,
        items: &mut V::Items,
        value: V,
        from: usize,
        to: usize,
    ) -> Result<bool, AllocError> {
        match V::push(sink, items, value, from, to) {
            Ok(()) => Ok(true),
            Err(failed) => Err(failed),
        }
    }
}

impl<'a, V: Handler<'a>> Slot<'a, V> for Member<V::Key> {
    type Container = OpenObject<V::Members, V::Key>;

    ghost takes = { λ sink object slot filled more. TakesPart V.holds sink (Object (record { members = object.members; key = slot.key })) filled (Object more) };

    ghost writes = { true };

    #[inline(always)]
    fn put(
        self,
        sink: &mut V::Sink,
        object: &mut OpenObject<V::Members, V::Key>,
        value: V,
        from: usize,
        to: usize,
    ) -> Result<bool, AllocError> {
        V::insert(sink, object, self.key, value, from, to)
    }
}

impl<'a, V: Handler<'a>> Slot<'a, V> for Root {
    type Container = Given<V>;

    ghost takes = { λ sink given slot same root text s. (same ≡ sink) × IsRoot V.Handler root text s };

    ghost writes = { false };

    #[inline(always)]
    fn put(
        self,
        sink: &mut V::Sink,
        root: &mut Given<V>,
        value: V,
        from: usize,
        to: usize,
    ) -> Result<bool, AllocError> {
        *root = Given { value, from, to };
        Ok(true)
    }
}
