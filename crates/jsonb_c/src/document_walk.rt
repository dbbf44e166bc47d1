//! A walk over all that is in a document, one event after the other, in the order of its key.
//!
//! Any bytes are safe to pass, and any walk. What a call reports is promised for the documents of values of JSON's
//! kinds with at most 512 nested arrays and objects, and for a walk that these calls put there; of other bytes it may
//! be `NO_DOCUMENT` or any event within them.
ghost use Rattle.std.specs.Prelude.{◌≡◌, ◌≢◌, ◌⊎◌, ◌<◌, ◌≤◌, ◌+◌, List, None, length};
ghost use Rattle.jsonb_spec.specs.Interface.Document.{IsTreeDocument};
ghost use Rattle.jsonb_c.specs.DocumentWalk.{event_of, EventWithin, MeetsEvent, MovesTo, SkipsOpen};
ghost use Rattle.jsonb_spec.specs.Tree.{Tree};
ghost use Rattle.jsonb_spec.specs.Document.Walk.{events_left};
ghost use Rattle.key_document.specs.Walk.{IsWalkAt};
ghost use Rattle.jsonb_spec.specs.SortKey.Events.{events_of};
ghost use Rattle.jsonb_spec.specs.SortKey.Open.{Open};

use crate::key::{NO_KIND, kind_number};
use crate::{ACCEPTED, NO_DOCUMENT, NO_PART};
use key_document::{Met, Walk, begin_walk, move_to_member, next_event, skip_open};

/// What a walk meets.
#[repr(C)]
#[derive(Clone, Copy)]
pub struct Event {
    /// The kind of the value that begins, or `NO_KIND` for an end.
    pub kind: u32,
    /// How many zeros end a number.
    pub zeros: u32,
    /// Where in the key the name of a member is, as a text. An item has none, and the size of that is 0.
    pub name_offset: usize,
    pub name_size: usize,
    /// Where in the key the value is; of an array or an object where it begins, with the size 0.
    pub offset: usize,
    pub size: usize,
}

const NO_EVENT: Event = Event {
    kind: NO_KIND,
    zeros: 0,
    name_offset: 0,
    name_size: 0,
    offset: 0,
    size: 0,
};

/// Begins a walk over a document, and reports the first event: that the value itself begins.
#[unsafe(no_mangle)]
pub extern "C" fn vizhoniku_walk_begin(document: &[u8], walk: &mut Walk, event: &mut Event) -> u32
    ensures status { (result ≡ ACCEPTED) ⊎ (result ≡ NO_DOCUMENT) }

    // The first event of the value is reported, and the walk is before the others.
    ensures met { (t : Tree) → IsTreeDocument document.now t
        → MeetsEvent t (events_of None t) result event.new walk.new }
    ensures no_event { result ≢ ACCEPTED → (event.new ≡ NO_EVENT) × (walk.new.depth ≡ 0) }
    ensures within { EventWithin document.now event.new }
{
    match begin_walk(document, walk) {
        Ok(met) => {
            *event = event_of(met);
            ACCEPTED
        }
        Err(_) => {
            *event = NO_EVENT;
            NO_DOCUMENT
        }
    }
}

/// Reports the next event, and moves the walk behind it.
#[unsafe(no_mangle)]
pub extern "C" fn vizhoniku_walk_next(document: &[u8], walk: &mut Walk, event: &mut Event) -> u32
    ensures status { (result ≡ ACCEPTED) ⊎ (result ≡ NO_PART) ⊎ (result ≡ NO_DOCUMENT) }

    // The first event that is left is reported, and the walk is before the others; or none is left.
    ensures met { (t : Tree) → IsTreeDocument document.now t → (opens : List Open) → IsWalkAt t opens walk.old
        → MeetsEvent t (events_left opens) result event.new walk.new }

    // Of any bytes and any walk the ranges lie within the bytes, and the walk moves only where an event is reported.
    ensures within { EventWithin document.now event.new }
    ensures still { result ≢ ACCEPTED → (walk.new ≡ walk.old) × (event.new ≡ NO_EVENT) }
    ensures further { result ≡ ACCEPTED → walk.old.offset < walk.new.offset }
{
    match next_event(document, walk) {
        Ok(Some(met)) => {
            *event = event_of(met);
            ACCEPTED
        }
        Ok(None) => {
            *event = NO_EVENT;
            NO_PART
        }
        Err(_) => {
            *event = NO_EVENT;
            NO_DOCUMENT
        }
    }
}

/// Moves the walk behind the innermost array or object that is open.
#[unsafe(no_mangle)]
pub extern "C" fn vizhoniku_walk_skip(document: &[u8], walk: &mut Walk) -> u32
    ensures status { (result ≡ ACCEPTED) ⊎ (result ≡ NO_PART) ⊎ (result ≡ NO_DOCUMENT) }

    // What is left of the innermost is passed, and its end; or nothing is open.
    ensures skipped { (t : Tree) → IsTreeDocument document.now t → (opens : List Open) → IsWalkAt t opens walk.old
        → SkipsOpen t opens result walk.new }
    ensures still { result ≢ ACCEPTED → walk.new ≡ walk.old }
{
    match skip_open(document, walk) {
        Ok(true) => ACCEPTED,
        Ok(false) => NO_PART,
        Err(_) => NO_DOCUMENT,
    }
}

/// Moves the walk before the next member of this name, of the innermost object that is open.
#[unsafe(no_mangle)]
pub extern "C" fn vizhoniku_walk_member(document: &[u8], walk: &mut Walk, name: &[u8]) -> u32
    ensures status { (result ≡ ACCEPTED) ⊎ (result ≡ NO_PART) ⊎ (result ≡ NO_DOCUMENT) }

    // The walk is before the first member whose name isn't below this one, and it is said whether that has the name.
    ensures moved { (t : Tree) → IsTreeDocument document.now t → (opens : List Open) → IsWalkAt t opens walk.old
        → MovesTo t name.now opens result walk.old walk.new }
    ensures still { result ≡ NO_DOCUMENT → walk.new ≡ walk.old }
{
    let Ok(found) = move_to_member(document, walk, name) else {
        return NO_DOCUMENT;
    };
    if found { ACCEPTED } else { NO_PART }
}

// The event of what is met.
fn event_of(met: Met) -> Event
    ensures { result ≡ event_of met }
{
    Event {
        kind: kind_number(met.kind),
        zeros: u32::from(met.zeros),
        name_offset: met.name_offset,
        name_size: met.name_size,
        offset: met.offset,
        size: met.size,
    }
}
