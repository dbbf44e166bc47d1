//! Dropping a value that nests deep within little machine stack.
use super::{Object, Value};

// A value that nests no deeper is dropped as it is.
const FEW_LEVELS: usize = 32;

impl Value<'_> {
    /// Drops the value. Where arrays and objects nest deep in it, this takes less machine stack than letting it go
    /// does: some 200 bytes for each level of them, however many members the objects have.
    ///
    /// The time is linear in the value, and nothing is allocated.
    ///
    /// ```
    /// let value = jsonb::parse_value(rt.alloc(), b"[[[[]]]]")?;
    /// value.dismantle();
    /// ```
    pub fn dismantle(self) {
        if nests_deeper(&self, FEW_LEVELS) {
            self.take_apart();
        }
    }

    // Drops the value, each object from its end.
    #[inline(always)]
    #[cycle(take_apart)]
    fn take_apart(self) {
        match self {
            Value::Array(items) => take_items_apart(items),
            Value::Object(members) => take_members_apart(members),
            scalar => drop(scalar),
        }
    }
}

#[inline(never)]
#[cycle(take_apart)]
fn take_items_apart(mut items: Vec<Value>) {
    'items: while let Some(item) = items.pop() {
        item.take_apart();
    }
}

// A map's own drop takes much more machine stack than this one, for each object inside.
#[inline(never)]
#[cycle(take_apart)]
fn take_members_apart(mut members: Object) {
    'members: while let Some((key, value)) = members.pop_last() {
        drop(key);
        value.take_apart();
    }
    members.destroy_empty();
}

// Whether more than so many arrays and objects are in one another. Inlined into the loops, so that only containers
// are calls there.
#[inline(always)]
#[cycle(nests_deeper)]
fn nests_deeper(value: &Value, levels: usize) -> bool {
    match value {
        Value::Array(items) => levels == 0 || items_nest_deeper(items, levels - 1),
        Value::Object(members) => levels == 0 || members_nest_deeper(members, levels - 1),
        _ => false,
    }
}

#[cycle(nests_deeper)]
fn items_nest_deeper(items: &Vec<Value>, levels: usize) -> bool {
    'items: for item in items {
        if nests_deeper(item, levels) {
            return true;
        }
    }
    false
}

#[cycle(nests_deeper)]
fn members_nest_deeper(members: &Object, levels: usize) -> bool {
    'members: for (_, value) in members.iter() {
        if nests_deeper(value, levels) {
            return true;
        }
    }
    false
}
