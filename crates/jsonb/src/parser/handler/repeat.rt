//! A key that comes twice in an object, as an error.
ghost use Rattle.std.specs.Prelude.{ℕ, List, false};
ghost use Rattle.text_parse.specs.Handler.{Misses};
ghost use Rattle.text_parse.specs.Stack.{object_end};
ghost use Rattle.jsonb_spec.specs.Source.{Found};
ghost use Rattle.text_members.specs.OpenMembers.{ReportsRepeatOf};

use jsonb_core::error::{Error, ParseErrorCode};
use std::alloc::Global;
use text_members::open_members::{OpenMembers, Repeat};

// Reports the least key that comes twice, and where it comes the second time.
#[cold]
#[inline(never)]
pub(super) fn report_repeat(
    members: &OpenMembers,
    alloc: Global,
    repeat: &Repeat,
    reported: &mut Option<Error>,
)
    ensures { (fs : List Found) → (rest : List ℕ) → ReportsRepeatOf members.now fs repeat.now
        → Misses false reported.new (object_end fs rest) }
{
    let Some((key, offset)) = members.repeated(repeat) else {
        return;
    };
    *reported = match String::from_str(alloc, key) {
        Ok(key) => Some(Error::Syntax(ParseErrorCode::ObjectDuplicateKey(key), offset)),
        Err(_) => Some(Error::OutOfMemory),
    };
}
