//! How deep a value is.

ghost use Rattle.std.specs.Prelude.{◌<◌, ◌≤◌};
ghost use Rattle.jsonb_spec.specs.SortKey.Readable.{IsAnyNumber};
ghost use Rattle.jsonb_spec.specs.SortKey.AtKeys.{AtKey, AtParts};
ghost use Rattle.jsonb_spec.specs.Text.Range.{IsWithin};
ghost use Rattle.key_edit.specs.Edit.{ReportsWhether};
ghost use Rattle.key_edit.specs.Spots.{OpenWithin};

use key_walk::find::NoKey;
use key_walk::skip::opening;
use key_walk::steps::Steps;

/// Whether the value whose key this is has at most so many arrays and objects in one another.
pub(crate) fn fits(key: &[u8], depth_left: usize) -> Result<bool, NoKey>
    requires { depth_left ≤ 511 }
    ensures { AtKey key.now (λ t more. ReportsWhether (IsWithin IsAnyNumber t depth_left) result) }
{
    let Some((first, parts)) = key.split_first() else {
        return Err(NoKey);
    };
    match opening(*first) {
        Some(object) => match depth_left.checked_sub(1) {
            Some(inner) => parts_fit(object, parts, inner),
            None => Ok(false),
        },
        None => Ok(true),
    }
}

// Whether the parts of an object or an array have at most so many arrays and objects in one another.
fn parts_fit(object: bool, bytes: &[u8], inner: usize) -> Result<bool, NoKey>
    requires { inner < 511 }
    ensures { AtParts object bytes.now (λ o more. ReportsWhether (OpenWithin o inner) result) }
{
    let mut steps = Steps::over(object, bytes);
    'steps: while let Some(_) = steps.next()? {
        if steps.depth > inner + 1 {
            return Ok(false);
        }
    }
    Ok(true)
}
