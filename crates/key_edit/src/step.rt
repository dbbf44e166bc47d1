//! Indices of items, as steps of paths encode them.

ghost use Rattle.std.specs.Prelude.{◌≡◌, ◌<◌, option_map, true, IfSome, IsTrue};
ghost use Rattle.jsonb_spec.specs.Edit.{back_named, step_named};

use jsonb_path::index_of;

// Whether the index counts from the end, and the number: where 1 is the last item then, and else 0 the first.
pub(crate) fn step_of(name: &str) -> Option<(bool, usize)>
    ensures named { result ≡ step_named name.now }
    ensures from_one { IfSome result (λ step. IsTrue step.0 → 0 < step.1) }
{
    let (first, _) = name.as_bytes().split_first()?;
    if *first == b'-' {
        let (_, digits) = name.split_at(1);
        return back_of(digits);
    }
    match index_of(name) {
        Some(index) => Some((false, index)),
        None => None,
    }
}

// An index that counts from the end, by the digits behind its minus sign.
fn back_of(digits: &str) -> Option<(bool, usize)>
    ensures named { result ≡ option_map (λ back. (true, back)) (back_named digits.now) }
    ensures from_one { IfSome result (λ step. 0 < step.1) }
{
    let back = index_of(digits)?;
    if back == 0 {
        return None;
    }
    Some((true, back))
}
