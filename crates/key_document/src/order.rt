//! The order of the values of two documents.

ghost use Rattle.std.specs.Prelude.{◌≡◌};
ghost use Rattle.jsonb_spec.specs.Order.{tree_cmp};
ghost use Rattle.jsonb_spec.specs.Document.{OfDocument};

use crate::document::split_document;
use std::cmp::Ordering;

/// How the values of two documents compare, as those of `Value` do: the zeros that end their decimals don't count. Of
/// other bytes it may be any order.
pub fn compare_documents(left: &[u8], right: &[u8]) -> Ordering
    ensures order { OfDocument left.now (λ t. OfDocument right.now (λ u. result ≡ tree_cmp t u)) }
{
    let (key, _) = split_document(left);
    let (other, _) = split_document(right);
    key.cmp(other)
}
