//! What is known of changed values beside their keys.

ghost use Rattle.std.specs.Prelude.{◌≡◌, Bool, List, ℕ, Some, IsUtf8};
ghost use Rattle.std.specs.List.{AllByRecursion};
ghost use Rattle.jsonb_spec.specs.Proper.{IsProper};
ghost use Rattle.jsonb_spec.specs.Tree.{Tree};
ghost use Rattle.jsonb_spec.specs.Edit.{merge, with_item, with_member, with_part, without_part};
ghost use Rattle.jsonb_spec.specs.Edit.Insert.{with_inserted};

/// A well-formed value is well-formed when it is changed: its texts are UTF-8, its numbers fit their forms, and the
/// names of each object ascend. So the key that a change appends is the sort key of a value, and may be changed again.
pub fn changed_values_are_proper()
    ensures removed { (names : List (List ℕ)) → AllByRecursion IsUtf8 names → (t u : Tree) → IsProper t
        → without_part names t ≡ Some u → IsProper u }
    ensures set { (names : List (List ℕ)) → AllByRecursion IsUtf8 names → (t part u : Tree) → (create : Bool)
        → IsProper t → IsProper part → with_part names part create t ≡ Some u → IsProper u }
    ensures inserted { (names : List (List ℕ)) → AllByRecursion IsUtf8 names → (t part u : Tree) → (after : Bool)
        → IsProper t → IsProper part → with_inserted names part after t ≡ Some u → IsProper u }
    ensures member { (name : List ℕ) → IsUtf8 name → (t part u : Tree) → IsProper t → IsProper part
        → with_member name part t ≡ Some u → IsProper u }
    ensures item { (t part u : Tree) → IsProper t → IsProper part → with_item part t ≡ Some u → IsProper u }
    ensures merged { (t u : Tree) → IsProper t → IsProper u → IsProper (merge t u) }
{}
