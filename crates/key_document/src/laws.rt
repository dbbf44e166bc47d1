//! What is known of documents beside their functions.

ghost use Rattle.std.specs.Prelude.{◌≡◌, ◌≤◌, ◌↔◌, ◌+◌, ◌*◌, ◌++◌, [], Bool, List, ℕ, length, Option, option_map};
ghost use Rattle.std.specs.declared.cmp.Ordering.TheVariants.{Less, Equal, Greater};
ghost use Rattle.jsonb_spec.specs.SortKey.Readable.{IsAnyNumber, IsReadable};
ghost use Rattle.jsonb_spec.specs.Keys.{IsBelowKeys};
ghost use Rattle.jsonb_spec.specs.SortKey.Open.{name_key};
ghost use Rattle.std.specs.Ordering.{ordering_then};
ghost use Rattle.jsonb_spec.specs.Order.{bytes_cmp, tree_cmp};
ghost use Rattle.jsonb_spec.specs.Proper.{IsProper};
ghost use Rattle.jsonb_spec.specs.SortKey.{key_of};
ghost use Rattle.jsonb_spec.specs.SortKey.FewestDigits.{with_fewest_digits};
ghost use Rattle.jsonb_spec.specs.Text.{tree_text};
ghost use Rattle.jsonb_spec.specs.Text.Range.{IsInRange, IsWithin};
ghost use Rattle.jsonb_spec.specs.Tree.{Tree, Trees, Members, more_members};
ghost use Rattle.jsonb_spec.specs.Document.PartAt.{IsPartBehind};
ghost use Rattle.jsonb_spec.specs.Document.{behind_key, document_of, zeros_at, zeros_mark, EndsUnlike};
ghost use Rattle.jsonb_spec.specs.Document.Counts.{counts_of_items, counts_at, counts_at_items};
ghost use Rattle.jsonb_spec.specs.Edit.Splices.{Agrees, AreSplices, Spliced};
ghost use Rattle.jsonb_spec.specs.Edit.{Outcome, changed_at, joined_items, merge, merged_members, with_item, with_member, with_part, without_part};
ghost use Rattle.key_edit.specs.Spots.{SlotIn};
ghost use Rattle.key_edit.specs.declared.slot.Slot.{Slot};
ghost use Rattle.jsonb_spec.specs.Document.Numbers.{counts_taken};
ghost use Rattle.jsonb_spec.specs.Document.PartsOf.{OccursIn};

/// Documents compare as the values do; where these are equal, what is behind their keys decides. A key alone bounds
/// the documents of its value and of those above it from below.
pub fn documents_order()
    ensures order { (t u : Tree) → IsProper t → IsProper u → bytes_cmp (document_of t) (document_of u)
        ≡ ordering_then (tree_cmp t u) (bytes_cmp (behind_key (zeros_at t)) (behind_key (zeros_at u))) }
    ensures bounds { (t u : Tree) → IsProper t → IsProper u → bytes_cmp (document_of t) (key_of u)
        ≡ ordering_then (tree_cmp t u) (bytes_cmp (behind_key (zeros_at t)) []) }
{}

/// A key is the document of the value with the fewest digits. Changed, that value is the changed value with the fewest
/// digits, which nests as deep. So a call over documents that is passed keys makes the key of the changed value.
pub fn keys_are_documents()
    ensures document { (t : Tree) → IsReadable t
        → IsReadable (with_fewest_digits t) × (document_of (with_fewest_digits t) ≡ key_of t) }
    ensures depth { (t : Tree) → (depth : ℕ)
        → IsWithin IsAnyNumber (with_fewest_digits t) depth ↔ IsWithin IsAnyNumber t depth }
    ensures removed { (names : List (List ℕ)) → (t : Tree)
        → without_part names (with_fewest_digits t) ≡ option_map with_fewest_digits (without_part names t) }
    ensures set { (names : List (List ℕ)) → (t part : Tree) → (create : Bool)
        → with_part names (with_fewest_digits part) create (with_fewest_digits t)
        ≡ option_map with_fewest_digits (with_part names part create t) }
    ensures member { (name : List ℕ) → (t part : Tree)
        → with_member name (with_fewest_digits part) (with_fewest_digits t)
        ≡ option_map with_fewest_digits (with_member name part t) }
    ensures item { (t part : Tree) → with_item (with_fewest_digits part) (with_fewest_digits t)
        ≡ option_map with_fewest_digits (with_item part t) }
    ensures merged { (t u : Tree)
        → merge (with_fewest_digits t) (with_fewest_digits u) ≡ with_fewest_digits (merge t u) }
{}

/// There is a count for each byte of a key.
pub fn each_byte_has_a_count()
    ensures { (t : Tree) → IsProper t → length (counts_at t) ≡ length (key_of t) }
{}

/// Where the key of a part is in that of a value, the counts of its bytes are in the same slot. So the zeros of a part
/// are had with the offset and the size of its key.
pub fn parts_have_their_zeros()
    ensures occur { (t part : Tree) → IsProper t → (before : List ℕ) → (numbers : ℕ)
        → OccursIn t before numbers part → IsPartBehind t before part }
    ensures taken { (t part : Tree) → IsProper part → (before : List ℕ) → IsPartBehind t before part
        → counts_taken (length before) (length (key_of part)) (counts_at t) ≡ counts_at part }
{}

/// A value changed at a path has the key of the value with a splice in it, and the counts of its bytes have the splice
/// in the same slots. So a document is changed by splicing its key, and its zeros at the same offsets.
pub fn changes_are_splices()
    ensures { (names : List (List ℕ)) → (t : Tree) → IsProper t
        → Spliced key_of counts_at t (λ change. changed_at change names t) }
{}

/// The slot that a path leads to in a key is that of the splice.
pub fn slots_are_cuts()
    ensures { (t : Tree) → (changed : (Option Tree → Outcome) → Option Tree) → (bytes : List ℕ) → (slot : Slot)
        → (s : SlotIn changed bytes slot) → (x : AreSplices key_of counts_at t changed)
        → Agrees s.0.front (name_key slot.object s.0.name) slot.behind.now x.cut }
{}

/// The members of two objects are merged from the first ones on: the one with the lower name comes next, and of two
/// with one name that of the right object. The counts of joined items are those of both.
pub fn merges_take_members()
    ensures left { (k l : List ℕ) → (t u : Tree) → (ms ns : Members) → IsBelowKeys l ns → bytes_cmp k l ≡ Less
        → merged_members (more_members k t ms) (more_members l u ns)
        ≡ more_members k t (merged_members ms (more_members l u ns)) }
    ensures right { (k l : List ℕ) → (t u : Tree) → (ms ns : Members) → IsBelowKeys l ns → bytes_cmp k l ≡ Greater
        → merged_members (more_members k t ms) (more_members l u ns)
        ≡ more_members l u (merged_members (more_members k t ms) ns) }
    ensures instead { (k l : List ℕ) → (t u : Tree) → (ms ns : Members) → IsBelowKeys l ns → bytes_cmp k l ≡ Equal
        → merged_members (more_members k t ms) (more_members l u ns) ≡ more_members l u (merged_members ms ns) }
    ensures joined { (ts us : Trees) → counts_at_items (joined_items ts us) ≡ counts_of_items ts ++ counts_at_items us }
{}

/// No key ends with the byte with which zeros behind a key do. So the last byte says whether there are any.
pub fn keys_end_unlike_zeros()
    ensures { (t : Tree) → IsReadable t → EndsUnlike zeros_mark (key_of t) }
{}

/// What is behind a key is short: at most two bytes for each byte of the key, and ten.
pub fn tails_are_short()
    ensures { (t : Tree) → IsProper t → length (behind_key (zeros_at t)) ≤ 2 * length (key_of t) + 10 }
{}

/// Values that have one document have one serialized form. Those in range, as the values of texts are, have one document
/// where they have one serialized form.
pub fn documents_tell_texts_apart()
    ensures text { (t u : Tree) → IsReadable t → IsReadable u → document_of t ≡ document_of u
        → tree_text t ≡ tree_text u }
    ensures document { (t u : Tree) → IsProper t → IsProper u → IsInRange t → IsInRange u
        → tree_text t ≡ tree_text u → document_of t ≡ document_of u }
{}
