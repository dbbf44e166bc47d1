//! What is known of zeros beside texts.

ghost use Rattle.std.specs.Prelude.{◌≡◌};
ghost use Rattle.jsonb_spec.specs.SortKey.Readable.{IsReadable};
ghost use Rattle.jsonb_spec.specs.Text.{tree_text};
ghost use Rattle.jsonb_spec.specs.Tree.{Tree};
ghost use Rattle.jsonb_spec.specs.SortKey.FewestDigits.{with_fewest_digits};
ghost use Rattle.jsonb_spec.specs.Document.Zeros.{zeros_in};

/// Values that have one text with the fewest digits, and the same zeros, have one text. So nothing of a text is lost
/// where that one and the zeros are held.
pub fn zeros_distinguish_texts()
    ensures { (t u : Tree) → IsReadable t → IsReadable u
        → tree_text (with_fewest_digits t) ≡ tree_text (with_fewest_digits u) → zeros_in t ≡ zeros_in u
        → tree_text t ≡ tree_text u }
{}
