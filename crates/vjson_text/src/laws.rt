//! What is known of texts and of what is made of them.

ghost use Rattle.std.specs.Prelude.{ℕ, List, []};
ghost use Rattle.text_scan.specs.declared.parser.Grammar.{Grammar};
ghost use Rattle.vjson_text.specs.Texts.{AppendsTextOf};
ghost use Rattle.vjson_text.specs.declared.reader.Layout.{Layout};

/// What is laid out of a text is a text of the grammar, and laid out it stays as it is.
pub fn texts_laid_out_stay()
    ensures { (grammar : Grammar) → (layout : Layout) → (text out : List ℕ)
        → AppendsTextOf grammar layout text [] out → AppendsTextOf grammar layout out [] out }
{}
