//! Lines in the order of their values, and lines behind their sort keys.

ghost use Rattle.std.specs.Prelude.{◌≡◌, ◌<◌, ◌/◌, ◌%◌, ◌++◌, ◌∷◌, [], ℕ, List, OnOk, true, false};
ghost use Rattle.std.specs.List.{flat_map};
ghost use Rattle.jsonb_spec.specs.Ascii as ascii;
ghost use Rattle.std.specs.Ordering.{ordering_then};
ghost use Rattle.jsonb_spec.specs.Order.{bytes_cmp, tree_cmp};
ghost use Rattle.jsonb_spec.specs.Tree.{Tree};
ghost use Rattle.text_scan.specs.declared.parser.Grammar.{Grammar};
ghost use Rattle.vjson_run.specs.declared.options.Options.{Options};
ghost use Rattle.vjson_run.specs.InOrder.{AreInOrder};
ghost use Rattle.jsonb_spec.specs.Program.InOrder.{key_order, may_follow};
ghost use Rattle.vjson_run.specs.Keys.{IsKeyOf, sort_cmp};
ghost use Rattle.vjson_run.specs.Lines.{Arranges, IsArranged, IsLineOf, line_cmp, order_of};
ghost use Rattle.jsonb_spec.specs.Program.KeyLine.{hex_digit, hex_text, key_line};

use std::alloc::AllocError;
use std::cmp::Ordering;

/// A line, and the sort key of its value, or of the part that lines are sorted by.
#[derive(Debug, Drop)]
pub struct Line {
    pub key: Vec<u8>,
    pub text: Vec<u8>,
}

/// Lines compare by their keys alone.
impl PartialEq for Line {
    ghost use Rattle.std.specs.Cmp.{on_per, partial_equiv_from_equiv, eq_by_cmp_equiv};
    ghost use Rattle.std.specs.Ordering.{on, eq_by_cmp};
    ghost use Rattle.std.proofs.lemmas.Cmp.{nat_list_cmp_total};
    ghost use Rattle.jsonb_spec.specs.Order.{bytes_cmp};
    ghost use Rattle.vjson_run.specs.Lines.{line_key};

    ghost eq = { on line_key (eq_by_cmp bytes_cmp) };

    ghost laws = { on_per line_key (partial_equiv_from_equiv (eq_by_cmp_equiv nat_list_cmp_total)) };

    fn eq(&self, other: &Self) -> bool {
        self.key.as_slice().cmp(other.key.as_slice()).is_eq()
    }
}

impl Eq for Line {
    ghost use Rattle.std.specs.Cmp.{on_equiv, eq_by_cmp_equiv};
    ghost use Rattle.std.proofs.lemmas.Cmp.{nat_list_cmp_total};
    ghost use Rattle.vjson_run.specs.Lines.{line_key};

    ghost laws = { on_equiv line_key (eq_by_cmp_equiv nat_list_cmp_total) };
}

impl PartialOrd for Line {
    ghost use Rattle.std.specs.Prelude.{refl};
    ghost use Rattle.std.specs.Cmp.{on_po, po};
    ghost use Rattle.std.specs.Ordering.{on, as_partial_cmp};
    ghost use Rattle.std.proofs.lemmas.Cmp.{nat_list_cmp_total};
    ghost use Rattle.jsonb_spec.specs.Order.{bytes_cmp};
    ghost use Rattle.vjson_run.specs.Lines.{line_key};

    ghost partial_cmp = { on line_key (as_partial_cmp bytes_cmp) };

    ghost laws = { on_po line_key (po nat_list_cmp_total (λ k l. refl)) };

    fn partial_cmp(&self, other: &Self) -> Option<Ordering> {
        Some(self.key.as_slice().cmp(other.key.as_slice()))
    }
}

impl Ord for Line {
    ghost use Rattle.std.specs.Prelude.{refl};
    ghost use Rattle.std.specs.Cmp.{on_total};
    ghost use Rattle.std.specs.Ordering.{on, as_partial_cmp};
    ghost use Rattle.std.proofs.lemmas.Cmp.{nat_list_cmp_total};
    ghost use Rattle.jsonb_spec.specs.Order.{bytes_cmp};
    ghost use Rattle.vjson_run.specs.Lines.{line_key};

    ghost cmp = { on line_key bytes_cmp };

    ghost total = { on_total line_key nat_list_cmp_total };

    ghost matches_partial_cmp = { λ v w. refl };

    ghost matches_eq = { λ v w. refl };

    fn cmp(&self, other: &Self) -> Ordering {
        self.key.as_slice().cmp(other.key.as_slice())
    }
}

/// Sorts the lines, upwards or downwards, and holds all of them or the first of each key.
pub fn arrange(lines: &mut Vec<Line>, down: bool, unique: bool) -> Result<(), AllocError>
    ensures ok { OnOk result (IsArranged down unique lines.old.items lines.new.items) }
{
    sort(lines, down)?;
    if unique {
        lines.dedup();
    }
    Ok(())
}

// Sorts the lines, upwards or downwards. Lines of one key stay in their order.
fn sort(lines: &mut Vec<Line>, down: bool) -> Result<(), AllocError>
    ensures ok { OnOk result (Arranges (order_of down) lines.old.items lines.new.items) }
{
    if !down {
        return lines.sort();
    }
    lines.reverse();
    lines.sort()?;
    lines.reverse();
    Ok(())
}

// The order of keys, upwards or downwards.
fn key_order(first: &[u8], second: &[u8], down: bool) -> Ordering
    ensures { result ≡ key_order down first.now second.now }
{
    if down {
        second.cmp(first)
    } else {
        first.cmp(second)
    }
}

/// Whether a line with the second key may be right behind one with the first: it is not before it, or is after it.
pub fn may_follow(first: &[u8], second: &[u8], down: bool, unique: bool) -> bool
    ensures { result ≡ may_follow down unique first.now second.now }
{
    let order = key_order(first, second, down);
    if unique { order.is_lt() } else { order.is_le() }
}

/// Appends a line with a line feed.
pub fn append_line(text: &[u8], out: &mut Vec<u8>) -> Result<(), AllocError>
    ensures ok { OnOk result (out.new.items ≡ out.old.items ++ (text.now ++ ascii.line_feed ∷ [])) }
{
    out.extend_from_slice(text)?;
    out.push(b'\n')?;
    Ok(())
}

/// Appends a line behind its key in hexadecimal and a tab.
pub fn append_key_line(key: &[u8], text: &[u8], out: &mut Vec<u8>) -> Result<(), AllocError>
    ensures ok { OnOk result (out.new.items ≡ out.old.items ++ key_line key.now text.now) }
{
    append_hex(key, out)?;
    out.push(b'\t')?;
    append_line(text, out)
}

// Appends the bytes in hexadecimal, four at once.
fn append_hex(bytes: &[u8], out: &mut Vec<u8>) -> Result<(), AllocError>
    ensures ok { OnOk result (out.new.items ≡ out.old.items ++ flat_map hex_text bytes.now) }
{
    let mut rest = bytes;
    'fours: while let [a, b, c, d, more @ ..] = rest {
        append_four(*a, *b, *c, *d, out)?;
        rest = more;
    }
    append_few(rest, out)
}

// Appends four bytes in hexadecimal.
#[inline(always)]
fn append_four(a: u8, b: u8, c: u8, d: u8, out: &mut Vec<u8>) -> Result<(), AllocError>
    ensures ok { OnOk result (out.new.items ≡ out.old.items ++ flat_map hex_text (a ∷ b ∷ c ∷ d ∷ [])) }
{
    out.extend_from_slice(&[
        high_digit(a),
        low_digit(a),
        high_digit(b),
        low_digit(b),
        high_digit(c),
        low_digit(c),
        high_digit(d),
        low_digit(d),
    ])
}

// Appends the bytes in hexadecimal, one by one.
fn append_few(bytes: &[u8], out: &mut Vec<u8>) -> Result<(), AllocError>
    ensures ok { OnOk result (out.new.items ≡ out.old.items ++ flat_map hex_text bytes.now) }
{
    'bytes: for byte in bytes {
        out.push(high_digit(*byte))?;
        out.push(low_digit(*byte))?;
    }
    Ok(())
}

// The first hexadecimal digit of a byte.
#[inline(always)]
fn high_digit(byte: u8) -> u8
    ensures { result ≡ hex_digit (byte / 16) }
{
    hex_digit(byte / 16)
}

// The second one.
#[inline(always)]
fn low_digit(byte: u8) -> u8
    ensures { result ≡ hex_digit (byte % 16) }
{
    hex_digit(byte % 16)
}

// A hexadecimal digit.
#[inline(always)]
fn hex_digit(half: u8) -> u8
    requires { half < 16 }
    ensures { result ≡ hex_digit half }
{
    if half < 10 {
        b'0' + half
    } else {
        b'a' + (half - 10)
    }
}

/// Lines whose keys are those of their values compare as the values do.
pub fn lines_order_as_values()
    ensures { (g : Grammar) → (l m : Line) → (t u : Tree) → IsLineOf g l t → IsLineOf g m u
        → line_cmp l m ≡ tree_cmp t u }
{}

/// The keys that texts are sorted by order as the parts that are asked for, or as the values.
pub fn keys_order_as_asked()
    ensures { (options : Options) → (x y k l : List ℕ) → (h : IsKeyOf options x k) → (i : IsKeyOf options y l)
        → bytes_cmp k l ≡ sort_cmp options.count options.by.items h.tree i.tree }
{}

/// Texts that are in order, each one of the grammar, aren't out of order, and none of them is none of the grammar.
pub fn lines_in_order_are_not_out_of_order()
    ensures { (options : Options) → (texts : List (List ℕ)) → AreInOrder options texts true
        → AreInOrder options texts false → ⊥ }
{}

/// The order of lines behind their keys, byte by byte as in the locale C, is that of their keys, and of the lines where
/// keys are equal.
pub fn key_lines_order_as_keys()
    ensures { (k l x y : List ℕ) → bytes_cmp (key_line k x) (key_line l y) ≡ ordering_then (bytes_cmp k l)
        (bytes_cmp (x ++ ascii.line_feed ∷ []) (y ++ ascii.line_feed ∷ [])) }
{}
