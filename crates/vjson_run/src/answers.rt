//! What the commands answer to one text, and print of it.

ghost use Rattle.std.specs.Prelude.{◌≡◌, ◌≢◌, ◌⊎◌, ◌++◌, ◌∷◌, [], true, false, drop, map, string_bytes, ℕ, Bool, List, IfOk, IfErr, OnOk, MatchBool, Err, None};
ghost use Rattle.std.specs.List.{flat_map};
ghost use Rattle.vjson_text.specs.Texts.{AppendsKeyOf, AppendsPartOf, Rejects};
ghost use Rattle.text_scan.specs.declared.parser.Grammar.{Grammar};
ghost use Rattle.vjson_run.specs.Trouble.{MayRunOutBy, MayTakeMemory};
ghost use Rattle.vjson_run.specs.Answers.{
  AppendsCell,
  AppendsCounted,
  AppendsLine,
  AppendsOne,
  AreCounted,
  IsFound,
  IsLaidOut,
  IsShown,
  LacksSome,
  PrintsKeyed,
  layout_of,
};
ghost use Rattle.jsonb_spec.specs.Program.Printed.{Prints, first_keys, printed, row_of, separator};
ghost use Rattle.vjson_run.specs.Chosen.{Chooses, Holds, IsLeftOut, allows, leaves_out};
ghost use Rattle.vjson_run.specs.declared.options.Options.{Options};
ghost use Rattle.vjson_run.specs.Keys.{AppendsPiece, AppendsTurned, HasPartKey, IsKeyOf, LacksPart};
ghost use Rattle.jsonb_spec.specs.Program.Keys.{keys_of};

use crate::colours;
use crate::lines::{append_key_line, append_line as append_row};
use crate::options::{Command, Condition, Options, Part};
use std::alloc::{AllocError, Global};
use std::cmp::Ordering;
use vjson_text::{Fault, Grammar, Layout};

/// Buffers that serve one text after the other.
#[derive(Drop)]
pub struct Buffers {
    // The serialized form of a part.
    part: Vec<u8>,
    // What is printed of several parts.
    row: Vec<u8>,
    // The key of a part.
    part_key: Vec<u8>,
    /// A key.
    pub key: Vec<u8>,
}

impl Buffers {
    /// Buffers of which nothing is used yet.
    pub fn new(alloc: Global) -> Buffers {
        Buffers {
            part: Vec::new(alloc),
            row: Vec::new(alloc),
            part_key: Vec::new(alloc),
            key: Vec::new(alloc),
        }
    }
}

// How a text is laid out.
fn layout_of(options: &Options) -> Layout
    ensures { result ≡ layout_of options.now }
{
    match options.layout {
        Some(layout) => layout,
        None => {
            if options.lines {
                Layout::Compact
            } else {
                Layout::Indent(2)
            }
        }
    }
}

// Prints the text laid out, in colours.
fn format_coloured(
    alloc: Global,
    options: &Options,
    text: &[u8],
    out: &mut Vec<u8>,
) -> Result<(), Fault>
    ensures ok { options.now.colours ≡ true
        → OnOk result (Prints (IsLaidOut options.now text.now) out.old.items out.new.items) }
    ensures err { IfErr result (λ f. f ≢ Fault.NoMemory → out.new.items ≡ out.old.items) }
    ensures rejected { Rejects options.now.grammar text.now result }
    ensures memory { result ≡ Err Fault.NoMemory → MayTakeMemory options.now.grammar text.now }
{
    let mut laid = Vec::new(alloc);
    let layout = layout_of(options);
    vjson_text::append(alloc, options.grammar, layout, text, &mut laid)?;
    colours::show(true, &laid, out)?;
    out.push(b'\n')?;
    Ok(())
}

/// Prints the text laid out.
///
/// # Errors
///
/// As of [`vjson_text::check`].
pub fn format(alloc: Global, options: &Options, text: &[u8], out: &mut Vec<u8>) -> Result<(), Fault>
    ensures ok { OnOk result (Prints (IsLaidOut options.now text.now) out.old.items out.new.items) }
    ensures err { IfErr result (λ f. f ≢ Fault.NoMemory → out.new.items ≡ out.old.items) }
    ensures rejected { Rejects options.now.grammar text.now result }
    ensures memory { result ≡ Err Fault.NoMemory → MayTakeMemory options.now.grammar text.now }
{
    if options.colours {
        return format_coloured(alloc, options, text, out);
    }
    let layout = layout_of(options);
    vjson_text::append(alloc, options.grammar, layout, text, out)?;
    out.push(b'\n')?;
    Ok(())
}

// Puts the serialized form of the text's part at the path into `part`. False where there is no such part.
fn find_part(
    alloc: Global,
    grammar: Grammar,
    path: &[String],
    text: &[u8],
    buffers: &mut Buffers,
) -> Result<bool, Fault>
    ensures ok { IfOk result (λ found. AppendsPartOf grammar (map string_bytes path.now) text.now [] buffers.new.part.items found) }
    ensures others { buffers.new ≡ record buffers.old { part = buffers.new.part } }
    ensures rejected { Rejects grammar text.now result }
    ensures memory { result ≡ Err Fault.NoMemory → MayTakeMemory grammar text.now }
{
    buffers.part.clear();
    vjson_text::append_part(alloc, grammar, path, text, &mut buffers.part)
}

// Appends what `get` prints of the serialized form of a part.
fn append_shown(
    alloc: Global,
    options: &Options,
    part: &[u8],
    row: &mut Vec<u8>,
) -> Result<(), Fault>
    ensures ok { OnOk result (AppendsOne (IsShown options.now part.now) row.old.items row.new.items) }
    ensures memory { IfErr result (λ f. f ≡ Fault.NoMemory) }
{
    if !options.raw {
        colours::show(options.colours, part, row)?;
        return Ok(());
    }
    if options.paths.len() < 2 {
        return vjson_text::append_raw(alloc, part, row);
    }
    let mut raw = Vec::new(alloc);
    vjson_text::append_raw(alloc, part, &mut raw)?;
    vjson_text::append_cell(&raw, row)?;
    Ok(())
}

// What is between two parts.
fn separator(array: bool) -> u8
    ensures { result ≡ separator array }
{
    if array { b',' } else { b'\t' }
}

// Appends the text's part at the path, or the default, to the row, behind a separator. False where there is neither.
fn append_cell(
    alloc: Global,
    options: &Options,
    path: &[String],
    text: &[u8],
    buffers: &mut Buffers,
) -> Result<bool, Fault>
    ensures ok { IfOk result (λ found. MatchBool found
        (AppendsCell options.now (map string_bytes path.now) text.now buffers.old.row.items buffers.new.row.items)
        (LacksPart options.now.grammar (map string_bytes path.now) text.now × (options.now.default ≡ None))) }
    ensures rejected { Rejects options.now.grammar text.now result }
    ensures memory { result ≡ Err Fault.NoMemory → MayTakeMemory options.now.grammar text.now }
{
    let found = find_part(alloc, options.grammar, path, text, buffers)?;
    if found {
        buffers.row.push(separator(options.array))?;
        append_shown(alloc, options, &buffers.part, &mut buffers.row)?;
        return Ok(true);
    }
    let Some(default) = &options.default else {
        return Ok(false);
    };
    buffers.row.push(separator(options.array))?;
    buffers.row.extend_from_slice(default.as_bytes())?;
    Ok(true)
}

// The first path at which a part is asked for: that of the whole where none is.
fn first_path(options: &Options) -> &[String]
    ensures { map string_bytes result.now ≡ first_keys options.now.paths.items }
{
    match options.paths.first() {
        Some(path) => path,
        None => &[],
    }
}

// The other paths.
fn other_paths(options: &Options) -> &[Vec<String>]
    ensures { result.now ≡ drop 1 options.now.paths.items }
{
    match options.paths.as_slice() {
        [_, others @ ..] => others,
        [] => &[],
    }
}

// Prints a row, each cell of which is behind a separator.
fn print_row(array: bool, row: &[u8], out: &mut Vec<u8>) -> Result<(), AllocError>
    ensures ok { OnOk result (out.new.items ≡ out.old.items ++ printed (row_of array row.now)) }
{
    let cells = match row {
        [_, cells @ ..] => cells,
        [] => &[],
    };
    if !array {
        return append_row(cells, out);
    }
    out.push(b'[')?;
    out.extend_from_slice(cells)?;
    append_row(b"]", out)
}

/// Prints the text's parts, or the default where it has none, on a line. False where a part is missing and there is no
/// default.
///
/// # Errors
///
/// As of [`vjson_text::check`].
pub fn get(
    alloc: Global,
    options: &Options,
    text: &[u8],
    buffers: &mut Buffers,
    out: &mut Vec<u8>,
) -> Result<bool, Fault>
    ensures ok { IfOk result (λ found. MatchBool found (Prints (IsFound options.now text.now) out.old.items out.new.items)
        (LacksSome options.now text.now × (options.now.default ≡ None) × (out.new.items ≡ out.old.items))) }
    ensures err { IfErr result (λ f. f ≢ Fault.NoMemory → out.new.items ≡ out.old.items) }
    ensures rejected { Rejects options.now.grammar text.now result }
    ensures memory { result ≡ Err Fault.NoMemory → MayTakeMemory options.now.grammar text.now }
{
    buffers.row.clear();
    let found = append_cell(alloc, options, first_path(options), text, buffers)?;
    if !found {
        return Ok(false);
    }
    'paths: for path in other_paths(options) {
        let found = append_cell(alloc, options, path, text, buffers)?;
        if !found {
            return Ok(false);
        }
    }
    print_row(options.array, &buffers.row, out)?;
    Ok(true)
}

/// Puts the key of the text's value instead of the one in the buffers.
///
/// # Errors
///
/// As of [`vjson_text::check`].
pub fn make_whole_key(
    alloc: Global,
    grammar: Grammar,
    text: &[u8],
    buffers: &mut Buffers,
) -> Result<(), Fault>
    ensures ok { OnOk result (AppendsKeyOf grammar text.now [] buffers.new.key.items) }
    ensures rejected { Rejects grammar text.now result }
    ensures memory { result ≡ Err Fault.NoMemory → MayTakeMemory grammar text.now }
{
    buffers.key.clear();
    vjson_text::append_key(alloc, grammar, text, &mut buffers.key)
}

// Puts the key of the text without parts: that of its value, or none where texts are counted.
fn make_key_alone(
    alloc: Global,
    options: &Options,
    text: &[u8],
    buffers: &mut Buffers,
) -> Result<(), Fault>
    ensures ok { options.now.by.items ≡ [] → OnOk result (IsKeyOf options.now text.now buffers.new.key.items) }
    ensures rejected { Rejects options.now.grammar text.now result }
    ensures memory { result ≡ Err Fault.NoMemory → MayTakeMemory options.now.grammar text.now }
{
    if options.count {
        buffers.key.clear();
        return vjson_text::check(alloc, options.grammar, text);
    }
    make_whole_key(alloc, options.grammar, text, buffers)
}

/// Puts the key that the text is sorted by instead of the one in the buffers.
///
/// # Errors
///
/// As of [`vjson_text::check`].
pub fn make_key(
    alloc: Global,
    options: &Options,
    text: &[u8],
    buffers: &mut Buffers,
) -> Result<(), Fault>
    ensures ok { OnOk result (IsKeyOf options.now text.now buffers.new.key.items) }
    ensures rejected { Rejects options.now.grammar text.now result }
    ensures memory { result ≡ Err Fault.NoMemory → MayTakeMemory options.now.grammar text.now }
{
    let grammar = options.grammar;
    let Some((first, others)) = options.by.split_first() else {
        return make_key_alone(alloc, options, text, buffers);
    };
    buffers.key.clear();
    append_piece(alloc, grammar, first, text, buffers)?;
    'parts: for part in others {
        append_piece(alloc, grammar, part, text, buffers)?;
    }
    Ok(())
}

// Appends what a part that lines are sorted by has in the text's key.
fn append_piece(
    alloc: Global,
    grammar: Grammar,
    part: &Part,
    text: &[u8],
    buffers: &mut Buffers,
) -> Result<(), Fault>
    ensures ok { OnOk result (AppendsPiece grammar part.now text.now buffers.old.key.items buffers.new.key.items) }
    ensures rejected { Rejects grammar text.now result }
    ensures memory { result ≡ Err Fault.NoMemory → MayTakeMemory grammar text.now }
{
    make_part_key(alloc, grammar, &part.path, text, buffers)?;
    append_turned(&buffers.part_key, part.down, &mut buffers.key)?;
    Ok(())
}

// Appends the bytes, or downwards each turned round.
fn append_turned(bytes: &[u8], down: bool, out: &mut Vec<u8>) -> Result<(), AllocError>
    ensures ok { OnOk result (AppendsTurned down bytes.now out.old.items out.new.items) }
{
    if !down {
        return out.extend_from_slice(bytes);
    }
    'bytes: for byte in bytes {
        out.push(255 - *byte)?;
    }
    Ok(())
}

// Puts the key of the text's part into `part_key`, or a byte below all keys where there is no such part. Whether there
// is one.
fn make_part_key(
    alloc: Global,
    grammar: Grammar,
    path: &[String],
    text: &[u8],
    buffers: &mut Buffers,
) -> Result<bool, Fault>
    ensures ok { IfOk result (λ found. HasPartKey grammar (map string_bytes path.now) text.now buffers.new.part_key.items found) }
    ensures key { buffers.new.key ≡ buffers.old.key }
    ensures rejected { Rejects grammar text.now result }
    ensures memory { result ≡ Err Fault.NoMemory → MayTakeMemory grammar text.now }
{
    let found = find_part(alloc, grammar, path, text, buffers)?;
    buffers.part_key.clear();
    if !found {
        buffers.part_key.push(0)?;
        return Ok(false);
    }
    // The part is a text of extended mode.
    let key = &mut buffers.part_key;
    let Ok(()) = vjson_text::append_key(alloc, Grammar::Extended, &buffers.part, key) else {
        return Err(Fault::NoMemory);
    };
    Ok(true)
}

// Whether a part may be so beside the value of the condition.
fn allows(condition: &Condition, order: Ordering) -> bool
    ensures { result ≡ allows condition.now order }
{
    match order {
        Ordering::Less => condition.less,
        Ordering::Equal => condition.equal,
        Ordering::Greater => condition.greater,
    }
}

// Whether the condition holds of the text.
fn holds(
    alloc: Global,
    grammar: Grammar,
    condition: &Condition,
    text: &[u8],
    buffers: &mut Buffers,
) -> Result<bool, Fault>
    ensures ok { IfOk result (λ held. Holds grammar condition.now text.now held) }
    ensures rejected { Rejects grammar text.now result }
    ensures memory { result ≡ Err Fault.NoMemory → MayTakeMemory grammar text.now }
{
    let found = make_part_key(alloc, grammar, &condition.path, text, buffers)?;
    if !found {
        return Ok(condition.absent);
    }
    Ok(allows(
        condition,
        buffers.part_key.as_slice().cmp(condition.key.as_slice()),
    ))
}

// Whether the command leaves texts out.
fn leaves_out(command: Command) -> bool
    ensures { result ≡ leaves_out command }
{
    match command {
        Command::Check => false,
        _ => true,
    }
}

/// False where the text is left out, since a condition doesn't hold of it.
///
/// # Errors
///
/// As of [`vjson_text::check`].
pub fn is_chosen(
    alloc: Global,
    options: &Options,
    text: &[u8],
    buffers: &mut Buffers,
) -> Result<bool, Fault>
    ensures ok { IfOk result (λ chosen. MatchBool chosen (IsLeftOut options.now text.now → ⊥)
        (IsLeftOut options.now text.now)) }
    ensures rejected { Rejects options.now.grammar text.now result }
    ensures memory { result ≡ Err Fault.NoMemory → MayRunOutBy options.now.command options.now.grammar text.now }
{
    if !leaves_out(options.command) {
        return Ok(true);
    }
    'conditions: for condition in &options.conditions {
        let held = holds(alloc, options.grammar, condition, text, buffers)?;
        if !held {
            return Ok(false);
        }
    }
    Ok(true)
}

/// There is a test that says of each text whether it is left out.
pub fn some_test_chooses()
    ensures { (options : Options) → (chosen : List ℕ → Bool) × Chooses options chosen }
{}

// Appends what `count` prints of a part behind a tab.
fn append_counted(
    alloc: Global,
    grammar: Grammar,
    part: &Part,
    text: &[u8],
    row: &mut Vec<u8>,
) -> Result<(), Fault>
    ensures ok { OnOk result (AppendsCounted grammar part.now text.now row.old.items row.new.items) }
    ensures rejected { Rejects grammar text.now result }
{
    let mut cell = Vec::new(alloc);
    vjson_text::append_part(alloc, grammar, &part.path, text, &mut cell)?;
    row.push(b'\t')?;
    row.extend_from_slice(&cell)?;
    Ok(())
}

// The parts that a text is counted by, each behind a tab.
fn counted_row(alloc: Global, options: &Options, text: &[u8]) -> Result<Vec<u8>, Fault>
    ensures ok { IfOk result (λ row. AreCounted options.now text.now row.items) }
    ensures rejected { Rejects options.now.grammar text.now result }
{
    let mut row = Vec::new(alloc);
    'parts: for part in &options.by {
        append_counted(alloc, options.grammar, part, text, &mut row)?;
    }
    Ok(row)
}

/// Appends the line of a text that is sorted: the text, or its serialized form, or what it is counted by.
///
/// # Errors
///
/// As of [`vjson_text::check`].
pub fn append_line(
    alloc: Global,
    options: &Options,
    text: &[u8],
    out: &mut Vec<u8>,
) -> Result<(), Fault>
    ensures ok { OnOk result (AppendsLine options.now text.now out.old.items out.new.items) }
    ensures err { IfErr result (λ f. f ≢ Fault.NoMemory → out.new.items ≡ out.old.items) }
    ensures rejected { Rejects options.now.grammar text.now result }
    ensures memory { result ≡ Err Fault.NoMemory → MayTakeMemory options.now.grammar text.now
        ⊎ ((options.now.canonical ≡ false) ⊎ (options.now.count ≡ true)) }
{
    if options.count {
        let row = counted_row(alloc, options, text)?;
        out.extend_from_slice(&row)?;
        return Ok(());
    }
    if !options.canonical {
        out.extend_from_slice(text)?;
        return Ok(());
    }
    vjson_text::append(alloc, options.grammar, Layout::Compact, text, out)
}

/// Prints the text's line behind the key that it is sorted by.
///
/// # Errors
///
/// As of [`vjson_text::check`].
pub fn print_key(
    alloc: Global,
    options: &Options,
    text: &[u8],
    buffers: &mut Buffers,
    out: &mut Vec<u8>,
) -> Result<(), Fault>
    ensures ok { OnOk result (PrintsKeyed options.now text.now out.old.items out.new.items) }
    ensures err { IfErr result (λ f. f ≢ Fault.NoMemory → out.new.items ≡ out.old.items) }
    ensures rejected { Rejects options.now.grammar text.now result }
    ensures memory { result ≡ Err Fault.NoMemory → MayTakeMemory options.now.grammar text.now }
{
    make_key(alloc, options, text, buffers)?;
    if !options.canonical {
        if !options.count {
            append_key_line(&buffers.key, text, out)?;
            return Ok(());
        }
    }
    let mut line = Vec::new(alloc);
    append_line(alloc, options, text, &mut line)?;
    append_key_line(&buffers.key, &line, out)?;
    Ok(())
}
