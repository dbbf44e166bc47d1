//! The words of the command line.

use jsonb_path::read_keys;
use std::alloc::{AllocError, AllocFailed, Global};
use std::fmt;
use vjson_text::{Fault, Grammar, Layout, Message};

/// What `--help` prints.
pub const HELP: &str = "\
Usage: vjson COMMAND [OPTION]... [FILE]...
Check, format, sort and compare JSON by value. With no FILE, or where FILE is -,
standard input is read.

  check                  print nothing, or FILE:LINE:COLUMN: and what is wrong
  format                 print each text laid out, keys in order (vjson FILE too)
  get POINTER...         print the part at a JSON Pointer, as /items/0/name; of
                         several the parts, with tabs between (-- before a /file)
  sort                   sort JSON Lines by value
  count                  print how many texts there are, or with --by how often
                         each part is there, in order
  equal A B              status 0 where the values of two files are equal, else 1
  keys                   print each line behind its sort key and a tab, for
                         LC_ALL=C sort | cut -f2-

  -l, --lines            each line is a text (sort, count and keys always)
      --extended         also comments, single quotes, unquoted keys and more
      --extended-json    the same, and decimals may have exponents
      --standard         numbers are integers of 64 bits alone
  -c, --compact          format: on one line
      --indent N         format: N spaces, 0 to 16 (2)
      --where POINTER OP JSON
                         only texts whose part is =, !=, <, <=, > or >= the value
      --has POINTER      only texts with this part (all but check and equal)
      --lacks POINTER    only texts without it
  -r, --raw              get: a string without quotes and escapes
      --array            get: the parts as one JSON array
      --default TEXT     get: what to print where there is no such part
  -u, --unique           sort: one of equal values, the first
      --reverse          sort, count: descending
      --by POINTER       sort, count, keys: by this part; lines without it come
                         first. Another --by orders those that are equal by it
      --down POINTER     the same, descending
      --check            sort: only say whether the lines are in order
      --canonical        sort, keys: print the values' canonical text
      --diff             equal: print each part that differs: its JSON Pointer, and
                         what A and B have there, with tabs between
  -q, --quiet            check, equal: the status alone
      --line-buffered    format, get, keys: write each line at once, as from tail -f
      --progress, --no-progress
                         show on a terminal how much was read (after 2 seconds)
      --help, --version

Status: 0 done; 1 some text is rejected, a part is missing, values differ or lines
are out of order; 2 wrong usage, or a file or memory failed.
";

/// How many bytes of the output are held before they are written, where nothing else is asked for.
pub const BLOCK: usize = 1 << 16;

/// What is done with the texts.
#[derive(Clone, Copy, PartialEq, Eq, Debug)]
pub enum Command {
    Check,
    Format,
    Get,
    Sort,
    Equal,
    /// `equal --diff`.
    Diff,
    Keys,
}

/// When it is reported how much was read.
#[derive(Clone, Copy, PartialEq, Eq, Debug)]
pub enum Progress {
    Never,
    /// After two seconds, where errors go to a terminal and the output doesn't.
    Late,
    /// Where errors go to a terminal.
    Always,
}

/// A part that lines are sorted by, up or down.
#[derive(Drop)]
pub struct Part {
    pub path: Vec<String>,
    pub down: bool,
}

/// What a text has to be like: whether its part at the path may be less than the value with this key, equal to it, and
/// greater, and whether it may be absent.
#[derive(Drop)]
pub struct Condition {
    pub path: Vec<String>,
    pub key: Vec<u8>,
    pub less: bool,
    pub equal: bool,
    pub greater: bool,
    pub absent: bool,
}

/// A command with its options and its files.
#[derive(Drop)]
pub struct Options {
    pub command: Command,
    pub grammar: Grammar,
    pub lines: bool,
    pub layout: Option<Layout>,
    pub raw: bool,
    pub array: bool,
    pub unique: bool,
    /// Whether `sort` prints how often each key is there, as `count`.
    pub count: bool,
    pub reverse: bool,
    pub check: bool,
    pub canonical: bool,
    /// Whether `format` prints in colours: on a terminal.
    pub colours: bool,
    pub quiet: bool,
    pub progress: Progress,
    /// How many bytes of the output are held before they are written.
    pub block: usize,
    pub default: Option<String>,
    /// Where `get` looks for parts.
    pub paths: Vec<Vec<String>>,
    /// The parts that lines are sorted by, the first before the others.
    pub by: Vec<Part>,
    /// What texts have to be like, each of them.
    pub conditions: Vec<Condition>,
    /// The bytes of the file that `equal --diff` compares others with.
    pub base: Vec<u8>,
    /// The last word of several that was taken for a pointer.
    pub last_pointer: Option<String>,
    pub files: Vec<String>,
}

/// What the words ask for.
#[derive(Drop)]
pub enum Asked {
    Help,
    Version,
    Run(Options),
}

/// Why the words ask for nothing.
#[derive(Debug, Drop)]
pub enum UsageError {
    NoCommand,
    /// Such a word, and what there is instead of it.
    UnknownCommand(String, &'static str),
    UnknownOption(String, &'static str),
    NotHere(String, &'static str),
    NoValue(String),
    NoPointer(String),
    NoNumber(String),
    NoComparison(String),
    /// A word that is no JSON, the column, and why.
    NoText(String, usize, Message),
    RawArray,
    QuietDiff,
    PointerMissing,
    TwoFiles,
    NoMemory,
}

impl From<AllocError> for UsageError {
    fn from(_: AllocError) -> UsageError {
        UsageError::NoMemory
    }
}

impl<T: Drop> From<AllocFailed<T>> for UsageError {
    fn from(_: AllocFailed<T>) -> UsageError {
        UsageError::NoMemory
    }
}

impl fmt::Display for UsageError {
    fn fmt<W: fmt::Write>(&self, f: &mut fmt::Formatter<W>) -> fmt::Result {
        match self {
            UsageError::NoCommand => f.write_str("no command given"),
            UsageError::UnknownCommand(word, instead) => {
                write!(f, "no such command: {word}{instead}")
            }
            UsageError::UnknownOption(word, instead) => {
                write!(f, "no such option: {word}{instead}")
            }
            UsageError::NotHere(word, instead) => {
                write!(f, "this command doesn't take {word}{instead}")
            }
            UsageError::NoValue(word) => write!(f, "option {word} needs a value"),
            UsageError::NoPointer(word) => write!(
                f,
                "not a JSON Pointer: {word} (write /a/0 for the first item of a, '' for the whole text)"
            ),
            UsageError::NoNumber(word) => write!(f, "not a number from 0 to 16: {word}"),
            UsageError::NoComparison(word) => {
                write!(
                    f,
                    "not a comparison: {word} (=, !=, <, <=, > or >=, in quotes)"
                )
            }
            UsageError::NoText(word, column, message) => write!(
                f,
                "not a JSON text: {word} (column {column}: {message}; a string is written '\"x\"')"
            ),
            UsageError::RawArray => f.write_str("--array prints JSON, and --raw doesn't"),
            UsageError::QuietDiff => f.write_str("--diff prints, and --quiet doesn't"),
            UsageError::PointerMissing => f.write_str("get needs a JSON Pointer, as /a/0"),
            UsageError::TwoFiles => f.write_str("equal needs two files"),
            UsageError::NoMemory => f.write_str("out of memory"),
        }
    }
}

fn copy(alloc: Global, text: &str) -> Result<String, UsageError> {
    Ok(String::from_str(alloc, text)?)
}

// What there is instead of a command of jq and other programs.
fn instead_of_command(word: &str) -> &'static str {
    match word {
        "." | "cat" | "pretty" => " (format lays a text out, as jq . does)",
        "lint" | "validate" => " (check prints what is wrong)",
        "cmp" | "diff" =>
            " (equal says whether two values are the same, equal --diff where they differ)",
        "pick" => " (get prints parts)",
        "filter" | "grep" | "select" => " (format -l --where POINTER = JSON prints some texts)",
        "uniq" =>
            " (sort --unique prints one of equal values, count --by '' how often each is there)",
        "wc" => " (count prints how many texts there are)",
        _ => "",
    }
}

// What there is instead of an option of sort(1) or jq.
fn instead_of_option(command: Command, word: &str) -> &'static str {
    match (command, word) {
        (Command::Sort, "-r") => " (--reverse sorts downwards)",
        (Command::Sort, "-c" | "-C") => " (sort --check says whether lines are in order)",
        (Command::Sort | Command::Keys, "-k" | "--key") => " (--by POINTER sorts by a part)",
        (Command::Sort, "-n" | "-g") => " (numbers are in the order of their values)",
        (_, "-o" | "--output") => " (write > FILE)",
        (_, "-S" | "--sort-keys") => " (members are in the order of their keys)",
        (_, "--tab") => " (--indent N)",
        _ => "",
    }
}

fn command_of(alloc: Global, word: &str) -> Result<Command, UsageError> {
    match word {
        "check" => Ok(Command::Check),
        "format" => Ok(Command::Format),
        "get" => Ok(Command::Get),
        "sort" | "count" => Ok(Command::Sort),
        "equal" => Ok(Command::Equal),
        "keys" => Ok(Command::Keys),
        _ => Err(UsageError::UnknownCommand(copy(alloc, word)?, instead_of_command(word))),
    }
}

fn pointer_of(alloc: Global, word: &str) -> Result<Vec<String>, UsageError> {
    match read_keys(alloc, word.as_bytes())? {
        Some(keys) => Ok(keys),
        None => Err(UsageError::NoPointer(copy(alloc, word)?)),
    }
}

fn width_of(alloc: Global, word: &str) -> Result<usize, UsageError> {
    match word.parse::<usize>() {
        Ok(width) if width <= 16 => Ok(width),
        _ => Err(UsageError::NoNumber(copy(alloc, word)?)),
    }
}

// Whether the command takes the option.
fn takes(command: Command, option: &str) -> bool {
    match option {
        "--lines" => !matches!(command, Command::Equal | Command::Diff),
        "--compact" | "--indent" => command == Command::Format,
        "--raw" | "--array" | "--default" => command == Command::Get,
        "--where" | "--has" | "--lacks" => !matches!(
            command,
            Command::Check | Command::Equal | Command::Diff
        ),
        "--unique" | "--reverse" | "--check" => command == Command::Sort,
        "--by" | "--down" | "--canonical" => matches!(command, Command::Sort | Command::Keys),
        "--quiet" => matches!(command, Command::Check | Command::Equal | Command::Diff),
        "--diff" => matches!(command, Command::Equal | Command::Diff),
        "--line-buffered" => matches!(command, Command::Format | Command::Get | Command::Keys),
        _ => true,
    }
}

// The long name of an option of one letter.
fn long_name(word: &str) -> &str {
    match word {
        "-l" => "--lines",
        "-c" => "--compact",
        "-r" => "--raw",
        "-u" => "--unique",
        "-q" => "--quiet",
        "-h" => "--help",
        "-V" => "--version",
        _ => word,
    }
}

// The long name of a letter behind others, as in -lr.
fn name_of_letter(letter: u8) -> Option<&'static str> {
    match letter {
        b'l' => Some("--lines"),
        b'c' => Some("--compact"),
        b'r' => Some("--raw"),
        b'u' => Some("--unique"),
        b'q' => Some("--quiet"),
        _ => None,
    }
}

fn new_options(alloc: Global, command: Command) -> Options {
    Options {
        command,
        grammar: Grammar::Json,
        lines: matches!(command, Command::Sort | Command::Keys),
        layout: None,
        raw: false,
        array: false,
        unique: false,
        count: false,
        reverse: false,
        check: false,
        canonical: false,
        colours: false,
        quiet: false,
        progress: Progress::Late,
        block: BLOCK,
        default: None,
        paths: Vec::new(alloc),
        by: Vec::new(alloc),
        conditions: Vec::new(alloc),
        base: Vec::new(alloc),
        last_pointer: None,
        files: Vec::new(alloc),
    }
}

impl Options {
    ghost use Rattle.std.specs.Prelude.{◌≡◌};
    ghost use Rattle.vjson_run.specs.Answers.{checks_order};

    /// Whether it is asked whether lines are in order.
    pub fn checks_order(&self) -> bool
        ensures { result ≡ checks_order self.now }
    {
        match self.command {
            Command::Sort => self.check,
            _ => false,
        }
    }

    // Sets what an option without a value says. False where there is none of the name.
    fn set_flag(&mut self, name: &str) -> bool {
        match name {
            "--lines" => self.lines = true,
            "--extended" => self.grammar = Grammar::Extended,
            "--extended-json" => self.grammar = Grammar::ExtendedJson,
            "--standard" => self.grammar = Grammar::Standard,
            "--compact" => self.layout = Some(Layout::Compact),
            "--raw" => self.raw = true,
            "--array" => self.array = true,
            "--unique" => self.unique = true,
            "--reverse" => self.reverse = true,
            "--check" => self.check = true,
            "--canonical" => self.canonical = true,
            "--quiet" => self.quiet = true,
            "--diff" => self.command = Command::Diff,
            "--line-buffered" => self.block = 1,
            "--progress" => self.progress = Progress::Always,
            "--no-progress" => self.progress = Progress::Never,
            _ => return false,
        }
        true
    }

    // Sets what an option with a value says, which may be the first of several. False where there is none of the name.
    fn set_value(
        &mut self,
        alloc: Global,
        name: &str,
        value: &str,
        words: &mut Words<'_>,
    ) -> Result<bool, UsageError> {
        match name {
            "--indent" => self.layout = Some(Layout::Indent(width_of(alloc, value)?)),
            "--default" => self.default = Some(copy(alloc, value)?),
            "--by" | "--down" => self.by.push(Part {
                path: pointer_of(alloc, value)?,
                down: name == "--down",
            })?,
            "--has" => self.conditions.push(present(alloc, value)?)?,
            "--lacks" => self.conditions.push(absent(alloc, value)?)?,
            "--where" => {
                let comparison = next_value(alloc, name, words)?;
                let text = next_value(alloc, name, words)?;
                self.conditions
                    .push(condition_of(alloc, value, comparison, text)?)?;
            }
            _ => return Ok(false),
        }
        Ok(true)
    }

    // Takes a word that is no option: a pointer of `get`, or a file. All behind a file are files, and all behind `--`
    // but for the first pointer.
    fn take_word(&mut self, alloc: Global, word: &str, only_files: bool) -> Result<(), UsageError> {
        let first = self.paths.is_empty();
        let another = !only_files
            && self.files.is_empty()
            && (word.is_empty() || word.starts_with("/"));
        if self.command == Command::Get && (first || another) {
            self.paths.push(pointer_of(alloc, word)?)?;
            if !first {
                self.last_pointer = Some(copy(alloc, word)?);
            }
            return Ok(());
        }
        self.files.push(copy(alloc, word)?)?;
        Ok(())
    }
}

// The key of a JSON text.
fn key_of(alloc: Global, word: &str) -> Result<Vec<u8>, UsageError> {
    let mut key = Vec::new(alloc);
    match vjson_text::append_key(alloc, Grammar::Json, word.as_bytes(), &mut key) {
        Ok(()) => Ok(key),
        Err(Fault::NoMemory) => Err(UsageError::NoMemory),
        Err(Fault::At(offset, message)) => {
            Err(UsageError::NoText(copy(alloc, word)?, offset.saturating_add(1), message))
        }
    }
}

// That the part is there.
fn present(alloc: Global, pointer: &str) -> Result<Condition, UsageError> {
    Ok(Condition {
        path: pointer_of(alloc, pointer)?,
        key: Vec::new(alloc),
        less: true,
        equal: true,
        greater: true,
        absent: false,
    })
}

// That it isn't.
fn absent(alloc: Global, pointer: &str) -> Result<Condition, UsageError> {
    Ok(Condition {
        path: pointer_of(alloc, pointer)?,
        key: Vec::new(alloc),
        less: false,
        equal: false,
        greater: false,
        absent: true,
    })
}

// How the part is beside a value. What is absent isn't equal to any value.
fn condition_of(
    alloc: Global,
    pointer: &str,
    comparison: &str,
    text: &str,
) -> Result<Condition, UsageError> {
    let (less, equal, greater) = match comparison {
        "=" => (false, true, false),
        "!=" => (true, false, true),
        "<" => (true, false, false),
        "<=" => (true, true, false),
        ">" => (false, false, true),
        ">=" => (false, true, true),
        _ => return Err(UsageError::NoComparison(copy(alloc, comparison)?)),
    };
    Ok(Condition {
        path: pointer_of(alloc, pointer)?,
        key: key_of(alloc, text)?,
        less,
        equal,
        greater,
        absent: less && greater,
    })
}

// Whether an option of the name takes a value.
fn has_value(name: &str) -> bool {
    matches!(
        name,
        "--indent" | "--default" | "--by" | "--down" | "--where" | "--has" | "--lacks"
    )
}

// The words behind the command, as they are read.
#[derive(Drop)]
struct Words<'w> {
    rest: &'w [String],
    // Whether `--` was read, so that all that follow are files.
    only_files: bool,
}

impl Options {
    // Whether the command takes the option: `count` sorts, but has a line of its own for each key.
    fn takes(&self, option: &str) -> bool {
        let of_lines = matches!(option, "--unique" | "--check" | "--canonical");
        takes(self.command, option) && !(self.count && of_lines)
    }

    // Takes several options of one letter, as -lr.
    fn take_letters(
        &mut self,
        alloc: Global,
        word: &str,
        letters: &[u8],
    ) -> Result<(), UsageError> {
        'letters: for letter in letters {
            let Some(name) = name_of_letter(*letter) else {
                let instead = instead_of_option(self.command, word.get(..2).unwrap_or(word));
                return Err(UsageError::UnknownOption(copy(alloc, word)?, instead));
            };
            if !self.takes(name) {
                return Err(UsageError::NotHere(copy(alloc, name)?, ""));
            }
            self.set_flag(name);
        }
        Ok(())
    }

    // Takes an option, whose value may be the first of the words behind it.
    fn take_option(
        &mut self,
        alloc: Global,
        word: &str,
        words: &mut Words<'_>,
    ) -> Result<(), UsageError> {
        if let [b'-', letters @ ..] = word.as_bytes() {
            if letters.len() > 1 && letters[0] != b'-' {
                return self.take_letters(alloc, word, letters);
            }
        }
        let (name, value) = match word.split_once("=") {
            Some((name, value)) => (name, Some(value)),
            None => (long_name(word), None),
        };
        let instead = instead_of_option(self.command, word);
        if !self.takes(name) {
            return Err(UsageError::NotHere(copy(alloc, name)?, instead));
        }
        if has_value(name) {
            let value = match value {
                Some(value) => value,
                None => next_value(alloc, name, words)?,
            };
            self.set_value(alloc, name, value, words)?;
        } else if value.is_some() || !self.set_flag(name) {
            return Err(UsageError::UnknownOption(copy(alloc, word)?, instead));
        }
        Ok(())
    }

    // Whether all is there that the command needs.
    fn complete(self, alloc: Global) -> Result<Asked, UsageError> {
        if self.command == Command::Get && self.paths.is_empty() {
            return Err(UsageError::PointerMissing);
        }
        if self.array && self.raw {
            return Err(UsageError::RawArray);
        }
        if let Some(default) = &self.default {
            if self.array {
                drop(key_of(alloc, default.as_str())?);
            }
        }
        if self.command == Command::Diff && self.quiet {
            return Err(UsageError::QuietDiff);
        }
        if matches!(self.command, Command::Equal | Command::Diff) && self.files.len() != 2 {
            return Err(UsageError::TwoFiles);
        }
        Ok(Asked::Run(self))
    }
}

// The word behind an option that takes a value.
fn next_value<'w>(alloc: Global, name: &str, words: &mut Words<'w>) -> Result<&'w str, UsageError> {
    let Some((value, behind)) = words.rest.split_first() else {
        return Err(UsageError::NoValue(copy(alloc, name)?));
    };
    words.rest = behind;
    Ok(value.as_str())
}

// Whether the first word is no command but an option or a file. Then texts are formatted.
fn is_file(word: &str) -> bool {
    word.starts_with("-") || (word != "." && (word.contains(".") || word.contains("/")))
}

/// What the words ask for.
///
/// # Errors
///
/// Why they ask for nothing: no command, a word that is none of its options, or a value that is missing.
pub fn read_words(alloc: Global, words: &[String]) -> Result<Asked, UsageError> {
    let Some((first, behind)) = words.split_first() else {
        return Err(UsageError::NoCommand);
    };
    match long_name(first.as_str()) {
        "--help" | "help" => return Ok(Asked::Help),
        "--version" => return Ok(Asked::Version),
        _ => {}
    }
    let (command, rest) = if is_file(first.as_str()) {
        (Command::Format, words)
    } else {
        (command_of(alloc, first.as_str())?, behind)
    };
    let mut options = new_options(alloc, command);
    options.count = first.as_str() == "count";
    let mut words = Words {
        rest,
        only_files: false,
    };
    'words: for _ in 0..rest.len() {
        let Some((word, behind)) = words.rest.split_first() else {
            break;
        };
        words.rest = behind;
        let word = word.as_str();
        if words.only_files || word == "-" || !word.starts_with("-") {
            options.take_word(alloc, word, words.only_files)?;
        } else if word == "--" {
            words.only_files = true;
        } else {
            match long_name(word) {
                "--help" => return Ok(Asked::Help),
                "--version" => return Ok(Asked::Version),
                _ => options.take_option(alloc, word, &mut words)?,
            }
        }
    }
    options.complete(alloc)
}
