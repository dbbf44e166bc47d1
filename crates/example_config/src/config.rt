//! The settings of a server.

ghost use Rattle.std.specs.Prelude.{◌≡◌, ◌↔◌, ℕ, ◌<◌, ◌^◌, pos, Some, None, option_map, IfOk, IfErr, IfSome, IfNone};
ghost use Rattle.jsonb_spec.specs.Accessors.{IsWholeNumber, as_boolean, as_string};
ghost use Rattle.jsonb.specs.AstView.{ast_view, written_members};
ghost use Rattle.jsonb_spec.specs.Grammar.{IsDocument};
ghost use Rattle.jsonb_spec.specs.Line.{line_at, column_at};
ghost use Rattle.jsonb_spec.specs.Mode.{extended};
ghost use Rattle.jsonb.specs.Source.{source_members_view};
ghost use Rattle.jsonb_spec.specs.Tree.{Mark, Tree};
ghost use Rattle.example_config.specs.Config.{key_of, setting_of, shown_index, IsHost, IsPort, IsWorkers, IsVerbose, IsConfig, IsConfigOf, HasKeyEnd, IsSettingError, IsConfigError};

use jsonb::{Error, JsonAst, Mode, fault_index, line_and_column};
use std::alloc::Global;
use std::borrow::CowStr;
use std::fmt;

/// The settings of a server. Keys that aren't settings are ignored.
#[derive(Debug, Drop)]
pub struct Config {
    /// A text, `localhost` by default.
    pub host: String,
    /// An integer below 2^16, 8080 by default.
    pub port: u16,
    /// An integer below 2^64, 4 by default.
    pub workers: u64,
    /// A boolean, false by default.
    pub verbose: bool,
}

/// The settings.
#[derive(Clone, Copy, Debug, PartialEq, Eq)]
pub enum Setting {
    Host,
    Port,
    Workers,
    Verbose,
}

impl Setting {
    /// The setting's key in the file.
    pub fn key(self) -> &'static str
        ensures key { result.now ≡ key_of self }
    {
        match self {
            Setting::Host => "host",
            Setting::Port => "port",
            Setting::Workers => "workers",
            Setting::Verbose => "verbose",
        }
    }

    // What its value has to be, in words.
    fn wanted_kind(self) -> &'static str {
        match self {
            Setting::Host => "a string",
            Setting::Port => "an integer from 0 to 65535",
            Setting::Workers => "an integer from 0 to 18446744073709551615",
            Setting::Verbose => "true or false",
        }
    }
}

/// Why a text gives no settings.
#[derive(Debug, Drop)]
pub enum ConfigError {
    /// The text is rejected; the line and the column are those of the byte to show.
    NoDocument(Error, usize, usize),
    /// The document is no object.
    NoObject,
    /// The setting is of the wrong kind or out of range; the line and the column are those where its key ends.
    Wrong(Setting, usize, usize),
    /// Memory ran out.
    NoMemory,
}

impl fmt::Display for ConfigError {
    fn fmt<W: fmt::Write>(&self, f: &mut fmt::Formatter<W>) -> fmt::Result {
        match self {
            ConfigError::NoDocument(error, line, column) => {
                write!(f, "line {line}, column {column}: {error}")
            }
            ConfigError::NoObject => write!(f, "the settings aren't an object"),
            ConfigError::Wrong(setting, line, column) => {
                let (key, wanted) = (setting.key(), setting.wanted_kind());
                write!(f, "line {line}, column {column}: {key} isn't {wanted}")
            }
            ConfigError::NoMemory => write!(f, "out of memory"),
        }
    }
}

// A member of an object as it was read: its key, its value, and the index where its key ends.
type Member<'a> = (CowStr<'a>, JsonAst<'a>, usize);

/// The settings that the text gives, with the defaults of those that are missing.
///
/// # Errors
///
/// `NoDocument` where the text is no document of extended mode, `NoObject` where it is one of another value, `Wrong`
/// with a setting of the wrong kind or out of range, and `NoMemory` where none is wrong and there is no memory for the
/// host.
pub fn read_config(alloc: Global, text: &[u8]) -> Result<Config, ConfigError>
    ensures config { IfOk result (λ c. (t : Tree) × IsDocument extended text.now t × IsConfigOf t c) }
    ensures only { IfOk result (λ c. (t : Tree) → IsDocument extended text.now t → IsConfigOf t c) }
    ensures rejected { IfErr result (IsConfigError text.now) }
{
    let document = match JsonAst::parse(alloc, text, Mode::Extended) {
        Ok(document) => document,
        Err(error) => {
            let (line, column) = line_and_column(text, shown_index(text, &error));
            return Err(ConfigError::NoDocument(error, line, column));
        }
    };
    let JsonAst::Object(members) = &document else {
        return Err(ConfigError::NoObject);
    };
    config_of(alloc, text, members)
}

// The index of the byte to show of an error.
fn shown_index(text: &[u8], error: &Error) -> usize
    ensures { result ≡ shown_index text.now error.now }
{
    match error {
        Error::Syntax(code, position) => fault_index(text, code, *position),
        _ => 0,
    }
}

// The settings of an object with these members of the text.
fn config_of(alloc: Global, text: &[u8], members: &[Member]) -> Result<Config, ConfigError>
    ensures ok { IfOk result (IsConfig (written_members members.now)) }
    ensures rejected { IfErr result (IsSettingError text.now members.now) }
{
    let port = port_of(text, members)?;
    let workers = workers_of(text, members)?;
    let verbose = verbose_of(text, members)?;
    let host = host_of(text, members)?;
    let Ok(host) = String::from_str(alloc, host) else {
        return Err(ConfigError::NoMemory);
    };
    Ok(Config {
        host,
        port,
        workers,
        verbose,
    })
}

// The text of the host.
fn host_of<'m>(text: &[u8], members: &'m [Member]) -> Result<&'m str, ConfigError>
    ensures ok { IfOk result (λ host. IsHost (setting_of Setting.Host (written_members members.now)) host.now) }
    ensures rejected { IfErr result (IsSettingError text.now members.now) }
{
    let Some((value, end)) = member_of(members, Setting::Host) else {
        return Ok("localhost");
    };
    let Some(host) = string(value) else {
        return Err(wrong(text, Setting::Host, end));
    };
    Ok(host)
}

// The number of the port.
fn port_of(text: &[u8], members: &[Member]) -> Result<u16, ConfigError>
    ensures ok { IfOk result (IsPort (setting_of Setting.Port (written_members members.now))) }
    ensures rejected { IfErr result (IsSettingError text.now members.now) }
{
    let Some((value, end)) = member_of(members, Setting::Port) else {
        return Ok(8080);
    };
    let Some(port) = small_number(value) else {
        return Err(wrong(text, Setting::Port, end));
    };
    Ok(port)
}

// The number of workers.
fn workers_of(text: &[u8], members: &[Member]) -> Result<u64, ConfigError>
    ensures ok { IfOk result (IsWorkers (setting_of Setting.Workers (written_members members.now))) }
    ensures rejected { IfErr result (IsSettingError text.now members.now) }
{
    let Some((value, end)) = member_of(members, Setting::Workers) else {
        return Ok(4);
    };
    let Some(workers) = whole_number(value) else {
        return Err(wrong(text, Setting::Workers, end));
    };
    Ok(workers)
}

// Whether more is reported.
fn verbose_of(text: &[u8], members: &[Member]) -> Result<bool, ConfigError>
    ensures ok { IfOk result (IsVerbose (setting_of Setting.Verbose (written_members members.now))) }
    ensures rejected { IfErr result (IsSettingError text.now members.now) }
{
    let Some((value, end)) = member_of(members, Setting::Verbose) else {
        return Ok(false);
    };
    let Some(verbose) = truth_value(value) else {
        return Err(wrong(text, Setting::Verbose, end));
    };
    Ok(verbose)
}

// The error of this setting, whose key ends at the index.
fn wrong(text: &[u8], setting: Setting, end: usize) -> ConfigError
    ensures { result ≡ ConfigError.Wrong setting (line_at text.now end) (column_at text.now end) }
{
    let (line, column) = line_and_column(text, end);
    ConfigError::Wrong(setting, line, column)
}

// The value at the setting's key, and the index where the key ends.
fn member_of<'m, 'a>(
    members: &'m [Member<'a>],
    setting: Setting,
) -> Option<(&'m JsonAst<'a>, usize)>
    ensures value { option_map (λ m. ast_view m.0.now) result ≡ setting_of setting (written_members members.now) }
    ensures ends { IfSome result (λ m. HasKeyEnd (source_members_view members.now) (key_of setting) m.1) }
{
    let key = setting.key();
    let mut found = None;
    'members: for (name, value, end) in members {
        if key != name.as_str() {
            continue;
        }
        found = Some((value, *end));
    }
    found
}

// The bytes of a string.
fn string<'m>(value: &'m JsonAst) -> Option<&'m str>
    ensures some { IfSome result (λ s. (mark : Mark) × (as_string (ast_view value.now) ≡ Some (mark, s.now))) }
    ensures none { IfNone result (as_string (ast_view value.now) ≡ None) }
{
    match value {
        JsonAst::String(text) => Some(text.as_str()),
        _ => None,
    }
}

// The integer below 2^64 that the value is.
fn whole_number(value: &JsonAst) -> Option<u64>
    ensures { (n : ℕ) → (result ≡ Some n) ↔ (IsWholeNumber (ast_view value.now) (pos n) × (n < 2 ^ 64)) }
{
    match value {
        JsonAst::Number(number) => number.as_u64(),
        _ => None,
    }
}

// The integer below 2^16 that the value is.
fn small_number(value: &JsonAst) -> Option<u16>
    ensures { (n : ℕ) → (result ≡ Some n) ↔ (IsWholeNumber (ast_view value.now) (pos n) × (n < 2 ^ 16)) }
{
    u16::try_from(whole_number(value)?).ok()
}

// The boolean that the value is.
fn truth_value(value: &JsonAst) -> Option<bool>
    ensures { result ≡ as_boolean (ast_view value.now) }
{
    match value {
        JsonAst::Bool(truth) => Some(*truth),
        _ => None,
    }
}
