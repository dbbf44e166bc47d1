//! Reads the settings of a server from standard input, written in extended JSON, and writes them with the defaults of
//! those that are missing.
#![tactic(auto)]

pub mod config;

use config::{Config, Setting, read_config};
use jsonb::line::line_and_column;
use jsonb::{JsonAst, Mode};
use std::alloc::Global;
use std::io::{Read, Write};
use std::process::ExitCode;
use std::rt::Env;
use std::{env, io};

// All bytes of the input.
fn read_all<R: Read>(alloc: Global, input: &mut R) -> io::Result<Vec<u8>> {
    let mut bytes = Vec::new(alloc);
    input.read_to_end(&mut bytes)?;
    Ok(bytes)
}

// Writes a line for each setting.
fn put<W: Write>(out: &mut W, config: &Config) -> io::Result<()> {
    let host = config.host.as_str();
    let port = config.port;
    let workers = config.workers;
    let verbose = config.verbose;
    writeln!(out, "host: {host}")?;
    writeln!(out, "port: {port}")?;
    writeln!(out, "workers: {workers}")?;
    writeln!(out, "verbose: {verbose}")?;
    out.flush()
}

fn is_setting(name: &str) -> bool {
    let settings = [
        Setting::Host,
        Setting::Port,
        Setting::Workers,
        Setting::Verbose,
    ];
    settings.iter().any(|setting| setting.key() == name)
}

// Writes a line for each member that is no setting.
fn put_unknown<W: Write>(alloc: Global, out: &mut W, text: &[u8]) -> io::Result<()> {
    if let Ok(JsonAst::Object(members)) = JsonAst::parse(alloc, text, Mode::Extended) {
        for (name, _, end) in &members {
            if !is_setting(name.as_str()) {
                let (line, column) = line_and_column(text, *end);
                writeln!(
                    out,
                    "line {line}, column {column}: unknown setting {name}, left out"
                )?;
            }
        }
    }
    Ok(())
}

// Whether the program has arguments, and it takes none.
fn has_arguments(rt: &(impl Env + AllocGlobal)) -> io::Result<bool> {
    Ok(env::args(rt)?.nth(1).is_some())
}

fn main(rt: HostRuntime) -> ExitCode {
    if !matches!(has_arguments(&rt), Ok(false)) {
        let _ = writeln!(rt.stderr(), "usage: example_config < FILE");
        return ExitCode::from(2);
    }
    let Ok(text) = read_all(rt.alloc(), &mut rt.stdin()) else {
        let _ = writeln!(rt.stderr(), "the input can't be read");
        return ExitCode::FAILURE;
    };
    match read_config(rt.alloc(), &text) {
        Ok(config) => {
            let _ = put_unknown(rt.alloc(), &mut rt.stderr(), &text);
            match put(&mut rt.stdout(), &config) {
                Ok(()) => ExitCode::SUCCESS,
                Err(_) => ExitCode::FAILURE,
            }
        }
        Err(error) => {
            let _ = writeln!(rt.stderr(), "{error}");
            ExitCode::FAILURE
        }
    }
}
