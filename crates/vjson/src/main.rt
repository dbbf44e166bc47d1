//! `vjson`: checks, formats, sorts and compares JSON by value, at a shell.
#![tactic(auto)]

pub mod meter;

use meter::Meter;
use std::env::VarError;
use std::fs::File;
use std::io::{BufReader, IsTerminal, Read, Write};
use std::process::ExitCode;
use std::rt::Env;
use std::{env, fs, io, mem};
use vjson_run::options::{Asked, Command, HELP, Options, Progress, read_words};
use vjson_run::session::Session;

// How many bytes are read at once.
const BLOCK: usize = 1 << 16;

const VERSION: &str = "vjson (Vizhoniku) 0.2.0";

// What is said of a pointer that is the name of a file.
const DOUBTFUL: &str =
    "is a JSON Pointer here, and a file: write -- before files, or - for standard input";

// The program's arguments without its own name.
fn words(rt: &(impl Env + AllocGlobal)) -> io::Result<Vec<String>> {
    let words: Vec<String> = env::args(rt)?.skip(1).collect(rt.alloc())?;
    Ok(words)
}

// When it is reported how much was read, at these streams.
fn delay_of(rt: &HostRuntime, progress: Progress) -> Option<u64> {
    if !rt.stderr().is_terminal() {
        return None;
    }
    match progress {
        Progress::Never => None,
        Progress::Late if rt.stdout().is_terminal() => None,
        Progress::Late => Some(2),
        Progress::Always => Some(0),
    }
}

// Reads one input.
fn feed_from<I: Read + Drop, W: Write, E: Write>(
    rt: &HostRuntime,
    session: &mut Session<W, E>,
    name: &str,
    delay: Option<u64>,
    input: I,
) -> io::Result<()> {
    let meter = Meter::new(rt, delay, input);
    let mut input = BufReader::with_capacity(rt.alloc(), BLOCK, meter)?;
    session.feed(name, &mut input)
}

// Reads one file, or standard input for `-`.
fn feed<W: Write, E: Write>(
    rt: &HostRuntime,
    session: &mut Session<W, E>,
    name: &str,
    delay: Option<u64>,
) {
    let result = if name == "-" {
        feed_from(rt, session, shown(name), delay, rt.stdin())
    } else {
        match File::open(rt, name) {
            Ok(file) => feed_from(rt, session, name, delay, file),
            Err(error) => Err(error),
        }
    };
    if let Err(error) = result {
        session.cannot_read(shown(name), &error);
    }
}

// The name by which an input is reported.
fn shown(name: &str) -> &str {
    if name == "-" { "<stdin>" } else { name }
}

// All of one input.
fn read_from<I: Read + Drop>(
    rt: &HostRuntime,
    delay: Option<u64>,
    input: I,
) -> io::Result<Vec<u8>> {
    let mut bytes = Vec::new(rt.alloc());
    let mut meter = Meter::new(rt, delay, input);
    meter.read_to_end(&mut bytes)?;
    Ok(bytes)
}

// All of one file, or of standard input for `-`.
fn read(rt: &HostRuntime, name: &str, delay: Option<u64>) -> io::Result<Vec<u8>> {
    if name == "-" {
        return read_from(rt, delay, rt.stdin());
    }
    let file = File::open(rt, name)?;
    read_from(rt, delay, file)
}

// The first file's bytes, where `check` accepts them. `None` also where the file can't be read.
fn read_base(rt: &HostRuntime, options: &Options) -> Option<Vec<u8>> {
    let name = options.files.first()?.as_str();
    let mut session = Session::new(rt.alloc(), options, rt.stdout(), rt.stderr());
    let bytes = match read(rt, name, delay_of(rt, options.progress)) {
        Ok(bytes) => bytes,
        Err(error) => {
            session.cannot_read(shown(name), &error);
            return None;
        }
    };
    if let Err(error) = session.feed(shown(name), &mut bytes.as_slice()) {
        session.cannot_read(shown(name), &error);
    }
    if session.finish() != 0 {
        return None;
    }
    Some(bytes)
}

// Has the first file be what the other is compared with. False where it can't be.
fn set_base(rt: &HostRuntime, options: &mut Options) -> bool {
    options.command = Command::Check;
    let Some(bytes) = read_base(rt, options) else {
        return false;
    };
    options.command = Command::Diff;
    options.base = bytes;
    true
}

// The files whose texts are taken: not the first one of `equal --diff`.
fn compared(options: &Options) -> &[String] {
    match (options.command, options.files.as_slice()) {
        (Command::Diff, [_, others @ ..]) => others,
        (_, files) => files,
    }
}

fn run(rt: &HostRuntime, options: &Options) -> u8 {
    let alloc = rt.alloc();
    let delay = delay_of(rt, options.progress);
    let mut session = Session::new(alloc, options, rt.stdout(), rt.stderr());
    if options.files.is_empty() {
        feed(rt, &mut session, "-", delay);
    }
    'files: for name in compared(options) {
        if session.is_over() {
            break;
        }
        feed(rt, &mut session, name.as_str(), delay);
    }
    let status = session.finish();
    // The program ends here, and its memory with it: freeing millions of lines one by one takes time.
    mem::forget(session);
    status
}

// Whether the last of several pointers may be meant as a file: no file is given, and there is one of this name.
fn is_doubtful(rt: &HostRuntime, options: &Options, pointer: &str) -> bool {
    if !options.files.is_empty() {
        return false;
    }
    match fs::metadata(rt, pointer) {
        Ok(metadata) => metadata.is_file(),
        Err(_) => false,
    }
}

// Whether a terminal is shown colours: NO_COLOR isn't set, or empty.
fn has_colours(rt: &(impl Env + AllocGlobal)) -> bool {
    match env::var(rt, "NO_COLOR") {
        Ok(word) => word.is_empty(),
        Err(VarError::NotPresent) => true,
        Err(_) => false,
    }
}

fn main(rt: HostRuntime) -> ExitCode {
    let Ok(words) = words(&rt) else {
        let _ = writeln!(
            rt.stderr(),
            "vjson: an argument isn't UTF-8, or there is no memory"
        );
        return ExitCode::from(2);
    };
    match read_words(rt.alloc(), &words) {
        Ok(Asked::Help) => {
            let _ = write!(rt.stdout(), "{}", HELP);
            ExitCode::SUCCESS
        }
        Ok(Asked::Version) => {
            let _ = writeln!(rt.stdout(), "{VERSION}");
            ExitCode::SUCCESS
        }
        Ok(Asked::Run(mut options)) => {
            if let Some(pointer) = &options.last_pointer {
                if is_doubtful(&rt, &options, pointer.as_str()) {
                    let _ = writeln!(rt.stderr(), "vjson: {pointer} {DOUBTFUL}");
                    return ExitCode::from(2);
                }
            }
            // A person reads each line as it comes.
            if rt.stdout().is_terminal() {
                options.block = 1;
                options.colours = has_colours(&rt);
            }
            if options.command == Command::Diff && !set_base(&rt, &mut options) {
                return ExitCode::from(2);
            }
            ExitCode::from(run(&rt, &options))
        }
        Err(message) => {
            let _ = writeln!(rt.stderr(), "vjson: {message}\nTry 'vjson --help'.");
            ExitCode::from(2)
        }
    }
}
