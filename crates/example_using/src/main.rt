//! The functions that docs/USING.md shows. The program prints what each gives.
#![tactic(auto)]

mod building;
mod comparing;
mod keeping;
mod reading;
mod walking;
mod writing;

use jsonb::{Error, Mode, Result, Value};
use std::alloc::Global;

const SETTINGS: &[u8] = b"{name: 'web', /* the usual one */ port: 8080, hosts: ['a', \"b\"]}";

const MIXED: [&[u8]; 7] = [b"null", b"[]", b"{}", b"'a'", b"10", b"9.5", b"true"];

fn main(rt: HostRuntime) -> Result<()> {
    let alloc = rt.alloc();
    show_reading(&rt, alloc)?;
    show_comparing(&rt, alloc)?;
    show_walking(&rt, alloc)?;
    show_building(&rt, alloc)?;
    show_keeping(&rt, alloc)
}

fn show_reading(rt: &impl Print, alloc: Global) -> Result<()> {
    for (mode, text) in [
        (Mode::Extended, "[1,]"),
        (Mode::Standard, "[1,]"),
        (Mode::Standard, "[1.5]"),
        (Mode::Standard, "{\"a\":1,\"a\":2}"),
    ] {
        match reading::read(alloc, mode, text.as_bytes()) {
            Ok(value) => show(rt, alloc, &value)?,
            Err(error) => {
                let described = reading::describe_error(alloc, &error)?;
                println!(rt; "{described}")?;
            }
        }
    }
    let lines = b"{\n  \"a\": [1,]\n}";
    if let Err(Error::Syntax(code, position)) = reading::read(alloc, Mode::Standard, lines) {
        let (line, column) = reading::line_and_column_of(lines, &code, position);
        println!(rt; "line {line}, column {column}: {code}")?;
    }
    let is_standard = reading::is_standard(alloc, SETTINGS)?;
    println!(rt; "{is_standard}")?;
    Ok(())
}

fn show_comparing(rt: &impl Print, alloc: Global) -> Result<()> {
    let are_equal = comparing::are_equal(alloc, b"{a: 1.0, 'b': 0x1}", b"{\"b\":1,\"a\":1}")?;
    println!(rt; "{are_equal}")?;
    let values = comparing::sort_documents(alloc, &MIXED)?;
    show(rt, alloc, &Value::Array(values))?;
    let (nine, ten) = (
        jsonb::parse_value(alloc, b"9.5")?,
        jsonb::parse_value(alloc, b"10")?,
    );
    let word = jsonb::parse_value(alloc, b"'a'")?;
    let below = comparing::pair_key(alloc, &nine, &word)?;
    let above = comparing::pair_key(alloc, &ten, &nine)?;
    let is_below = below < above;
    println!(rt; "{below:?} {is_below}")?;
    Ok(())
}

fn show_walking(rt: &impl Print, alloc: Global) -> Result<()> {
    let settings = jsonb::parse_value(alloc, SETTINGS)?;
    let port = walking::port(&settings);
    println!(rt; "{port:?}")?;
    if let Value::Object(members) = &settings {
        let outline = walking::list_members(alloc, members)?;
        print!(rt; "{outline}")?;
    }
    let count = walking::count_strings(&settings);
    println!(rt; "{count}")?;
    let items = walking::flatten(alloc, comparing::sort_documents(alloc, &MIXED)?)?;
    show(rt, alloc, &Value::Array(items))
}

fn show_building(rt: &impl Print, alloc: Global) -> Result<()> {
    show(rt, alloc, &building::pair(alloc, 1, 2)?)?;
    show(rt, alloc, &building::item(alloc, "tea", 250)?)?;
    let tidied = writing::tidy(alloc, SETTINGS)?;
    show(rt, alloc, &jsonb::parse_value(alloc, &tidied)?)?;
    let spread = writing::spread(alloc, SETTINGS)?;
    if let Ok(lines) = String::from_utf8(spread) {
        println!(rt; "{lines}")?;
    }
    Ok(())
}

fn show_keeping(rt: &impl Print, alloc: Global) -> Result<()> {
    let mut texts = Vec::new(alloc);
    for (name, text) in [("one", "[1]"), ("two", "[2]")] {
        let text = Vec::from_slice(alloc, text.as_bytes())?;
        texts.push((String::from_str(alloc, name)?, text))?;
    }
    let index = keeping::index_of(alloc, &texts)?;
    let value = jsonb::parse_value(alloc, b"[2.0]")?;
    match keeping::name_of(&index, &value) {
        Some(name) => println!(rt; "{name}")?,
        None => println!(rt; "no name")?,
    }
    show(rt, alloc, &keeping::read_owned(alloc, b"['a', {b: 'c'}]")?)
}

// Prints the value's text on a line of its own.
fn show(rt: &impl Print, alloc: Global, value: &Value) -> Result<()> {
    let mut line = Vec::new(alloc);
    writing::append_line(value, &mut line)?;
    let Ok(text) = String::from_utf8(line) else {
        return Ok(());
    };
    print!(rt; "{text}")?;
    Ok(())
}
