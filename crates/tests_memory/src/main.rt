//! Makes calls of the libraries, row after row, and prints what each comes to. A test refuses one allocation a run: the call says
//! that memory is out, nothing has changed, and the same call, made once more, gives what it gives else. By the word
//! `first_life` it writes the journal of a first life instead, with which another test goes on. By the words `write PATH COUNT` it
//! appends records to the journal of this path, which other tests stop in the middle.
#![tactic(auto)]

mod cores;
mod disks;
mod drives;
mod first_life;
mod graphs;
mod lives;
mod made;
mod plans;
mod queues;
mod said;
mod texts;
mod writer;

use anyhow::{Result, bail};
use std::env;

/// The rows by their names.
static NAMES: [&str; 8] = [
    "texts", "graphs", "plans", "queues", "cores", "disks", "lives", "drives",
];

// Makes the calls of the row of this name.
fn make_calls(rt: HostRuntime, name: &str) -> Result<()> {
    match name {
        "texts" => texts::make_calls(rt),
        "graphs" => graphs::make_calls(rt),
        "plans" => plans::make_calls(rt),
        "queues" => queues::make_calls(rt),
        "cores" => cores::make_calls(rt),
        "disks" => disks::make_calls(rt),
        "lives" => lives::make_calls(rt),
        "drives" => drives::make_calls(rt),
        "first_life" => first_life::make_calls(rt),
        _ => bail!("there is no such row"),
    }
}

// Makes the calls of all rows, and a journal without a record.
fn make_all(rt: HostRuntime) -> Result<()> {
    for name in NAMES {
        println!(rt; "row {name}")?;
        make_calls(rt, name)?;
    }
    println!(rt; "row write")?;
    writer::append(rt, String::from_str(rt.alloc(), "journal")?, 0)
}

// Appends to the journal of the path that comes next, until it has as many records as the word after it says.
fn append(rt: HostRuntime, path: Option<String>, most: Option<String>) -> Result<()> {
    let (Some(path), Some(most)) = (path, most) else {
        bail!("usage: tests_memory write PATH COUNT");
    };
    let most = most.as_str().parse::<u32>()?;
    writer::append(rt, path, most)
}

fn main(rt: HostRuntime) -> Result<()> {
    let mut words = env::args(&rt)?;
    let _program = words.next();
    match words.next() {
        Some(word) if word.as_str() == "write" => append(rt, words.next(), words.next()),
        Some(name) => make_calls(rt, name.as_str()),
        None => make_all(rt),
    }
}
