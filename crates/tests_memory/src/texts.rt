//! Calls that read texts, and those that make words and names.

use crate::made::DIAMOND;
use crate::said::{barred, say};
use anyhow::Result;
use dag_reader::{Text, Texts, read_dag};
use node_machine::{Phase, read_table};
use rescue_file::rescue_name;
use std::alloc::{AllocError, Global};
use submit_file::read_submit;
use vars_macros::{
    Attempt, MacroFault, Macros, ScriptFacts, expand, script_words, split_arguments,
};

enum Call {
    Dag,
    Table,
    Submit,
    Expand,
    Split(&'static str),
    Script,
    Name(u16),
}

static CALLS: [Call; 9] = [
    Call::Dag,
    Call::Table,
    Call::Submit,
    Call::Expand,
    Call::Split("\"one 'it''s ok' \"\"x\"\" A-0 d\""),
    Call::Split("-x \\\"q\\\" y"),
    Call::Script,
    Call::Name(7),
    Call::Name(1000),
];

/// A submit file with words in quotes and macros.
pub const SUBMIT: &str = "executable = /bin/echo\n\
    arguments = \"one 'it''s ok' \"\"x\"\" $(who) $(none:d)\"\nqueue\n";

fn dag_line(alloc: Global) -> Result<String, AllocError> {
    match read_dag(alloc, DIAMOND.as_bytes()) {
        Ok(file) => {
            let commands = file.commands.len();
            format!(in alloc; "read_dag {commands}")
        }
        Err(fault) => format!(in alloc; "read_dag {fault}"),
    }
}

fn table_line(alloc: Global) -> Result<String, AllocError> {
    match read_table(alloc, b"C 0 JOB 3\n") {
        Ok(table) => {
            let of_a = table.get("A", 0, Phase::Job);
            let of_c = table.get("C", 0, Phase::Job);
            format!(in alloc; "read_table {of_a:?} {of_c:?}")
        }
        Err(fault) => format!(in alloc; "read_table {fault}"),
    }
}

fn submit_line(alloc: Global) -> Result<String, AllocError> {
    match read_submit(alloc, SUBMIT.as_bytes()) {
        Ok(submit) => match submit.last("ARGUMENTS") {
            Some(text) => format!(in alloc; "read_submit {text}"),
            None => format!(in alloc; "read_submit none"),
        },
        Err(fault) => format!(in alloc; "read_submit {fault}"),
    }
}

// What comes of a reference by the macros of a node.
fn expanded(alloc: Global) -> Result<Text, MacroFault> {
    let mut macros = Macros::new(alloc, "A")?;
    macros.assign(alloc, "msg", "say \"hi\" to $(who)", true)?;
    macros.assign(alloc, "who", "$(JOB)-$(RETRY)", true)?;
    let attempt = Attempt {
        retry: 0,
        launch: 1,
    };
    let expanded = expand(alloc, "$(msg)", &macros, attempt)?;
    Ok(expanded.text)
}

fn expand_line(alloc: Global) -> Result<String, AllocError> {
    match expanded(alloc) {
        Ok(text) => format!(in alloc; "expand {text}"),
        Err(fault) => format!(in alloc; "expand {fault}"),
    }
}

fn split_line(alloc: Global, text: &str) -> Result<String, AllocError> {
    match split_arguments(alloc, text) {
        Ok(words) => {
            let words = barred(alloc, words.as_slice())?;
            format!(in alloc; "split_arguments {words}")
        }
        Err(fault) => format!(in alloc; "split_arguments {fault}"),
    }
}

// The words of a FINAL node's PRE script.
fn script(alloc: Global) -> Result<Texts, MacroFault> {
    let mut words = Texts::new(alloc);
    words.push(Text::new(alloc, "p.sh")?)?;
    words.push(Text::new(alloc, "$DAG_STATUS")?)?;
    let facts = ScriptFacts {
        name: Text::new(alloc, "F")?,
        attempt: 0,
        retries: 0,
        post: false,
        dag_status: 0,
        failed: 0,
        job_value: 0,
        pre_value: -1,
        job_launch: 0,
    };
    script_words(alloc, words.as_slice(), &facts)
}

fn script_line(alloc: Global) -> Result<String, AllocError> {
    match script(alloc) {
        Ok(words) => {
            let words = barred(alloc, words.as_slice())?;
            format!(in alloc; "script_words {words}")
        }
        Err(fault) => format!(in alloc; "script_words {fault}"),
    }
}

fn name_line(alloc: Global, number: u16) -> Result<String, AllocError> {
    match rescue_name(alloc, "x.dag", number) {
        Ok(name) => format!(in alloc; "rescue_name {name}"),
        Err(fault) => format!(in alloc; "rescue_name {fault}"),
    }
}

fn line_of(alloc: Global, call: &Call) -> Result<String, AllocError> {
    match call {
        Call::Dag => dag_line(alloc),
        Call::Table => table_line(alloc),
        Call::Submit => submit_line(alloc),
        Call::Expand => expand_line(alloc),
        Call::Split(text) => split_line(alloc, text),
        Call::Script => script_line(alloc),
        Call::Name(number) => name_line(alloc, *number),
    }
}

/// Makes each call, and once more where it wants memory.
pub fn make_calls(rt: HostRuntime) -> Result<()> {
    for call in &CALLS {
        if say(rt, line_of(rt.alloc(), call))? {
            say(rt, line_of(rt.alloc(), call))?;
        }
    }
    Ok(())
}
