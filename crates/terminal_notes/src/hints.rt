//! What is displayed after the line of a refusal.

ghost use Rattle.dag_main_check.specs.Consoles.{OnlyWarnsAtTerminal};

use crate::changes::changed_since;
use crate::declared::{Declared, declaration_of, declared_with};
use crate::disks::reason_of_disk;
use crate::paths::reason_of_path;
use dag_main_check::Console;
use dag_main_files::read_input;
use fault_guide::{Evidence, Refusal, hint_text};
use std::alloc::AllocError;
use std::fs::File;
use std::rt::{Env, Files};

/// The codes of faults of a node, by whose name their lines end.
const OF_A_NODE: [&str; 7] = ["V1", "V2", "V3", "V4", "V5", "P4", "P5"];

/// The bytes of the file of whose place a refusal tells.
fn source_of<R: Files + AllocGlobal>(rt: &R, refusal: &Refusal<'_>) -> Option<Vec<u8>> {
    let place = refusal.place()?;
    read_input(rt, place.path, false).ok()
}

/// The DAG file of this path, where it is a text.
fn dag_text<R: Files + AllocGlobal>(rt: &R, dag: &str) -> Option<String> {
    let bytes = read_input(rt, dag, false).ok()?;
    let text = str::from_utf8(&bytes).ok()?;
    String::from_str(rt.alloc(), text).ok()
}

/// What is known of a submit file that can't be read: what the system says, and which line names it.
fn reason_of_submit_file<R: Files<File = File> + Env + AllocGlobal>(
    rt: &R,
    dag: Option<&str>,
    path: &str,
) -> Result<Option<String>, AllocError> {
    let (said, dag) = match (reason_of_path(rt, path, false)?, dag) {
        (Some(said), Some(dag)) => (said, dag),
        (reason, _) => return Ok(reason),
    };
    let Some(text) = dag_text(rt, dag) else {
        return Ok(Some(said));
    };
    match declared_with(text.as_str(), path) {
        Some(Declared { line, node, .. }) => Ok(Some(format!(in rt.alloc();
            "{said}; it is that of {node}, {dag}:{line}"
        )?)),
        None => Ok(Some(said)),
    }
}

/// Where a node is declared, and which its submit file is; nothing where another file than this one declares it.
fn place_of_node<R: Files + AllocGlobal>(
    rt: &R,
    dag: &str,
    node: &str,
) -> Result<Option<String>, AllocError> {
    let Some(text) = dag_text(rt, dag) else {
        return Ok(None);
    };
    match declaration_of(text.as_str(), node) {
        Some(Declared { line, file, .. }) => Ok(Some(format!(in rt.alloc();
            "{node} is declared at {dag}:{line}, with {file}"
        )?)),
        None => Ok(None),
    }
}

/// What the system said, as far as that can still be known.
fn reason_of<R: Files<File = File> + Env + Input + AllocGlobal + Copy + Drop>(
    rt: &R,
    dag: Option<&str>,
    refusal: &Refusal<'_>,
) -> Result<Option<String>, AllocError> {
    match (refusal.path(), dag) {
        (Some(path), _) if refusal.code == "P1" => reason_of_submit_file(rt, dag, path),
        (Some(path), _) => reason_of_path(rt, path, refusal.code == "X2"),
        (None, Some(dag)) if refusal.code == "J1" => reason_of_disk(rt, dag),
        (None, Some(dag)) if refusal.code == "J5" => changed_since(rt, dag),
        (None, Some(dag)) if OF_A_NODE.contains(&refusal.code) => {
            place_of_node(rt, dag, refusal.detail)
        }
        _ => Ok(None),
    }
}

/// What is displayed after the line of a refusal of a request for this DAG file.
fn hint_of<R: Files<File = File> + Env + Input + AllocGlobal + Copy + Drop>(
    rt: &R,
    dag: Option<&str>,
    line: &str,
) -> Result<String, AllocError> {
    let refusal = Refusal::of(line);
    let source = source_of(rt, &refusal);
    let reason = reason_of(rt, dag, &refusal)?;
    let evidence = Evidence {
        source: source.as_deref(),
        reason: reason.as_ref().map(|reason| reason.as_str()),
    };
    hint_text(rt.alloc(), &refusal, &evidence)
}

/// Displays what may help after the line of a refusal, where standard error is a terminal.
pub fn display_hint<R: Files<File = File> + Env + Input + AllocGlobal + Copy + Drop, C: Console>(
    rt: &R,
    console: &mut C,
    dag: Option<&str>,
    line: &str,
)
    ensures warned { C.honest console.new → OnlyWarnsAtTerminal (C.shown console.old) (C.shown console.new) }
    ensures back { C.honest console.new → C.honest console.old }
{
    if !console.is_terminal() {
        return;
    }
    if let Ok(text) = hint_of(rt, dag, line) {
        console.warn(text.as_str());
    }
}

/// The line of the refusal that the warnings of an answer are, without `dagrun: `: a code, a name with a capital letter, and perhaps
/// a path. None where they are something else.
fn refusal_in(warnings: &str) -> Option<&str> {
    let line = warnings.strip_prefix("dagrun: ")?.strip_suffix('\n')?;
    let name = line.split(' ').nth(1)?;
    if name.chars().next()?.is_ascii_uppercase() {
        Some(line)
    } else {
        None
    }
}

/// Displays the same after an answer whose warnings are such a line: that nothing was salvaged, say.
pub fn display_hint_of_answer<
    R: Files<File = File> + Env + Input + AllocGlobal + Copy + Drop,
    C: Console,
>(rt: &R, console: &mut C, dag: Option<&str>, warnings: &str)
    ensures warned { C.honest console.new → OnlyWarnsAtTerminal (C.shown console.old) (C.shown console.new) }
    ensures back { C.honest console.new → C.honest console.old }
{
    if let Some(line) = refusal_in(warnings) {
        display_hint(rt, console, dag, line);
    }
}
