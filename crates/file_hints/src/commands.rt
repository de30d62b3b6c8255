//! What would be otherwise of the lines of a DAG file under `condor_submit_dag`.

ghost use Rattle.std.specs.Prelude.{◌≡◌, ◌++◌, IfOk, OnOk};
ghost use Rattle.std.specs.Option.{option_map};
ghost use Rattle.file_hints.specs.Commands.{dag_notes, note_of, skip_note, signal_note, unless_note, noop_note, first_noop, noop_in};

use crate::hint::{Finding, Hint};
use crate::submit::push_hint;
use dag_reader::{Command, Target, Text};
use splices_flat::target_line;
use std::alloc::{AllocError, Global};

/// What would be otherwise of a DAG file with these lines: PRE_SKIP with a value that is no exit code; values below
/// zero in ABORT-DAG-ON and after UNLESS-EXIT; scripts of nodes that are NOOPs. It is in the order of the lines.
///
/// # Errors
/// Lack of memory.
pub fn dag_notes(alloc: Global, commands: &[Command]) -> Result<Vec<Finding>, AllocError>
    ensures { IfOk result (λ found. found.items ≡ dag_notes commands.now commands.now) }
{
    let mut found = Vec::new(alloc);
    for command in commands {
        push_note(alloc, &mut found, commands, command)?;
    }
    Ok(found)
}

/// Adds what would be otherwise of a line.
fn push_note(
    alloc: Global,
    found: &mut Vec<Finding>,
    commands: &[Command],
    command: &Command,
) -> Result<(), AllocError>
    ensures { OnOk result (found.new.items ≡ found.old.items ++ note_of commands.now command.now) }
{
    match command {
        Command::PreSkip { node, value } => push_hint(found, target_line(node), skip_note(*value)),
        Command::AbortDagOn { node, value, .. } => {
            let hint = signal_note(alloc, "ABORT-DAG-ON", *value)?;
            push_hint(found, target_line(node), hint)
        }
        Command::Retry {
            node,
            unless_exit,
            ..
        } => {
            let hint = unless_note(alloc, *unless_exit)?;
            push_hint(found, target_line(node), hint)
        }
        Command::Script { node, .. } => {
            let hint = noop_note(alloc, commands, node)?;
            push_hint(found, target_line(node), hint)
        }
        _ => Ok(()),
    }
}

fn skip_note(value: i32) -> Option<Hint>
    ensures { result ≡ skip_note value }
{
    if value >= 0 && value < 256 {
        None
    } else {
        Some(Hint::SkipValue)
    }
}

fn signal_note(alloc: Global, command: &str, value: i32) -> Result<Option<Hint>, AllocError>
    ensures { IfOk result (λ hint. hint ≡ signal_note command.now value) }
{
    if value >= 0 {
        return Ok(None);
    }
    Ok(Some(Hint::SignalValue(Text::new(alloc, command)?)))
}

fn unless_note(alloc: Global, value: Option<i32>) -> Result<Option<Hint>, AllocError>
    ensures { IfOk result (λ hint. hint ≡ unless_note value) }
{
    match value {
        Some(value) => signal_note(alloc, "RETRY", value),
        None => Ok(None),
    }
}

fn noop_note(
    alloc: Global,
    commands: &[Command],
    target: &Target,
) -> Result<Option<Hint>, AllocError>
    ensures { IfOk result (λ hint. hint ≡ noop_note (first_noop target.now commands.now)) }
{
    match first_noop(commands, target) {
        Some(name) => Ok(Some(Hint::NoopScript(Text::new(alloc, name)?))),
        None => Ok(None),
    }
}

/// The first NOOP that a line with this target is for.
fn first_noop<'a>(commands: &'a [Command], target: &Target) -> Option<&'a str>
    ensures { option_map (λ name. name.now) result ≡ first_noop target.now commands.now }
{
    for command in commands {
        if let Some(name) = noop_in(target, command) {
            return Some(name);
        }
    }
    None
}

/// The name of the NOOP that a line declares, if it is one that this target is for.
fn noop_in<'a>(target: &Target, command: &'a Command) -> Option<&'a str>
    ensures { option_map (λ name. name.now) result ≡ noop_in target.now command.now }
{
    match (target, command) {
        (
            Target::AllNodes(_),
            Command::Job {
                name,
                noop: true,
                ..
            },
        ) => Some(name.text()),
        (
            Target::Node(node),
            Command::Job {
                name,
                noop: true,
                ..
            }
            | Command::Final {
                name,
                noop: true,
                ..
            },
        ) if name.text() == node.text() => Some(name.text()),
        _ => None,
    }
}
