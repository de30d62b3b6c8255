//! The nodes that a file declares itself.

ghost use Rattle.std.specs.Prelude.{◌≡◌, ◌++◌, ◌+◌, ◌≤◌, false, length, map, IfOk, OnOk};
ghost use Rattle.splices_flat.specs.Nodes.{final_in, final_names, finals_in, job_in, job_names, jobs_in, declared_nodes};
ghost use Rattle.splices.specs.NodeChanges.{changed_where, is_between, plain_node, replaced_among, set_node};
ghost use Rattle.splices_flat.specs.Settings.{is_for, settings_at, setting_target};
ghost use Rattle.splices_flat.specs.Warnings.{warn_file};

use crate::lines::{target_of, words_said};
use crate::names::Names;
use crate::nodes::dir_text;
use crate::warned::Warned;
use dag_reader::{Command, DagFile, Text, Word};
use splices_flat::{FlatNode, Settings, path_in};
use std::alloc::{AllocError, Global};

/// The nodes that a file declares itself, with their settings: those of the JOB lines, and then
/// FINAL. The user's warnings of the file are noted.
pub(crate) fn own_nodes(
    alloc: Global,
    path: &str,
    prefix: &str,
    folder: &str,
    names: &Names,
    file: &DagFile,
    warned: &mut Warned,
) -> Result<Vec<FlatNode>, AllocError>
    requires jobs { names.now.jobs ≡ job_names file.now.commands.items }
    requires finals { names.now.finals ≡ final_names file.now.commands.items }
    ensures nodes { let commands = file.now.commands.items in IfOk result
        (λ nodes. nodes.items ≡ declared_nodes prefix.now folder.now
        (settings_at prefix.now commands commands) 0 (jobs_in commands ++ finals_in commands)) }
    ensures warned { let commands = file.now.commands.items in OnOk result (warned.new
        ≡ warn_file path.now prefix.now commands warned.old) }
{
    let commands = file.commands.as_slice();
    let mut nodes = plain_nodes(alloc, prefix, folder, commands)?;
    for command in commands {
        let replaced = set_line(alloc, prefix, names, command, &mut nodes)?;
        warned.warn_line(alloc, path, prefix, command, replaced.as_slice())?;
    }
    Ok(nodes)
}

/// Sets what a line says in the nodes that it is for; the lines that it replaces there, each once.
fn set_line(
    alloc: Global,
    prefix: &str,
    names: &Names,
    command: &Command,
    nodes: &mut [FlatNode],
) -> Result<Vec<usize>, AllocError>
    requires { length names.now.jobs + length names.now.finals ≤ length nodes.old }
    ensures nodes { OnOk result (nodes.new
        ≡ changed_where (is_for names.now.jobs names.now.finals (setting_target command.now))
        (set_node prefix.now command.now) 0 nodes.old) }
    ensures replaced { IfOk result (λ lines. lines.items
        ≡ replaced_among (is_for names.now.jobs names.now.finals (setting_target command.now))
        command.now nodes.old) }
{
    match target_of(command) {
        Some(target) => {
            let (from, until) = names.reached(target);
            set_between(alloc, prefix, command, from, until, nodes)
        }
        None => Ok(Vec::new(alloc)),
    }
}

/// Sets what a line says in the nodes from one place to the one before another; the lines that it
/// replaces there, each once.
fn set_between(
    alloc: Global,
    prefix: &str,
    command: &Command,
    from: usize,
    until: usize,
    nodes: &mut [FlatNode],
) -> Result<Vec<usize>, AllocError>
    requires ordered { from ≤ until }
    requires within { until ≤ length nodes.old }
    ensures nodes { OnOk result (nodes.new
        ≡ changed_where (is_between from until) (set_node prefix.now command.now) 0 nodes.old) }
    ensures replaced { IfOk result (λ lines. lines.items
        ≡ replaced_among (is_between from until) command.now nodes.old) }
{
    let words = words_said(alloc, command)?;
    let mut replaced = Vec::new(alloc);
    for place in from..until {
        let node = &mut nodes[place];
        node.settings
            .set(alloc, prefix, command, &words, &mut replaced)?;
    }
    Ok(replaced)
}

/// The nodes of a file with no settings: those of the JOB lines, and then FINAL.
fn plain_nodes(
    alloc: Global,
    prefix: &str,
    folder: &str,
    commands: &[Command],
) -> Result<Vec<FlatNode>, AllocError>
    ensures { IfOk result (λ nodes. nodes.items
        ≡ map (plain_node prefix.now folder.now) (jobs_in commands.now ++ finals_in commands.now)) }
{
    let mut jobs = Vec::new(alloc);
    let mut finals = Vec::new(alloc);
    for command in commands {
        add_declared(alloc, prefix, folder, command, &mut jobs, &mut finals)?;
    }
    jobs.append(&mut finals)?;
    Ok(jobs)
}

/// Adds the node that a line declares, if it declares one: a JOB line to the jobs, FINAL to the finals.
fn add_declared(
    alloc: Global,
    prefix: &str,
    folder: &str,
    command: &Command,
    jobs: &mut Vec<FlatNode>,
    finals: &mut Vec<FlatNode>,
) -> Result<(), AllocError>
    ensures jobs { OnOk result (jobs.new.items
        ≡ jobs.old.items ++ map (plain_node prefix.now folder.now) (job_in command.now)) }
    ensures finals { OnOk result (finals.new.items
        ≡ finals.old.items ++ map (plain_node prefix.now folder.now) (final_in command.now)) }
{
    match command {
        Command::Job {
            name,
            file,
            dir,
            noop,
            done,
        } => {
            let mut node = plain_node(alloc, prefix, folder, name, file, dir)?;
            node.noop = *noop;
            node.done = *done;
            jobs.push(node)?;
        }
        Command::Final {
            name,
            file,
            dir,
            noop,
        } => {
            let mut node = plain_node(alloc, prefix, folder, name, file, dir)?;
            node.noop = *noop;
            finals.push(node)?;
        }
        _ => (),
    }
    Ok(())
}

/// A node with no options and no settings.
fn plain_node(
    alloc: Global,
    prefix: &str,
    folder: &str,
    name: &Word,
    file: &Word,
    dir: &Option<Word>,
) -> Result<FlatNode, AllocError>
    ensures { IfOk result (λ node. node ≡ plain_node prefix.now folder.now
        (record { name = name.now; file = file.now; dir = dir.now; noop = false; done = false })) }
{
    let below = path_in(alloc, folder, dir_text(dir))?;
    Ok(FlatNode {
        name: Text::joined(alloc, prefix, name.text())?,
        file: path_in(alloc, below.as_str(), file.text())?,
        folder: below,
        noop: false,
        done: false,
        settings: Settings::new(alloc),
    })
}
