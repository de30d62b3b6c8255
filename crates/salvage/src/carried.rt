//! What a round has done, carried over into DAG files that were changed since.

ghost use Rattle.std.specs.Prelude.{◌≡◌, ◌++◌, ℕ, List, not, filter, length, map, IfOk, IfErr, OnOk, string_bytes};
ghost use Rattle.std.specs.List.{count_by, flat_map};
ghost use Rattle.rescue_file.specs.Written.{marked, ordinary_names, rescue_text_of};
ghost use Rattle.dag_main_check.specs.declared.fault.RunFault.TheVariants.{Memory};
ghost use Rattle.dag_main_check.specs.Warnings.{warning_lines};
ghost use Rattle.salvage.specs.Carried.{done_names, is_among_names, marks_by_name, gone_names, IsCarriedOver, gone_line, more_line, gone_lines};
ghost use Rattle.salvage.specs.Refused.{IsUnsalvaged};

use crate::rescue::{core_of, count_marks, records_in};
use dag_graph::Graph;
use dag_main_check::{RunFault, warning_text};
use dag_reader::Text;
use rescue_file::rescue_text;
use run_plan::Plan;
use sched_core::Core;
use splices_flat::{FlatNode, NameTable};
use std::alloc::{AllocError, Global};

/// How many names of nodes that are gone are reported.
const MOST_TOLD: usize = 20;

/// The text of a rescue file, how many nodes it marks, and the names of the nodes that are done and gone.
#[derive(Drop)]
pub(crate) struct Carried {
    pub text: String,
    pub done: usize,
    pub gone: Vec<Text>,
}

/// The names of nodes at whose places a mark is.
fn marked_names(alloc: Global, nodes: &[FlatNode], marks: &[bool]) -> Result<Vec<Text>, AllocError>
    requires { length marks.now ≡ length nodes.now }
    ensures { IfOk result (λ names. names.items ≡ marked (map (λ node. node.name) nodes.now) marks.now) }
{
    let mut names = Vec::new(alloc);
    for (number, node) in nodes.iter().enumerate() {
        if marks[number] {
            names.push(Text::new(alloc, node.name.as_str())?)?;
        }
    }
    Ok(names)
}

/// The names of nodes.
fn names_of(alloc: Global, nodes: &[FlatNode]) -> Result<Vec<Text>, AllocError>
    ensures { IfOk result (λ names. names.items ≡ map (λ node. node.name) nodes.now) }
{
    let mut names = Vec::new(alloc);
    for node in nodes {
        names.push(Text::new(alloc, node.name.as_str())?)?;
    }
    Ok(names)
}

/// A table in which these names are found, and no others.
fn table_of(alloc: Global, names: &[Text]) -> Result<NameTable, AllocError>
    ensures { IfOk result (λ table. (name : List ℕ) → is_among_names table name ≡ is_among_names names.now name) }
{
    let mut table = NameTable::new(alloc);
    for name in names {
        if !table.has(name.as_str()) {
            table.add(alloc, name.as_str())?;
        }
    }
    Ok(table)
}

/// A mark for each name: whether it is in a table.
fn marks_in(alloc: Global, table: &NameTable, names: &[Text]) -> Result<Vec<bool>, AllocError>
    ensures { IfOk result (λ marks. marks.items ≡ map (is_among_names table.now) names.now) }
{
    names
        .iter()
        .map(|name| table.has(name.as_str()))
        .collect(alloc)
}

/// The names that are not in a table.
fn names_missing(alloc: Global, table: &NameTable, names: &[Text]) -> Result<Vec<Text>, AllocError>
    ensures { IfOk result (λ missing. missing.items ≡ filter (λ name. not (is_among_names table.now name)) names.now) }
{
    let mut missing = Vec::new(alloc);
    for name in names {
        if !table.has(name.as_str()) {
            missing.push(Text::new(alloc, name.as_str())?)?;
        }
    }
    Ok(missing)
}

/// A mark for each of these names: whether it is that of a node that is done.
fn marks_by_name(alloc: Global, done: &[Text], names: &[Text]) -> Result<Vec<bool>, AllocError>
    ensures { IfOk result (λ marks. marks.items ≡ marks_by_name done.now names.now) }
{
    let table = table_of(alloc, done)?;
    marks_in(alloc, &table, names)
}

/// The names of nodes that are done, but for these.
fn gone_names(alloc: Global, done: &[Text], names: &[Text]) -> Result<Vec<Text>, AllocError>
    ensures { IfOk result (λ gone. gone.items ≡ gone_names done.now names.now) }
{
    let table = table_of(alloc, names)?;
    names_missing(alloc, &table, done)
}

/// The rescue file of a graph in which the nodes of these names are done.
fn carried_by(alloc: Global, done: &[Text], graph: &Graph) -> Result<Carried, RunFault>
    ensures text { IfOk result (λ carried. string_bytes carried.text
        ≡ rescue_text_of (ordinary_names graph.now.dag) (marks_by_name done.now (ordinary_names graph.now.dag))) }
    ensures done { IfOk result (λ carried. carried.done
        ≡ count_by (λ mark. mark) (marks_by_name done.now (ordinary_names graph.now.dag))) }
    ensures gone { IfOk result (λ carried. carried.gone.items ≡ gone_names done.now (ordinary_names graph.now.dag)) }
    ensures err { IfErr result (λ fault. fault ≡ Memory) }
{
    let names = names_of(alloc, graph.flat().nodes())?;
    let marks = marks_by_name(alloc, done, &names)?;
    let gone = gone_names(alloc, done, &names)?;
    match rescue_text(alloc, graph, &marks) {
        Ok(text) => Ok(Carried {
            text,
            done: count_marks(&marks),
            gone,
        }),
        Err(_) => Err(RunFault::Memory),
    }
}

/// The names of the ordinary nodes that are done in a run as it is.
fn done_names(alloc: Global, core: &Core<'_>) -> Result<Vec<Text>, RunFault>
    ensures names { IfOk result (λ names. names.items ≡ done_names core.now.plan core.now.past) }
    ensures err { IfErr result (λ fault. fault ≡ Memory) }
{
    let Ok(marks) = core.marks(alloc) else {
        return Err(RunFault::Memory);
    };
    let nodes = core.plan().graph().flat().nodes();
    Ok(marked_names(alloc, nodes, &marks)?)
}

/// The rescue file of a graph in which is done what is done, by the names of nodes, in the round of a plan whose
/// journal has these bytes. Whose journal it is isn't asked.
///
/// # Errors
/// As `salvage_text` of that plan.
pub(crate) fn carry_over(
    alloc: Global,
    old: &Plan,
    journal: &[u8],
    graph: &Graph,
) -> Result<Carried, RunFault>
    ensures carried { IfOk result (λ carried. IsCarriedOver old.now journal.now graph.now.dag
        (string_bytes carried.text) carried.done carried.gone.items) }
    ensures refused { IfErr result (IsUnsalvaged old.now journal.now) }
{
    let records = records_in(alloc, old, journal)?;
    let core = core_of(alloc, old, journal, &records)?;
    core.keeps_the_law();
    let done = done_names(alloc, &core)?;
    carried_by(alloc, &done, graph)
}

/// Adds the line of a node that is done and gone.
fn push_gone(text: &mut String, name: &str) -> Result<(), AllocError>
    ensures { OnOk result (string_bytes text.new ≡ string_bytes text.old ++ gone_line name.now) }
{
    writeln!(text, "warning: {name} was done and is no longer in the DAG")
}

/// Adds the lines of these nodes.
fn push_first(text: &mut String, names: &[Text]) -> Result<(), AllocError>
    ensures { OnOk result (string_bytes text.new ≡ string_bytes text.old ++ flat_map gone_line names.now) }
{
    for name in names {
        push_gone(text, name.as_str())?;
    }
    Ok(())
}

/// Adds the line that says how many more there are.
fn push_more(text: &mut String, count: usize) -> Result<(), AllocError>
    ensures { OnOk result (string_bytes text.new ≡ string_bytes text.old ++ more_line count) }
{
    if count == 0 {
        return Ok(());
    }
    writeln!(text, "warning: and {count} more")
}

/// Adds the warnings of nodes that are done and gone: a line for each of the first, and how many more there are.
fn push_warnings(text: &mut String, gone: &[Text]) -> Result<(), AllocError>
    ensures { OnOk result (string_bytes text.new ≡ string_bytes text.old ++ gone_lines gone.now) }
{
    let told = MOST_TOLD.min(gone.len());
    push_first(text, &gone[..told])?;
    push_more(text, gone.len() - told)?;
    Ok(())
}

/// The warnings of a graph's files, and of nodes that are done and gone.
pub(crate) fn warnings_of(alloc: Global, graph: &Graph, gone: &[Text]) -> Result<String, AllocError>
    ensures { IfOk result (λ text. string_bytes text ≡ warning_lines graph.now.dag.warnings ++ gone_lines gone.now) }
{
    let mut text = warning_text(alloc, graph.flat().warnings())?;
    push_warnings(&mut text, gone)?;
    Ok(text)
}
