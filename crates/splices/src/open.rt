//! Opens the files of a DAG, each with those of its splices.

ghost use Rattle.std.specs.Prelude.{◌≡◌, ◌+◌, ◌-◌, ◌∷◌, [], ◌++◌, ◌<◌, ◌≤◌, length, drop, map, IfOk, OnOk, ℕ, List};
ghost use Rattle.std.specs.List.{All, flat_map};
ghost use Rattle.std.specs.Option.{option_or};
ghost use Rattle.dag_reader.specs.Reading.{commands_of};
ghost use Rattle.splices_flat.specs.Edges.{part_of, line_edges};
ghost use Rattle.splices_flat.specs.Faults.{first_some, line_fault};
ghost use Rattle.splices_flat.specs.Nodes.{job_names, final_names, splice_names};
ghost use Rattle.splices_flat.specs.FileSet.{bytes_of};
ghost use Rattle.splices.specs.ParsedFiles.{files_in};
ghost use Rattle.splices_flat.specs.Forest.{inside};
ghost use Rattle.splices_flat.specs.Opening.{parsed_file, check_final, check_file, check_count, open_file, open_lines, open_line, with_file};
ghost use Rattle.splices.specs.Adds.{Gives, AddsFiles, OpensTree, OpensForest, OpensTop, IsFew, SameButEdges};
ghost use Rattle.splices_flat.specs.Dag.{IsGroupBelow, IsWellSized};
ghost use Rattle.splices_flat.specs.Notices.{warning_of};
ghost use Rattle.splices_flat.specs.Places.{edges_of};
ghost use Rattle.splices_flat.specs.Opened.{dag_at, first_of};

use crate::check::NameCheck;
use crate::declare::{names_of, no_final};
use crate::edges::LineScope;
use crate::ends;
use crate::names::Names;
use crate::nodes::dir_text;
use crate::own_nodes::own_nodes;
use crate::parsed_files::ParsedFiles;
use crate::warned::Warned;
use dag_reader::{Command, DagFile, Text, Texts};
use splices_flat::{
    DagFault, EdgeGroup, FileSet, FlatDag, FlatNode, Part, SpliceFault, Used, path_in,
};
use std::alloc::{AllocError, Global};

/// The nodes and edges of the files that were opened, and the warnings of them.
pub(crate) struct DagBuilder {
    pub(crate) nodes: Vec<FlatNode>,
    pub(crate) finals: Vec<FlatNode>,
    pub(crate) edges: Vec<EdgeGroup>,
    pub(crate) warned: Warned,
    pub(crate) used: Used,
}

// Each function that drops a value calls this; a derived drop would be in each, part by part.
impl Drop for DagBuilder {
    fn drop(self) {
        let DagBuilder {
            nodes: _,
            finals: _,
            edges: _,
            warned: _,
            used: _,
        } = self;
    }
}

/// A file that was opened with those of its splices: its part of the graph, and the first name in
/// the files that can't stand where it does.
#[derive(Drop)]
pub(crate) struct Found {
    pub(crate) part: Part,
    pub(crate) fault: Option<DagFault>,
}

/// How many files may lie in one another.
const DEEPEST: usize = 33;

/// How many nodes there may be, FINAL among them.
const MOST_NODES: usize = 65_536;

/// How many splices may be opened.
const MOST_SPLICES: usize = 4_096;

/// Opens the file of this path with those of its splices, as the chapter "DAG input file commands"
/// and the one on splices of the HTCondor manual have it.
///
/// The nodes stand in plan order: those of a file's JOB lines, then those of each of its splices,
/// whose names begin with the splice's name and a plus. Of two settings of one kind for one node
/// the later one counts.
///
/// # Errors
/// The first fault of the files, in this order. As each file is opened: it is missing
/// (`MissingFile`), a line is not spelled rightly (`InFile`), it has FINAL though it lies in
/// another (`FinalInSplice`), a name is declared twice (`DuplicateName`), there are too many nodes
/// or splices (`TooManyNodes`). Then for each of its SPLICE lines: the file lies in itself
/// (`Loop`), it lies too deep (`TooDeep`), and what opening it meets. Once all files are open, the
/// first word of their lines that names nothing (`UnknownNode`), a splice in a setting
/// (`SpliceSetting`), FINAL where it can't stand (`FinalSetting`), or a splice with no nodes in a
/// PARENT line (`EmptySpliceEdge`). `Memory` where memory is refused.
///
/// After `MissingFile` the caller may add the file and ask again.
pub fn open_dag(alloc: Global, files: &FileSet, top: &str) -> Result<FlatDag, SpliceFault>
    ensures { Gives (λ dag. dag) result (dag_at (bytes_of files.now) top.now) }
{
    let (builder, fault) = open_files(alloc, files, DEEPEST, top)?;
    match fault {
        Some(fault) => Err(SpliceFault::Dag(fault)),
        None => Ok(builder.into_dag(alloc, Text::new(alloc, top)?)?),
    }
}

/// Opens the file of this path, each file of the set being read once.
fn open_files(
    alloc: Global,
    files: &FileSet,
    left: usize,
    top: &str,
) -> Result<(DagBuilder, Option<DagFault>), SpliceFault>
    ensures opened { OpensTop result (open_file (bytes_of files.now) left (record { nodes = 0; splices = 0 }) (top.now ∷ []) [] top.now) }
    ensures few { IfOk result (λ found. IsFew found.0.used) }
{
    let parsed_files = ParsedFiles::new(alloc, files)?;
    let found = open_top(alloc, &parsed_files, left, top)?;
    Ok(found)
}

fn open_top(
    alloc: Global,
    files: &ParsedFiles,
    left: usize,
    top: &str,
) -> Result<(DagBuilder, Option<DagFault>), SpliceFault>
    ensures opened { OpensTop result (open_file (files_in files.now) left (record { nodes = 0; splices = 0 }) (top.now ∷ []) [] top.now) }
    ensures few { IfOk result (λ found. IsFew found.0.used) }
{
    let mut builder = DagBuilder {
        nodes: Vec::new(alloc),
        finals: Vec::new(alloc),
        edges: Vec::new(alloc),
        warned: Warned::new(alloc),
        used: Used {
            nodes: 0,
            splices: 0,
        },
    };
    let mut above = Texts::new(alloc);
    above.push(Text::new(alloc, top)?)?;
    let found = open_tree(alloc, files, left, &mut above, "", top, "", &mut builder)?;
    Ok((builder, found.fault))
}

/// Refuses FINAL in a file that lies in another.
fn check_final(
    alloc: Global,
    above: &Texts,
    path: &str,
    commands: &[Command],
) -> Result<(), SpliceFault>
    ensures { Gives (λ _. tt) result (check_final above.now path.now commands.now) }
{
    match above.as_slice() {
        [_, _, ..] => no_final(alloc, path, commands),
        _ => Ok(()),
    }
}

/// Refuses more nodes and splices than there may be.
fn check_count(used: &Used, names: &Names, commands: &[Command]) -> Result<(), SpliceFault>
    requires jobs { names.now.jobs ≡ job_names commands.now }
    requires finals { names.now.finals ≡ final_names commands.now }
    ensures fits { Gives (λ _. tt) result (check_count used.now commands.now) }
    ensures nodes { OnOk result (used.now.nodes + (length names.now.jobs + length names.now.finals) ≤ 65536) }
    ensures splices { OnOk result (used.now.splices ≤ 4096) }
{
    let own = names.jobs.len().saturating_add(names.finals.len());
    if used.nodes.saturating_add(own) > MOST_NODES || used.splices > MOST_SPLICES {
        return Err(SpliceFault::Dag(DagFault::TooManyNodes));
    }
    Ok(())
}

/// The names of a file that may be opened.
fn check_file(
    alloc: Global,
    used: &Used,
    above: &Texts,
    path: &str,
    commands: &[Command],
) -> Result<Names, SpliceFault>
    ensures right { Gives (λ _. tt) result (check_file used.now above.now path.now commands.now) }
    ensures jobs { IfOk result (λ n. n.jobs ≡ job_names commands.now) }
    ensures finals { IfOk result (λ n. n.finals ≡ final_names commands.now) }
    ensures splices { IfOk result (λ n. n.splices ≡ splice_names commands.now) }
    ensures nodes { IfOk result (λ n. used.now.nodes + (length n.jobs + length n.finals) ≤ 65536) }
    ensures few { OnOk result (used.now.splices ≤ 4096) }
{
    check_final(alloc, above, path, commands)?;
    let names = names_of(alloc, path, commands)?;
    check_count(used, &names, commands)?;
    Ok(names)
}

/// Adds a file's own nodes to the draft, and notes the warnings of it.
fn add_own(
    alloc: Global,
    path: &str,
    prefix: &str,
    folder: &str,
    names: &Names,
    file: &DagFile,
    builder: &mut DagBuilder,
) -> Result<(), AllocError>
    requires jobs { names.now.jobs ≡ job_names file.now.commands.items }
    requires finals { names.now.finals ≡ final_names file.now.commands.items }
    requires fits { builder.old.used.nodes + (length names.now.jobs + length names.now.finals) ≤ 65536 }
    ensures files { (counts : List ℕ) → OnOk result (AddsFiles builder.old builder.new (record {
      prefix = prefix.now;
      said = parsed_file path.now folder.now (commands_of file.now);
      counts = counts;
    } ∷ [])) }
    ensures edges { OnOk result (builder.new.edges ≡ builder.old.edges) }
    ensures used { OnOk result (builder.new.used ≡ with_file builder.old.used file.now.commands.items) }
{
    let warned = &mut builder.warned;
    let mut own = own_nodes(alloc, path, prefix, folder, names, file, warned)?;
    let mut finals = own.split_off(names.jobs.len())?;
    builder.nodes.append(&mut own)?;
    builder.finals.append(&mut finals)?;
    builder.used.nodes += names.jobs.len() + names.finals.len();
    Ok(())
}

/// Opens a file that lies in the files `above`, itself the last of them, and adds its nodes and
/// edges to the draft.
#[cycle(opening)]
fn open_tree(
    alloc: Global,
    files: &ParsedFiles,
    left: usize,
    above: &mut Texts,
    folder: &str,
    path: &str,
    prefix: &str,
    builder: &mut DagBuilder,
) -> Result<Found, SpliceFault>
    requires few { builder.old.used.nodes ≤ 65536 }
    ensures opened { OpensTree prefix.now result builder.old builder.new (open_file (files_in files.now) left builder.old.used above.old folder.now path.now) }
    ensures above { OnOk result (above.new ≡ above.old) }
    ensures few { OnOk result (IsFew builder.new.used) }
{
    if left == 0 {
        return Err(SpliceFault::Dag(DagFault::TooDeep(Text::new(alloc, path)?)));
    }
    let read = files.read(alloc, path)?;
    let file = read.file();
    let lines = file.commands.as_slice();
    let names = check_file(alloc, &builder.used, above, path, lines)?;
    let first = builder.nodes.as_slice().len();
    let start = builder.edges.as_slice().len();
    add_own(alloc, path, prefix, folder, &names, file, builder)?;
    let mut parts = Vec::new(alloc);
    let inner = open_forest(
        alloc,
        files,
        left - 1,
        above,
        folder,
        lines,
        prefix,
        builder,
        &mut parts,
    )?;
    let parts = parts.as_slice();
    Ok(close(
        alloc, path, &names, parts, lines, first, start, inner, builder,
    )?)
}

/// Adds the edges of a file whose splices are open: its first node and the first edge of its
/// splices have these places, and `inner` is the fault of its splices' files.
fn close(
    alloc: Global,
    path: &str,
    names: &Names,
    parts: &[Part],
    lines: &[Command],
    first: usize,
    start: usize,
    inner: Option<DagFault>,
    builder: &mut DagBuilder,
) -> Result<Found, AllocError>
    requires names { first + length names.now.jobs ≤ length builder.old.nodes.items }
    requires edges { start ≤ length builder.old.edges.items }
    ensures edges { OnOk result (builder.new.edges.items ≡ builder.old.edges.items
        ++ flat_map (line_edges (record { first = first; jobs = names.now.jobs; splices = names.now.splices; parts = parts.now })) lines.now) }
    ensures same { SameButEdges builder.old builder.new }
    ensures part { IfOk result (λ found. found.part ≡ part_of first (length builder.new.nodes.items - first) (drop start builder.new.edges.items)) }
    ensures fault { IfOk result (λ found. found.fault ≡ option_or (first_some (line_fault (record {
      path = path.now;
      jobs = names.now.jobs;
      finals = names.now.finals;
      splices = names.now.splices;
      counts = map (λ p. p.count) parts.now;
    })) lines.now) inner) }
{
    add_lines(alloc, first, names, parts, lines, builder)?;
    let part = part_of(alloc, first, start, builder)?;
    let own = first_fault(alloc, path, names, parts, lines)?;
    Ok(Found {
        part,
        fault: own.or(inner),
    })
}

/// Adds the edges that a file's own lines say.
fn add_lines(
    alloc: Global,
    first: usize,
    names: &Names,
    parts: &[Part],
    lines: &[Command],
    builder: &mut DagBuilder,
) -> Result<(), AllocError>
    requires { first + length names.now.jobs ≤ length builder.old.nodes.items }
    ensures edges { OnOk result (builder.new.edges.items ≡ builder.old.edges.items
        ++ flat_map (line_edges (record { first = first; jobs = names.now.jobs; splices = names.now.splices; parts = parts.now })) lines.now) }
    ensures same { SameButEdges builder.old builder.new }
{
    let _nodes = builder.nodes.as_slice().len();
    let scope = LineScope {
        first,
        jobs: &names.jobs,
        splices: &names.splices,
        parts,
    };
    scope.add_edges(alloc, lines, &mut builder.edges)
}

/// The part of the graph from these places on.
fn part_of(
    alloc: Global,
    first: usize,
    start: usize,
    builder: &DagBuilder,
) -> Result<Part, AllocError>
    requires nodes { first ≤ length builder.now.nodes.items }
    requires edges { start ≤ length builder.now.edges.items }
    ensures { IfOk result (λ part. part ≡ part_of first (length builder.now.nodes.items - first) (drop start builder.now.edges.items)) }
{
    let count = builder.nodes.as_slice().len() - first;
    ends::part_of(alloc, first, count, &builder.edges.as_slice()[start..])
}

/// The first name in a file's lines that can't stand where it does.
fn first_fault(
    alloc: Global,
    path: &str,
    names: &Names,
    parts: &[Part],
    lines: &[Command],
) -> Result<Option<DagFault>, AllocError>
    ensures { IfOk result (λ fault. fault ≡ first_some (line_fault (record {
      path = path.now;
      jobs = names.now.jobs;
      finals = names.now.finals;
      splices = names.now.splices;
      counts = map (λ p. p.count) parts.now;
    })) lines.now) }
{
    let check = NameCheck { path, names, parts };
    check.lines(alloc, lines)
}

/// What is before the names in a splice: the prefix of the file that holds its line, the
/// splice's name and a plus.
fn names_in(alloc: Global, prefix: &str, name: &str) -> Result<Text, AllocError>
    ensures { IfOk result (λ names. names ≡ inside prefix.now name.now) }
{
    let names = Text::joined(alloc, prefix, name)?;
    Text::joined(alloc, names.as_str(), "+")
}

/// Opens the files of the SPLICE lines, and adds their nodes and edges to the draft. The answer is
/// the first name in them that can't stand where it does.
#[cycle(opening)]
fn open_forest(
    alloc: Global,
    files: &ParsedFiles,
    left: usize,
    above: &mut Texts,
    folder: &str,
    commands: &[Command],
    prefix: &str,
    builder: &mut DagBuilder,
    parts: &mut Vec<Part>,
) -> Result<Option<DagFault>, SpliceFault>
    requires few { IsFew builder.old.used }
    ensures opened { OpensForest prefix.now result builder.old builder.new parts.old.items parts.new.items (open_lines (open_file (files_in files.now) left) builder.old.used above.old folder.now commands.now) }
    ensures above { OnOk result (above.new ≡ above.old) }
    ensures few { OnOk result (IsFew builder.new.used) }
{
    let mut fault = None;
    for command in commands {
        let found = open_splice(
            alloc, files, left, above, folder, command, prefix, builder, parts,
        )?;
        fault = fault.or(found);
    }
    Ok(fault)
}

#[cycle(opening)]
fn open_splice(
    alloc: Global,
    files: &ParsedFiles,
    left: usize,
    above: &mut Texts,
    folder: &str,
    command: &Command,
    prefix: &str,
    builder: &mut DagBuilder,
    parts: &mut Vec<Part>,
) -> Result<Option<DagFault>, SpliceFault>
    requires few { IsFew builder.old.used }
    ensures opened { OpensForest prefix.now result builder.old builder.new parts.old.items parts.new.items (open_line (open_file (files_in files.now) left) builder.old.used above.old folder.now command.now) }
    ensures above { OnOk result (above.new ≡ above.old) }
    ensures few { OnOk result (IsFew builder.new.used) }
{
    let Command::Splice { name, file, dir } = command else {
        return Ok(None);
    };
    let inside = path_in(alloc, folder, dir_text(dir))?;
    let path = path_in(alloc, inside.as_str(), file.text())?;
    if let Some(k) = above.place_of(path.as_str()) {
        return Err(SpliceFault::Dag(DagFault::Loop(above.from_place(alloc, k)?)));
    }
    let names = names_in(alloc, prefix, name.text())?;
    above.push(Text::new(alloc, path.as_str())?)?;
    builder.used.splices += 1;
    let found = open_tree(
        alloc,
        files,
        left,
        above,
        inside.as_str(),
        path.as_str(),
        names.as_str(),
        builder,
    )?;
    above.pop();
    parts.push(found.part)?;
    Ok(found.fault)
}

impl DagBuilder {
    /// The flat DAG of the draft, whose top file has this path.
    fn into_dag(self, alloc: Global, top: Text) -> Result<FlatDag, AllocError>
        requires within { IsWellSized (record { top = top; nodes = self.nodes.items; final_node = first_of self.finals.items; edges = edges_of self.edges.items; categories = self.warned.limits; warnings = map warning_of self.warned.notices }) }
        requires below { All (IsGroupBelow (length self.nodes.items)) self.edges.items }
        ensures { IfOk result (λ dag. dag ≡ record { top = top; nodes = self.nodes.items; final_node = first_of self.finals.items; edges = edges_of self.edges.items; categories = self.warned.limits; warnings = map warning_of self.warned.notices }) }
    {
        let DagBuilder {
            nodes,
            mut finals,
            edges,
            warned,
            used: _,
        } = self;
        let (categories, warnings) = warned.into_parts(alloc)?;
        let final_node = if finals.is_empty() {
            None
        } else {
            Some(finals.swap_remove(0))
        };
        Ok(FlatDag::new(top, nodes, final_node, edges, categories, warnings))
    }
}
