//! The submit files of a DAG's nodes.

use crate::counted::CountedFiles;
use crate::findings::Findings;
use crate::job_outputs::Outputs;
use crate::looking::{folder_of, look_at_folder, look_at_program};
use crate::quote_hint;
use crate::written::{DagFiles, look_at_written};
use dag_reader::{Placement, Text};
use run_plan_node::{ChildCommand, JobFault, job_command};
use splices_flat::{FileSet, FlatDag, FlatNode, NameTable};
use std::alloc::{AllocError, Global};
use std::fs::File;
use std::rt::{Env, Files};
use submit_file::{Assignment, PlacedAssignment, SubmitFault, placed_assignments};
use vars_macros::{Attempt, Expanded, MacroFault, Macros, expand};

/// A submit file: what it assigns, and what VARS lines assign for its nodes.
#[derive(Drop)]
pub(crate) struct JobFile {
    pub(crate) path: Text,
    pub(crate) placed: Vec<PlacedAssignment>,
    pub(crate) vars: Vec<Assignment>,
}

/// The submit files of the nodes, each once, and which one each node has.
#[derive(Drop)]
pub(crate) struct JobFiles {
    paths: NameTable,
    pub(crate) files: Vec<JobFile>,
}

impl JobFile {
    /// The number of the line that assigns to a name, the last that counts; 1 where none does.
    pub(crate) fn line_of(&self, name: &str) -> usize {
        let mut line = 1;
        for one in self.placed.iter() {
            if one.counts && one.assignment.name.as_str().eq_ignore_ascii_case(name) {
                line = one.line;
            }
        }
        line
    }
}

/// The assignments of a submit file with their lines; none where it is not there or no text.
fn placed_in(
    alloc: Global,
    files: &FileSet,
    path: &str,
) -> Result<Vec<PlacedAssignment>, AllocError> {
    let Some(bytes) = files.get(path) else {
        return Ok(Vec::new(alloc));
    };
    match placed_assignments(alloc, bytes) {
        Ok(placed) => Ok(placed),
        Err(SubmitFault::Memory) => Err(AllocError),
        Err(_) => Ok(Vec::new(alloc)),
    }
}

impl JobFiles {
    /// Those of all nodes that are no NOOPs.
    pub(crate) fn of(
        alloc: Global,
        files: &FileSet,
        dag: &FlatDag,
    ) -> Result<JobFiles, AllocError> {
        let mut jobs = JobFiles {
            paths: NameTable::new(alloc),
            files: Vec::new(alloc),
        };
        for node in dag.nodes().iter().chain(dag.final_node()) {
            if !node.noop {
                jobs.add(alloc, files, node)?;
            }
        }
        Ok(jobs)
    }

    /// Adds a node.
    fn add(&mut self, alloc: Global, files: &FileSet, node: &FlatNode) -> Result<(), AllocError> {
        let path = node.file.as_str();
        if !self.paths.has(path) {
            self.paths.add(alloc, path)?;
            self.files.push(JobFile {
                path: Text::new(alloc, path)?,
                placed: placed_in(alloc, files, path)?,
                vars: Vec::new(alloc),
            })?;
        }
        let Some(place) = self.place_of(node) else {
            return Ok(());
        };
        if let Some(file) = self.files.get_mut(place) {
            for one in node.settings.macros.as_slice() {
                let name = Text::new(alloc, one.name.as_str())?;
                let value = Text::new(alloc, one.text.as_str())?;
                file.vars.push(Assignment { name, value })?;
            }
        }
        Ok(())
    }

    /// The place of a node's submit file.
    pub(crate) fn place_of(&self, node: &FlatNode) -> Option<usize> {
        self.paths.place_of(node.file.as_str())
    }
}

/// Assigns the macros of VARS lines that stand before the submit file, or after it.
fn assign_settings(
    alloc: Global,
    node: &FlatNode,
    placement: Placement,
    macros: &mut Macros,
) -> Result<(), MacroFault> {
    for one in node.settings.macros.as_slice() {
        if one.placement == placement {
            macros.assign(alloc, one.name.as_str(), one.text.as_str(), true)?;
        }
    }
    Ok(())
}

/// What is assigned to the names of a job, in the order in which it counts, where that is possible.
fn macros_of(
    alloc: Global,
    node: &FlatNode,
    placed: &[PlacedAssignment],
) -> Result<Option<Macros>, AllocError> {
    match assigned_to(alloc, node, placed) {
        Ok(macros) => Ok(Some(macros)),
        Err(MacroFault::Memory) => Err(AllocError),
        Err(_) => Ok(None),
    }
}

/// The same, or the fault that is in the way.
fn assigned_to(
    alloc: Global,
    node: &FlatNode,
    placed: &[PlacedAssignment],
) -> Result<Macros, MacroFault> {
    let mut macros = Macros::new(alloc, node.name.as_str())?;
    assign_settings(alloc, node, Placement::Prepend, &mut macros)?;
    for one in placed {
        if one.counts {
            let value = one.assignment.value.as_str();
            macros.assign(alloc, one.assignment.name.as_str(), value, false)?;
        }
    }
    assign_settings(alloc, node, Placement::Append, &mut macros)?;
    Ok(macros)
}

/// What a text of a job stands for, where it can be expanded.
///
/// # Errors
/// Lack of memory.
pub(crate) fn expanded_at(
    alloc: Global,
    text: &str,
    macros: &Macros,
    attempt: Attempt,
) -> Result<Option<Expanded>, AllocError> {
    match expand(alloc, text, macros, attempt) {
        Ok(expanded) => Ok(Some(expanded)),
        Err(MacroFault::Memory) => Err(AllocError),
        Err(_) => Ok(None),
    }
}

/// The command of a node's job, where its texts can be expanded.
///
/// # Errors
/// Lack of memory.
pub(crate) fn command_at(
    alloc: Global,
    node: &FlatNode,
    macros: &Macros,
    attempt: Attempt,
) -> Result<Option<ChildCommand>, AllocError> {
    match job_command(alloc, node.folder.as_str(), macros, attempt) {
        Ok(command) => Ok(Some(command)),
        Err(JobFault::Memory) => Err(AllocError),
        Err(_) => Ok(None),
    }
}

/// The first attempt of the node of this number. Each node has a launch number of its own, so that files that are named by it
/// are kept apart.
fn attempt_of(number: usize) -> Attempt {
    Attempt {
        retry: 0,
        launch: number as u64,
    }
}

/// What was asked of the system already, or told.
#[derive(Drop)]
struct Asked {
    known: NameTable,
}

impl Asked {
    /// Nothing so far.
    fn new(alloc: Global) -> Asked {
        Asked {
            known: NameTable::new(alloc),
        }
    }

    /// Whether this path was not asked for yet in a file.
    fn is_new(&mut self, alloc: Global, what: &str, path: &str) -> Result<bool, AllocError> {
        let front = Text::joined(alloc, what, "\n")?;
        let key = Text::joined(alloc, front.as_str(), path)?;
        if self.known.has(key.as_str()) {
            return Ok(false);
        }
        self.known.add(alloc, key.as_str())?;
        Ok(true)
    }
}

/// What is known while jobs are looked at.
#[derive(Drop)]
struct Look<'a> {
    dag: DagFiles<'a>,
    asked: Asked,
    /// The streams of each submit file of which it was told that a job should not write their file.
    told: Asked,
    counted: CountedFiles<'a>,
}

/// Adds what is odd in the folder of the file that takes a stream.
fn add_stream_folder<R: Files<File = File> + AllocGlobal>(
    rt: &R,
    look: &mut Look<'_>,
    file: &JobFile,
    stream: &str,
    path: &str,
    findings: &mut Findings,
) -> Result<(), AllocError> {
    let folder = folder_of(path);
    if look.asked.is_new(rt.alloc(), file.path.as_str(), folder)? {
        let hint = look_at_folder(rt, folder)?;
        findings.add_hint(file.path.as_str(), file.line_of(stream), hint)?;
    }
    Ok(())
}

/// Adds it where the file of this path, which takes a stream, is one that no job should write: of each stream of a submit file
/// once, since a sweep has a thousand such files for one reason.
fn add_stream_file(
    alloc: Global,
    look: &mut Look<'_>,
    file: &JobFile,
    stream: &str,
    path: &str,
    input: &Option<Text>,
    findings: &mut Findings,
) -> Result<(), AllocError> {
    let Some(hint) = look_at_written(alloc, look.dag, input, path)? else {
        return Ok(());
    };
    if look.told.is_new(alloc, file.path.as_str(), stream)? {
        findings.add_hint(file.path.as_str(), file.line_of(stream), Some(hint))?;
    }
    Ok(())
}

/// Adds what is odd in the files that take the streams of a job.
fn add_streams<R: Files<File = File> + AllocGlobal>(
    rt: &R,
    look: &mut Look<'_>,
    file: &JobFile,
    command: &ChildCommand,
    findings: &mut Findings,
) -> Result<(), AllocError> {
    for (stream, path) in [("output", &command.output), ("error", &command.error)] {
        if let Some(path) = path {
            let path = path.as_str();
            add_stream_folder(rt, look, file, stream, path, findings)?;
            add_stream_file(
                rt.alloc(),
                look,
                file,
                stream,
                path,
                &command.input,
                findings,
            )?;
        }
    }
    Ok(())
}

/// Adds what is odd in the files of a job.
fn add_command<R: Files<File = File> + Env + AllocGlobal>(
    rt: &R,
    look: &mut Look<'_>,
    file: &JobFile,
    command: &ChildCommand,
    findings: &mut Findings,
) -> Result<(), AllocError> {
    let path = file.path.as_str();
    let program = command.program.as_str();
    if look.asked.is_new(rt.alloc(), path, program)? {
        let hint = look_at_program(rt, program)?;
        findings.add_hint(path, file.line_of("executable"), hint)?;
    }
    let folder = command.folder.as_str();
    if look.asked.is_new(rt.alloc(), path, folder)? {
        let hint = look_at_folder(rt, folder)?;
        findings.add_hint(path, file.line_of("initialdir"), hint)?;
    }
    add_streams(rt, look, file, command, findings)
}

/// Adds what is odd in the arguments of a job.
fn add_arguments(
    alloc: Global,
    macros: &Macros,
    attempt: Attempt,
    file: &JobFile,
    findings: &mut Findings,
) -> Result<(), AllocError> {
    let Some(arguments) = expanded_at(alloc, "$(arguments)", macros, attempt)? else {
        return Ok(());
    };
    let hint = quote_hint(arguments.text.as_str());
    findings.add_hint(file.path.as_str(), file.line_of("arguments"), hint)
}

/// Adds what is odd in the job of a node, and gives its command, where its texts can be expanded.
fn add_job<'a, R: Files<File = File> + Env + AllocGlobal>(
    rt: &R,
    look: &mut Look<'a>,
    node: &'a FlatNode,
    attempt: Attempt,
    file: &JobFile,
    findings: &mut Findings,
) -> Result<Option<ChildCommand>, AllocError> {
    let alloc = rt.alloc();
    let Some(macros) = macros_of(alloc, node, file.placed.as_slice())? else {
        return Ok(None);
    };
    let Some(command) = command_at(alloc, node, &macros, attempt)? else {
        return Ok(None);
    };
    add_command(rt, look, file, &command, findings)?;
    add_arguments(alloc, &macros, attempt, file, findings)?;
    look.counted.add(alloc, node, &macros, file, findings)?;
    Ok(Some(command))
}

/// Adds what is odd in the files of all jobs, and says which files each ordinary node writes.
///
/// # Errors
/// Lack of memory.
pub(crate) fn add_commands<R: Files<File = File> + Env + AllocGlobal>(
    rt: &R,
    files: DagFiles<'_>,
    jobs: &JobFiles,
    dag: &FlatDag,
    findings: &mut Findings,
) -> Result<Vec<Outputs>, AllocError> {
    let alloc = rt.alloc();
    let mut look = Look {
        dag: files,
        asked: Asked::new(alloc),
        told: Asked::new(alloc),
        counted: CountedFiles::new(alloc),
    };
    let mut outputs = Vec::new(alloc);
    for (number, node) in dag.nodes().iter().chain(dag.final_node()).enumerate() {
        let place = if node.noop { None } else { jobs.place_of(node) };
        let mut written = Outputs::none();
        if let Some(place) = place {
            if let Some(file) = jobs.files.get(place) {
                let attempt = attempt_of(number);
                if let Some(command) = add_job(rt, &mut look, node, attempt, file, findings)? {
                    written = Outputs::of(alloc, place, &command)?;
                }
            }
        }
        outputs.push(written)?;
    }
    Ok(outputs)
}
