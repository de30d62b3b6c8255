//! The hints of the files of a DAG.

ghost use Rattle.std.specs.Prelude.{◌≡◌, ◌||◌, [], false, IfOk, string_bytes};

use crate::findings::Findings;
use crate::job_outputs::add_clashes;
use crate::jobs::{JobFiles, add_commands};
use crate::opened::{lines_of, opened_files};
use crate::scripts::add_scripts;
use crate::written::DagFiles;
use crate::{
    command_names, comment_notes, dag_notes, submit_hints, submit_notes, with_meant,
    with_meant_macros,
};
use dag_graph::{Graph, GraphFault};
use splices::open_dag;
use splices_flat::{FileSet, FlatDag, SpliceFault};
use std::alloc::{AllocError, Global};
use std::fs::File;
use std::rt::{Env, Files};

/// What is asked for.
#[derive(Clone, Copy, Debug, PartialEq, Eq)]
pub struct Wanted {
    /// What is odd in the files.
    pub hints: bool,
    /// What would be otherwise under `condor_submit_dag`.
    pub condor: bool,
}

impl Wanted {
    /// Whether anything is asked for.
    pub fn any(self) -> bool
        ensures { result ≡ (self.hints || self.condor) }
    {
        self.hints || self.condor
    }
}

/// The hints of the files of a DAG, of which the one of this path is the first: a line for each thing that is odd, file
/// by file, in the order of the lines. Where the DAG files can't be opened there is nothing; where they have a cycle,
/// nothing of files that two nodes write.
///
/// # Errors
/// Lack of memory.
pub fn hints_of<R: Files<File = File> + Env + AllocGlobal>(
    rt: &R,
    files: &FileSet,
    top: &str,
    wanted: Wanted,
) -> Result<String, AllocError>
    ensures none { (wanted.hints || wanted.condor) ≡ false → IfOk result (λ text. string_bytes text ≡ []) }
{
    let alloc = rt.alloc();
    if !wanted.any() {
        return Ok(String::new(alloc));
    }
    let dag = match open_dag(alloc, files, top) {
        Ok(dag) => dag,
        Err(SpliceFault::Memory) => return Err(AllocError),
        Err(_) => return Ok(String::new(alloc)),
    };
    let jobs = JobFiles::of(alloc, files, &dag)?;
    let mut findings = Findings::new(alloc, files, top)?;
    if wanted.condor {
        add_notes(alloc, files, top, &jobs, &mut findings)?;
    }
    if wanted.hints {
        add_submitted(alloc, &jobs, &mut findings)?;
        add_looked_at(rt, files, top, &jobs, dag, &mut findings)?;
    }
    findings.text(alloc)
}

/// Adds what would be otherwise under `condor_submit_dag`.
fn add_notes(
    alloc: Global,
    files: &FileSet,
    top: &str,
    jobs: &JobFiles,
    findings: &mut Findings,
) -> Result<(), AllocError> {
    for one in opened_files(alloc, files, top)?.iter() {
        let path = one.path.as_str();
        if let Some(lines) = lines_of(alloc, files, path)? {
            findings.add_all(path, dag_notes(alloc, lines.commands.as_slice())?)?;
        }
    }
    for file in jobs.files.iter() {
        let path = file.path.as_str();
        if let Some(bytes) = files.get(path) {
            findings.add_all(path, submit_notes(alloc, file.placed.as_slice())?)?;
            findings.add_all(path, comment_notes(alloc, bytes)?)?;
        }
    }
    Ok(())
}

/// Adds what is odd in the texts of submit files.
fn add_submitted(
    alloc: Global,
    jobs: &JobFiles,
    findings: &mut Findings,
) -> Result<(), AllocError> {
    let names = command_names();
    for file in jobs.files.iter() {
        let (placed, vars) = (file.placed.as_slice(), file.vars.as_slice());
        let found = submit_hints(alloc, &names, placed, vars)?;
        let found = with_meant(alloc, &names, found)?;
        let found = with_meant_macros(alloc, &names, placed, vars, found)?;
        findings.add_all(file.path.as_str(), found)?;
    }
    Ok(())
}

/// Adds what the system says to be odd in programs, scripts and folders, what is odd in the files of jobs and in their arguments, and the
/// files that two nodes write.
fn add_looked_at<R: Files<File = File> + Env + AllocGlobal>(
    rt: &R,
    files: &FileSet,
    top: &str,
    jobs: &JobFiles,
    dag: FlatDag,
    findings: &mut Findings,
) -> Result<(), AllocError> {
    let alloc = rt.alloc();
    for one in opened_files(alloc, files, top)?.iter() {
        add_scripts(rt, files, one, findings)?;
    }
    let outputs = add_commands(rt, DagFiles { files, top }, jobs, &dag, findings)?;
    match Graph::build(alloc, dag) {
        Ok(graph) => add_clashes(alloc, &graph, jobs, outputs.as_slice(), findings),
        Err(GraphFault::Memory) => Err(AllocError),
        Err(GraphFault::Cycle(_)) => Ok(()),
    }
}
