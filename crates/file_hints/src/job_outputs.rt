//! The files that nodes write.

use crate::findings::Findings;
use crate::jobs::{JobFile, JobFiles};
use crate::{Clash, Finding, Hint, Writer, clashes};
use dag_graph::{Graph, GraphFault};
use dag_reader::Text;
use run_plan_node::ChildCommand;
use splices_flat::NameTable;
use std::alloc::{AllocError, Global};

/// The files that a node writes, and the place of its submit file.
#[derive(Drop)]
pub(crate) struct Outputs {
    file: usize,
    output: Option<Text>,
    error: Option<Text>,
}

impl Outputs {
    /// Those of a node that writes none.
    pub(crate) fn none() -> Outputs {
        Outputs {
            file: 0,
            output: None,
            error: None,
        }
    }

    /// Those of a command.
    pub(crate) fn of(
        alloc: Global,
        file: usize,
        command: &ChildCommand,
    ) -> Result<Outputs, AllocError> {
        Ok(Outputs {
            file,
            output: copied(alloc, &command.output)?,
            error: copied(alloc, &command.error)?,
        })
    }

    /// Whether the file of this path is the one for the standard output.
    fn is_output(&self, path: &str) -> bool {
        match &self.output {
            Some(output) => output.as_str() == path,
            None => false,
        }
    }

    /// Adds those that more than one node writes.
    fn push_writers(
        &self,
        alloc: Global,
        node: u32,
        shared: &NameTable,
        writers: &mut Vec<Writer>,
    ) -> Result<(), AllocError> {
        for path in [&self.output, &self.error] {
            if let Some(path) = path {
                if shared.has(path.as_str()) {
                    let path = Text::new(alloc, path.as_str())?;
                    writers.push(Writer { node, path })?;
                }
            }
        }
        Ok(())
    }
}

/// A copy of a path, where there is one.
fn copied(alloc: Global, path: &Option<Text>) -> Result<Option<Text>, AllocError> {
    match path {
        Some(path) => Ok(Some(Text::new(alloc, path.as_str())?)),
        None => Ok(None),
    }
}

/// Notes a path, and as one of several where it was noted before.
fn note(
    alloc: Global,
    seen: &mut NameTable,
    shared: &mut NameTable,
    path: &Option<Text>,
) -> Result<(), AllocError> {
    let Some(path) = path else {
        return Ok(());
    };
    let path = path.as_str();
    // What is there is no file.
    if path.starts_with("/dev/") {
        return Ok(());
    }
    if !seen.has(path) {
        return seen.add(alloc, path);
    }
    if !shared.has(path) {
        return shared.add(alloc, path);
    }
    Ok(())
}

/// The paths that stand more than once among what nodes write.
fn shared_paths(alloc: Global, outputs: &[Outputs]) -> Result<NameTable, AllocError> {
    let mut seen = NameTable::new(alloc);
    let mut shared = NameTable::new(alloc);
    for one in outputs {
        note(alloc, &mut seen, &mut shared, &one.output)?;
        note(alloc, &mut seen, &mut shared, &one.error)?;
    }
    Ok(shared)
}

/// The name of a node.
fn name_of<'a>(graph: &'a Graph, node: u32) -> &'a str {
    match graph.flat().nodes().get(node as usize) {
        Some(node) => node.name.as_str(),
        None => "",
    }
}

/// Adds a clash, at the line of the second node's submit file that names the file.
fn add_clash(
    alloc: Global,
    graph: &Graph,
    files: &[JobFile],
    outputs: &[Outputs],
    clash: Clash,
    findings: &mut Findings,
) -> Result<(), AllocError> {
    let Clash {
        first,
        second,
        path,
    } = clash;
    let Some(written) = outputs.get(second as usize) else {
        return Ok(());
    };
    let Some(file) = files.get(written.file) else {
        return Ok(());
    };
    let stream = if written.is_output(path.as_str()) {
        "output"
    } else {
        "error"
    };
    let line = file.line_of(stream);
    let hint = Hint::SharedOutput {
        path,
        first: Text::new(alloc, name_of(graph, first))?,
        second: Text::new(alloc, name_of(graph, second))?,
    };
    findings.add(file.path.as_str(), Finding { line, hint })
}

/// Adds the files that two nodes may write at once: of each the first two, since a sweep of thousands of nodes has one
/// such file for one reason.
///
/// # Errors
/// Lack of memory.
pub(crate) fn add_clashes(
    alloc: Global,
    graph: &Graph,
    jobs: &JobFiles,
    outputs: &[Outputs],
    findings: &mut Findings,
) -> Result<(), AllocError> {
    let shared = shared_paths(alloc, outputs)?;
    let mut writers = Vec::new(alloc);
    for node in graph.order() {
        if let Some(one) = outputs.get(*node as usize) {
            one.push_writers(alloc, *node, &shared, &mut writers)?;
        }
    }
    let found = match clashes(alloc, graph, writers.as_slice()) {
        Ok(found) => found,
        Err(GraphFault::Memory | GraphFault::Cycle(_)) => return Err(AllocError),
    };
    let mut paths = NameTable::new(alloc);
    for clash in found {
        if paths.has(clash.path.as_str()) {
            continue;
        }
        paths.add(alloc, clash.path.as_str())?;
        add_clash(
            alloc,
            graph,
            jobs.files.as_slice(),
            outputs,
            clash,
            findings,
        )?;
    }
    Ok(())
}
