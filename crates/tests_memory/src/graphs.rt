//! Calls that open files, make graphs of them, and read and write rescue files.

use crate::made::{DIAMOND, File, files_of, graph_of};
use crate::said::{barred, say};
use anyhow::Result;
use dag_graph::Graph;
use rescue_file::{read_rescue, rescue_text};
use splices::{FileSet, FlatDag, open_dag};
use std::alloc::{AllocError, Global};

const TOP: File = (
    "t.dag",
    "JOB S s.sub\nSPLICE Y in.dag\nSPLICE Z in.dag DIR z\nJOB E e.sub\n\
     PARENT S CHILD Y\nPARENT Y CHILD Z\nPARENT Z CHILD E\n",
);

const INNER: &str = "JOB A a.sub\nJOB B b.sub\nSPLICE X leaf.dag\nPARENT A CHILD B X\n";

const LEAF: &str = "JOB L l.sub\n";

/// Splices in splices.
static NESTED: [File; 5] = [
    TOP,
    ("in.dag", INNER),
    ("z/in.dag", INNER),
    ("leaf.dag", LEAF),
    ("z/leaf.dag", LEAF),
];

/// The same, where a splice without nodes is a parent.
static EMPTY: [File; 5] = [
    TOP,
    (
        "in.dag",
        "JOB A a.sub\nJOB B b.sub\nSPLICE X leaf.dag\nPARENT A CHILD B\nPARENT X CHILD B\n",
    ),
    ("z/in.dag", INNER),
    ("leaf.dag", ""),
    ("z/leaf.dag", LEAF),
];

/// A node and a splice that each stand before the other.
static CYCLIC: [File; 2] = [
    (
        "t.dag",
        "JOB A a.sub\nSPLICE Y y.dag\nPARENT A CHILD Y\nPARENT Y CHILD A\n",
    ),
    ("y.dag", "JOB B b.sub\n"),
];

static ALONE: [File; 1] = [("t.dag", DIAMOND)];

// Adds a file; where it is refused, the set has to be what it was.
fn add_line(alloc: Global, files: &mut FileSet, file: File) -> Result<String, AllocError> {
    let count = files.iter().count();
    let (name, text) = file;
    match files.add(alloc, name, text.as_bytes()) {
        Ok(()) => format!(in alloc; "add {name}"),
        Err(_) if files.iter().count() != count => format!(in alloc; "add changed"),
        Err(_) if files.get(name).is_some() => format!(in alloc; "add changed {name}"),
        Err(_) => format!(in alloc; "add Memory"),
    }
}

// The set of these files, of which each is added once more where memory is out.
fn added(rt: HostRuntime, all: &[File]) -> Result<FileSet> {
    let mut files = FileSet::new(rt.alloc());
    for file in all {
        if say(rt, add_line(rt.alloc(), &mut files, *file))? {
            say(rt, add_line(rt.alloc(), &mut files, *file))?;
        }
    }
    Ok(files)
}

// The names of the nodes.
fn names(alloc: Global, dag: &FlatDag) -> Result<String, AllocError> {
    let mut text = String::new(alloc);
    for node in dag.nodes() {
        write!(&mut text, " {}", node.name)?;
    }
    Ok(text)
}

fn open_line(alloc: Global, files: &FileSet) -> Result<String, AllocError> {
    match open_dag(alloc, files, "t.dag") {
        Ok(dag) => {
            let nodes = names(alloc, &dag)?;
            format!(in alloc; "open_dag{nodes}")
        }
        Err(fault) => format!(in alloc; "open_dag {fault}"),
    }
}

fn graph_line(alloc: Global, files: &FileSet) -> Result<String, AllocError> {
    let dag = match open_dag(alloc, files, "t.dag") {
        Ok(dag) => dag,
        Err(fault) => return format!(in alloc; "open_dag {fault}"),
    };
    match Graph::build(alloc, dag) {
        Ok(graph) => {
            let edges = graph.edge_count();
            format!(in alloc; "build {edges} edges")
        }
        Err(fault) => format!(in alloc; "build {fault}"),
    }
}

/// Whether one node is an ancestor of another; their names.
static PAIRS: [(&str, &str); 3] = [("S", "E"), ("E", "S"), ("Y+A", "Z+B")];

fn ancestor_line(alloc: Global, graph: &Graph, pair: (&str, &str)) -> Result<String, AllocError> {
    let (above, below) = pair;
    let (Some(first), Some(last)) = (graph.node_named(above), graph.node_named(below)) else {
        return format!(in alloc; "is_ancestor of no node");
    };
    let count = graph.flat().nodes().len();
    if first as usize >= count || last as usize >= count {
        return format!(in alloc; "is_ancestor of FINAL");
    }
    match graph.is_ancestor(alloc, first, last) {
        Ok(answer) => format!(in alloc; "is_ancestor {above} {below} {answer}"),
        Err(fault) => format!(in alloc; "is_ancestor {fault}"),
    }
}

/// What is in rescue files of the diamond.
static RESCUES: [&str; 3] = ["DONE B\ndone A\n", "DONE Q\n", "RETRY A 1\n"];

fn read_line(alloc: Global, graph: &Graph, text: &str) -> Result<String, AllocError> {
    match read_rescue(alloc, text.as_bytes(), graph) {
        Ok(nodes) => format!(in alloc; "read_rescue {nodes:?}"),
        Err(fault) => format!(in alloc; "read_rescue {fault}"),
    }
}

fn text_line(alloc: Global, graph: &Graph) -> Result<String, AllocError> {
    let marks = [true, true, false, false];
    if graph.flat().nodes().len() != marks.len() {
        return format!(in alloc; "rescue_text of other nodes");
    }
    match rescue_text(alloc, graph, &marks) {
        Ok(text) => {
            let mut lines = Vec::new(alloc);
            for line in text.as_str().lines() {
                lines.push(line)?;
            }
            let lines = barred(alloc, &lines)?;
            format!(in alloc; "rescue_text {lines}")
        }
        Err(fault) => format!(in alloc; "rescue_text {fault}"),
    }
}

fn looked_at(rt: HostRuntime, graph: &Graph) -> Result<()> {
    for pair in PAIRS {
        if say(rt, ancestor_line(rt.alloc(), graph, pair))? {
            say(rt, ancestor_line(rt.alloc(), graph, pair))?;
        }
    }
    Ok(())
}

fn rescued(rt: HostRuntime, graph: &Graph) -> Result<()> {
    for text in RESCUES {
        if say(rt, read_line(rt.alloc(), graph, text))? {
            say(rt, read_line(rt.alloc(), graph, text))?;
        }
    }
    if say(rt, text_line(rt.alloc(), graph))? {
        say(rt, text_line(rt.alloc(), graph))?;
    }
    Ok(())
}

// Opens these files and makes their graph.
fn opened(rt: HostRuntime, files: &FileSet) -> Result<()> {
    if say(rt, open_line(rt.alloc(), files))? {
        say(rt, open_line(rt.alloc(), files))?;
    }
    if say(rt, graph_line(rt.alloc(), files))? {
        say(rt, graph_line(rt.alloc(), files))?;
    }
    Ok(())
}

/// Makes each call, and once more where it wants memory.
pub fn make_calls(rt: HostRuntime) -> Result<()> {
    let nested = added(rt, &NESTED)?;
    opened(rt, &nested)?;
    looked_at(rt, &graph_of(rt.alloc(), &nested, "t.dag")?)?;
    opened(rt, &files_of(rt.alloc(), &EMPTY)?)?;
    opened(rt, &files_of(rt.alloc(), &CYCLIC)?)?;
    rescued(
        rt,
        &graph_of(rt.alloc(), &files_of(rt.alloc(), &ALONE)?, "t.dag")?,
    )
}
