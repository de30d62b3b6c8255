//! The text of a rescue file.

ghost use Rattle.std.specs.Prelude.{◌≡◌, ◌++◌, [], if◌then◌else◌, length, map, decimal, OnOk, IfOk, IfErr, string_bytes};
ghost use Rattle.std.specs.List.{count_by};
ghost use Rattle.rescue_file.specs.Written.{ordinary_names, marked, done_line, done_lines, head_text, rescue_text_of};
ghost use Rattle.rescue_file.specs.declared.fault.RescueFault.TheVariants.{Memory};

use crate::fault::RescueFault;
use dag_graph::Graph;
use itoa::Buffer;
use splices_flat::FlatNode;
use std::alloc::{AllocError, Global};

/// The text of the rescue file of a graph, with a mark for each ordinary node, in plan order: whether
/// it is done. HTCondor's manual tells of such files in the chapter "The rescue DAG".
///
/// Two comments tell how many ordinary nodes there are and how many of them are marked. After an
/// empty line each marked node has a line: `DONE` and its full name. A DAG that is started again
/// with this file does not run these nodes. The FINAL node, which runs each time, is never there.
///
/// # Errors
/// `Memory` where memory runs out, and nothing else.
pub fn rescue_text(alloc: Global, graph: &Graph, marks: &[bool]) -> Result<String, RescueFault>
    requires { length marks.now ≡ length graph.now.dag.nodes }

    // The text is that of the rule, for the names of the ordinary nodes and the marks.
    ensures text { IfOk result (λ text. string_bytes text
        ≡ rescue_text_of (ordinary_names graph.now.dag) marks.now) }

    // It is refused for lack of memory alone.
    ensures err { IfErr result (λ fault. fault ≡ Memory) }
{
    Ok(text_of_nodes(alloc, graph.flat().nodes(), marks)?)
}

fn text_of_nodes(alloc: Global, nodes: &[FlatNode], marks: &[bool]) -> Result<String, AllocError>
    requires { length marks.now ≡ length nodes.now }
    ensures { IfOk result (λ text. string_bytes text
        ≡ rescue_text_of (map (λ node. node.name) nodes.now) marks.now) }
{
    let mut text = String::new(alloc);
    push_head(&mut text, nodes.len(), count_marks(marks))?;
    push_lines(&mut text, nodes, marks)?;
    Ok(text)
}

/// Adds the comments and the empty line.
fn push_head(text: &mut String, total: usize, done: usize) -> Result<(), AllocError>
    ensures { OnOk result (string_bytes text.new ≡ string_bytes text.old ++ head_text total done) }
{
    push_count(text, "# Rescue DAG file\n# Total number of Nodes: ", total)?;
    push_count(text, "\n# Nodes premarked DONE: ", done)?;
    text.push_str("\n\n")?;
    Ok(())
}

/// Adds a label and a number.
fn push_count(text: &mut String, label: &str, count: usize) -> Result<(), AllocError>
    ensures { OnOk result (string_bytes text.new ≡ string_bytes text.old ++ (label.now ++ decimal count)) }
{
    let mut digits = Buffer::new();
    text.push_str(label)?;
    text.push_str(digits.format(count))
}

/// How many marks stand.
fn count_marks(marks: &[bool]) -> usize
    ensures { result ≡ count_by (λ mark. mark) marks.now }
{
    marks.iter().filter(|mark| **mark).count()
}

/// Adds the lines of the marked nodes.
fn push_lines(text: &mut String, nodes: &[FlatNode], marks: &[bool]) -> Result<(), AllocError>
    requires { length marks.now ≡ length nodes.now }
    ensures { OnOk result (string_bytes text.new ≡ string_bytes text.old
        ++ done_lines (marked (map (λ node. node.name) nodes.now) marks.now)) }
{
    for (number, node) in nodes.iter().enumerate() {
        push_marked(text, node.name.as_str(), marks[number])?;
    }
    Ok(())
}

/// Adds the line of a node, if it is marked.
fn push_marked(text: &mut String, name: &str, mark: bool) -> Result<(), AllocError>
    ensures { OnOk result (string_bytes text.new ≡ string_bytes text.old
        ++ (if mark then done_line name.now else [])) }
{
    if mark {
        writeln!(text, "DONE {name}")
    } else {
        Ok(())
    }
}
