//! Files that two nodes may write at once.

ghost use Rattle.std.specs.Prelude.{◌≡◌, ◌↔◌, [], None, IsTrue, IfOk, IfErr, OnOk, option_copied};
ghost use Rattle.dag_graph.specs.declared.fault.GraphFault.TheVariants.{Memory};
ghost use Rattle.file_hints.specs.Outputs.{last_writer, AreRelated, HasClash, AreClashes};

use dag_graph::{Graph, GraphFault};
use dag_reader::Text;
use std::alloc::Global;

/// A node, by its number, and the path of a file that it writes.
#[derive(Drop)]
pub struct Writer {
    pub node: u32,
    pub path: Text,
}

/// Two nodes that may run at once and write one file.
#[derive(Drop)]
pub struct Clash {
    pub first: u32,
    pub second: u32,
    pub path: Text,
}

/// Of each writer the last one before it that writes the same file, where neither of their nodes is an ancestor of the
/// other. Where the writers stand in the order of the graph, there is one exactly where two nodes may write one file at
/// once: of nodes in a chain each is an ancestor of the next.
///
/// # Errors
/// Lack of memory.
pub fn clashes(alloc: Global, graph: &Graph, writers: &[Writer]) -> Result<Vec<Clash>, GraphFault>
    ensures found { IfOk result (λ found. AreClashes graph.now.dag.edges [] writers.now found.items) }
    ensures err { IfErr result (λ fault. fault ≡ Memory) }
{
    let mut found = Vec::new(alloc);
    for (at, one) in writers.iter().enumerate() {
        push_clash(alloc, graph, &mut found, &writers[..at], one)?;
    }
    Ok(found)
}

/// Adds the clash of a writer with the last one before it that writes the same file, if there is one.
fn push_clash(
    alloc: Global,
    graph: &Graph,
    found: &mut Vec<Clash>,
    before: &[Writer],
    one: &Writer,
) -> Result<(), GraphFault>
    ensures found { OnOk result (HasClash graph.now.dag.edges (last_writer None before.now one.now.path) one.now found.old.items found.new.items) }
    ensures err { IfErr result (λ fault. fault ≡ Memory) }
{
    let Some(other) = last_same(before, one.path.as_str()) else {
        return Ok(());
    };
    if are_ordered(alloc, graph, other.node, one.node)? {
        return Ok(());
    }
    let path = Text::new(alloc, one.path.as_str())?;
    found.push(Clash {
        first: other.node,
        second: one.node,
        path,
    })?;
    Ok(())
}

/// The last of some writers that writes the file of this path.
fn last_same<'a>(writers: &'a [Writer], path: &str) -> Option<&'a Writer>
    ensures { option_copied result ≡ last_writer None writers.now path.now }
{
    let mut found = None;
    for one in writers {
        if one.path.as_str() == path {
            found = Some(one);
        }
    }
    found
}

/// Whether two nodes are one, or one of them is an ancestor of the other.
fn are_ordered(alloc: Global, graph: &Graph, a: u32, b: u32) -> Result<bool, GraphFault>
    ensures ordered { IfOk result (λ ordered. IsTrue ordered ↔ AreRelated graph.now.dag.edges a b) }
    ensures err { IfErr result (λ fault. fault ≡ Memory) }
{
    if a == b {
        return Ok(true);
    }
    if graph.is_ancestor(alloc, a, b)? {
        return Ok(true);
    }
    graph.is_ancestor(alloc, b, a)
}
