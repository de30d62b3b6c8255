//! The cycle of a path that comes back.

ghost use Rattle.std.specs.Prelude.{◌≡◌, ◌++◌, ◌<◌, ◌≤◌, List, IfOk, length, drop, take, reverse, map, slice_index};
ghost use Rattle.std.specs.List.{All};
ghost use Rattle.splices_flat.specs.declared.flat.Edge.{Edge};
ghost use Rattle.dag_graph.specs.Graph.{IsCycle, rank_in, name_of};
ghost use Rattle.dag_graph.specs.Cycles.{IsClosedBy, IsCycleFault, NamesCycle};

use crate::fault::GraphFault;
use dag_reader::{Text, Texts};
use splices_flat::FlatDag;
use std::alloc::{AllocError, Global};

/// The first place of a node, or the length where it has none.
fn place_of(nodes: &[u32], node: u32) -> usize
    ensures { result ≡ rank_in nodes.now node }
{
    for (k, other) in nodes.iter().enumerate() {
        if *other == node {
            return k;
        }
    }
    nodes.len()
}

/// The nodes from a place on, the last one first.
fn turned(alloc: Global, nodes: &[u32], place: usize) -> Result<Vec<u32>, AllocError>
    requires { place ≤ length nodes.now }
    ensures { IfOk result (λ v. v.items ≡ reverse (drop place nodes.now)) }
{
    nodes[place..].iter().rev().copied().collect(alloc)
}

/// The place of a least node.
fn least_place(nodes: &[u32]) -> usize
    requires { 0 < length nodes.now }
    ensures within { result < length nodes.now }
    ensures least { All (λ n. slice_index nodes.now result ≤ n) nodes.now }
{
    let mut place = 0;
    for (k, node) in nodes.iter().enumerate() {
        if *node < nodes[place] {
            place = k;
        }
    }
    place
}

/// The nodes from a place on, and then those before it.
fn begun_at(alloc: Global, nodes: &[u32], place: usize) -> Result<Vec<u32>, AllocError>
    requires { place ≤ length nodes.now }
    ensures { IfOk result (λ v. v.items ≡ drop place nodes.now ++ take place nodes.now) }
{
    let mut begun = Vec::from_slice(alloc, &nodes[place..])?;
    begun.extend_from_slice(&nodes[..place])?;
    Ok(begun)
}

/// The cycle on a path upward, one of whose nodes is a parent of the last.
fn cycle_of(alloc: Global, path: &[u32], parent: u32) -> Result<Vec<u32>, AllocError>
    requires { rank_in path.now parent < length path.now }
    ensures { IfOk result (λ v. (edges : List Edge) → IsClosedBy edges path.now parent → IsCycle edges v.items) }
{
    let round = turned(alloc, path, place_of(path, parent))?;
    let nodes = round.as_slice();
    let cycle = begun_at(alloc, nodes, least_place(nodes))?;
    Ok(cycle)
}

/// The full names of nodes.
fn names_of(alloc: Global, dag: &FlatDag, nodes: &[u32]) -> Result<Texts, AllocError>
    requires { All (λ n. n < length dag.now.nodes) nodes.now }
    ensures { IfOk result (λ t. t ≡ map (name_of dag.now) nodes.now) }
{
    let mut names = Texts::new(alloc);
    for node in nodes {
        names.push(Text::new(alloc, dag.nodes()[*node as usize].name.as_str())?)?;
    }
    Ok(names)
}

/// The names of the cycle on a path upward, one of whose nodes is a parent of the last.
fn cycle_names(alloc: Global, dag: &FlatDag, path: &[u32], parent: u32) -> Result<Texts, AllocError>
    requires { IsClosedBy dag.now.edges path.now parent }
    ensures { IfOk result (λ t. NamesCycle dag.now t) }
{
    let cycle = cycle_of(alloc, path, parent)?;
    let _ = dag.edges();
    let names = names_of(alloc, dag, cycle.as_slice())?;
    Ok(names)
}

/// The fault of a path upward, one of whose nodes is a parent of the last.
pub(crate) fn cycle_fault(alloc: Global, dag: &FlatDag, path: &[u32], parent: u32) -> GraphFault
    requires { IsClosedBy dag.now.edges path.now parent }
    ensures { IsCycleFault dag.now result }
{
    match cycle_names(alloc, dag, path, parent) {
        Ok(names) => GraphFault::Cycle(names),
        Err(_) => GraphFault::Memory,
    }
}
