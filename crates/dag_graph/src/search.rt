//! Searches in a graph, as for the ancestors of a node.

ghost use Rattle.std.specs.Prelude.{◌≡◌, ◌<◌, ℕ, [], true, false, IfOk, OnOk, IsTrue, ◌↔◌, length, replicate, slice_index, slice_index_or};
ghost use Rattle.std.specs.List.{All};
ghost use Rattle.dag_graph.specs.Graph.{IsAncestor, all_parents_of};
ghost use Rattle.dag_graph.specs.Search.{IsSearch, MeetsNodes, with_met};

use crate::numbers::Numbers;
use splices_flat::FlatDag;
use std::alloc::{AllocError, Global};
use std::marker::Model;

/// A search in a graph of so many nodes: those that were met so far, each once.
#[derive(Drop)]
pub struct Search {
    met: Vec<bool>,
    /// These nodes in the order in which they were met.
    found: Vec<u32>,
}

impl Model for Search {
    ghost use Rattle.dag_graph.specs.Search.{Searched};

    ghost Value = { Searched };

    ghost view = { λ s. record { met = s.met.items; found = s.found.items } };
}

impl Search {
    /// A search in a graph of so many nodes, of which none was met.
    ///
    /// # Errors
    /// Lack of memory.
    pub fn new(alloc: Global, count: usize) -> Result<Search, AllocError>
        ensures { IfOk result (λ s. s ≡ record { met = replicate count false; found = [] }) }
    {
        Ok(Search {
            met: vec![in alloc; false; count]?,
            found: Vec::new(alloc),
        })
    }

    /// A mark for each node: whether it was met.
    pub fn into_marks(self) -> Vec<bool>
        ensures { result.items ≡ self.met }
    {
        self.met
    }

    /// The number of nodes that were met.
    pub fn count(&self) -> usize
        ensures { result ≡ length self.now.found }
    {
        self.found.len()
    }

    /// The node that was met at this place, from 0.
    pub fn node_at(&self, place: usize) -> u32
        requires { place < length self.now.found }
        ensures { result ≡ slice_index self.now.found place }
    {
        self.found[place]
    }

    /// A node is met.
    fn meet(&mut self, node: u32) -> Result<(), AllocError>
        requires { node < length self.old.met }
        ensures { OnOk result (self.new ≡ with_met self.old node) }
    {
        if !self.met[node as usize] {
            self.met[node as usize] = true;
            self.found.push(node)?;
        }
        Ok(())
    }

    /// Nodes are met, in this order; those that were met before change nothing.
    ///
    /// # Errors
    /// Lack of memory.
    pub fn meet_all(&mut self, nodes: &[u32]) -> Result<(), AllocError>
        requires search { IsSearch self.old }
        requires below { All (λ n. n < length self.old.met) nodes.now }
        ensures { OnOk result (MeetsNodes nodes.now self.old self.new) }
    {
        for node in nodes {
            self.meet(*node)?;
        }
        Ok(())
    }
}

/// Of each node whether it is an ancestor of a node. Each node is looked at once at most.
fn ancestors_of(
    alloc: Global,
    dag: &FlatDag,
    parents: &[Numbers],
    node: u32,
) -> Result<Vec<bool>, AllocError>
    requires parents { parents.now ≡ all_parents_of dag.now }
    requires node { node < length dag.now.nodes }
    ensures len { IfOk result (λ v. length v.items ≡ length dag.now.nodes) }
    ensures met { IfOk result (λ v. (a : ℕ) → (slice_index_or v.items a false ≡ true) ↔ IsAncestor dag.now.edges a node) }
{
    let _ = dag.nodes();
    let _ = dag.edges();
    let mut search = Search::new(alloc, parents.len())?;
    search.meet_all(parents[node as usize].as_slice())?;
    let mut done = 0;
    while done < search.count() {
        let next = search.node_at(done);
        search.meet_all(parents[next as usize].as_slice())?;
        done += 1;
    }
    Ok(search.into_marks())
}

/// Whether a node is an ancestor of another one.
pub(crate) fn is_above(
    alloc: Global,
    dag: &FlatDag,
    parents: &[Numbers],
    a: u32,
    b: u32,
) -> Result<bool, AllocError>
    requires { parents.now ≡ all_parents_of dag.now }
    ensures { IfOk result (λ is. IsTrue is ↔ IsAncestor dag.now.edges a b) }
{
    let _ = dag.edges();
    let count = parents.len();
    if a as usize >= count {
        return Ok(false);
    }
    if b as usize >= count {
        return Ok(false);
    }
    let marks = ancestors_of(alloc, dag, parents, b)?;
    Ok(marks[a as usize])
}
