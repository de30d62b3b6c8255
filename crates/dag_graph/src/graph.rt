//! The graph of a DAG.

ghost use Rattle.std.specs.Prelude.{◌≡◌, ◌<◌, ◌↔◌, IfOk, IfErr, Some, IsTrue, length, position};
ghost use Rattle.std.specs.Option.{option_map};
ghost use Rattle.std.specs.Str.{bytes_eq};
ghost use Rattle.dag_graph.specs.declared.fault.GraphFault.TheVariants.{Memory};
ghost use Rattle.dag_graph.specs.Graph.{IsAcyclic, IsAncestor, IsOrderOf, parents_of, children_of, names_of, edge_count_of};
ghost use Rattle.dag_graph.specs.Cycles.{IsCycleFault};

use crate::fault::GraphFault;
use crate::names::numbers_of;
use crate::numbers::total_length;
use crate::order::order_of;
use crate::relatives::{Relatives, relatives_of};
use crate::search::is_above;
use indexmap::IndexMap;
use splices_flat::FlatDag;
use std::alloc::Global;
use std::marker::Model;

/// A DAG none of whose nodes is its own ancestor, with its nodes in a topological order, parents first.
///
/// Nodes go by their numbers: the ordinary ones from 0 in plan order, and then the FINAL node, which
/// has neither parents nor children.
pub struct Graph {
    flat: FlatDag,
    relatives: Relatives,
    order: Vec<u32>,
    numbers: IndexMap<String, u32>,
}

// Each function that drops a value calls this; a derived drop would be in each, part by part.
impl Drop for Graph {
    fn drop(self) {
        let Graph {
            flat: _,
            relatives: _,
            order: _,
            numbers: _,
        } = self;
    }
}

impl Model for Graph {
    ghost use Rattle.std.specs.HashMap.{get_by_text};
    ghost use Rattle.dag_graph.specs.Graph.{Network};
    ghost use Rattle.dag_graph.specs.Parts.{IsGraph};

    ghost Value = { Network };

    ghost view = { λ g. record { dag = g.flat; order = g.order.items } };

    ghost invariant = { λ g. IsGraph g.flat g.relatives.parents.items g.relatives.children.items g.order.items (get_by_text g.numbers) };
}

impl Graph {
    /// The graph of a DAG. Where a node is its own ancestor, `Cycle` gives the full names of a cycle,
    /// from its node with the least number on; `Memory` is the answer where memory runs out.
    pub fn build(alloc: Global, dag: FlatDag) -> Result<Graph, GraphFault>
        ensures graph { IfOk result (λ g. g.dag ≡ dag) }
        ensures acyclic { IfOk result (λ g. IsAcyclic dag.edges) }
        ensures cycle { IfErr result (IsCycleFault dag) }
    {
        let relatives = relatives_of(alloc, &dag)?;
        let order = order_of(alloc, &dag, relatives.parents.as_slice())?;
        let numbers = numbers_of(alloc, &dag)?;
        Ok(Graph {
            flat: dag,
            relatives,
            order,
            numbers,
        })
    }

    /// The ordinary nodes, each once and after its parents.
    pub fn order(&self) -> &[u32]
        ensures is { result.now ≡ self.now.order }
        ensures parents_first { IsOrderOf self.now.dag self.now.order }
    {
        self.order.as_slice()
    }

    /// The parents of a node, ascending and each once. The FINAL node has none, and no other number
    /// has any.
    pub fn parents(&self, node: u32) -> &[u32]
        ensures { result.now ≡ parents_of self.now.dag node }
    {
        let _ = self.flat.edges();
        match self.relatives.parents.get(node as usize) {
            Some(parents) => parents.as_slice(),
            None => &[],
        }
    }

    /// The children of a node, ascending and each once. The FINAL node has none, and no other number
    /// has any.
    pub fn children(&self, node: u32) -> &[u32]
        ensures { result.now ≡ children_of self.now.dag node }
    {
        let _ = self.flat.edges();
        match self.relatives.children.get(node as usize) {
            Some(children) => children.as_slice(),
            None => &[],
        }
    }

    /// The number of distinct pairs of a parent and a child.
    pub fn edge_count(&self) -> usize
        ensures { result ≡ edge_count_of self.now.dag }
    {
        let _ = self.flat.nodes();
        total_length(self.relatives.parents.as_slice())
    }

    /// The number of the node with this full name, if there is one; the first of two such nodes
    /// counts.
    pub fn node_named(&self, name: &str) -> Option<u32>
        ensures { result ≡ position (bytes_eq name.now) (names_of self.now.dag) }
    {
        self.numbers.get(name).copied()
    }

    /// The number of the FINAL node, if there is one.
    pub fn final_node(&self) -> Option<u32>
        ensures { result ≡ option_map (λ _. length self.now.dag.nodes) self.now.dag.final_node }
    {
        match self.flat.final_node() {
            Some(_) => Some(self.flat.nodes().len() as u32),
            None => None,
        }
    }

    /// Whether node `a` is an ancestor of node `b`. Each ancestor of `b` is looked at once. `Memory`
    /// is the answer where memory runs out.
    pub fn is_ancestor(&self, alloc: Global, a: u32, b: u32) -> Result<bool, GraphFault>
        ensures yes { IfOk result (λ is. IsTrue is ↔ IsAncestor self.now.dag.edges a b) }
        ensures err { IfErr result (λ f. f ≡ Memory) }
    {
        Ok(is_above(alloc, &self.flat, self.relatives.parents.as_slice(), a, b)?)
    }

    /// The flat DAG.
    pub fn flat(&self) -> &FlatDag
        ensures { result.now ≡ self.now.dag }
    {
        &self.flat
    }
}
