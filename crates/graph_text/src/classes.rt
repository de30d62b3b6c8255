//! Classes of nodes, each named by its first node.

ghost use Rattle.std.specs.Prelude.{◌≡◌, ℕ, ◌<◌, ◌≤◌, ◌++◌, ◌∷◌, [], OnOk, IfOk, length, map, replicate, slice_index, slice_index_or};
ghost use Rattle.graph_text.specs.Folding.{IsClassesOf};
ghost use Rattle.graph_text.specs.Folded.{members_below};

use std::alloc::{AllocError, Global};
use std::marker::Model;

/// Numbers of nodes or of classes. A contract sees the list of them.
#[derive(Drop)]
pub(crate) struct Members {
    numbers: Vec<u32>,
}

impl Model for Members {
    ghost use Rattle.std.specs.Prelude.{List, ℕ};

    ghost Value = { List ℕ };

    ghost view = { λ m. m.numbers.items };
}

impl Members {
    /// No numbers.
    fn new(alloc: Global) -> Members
        ensures { result ≡ [] }
    {
        Members {
            numbers: Vec::new(alloc),
        }
    }

    /// The numbers as a slice.
    pub(crate) fn as_slice(&self) -> &[u32]
        ensures { result.now ≡ self.now }
    {
        self.numbers.as_slice()
    }

    /// Adds a number after the others.
    fn push(&mut self, number: u32) -> Result<(), AllocError>
        ensures { OnOk result (self.new ≡ self.old ++ number ∷ []) }
    {
        self.numbers.push(number)?;
        Ok(())
    }
}

/// The class of a node, by the classes of all, in plan order; 0 where it has none.
pub fn class_at(classes: &[u32], node: u32) -> u32
    ensures { result ≡ slice_index classes.now node }
{
    match classes.get(node as usize) {
        Some(class) => *class,
        None => 0,
    }
}

/// The class of each of these nodes.
fn classes_of(alloc: Global, classes: &[u32], nodes: &[u32]) -> Result<Vec<u32>, AllocError>
    ensures { IfOk result (λ v. v.items ≡ map (slice_index classes.now) nodes.now) }
{
    nodes
        .iter()
        .map(|node| class_at(classes, *node))
        .collect(alloc)
}

/// The classes of these nodes, ascending and each once.
pub(crate) fn classes_among(
    alloc: Global,
    classes: &[u32],
    nodes: &[u32],
) -> Result<Members, AllocError>
    ensures { IfOk result (λ among. IsClassesOf (slice_index classes.now) nodes.now among) }
{
    let mut numbers = classes_of(alloc, classes, nodes)?;
    numbers.sort_unstable();
    numbers.dedup();
    Ok(Members { numbers })
}

/// As many lists, each of which is empty.
fn empty_lists(alloc: Global, count: u32) -> Result<Vec<Members>, AllocError>
    ensures { IfOk result (λ lists. lists.items ≡ replicate count []) }
{
    let mut lists = Vec::new(alloc);
    for _ in 0..count {
        lists.push(Members::new(alloc))?;
    }
    Ok(lists)
}

/// Of each node the nodes of the class that goes by its number, in plan order.
pub(crate) fn members_of(
    alloc: Global,
    classes: &[u32],
    count: u32,
) -> Result<Vec<Members>, AllocError>
    requires within { (v : ℕ) → v < count → slice_index classes.now v ≤ v }
    ensures len { IfOk result (λ lists. length lists.items ≡ count) }
    ensures each { IfOk result (λ lists. (v : ℕ) → v < count → slice_index_or lists.items v [] ≡ members_below (slice_index classes.now) count v) }
{
    let mut lists = empty_lists(alloc, count)?;
    for node in 0..count {
        let class = class_at(classes, node);
        lists[class as usize].push(node)?;
    }
    Ok(lists)
}
