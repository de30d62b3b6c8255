//! How far nodes are from the first ones.

use crate::values::Row;
use std::alloc::{AllocError, Global};

/// Lists without members, as many as there are nodes.
fn no_children(alloc: Global, nodes: usize) -> Result<Vec<Vec<u32>>, AllocError> {
    let mut children = Vec::new(alloc);
    for _ in 0..nodes {
        children.push(Vec::new(alloc))?;
    }
    Ok(children)
}

/// Adds a node to the children of each of its parents.
fn add_child(children: &mut [Vec<u32>], parents: &[u32], node: u32) -> Result<(), AllocError> {
    for parent in parents {
        if let Some(family) = children.get_mut(*parent as usize) {
            family.push(node)?;
        }
    }
    Ok(())
}

/// The children of each node, in plan order.
pub(crate) fn children_of(alloc: Global, rows: &[Row<'_>]) -> Result<Vec<Vec<u32>>, AllocError> {
    let mut children = no_children(alloc, rows.len())?;
    for (node, row) in rows.iter().enumerate() {
        if let Ok(node) = u32::try_from(node) {
            add_child(&mut children, row.parents, node)?;
        }
    }
    Ok(children)
}

/// The levels of nodes, as far as they are known.
#[derive(Drop)]
struct Levels {
    /// the level of each node: the length of the longest path that leads to it
    levels: Vec<u64>,
    /// how many parents of each node have no level yet
    missing: Vec<usize>,
    /// the nodes that have a level, in the order in which they got it
    settled: Vec<u32>,
}

impl Levels {
    /// Those of the nodes that have no parent.
    fn of_roots(alloc: Global, rows: &[Row<'_>]) -> Result<Levels, AllocError> {
        let mut levels = Levels {
            levels: Vec::new(alloc),
            missing: Vec::new(alloc),
            settled: Vec::new(alloc),
        };
        for (node, row) in rows.iter().enumerate() {
            levels.add(node, row.parents.len())?;
        }
        Ok(levels)
    }

    /// Adds a node with so many parents.
    fn add(&mut self, node: usize, parents: usize) -> Result<(), AllocError> {
        self.levels.push(0)?;
        self.missing.push(parents)?;
        if let (0, Ok(node)) = (parents, u32::try_from(node)) {
            self.settled.push(node)?;
        }
        Ok(())
    }

    /// A parent of a node has this level.
    fn note(&mut self, child: u32, level: u64) -> Result<(), AllocError> {
        let place = child as usize;
        if let Some(own) = self.levels.get_mut(place) {
            *own = (*own).max(level.saturating_add(1));
        }
        if let Some(missing) = self.missing.get_mut(place) {
            *missing = missing.saturating_sub(1);
            if *missing == 0 {
                self.settled.push(child)?;
            }
        }
        Ok(())
    }

    /// The children of a node get to know its level.
    fn pass_on(&mut self, node: u32, children: &[Vec<u32>]) -> Result<(), AllocError> {
        let (Some(level), Some(family)) = (
            self.levels.get(node as usize).copied(),
            children.get(node as usize),
        ) else {
            return Ok(());
        };
        for child in family {
            self.note(*child, level)?;
        }
        Ok(())
    }
}

/// Puts the FINAL node after all others.
fn put_final_last(levels: &mut Vec<u64>, rows: &[Row<'_>]) {
    let last = levels.iter().copied().max().unwrap_or(0);
    for (level, row) in levels.iter_mut().zip(rows.iter()) {
        if row.is_final {
            *level = last.saturating_add(1);
        }
    }
}

/// The level of each node: how many nodes are before it on the longest path that leads to it. That of the FINAL node is
/// after all others.
pub(crate) fn levels_of(
    alloc: Global,
    rows: &[Row<'_>],
    children: &[Vec<u32>],
) -> Result<Vec<u64>, AllocError> {
    let mut found = Levels::of_roots(alloc, rows)?;
    for place in 0..rows.len() {
        if let Some(node) = found.settled.get(place).copied() {
            found.pass_on(node, children)?;
        }
    }
    let Levels {
        mut levels,
        missing: _,
        settled: _,
    } = found;
    put_final_last(&mut levels, rows);
    Ok(levels)
}
