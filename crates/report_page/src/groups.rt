//! Which nodes have a box together.

use crate::shapes::Omission;
use crate::values::Row;
use std::alloc::{AllocError, Global};

/// How many boxes there are at most.
const MOST: usize = 200;

/// Nodes that have a box together, one of them at least.
#[derive(Clone, Copy)]
pub(crate) struct Group {
    /// the level of its nodes
    pub(crate) level: u64,
    /// the first of its nodes in plan order
    pub(crate) first: usize,
    /// how many nodes it has
    pub(crate) count: u64,
    /// how many of them are in each state
    pub(crate) tally: [u64; 7],
}

/// All nodes, in groups.
#[derive(Drop)]
pub(crate) struct Groups {
    /// the group of each node
    pub(crate) of_node: Vec<usize>,
    /// the groups
    pub(crate) groups: Vec<Group>,
    /// how they were made
    pub(crate) omission: Omission,
}

/// The number of the shape of each node, the shapes in the order of their first nodes.
fn shape_numbers(alloc: Global, rows: &[Row<'_>]) -> Result<Vec<usize>, AllocError> {
    let mut numbers: Vec<usize> = Vec::new(alloc);
    let mut next: usize = 0;
    for row in rows {
        match numbers.get(row.alike as usize).copied() {
            Some(number) => numbers.push(number)?,
            None => {
                numbers.push(next)?;
                next = next.saturating_add(1);
            }
        }
    }
    Ok(numbers)
}

/// How many numbers there are, of which the greatest is one less.
fn count_of(numbers: &[usize]) -> usize {
    match numbers.iter().max() {
        Some(greatest) => greatest.saturating_add(1),
        None => 0,
    }
}

/// How many levels make a group, so that there are few enough.
fn levels_in_group(levels: &[u64]) -> u64 {
    let last = levels.iter().copied().max().unwrap_or(0);
    (last / MOST as u64).saturating_add(1)
}

/// The levels as numbers of groups, where so many make one.
fn level_numbers(alloc: Global, levels: &[u64], step: u64) -> Result<Vec<usize>, AllocError> {
    let mut numbers = Vec::new(alloc);
    for level in levels {
        numbers.push((*level / step.max(1)) as usize)?;
    }
    Ok(numbers)
}

/// The group of each node, and how the groups were made.
fn grouping(
    alloc: Global,
    rows: &[Row<'_>],
    levels: &[u64],
) -> Result<(Vec<usize>, Omission), AllocError> {
    if rows.len() <= MOST {
        return Ok(((0..rows.len()).collect(alloc)?, Omission::Nothing));
    }
    let numbers = shape_numbers(alloc, rows)?;
    if count_of(&numbers) <= MOST {
        return Ok((numbers, Omission::Groups));
    }
    let step = levels_in_group(levels);
    Ok((level_numbers(alloc, levels, step)?, Omission::Layers(step)))
}

/// Groups without nodes, as many.
fn empty_groups(alloc: Global, count: usize) -> Result<Vec<Group>, AllocError> {
    let empty = Group {
        level: 0,
        first: 0,
        count: 0,
        tally: [0; 7],
    };
    let mut groups = Vec::new(alloc);
    for _ in 0..count {
        groups.push(empty)?;
    }
    Ok(groups)
}

impl Group {
    /// Adds a node.
    fn add(&mut self, node: usize, row: &Row<'_>, level: u64) {
        if self.count == 0 {
            self.first = node;
            self.level = level;
        }
        self.count = self.count.saturating_add(1);
        if let Some(tally) = self.tally.get_mut(row.state.number() as usize) {
            *tally = tally.saturating_add(1);
        }
    }
}

/// All nodes in groups: each by itself; or, where there are very many, those of one shape; or, where these are still too many
/// groups, those of a level.
pub(crate) fn groups_of(
    alloc: Global,
    rows: &[Row<'_>],
    levels: &[u64],
) -> Result<Groups, AllocError> {
    let (of_node, omission) = grouping(alloc, rows, levels)?;
    let mut groups = empty_groups(alloc, count_of(&of_node))?;
    for (node, (row, (number, level))) in rows.iter().zip(of_node.iter().zip(levels)).enumerate() {
        if let Some(group) = groups.get_mut(*number) {
            group.add(node, row, *level);
        }
    }
    Ok(Groups {
        of_node,
        groups,
        omission,
    })
}
