//! Where the boxes of a graph are.

use crate::fitting::{LETTER, letters_in};
use crate::groups::{Group, Groups};
use crate::values::Row;
use std::alloc::{AllocError, Global};

/// How many letters of a name are shown at most.
pub(crate) const LETTERS: u64 = 30;

/// The least width of a box, in letters.
const LEAST: u64 = 6;

/// The room on each side of a name in its box.
pub(crate) const SIDE: u64 = 8;

/// The room between two levels, which lines have.
const GAP: u64 = 56;

/// The room around the whole.
const MARGIN: u64 = 12;

/// A box of a graph.
#[derive(Clone, Copy)]
pub(crate) struct Spot {
    pub(crate) x: u64,
    pub(crate) y: u64,
    pub(crate) width: u64,
    pub(crate) height: u64,
}

impl Spot {
    /// The height of the middle of a box.
    pub(crate) fn middle(&self) -> u64 {
        self.y.saturating_add(self.height / 2)
    }

    /// The right side of a box.
    pub(crate) fn right(&self) -> u64 {
        self.x.saturating_add(self.width)
    }
}

/// The boxes of a graph, and the size of the whole.
#[derive(Drop)]
pub(crate) struct Layout {
    /// the box of each group
    pub(crate) spots: Vec<Spot>,
    /// the groups of the parents of each group
    pub(crate) parents: Vec<Vec<usize>>,
    pub(crate) width: u64,
    pub(crate) height: u64,
}

/// How high the box of so many nodes is.
fn height_of(count: u64) -> u64 {
    if count > 1 { 54 } else { 24 }
}

/// The groups of these nodes, each once, but for one of them.
fn groups_among(
    alloc: Global,
    nodes: &[u32],
    of_node: &[usize],
    own: usize,
) -> Result<Vec<usize>, AllocError> {
    let mut groups = Vec::new(alloc);
    for node in nodes {
        match of_node.get(*node as usize) {
            Some(group) if *group != own => groups.push(*group)?,
            _ => {}
        }
    }
    groups.sort()?;
    groups.dedup();
    Ok(groups)
}

/// The groups of the parents of each group: of its first node, of which all others have the same or others of the same level.
fn parents_of(
    alloc: Global,
    rows: &[Row<'_>],
    groups: &Groups,
) -> Result<Vec<Vec<usize>>, AllocError> {
    let mut parents = Vec::new(alloc);
    for (own, group) in groups.groups.iter().enumerate() {
        let nodes = match rows.get(group.first) {
            Some(row) => row.parents,
            None => &[],
        };
        parents.push(groups_among(alloc, nodes, &groups.of_node, own)?)?;
    }
    Ok(parents)
}

/// How wide the box of a group is.
fn width_of(rows: &[Row<'_>], group: &Group) -> u64 {
    let letters = match rows.get(group.first) {
        Some(row) => letters_in(row.name),
        None => 0,
    };
    let least = if group.count > 1 { 16 } else { LEAST };
    let shown = letters.clamp(least, LETTERS + 2);
    shown.saturating_mul(LETTER).saturating_add(2 * SIDE)
}

/// The height of the middle of the parents' boxes, on average.
fn height_of_parents(parents: &[usize], spots: &[Spot]) -> u64 {
    let mut sum: u64 = 0;
    for parent in parents {
        if let Some(spot) = spots.get(*parent) {
            sum = sum.saturating_add(spot.middle());
        }
    }
    sum / (parents.len() as u64).max(1)
}

/// The groups of a level, those first whose parents' boxes are higher up.
fn members(
    alloc: Global,
    groups: &[Group],
    level: u64,
    layout: &Layout,
) -> Result<Vec<usize>, AllocError> {
    let mut ranked = Vec::new(alloc);
    for (own, (group, parents)) in groups.iter().zip(layout.parents.iter()).enumerate() {
        if group.level == level {
            let height = height_of_parents(parents, &layout.spots);
            ranked.push((height, group.first, own))?;
        }
    }
    ranked.sort()?;
    ranked.iter().map(|rank| rank.2).collect(alloc)
}

/// Puts the boxes of a level, one below the other, from this place on. Answers where the last one ends.
fn place_column(
    layout: &mut Layout,
    groups: &[Group],
    members: &[usize],
    x: u64,
    width: u64,
) -> u64 {
    let mut y = MARGIN;
    for member in members {
        let height = height_of(groups.get(*member).map(|group| group.count).unwrap_or(1));
        if let Some(spot) = layout.spots.get_mut(*member) {
            *spot = Spot {
                x,
                y,
                width,
                height,
            };
        }
        y = y.saturating_add(height).saturating_add(12);
    }
    y
}

/// The width of the widest box among these.
fn widest(rows: &[Row<'_>], groups: &[Group], members: &[usize]) -> u64 {
    let mut widest = 0;
    for member in members {
        if let Some(group) = groups.get(*member) {
            widest = width_of(rows, group).max(widest);
        }
    }
    widest
}

/// Where no box is yet.
fn no_spots(alloc: Global, count: usize) -> Result<Vec<Spot>, AllocError> {
    let none = Spot {
        x: 0,
        y: 0,
        width: 0,
        height: 0,
    };
    let mut spots = Vec::new(alloc);
    for _ in 0..count {
        spots.push(none)?;
    }
    Ok(spots)
}

/// Puts the boxes of a level to the right of those before it.
fn place_level(
    alloc: Global,
    layout: &mut Layout,
    rows: &[Row<'_>],
    groups: &[Group],
    level: u64,
) -> Result<(), AllocError> {
    let members = members(alloc, groups, level, layout)?;
    if members.is_empty() {
        return Ok(());
    }
    let width = widest(rows, groups, &members);
    let x = layout.width;
    let bottom = place_column(layout, groups, &members, x, width);
    layout.height = layout.height.max(bottom);
    layout.width = x.saturating_add(width).saturating_add(GAP);
    Ok(())
}

/// Moves the boxes of a level down, so that the level is in the middle.
fn centre(layout: &mut Layout, bottoms: &[(u64, u64)]) {
    let height = layout.height;
    for spot in layout.spots.iter_mut() {
        if let Some(bottom) = bottom_at(bottoms, spot.x) {
            spot.y = spot.y.saturating_add(height.saturating_sub(bottom) / 2);
        }
    }
}

/// Where the last box ends of those that begin so far to the right.
fn bottom_at(bottoms: &[(u64, u64)], x: u64) -> Option<u64> {
    match bottoms.iter().find(|bottom| bottom.0 == x) {
        Some(bottom) => Some(bottom.1),
        None => None,
    }
}

/// Where the last box of each level ends, with how far to the right the level is.
fn bottoms_of(alloc: Global, spots: &[Spot]) -> Result<Vec<(u64, u64)>, AllocError> {
    let mut bottoms: Vec<(u64, u64)> = Vec::new(alloc);
    for spot in spots {
        let bottom = spot.y.saturating_add(spot.height).saturating_add(12);
        match bottoms.iter_mut().find(|known| known.0 == spot.x) {
            Some(known) => known.1 = known.1.max(bottom),
            None => bottoms.push((spot.x, bottom))?,
        }
    }
    Ok(bottoms)
}

/// The levels that there are, in order.
fn levels_among(alloc: Global, groups: &[Group]) -> Result<Vec<u64>, AllocError> {
    let mut levels: Vec<u64> = groups.iter().map(|group| group.level).collect(alloc)?;
    levels.sort()?;
    levels.dedup();
    Ok(levels)
}

/// Where the boxes of these groups are: a column for each level, from left to right.
pub(crate) fn layout_of(
    alloc: Global,
    rows: &[Row<'_>],
    groups: &Groups,
) -> Result<Layout, AllocError> {
    let mut layout = Layout {
        spots: no_spots(alloc, groups.groups.len())?,
        parents: parents_of(alloc, rows, groups)?,
        width: MARGIN,
        height: 2 * MARGIN,
    };
    for level in levels_among(alloc, &groups.groups)? {
        place_level(alloc, &mut layout, rows, &groups.groups, level)?;
    }
    layout.width = layout.width.saturating_sub(GAP).saturating_add(MARGIN);
    let bottoms = bottoms_of(alloc, &layout.spots)?;
    centre(&mut layout, &bottoms);
    Ok(layout)
}
