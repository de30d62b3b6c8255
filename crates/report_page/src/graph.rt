//! The graph of a round: boxes in columns, from left to right, and lines from parents to children.

use crate::fitting::fitting;
use crate::groups::{Group, groups_of};
use crate::levels::{children_of, levels_of};
use crate::placing::{LETTERS, Layout, SIDE, Spot, layout_of};
use crate::shapes::{Align, Bend, Caption, Drawing, Label, Panel, Shape};
use crate::values::{Look, NodeState, Row};
use std::alloc::{AllocError, Global};

/// All states, by their numbers.
const STATES: [NodeState; 7] = [
    NodeState::Done,
    NodeState::Error,
    NodeState::PreRun,
    NodeState::Submitted,
    NodeState::PostRun,
    NodeState::Ready,
    NodeState::NotReady,
];

/// The least width of the part of a box that shows how many of its nodes are in a state.
const LEAST: u64 = 3;

/// The height of that part.
const BAR: u64 = 8;

/// Draws the line from one box to another.
fn draw_line(shapes: &mut Vec<Shape<'_>>, from: &Spot, to: &Spot) -> Result<(), AllocError> {
    let (x, to_x) = (from.right(), to.x);
    shapes.push(Shape::Bend(Bend {
        x,
        y: from.middle(),
        middle: (x / 2).saturating_add(to_x / 2),
        to_x,
        to_y: to.middle(),
    }))?;
    Ok(())
}

/// Draws the lines from the parents of a box.
fn draw_lines_to(
    shapes: &mut Vec<Shape<'_>>,
    spots: &[Spot],
    parents: &[usize],
    to: &Spot,
) -> Result<(), AllocError> {
    for parent in parents {
        if let Some(from) = spots.get(*parent) {
            draw_line(shapes, from, to)?;
        }
    }
    Ok(())
}

/// Draws all lines.
fn draw_lines(shapes: &mut Vec<Shape<'_>>, layout: &Layout) -> Result<(), AllocError> {
    for (spot, parents) in layout.spots.iter().zip(layout.parents.iter()) {
        draw_lines_to(shapes, &layout.spots, parents, spot)?;
    }
    Ok(())
}

/// Draws a box.
fn draw_panel<'a>(
    shapes: &mut Vec<Shape<'a>>,
    spot: &Spot,
    look: Look,
    title: Caption<'a>,
) -> Result<(), AllocError> {
    shapes.push(Shape::Panel(Panel {
        x: spot.x,
        y: spot.y,
        width: spot.width,
        height: spot.height,
        look,
        title,
    }))?;
    Ok(())
}

/// Draws a text so far below the upper side of a box.
fn draw_text<'a>(
    shapes: &mut Vec<Shape<'a>>,
    spot: &Spot,
    below: u64,
    caption: Caption<'a>,
) -> Result<(), AllocError> {
    shapes.push(Shape::Label(Label {
        x: spot.x.saturating_add(SIDE),
        y: spot.y.saturating_add(below),
        align: Align::Start,
        caption,
    }))?;
    Ok(())
}

/// The part of a box that has so many of its nodes, from this place on.
fn part_of(spot: &Spot, group: &Group, x: u64, count: u64) -> Spot {
    let room = spot.width.saturating_sub(2 * SIDE + 7 * LEAST);
    Spot {
        x,
        y: spot.y.saturating_add(40),
        width: (room.saturating_mul(count) / group.count.max(1)).saturating_add(LEAST),
        height: BAR,
    }
}

/// Draws how many nodes of a box are in each state.
fn draw_tally(shapes: &mut Vec<Shape<'_>>, spot: &Spot, group: &Group) -> Result<(), AllocError> {
    let mut x = spot.x.saturating_add(SIDE);
    for (state, count) in STATES.iter().zip(group.tally.iter()) {
        if *count > 0 {
            let part = part_of(spot, group, x, *count);
            draw_panel(shapes, &part, state.look(), Caption::Count(*count, *state))?;
            x = part.right();
        }
    }
    Ok(())
}

/// Draws the box of a group, whose first node this is: in the colour of its state where it is the only one, and else with how many
/// are in each state.
fn draw_box<'a>(
    shapes: &mut Vec<Shape<'a>>,
    spot: &Spot,
    group: &Group,
    first: &Row<'a>,
) -> Result<(), AllocError> {
    if group.count > 1 {
        draw_panel(shapes, spot, Look::Plain, Caption::Nodes(group.count))?;
        draw_tally(shapes, spot, group)
    } else {
        let title = Caption::Node(first.name, first.state);
        draw_panel(shapes, spot, first.state.look(), title)
    }
}

/// Draws the texts of the box of a group, whose first node this is: its name, and how many more there are.
fn draw_texts<'a>(
    shapes: &mut Vec<Shape<'a>>,
    spot: &Spot,
    group: &Group,
    first: &Row<'a>,
) -> Result<(), AllocError> {
    draw_text(shapes, spot, 16, fitting(first.name, LETTERS))?;
    if group.count > 1 {
        let more = Caption::More(group.count.saturating_sub(1));
        draw_text(shapes, spot, 32, more)?;
    }
    Ok(())
}

/// Draws all boxes.
fn draw_boxes<'a>(
    shapes: &mut Vec<Shape<'a>>,
    layout: &Layout,
    groups: &[Group],
    rows: &[Row<'a>],
) -> Result<(), AllocError> {
    for (spot, group) in layout.spots.iter().zip(groups) {
        if let Some(first) = rows.get(group.first) {
            draw_box(shapes, spot, group, first)?;
        }
    }
    Ok(())
}

/// Draws the texts of all boxes.
fn draw_all_texts<'a>(
    shapes: &mut Vec<Shape<'a>>,
    layout: &Layout,
    groups: &[Group],
    rows: &[Row<'a>],
) -> Result<(), AllocError> {
    for (spot, group) in layout.spots.iter().zip(groups) {
        if let Some(first) = rows.get(group.first) {
            draw_texts(shapes, spot, group, first)?;
        }
    }
    Ok(())
}

/// The graph of these nodes, by the longest path that leads to each: up to some hundreds have a box of their own, and of
/// more those share one that are of one shape, or have the same level.
///
/// # Errors
/// Lack of memory.
pub(crate) fn graph_drawing<'a>(
    alloc: Global,
    rows: &[Row<'a>],
) -> Result<Drawing<'a>, AllocError> {
    let children = children_of(alloc, rows)?;
    let levels = levels_of(alloc, rows, &children)?;
    let groups = groups_of(alloc, rows, &levels)?;
    let layout = layout_of(alloc, rows, &groups)?;
    let mut shapes = Vec::new(alloc);
    draw_boxes(&mut shapes, &layout, &groups.groups, rows)?;
    // A line over a box that it passes is seen to lead on.
    draw_lines(&mut shapes, &layout)?;
    draw_all_texts(&mut shapes, &layout, &groups.groups, rows)?;
    Ok(Drawing {
        width: layout.width,
        height: layout.height,
        omission: groups.omission,
        shapes,
    })
}
