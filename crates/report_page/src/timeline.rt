//! The timeline of a round: a row for each phase, in the order in which they began.

use crate::fitting::{LETTER, fitting, letters_in};
use crate::shapes::{Align, Caption, Drawing, Label, Omission, Panel, Rule, Shape};
use crate::ticks::tick;
use crate::values::PhaseBar;
use log_lines::step_of;
use std::alloc::{AllocError, Global};

/// How many phases have a row at most.
const MOST: usize = 200;

/// How many letters of the name of a node are shown at most.
const LETTERS: u64 = 28;

/// The room above the rows, which the marks of the axis have.
const HEAD: u64 = 26;

/// The height of a row.
const ROW: u64 = 18;

/// The room beside a text.
const GAP: u64 = 8;

/// The room between the names and the axis, which has which phase it is.
const PHASES: u64 = 80;

/// How long the axis of time is.
const LENGTH: u64 = 720;

/// The room beside the axis, which has how long each phase took.
const LENGTHS: u64 = 130;

/// The axis of time.
#[derive(Clone, Copy)]
struct Axis {
    /// the milliseconds of the whole axis
    total: u64,
    /// where the names of nodes end
    names: u64,
    /// where the last row ends
    bottom: u64,
}

/// How many letters the longest of these names takes, of which so many are shown at most.
fn widest(phases: &[PhaseBar<'_>]) -> u64 {
    let widest = phases.iter().map(|bar| letters_in(bar.node)).max();
    widest.unwrap_or(0).min(LETTERS + 2)
}

impl Axis {
    /// The axis of these phases.
    fn of(phases: &[PhaseBar<'_>]) -> Axis {
        let total = phases.iter().map(|bar| end_of(bar)).max().unwrap_or(0);
        let rows = phases.len() as u64;
        Axis {
            total: total.max(1),
            names: widest(phases).saturating_mul(LETTER).saturating_add(GAP),
            bottom: rows.saturating_mul(ROW).saturating_add(HEAD),
        }
    }

    /// Where the axis begins.
    fn left(&self) -> u64 {
        self.names.saturating_add(GAP + PHASES)
    }

    /// Where it ends.
    fn right(&self) -> u64 {
        self.left().saturating_add(LENGTH)
    }

    /// How far to the right a time is.
    fn place(&self, time: u64) -> u64 {
        (time.saturating_mul(LENGTH) / self.total.max(1)).saturating_add(self.left())
    }
}

/// When a phase ended, or was last seen.
fn end_of(bar: &PhaseBar<'_>) -> u64 {
    bar.began.saturating_add(bar.took)
}

/// The places of the longest phases, as many as have a row, in the order in which they began.
fn longest(alloc: Global, phases: &[PhaseBar<'_>]) -> Result<Vec<usize>, AllocError> {
    let mut ranked = Vec::new(alloc);
    for (place, bar) in phases.iter().enumerate() {
        ranked.push((u64::MAX - bar.took, place))?;
    }
    ranked.sort()?;
    ranked.truncate(MOST);
    let mut places: Vec<usize> = ranked.iter().map(|rank| rank.1).collect(alloc)?;
    places.sort()?;
    Ok(places)
}

/// The phases that have a row.
fn drawn<'a>(alloc: Global, phases: &[PhaseBar<'a>]) -> Result<Vec<PhaseBar<'a>>, AllocError> {
    let mut bars = Vec::new(alloc);
    for place in longest(alloc, phases)? {
        if let Some(bar) = phases.get(place) {
            bars.push(*bar)?;
        }
    }
    Ok(bars)
}

/// Draws a text of a row.
fn draw_text<'a>(
    shapes: &mut Vec<Shape<'a>>,
    x: u64,
    y: u64,
    align: Align,
    caption: Caption<'a>,
) -> Result<(), AllocError> {
    shapes.push(Shape::Label(Label {
        x,
        y,
        align,
        caption,
    }))?;
    Ok(())
}

/// Draws a mark of the axis.
fn draw_mark(
    shapes: &mut Vec<Shape<'_>>,
    axis: &Axis,
    time: u64,
    step: u64,
) -> Result<(), AllocError> {
    let x = axis.place(time);
    shapes.push(Shape::Rule(Rule {
        x,
        y: HEAD - 6,
        to_y: axis.bottom,
    }))?;
    draw_text(shapes, x, HEAD - 10, Align::Middle, tick(time, step))
}

/// Draws the axis.
fn draw_axis(shapes: &mut Vec<Shape<'_>>, axis: &Axis) -> Result<(), AllocError> {
    let step = step_of(axis.total);
    for mark in 0..=axis.total / step.max(1) {
        draw_mark(shapes, axis, mark.saturating_mul(step), step)?;
    }
    Ok(())
}

/// Draws the bar of a phase.
fn draw_bar<'a>(
    shapes: &mut Vec<Shape<'a>>,
    axis: &Axis,
    top: u64,
    bar: &PhaseBar<'a>,
) -> Result<(), AllocError> {
    let x = axis.place(bar.began);
    let width = axis.place(end_of(bar)).saturating_sub(x);
    shapes.push(Shape::Panel(Panel {
        x,
        y: top.saturating_add(2),
        width: width.max(2),
        height: ROW - 4,
        look: bar.end.look(),
        title: Caption::Ran(*bar),
    }))?;
    Ok(())
}

/// Draws the row of a phase: the name of its node, which phase it is, its bar, and how long it took.
fn draw_row<'a>(
    shapes: &mut Vec<Shape<'a>>,
    axis: &Axis,
    row: usize,
    bar: &PhaseBar<'a>,
) -> Result<(), AllocError> {
    let top = (row as u64).saturating_mul(ROW).saturating_add(HEAD);
    let base = top.saturating_add(13);
    let phase = Caption::Phase(bar.phase, bar.attempt);
    let name = fitting(bar.node, LETTERS);
    draw_text(shapes, axis.names, base, Align::End, name)?;
    let beside = axis.names.saturating_add(GAP);
    draw_text(shapes, beside, base, Align::Start, phase)?;
    draw_bar(shapes, axis, top, bar)?;
    let took = Caption::Took(bar.took);
    let behind = axis.right().saturating_add(GAP);
    draw_text(shapes, behind, base, Align::Start, took)
}

/// Draws the rows of all these phases.
fn draw_rows<'a>(
    shapes: &mut Vec<Shape<'a>>,
    axis: &Axis,
    bars: &[PhaseBar<'a>],
) -> Result<(), AllocError> {
    for (row, bar) in bars.iter().enumerate() {
        draw_row(shapes, axis, row, bar)?;
    }
    Ok(())
}

/// The timeline of these phases. Of very many only the longest have a row.
///
/// # Errors
/// Lack of memory.
pub(crate) fn timeline_drawing<'a>(
    alloc: Global,
    phases: &[PhaseBar<'a>],
) -> Result<Drawing<'a>, AllocError> {
    let bars = drawn(alloc, phases)?;
    let axis = Axis::of(&bars);
    let mut shapes = Vec::new(alloc);
    draw_axis(&mut shapes, &axis)?;
    draw_rows(&mut shapes, &axis, &bars)?;
    Ok(Drawing {
        width: axis.right().saturating_add(LENGTHS),
        height: axis.bottom.saturating_add(6),
        omission: if bars.len() < phases.len() {
            Omission::Longest(bars.len() as u64, phases.len() as u64)
        } else {
            Omission::Nothing
        },
        shapes,
    })
}
