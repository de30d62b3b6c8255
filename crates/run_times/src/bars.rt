//! The bars of phases, and their labels.

ghost use Rattle.std.specs.Prelude.{◌≡◌, length, IfOk};
ghost use Rattle.run_times.specs.Slots.{AreSlots};
ghost use Rattle.run_times.specs.Bars.{fits, label_at, bar_width, IsBar, AreBarLimits, AreBars};

use crate::canvas::{Canvas, EDGE};
use crate::classes::{Class, class_of};
use crate::names::label_width;
use crate::runs::PhaseRun;
use crate::slots::Slots;
use std::alloc::{AllocError, Global};

/// The width of the bar of a phase that took next to no time.
const LEAST: u64 = 10;

/// The room on each side of a label.
const PAD: u64 = 40;

/// A phase as it is drawn; lengths are in tenths of a pixel.
#[derive(Clone, Copy)]
pub(crate) struct Bar<'a> {
    pub(crate) run: PhaseRun<'a>,
    /// whether it is on the critical path
    pub(crate) mark: bool,
    pub(crate) class: Class,
    pub(crate) slot: usize,
    /// where it begins
    pub(crate) left: u64,
    pub(crate) width: u64,
    /// where its label begins, where it has one
    pub(crate) label: Option<u64>,
    /// how wide that is
    pub(crate) label_width: u64,
}

/// Whether a label of this width fits between two places, with room on both sides.
fn fits(width: u64, from: u64, to: u64) -> bool
    ensures { result ≡ fits width from to }
{
    0 < width && width <= to.saturating_sub(from).saturating_sub(2 * PAD)
}

/// Where the label of a bar begins, which may go as far as a limit: in the bar if it fits, else after it if it fits
/// there; none, where it fits nowhere.
fn label_at(width: u64, left: u64, right: u64, limit: u64) -> Option<u64>
    ensures { result ≡ label_at width left right limit }
{
    if fits(width, left, right) {
        Some(left + PAD)
    } else if fits(width, right, limit) {
        Some(right + PAD)
    } else {
        None
    }
}

/// The width of a bar of a phase that began and ended at these places, where the next one of its slot begins at this
/// limit.
fn bar_width(left: u64, end: u64, limit: u64) -> u64
    ensures { result ≡ bar_width left end limit }
{
    end.saturating_sub(left)
        .max(LEAST)
        .min(limit.saturating_sub(left))
}

/// For each phase the place where the next one of its slot begins, from the last back to the first.
fn limits_of(
    alloc: Global,
    canvas: &Canvas,
    runs: &[PhaseRun<'_>],
    slots: &Slots,
) -> Result<Vec<u64>, AllocError>
    requires { AreSlots runs.now slots.now.of.items slots.now.count }
    ensures each { IfOk result (λ limits. length limits.items ≡ length runs.now) }
    ensures limits { IfOk result (λ limits. AreBarLimits canvas.now runs.now slots.now.of.items limits.items 0) }
{
    let mut next = vec![in alloc; EDGE; slots.count]?;
    let mut limits = vec![in alloc; EDGE; runs.len()]?;
    let mut place = runs.len();
    while place > 0 {
        place -= 1;
        let slot = slots.of[place];
        limits[place] = next[slot];
        next[slot] = canvas.place(runs[place].begun);
    }
    Ok(limits)
}

/// The bar of a phase.
fn bar_of<'a>(
    canvas: &Canvas,
    run: &PhaseRun<'a>,
    mark: bool,
    class: Class,
    slot: usize,
    limit: u64,
) -> Bar<'a>
    ensures is { IsBar canvas.now run.now limit result }
    ensures mark { result.mark ≡ mark }
    ensures class { result.class ≡ class }
    ensures slot { result.slot ≡ slot }
{
    let left = canvas.place(run.begun);
    let width = bar_width(left, canvas.place(run.end()), limit);
    let label_width = label_width(run);
    let label = if canvas.is_labelled() {
        label_at(label_width, left, left.saturating_add(width), limit)
    } else {
        None
    };
    Bar {
        run: *run,
        mark,
        class,
        slot,
        left,
        width,
        label,
        label_width,
    }
}

/// The bars of phases, with a mark for each: whether it is on the critical path.
///
/// # Errors
/// Lack of memory.
pub(crate) fn bars_of<'a>(
    alloc: Global,
    canvas: &Canvas,
    runs: &[PhaseRun<'a>],
    marks: &[bool],
    slots: &Slots,
) -> Result<Vec<Bar<'a>>, AllocError>
    requires slots { AreSlots runs.now slots.now.of.items slots.now.count }
    requires marks { length marks.now ≡ length runs.now }
    ensures { IfOk result (λ bars. AreBars canvas.now runs.now marks.now slots.now.of.items bars.items) }
{
    let limits = limits_of(alloc, canvas, runs, slots)?;
    let mut bars = Vec::new(alloc);
    for place in 0..runs.len() {
        let class = class_of(&runs[place], &runs[place + 1..]);
        bars.push(bar_of(
            canvas,
            &runs[place],
            marks[place],
            class,
            slots.of[place],
            limits[place],
        ))?;
    }
    Ok(bars)
}
