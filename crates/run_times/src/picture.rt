//! A picture of a run over time, in SVG: one bar a phase, in rows of phases that follow each other.
//!
//! The elements and attributes are those of the W3C's page "Scalable Vector Graphics (SVG) 1.1".

ghost use Rattle.std.specs.Prelude.{◌≡◌, ◌++◌, length, flat_map, codes, OnOk, IfOk, string_bytes};
ghost use Rattle.std.specs.Fmt.{decimal};
ghost use Rattle.run_times.specs.Picture.{tenths_text, attribute_text, script_name, path_name, phase_text, times_text, bar_title, rectangle_text, placed_text, label_of, class_text, bar_text, line_text, axis_mark, axis_text, load_place, level_text, word_opening, scale_text, borders_text, load_text, view_text, svg_opening, IsTimesPicture};

use crate::bars::{Bar, bars_of};
use crate::canvas::{Canvas, Frame, LOAD, MARKS, WIDTH};
use crate::classes::class_name;
use crate::load::{Level, levels_of, peak_of};
use crate::names::{push_label, push_name};
use crate::runs::PhaseRun;
use crate::slots::slots_of;
use crate::style::STYLE;
use crate::table::{push_ending, push_seconds};
use crate::ticks::{marks_of, push_tick};
use log_lines::{phase_word, step_of};
use node_machine::Phase;
use std::alloc::{AllocError, Global};

/// Adds a length of so many tenths of a pixel.
fn push_tenths(text: &mut String, tenths: u64) -> Result<(), AllocError>
    ensures { OnOk result (string_bytes text.new ≡ string_bytes text.old ++ tenths_text tenths) }
{
    write!(text, "{}.{}", tenths / 10, tenths % 10)
}

/// Adds an attribute that is a length.
fn push_length(text: &mut String, name: &str, tenths: u64) -> Result<(), AllocError>
    ensures { OnOk result (string_bytes text.new ≡ string_bytes text.old ++ attribute_text name.now tenths) }
{
    write!(text, " {name}=\"")?;
    push_tenths(text, tenths)?;
    text.push_str("\"")
}

/// What the class of a bar says beside how the phase ended: whether it is a script.
fn script_name(phase: Phase) -> &'static str
    ensures { result.now ≡ script_name phase }
{
    match phase {
        Phase::Job => "",
        Phase::Pre | Phase::Post => " script",
    }
}

/// What it says of the critical path.
fn path_name(mark: bool) -> &'static str
    ensures { result.now ≡ path_name mark }
{
    if mark { " path" } else { "" }
}

/// Adds what is shown where a pointer rests on the bar of a phase.
fn push_title(text: &mut String, run: &PhaseRun<'_>) -> Result<(), AllocError>
    ensures { OnOk result (string_bytes text.new ≡ string_bytes text.old ++ bar_title run.now) }
{
    text.push_str("<title>")?;
    push_phase(text, run)?;
    push_ending(text, run.ending)?;
    push_times(text, run)?;
    text.push_str("</title>")
}

/// Adds which phase it is.
fn push_phase(text: &mut String, run: &PhaseRun<'_>) -> Result<(), AllocError>
    ensures { OnOk result (string_bytes text.new ≡ string_bytes text.old ++ phase_text run.now) }
{
    push_name(text, run.node)?;
    write!(text, " {} {}: ", phase_word(run.phase), run.attempt)
}

/// Adds when it ran.
fn push_times(text: &mut String, run: &PhaseRun<'_>) -> Result<(), AllocError>
    ensures { OnOk result (string_bytes text.new ≡ string_bytes text.old ++ times_text run.now) }
{
    text.push_str(", from ")?;
    push_seconds(text, run.begun)?;
    text.push_str(" s, for ")?;
    push_seconds(text, run.took)?;
    text.push_str(" s")
}

/// Adds the rectangle of a phase.
fn push_rectangle(text: &mut String, canvas: &Canvas, bar: &Bar<'_>) -> Result<(), AllocError>
    ensures { OnOk result (string_bytes text.new ≡ string_bytes text.old ++ rectangle_text canvas.now bar.now) }
{
    text.push_str("<rect")?;
    push_length(text, "x", bar.left)?;
    push_length(text, "y", canvas.top(bar.slot))?;
    push_length(text, "width", bar.width)?;
    push_length(text, "height", canvas.bar_height())?;
    text.push_str("/>")
}

/// Adds the label of a phase at this place, of exactly its width.
fn push_text(
    text: &mut String,
    canvas: &Canvas,
    bar: &Bar<'_>,
    place: u64,
) -> Result<(), AllocError>
    ensures { OnOk result (string_bytes text.new ≡ string_bytes text.old ++ placed_text canvas.now bar.now place) }
{
    text.push_str("<text")?;
    push_length(text, "x", place)?;
    push_length(text, "y", canvas.letters(bar.slot))?;
    push_length(text, "textLength", bar.label_width)?;
    text.push_str(">")?;
    push_label(text, &bar.run)?;
    text.push_str("</text>")?;
    Ok(())
}

/// Adds the label of a phase, where it has one.
fn push_label_of(text: &mut String, canvas: &Canvas, bar: &Bar<'_>) -> Result<(), AllocError>
    ensures { OnOk result (string_bytes text.new ≡ string_bytes text.old ++ label_of canvas.now bar.now bar.now.label) }
{
    match bar.label {
        Some(place) => push_text(text, canvas, bar, place),
        None => Ok(()),
    }
}

/// Adds the beginning of the element of a phase, with its class.
fn push_class(text: &mut String, bar: &Bar<'_>) -> Result<(), AllocError>
    ensures { OnOk result (string_bytes text.new ≡ string_bytes text.old ++ class_text bar.now) }
{
    text.push_str("<g class=\"")?;
    text.push_str(class_name(bar.class))?;
    text.push_str(script_name(bar.run.phase))?;
    text.push_str(path_name(bar.mark))?;
    text.push_str("\">")
}

/// Adds the element of a phase.
fn push_bar(text: &mut String, canvas: &Canvas, bar: &Bar<'_>) -> Result<(), AllocError>
    ensures { OnOk result (string_bytes text.new ≡ string_bytes text.old ++ bar_text canvas.now bar.now) }
{
    push_class(text, bar)?;
    push_title(text, &bar.run)?;
    push_rectangle(text, canvas, bar)?;
    push_label_of(text, canvas, bar)?;
    text.push_str("</g>\n")?;
    Ok(())
}

/// Adds the elements of all phases.
fn push_bars(text: &mut String, canvas: &Canvas, bars: &[Bar<'_>]) -> Result<(), AllocError>
    ensures { OnOk result (string_bytes text.new ≡ string_bytes text.old ++ flat_map (bar_text canvas.now) bars.now) }
{
    for bar in bars {
        push_bar(text, canvas, bar)?;
    }
    Ok(())
}

/// Adds a line of the grid between two points.
fn push_line(text: &mut String, from: (u64, u64), to: (u64, u64)) -> Result<(), AllocError>
    ensures { OnOk result (string_bytes text.new ≡ string_bytes text.old ++ line_text from to) }
{
    text.push_str("<line class=\"grid\"")?;
    push_length(text, "x1", from.0)?;
    push_length(text, "y1", from.1)?;
    push_length(text, "x2", to.0)?;
    push_length(text, "y2", to.1)?;
    text.push_str("/>")
}

/// Adds a mark of the axis of time at this place, between these heights.
fn push_mark(
    text: &mut String,
    place: u64,
    head: u64,
    bottom: u64,
    time: u64,
    step: u64,
) -> Result<(), AllocError>
    ensures { OnOk result (string_bytes text.new ≡ string_bytes text.old ++ axis_mark place head bottom time step) }
{
    push_line(text, (place, head), (place, bottom))?;
    text.push_str("<text text-anchor=\"middle\"")?;
    push_length(text, "x", place)?;
    push_length(text, "y", head)?;
    text.push_str(" dy=\"-6\">")?;
    push_tick(text, time, step)?;
    text.push_str("</text>\n")?;
    Ok(())
}

/// Adds the axis of time: so many marks, so far apart, from this height on.
fn push_axis(
    text: &mut String,
    canvas: &Canvas,
    head: u64,
    step: u64,
    marks: u64,
) -> Result<(), AllocError>
    ensures { OnOk result (string_bytes text.new ≡ string_bytes text.old ++ axis_text canvas.now head step marks) }
{
    for mark in 0..marks {
        let time = mark.saturating_mul(step);
        push_mark(
            text,
            canvas.place(time),
            head,
            canvas.load_bottom(),
            time,
            step,
        )?;
    }
    Ok(())
}

/// How high so many phases are in the row of how many ran, where this is the highest number of them.
fn load_place(canvas: &Canvas, running: usize, peak: usize) -> u64
    ensures { result ≡ load_place canvas.now running peak }
{
    let height = (running.min(peak) as u64).saturating_mul(LOAD) / (peak as u64).max(1);
    canvas.load_bottom().saturating_sub(height)
}

/// Adds how many phases ran from a moment on.
fn push_level(
    text: &mut String,
    canvas: &Canvas,
    peak: usize,
    level: &Level,
) -> Result<(), AllocError>
    ensures { OnOk result (string_bytes text.new ≡ string_bytes text.old ++ level_text canvas.now peak level.now) }
{
    text.push_str("H")?;
    push_tenths(text, canvas.place(level.moment))?;
    text.push_str("V")?;
    push_tenths(text, load_place(canvas, level.running, peak))
}

/// Adds the line of how many phases ran at each moment.
fn push_levels(
    text: &mut String,
    canvas: &Canvas,
    peak: usize,
    levels: &[Level],
) -> Result<(), AllocError>
    ensures { OnOk result (string_bytes text.new ≡ string_bytes text.old ++ flat_map (level_text canvas.now peak) levels.now) }
{
    for level in levels {
        push_level(text, canvas, peak, level)?;
    }
    Ok(())
}

/// Adds the beginning of a word of the row of how many phases ran.
fn push_word_at(text: &mut String, place: u64, height: u64) -> Result<(), AllocError>
    ensures { OnOk result (string_bytes text.new ≡ string_bytes text.old ++ word_opening place height) }
{
    text.push_str("<text")?;
    push_length(text, "x", place)?;
    push_length(text, "y", height)?;
    text.push_str(">")
}

/// Adds a number.
fn push_number(text: &mut String, number: usize) -> Result<(), AllocError>
    ensures { OnOk result (string_bytes text.new ≡ string_bytes text.old ++ decimal number) }
{
    write!(text, "{number}")
}

/// Adds the words of the row of how many phases ran: the highest number of them, and the scale.
fn push_scale(text: &mut String, frame: &Frame, peak: usize) -> Result<(), AllocError>
    ensures { OnOk result (string_bytes text.new ≡ string_bytes text.old ++ scale_text frame.now peak) }
{
    push_word_at(text, frame.left, frame.words)?;
    text.push_str("phases at once: at most ")?;
    push_number(text, peak)?;
    text.push_str("</text>")?;
    push_word_at(text, frame.scale, frame.top)?;
    push_number(text, peak)?;
    text.push_str("</text>")?;
    push_word_at(text, frame.scale, frame.bottom)?;
    text.push_str("0</text>\n")?;
    Ok(())
}

/// Adds the two lines between which the row of how many phases ran is.
fn push_borders(text: &mut String, frame: &Frame) -> Result<(), AllocError>
    ensures { OnOk result (string_bytes text.new ≡ string_bytes text.old ++ borders_text frame.now) }
{
    push_line(text, (frame.left, frame.top), (frame.right, frame.top))?;
    push_line(
        text,
        (frame.left, frame.bottom),
        (frame.right, frame.bottom),
    )?;
    text.push_str("\n")?;
    Ok(())
}

/// Adds the row of how many phases ran at each moment, in this frame.
fn push_load(
    text: &mut String,
    canvas: &Canvas,
    frame: &Frame,
    peak: usize,
    levels: &[Level],
) -> Result<(), AllocError>
    ensures { OnOk result (string_bytes text.new ≡ string_bytes text.old ++ load_text canvas.now frame.now peak levels.now) }
{
    text.push_str("<path class=\"load\" d=\"M")?;
    push_tenths(text, frame.left)?;
    text.push_str(" ")?;
    push_tenths(text, frame.bottom)?;
    push_levels(text, canvas, peak, levels)?;
    text.push_str("V")?;
    push_tenths(text, frame.bottom)?;
    text.push_str("Z\"/>\n")?;
    push_scale(text, frame, peak)?;
    push_borders(text, frame)?;
    Ok(())
}

/// Adds the beginning of a picture: its size.
fn push_opening(text: &mut String, width: u64, height: u64) -> Result<(), AllocError>
    ensures { OnOk result (string_bytes text.new ≡ string_bytes text.old ++ svg_opening width height) }
{
    text.push_str("<svg xmlns=\"http://www.w3.org/2000/svg\"")?;
    push_length(text, "width", width)?;
    push_length(text, "height", height)?;
    push_view(text, width, height)?;
    Ok(())
}

/// Adds what of it is seen: all.
fn push_view(text: &mut String, width: u64, height: u64) -> Result<(), AllocError>
    ensures { OnOk result (string_bytes text.new ≡ string_bytes text.old ++ view_text width height) }
{
    text.push_str(" viewBox=\"0 0 ")?;
    push_tenths(text, width)?;
    text.push_str(" ")?;
    push_tenths(text, height)?;
    text.push_str("\">\n")?;
    Ok(())
}

/// A picture of these phases, with a mark for each: whether it is on the critical path. Phases that follow each
/// other share a row. The bar of a phase has a colour by how it ended; those of scripts are paler, and those of the
/// critical path are framed. Below the bars is how many phases ran at each moment.
///
/// # Errors
/// Lack of memory.
pub(crate) fn picture_text(
    alloc: Global,
    runs: &[PhaseRun<'_>],
    marks: &[bool],
) -> Result<String, AllocError>
    requires { length marks.now ≡ length runs.now }
    ensures { IfOk result (λ text. IsTimesPicture runs.now marks.now (string_bytes text)) }
{
    let slots = slots_of(alloc, runs)?;
    let canvas = Canvas::new(runs, slots.count);
    let bars = bars_of(alloc, &canvas, runs, marks, &slots)?;
    let levels = levels_of(alloc, runs)?;
    let step = step_of(canvas.total);
    let mut text = String::new(alloc);
    push_opening(&mut text, WIDTH, canvas.picture_height())?;
    text.push_str(STYLE)?;
    push_axis(
        &mut text,
        &canvas,
        MARKS,
        step,
        marks_of(canvas.total, step),
    )?;
    push_bars(&mut text, &canvas, &bars)?;
    push_load(
        &mut text,
        &canvas,
        &canvas.frame(),
        peak_of(&levels),
        &levels,
    )?;
    text.push_str("</svg>\n")?;
    Ok(text)
}
