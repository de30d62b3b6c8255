//! Drawings, in SVG.

ghost use Rattle.std.specs.Prelude.{◌≡◌, ◌++◌, length, codes, OnOk, string_bytes};
ghost use Rattle.std.specs.Fmt.{decimal};
ghost use Rattle.report_page.specs.States.{state_word, end_text};
ghost use Rattle.report_page.specs.Escaped.{escaped_text};
ghost use Rattle.report_page.specs.Drawings.{unit_text, align_class, which_text, ran_when, ran_text, caption_text, bend_text, rule_text, place_of_panel, panel_text, label_text, shape_text, shapes_text, all_shapes_text, omission_text, size_text, opening_text, drawing_head, drawing_text};

use crate::escaped::{push_escaped, push_own};
use crate::shapes::{Align, Bend, Caption, Drawing, Label, Omission, Panel, Rule, Shape, Unit};
use crate::times::{push_duration, push_seconds};
use crate::values::{NodeState, PhaseBar, PhaseEnd};
use std::alloc::AllocError;

/// What follows a number of such units.
fn unit_text(unit: Unit) -> &'static str
    ensures { result.now ≡ unit_text unit }
{
    match unit {
        Unit::Millisecond => " ms",
        Unit::Second => " s",
        Unit::Minute => " min",
        Unit::Hour => " h",
        Unit::Day => " d",
    }
}

/// The class by which the style aligns a text.
fn align_class(align: Align) -> &'static str
    ensures { result.now ≡ align_class align }
{
    match align {
        Align::Start => "start",
        Align::Middle => "middle",
        Align::End => "end",
    }
}

/// Adds how a phase ended.
fn push_end(text: &mut String, end: PhaseEnd) -> Result<(), AllocError>
    ensures { OnOk result (string_bytes text.new ≡ string_bytes text.old ++ end_text end) }
{
    match end {
        PhaseEnd::Exit(code) => write!(text, "exit {code}"),
        PhaseEnd::Signal(number) => write!(text, "signal {number}"),
        PhaseEnd::Unknown => text.push_str("not reported"),
        PhaseEnd::NotStarted => text.push_str("not started"),
        PhaseEnd::Killed => text.push_str("killed"),
        PhaseEnd::Lost => text.push_str("lost"),
        PhaseEnd::Runs => text.push_str("runs"),
    }
}

/// Adds which phase of which node it is.
#[tactic(auto, unfolding(crate::specs::Drawings::which_text))]
fn push_which(text: &mut String, bar: &PhaseBar<'_>) -> Result<(), AllocError>
    ensures { OnOk result (string_bytes text.new ≡ string_bytes text.old ++ which_text bar.now) }
{
    push_escaped(text, bar.node)?;
    text.push_str(" ")?;
    push_escaped(text, bar.phase)?;
    write!(text, " {}: ", bar.attempt)
}

/// Adds when a phase began, and how long it took.
#[tactic(auto, unfolding(crate::specs::Drawings::ran_when))]
fn push_when(text: &mut String, bar: &PhaseBar<'_>) -> Result<(), AllocError>
    ensures { OnOk result (string_bytes text.new ≡ string_bytes text.old ++ ran_when bar.now) }
{
    text.push_str(", from ")?;
    push_seconds(text, bar.began)?;
    text.push_str(" s, for ")?;
    push_seconds(text, bar.took)?;
    text.push_str(" s")
}

/// Adds when a phase ran, and how it ended.
#[tactic(auto, unfolding(crate::specs::Drawings::ran_text))]
fn push_ran(text: &mut String, bar: &PhaseBar<'_>) -> Result<(), AllocError>
    ensures { OnOk result (string_bytes text.new ≡ string_bytes text.old ++ ran_text bar.now) }
{
    push_which(text, bar)?;
    push_end(text, bar.end)?;
    push_when(text, bar)
}

/// Adds a name, and what follows it.
fn push_named(text: &mut String, name: &str, rest: &str) -> Result<(), AllocError>
    ensures { OnOk result (string_bytes text.new ≡ string_bytes text.old ++ (escaped_text name.now ++ rest.now)) }
{
    push_escaped(text, name)?;
    text.push_str(rest)
}

/// Adds a node, and where it is.
fn push_node(text: &mut String, name: &str, state: NodeState) -> Result<(), AllocError>
    ensures { OnOk result (string_bytes text.new ≡ string_bytes text.old ++ (escaped_text name.now ++ (codes " " ++ state_word state))) }
{
    push_named(text, name, " ")?;
    text.push_str(state.word())
}

/// Adds how many nodes have a state.
fn push_count(text: &mut String, count: u64, state: NodeState) -> Result<(), AllocError>
    ensures { OnOk result (string_bytes text.new ≡ string_bytes text.old ++ (decimal count ++ (codes " " ++ state_word state))) }
{
    let word = state.word();
    write!(text, "{count} {word}")
}

/// Adds a phase, and its attempt.
fn push_phase(text: &mut String, phase: &str, attempt: u32) -> Result<(), AllocError>
    ensures { OnOk result (string_bytes text.new ≡ string_bytes text.old ++ (escaped_text phase.now ++ (codes " " ++ decimal attempt))) }
{
    push_escaped(text, phase)?;
    write!(text, " {attempt}")
}

/// Adds a time in such units.
fn push_time(text: &mut String, time: u64, unit: Unit) -> Result<(), AllocError>
    ensures { OnOk result (string_bytes text.new ≡ string_bytes text.old ++ (decimal time ++ unit_text unit)) }
{
    let unit = unit_text(unit);
    write!(text, "{time}{unit}")
}

/// Adds what a text of a drawing says.
#[tactic(auto, unfolding(crate::specs::Drawings::caption_text))]
fn push_caption(text: &mut String, caption: &Caption<'_>) -> Result<(), AllocError>
    ensures { OnOk result (string_bytes text.new ≡ string_bytes text.old ++ caption_text caption.now) }
{
    match *caption {
        Caption::Name(name) => push_escaped(text, name),
        Caption::Cut(name) => push_named(text, name, ".."),
        Caption::Node(name, state) => push_node(text, name, state),
        Caption::Count(count, state) => push_count(text, count, state),
        Caption::More(count) => write!(text, "and {count} more"),
        Caption::Nodes(count) => write!(text, "{count} nodes"),
        Caption::Phase(phase, attempt) => push_phase(text, phase, attempt),
        Caption::Ran(bar) => push_ran(text, &bar),
        Caption::Took(milliseconds) => push_duration(text, milliseconds),
        Caption::Time(time, unit) => push_time(text, time, unit),
    }
}

/// Adds a line that is bent between its ends.
#[tactic(auto, unfolding(crate::specs::Drawings::bend_text))]
fn push_bend(text: &mut String, bend: &Bend) -> Result<(), AllocError>
    ensures { OnOk result (string_bytes text.new ≡ string_bytes text.old ++ bend_text bend.now) }
{
    let Bend {
        x,
        y,
        middle,
        to_x,
        to_y,
    } = *bend;
    write!(text, "<path d=\"M{x} {y}C{middle} {y} ")?;
    writeln!(text, "{middle} {to_y} {to_x} {to_y}\"/>")
}

/// Adds a line from top to bottom.
#[tactic(auto, unfolding(crate::specs::Drawings::rule_text))]
fn push_rule(text: &mut String, rule: &Rule) -> Result<(), AllocError>
    ensures { OnOk result (string_bytes text.new ≡ string_bytes text.old ++ rule_text rule.now) }
{
    writeln!(text, "<path d=\"M{} {}V{}\"/>", rule.x, rule.y, rule.to_y)
}

/// Adds where a box is, and how large.
#[tactic(auto, unfolding(crate::specs::Drawings::place_of_panel))]
fn push_place_of_panel(text: &mut String, panel: &Panel<'_>) -> Result<(), AllocError>
    ensures { OnOk result (string_bytes text.new ≡ string_bytes text.old ++ place_of_panel panel.now) }
{
    write!(text, "\" x=\"{}\" y=\"{}\" width=\"", panel.x, panel.y)?;
    let (width, height) = (panel.width, panel.height);
    write!(text, "{width}\" height=\"{height}\"><title>")
}

/// Adds a box or a bar, with its title.
#[tactic(auto, unfolding(crate::specs::Drawings::panel_text))]
fn push_panel(text: &mut String, panel: &Panel<'_>) -> Result<(), AllocError>
    ensures { OnOk result (string_bytes text.new ≡ string_bytes text.old ++ panel_text panel.now) }
{
    text.push_str("<rect class=\"")?;
    text.push_str(panel.look.class())?;
    push_place_of_panel(text, panel)?;
    push_caption(text, &panel.title)?;
    text.push_str("</title></rect>\n")
}

/// Adds a text.
#[tactic(auto, unfolding(crate::specs::Drawings::label_text))]
fn push_label(text: &mut String, label: &Label<'_>) -> Result<(), AllocError>
    ensures { OnOk result (string_bytes text.new ≡ string_bytes text.old ++ label_text label.now) }
{
    text.push_str("<text class=\"")?;
    text.push_str(align_class(label.align))?;
    write!(text, "\" x=\"{}\" y=\"{}\">", label.x, label.y)?;
    push_caption(text, &label.caption)?;
    text.push_str("</text>\n")
}

/// Adds a shape.
#[tactic(auto, unfolding(crate::specs::Drawings::shape_text))]
fn push_shape(text: &mut String, shape: &Shape<'_>) -> Result<(), AllocError>
    ensures { OnOk result (string_bytes text.new ≡ string_bytes text.old ++ shape_text shape.now) }
{
    match shape {
        Shape::Bend(bend) => push_bend(text, bend),
        Shape::Rule(rule) => push_rule(text, rule),
        Shape::Panel(panel) => push_panel(text, panel),
        Shape::Label(label) => push_label(text, label),
    }
}

/// Adds all shapes, one after another.
#[tactic(auto, unfolding(crate::specs::Drawings::shapes_text))]
fn push_shapes(text: &mut String, shapes: &[Shape<'_>]) -> Result<(), AllocError>
    ensures { OnOk result (string_bytes text.new ≡ string_bytes text.old ++ shapes_text shapes.now (length shapes.now)) }
{
    for place in 0..shapes.len() {
        push_shape(text, &shapes[place])?;
    }
    Ok(())
}

/// Adds all shapes of a drawing.
#[tactic(auto, unfolding(crate::specs::Drawings::all_shapes_text))]
fn push_shapes_of(text: &mut String, drawing: &Drawing<'_>) -> Result<(), AllocError>
    ensures { OnOk result (string_bytes text.new ≡ string_bytes text.old ++ all_shapes_text drawing.now) }
{
    push_shapes(text, &drawing.shapes)
}

/// Adds what a drawing leaves out.
#[tactic(auto, unfolding(crate::specs::Drawings::omission_text))]
fn push_omission(text: &mut String, omission: Omission) -> Result<(), AllocError>
    ensures { OnOk result (string_bytes text.new ≡ string_bytes text.old ++ omission_text omission) }
{
    match omission {
        Omission::Nothing => Ok(()),
        Omission::Groups => text.push_str(
            "<p>Each box has all nodes of one shape: they have the same submit file and folder, their parents are in the same boxes, and so are their children.</p>\n",
        ),
        Omission::Layers(count) => writeln!(
            text,
            "<p>Layers in each box: {count}. A layer has all nodes that are equally far from the first ones.</p>"
        ),
        Omission::Longest(shown, all) => writeln!(
            text,
            "<p>These are the {shown} longest of {all} phases, in the order in which they began.</p>"
        ),
    }
}

/// Adds how wide and how high a drawing is.
#[tactic(auto, unfolding(crate::specs::Drawings::size_text))]
fn push_size(text: &mut String, width: u64, height: u64) -> Result<(), AllocError>
    ensures { OnOk result (string_bytes text.new ≡ string_bytes text.old ++ size_text width height) }
{
    write!(
        text,
        "\" width=\"{width}\" height=\"{height}\" viewBox=\"0 0 "
    )?;
    writeln!(text, "{width} {height}\">")
}

/// Adds what comes before the name of a drawing.
#[tactic(auto, unfolding(crate::specs::Drawings::opening_text))]
fn push_opening(text: &mut String) -> Result<(), AllocError>
    ensures { OnOk result (string_bytes text.new ≡ string_bytes text.old ++ opening_text) }
{
    push_own(text, "<div class=\"wide\"><svg role=\"img\" aria-label=\"")
}

/// Adds the beginning of a drawing of this name.
#[tactic(auto, unfolding(crate::specs::Drawings::drawing_head))]
fn push_drawing_head(
    text: &mut String,
    name: &str,
    width: u64,
    height: u64,
) -> Result<(), AllocError>
    ensures { OnOk result (string_bytes text.new ≡ string_bytes text.old ++ drawing_head name.now width height) }
{
    push_opening(text)?;
    text.push_str(name)?;
    push_size(text, width, height)
}

/// Adds a drawing of this name, and what it leaves out.
#[tactic(auto, unfolding(crate::specs::Drawings::drawing_text))]
pub(crate) fn push_drawing(
    text: &mut String,
    name: &str,
    drawing: &Drawing<'_>,
) -> Result<(), AllocError>
    ensures { OnOk result (string_bytes text.new ≡ string_bytes text.old ++ drawing_text name.now drawing.now) }
{
    push_omission(text, drawing.omission)?;
    push_drawing_head(text, name, drawing.width, drawing.height)?;
    push_shapes_of(text, drawing)?;
    push_own(text, "</svg></div>\n")
}
