//! Names in a picture.

ghost use Rattle.std.specs.Prelude.{◌≡◌, ◌++◌, chars, flat_map, OnOk, string_bytes};
ghost use Rattle.run_times.specs.Names.{character_text, name_text, label_end, bar_label, character_width, text_width, label_width};

use crate::runs::PhaseRun;
use node_machine::Phase;
use std::alloc::AllocError;

/// The width of a letter of one column.
const NARROW: u64 = 67;

/// The width of any other character.
const WIDE: u64 = 134;

/// Adds a character as a text of XML has it; one that XML doesn't have is a question mark.
fn push_character(text: &mut String, character: char) -> Result<(), AllocError>
    ensures { OnOk result (string_bytes text.new ≡ string_bytes text.old ++ character_text character) }
{
    match character {
        '&' => text.push_str("&amp;"),
        '<' => text.push_str("&lt;"),
        '>' => text.push_str("&gt;"),
        '\u{fffe}' | '\u{ffff}' => text.push('?'),
        other if other.is_control() => text.push('?'),
        other => text.push(other),
    }
}

/// Adds a name as a text of XML has it.
pub(crate) fn push_name(text: &mut String, name: &str) -> Result<(), AllocError>
    ensures { OnOk result (string_bytes text.new ≡ string_bytes text.old ++ name_text name.now) }
{
    for character in name.chars() {
        push_character(text, character)?;
    }
    Ok(())
}

/// What follows the name of a node in the label of a phase.
fn label_end(phase: Phase) -> &'static str
    ensures { result.now ≡ label_end phase }
{
    match phase {
        Phase::Pre => " PRE",
        Phase::Job => "",
        Phase::Post => " POST",
    }
}

/// Adds the label of a phase: the name of its node, and of a script which one it is.
pub(crate) fn push_label(text: &mut String, run: &PhaseRun<'_>) -> Result<(), AllocError>
    ensures { OnOk result (string_bytes text.new ≡ string_bytes text.old ++ bar_label run.now) }
{
    push_name(text, run.node)?;
    text.push_str(label_end(run.phase))
}

/// The width that a character has in a label, in tenths of a pixel.
fn character_width(character: char) -> u64
    ensures { result ≡ character_width character }
{
    if character < '\u{300}' { NARROW } else { WIDE }
}

/// The width of a text in a label.
fn text_width(text: &str) -> u64
    ensures { result ≡ text_width text.now }
{
    let mut width: u64 = 0;
    for character in text.chars() {
        width = width.saturating_add(character_width(character));
    }
    width
}

/// The width of the label of a phase.
pub(crate) fn label_width(run: &PhaseRun<'_>) -> u64
    ensures { result ≡ label_width run.now }
{
    text_width(run.node).saturating_add(text_width(label_end(run.phase)))
}
