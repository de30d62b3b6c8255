//! Texts of a page that come from outside.

ghost use Rattle.std.specs.Prelude.{◌≡◌, ◌++◌, flat_map, chars, OnOk, string_bytes};
ghost use Rattle.report_page.specs.States.{state_word, look_of, look_class};
ghost use Rattle.report_page.specs.Escaped.{is_hidden, escaped_character, escaped_text};

use crate::values::{Look, NodeState};
use std::alloc::AllocError;

/// Whether a character is a control character that is neither a tab nor the end of a line.
fn is_hidden(character: char) -> bool
    ensures { result ≡ is_hidden character }
{
    if character < ' ' {
        character != '\t' && character != '\n'
    } else {
        character >= '\x7f' && character < '\u{a0}'
    }
}

/// Adds a text as it is, which is one of the page's own.
pub(crate) fn push_own(text: &mut String, own: &str) -> Result<(), AllocError>
    ensures { OnOk result (string_bytes text.new ≡ string_bytes text.old ++ own.now) }
{
    text.push_str(own)
}

/// Adds the class by which the style shows a look.
pub(crate) fn push_class(text: &mut String, look: Look) -> Result<(), AllocError>
    ensures { OnOk result (string_bytes text.new ≡ string_bytes text.old ++ look_class look) }
{
    text.push_str(look.class())
}

/// Adds the class of a state.
pub(crate) fn push_state_class(text: &mut String, state: NodeState) -> Result<(), AllocError>
    ensures { OnOk result (string_bytes text.new ≡ string_bytes text.old ++ look_class (look_of state)) }
{
    push_class(text, state.look())
}

/// Adds the word of a state.
pub(crate) fn push_word(text: &mut String, state: NodeState) -> Result<(), AllocError>
    ensures { OnOk result (string_bytes text.new ≡ string_bytes text.old ++ state_word state) }
{
    text.push_str(state.word())
}

/// Adds what is written for a character.
fn push_character(text: &mut String, character: char) -> Result<(), AllocError>
    ensures { OnOk result (string_bytes text.new ≡ string_bytes text.old ++ escaped_character character) }
{
    match character {
        '&' => text.push_str("&amp;"),
        '<' => text.push_str("&lt;"),
        '>' => text.push_str("&gt;"),
        '"' => text.push_str("&quot;"),
        '\'' => text.push_str("&#39;"),
        hidden if is_hidden(hidden) => text.push_str("?"),
        other => text.push(other),
    }
}

/// Adds a text, so that a browser shows just its characters.
#[tactic(auto, unfolding(crate::specs::Escaped::escaped_text))]
pub(crate) fn push_escaped(text: &mut String, shown: &str) -> Result<(), AllocError>
    ensures { OnOk result (string_bytes text.new ≡ string_bytes text.old ++ escaped_text shown.now) }
{
    for character in shown.chars() {
        push_character(text, character)?;
    }
    Ok(())
}
