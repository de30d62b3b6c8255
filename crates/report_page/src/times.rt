//! Times of a page.

ghost use Rattle.std.specs.Prelude.{◌≡◌, ◌++◌, OnOk, string_bytes};
ghost use Rattle.report_page.specs.Times.{seconds_shown, some_seconds_shown, duration_text};

use std::alloc::AllocError;

/// Adds milliseconds as seconds, with three digits after the point.
#[tactic(auto, unfolding(crate::specs::Times::seconds_shown))]
pub(crate) fn push_seconds(text: &mut String, milliseconds: u64) -> Result<(), AllocError>
    ensures { OnOk result (string_bytes text.new ≡ string_bytes text.old ++ seconds_shown milliseconds) }
{
    let (tenths, hundredths) = (milliseconds / 100 % 10, milliseconds / 10 % 10);
    write!(
        text,
        "{}.{tenths}{hundredths}{}",
        milliseconds / 1000,
        milliseconds % 10
    )
}

/// Adds the same where the time is known.
#[tactic(auto, unfolding(crate::specs::Times::some_seconds_shown))]
pub(crate) fn push_some_seconds(
    text: &mut String,
    milliseconds: Option<u64>,
) -> Result<(), AllocError>
    ensures { OnOk result (string_bytes text.new ≡ string_bytes text.old ++ some_seconds_shown milliseconds) }
{
    match milliseconds {
        Some(milliseconds) => push_seconds(text, milliseconds),
        None => Ok(()),
    }
}

/// Adds a length of time for a reader.
#[tactic(auto, unfolding(crate::specs::Times::duration_text))]
pub(crate) fn push_duration(text: &mut String, milliseconds: u64) -> Result<(), AllocError>
    ensures { OnOk result (string_bytes text.new ≡ string_bytes text.old ++ duration_text milliseconds) }
{
    if milliseconds < 60_000 {
        push_seconds(text, milliseconds)?;
        text.push_str(" s")
    } else if milliseconds < 3_600_000 {
        let (minutes, seconds) = (milliseconds / 60_000, milliseconds / 1000 % 60);
        write!(text, "{minutes} min {seconds} s")
    } else {
        let (hours, minutes) = (milliseconds / 3_600_000, milliseconds / 60_000 % 60);
        write!(text, "{hours} h {minutes} min")
    }
}
