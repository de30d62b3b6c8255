//! By what nodes in error are told apart.

use crate::details::Quote;
use crate::failed::Failure;
use crate::heads::{phase_words, push_ending};
use crate::reported::{Run, quoted_of, reason_of, shown, story_of};
use std::alloc::AllocError;
use std::fs::File;
use std::rt::Files;

/// Adds the last line that is quoted of an error output, where there is one.
fn push_last_line(text: &mut String, quote: &Quote) -> Result<(), AllocError> {
    if let Quote::Lines(lines) = quote {
        if let Some(line) = lines.last() {
            text.push('\n')?;
            text.push_str(line.as_str())?;
        }
    }
    Ok(())
}

/// The cause for which a node is in error: in which phase it failed and how, and the last line that is quoted of the
/// error output of this phase. Where nothing is quoted, the cause has no such line.
///
/// # Errors
/// Lack of memory.
pub(crate) fn cause_of<R: Files<File = File> + AllocGlobal>(
    rt: &R,
    run: &Run<'_, '_, '_>,
    failure: &Failure,
) -> Result<String, AllocError> {
    let mut text = String::new(rt.alloc());
    let Some(end) = failure.end else {
        return Ok(text);
    };
    let story = story_of(run, failure.node, &end);
    let reason = reason_of(rt.alloc(), run, &story)?;
    text.push_str(phase_words(end.phase))?;
    text.push(' ')?;
    push_ending(&mut text, end.outcome, shown(&reason))?;
    if let Some(quote) = quoted_of(rt, run, &story)? {
        push_last_line(&mut text, &quote)?;
    }
    Ok(text)
}
