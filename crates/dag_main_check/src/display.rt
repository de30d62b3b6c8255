//! How the result of a request is displayed.

ghost use Rattle.std.specs.Prelude.{◌≡◌, ◌⊎◌, Ok};
ghost use Rattle.dag_main_check.specs.Consoles.{IsDisplayed, IsDisplayedAs, IsExitStatusOf, with_warned, refusal_line, no_memory_line};

use crate::console::Console;
use crate::fault::RunFault;
use crate::warnings::Answer;
use std::alloc::Global;

/// The exit status of whatever is refused.
pub const REFUSED: u8 = 125;

/// What is displayed where there is no memory for more.
const NO_MEMORY: &str = "dagrun: X1 Memory\n";

/// Displays the result of a request, and gives the exit status: of an answer its warnings and then its text, with its
/// status; of a refusal its line `dagrun: CODE Name detail`, with status 125 and nothing on standard output. Where standard
/// output is refused, a line says why, and the status is 125.
pub fn display_reply<C: Console>(
    alloc: Global,
    console: &mut C,
    reply: &Result<Answer, RunFault>,
) -> u8
    ensures status { IsExitStatusOf reply.now result }
    ensures shown { C.honest console.new → IsDisplayedAs (C.shown console.old) (C.shown console.new) reply.now result }
    ensures back { C.honest console.new → C.honest console.old }
{
    match reply {
        Ok(answer) => display_answer(alloc, console, answer),
        Err(fault) => display_refusal(alloc, console, fault),
    }
}

/// Displays an answer: its warnings, and then its text.
fn display_answer<C: Console>(alloc: Global, console: &mut C, answer: &Answer) -> u8
    ensures status { IsExitStatusOf (Ok answer.now) result }
    ensures shown { C.honest console.new → IsDisplayed answer.now (C.shown console.old) (C.shown console.new) result }
    ensures back { C.honest console.new → C.honest console.old }
{
    console.warn(answer.warnings.as_str());
    match console.print(answer.text.as_str()) {
        Ok(()) => answer.status,
        Err(error) => {
            match format!(in alloc; "dagrun: standard output: {error}\n") {
                Ok(line) => console.warn(line.as_str()),
                Err(_) => console.warn(NO_MEMORY),
            }
            REFUSED
        }
    }
}

/// Displays why a request is refused.
fn display_refusal<C: Console>(alloc: Global, console: &mut C, fault: &RunFault) -> u8
    ensures status { result ≡ 125 }
    ensures warned { C.honest console.new → (C.shown console.new ≡ with_warned (C.shown console.old) (refusal_line fault.now))
        ⊎ (C.shown console.new ≡ with_warned (C.shown console.old) no_memory_line) }
    ensures back { C.honest console.new → C.honest console.old }
{
    match format!(in alloc; "dagrun: {fault}\n") {
        Ok(line) => console.warn(line.as_str()),
        Err(_) => console.warn(NO_MEMORY),
    }
    REFUSED
}
