//! The launcher of a run, as words ask for it.

ghost use Rattle.std.specs.Prelude.{◌≡◌, ◌⊎◌, IfOk, IfErr, option_map};
ghost use Rattle.dag_main_args.specs.Launchers as launching;

use crate::request::WordsFault;
use dag_reader::Texts;
use std::alloc::{AllocError, Global};
use vars_macros::{MacroFault, split_arguments};

/// What is displayed of a launcher that has no program, as clap displays a bad value.
fn refused(alloc: Global, text: &str, cause: &str) -> Result<String, AllocError> {
    format!(in alloc;
        "error: invalid value '{text}' for '--launcher <WORDS>': {cause}\n\nFor more information, try '--help'.\n"
    )
}

/// Whether words are there, and the first of them is empty.
fn begins_empty(words: &Texts) -> bool
    ensures { result ≡ launching.begins_empty words.now }
{
    match words.as_slice() {
        [] => false,
        [first, ..] => first.as_str().is_empty(),
    }
}

/// The words of a launcher's text, which are split as the arguments of a submit file are; none where it is not given.
///
/// # Errors
/// `Refused` of a text in new style whose quotes don't go together, or whose first word is empty; `Memory`.
pub(crate) fn launcher_in(alloc: Global, text: Option<&str>) -> Result<Texts, WordsFault>
    ensures words { IfOk result (λ words. launching.IsLauncherOf (option_map (λ t. t.now) text.entry) words) }
    ensures refused { IfErr result (λ fault. (fault ≡ WordsFault.Memory) ⊎ launching.HasNoLauncher (option_map (λ t. t.now) text.entry)) }
{
    let Some(text) = text else {
        return Ok(Texts::new(alloc));
    };
    match split_arguments(alloc, text) {
        Ok(words) if begins_empty(&words) => {
            Err(WordsFault::Refused(refused(alloc, text, "its program has no name")?))
        }
        Ok(words) => Ok(words),
        Err(fault) => match fault {
            MacroFault::Memory => Err(WordsFault::Memory),
            _ => Err(WordsFault::Refused(refused(alloc, text, "a quote stands alone")?)),
        },
    }
}
