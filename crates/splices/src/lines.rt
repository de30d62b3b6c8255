//! What a line says of nodes: its target, and the words of its script.

ghost use Rattle.std.specs.Prelude.{◌≡◌, IfOk};
ghost use Rattle.std.specs.Option.{option_map};
ghost use Rattle.splices_flat.specs.Settings.{script_words, setting_target, words_said};

use dag_reader::{Command, Target, Text, Texts, Word};
use splices_flat::SharedTexts;
use std::alloc::{AllocError, Global};

/// The target of a setting.
pub(crate) fn target_of(command: &Command) -> Option<&Target>
    ensures { option_map (λ t. t.now) result ≡ setting_target command.now }
{
    match command {
        Command::Script { node, .. }
        | Command::Retry { node, .. }
        | Command::PreSkip { node, .. }
        | Command::Vars { node, .. }
        | Command::Priority { node, .. }
        | Command::Category { node, .. }
        | Command::AbortDagOn { node, .. } => Some(node),
        _ => None,
    }
}

/// The words of the script that a line says, for all of its nodes; none where it says none.
pub(crate) fn words_said(alloc: Global, command: &Command) -> Result<SharedTexts, AllocError>
    ensures { IfOk result (λ words. words ≡ words_said command.now) }
{
    match command {
        Command::Script {
            program,
            arguments,
            ..
        } => SharedTexts::new(alloc, script_words(alloc, program, arguments.as_slice())?),
        _ => SharedTexts::new(alloc, Texts::new(alloc)),
    }
}

/// The words of a script, of which the first is the program.
fn script_words(alloc: Global, program: &Word, arguments: &[Word]) -> Result<Texts, AllocError>
    ensures { IfOk result (λ words. words ≡ script_words program.now arguments.now) }
{
    let mut words = Texts::new(alloc);
    words.push(Text::new(alloc, program.text())?)?;
    for word in arguments {
        words.push(Text::new(alloc, word.text())?)?;
    }
    Ok(words)
}
