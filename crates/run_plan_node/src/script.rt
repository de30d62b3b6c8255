//! The command of a script.

ghost use Rattle.std.specs.Prelude.{◌≡◌, IfOk, IfErr, map};
ghost use Rattle.vars_macros.specs.Script.{script_word};
ghost use Rattle.run_plan_node.specs.Commands.{bare_command, command_of_words, words_of};
ghost use Rattle.run_plan_node.specs.declared.job.JobFault.TheVariants.{Memory};

use crate::command::ChildCommand;
use crate::job::JobFault;
use dag_reader::{Text, Texts};
use splices_flat::{SharedTexts, path_in};
use std::alloc::{AllocError, Global};
use vars_macros::{ScriptFacts, script_words};

/// A program and its words, run in a folder, with an empty input and its output dropped.
pub(crate) fn bare_command(
    alloc: Global,
    folder: &str,
    program: Text,
    words: Texts,
) -> Result<ChildCommand, AllocError>
    ensures { IfOk result (λ command. command ≡ bare_command folder.now program words) }
{
    Ok(ChildCommand {
        program,
        words,
        folder: Text::new(alloc, folder)?,
        input: None,
        output: None,
        error: None,
        environment: Texts::new(alloc),
    })
}

/// The command of the words of a script, of which the first is the program.
fn command_of_words(alloc: Global, folder: &str, words: &Texts) -> Result<ChildCommand, AllocError>
    ensures { IfOk result (λ command. command ≡ command_of_words folder.now words.now) }
{
    let (program, others) = match words.as_slice() {
        [] => (path_in(alloc, folder, "")?, Texts::new(alloc)),
        [first, ..] => (
            path_in(alloc, folder, first.as_str())?,
            words.from_place(alloc, 1)?,
        ),
    };
    bare_command(alloc, folder, program, others)
}

/// The command of a script, each of whose words is replaced by what it stands for.
pub(crate) fn script_command(
    alloc: Global,
    folder: &str,
    script: &Option<SharedTexts>,
    facts: &ScriptFacts,
) -> Result<ChildCommand, JobFault>
    ensures ok { IfOk result (λ command. command ≡ command_of_words folder.now (map (λ word. script_word facts.now word) (words_of script.now))) }
    ensures err { IfErr result (λ fault. fault ≡ Memory) }
{
    let words = match script {
        Some(words) => script_words(alloc, words.as_slice(), facts)?,
        None => Texts::new(alloc),
    };
    Ok(command_of_words(alloc, folder, &words)?)
}
