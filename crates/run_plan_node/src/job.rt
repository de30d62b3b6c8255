//! The command of a job, read from its texts.

ghost use Rattle.std.specs.Prelude.{◌≡◌, ◌≢◌, false, IfOk, IfErr, option_map, unwrap_or, []};
ghost use Rattle.vars_macros.specs.declared.fault.MacroFault.TheVariants as macro;
ghost use Rattle.splices_flat.specs.Paths.{join};
ghost use Rattle.std.specs.List.{list_all};
ghost use Rattle.vars_macros.specs.Symbols.{arguments};
ghost use Rattle.vars_macros.specs.Expansion.{expansion};
ghost use Rattle.vars_macros.specs.Meaning.{scope_of};
ghost use Rattle.vars_macros.specs.Output.{expansion_of};
ghost use Rattle.vars_macros.specs.Answers as expanding;
ghost use Rattle.run_plan_node.specs.Commands.{value_at, text_value_at, is_universe, known_universe, universe_of, program_in, program_at, words_in, words_at, settings_in, environment_in, environment_at, is_setting, path_at, places_in, places_at, job_command, is_whole_at, reads_launch};
ghost use Rattle.run_plan_node.specs.JobAnswers.{Gives, job_fault};
ghost use Rattle.run_plan_node.specs.declared.job.JobFault.TheVariants.{Memory};

use crate::command::ChildCommand;
use dag_reader::{Text, Texts};
use splices_flat::path_in;
use std::alloc::{AllocError, AllocFailed, Global};
use thiserror::Error;
use vars_macros::{
    Attempt, Expanded, Macro, MacroFault, Macros, expand, expand_vars, split_arguments,
};

/// Why a job has no command.
#[derive(Clone, Copy, Debug, PartialEq, Eq, Error)]
pub enum JobFault {
    /// Memory was refused.
    #[error("P7 Memory")]
    Memory,
    /// A text can't be expanded or split.
    #[error("{0}")]
    InMacro(MacroFault),
    /// There is no executable, or an empty one.
    #[error("P4 NoExecutable")]
    NoExecutable,
    /// The universe is none of vanilla, local and scheduler.
    #[error("P5 BadUniverse")]
    BadUniverse,
}

impl From<MacroFault> for JobFault {
    ghost from_gives = { λ fault given. given ≡ job_fault fault };

    fn from(fault: MacroFault) -> JobFault {
        match fault {
            MacroFault::Memory => JobFault::Memory,
            fault => JobFault::InMacro(fault),
        }
    }
}

impl From<AllocError> for JobFault {
    ghost from_gives = { λ _ fault. fault ≡ Memory };

    fn from(_e: AllocError) -> JobFault {
        JobFault::Memory
    }
}

impl<T: Drop> From<AllocFailed<T>> for JobFault {
    ghost from_gives = { λ _ fault. fault ≡ Memory };

    fn from(_e: AllocFailed<T>) -> JobFault {
        JobFault::Memory
    }
}

/// The expansion of what is assigned to a name, if something is.
fn value_at(
    alloc: Global,
    macros: &Macros,
    attempt: Attempt,
    name: &str,
) -> Result<Option<Expanded>, MacroFault>
    ensures { expanding.Gives (option_map expansion_of) result (value_at (scope_of macros.now attempt) name.now) }
{
    match macros.last(alloc, name)? {
        Some(found) => Ok(Some(expanded(alloc, macros, attempt, found)?)),
        None => Ok(None),
    }
}

/// The expansion of what is assigned to a name.
pub(crate) fn expanded(
    alloc: Global,
    macros: &Macros,
    attempt: Attempt,
    found: &Macro,
) -> Result<Expanded, MacroFault>
    ensures { expanding.Gives expansion_of result (expansion (scope_of macros.now attempt) found.now.vars found.now.value) }
{
    if found.vars {
        expand_vars(alloc, found.value.as_str(), macros, attempt)
    } else {
        expand(alloc, found.value.as_str(), macros, attempt)
    }
}

/// The same as a text.
fn text_value_at(
    alloc: Global,
    macros: &Macros,
    attempt: Attempt,
    name: &str,
) -> Result<Option<Text>, JobFault>
    ensures { Gives (λ t. t) result (text_value_at (scope_of macros.now attempt) name.now) }
{
    match value_at(alloc, macros, attempt, name)? {
        Some(value) => Ok(Some(value.text)),
        None => Ok(None),
    }
}

/// Refuses a universe that is none of those that run as a local child.
fn known_universe(universe: &Option<Text>) -> Result<(), JobFault>
    ensures { Gives (λ u. u) result (known_universe universe.now) }
{
    match universe {
        Some(text) => {
            if is_universe(text.as_str()) {
                Ok(())
            } else {
                Err(JobFault::BadUniverse)
            }
        }
        None => Ok(()),
    }
}

#[tactic(auto, unfolding(crate::specs::Commands::is_universe, vars_macros::specs::Names::same_name))]
fn is_universe(text: &str) -> bool
    ensures { result ≡ is_universe text.now }
{
    text.eq_ignore_ascii_case("vanilla")
        || (text.eq_ignore_ascii_case("local") || text.eq_ignore_ascii_case("scheduler"))
}

/// Refuses a job whose universe is none of those that run as a local child.
///
/// # Errors
/// `InMacro` where its text can't be expanded, then `BadUniverse`; `Memory` where memory is refused.
pub fn check_universe(alloc: Global, macros: &Macros, attempt: Attempt) -> Result<(), JobFault>
    ensures { Gives (λ u. u) result (universe_of (scope_of macros.now attempt)) }
{
    let universe = text_value_at(alloc, macros, attempt, "universe")?;
    known_universe(&universe)
}

/// The program, seen from the node's folder.
fn program_in(alloc: Global, folder: &str, executable: &Option<Text>) -> Result<Text, JobFault>
    ensures { Gives (λ t. t) result (program_in folder.now executable.now) }
{
    let Some(text) = executable else {
        return Err(JobFault::NoExecutable);
    };
    match text.as_str().as_bytes() {
        [] => Err(JobFault::NoExecutable),
        _ => Ok(path_in(alloc, folder, text.as_str())?),
    }
}

fn program_at(
    alloc: Global,
    folder: &str,
    macros: &Macros,
    attempt: Attempt,
) -> Result<Text, JobFault>
    ensures { Gives (λ t. t) result (program_at folder.now (scope_of macros.now attempt)) }
{
    let executable = text_value_at(alloc, macros, attempt, "executable")?;
    program_in(alloc, folder, &executable)
}

/// The words of a text of arguments.
fn words_of(alloc: Global, text: &str) -> Result<Texts, MacroFault>
    ensures { expanding.Gives (λ words. words) result (arguments text.now) }
{
    split_arguments(alloc, text)
}

fn words_in(alloc: Global, arguments: &Option<Text>) -> Result<Texts, JobFault>
    ensures { Gives (λ t. t) result (words_in arguments.now) }
{
    match arguments {
        Some(text) => Ok(words_of(alloc, text.as_str())?),
        None => Ok(Texts::new(alloc)),
    }
}

fn words_at(alloc: Global, macros: &Macros, attempt: Attempt) -> Result<Texts, JobFault>
    ensures { Gives (λ t. t) result (words_at (scope_of macros.now attempt)) }
{
    let arguments = text_value_at(alloc, macros, attempt, "arguments")?;
    words_in(alloc, &arguments)
}

/// What is added to the environment.
fn environment_in(alloc: Global, environment: &Option<Text>) -> Result<Texts, JobFault>
    ensures { Gives (λ t. t) result (environment_in environment.now) }
{
    let Some(text) = environment else {
        return Ok(Texts::new(alloc));
    };
    match text.as_str().as_bytes() {
        [] => Ok(Texts::new(alloc)),
        [b'"', ..] => settings_in(alloc, text.as_str()),
        _ => Err(JobFault::InMacro(MacroFault::BadQuote)),
    }
}

/// The words of a text in new style, each of which is a setting.
fn settings_in(alloc: Global, text: &str) -> Result<Texts, JobFault>
    ensures { Gives (λ t. t) result (settings_in (arguments text.now)) }
{
    let words = words_of(alloc, text)?;
    if are_settings(words.as_slice()) {
        Ok(words)
    } else {
        Err(JobFault::InMacro(MacroFault::BadQuote))
    }
}

fn are_settings(words: &[Text]) -> bool
    ensures { result ≡ list_all is_setting words.now }
{
    words.iter().all(|word| is_setting(word.as_str()))
}

fn environment_at(alloc: Global, macros: &Macros, attempt: Attempt) -> Result<Texts, JobFault>
    ensures { Gives (λ t. t) result (environment_at (scope_of macros.now attempt)) }
{
    let environment = text_value_at(alloc, macros, attempt, "environment")?;
    environment_in(alloc, &environment)
}

/// Whether a word is a name that is not empty, an equals sign and a value.
#[tactic(auto, unfolding(crate::specs::Commands::is_setting))]
fn is_setting(word: &str) -> bool
    ensures { result ≡ is_setting word.now }
{
    match word.as_bytes() {
        [] => false,
        [first, rest @ ..] => *first != b'=' && rest.contains(&b'='),
    }
}

/// The folder of a child and the files of its streams.
#[derive(Drop)]
pub(crate) struct Places {
    folder: Text,
    input: Option<Text>,
    output: Option<Text>,
    error: Option<Text>,
}

/// The path of a file seen from a folder; an empty one is none.
fn path_at(alloc: Global, folder: &str, file: &Option<Text>) -> Result<Option<Text>, AllocError>
    ensures { IfOk result (λ path. path ≡ path_at folder.now file.now) }
{
    match file {
        Some(text) if !text.as_str().is_empty() => {
            Ok(Some(path_in(alloc, folder, text.as_str())?))
        }
        _ => Ok(None),
    }
}

/// The folder that an initialdir gives, and the files of the streams seen from there.
fn places_in(
    alloc: Global,
    folder: &str,
    dir: &Option<Text>,
    input: &Option<Text>,
    output: &Option<Text>,
    error: &Option<Text>,
) -> Result<Places, AllocError>
    ensures { IfOk result (λ places. places ≡ places_in (join folder.now (unwrap_or dir.now [])) input.now output.now error.now) }
{
    let dir = match dir {
        Some(text) => text.as_str(),
        None => "",
    };
    let folder = path_in(alloc, folder, dir)?;
    let place = folder.as_str();
    Ok(Places {
        input: path_at(alloc, place, input)?,
        output: path_at(alloc, place, output)?,
        error: path_at(alloc, place, error)?,
        folder,
    })
}

fn places_at(
    alloc: Global,
    folder: &str,
    macros: &Macros,
    attempt: Attempt,
) -> Result<Places, JobFault>
    ensures { Gives (λ p. p) result (places_at folder.now (scope_of macros.now attempt)) }
{
    let input = text_value_at(alloc, macros, attempt, "input")?;
    let output = text_value_at(alloc, macros, attempt, "output")?;
    let error = text_value_at(alloc, macros, attempt, "error")?;
    let dir = text_value_at(alloc, macros, attempt, "initialdir")?;
    Ok(places_in(alloc, folder, &dir, &input, &output, &error)?)
}

/// The command of a job, whose texts are expanded for this attempt, with its paths seen from this
/// folder.
///
/// # Errors
/// Of its texts, in the order executable, arguments, input, output, error, initialdir, environment,
/// the first that can't be expanded or split (`InMacro`), or a missing or empty executable
/// (`NoExecutable`). `Memory` where memory is refused.
pub fn job_command(
    alloc: Global,
    folder: &str,
    macros: &Macros,
    attempt: Attempt,
) -> Result<ChildCommand, JobFault>
    ensures { Gives (λ c. c) result (job_command folder.now (scope_of macros.now attempt)) }
{
    let program = program_at(alloc, folder, macros, attempt)?;
    let words = words_at(alloc, macros, attempt)?;
    let places = places_at(alloc, folder, macros, attempt)?;
    let environment = environment_at(alloc, macros, attempt)?;
    Ok(ChildCommand {
        program,
        words,
        folder: places.folder,
        input: places.input,
        output: places.output,
        error: places.error,
        environment,
    })
}

/// Whether the text of a name holds the launch number. One that can't be expanded holds none.
fn is_whole_at(
    alloc: Global,
    macros: &Macros,
    attempt: Attempt,
    name: &str,
) -> Result<bool, JobFault>
    ensures ok { IfOk result (λ whole. whole ≡ is_whole_at (scope_of macros.now attempt) name.now) }
    ensures err { IfErr result (λ fault. fault ≡ Memory) }
{
    match value_at(alloc, macros, attempt, name) {
        Ok(Some(value)) => Ok(value.whole_run),
        Ok(None) => Ok(false),
        Err(fault) => unless_memory(fault),
    }
}

/// A text that can't be expanded holds no launch number; of one for which memory ran out, nothing is
/// known.
fn unless_memory(fault: MacroFault) -> Result<bool, JobFault>
    ensures ok { IfOk result (λ whole. (whole ≡ false) × (fault ≢ macro.Memory)) }
    ensures err { IfErr result (λ fault. fault ≡ Memory) }
{
    match fault {
        MacroFault::Memory => Err(JobFault::Memory),
        MacroFault::Unclosed
        | MacroFault::Loop
        | MacroFault::TooLong
        | MacroFault::BadQuote
        | MacroFault::BadReference => Ok(false),
    }
}

/// Whether one of the texts that are read holds the launch number.
#[tactic(auto, unfolding(crate::specs::Commands::reads_launch))]
pub(crate) fn reads_launch(
    alloc: Global,
    macros: &Macros,
    attempt: Attempt,
) -> Result<bool, JobFault>
    ensures ok { IfOk result (λ whole. whole ≡ reads_launch (scope_of macros.now attempt)) }
    ensures err { IfErr result (λ fault. fault ≡ Memory) }
{
    let universe = is_whole_at(alloc, macros, attempt, "universe")?;
    let executable = is_whole_at(alloc, macros, attempt, "executable")?;
    let arguments = is_whole_at(alloc, macros, attempt, "arguments")?;
    let input = is_whole_at(alloc, macros, attempt, "input")?;
    let output = is_whole_at(alloc, macros, attempt, "output")?;
    let error = is_whole_at(alloc, macros, attempt, "error")?;
    let folder = is_whole_at(alloc, macros, attempt, "initialdir")?;
    let environment = is_whole_at(alloc, macros, attempt, "environment")?;
    Ok(
        universe
            | (executable | (arguments | (input | (output | (error | (folder | environment)))))),
    )
}
