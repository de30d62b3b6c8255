//! What is reported of a phase after the line of its node: its command, its files, how long it took, and the
//! last lines of its error output.

use crate::quotes::push_all_shown;
use dag_reader::Text;
use log_lines::push_word;
use run_plan_node::ChildCommand;
use splices_flat::path_in;
use std::alloc::{AllocError, Global};

/// How a child is started, seen from a folder.
#[derive(Drop)]
pub(crate) struct SeenCommand {
    pub(crate) program: Text,
    /// Its first word, as a path seen from its folder.
    pub(crate) first: Option<Text>,
    /// The program and its words.
    pub(crate) parts: Vec<String>,
    /// The same, as a shell reads them.
    pub(crate) words: String,
    pub(crate) folder: Text,
    pub(crate) input: Option<Text>,
    pub(crate) output: Option<Text>,
    pub(crate) error: Option<Text>,
}

/// What the error output of a child has.
#[derive(Drop)]
pub(crate) enum Quote {
    /// These are its last lines.
    Lines(Vec<String>),
    /// It is empty.
    Empty,
    /// Its file is missing.
    Missing,
    /// What has its path is no file.
    NoFile,
    /// The system refuses to read it, for this reason.
    Refused(String),
}

/// What is reported of a phase.
#[derive(Drop)]
pub(crate) struct Details {
    pub(crate) command: Option<SeenCommand>,
    /// The words of the launcher before those of the command, as the log has them.
    pub(crate) launcher: Option<String>,
    /// How many seconds it took, as the log says it.
    pub(crate) seconds: Option<String>,
    /// How what is wrong is mended.
    pub(crate) repair: Option<String>,
    /// The error output, where it is to be quoted.
    pub(crate) quote: Option<Quote>,
}

/// A path as seen from a folder, where there is one.
fn seen(alloc: Global, folder: &str, path: &Option<Text>) -> Result<Option<Text>, AllocError> {
    match path {
        Some(path) => Ok(Some(path_in(alloc, folder, path.as_str())?)),
        None => Ok(None),
    }
}

/// The program and the words of a command, as a shell reads them.
fn words_of(alloc: Global, program: &Text, words: &[Text]) -> Result<String, AllocError> {
    let mut text = String::new(alloc);
    push_word(&mut text, program.as_str())?;
    for word in words {
        text.push(' ')?;
        push_word(&mut text, word.as_str())?;
    }
    Ok(text)
}

/// The program and the words of a command.
fn parts_of(alloc: Global, program: &Text, words: &[Text]) -> Result<Vec<String>, AllocError> {
    let mut parts = Vec::new(alloc);
    parts.push(String::from_str(alloc, program.as_str())?)?;
    for word in words {
        parts.push(String::from_str(alloc, word.as_str())?)?;
    }
    Ok(parts)
}

/// How a child is started by a command, seen from this folder.
///
/// # Errors
/// Lack of memory.
pub(crate) fn seen_command(
    alloc: Global,
    folder: &str,
    command: &ChildCommand,
) -> Result<SeenCommand, AllocError> {
    let program = path_in(alloc, folder, command.program.as_str())?;
    let place = path_in(alloc, folder, command.folder.as_str())?;
    let first = match command.words.as_slice().first() {
        Some(word) => Some(path_in(alloc, place.as_str(), word.as_str())?),
        None => None,
    };
    Ok(SeenCommand {
        parts: parts_of(alloc, &program, command.words.as_slice())?,
        words: words_of(alloc, &program, command.words.as_slice())?,
        program,
        first,
        folder: place,
        input: seen(alloc, folder, &command.input)?,
        output: seen(alloc, folder, &command.output)?,
        error: seen(alloc, folder, &command.error)?,
    })
}

/// Adds a line with a path.
fn push_path(text: &mut String, key: &str, path: &str) -> Result<(), AllocError> {
    text.push_str(key)?;
    push_word(text, path)?;
    text.push('\n')
}

/// Adds the line of a stream.
fn push_stream(text: &mut String, key: &str, path: &Option<Text>) -> Result<(), AllocError> {
    match path {
        Some(path) => push_path(text, key, path.as_str()),
        None => {
            text.push_str(key)?;
            text.push_str("not kept: no file is named for it\n")
        }
    }
}

/// Adds the lines of a command, and the words of the launcher that started it, where one did.
fn push_command(
    text: &mut String,
    command: &SeenCommand,
    launcher: Option<&str>,
) -> Result<(), AllocError> {
    let words = command.words.as_str();
    writeln!(text, "command  {words}")?;
    if let Some(launcher) = launcher {
        text.push_str("launcher ")?;
        push_all_shown(text, launcher)?;
        text.push('\n')?;
    }
    push_path(text, "folder   ", command.folder.as_str())?;
    if let Some(input) = &command.input {
        push_path(text, "input    ", input.as_str())?;
    }
    push_stream(text, "output   ", &command.output)?;
    push_stream(text, "error    ", &command.error)
}

/// Adds the lines that are quoted.
fn push_lines(text: &mut String, lines: &[String]) -> Result<(), AllocError> {
    text.push_str("last lines of its error output:\n")?;
    for line in lines {
        let line = line.as_str();
        writeln!(text, "    {line}")?;
    }
    Ok(())
}

/// Adds what the error output has.
fn push_quote(text: &mut String, quote: &Quote) -> Result<(), AllocError> {
    match quote {
        Quote::Lines(lines) => push_lines(text, lines),
        Quote::Empty => text.push_str("its error output is empty\n"),
        Quote::Missing => text.push_str("the file of its error output is missing\n"),
        Quote::NoFile => text.push_str("its error output is no file that can be quoted\n"),
        Quote::Refused(reason) => {
            text.push_str("its error output can not be read: ")?;
            push_all_shown(text, reason.as_str())?;
            text.push('\n')
        }
    }
}

/// Adds what is reported of a phase.
///
/// # Errors
/// Lack of memory.
pub(crate) fn push_details(text: &mut String, details: &Details) -> Result<(), AllocError> {
    if let Some(command) = &details.command {
        let launcher = details.launcher.as_ref().map(|words| words.as_str());
        push_command(text, command, launcher)?;
    }
    if let Some(seconds) = &details.seconds {
        text.push_str("took     ")?;
        push_all_shown(text, seconds.as_str())?;
        text.push_str(" s\n")?;
    }
    if let Some(repair) = &details.repair {
        let repair = repair.as_str();
        writeln!(text, "repair   {repair}")?;
    }
    match &details.quote {
        Some(quote) => push_quote(text, quote),
        None => Ok(()),
    }
}
