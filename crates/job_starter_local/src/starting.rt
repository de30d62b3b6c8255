//! How a child is started.

ghost use Rattle.std.specs.Prelude.{◌≡◌, ℕ, List, ◌++◌, IfOk, OnOk};
ghost use Rattle.std.specs.Process.{command_program, command_args, command_var, clears_env, SameProgramAndArgs, SameEnv};
ghost use Rattle.job_starter_local.specs.Commands.{variable_after, variable_behind, IsCommandOf};

use child_watcher::CommandPart;
use dag_reader::{Text, Texts};
use run_plan_node::ChildCommand;
use splices_flat::path_in;
use std::alloc::{AllocError, Global};
use std::fs::File;
use std::io;
use std::process::{Child, Command, Processes, Stdio};
use std::rt::Files;

/// Which part of a command the system refused, and why.
#[derive(Drop)]
pub(crate) struct Refusal {
    pub(crate) part: CommandPart,
    pub(crate) error: io::Error,
}

/// The codes of the system that say that it has no process (EAGAIN) or no descriptor (ENFILE, EMFILE)
/// to give for the moment.
const PASSING: [i32; 3] = [11, 23, 24];

impl Refusal {
    /// Whether memory was refused.
    pub(crate) fn is_memory(&self) -> bool {
        self.error.kind() == io::ErrorKind::OutOfMemory
    }

    /// Whether it may be otherwise a moment later.
    pub(crate) fn is_passing(&self) -> bool {
        match self.error.raw_os_error() {
            Some(code) => PASSING.contains(&code),
            None => false,
        }
    }
}

/// What was answered for a part of a command.
fn at_part<T>(part: CommandPart, answer: io::Result<T>) -> Result<T, Refusal> {
    answer.map_err(|error| Refusal { part, error })
}

/// The input of a child: a file, or nothing.
fn input_of<R: Files<File = File>>(
    alloc: Global,
    rt: &R,
    folder: &str,
    path: &Option<Text>,
) -> io::Result<Stdio> {
    match path {
        Some(path) => {
            let path = path_in(alloc, folder, path.as_str())?;
            Ok(Stdio::from(File::open(rt, path.as_str())?))
        }
        None => Ok(Stdio::null()),
    }
}

/// The file that takes the output of a child, where there is one.
#[derive(Drop)]
struct OutputFile(Option<File>);

/// The file that takes the errors of a child, where there is one.
#[derive(Drop)]
struct ErrorFile(Option<File>);

/// The file of this path, made or emptied, where there is one.
fn file_of<R: Files<File = File>>(
    alloc: Global,
    rt: &R,
    folder: &str,
    path: &Option<Text>,
) -> io::Result<Option<File>> {
    match path {
        Some(path) => {
            let path = path_in(alloc, folder, path.as_str())?;
            Ok(Some(File::create(rt, path.as_str())?))
        }
        None => Ok(None),
    }
}

/// A stream into a file, or to nowhere.
fn stream_to(file: Option<File>) -> Stdio {
    match file {
        Some(file) => Stdio::from(file),
        None => Stdio::null(),
    }
}

impl OutputFile {
    /// Makes it the output of a command.
    fn set(self, command: &mut Command) {
        let OutputFile(file) = self;
        command.stdout(stream_to(file));
    }
}

impl ErrorFile {
    /// Makes it what takes the errors of a command.
    fn set(self, command: &mut Command) {
        let ErrorFile(file) = self;
        command.stderr(stream_to(file));
    }
}

fn are_one_path(path: &Option<Text>, other: &Option<Text>) -> bool {
    match (path, other) {
        (Some(path), Some(other)) => path.as_str() == other.as_str(),
        _ => false,
    }
}

/// The file that takes the output of a child.
fn output_of<R: Files<File = File>>(
    alloc: Global,
    rt: &R,
    folder: &str,
    call_log: &ChildCommand,
) -> io::Result<OutputFile> {
    Ok(OutputFile(file_of(alloc, rt, folder, &call_log.output)?))
}

/// The file that takes the errors of a child. One that takes its output, too, is opened once, and both
/// share it.
fn error_of<R: Files<File = File>>(
    alloc: Global,
    rt: &R,
    folder: &str,
    call_log: &ChildCommand,
    output: &OutputFile,
) -> io::Result<ErrorFile> {
    match &output.0 {
        Some(file) if are_one_path(&call_log.output, &call_log.error) => Ok(ErrorFile(Some(
            file.try_clone()?,
        ))),
        _ => Ok(ErrorFile(file_of(alloc, rt, folder, &call_log.error)?)),
    }
}

/// Sets the variable of a setting, `name=value`.
fn set_variable(command: &mut Command, setting: &str) -> Result<(), AllocError>
    ensures set { OnOk result ((name : List ℕ) → command_var command.new name
        ≡ variable_after name (command_var command.old name) setting.now) }
    ensures call { OnOk result (SameProgramAndArgs command.old command.new) }
    ensures inherits { OnOk result (clears_env command.new ≡ clears_env command.old) }
{
    if let Some((name, value)) = setting.split_once('=') {
        command.env(name, value)?;
    }
    Ok(())
}

/// Sets what is added to the environment.
fn set_environment(command: &mut Command, settings: &[Text]) -> Result<(), AllocError>
    ensures set { OnOk result ((name : List ℕ) → command_var command.new name
        ≡ variable_behind name (command_var command.old name) settings.now) }
    ensures call { OnOk result (SameProgramAndArgs command.old command.new) }
    ensures inherits { OnOk result (clears_env command.new ≡ clears_env command.old) }
{
    for setting in settings {
        set_variable(command, setting.as_str())?;
    }
    Ok(())
}

fn set_words(command: &mut Command, words: &[Text]) -> Result<(), AllocError>
    ensures words { OnOk result (command_args command.new ≡ command_args command.old ++ words.now) }
    ensures program { OnOk result (command_program command.new ≡ command_program command.old) }
    ensures environment { OnOk result (SameEnv command.old command.new) }
{
    for word in words {
        command.arg(word.as_str())?;
    }
    Ok(())
}

/// The command that the system is asked to run for a child: its program and its folder, seen from this folder, its words, and
/// its environment over what it inherits of its round, which is over this process's. The child's streams are not set.
///
/// # Errors
/// Lack of memory.
pub fn command_for(
    alloc: Global,
    folder: &str,
    inherited: &Texts,
    child: &ChildCommand,
) -> Result<Command, AllocError>
    ensures { IfOk result (IsCommandOf folder.now inherited.now child.now) }
{
    let program = path_in(alloc, folder, child.program.as_str())?;
    let place = path_in(alloc, folder, child.folder.as_str())?;
    let mut command = Command::new(alloc, program.as_str())?;
    set_words(&mut command, child.words.as_slice())?;
    set_environment(&mut command, inherited.as_slice())?;
    set_environment(&mut command, child.environment.as_slice())?;
    command.current_dir(place.as_str())?;
    Ok(command)
}

/// Sets the streams of a child. Its files are opened, and its output is made or emptied.
fn set_streams<R: Files<File = File>>(
    alloc: Global,
    rt: &R,
    folder: &str,
    call_log: &ChildCommand,
    command: &mut Command,
) -> Result<(), Refusal> {
    let input = at_part(
        CommandPart::Input,
        input_of(alloc, rt, folder, &call_log.input),
    )?;
    let output = at_part(CommandPart::Output, output_of(alloc, rt, folder, call_log))?;
    let error = at_part(
        CommandPart::Error,
        error_of(alloc, rt, folder, call_log, &output),
    )?;
    command.stdin(input);
    output.set(command);
    error.set(command);
    Ok(())
}

/// Starts a child, seen from this folder, which inherits these settings.
pub(crate) fn start_child<R: Processes + Files<File = File>>(
    alloc: Global,
    rt: &R,
    folder: &str,
    inherited: &Texts,
    call_log: &ChildCommand,
) -> Result<Child<R::Started>, Refusal> {
    let made = command_for(alloc, folder, inherited, call_log).map_err(io::Error::from);
    let mut command = at_part(CommandPart::Program, made)?;
    set_streams(alloc, rt, folder, call_log, &mut command)?;
    at_part(CommandPart::Program, command.spawn(rt))
}
