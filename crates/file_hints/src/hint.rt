//! Hints, and how they are displayed.

ghost use Rattle.std.specs.Prelude.{◌≡◌, Some, IfOk, string_bytes};
ghost use Rattle.file_hints.specs.Displayed.{hint_text, topic_of, finding_line};

use dag_reader::Text;
use std::alloc::{AllocError, Global};
use std::fmt;

/// What is odd. It is displayed as what comes after the place: what it is, and after a colon what to write instead.
#[derive(Drop)]
pub enum Hint {
    /// A name that is no command, and to which nothing refers.
    UnknownName(Text),
    /// Such a name, and the command that may have been meant.
    Misspelled {
        name: Text,
        meant: Text,
    },
    /// A command that HTCondor heeds, and what stands for it.
    PassedOver {
        name: Text,
        instead: Text,
    },
    /// What is assigned to this name below the queue line.
    BelowQueue(Text),
    /// A macro of this name that is referred to without a default.
    Unassigned(Text),
    /// Such a macro, and the one that may have been meant.
    MisspelledMacro {
        name: Text,
        meant: Text,
    },
    /// The program of this path, which is not there.
    MissingProgram(Text),
    /// The program of this path, which is not there, and one of its name in a folder of PATH.
    Elsewhere {
        path: Text,
        found: Text,
    },
    /// The path of a program that is not there, and the program and its words that it names, a blank between them.
    WordsInProgram {
        path: Text,
        program: Text,
        words: Text,
    },
    /// A folder in the place of a program.
    FolderAsProgram(Text),
    /// A pipe, a device or a socket in the place of a program.
    SpecialAsProgram(Text),
    /// The program of this path, which nobody may run, and the path as a shell reads it.
    NotExecutable {
        path: Text,
        word: Text,
    },
    /// The program of this path, whose first line ends with a carriage return, and the path as a shell reads it.
    CarriageReturn {
        path: Text,
        word: Text,
    },
    /// The program of this path, and the path of the program that is to read it by its first line, where none is.
    MissingReader {
        path: Text,
        reader: Text,
    },
    /// The folder of this path, which is not there, and the path as a shell reads it.
    MissingFolder {
        path: Text,
        word: Text,
    },
    /// The path that two nodes write that may run at once.
    SharedOutput {
        path: Text,
        first: Text,
        second: Text,
    },
    /// The path that two nodes write whose job is the first one to be launched in a round.
    CountedOutput {
        path: Text,
        first: Text,
        second: Text,
    },
    /// The path of a file of the DAG itself, which a job writes.
    OwnFile(Text),
    /// The path of the input of a job, which the job writes.
    InputWritten(Text),
    /// Arguments of the old style with a double quote, which is a letter.
    BareQuote,
    /// Under HTCondor: a submit file without `log`.
    NoLog,
    /// Under HTCondor: one without `getenv`.
    NoEnvironment,
    /// Under HTCondor: a job of the universe vanilla.
    OwnFolder,
    /// Under HTCondor: a comment that ends with a backslash.
    ContinuedComment,
    /// Under HTCondor: a reference to the launch number by this name.
    LaunchNumber(Text),
    /// Under HTCondor: PRE_SKIP with a value that is no exit code.
    SkipValue,
    /// Under HTCondor: a value below zero in this line.
    SignalValue(Text),
    /// Under HTCondor: a script of this node, whose job is not run.
    NoopScript(Text),
}

// By hand, since a derived one has no contract: what is printed of it is proved.
impl fmt::Display for Hint {
    ghost output = { λ hint. Some (hint_text hint) };

    fn fmt<W: fmt::Write>(&self, f: &mut fmt::Formatter<W>) -> fmt::Result {
        match self {
            Hint::UnknownName(name) => write!(
                f,
                "{name} is no command that dagrun reads, and no macro that is referred to: take the line away"
            ),
            Hint::Misspelled { name, meant } => write!(
                f,
                "{name} is no command that dagrun reads, and no macro that is referred to: is {meant} meant?"
            ),
            Hint::PassedOver { name, instead } => write!(f, "{name} is passed over: {instead}"),
            Hint::BelowQueue(name) => {
                write!(
                    f,
                    "{name} stands below queue and has no effect: write it above"
                )
            }
            Hint::Unassigned(name) => write!(
                f,
                "$({name}) is assigned nowhere, so it is empty: assign it here or by VARS, or give it a default"
            ),
            Hint::MisspelledMacro { name, meant } => write!(
                f,
                "$({name}) is assigned nowhere, so it is empty: is $({meant}) meant?"
            ),
            Hint::MissingProgram(path) => {
                write!(f, "{path} is not there: put it there, or mend its path")
            }
            Hint::Elsewhere { path, found } => write!(
                f,
                "{path} is not there, and the folders of PATH are not searched: is {found} meant?"
            ),
            Hint::WordsInProgram {
                path,
                program,
                words,
            } => write!(
                f,
                "{path} is not there: write executable = {program} and arguments = {words}"
            ),
            Hint::FolderAsProgram(path) => write!(f, "{path} is a folder: name a program"),
            Hint::SpecialAsProgram(path) => write!(
                f,
                "{path} is a pipe, a device or a socket: name a program"
            ),
            Hint::NotExecutable { path, word } => {
                write!(f, "{path} may not be executed: chmod +x {word}")
            }
            Hint::CarriageReturn { path, word } => write!(
                f,
                "the first line of {path} ends with a carriage return: sed -i 's/\\r$//' {word}"
            ),
            Hint::MissingReader { path, reader } => write!(
                f,
                "the first line of {path} names {reader}, where no program is: name the one that reads it"
            ),
            Hint::MissingFolder { path, word } => {
                write!(f, "the folder {path} is not there: mkdir -p {word}")
            }
            Hint::SharedOutput {
                path,
                first,
                second,
            } => write!(
                f,
                "{first} and {second} may run at once, and both write {path}: put $(JOB) into its name"
            ),
            Hint::CountedOutput {
                path,
                first,
                second,
            } => write!(
                f,
                "{first} and {second} may both write {path}, since $(Cluster) begins at 1 again in each round: put $(JOB) into its name"
            ),
            Hint::OwnFile(path) => write!(
                f,
                "{path} is a file of the DAG itself, and is emptied as the job starts: name another file"
            ),
            Hint::InputWritten(path) => write!(
                f,
                "{path} is the input of the job, too, and is emptied as it starts: name another file"
            ),
            Hint::BareQuote => write!(
                f,
                "the double quotes in arguments are letters here, and HTCondor refuses them: write \"-c 'echo hi'\" for -c \"echo hi\", and \\\" for a letter"
            ),
            Hint::NoLog => write!(
                f,
                "no log is named, and HTCondor keeps none for this job: write log = FILE"
            ),
            Hint::NoEnvironment => write!(
                f,
                "the job has the environment of dagrun here, and none under HTCondor: write getenv = true"
            ),
            Hint::OwnFolder => write!(
                f,
                "HTCondor runs the job in a folder of its own, where relative paths lead elsewhere: write universe = local"
            ),
            Hint::ContinuedComment => write!(
                f,
                "a comment ends with a backslash, and HTCondor may join the line below: take the backslash away"
            ),
            Hint::LaunchNumber(name) => write!(
                f,
                "$({name}) counts the launches here, and the clusters of the queue under HTCondor: write $(JOB) and $(RETRY)"
            ),
            Hint::SkipValue => write!(
                f,
                "PRE_SKIP skips by exit codes alone, and DAGMan refuses another value: write one from 1 to 255"
            ),
            Hint::SignalValue(command) => write!(
                f,
                "{command} has a value below zero, which DAGMan gives otherwise, as -1002 to a job that is removed: write an exit code"
            ),
            Hint::NoopScript(node) => write!(
                f,
                "{node} is a NOOP with a script, which DAGMan runs where the submit file is there: put that file there"
            ),
        }
    }
}

/// A hint, and the line that it is about.
#[derive(Drop)]
pub struct Finding {
    /// The number of the line, from 1.
    pub line: usize,
    pub hint: Hint,
}

/// The line by which a finding in the file of this path is displayed: `hint:` or `condor:`, the place, and what it is.
///
/// # Errors
/// Lack of memory.
pub fn finding_line(alloc: Global, path: &str, finding: &Finding) -> Result<String, AllocError>
    ensures { IfOk result (λ line. string_bytes line ≡ finding_line path.now finding.now) }
{
    let topic = topic_of(&finding.hint);
    let line = finding.line;
    let hint = &finding.hint;
    format!(in alloc; "{topic}: {path}:{line} {hint}\n")
}

/// The word before a hint.
fn topic_of(hint: &Hint) -> &'static str
    ensures { result.now ≡ topic_of hint.now }
{
    match hint {
        Hint::NoLog
        | Hint::NoEnvironment
        | Hint::OwnFolder
        | Hint::ContinuedComment
        | Hint::LaunchNumber(_)
        | Hint::SkipValue
        | Hint::SignalValue(_)
        | Hint::NoopScript(_) => "condor",
        Hint::UnknownName(_)
        | Hint::Misspelled { .. }
        | Hint::PassedOver { .. }
        | Hint::BelowQueue(_)
        | Hint::Unassigned(_)
        | Hint::MisspelledMacro { .. }
        | Hint::MissingProgram(_)
        | Hint::Elsewhere { .. }
        | Hint::WordsInProgram { .. }
        | Hint::FolderAsProgram(_)
        | Hint::SpecialAsProgram(_)
        | Hint::NotExecutable { .. }
        | Hint::CarriageReturn { .. }
        | Hint::MissingReader { .. }
        | Hint::MissingFolder { .. }
        | Hint::SharedOutput { .. }
        | Hint::CountedOutput { .. }
        | Hint::OwnFile(_)
        | Hint::InputWritten(_)
        | Hint::BareQuote => "hint",
    }
}
