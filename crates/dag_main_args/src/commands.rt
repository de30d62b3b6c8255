//! The commands and their options, as clap reads them.

ghost use Rattle.std.specs.Prelude.{◌≡◌, ◌⊎◌, [], false, Some, IfErr, IfOk, option_map};
ghost use Rattle.clap.specs.Words.{app_of, rule_of, with_subcommand};
ghost use Rattle.clap.specs.Walk.{texts};
ghost use Rattle.dag_main_args.specs.Table.{IsDagrunApp, rule_by, shape_by};
ghost use Rattle.dag_main_args.specs.Helps.{HasNoHelp, IsUnhelpful};

use crate::request::{WordsFault, told};
use clap::error::ErrorKind;
use clap::{Arg, ArgAction, Command, value_parser};
use std::alloc::{AllocError, Global};

/// What an argument may be.
#[derive(Clone, Copy)]
enum Kind {
    /// A word that has to be there.
    Needed,
    /// A word that may be there.
    Optional,
    /// Any number of words, or none.
    Many,
    /// An option with a number from 0 to 65,535.
    Number,
    /// An option with 0 or 1.
    Switch,
    /// An option with no word of its own.
    Flag,
    /// The same, which can't stand beside this other option.
    FlagWithout(&'static str),
    /// The same, which can't stand beside any of these three.
    FlagWithoutEach(&'static str, &'static str, &'static str),
    /// An option with words of its own, in one.
    Words,
    /// An option with a path.
    Path,
    /// An option with one of these words.
    Choice(&'static [&'static str]),
}

/// An argument: its name, what it may be, and its line in the help.
struct ArgumentRow {
    name: &'static str,
    kind: Kind,
    help: &'static str,
}

/// A command: its name, its line in the help, and its arguments.
struct CommandRow {
    name: &'static str,
    about: &'static str,
    arguments: &'static [ArgumentRow],
}

const FILE: ArgumentRow = ArgumentRow {
    name: "DAG",
    kind: Kind::Needed,
    help: "The DAG file",
};

const FILE_OR_INPUT: ArgumentRow = ArgumentRow {
    name: "DAG",
    kind: Kind::Needed,
    help: "The DAG file, - for standard input",
};

const TABLE: ArgumentRow = ArgumentRow {
    name: "OUTCOMES",
    kind: Kind::Optional,
    help: "Lines `name attempt PRE|JOB|POST outcome`; without it all phases exit with 0",
};

const JOBS: ArgumentRow = ArgumentRow {
    name: "maxjobs",
    kind: Kind::Number,
    help: "How many jobs may run at once; 0 is no limit. -j N is short for it, and -j cpus takes the number of processors",
};

const PRE: ArgumentRow = ArgumentRow {
    name: "maxpre",
    kind: Kind::Number,
    help: "How many PRE scripts may run at once",
};

const POST: ArgumentRow = ArgumentRow {
    name: "maxpost",
    kind: Kind::Number,
    help: "How many POST scripts may run at once",
};

const AUTORESCUE: ArgumentRow = ArgumentRow {
    name: "autorescue",
    kind: Kind::Switch,
    help: "0: a new round reads no rescue file",
};

const DORESCUEFROM: ArgumentRow = ArgumentRow {
    name: "dorescuefrom",
    kind: Kind::Number,
    help: "Begins a new round by the rescue file of this number; those of higher numbers are renamed to .old",
};

const ALWAYS_POST: ArgumentRow = ArgumentRow {
    name: "always-run-post",
    kind: Kind::Flag,
    help: "POST scripts run after PRE scripts that failed, too, and decide",
};

const STOP_AT_FIRST_ERROR: ArgumentRow = ArgumentRow {
    name: "stop-at-first-error",
    kind: Kind::Flag,
    help: "Launches nothing more once a node has failed for good, and stops when what runs has ended; run goes on",
};

const SYNC_OUTPUT: ArgumentRow = ArgumentRow {
    name: "sync-output",
    kind: Kind::Switch,
    help: "0: the files of output and error are not brought to the disk before an ending is recorded",
};

const SCRIPT_OUTPUT: ArgumentRow = ArgumentRow {
    name: "script-output",
    kind: Kind::Switch,
    help: "0: what scripts print is dropped, also where they fail",
};

const LOG_LIMIT: ArgumentRow = ArgumentRow {
    name: "log-limit",
    kind: Kind::Number,
    help: "How many MiB the log of a round may have; 64 where it is not given, 0 is no limit",
};

const STATUS_FILE: ArgumentRow = ArgumentRow {
    name: "status-file",
    kind: Kind::Path,
    help: "Writes the status as JSON into this file as the run begins, while it goes on, and as it ends",
};

const STATUS_EVERY: ArgumentRow = ArgumentRow {
    name: "status-every",
    kind: Kind::Number,
    help: "How many seconds pass at least before that file is written again; 60 where it is not given",
};

const CODE: ArgumentRow = ArgumentRow {
    name: "CODE",
    kind: Kind::Optional,
    help: "The code of a fault, as in `dagrun: L2 UnknownCommand ..`; without it all are listed",
};

const COMMAND: ArgumentRow = ArgumentRow {
    name: "COMMAND",
    kind: Kind::Optional,
    help: "A command; without it all are listed",
};

const PROGRESS: ArgumentRow = ArgumentRow {
    name: "progress",
    kind: Kind::Choice(&["auto", "always", "never"]),
    help: "Whether standard error shows how far the run is; auto where it is not given: on a terminal",
};

const TRUST_OWNER: ArgumentRow = ArgumentRow {
    name: "trust-owner",
    kind: Kind::Flag,
    help: "Root goes by the journal, the rescue files and the lock of another user, and others by those of root",
};

const AS_BEGUN: ArgumentRow = ArgumentRow {
    name: "as-begun",
    kind: Kind::Flag,
    help: "Goes by the files with which the round began, as x.dag.begun keeps them, whatever was changed since",
};

const RESUME: ArgumentRow = ArgumentRow {
    name: "resume",
    kind: Kind::FlagWithout("dorescuefrom"),
    help: "Where the last round has ended, prints its report again and starts nothing",
};

const NODES: ArgumentRow = ArgumentRow {
    name: "NODE",
    kind: Kind::Many,
    help: "The nodes that are asked for; without one, all that are in error",
};

const REDONE: ArgumentRow = ArgumentRow {
    name: "NODE",
    kind: Kind::Many,
    help: "The nodes that run again, and all that come after them; without one, no more than is left",
};

const ONLY: ArgumentRow = ArgumentRow {
    name: "only",
    kind: Kind::Flag,
    help: "These nodes alone run again: those that come after them stay done",
};

const ENDED: ArgumentRow = ArgumentRow {
    name: "ended",
    kind: Kind::Flag,
    help: "Also of a round that has ended: what is done in it stays done in the next one",
};

const SVG: ArgumentRow = ArgumentRow {
    name: "svg",
    kind: Kind::FlagWithout("summary"),
    help: "A picture of the run over time, in place of a table",
};

const SUMMARY: ArgumentRow = ArgumentRow {
    name: "summary",
    kind: Kind::FlagWithout("json"),
    help: "Where the time went, in place of a table: the critical path, what it waited for, and what more at once could gain",
};

const ROUNDS: ArgumentRow = ArgumentRow {
    name: "rounds",
    kind: Kind::FlagWithoutEach("svg", "json", "summary"),
    help: "A row for each round, in place of one for each phase: the last one, and the one before, by x.dag.log.old",
};

const FOLD: ArgumentRow = ArgumentRow {
    name: "fold",
    kind: Kind::Flag,
    help: "Nodes of one submit file with the same parents and children have one box, with how many they are; the default on a terminal",
};

const NO_FOLD: ArgumentRow = ArgumentRow {
    name: "no-fold",
    kind: Kind::FlagWithout("fold"),
    help: "Each node has a box of its own, also on a terminal; the default into a file or a pipe",
};

const AS_IS: ArgumentRow = ArgumentRow {
    name: "as-is",
    kind: Kind::FlagWithout("as-begun"),
    help: "Draws the files as they are, also where they were changed since the round began",
};

const JSON: ArgumentRow = ArgumentRow {
    name: "json",
    kind: Kind::Flag,
    help: "The same as JSON, for other programs",
};

const RUN_JSON: ArgumentRow = ArgumentRow {
    name: "json",
    kind: Kind::Flag,
    help: "Prints at the end where each node is as JSON, for other programs, in place of the report",
};

const TIMES_JSON: ArgumentRow = ArgumentRow {
    name: "json",
    kind: Kind::FlagWithout("svg"),
    help: "The phases as JSON, for other programs, in place of a table",
};

const RELOAD: ArgumentRow = ArgumentRow {
    name: "reload",
    kind: Kind::Flag,
    help: "The page loads itself again every 5 seconds while the round runs",
};

const LAUNCHER: ArgumentRow = ArgumentRow {
    name: "launcher",
    kind: Kind::Words,
    help: "What comes before the program of each job, as \"srun -n1\"; it is split as arguments are",
};

const LAUNCHER_FINAL: ArgumentRow = ArgumentRow {
    name: "launcher-final",
    kind: Kind::Flag,
    help: "It comes before the program of FINAL's job, too",
};

const LAUNCHER_GRACE: ArgumentRow = ArgumentRow {
    name: "launcher-grace",
    kind: Kind::Number,
    help: "How many seconds launchers have to end where a run is stopped; 10 where it is not given, 0: killed at once",
};

const ORPHANS: ArgumentRow = ArgumentRow {
    name: "orphans",
    kind: Kind::Choice(&["kill", "wait", "leave"]),
    help: "What is done with processes that a manager which was killed left running; kill where it is not given",
};

const EACH: ArgumentRow = ArgumentRow {
    name: "all",
    kind: Kind::Flag,
    help: "Each node in error by itself; without it those with one cause are shown once",
};

const ALL: ArgumentRow = ArgumentRow {
    name: "all",
    kind: Kind::Flag,
    help: "Lists all faults of lines at once, in place of the first",
};

const HINTS: ArgumentRow = ArgumentRow {
    name: "hints",
    kind: Kind::Flag,
    help: "Says on standard error, with places, what is odd in the files, and what to write instead",
};

const CONDOR: ArgumentRow = ArgumentRow {
    name: "condor",
    kind: Kind::Flag,
    help: "Says there, with places, what would be otherwise under condor_submit_dag",
};

static COMMANDS: [CommandRow; 14] = [
    CommandRow {
        name: "run",
        about: "Runs a DAG file, or goes on with a run that was cut short",
        arguments: &[
            FILE,
            JOBS,
            PRE,
            POST,
            AUTORESCUE,
            DORESCUEFROM,
            ALWAYS_POST,
            STOP_AT_FIRST_ERROR,
            SYNC_OUTPUT,
            SCRIPT_OUTPUT,
            LOG_LIMIT,
            STATUS_FILE,
            STATUS_EVERY,
            LAUNCHER,
            LAUNCHER_FINAL,
            LAUNCHER_GRACE,
            ORPHANS,
            PROGRESS,
            RESUME,
            RUN_JSON,
            TRUST_OWNER,
        ],
    },
    CommandRow {
        name: "status",
        about: "Says where each node of a run is, by its journal",
        arguments: &[FILE, JSON, AS_BEGUN, TRUST_OWNER],
    },
    CommandRow {
        name: "why",
        about: "Says why nodes are in error, and for whom others wait",
        arguments: &[FILE, NODES, EACH, JSON, AS_BEGUN, TRUST_OWNER],
    },
    CommandRow {
        name: "times",
        about: "Says when each phase of a run began and how long it took, by its log",
        arguments: &[
            FILE,
            SVG,
            TIMES_JSON,
            SUMMARY,
            ROUNDS,
            AS_BEGUN,
            TRUST_OWNER,
        ],
    },
    CommandRow {
        name: "report",
        about: "Writes one HTML page of the last round, on standard output",
        arguments: &[FILE, RELOAD, AS_BEGUN, TRUST_OWNER],
    },
    CommandRow {
        name: "salvage",
        about: "Makes a rescue file of a round that was cut short, whose submit files were changed since",
        arguments: &[FILE, ENDED, TRUST_OWNER],
    },
    CommandRow {
        name: "redo",
        about: "Makes a rescue file of the last round by which nodes run again that are done",
        arguments: &[FILE, REDONE, ONLY, AS_BEGUN, TRUST_OWNER],
    },
    CommandRow {
        name: "audit",
        about: "Says whether a journal is that of a finished run, and what its nodes came to",
        arguments: &[FILE, JSON, AS_BEGUN, TRUST_OWNER],
    },
    CommandRow {
        name: "check",
        about: "Reads a DAG file with its splices, and says whether it is right",
        arguments: &[FILE_OR_INPUT, ALL, JSON, HINTS, CONDOR],
    },
    CommandRow {
        name: "rehearse",
        about: "Runs a DAG file at the outcomes of a table, and starts no program",
        arguments: &[FILE_OR_INPUT, TABLE, JOBS, PRE, POST, ALWAYS_POST],
    },
    CommandRow {
        name: "graph",
        about: "Draws the graph of a DAG, coloured by where its nodes stand, for graphviz",
        arguments: &[FILE, FOLD, NO_FOLD, AS_IS, AS_BEGUN, TRUST_OWNER],
    },
    CommandRow {
        name: "explain",
        about: "Says what the code of a fault means, with an example, and what to do",
        arguments: &[CODE],
    },
    CommandRow {
        name: "help",
        about: "Says how a command is called, with examples",
        arguments: &[COMMAND],
    },
    CommandRow {
        name: "version",
        about: "Says which version this is",
        arguments: &[JSON],
    },
];

/// What shows how a command is called.
struct Examples {
    command: &'static str,
    text: &'static str,
}

// They are apart from the rows of the commands: the proof that these are the program's table takes them as they are, texts and all.
static EXAMPLES: [Examples; 14] = [
    Examples {
        command: "run",
        text: "  dagrun run x.dag                    runs x.dag, or goes on with its round
  dagrun run --maxjobs 4 x.dag        with 4 jobs at once at most
  dagrun run --dorescuefrom 1 x.dag   goes back to x.dag.rescue001
  dagrun run --resume x.dag           begins no round after one that has ended
  dagrun run --launcher \"srun -n1\" x.dag   with each job on a Slurm cluster
",
    },
    Examples {
        command: "status",
        text: "  dagrun status x.dag                 where each node is, also while it runs
  watch dagrun status x.dag           again and again
  dagrun status --json x.dag | jq .   the same for other programs
",
    },
    Examples {
        command: "why",
        text: "  dagrun why x.dag                    all nodes in error, those first that hold up most
  dagrun why --all x.dag              the same, each by itself where many have one cause
  dagrun why x.dag Report             why Report is in error, or for whom it waits
",
    },
    Examples {
        command: "times",
        text: "  dagrun times x.dag                  a table, for a spreadsheet
  dagrun times --svg x.dag > x.svg    a picture of the run over time
  dagrun times --summary x.dag        where the time went, and what could be faster
  dagrun times --rounds x.dag         the last two rounds: whether it has become slower
  dagrun times --json x.dag | jq .    the phases for other programs
",
    },
    Examples {
        command: "report",
        text: "  dagrun report x.dag > x.html        a page for a browser, which needs no other file
  dagrun report --reload x.dag > x.html   the same; while the round runs, it loads itself again
",
    },
    Examples {
        command: "salvage",
        text: "  dagrun salvage x.dag                keeps what is done; `dagrun run x.dag` starts the rest
",
    },
    Examples {
        command: "redo",
        text: "  dagrun redo x.dag Fit               `dagrun run x.dag` runs Fit and all that come after it
  dagrun redo --only x.dag Fit Plot   these two alone
  dagrun redo --as-begun x.dag Fit    the same where Fit's submit file was changed since
",
    },
    Examples {
        command: "audit",
        text: "  dagrun audit x.dag                  what the nodes of the last round came to, by its journal alone
",
    },
    Examples {
        command: "check",
        text: "  dagrun check x.dag                  whether x.dag and its submit files are right
  make-dag | dagrun check -           the same of a DAG that a program writes
  dagrun check --all x.dag            all faults of lines at once
  dagrun check --hints x.dag          also what is odd in them, as a misspelled name
  dagrun check --condor x.dag         also what would be otherwise under HTCondor
",
    },
    Examples {
        command: "rehearse",
        text: "  dagrun rehearse x.dag               the course of a run in which all goes well
  dagrun rehearse x.dag table         the same, where table has the line: A 0 JOB 1
",
    },
    Examples {
        command: "graph",
        text: "  dagrun graph x.dag | dot -Tsvg > x.svg   a picture, by graphviz
  dagrun graph --fold x.dag | dot -Tsvg > x.svg   the same where many nodes are alike
",
    },
    Examples {
        command: "explain",
        text: "  dagrun explain                      the codes of all faults
  dagrun explain L2                   what L2 says, an example, and what to do
",
    },
    Examples {
        command: "help",
        text: "  dagrun help                         the commands
  dagrun help run                     the options of run
",
    },
    Examples {
        command: "version",
        text: "  dagrun version                      the version of this program
",
    },
];

/// What the help that names no command shows.
const FIRST_EXAMPLES: &str = "  dagrun check x.dag      whether the files of x.dag are right
  dagrun run x.dag        runs it, or goes on with its round
  dagrun status x.dag     where each node is
  dagrun explain L2       what a fault says, and what to do
  dagrun help run         how run is called
";

/// The argument of a row; `is_tied` says whether clap is to refuse it beside the option that it can't stand beside.
fn argument_of<'a>(alloc: Global, row: &ArgumentRow, is_tied: bool) -> Result<Arg<'a>, AllocError>
    ensures { IfOk result (λ argument. rule_of argument ≡ rule_by is_tied row.now) }
{
    let argument = Arg::new(alloc, row.name)
        .action(ArgAction::Set)
        .help(row.help);
    Ok(match row.kind {
        Kind::Needed => argument.required(true),
        Kind::Optional => argument,
        Kind::Many => argument.num_args(0..).action(ArgAction::Append),
        Kind::Number => argument
            .long(row.name)
            .value_name("N")
            .value_parser(value_parser!(u16)),
        Kind::Switch => argument
            .long(row.name)
            .value_name("0|1")
            .value_parser(value_parser!(u8).range(0..=1)),
        Kind::FlagWithout(other) if is_tied => argument
            .long(row.name)
            .action(ArgAction::SetTrue)
            .conflicts_with(other)?,
        Kind::FlagWithoutEach(one, other, third) if is_tied => argument
            .long(row.name)
            .action(ArgAction::SetTrue)
            .conflicts_with(one)?
            .conflicts_with(other)?
            .conflicts_with(third)?,
        Kind::Flag | Kind::FlagWithout(_) | Kind::FlagWithoutEach(_, _, _) => {
            argument.long(row.name).action(ArgAction::SetTrue)
        }
        Kind::Words => argument.long(row.name).value_name("WORDS"),
        Kind::Path => argument.long(row.name).value_name("FILE"),
        Kind::Choice(words) => argument
            .long(row.name)
            .value_name("WORD")
            .value_parser(words),
    })
}

/// The command of a row.
fn command_of<'a>(alloc: Global, row: &CommandRow, is_tied: bool) -> Result<Command<'a>, AllocError>
    ensures { IfOk result (λ command. app_of command ≡ record { top = shape_by is_tied row.now; subs = [] }) }
{
    let mut command = Command::new(alloc, row.name).about(row.about);
    for argument in row.arguments {
        command = command.arg(argument_of(alloc, argument, is_tied)?)?;
    }
    Ok(command)
}

/// The program with one command more, if there is memory for it.
fn with_command<'a>(
    alloc: Global,
    program: Command<'a>,
    row: &CommandRow,
    is_tied: bool,
) -> Result<Command<'a>, AllocError>
    ensures { IfOk result (λ more. app_of more ≡ with_subcommand (app_of program.entry) (shape_by is_tied row.now)) }
{
    program.subcommand(command_of(alloc, row, is_tied)?)
}

/// The program with its commands; `is_tied` says whether clap is to refuse options that can't stand side by side.
pub(crate) fn dagrun_command<'a>(alloc: Global, is_tied: bool) -> Result<Command<'a>, AllocError>
    ensures { IfOk result (λ command. IsDagrunApp is_tied (app_of command)) }
{
    let mut program = Command::new(alloc, "dagrun")
        .about("A workflow manager for job graphs on one machine")
        .subcommand_required(true)
        .disable_help_subcommand(true);
    for row in &COMMANDS {
        program = with_command(alloc, program, row, is_tied)?;
    }
    Ok(program)
}

/// What shows how a command is called; for no command, how the commands that begin are.
fn examples_of(command: Option<&str>) -> &'static str {
    let Some(name) = command else {
        return FIRST_EXAMPLES;
    };
    match EXAMPLES.iter().find(|row| row.command == name) {
        Some(row) => row.text,
        None => "",
    }
}

/// How a command is called, or for no command which there are: clap's help text, and examples.
///
/// # Errors
/// `Refused` with clap's text where there is no such command; `Memory`.
pub(crate) fn help_text(alloc: Global, command: Option<&str>) -> Result<String, WordsFault>
    ensures { IfErr result (λ fault. (fault ≡ WordsFault.Memory) ⊎ HasNoHelp (option_map (λ c. c.now) command.entry)) }
{
    let mut text = help_of(alloc, command)?;
    let examples = examples_of(command);
    write!(text, "\nExamples:\n{examples}")?;
    Ok(text)
}

/// Clap's help text of a command, or of the program.
fn help_of(alloc: Global, command: Option<&str>) -> Result<String, WordsFault>
    ensures { IfErr result (λ fault. (fault ≡ WordsFault.Memory) ⊎ HasNoHelp (option_map (λ c. c.now) command.entry)) }
{
    match command {
        Some(name) => clap_help(alloc, &["dagrun", name, "--help"]),
        None => clap_help(alloc, &["dagrun", "--help"]),
    }
}

/// Clap's answer to words that call for help.
fn clap_help(alloc: Global, words: &[&str]) -> Result<String, WordsFault>
    ensures { IfErr result (λ fault. (fault ≡ WordsFault.Memory) ⊎ IsUnhelpful (texts words.now)) }
{
    match dagrun_command(alloc, false)?.try_get_matches_from(words) {
        Ok(_) => Ok(String::new(alloc)),
        Err(error) => match told(alloc, &error) {
            WordsFault::Refused(text) => {
                if error.kind() == ErrorKind::DisplayHelp {
                    Ok(text)
                } else {
                    Err(WordsFault::Refused(text))
                }
            }
            WordsFault::Memory => Err(WordsFault::Memory),
        },
    }
}
