//! dagrun: a workflow manager for job graphs on one machine.
#![tactic(auto)]

mod answers;
mod checking;
mod commands;
mod host;
mod of_round;
mod shorthand;

use commands::run;
use dag_main_check::{REFUSED, SystemConsole};
use dag_main_files::Changes;
use dag_main_run::Screen;
use host::SystemHost;
use shorthand::spelled_out;
use std::alloc::Global;
use std::fs::OpenOptions;
use std::io::{ErrorKind, IsTerminal};
use std::os::fd::{AsRawFd, IntoRawFd};
use std::process::ExitCode;
use std::{env, io};

fn main(rt: HostRuntime) -> ExitCode {
    open_streams(&rt);
    match run_words(&rt) {
        Ok(status) => ExitCode::from(status),
        Err(error) if error.kind() == ErrorKind::OutOfMemory => {
            let _ = eprintln!(&rt; "dagrun: X1 Memory");
            ExitCode::from(125u8)
        }
        Err(error) => {
            let _ = eprintln!(&rt; "dagrun: {error}");
            ExitCode::from(125u8)
        }
    }
}

/// Opens `/dev/null` as each of the streams 0, 1 and 2 that is closed, so that no file of a run comes to
/// be one of them.
fn open_streams(rt: &HostRuntime) {
    for _ in 0..3 {
        let opened = OpenOptions::new()
            .read(true)
            .write(true)
            .open(rt, "/dev/null");
        match opened {
            Ok(file) if file.as_raw_fd() <= 2 => {
                let _ = file.into_raw_fd();
            }
            _ => return,
        }
    }
}

/// The variables of the environment that stand for options of `run` which are not given, and these options.
const STANDING: [(&str, &str); 4] = [
    ("DAGRUN_MAXJOBS", "--maxjobs"),
    ("DAGRUN_MAXPRE", "--maxpre"),
    ("DAGRUN_MAXPOST", "--maxpost"),
    ("DAGRUN_LAUNCHER", LAUNCHER),
];

/// The one of these options whose value is no number.
const LAUNCHER: &str = "--launcher";

/// An option for which a variable of the environment stands.
#[derive(Drop)]
struct Standing {
    variable: &'static str,
    option: &'static str,
    value: String,
}

impl Standing {
    /// Whether the value is one that the option takes: a number of 16 bits, but for the launcher.
    fn is_taken(&self) -> bool {
        self.option == LAUNCHER || self.value.as_str().parse::<u16>().is_ok()
    }
}

/// Whether an option is among some words, with its value after it or in the next word.
fn is_given(words: &[String], option: &str) -> bool {
    words.iter().any(|word| match word.as_str().split_once('=') {
        Some((name, _)) => name == option,
        None => word.as_str() == option,
    })
}

/// The options of these words that the environment has, where they call for a run and don't have them
/// themselves.
fn standing_for(rt: &HostRuntime, words: &[String]) -> io::Result<Vec<Standing>> {
    let mut standing = Vec::new(rt.alloc());
    if !matches!(words, [_, command, ..] if command.as_str() == "run") {
        return Ok(standing);
    }
    for (variable, option) in &STANDING {
        match env::var(rt, variable) {
            Ok(value) if !value.is_empty() && !is_given(words, option) => {
                standing.push(Standing {
                    variable,
                    option,
                    value,
                })?;
            }
            _ => {}
        }
    }
    Ok(standing)
}

/// These options as words.
fn standing_words(alloc: Global, standing: &[Standing]) -> io::Result<Vec<String>> {
    let mut words = Vec::new(alloc);
    for Standing { option, value, .. } in standing {
        words.push(format!(in alloc; "{option}={value}")?)?;
    }
    Ok(words)
}

/// Says at a terminal that a DAG file is read from there, where the program is given no word.
fn show_bare(rt: &HostRuntime, words: &[String]) {
    if words.len() == 1 && rt.is_terminal() && rt.stdin().is_terminal() {
        let _ = eprintln!(rt;
            "dagrun reads a DAG from here, and rehearses it (Ctrl-D ends it); dagrun help says what else it does"
        );
    }
}

/// What is said where the system refuses the words of the call, or one of them is no text.
fn refused_words(error: io::Error) -> io::Error {
    if error.kind() == ErrorKind::InvalidData {
        return io::Error::new(ErrorKind::InvalidData, "a word of the call is not UTF-8");
    }
    error
}

/// The words that the program is given, of which the first is its own name.
fn given_words(rt: &HostRuntime) -> io::Result<Vec<String>> {
    let given = match env::args(rt) {
        Ok(given) => given,
        Err(error) => return Err(refused_words(error)),
    };
    let mut words = Vec::new(rt.alloc());
    for word in given {
        words.push(word)?;
    }
    Ok(words)
}

/// Runs the command of the words that the program is given, and answers the exit status.
fn run_words(rt: &HostRuntime) -> io::Result<u8> {
    let owned = spelled_out(rt, given_words(rt)?)?;
    show_bare(rt, &owned);
    let standing = standing_for(rt, &owned)?;
    if let Some(wrong) = standing.iter().find(|option| !option.is_taken()) {
        let (variable, value) = (wrong.variable, wrong.value.as_str());
        let _ = eprintln!(rt;
            "error: {variable}={value} in the environment: no number from 0 to 65535"
        );
        return Ok(REFUSED);
    }
    let standing = standing_words(rt.alloc(), &standing)?;
    let words: Vec<&str> = owned
        .iter()
        .take(2)
        .chain(standing.iter())
        .chain(owned.iter().skip(2))
        .map(|word| word.as_str())
        .collect(rt.alloc())?;
    let mut console = SystemConsole {
        rt,
        at_terminal: rt.is_terminal(),
    };
    let to_terminal = rt.stdout().is_terminal();
    let mut changes = Changes::new();
    let host = SystemHost { rt };
    Ok(run(rt, &host, &mut console, &words, to_terminal, &mut changes))
}
