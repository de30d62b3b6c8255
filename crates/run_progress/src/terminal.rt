//! The terminal on which a run is watched.

use dag_main_args::ProgressRule;
use std::alloc::Global;
use std::env::{self, VarError};
use std::fs::File;
use std::io::IsTerminal;
use std::process::{Command, Processes, Stdio};
use std::rt::{Env, Files};
use std::time::{Clock, Duration};

/// Where a run is watched: standard error, and the environment that says of which kind it is.
pub trait Screen: Eprint + Env {
    /// Whether standard error is a terminal.
    fn is_terminal(&self) -> bool;
}

impl Screen for HostRuntime {
    fn is_terminal(&self) -> bool {
        self.stderr().is_terminal()
    }
}

/// How it is shown how far a run is.
#[derive(Clone, Copy, Debug, PartialEq, Eq)]
pub enum Way {
    /// One line that is drawn anew, at the bottom of a terminal.
    Redrawn,
    /// Plain lines, one below the other.
    Plain,
}

/// Whether the terminal understands that the rest of a line is to be erased, by its name in the environment.
fn can_erase<R: Env + AllocGlobal>(rt: &R) -> bool {
    match env::var(rt, "TERM") {
        Ok(name) => !matches!(name.as_str(), "" | "dumb"),
        Err(_) => false,
    }
}

/// Whether the user takes colours: the variable `NO_COLOR` is not set, or empty (no-color.org).
pub(crate) fn takes_colours<R: Env + AllocGlobal>(rt: &R) -> bool {
    match env::var(rt, "NO_COLOR") {
        Ok(text) => text.is_empty(),
        Err(VarError::NotPresent) => true,
        Err(_) => false,
    }
}

/// How it is shown how far a run is, by this rule; none where nothing is.
pub fn way_of<R: Screen + AllocGlobal>(rt: &R, rule: ProgressRule) -> Option<Way> {
    match rule {
        ProgressRule::Never => None,
        ProgressRule::Auto if !rt.is_terminal() => None,
        ProgressRule::Auto | ProgressRule::Always => {
            if rt.is_terminal() && can_erase(rt) {
                Some(Way::Redrawn)
            } else {
                Some(Way::Plain)
            }
        }
    }
}

/// A width that is not said.
const USUAL_WIDTH: usize = 80;

/// The greatest width that is used.
const MOST_WIDTH: usize = 200;

/// For how many seconds a width is taken as known.
const WIDTH_HOLDS: u64 = 2;

/// A number of columns, where a text says one above 0.
fn columns_in(text: &str) -> Option<usize> {
    match text.trim().parse::<u16>() {
        Ok(0) => None,
        Ok(columns) => Some(usize::from(columns)),
        Err(_) => None,
    }
}

/// What the program `stty` says of the terminal that is this input: its rows and columns.
fn stty_columns<R: Processes>(alloc: Global, rt: &R, terminal: File) -> Option<usize> {
    let mut stty = Command::new(alloc, "stty").ok()?;
    stty.arg("size").ok()?;
    stty.stdin(Stdio::from(terminal)).stderr(Stdio::null());
    let told = stty.output(rt).ok()?;
    let text = str::from_utf8(&told.stdout).ok()?;
    let (_, columns) = text.split_once(' ')?;
    columns_in(columns)
}

/// Where the terminal is that is standard error; else that from which this process is controlled.
const TERMINALS: [&str; 2] = ["/proc/self/fd/2", "/dev/tty"];

/// How wide the terminal is, where the system says it.
fn asked_columns<R: Processes + Files<File = File>>(alloc: Global, rt: &R) -> Option<usize> {
    TERMINALS.iter().find_map(|path| {
        let terminal = File::open(rt, *path).ok()?;
        stty_columns(alloc, rt, terminal)
    })
}

/// How wide the terminal is by the environment.
fn named_columns<R: Env + AllocGlobal>(rt: &R) -> Option<usize> {
    let columns = env::var(rt, "COLUMNS").ok()?;
    columns_in(columns.as_str())
}

/// How wide a terminal is, and when it was asked.
#[derive(Clone, Copy, Debug)]
pub(crate) struct Width {
    columns: usize,
    asked: Duration,
}

impl Width {
    /// The width of the terminal at this moment; by the environment, and then the usual one, where the system doesn't
    /// say it.
    pub(crate) fn ask<R: Processes + Files<File = File> + Env + AllocGlobal>(
        rt: &R,
        now: Duration,
    ) -> Width {
        let named = || named_columns(rt);
        let columns = asked_columns(rt.alloc(), rt).or_else(named);
        Width {
            columns: columns.unwrap_or(USUAL_WIDTH),
            asked: now,
        }
    }

    /// The usual width, for what is no terminal.
    pub(crate) fn usual() -> Width {
        Width {
            columns: USUAL_WIDTH,
            asked: Duration::ZERO,
        }
    }

    /// Asks again where the width may have changed since. It stays where the system doesn't say it.
    pub(crate) fn renew<R: Processes + Files<File = File> + AllocGlobal>(
        &mut self,
        rt: &R,
        now: Duration,
    ) {
        if now.saturating_sub(self.asked).as_secs() < WIDTH_HOLDS {
            return;
        }
        self.asked = now;
        if let Some(columns) = asked_columns(rt.alloc(), rt) {
            self.columns = columns;
        }
    }

    /// How many columns a line may take: all but the last, after which some terminals begin a new line.
    pub(crate) fn usable(&self) -> usize {
        self.columns.min(MOST_WIDTH).saturating_sub(1)
    }
}
