//! What is displayed after an answer.

ghost use Rattle.std.specs.Prelude.{◌≡◌};
ghost use Rattle.dag_main_check.specs.Consoles.{OnlyWarnsAtTerminal};
ghost use Rattle.terminal_notes.specs.Postscripts.{is_postscript_due};

use crate::changes::{changed_files, quoted};
use crate::reports::{ended_text, totals_of};
use crate::workers::standing_text;
use dag_main_check::{Console, REFUSED};
use dag_main_files::{Reading, SystemFolder, files_of};
use file_hints::{Wanted, hints_of};
use round_inputs::ByFiles;
use std::alloc::AllocError;
use std::fs::File;
use std::rt::{Env, Files};
use std::time::{Clock, Duration};

/// What is displayed after a drawing that is folded though nobody asked for it.
const FOLDED: &str =
    "folded: nodes of one shape are one box; --no-fold shows each node, as into a file\n";

/// What is displayed at a terminal after an answer.
#[derive(Clone, Copy)]
pub enum Postscript {
    Nothing,
    /// Which nodes are not done after a run, how many are, and how long it took since this moment.
    Run { began: Duration },
    /// What is odd in the files of a check.
    Hints,
    /// How many nodes are in which state, and who works on them; whether the owner of the log that says it is trusted.
    Totals { trusts_owner: bool },
    /// Who works on the DAG; the same of the log.
    Worker { trusts_owner: bool },
    /// Which files are changed since the last round began.
    Changes,
    /// Whether a drawing is folded though nobody asked for it; and, by the files by which the round is drawn, which of them are changed
    /// since it began, and how they are drawn as they are.
    Drawing { folds_by_itself: bool, by: ByFiles },
}

impl Postscript {
    /// Whether it is displayed where the command ends with this status: after a run that was led to its end with any, else
    /// with 0 alone.
    pub fn is_due(self, status: u8) -> bool
        ensures { result ≡ is_postscript_due self status }
    {
        match self {
            Postscript::Run { .. } => status != REFUSED,
            _ => status == 0,
        }
    }
}

/// What is odd in the files of this DAG file; nothing of standard input, which can be read once.
fn odd_text<R: Files<File = File> + Env + Input + AllocGlobal + Copy + Drop>(
    rt: &R,
    dag: &str,
) -> Result<String, AllocError> {
    let alloc = rt.alloc();
    let here = SystemFolder {
        rt,
        seat: String::new(alloc),
        has_input: false,
        trusts_owner: false,
    };
    let wanted = Wanted {
        hints: true,
        condor: false,
    };
    match files_of(alloc, &here, dag, Reading::SubmitFilesToo) {
        Ok(files) if dag != "-" => hints_of(rt, &files, dag, wanted),
        _ => Ok(String::new(alloc)),
    }
}

/// Which files are changed since the round of this DAG file began that is drawn by these files; and how they are drawn as they are, where that isn't
/// done and no other files were asked for.
fn drawn_changes<R: Files + AllocGlobal>(
    rt: &R,
    dag: &str,
    by: ByFiles,
) -> Result<String, AllocError> {
    let alloc = rt.alloc();
    if by == ByFiles::AsTheyAre {
        return Ok(String::new(alloc));
    }
    match changed_files(rt, dag)? {
        Some(changes) if by == ByFiles::AsKept => format!(in alloc;
            "{changes}; dagrun graph --as-is {} draws the files as they are\n",
            quoted(alloc, dag)?
        ),
        Some(changes) => format!(in alloc; "{changes}\n"),
        None => Ok(String::new(alloc)),
    }
}

/// What is displayed at a terminal after the answer to a request for this DAG file, of which this was printed.
fn postscript_of<R: Files<File = File> + Clock + Env + Input + AllocGlobal + Copy + Drop>(
    rt: &R,
    dag: &str,
    postscript: Postscript,
    text: &str,
) -> Result<String, AllocError> {
    let alloc = rt.alloc();
    match postscript {
        Postscript::Nothing => Ok(String::new(alloc)),
        Postscript::Run { began } => {
            let now = rt.monotonic().unwrap_or(began);
            ended_text(alloc, dag, text, now.saturating_sub(began))
        }
        Postscript::Hints => odd_text(rt, dag),
        Postscript::Totals { trusts_owner } => {
            let totals = totals_of(alloc, text)?;
            let standing = standing_text(rt, dag, trusts_owner, "them")?;
            format!(in alloc; "{totals}; {standing}")
        }
        Postscript::Worker { trusts_owner } => standing_text(rt, dag, trusts_owner, dag),
        Postscript::Changes => match changed_files(rt, dag)? {
            Some(changes) => format!(in alloc; "{changes}\n"),
            None => Ok(String::new(alloc)),
        },
        Postscript::Drawing {
            folds_by_itself,
            by,
        } => {
            let folded = if folds_by_itself { FOLDED } else { "" };
            let changes = drawn_changes(rt, dag, by)?;
            format!(in alloc; "{folded}{changes}")
        }
    }
}

/// Displays that, where standard error is a terminal.
pub fn display_postscript<
    R: Files<File = File> + Clock + Env + Input + AllocGlobal + Copy + Drop,
    C: Console,
>(rt: &R, console: &mut C, dag: &str, postscript: Postscript, text: &str)
    ensures warned { C.honest console.new → OnlyWarnsAtTerminal (C.shown console.old) (C.shown console.new) }
    ensures back { C.honest console.new → C.honest console.old }
{
    if !console.is_terminal() {
        return;
    }
    if let Ok(line) = postscript_of(rt, dag, postscript, text) {
        console.warn(line.as_str());
    }
}
