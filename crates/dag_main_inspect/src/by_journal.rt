//! What is answered of the last round of a DAG file, by its journal.

ghost use Rattle.std.specs.Prelude.{◌≡◌, IfOk, IfErr, IfSome, IfNone, string_bytes};
ghost use Rattle.dag_main_files.specs.Opened.{changing, fixed};
ghost use Rattle.dag_main_inspect.specs.Asked.{IsAnswer, IsNotAnswered, IsNoStatus};
ghost use Rattle.dag_main_inspect.specs.Reported.{IsReported, IsNoReport};

use crate::audits::audit_in;
use crate::graphs::{Shape, graph_here};
use crate::reports::report_in;
use crate::round::{last_round, open_round};
use crate::statuses::{Form, status_in};
use dag_main_check::{Answer, RunFault};
use dag_main_files::Folder;
use std::alloc::Global;

/// What is asked of a run's journal.
#[derive(Clone, Copy, Debug, PartialEq, Eq)]
pub enum Question {
    /// Where each node is.
    Status(Form),
    /// Whether it is that of a finished run, and what its nodes came to.
    Audit(Form),
    /// A picture of the graph, with where each node is.
    Graph(Shape),
}

/// The answer for the DAG file of this path, by its journal and the rescue file that the journal names.
///
/// # Errors
/// In this order: those of `last_round`, and those of its plan, a fault in a line of the rescue file with its path; then, but for an audit, that of
/// the journal or its first record that may not follow (`InManager`), and for a picture as `graph_here`. Lack of memory may come
/// before any.
pub fn answer_here<F: Folder>(
    alloc: Global,
    folder: &F,
    top: &str,
    question: Question,
) -> Result<Answer, RunFault>
    ensures answered { IfOk result (λ answer.
        IsAnswer changing question top.now (string_bytes answer.text) (string_bytes answer.warnings) answer.status) }
    // It is that of the files that the folder holds.
    ensures held { F.honest folder.now → IfOk result (λ answer. IsAnswer (fixed (F.holds folder.now)) question top.now
        (string_bytes answer.text) (string_bytes answer.warnings) answer.status) }
    ensures refused { IfErr result (IsNotAnswered changing question top.now) }
    // The refusal too is for what the folder holds.
    ensures refused_held { F.honest folder.now → IfErr result (IsNotAnswered (fixed (F.holds folder.now)) question top.now) }
{
    match question {
        Question::Status(form) => {
            let round = open_round(alloc, folder, top)?;
            status_in(alloc, &round, form, top)
        }
        Question::Audit(form) => {
            let round = open_round(alloc, folder, top)?;
            audit_in(alloc, &round, form, top)
        }
        Question::Graph(shape) => graph_here(alloc, folder, top, shape),
    }
}

/// What `run` printed at the end of the last round of the DAG file of this path, and its exit status; none where
/// there is no journal, where it is not that of a run which has ended, and where it can't be read.
///
/// # Errors
/// Those of `last_round`; of a journal whose last record is the end of a run, those of `answer_here` for the status.
pub fn report_here<F: Folder>(
    alloc: Global,
    folder: &F,
    top: &str,
) -> Result<Option<Answer>, RunFault>
    ensures report { IfOk result (λ answer. IfSome answer (λ answer.
        IsReported changing top.now (string_bytes answer.text) (string_bytes answer.warnings) answer.status)) }
    // It is that of the files that the folder holds.
    ensures held { F.honest folder.now → IfOk result (λ answer. IfSome answer (λ answer.
        IsReported (fixed (F.holds folder.now)) top.now (string_bytes answer.text) (string_bytes answer.warnings) answer.status)) }
    ensures none { IfOk result (λ answer. IfNone answer (IsNoReport changing top.now)) }
    // By what it holds there is none.
    ensures none_held { F.honest folder.now → IfOk result (λ answer. IfNone answer (IsNoReport (fixed (F.holds folder.now)) top.now)) }
    ensures refused { IfErr result (IsNoStatus changing top.now) }
    // The refusal too is for what the folder holds.
    ensures refused_held { F.honest folder.now → IfErr result (IsNoStatus (fixed (F.holds folder.now)) top.now) }
{
    let round = last_round(alloc, folder, top)?;
    if !round.has_ended {
        return Ok(None);
    }
    let opened = round.open(alloc, folder, top)?;
    report_in(alloc, &opened)
}
