//! The picture of a DAG, with where the nodes of its last round stand.

ghost use Rattle.std.specs.Prelude.{◌≡◌, Some, IfOk, IfErr, string_bytes};
ghost use Rattle.dag_main_check.specs.declared.fault.RunFault.TheVariants.{Memory};
ghost use Rattle.dag_main_check.specs.Warnings.{warning_lines};
ghost use Rattle.graph_text.specs.Picture.{drawn_plan, states_of};
ghost use Rattle.dag_main_files.specs.Opened.{changing, fixed, IsOfFiles, IsRefusedFor, HasNoGraph};
ghost use Rattle.dag_main_inspect.specs.Statused.{journal_bytes, records_in_bytes, IsRecordsFault};
ghost use Rattle.dag_main_inspect.specs.Drawn.{IsDrawnText, IsPicture, IsBareDrawn, IsJournalDrawnFault, tells_of_others};
ghost use Rattle.dag_main_inspect.specs.Asked.{IsDrawn, IsNotDrawn};

use crate::round::{OpenedRound, last_round};
use crate::statuses::core_of;
use dag_main_check::{Answer, RunFault, warning_text};
use dag_main_files::{Folder, bare_plan_here};
use event_journal_log::JournalFault;
use graph_text::{Drawn, dot_text, folded_text};
use node_machine::Record;
use recovery_manager::ManagerFault;
use run_plan::Plan;
use std::alloc::{AllocError, Global};

/// What is drawn of a plan.
#[derive(Clone, Copy, Debug, PartialEq, Eq)]
pub enum Shape {
    /// Each node, within the clusters of its splices.
    Nodes,
    /// Boxes, in which the nodes of one shape are folded.
    Boxes,
}

/// The picture of the DAG of the file of this path, as a graph in DOT. Where there is a journal of a
/// run of these files, its nodes have the colours of where they are in it. A journal of other files says nothing of the nodes.
/// Without a journal the DAG files alone are looked at.
///
/// # Errors
/// Those of `last_round`. Without a journal, those of `bare_plan_here`. With one, those of `LastRound::open`, and that of the journal, unless
/// it is of other files, or its first record that may not follow (`InManager`).
pub(crate) fn graph_here<F: Folder>(
    alloc: Global,
    folder: &F,
    top: &str,
    shape: Shape,
) -> Result<Answer, RunFault>
    ensures drawn { IfOk result (λ answer. IsDrawn changing shape top.now (string_bytes answer.text) (string_bytes answer.warnings) answer.status) }
    // It is that of the files, the journal and the rescue file that the folder holds.
    ensures held { F.honest folder.now → IfOk result (λ answer.
        IsDrawn (fixed (F.holds folder.now)) shape top.now (string_bytes answer.text) (string_bytes answer.warnings) answer.status) }
    ensures refused { IfErr result (IsNotDrawn changing top.now) }
    // The refusal too is for what the folder holds.
    ensures refused_held { F.honest folder.now → IfErr result (IsNotDrawn (fixed (F.holds folder.now)) top.now) }
{
    let round = last_round(alloc, folder, top)?;
    if !round.journal.is_there() {
        return bare_graph(alloc, folder, top, shape);
    }
    let opened = round.open(alloc, folder, top)?;
    graph_plan(alloc, &opened, shape)
}

/// The picture of the DAG files alone.
fn bare_graph<F: Folder>(
    alloc: Global,
    folder: &F,
    top: &str,
    shape: Shape,
) -> Result<Answer, RunFault>
    ensures drawn { IfOk result (λ answer. IsOfFiles changing top.now (λ files entries.
        IsBareDrawn shape files top.now (string_bytes answer.text) (string_bytes answer.warnings) answer.status)) }
    ensures held { F.honest folder.now → IfOk result (λ answer. IsOfFiles (fixed (F.holds folder.now)) top.now (λ files entries.
        IsBareDrawn shape files top.now (string_bytes answer.text) (string_bytes answer.warnings) answer.status)) }
    ensures refused { IfErr result (IsRefusedFor changing top.now (HasNoGraph top.now)) }
    ensures refused_held { F.honest folder.now → IfErr result (IsRefusedFor (fixed (F.holds folder.now)) top.now (HasNoGraph top.now)) }
{
    let plan = bare_plan_here(alloc, folder, top, false)?;
    answer_for(alloc, &Drawn::Bare(&plan), shape)
}

/// The text of a picture.
fn text_for(alloc: Global, drawn: &Drawn<'_>, shape: Shape) -> Result<String, AllocError>
    ensures { IfOk result (λ text. IsDrawnText shape (drawn_plan drawn.now) (states_of drawn.now) (string_bytes text)) }
{
    match shape {
        Shape::Nodes => dot_text(alloc, drawn),
        Shape::Boxes => folded_text(alloc, drawn),
    }
}

/// The picture of a plan, and the warnings of its files.
fn answer_for(alloc: Global, drawn: &Drawn<'_>, shape: Shape) -> Result<Answer, RunFault>
    ensures text { IfOk result (λ answer. IsDrawnText shape (drawn_plan drawn.now) (states_of drawn.now) (string_bytes answer.text)) }
    ensures warnings { IfOk result (λ answer. string_bytes answer.warnings ≡ warning_lines (drawn_plan drawn.now).graph.dag.warnings) }
    ensures status { IfOk result (λ answer. answer.status ≡ 0) }
    ensures err { IfErr result (λ fault. fault ≡ Memory) }
{
    let plan = drawn.plan();
    Ok(Answer {
        text: text_for(alloc, drawn, shape)?,
        warnings: warning_text(alloc, plan.graph().flat().warnings())?,
        status: 0,
    })
}

/// The picture of a round that has a journal.
fn graph_plan(alloc: Global, round: &OpenedRound, shape: Shape) -> Result<Answer, RunFault>
    ensures drawn { IfOk result (λ answer. IsPicture shape round.now.plan (journal_bytes round.now.journal) (string_bytes answer.text)) }
    ensures warnings { IfOk result (λ answer. string_bytes answer.warnings ≡ warning_lines round.now.plan.graph.dag.warnings) }
    ensures status { IfOk result (λ answer. answer.status ≡ 0) }
    ensures refused { IfErr result (IsJournalDrawnFault round.now.plan (journal_bytes round.now.journal)) }
{
    let (plan, bytes) = (&round.plan, round.bytes());
    match round.journal.records(alloc, plan) {
        Ok(records) => graph_run(alloc, plan, bytes, records.as_slice(), shape),
        Err(fault) => graph_unless(alloc, plan, bytes, fault, shape),
    }
}

/// Whether a fault tells that a journal is that of other files, or of a run with the other flag.
fn tells_of_others(fault: &RunFault) -> bool
    ensures { result ≡ tells_of_others fault.now }
{
    match fault {
        RunFault::InManager(
            ManagerFault::Journal(JournalFault::OtherInputs | JournalFault::OtherFlag),
        ) => true,
        _ => false,
    }
}

/// The picture of a plan whose journal is that of other files or of a run with the other flag, or
/// why there is none: this fault.
fn graph_unless(
    alloc: Global,
    plan: &Plan,
    bytes: &[u8],
    fault: RunFault,
    shape: Shape,
) -> Result<Answer, RunFault>
    requires { IsRecordsFault plan.now bytes.now fault }
    ensures drawn { IfOk result (λ answer. IsPicture shape plan.now bytes.now (string_bytes answer.text)) }
    ensures warnings { IfOk result (λ answer. string_bytes answer.warnings ≡ warning_lines plan.now.graph.dag.warnings) }
    ensures status { IfOk result (λ answer. answer.status ≡ 0) }
    ensures refused { IfErr result (IsJournalDrawnFault plan.now bytes.now) }
{
    let _bytes = bytes;
    if tells_of_others(&fault) {
        return answer_for(alloc, &Drawn::Bare(plan), shape);
    }
    Err(fault)
}

/// The picture of a plan whose journal has these records.
fn graph_run(
    alloc: Global,
    plan: &Plan,
    bytes: &[u8],
    records: &[Record],
    shape: Shape,
) -> Result<Answer, RunFault>
    requires { records_in_bytes plan.now bytes.now ≡ Some records.now }
    ensures drawn { IfOk result (λ answer. IsPicture shape plan.now bytes.now (string_bytes answer.text)) }
    ensures warnings { IfOk result (λ answer. string_bytes answer.warnings ≡ warning_lines plan.now.graph.dag.warnings) }
    ensures status { IfOk result (λ answer. answer.status ≡ 0) }
    ensures refused { IfErr result (IsJournalDrawnFault plan.now bytes.now) }
{
    let core = core_of(alloc, plan, bytes, records)?;
    core.keeps_the_law();
    answer_for(alloc, &Drawn::Run(&core), shape)
}
