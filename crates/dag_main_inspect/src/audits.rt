//! The audit of a run, by its journal.

ghost use Rattle.std.specs.Prelude.{◌≡◌, ◌++◌, Ok, Err, length, OnOk, IfOk, IfErr, string_bytes};
ghost use Rattle.std.specs.Option.{option_map};
ghost use Rattle.run_plan.specs.Plan.{Plan, count_of};
ghost use Rattle.status_report.specs.Text.{fate_line};
ghost use Rattle.dag_main_check.specs.declared.fault.RunFault.TheVariants.{Memory};
ghost use Rattle.dag_main_inspect.specs.Audited.{passed_text, refused_text, audit_form_text, IsAuditText};
ghost use Rattle.dag_main_inspect.specs.Asked.{IsAuditSaid};

use crate::audit_data::{passed_json, refused_json};
use crate::round::OpenedRound;
use crate::statuses::Form;
use dag_main_check::{Answer, RunFault, warning_text};
use fate_audit::{AuditNo, Fate, audit};
use node_machine::Verdict;
use run_plan::Plan;
use status_report::{push_line, status_of_state};
use std::alloc::{AllocError, Global};

/// The audit of a round, in a form; the DAG file has this path: whether the journal is that of a finished run without abort.
///
/// Where it is, the answer has a line for each ordinary node, in plan order, by its fate, and then `audit ok`, with status 0; else the
/// line `audit no CODE Name detail`, with status 1.
///
/// # Errors
/// `Memory` alone.
pub(crate) fn audit_in(
    alloc: Global,
    round: &OpenedRound,
    form: Form,
    path: &str,
) -> Result<Answer, RunFault>
    ensures audit { IfOk result (λ answer. IsAuditSaid form path.now (string_bytes answer.text) (string_bytes answer.warnings) answer.status
        round.now.plan round.now.journal) }
    ensures err { IfErr result (λ fault. fault ≡ Memory) }
{
    let audited = audit_bytes(alloc, &round.plan, round.bytes(), form, path)?;
    Ok(Answer {
        text: audited.text,
        warnings: warning_text(alloc, round.plan.graph().flat().warnings())?,
        status: audited.status,
    })
}

/// The text and the exit status of an audit.
#[derive(Drop)]
struct Audited {
    text: String,
    status: Verdict,
}

/// Audits the bytes of a journal of this plan, in a form; the DAG file has this path.
fn audit_bytes(
    alloc: Global,
    plan: &Plan,
    bytes: &[u8],
    form: Form,
    path: &str,
) -> Result<Audited, RunFault>
    ensures says { IfOk result (λ audited. IsAuditText (audit_form_text form path.now) plan.now bytes.now (string_bytes audited.text) audited.status) }
    ensures err { IfErr result (λ fault. fault ≡ Memory) }
{
    match audit(alloc, plan, bytes) {
        Ok(fates) => Ok(Audited {
            text: passed_in(alloc, plan, &fates, form, path)?,
            status: 0,
        }),
        Err(cause) => match cause {
            AuditNo::Memory => Err(RunFault::Memory),
            _ => Ok(Audited {
                text: refused_in(alloc, cause, form, path)?,
                status: 1,
            }),
        },
    }
}

/// Adds the line of a node that comes to this fate.
fn push_fate(text: &mut String, name: &str, fate: &Fate) -> Result<(), AllocError>
    ensures { OnOk result (string_bytes text.new ≡ string_bytes text.old ++ fate_line name.now fate.now) }
{
    push_line(
        text,
        name,
        status_of_state(fate.state()),
        fate.attempts(),
        fate.value(),
    )
}

/// The lines of the fates, and that the journal stands for them.
fn passed_text(alloc: Global, plan: &Plan, fates: &[Fate]) -> Result<String, AllocError>
    requires { length fates.now ≡ count_of plan.now }
    ensures { IfOk result (λ text. string_bytes text ≡ passed_text plan.now fates.now) }
{
    let mut text = String::new(alloc);
    for node in 0..plan.count() {
        push_fate(&mut text, plan.spec(node).name(), &fates[node as usize])?;
    }
    text.push_str("audit ok\n")?;
    Ok(text)
}

/// Why the journal stands for none.
fn refused_text(alloc: Global, cause: AuditNo) -> Result<String, AllocError>
    ensures { IfOk result (λ text. string_bytes text ≡ refused_text cause) }
{
    let mut text = String::new(alloc);
    writeln!(text, "audit no {cause}")?;
    Ok(text)
}

/// The text of the fates in a form; the DAG file has this path.
fn passed_in(
    alloc: Global,
    plan: &Plan,
    fates: &[Fate],
    form: Form,
    path: &str,
) -> Result<String, AllocError>
    requires { length fates.now ≡ count_of plan.now }
    ensures { IfOk result (λ text. string_bytes text ≡ audit_form_text form path.now plan.now (Ok fates.now)) }
{
    match form {
        Form::Lines => passed_text(alloc, plan, fates),
        Form::Json => passed_json(alloc, plan, fates, path),
    }
}

/// The text of why there are no fates, in a form; the DAG file has this path.
fn refused_in(alloc: Global, cause: AuditNo, form: Form, path: &str) -> Result<String, AllocError>
    ensures { IfOk result (λ text. (plan : Plan) → string_bytes text ≡ audit_form_text form path.now plan (Err cause)) }
{
    match form {
        Form::Lines => refused_text(alloc, cause),
        Form::Json => refused_json(alloc, cause, path),
    }
}
