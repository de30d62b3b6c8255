//! Why nodes of the last round of a DAG file are in error, from the files that stand beside it.
#![tactic(auto)]

ghost use Rattle.std.specs.Prelude.{◌≡◌, ◌≢◌, ◌++◌, codes, length, map, IfOk, IfErr, string_bytes};
ghost use Rattle.dag_main_check.specs.declared.fault.RunFault.TheVariants.{Memory};
ghost use Rattle.dag_main_files.specs.Beside.{IsRefusalOf};
ghost use Rattle.dag_main_files.specs.Opened.{changing, fixed};
ghost use Rattle.failure_answers.specs.Answered.{IsAnswerOf, IsWhyOfAllIn, IsWhyOfNamedIn, IsWhy, IsNoWhy};

mod form;
mod why_data;

use crate::why_data::nodes_json;
use dag_main_check::{Answer, REFUSED, RunFault, warning_text};
use dag_main_files::{Folder, Place};
use dag_main_inspect::last_round;
use dag_reader::Text;
use event_journal::require_regular;
use failure_report::{Found, Surroundings, Why, why_found, why_text};
pub use form::WhyForm;
use sched_core::Core;
use std::alloc::{AllocError, Global};
use std::fs::File;
use std::io::{self, ErrorKind, Read, Seek, SeekFrom};
use std::rt::Files;

/// How much of a log is read, from its end, in bytes.
const MOST_OF_LOG: u64 = 1 << 26;

/// The end of a regular file, which is opened by nobody who would have to wait.
fn end_of<R: Files<File = File> + AllocGlobal>(rt: &R, path: &str) -> io::Result<Vec<u8>> {
    require_regular(rt, path)?;
    let mut file = File::open(rt, path)?;
    let size = file.metadata()?.len();
    file.seek(SeekFrom::Start(size.saturating_sub(MOST_OF_LOG)))?;
    let mut bytes = Vec::new(rt.alloc());
    file.take(MOST_OF_LOG).read_to_end(&mut bytes)?;
    Ok(bytes)
}

/// The bytes of the log of a DAG file, of one that is long its end; none where the system has none to give.
///
/// # Errors
/// `Memory` alone.
pub fn log_of<R: Files<File = File> + AllocGlobal>(
    rt: &R,
    place: &Place<'_>,
) -> Result<Vec<u8>, RunFault>
    ensures { IfErr result (λ fault. fault ≡ Memory) }
{
    let alloc = rt.alloc();
    let path = Text::joined(alloc, place.top, ".log")?;
    let path = place.at(alloc, path.as_str())?;
    match end_of(rt, path.as_str()) {
        Ok(bytes) => Ok(bytes),
        Err(error) if error.kind() == ErrorKind::OutOfMemory => Err(RunFault::Memory),
        Err(_) => Ok(Vec::new(alloc)),
    }
}

/// Sees to it that the log of a DAG file was put there by nobody else, where others may write into its folder.
///
/// # Errors
/// `FileRefused` with the path of a log that may be another user's; `Memory`.
pub fn has_own_log<R: Files + AllocGlobal>(
    rt: &R,
    place: &Place<'_>,
    trust_owner: bool,
) -> Result<(), RunFault>
    ensures named { IfErr result (IsRefusalOf (place.now.top.now ++ codes ".log")) }
{
    let path = Text::joined(rt.alloc(), place.top, ".log")?;
    place.trusts(rt, path.as_str(), trust_owner)
}

/// What is reported of nodes as JSON.
fn why_json<R: Files<File = File> + AllocGlobal>(
    rt: &R,
    core: &Core<'_>,
    place: &Surroundings<'_>,
    names: &[&str],
) -> Result<Why, AllocError>
    ensures all { length names.now ≡ 0 → IfOk result (IsWhyOfAllIn WhyForm.Json core.now.plan core.now.past place.now.top.now) }
    ensures named { length names.now ≢ 0 →
        IfOk result (IsWhyOfNamedIn WhyForm.Json core.now.plan core.now.past place.now.top.now (map (λ n. n.now) names.now)) }
{
    match why_found(rt, core, place, names)? {
        Found::Nodes(nodes) => Ok(Why::Reported(nodes_json(rt.alloc(), core, place.top, &nodes)?)),
        Found::Unknown(line) => Ok(Why::Unknown(line)),
    }
}

/// What is reported of nodes in a form.
fn why_in<R: Files<File = File> + AllocGlobal>(
    rt: &R,
    core: &Core<'_>,
    place: &Surroundings<'_>,
    names: &[&str],
    form: WhyForm,
) -> Result<Why, AllocError>
    ensures all { length names.now ≡ 0 → IfOk result (IsWhyOfAllIn form core.now.plan core.now.past place.now.top.now) }
    ensures named { length names.now ≢ 0 →
        IfOk result (IsWhyOfNamedIn form core.now.plan core.now.past place.now.top.now (map (λ n. n.now) names.now)) }
{
    match form {
        WhyForm::Text(grouping) => why_text(rt, core, place, names, grouping),
        WhyForm::Json => why_json(rt, core, place, names),
    }
}

/// What is answered of nodes of a run.
fn answer_of<R: Files<File = File> + AllocGlobal>(
    rt: &R,
    place: &Place<'_>,
    core: &Core<'_>,
    names: &[&str],
    form: WhyForm,
) -> Result<Answer, RunFault>
    ensures answered { IfOk result (λ answer. IsAnswerOf form core.now.plan core.now.past place.now.top.now (map (λ n. n.now) names.now)
        (string_bytes answer.text) (string_bytes answer.warnings) answer.status) }
    ensures refused { IfErr result (λ fault. fault ≡ Memory) }
{
    let alloc = rt.alloc();
    let log = log_of(rt, place)?;
    let surroundings = Surroundings {
        top: place.top,
        folder: place.folder,
        log: &log,
    };
    match why_in(rt, core, &surroundings, names, form)? {
        Why::Reported(text) => Ok(Answer {
            text,
            warnings: warning_text(alloc, core.plan().graph().flat().warnings())?,
            status: 0,
        }),
        Why::Unknown(warnings) => Ok(Answer {
            text: String::new(alloc),
            warnings,
            status: REFUSED,
        }),
    }
}

/// Why nodes of a DAG file are in error, and for whom others wait: by the files and the journal of this folder, and by
/// the log and the files of jobs that the system has at its place. Of the nodes of these names in their order; where
/// there is no name, of all that are in error, those first for which most nodes wait, and of as many in
/// plan order; as a text, those with one cause once or each by itself, or as JSON, each by itself.
///
/// A name that is none of a node is answered by a warning, with no text and with status 125.
///
/// # Errors
/// As `answer_here` for the status: in this order a journal that the system refuses to read, a number of a
/// rescue file above 999 in its header, a rescue file that the system refuses to read; then a log that may be another
/// user's (`FileRefused`, as `Place::trusts` tells it); then those of `answer_here` for the status, a fault in a line of the rescue file
/// with its path. Lack of memory may come before any.
pub fn why_here<R: Files<File = File> + AllocGlobal, F: Folder>(
    rt: &R,
    folder: &F,
    place: &Place<'_>,
    names: &[&str],
    trust_owner: bool,
    form: WhyForm,
) -> Result<Answer, RunFault>
    ensures answered { IfOk result (λ answer. IsWhy changing form place.now.top.now (map (λ n. n.now) names.now)
        (string_bytes answer.text) (string_bytes answer.warnings) answer.status) }
    // It is that of the files, the journal and the rescue file that the folder holds.
    ensures held { F.honest folder.now → IfOk result (λ answer.
        IsWhy (fixed (F.holds folder.now)) form place.now.top.now (map (λ n. n.now) names.now)
        (string_bytes answer.text) (string_bytes answer.warnings) answer.status) }
    ensures refused { IfErr result (IsNoWhy changing place.now.top.now) }
    // The refusal too is for what the folder holds.
    ensures refused_held { F.honest folder.now → IfErr result (IsNoWhy (fixed (F.holds folder.now)) place.now.top.now) }
{
    let alloc = rt.alloc();
    let round = last_round(alloc, folder, place.top)?;
    has_own_log(rt, place, trust_owner)?;
    let opened = round.open(alloc, folder, place.top)?;
    let core = opened.core(alloc)?;
    answer_of(rt, place, &core, names, form)
}
