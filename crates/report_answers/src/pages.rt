//! The page of a run.

ghost use Rattle.std.specs.Prelude.{◌≡◌, ◌&&◌, not, IfOk, string_bytes};
ghost use Rattle.sched_core.specs.Run.{is_over};
ghost use Rattle.dag_main_check.specs.Warnings.{warning_lines};
ghost use Rattle.failure_report.specs.declared.why.Grouping.TheVariants.{ByCause};
ghost use Rattle.failure_report.specs.Grouped.{HasAllBy};
ghost use Rattle.hex.specs.Hex.{encode_lower};
ghost use Rattle.report_answers.specs.Answered.{confirmed_by, IsPageAnswer};

use crate::bars::{bars_of, length_of};
use crate::jobs::{first_time, seen_in};
use crate::limits::rows_of_limits;
use crate::rows::{round_of, rows_of};
use dag_main_check::{Answer, warning_text};
use dag_main_files::Place;
use failure_report::{Grouping, Surroundings, Why, why_text};
use report_page::{Page, page_text};
use run_times::{limits_in, runs_in};
use sched_core::Core;
use std::alloc::{AllocError, Global};
use std::fs::File;
use std::rt::Files;

/// What is wanted of a page.
#[derive(Clone, Copy)]
pub struct Wanted<'a> {
    /// The version of the program, which the page names.
    pub version: &'a str,
    /// Whether it loads itself anew while its round has not ended.
    pub reloads: bool,
}

/// What `why` reports of all nodes in error of a run, of which this is the log.
fn failures_of<R: Files<File = File> + AllocGlobal>(
    rt: &R,
    core: &Core<'_>,
    place: &Place<'_>,
    log: &[u8],
) -> Result<String, AllocError>
    ensures { IfOk result (λ text. HasAllBy ByCause core.now.plan core.now.past (string_bytes text)) }
{
    let surroundings = Surroundings {
        top: place.top,
        folder: place.folder,
        log,
    };
    match why_text(rt, core, &surroundings, &[], Grouping::ByCause)? {
        Why::Reported(text) => Ok(text),
        // This comes where a name is unknown, and none is given.
        Why::Unknown(line) => Ok(line),
    }
}

/// The warnings of the files of a run.
fn warnings_of(alloc: Global, core: &Core<'_>) -> Result<String, AllocError>
    ensures { IfOk result (λ text. string_bytes text ≡ warning_lines core.now.plan.graph.dag.warnings) }
{
    warning_text(alloc, core.plan().graph().flat().warnings())
}

/// Whether a page loads itself anew, where that is wanted.
fn loads_anew(core: &Core<'_>, wanted: bool) -> bool
    ensures { result ≡ (wanted && not (is_over core.now.past)) }
{
    wanted && !core.is_over()
}

/// Whether `audit` confirms a run that is over.
fn confirmed_by(core: &Core<'_>) -> Option<bool>
    ensures { result ≡ confirmed_by core.now.plan core.now.past }
{
    if core.is_over() {
        Some(!core.aborted())
    } else {
        None
    }
}

/// The digest of the files of a run, in hexadecimal digits.
fn digest_of(alloc: Global, core: &Core<'_>) -> Result<String, AllocError>
    ensures { IfOk result (λ text. string_bytes text ≡ encode_lower core.now.plan.digest) }
{
    hex::encode(alloc, *core.plan().digest())
}

/// The page of a run, of which this is the log.
///
/// # Errors
/// Lack of memory, and nothing else.
pub(crate) fn page_of<R: Files<File = File> + AllocGlobal>(
    rt: &R,
    place: &Place<'_>,
    core: &Core<'_>,
    log: &[u8],
    begun: bool,
    wanted: &Wanted<'_>,
) -> Result<Answer, AllocError>
    ensures { IfOk result (λ answer. IsPageAnswer core.now.plan core.now.past place.now.top.now wanted.now.version.now begun wanted.now.reloads
        (string_bytes answer.text) (string_bytes answer.warnings) answer.status) }
{
    let alloc = rt.alloc();
    let runs = runs_in(alloc, log)?;
    let seen = seen_in(alloc, log, &runs)?;
    let rows = rows_of(alloc, core, &seen)?;
    let phases = bars_of(alloc, &runs)?;
    let graph = core.plan().graph();
    let limits = rows_of_limits(alloc, graph, &runs, &limits_in(alloc, graph, log)?)?;
    let why = failures_of(rt, core, place, log)?;
    let warnings = warnings_of(alloc, core)?;
    let digest = digest_of(alloc, core)?;
    let text = page_text(
        alloc,
        &Page {
            path: place.top,
            version: wanted.version,
            round: round_of(core, begun, place.is_at_work(rt)),
            began: first_time(log),
            took: length_of(&runs),
            warnings: warnings.as_str(),
            rows: rows.as_slice(),
            phases: phases.as_slice(),
            limits: limits.as_slice(),
            why: why.as_str(),
            digest: digest.as_str(),
            confirmed: confirmed_by(core),
            reloads: loads_anew(core, wanted.reloads),
        },
    )?;
    Ok(Answer {
        text,
        warnings,
        status: 0,
    })
}
