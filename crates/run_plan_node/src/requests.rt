//! What a job asks of a cluster.

ghost use Rattle.std.specs.Prelude.{◌≡◌, ◌≢◌, ◌∷◌, ◌++◌, [], IfOk, IfErr, OnOk};
ghost use Rattle.vars_macros.specs.Expansion.{expansion};
ghost use Rattle.vars_macros.specs.Meaning.{scope_of};
ghost use Rattle.vars_macros.specs.declared.fault.MacroFault.TheVariants as macro;
ghost use Rattle.run_plan_node.specs.Requests.{expanded_or, request, requests_in, requests_of_job};

use crate::job::expanded;
use crate::launch_spec::{Job, Source};
use dag_reader::{Text, Texts};
use std::alloc::{AllocError, Global};
use vars_macros::{Attempt, Macro, MacroFault, Macros};

/// A text whose expansion has this fault, as it is written.
fn as_written(alloc: Global, fault: MacroFault, written: &Text) -> Result<Text, AllocError>
    ensures { IfOk result (λ text. (text ≡ written.now) × (fault ≢ macro.Memory)) }
{
    match fault {
        MacroFault::Memory => Err(AllocError),
        MacroFault::Unclosed
        | MacroFault::Loop
        | MacroFault::TooLong
        | MacroFault::BadQuote
        | MacroFault::BadReference => Text::new(alloc, written.as_str()),
    }
}

/// What is assigned to a name, expanded; as it is written where it can't be, or where it holds the launch number, which is not known
/// before the launch.
fn expanded_or_written(
    alloc: Global,
    macros: &Macros,
    attempt: Attempt,
    found: &Macro,
) -> Result<Text, AllocError>
    ensures { IfOk result (λ text. text ≡ expanded_or found.now.value (expansion (scope_of macros.now attempt) found.now.vars found.now.value)) }
{
    match expanded(alloc, macros, attempt, found) {
        Ok(value) => {
            if value.whole_run {
                Text::new(alloc, found.value.as_str())
            } else {
                Ok(value.text)
            }
        }
        Err(fault) => as_written(alloc, fault, &found.value),
    }
}

/// What the job asks for under this name; an empty text where it doesn't say.
fn request(alloc: Global, macros: &Macros, attempt: Attempt, name: &str) -> Result<Text, AllocError>
    ensures { IfOk result (λ text. text ≡ request (scope_of macros.now attempt) name.now) }
{
    match macros.last(alloc, name) {
        Ok(Some(found)) => expanded_or_written(alloc, macros, attempt, found),
        Ok(None) => Text::new(alloc, ""),
        Err(_) => Err(AllocError),
    }
}

/// Adds the setting of a variable, which is given with its equals sign: what the job asks for under this name.
fn push_request(
    alloc: Global,
    macros: &Macros,
    attempt: Attempt,
    settings: &mut Texts,
    variable: &str,
    name: &str,
) -> Result<(), AllocError>
    ensures { OnOk result (settings.new ≡ settings.old ++ (variable.now ++ request (scope_of macros.now attempt) name.now) ∷ []) }
{
    let value = request(alloc, macros, attempt, name)?;
    settings.push(Text::joined(alloc, variable, value.as_str())?)
}

/// What is asked for under each of the four names.
#[tactic(auto, unfolding(crate::specs::Requests::requests_in))]
fn requests_in(alloc: Global, macros: &Macros, attempt: Attempt) -> Result<Texts, AllocError>
    ensures { IfOk result (λ settings. settings ≡ requests_in (scope_of macros.now attempt)) }
{
    let mut settings = Texts::new(alloc);
    let all = &mut settings;
    push_request(
        alloc,
        macros,
        attempt,
        all,
        "DAGRUN_REQUEST_CPUS=",
        "request_cpus",
    )?;
    push_request(
        alloc,
        macros,
        attempt,
        all,
        "DAGRUN_REQUEST_MEMORY=",
        "request_memory",
    )?;
    push_request(
        alloc,
        macros,
        attempt,
        all,
        "DAGRUN_REQUEST_DISK=",
        "request_disk",
    )?;
    push_request(
        alloc,
        macros,
        attempt,
        all,
        "DAGRUN_REQUEST_GPUS=",
        "request_gpus",
    )?;
    Ok(settings)
}

/// What a job asks for in an attempt.
pub(crate) fn requests_of_job(alloc: Global, job: &Job, attempt: u32) -> Result<Texts, AllocError>
    ensures { IfOk result (λ settings. settings ≡ requests_of_job job.now attempt) }
{
    match &job.source {
        Source::Program(_) => Ok(Texts::new(alloc)),
        Source::Described(macros) => {
            let attempt = Attempt {
                retry: attempt,
                launch: 0,
            };
            requests_in(alloc, macros, attempt)
        }
    }
}
