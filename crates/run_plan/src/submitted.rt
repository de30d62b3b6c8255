//! What the jobs of nodes are started by, read from their submit files.

ghost use Rattle.std.specs.Prelude.{◌≡◌, ◌≢◌, ◌⊎◌, ◌++◌, IfOk, IfErr, OnOk, map, filter};
ghost use Rattle.std.specs.Option.{option_map};
ghost use Rattle.splices_flat.specs.FileSet.{bytes_of};
ghost use Rattle.vars_macros.specs.Meaning.{scope_of};
ghost use Rattle.vars_macros.specs.declared.fault.MacroFault.TheVariants as macro;
ghost use Rattle.submit_file.specs.declared.fault.SubmitFault.TheVariants as submit;
ghost use Rattle.run_plan.specs.declared.fault.PlanFault.TheVariants.{InSubmit, Memory};
ghost use Rattle.run_plan_node.specs.Commands.{checked};
ghost use Rattle.run_plan.specs.Submitted.{job_at, described_by, submit_at, assigned_to, fault_in_job, macro_of_setting, macro_of_assignment, has_placement, last_attempt};
ghost use Rattle.run_plan.specs.PlanAnswers.{Gives, IsFault};
ghost use Rattle.run_plan_node.specs.JobAnswers as answers;

use crate::fault::PlanFault;
use dag_reader::{Placement, Text};
use run_plan_node::{Job, JobFault, Source, check_universe, job_command, retries_of};
use splices_flat::{FileSet, FlatNode, MacroSetting};
use std::alloc::Global;
use submit_file::{Assignment, Submit, SubmitFault, read_submit};
use vars_macros::{Attempt, MacroFault, Macros};

/// The job of a node: as its submit file and its macros describe it, or, for a NOOP and where there
/// are no files, the path of its submit file.
#[tactic(auto, unfolding(crate::specs::Submitted::job_at))]
pub(crate) fn job_at(
    alloc: Global,
    files: Option<&FileSet>,
    node: &FlatNode,
) -> Result<Job, PlanFault>
    ensures { Gives (λ job. job) result (job_at (option_map (λ set. bytes_of set.now) files.entry) node.now) }
{
    match files {
        Some(files) if !node.noop => described(alloc, files, node),
        _ => Ok(Job {
            source: Source::Program(Text::new(alloc, node.file.as_str())?),
        }),
    }
}

fn described(alloc: Global, files: &FileSet, node: &FlatNode) -> Result<Job, PlanFault>
    ensures { Gives (λ job. job) result (described_by (bytes_of files.now) node.now) }
{
    let submit = submit_at(alloc, files, node.file.as_str())?;
    let Ok(macros) = macros_of(alloc, node, &submit) else {
        return Err(PlanFault::Memory);
    };
    match checked(alloc, node, &macros) {
        Ok(()) => Ok(Job {
            source: Source::Described(macros),
        }),
        Err(fault) => Err(fault_in(alloc, node.name.as_str(), fault)),
    }
}

fn submit_at(alloc: Global, files: &FileSet, path: &str) -> Result<Submit, PlanFault>
    ensures { Gives (λ s. s.assigned.items) result (submit_at path.now (bytes_of files.now path.now)) }
{
    let Some(bytes) = files.get(path) else {
        return Err(PlanFault::MissingFile(Text::new(alloc, path)?));
    };
    match read_submit(alloc, bytes) {
        Ok(submit) => Ok(submit),
        Err(fault) => Err(in_submit(alloc, path, fault)),
    }
}

/// A fault of a submit file, with its path.
fn in_submit(alloc: Global, path: &str, fault: SubmitFault) -> PlanFault
    ensures { (result ≡ Memory) ⊎ ((fault ≢ submit.Memory) × (result ≡ InSubmit path.now fault)) }
{
    let Ok(path) = Text::new(alloc, path) else {
        return PlanFault::Memory;
    };
    match fault {
        SubmitFault::Memory => PlanFault::Memory,
        SubmitFault::NotText => PlanFault::InSubmit(path, SubmitFault::NotText),
        SubmitFault::NoQueue => PlanFault::InSubmit(path, SubmitFault::NoQueue),
        SubmitFault::InLine(line, fault) => {
            PlanFault::InSubmit(path, SubmitFault::InLine(line, fault))
        }
    }
}

/// What is assigned to the names of a job, in the order in which it counts.
fn macros_of(alloc: Global, node: &FlatNode, submit: &Submit) -> Result<Macros, MacroFault>
    ensures ok { IfOk result (λ m. (m.job ≡ node.now.name)
        × (m.assigned ≡ assigned_to node.now.settings.macros submit.now.assigned.items)) }
    ensures err { IfErr result (λ fault. fault ≡ macro.Memory) }
{
    let mut macros = Macros::new(alloc, node.name.as_str())?;
    let settings = node.settings.macros.as_slice();
    assign_settings(alloc, settings, Placement::Prepend, &mut macros)?;
    assign_submitted(alloc, submit.assignments(), &mut macros)?;
    assign_settings(alloc, settings, Placement::Append, &mut macros)?;
    Ok(macros)
}

fn assign_settings(
    alloc: Global,
    settings: &[MacroSetting],
    placement: Placement,
    macros: &mut Macros,
) -> Result<(), MacroFault>
    ensures ok { OnOk result (macros.new.assigned ≡ macros.old.assigned
        ++ map macro_of_setting (filter (has_placement placement) settings.now)) }
    ensures job { macros.new.job ≡ macros.old.job }
    ensures err { IfErr result (λ fault. fault ≡ macro.Memory) }
{
    for one in settings {
        if one.placement == placement {
            macros.assign(alloc, one.name.as_str(), one.text.as_str(), true)?;
        }
    }
    Ok(())
}

fn assign_submitted(
    alloc: Global,
    assignments: &[Assignment],
    macros: &mut Macros,
) -> Result<(), MacroFault>
    ensures ok { OnOk result (macros.new.assigned ≡ macros.old.assigned ++ map macro_of_assignment assignments.now) }
    ensures job { macros.new.job ≡ macros.old.job }
    ensures err { IfErr result (λ fault. fault ≡ macro.Memory) }
{
    for one in assignments {
        macros.assign(alloc, one.name.as_str(), one.value.as_str(), false)?;
    }
    Ok(())
}

/// Refuses a job whose texts can't be expanded in its last attempt.
fn checked(alloc: Global, node: &FlatNode, macros: &Macros) -> Result<(), JobFault>
    ensures { answers.Gives (λ u. u) result (checked node.now.folder (scope_of macros.now (last_attempt node.now))) }
{
    let attempt = Attempt {
        retry: retries_of(&node.settings.retry),
        launch: u64::MAX,
    };
    check_universe(alloc, macros, attempt)?;
    job_command(alloc, node.folder.as_str(), macros, attempt)?;
    Ok(())
}

/// A fault of a job, with the name of its node.
pub(crate) fn fault_in(alloc: Global, name: &str, fault: JobFault) -> PlanFault
    ensures { IsFault result (fault_in_job name.now fault) }
{
    let Ok(name) = Text::new(alloc, name) else {
        return PlanFault::Memory;
    };
    match fault {
        JobFault::Memory => PlanFault::Memory,
        JobFault::InMacro(fault) => PlanFault::InMacro(name, fault),
        JobFault::NoExecutable => PlanFault::NoExecutable(name),
        JobFault::BadUniverse => PlanFault::BadUniverse(name),
    }
}
