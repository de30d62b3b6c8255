//! A run with children of the operating system.

ghost use Rattle.std.specs.Prelude.{◌≡◌, ◌≤◌, ◌++◌, List, true, IfOk, IfErr, option_map, string_bytes};
ghost use Rattle.splices_flat.specs.FileSet.{bytes_of, entries_of};
ghost use Rattle.event_journal_log.specs.Image.{IsRescueNumber};
ghost use Rattle.dag_main_check.specs.Planned.{IsPlanBy};
ghost use Rattle.dag_main_files.specs.Beside.{IsRoundBy, IsRescueOf, HasJournal};
ghost use Rattle.dag_main_files.specs.Folder.{IsReadFrom, IsRoundFrom, journal_in, rescue_in};
ghost use Rattle.dag_main_check.specs.Warnings.{warning_lines};
ghost use Rattle.dag_main_files.specs.Changes.{FileChange};
ghost use Rattle.dag_main_run.specs.RunChanges.{leads, IsLook, AreLooks, ChangesAsRound, found_where, IsPlannedRound, ChangesOnceLocked, ChangesAsRun};
ghost use Rattle.dag_main_run.specs.Sites.{start_by, journal_found, rounds_at, halt_name, manager_refusal, IsHaltBy, IsReturned, IsRoundLedAt, IsRoundStoppedAt};
ghost use Rattle.job_starter_drive.specs.declared.driving.DriveFault.TheVariants.{Halted};
ghost use Rattle.dag_main_run.specs.Runs.{IsFoundRound, IsPlannedRun, any_round, held_round, IsRunWhere, IsRunOf, IsRunFrom, IsFindingFault, IsFindingFaultHeld, IsLockedFault, IsFirstRunFault, IsRoundPlanFault, IsStopFault, IsHeldFault, IsRunFaultWhere, IsRunFault, IsRunFaultFrom};

use crate::beginning::{Inputs, has_own_files, keep_inputs, life_of, watcher_of};
use crate::halting::{HaltCause, HaltWatcher, halted};
use crate::launching::launcher_of;
use crate::progress::{RoundWatcher, progress_of};
use crate::rounds::{Known, identified, orphans_found, settled};
use crate::site::Site;
use crate::status_file::status_watcher;
use child_watcher::{ChildWatcher, RoundIdentity};
use dag_graph::Graph;
use dag_main_args::RunOptions;
use dag_main_check::{Answer, RunFault, graph_of, plan_by, warning_text};
use dag_main_files::{
    Changes, Folder, Journaled, Lock, Place, Reading, Round, files_of, named, read_missing,
    rescue_of, rescue_path, round_of,
};
use job_starter_drive::DriveFault;
use job_starter_local::Launcher;
use node_machine::Verdict;
use recovery_manager::ManagerFault;
use run_log::RunWatcher;
use run_plan::Plan;
use run_progress::Screen;
use run_round::Start;
use splices_flat::FileSet;
use std::alloc::Global;
use std::fs::File;
use std::process::Processes;
use std::rt::Files;
use std::time::Clock;
use throttles::Limits;

/// Why a round is stopped, and what the system said, where it refused a call of a disk.
#[derive(Drop)]
struct Stop {
    cause: DriveFault,
    reason: Option<String>,
}

/// What a run prints, and its exit status.
#[derive(Drop)]
struct Report {
    text: String,
    status: Verdict,
}

/// Why the command is refused whose manager refused.
fn in_manager(fault: ManagerFault) -> RunFault
    ensures { result ≡ manager_refusal fault }
{
    match fault {
        ManagerFault::Memory => RunFault::Memory,
        fault => RunFault::InManager(fault),
    }
}

/// Why the command is refused whose round was stopped; where it was halted, by what asked for that.
fn in_run(alloc: Global, top: &str, cause: DriveFault, halt: HaltCause) -> RunFault
    ensures returned { IsReturned top.now cause result }
    ensures halted { cause ≡ Halted → IsHaltBy (halt_name top.now halt) result }
{
    match cause {
        DriveFault::Memory => RunFault::Memory,
        DriveFault::Manager(fault) => in_manager(fault),
        DriveFault::StartMemory => RunFault::StartMemory,
        DriveFault::WaitFault => RunFault::WaitFault,
        DriveFault::Halted => halted(alloc, top, halt),
    }
}

/// The plan of a round, with the bytes of its rescue file.
fn plan_of_round(
    alloc: Global,
    place: &Place<'_>,
    files: &FileSet,
    graph: Graph,
    round: &Round,
    rescue: Option<&[u8]>,
) -> Result<Plan, RunFault>
    requires used { round.now.used ≤ 999 }
    requires rescue { IsRescueOf round.now (option_map (λ b. b.now) rescue) }
    ensures plan { IfOk result (IsPlannedRun (bytes_of files.now) files.now graph round.now) }
    ensures by_rescue { IfOk result (IsPlanBy round.now.always_post (bytes_of files.now) (entries_of files.now)
        (option_map (λ b. b.now) rescue.entry) graph) }
    ensures refused { IfErr result (IsRoundPlanFault (bytes_of files.now) files.now place.now.top.now graph round.now (option_map (λ b. b.now) rescue.entry)) }
{
    if round.used == 0 {
        return plan_by(alloc, graph, files, rescue, round.always_post);
    }
    let path = rescue_path(alloc, place.top, round.used)?;
    match plan_by(alloc, graph, files, rescue, round.always_post) {
        Ok(plan) => Ok(plan),
        Err(fault) => Err(named(fault, Some(path))),
    }
}

/// How the manager of this round begins.
fn start_of(round: &Round) -> Start
    ensures { result ≡ start_by round.now }
{
    match round.journal {
        Journaled::Nothing | Journaled::Finished => Start::Begin {
            used: round.used,
            next: round.next,
        },
        Journaled::Unfinished => Start::GoOn,
    }
}

/// Leads a round of a plan to its end on these disks, with children of the site, which inherit this identity and of which the
/// watcher is informed, and answers what it prints.
fn led_by<H: Site, W: ChildWatcher + Drop>(
    site: &H,
    top: &str,
    plan: &Plan,
    round: &Round,
    limits: Limits,
    launcher: &Launcher,
    identity: RoundIdentity<'_>,
    disks: (H::Journal, H::Rescue),
    watcher: W,
    changes: &mut Changes,
) -> Result<Report, Stop>
    // The disks are those of the site: that of the journal reads as the folder holds it.
    requires journal { (H.own site.now).is_journal top.now disks.0 }
    requires rescue { (H.own site.now).is_rescue top.now round.now.next disks.1 }
    requires honest { H.honest site.now → H.Journal.honest disks.0 × H.Rescue.honest disks.1 }
    requires found { H.honest site.now → H.Journal.seen disks.0 ≡ journal_found (H.holds site.now) top.now round.now }
    requires back { H.Journal.honest disks.0 → H.honest site.now }
    requires by_journal { H.honest site.now → HasJournal (journal_in (H.holds site.now) top.now) round.now }
    ensures led { IfOk result (λ report. IsRoundLedAt H.Journal.Disk H.Rescue.Disk (H.own site.now) (H.honest site.now) (H.holds site.now)
        top.now limits launcher.now plan.now round.now (string_bytes report.text) report.status) }
    ensures refused { IfErr result (λ stop. (fault : RunFault) → IsReturned top.now stop.cause fault →
        IsRoundStoppedAt H.Journal.Disk H.Rescue.Disk (H.own site.now) (H.honest site.now) (H.holds site.now) top.now limits launcher.now plan.now round.now fault) }
    ensures changes { changes.new ≡ changes.old ++ leads }
{
    let (journal, rescue) = disks;
    let start = start_of(round);
    match site.lead(
        plan, start, limits, launcher, identity, journal, rescue, watcher, changes,
    ) {
        Ok((_journal, led)) => Ok(Report {
            text: led.text,
            status: led.status,
        }),
        Err((journal, (rescue, cause))) => Err(Stop {
            cause,
            reason: site.reason(&journal, &rescue),
        }),
    }
}

/// Logs that a round is stopped by this fault, and why. Where the log can't be written, as on a full disk, the reason is shown where it is
/// shown how far the run is.
fn log_stop<R: Processes + Files<File = File> + Clock + Screen + AllocGlobal + Copy + Drop>(
    rt: R,
    watcher: &mut RoundWatcher<'_, R>,
    fault: &RunFault,
    reason: &Option<String>,
) {
    let is_logged = match format!(in rt.alloc(); "{fault}") {
        Ok(line) => watcher.log.stops(line.as_str(), reason.as_deref()),
        Err(_) => false,
    };
    if let (false, Some(reason)) = (is_logged, reason.as_deref()) {
        watcher.progress.stops(reason);
    }
}

/// Forgets the processes of a manager, unless some are left, or the folder is another one by now; and nothing of another manager's.
fn forget_children<R: Files<File = File> + Clock + AllocGlobal + Copy + Drop>(
    rt: R,
    place: &Place<'_>,
    log: &RunWatcher<'_, R>,
    known: &Known,
    has_ended: bool,
) {
    if !known.some_left && !log.has_let_go() && known.is_in_place(&rt, place) {
        known.forget(&rt, place, has_ended);
    }
}

/// Leads a round of a plan to its end on these disks, while the watcher learns of it, and answers what it prints.
fn led_watched<
    R: Processes + Files<File = File> + Clock + Screen + AllocGlobal + Copy + Drop,
    H: Site,
>(
    rt: R,
    site: &H,
    place: &Place<'_>,
    plan: &Plan,
    round: &Round,
    limits: Limits,
    launcher: &Launcher,
    known: &Known,
    disks: (H::Journal, H::Rescue),
    watcher: RoundWatcher<'_, R>,
    changes: &mut Changes,
) -> Result<Report, RunFault>
    requires journal { (H.own site.now).is_journal place.now.top.now disks.0 }
    requires rescue { (H.own site.now).is_rescue place.now.top.now round.now.next disks.1 }
    requires honest { H.honest site.now → H.Journal.honest disks.0 × H.Rescue.honest disks.1 }
    requires found { H.honest site.now → H.Journal.seen disks.0 ≡ journal_found (H.holds site.now) place.now.top.now round.now }
    requires back { H.Journal.honest disks.0 → H.honest site.now }
    requires by_journal { H.honest site.now → HasJournal (journal_in (H.holds site.now) place.now.top.now) round.now }
    ensures led { IfOk result (λ report. IsRoundLedAt H.Journal.Disk H.Rescue.Disk (H.own site.now) (H.honest site.now) (H.holds site.now)
        place.now.top.now limits launcher.now plan.now round.now (string_bytes report.text) report.status) }
    ensures refused { IfErr result (IsRoundStoppedAt H.Journal.Disk H.Rescue.Disk (H.own site.now) (H.honest site.now) (H.holds site.now)
        place.now.top.now limits launcher.now plan.now round.now) }
    ensures changes { changes.new ≡ changes.old ++ leads }
{
    let mut watcher = watcher;
    let led = led_by(
        site,
        place.top,
        plan,
        round,
        limits,
        launcher,
        known.identity(),
        disks,
        &mut watcher,
        changes,
    );
    watcher.progress.ends();
    watcher.status.ends();
    match led {
        Ok(report) => {
            watcher.log.finishes(report.text.as_str(), report.status);
            forget_children(rt, place, &watcher.log, known, true);
            Ok(report)
        }
        Err(stop) => {
            let fault = in_run(rt.alloc(), place.top, stop.cause, watcher.halt.cause);
            log_stop(rt, &mut watcher, &fault, &stop.reason);
            forget_children(rt, place, &watcher.log, known, false);
            Err(fault)
        }
    }
}

/// Leads a round of a plan to its end on these disks, once no process of an earlier manager is in its
/// way, and answers what it prints. What a new round begins with is kept first.
fn run_on<R: Processes + Files<File = File> + Clock + Screen + AllocGlobal + Copy + Drop, H: Site>(
    rt: R,
    site: &H,
    place: &Place<'_>,
    plan: &Plan,
    round: &Round,
    options: &RunOptions,
    launcher: &Launcher,
    inputs: Inputs<'_>,
    disks: (H::Journal, H::Rescue),
    lock: &mut Lock,
    changes: &mut Changes,
) -> Result<Report, RunFault>
    requires journal { (H.own site.now).is_journal place.now.top.now disks.0 }
    requires rescue { (H.own site.now).is_rescue place.now.top.now round.now.next disks.1 }
    requires honest { H.honest site.now → H.Rescue.honest disks.1 }
    requires by_journal { H.honest site.now → HasJournal (journal_in (H.holds site.now) place.now.top.now) round.now }
    ensures led { IfOk result (λ report. IsRoundLedAt H.Journal.Disk H.Rescue.Disk (H.own site.now) (H.honest site.now) (H.holds site.now)
        place.now.top.now options.now.limits launcher.now plan.now round.now (string_bytes report.text) report.status) }
    ensures refused { IfErr result (IsStopFault place.now.top.now options.now round.now (H.own site.now).is_deaf (IsRoundStoppedAt H.Journal.Disk H.Rescue.Disk (H.own site.now) (H.honest site.now)
        (H.holds site.now) place.now.top.now options.now.limits launcher.now plan.now round.now)) }
    ensures changes { ChangesAsRound result (IsRoundStoppedAt H.Journal.Disk H.Rescue.Disk (H.own site.now) (H.honest site.now) (H.holds site.now)
        place.now.top.now options.now.limits launcher.now plan.now round.now) place.now.top.now plan.now.digest (entries_of inputs.entry.files.now)
        (option_map (λ b. b.now) inputs.entry.rescue) round.now changes.old changes.new }
{
    if site.is_deaf() {
        return Err(RunFault::WaitFault);
    }
    let orphans = orphans_found(&rt, place)?;
    let status = status_watcher(rt, place, plan, options)?;
    let (journal, rescue) = disks;
    let journal = site.readied(place.top, journal, round, lock, changes)?;
    let mut halt = HaltWatcher::new(rt, place, plan, round, options)?;
    let rule = halt.rule_for(options.orphans);
    let kept = settled(&rt, place, plan, round, options, rule, orphans, changes)?;
    let left_out = keep_inputs(rt, place, plan, round, inputs, changes)?;
    let mut log = watcher_of(rt, place, plan, round, options)?;
    let is_launched = !options.launcher.as_slice().is_empty();
    let known = identified(rt, place, round, kept, is_launched, &mut log)?;
    log.begins(&life_of(place, round, options, left_out));
    log.notes_left(known.notes.as_str());
    let watcher = RoundWatcher {
        log,
        progress: progress_of(rt, place, plan, round, options),
        halt,
        status,
    };
    led_watched(
        rt,
        site,
        place,
        plan,
        round,
        options.limits,
        launcher,
        &known,
        (journal, rescue),
        watcher,
        changes,
    )
}

/// Runs a round of a plan on the disks of the site beside the DAG file, and answers what it prints.
fn run_planned<
    R: Processes + Files<File = File> + Clock + Screen + AllocGlobal + Copy + Drop,
    H: Site,
>(
    rt: R,
    site: &H,
    place: &Place<'_>,
    plan: &Plan,
    round: &Round,
    options: &RunOptions,
    launcher: &Launcher,
    inputs: Inputs<'_>,
    lock: &mut Lock,
    changes: &mut Changes,
) -> Result<Report, RunFault>
    requires next { IsRescueNumber round.now.next }
    requires by_journal { H.honest site.now → HasJournal (journal_in (H.holds site.now) place.now.top.now) round.now }
    ensures led { IfOk result (λ report. IsRoundLedAt H.Journal.Disk H.Rescue.Disk (H.own site.now) (H.honest site.now) (H.holds site.now)
        place.now.top.now options.now.limits launcher.now plan.now round.now (string_bytes report.text) report.status) }
    ensures refused { IfErr result (IsStopFault place.now.top.now options.now round.now (H.own site.now).is_deaf (IsRoundStoppedAt H.Journal.Disk H.Rescue.Disk (H.own site.now) (H.honest site.now)
        (H.holds site.now) place.now.top.now options.now.limits launcher.now plan.now round.now)) }
    ensures changes { ChangesAsRound result (IsRoundStoppedAt H.Journal.Disk H.Rescue.Disk (H.own site.now) (H.honest site.now) (H.holds site.now)
        place.now.top.now options.now.limits launcher.now plan.now round.now) place.now.top.now plan.now.digest (entries_of inputs.entry.files.now)
        (option_map (λ b. b.now) inputs.entry.rescue) round.now changes.old changes.new }
{
    let rescue = site.rescue_disk(place.top, round.next)?;
    let journal = site.journal_disk(place.top)?;
    run_on(
        rt,
        site,
        place,
        plan,
        round,
        options,
        launcher,
        inputs,
        (journal, rescue),
        lock,
        changes,
    )
}

/// The round that this run of a DAG is, and the bytes of the rescue file that it reads.
///
/// # Errors
/// As `round_of`, and then as `rescue_of`.
fn round_with_rescue<R: Files<File = File> + AllocGlobal + Copy + Drop, F: Folder>(
    rt: R,
    folder: &F,
    place: &Place<'_>,
    options: &RunOptions,
) -> Result<(Round, Option<Vec<u8>>), RunFault>
    ensures found { IfOk result (λ found. IsFoundRound (F.honest folder.now) (F.holds folder.now) (F.has folder.now) place.now.top.now options.now
        found.0 (option_map (λ b. b.items) found.1)) }
    ensures refused { IfErr result (IsFindingFault place.now.top.now options.now) }
    ensures refused_held { F.honest folder.now → IfErr result (IsFindingFaultHeld (F.holds folder.now) (F.has folder.now) place.now.top.now options.now) }
{
    let round = round_of(
        rt.alloc(),
        folder,
        place.top,
        options.autorescue,
        options.dorescuefrom,
        options.always_post,
    )?;
    let rescue = rescue_of(&rt, folder, place, &round, options.trust_owner)?;
    Ok((round, rescue))
}

/// The round and the bytes of its rescue file as they are found first, before the lock is taken. A journal
/// that can't be read may be one that another manager writes just then: it is looked at again once that
/// one has stopped, or it is answered that one is at work.
///
/// # Errors
/// `FileRefused` with a file beside the DAG file that may be another user's, or that is no regular file;
/// then as `round_with_rescue`, but where the journal can't be read and a name beside the DAG file would be
/// too long, `FileRefused` with that name, or where another manager runs the DAG with the file that it has
/// locked.
fn first_look<R: Files<File = File> + Clock + AllocGlobal + Copy + Drop, F: Folder>(
    rt: R,
    folder: &F,
    place: &Place<'_>,
    options: &RunOptions,
    changes: &mut Changes,
) -> Result<(Round, Option<Vec<u8>>), RunFault>
    ensures found { IfOk result (λ found. IsFoundRound (F.honest folder.now) (F.holds folder.now) (F.has folder.now) place.now.top.now options.now
        found.0 (option_map (λ b. b.items) found.1)) }
    ensures refused { IfErr result (IsFirstRunFault place.now.top.now (IsFindingFault place.now.top.now options.now)) }
    ensures refused_held { F.honest folder.now → IfErr result (IsFirstRunFault place.now.top.now
        (IsFindingFaultHeld (F.holds folder.now) (F.has folder.now) place.now.top.now options.now)) }
    ensures changes { (look : List FileChange) × IsLook place.now.top.now look × (changes.new ≡ changes.old ++ look) }
{
    has_own_files(&rt, place, options.trust_owner)?;
    match round_with_rescue(rt, folder, place, options) {
        Err(RunFault::InManager(_journal)) => look_locked(rt, folder, place, options, changes),
        Ok(found) => Ok(found),
        Err(fault) => Err(fault),
    }
}

/// The same as it is found under the lock.
///
/// # Errors
/// `FileRefused` with a name beside the DAG file that would be too long, or with the lock, where it is
/// refused or another manager has it; then as `round_with_rescue`.
fn look_locked<R: Files<File = File> + Clock + AllocGlobal + Copy + Drop, F: Folder>(
    rt: R,
    folder: &F,
    place: &Place<'_>,
    options: &RunOptions,
    changes: &mut Changes,
) -> Result<(Round, Option<Vec<u8>>), RunFault>
    ensures found { IfOk result (λ found. IsFoundRound (F.honest folder.now) (F.holds folder.now) (F.has folder.now) place.now.top.now options.now
        found.0 (option_map (λ b. b.items) found.1)) }
    ensures refused { IfErr result (IsLockedFault place.now.top.now (IsFindingFault place.now.top.now options.now)) }
    ensures refused_held { F.honest folder.now → IfErr result (IsLockedFault place.now.top.now
        (IsFindingFaultHeld (F.holds folder.now) (F.has folder.now) place.now.top.now options.now)) }
    ensures changes { (look : List FileChange) × IsLook place.now.top.now look × (changes.new ≡ changes.old ++ look) }
{
    place.has_room_for_names(rt.alloc())?;
    let lock = place.lock(&rt, changes)?;
    let found = round_with_rescue(rt, folder, place, options);
    place.unlock(&rt, lock, changes);
    found
}

/// Whether the round and its rescue file are still those that were found before the lock was taken:
/// where they aren't, another manager was at work meanwhile.
fn is_same(found: &(Round, Option<Vec<u8>>), again: &(Round, Option<Vec<u8>>)) -> bool
    ensures round { result ≡ true → found.now.0 ≡ again.now.0 }
    ensures rescue { result ≡ true → option_map (λ b. b.items) found.now.1 ≡ option_map (λ b. b.items) again.now.1 }
{
    found.0 == again.0 && found.1.as_deref() == again.1.as_deref()
}

/// Runs the round that was found before the lock was taken, with the rescue file that it reads, where it is
/// still found, and answers what is printed.
fn run_locked<
    R: Processes + Files<File = File> + Clock + Screen + AllocGlobal + Copy + Drop,
    H: Site,
>(
    rt: R,
    site: &H,
    place: &Place<'_>,
    files: &FileSet,
    plan: &Plan,
    found: &(Round, Option<Vec<u8>>),
    options: &RunOptions,
    launcher: &Launcher,
    lock: &mut Lock,
    changes: &mut Changes,
) -> Result<Answer, RunFault>
    requires next { IsRescueNumber found.now.0.next }
    ensures led { IfOk result (λ answer. IsRoundLedAt H.Journal.Disk H.Rescue.Disk (H.own site.now) (H.honest site.now) (H.holds site.now)
        place.now.top.now options.now.limits launcher.now plan.now found.now.0 (string_bytes answer.text) answer.status) }
    ensures warnings { IfOk result (λ answer. string_bytes answer.warnings ≡ warning_lines plan.now.graph.dag.warnings) }
    ensures refused { IfErr result (IsHeldFault place.now.top.now options.now found.now.0 (IsFindingFault place.now.top.now options.now) (H.own site.now).is_deaf
        (IsRoundStoppedAt H.Journal.Disk H.Rescue.Disk (H.own site.now)
        (H.honest site.now) (H.holds site.now) place.now.top.now options.now.limits launcher.now plan.now found.now.0)) }
    ensures refused_held { H.honest site.now → IfErr result (IsHeldFault place.now.top.now options.now found.now.0
        (IsFindingFaultHeld (H.holds site.now) (H.has site.now) place.now.top.now options.now) (H.own site.now).is_deaf
        (IsRoundStoppedAt H.Journal.Disk H.Rescue.Disk (H.own site.now)
        (H.honest site.now) (H.holds site.now) place.now.top.now options.now.limits launcher.now plan.now found.now.0)) }
    ensures changes { ChangesAsRound result (IsRoundStoppedAt H.Journal.Disk H.Rescue.Disk (H.own site.now) (H.honest site.now) (H.holds site.now)
        place.now.top.now options.now.limits launcher.now plan.now found.now.0) place.now.top.now plan.now.digest (entries_of files.now)
        (option_map (λ b. b.items) found.now.1) found.now.0 changes.old changes.new }
{
    let alloc = rt.alloc();
    let (round, rescue) = found;
    let again = round_with_rescue(rt, site, place, options)?;
    if !is_same(found, &again) {
        return Err(place.taken(alloc));
    }
    let warnings = warning_text(alloc, plan.graph().flat().warnings())?;
    let inputs = Inputs {
        files,
        rescue: rescue.as_deref(),
    };
    let report = run_planned(
        rt, site, place, plan, round, options, launcher, inputs, lock, changes,
    )?;
    Ok(Answer {
        text: report.text,
        warnings,
        status: report.status,
    })
}

/// How many files are read one by one that came while others were read; far more than a DAG has.
const MOST_COME: usize = 1 << 20;

/// A round that is planned: its plan, the round, and the bytes of its rescue file.
#[derive(Drop)]
struct Planned {
    plan: Plan,
    found: (Round, Option<Vec<u8>>),
}

/// Plans the round of the DAG file of this path by these files, as it is found before the lock is taken.
///
/// # Errors
/// As `run_dag` has them, from the faults of the files to those of the rescue file.
fn planned_by<
    R: Processes + Files<File = File> + Clock + Screen + AllocGlobal + Copy + Drop,
    H: Site,
>(
    rt: R,
    site: &H,
    place: &Place<'_>,
    files: &FileSet,
    options: &RunOptions,
    changes: &mut Changes,
) -> Result<Planned, RunFault>
    requires read { H.honest site.now → IsReadFrom (H.holds site.now) place.now.top.now files.now }
    ensures planned { IfOk result (λ planned. IsPlannedRound (found_where (H.honest site.now) (H.holds site.now) (H.has site.now) place.now.top.now options.now)
        place.now.top.now options.now files.now planned.found.0 (option_map (λ b. b.items) planned.found.1) planned.plan) }
    ensures next { IfOk result (λ planned. IsRescueNumber planned.found.0.next) }
    ensures refused { IfErr result (IsRunFaultWhere bytes_of (λ set. set ≡ files.now)
        (any_round place.now.top.now options.now)
        (rounds_at H.Journal.Disk H.Rescue.Disk (H.own site.now) (H.honest site.now) (H.holds site.now))
        place.now.top.now options.now) }
    ensures refused_held { H.honest site.now → IfErr result (IsRunFaultWhere bytes_of (λ set. set ≡ files.now)
        (held_round (H.holds site.now) (H.has site.now) place.now.top.now options.now)
        (rounds_at H.Journal.Disk H.Rescue.Disk (H.own site.now) (H.honest site.now) (H.holds site.now))
        place.now.top.now options.now) }
    ensures changes { (look : List FileChange) × IsLook place.now.top.now look × (changes.new ≡ changes.old ++ look) }
{
    let alloc = rt.alloc();
    let graph = graph_of(alloc, files, place.top)?;
    let found = first_look(rt, site, place, options, changes)?;
    let plan = plan_of_round(alloc, place, files, graph, &found.0, found.1.as_deref())?;
    Ok(Planned { plan, found })
}

/// The same, with each file read that was missing at first and has come meanwhile.
///
/// # Errors
/// As `planned_by`, of the files as they are then.
fn planned_at_last<
    R: Processes + Files<File = File> + Clock + Screen + AllocGlobal + Copy + Drop,
    H: Site,
>(
    rt: R,
    site: &H,
    place: &Place<'_>,
    files: &mut FileSet,
    options: &RunOptions,
    changes: &mut Changes,
) -> Result<Planned, RunFault>
    requires read { H.honest site.now → IsReadFrom (H.holds site.now) place.now.top.now files.old }
    ensures planned { IfOk result (λ planned. IsPlannedRound (found_where (H.honest site.now) (H.holds site.now) (H.has site.now) place.now.top.now options.now)
        place.now.top.now options.now files.new planned.found.0 (option_map (λ b. b.items) planned.found.1) planned.plan) }
    ensures next { IfOk result (λ planned. IsRescueNumber planned.found.0.next) }
    ensures refused { IfErr result (IsRunFault
        (rounds_at H.Journal.Disk H.Rescue.Disk (H.own site.now) (H.honest site.now) (H.holds site.now))
        place.now.top.now options.now) }
    ensures refused_held { H.honest site.now → IfErr result (IsRunFaultFrom (H.holds site.now) (H.has site.now)
        (rounds_at H.Journal.Disk H.Rescue.Disk (H.own site.now) (H.honest site.now) (H.holds site.now))
        place.now.top.now options.now) }
    ensures changes { (looks : List FileChange) × AreLooks place.now.top.now looks × (changes.new ≡ changes.old ++ looks) }
{
    for _ in 0..MOST_COME {
        match planned_by(rt, site, place, files, options, changes) {
            Ok(planned) => return Ok(planned),
            Err(fault) => read_missing(rt.alloc(), site, files, fault)?,
        }
    }
    Err(RunFault::Memory)
}

/// Leads a round that is planned by these files, under the lock, and answers what is printed.
///
/// # Errors
/// As `run_dag` has them from the launcher on.
fn run_made<
    R: Processes + Files<File = File> + Clock + Screen + AllocGlobal + Copy + Drop,
    H: Site,
>(
    rt: R,
    site: &H,
    place: &Place<'_>,
    files: &FileSet,
    made: &Planned,
    options: &RunOptions,
    changes: &mut Changes,
) -> Result<Answer, RunFault>
    requires planned { IsPlannedRound (found_where (H.honest site.now) (H.holds site.now) (H.has site.now) place.now.top.now options.now)
        place.now.top.now options.now files.now made.now.found.0 (option_map (λ b. b.items) made.now.found.1) made.now.plan }
    requires next { IsRescueNumber made.now.found.0.next }
    ensures run { IfOk result (λ answer. IsRunOf
        (rounds_at H.Journal.Disk H.Rescue.Disk (H.own site.now) (H.honest site.now) (H.holds site.now))
        place.now.top.now options.now (string_bytes answer.text) (string_bytes answer.warnings) answer.status) }
    ensures held { H.honest site.now → IfOk result (λ answer. IsRunFrom (H.holds site.now) (H.has site.now)
        (rounds_at H.Journal.Disk H.Rescue.Disk (H.own site.now) (H.honest site.now) (H.holds site.now))
        place.now.top.now options.now (string_bytes answer.text) (string_bytes answer.warnings) answer.status) }
    ensures refused { IfErr result (IsRunFault
        (rounds_at H.Journal.Disk H.Rescue.Disk (H.own site.now) (H.honest site.now) (H.holds site.now))
        place.now.top.now options.now) }
    ensures refused_held { H.honest site.now → IfErr result (IsRunFaultFrom (H.holds site.now) (H.has site.now)
        (rounds_at H.Journal.Disk H.Rescue.Disk (H.own site.now) (H.honest site.now) (H.holds site.now))
        place.now.top.now options.now) }
    ensures changes { ChangesOnceLocked result (found_where (H.honest site.now) (H.holds site.now) (H.has site.now) place.now.top.now options.now)
        (rounds_at H.Journal.Disk H.Rescue.Disk (H.own site.now) (H.honest site.now) (H.holds site.now))
        place.now.top.now options.now changes.old changes.new }
{
    let launcher = launcher_of(&rt, place.folder, &made.plan, options)?;
    place.has_room_for_names(rt.alloc())?;
    let mut lock = place.lock(&rt, changes)?;
    let answer = run_locked(
        rt,
        site,
        place,
        files,
        &made.plan,
        &made.found,
        options,
        &launcher,
        &mut lock,
        changes,
    );
    place.unlock(&rt, lock, changes);
    answer
}

/// Runs the DAG file of this path at a site, with children of the site and with the inputs that stand in its folder: its files, the
/// journal and the rescue files. What it writes beside these, it writes at the place, which is in that folder: relative paths are
/// taken from its path, which is absolute.
///
/// The journal is beside the DAG file, under its name and `.journal`, and so are the rescue
/// files, of which that with the highest number is read unless the options forbid it, and the next
/// number is written. An unfinished run goes on, with the numbers of its header; after a finished
/// one a new round begins, and its journal is put away as `.journal.old`. Where the options ask for the
/// rescue file of a number, a new round goes back to that one: it is read and the number after it is
/// written, and those of higher numbers are put away first, the highest first, with `.old` after
/// their names. A new round runs POST scripts after failed PRE scripts where the options say so; one
/// that goes on does as its journal's header says. The answer is the status text and `result N`, with status N.
///
/// # Errors
/// In this order, each before anything is started or changed: a fault of the files (`InFiles`), a
/// cycle (`Cycle`), a file beside the DAG file that may be another user's or is no regular file
/// (`FileRefused`), a rescue file that is asked for and not there (`NotThere`), a journal that can't be
/// read (`InManager`), an unfinished run where a rescue file is asked for (`Unfinished`), else a number
/// in its header that no rescue file has (`NotThere`), a folder or a rescue file that the system
/// refuses to read or that may be another user's (`FileRefused`), the first fault of the submit files and the texts of jobs
/// (`InPlan`) and then of the rescue file (`InRescue`), a launcher whose program isn't found (`FileRefused`
/// with its name), another manager that runs the DAG
/// (`FileRefused` with the file that it has locked; after a journal that can't be read too), after a name
/// beside the DAG file that would be too long (`FileRefused` with it). Then a process to which the system
/// doesn't tell how children end (`WaitFault`), a rescue file or a journal that can't be renamed
/// (`FileRefused`), and processes of an earlier manager that can't be ended or asked for (`FileRefused` with the file
/// that names them, with that of the round's identifier, or with `/proc`), but where the journal will be refused;
/// the same options go on from there. Then those of the manager
/// (`InManager`) and of the children (`StartMemory`, `WaitFault`); what was recorded stays. Want of
/// memory may come before any.
pub fn run_dag<
    R: Processes + Files<File = File> + Clock + Screen + AllocGlobal + Copy + Drop,
    H: Site,
>(
    rt: R,
    site: &H,
    place: &Place<'_>,
    options: &RunOptions,
    changes: &mut Changes,
) -> Result<Answer, RunFault>
    // The report is that of a round of the plan of some files, led to its end at the site under the limits of
    // the options, with the rescue file that they ask for.
    ensures run { IfOk result (λ answer. IsRunOf
        (rounds_at H.Journal.Disk H.Rescue.Disk (H.own site.now) (H.honest site.now) (H.holds site.now))
        place.now.top.now options.now (string_bytes answer.text) (string_bytes answer.warnings) answer.status) }
    // These are the files, the journal and the rescue file that the folder holds.
    ensures held { H.honest site.now → IfOk result (λ answer. IsRunFrom (H.holds site.now) (H.has site.now)
        (rounds_at H.Journal.Disk H.Rescue.Disk (H.own site.now) (H.honest site.now) (H.holds site.now))
        place.now.top.now options.now (string_bytes answer.text) (string_bytes answer.warnings) answer.status) }
    // It is refused for the first cause of the stated order, or for lack of memory.
    ensures refused { ¬ (H.streams site.now) → IfErr result (IsRunFault
        (rounds_at H.Journal.Disk H.Rescue.Disk (H.own site.now) (H.honest site.now) (H.holds site.now))
        place.now.top.now options.now) }
    // Where it is refused for what files say, or for the round, these are those that the folder holds.
    ensures refused_held { ¬ (H.streams site.now) → H.honest site.now → IfErr result (IsRunFaultFrom (H.holds site.now) (H.has site.now)
        (rounds_at H.Journal.Disk H.Rescue.Disk (H.own site.now) (H.honest site.now) (H.holds site.now))
        place.now.top.now options.now) }
    // What it changes beside the DAG file, under the lock alone, and in which order; and how far that went where it is refused.
    ensures changes { ChangesAsRun result (found_where (H.honest site.now) (H.holds site.now) (H.has site.now) place.now.top.now options.now)
        (rounds_at H.Journal.Disk H.Rescue.Disk (H.own site.now) (H.honest site.now) (H.holds site.now))
        place.now.top.now options.now changes.old changes.new }
{
    let mut files = files_of(rt.alloc(), site, place.top, Reading::SubmitFilesToo)?;
    let made = planned_at_last(rt, site, place, &mut files, options, changes)?;
    run_made(rt, site, place, &files, &made, options, changes)
}
