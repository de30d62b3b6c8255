//! By what the processes of a round are known, and what is done with those that an earlier manager left.

ghost use Rattle.std.specs.Prelude.{◌≡◌, ◌++◌, ℕ, List, IfOk, IfErr};
ghost use Rattle.dag_main_files.specs.Beside.{IsRefusalOf};
ghost use Rattle.dag_main_files.specs.Changes.{FileChange, AreSome};
ghost use Rattle.dag_main_run.specs.InTheWay.{IsOrphanFault};
ghost use Rattle.dag_main_run.specs.RunChanges.{settles};

use crate::beginning::{
    children_name, children_path, forget_processes, forget_round, log_of, round_name, round_path,
};
use child_watcher::RoundIdentity;
use dag_main_args::{OrphanRule, RunOptions};
use dag_main_check::RunFault;
use dag_main_files::{Change, Changes, Journaled, Place, Round, journal_path};
use dag_reader::Text;
use event_journal_log::{JournalFault, read_journal};
use run_log::{
    OrphanFault, Orphans, RunWatcher, Seat, keep_rounds, keeps_round, kept_rounds, new_round,
    orphans_of, seat_of,
};
use run_plan::Plan;
use run_progress::{Screen, way_of};
use std::alloc::{AllocError, Global};
use std::fs::File;
use std::io::ErrorKind;
use std::process::Processes;
use std::rt::Files;
use std::time::Clock;

/// The identifiers that are kept for a round, first its own, whether processes of the round were left that still run, and the lines of
/// those that are known by what was noted of them.
#[derive(Drop)]
pub(crate) struct Kept {
    rounds: Vec<String>,
    some_left: bool,
    notes: String,
}

/// By what the processes of a round are known, and whether some of earlier managers were left that still run.
#[derive(Drop)]
pub(crate) struct Known {
    rounds: Vec<String>,
    dag: Text,
    pub(crate) some_left: bool,
    /// the lines of those that are known by what was noted of them
    pub(crate) notes: String,
    /// where the folder of the DAG file was as the round began, as far as the system said it
    seat: Option<Seat>,
    /// whether the identifiers are kept in their file
    is_kept: bool,
}

/// The folder in which the DAG file is.
fn folder_path(alloc: Global, place: &Place<'_>) -> Result<Text, AllocError> {
    let path = place.at(alloc, place.top)?;
    match path.as_str().rsplit_once('/') {
        Some(("", _)) => Text::new(alloc, "/"),
        Some((folder, _)) => Text::new(alloc, folder),
        None => Text::new(alloc, "."),
    }
}

/// What is returned for the file of this name, where there is memory for it.
fn refused_file(alloc: Global, name: Result<Text, AllocError>) -> RunFault
    ensures { (path : List ℕ) → IfOk name (λ name. name ≡ path) → IsRefusalOf path result }
{
    let Ok(name) = name else {
        return RunFault::Memory;
    };
    match String::from_str(alloc, name.as_str()) {
        Ok(file) => RunFault::FileRefused(file),
        Err(_) => RunFault::Memory,
    }
}

/// What is returned where processes of an earlier manager can't be dealt with: with the name of what could not be read or asked, of the
/// lock of a manager that still works, or of the file of the processes of which one still runs.
fn refused_for(alloc: Global, place: &Place<'_>, fault: OrphanFault) -> RunFault
    ensures { IsOrphanFault place.now.top.now result }
{
    match fault {
        OrphanFault::NotAsked => refused_file(alloc, Text::new(alloc, "/proc")),
        OrphanFault::NotKnown => refused_file(alloc, round_name(alloc, place)),
        OrphanFault::StillWorks => refused_file(alloc, Text::joined(alloc, place.top, ".lock")),
        OrphanFault::Memory => RunFault::Memory,
        _ => refused_file(alloc, children_name(alloc, place)),
    }
}

/// What a person is shown before it is waited for processes that an earlier manager left; where they are left, what asks for it.
fn waiting_text(
    alloc: Global,
    count: usize,
    rule: OrphanRule,
    cause: &str,
) -> Result<String, AllocError> {
    let processes = if count == 1 { "process" } else { "processes" };
    match rule {
        OrphanRule::Kill => format!(in alloc;
            "ending {count} {processes} that the earlier manager left running"
        ),
        OrphanRule::Wait => format!(in alloc;
            "waiting for {count} {processes} that the earlier manager left running"
        ),
        OrphanRule::Leave => format!(in alloc;
            "{count} {processes} that the earlier manager left go on ({cause})"
        ),
    }
}

/// Shows it where it is shown how far a run is.
fn show<R: Processes + Clock + Screen + AllocGlobal>(
    rt: &R,
    count: usize,
    options: &RunOptions,
    rule: OrphanRule,
) {
    let cause = if options.orphans == rule {
        "--orphans leave"
    } else {
        "the round is halted"
    };
    if count > 0 && way_of(rt, options.progress).is_some() {
        if let Ok(text) = waiting_text(rt.alloc(), count, rule, cause) {
            let _ = eprintln!(rt; "{text}");
        }
    }
}

/// Whether the journal of a round that goes on is of another plan or can't be read, so that the manager will be refused.
fn is_of_others<R: Files + AllocGlobal>(
    rt: &R,
    place: &Place<'_>,
    plan: &Plan,
    round: &Round,
) -> Result<bool, AllocError> {
    if round.journal != Journaled::Unfinished {
        return Ok(false);
    }
    let alloc = rt.alloc();
    let path = journal_path(alloc, place.top)?;
    let Ok(Some(bytes)) = place.read(rt, path.as_str()) else {
        return Ok(false);
    };
    match read_journal(alloc, &bytes, plan.digest(), plan.always_post()) {
        Ok(_records) => Ok(false),
        Err(JournalFault::Memory) => Err(AllocError),
        Err(_fault) => Ok(true),
    }
}

/// The processes that an earlier manager of the round left.
fn find_orphans<R: Files<File = File> + Clock + AllocGlobal + Clone + Drop>(
    rt: &R,
    place: &Place<'_>,
) -> Result<Orphans, OrphanFault> {
    let alloc = rt.alloc();
    let folder = folder_path(alloc, place)?;
    let round = round_path(alloc, place)?;
    let rounds = kept_rounds(rt, round.as_str(), folder.as_str())?;
    orphans_of(
        rt,
        rounds,
        children_path(alloc, place)?.as_str(),
        round.as_str(),
    )
}

/// The processes that an earlier manager of the round left. Nothing is done with them yet.
///
/// # Errors
/// `FileRefused` with the file of the manager's processes or that of the round's identifier, where the system refuses to read it or it
/// is no regular one, with the lock, where that manager still works, or with `/proc`, where the system refuses to say which processes there are; `Memory`.
pub(crate) fn orphans_found<R: Files<File = File> + Clock + AllocGlobal + Clone + Drop>(
    rt: &R,
    place: &Place<'_>,
) -> Result<Orphans, RunFault>
    ensures { IfErr result (IsOrphanFault place.now.top.now) }
{
    match find_orphans(rt, place) {
        Ok(orphans) => Ok(orphans),
        Err(fault) => Err(refused_for(rt.alloc(), place, fault)),
    }
}

/// Deals with these processes by this rule. They are left alone where the manager will be refused.
fn settle<R: Processes + Files<File = File> + Clock + Screen + AllocGlobal + Clone + Drop>(
    rt: &R,
    place: &Place<'_>,
    plan: &Plan,
    round: &Round,
    options: &RunOptions,
    rule: OrphanRule,
    orphans: &mut Orphans,
    changes: &mut Changes,
) -> Result<bool, OrphanFault>
    ensures { (settled : List FileChange) × AreSome (settles place.now.top.now) settled × (changes.new ≡ changes.old ++ settled) }
{
    if orphans.is_empty() {
        return Ok(false);
    }
    if is_of_others(rt, place, plan, round)? {
        return Ok(true);
    }
    show(rt, orphans.count(), options, rule);
    let mut log = log_of(rt, place, options)?;
    changes.note(&children_name(rt.alloc(), place)?, Change::Settled);
    orphans.settle(rt, rule, &mut log)
}

/// What is kept of a round whose processes were dealt with, of which some may be left.
fn kept_of<R: Files + AllocGlobal>(
    rt: &R,
    orphans: Orphans,
    some_left: bool,
) -> Result<Kept, OrphanFault> {
    let notes = if some_left {
        orphans.notes(rt)?
    } else {
        String::new(rt.alloc())
    };
    Ok(Kept {
        rounds: orphans.into_rounds(),
        some_left,
        notes,
    })
}

/// Deals with these processes, which an earlier manager of the round left, by this rule, and answers by which identifiers they
/// are known. Whatever else may refuse the run was asked before: they are left alone where the manager will be refused for the
/// journal's sake.
///
/// # Errors
/// `FileRefused` with the file of the manager's processes, where one of them can't be ended, or with `/proc`, where the system refuses
/// to say which processes there are; `Memory`.
pub(crate) fn settled<
    R: Processes + Files<File = File> + Clock + Screen + AllocGlobal + Clone + Drop,
>(
    rt: &R,
    place: &Place<'_>,
    plan: &Plan,
    round: &Round,
    options: &RunOptions,
    rule: OrphanRule,
    orphans: Orphans,
    changes: &mut Changes,
) -> Result<Kept, RunFault>
    ensures refused { IfErr result (IsOrphanFault place.now.top.now) }
    ensures changes { (settled : List FileChange) × AreSome (settles place.now.top.now) settled × (changes.new ≡ changes.old ++ settled) }
{
    let mut orphans = orphans;
    let is_settled = settle(rt, place, plan, round, options, rule, &mut orphans, changes);
    let kept = is_settled.and_then(|some_left| kept_of(rt, orphans, some_left));
    match kept {
        Ok(kept) => Ok(kept),
        Err(fault) => Err(refused_for(rt.alloc(), place, fault)),
    }
}

impl Kept {
    /// The identifiers of a round that begins: a new one, and after it those of which processes were left.
    fn renewed<R: Files + Clock + AllocGlobal>(self, rt: &R) -> Result<Kept, AllocError> {
        let Kept {
            rounds,
            some_left,
            notes,
        } = self;
        let mut renewed = Vec::new(rt.alloc());
        renewed.push(new_round(rt)?)?;
        if some_left {
            for round in rounds {
                renewed.push(round)?;
            }
        }
        Ok(Kept {
            rounds: renewed,
            some_left,
            notes,
        })
    }
}

impl Known {
    /// Who the round is.
    pub(crate) fn identity(&self) -> RoundIdentity<'_> {
        RoundIdentity {
            round: self.rounds.first().map_or("", |round| round.as_str()),
            dag: self.dag.as_str(),
        }
    }

    /// Whether the folder of the DAG file is still the one in which the round began: that may have another name by now, and another one
    /// have its name.
    pub(crate) fn is_in_place<R: Files + AllocGlobal>(&self, rt: &R, place: &Place<'_>) -> bool {
        self.seat.is_some() && seat_at(rt, place) == self.seat
    }

    /// Whether the file beside the journal still keeps the identifier of this round: another manager may have begun another one.
    fn keeps_identifier<R: Files + AllocGlobal>(&self, rt: &R, place: &Place<'_>) -> bool {
        match round_path(rt.alloc(), place) {
            Ok(path) => keeps_round(rt, path.as_str(), self.identity().round),
            Err(_) => false,
        }
    }

    /// Forgets the processes of this manager, none of which runs any more; of a round that has ended its identifier, too. What another
    /// manager keeps by now is left.
    pub(crate) fn forget<R: Files + AllocGlobal>(
        &self,
        rt: &R,
        place: &Place<'_>,
        has_ended: bool,
    ) {
        let is_own = self.keeps_identifier(rt, place);
        if is_own || !self.is_kept {
            forget_processes(rt, place);
        }
        if is_own && has_ended {
            forget_round(rt, place);
        }
    }
}

/// Where the folder of the DAG file is now, as far as the system says it.
pub(crate) fn seat_at<R: Files + AllocGlobal>(rt: &R, place: &Place<'_>) -> Option<Seat> {
    let folder = folder_path(rt.alloc(), place).ok()?;
    seat_of(rt, folder.as_str()).ok()
}

/// Whether what had this path is now another folder or file, or none: not where the system refuses to say it.
fn is_another<R: Files>(rt: &R, path: &str, seat: Seat) -> bool {
    match seat_of(rt, path) {
        Ok(now) => now != seat,
        Err(error) => { matches!(error.kind(), ErrorKind::NotFound | ErrorKind::NotADirectory) }
    }
}

/// Whether the folder of the DAG file was there and is now another one, or none: not where the system refuses to say it, or memory is
/// out.
pub(crate) fn has_moved<R: Files + AllocGlobal>(rt: &R, place: &Place<'_>, seat: Seat) -> bool {
    match folder_path(rt.alloc(), place) {
        Ok(folder) => is_another(rt, folder.as_str(), seat),
        Err(_) => false,
    }
}

/// Where the journal is, seen from the folder of the process.
fn journal_place(alloc: Global, place: &Place<'_>) -> Result<Text, AllocError> {
    place.at(alloc, journal_path(alloc, place.top)?.as_str())
}

/// Where the journal is now, as far as the system says it.
pub(crate) fn journal_seat_at<R: Files + AllocGlobal>(rt: &R, place: &Place<'_>) -> Option<Seat> {
    let path = journal_place(rt.alloc(), place).ok()?;
    seat_of(rt, path.as_str()).ok()
}

/// Whether the journal was there and is now another file, or none: not where the system refuses to say it, or memory is out.
pub(crate) fn is_journal_gone<R: Files + AllocGlobal>(
    rt: &R,
    place: &Place<'_>,
    seat: Seat,
) -> bool {
    match journal_place(rt.alloc(), place) {
        Ok(path) => is_another(rt, path.as_str(), seat),
        Err(_) => false,
    }
}

/// The identifiers of a round: those that are kept, where it goes on, or else a new one. They are kept with this manager, and it is
/// answered whether they are. Where the system refuses that, the log says so, and the round goes on. What a launcher starts elsewhere
/// outlives this machine.
fn renewed_where_new<R: Files<File = File> + Clock + AllocGlobal + Copy + Drop>(
    rt: R,
    place: &Place<'_>,
    round: &Round,
    kept: Kept,
    is_launched: bool,
    log: &mut RunWatcher<'_, R>,
) -> Result<(Kept, bool), AllocError> {
    let alloc = rt.alloc();
    let goes_on = round.journal == Journaled::Unfinished && !kept.rounds.is_empty();
    let kept = if goes_on { kept } else { kept.renewed(&rt)? };
    let (path, folder) = (round_path(alloc, place)?, folder_path(alloc, place)?);
    let (path, folder) = (path.as_str(), folder.as_str());
    match keep_rounds(&rt, path, folder, &kept.rounds, is_launched) {
        Ok(()) => Ok((kept, true)),
        Err(error) => {
            log.cannot_keep(&error);
            Ok((kept, false))
        }
    }
}

/// Sees to it that the round has an identifier before anything is started, and answers by what its processes are known.
///
/// # Errors
/// `Memory` alone.
pub(crate) fn identified<R: Files<File = File> + Clock + AllocGlobal + Copy + Drop>(
    rt: R,
    place: &Place<'_>,
    round: &Round,
    kept: Kept,
    is_launched: bool,
    log: &mut RunWatcher<'_, R>,
) -> Result<Known, AllocError> {
    let dag = place.at(rt.alloc(), place.top)?;
    let (kept, is_kept) = renewed_where_new(rt, place, round, kept, is_launched, log)?;
    let Kept {
        rounds,
        some_left,
        notes,
    } = kept;
    Ok(Known {
        rounds,
        dag,
        some_left,
        notes,
        seat: seat_at(&rt, place),
        is_kept,
    })
}
