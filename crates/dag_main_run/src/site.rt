//! Where a run of a DAG file is led: a folder, the disks of the journal and of the rescue file in it, and children.

ghost use Rattle.std.specs.Prelude.{◌≡◌, ◌++◌, ℕ, List, [], IfOk, IfErr, true, string_bytes};
ghost use Rattle.rescue_file.specs.Numbered.{IsFileNumber};
ghost use Rattle.job_starter_drive.specs.declared.Call.{Call};
ghost use Rattle.run_round.specs.Rounds.{FitsIn, IsRoundRun};
ghost use Rattle.run_round.specs.Causes.{IsRoundRefusal, MayStop};
ghost use Rattle.dag_main_check.specs.declared.fault.RunFault.TheVariants.{Memory};
ghost use Rattle.dag_main_files.specs.Changes.{Makes, AreHigher};
ghost use Rattle.dag_main_run.specs.InTheWay.{IsReadyFault};
ghost use Rattle.dag_main_run.specs.RunChanges.{clears_rescues, clears_journal, clears, readies, leads};
ghost use Rattle.dag_main_run.specs.Sites.{Own, own_from, journal_found};
ghost use Rattle.job_starter_drive.specs.Calls.{any_ending, running};

use crate::beginning::{ignores_endings, make_journal};
use child_watcher::{ChildWatcher, RoundIdentity};
use dag_main_check::RunFault;
use dag_main_files::{
    Change, Changes, Folder, Journaled, Lock, Place, Round, SystemFolder, journal_disk, rescue_disk,
};
use event_journal::FileDisk;
use event_journal_log::Disk;
use job_starter_drive::{DriveFault, ProcessStarter};
use job_starter_local::{Launcher, LocalSystem};
use recovery_manager::ManagerFault;
use run_plan::Plan;
use run_round::{RunToEnd, Start, run_round};
use std::fs::File;
use std::process::Processes;
use std::rt::Files;
use std::time::Clock;
use throttles::Limits;

/// Where a run of a DAG file is led: a folder of files, the disks of the journal and of the rescue file in it, and children.
///
/// What is said of bytes is said of an honest folder, whose disks are honest.
pub trait Site: Folder {
    /// The disk of a journal.
    type Journal: Disk + Drop;

    /// The disk of a rescue file.
    type Rescue: Disk + Drop;

    /// What it knows of its own disks and children.
    ghost own: { Self → Own Self.Journal Self.Rescue };

    /// The path of the folder: absolute, or empty for that of the process.
    fn seat(&self) -> &str;

    /// Whether it isn't told how children end, so that none can be waited for.
    fn is_deaf(&self) -> bool
        ensures { result ≡ true → (own self.now).is_deaf };

    /// The disk of the rescue file of this number. Nothing is opened yet.
    ///
    /// # Errors
    /// `Memory` alone.
    fn rescue_disk(&self, top: &str, number: u16) -> Result<Self::Rescue, RunFault>
        requires { IsFileNumber number }
        ensures rescue { IfOk result ((own self.now).is_rescue top.now number) }
        ensures honest { Self.honest self.now → IfOk result (λ disk. Self.Rescue.honest disk) }
        ensures refused { IfErr result (λ fault. fault ≡ Memory) };

    /// The disk of the journal, for the manager that holds the lock. Nothing is opened yet.
    ///
    /// # Errors
    /// `Memory` alone.
    fn journal_disk(&self, top: &str) -> Result<Self::Journal, RunFault>
        ensures journal { IfOk result ((own self.now).is_journal top.now) }
        ensures refused { IfErr result (λ fault. fault ≡ Memory) };

    /// Readies the disk of the journal for a round: what the round is not to find is put away, which are the rescue files of
    /// higher numbers than that to which it goes back, and the journal of the round before; and the journal of a new round is
    /// made, empty, and locked.
    ///
    /// # Errors
    /// `FileRefused` with a rescue file or a journal that can't be renamed, or with the lock, where another process has
    /// locked the journal; `Memory`.
    fn readied(
        &self,
        top: &str,
        journal: Self::Journal,
        round: &Round,
        lock: &mut Lock,
        changes: &mut Changes,
    ) -> Result<Self::Journal, RunFault>
        requires { (own self.now).is_journal top.now journal }
        ensures journal { IfOk result ((own self.now).is_journal top.now) }
        // It reads as the folder holds it where that is honest, and is honest there and only there.
        ensures found { Self.honest self.now → IfOk result (λ disk.
            Self.Journal.seen disk ≡ journal_found (Self.holds self.now) top.now round.now) }
        ensures honest { Self.honest self.now → IfOk result (λ disk. Self.Journal.honest disk) }
        ensures back { IfOk result (λ disk. Self.Journal.honest disk → Self.honest self.now) }
        ensures refused { IfErr result (IsReadyFault top.now round.now) }
        // What is put away, and in which order; only that.
        ensures changes { (numbers : List ℕ) × AreHigher round.now.used numbers × Makes result (readies top.now round.now numbers) changes.old changes.new };

    /// Leads a round to its end on these disks, with children of this site, whose jobs the launcher starts. They inherit the identity of the
    /// round, and the watcher is informed of them. None is left as it returns.
    ///
    /// # Errors
    /// Those of `run_round`.
    fn lead<W: ChildWatcher + Drop>(
        &self,
        plan: &Plan,
        start: Start,
        limits: Limits,
        launcher: &Launcher,
        identity: RoundIdentity<'_>,
        journal: Self::Journal,
        rescue: Self::Rescue,
        watcher: W,
        changes: &mut Changes,
    ) -> Result<
        (Self::Journal, RunToEnd<Self::Rescue>),
        (Self::Journal, (Option<Self::Rescue>, DriveFault)),
    >
        requires fits { Self.Journal.honest journal → FitsIn start (Self.Journal.seen journal) }
        ensures led { IfOk result (λ ended. (calls : List Call) × (before : ℕ) × (now : ℕ) × (own self.now).answered launcher.now calls before now × (running calls ≡ [])
            × IsRoundRun Self.Journal.Disk Self.Rescue.Disk plan.now start limits any_ending [] calls
            journal ended.0 rescue (string_bytes ended.1.text) ended.1.status ended.1.rescue) }
        ensures refused { IfErr result (λ e. (calls : List Call) × (before : ℕ) × (now : ℕ) × (own self.now).answered launcher.now calls before now × (running calls ≡ [])
            × IsRoundRefusal Self.Journal.Disk Self.Rescue.Disk before now plan.now 16777216 start limits any_ending [] calls
            journal e.0 rescue e.1.0 e.1.1) }
        ensures stops { IfErr result (λ e. MayStop e.1.1) }
        ensures changes { changes.new ≡ changes.old ++ leads };

    /// What was refused of a call of these disks, and why; none where nothing was.
    fn reason(&self, journal: &Self::Journal, rescue: &Option<Self::Rescue>) -> Option<String>;
}

/// What the system refused of a call of the journal or of the rescue file, and why; none where it refused
/// nothing.
fn reason_of<R: Files<File = File> + AllocGlobal + Drop>(
    rt: &R,
    journal: &FileDisk<R>,
    rescue: &Option<FileDisk<R>>,
) -> Option<String> {
    if let Some(refusal) = journal.refusal() {
        return format!(in rt.alloc(); "journal: {refusal}").ok();
    }
    match rescue {
        Some(rescue) => match rescue.refusal() {
            Some(refusal) => format!(in rt.alloc(); "rescue file: {refusal}").ok(),
            None => None,
        },
        None => None,
    }
}

/// Puts away the rescue files of higher numbers than that to which a round goes back, if it goes back to one.
fn clear_rescues<R: Files<File = File> + AllocGlobal + Clone + Drop>(
    rt: &R,
    place: &Place<'_>,
    round: &Round,
    changes: &mut Changes,
) -> Result<(), RunFault>
    ensures refused { IfErr result (IsReadyFault place.now.top.now round.now) }
    ensures changes { (numbers : List ℕ) × AreHigher round.now.used numbers
        × Makes result (clears_rescues round.now.goes_back place.now.top.now numbers) changes.old changes.new }
{
    if !round.goes_back {
        return Ok(());
    }
    place.put_rescues_away(rt, round.used, changes)
}

/// Puts away the journal of the round before, if that has ended.
fn clear_journal<R: Files<File = File> + AllocGlobal>(
    rt: &R,
    place: &Place<'_>,
    round: &Round,
    changes: &mut Changes,
) -> Result<(), RunFault>
    ensures refused { IfErr result (IsReadyFault place.now.top.now round.now) }
    ensures changes { Makes result (clears_journal round.now.journal place.now.top.now) changes.old changes.new }
{
    match round.journal {
        Journaled::Nothing | Journaled::Unfinished => Ok(()),
        Journaled::Finished => place.put_journal_away(rt, changes),
    }
}

/// Puts away what a new round is not to find: the rescue files of higher numbers than that to which it
/// goes back, and the journal of the round before.
fn put_away<R: Files<File = File> + AllocGlobal + Clone + Drop>(
    rt: &R,
    place: &Place<'_>,
    round: &Round,
    changes: &mut Changes,
) -> Result<(), RunFault>
    ensures refused { IfErr result (IsReadyFault place.now.top.now round.now) }
    ensures changes { (numbers : List ℕ) × AreHigher round.now.used numbers × Makes result (clears place.now.top.now round.now numbers) changes.old changes.new }
{
    clear_rescues(rt, place, round, changes)?;
    clear_journal(rt, place, round, changes)
}

/// The system's folder with its files as disks, and with children of this process. That it is honest is a premise, as it
/// is of the folder.
impl<'a, R: Processes + Files<File = File> + Clock + Input + AllocGlobal + Copy + Drop> Site
    for SystemFolder<'a, R> {
    type Journal = FileDisk<R>;

    type Rescue = FileDisk<R>;

    ghost own = { λ folder. own_from (string_bytes folder.seat) };

    fn seat(&self) -> &str {
        self.seat.as_str()
    }

    fn is_deaf(&self) -> bool {
        ignores_endings(self.rt)
    }

    fn rescue_disk(&self, top: &str, number: u16) -> Result<FileDisk<R>, RunFault> {
        let place = Place {
            folder: self.seat.as_str(),
            top,
        };
        rescue_disk(*self.rt, &place, number)
    }

    fn journal_disk(&self, top: &str) -> Result<FileDisk<R>, RunFault> {
        let place = Place {
            folder: self.seat.as_str(),
            top,
        };
        journal_disk(*self.rt, &place)
    }

    fn readied(
        &self,
        top: &str,
        journal: FileDisk<R>,
        round: &Round,
        lock: &mut Lock,
        changes: &mut Changes,
    ) -> Result<FileDisk<R>, RunFault> {
        let place = Place {
            folder: self.seat.as_str(),
            top,
        };
        put_away(self.rt, &place, round, changes)?;
        make_journal(self.rt, &place, round, lock, changes)?;
        Ok(journal)
    }

    fn lead<W: ChildWatcher + Drop>(
        &self,
        plan: &Plan,
        start: Start,
        limits: Limits,
        launcher: &Launcher,
        identity: RoundIdentity<'_>,
        journal: FileDisk<R>,
        rescue: FileDisk<R>,
        watcher: W,
        changes: &mut Changes,
    ) -> Result<
        (FileDisk<R>, RunToEnd<FileDisk<R>>),
        (FileDisk<R>, (Option<FileDisk<R>>, DriveFault)),
    > {
        changes.happened(Change::Led);
        let alloc = self.rt.alloc();
        let seat = self.seat.as_str();
        let Ok(system) = LocalSystem::new(alloc, *self.rt, seat, launcher, plan, identity, watcher)
        else {
            return Err((
                journal,
                (Some(rescue), DriveFault::Manager(ManagerFault::Memory)),
            ));
        };
        let mut starter = ProcessStarter::new(system);
        run_round(alloc, journal, plan, start, limits, &mut starter, rescue)
    }

    fn reason(&self, journal: &FileDisk<R>, rescue: &Option<FileDisk<R>>) -> Option<String> {
        reason_of(self.rt, journal, rescue)
    }
}
