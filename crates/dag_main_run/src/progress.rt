//! How it is shown how far a run is.

use crate::halting::HaltWatcher;
use crate::status_file::StatusWatcher;
use child_watcher::{ChildWatcher, CommandPart, Killed};
use dag_main_args::RunOptions;
use dag_main_check::RunFault;
use dag_main_files::{Journaled, LAST_NUMBER, Place, Round, journal_path, rescue_path};
use dag_reader::Text;
use event_journal_log::read_journal;
use log_lines::{read_line, unquoted, whole_lines};
use node_machine::{Key, Outcome, Record};
use run_log::RunWatcher;
use run_plan::Plan;
use run_plan_node::ChildCommand;
use run_progress::{ProgressWatcher, Screen, Watched, way_of};
use std::alloc::Global;
use std::fs::File;
use std::io;
use std::process::Processes;
use std::rt::Files;
use std::time::Clock;

/// The records of the earlier managers of a round of this plan; none where they can't be read, of which the manager tells.
pub(crate) fn records_before<R: Files + AllocGlobal>(
    rt: &R,
    place: &Place<'_>,
    plan: &Plan,
    round: &Round,
) -> Option<Vec<Record>> {
    if round.journal != Journaled::Unfinished {
        return None;
    }
    let alloc = rt.alloc();
    let path = journal_path(alloc, place.top).ok()?;
    let bytes = place.read(rt, path.as_str()).ok()??;
    read_journal(alloc, &bytes, plan.digest(), plan.always_post()).ok()?
}

/// The path of the rescue file that a round reads; none where it reads none.
fn rescue_read(alloc: Global, place: &Place<'_>, round: &Round) -> Result<Option<Text>, RunFault> {
    if round.used == 0 || round.used > LAST_NUMBER {
        return Ok(None);
    }
    Ok(Some(rescue_path(alloc, place.top, round.used)?))
}

/// The folder in which the manager before this one was called, by the log, whose last line of a manager is that of this one; none where the log
/// doesn't say it.
fn folder_before<R: Files + AllocGlobal>(rt: &R, place: &Place<'_>) -> Option<String> {
    let alloc = rt.alloc();
    let path = Text::joined(alloc, place.top, ".log").ok()?;
    let log = place.read(rt, path.as_str()).ok()??;
    let life = whole_lines(&log)
        .rsplit(|byte| *byte == b'\n')
        .filter_map(|line| read_line(line))
        .filter(|line| line.event == "life")
        .nth(1)?;
    unquoted(alloc, life.detail("folder")?).ok()
}

/// It shows as the options say how far a round of a plan is.
pub(crate) fn progress_of<
    'a,
    R: Processes + Files<File = File> + Clock + Screen + AllocGlobal + Copy + Drop,
>(
    rt: R,
    place: &Place<'a>,
    plan: &'a Plan,
    round: &Round,
    options: &RunOptions,
) -> ProgressWatcher<'a, R> {
    let Some(way) = way_of(&rt, options.progress) else {
        return ProgressWatcher::hidden();
    };
    let alloc = rt.alloc();
    let run = Watched {
        plan,
        folder: place.folder,
        limits: options.limits,
        is_launched: !options.launcher.as_slice().is_empty(),
        way,
    };
    let records = records_before(&rt, place, plan, round);
    let before = records.as_ref().map(|records| records.as_slice());
    let mut progress = ProgressWatcher::new(rt, run, before.unwrap_or(&[]));
    if round.journal == Journaled::Unfinished {
        // A journal that can't be read, or is of another plan, is refused.
        if before.is_some() {
            let elsewhere = folder_before(&rt, place).filter(|folder| folder.as_str()
                != place.folder);
            progress.goes_on(elsewhere.as_ref().map(|folder| folder.as_str()));
        }
    } else {
        if let Ok(rescue) = rescue_read(alloc, place, round) {
            let path = rescue.as_ref().map(|path| path.as_str());
            progress.begins(place.top, path);
        }
    }
    progress
}

/// Who is informed of the children of a round: first its log, then who shows how far it is, then who looks whether it is to be halted, and
/// who writes its status for others.
#[derive(Drop)]
pub(crate) struct RoundWatcher<'a, R: Files<File = File> + Clock + AllocGlobal + Drop> {
    pub(crate) log: RunWatcher<'a, R>,
    pub(crate) progress: ProgressWatcher<'a, R>,
    pub(crate) halt: HaltWatcher<'a, R>,
    pub(crate) status: StatusWatcher<'a, R>,
}

impl<
    'a,
    R: Screen + Processes + Files<File = File> + Clock + AllocGlobal + Copy + Drop,
> ChildWatcher for RoundWatcher<'a, R> {
    // Both are.
    ghost prepared = { λ w. ⟦<RunWatcher<'a, R> as ChildWatcher>⟧.prepared w.log
        × ⟦<ProgressWatcher<'a, R> as ChildWatcher>⟧.prepared w.progress };

    fn launching(&mut self, key: &Key, command: &ChildCommand) {
        self.log.launching(key, command);
        self.progress.launching(key, command);
    }

    fn launched(&mut self, key: &Key, process: u32, command: &ChildCommand) {
        self.log.launched(key, process, command);
        if let Some(reason) = self.log.take_unkept() {
            self.progress.cannot_keep(reason.as_str());
        }
        self.progress.launched(key, process, command);
        self.halt.launched(key);
    }

    fn held(&mut self, key: &Key, error: &io::Error) {
        self.log.held(key, error);
        self.progress.held(key, error);
    }

    fn not_started(
        &mut self,
        key: &Key,
        command: &ChildCommand,
        part: CommandPart,
        error: &io::Error,
    ) {
        self.log.not_started(key, command, part, error);
        self.progress.not_started(key, command, part, error);
        self.halt.not_started(key);
    }

    fn ended(&mut self, key: &Key, outcome: Outcome) {
        self.log.ended(key, outcome);
        self.progress.ended(key, outcome);
        self.halt.ended(key, outcome);
    }

    fn will_record(&mut self) {
        self.log.will_record();
        self.progress.will_record();
    }

    fn killed(&mut self, key: &Key, answer: Killed) {
        self.log.killed(key, answer);
        self.progress.killed(key, answer);
    }

    fn waits(&mut self) {
        self.log.waits();
        self.progress.waits();
        self.status.waits();
    }

    fn halts(&mut self) -> bool {
        if !self.halt.halts() {
            return false;
        }
        self.progress.halts_now();
        true
    }
}
