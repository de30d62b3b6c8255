//! Whether a run is to be halted: nothing more is launched, and what runs is waited for.

ghost use Rattle.std.specs.Prelude.{◌≡◌, IfOk};
ghost use Rattle.dag_main_run.specs.Sites.{halt_name, IsHaltBy, IsReturned};
ghost use Rattle.job_starter_drive.specs.declared.driving.DriveFault.TheVariants.{Halted};

use crate::progress::records_before;
use crate::rounds::{has_moved, is_journal_gone, journal_seat_at, seat_at};
use dag_main_args::{OrphanRule, RunOptions};
use dag_main_check::RunFault;
use dag_main_files::{Place, Round, journal_path};
use dag_reader::Text;
use node_machine::{Key, Outcome};
use run_log::Seat;
use run_plan::Plan;
use run_progress::ErrorWatcher;
use std::alloc::{AllocError, Global};
use std::fs;
use std::rt::Files;

/// What asks for a halt: a file of the name of the DAG file and this.
const HALT: &str = ".halt";

/// The option that asks for a halt once a node is in error.
const FIRST_ERROR: &str = "--stop-at-first-error";

/// Why a run is halted.
#[derive(Clone, Copy, Debug, PartialEq, Eq)]
pub(crate) enum HaltCause {
    /// The file beside the DAG file asks for it.
    File,
    /// A node failed, where the option asks for it.
    Error,
    /// The folder of the DAG file has another name by now.
    Moved,
    /// The journal was removed, or another file has its name by now.
    JournalGone,
}

/// What asked for a halt: the file, the option, the path of the DAG file, or that of the journal.
fn asked_by(alloc: Global, top: &str, cause: HaltCause) -> Result<Text, AllocError>
    ensures { IfOk result (λ asked. asked ≡ halt_name top.now cause) }
{
    match cause {
        HaltCause::File => Text::joined(alloc, top, HALT),
        HaltCause::Error => Text::new(alloc, FIRST_ERROR),
        HaltCause::Moved => Text::new(alloc, top),
        HaltCause::JournalGone => journal_path(alloc, top),
    }
}

/// What is returned where a run was halted, by what asked for it.
pub(crate) fn halted(alloc: Global, top: &str, cause: HaltCause) -> RunFault
    ensures returned { IsReturned top.now Halted result }
    ensures named { IsHaltBy (halt_name top.now cause) result }
{
    match asked_by(alloc, top, cause) {
        Ok(asked) => RunFault::Halted(asked),
        Err(_) => RunFault::Memory,
    }
}

/// It looks whether a run is to be halted.
#[derive(Drop)]
pub(crate) struct HaltWatcher<'a, R: Drop> {
    rt: R,
    place: Place<'a>,
    path: Text,
    trusts_owner: bool,
    errors: Option<ErrorWatcher<'a>>,
    /// where the folder of the DAG file is, as far as the system said it
    seat: Option<Seat>,
    /// where the journal is, as far as the system said it
    journal: Option<Seat>,
    /// whether processes of an earlier manager were left for the file's sake
    leaves_orphans: bool,
    /// what asked for the halt
    pub(crate) cause: HaltCause,
}

impl<'a, R: Files + AllocGlobal + Drop> HaltWatcher<'a, R> {
    /// For a round of a plan whose journal is readied, as the options ask for it.
    ///
    /// # Errors
    /// Lack of memory.
    pub(crate) fn new(
        rt: R,
        place: &Place<'a>,
        plan: &'a Plan,
        round: &Round,
        options: &RunOptions,
    ) -> Result<HaltWatcher<'a, R>, AllocError> {
        let alloc = rt.alloc();
        let path = Text::joined(alloc, place.top, HALT)?;
        let errors = if options.stop_at_first_error {
            let records = records_before(&rt, place, plan, round);
            let before = records.as_ref().map(|records| records.as_slice());
            Some(ErrorWatcher::new(alloc, plan, before.unwrap_or(&[]))?)
        } else {
            None
        };
        let seat = seat_at(&rt, place);
        let journal = journal_seat_at(&rt, place);
        Ok(HaltWatcher {
            rt,
            place: *place,
            path,
            trusts_owner: options.trust_owner,
            errors,
            seat,
            journal,
            leaves_orphans: false,
            cause: HaltCause::File,
        })
    }

    /// What is done with processes that an earlier manager left: where the file asks for a halt, so that nothing is started in their
    /// place, they are left in place of killed. Then this run is halted, even if the file is removed meanwhile.
    pub(crate) fn rule_for(&mut self, rule: OrphanRule) -> OrphanRule {
        if rule == OrphanRule::Kill && self.is_asked() {
            self.leaves_orphans = true;
            return OrphanRule::Leave;
        }
        rule
    }

    /// Whether the folder of the DAG file has another name by now, or another folder has its name: what is started there is not of this
    /// round.
    fn has_moved(&self) -> bool {
        self.seat
            .map_or(false, |seat| has_moved(&self.rt, &self.place, seat))
    }

    /// Whether the journal was removed, or another file has its name by now: another manager may have begun beside this one. Where the
    /// system did not say before where the journal is, it is asked now, as the journal has its first records.
    fn is_journal_gone(&mut self) -> bool {
        match self.journal {
            Some(seat) => is_journal_gone(&self.rt, &self.place, seat),
            None => {
                self.journal = journal_seat_at(&self.rt, &self.place);
                false
            }
        }
    }

    /// Whether the file is there that asks for a halt, and was put there by nobody else.
    fn is_asked(&self) -> bool {
        let Ok(path) = self.place.at(self.rt.alloc(), self.path.as_str()) else {
            return false;
        };
        if fs::symlink_metadata(&self.rt, path.as_str()).is_err() {
            return false;
        }
        self.place
            .trusts(&self.rt, self.path.as_str(), self.trusts_owner)
            .is_ok()
    }

    /// A child runs.
    pub(crate) fn launched(&mut self, key: &Key) {
        if let Some(errors) = &mut self.errors {
            errors.launched(key);
        }
    }

    /// A child could not be started.
    pub(crate) fn not_started(&mut self, key: &Key) {
        if let Some(errors) = &mut self.errors {
            errors.not_started(key);
        }
    }

    /// A child has ended.
    pub(crate) fn ended(&mut self, key: &Key, outcome: Outcome) {
        if let Some(errors) = &mut self.errors {
            errors.ended(key, outcome);
        }
    }

    /// Whether nothing more is to be launched.
    pub(crate) fn halts(&mut self) -> bool {
        let has_failed = self
            .errors
            .as_ref()
            .map_or(false, |errors| errors.has_failed());
        let cause = if has_failed {
            HaltCause::Error
        } else if self.has_moved() {
            HaltCause::Moved
        } else if self.is_journal_gone() {
            HaltCause::JournalGone
        } else if self.leaves_orphans || self.is_asked() {
            HaltCause::File
        } else {
            return false;
        };
        self.cause = cause;
        true
    }
}
