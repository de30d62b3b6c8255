//! Whether a node has come to be in error, by what is done with the children of a run.

use crate::tally::Tally;
use node_machine::{Key, Outcome, Record};
use run_plan::Plan;
use std::alloc::{AllocError, Global};

/// It learns what is done with the children of a run, and so whether a node has failed for good since.
#[derive(Drop)]
pub struct ErrorWatcher<'a> {
    alloc: Global,
    plan: &'a Plan,
    tally: Tally,
    /// how many nodes had failed before
    failed_before: u32,
    /// whether memory was refused, so that it isn't known any more: that is taken as an error
    is_lost: bool,
}

impl<'a> ErrorWatcher<'a> {
    /// Of a run of this plan, after these records of earlier managers: what had failed by then doesn't count.
    ///
    /// # Errors
    /// Lack of memory.
    pub fn new(
        alloc: Global,
        plan: &'a Plan,
        records: &[Record],
    ) -> Result<ErrorWatcher<'a>, AllocError> {
        let tally = Tally::new(alloc, plan, records)?;
        let failed_before = tally.counts().failed;
        Ok(ErrorWatcher {
            alloc,
            plan,
            tally,
            failed_before,
            is_lost: false,
        })
    }

    /// A child runs.
    pub fn launched(&mut self, key: &Key) {
        let _ = self.tally.launched(self.plan, key);
    }

    /// A child could not be started.
    pub fn not_started(&mut self, key: &Key) {
        self.launched(key);
        self.ended(key, Outcome::NoStart);
    }

    /// A child has ended.
    pub fn ended(&mut self, key: &Key, outcome: Outcome) {
        if self
            .tally
            .ended(self.alloc, self.plan, key, outcome)
            .is_err()
        {
            self.is_lost = true;
        }
    }

    /// Whether a node has failed for good.
    pub fn has_failed(&self) -> bool {
        self.is_lost || self.tally.counts().failed > self.failed_before
    }
}
