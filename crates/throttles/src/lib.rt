//! Limits on how many phases run at once: PRE scripts, jobs, POST scripts, all together, and the
//! jobs of each category that has a MAXJOBS. Categories go by their places among these.
//!
//! The rules are those of the HTCondor manual, "Throttling nodes by category" and the options of
//! `condor_submit_dag`, as docs/MANUAL.md states them.
#![tactic(auto)]

ghost use Rattle.std.specs.Prelude.{◌≡◌, ◌==◌, ◌<◌, ◌^◌, ◌+◌, ◌↔◌, IsTrue, IsOk, IfOk, IfErr, OnOk, OnErr};
ghost use Rattle.throttles.specs.Throttled.{Throttled, is_below, limit_of, of_kind, all_in, such_in, lets_phase, may_start, none_running, with_one, without_one, IsPlace};
ghost use Rattle.throttles.specs.declared.ThrottleFault.TheVariants.{Full, NoneRunning, Memory};

pub mod laws;

use node_machine::Phase;
use std::alloc::{AllocError, AllocFailed, Global};
use std::marker::Model;
use thiserror::Error;

/// How many phases may run at once. 0 is no limit.
#[derive(Clone, Copy, Debug, PartialEq, Eq)]
pub struct Limits {
    pub jobs: u32,
    pub pre: u32,
    pub post: u32,
    /// Of all kinds together; the job of a NOOP counts too.
    pub children: u32,
}

/// Why a call of throttles is refused.
#[derive(Clone, Copy, Debug, PartialEq, Eq, Error)]
pub enum ThrottleFault {
    /// A limit that counts the phase is reached.
    #[error("H1 Full")]
    Full,
    /// A phase ends, and none of its kind and category runs.
    #[error("H2 NoneRunning")]
    NoneRunning,
    /// Memory was refused.
    #[error("H3 Memory")]
    Memory,
}

impl From<AllocError> for ThrottleFault {
    ghost from_gives = { λ _ fault. fault ≡ Memory };

    fn from(_e: AllocError) -> ThrottleFault {
        ThrottleFault::Memory
    }
}

impl<T: Drop> From<AllocFailed<T>> for ThrottleFault {
    ghost from_gives = { λ _ fault. fault ≡ Memory };

    fn from(_e: AllocFailed<T>) -> ThrottleFault {
        ThrottleFault::Memory
    }
}

/// Limits, and how many phases run.
#[derive(Drop)]
pub struct Throttles {
    limits: Limits,
    categories: Vec<u32>,
    pre: u64,
    /// jobs that are in no category with a limit
    free_jobs: u64,
    /// the jobs of each category with a limit
    category_jobs: Vec<u64>,
    /// all jobs
    jobs: u64,
    post: u64,
}

impl Model for Throttles {
    ghost use Rattle.std.specs.Prelude.{◌≡◌, ◌+◌, ◌<◌, ◌^◌, sum, length};
    ghost use Rattle.throttles.specs.Throttled.{Throttled, AreKept};

    ghost Value = { Throttled };

    ghost view = { λ a. record {
      limits = a.limits;
      categories = a.categories.items;
      running = record { pre = a.pre; free_jobs = a.free_jobs; category_jobs = a.category_jobs.items; post = a.post };
    } };

    ghost invariant = { λ a. AreKept (record {
      limits = a.limits;
      categories = a.categories.items;
      running = record { pre = a.pre; free_jobs = a.free_jobs; category_jobs = a.category_jobs.items; post = a.post };
    }) a.jobs };
}

/// Whether so many may be one more under this limit.
fn is_room(limit: u32, count: u64) -> bool
    ensures { result ≡ is_below limit count }
{
    limit == 0 || count < u64::from(limit)
}

fn limit_by(limits: &Limits, phase: Phase) -> u32
    ensures { result ≡ limit_of limits.now phase }
{
    match phase {
        Phase::Pre => limits.pre,
        Phase::Job => limits.jobs,
        Phase::Post => limits.post,
    }
}

impl Throttles {
    /// Nothing runs yet. Each category that has a limit goes by its place among these limits.
    pub fn new(
        alloc: Global,
        limits: Limits,
        categories: &[u32],
    ) -> Result<Throttles, ThrottleFault>
        ensures ok { IfOk result (λ t. t ≡ record { limits = limits; categories = categories.now; running = none_running categories.now }) }
        ensures err { IfErr result (λ fault. fault ≡ Memory) }
    {
        let category_jobs = vec![in alloc; 0; categories.len()]?;
        Ok(Throttles {
            limits,
            categories: Vec::from_slice(alloc, categories)?,
            pre: 0,
            free_jobs: 0,
            category_jobs,
            jobs: 0,
            post: 0,
        })
    }

    /// The same limits and counts once more.
    pub fn copied(&self, alloc: Global) -> Result<Throttles, ThrottleFault>
        ensures ok { IfOk result (λ t. t ≡ self.now) }
        ensures err { IfErr result (λ fault. fault ≡ Memory) }
    {
        let categories = Vec::from_slice(alloc, &self.categories)?;
        let category_jobs = Vec::from_slice(alloc, &self.category_jobs)?;
        Ok(Throttles {
            limits: self.limits,
            categories,
            pre: self.pre,
            free_jobs: self.free_jobs,
            category_jobs,
            jobs: self.jobs,
            post: self.post,
        })
    }

    /// The limits that were handed in.
    pub fn limits(&self) -> Limits
        ensures { result ≡ self.now.limits }
    {
        self.limits
    }

    /// Whether nothing runs.
    pub fn is_idle(&self) -> bool
        ensures { result ≡ (all_in self.now.running == 0) }
    {
        self.pre + self.jobs + self.post == 0
    }

    /// Whether no limit that counts this phase is reached.
    pub fn may_start(&self, phase: Phase, category: Option<usize>) -> bool
        requires { IsPlace self.now.categories category }
        ensures { result ≡ may_start self.now phase category }
    {
        is_room(self.limits.children, self.pre + self.jobs + self.post)
            && is_room(limit_by(&self.limits, phase), self.count(phase))
            && self.lets_phase(phase, category)
    }

    fn count(&self, phase: Phase) -> u64
        ensures { result ≡ of_kind phase self.now.running }
    {
        match phase {
            Phase::Pre => self.pre,
            Phase::Job => self.jobs,
            Phase::Post => self.post,
        }
    }

    fn lets_phase(&self, phase: Phase, category: Option<usize>) -> bool
        requires { IsPlace self.now.categories category }
        ensures { result ≡ lets_phase self.now phase category }
    {
        match (phase, category) {
            (Phase::Job, Some(place)) => {
                is_room(self.categories[place], self.category_jobs[place])
            }
            _ => true,
        }
    }

    /// The phase starts, where no limit that counts it is reached. Where none is given, 2^64 - 1 phases may run.
    ///
    /// # Errors
    /// `Full` where it does not start.
    pub fn start(&mut self, phase: Phase, category: Option<usize>) -> Result<(), ThrottleFault>
        requires { IsPlace self.old.categories category }
        ensures lets { IsOk result ↔ (IsTrue (may_start self.old phase category) × (all_in self.old.running + 1 < 2 ^ 64)) }
        ensures ok { OnOk result (self.new ≡ record self.old { running = with_one self.old.running phase category }) }
        ensures unchanged { OnErr result (self.new ≡ self.old) }
        ensures err { IfErr result (λ fault. fault ≡ Full) }
    {
        let counts_on = self.pre + self.jobs + self.post < u64::MAX;
        if counts_on && self.may_start(phase, category) {
            self.note(phase, category);
            Ok(())
        } else {
            Err(ThrottleFault::Full)
        }
    }

    /// The phase runs: it is counted, over a limit too.
    pub fn note(&mut self, phase: Phase, category: Option<usize>)
        requires place { IsPlace self.old.categories category }
        requires room { all_in self.old.running + 1 < 2 ^ 64 }
        ensures { self.new ≡ record self.old { running = with_one self.old.running phase category } }
    {
        match phase {
            Phase::Pre => self.pre += 1,
            Phase::Post => self.post += 1,
            Phase::Job => {
                self.jobs += 1;
                match category {
                    None => self.free_jobs += 1,
                    Some(place) => self.category_jobs[place] += 1,
                }
            }
        }
    }

    /// How many of the phase's kind and category run.
    fn such(&self, phase: Phase, category: Option<usize>) -> u64
        requires { IsPlace self.now.categories category }
        ensures { result ≡ such_in self.now.running phase category }
    {
        match (phase, category) {
            (Phase::Pre, _) => self.pre,
            (Phase::Post, _) => self.post,
            (Phase::Job, None) => self.free_jobs,
            (Phase::Job, Some(place)) => self.category_jobs[place],
        }
    }

    /// The phase ends.
    pub fn end(&mut self, phase: Phase, category: Option<usize>) -> Result<(), ThrottleFault>
        requires { IsPlace self.old.categories category }
        ensures runs { IsOk result ↔ (0 < such_in self.old.running phase category) }
        ensures ok { OnOk result (self.new ≡ record self.old { running = without_one self.old.running phase category }) }
        ensures unchanged { OnErr result (self.new ≡ self.old) }
        ensures err { IfErr result (λ fault. fault ≡ NoneRunning) }
    {
        if self.such(phase, category) == 0 {
            return Err(ThrottleFault::NoneRunning);
        }
        self.uncount(phase, category);
        Ok(())
    }

    fn uncount(&mut self, phase: Phase, category: Option<usize>)
        requires place { IsPlace self.old.categories category }
        requires runs { 0 < such_in self.old.running phase category }
        ensures { self.new ≡ record self.old { running = without_one self.old.running phase category } }
    {
        match phase {
            Phase::Pre => self.pre -= 1,
            Phase::Post => self.post -= 1,
            Phase::Job => {
                self.jobs -= 1;
                match category {
                    None => self.free_jobs -= 1,
                    Some(place) => self.category_jobs[place] -= 1,
                }
            }
        }
    }

    /// Nothing runs any more.
    pub fn clear(&mut self)
        ensures { self.new ≡ record self.old { running = none_running self.old.categories } }
    {
        self.pre = 0;
        self.free_jobs = 0;
        self.jobs = 0;
        self.post = 0;
        self.category_jobs.fill(0);
    }
}
