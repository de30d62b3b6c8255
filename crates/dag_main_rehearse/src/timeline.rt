//! The time, and the children that run.
ghost use Rattle.std.specs.Prelude.{◌≡◌, [], IfOk, OnOk, OnErr, reverse, if◌then◌else◌};
ghost use Rattle.sched_core.specs.Run.{is_same};
ghost use Rattle.dag_main_rehearse.specs.Timed.{moment_of, with_start, end_among, with_end, with_kill, moment_with, moment_after, sooner_of, next_to_end, timings_of};

use crate::timetable::Timetable;
use job_starter_drive::{Call, Started, are_same};
use node_machine::Key;
use std::alloc::{AllocError, Global};

/// A child that runs, and when it ends.
#[derive(Clone, Copy)]
pub(crate) struct Child {
    pub(crate) key: Key,
    pub(crate) ends_at: u64,
}

/// Of a child and an older one, if there is one, the one that ends first.
fn sooner_of(child: &Child, older: Option<Child>) -> Child
    ensures { result ≡ sooner_of child.now older }
{
    match older {
        Some(older) if older.ends_at <= child.ends_at => older,
        _ => *child,
    }
}

/// The end of a child, where it is of this key, else another time.
fn end_by(child: &Child, key: &Key, other: u64) -> u64
    ensures { result ≡ (if is_same key.now child.now.key then child.now.ends_at else other) }
{
    if are_same(key, &child.key) {
        child.ends_at
    } else {
        other
    }
}

/// When the child of a key ends, of children in the order of their starts; now, where no such child runs.
fn end_among(children: &[Child], key: &Key, now: u64) -> u64
    ensures { result ≡ end_among key.now now (reverse children.now) }
{
    let mut end = now;
    for child in children {
        end = end_by(child, key, end);
    }
    end
}

/// The child that ends next, of children in the order of their starts; none, where there is none.
fn next_to_end(children: &[Child]) -> Option<Child>
    ensures { result ≡ next_to_end (reverse children.now) }
{
    let mut next = None;
    for child in children {
        next = Some(sooner_of(child, next));
    }
    next
}

/// The time, and the children that run, in the order of their starts.
#[derive(Drop)]
pub(crate) struct Timeline {
    clock: u64,
    children: Vec<Child>,
}

impl Timeline {
    /// The beginning: no child runs.
    pub(crate) fn new(alloc: Global) -> Timeline
        ensures { moment_of result ≡ record { clock = 0; children = [] } }
    {
        Timeline {
            clock: 0,
            children: Vec::new(alloc),
        }
    }

    /// A child was to be started, that takes so long.
    pub(crate) fn starts(&mut self, key: Key, took: u64, answer: Started) -> Result<(), AllocError>
        ensures ok { OnOk result (moment_of self.new ≡ with_start key took answer (moment_of self.old)) }
        ensures err { OnErr result (moment_of self.new ≡ moment_of self.old) }
    {
        match answer {
            Started::Running => {
                let ends_at = self.clock.saturating_add(took);
                self.children.push(Child { key, ends_at })?;
                Ok(())
            }
            Started::NotStarted => Ok(()),
        }
    }

    /// The child of a key is gone.
    pub(crate) fn loses(&mut self, key: &Key)
        ensures { moment_of self.new ≡ with_kill key.now (moment_of self.old) }
    {
        self.children.retain(|child| !are_same(key, &child.key));
    }

    /// The child of a key ends, and it is the time of its end.
    pub(crate) fn ends(&mut self, key: &Key)
        ensures { moment_of self.new ≡ with_end key.now (moment_of self.old) }
    {
        self.clock = end_among(&self.children, key, self.clock);
        self.loses(key);
    }

    /// The child that ends next; none, where none runs.
    pub(crate) fn next(&self) -> Option<Child>
        ensures { result ≡ next_to_end (moment_of self.now).children }
    {
        next_to_end(&self.children)
    }

    /// A call is answered.
    fn goes_on(&mut self, timetable: &Timetable, call: &Call) -> Result<(), AllocError>
        ensures { OnOk result (moment_of self.new ≡ moment_with (timings_of timetable.now) call.now (moment_of self.old)) }
    {
        match call {
            Call::Started(key, _, answer) => {
                let took = timetable.timing(key).took;
                self.starts(*key, took, *answer)?;
            }
            Call::Ended(key, _) => self.ends(key),
            Call::Killed(key) => self.loses(key),
            Call::HaltSeen => {}
        }
        Ok(())
    }
}

/// The time after these calls, where children take as long as a timetable says: it begins at 0, and goes on to the end of each child
/// that ended.
///
/// # Errors
/// Lack of memory.
pub(crate) fn time_after(
    alloc: Global,
    timetable: &Timetable,
    calls: &[Call],
) -> Result<u64, AllocError>
    ensures { IfOk result (λ time. time ≡ (moment_after (timings_of timetable.now) (reverse calls.now)).clock) }
{
    let mut timeline = Timeline::new(alloc);
    for call in calls {
        timeline.goes_on(timetable, call)?;
    }
    Ok(timeline.clock)
}
