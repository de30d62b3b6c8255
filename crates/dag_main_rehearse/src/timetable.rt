//! How long children take, and how they end.
ghost use Rattle.std.specs.Prelude.{◌≡◌, ◌<◌, length, reverse, OnOk, if◌then◌else◌};
ghost use Rattle.sched_core.specs.Run.{is_same};
ghost use Rattle.node_machine.specs.declared.Key.{Key};
ghost use Rattle.dag_main_rehearse.specs.Timed.{no_timing, timing_among, timings_of, with_timing};

use job_starter_drive::are_same;
use node_machine::{Key, Outcome};
use std::alloc::{AllocError, Global};

/// How long a child takes, in milliseconds or in any other unit, and how it ends.
#[derive(Clone, Copy, Debug, PartialEq, Eq)]
pub struct Timing {
    pub took: u64,
    pub outcome: Outcome,
}

/// The timing of a key.
#[derive(Clone, Copy)]
struct Timed {
    key: Key,
    timing: Timing,
}

/// The timings of the keys of a node, in the order in which they were set.
#[derive(Drop)]
struct NodeTimings {
    entries: Vec<Timed>,
}

/// What is said of a child of which nothing is said: it takes no time and exits with 0.
const NO_TIMING: Timing = Timing {
    took: 0,
    outcome: Outcome::Exit(0),
};

/// The timing of an entry, where it is of this key, else another one.
fn timing_by(timed: &Timed, key: &Key, other: Timing) -> Timing
    ensures { result ≡ (if is_same key.now timed.now.key then timed.now.timing else other) }
{
    if are_same(key, &timed.key) {
        timed.timing
    } else {
        other
    }
}

/// What entries say of a key: the last that is of this key counts.
fn timing_among(entries: &[Timed], key: &Key) -> Timing
    ensures { result ≡ timing_among (reverse entries.now) key.now }
{
    let mut timing = NO_TIMING;
    for timed in entries {
        timing = timing_by(timed, key, timing);
    }
    timing
}

/// How long the child of each key takes, and how it ends.
#[derive(Drop)]
pub struct Timetable {
    /// the timings of the nodes, by their numbers
    nodes: Vec<NodeTimings>,
}

impl Timetable {
    /// A timetable by which each child takes no time and exits with 0.
    pub fn new(alloc: Global) -> Timetable
        ensures { (key : Key) → timings_of result key ≡ no_timing }
    {
        Timetable {
            nodes: Vec::new(alloc),
        }
    }

    /// What it says of a key.
    pub fn timing(&self, key: &Key) -> Timing
        ensures { result ≡ timings_of self.now key.now }
    {
        match self.nodes.get(key.node as usize) {
            Some(node) => timing_among(&node.entries, key),
            None => NO_TIMING,
        }
    }

    /// Makes room for the timings of a node.
    fn reach(&mut self, alloc: Global, node: u32) -> Result<(), AllocError>
        ensures same { OnOk result ((key : Key) → timings_of self.new key ≡ timings_of self.old key) }
        ensures room { OnOk result (node < length self.new.nodes.items) }
    {
        while self.nodes.len() <= node as usize {
            self.nodes.push(NodeTimings {
                entries: Vec::new(alloc),
            })?;
        }
        Ok(())
    }

    /// Says this of a key, in place of what was said of it before.
    pub fn set(&mut self, alloc: Global, key: Key, timing: Timing) -> Result<(), AllocError>
        ensures { OnOk result ((other : Key) → timings_of self.new other ≡ with_timing key timing (timings_of self.old) other) }
    {
        self.reach(alloc, key.node)?;
        self.nodes[key.node as usize]
            .entries
            .push(Timed { key, timing })?;
        Ok(())
    }
}
