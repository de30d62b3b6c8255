//! The first life of a run, over the file of a journal: four records, and no child.

use crate::disks::SLOTS;
use crate::made::{DIAMOND, File, NO_LIMITS, fault_of, files_of, graph_of};
use anyhow::{Result, bail};
use event_journal::FileDisk;
use node_machine::{Key, Outcome, Phase};
use recovery::begin;
use run_plan::Plan;
use std::alloc::Global;

/// The files of the folder, which a test writes there.
static FILES: [File; 5] = [
    ("x.dag", DIAMOND),
    (
        "a.sub",
        "executable = /bin/echo\narguments = a\noutput = a.out\nqueue\n",
    ),
    (
        "b.sub",
        "executable = /bin/echo\narguments = b\noutput = b.out\nqueue\n",
    ),
    (
        "c.sub",
        "executable = /bin/echo\narguments = c\noutput = c.out\nqueue\n",
    ),
    (
        "d.sub",
        "executable = /bin/echo\narguments = d\noutput = d.out\nqueue\n",
    ),
];

fn plan(alloc: Global) -> Result<Plan> {
    let files = files_of(alloc, &FILES)?;
    let graph = graph_of(alloc, &files, "x.dag")?;
    match Plan::build(alloc, graph, &files, None, false) {
        Ok(plan) => Ok(plan),
        Err(refused) => Err(fault_of(refused).into()),
    }
}

/// The job of a node in its first attempt.
fn job(node: u32) -> Key {
    Key {
        node,
        attempt: 0,
        phase: Phase::Job,
    }
}

// Life, the launch and the end of A, the launch of B.
fn live(rt: HostRuntime, plan: &Plan) -> Result<()> {
    let path = String::from_str(rt.alloc(), "x.dag.journal")?;
    let disk = FileDisk::at(rt, path);
    let mut manager = match begin(rt.alloc(), disk, plan, 0, 1, SLOTS, NO_LIMITS) {
        Ok(manager) => manager,
        Err((_disk, fault)) => bail!("{fault}"),
    };
    let first = manager.launch(job(0))?;
    manager.record_end(job(0), Outcome::Exit(0))?;
    let second = manager.launch(job(1))?;
    println!(rt;
        "launched {first} {second}, {} records",
        manager.core().records().len()
    )?;
    Ok(())
}

/// Writes the journal of x.dag into the current folder.
pub fn make_calls(rt: HostRuntime) -> Result<()> {
    let plan = plan(rt.alloc())?;
    let answer = live(rt, &plan);
    drop(plan);
    answer
}
