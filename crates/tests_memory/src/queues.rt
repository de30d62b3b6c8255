//! The calls of queues and throttles that take memory.
ghost use Rattle.std.specs.Prelude.{◌≤◌};

use crate::made::NO_LIMITS;
use crate::said::say;
use anyhow::{Result, bail};
use node_machine::Phase;
use ready_queue::{Member, ReadyQueue};
use std::alloc::{AllocError, Global};
use throttles::{Limits, ThrottleFault, Throttles};

/// Three members, best first.
static THREE: [Member; 3] = [
    Member {
        node: 1,
        priority: 5,
    },
    Member {
        node: 0,
        priority: 0,
    },
    Member {
        node: 2,
        priority: 0,
    },
];

// Adds the three, and tells the best of all and of those that are not node 1.
fn fill(rt: HostRuntime, queue: &mut ReadyQueue) -> Result<()>
    requires { 3 ≤ queue.old.room }
{
    queue.add(THREE[2])?;
    queue.add(THREE[1])?;
    queue.add(THREE[0])?;
    let best = queue.best_where(|_| true).map(|found| found.node);
    let other = queue.best_where(|node| node != 1).map(|found| found.node);
    println!(rt; "best_where {best:?} {other:?}")?;
    Ok(())
}

// Makes room for three members, once more where memory is out, and adds them.
fn filled(rt: HostRuntime, queue: &mut ReadyQueue) -> Result<()> {
    for _ in 0..2 {
        match queue.reserve(3) {
            Ok(()) => return fill(rt, queue),
            Err(fault) if queue.members().is_empty() => println!(rt; "reserve {fault}")?,
            Err(_) => bail!("a refused call has added members"),
        }
    }
    bail!("memory is wanting twice");
}

fn reserve_line(alloc: Global, queue: &mut ReadyQueue) -> Result<String, AllocError> {
    let answer = queue.reserve(100);
    let same = queue.members() == THREE.as_slice();
    match answer {
        Ok(()) => format!(in alloc; "reserve_more {same}"),
        Err(fault) if same => format!(in alloc; "reserve_more {fault}"),
        Err(_) => format!(in alloc; "reserve_more changed"),
    }
}

const ONE_JOB: Limits = Limits {
    jobs: 1,
    ..NO_LIMITS
};

// What is answered to a second job, and to the end of a PRE script that is not there.
fn throttled(alloc: Global) -> Result<(ThrottleFault, ThrottleFault), ThrottleFault> {
    let mut throttles = Throttles::new(alloc, ONE_JOB, &[4, 5])?;
    throttles.start(Phase::Job, None)?;
    let second = throttles.start(Phase::Job, None);
    let end = throttles.end(Phase::Pre, None);
    match (second, end) {
        (Err(full), Err(none)) => Ok((full, none)),
        _ => Err(ThrottleFault::Memory),
    }
}

fn throttles_line(alloc: Global) -> Result<String, AllocError> {
    match throttled(alloc) {
        Ok((full, none)) => format!(in alloc; "new {full}, {none}"),
        Err(fault) => format!(in alloc; "new {fault}"),
    }
}

/// Makes each call, and once more where it wants memory.
pub fn make_calls(rt: HostRuntime) -> Result<()> {
    let mut queue = ReadyQueue::new(rt.alloc());
    filled(rt, &mut queue)?;
    if say(rt, reserve_line(rt.alloc(), &mut queue))? {
        say(rt, reserve_line(rt.alloc(), &mut queue))?;
    }
    if say(rt, throttles_line(rt.alloc()))? {
        say(rt, throttles_line(rt.alloc()))?;
    }
    Ok(())
}
