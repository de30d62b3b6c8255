//! Lives of a manager over a disk in memory: each call that is refused memory is made once more, and after a fault of the disk
//! another life goes on.
ghost use Rattle.std.specs.Prelude.{◌<◌, ◌≤◌, IfOk, length};
ghost use Rattle.recovery_manager.specs.Managed.{plan_of, past_of};
ghost use Rattle.recovery_manager.specs.Seal.{IsSealOf};

use crate::disks::{ROOM, SLOTS};
use crate::made::{DIAMOND, NO_LIMITS, bare_plan};
use anyhow::{Result, bail};
use event_journal::{Disk, Journal, JournalFault, MemDisk};
use node_machine::{Key, Outcome, Record, Table, read_table};
use recovery::{Manager, ManagerFault, Sealed, begin, recover};
use run_plan::Plan;
use sched_core::Core;
use status_report::status_text;
use std::alloc::Global;

/// Begins a run where the disk is Fresh, and recovers it where a journal is.
pub fn life<'a>(
    alloc: Global,
    disk: MemDisk,
    plan: &'a Plan,
) -> Result<Manager<'a, MemDisk>, (MemDisk, ManagerFault)> {
    let mut disk = disk;
    match Journal::peek(alloc, &mut disk) {
        Ok(None) => begin(alloc, disk, plan, 0, 1, SLOTS, NO_LIMITS),
        Ok(Some(_)) => recover(alloc, disk, plan, SLOTS, NO_LIMITS),
        Err(JournalFault::Memory) => Err((disk, ManagerFault::Memory)),
        Err(fault) => Err((disk, ManagerFault::Journal(fault))),
    }
}

// What a step comes to.
enum Step {
    GoesOn,
    // The run is over.
    Over,
    // The disk failed: the life ends.
    Fails,
}

// Tells a fault; whether the same call is to be made again: it was refused memory, and nothing has changed.
fn again(rt: HostRuntime, name: &str, fault: ManagerFault, same: bool) -> Result<bool> {
    println!(rt; "{name} {fault}")?;
    match fault {
        ManagerFault::Memory if same => Ok(true),
        ManagerFault::Journal(JournalFault::Device) if same => Ok(false),
        _ => bail!("a refused call has changed something"),
    }
}

// The phases that are outstanding, as their launches stand in the records of this life.
fn outstanding(alloc: Global, core: &Core<'_>) -> Result<Vec<Key>> {
    let mut keys = Vec::new(alloc);
    for record in core.records() {
        match record {
            Record::Launch(key, _) if core.is_outstanding(key) && !keys.contains(key) => {
                keys.push(*key)?;
            }
            _ => {}
        }
    }
    Ok(keys)
}

// Launches a phase.
fn launch(rt: HostRuntime, manager: &mut Manager<'_, MemDisk>, key: Key) -> Result<Step> {
    let before = manager.core().records().len();
    for _ in 0..2 {
        let fault = match manager.launch(key) {
            Ok(number) => {
                println!(rt; "launch {number}")?;
                return Ok(Step::GoesOn);
            }
            Err(fault) => fault,
        };
        let same = manager.core().records().len() == before;
        if !again(rt, "launch", fault, same)? {
            return Ok(Step::Fails);
        }
    }
    bail!("memory is wanting twice");
}

// Launches several phases together.
fn launch_all(rt: HostRuntime, manager: &mut Manager<'_, MemDisk>, keys: &[Key]) -> Result<Step>
    requires some { 0 < length keys.now }
    requires few { length keys.now ≤ 64 }
{
    let before = manager.core().records().len();
    for _ in 0..2 {
        let fault = match manager.launch_batch(rt.alloc(), keys) {
            Ok(numbers) => {
                println!(rt; "launch_batch {numbers:?}")?;
                return Ok(Step::GoesOn);
            }
            Err(fault) => fault,
        };
        let same = manager.core().records().len() == before;
        if !again(rt, "launch_batch", fault, same)? {
            return Ok(Step::Fails);
        }
    }
    bail!("memory is wanting twice");
}

// How the outstanding phases end by a table, the one that was launched first before the others.
fn endings(alloc: Global, core: &Core<'_>, table: &Table) -> Result<Vec<(Key, Outcome)>> {
    let plan = core.plan();
    let mut ends = Vec::new(alloc);
    for key in &outstanding(alloc, core)? {
        if key.node <= plan.count() {
            let outcome = table.get(plan.spec(key.node).name(), key.attempt, key.phase);
            ends.push((*key, outcome))?;
        }
    }
    Ok(ends)
}

// Records an ending.
fn record(
    rt: HostRuntime,
    manager: &mut Manager<'_, MemDisk>,
    key: Key,
    outcome: Outcome,
) -> Result<Step> {
    let before = manager.core().records().len();
    for _ in 0..2 {
        let fault = match manager.record_end(key, outcome) {
            Ok(()) => {
                println!(rt; "record_end {outcome:?}")?;
                return Ok(Step::GoesOn);
            }
            Err(fault) => fault,
        };
        let same = manager.core().records().len() == before;
        if !again(rt, "record_end", fault, same)? {
            return Ok(Step::Fails);
        }
    }
    bail!("memory is wanting twice");
}

// Records several endings together.
fn record_all(
    rt: HostRuntime,
    manager: &mut Manager<'_, MemDisk>,
    ends: &[(Key, Outcome)],
) -> Result<Step>
    requires some { 0 < length ends.now }
    requires few { length ends.now ≤ 64 }
{
    let before = manager.core().records().len();
    for _ in 0..2 {
        let fault = match manager.record_batch(rt.alloc(), ends) {
            Ok(count) => {
                println!(rt; "record_batch {count}")?;
                return Ok(Step::GoesOn);
            }
            Err(fault) => fault,
        };
        let same = manager.core().records().len() == before;
        if !again(rt, "record_batch", fault, same)? {
            return Ok(Step::Fails);
        }
    }
    bail!("memory is wanting twice");
}

// The seal of a run that owes a rescue file, by the same disk once more where that is refused.
fn sealed<D: Disk + Drop, R: Disk + Drop>(
    rt: HostRuntime,
    manager: &Manager<'_, D>,
    disk: R,
) -> Result<Sealed<R>>
    ensures { IfOk result (λ seal. IsSealOf R.Disk (plan_of manager.now) (past_of manager.now) seal) }
{
    let mut disk = disk;
    for _ in 0..2 {
        match manager.write_rescue(rt.alloc(), disk) {
            Ok(seal) => return Ok(seal),
            Err((back, fault)) => {
                disk = back;
                println!(rt; "write_rescue {fault}")?;
            }
        }
    }
    bail!("memory is wanting twice");
}

// The seal of a run that may end, with a rescue file where it owes one.
fn sealed_as_due<D: Disk + Drop, R: Disk + Drop>(
    rt: HostRuntime,
    manager: &Manager<'_, D>,
    disk: R,
) -> Result<Sealed<R>>
    ensures { IfOk result (λ seal. IsSealOf R.Disk (plan_of manager.now) (past_of manager.now) seal) }
{
    if manager.core().needs_rescue() {
        return sealed(rt, manager, disk);
    }
    match manager.no_rescue() {
        Ok(seal) => Ok(seal),
        Err(fault) => bail!("no seal: {fault}"),
    }
}

// What the run ended with.
fn ended(rt: HostRuntime, rescue: Option<MemDisk>) -> Result<Step> {
    println!(rt; "finish")?;
    if let Some(disk) = rescue {
        print_bytes(rt, disk.bytes())?;
    }
    Ok(Step::Over)
}

// Records the end of the run, by the same seal once more where that is refused.
fn finish(rt: HostRuntime, manager: &mut Manager<'_, MemDisk>) -> Result<Step> {
    let seal = sealed_as_due(rt, manager, MemDisk::new(rt.alloc(), ROOM))?;
    let (seal, fault) = match manager.finish(seal) {
        Ok(rescue) => return ended(rt, rescue),
        Err(refused) => refused,
    };
    let same = !manager.core().is_over();
    if !again(rt, "finish", fault, same)? {
        return Ok(Step::Fails);
    }
    match manager.finish(seal) {
        Ok(rescue) => ended(rt, rescue),
        Err((_seal, _fault)) => bail!("memory is wanting twice"),
    }
}

fn print_bytes(rt: HostRuntime, bytes: &[u8]) -> Result<()> {
    match std::str::from_utf8(bytes) {
        Ok(text) => println!(rt; "rescue\n{text}")?,
        Err(_) => bail!("no text"),
    }
    Ok(())
}

// What may be launched now.
fn round(rt: HostRuntime, manager: &Manager<'_, MemDisk>) -> Result<Vec<Key>> {
    for _ in 0..2 {
        match manager.plan_round(rt.alloc(), 64) {
            Ok(keys) => {
                println!(rt; "plan_round {}", keys.len())?;
                return Ok(keys);
            }
            Err(fault) => println!(rt; "plan_round {fault}")?,
        }
    }
    bail!("memory is wanting twice");
}

// Launches what may be launched; else records how what runs ends; else the end of the run.
fn take_step(rt: HostRuntime, manager: &mut Manager<'_, MemDisk>, table: &Table) -> Result<Step> {
    let keys = round(rt, manager)?;
    if keys.len() == 1 {
        return launch(rt, manager, keys[0]);
    }
    if 1 < keys.len() && keys.len() <= 64 {
        return launch_all(rt, manager, &keys);
    }
    let ends = endings(rt.alloc(), manager.core(), table)?;
    if ends.len() == 1 {
        let (key, outcome) = ends[0];
        return record(rt, manager, key, outcome);
    }
    if 1 < ends.len() && ends.len() <= 64 {
        return record_all(rt, manager, &ends);
    }
    finish(rt, manager)
}

// Goes so many steps; whether the run is over.
fn lived(
    rt: HostRuntime,
    manager: &mut Manager<'_, MemDisk>,
    table: &Table,
    most: u32,
) -> Result<bool> {
    for _ in 0..most {
        match take_step(rt, manager, table)? {
            Step::GoesOn => {}
            Step::Over => return Ok(true),
            Step::Fails => return Ok(false),
        }
    }
    Ok(false)
}

/// Opens a life, once more where it is refused.
fn opened<'a>(rt: HostRuntime, disk: MemDisk, plan: &'a Plan) -> Result<Manager<'a, MemDisk>> {
    let mut disk = disk;
    for _ in 0..2 {
        match life(rt.alloc(), disk, plan) {
            Ok(manager) => return Ok(manager),
            Err((back, fault)) => {
                println!(rt; "life {fault}")?;
                disk = back;
            }
        }
    }
    bail!("memory is wanting twice");
}

/// A core's records, which have to begin with those that are acknowledged.
pub fn behind(alloc: Global, core: &Core<'_>, acknowledged: &[Record]) -> Result<Vec<Record>> {
    if !core.records().starts_with(acknowledged) {
        bail!("an acknowledged record is lost");
    }
    Ok(Vec::from_slice(alloc, core.records())?)
}

/// What the nodes came to.
pub fn print_end(rt: HostRuntime, core: &Core<'_>) -> Result<()> {
    let text = status_text(rt.alloc(), core)?;
    println!(rt; "end\n{text}")?;
    Ok(())
}

/// How many steps each life goes.
static LIVES: [u32; 3] = [3, 100, 100];

fn run(rt: HostRuntime, plan: &Plan, table: &Table) -> Result<()> {
    let mut disk = MemDisk::new(rt.alloc(), ROOM);
    let mut acknowledged = Vec::new(rt.alloc());
    for most in LIVES {
        let mut manager = opened(rt, disk, plan)?;
        acknowledged = behind(rt.alloc(), manager.core(), &acknowledged)?;
        println!(rt; "life")?;
        if lived(rt, &mut manager, table, most)? {
            return print_end(rt, manager.core());
        }
        acknowledged = behind(rt.alloc(), manager.core(), &acknowledged)?;
        disk = manager.into_disk();
    }
    bail!("the run doesn't end");
}

/// How the jobs end of each run.
pub static TABLES: [&[u8]; 2] = [b"", b"C 0 JOB 3\n"];

/// Makes each call, and once more where it wants memory.
pub fn make_calls(rt: HostRuntime) -> Result<()> {
    let plan = bare_plan(rt.alloc(), DIAMOND)?;
    for outcomes in TABLES {
        let Ok(table) = read_table(rt.alloc(), outcomes) else {
            bail!("N4 Memory");
        };
        run(rt, &plan, &table)?;
    }
    drop(plan);
    Ok(())
}
