//! Runs by a script over a disk in memory, of which each fault ends a life; the next one begins or recovers.
ghost use Rattle.std.specs.Prelude.{◌≡◌, IfOk};
ghost use Rattle.node_machine.specs.OutcomeTable.{HasPossibleOutcomes};
ghost use Rattle.recovery_manager.specs.Managed.{plan_of, past_of};
ghost use Rattle.recovery.specs.Recovery.{IsNewLife};

use crate::disks::{ROOM, SLOTS};
use crate::lives::{TABLES, behind, print_end};
use crate::made::{DIAMOND, NO_LIMITS, bare_plan};
use anyhow::{Result, bail};
use event_journal::{Journal, JournalFault, MemDisk};
use job_starter_drive::{Script, ScriptedStarter, drive, launch_round};
use node_machine::{Record, Table, read_table};
use recovery::{Manager, ManagerFault, begin, recover};
use run_plan::Plan;
use std::alloc::Global;

// Begins a run where the disk is Fresh, and recovers it where a journal is.
fn life<'a>(
    alloc: Global,
    disk: MemDisk,
    plan: &'a Plan,
) -> Result<Manager<'a, MemDisk>, (MemDisk, ManagerFault)>
    ensures plan { IfOk result (λ manager. plan_of manager ≡ plan.now) }
    ensures life { IfOk result (λ manager. IsNewLife (past_of manager)) }
{
    let mut disk = disk;
    match Journal::peek(alloc, &mut disk) {
        Ok(None) => begin(alloc, disk, plan, 0, 1, SLOTS, NO_LIMITS),
        Ok(Some(_)) => recover(alloc, disk, plan, SLOTS, NO_LIMITS),
        Err(JournalFault::Memory) => Err((disk, ManagerFault::Memory)),
        Err(fault) => Err((disk, ManagerFault::Journal(fault))),
    }
}

/// The script by which children end in the order of their starts, and no call is refused.
fn in_order(alloc: Global) -> Script {
    Script {
        places: Vec::new(alloc),
        failing_start: None,
        failing_wait: None,
        lets_go: false,
    }
}

// Launches what may be launched at once.
fn one_round(
    rt: HostRuntime,
    manager: &mut Manager<'_, MemDisk>,
    plan: &Plan,
    table: &Table,
) -> Result<()>
    requires plan { plan_of manager.old ≡ plan.now }
    requires life { IsNewLife (past_of manager.old) }
    requires table { HasPossibleOutcomes table.now }
{
    let mut starter = ScriptedStarter::new(rt.alloc(), plan, table, in_order(rt.alloc()));
    match launch_round(rt.alloc(), manager, plan, &mut starter) {
        Ok(()) => println!(rt; "launch_round {}", manager.core().records().len())?,
        Err(fault) => println!(rt; "launch_round {fault}")?,
    }
    Ok(())
}

// Goes on to the end of the run, or to a fault; whether it is the end.
fn to_the_end(
    rt: HostRuntime,
    manager: &mut Manager<'_, MemDisk>,
    plan: &Plan,
    table: &Table,
) -> Result<bool>
    requires plan { plan_of manager.old ≡ plan.now }
    requires life { IsNewLife (past_of manager.old) }
    requires table { HasPossibleOutcomes table.now }
{
    let mut starter = ScriptedStarter::new(rt.alloc(), plan, table, in_order(rt.alloc()));
    match drive(rt.alloc(), manager, plan, &mut starter) {
        Ok(end) => {
            println!(rt; "drive {} {}", end.verdict, end.aborted)?;
            Ok(true)
        }
        Err(fault) => {
            println!(rt; "drive {fault}")?;
            Ok(false)
        }
    }
}

// What a life left: its disk, its records, and whether it came to the end of the run.
#[derive(Drop)]
struct Left {
    disk: MemDisk,
    records: Vec<Record>,
    over: bool,
}

fn live(
    rt: HostRuntime,
    disk: MemDisk,
    plan: &Plan,
    table: &Table,
    acknowledged: Vec<Record>,
    first: bool,
) -> Result<Left>
    requires { HasPossibleOutcomes table.now }
{
    let mut manager = match life(rt.alloc(), disk, plan) {
        Ok(manager) => manager,
        Err((disk, fault)) => {
            println!(rt; "life {fault}")?;
            return Ok(Left {
                disk,
                records: acknowledged,
                over: false,
            });
        }
    };
    println!(rt; "life")?;
    let over = if first {
        one_round(rt, &mut manager, plan, table)?;
        false
    } else {
        to_the_end(rt, &mut manager, plan, table)?
    };
    let records = behind(rt.alloc(), manager.core(), &acknowledged)?;
    if over {
        print_end(rt, manager.core())?;
    }
    Ok(Left {
        disk: manager.into_disk(),
        records,
        over,
    })
}

fn run(rt: HostRuntime, plan: &Plan, table: &Table) -> Result<()>
    requires { HasPossibleOutcomes table.now }
{
    let mut disk = MemDisk::new(rt.alloc(), ROOM);
    let mut acknowledged = Vec::new(rt.alloc());
    for number in 0..4 {
        let left = live(rt, disk, plan, table, acknowledged, number == 0)?;
        if left.over {
            return Ok(());
        }
        disk = left.disk;
        acknowledged = left.records;
    }
    bail!("the run doesn't end");
}

/// Makes each call, and goes on in another life where one wants memory.
pub fn make_calls(rt: HostRuntime) -> Result<()> {
    let plan = bare_plan(rt.alloc(), DIAMOND)?;
    for outcomes in TABLES {
        let Ok(table) = read_table(rt.alloc(), outcomes) else {
            bail!("N4 Memory");
        };
        run(rt, &plan, &table)?;
    }
    drop(plan);
    Ok(())
}
