//! Calls over a list of records: what a core tells of it, and what an audit and a prediction do.

use crate::disks::written;
use crate::made::{DIAMOND, NO_LIMITS, bare_plan};
use crate::said::say;
use anyhow::{Result, bail};
use fate_audit::{Fate, audit, predict};
use node_machine::{Key, Outcome, Phase, Record, Table, read_table};
use recovery::replay;
use run_plan::Plan;
use sched_core::Core;
use status_report::status_text;
use std::alloc::{AllocError, Global};

const A: Key = Key {
    node: 0,
    attempt: 0,
    phase: Phase::Job,
};

const B: Key = Key {
    node: 1,
    attempt: 0,
    phase: Phase::Job,
};

const C: Key = Key {
    node: 2,
    attempt: 0,
    phase: Phase::Job,
};

const D: Key = Key {
    node: 3,
    attempt: 0,
    phase: Phase::Job,
};

const GOOD: Outcome = Outcome::Exit(0);

/// A crash once the Launch of B is recorded, and one once the End of B is.
static TWO_CRASHES: [Record; 14] = [
    Record::Life,
    Record::Launch(A, 1),
    Record::End(A, GOOD),
    Record::Launch(B, 2),
    Record::Life,
    Record::Launch(B, 3),
    Record::Launch(C, 4),
    Record::End(B, GOOD),
    Record::Life,
    Record::Launch(C, 5),
    Record::End(C, GOOD),
    Record::Launch(D, 6),
    Record::End(D, GOOD),
    Record::Finish(0),
];

/// A is above B, which is tried twice, and Y is beside them; and how their jobs end.
static TRIED_TWICE: &str = "JOB A a.sub\nJOB B b.sub\nJOB Y y.sub\nPARENT A CHILD B\nRETRY B 1\n";

static OUTCOMES: &[u8] =
    b"B 0 JOB 1\nX 0 JOB 1\nX 1 JOB 1\nX 2 JOB 1\nY 0 JOB 2\nZ 0 JOB signal 6\n";

// A call over a plan, a table, or so many of the records above.
#[derive(Clone, Copy)]
enum Call {
    New,
    Reserve(usize),
    History(usize),
    Marks(usize),
    Round(usize),
    Status(usize),
    Replay(usize),
    Audit(usize),
    Predict,
}

static CALLS: [Call; 10] = [
    Call::New,
    Call::Replay(8),
    Call::Reserve(8),
    Call::History(14),
    Call::Marks(8),
    Call::Round(3),
    Call::Status(2),
    Call::Audit(14),
    Call::Audit(8),
    Call::Predict,
];

fn new_line(alloc: Global, plan: &Plan) -> Result<String, AllocError> {
    match Core::new(alloc, plan, NO_LIMITS) {
        Ok(core) => {
            let records = core.records().len();
            let choice = core.choose();
            format!(in alloc; "new {records} {choice:?}")
        }
        Err(fault) => format!(in alloc; "new {fault}"),
    }
}

// The states of the nodes, and what runs.
fn states(alloc: Global, core: &Core<'_>) -> Result<String, AllocError> {
    let mut text = String::new(alloc);
    for node in 0..core.plan().count() {
        let state = core.node_state(node);
        let runs = if core.is_running(node) { " runs" } else { "" };
        write!(&mut text, " {state:?}{runs}")?;
    }
    Ok(text)
}

fn replay_line(alloc: Global, plan: &Plan, records: &[Record]) -> Result<String, AllocError> {
    match replay(alloc, plan, records) {
        Ok(core) => {
            let states = states(alloc, &core)?;
            format!(in alloc; "replay{states}")
        }
        Err(fault) => format!(in alloc; "replay {fault}"),
    }
}

fn reserve_line(alloc: Global, core: &mut Core<'_>) -> Result<String, AllocError> {
    let (before, choice) = (core.records().len(), core.choose());
    let answer = core.reserve(1000);
    let same = core.records().len() == before && core.choose() == choice;
    match answer {
        Ok(()) => format!(in alloc; "reserve {same}"),
        Err(fault) if same => format!(in alloc; "reserve {fault}"),
        Err(_) => format!(in alloc; "reserve changed"),
    }
}

fn history_line(alloc: Global, core: &Core<'_>) -> Result<String, AllocError> {
    match core.history(alloc, 1) {
        Ok(phases) => {
            let mut text = String::from_str(alloc, "history")?;
            for ended in &phases {
                write!(&mut text, " {} {:?}", ended.attempt, ended.outcome)?;
            }
            Ok(text)
        }
        Err(fault) => format!(in alloc; "history {fault}"),
    }
}

fn marks_line(alloc: Global, core: &Core<'_>) -> Result<String, AllocError> {
    match core.marks(alloc) {
        Ok(marks) => format!(in alloc; "marks {marks:?}"),
        Err(fault) => format!(in alloc; "marks {fault}"),
    }
}

fn round_line(alloc: Global, core: &Core<'_>) -> Result<String, AllocError> {
    match core.plan_round(alloc, 64) {
        Ok(keys) => {
            let mut text = String::from_str(alloc, "plan_round")?;
            for key in &keys {
                write!(&mut text, " {} {}", key.node, key.attempt)?;
            }
            Ok(text)
        }
        Err(fault) => format!(in alloc; "plan_round {fault}"),
    }
}

fn status_line(alloc: Global, core: &Core<'_>) -> Result<String, AllocError> {
    match status_text(alloc, core) {
        Ok(text) => format!(in alloc; "status_text\n{text}"),
        Err(_) => format!(in alloc; "status_text Memory"),
    }
}

// What nodes come to, with how often each was tried and its value.
fn fates(alloc: Global, name: &str, fates: &[Fate]) -> Result<String, AllocError> {
    let mut text = String::from_str(alloc, name)?;
    for fate in fates {
        let (state, attempts, value) = (fate.state(), fate.attempts(), fate.value());
        write!(&mut text, " {state:?} {attempts} {value:?}")?;
    }
    Ok(text)
}

fn audit_line(alloc: Global, plan: &Plan, bytes: &[u8]) -> Result<String, AllocError> {
    match audit(alloc, plan, bytes) {
        Ok(all) => fates(alloc, "audit", &all),
        Err(no) => format!(in alloc; "audit {no}"),
    }
}

fn predict_line(alloc: Global, plan: &Plan, table: &Table) -> Result<String, AllocError> {
    match predict(alloc, plan, table) {
        Ok(all) => fates(alloc, "predict", &all),
        Err(_) => format!(in alloc; "predict Memory"),
    }
}

// A call on a core of these records.
fn core_line(alloc: Global, core: &mut Core<'_>, call: Call) -> Result<String, AllocError> {
    match call {
        Call::Reserve(_) => reserve_line(alloc, core),
        Call::History(_) => history_line(alloc, core),
        Call::Marks(_) => marks_line(alloc, core),
        Call::Round(_) => round_line(alloc, core),
        Call::Status(_) => status_line(alloc, core),
        _ => format!(in alloc; "no core"),
    }
}

// Makes a call on a core of so many records.
fn call_core(rt: HostRuntime, plan: &Plan, count: usize, call: Call) -> Result<()> {
    let mut core = replay(rt.alloc(), plan, &TWO_CRASHES[..count.min(14)])?;
    if say(rt, core_line(rt.alloc(), &mut core, call))? {
        say(rt, core_line(rt.alloc(), &mut core, call))?;
    }
    Ok(())
}

fn call_audit(rt: HostRuntime, plan: &Plan, count: usize) -> Result<()> {
    let disk = written(rt.alloc(), plan.digest(), &TWO_CRASHES[..count.min(14)])?;
    if say(rt, audit_line(rt.alloc(), plan, disk.bytes()))? {
        say(rt, audit_line(rt.alloc(), plan, disk.bytes()))?;
    }
    Ok(())
}

fn call_replay(rt: HostRuntime, plan: &Plan, count: usize) -> Result<()> {
    let records = &TWO_CRASHES[..count.min(14)];
    if say(rt, replay_line(rt.alloc(), plan, records))? {
        say(rt, replay_line(rt.alloc(), plan, records))?;
    }
    Ok(())
}

fn call_new(rt: HostRuntime, plan: &Plan) -> Result<()> {
    if say(rt, new_line(rt.alloc(), plan))? {
        say(rt, new_line(rt.alloc(), plan))?;
    }
    Ok(())
}

fn call_predict(rt: HostRuntime) -> Result<()> {
    let plan = bare_plan(rt.alloc(), TRIED_TWICE)?;
    let Ok(table) = read_table(rt.alloc(), OUTCOMES) else {
        bail!("N4 Memory");
    };
    if say(rt, predict_line(rt.alloc(), &plan, &table))? {
        say(rt, predict_line(rt.alloc(), &plan, &table))?;
    }
    drop(plan);
    Ok(())
}

fn make_call(rt: HostRuntime, plan: &Plan, call: Call) -> Result<()> {
    match call {
        Call::New => call_new(rt, plan),
        Call::Reserve(count)
        | Call::History(count)
        | Call::Marks(count)
        | Call::Round(count)
        | Call::Status(count) => call_core(rt, plan, count, call),
        Call::Replay(count) => call_replay(rt, plan, count),
        Call::Audit(count) => call_audit(rt, plan, count),
        Call::Predict => call_predict(rt),
    }
}

/// Makes each call, and once more where it wants memory.
pub fn make_calls(rt: HostRuntime) -> Result<()> {
    let plan = bare_plan(rt.alloc(), DIAMOND)?;
    for call in CALLS {
        make_call(rt, &plan, call)?;
    }
    drop(plan);
    Ok(())
}
