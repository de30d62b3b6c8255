//! Calls that make plans, and the commands of one.

use crate::made::{DIAMOND, File, files_of, graph_of};
use crate::said::{barred, say};
use crate::texts::SUBMIT;
use anyhow::{Result, bail};
use dag_graph::Graph;
use node_machine::{Key, Phase};
use run_plan::{Plan, PlanFault};
use run_plan_node::{ChildCommand, PhaseFacts};
use splices::FileSet;
use std::alloc::{AllocError, Global};

/// What a plan is made of: the files, and whether the submit files are read.
struct Source {
    files: &'static [File],
    full: bool,
}

static SOURCES: [Source; 4] = [
    // Words in quotes and macros, of node A.
    Source {
        files: &[
            (
                "d.dag",
                "JOB A a.sub\nVARS A msg=\"say \\\"hi\\\"\" who=\"$(JOB)-$(RETRY)\"\n",
            ),
            ("a.sub", SUBMIT),
        ],
        full: true,
    },
    // Two macros that each stand for the other.
    Source {
        files: &[
            ("d.dag", "JOB A a.sub\nVARS A a=\"$(b)\" b=\"$(a)\"\n"),
            ("a.sub", "executable = x\narguments = $(a)\nqueue\n"),
        ],
        full: true,
    },
    // No nodes: its digest is in the page of the journal.
    Source {
        files: &[("d.dag", "")],
        full: true,
    },
    Source {
        files: &[("d.dag", DIAMOND)],
        full: false,
    },
];

fn built(
    alloc: Global,
    graph: Graph,
    files: &FileSet,
    full: bool,
) -> Result<Plan, (Graph, PlanFault)> {
    if full {
        Plan::build(alloc, graph, files, None, false)
    } else {
        Plan::build_bare(alloc, graph, None, false)
    }
}

fn plan_line(alloc: Global, plan: &Plan) -> Result<String, AllocError> {
    let digest = hex::encode(alloc, *plan.digest())?;
    let nodes = plan.count();
    format!(in alloc; "build {nodes} nodes {digest}")
}

// Makes a plan, of the same graph once more where memory is out: the plan, if there is one.
fn made(rt: HostRuntime, source: &Source) -> Result<Option<Plan>> {
    let alloc = rt.alloc();
    let files = files_of(alloc, source.files)?;
    let mut graph = graph_of(alloc, &files, "d.dag")?;
    for _ in 0..2 {
        match built(alloc, graph, &files, source.full) {
            Ok(plan) => return Ok(Some(plan)),
            Err((back, fault)) => {
                graph = back;
                if !say(rt, format!(in alloc; "build {fault}"))? {
                    return Ok(None);
                }
            }
        }
    }
    bail!("memory is wanting twice");
}

const JOB: Key = Key {
    node: 0,
    attempt: 0,
    phase: Phase::Job,
};

const FACTS: PhaseFacts = PhaseFacts {
    launch: 1,
    job_launch: 0,
    job_value: 0,
    pre_value: -1,
    dag_status: 0,
    failed: 0,
};

fn words_line(alloc: Global, command: &ChildCommand) -> Result<String, AllocError> {
    let words = barred(alloc, command.words.as_slice())?;
    format!(in alloc; "command {} {words}", command.program)
}

fn command_line(alloc: Global, plan: &Plan) -> Result<String, AllocError> {
    if plan.spec(0).course().noop {
        return format!(in alloc; "command of no child");
    }
    match plan.command(alloc, &JOB, &FACTS) {
        Ok(command) => {
            let line = words_line(alloc, &command);
            drop(command);
            line
        }
        Err(fault) => format!(in alloc; "command {fault}"),
    }
}

fn shown(rt: HostRuntime, plan: &Plan) -> Result<()> {
    if say(rt, plan_line(rt.alloc(), plan))? {
        say(rt, plan_line(rt.alloc(), plan))?;
    }
    if plan.count() == 0 {
        return Ok(());
    }
    if say(rt, command_line(rt.alloc(), plan))? {
        say(rt, command_line(rt.alloc(), plan))?;
    }
    Ok(())
}

/// Makes each call, and once more where it wants memory.
pub fn make_calls(rt: HostRuntime) -> Result<()> {
    for source in &SOURCES {
        if let Some(plan) = made(rt, source)? {
            let answer = shown(rt, &plan);
            drop(plan);
            answer?;
        }
    }
    Ok(())
}
