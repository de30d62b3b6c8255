//! The check of the files of a DAG.

ghost use Rattle.std.specs.Prelude.{◌≡◌, IfOk, IfErr, string_bytes};
ghost use Rattle.splices_flat.specs.FileSet.{bytes_of};
ghost use Rattle.dag_main_check.specs.Warnings.{warning_lines};
ghost use Rattle.dag_main_check.specs.declared.fault.RunFault.TheVariants.{Memory};
ghost use Rattle.dag_main_check.specs.Checked.{IsCheckOf, IsCheckFault, check_text_of, ok_line, yes_or_no};

use crate::check_data::check_json;
use crate::fault::RunFault;
use crate::form::CheckForm;
use crate::plans::full_plan_of;
use crate::warnings::{Answer, warning_text};
use dag_graph::Graph;
use run_plan::Plan;
use splices_flat::FileSet;
use std::alloc::{AllocError, Global};
use std::mem;

/// Checks the DAG file of this path, those of its splices and the submit files of its nodes, which
/// stand in the file set: that they can be read, that no node is its own ancestor, and that the texts
/// of each job can be expanded. The submit file of a NOOP is not looked at.
///
/// The answer is the line `ok nodes=N edges=E final=yes` or `final=no`, with the ordinary nodes and
/// the distinct pairs of a parent and a child, or the same as JSON; and status 0. The memory of the
/// plan is not given back, since the program ends with the answer: to free a large one takes a tenth
/// of the time of a check.
///
/// # Errors
/// The first fault that opening the files meets (`InFiles`), a cycle (`Cycle`), the first fault of
/// the submit files and the texts of jobs, in plan order (`InPlan`), and lack of memory.
/// After a missing file the caller may add it and ask again.
pub fn check_text(
    alloc: Global,
    files: &FileSet,
    path: &str,
    form: CheckForm,
) -> Result<Answer, RunFault>
    ensures checked { IfOk result (λ answer. IsCheckOf form (bytes_of files.now) path.now
        (string_bytes answer.text) (string_bytes answer.warnings) answer.status) }
    ensures refused { IfErr result (IsCheckFault (bytes_of files.now) path.now) }
{
    let plan = full_plan_of(alloc, files, path)?;
    let answer = answer_of(alloc, &plan, path, form);
    mem::forget(plan);
    answer
}

/// The text of a plan in a form, and the warnings of its files; the DAG file has this path.
fn answer_of(alloc: Global, plan: &Plan, path: &str, form: CheckForm) -> Result<Answer, RunFault>
    ensures text { IfOk result (λ answer. string_bytes answer.text ≡ check_text_of form path.now plan.now.graph.dag) }
    ensures warnings { IfOk result (λ answer. string_bytes answer.warnings ≡ warning_lines plan.now.graph.dag.warnings) }
    ensures status { IfOk result (λ answer. answer.status ≡ 0) }
    ensures err { IfErr result (λ fault. fault ≡ Memory) }
{
    let graph = plan.graph();
    Ok(Answer {
        text: text_of(alloc, graph, path, form)?,
        warnings: warning_text(alloc, graph.flat().warnings())?,
        status: 0,
    })
}

/// The text of a graph in a form; the DAG file has this path.
fn text_of(alloc: Global, graph: &Graph, path: &str, form: CheckForm) -> Result<String, AllocError>
    ensures { IfOk result (λ text. string_bytes text ≡ check_text_of form path.now graph.now.dag) }
{
    match form {
        CheckForm::Line => line_of(alloc, graph),
        CheckForm::Json => check_json(alloc, graph, path),
    }
}

fn yes_or_no(graph: &Graph) -> &'static str
    ensures { result.now ≡ yes_or_no graph.now.dag.final_node }
{
    match graph.flat().final_node() {
        Some(_) => "yes",
        None => "no",
    }
}

fn line_of(alloc: Global, graph: &Graph) -> Result<String, AllocError>
    ensures { IfOk result (λ text. string_bytes text ≡ ok_line graph.now.dag) }
{
    let nodes = graph.flat().nodes().len();
    let edges = graph.edge_count();
    let last = yes_or_no(graph);
    let mut text = String::new(alloc);
    writeln!(text, "ok nodes={nodes} edges={edges} final={last}")?;
    Ok(text)
}
