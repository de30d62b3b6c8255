//! The plan of a graph without the limit on a category.

ghost use Rattle.std.specs.Prelude.{◌≡◌, [], map, filter, IfOk};
ghost use Rattle.std.specs.Option.{option_map};
ghost use Rattle.run_times.specs.Unlimited.{without_macros, is_of_other, without_limit_on, IsPlanWithoutLimit};

use dag_graph::Graph;
use dag_reader::Text;
use run_plan::Plan;
use splices_flat::{
    CategoryLimit, CategorySetting, EdgeGroup, FlatDag, FlatNode, Numbers, ScriptSetting, Settings,
};
use std::alloc::{AllocError, Global};

/// The same script, if there is one.
fn same_script(script: &Option<ScriptSetting>) -> Result<Option<ScriptSetting>, AllocError>
    ensures { IfOk result (λ same. same ≡ script.now) }
{
    match script {
        Some(script) => Ok(Some(ScriptSetting {
            line: script.line,
            words: script.words.share()?,
        })),
        None => Ok(None),
    }
}

/// The same category, if there is one.
fn same_category(
    alloc: Global,
    category: &Option<CategorySetting>,
) -> Result<Option<CategorySetting>, AllocError>
    ensures { IfOk result (λ same. same ≡ category.now) }
{
    match category {
        Some(category) => Ok(Some(CategorySetting {
            line: category.line,
            name: Text::new(alloc, category.name.as_str())?,
        })),
        None => Ok(None),
    }
}

/// The same settings, without macros.
fn settings_without_macros(alloc: Global, settings: &Settings) -> Result<Settings, AllocError>
    ensures { IfOk result (λ same. same ≡ record settings.now { macros = [] }) }
{
    let mut same = Settings::new(alloc);
    same.pre = same_script(&settings.pre)?;
    same.post = same_script(&settings.post)?;
    same.retry = settings.retry;
    same.pre_skip = settings.pre_skip;
    same.priority = settings.priority;
    same.category = same_category(alloc, &settings.category)?;
    same.abort = settings.abort;
    Ok(same)
}

/// The same node, without macros.
fn node_without_macros(alloc: Global, node: &FlatNode) -> Result<FlatNode, AllocError>
    ensures { IfOk result (λ same. same ≡ without_macros node.now) }
{
    Ok(FlatNode {
        name: Text::new(alloc, node.name.as_str())?,
        file: Text::new(alloc, node.file.as_str())?,
        folder: Text::new(alloc, node.folder.as_str())?,
        noop: node.noop,
        done: node.done,
        settings: settings_without_macros(alloc, &node.settings)?,
    })
}

/// The same nodes, without macros.
fn nodes_without_macros(alloc: Global, nodes: &[FlatNode]) -> Result<Vec<FlatNode>, AllocError>
    ensures { IfOk result (λ same. same.items ≡ map without_macros nodes.now) }
{
    let mut same = Vec::new(alloc);
    for node in nodes {
        same.push(node_without_macros(alloc, node)?)?;
    }
    Ok(same)
}

/// The FINAL node without macros, if there is one.
fn final_without_macros(
    alloc: Global,
    node: Option<&FlatNode>,
) -> Result<Option<FlatNode>, AllocError>
    ensures { IfOk result (λ same. same ≡ option_map (λ n. without_macros n.now) node.entry) }
{
    match node {
        Some(node) => Ok(Some(node_without_macros(alloc, node)?)),
        None => Ok(None),
    }
}

/// The same numbers.
fn same_numbers(alloc: Global, numbers: &Numbers) -> Result<Numbers, AllocError>
    ensures { IfOk result (λ same. same ≡ numbers.now) }
{
    let mut same = Numbers::new(alloc);
    same.append(numbers.as_slice())?;
    Ok(same)
}

/// The same edges.
fn same_edges(alloc: Global, edges: &[EdgeGroup]) -> Result<Vec<EdgeGroup>, AllocError>
    ensures { IfOk result (λ same. same.items ≡ edges.now) }
{
    let mut same = Vec::new(alloc);
    for group in edges {
        same.push(EdgeGroup {
            parents: same_numbers(alloc, &group.parents)?,
            children: same_numbers(alloc, &group.children)?,
        })?;
    }
    Ok(same)
}

/// The same limit.
fn same_limit(alloc: Global, limit: &CategoryLimit) -> Result<CategoryLimit, AllocError>
    ensures { IfOk result (λ same. same ≡ limit.now) }
{
    Ok(CategoryLimit {
        name: Text::new(alloc, limit.name.as_str())?,
        limit: limit.limit,
        path: Text::new(alloc, limit.path.as_str())?,
        line: limit.line,
    })
}

/// Whether a limit is on another category.
fn is_of_other(category: &str, limit: &CategoryLimit) -> bool
    ensures { result ≡ is_of_other category.now limit.now }
{
    limit.name.as_str() != category
}

/// The limits on other categories.
fn other_limits(
    alloc: Global,
    limits: &[CategoryLimit],
    category: &str,
) -> Result<Vec<CategoryLimit>, AllocError>
    ensures { IfOk result (λ others. others.items ≡ filter (is_of_other category.now) limits.now) }
{
    let mut others = Vec::new(alloc);
    for limit in limits {
        if is_of_other(category, limit) {
            others.push(same_limit(alloc, limit)?)?;
        }
    }
    Ok(others)
}

/// The same DAG without the limit on a category.
fn dag_without_limit(alloc: Global, dag: &FlatDag, category: &str) -> Result<FlatDag, AllocError>
    ensures { IfOk result (λ same. same ≡ without_limit_on category.now dag.now) }
{
    Ok(FlatDag::new(
        Text::new(alloc, dag.top())?,
        nodes_without_macros(alloc, dag.nodes())?,
        final_without_macros(alloc, dag.final_node())?,
        same_edges(alloc, dag.edges())?,
        other_limits(alloc, dag.categories(), category)?,
        Vec::new(alloc),
    ))
}

/// The plan of a graph without the limit on a category, with no submit file read.
///
/// # Errors
/// Lack of memory.
pub(crate) fn plan_without_limit(
    alloc: Global,
    graph: &Graph,
    category: &str,
) -> Result<Plan, AllocError>
    ensures { IfOk result (IsPlanWithoutLimit graph.now category.now) }
{
    let dag = dag_without_limit(alloc, graph.flat(), category)?;
    // A graph of the same edges has no cycle.
    let Ok(graph) = Graph::build(alloc, dag) else {
        return Err(AllocError);
    };
    let Ok(plan) = Plan::build_bare(alloc, graph, None, false) else {
        return Err(AllocError);
    };
    // The order's clauses are what the proof needs of it: parents come before their children.
    let _order = plan.graph().order();
    Ok(plan)
}
