//! Splices as clusters, one within the other.

ghost use Rattle.std.specs.Prelude.{◌≡◌, ◌≤◌, ◌-◌, ◌+◌, ◌<◌, ◌^◌, ◌++◌, map, length, drop, OnOk, string_bytes};
ghost use Rattle.graph_text.specs.Clusters.{indent, cluster_line, label_line, opening, openings, closings, shared, moved};

use crate::names::push_quoted;
use std::alloc::AllocError;

/// Adds four blanks for each depth.
pub(crate) fn push_indent(text: &mut String, depth: usize) -> Result<(), AllocError>
    ensures { OnOk result (string_bytes text.new ≡ string_bytes text.old ++ indent depth) }
{
    for _ in 0..depth {
        text.push_str("    ")?;
    }
    Ok(())
}

/// Adds the name of a cluster, and what opens it.
fn push_cluster(text: &mut String, node: u32, depth: usize) -> Result<(), AllocError>
    ensures { OnOk result (string_bytes text.new ≡ string_bytes text.old ++ cluster_line node depth) }
{
    writeln!(text, "subgraph cluster_{node}_{depth} {{")
}

/// Adds the label of a cluster.
fn push_label(text: &mut String, name: &str) -> Result<(), AllocError>
    ensures { OnOk result (string_bytes text.new ≡ string_bytes text.old ++ label_line name.now) }
{
    text.push_str("label=")?;
    push_quoted(text, name)?;
    text.push_str(";\n")
}

/// Adds the beginning of a splice's cluster.
fn push_opening(text: &mut String, node: u32, depth: usize, name: &str) -> Result<(), AllocError>
    requires { depth + 2 < 2 ^ 64 }
    ensures { OnOk result (string_bytes text.new ≡ string_bytes text.old ++ opening node depth name.now) }
{
    push_indent(text, depth + 1)?;
    push_cluster(text, node, depth)?;
    push_indent(text, depth + 2)?;
    push_label(text, name)
}

/// Adds the beginnings of the clusters of these splices, from this depth on.
fn push_openings(
    text: &mut String,
    node: u32,
    from: usize,
    scope: &[&str],
) -> Result<(), AllocError>
    requires { from ≤ length scope.now }
    ensures { OnOk result (string_bytes text.new
        ≡ string_bytes text.old ++ openings node from (drop from (map (λ part. part.now) scope.now))) }
{
    for depth in from..scope.len() {
        push_opening(text, node, depth, scope[depth])?;
    }
    Ok(())
}

/// Adds the ends of as many clusters, of which the outermost has this depth.
pub(crate) fn push_closings(text: &mut String, depth: usize, count: usize) -> Result<(), AllocError>
    requires { depth + count < 2 ^ 64 }
    ensures { OnOk result (string_bytes text.new ≡ string_bytes text.old ++ closings depth count) }
{
    let mut left = count;
    while left > 0 {
        push_indent(text, depth + left)?;
        text.push_str("}\n")?;
        left -= 1;
    }
    Ok(())
}

/// How many splices two nodes share, from the outermost on.
fn shared(before: &[&str], scope: &[&str]) -> usize
    ensures is { result ≡ shared (map (λ part. part.now) before.now) (map (λ part. part.now) scope.now) }
    ensures within { (result ≤ length before.now) × (result ≤ length scope.now) }
{
    let mut count = 0;
    while count < before.len() && count < scope.len() && before[count] == scope[count] {
        count += 1;
    }
    count
}

/// Adds what is between two nodes: the clusters that the next one does not share end, and those
/// in which it is beside them begin.
pub(crate) fn push_move(
    text: &mut String,
    node: u32,
    before: &[&str],
    scope: &[&str],
) -> Result<(), AllocError>
    ensures { OnOk result (string_bytes text.new ≡ string_bytes text.old
        ++ moved node (map (λ part. part.now) before.now) (map (λ part. part.now) scope.now)) }
{
    let kept = shared(before, scope);
    push_closings(text, kept, before.len() - kept)?;
    push_openings(text, node, kept, scope)
}
