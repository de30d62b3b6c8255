//! The parents and the children of each node.

ghost use Rattle.std.specs.Prelude.{◌≡◌, ◌<◌, ◌≤◌, IfOk, length, map};
ghost use Rattle.std.specs.List.{All, range_with_len};
ghost use Rattle.splices_flat.specs.Dag.{IsGroupBelow};
ghost use Rattle.splices_flat.specs.Places.{nodes_on_side};
ghost use Rattle.dag_graph.specs.Numbers.{AreBelow, holders_of, all_named, named};
ghost use Rattle.dag_graph.specs.Graph.{all_parents_of, all_children_of};

use crate::numbers::{Numbers, add_at, empty_lists, inverted};
use splices_flat::{EdgeGroup, FlatDag, Side};
use std::alloc::{AllocError, Global};

/// Of each ordinary node its parents and its children, ascending and each once.
#[derive(Drop)]
pub(crate) struct Relatives {
    pub(crate) parents: Vec<Numbers>,
    pub(crate) children: Vec<Numbers>,
}

/// The numbers of nodes, of which there are few.
fn numbers_of(alloc: Global, count: usize, nodes: &[usize]) -> Result<Numbers, AllocError>
    requires few { count ≤ 65536 }
    requires within { All (λ n. n < count) nodes.now }
    ensures { IfOk result (λ numbers. numbers ≡ nodes.now) }
{
    let mut numbers = Numbers::new(alloc);
    for node in nodes {
        numbers.push(*node as u32)?;
    }
    Ok(numbers)
}

/// Of each group the nodes that it has on a side.
fn side_of(
    alloc: Global,
    count: usize,
    side: Side,
    groups: &[EdgeGroup],
) -> Result<Vec<Numbers>, AllocError>
    requires few { count ≤ 65536 }
    requires within { All (IsGroupBelow count) groups.now }
    ensures { IfOk result (λ v. v.items ≡ map (nodes_on_side side) groups.now) }
{
    let mut lists = Vec::new(alloc);
    for group in groups {
        lists.push(numbers_of(alloc, count, group.ends(side))?)?;
    }
    Ok(lists)
}

/// The numbers in the lists at these places, as often.
fn named(alloc: Global, places: &[u32], lists: &[Numbers]) -> Result<Numbers, AllocError>
    requires { All (λ place. place < length lists.now) places.now }
    ensures { IfOk result (λ numbers. numbers ≡ named lists.now places.now) }
{
    let mut numbers = Numbers::new(alloc);
    for place in places {
        numbers.extend(lists[*place as usize].as_slice())?;
    }
    Ok(numbers)
}

/// Of each node those that have a group in which it is a child, ascending and each once: each node
/// is a parent in the groups in its list, and each group has the children of its list.
fn parents_by(
    alloc: Global,
    homes: &[Numbers],
    children: &[Numbers],
) -> Result<Vec<Numbers>, AllocError>
    requires few { length homes.now ≤ 65536 }
    requires homes { AreBelow (length children.now) homes.now }
    requires children { AreBelow (length homes.now) children.now }
    ensures { IfOk result (λ v. v.items ≡ map (holders_of (all_named children.now homes.now)) (range_with_len 0 (length homes.now))) }
{
    let mut parents = empty_lists(alloc, homes.len())?;
    for (number, places) in homes.iter().enumerate() {
        let numbers = named(alloc, places.as_slice(), children)?;
        add_at(&mut parents, numbers.as_slice(), number as u32)?;
    }
    Ok(parents)
}

/// Of each node its parents. The time is by the pairs that the groups say, and the memory by those
/// that differ.
fn parent_lists(alloc: Global, dag: &FlatDag) -> Result<Vec<Numbers>, AllocError>
    ensures { IfOk result (λ v. v.items ≡ all_parents_of dag.now) }
{
    let count = dag.nodes().len();
    let groups = dag.edges();
    // As many groups don't fit into memory.
    if groups.len() > 0xffff_ffff {
        return Err(AllocError);
    }
    let parents = side_of(alloc, count, Side::Parent, groups)?;
    let children = side_of(alloc, count, Side::Child, groups)?;
    let homes = inverted(alloc, count, parents.as_slice())?;
    let listed = parents_by(alloc, homes.as_slice(), children.as_slice())?;
    Ok(listed)
}

/// Of each node its children.
fn child_lists(
    alloc: Global,
    dag: &FlatDag,
    parents: &[Numbers],
) -> Result<Vec<Numbers>, AllocError>
    requires { parents.now ≡ all_parents_of dag.now }
    ensures { IfOk result (λ v. v.items ≡ all_children_of dag.now) }
{
    let _ = dag.nodes();
    let children = inverted(alloc, parents.len(), parents)?;
    Ok(children)
}

/// The parents and the children of each node.
pub(crate) fn relatives_of(alloc: Global, dag: &FlatDag) -> Result<Relatives, AllocError>
    ensures parents { IfOk result (λ r. r.parents.items ≡ all_parents_of dag.now) }
    ensures children { IfOk result (λ r. r.children.items ≡ all_children_of dag.now) }
{
    let parents = parent_lists(alloc, dag)?;
    let children = child_lists(alloc, dag, parents.as_slice())?;
    Ok(Relatives { parents, children })
}
