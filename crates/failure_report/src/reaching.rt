//! Which nodes are reached from one, and how many.

ghost use Rattle.std.specs.Prelude.{◌<◌, ◌≡◌, ◌^◌, IfOk, length};
ghost use Rattle.failure_report.specs.Reaching.{ListsAreBelow, IsReached, IsCountOf, AreReached, nodes_in, next_in};

use dag_graph::Search;
use std::alloc::{AllocError, Global};

/// The search from a node, of which each one has the next ones that stand in its list; each is looked at once.
fn search_from(alloc: Global, lists: &[Vec<u32>], node: u32) -> Result<Search, AllocError>
    requires node { node < length lists.now }
    requires below { ListsAreBelow (length lists.now) (nodes_in lists.now) }
    ensures { IfOk result (IsReached (nodes_in lists.now) node) }
{
    let mut search = Search::new(alloc, lists.len())?;
    search.meet_all(&lists[node as usize])?;
    let mut done = 0;
    while done < search.count() {
        let next = search.node_at(done);
        search.meet_all(&lists[next as usize])?;
        done += 1;
    }
    Ok(search)
}

/// How many nodes are reached from one, of which each one has the next ones that stand in its list.
///
/// # Errors
/// Lack of memory.
pub(crate) fn count_from(alloc: Global, lists: &[Vec<u32>], node: u32) -> Result<u32, AllocError>
    requires few { length lists.now < 2 ^ 32 }
    requires node { node < length lists.now }
    requires below { ListsAreBelow (length lists.now) (nodes_in lists.now) }
    ensures { IfOk result (IsCountOf (nodes_in lists.now) node) }
{
    let search = search_from(alloc, lists, node)?;
    Ok(search.count() as u32)
}

/// Which nodes are reached from one, of which each one has the next ones that are in its list: a mark for each list.
///
/// # Errors
/// Lack of memory.
pub fn reached_from(alloc: Global, lists: &[Vec<u32>], node: u32) -> Result<Vec<bool>, AllocError>
    requires node { node < length lists.now }
    requires below { ListsAreBelow (length lists.now) (nodes_in lists.now) }
    ensures many { IfOk result (λ marks. length marks.items ≡ length lists.now) }
    // Just those are marked that are reached.
    ensures are { IfOk result (λ marks. AreReached (next_in (nodes_in lists.now)) node marks.items) }
{
    let search = search_from(alloc, lists, node)?;
    Ok(search.into_marks())
}
