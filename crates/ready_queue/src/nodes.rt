//! The nodes of a queue's members in plan order, so that whether a node is there is found by halving.

ghost use Rattle.std.specs.Prelude.{◌≡◌, ◌≢◌, ℕ, ◌+◌, ◌<◌, ◌≤◌, ◌⊎◌, ◌↔◌, length, IsTrue, MatchResult, slice_index_or};
ghost use Rattle.std.specs.List.{Contains};
ghost use Rattle.ready_queue.specs.Queue.{AreRising};

use crate::row::Row;

/// The place of a node among these, or else that where it belongs.
fn place_in(nodes: &[u32], node: u32) -> Result<usize, usize>
    requires { AreRising nodes.now }
    ensures { MatchResult result
        (λ place. (place < length nodes.now) × (slice_index_or nodes.now place 0 ≡ node))
        (λ place. (place ≤ length nodes.now)
        × ((k : ℕ) → k < place → slice_index_or nodes.now k 0 < node)
        × ((k : ℕ) → place ≤ k → k < length nodes.now → node < slice_index_or nodes.now k 0)) }
{
    nodes.binary_search(&node)
}

/// Whether a node is one of these.
pub fn has_node(nodes: &[u32], node: u32) -> bool
    requires { AreRising nodes.now }
    ensures { IsTrue result ↔ Contains nodes.now node }
{
    match place_in(nodes, node) {
        Ok(_) => true,
        Err(_) => false,
    }
}

/// A node is one of these from here on.
pub fn add_node(nodes: &mut Row<u32>, node: u32)
    requires rising { AreRising nodes.old.items }
    requires absent { Contains nodes.old.items node → ⊥ }
    requires room { 0 < nodes.old.room }
    ensures rising { AreRising nodes.new.items }
    ensures nodes { (other : ℕ) → Contains nodes.new.items other ↔ ((node ≡ other) ⊎ Contains nodes.old.items other) }
    ensures len { length nodes.new.items ≡ length nodes.old.items + 1 }
    ensures room { nodes.old.room ≤ nodes.new.room + 1 }
{
    match place_in(nodes.items(), node) {
        Ok(_) => {}
        Err(place) => nodes.insert(place, node),
    }
}

/// A node is none of these from here on.
pub fn remove_node(nodes: &mut Row<u32>, node: u32)
    requires rising { AreRising nodes.old.items }
    requires there { Contains nodes.old.items node }
    ensures rising { AreRising nodes.new.items }
    ensures nodes { (other : ℕ) → Contains nodes.new.items other ↔ ((node ≢ other) × Contains nodes.old.items other) }
    ensures len { length nodes.new.items + 1 ≡ length nodes.old.items }
    ensures room { nodes.old.room + 1 ≤ nodes.new.room }
{
    match place_in(nodes.items(), node) {
        Ok(place) => nodes.remove(place),
        Err(_) => {}
    }
}
