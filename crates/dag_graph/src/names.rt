//! The nodes by their full names.

ghost use Rattle.std.specs.Prelude.{◌≡◌, ◌<◌, ℕ, List, IfOk, OnOk};
ghost use Rattle.std.specs.HashMap.{get_by_text};
ghost use Rattle.dag_graph.specs.Graph.{names_of};
ghost use Rattle.dag_graph.specs.Names.{GivesPlaces, with_name};

use indexmap::IndexMap;
use splices_flat::FlatDag;
use std::alloc::{AllocError, Global};

/// Gives a name its number, unless it has one.
fn add(
    alloc: Global,
    numbers: &mut IndexMap<String, u32>,
    name: &str,
    number: u32,
) -> Result<(), AllocError>
    ensures { OnOk result ((other : List ℕ) → get_by_text numbers.new other ≡ with_name (get_by_text numbers.old) name.now number other) }
{
    if !numbers.contains_key(name) {
        numbers.insert(String::from_str(alloc, name)?, number)?;
    }
    Ok(())
}

/// The numbers of the nodes by their full names; the first of two nodes with one name counts.
pub(crate) fn numbers_of(alloc: Global, dag: &FlatDag) -> Result<IndexMap<String, u32>, AllocError>
    ensures { IfOk result (λ m. GivesPlaces (get_by_text m) (names_of dag.now)) }
{
    let mut numbers = IndexMap::new(alloc);
    for (number, node) in dag.nodes().iter().enumerate() {
        add(alloc, &mut numbers, node.name.as_str(), number as u32)?;
    }
    match dag.final_node() {
        Some(node) => {
            add(
                alloc,
                &mut numbers,
                node.name.as_str(),
                dag.nodes().len() as u32,
            )?;
            Ok(numbers)
        }
        None => Ok(numbers),
    }
}
