//! The nodes that are named.

ghost use Rattle.std.specs.Prelude.{◌≡◌, ◌++◌, map, IfOk, OnOk, option_map, string_bytes};
ghost use Rattle.failure_report.specs.Named.{IsNamed, IsUnknownLine, nearest_words};

use log_lines::push_word;
use run_plan::Plan;
use std::alloc::{AllocError, Global};
use strsim::levenshtein;

/// The numbers of the nodes that are named, or what is reported of the first name that is none of a node.
#[derive(Drop)]
pub enum Named {
    /// The nodes of these numbers.
    Nodes(Vec<u32>),
    /// This name is none of a node; what is reported of that.
    Unknown(String),
}

/// How many edits between a name and another one are too many for that to be near.
fn too_many_edits(name: &str) -> usize {
    name.len() / 3 + 2
}

/// The name of a node that is nearest to this one, if one is near.
fn nearest<'a>(alloc: Global, plan: &'a Plan, name: &str) -> Result<Option<&'a str>, AllocError> {
    let mut best = None;
    let mut least = too_many_edits(name);
    for number in 0..plan.count() + 1 {
        let other = plan.spec(number).name();
        if other.is_empty() || other.len().abs_diff(name.len()) >= least {
            continue;
        }
        let edits = levenshtein(alloc, name, other)?;
        if edits < least {
            least = edits;
            best = Some(other);
        }
    }
    Ok(best)
}

/// Adds the name of a node that is near, where there is one.
fn push_nearest(text: &mut String, near: Option<&str>) -> Result<(), AllocError>
    ensures { OnOk result (string_bytes text.new ≡ string_bytes text.old ++ nearest_words (option_map (λ n. n.now) near.entry)) }
{
    if let Some(near) = near {
        text.push_str("; the nearest name is ")?;
        push_word(text, near)?;
        return text.push_str("\n");
    }
    text.push_str("\n")
}

/// What is reported of a name that is none of a node of this DAG file.
fn unknown(alloc: Global, plan: &Plan, top: &str, name: &str) -> Result<String, AllocError>
    ensures { IfOk result (λ line. IsUnknownLine top.now name.now (string_bytes line)) }
{
    let near = nearest(alloc, plan, name)?;
    let mut text = String::new(alloc);
    text.push_str("dagrun: ")?;
    push_word(&mut text, top)?;
    text.push_str(" has no node ")?;
    push_word(&mut text, name)?;
    push_nearest(&mut text, near)?;
    Ok(text)
}

/// The numbers of the nodes of these names, in their order; FINAL has the number after those of all ordinary nodes. Of the
/// first name that is none of a node, the line that reports it, with the name that is nearest to it where one is near.
///
/// # Errors
/// Lack of memory.
pub fn numbers_of(
    alloc: Global,
    plan: &Plan,
    top: &str,
    names: &[&str],
) -> Result<Named, AllocError>
    ensures { IfOk result (IsNamed plan.now top.now (map (λ n. n.now) names.now)) }
{
    let mut numbers = Vec::new(alloc);
    for name in names {
        match plan.graph().node_named(name) {
            Some(number) => numbers.push(number)?,
            None => return Ok(Named::Unknown(unknown(alloc, plan, top, name)?)),
        }
    }
    Ok(Named::Nodes(numbers))
}
