//! Nodes in error with one cause, in groups.

ghost use Rattle.std.specs.Prelude.{◌↔◌, IfOk, OnOk, IsTrue};
ghost use Rattle.std.specs.List.Sorted.{IsNonDecreasingBy};
ghost use Rattle.failure_report.specs.Failures.{rank_of};
ghost use Rattle.failure_report.specs.Grouped.{IsSameEnding, AreGroupsOf};
ghost use Rattle.failure_report.specs.Joining.{IsOfGroup, IsAddedToGroups};

use crate::causes::cause_of;
use crate::failed::Failure;
use crate::reported::Run;
use indexmap::IndexMap;
use std::alloc::{AllocError, Global};
use std::fs::File;
use std::rt::Files;

/// Nodes in error with one cause.
#[derive(Drop)]
pub(crate) struct Group {
    /// The one that comes first among the nodes in error.
    pub(crate) first: Failure,
    /// The others.
    pub(crate) same: Vec<Failure>,
}

/// Whether two nodes failed in the same phase, and it had the same outcome.
fn is_same_ending(one: &Failure, other: &Failure) -> bool
    ensures { IsTrue result ↔ IsSameEnding one.now other.now }
{
    match (one.end, other.end) {
        (Some(one), Some(other)) => one.phase == other.phase && one.outcome == other.outcome,
        (None, None) => true,
        _ => false,
    }
}

/// Whether there is a group at this place, whose first failed in the same phase with the same outcome.
fn is_of_group(groups: &[Group], place: usize, failure: &Failure) -> bool
    ensures { IsTrue result → IsOfGroup failure.now groups.now place }
{
    match groups.get(place) {
        Some(group) => is_same_ending(&group.first, failure),
        None => false,
    }
}

/// Adds a node in error to the group at this place.
fn join_group(groups: &mut Vec<Group>, place: usize, failure: &Failure) -> Result<(), AllocError>
    requires { IsOfGroup failure.now groups.old.items place }
    ensures { OnOk result (IsAddedToGroups failure.now groups.old.items groups.new.items) }
{
    groups[place].same.push(*failure)?;
    Ok(())
}

/// Adds a node in error to the group at this place where it failed as the first of that did, else as the first of a new group.
fn add_failure(
    alloc: Global,
    groups: &mut Vec<Group>,
    place: usize,
    failure: &Failure,
) -> Result<(), AllocError>
    ensures { OnOk result (IsAddedToGroups failure.now groups.old.items groups.new.items) }
{
    if is_of_group(groups, place, failure) {
        return join_group(groups, place, failure);
    }
    groups.push(Group {
        first: *failure,
        same: Vec::new(alloc),
    })?;
    Ok(())
}

/// These nodes in error in groups, of which each has those with one cause.
///
/// # Errors
/// Lack of memory.
pub(crate) fn groups_of<R: Files<File = File> + AllocGlobal>(
    rt: &R,
    run: &Run<'_, '_, '_>,
    failures: &[Failure],
) -> Result<Vec<Group>, AllocError>
    requires { IsNonDecreasingBy rank_of failures.now }
    ensures { IfOk result (λ groups. AreGroupsOf failures.now groups.items) }
{
    let alloc = rt.alloc();
    let mut places = IndexMap::new(alloc);
    let mut groups = Vec::new(alloc);
    for failure in failures {
        let cause = cause_of(rt, run, failure)?;
        let place = *places.entry(cause)?.or_insert(groups.len());
        add_failure(alloc, &mut groups, place, failure)?;
    }
    Ok(groups)
}
