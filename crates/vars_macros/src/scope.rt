//! The scope of an expansion.

ghost use Rattle.vars_macros.specs.Each.{Each};
ghost use Rattle.vars_macros.specs.NameTable.{place_in};
ghost use Rattle.vars_macros.specs.Places.{macros_in, GivesLast, HasPlaces};

use crate::assignment::Assigned;
use crate::macros::Macros;
use crate::numbering::Names;

/// What is assigned, the names with their numbers, and the texts of the names that need no
/// assignment.
#[derive(Clone, Copy)]
pub(crate) struct Scope<'a> {
    pub(crate) assigned: &'a [Assigned],
    pub(crate) names: &'a Names,
    pub(crate) job: &'a [u8],
    pub(crate) retry: &'a [u8],
    pub(crate) launch: &'a [u8],
    ghost last: { GivesLast (place_in names.now) (macros_in assigned.now) },
    ghost places: { Each (HasPlaces names.now) assigned.now },
}

impl Macros {
    ghost use Rattle.std.specs.Prelude.{◌≡◌};
    ghost use Rattle.vars_macros.specs.Scopes.{scope_seen, IsTextScope};

    /// What is assigned, with the numbers of an attempt and of a launch as they are written.
    pub(crate) fn scope<'a>(&'a self, retry: &'a str, launch: &'a str) -> Scope<'a>
        ensures is { scope_seen result ≡ record { assigned = self.now.assigned; job = self.now.job; retry = retry.now; launch = launch.now } }
        ensures texts { IsTextScope (scope_seen result) }
    {
        Scope {
            assigned: self.assigned.as_slice(),
            names: &self.names,
            job: self.job.as_str().as_bytes(),
            retry: retry.as_bytes(),
            launch: launch.as_bytes(),
        }
    }
}
