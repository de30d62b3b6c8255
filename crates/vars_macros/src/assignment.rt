//! One assignment.

ghost use Rattle.std.specs.Prelude.{◌≡◌};
ghost use Rattle.vars_macros.specs.NamePlaces.{AreNamesOf, name_at};
ghost use Rattle.vars_macros.specs.Pairs.{ArePairsOf, closer_of};

use crate::naming::NamePlaces;
use crate::numbering::Names;
use crate::pairs::Pairs;
use crate::part::Part;
use dag_reader::Text;

/// A name and what was assigned to it. `vars` says that the value is the text of a VARS line.
#[derive(Debug, Drop)]
pub struct Macro {
    pub name: Text,
    pub value: Text,
    pub vars: bool,
}

/// An assignment, and of its value the pairs of parentheses and the names.
#[derive(Debug, Drop)]
pub(crate) struct Assigned {
    pub(crate) one: Macro,
    pub(crate) pairs: Pairs,
    pub(crate) places: NamePlaces,
    ghost paired: { ArePairsOf one.value (closer_of pairs) },
}

impl Assigned {
    /// The value, whose names have these numbers.
    pub(crate) fn value<'a>(&'a self, names: &'a Names) -> Part<'a>
        requires { AreNamesOf names.now self.now.one.value (name_at self.now.places) }
        ensures bytes { result.bytes.now ≡ self.now.one.value }
        ensures names { result.names.now ≡ names.now }
    {
        let text = self.one.value.as_str().as_bytes();
        Part::whole(text, &self.pairs, Some(&self.places), names)
    }
}
