//! What names stand for.

ghost use Rattle.std.specs.Prelude.{◌≡◌, ◌++◌, ◌∷◌, ◌<◌, [], IsOk, IfOk, IfErr, OnOk, OnErr, vec_len, vec_capacity, option_copied};
ghost use Rattle.vars_macros.specs.Meaning.{last_macro};
ghost use Rattle.vars_macros.specs.Places.{macros_in};
ghost use Rattle.vars_macros.specs.declared.assignment.Assigned.{Assigned};
ghost use Rattle.vars_macros.specs.declared.fault.MacroFault.TheVariants.{Memory};

use crate::assignment::{Assigned, Macro};
use crate::fault::MacroFault;
use crate::key::Key;
use crate::meaning::last_assigned;
use crate::naming::NamePlaces;
use crate::numbering::Names;
use crate::pairs::Pairs;
use dag_reader::Text;
use std::alloc::{AllocError, AllocFailed, Global};
use std::marker::Model;

/// What the names of a node stand for: the node's name, and its assignments in the order in which
/// they count.
///
/// The last assignment of a name is found in a table, whatever their number is. The table has each
/// name that is assigned or that a value may refer to.
#[derive(Debug)]
pub struct Macros {
    pub(crate) job: Text,
    pub(crate) assigned: Vec<Assigned>,
    pub(crate) names: Names,
}

// Each function that drops a value calls this; a derived drop would be in each, part by part.
impl Drop for Macros {
    fn drop(self) {
        let Macros {
            job: _,
            assigned: _,
            names: _,
        } = self;
    }
}

impl Model for Macros {
    ghost use Rattle.std.specs.Prelude.{◌≡◌, true};
    ghost use Rattle.vars_macros.specs.Each.{Each};
    ghost use Rattle.vars_macros.specs.Meaning.{NodeMacros};
    ghost use Rattle.vars_macros.specs.NameTable.{place_in};
    ghost use Rattle.vars_macros.specs.Places.{macros_in, GivesLast, HasPlaces};
    ghost use Rattle.vars_macros.specs.Texts.{are_texts};

    ghost Value = { NodeMacros };

    ghost view = { λ m. record { job = m.job; assigned = macros_in m.assigned.items } };

    ghost invariant = { λ m. (are_texts (macros_in m.assigned.items) ≡ true)
        × GivesLast (place_in m.names) (macros_in m.assigned.items)
        × Each (HasPlaces m.names) m.assigned.items };
}

impl Macros {
    /// The macros of a node with this name, to which nothing is assigned.
    ///
    /// # Errors
    /// `Memory` where memory runs out.
    pub fn new(alloc: Global, job: &str) -> Result<Macros, MacroFault>
        ensures assigned { IfOk result (λ m. m.assigned ≡ []) }
        ensures job { IfOk result (λ m. m.job ≡ job.now) }
        ensures fault { IfErr result (λ fault. fault ≡ Memory) }
    {
        let job = Text::new(alloc, job)?;
        Ok(Macros {
            job,
            assigned: Vec::new(alloc),
            names: Names::new(alloc),
        })
    }

    /// Assigns a value to a name, after all others: of two values of a name, in any case of ASCII
    /// letters, the later counts. So macros that are prepended come first, then the submit file's
    /// assignments, then macros that are appended. `vars` says that the value is the text of a VARS
    /// line.
    ///
    /// # Errors
    /// `Memory` where memory runs out; nothing is assigned then.
    pub fn assign(
        &mut self,
        alloc: Global,
        name: &str,
        value: &str,
        vars: bool,
    ) -> Result<(), MacroFault>
        ensures ok { OnOk result (self.new.assigned ≡ self.old.assigned ++ record { name = name.now; value = value.now; vars = vars } ∷ []) }
        ensures err { OnErr result (self.new.assigned ≡ self.old.assigned) }
        ensures job { self.new.job ≡ self.old.job }
        ensures fault { IfErr result (λ fault. fault ≡ Memory) }
    {
        let key = name.to_ascii_lowercase(alloc)?;
        let pairs = Pairs::of(alloc, value.as_bytes())?;
        let name = Text::new(alloc, name)?;
        let value = Text::new(alloc, value)?;
        let one = Macro { name, value, vars };
        make_room(&mut self.assigned)?;
        let text = one.value.as_str().as_bytes();
        let places = NamePlaces::of(alloc, text, &mut self.names)?;
        let number = self.names.give(key)?;
        let last = self.assigned.len();
        push(&mut self.assigned, Assigned { one, pairs, places })?;
        self.names.assign(number, last);
        Ok(())
    }

    /// The last assignment of a name, in any case of ASCII letters.
    ///
    /// # Errors
    /// `Memory` where memory runs out.
    pub fn last(&self, alloc: Global, name: &str) -> Result<Option<&Macro>, MacroFault>
        ensures last { IfOk result (λ found. option_copied found ≡ last_macro self.now.assigned name.now) }
        ensures fault { IfErr result (λ fault. fault ≡ Memory) }
    {
        let Some(number) = self.names.number_in_any_case(alloc, name)? else {
            return Ok(None);
        };
        let key = Key::Numbered(number);
        match last_assigned(self.assigned.as_slice(), &self.names, &key) {
            Some(found) => Ok(Some(&found.one)),
            None => Ok(None),
        }
    }
}

/// Makes room for one more assignment. Most submit files have one or two, and a list that grows by itself begins
/// with room for four.
fn make_room(all: &mut Vec<Assigned>) -> Result<(), AllocError>
    ensures items { all.new.items ≡ all.old.items }
    ensures room { OnOk result (vec_len all.new < vec_capacity all.new) }
{
    if all.is_empty() {
        all.reserve_exact(1)
    } else {
        all.reserve(1)
    }
}

/// Puts an assignment after all others.
fn push(all: &mut Vec<Assigned>, last: Assigned) -> Result<(), AllocFailed<Assigned>>
    ensures ok { OnOk result (all.new.items ≡ all.old.items ++ last ∷ []) }
    ensures macros { OnOk result (macros_in all.new.items ≡ macros_in all.old.items ++ last.one ∷ []) }
    ensures room { vec_len all.old < vec_capacity all.old → IsOk result }
{
    all.push(last)
}
