//! A table of outcomes: what each phase of each attempt of each node comes to.

ghost use Rattle.std.specs.Prelude.{◌≡◌, ◌++◌, ◌∷◌, [], ℕ, List, OnOk};
ghost use Rattle.node_machine.specs.OutcomeTable.{outcome_at, SameOutcomes};
ghost use Rattle.node_machine.specs.TableMaps.{PutsOutcome, entry_of};

use crate::{Outcome, Phase};
use std::alloc::{AllocError, Global};
use std::collections::BTreeMap;
use std::marker::Model;

/// An outcome with the key that it is of: the node's name, the attempt from 0 and the phase.
#[derive(Clone, Copy, Debug)]
pub(crate) struct NamedOutcome<'a> {
    pub(crate) name: &'a str,
    pub(crate) attempt: u32,
    pub(crate) phase: Phase,
    pub(crate) outcome: Outcome,
}

/// The outcomes of the phases of one attempt.
#[derive(Clone, Copy, Debug)]
struct PhaseOutcomes {
    pre: Outcome,
    job: Outcome,
    post: Outcome,
}

impl PhaseOutcomes {
    ghost use Rattle.node_machine.specs.TableMaps.{phase_outcome, with_outcome, exit_0};

    /// Each phase ends with Exit 0.
    fn all_exit_0() -> PhaseOutcomes
        ensures { result ≡ exit_0 }
    {
        PhaseOutcomes {
            pre: Outcome::Exit(0),
            job: Outcome::Exit(0),
            post: Outcome::Exit(0),
        }
    }

    fn get(self, phase: Phase) -> Outcome
        ensures { result ≡ phase_outcome phase self }
    {
        match phase {
            Phase::Pre => self.pre,
            Phase::Job => self.job,
            Phase::Post => self.post,
        }
    }

    fn set(&mut self, phase: Phase, outcome: Outcome)
        ensures { self.new ≡ with_outcome phase outcome self.old }
    {
        match phase {
            Phase::Pre => self.pre = outcome,
            Phase::Job => self.job = outcome,
            Phase::Post => self.post = outcome,
        }
    }
}

/// What each phase of each attempt of each node comes to, by the node's name.
///
/// A contract sees a list of entries and asks for `outcome_at`: the outcome of the last entry of
/// a key, and Exit 0 where there is none.
#[derive(Debug, Drop)]
pub struct Table {
    nodes: BTreeMap<String, BTreeMap<u32, PhaseOutcomes>>,
}

impl Model for Table {
    ghost use Rattle.std.specs.Prelude.{List, string_cmp};
    ghost use Rattle.std.specs.BTreeMap.{IsOrdered};
    ghost use Rattle.node_machine.specs.OutcomeTable.{Entry};
    ghost use Rattle.node_machine.specs.TableMaps.{table_entries};

    ghost Value = { List Entry };

    ghost view = { λ t. table_entries t.nodes.entries };

    ghost invariant = { λ t. IsOrdered string_cmp t.nodes };
}

impl Table {
    ghost use Rattle.node_machine.specs.declared.Outcome.TheVariants.{Exit};
    ghost use Rattle.node_machine.specs.declared.Phase.{Phase};

    /// The table without entries, by which each phase ends with Exit 0.
    #[tactic(auto, unfolding(crate::specs::TableMaps::table_entries, crate::specs::OutcomeTable::outcome_at))]
    pub fn empty(alloc: Global) -> Table
        ensures entries { result ≡ [] }
        ensures exit_0 { (name : List ℕ) (attempt : ℕ) (phase : Phase)
            → outcome_at result name attempt phase ≡ Exit 0 }
    {
        Table {
            nodes: BTreeMap::new(alloc),
        }
    }

    /// What this phase of this attempt, from 0, of the node of this name comes to: Exit 0 where
    /// the table has no entry of that key. It takes no memory, and time logarithmic in the table.
    pub fn get(&self, name: &str, attempt: u32, phase: Phase) -> Outcome
        ensures { result ≡ outcome_at self.now name.now attempt phase }
    {
        let Some(attempts) = self.nodes.get(name) else {
            return Outcome::Exit(0);
        };
        match attempts.get(&attempt) {
            Some(outcomes) => outcomes.get(phase),
            None => Outcome::Exit(0),
        }
    }

    /// Puts an entry at the end, which counts in place of an earlier one of its key.
    ///
    /// # Errors
    /// Lack of memory. The node's other entries are lost then, so the table is to be dropped.
    pub(crate) fn push(&mut self, alloc: Global, entry: &NamedOutcome<'_>) -> Result<(), AllocError>
        ensures { OnOk result (SameOutcomes self.new (self.old ++ entry_of entry.now ∷ [])) }
    {
        let name = String::from_str(alloc, entry.name)?;
        let mut attempts = match self.nodes.remove(entry.name) {
            Some(attempts) => attempts,
            None => BTreeMap::new(alloc),
        };
        put(&mut attempts, entry)?;
        self.nodes.insert(name, attempts)?;
        Ok(())
    }
}

/// Puts an outcome among those of a node's attempts.
fn put(
    attempts: &mut BTreeMap<u32, PhaseOutcomes>,
    entry: &NamedOutcome<'_>,
) -> Result<(), AllocError>
    ensures { OnOk result (PutsOutcome attempts.old entry.now attempts.new) }
{
    let mut outcomes = match attempts.get(&entry.attempt) {
        Some(outcomes) => *outcomes,
        None => PhaseOutcomes::all_exit_0(),
    };
    outcomes.set(entry.phase, entry.outcome);
    attempts.insert(entry.attempt, outcomes)?;
    Ok(())
}
