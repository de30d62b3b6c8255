//! The settings that a child inherits, and how they are read from its environment.

ghost use Rattle.std.specs.Prelude.{◌≡◌, ◌∷◌, ◌++◌, [], IfOk, OnOk};
ghost use Rattle.child_watcher.specs.Inherited.{inherited, IsValueOf, IsOfRound};

use dag_reader::{Text, Texts};
use itoa::Buffer;
use log_lines::phase_word;
use node_machine::Key;
use std::alloc::{AllocError, Global};

/// The name of the variable that has the identifier of a round, with its equals sign.
const ROUND: &str = "DAGRUN_ROUND=";

/// Who a round is.
#[derive(Clone, Copy, Debug)]
pub struct RoundIdentity<'a> {
    /// Its identifier, which no other round has.
    pub round: &'a str,
    /// The path of its DAG file, as it is seen from any folder.
    pub dag: &'a str,
}

/// Adds the setting `name=value`; the name is given with its equals sign.
fn push_setting(
    alloc: Global,
    settings: &mut Texts,
    name: &str,
    value: &str,
) -> Result<(), AllocError>
    ensures { OnOk result (settings.new ≡ settings.old ++ (name.now ++ value.now) ∷ []) }
{
    settings.push(Text::joined(alloc, name, value)?)
}

impl RoundIdentity<'_> {
    /// What the child of this key inherits besides its manager's environment, `name=value` each: `DAGRUN_ROUND` (the identifier),
    /// `DAGRUN_DAG` (the path of the DAG file), `DAGRUN_NODE` (this name), `DAGRUN_PHASE` (`PRE`, `JOB` or `POST`) and
    /// `DAGRUN_ATTEMPT` (from 0 on), in this order. docs/MANUAL.md, "Children", says so to users.
    ///
    /// # Errors
    /// Lack of memory.
    pub fn inherited(&self, alloc: Global, node: &str, key: &Key) -> Result<Texts, AllocError>
        ensures { IfOk result (λ settings. settings ≡ inherited self.now.round.now self.now.dag.now node.now key.now) }
    {
        let mut settings = Texts::new(alloc);
        let mut digits = Buffer::new();
        push_setting(alloc, &mut settings, ROUND, self.round)?;
        push_setting(alloc, &mut settings, "DAGRUN_DAG=", self.dag)?;
        push_setting(alloc, &mut settings, "DAGRUN_NODE=", node)?;
        push_setting(alloc, &mut settings, "DAGRUN_PHASE=", phase_word(key.phase))?;
        push_setting(
            alloc,
            &mut settings,
            "DAGRUN_ATTEMPT=",
            digits.format(key.attempt),
        )?;
        Ok(settings)
    }
}

/// Whether this setting of a process, `name=value`, says that the process is of the round of this identifier.
pub fn is_of_round(round: &str, setting: &[u8]) -> bool
    ensures { IsOfRound round.now setting.now result }
{
    match value_of(setting, ROUND) {
        Some(value) => value == round.as_bytes(),
        None => false,
    }
}

/// What this setting says of the variable of this name, which is given with its equals sign; none where it is another variable's.
pub fn value_of<'a>(setting: &'a [u8], name: &str) -> Option<&'a [u8]>
    ensures { IsValueOf name.now setting.now result }
{
    setting.strip_prefix(name.as_bytes())
}
