//! The names that the lines of a file declare, each once.

ghost use Rattle.std.specs.Prelude.{◌≡◌, ◌++◌, ◌||◌, ◌<◌, false, [], OnOk, IfOk, List};
ghost use Rattle.std.specs.List.{list_any};
ghost use Rattle.std.specs.Str.{bytes_eq};
ghost use Rattle.dag_reader.specs.declared.command.Command.{Command};
ghost use Rattle.splices_flat.specs.Nodes.{job_names, final_names, splice_names, splice_name, names_in, job_in, final_in, finals_in};
ghost use Rattle.splices_flat.specs.Opening.{check_lines, check_line, final_fault, once};
ghost use Rattle.splices.specs.Adds.{Gives};

use crate::names::Names;
use dag_reader::{Command, Text, Word};
use splices_flat::{DagFault, NameTable, SpliceFault};
use std::alloc::Global;

/// The names that the lines of the file of this path declare.
///
/// # Errors
/// `DuplicateName` at the first name that a line above declares too, or at that of a second FINAL.
pub(crate) fn names_of(
    alloc: Global,
    path: &str,
    commands: &[Command],
) -> Result<Names, SpliceFault>
    ensures once { Gives (λ _. tt) result (check_lines path.now [] commands.now) }
    ensures jobs { IfOk result (λ n. n.jobs ≡ job_names commands.now) }
    ensures finals { IfOk result (λ n. n.finals ≡ final_names commands.now) }
    ensures splices { IfOk result (λ n. n.splices ≡ splice_names commands.now) }
{
    let mut names = Names {
        jobs: NameTable::new(alloc),
        finals: NameTable::new(alloc),
        splices: NameTable::new(alloc),
    };
    for command in commands {
        names.add_line(alloc, path, command)?;
    }
    Ok(names)
}

impl Names {
    /// Adds what a line declares.
    fn add_line(&mut self, alloc: Global, path: &str, command: &Command) -> Result<(), SpliceFault>
        ensures once { (before : List Command) → self.old.jobs ≡ job_names before → self.old.finals ≡ final_names before
            → self.old.splices ≡ splice_names before → Gives (λ _. tt) result (check_line path.now before command.now) }
        ensures jobs { OnOk result (self.new.jobs ≡ self.old.jobs ++ names_in (job_in command.now)) }
        ensures finals { OnOk result (self.new.finals ≡ self.old.finals ++ names_in (final_in command.now)) }
        ensures splices { OnOk result (self.new.splices ≡ self.old.splices ++ splice_name command.now) }
    {
        match command {
            Command::Job { name, .. } => {
                self.check(alloc, path, name, false)?;
                self.jobs.add(alloc, name.text())?;
                Ok(())
            }
            Command::Final { name, .. } => {
                let second = !self.finals.is_empty();
                self.check(alloc, path, name, second)?;
                self.finals.add(alloc, name.text())?;
                Ok(())
            }
            Command::Splice { name, .. } => {
                self.check(alloc, path, name, false)?;
                self.splices.add(alloc, name.text())?;
                Ok(())
            }
            _ => Ok(()),
        }
    }

    /// Whether a name is declared.
    fn declares(&self, name: &str) -> bool
        ensures { result ≡ (list_any (bytes_eq name.now) self.now.jobs
            || (list_any (bytes_eq name.now) self.now.finals || list_any (bytes_eq name.now) self.now.splices)) }
    {
        self.jobs.has(name) || self.finals.has(name) || self.splices.has(name)
    }

    /// Refuses a name that is declared, and one that is taken otherwise.
    fn check(&self, alloc: Global, path: &str, name: &Word, taken: bool) -> Result<(), SpliceFault>
        ensures once { Gives (λ _. tt) result (once (taken || (list_any (bytes_eq name.now.text) self.now.jobs
            || (list_any (bytes_eq name.now.text) self.now.finals || list_any (bytes_eq name.now.text) self.now.splices))) path.now name.now) }
        ensures free { OnOk result ((list_any (bytes_eq name.now.text) self.now.jobs
            || (list_any (bytes_eq name.now.text) self.now.finals || list_any (bytes_eq name.now.text) self.now.splices)) ≡ false) }
    {
        if taken || self.declares(name.text()) {
            return Err(SpliceFault::Dag(DagFault::DuplicateName(
                Text::new(alloc, path)?,
                name.span(),
            )));
        }
        Ok(())
    }
}

/// Refuses FINAL in a file that lies in another.
///
/// # Errors
/// `FinalInSplice` at the name of the first FINAL line.
pub(crate) fn no_final(alloc: Global, path: &str, commands: &[Command]) -> Result<(), SpliceFault>
    ensures { Gives (λ _. tt) result (final_fault path.now (finals_in commands.now)) }
{
    for command in commands {
        if let Command::Final { name, .. } = command {
            return Err(SpliceFault::Dag(DagFault::FinalInSplice(
                Text::new(alloc, path)?,
                name.span(),
            )));
        }
    }
    Ok(())
}
