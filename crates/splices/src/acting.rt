//! The lines of a file that say something.

ghost use Rattle.std.specs.Prelude.{◌≡◌, ◌==◌, not};
ghost use Rattle.dag_reader.specs.Reading.{commands_of};
ghost use Rattle.splices.specs.Acting.{acting, is_for_all};
ghost use Rattle.splices_flat.specs.Nodes.{own_count};

use crate::lines::target_of;
use dag_reader::{Command, DagFile, Target};

/// Takes away the lines that say nothing, so that no opening goes over them: those for ALL_NODES,
/// in a file with no JOB lines.
pub(crate) fn without_idle(file: DagFile) -> DagFile
    ensures { commands_of result ≡ acting (commands_of file) }
{
    let mut file = file;
    if !has_jobs(file.commands.as_slice()) {
        file.commands.retain(
            |command: &Command| -> bool
                ensures { result ≡ not (is_for_all command.now) }
            { !is_for_all(command) },
        );
    }
    file
}

fn has_jobs(commands: &[Command]) -> bool
    ensures { result ≡ not (own_count commands.now == 0) }
{
    for command in commands {
        if let Command::Job { .. } = command {
            return true;
        }
    }
    false
}

/// Whether a line is a setting for ALL_NODES.
fn is_for_all(command: &Command) -> bool
    ensures { result ≡ is_for_all command.now }
{
    match target_of(command) {
        Some(Target::AllNodes(_)) => true,
        _ => false,
    }
}
