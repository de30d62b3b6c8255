//! The launcher of a run, whose program is looked for before anything is started.

ghost use Rattle.std.specs.Prelude.{◌≡◌, ℕ, List, Some, slice_get, IfOk, IfErr};
ghost use Rattle.run_plan.specs.Plan.{count_of};
ghost use Rattle.dag_main_run.specs.Launching.{IsLauncherBy, IsLauncherFault};

use dag_main_args::RunOptions;
use dag_main_check::RunFault;
use dag_reader::{Text, Texts};
use job_starter_local::Launcher;
use run_plan::Plan;
use splices_flat::path_in;
use std::alloc::{AllocError, Global};
use std::env::{self, VarError};
use std::fs;
use std::os::unix::fs::MetadataExt;
use std::rt::{Env, Files};

/// Where a program is looked for that is named by no path, where the environment doesn't say it.
const FOLDERS: &str = "/bin:/usr/bin";

/// The permissions of those who may run a file.
const SOMEBODY_RUNS: u32 = 0o111;

/// How many seconds launchers have to end where a run is stopped and no other number is asked for.
const GRACE: u16 = 10;

/// Whether there is a file of this path that somebody may run.
fn is_program<R: Files>(rt: &R, path: &str) -> bool {
    match fs::metadata(rt, path) {
        Ok(found) => found.is_file() && found.mode() & SOMEBODY_RUNS != 0,
        Err(_) => false,
    }
}

/// The path of the program of this name in the first of some folders that has it. They stand between colons; an
/// empty one is the folder from which they are seen.
fn found_in<R: Files>(
    rt: &R,
    alloc: Global,
    folder: &str,
    folders: &str,
    name: &str,
) -> Result<Option<Text>, AllocError> {
    for place in folders.split(':') {
        let place = path_in(alloc, folder, place)?;
        let path = path_in(alloc, place.as_str(), name)?;
        if is_program(rt, path.as_str()) {
            return Ok(Some(path));
        }
    }
    Ok(None)
}

/// The path of a program, seen from a folder: of a name with a slash it is that path, and else it is looked for in
/// the folders of PATH.
fn path_of<R: Files + Env + AllocGlobal>(
    rt: &R,
    folder: &str,
    name: &str,
) -> Result<Option<Text>, AllocError> {
    let alloc = rt.alloc();
    if name.contains('/') {
        let path = path_in(alloc, folder, name)?;
        return Ok(if is_program(rt, path.as_str()) {
            Some(path)
        } else {
            None
        });
    }
    match env::var(rt, "PATH") {
        Ok(folders) => found_in(rt, alloc, folder, folders.as_str(), name),
        Err(VarError::OutOfMemory) => Err(AllocError),
        Err(_) => found_in(rt, alloc, folder, FOLDERS, name),
    }
}

/// What is returned for a program that isn't found.
fn not_found(alloc: Global, name: &str) -> RunFault
    ensures { (given : List (List ℕ)) → slice_get given 0 ≡ Some name.now → IsLauncherFault given result }
{
    match String::from_str(alloc, name) {
        Ok(name) => RunFault::FileRefused(name),
        Err(_) => RunFault::Memory,
    }
}

/// The launcher of a run of a plan, as the options ask for it. Relative paths are seen from the folder.
///
/// # Errors
/// `FileRefused` with the name of its program, where no such program is found; `Memory`.
pub(crate) fn launcher_of<R: Files + Env + AllocGlobal>(
    rt: &R,
    folder: &str,
    plan: &Plan,
    options: &RunOptions,
) -> Result<Launcher, RunFault>
    ensures launcher { IfOk result (IsLauncherBy options.now (count_of plan.now)) }
    ensures refused { IfErr result (IsLauncherFault options.now.launcher) }
{
    let alloc = rt.alloc();
    let keeps_output = options.script_output;
    let grace = options.launcher_grace.unwrap_or(GRACE);
    let spared = if options.launcher_final {
        None
    } else {
        Some(plan.count())
    };
    let Some(name) = options.launcher.as_slice().first() else {
        return Ok(Launcher {
            program: None,
            words: Texts::new(alloc),
            spared,
            grace,
            keeps_output,
        });
    };
    let Some(program) = path_of(rt, folder, name.as_str())? else {
        return Err(not_found(alloc, name.as_str()));
    };
    Ok(Launcher {
        program: Some(program),
        words: options.launcher.from_place(alloc, 1)?,
        spared,
        grace,
        keeps_output,
    })
}
