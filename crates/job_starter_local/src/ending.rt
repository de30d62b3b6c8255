//! How launchers are asked to end, where a run is stopped: what each has started elsewhere is known to it alone.

ghost use Rattle.std.specs.Prelude.{◌≡◌, map, vec_len};

use crate::launching::Launcher;
use crate::{RunningChild, Seen, look_at_all};
use child_watcher::run_shell;
use std::alloc::{AllocError, Global};
use std::process::Processes;
use std::thread;
use std::time::{Clock, Duration};

/// The pause between two looks whether they have ended, in microseconds, and how many pauses make a second.
const PAUSE: u64 = 10_000;

const PAUSES_A_SECOND: u32 = 100;

/// Whether a child is a launcher that runs, by what was seen last.
fn is_running_launcher<R: Processes>(launcher: &Launcher, child: &RunningChild<R>) -> bool {
    launcher.has_started(&child.key) && matches!(child.seen, Seen::Runs)
}

/// The command of a shell that asks the launchers that run to end; none where none runs.
fn asking_words<R: Processes>(
    alloc: Global,
    launcher: &Launcher,
    children: &[RunningChild<R>],
) -> Result<Option<String>, AllocError> {
    let mut words = String::from_str(alloc, "kill -TERM")?;
    let mut some = false;
    for child in children {
        if is_running_launcher(launcher, child) {
            write!(words, " {}", child.child.id())?;
            some = true;
        }
    }
    Ok(if some { Some(words) } else { None })
}

/// Waits until no launcher runs, at most for as many seconds as they have.
fn wait_for_launchers<R: Processes + Clock>(
    rt: &R,
    launcher: &Launcher,
    children: &mut Vec<RunningChild<R>>,
)
    ensures same { map (λ child. child.key) children.new.items
        ≡ map (λ child. child.key) children.old.items }
    ensures many { vec_len children.new ≡ vec_len children.old }
{
    for _ in 0..u32::from(launcher.grace) * PAUSES_A_SECOND {
        look_at_all(children);
        if !children
            .iter()
            .any(|child| is_running_launcher(launcher, child))
        {
            return;
        }
        thread::sleep(rt, Duration::from_micros(PAUSE));
    }
}

/// Asks the launchers among the children to end, all of them by one signal each (SIGTERM), and waits until they have, at most for as
/// many seconds as they have. Where the system or memory refuses that, they are not asked.
pub(crate) fn ask_launchers<R: Processes + Clock>(
    alloc: Global,
    rt: &R,
    launcher: &Launcher,
    children: &mut Vec<RunningChild<R>>,
)
    ensures same { map (λ child. child.key) children.new.items
        ≡ map (λ child. child.key) children.old.items }
    ensures many { vec_len children.new ≡ vec_len children.old }
{
    if launcher.grace == 0 {
        return;
    }
    if let Ok(Some(words)) = asking_words(alloc, launcher, children.as_slice()) {
        if run_shell(alloc, rt, words.as_str()).is_ok() {
            wait_for_launchers(rt, launcher, children);
        }
    }
}
