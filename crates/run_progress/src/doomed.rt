//! What is certain to fail of the jobs that can start at once: their programs and folders are looked at before the run begins.

use crate::shown::push_shown;
use crate::watcher::Watched;
use dag_reader::Text;
use file_hints::{Hint, folder_of, look_at_folder, look_at_program};
use node_machine::{Key, Phase};
use run_plan::Plan;
use run_plan_node::{ChildCommand, PhaseFacts};
use splices_flat::{NameTable, path_in};
use std::alloc::{AllocError, Global};
use std::fs::File;
use std::rt::{Env, Files};

/// Why jobs will fail, and which: the first of them, and how many.
#[derive(Drop)]
struct Doom {
    cause: String,
    first: u32,
    count: u64,
}

/// What will make jobs fail, each cause once.
#[derive(Drop)]
pub(crate) struct Dooms {
    known: NameTable,
    found: Vec<Doom>,
}

/// How many causes are shown at most.
const MOST_SHOWN: usize = 10;

/// What is known of a launch before any.
const FIRST_FACTS: PhaseFacts = PhaseFacts {
    launch: 1,
    job_launch: 1,
    job_value: 0,
    pre_value: 0,
    dag_status: 0,
    failed: 0,
};

/// The command of the job of an ordinary node in its first attempt; none where it starts no child.
fn first_command(
    alloc: Global,
    plan: &Plan,
    node: u32,
) -> Result<Option<ChildCommand>, AllocError> {
    if node >= plan.count() || plan.spec(node).course().noop {
        return Ok(None);
    }
    let key = Key {
        node,
        attempt: 0,
        phase: Phase::Job,
    };
    match plan.command(alloc, &key, &FIRST_FACTS) {
        Ok(command) => Ok(Some(command)),
        Err(_) => Err(AllocError),
    }
}

impl Dooms {
    /// None so far.
    pub(crate) fn new(alloc: Global) -> Dooms {
        Dooms {
            known: NameTable::new(alloc),
            found: Vec::new(alloc),
        }
    }

    /// Adds a cause for which the job of a node will fail, if there is one. Answers whether there is.
    fn add(&mut self, alloc: Global, node: u32, hint: Option<Hint>) -> Result<bool, AllocError> {
        let Some(hint) = hint else {
            return Ok(false);
        };
        let cause = format!(in alloc; "{hint}")?;
        if !self.known.has(cause.as_str()) {
            self.known.add(alloc, cause.as_str())?;
            self.found.push(Doom {
                cause,
                first: node,
                count: 1,
            })?;
            return Ok(true);
        }
        if let Some(place) = self.known.place_of(cause.as_str()) {
            if let Some(doom) = self.found.get_mut(place) {
                doom.count = doom.count.saturating_add(1);
            }
        }
        Ok(true)
    }

    /// Looks at the folder of the file that takes a stream of a job, which is seen from this folder.
    fn look_at_stream<R: Files<File = File> + AllocGlobal>(
        &mut self,
        rt: &R,
        folder: &str,
        node: u32,
        path: &Option<Text>,
    ) -> Result<bool, AllocError> {
        let Some(path) = path else {
            return Ok(false);
        };
        let parent = folder_of(path.as_str());
        if parent.is_empty() {
            return Ok(false);
        }
        let hint = look_at_folder(rt, path_in(rt.alloc(), folder, parent)?.as_str())?;
        self.add(rt.alloc(), node, hint)
    }

    /// Looks at what the job of a node needs, where it can start at once; the first thing that is not as it has to be counts.
    ///
    /// # Errors
    /// Lack of memory.
    pub(crate) fn look<R: Files<File = File> + Env + AllocGlobal>(
        &mut self,
        rt: &R,
        run: &Watched<'_>,
        node: u32,
    ) -> Result<(), AllocError> {
        let (alloc, folder) = (rt.alloc(), run.folder);
        let Some(command) = first_command(alloc, run.plan, node)? else {
            return Ok(());
        };
        if !run.is_launched {
            let program = path_in(alloc, folder, command.program.as_str())?;
            let hint = look_at_program(rt, program.as_str())?;
            if self.add(alloc, node, hint)? {
                return Ok(());
            }
        }
        let place = path_in(alloc, folder, command.folder.as_str())?;
        let hint = look_at_folder(rt, place.as_str())?;
        if self.add(alloc, node, hint)? || self.look_at_stream(rt, folder, node, &command.output)? {
            return Ok(());
        }
        self.look_at_stream(rt, folder, node, &command.error)?;
        Ok(())
    }

    /// A line for each cause, with the node or with how many there are; at most ten, and how many further causes there are.
    ///
    /// # Errors
    /// Lack of memory.
    pub(crate) fn text(&self, alloc: Global, plan: &Plan) -> Result<String, AllocError> {
        let mut text = String::new(alloc);
        for doom in self.found.iter().take(MOST_SHOWN) {
            if doom.count == 1 && doom.first < plan.count() {
                push_shown(&mut text, plan.spec(doom.first).name())?;
            } else {
                write!(text, "{} nodes", doom.count)?;
            }
            text.push_str(" will fail: ")?;
            push_shown(&mut text, doom.cause.as_str())?;
            text.push('\n')?;
        }
        if self.found.len() > MOST_SHOWN {
            let more = self.found.len() - MOST_SHOWN;
            writeln!(
                text,
                "and {more} causes more: dagrun check --hints says them"
            )?;
        }
        Ok(text)
    }
}
