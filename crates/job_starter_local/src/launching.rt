//! What comes before the commands of jobs.

ghost use Rattle.std.specs.Prelude.{◌≡◌, ◌∷◌, ◌++◌, None, IfOk, OnOk, unwrap_or};
ghost use Rattle.job_starter_local.specs.Launching.{is_job, is_output_kept, is_spared, has_launcher, started_by};

use dag_reader::{Text, Texts};
use node_machine::{Key, Phase};
use run_plan_node::{ChildCommand, NodeSpec};
use splices_flat::path_in;
use std::alloc::{AllocError, Global};

/// How children are started: what comes before the commands of jobs, and before which it doesn't, and whether what scripts print is kept.
#[derive(Debug)]
pub struct Launcher {
    /// The path of its program; none where jobs are started by themselves.
    pub program: Option<Text>,

    /// The words after its program.
    pub words: Texts,

    /// The node whose job is started by itself all the same.
    pub spared: Option<u32>,

    /// How many seconds it has to end by itself, where a run is stopped, once it is asked to by SIGTERM; where it is 0, it is
    /// killed at once, as other children are.
    pub grace: u16,

    /// Whether what scripts print is kept where they fail; else it is dropped.
    pub keeps_output: bool,
}

// Each function that drops a value calls this; a derived drop would be in each, part by part.
impl Drop for Launcher {
    fn drop(self) {
        let Launcher {
            program: _,
            words: _,
            spared: _,
            grace: _,
            keeps_output: _,
        } = self;
    }
}

impl Launcher {
    /// No launcher: each job is started by itself.
    pub fn none(alloc: Global) -> Launcher
        ensures { result.program ≡ None }
    {
        Launcher {
            program: None,
            words: Texts::new(alloc),
            spared: None,
            grace: 0,
            keeps_output: false,
        }
    }

    /// Whether what the child of this key prints is kept: it is a script.
    pub(crate) fn keeps(&self, key: &Key) -> bool
        ensures { result ≡ is_output_kept self.now key.now }
    {
        self.keeps_output && !is_job(key.phase)
    }

    /// Whether the child of this key was started by it.
    pub(crate) fn has_started(&self, key: &Key) -> bool {
        self.program.is_some() && self.launches(key)
    }

    /// Whether it comes before the command of the child of this key: before that of a job, but of the spared
    /// node's, and of no script.
    fn launches(&self, key: &Key) -> bool
        ensures { result ≡ has_launcher self.now.spared key.now }
    {
        is_job(key.phase) && !self.spares(key.node)
    }

    /// Whether the job of this node is started by itself all the same.
    fn spares(&self, node: u32) -> bool
        ensures { result ≡ is_spared self.now.spared node }
    {
        match self.spared {
            Some(spared) => spared == node,
            None => false,
        }
    }

    /// The command by which the child of this key of this node is started, which has this command of its own; none where it is
    /// that one. Relative paths are seen from the folder. A launcher is handed what the job asks of a cluster (`NodeSpec::requests`).
    ///
    /// # Errors
    /// Lack of memory.
    pub fn started_by(
        &self,
        alloc: Global,
        folder: &str,
        key: &Key,
        node: &NodeSpec,
        command: &ChildCommand,
    ) -> Result<Option<ChildCommand>, AllocError>
        ensures { IfOk result (λ launched.
            unwrap_or launched command.now ≡ started_by self.now folder.now key.now node.now command.now) }
    {
        let Some(program) = &self.program else {
            return Ok(None);
        };
        if !self.launches(key) {
            return Ok(None);
        }
        let own = path_in(alloc, folder, command.program.as_str())?;
        let words = words_behind(alloc, &self.words, own, command.words.as_slice())?;
        let mut environment = node.requests(alloc, key.attempt)?;
        add_words(alloc, &mut environment, command.environment.as_slice())?;
        Ok(Some(with_program(alloc, program, words, environment, command)?))
    }
}

fn is_job(phase: Phase) -> bool
    ensures { result ≡ is_job phase }
{
    match phase {
        Phase::Job => true,
        Phase::Pre | Phase::Post => false,
    }
}

/// Adds copies of words after others.
fn add_words(alloc: Global, words: &mut Texts, others: &[Text]) -> Result<(), AllocError>
    ensures { OnOk result (words.new ≡ words.old ++ others.now) }
{
    for word in others {
        words.push(Text::new(alloc, word.as_str())?)?;
    }
    Ok(())
}

/// The words of a launcher, the program after them, and the words of that.
fn words_behind(
    alloc: Global,
    launcher: &Texts,
    program: Text,
    words: &[Text],
) -> Result<Texts, AllocError>
    ensures { IfOk result (λ all. all ≡ launcher.now ++ program ∷ words.now) }
{
    let mut all = launcher.from_place(alloc, 0)?;
    all.push(program)?;
    add_words(alloc, &mut all, words)?;
    Ok(all)
}

pub(crate) fn copy_of(alloc: Global, text: &Option<Text>) -> Result<Option<Text>, AllocError>
    ensures { IfOk result (λ copy. copy ≡ text.now) }
{
    match text {
        Some(text) => Ok(Some(Text::new(alloc, text.as_str())?)),
        None => Ok(None),
    }
}

/// A command with another program, other words and another environment.
fn with_program(
    alloc: Global,
    program: &Text,
    words: Texts,
    environment: Texts,
    command: &ChildCommand,
) -> Result<ChildCommand, AllocError>
    ensures { IfOk result (λ other. other ≡ record command.now { program = program.now; words = words; environment = environment }) }
{
    Ok(ChildCommand {
        program: Text::new(alloc, program.as_str())?,
        words,
        folder: Text::new(alloc, command.folder.as_str())?,
        input: copy_of(alloc, &command.input)?,
        output: copy_of(alloc, &command.output)?,
        error: copy_of(alloc, &command.error)?,
        environment,
    })
}
