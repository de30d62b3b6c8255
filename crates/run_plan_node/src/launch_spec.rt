//! What the children of a node are started by.

ghost use Rattle.std.specs.Prelude.{◌≡◌, IfOk};
ghost use Rattle.run_plan_node.specs.Node.{no_launch_spec};
ghost use Rattle.run_plan_node.specs.Specs.{script_of, launch_spec_of};

use dag_reader::Text;
use splices_flat::{FlatNode, ScriptSetting, SharedTexts};
use std::alloc::{AllocError, Global};
use std::marker::Model;
use vars_macros::Macros;

/// Where the command of a job comes from: a program alone, where no submit file is read, or what is
/// assigned to names.
#[derive(Drop)]
pub enum Source {
    /// A program, with no words.
    Program(Text),
    /// What is assigned to the names of a job.
    Described(Macros),
}

/// What a job is started by.
#[derive(Drop)]
pub struct Job {
    /// Where its command comes from.
    pub source: Source,
}

impl Model for Job {
    ghost use Rattle.run_plan_node.specs.Jobs.{job_of};
    ghost use Rattle.run_plan_node.specs.Node.{Job as JobValue};

    ghost Value = { JobValue };

    ghost view = { λ job. job_of job.source };
}

/// What the children of a node are started by: its folder, the words of its scripts, of which the
/// first is the program, and its job.
pub(crate) struct LaunchSpec {
    folder: Text,
    pre: Option<SharedTexts>,
    post: Option<SharedTexts>,
    job: Job,
}

// Each function that drops a value calls this; a derived drop would be in each, part by part.
impl Drop for LaunchSpec {
    fn drop(self) {
        let LaunchSpec {
            folder: _,
            pre: _,
            post: _,
            job: _,
        } = self;
    }
}

impl Model for LaunchSpec {
    ghost use Rattle.run_plan_node.specs.Node.{LaunchSpec as LaunchSpecValue};

    ghost Value = { LaunchSpecValue };

    ghost view = { λ o. record { folder = o.folder; pre = o.pre; post = o.post; job = o.job } };
}

impl LaunchSpec {
    /// Those of a node with this job.
    pub(crate) fn new(alloc: Global, node: &FlatNode, job: Job) -> Result<LaunchSpec, AllocError>
        ensures { IfOk result (λ launch_spec. launch_spec ≡ launch_spec_of job node.now) }
    {
        Ok(LaunchSpec {
            folder: Text::new(alloc, node.folder.as_str())?,
            pre: script_of(&node.settings.pre)?,
            post: script_of(&node.settings.post)?,
            job,
        })
    }

    /// The node's folder.
    pub(crate) fn folder(&self) -> &str
        ensures { result.now ≡ self.now.folder }
    {
        self.folder.as_str()
    }

    /// The words of the PRE script.
    pub(crate) fn pre(&self) -> &Option<SharedTexts>
        ensures { result.now ≡ self.now.pre }
    {
        &self.pre
    }

    /// The words of the POST script.
    pub(crate) fn post(&self) -> &Option<SharedTexts>
        ensures { result.now ≡ self.now.post }
    {
        &self.post
    }

    /// The job.
    pub(crate) fn job(&self) -> &Job
        ensures { result.now ≡ self.now.job }
    {
        &self.job
    }

    /// Those of a node that does not exist.
    pub(crate) fn none(alloc: Global) -> Result<LaunchSpec, AllocError>
        ensures { IfOk result (λ launch_spec. launch_spec ≡ no_launch_spec) }
    {
        Ok(LaunchSpec {
            folder: Text::new(alloc, "")?,
            pre: None,
            post: None,
            job: Job {
                source: Source::Program(Text::new(alloc, "")?),
            },
        })
    }
}

/// The words of a script, which the flat DAG has too.
fn script_of(setting: &Option<ScriptSetting>) -> Result<Option<SharedTexts>, AllocError>
    ensures { IfOk result (λ words. words ≡ script_of setting.now) }
{
    match setting {
        Some(script) => Ok(Some(script.words.share()?)),
        None => Ok(None),
    }
}
