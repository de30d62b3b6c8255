//! What the files say of a node.

ghost use Rattle.std.specs.Prelude.{◌≡◌, is_some, IfOk, IfErr};
ghost use Rattle.std.specs.Option.{option_map};
ghost use Rattle.std.specs.List.{list_any};
ghost use Rattle.vars_macros.specs.Script.{is_whole_run};
ghost use Rattle.run_plan_node.specs.Node.{no_node};
ghost use Rattle.run_plan_node.specs.Commands.{phase_command, command_of_job, script_facts, words_of, job_reads_launch, uses_whole_run};
ghost use Rattle.run_plan_node.specs.JobAnswers.{Gives};
ghost use Rattle.run_plan_node.specs.Requests.{requests_of};
ghost use Rattle.run_plan_node.specs.Specs.{course_of, retries_of, unless_exit_of, abort_return_of, priority_of, category_place, spec_of};
ghost use Rattle.run_plan_node.specs.declared.job.JobFault.TheVariants.{Memory};

use crate::categories::Categories;
use crate::command::{ChildCommand, PhaseFacts};
use crate::job::{JobFault, job_command, reads_launch};
use crate::launch_spec::{Job, LaunchSpec, Source};
use crate::requests::requests_of_job;
use crate::script::{bare_command, script_command};
use dag_reader::{Text, Texts};
use node_machine::{Course, Phase};
use splices_flat::{
    AbortSetting, CategorySetting, FlatNode, PreSkipSetting, PrioritySetting, RetrySetting,
    SharedTexts,
};
use std::alloc::{AllocError, Global};
use std::marker::Model;
use vars_macros::{Attempt, ScriptFacts};

/// What the files say of a node.
pub struct NodeSpec {
    name: Text,
    course: Course,
    done: bool,
    parents: Vec<u32>,
    abort_return: Option<u8>,
    priority: i32,
    category: Option<usize>,
    launch_spec: LaunchSpec,
    /// whether one of its job's texts holds the launch number
    reads_launch: bool,
}

// Each function that drops a value calls this; a derived drop would be in each, part by part.
impl Drop for NodeSpec {
    fn drop(self) {
        let NodeSpec {
            name: _,
            course: _,
            done: _,
            parents: _,
            abort_return: _,
            priority: _,
            category: _,
            launch_spec: _,
            reads_launch: _,
        } = self;
    }
}

impl Model for NodeSpec {
    ghost use Rattle.std.specs.Prelude.{◌≡◌};
    ghost use Rattle.run_plan_node.specs.Node.{NodeSpec as NodeValue};
    ghost use Rattle.run_plan_node.specs.Commands.{job_reads_launch};

    ghost Value = { NodeValue };

    ghost view = { λ a. record {
      name = a.name;
      course = a.course;
      done = a.done;
      parents = a.parents.items;
      abort_return = a.abort_return;
      priority = a.priority;
      category = a.category;
      launch_spec = a.launch_spec;
    } };

    ghost invariant = { λ a. a.reads_launch ≡ job_reads_launch a.launch_spec.job a.course.retries };
}

impl NodeSpec {
    /// The node's full name.
    pub fn name(&self) -> &str
        ensures { result.now ≡ self.now.name }
    {
        self.name.as_str()
    }

    /// What the files say of the node's attempts.
    pub fn course(&self) -> &Course
        ensures { result.now ≡ self.now.course }
    {
        &self.course
    }

    /// Whether the node is done from the start.
    pub fn is_done(&self) -> bool
        ensures { result ≡ self.now.done }
    {
        self.done
    }

    /// The numbers of the node's parents in plan order, each once.
    pub fn parents(&self) -> &[u32]
        ensures { result.now ≡ self.now.parents }
    {
        &self.parents
    }

    /// The exit status of an abort by this node, where the files say one.
    pub fn abort_return(&self) -> Option<u8>
        ensures { result ≡ self.now.abort_return }
    {
        self.abort_return
    }

    /// The node's priority: a greater one starts earlier. Without a PRIORITY line it is 0.
    pub fn priority(&self) -> i32
        ensures { result ≡ self.now.priority }
    {
        self.priority
    }

    /// The place of the node's category among those that have a limit, if it is in one of them.
    pub fn category(&self) -> Option<usize>
        ensures { result ≡ self.now.category }
    {
        self.category
    }

    /// Whether a word of the node's commands is known in a whole run alone: `$DAG_STATUS`,
    /// `$FAILED_COUNT` or `$JOBID` in a script, or the launch number in a text of its job.
    #[tactic(auto, unfolding(crate::specs::Commands::uses_whole_run))]
    pub fn uses_whole_run(&self) -> bool
        ensures { result ≡ uses_whole_run self.now }
    {
        let launch_spec = &self.launch_spec;
        has_whole_run_word(launch_spec.pre())
            || (has_whole_run_word(launch_spec.post()) || self.reads_launch)
    }

    /// What the files say of a node with these parents and this job, which a rescue file may have
    /// marked as done. Its category is looked for among the limits. With `always_post` its POST
    /// script, if it has one, runs after a PRE script that failed, too.
    ///
    /// # Errors
    /// `Memory` where memory is refused.
    pub fn new(
        alloc: Global,
        parents: &[u32],
        job: Job,
        marked: bool,
        limits: &Categories<'_>,
        node: &FlatNode,
        always_post: bool,
    ) -> Result<NodeSpec, JobFault>
        ensures ok { IfOk result (λ spec. spec ≡ spec_of always_post limits.now parents.now job marked node.now) }
        ensures err { IfErr result (λ fault. fault ≡ Memory) }
    {
        let course = course_of(node, always_post);
        let launch_spec = LaunchSpec::new(alloc, node, job)?;
        let reads_launch = job_reads_launch(alloc, launch_spec.job(), course.retries)?;
        Ok(NodeSpec {
            name: Text::new(alloc, node.name.as_str())?,
            course,
            done: node.done || marked,
            parents: Vec::from_slice(alloc, parents)?,
            abort_return: abort_return_of(&node.settings.abort),
            priority: priority_of(&node.settings.priority),
            category: category_of(limits, &node.settings.category),
            launch_spec,
            reads_launch,
        })
    }

    /// What is used in place of a node that does not exist.
    ///
    /// # Errors
    /// Where memory is refused.
    pub fn none(alloc: Global) -> Result<NodeSpec, AllocError>
        ensures { IfOk result (λ spec. spec ≡ no_node) }
    {
        Ok(NodeSpec {
            name: Text::new(alloc, "")?,
            course: Course {
                pre: false,
                noop: true,
                post: false,
                always_post: false,
                retries: 0,
                unless_exit: None,
                pre_skip: None,
                abort_on: None,
            },
            done: true,
            parents: Vec::new(alloc),
            abort_return: None,
            priority: 0,
            category: None,
            launch_spec: LaunchSpec::none(alloc)?,
            reads_launch: false,
        })
    }

    /// The command of a phase in an attempt: the words of a script by the facts, or the texts of
    /// the job for the attempt and its launch number.
    ///
    /// # Errors
    /// Those of `job_command` for the job; `Memory` where memory is refused.
    pub fn command(
        &self,
        alloc: Global,
        attempt: u32,
        phase: Phase,
        facts: &PhaseFacts,
    ) -> Result<ChildCommand, JobFault>
        ensures { Gives (λ command. command) result (phase_command self.now attempt phase facts.now) }
    {
        let folder = self.launch_spec.folder();
        match phase {
            Phase::Pre => {
                let facts = self.script_facts(alloc, attempt, false, facts)?;
                script_command(alloc, folder, self.launch_spec.pre(), &facts)
            }
            Phase::Job => command_of_job(
                alloc,
                folder,
                self.launch_spec.job(),
                attempt,
                facts.launch,
            ),
            Phase::Post => {
                let facts = self.script_facts(alloc, attempt, true, facts)?;
                script_command(alloc, folder, self.launch_spec.post(), &facts)
            }
        }
    }

    /// What the node's job asks of a cluster in an attempt, as settings for its launcher, `name=value` each:
    /// `DAGRUN_REQUEST_CPUS`, `DAGRUN_REQUEST_MEMORY`, `DAGRUN_REQUEST_DISK` and `DAGRUN_REQUEST_GPUS`, in this order,
    /// with what is assigned to `request_cpus` and so on, expanded for the attempt; empty where nothing is. A text that
    /// can't be expanded, or that holds the launch number, is there as it is written. A job without a submit file asks
    /// for nothing, and has no settings.
    ///
    /// # Errors
    /// Where memory is refused.
    pub fn requests(&self, alloc: Global, attempt: u32) -> Result<Texts, AllocError>
        ensures { IfOk result (λ settings. settings ≡ requests_of self.now attempt) }
    {
        requests_of_job(alloc, self.launch_spec.job(), attempt)
    }

    /// What the words of the node's scripts can stand for.
    fn script_facts(
        &self,
        alloc: Global,
        attempt: u32,
        post: bool,
        facts: &PhaseFacts,
    ) -> Result<ScriptFacts, AllocError>
        ensures { IfOk result (λ given. given ≡ script_facts self.now attempt post facts.now) }
    {
        Ok(ScriptFacts {
            name: Text::new(alloc, self.name.as_str())?,
            attempt,
            retries: self.course.retries,
            post,
            dag_status: facts.dag_status,
            failed: facts.failed,
            job_value: facts.job_value,
            pre_value: facts.pre_value,
            job_launch: facts.job_launch,
        })
    }
}

/// The command of a job in an attempt.
fn command_of_job(
    alloc: Global,
    folder: &str,
    job: &Job,
    attempt: u32,
    launch: u64,
) -> Result<ChildCommand, JobFault>
    ensures { Gives (λ command. command) result (command_of_job folder.now job.now attempt launch) }
{
    match &job.source {
        Source::Program(file) => {
            let program = Text::new(alloc, file.as_str())?;
            Ok(bare_command(alloc, folder, program, Texts::new(alloc))?)
        }
        Source::Described(macros) => {
            let attempt = Attempt {
                retry: attempt,
                launch,
            };
            job_command(alloc, folder, macros, attempt)
        }
    }
}

/// Whether one of the job's texts holds the launch number.
fn job_reads_launch(alloc: Global, job: &Job, retries: u32) -> Result<bool, JobFault>
    ensures ok { IfOk result (λ reads. reads ≡ job_reads_launch job.now retries) }
    ensures err { IfErr result (λ fault. fault ≡ Memory) }
{
    match &job.source {
        Source::Program(_) => Ok(false),
        Source::Described(macros) => {
            let attempt = Attempt {
                retry: retries,
                launch: u64::MAX,
            };
            reads_launch(alloc, macros, attempt)
        }
    }
}

/// Whether a word of a script is known in a whole run alone.
fn has_whole_run_word(script: &Option<SharedTexts>) -> bool
    ensures { result ≡ list_any is_whole_run (words_of script.now) }
{
    match script {
        Some(words) => vars_macros::uses_whole_run(words.as_slice()),
        None => false,
    }
}

fn course_of(node: &FlatNode, always_post: bool) -> Course
    ensures { result ≡ course_of always_post node.now }
{
    let settings = &node.settings;
    Course {
        pre: settings.pre.is_some(),
        noop: node.noop,
        post: settings.post.is_some(),
        always_post,
        retries: retries_of(&settings.retry),
        unless_exit: unless_exit_of(&settings.retry),
        pre_skip: pre_skip_of(&settings.pre_skip),
        abort_on: abort_value_of(&settings.abort),
    }
}

/// How often a node is tried again; 0 without a RETRY line.
pub fn retries_of(setting: &Option<RetrySetting>) -> u32
    ensures { result ≡ retries_of setting.now }
{
    match setting {
        Some(retry) => retry.retries,
        None => 0,
    }
}

fn unless_exit_of(setting: &Option<RetrySetting>) -> Option<i32>
    ensures { result ≡ unless_exit_of setting.now }
{
    match setting {
        Some(retry) => retry.unless_exit,
        None => None,
    }
}

fn pre_skip_of(setting: &Option<PreSkipSetting>) -> Option<i32>
    ensures { result ≡ option_map (λ s. s.value) setting.now }
{
    match setting {
        Some(skip) => Some(skip.value),
        None => None,
    }
}

fn abort_value_of(setting: &Option<AbortSetting>) -> Option<i32>
    ensures { result ≡ option_map (λ s. s.value) setting.now }
{
    match setting {
        Some(abort) => Some(abort.value),
        None => None,
    }
}

fn abort_return_of(setting: &Option<AbortSetting>) -> Option<u8>
    ensures { result ≡ abort_return_of setting.now }
{
    match setting {
        Some(abort) => abort.status,
        None => None,
    }
}

fn priority_of(setting: &Option<PrioritySetting>) -> i32
    ensures { result ≡ priority_of setting.now }
{
    match setting {
        Some(priority) => priority.value,
        None => 0,
    }
}

/// The place of a category among those that have a limit.
fn category_of(limits: &Categories<'_>, setting: &Option<CategorySetting>) -> Option<usize>
    ensures { result ≡ category_place limits.now setting.now }
{
    match setting {
        Some(category) => limits.place_of(category.name.as_str()),
        None => None,
    }
}
