//! What is reported of a node in error, or of one that runs: its command, its files, and what is found in them.

ghost use Rattle.std.specs.Prelude.{◌≡◌, IfOk, string_bytes};
ghost use Rattle.run_plan_node.specs.Commands.{starts_child};
ghost use Rattle.failure_report.specs.Reported.{IsFailureBlock};

use crate::details::{Details, Quote, SeenCommand, push_details, seen_command};
use crate::earlier::push_earlier;
use crate::failed::Failure;
use crate::hanging::hung;
use crate::heads::{phase_words, push_ending, push_head};
use crate::looking::{quote_of, repair_of};
use crate::notes::{LogNotes, PhaseNotes, Refused};
use crate::quotes::push_all_shown;
use dag_reader::Text;
use log_lines::unquoted;
use node_machine::{Ended, Key, Outcome, Phase};
use run_plan_node::{NodeSpec, PhaseFacts};
use sched_core::Core;
use std::alloc::{AllocError, Global};
use std::fs::File;
use std::rt::Files;

/// What is known of a run: its plan and its records, the newest ending and the facts of the newest launch
/// of each node, what its log says, and the folder from which paths are taken.
#[derive(Drop)]
pub(crate) struct Run<'c, 'p, 'l> {
    pub(crate) core: &'c Core<'p>,
    pub(crate) ends: Vec<Option<Ended>>,
    pub(crate) facts: Vec<Option<PhaseFacts>>,
    pub(crate) notes: LogNotes<'l>,
    pub(crate) folder: String,
}

/// A phase that is reported: how it ended, where it did, and of what its command is made.
#[derive(Clone, Copy)]
pub(crate) struct Story {
    pub(crate) key: Key,
    pub(crate) outcome: Option<Outcome>,
    pub(crate) facts: Option<PhaseFacts>,
}

/// Whether a child is started for a phase of a node.
fn starts_child(spec: &NodeSpec, phase: Phase) -> bool
    ensures { result ≡ starts_child spec.now phase }
{
    let course = spec.course();
    match phase {
        Phase::Pre => course.pre,
        Phase::Job => !course.noop,
        Phase::Post => course.post,
    }
}

impl<'l> Run<'_, '_, 'l> {
    /// The newest ending of a node.
    pub(crate) fn end_of(&self, node: u32) -> Option<Ended> {
        match self.ends.get(node as usize) {
            Some(end) => *end,
            None => None,
        }
    }

    /// The facts of the newest launch of a node.
    pub(crate) fn facts_of(&self, node: u32) -> Option<PhaseFacts> {
        match self.facts.get(node as usize) {
            Some(facts) => *facts,
            None => None,
        }
    }

    /// What the log says of a phase.
    pub(crate) fn notes_of(&self, key: &Key) -> Option<PhaseNotes<'l>> {
        let notes = self.notes.of(key.node)?;
        Some(*notes.phase(key.phase))
    }

    /// How the child of a phase is started, where it has one.
    fn command_of(&self, alloc: Global, story: &Story) -> Result<Option<SeenCommand>, AllocError> {
        let plan = self.core.plan();
        let key = &story.key;
        let Some(facts) = story.facts else {
            return Ok(None);
        };
        if key.node > plan.count() {
            return Ok(None);
        }
        let spec = plan.spec(key.node);
        if !starts_child(spec, key.phase) || key.attempt > spec.course().retries {
            return Ok(None);
        }
        match plan.command(alloc, key, &facts) {
            Ok(command) => Ok(Some(seen_command(alloc, self.folder.as_str(), &command)?)),
            Err(_) => Err(AllocError),
        }
    }

    /// The same with the file that keeps what a script has printed, where the log names it.
    pub(crate) fn seen_at(
        &self,
        alloc: Global,
        story: &Story,
    ) -> Result<Option<SeenCommand>, AllocError> {
        let Some(command) = self.command_of(alloc, story)? else {
            return Ok(None);
        };
        let notes = self.notes_of(&story.key);
        match notes.and_then(|notes| notes.errors) {
            Some(path) if story.key.phase != Phase::Job => {
                let path = unquoted(alloc, path)?;
                Ok(Some(SeenCommand {
                    output: Some(Text::new(alloc, path.as_str())?),
                    error: Some(Text::new(alloc, path.as_str())?),
                    ..command
                }))
            }
            _ => Ok(Some(command)),
        }
    }

    /// Why a phase that ended so was not started, where the log says it.
    fn refused_at(&self, story: &Story) -> Option<Refused<'l>> {
        match story.outcome {
            Some(Outcome::NoStart) => self.notes_of(&story.key)?.refused,
            _ => None,
        }
    }

    /// The words that the log has before those of the command of a phase: the launcher's. None where it has none, or doesn't say it.
    fn launcher_at(&self, story: &Story, command: &SeenCommand) -> Option<&'l str> {
        let started = self.notes_of(&story.key)?.command?;
        let front = started.strip_suffix(command.words.as_str())?;
        front.strip_suffix(' ')
    }

    /// How many seconds a phase took, where the log says it of this ending.
    pub(crate) fn seconds_at(&self, story: &Story) -> Option<&'l str> {
        let notes = self.notes_of(&story.key)?;
        if notes.outcome.is_some() && notes.outcome == story.outcome {
            notes.seconds
        } else {
            None
        }
    }
}

/// A copy of a text, where there is one.
fn copy_of(alloc: Global, text: Option<&str>) -> Result<Option<String>, AllocError> {
    match text {
        Some(text) => Ok(Some(String::from_str(alloc, text)?)),
        None => Ok(None),
    }
}

/// What the error output of a phase has that ended so.
pub(crate) fn quote_at<R: Files<File = File> + AllocGlobal>(
    rt: &R,
    story: &Story,
    command: &SeenCommand,
) -> Result<Option<Quote>, AllocError> {
    match (story.outcome, &command.error) {
        (None | Some(Outcome::NoStart), _) => Ok(None),
        (Some(_), Some(path)) => Ok(Some(quote_of(rt, path.as_str())?)),
        (Some(_), None) => Ok(None),
    }
}

/// What the error output of a phase has that is reported, where it has one.
///
/// # Errors
/// Lack of memory.
pub(crate) fn quoted_of<R: Files<File = File> + AllocGlobal>(
    rt: &R,
    run: &Run<'_, '_, '_>,
    story: &Story,
) -> Result<Option<Quote>, AllocError> {
    match run.seen_at(rt.alloc(), story)? {
        Some(command) => quote_at(rt, story, &command),
        None => Ok(None),
    }
}

/// How what is wrong with a phase is mended, as far as its files tell it.
fn repair_at<R: Files<File = File> + AllocGlobal>(
    rt: &R,
    run: &Run<'_, '_, '_>,
    story: &Story,
    command: &SeenCommand,
) -> Result<Option<String>, AllocError> {
    match story.outcome {
        Some(outcome) => repair_of(rt, command, outcome, run.refused_at(story).as_ref()),
        None => Ok(None),
    }
}

/// Adds what is reported of a phase after its line.
///
/// # Errors
/// Lack of memory.
pub(crate) fn push_story<R: Files<File = File> + AllocGlobal>(
    rt: &R,
    text: &mut String,
    run: &Run<'_, '_, '_>,
    story: &Story,
) -> Result<(), AllocError> {
    let alloc = rt.alloc();
    let Some(command) = run.seen_at(alloc, story)? else {
        return Ok(());
    };
    let details = Details {
        launcher: copy_of(alloc, run.launcher_at(story, &command))?,
        seconds: copy_of(alloc, run.seconds_at(story))?,
        repair: repair_at(rt, run, story, &command)?,
        quote: quote_at(rt, story, &command)?,
        command: Some(command),
    };
    push_details(text, &details)
}

/// Why a phase was not started, in words: the path that was refused, and what the system said.
///
/// # Errors
/// Lack of memory.
pub(crate) fn reason_of(
    alloc: Global,
    run: &Run<'_, '_, '_>,
    story: &Story,
) -> Result<Option<String>, AllocError> {
    let Some(refused) = run.refused_at(story) else {
        return Ok(None);
    };
    let mut text = String::new(alloc);
    push_all_shown(&mut text, unquoted(alloc, refused.path)?.as_str())?;
    text.push_str(": ")?;
    push_all_shown(&mut text, unquoted(alloc, refused.reason)?.as_str())?;
    Ok(Some(text))
}

/// The outcome of which this is the value; none where nothing ended so.
fn outcome_of(value: i32) -> Option<Outcome> {
    match value {
        -1001 => Some(Outcome::NoStart),
        -1000 => Some(Outcome::Untold),
        0..=255 => Some(Outcome::Exit(value as u8)),
        -127..=-1 => Some(Outcome::Signal(value.unsigned_abs() as u8)),
        _ => None,
    }
}

/// What failed before a POST script in its attempt: PRE, after which no job ran, or the job.
fn before_post(story: &Story) -> Option<Story> {
    let facts = story.facts?;
    if story.key.phase != Phase::Post {
        return None;
    }
    let (phase, value) = if facts.job_value == -1004 {
        (Phase::Pre, facts.pre_value)
    } else {
        (Phase::Job, facts.job_value)
    };
    let outcome = outcome_of(value)?;
    if outcome == Outcome::Exit(0) {
        return None;
    }
    let launch = facts.job_launch;
    Some(Story {
        key: Key { phase, ..story.key },
        outcome: Some(outcome),
        facts: Some(PhaseFacts { launch, ..facts }),
    })
}

/// Adds what is reported of a phase that had failed before the last one of its attempt.
fn push_before<R: Files<File = File> + AllocGlobal>(
    rt: &R,
    text: &mut String,
    run: &Run<'_, '_, '_>,
    story: &Story,
) -> Result<(), AllocError> {
    let reason = reason_of(rt.alloc(), run, story)?;
    let words = phase_words(story.key.phase);
    write!(text, "before that, {words} ")?;
    if let Some(outcome) = story.outcome {
        push_ending(text, outcome, shown(&reason))?;
    }
    text.push('\n')?;
    push_story(rt, text, run, story)
}

/// The text, where there is one.
pub(crate) fn shown(text: &Option<String>) -> Option<&str> {
    match text {
        Some(text) => Some(text.as_str()),
        None => None,
    }
}

/// Adds why no attempt followed the last one, where more were allowed.
fn push_no_more(
    text: &mut String,
    spec: &NodeSpec,
    end: &Ended,
    value: Option<i32>,
) -> Result<(), AllocError> {
    let course = spec.course();
    let Some(value) = value else {
        return Ok(());
    };
    if course.abort_on == Some(value) {
        return writeln!(
            text,
            "aborted  the round: {value} is the value of its ABORT-DAG-ON line"
        );
    }
    if end.attempt < course.retries && course.unless_exit == Some(value) {
        return writeln!(
            text,
            "retries  none: {value} is the value of its UNLESS-EXIT"
        );
    }
    Ok(())
}

/// What is reported of a node in error after its line.
fn rest_of<R: Files<File = File> + AllocGlobal>(
    rt: &R,
    run: &Run<'_, '_, '_>,
    spec: &NodeSpec,
    end: &Ended,
    story: &Story,
    value: Option<i32>,
) -> Result<String, AllocError> {
    let mut text = String::new(rt.alloc());
    push_no_more(&mut text, spec, end, value)?;
    push_story(rt, &mut text, run, story)?;
    if let Some(before) = before_post(story) {
        push_before(rt, &mut text, run, &before)?;
    }
    let earlier = run.notes.earlier.as_slice();
    push_earlier(rt.alloc(), &mut text, earlier, story.key.node)?;
    Ok(text)
}

/// The last phase of a node in error, which ended so.
pub(crate) fn story_of(run: &Run<'_, '_, '_>, node: u32, end: &Ended) -> Story {
    Story {
        key: Key {
            node,
            attempt: end.attempt,
            phase: end.phase,
        },
        outcome: Some(end.outcome),
        facts: run.facts_of(node),
    }
}

/// What is reported of a node in error: its line, and what comes after it, indented.
///
/// # Errors
/// Lack of memory.
pub(crate) fn failure_block<R: Files<File = File> + AllocGlobal>(
    rt: &R,
    run: &Run<'_, '_, '_>,
    failure: &Failure,
) -> Result<String, AllocError>
    ensures { IfOk result (λ block. IsFailureBlock run.now.core.now.plan failure.now (string_bytes block)) }
{
    let (plan, node) = (run.core.plan(), failure.node);
    let mut text = String::new(rt.alloc());
    let Some(end) = failure.end else {
        return Ok(text);
    };
    if node > plan.count() {
        return Ok(text);
    }
    let spec = plan.spec(node);
    let story = story_of(run, node, &end);
    let reason = reason_of(rt.alloc(), run, &story)?;
    let rest = rest_of(rt, run, spec, &end, &story, run.core.last_value(node))?;
    let retries = spec.course().retries;
    push_head(
        &mut text,
        spec.name(),
        &end,
        shown(&reason),
        retries,
        failure.waiting,
    )?;
    text.push_str(rest.as_str())?;
    let block = hung(rt.alloc(), text.as_str())?;
    Ok(block)
}
