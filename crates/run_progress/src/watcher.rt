//! Who shows how far a run is, while it learns what is done with its children.

use crate::doomed::Dooms;
use crate::failures::{Failure, failure_line, last_lines, outcome_text};
use crate::line::{Counts, ProgressLine, RunningNode, line_text, painted};
use crate::processors::processor_count;
use crate::shown::{columns_of, push_shown, shown};
use crate::tally::{Ending, Tally};
use crate::terminal::{Screen, Way, Width, takes_colours};
use child_watcher::{ChildWatcher, CommandPart, Killed, refused_part};
use node_machine::{Key, Outcome, Record, value_of};
use run_plan::Plan;
use run_plan_node::ChildCommand;
use std::alloc::AllocError;
use std::fs::File;
use std::process::Processes;
use std::rt::Files;
use std::time::{Clock, Duration};
use std::{io, mem};
use throttles::Limits;

/// For how many milliseconds a line that is drawn anew stays at least.
const REDRAWN_EACH: u64 = 100;

/// How many milliseconds it is from one plain line to the next at least.
const PLAIN_EACH: u64 = 10_000;

/// Of more children than so many for each processor the user is warned, where no limit holds them.
const MANY: u64 = 4;

/// A child that runs: since when, and the file that takes its errors.
#[derive(Drop)]
struct LiveChild {
    key: Key,
    since: Duration,
    errors: Option<String>,
}

/// The run that is watched, and where.
#[derive(Clone, Copy)]
pub struct Watched<'a> {
    /// The plan of the run.
    pub plan: &'a Plan,
    /// The folder from which its relative paths are taken.
    pub folder: &'a str,
    /// What may run at once.
    pub limits: Limits,
    /// Whether a launcher starts the jobs: their programs need not be on this machine.
    pub is_launched: bool,
    /// How it is shown.
    pub way: Way,
}

/// How far a run is, and what of it is shown.
#[derive(Drop)]
struct Progress<'a, R: Drop> {
    rt: R,
    run: Watched<'a>,
    /// none where memory was refused, or what was reported is not what was to come
    tally: Option<Tally>,
    /// those that run longest first
    live: Vec<LiveChild>,
    /// phases that failed, while their attempts go on
    suffered: Vec<Failure>,
    began: Duration,
    drawn: Option<Duration>,
    /// the line that is there
    line: String,
    width: Width,
    /// whether how many nodes failed is drawn in red
    has_colours: bool,
    /// how many processors there are, where that was asked and is known
    processors: Option<Option<u64>>,
    told_many: bool,
}

/// It shows how far a run is, as it learns what is done with its children. Where memory or standard error is refused,
/// less is shown, and nothing else.
#[derive(Drop)]
pub struct ProgressWatcher<'a, R: Drop> {
    progress: Option<Progress<'a, R>>,
}

/// Whether no limit is set; that on all children together there always is.
fn are_none(limits: &Limits) -> bool {
    limits.jobs == 0 && limits.pre == 0 && limits.post == 0
}

/// The name of the node of this number; empty where there is none.
fn name_in(plan: &Plan, node: u32) -> &str {
    if node <= plan.count() {
        plan.spec(node).name()
    } else {
        ""
    }
}

/// A path as it is seen from this folder, where it lies in it.
fn seen_from<'a>(folder: &str, path: &'a str) -> &'a str {
    match path.strip_prefix(folder) {
        Some(rest) => rest.strip_prefix('/').unwrap_or(path),
        None => path,
    }
}

/// The path of the file that takes the errors of a child, seen from this folder; none where there is none, or no memory.
fn errors_of<R: AllocGlobal>(rt: &R, folder: &str, command: &ChildCommand) -> Option<String> {
    match &command.error {
        Some(path) => String::from_str(rt.alloc(), seen_from(folder, path.as_str())).ok(),
        None => None,
    }
}

impl<'a, R: Screen + Processes + Files<File = File> + Clock + AllocGlobal + Copy + Drop> Progress<
    'a,
    R,
> {
    /// Nothing runs yet, after these records of earlier managers.
    fn new(rt: R, run: Watched<'a>, records: &[Record]) -> Progress<'a, R> {
        let alloc = rt.alloc();
        let began = rt.monotonic().unwrap_or(Duration::ZERO);
        let width = match run.way {
            Way::Redrawn => Width::ask(&rt, began),
            Way::Plain => Width::usual(),
        };
        Progress {
            rt,
            run,
            tally: Tally::new(alloc, run.plan, records).ok(),
            live: Vec::new(alloc),
            suffered: Vec::new(alloc),
            began,
            drawn: None,
            line: String::new(alloc),
            width,
            has_colours: run.way == Way::Redrawn && takes_colours(&rt),
            processors: None,
            told_many: false,
        }
    }

    /// The time since an arbitrary start.
    fn now(&self) -> Duration {
        self.rt.monotonic().unwrap_or(Duration::ZERO)
    }

    /// How many nodes have come how far, where that is known.
    fn counts(&self) -> Option<Counts> {
        match &self.tally {
            Some(tally) => Some(tally.counts()),
            None => None,
        }
    }

    /// The names of the nodes that run longest, as many as a line may have room for: beside each stand at least six
    /// characters.
    fn names(&self) -> Result<Vec<String>, AllocError> {
        let alloc = self.rt.alloc();
        let mut names = Vec::new(alloc);
        let mut room = self.width.usable();
        for child in &self.live {
            let name = shown(alloc, name_in(self.run.plan, child.key.node))?;
            let taken = columns_of(name.as_str()).saturating_add(6);
            if room < taken {
                break;
            }
            room -= taken;
            names.push(name)?;
        }
        Ok(names)
    }

    /// The line that says how far the run is at this moment.
    fn line_at(&self, now: Duration) -> Result<String, AllocError> {
        let alloc = self.rt.alloc();
        let names = self.names()?;
        let mut longest = Vec::new(alloc);
        for (name, child) in names.iter().zip(self.live.iter()) {
            longest.push(RunningNode {
                name: name.as_str(),
                seconds: now.saturating_sub(child.since).as_secs(),
            })?;
        }
        let line = ProgressLine {
            counts: self.counts(),
            running: self.live.len(),
            longest: &longest,
            seconds: now.saturating_sub(self.began).as_secs(),
        };
        line_text(alloc, &line, self.width.usable())
    }

    /// Writes a text to standard error, in one piece.
    fn write(&self, text: &str) {
        let _ = eprint!(&self.rt; "{text}");
    }

    /// Whether the line is to be shown anew. The first time that is at a pause, if there is one soon: what can be
    /// started is started then.
    fn is_due(&self, now: Duration, at_pause: bool) -> bool {
        let least = match self.run.way {
            Way::Redrawn => Duration::from_millis(REDRAWN_EACH),
            Way::Plain => Duration::from_millis(PLAIN_EACH),
        };
        match self.drawn {
            Some(drawn) => now.saturating_sub(drawn) >= least,
            None => at_pause || now.saturating_sub(self.began) >= least,
        }
    }

    /// A line as it is drawn: in colours, where these are taken.
    fn drawn_text(&self, line: &str) -> Result<String, AllocError> {
        let failed = match self.counts() {
            Some(counts) if self.has_colours => counts.failed,
            _ => 0,
        };
        painted(self.rt.alloc(), line, failed)
    }

    /// Shows this line, after lines that stay.
    fn draw(&mut self, staying: &str, line: String) -> Result<(), AllocError> {
        let alloc = self.rt.alloc();
        let shown = self.drawn_text(line.as_str())?;
        let text = match self.run.way {
            Way::Redrawn if staying.is_empty() => format!(in alloc; "\r{shown}\x1b[K")?,
            Way::Redrawn => format!(in alloc; "\r\x1b[K{staying}{shown}\x1b[K")?,
            Way::Plain => format!(in alloc; "{shown}\n")?,
        };
        self.write(text.as_str());
        self.line = line;
        Ok(())
    }

    /// Shows how far the run is, where that is due and it is another line than the one that is there.
    fn redraw(&mut self, at_pause: bool) -> Result<(), AllocError> {
        let now = self.now();
        if !self.is_due(now, at_pause) {
            return Ok(());
        }
        if self.run.way == Way::Redrawn {
            let rt = self.rt;
            self.width.renew(&rt, now);
        }
        self.drawn = Some(now);
        let line = self.line_at(now)?;
        if self.run.way == Way::Redrawn && line.as_str() == self.line.as_str() {
            return Ok(());
        }
        self.draw("", line)
    }

    /// Shows lines that stay, each with its end, and on a terminal how far the run is below them.
    fn tell(&mut self, lines: &str) -> Result<(), AllocError> {
        match self.run.way {
            Way::Plain => {
                self.write(lines);
                Ok(())
            }
            Way::Redrawn => {
                let now = self.now();
                self.drawn = Some(now);
                let line = self.line_at(now)?;
                self.draw(lines, line)
            }
        }
    }

    /// Takes the line away.
    fn clear(&mut self) {
        if self.run.way == Way::Redrawn && !self.line.is_empty() {
            self.write("\r\x1b[K");
            self.line = String::new(self.rt.alloc());
        }
    }

    /// Tells of a phase that failed: in one line, and the last ones of its errors where no attempt follows.
    fn tell_failure(&mut self, failure: &Failure, ending: Ending) -> Result<(), AllocError> {
        let alloc = self.rt.alloc();
        let name = name_in(self.run.plan, failure.key.node);
        let mut lines = failure_line(alloc, name, failure, ending)?;
        lines.push('\n')?;
        if ending == Ending::Failed {
            if let Some(errors) = &failure.errors {
                let path = splices_flat::path_in(alloc, self.run.folder, errors.as_str())?;
                let width = self.width.usable();
                let last = last_lines(alloc, &self.rt, path.as_str(), width)?;
                lines.push_str(last.as_str())?;
            }
        }
        self.tell(lines.as_str())
    }

    /// Takes the phases of a node that failed in an attempt which went on.
    fn take_suffered(&mut self, node: u32) -> Result<Vec<Failure>, AllocError> {
        let alloc = self.rt.alloc();
        let (mut taken, mut kept) = (Vec::new(alloc), Vec::new(alloc));
        for failure in mem::replace(&mut self.suffered, Vec::new(alloc)) {
            if failure.key.node == node {
                taken.push(failure)?;
            } else {
                kept.push(failure)?;
            }
        }
        self.suffered = kept;
        Ok(taken)
    }

    /// What is displayed of a phase that ended so.
    fn tell_ending(&mut self, failure: Failure, ending: Ending) -> Result<(), AllocError> {
        if ending == Ending::Suffered {
            self.suffered.push(failure)?;
            return Ok(());
        }
        let before = if self.suffered.is_empty() {
            Vec::new(self.rt.alloc())
        } else {
            self.take_suffered(failure.key.node)?
        };
        if ending == Ending::Good {
            return Ok(());
        }
        for earlier in &before {
            self.tell_failure(earlier, ending)?;
        }
        self.tell_failure(&failure, ending)
    }

    /// The end of a phase, as the tally takes it.
    fn ending(&mut self, key: &Key, outcome: Outcome) -> Ending {
        let alloc = self.rt.alloc();
        if let Some(tally) = &mut self.tally {
            if let Ok(Some(ending)) = tally.ended(alloc, self.run.plan, key, outcome) {
                return ending;
            }
        }
        self.tally = None;
        match value_of(outcome) {
            0 => Ending::Good,
            _ => Ending::Failed,
        }
    }

    /// Takes a child away, and answers the file that took its errors.
    fn take(&mut self, key: &Key) -> Option<String> {
        let place = self.live.iter().position(|child| child.key == *key)?;
        self.live.remove(place).errors
    }

    /// A phase is launched.
    fn launch(&mut self, key: &Key) {
        let lawful = match &mut self.tally {
            Some(tally) => tally.launched(self.run.plan, key),
            None => false,
        };
        if !lawful {
            self.tally = None;
        }
    }

    fn launched(&mut self, key: &Key, command: &ChildCommand) -> Result<(), AllocError> {
        self.launch(key);
        let child = LiveChild {
            key: *key,
            since: self.now(),
            errors: errors_of(&self.rt, self.run.folder, command),
        };
        self.live.push(child)?;
        self.redraw(false)
    }

    fn not_started(
        &mut self,
        key: &Key,
        command: &ChildCommand,
        part: CommandPart,
        error: &io::Error,
    ) -> Result<(), AllocError> {
        let alloc = self.rt.alloc();
        self.launch(key);
        let ending = self.ending(key, Outcome::NoStart);
        let (_, path) = refused_part(alloc, &self.rt, self.run.folder, command, part)?;
        let mut what = outcome_text(alloc, Outcome::NoStart)?;
        let path = path.as_str();
        write!(what, ": {path}: {error}")?;
        let failure = Failure {
            key: *key,
            what,
            errors: None,
        };
        self.tell_ending(failure, ending)
    }

    fn ended(&mut self, key: &Key, outcome: Outcome) -> Result<(), AllocError> {
        let errors = self.take(key);
        let ending = self.ending(key, outcome);
        if ending != Ending::Good || !self.suffered.is_empty() {
            let failure = Failure {
                key: *key,
                what: outcome_text(self.rt.alloc(), outcome)?,
                errors,
            };
            self.tell_ending(failure, ending)?;
        }
        self.redraw(false)
    }

    fn killed(&mut self, key: &Key) {
        let _ = self.take(key);
        if let Some(tally) = &mut self.tally {
            tally.forget_launch(self.run.plan, key);
        }
    }

    /// How many processors there are, where the system says it.
    fn processors(&mut self) -> Option<u64> {
        match self.processors {
            Some(count) => count,
            None => {
                let count = processor_count(&self.rt);
                self.processors = Some(count);
                count
            }
        }
    }

    /// Tells once where more children run than the processors can be meant for.
    fn tell_many(&mut self) -> Result<(), AllocError> {
        let running = self.live.len() as u64;
        if self.told_many || running <= MANY || !are_none(&self.run.limits) {
            return Ok(());
        }
        let Some(processors) = self.processors() else {
            return Ok(());
        };
        if running <= processors.saturating_mul(MANY) {
            return Ok(());
        }
        self.told_many = true;
        let word = if processors == 1 {
            "processor"
        } else {
            "processors"
        };
        let alloc = self.rt.alloc();
        let line = format!(in alloc;
            "{running} children run at once on {processors} {word}: --maxjobs limits them\n"
        )?;
        self.tell(line.as_str())
    }

    fn waits(&mut self) -> Result<(), AllocError> {
        self.tell_many()?;
        self.redraw(true)
    }

    /// Tells how many nodes are done as the run begins, after these words, and before those.
    fn tell_kept(&self, counts: Counts, front: &str, back: &str) -> Result<(), AllocError> {
        let verb = if counts.done == 1 { "is" } else { "are" };
        let (done, total) = (counts.done, counts.total);
        let mut line = String::new(self.rt.alloc());
        push_shown(&mut line, front)?;
        writeln!(line, ": {done} of {total} nodes {verb} done{back}")?;
        self.write(line.as_str());
        Ok(())
    }

    /// Tells by which rescue file a new round begins, and how many nodes it marks.
    fn tell_begun(&mut self, top: &str, rescue: Option<&str>) -> Result<(), AllocError> {
        let Some(counts) = self.counts() else {
            return Ok(());
        };
        if counts.total > 0 && counts.done == counts.total {
            return self.tell_done(top, rescue);
        }
        match rescue {
            Some(rescue) => {
                let front = format!(in self.rt.alloc(); "new round by {rescue}")?;
                self.tell_kept(counts, front.as_str(), " (--autorescue 0 begins anew)")
            }
            None => Ok(()),
        }
    }

    /// Tells how many nodes are done of a round that goes on.
    fn tell_goes_on(&mut self) -> Result<(), AllocError> {
        match self.counts() {
            Some(counts) => self.tell_kept(counts, "goes on", ""),
            None => Ok(()),
        }
    }

    /// Tells that the round was called in another folder before, by which its relative paths were meant.
    fn tell_elsewhere(&mut self, folder: &str) -> Result<(), AllocError> {
        let mut line = String::from_str(self.rt.alloc(), "the round ran in ")?;
        push_shown(&mut line, folder)?;
        line.push_str(" before: its relative paths are seen from this folder now\n")?;
        self.write(line.as_str());
        Ok(())
    }

    /// Tells which of the jobs that can start at once are certain to fail.
    fn tell_doomed(&mut self) -> Result<(), AllocError> {
        let alloc = self.rt.alloc();
        let plan = self.run.plan;
        let mut dooms = Dooms::new(alloc);
        for node in 0..plan.count() {
            let is_ready = match &self.tally {
                Some(tally) => tally.has_job_ready(plan, node),
                None => false,
            };
            if is_ready {
                dooms.look(&self.rt, &self.run, node)?;
            }
        }
        let text = dooms.text(alloc, plan)?;
        if !text.is_empty() {
            self.write(text.as_str());
        }
        Ok(())
    }

    /// Tells that a run is halted, while children of it run.
    fn tell_halt(&mut self) -> Result<(), AllocError> {
        let alloc = self.rt.alloc();
        let line = match self.live.len() {
            0 => return Ok(()),
            1 => String::from_str(alloc, "halted: nothing more is launched; 1 still runs\n")?,
            running => format!(in alloc;
                "halted: nothing more is launched; {running} still run\n"
            )?,
        };
        self.tell(line.as_str())
    }

    /// Tells that the processes of the round can't be noted.
    fn tell_unkept(&mut self, reason: &str) -> Result<(), AllocError> {
        let line = format!(in self.rt.alloc();
            "the round's processes can't be noted ({reason}): a later run may not know them\n"
        )?;
        self.tell(line.as_str())
    }

    /// Tells why the run is stopped.
    fn tell_stop(&mut self, reason: &str) -> Result<(), AllocError> {
        let line = format!(in self.rt.alloc(); "{reason}\n")?;
        self.tell(line.as_str())
    }

    /// Tells that all nodes are done from the start, by this file.
    fn tell_done(&mut self, top: &str, rescue: Option<&str>) -> Result<(), AllocError> {
        let mut line = String::from_str(self.rt.alloc(), "all nodes are done: ")?;
        push_shown(&mut line, rescue.unwrap_or(top))?;
        line.push_str(" says so")?;
        if rescue.is_some() {
            line.push_str("; remove it, or call with --autorescue 0, to begin anew")?;
        }
        line.push('\n')?;
        self.write(line.as_str());
        Ok(())
    }
}

impl<
    'a,
    R: Screen + Processes + Files<File = File> + Clock + AllocGlobal + Copy + Drop,
> ProgressWatcher<'a, R> {
    /// It shows nothing.
    pub fn hidden() -> ProgressWatcher<'a, R> {
        ProgressWatcher { progress: None }
    }

    /// It shows how far this run is, which goes on after these records of earlier managers.
    pub fn new(rt: R, run: Watched<'a>, records: &[Record]) -> ProgressWatcher<'a, R> {
        ProgressWatcher {
            progress: Some(Progress::new(rt, run, records)),
        }
    }

    /// Tells how many nodes are done in a round that begins by the rescue file of this path, and where all are, by that file or
    /// else by the DAG file itself; then which of the jobs that can start at once are certain to fail.
    pub fn begins(&mut self, top: &str, rescue: Option<&str>) {
        if let Some(progress) = &mut self.progress {
            let _ = progress.tell_begun(top, rescue);
            let _ = progress.tell_doomed();
        }
    }

    /// Tells how many nodes are done in a round that goes on, and in which folder it was called before, if that is another one; then which of
    /// the jobs that can start at once are certain to fail.
    pub fn goes_on(&mut self, elsewhere: Option<&str>) {
        if let Some(progress) = &mut self.progress {
            let _ = progress.tell_goes_on();
            if let Some(folder) = elsewhere {
                let _ = progress.tell_elsewhere(folder);
            }
            let _ = progress.tell_doomed();
        }
    }

    /// Tells that the system refuses to write of the round's processes, for this reason.
    pub fn cannot_keep(&mut self, reason: &str) {
        if let Some(progress) = &mut self.progress {
            let _ = progress.tell_unkept(reason);
        }
    }

    /// Tells why the run is stopped, where its log can't. Nothing else stays.
    pub fn stops(&mut self, reason: &str) {
        if let Some(progress) = &mut self.progress {
            let _ = progress.tell_stop(reason);
            progress.clear();
        }
    }

    /// Tells that the run is halted, where something runs.
    pub fn halts_now(&mut self) {
        if let Some(progress) = &mut self.progress {
            let _ = progress.tell_halt();
        }
    }

    /// Takes away what is shown and does not stay.
    pub fn ends(&mut self) {
        if let Some(progress) = &mut self.progress {
            progress.clear();
        }
    }
}

impl<R: Screen + Processes + Files<File = File> + Clock + AllocGlobal + Copy + Drop> ChildWatcher
    for ProgressWatcher<'_, R> {
    ghost prepared = { λ _. Unit {0} };

    fn launching(&mut self, _key: &Key, _command: &ChildCommand) {}

    fn launched(&mut self, key: &Key, _process: u32, command: &ChildCommand) {
        if let Some(progress) = &mut self.progress {
            let _ = progress.launched(key, command);
        }
    }

    fn held(&mut self, _key: &Key, _error: &io::Error) {
        if let Some(progress) = &mut self.progress {
            let _ = progress.redraw(true);
        }
    }

    fn not_started(
        &mut self,
        key: &Key,
        command: &ChildCommand,
        part: CommandPart,
        error: &io::Error,
    ) {
        if let Some(progress) = &mut self.progress {
            let _ = progress.not_started(key, command, part, error);
        }
    }

    fn ended(&mut self, key: &Key, outcome: Outcome) {
        if let Some(progress) = &mut self.progress {
            let _ = progress.ended(key, outcome);
        }
    }

    fn will_record(&mut self) {}

    fn killed(&mut self, key: &Key, _answer: Killed) {
        if let Some(progress) = &mut self.progress {
            progress.killed(key);
        }
    }

    fn waits(&mut self) {
        if let Some(progress) = &mut self.progress {
            let _ = progress.waits();
        }
    }

    fn halts(&mut self) -> bool {
        false
    }
}
