//! The children of a run as processes of this machine.
//!
//! The rules are those of the HTCondor manual, DAGMan workflows, as docs/MANUAL.md states them.
#![tactic(auto)]

ghost use Rattle.std.specs.Prelude.{◌≡◌, ◌∷◌, [], ◌≤◌, ◌<◌, None, Some, pos, ℕ, length, map, reverse, vec_len, vec_capacity, slice_get, unwrap_or, IsSome, IsTrue, IfOk, IfSome};
ghost use Rattle.std.specs.Process.{child_status, exit_code, exit_signal};
ghost use Rattle.node_machine.specs.Story.{is_possible};
ghost use Rattle.run_plan.specs.Plan.{node_at};
ghost use Rattle.sched_core.specs.Run.{is_among, without};
ghost use Rattle.job_starter_drive.specs.Calls.{running, any_ending};
ghost use Rattle.job_starter_local.specs.Commands.{longest_pause};
ghost use Rattle.job_starter_local.specs.Launching.{IsStartedBy};

mod ending;
mod launching;
mod scripts;
mod starting;

use child_watcher::{ChildWatcher, RoundIdentity};
use dag_reader::{Text, Texts};
use ending::ask_launchers;
use job_starter_drive::{
    Call, CallLog, Killed, StartFault, Started, System, are_same, key_at, no_answer, no_memory,
};
pub use launching::Launcher;
use node_machine::{Key, Outcome};
use run_plan::Plan;
use run_plan_node::{ChildCommand, NodeSpec};
use scripts::{kept_command, settle_kept};
pub use starting::command_for;
use starting::{Refusal, start_child};
use std::alloc::{AllocError, Global};
use std::fs::File;
use std::os::unix::process::ExitStatusExt;
use std::process::{Child, ExitStatus, Processes};
use std::rt::Files;
use std::time::{Clock, Duration};
use std::{io, thread};

/// How a child did when it was looked at last.
#[derive(Clone, Copy)]
enum Seen {
    /// It runs, or was not looked at yet.
    Runs,
    /// It ended with this status.
    Ended(ExitStatus),
    /// The system refused the question.
    Refused,
}

/// A child whose ending was not reported yet.
#[derive(Drop)]
struct RunningChild<R: Processes> {
    key: Key,
    child: Child<R::Started>,
    seen: Seen,
}

impl<R: Processes> RunningChild<R> {
    /// Looks whether it has ended.
    fn look(&mut self)
        ensures { self.new.key ≡ self.old.key }
    {
        self.seen = match self.child.try_wait() {
            Ok(None) => Seen::Runs,
            Ok(Some(status)) => Seen::Ended(status),
            Err(_) => Seen::Refused,
        };
    }
}

/// The first pause between two rounds of questions, in microseconds. Each further one is twice as
/// long, up to the longest of so many children; from there on they grow by a thousandth.
const FIRST_PAUSE: u64 = 20;

/// What no pause is longer than, in microseconds.
const LONGEST_PAUSE: u64 = 50_000;

/// The pause before a start is tried again that the system refused for the moment, in microseconds.
const START_PAUSE: u64 = 10_000;

/// How often it is tried again: for ten seconds.
const START_TRIES: u32 = 1_000;

/// The pause between two rounds of questions to so many children up to which it is doubled, in microseconds: a round
/// takes longer the more there are.
fn longest_pause(children: usize) -> u64
    ensures is { result ≡ longest_pause children }
    ensures bound { result ≤ 50000 }
{
    match children {
        0..=16 => 2_000,
        17..=64 => 4_000,
        65..=256 => 10_000,
        _ => 50_000,
    }
}

/// The pause after one of so many microseconds: twice as long up to this one, and longer by a thousandth from there on. So nothing
/// that ends after a long silence waits for more than a thousandth of it.
fn next_pause(pause: u64, longest: u64) -> u64
    requires { longest ≤ 50000 }
    ensures { result ≤ 50000 }
{
    if pause < longest {
        return pause.saturating_mul(2).min(longest);
    }
    pause.saturating_add(pause / 1024).min(LONGEST_PAUSE)
}

/// Children of this process. Paths that don't begin with a slash are taken from one folder.
///
/// All children are looked at together, once between two pauses, and each question is answered by
/// what was seen then.
pub struct LocalSystem<
    'a,
    R: Processes + Files<File = File> + Clock + Drop,
    W: ChildWatcher + Drop,
> {
    alloc: Global,
    rt: R,
    folder: Text,
    launcher: &'a Launcher,
    plan: &'a Plan,
    identity: RoundIdentity<'a>,
    watcher: W,
    log: CallLog,
    children: Vec<RunningChild<R>>,
    /// whether the children were looked at since the last pause
    looked: bool,
    /// where the child stands for which is asked next, as long as they are asked for in turn
    next: usize,
    pause: u64,
    /// whether the launchers were asked to end, since the run is stopped
    asked: bool,
    faults: u64,
    // No pause is longer than the longest.
    ghost bounded: { pause ≤ 50000 },
    // Each key that runs has its child.
    ghost tied: { reverse (map (λ child. child.key) children.items) ≡ running log.calls },
}

// Each function that drops a value calls this; a derived drop would be in each, part by part.
impl<R: Processes + Files<File = File> + Clock + Drop, W: ChildWatcher + Drop> Drop
    for LocalSystem<'_, R, W> {
    fn drop(self) {
        let LocalSystem {
            alloc: _,
            rt: _,
            folder: _,
            launcher: _,
            plan: _,
            identity: _,
            watcher: _,
            log: _,
            children: _,
            looked: _,
            next: _,
            pause: _,
            asked: _,
            faults: _,
        } = self;
    }
}

/// What a phase comes to whose child ended with this status.
pub fn outcome_of(status: ExitStatus) -> Outcome
    ensures exit { (code : ℕ) → code < 256 → exit_code status ≡ Some (pos code)
        → result ≡ Outcome.Exit code }
    ensures signal { (number : ℕ) → number < 128 → exit_signal status ≡ Some (pos number)
        → result ≡ Outcome.Signal number }
    ensures untold { exit_code status ≡ None → exit_signal status ≡ None
        → result ≡ Outcome.Untold }
    ensures possible { IsTrue (is_possible result) }
{
    if let Some(code) = status.code() {
        match u8::try_from(code) {
            Ok(code) => Outcome::Exit(code),
            Err(_) => Outcome::Untold,
        }
    } else if let Some(signal) = status.signal() {
        match u8::try_from(signal) {
            Ok(number) if 1 <= number && number <= 127 => Outcome::Signal(number),
            _ => Outcome::Untold,
        }
    } else {
        Outcome::Untold
    }
}

/// The place of a key, which may be this one.
fn place_of(keys: &[Key], key: &Key, likely: usize) -> usize
    requires { IsTrue (is_among key.now (reverse keys.now)) }
    ensures { result < length keys.now }
{
    if likely < keys.len() && are_same(key, &keys[likely]) {
        return likely;
    }
    for place in 0..keys.len() {
        if are_same(key, &keys[place]) {
            return place;
        }
    }
    unreachable!()
}

/// Lets a child go that ended or was killed.
fn forget<R: Processes>(children: &mut Vec<RunningChild<R>>, key: &Key)
    ensures { reverse (map (λ child. child.key) children.new.items)
        ≡ without key.now (reverse (map (λ child. child.key) children.old.items)) }
{
    children.retain(|child| !are_same(key, &child.key));
}

/// Looks whether the child at a place has ended.
fn look_at<R: Processes>(children: &mut Vec<RunningChild<R>>, place: usize)
    requires { place < vec_len children.old }
    ensures same { map (λ child. child.key) children.new.items
        ≡ map (λ child. child.key) children.old.items }
    ensures many { vec_len children.new ≡ vec_len children.old }
    ensures room { vec_capacity children.new ≡ vec_capacity children.old }
{
    children[place].look();
}

/// Looks which children have ended. What they leave at the system is collected: their numbers are free.
fn look_at_all<R: Processes>(children: &mut Vec<RunningChild<R>>)
    ensures same { map (λ child. child.key) children.new.items
        ≡ map (λ child. child.key) children.old.items }
    ensures many { vec_len children.new ≡ vec_len children.old }
    ensures room { vec_capacity children.new ≡ vec_capacity children.old }
{
    for place in 0..children.len() {
        look_at(children, place);
    }
}

/// Whether a child runs, by what was seen last.
fn some_run<R: Processes>(children: &[RunningChild<R>]) -> bool {
    children
        .iter()
        .any(|child| matches!(child.seen, Seen::Runs))
}

/// The place of the first child that was seen to have ended, and how it did.
fn ended_place<R: Processes>(children: &[RunningChild<R>]) -> Option<(usize, ExitStatus)>
    ensures { IfSome result (λ found. found.0 < length children.now) }
{
    for place in 0..children.len() {
        if let Seen::Ended(status) = children[place].seen {
            return Some((place, status));
        }
    }
    None
}

/// Waits for the child at a place.
fn wait_at<R: Processes>(
    children: &mut Vec<RunningChild<R>>,
    place: usize,
) -> io::Result<ExitStatus>
    requires { place < vec_len children.old }
    ensures same { map (λ child. child.key) children.new.items
        ≡ map (λ child. child.key) children.old.items }
    ensures many { vec_len children.new ≡ vec_len children.old }
    ensures kept { IfOk result (λ status.
        slice_get (map (λ child. child_status child.child) children.new.items) place ≡ Some (Some status)) }
{
    children[place].child.wait()
}

/// Asks that the child at a place be killed.
fn signal_at<R: Processes>(children: &mut Vec<RunningChild<R>>, place: usize) -> io::Result<()>
    requires { place < vec_len children.old }
    ensures same { map (λ child. child.key) children.new.items
        ≡ map (λ child. child.key) children.old.items }
    ensures many { vec_len children.new ≡ vec_len children.old }
{
    children[place].child.kill()
}

/// Kills the child at a place, and waits for it where that was not refused.
fn kill_at<R: Processes>(children: &mut Vec<RunningChild<R>>, place: usize) -> Killed
    requires { place < vec_len children.old }
    ensures same { map (λ child. child.key) children.new.items
        ≡ map (λ child. child.key) children.old.items }
    ensures many { vec_len children.new ≡ vec_len children.old }
    // It is only said to have ended where the wait has told how.
    ensures ended { result ≡ Killed.Ended
        → IfSome (slice_get (map (λ child. child_status child.child) children.new.items) place) IsSome }
{
    if signal_at(children, place).is_err() || wait_at(children, place).is_err() {
        return Killed::LetGo;
    }
    Killed::Ended
}

/// Looks which children have ended, where they were not looked at since the last pause.
fn look_where_due<R: Processes>(children: &mut Vec<RunningChild<R>>, looked: &mut bool)
    ensures same { map (λ child. child.key) children.new.items
        ≡ map (λ child. child.key) children.old.items }
    ensures many { vec_len children.new ≡ vec_len children.old }
{
    if !*looked {
        look_at_all(children);
        *looked = true;
    }
}

/// How the child at a place did by the last look at all, who are looked at where that is due.
fn seen_at<R: Processes>(
    children: &mut Vec<RunningChild<R>>,
    looked: &mut bool,
    place: usize,
) -> Seen
    requires { place < vec_len children.old }
    ensures same { map (λ child. child.key) children.new.items
        ≡ map (λ child. child.key) children.old.items }
    ensures many { vec_len children.new ≡ vec_len children.old }
{
    look_where_due(children, looked);
    children[place].seen
}

/// Waits a little where a child runs, so that it may end, and answers whether one does. What those that
/// have ended leave at the system is collected first.
fn wait_for_room<R: Processes + Clock>(rt: &R, children: &mut Vec<RunningChild<R>>) -> bool
    ensures same { map (λ child. child.key) children.new.items
        ≡ map (λ child. child.key) children.old.items }
    ensures many { vec_len children.new ≡ vec_len children.old }
    ensures room { vec_capacity children.new ≡ vec_capacity children.old }
{
    look_at_all(children);
    let runs = some_run(children);
    if runs {
        thread::sleep(rt, Duration::from_micros(START_PAUSE));
    }
    runs
}

/// Starts a child, seen from this folder, which inherits these settings. Where the system has no process or no
/// descriptor to give, those are collected of the children that have ended, and it is asked again, for ten
/// seconds while a child runs.
fn start_in_time<R: Processes + Files<File = File> + Clock, W: ChildWatcher>(
    alloc: Global,
    rt: &R,
    folder: &str,
    inherited: &Texts,
    watcher: &mut W,
    children: &mut Vec<RunningChild<R>>,
    key: &Key,
    command: &ChildCommand,
) -> Result<Child<R::Started>, Refusal>
    ensures same { map (λ child. child.key) children.new.items
        ≡ map (λ child. child.key) children.old.items }
    ensures many { vec_len children.new ≡ vec_len children.old }
    ensures room { vec_capacity children.new ≡ vec_capacity children.old }
{
    for _ in 0..START_TRIES {
        match start_child(alloc, rt, folder, inherited, command) {
            Err(refusal) if refusal.is_passing() => {
                watcher.held(key, &refusal.error);
                if !wait_for_room(rt, children) {
                    break;
                }
            }
            answer => return answer,
        }
    }
    start_child(alloc, rt, folder, inherited, command)
}

/// What the files say of a node of a plan.
fn spec_in<'a>(plan: &'a Plan, node: u32) -> &'a NodeSpec
    ensures { result.now ≡ node_at plan.now node }
{
    if node <= plan.count() {
        plan.spec(node)
    } else {
        plan.spec(plan.count())
    }
}

/// The name of a node of a plan.
fn name_in<'a>(plan: &'a Plan, node: u32) -> &'a str {
    spec_in(plan, node).name()
}

impl<'a, R: Processes + Files<File = File> + Clock + Drop, W: ChildWatcher + Drop> LocalSystem<
    'a,
    R,
    W,
> {
    /// A system of no children. The folder is an absolute path; jobs are started by the launcher; each child inherits the
    /// identity of the round, with the name that its node has in the plan; the watcher is informed of what is done.
    pub fn new(
        alloc: Global,
        rt: R,
        folder: &str,
        launcher: &'a Launcher,
        plan: &'a Plan,
        identity: RoundIdentity<'a>,
        watcher: W,
    ) -> Result<Self, AllocError>
        ensures log { IfOk result (λ system. system.log.calls ≡ []) }
        ensures faults { IfOk result (λ system. system.faults ≡ 0) }
    {
        Ok(LocalSystem {
            alloc,
            rt,
            folder: Text::new(alloc, folder)?,
            launcher,
            plan,
            identity,
            watcher,
            log: CallLog::new(alloc),
            children: Vec::new(alloc),
            looked: false,
            next: 0,
            pause: FIRST_PAUSE,
            asked: false,
            faults: 0,
        })
    }

    /// The place of the child of a key that runs, which may be this one.
    fn place_of_child(&self, key: &Key, likely: usize) -> usize
        requires { IsTrue (is_among key.now (running self.now.log.calls)) }
        ensures { result < vec_len self.now.children }
    {
        place_of(self.log.running(), key, likely)
    }

    /// The command by which a child is started, which has this command of its own, where it is another one: with the launcher before
    /// it, or with a file for what a script prints.
    ///
    /// # Errors
    /// Lack of memory.
    fn command_of(
        &self,
        name: &str,
        key: &Key,
        command: &ChildCommand,
    ) -> Result<Option<ChildCommand>, AllocError>
        ensures { IfOk result (λ other. IsStartedBy self.now.launcher.now self.now.folder key.now
            (node_at self.now.plan.now key.now.node) command.now (unwrap_or other command.now)) }
    {
        if self.launcher.keeps(key) {
            let dag = self.identity.dag;
            return kept_command(self.alloc, &self.rt, dag, name, key, command);
        }
        let node = spec_in(self.plan, key.node);
        self.launcher
            .started_by(self.alloc, self.folder.as_str(), key, node, command)
    }

    /// What a script has printed is kept or dropped, now that it has ended so.
    fn settle(&self, key: &Key, outcome: Outcome) {
        if self.launcher.keeps(key) {
            let name = name_in(self.plan, key.node);
            settle_kept(self.alloc, &self.rt, self.identity.dag, name, key, outcome);
        }
    }

    /// A child ended with this status: it is let go, and its outcome reported.
    fn end(&mut self, key: &Key, status: ExitStatus) -> Outcome
        requires { IsTrue (is_among key.now (running self.old.log.calls)) }
        ensures call_log { self.new.log.calls ≡ Call.Ended key.now result ∷ self.old.log.calls }
        ensures possible { IsTrue (is_possible result) }
        ensures faults { self.new.faults ≡ self.old.faults }
    {
        let outcome = outcome_of(status);
        forget(&mut self.children, key);
        self.log.ended(*key, outcome);
        self.pause = FIRST_PAUSE;
        self.settle(key, outcome);
        self.watcher.ended(key, outcome);
        outcome
    }
}

impl<R: Processes + Files<File = File> + Clock + Drop, W: ChildWatcher + Drop> System
    for LocalSystem<'_, R, W> {
    ghost call_log = { λ s. s.log.calls };

    // A child of the operating system may end in any way; those that were seen to have ended are at hand.
    ghost may_return = { λ _. any_ending };

    ghost faults = { λ s. s.faults };

    ghost prepared = { λ s. W.prepared s.watcher };

    fn spawn(&mut self, key: Key, command: &ChildCommand) -> Result<Started, StartFault> {
        if self.log.make_room().is_err() || self.children.reserve(1).is_err() {
            return Err(no_memory(&mut self.faults));
        }
        let name = name_in(self.plan, key.node);
        let Ok(other) = self.command_of(name, &key, command) else {
            return Err(no_memory(&mut self.faults));
        };
        let Ok(inherited) = self.identity.inherited(self.alloc, name, &key) else {
            return Err(no_memory(&mut self.faults));
        };
        let started = other.as_ref().unwrap_or(command);
        let folder = self.folder.as_str();
        self.watcher.launching(&key, command);
        let (watcher, children) = (&mut self.watcher, &mut self.children);
        match start_in_time(
            self.alloc, &self.rt, folder, &inherited, watcher, children, &key, started,
        ) {
            Ok(child) => {
                let process = child.id();
                let seen = Seen::Runs;
                let _ = self.children.push(RunningChild { key, child, seen });
                self.log.started(key, command, Started::Running);
                self.pause = FIRST_PAUSE;
                self.watcher.launched(&key, process, started);
                Ok(Started::Running)
            }
            Err(refusal) if refusal.is_memory() => Err(no_memory(&mut self.faults)),
            Err(refusal) => {
                self.log.started(key, command, Started::NotStarted);
                self.settle(&key, Outcome::NoStart);
                let asked = if self.launcher.keeps(&key) {
                    command
                } else {
                    started
                };
                self.watcher
                    .not_started(&key, asked, refusal.part, &refusal.error);
                Ok(Started::NotStarted)
            }
        }
    }

    fn ask(&mut self, key: Key) -> Result<Option<Outcome>, StartFault> {
        let place = self.place_of_child(&key, self.next);
        let seen = seen_at(&mut self.children, &mut self.looked, place);
        self.next = place + 1;
        match seen {
            Seen::Runs => Ok(None),
            Seen::Ended(status) => Ok(Some(self.end(&key, status))),
            Seen::Refused => Err(no_answer(&mut self.faults)),
        }
    }

    fn wait(&mut self, key: Key) -> Result<Outcome, StartFault> {
        let place = self.place_of_child(&key, 0);
        match wait_at(&mut self.children, place) {
            Ok(status) => Ok(self.end(&key, status)),
            Err(_) => Err(no_answer(&mut self.faults)),
        }
    }

    fn take_ended(&mut self) -> Option<(Key, Outcome)> {
        match ended_place(&self.children) {
            Some((place, status)) => {
                let key = key_at(self.log.running(), place);
                Some((key, self.end(&key, status)))
            }
            None => None,
        }
    }

    fn will_record(&mut self) {
        self.watcher.will_record();
    }

    fn sees_halt(&mut self) -> bool {
        if self.log.is_halted() {
            return true;
        }
        if !self.watcher.halts() {
            return false;
        }
        self.log.see_halt()
    }

    // A child is killed where a run is stopped, which kills all: so all launchers are asked to end before the first one is killed.
    fn kill(&mut self, key: Key) -> Killed {
        if !self.asked {
            self.asked = true;
            ask_launchers(self.alloc, &self.rt, self.launcher, &mut self.children);
        }
        let place = self.place_of_child(&key, 0);
        let answer = kill_at(&mut self.children, place);
        forget(&mut self.children, &key);
        self.log.killed(key);
        self.watcher.killed(&key, answer);
        answer
    }

    fn pause(&mut self) {
        self.watcher.waits();
        thread::sleep(&self.rt, Duration::from_micros(self.pause));
        self.looked = false;
        self.pause = next_pause(self.pause, longest_pause(self.children.len()));
    }

    fn running(&self) -> &[Key] {
        self.log.running()
    }

    fn calls(&self) -> &[Call] {
        self.log.calls()
    }

    fn faults(&self) -> u64 {
        self.faults
    }
}
