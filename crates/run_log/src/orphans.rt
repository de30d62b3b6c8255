//! Processes of a round that an earlier manager left running.
//!
//! Such a process is known by what only it can have: the identifier of the round in its environment, which its manager gave it.
//! A child whose environment says nothing, or has the identifier of a round that nobody knows, is known by what its manager noted of
//! it, and is never killed.

use crate::children::{NotedManager, is_word, last_manager};
use crate::events::push_time;
use crate::line_file::LineFile;
use crate::noted::{Noted, noted_lines, noted_that_run};
use crate::processes::{
    Program, Standing, all_numbers, asked_of, boot_of, environment_of, has_own_program,
    is_wordless, own_number, standing_of, user_of,
};
use crate::rounds::named_rounds;
use child_watcher::{is_of_round, run_shell, value_of};
use dag_main_args::OrphanRule;
use event_journal::require_regular;
use std::alloc::{AllocError, AllocFailed, Global};
use std::fs::{self, File};
use std::io::{self, ErrorKind};
use std::process::Processes;
use std::rt::Files;
use std::thread;
use std::time::{Clock, Duration};
use thiserror::Error;

/// Why they could not be dealt with.
#[derive(Clone, Copy, Debug, PartialEq, Eq, Error)]
pub enum OrphanFault {
    /// The system refuses to read the file of the manager's processes, or it is no regular file.
    #[error("the file of the processes can't be read")]
    NotRead,
    /// The same of the file of the round's identifier.
    #[error("the file of the round's identifier can't be read")]
    NotKnown,
    /// The system refuses to say which processes there are.
    #[error("the system doesn't say which processes there are")]
    NotAsked,
    /// The manager that started them still works.
    #[error("the manager still works")]
    StillWorks,
    /// One of them can't be ended.
    #[error("a process still runs")]
    StillRuns,
    /// Memory was refused.
    #[error("no memory is left")]
    Memory,
}

impl From<AllocError> for OrphanFault {
    fn from(_e: AllocError) -> OrphanFault {
        OrphanFault::Memory
    }
}

impl<T: Drop> From<AllocFailed<T>> for OrphanFault {
    fn from(_e: AllocFailed<T>) -> OrphanFault {
        OrphanFault::Memory
    }
}

/// By what a process is known to be of a round.
#[derive(Clone, Copy, Debug, PartialEq, Eq)]
enum Sign {
    /// The identifier of the round is in its environment.
    Identifier,
    /// Its manager noted it, and its environment doesn't tell whose it is.
    Note,
}

/// A process of a round.
#[derive(Drop)]
struct Orphan {
    /// Its number.
    process: u32,
    /// The process that started it, or one that stands for that since it ended.
    parent: u32,
    /// When it began, in ticks of the system's clock.
    began: u64,
    /// Its node, phase and attempt, as a line of the log has them.
    key: String,
    /// By what it is known.
    sign: Sign,
}

impl Orphan {
    fn is_same(&self, other: &Orphan) -> bool {
        self.process == other.process && self.began == other.began
    }
}

/// What is looked for among all processes.
#[derive(Clone, Copy)]
struct Sought<'a> {
    /// The identifiers of the rounds.
    rounds: &'a [String],
    /// The identifiers that are known, those of other folders among them.
    named: &'a [String],
    /// Whose processes count.
    user: Option<u32>,
    /// The sessions in which the last managers worked; none where they are not known.
    sessions: &'a [u32],
    /// Children that were noted.
    noted: &'a [Noted],
}

/// The processes of a round that an earlier manager left, and by what they are known.
#[derive(Drop)]
pub struct Orphans {
    rounds: Vec<String>,
    /// the identifiers that their file names, of whatever folder
    named: Vec<String>,
    /// the sessions of the last managers: one that they started is in theirs until it has come to its program
    sessions: Vec<u32>,
    /// the children of the last manager that it noted, and that ran when they were looked for first
    noted: Vec<Noted>,
    /// this process and its ancestors, which are never ended
    spared: Vec<u32>,
    found: Vec<Orphan>,
}

/// For how many milliseconds it is waited until those that were killed are gone, all of them together.
const PATIENCE: u128 = 10_000;

/// How many milliseconds those have to end by themselves that were started by one that was killed: a launcher may have a second
/// process that ends its job then.
const GRACE: u128 = 500;

/// The first pause between two looks at all processes, in microseconds; each further one is longer.
const FIRST_PAUSE: u64 = 2_000;

/// What no pause is longer than, in microseconds.
const LONGEST_PAUSE: u64 = 100_000;

/// How often it is looked at most whether those that were killed are gone.
const LOOKS: u32 = 10_000;

/// How often a process is asked that is on its way to its program, ten seconds in all, and the pause between two questions, in
/// microseconds.
const STEPS: u32 = 10_000;

const STEP_PAUSE: u64 = 1_000;

/// How many generations of ancestors are asked for.
const GENERATIONS: u32 = 1_024;

/// Whether a manager still runs: it has the number, and began at the time, since the system was started.
fn is_alive<R: Files + AllocGlobal>(rt: &R, manager: &NotedManager<'_>) -> bool {
    let Some(boot) = boot_of(rt) else {
        return false;
    };
    match standing_of(rt, manager.process) {
        Some(standing) => {
            let runs = !standing.ended && standing.program != Program::Left;
            boot.as_str() == manager.boot && runs && standing.began == manager.began
        }
        None => false,
    }
}

/// This process, its parent, and so on.
fn own_line<R: Files + AllocGlobal>(rt: &R) -> Result<Vec<u32>, OrphanFault> {
    let mut line = Vec::new(rt.alloc());
    let mut process = own_number(rt);
    for _ in 0..GENERATIONS {
        line.push(process)?;
        match asked_of(rt, process)? {
            Some(standing) if standing.parent > 0 => process = standing.parent,
            _ => break,
        }
    }
    Ok(line)
}

/// Whether an environment is that of a process of one of these rounds.
fn is_of_any(environment: &[u8], rounds: &[String]) -> bool {
    environment.split(|byte| *byte == 0).any(|setting| {
        rounds
            .iter()
            .any(|round| is_of_round(round.as_str(), setting))
    })
}

/// Whether a setting is the identifier of a round, and none of these. An empty one is none.
fn is_unknown_round(setting: &[u8], named: &[String]) -> bool {
    match value_of(setting, "DAGRUN_ROUND=") {
        Some(value) if !value.is_empty() => named
            .iter()
            .all(|round| !is_of_round(round.as_str(), setting)),
        _ => false,
    }
}

/// The value of a variable of an environment, where it can stand in a line of a log; else a dash.
fn word_in<'a>(environment: &'a [u8], name: &str) -> &'a str {
    let found = environment
        .split(|byte| *byte == 0)
        .find_map(|setting| value_of(setting, name));
    match found.map(|value| str::from_utf8(value)) {
        Some(Ok(word)) if is_word(word) => word,
        _ => "-",
    }
}

/// The node, the phase and the attempt that an environment says, as a line of the log has them.
fn key_in(alloc: Global, environment: &[u8]) -> Result<String, AllocError> {
    let node = word_in(environment, "DAGRUN_NODE=");
    let phase = word_in(environment, "DAGRUN_PHASE=");
    let attempt = word_in(environment, "DAGRUN_ATTEMPT=");
    format!(in alloc; "{node}\t{phase}\t{attempt}")
}

/// Whether a process is a manager that runs: it has this program. The first process of the system is taken for none, since those go
/// to it whose own parent has ended.
fn is_manager<R: Files + AllocGlobal>(rt: &R, process: u32) -> Result<bool, OrphanFault> {
    if process <= 1 {
        return Ok(false);
    }
    match asked_of(rt, process)? {
        Some(standing) if !standing.ended => has_own_program(rt, process),
        _ => Ok(false),
    }
}

/// Whether a process may have been started by one of the last managers, and is on its way to its program: so long it has the program,
/// the environment and the session of the manager. (It has left the manager's lock already.) One whose parent is a manager that runs
/// is that one's.
fn is_started<R: Files + AllocGlobal>(
    rt: &R,
    process: u32,
    standing: &Standing,
    sessions: &[u32],
) -> Result<bool, OrphanFault> {
    let is_near = sessions.is_empty() || sessions.contains(&standing.session);
    Ok(
        is_near
            && standing.forked
            && has_own_program(rt, process)?
            && !is_manager(rt, standing.parent)?,
    )
}

/// Whether a process has no environment for good, that was so far with its program before it was asked for its environment, and is
/// so far after it: a process has none, too, while it changes one program for another one.
fn is_bare(before: &Standing, after: &Standing) -> bool {
    match after.program {
        Program::Never | Program::OfThreads => true,
        Program::Here(_) => before.program == after.program,
        Program::Coming | Program::Left => false,
    }
}

/// Whether a process is on its way to its program. Some systems don't say where code begins: they say the words of a process that
/// has come to it.
fn is_coming<R: Files + AllocGlobal>(
    rt: &R,
    process: u32,
    sessions: &[u32],
) -> Result<bool, OrphanFault> {
    match asked_of(rt, process)? {
        Some(standing) if standing.program == Program::Coming => is_wordless(rt, process),
        Some(standing) => is_started(rt, process, &standing, sessions),
        None => Ok(false),
    }
}

/// The environment of a process; none where it has none. One that is on its way to its program has none for a moment, or that of the
/// manager which started it: it is asked again.
///
/// # Errors
/// `NotAsked` where it has not come to its program after ten seconds, or where the system refuses to say it; `Memory`.
fn environment_at<R: Files + Clock + AllocGlobal + Clone + Drop>(
    rt: &R,
    process: u32,
    sessions: &[u32],
) -> Result<Option<Vec<u8>>, OrphanFault> {
    for _ in 0..STEPS {
        let Some(before) = asked_of(rt, process)? else {
            return Ok(None);
        };
        // This is asked before the environment: what comes to its program in between has its own.
        let is_started = is_started(rt, process, &before, sessions)?;
        let Some(environment) = environment_of(rt, process, &before)? else {
            return Ok(None);
        };
        if !environment.is_empty() && !is_started {
            return Ok(Some(environment));
        }
        let Some(after) = asked_of(rt, process)? else {
            return Ok(None);
        };
        if environment.is_empty() && is_bare(&before, &after) {
            return Ok(None);
        }
        thread::sleep(rt, Duration::from_micros(STEP_PAUSE));
    }
    if is_coming(rt, process, sessions)? {
        return Err(OrphanFault::NotAsked);
    }
    Ok(None)
}

/// Whether an environment has a setting. One that a program has overwritten, as some do to show a title, has none.
fn has_settings(environment: &[u8]) -> bool {
    environment
        .split(|byte| *byte == 0)
        .any(|setting| setting.contains(&b'='))
}

/// Whether an environment without the identifier of a round that is looked for tells that its process is none of it: it has settings,
/// and no identifier of a round that nobody knows, as it has where the file of the identifiers was lost.
fn is_telling(environment: &[u8], named: &[String]) -> bool {
    has_settings(environment)
        && !environment
            .split(|byte| *byte == 0)
            .any(|setting| is_unknown_round(setting, named))
}

/// The process of this number and of this environment, which has the identifier of a round, where it runs and is this user's.
fn orphan_by_identifier<R: Files + AllocGlobal>(
    rt: &R,
    process: u32,
    environment: &[u8],
    sought: Sought<'_>,
) -> Result<Option<Orphan>, OrphanFault> {
    if user_of(rt, process)? != sought.user {
        return Ok(None);
    }
    let key = key_in(rt.alloc(), environment)?;
    match asked_of(rt, process)? {
        Some(standing) if !standing.ended => Ok(Some(Orphan {
            process,
            parent: standing.parent,
            began: standing.began,
            key,
            sign: Sign::Identifier,
        })),
        _ => Ok(None),
    }
}

/// Whether a child of this number was noted.
fn is_noted(process: u32, noted: &[Noted]) -> bool {
    noted.iter().any(|child| child.process == process)
}

/// The process of this number where it is a child that was noted, and runs.
fn orphan_by_note<R: Files + AllocGlobal>(
    rt: &R,
    process: u32,
    noted: &[Noted],
) -> Result<Option<Orphan>, OrphanFault> {
    let Some(child) = noted.iter().find(|child| child.process == process) else {
        return Ok(None);
    };
    match asked_of(rt, process)? {
        Some(standing) if child.is_of(&standing) => Ok(Some(Orphan {
            process,
            parent: standing.parent,
            began: standing.began,
            key: String::from_str(rt.alloc(), child.key.as_str())?,
            sign: Sign::Note,
        })),
        _ => Ok(None),
    }
}

/// The process of this number where it is one of these rounds, and runs: by its environment, or where that doesn't tell, by what was
/// noted. It doesn't where it can't be read, is empty or was overwritten, or has the identifier of a round that nobody knows. Where no
/// identifier is known, nobody is asked but those that were noted.
fn orphan_at<R: Files + Clock + AllocGlobal + Clone + Drop>(
    rt: &R,
    process: u32,
    sought: Sought<'_>,
) -> Result<Option<Orphan>, OrphanFault> {
    if sought.rounds.is_empty() && !is_noted(process, sought.noted) {
        return Ok(None);
    }
    match environment_at(rt, process, sought.sessions)? {
        Some(environment) if is_of_any(&environment, sought.rounds) => {
            orphan_by_identifier(rt, process, &environment, sought)
        }
        Some(environment) if is_telling(&environment, sought.named) => Ok(None),
        _ => orphan_by_note(rt, process, sought.noted),
    }
}

/// All processes of these rounds that run now and are this user's, but for the first one of the system and for those that
/// are spared.
fn all_of<R: Files + Clock + AllocGlobal + Clone + Drop>(
    rt: &R,
    sought: Sought<'_>,
    spared: &[u32],
) -> Result<Vec<Orphan>, OrphanFault> {
    let mut found = Vec::new(rt.alloc());
    for process in all_numbers(rt)?.iter() {
        if *process > 1 && !spared.contains(process) {
            if let Some(orphan) = orphan_at(rt, *process, sought)? {
                found.push(orphan)?;
            }
        }
    }
    Ok(found)
}

/// Whether a process was started by none of these.
fn is_first(orphan: &Orphan, orphans: &[Orphan]) -> bool {
    orphans.iter().all(|other| other.process != orphan.parent)
}

/// The command of a shell that kills these processes, or those of them alone that none of them started: each that is still
/// what it was, and has the identifier of a round. None where there is no such one.
fn kill_words<R: Files + Clock + AllocGlobal + Clone + Drop>(
    rt: &R,
    orphans: &[Orphan],
    sought: Sought<'_>,
    first_alone: bool,
) -> Result<Option<String>, OrphanFault> {
    let mut words = String::from_str(rt.alloc(), "kill -KILL")?;
    let mut some = false;
    for orphan in orphans {
        if orphan.sign == Sign::Note || (first_alone && !is_first(orphan, orphans)) {
            continue;
        }
        if let Some(now) = orphan_at(rt, orphan.process, sought)? {
            if now.is_same(orphan) {
                write!(words, " {}", orphan.process)?;
                some = true;
            }
        }
    }
    Ok(if some { Some(words) } else { None })
}

/// Writes in the log what was done with a process.
fn tell<R: Clock + AllocGlobal>(
    rt: &R,
    log: &mut LineFile,
    orphan: &Orphan,
    done: &str,
) -> Result<(), AllocError> {
    let now = rt.since_1970().unwrap_or(Duration::ZERO);
    let mut line = String::new(rt.alloc());
    push_time(&mut line, now)?;
    let (key, process) = (orphan.key.as_str(), orphan.process);
    writeln!(line, "\torphan\t{key}\t{process}\tdone={done}")?;
    log.add(line.as_str());
    Ok(())
}

/// Writes the same of all.
fn tell_all<R: Clock + AllocGlobal>(
    rt: &R,
    log: &mut LineFile,
    orphans: &[Orphan],
    done: &str,
) -> Result<(), AllocError> {
    for orphan in orphans {
        tell(rt, log, orphan, done)?;
    }
    Ok(())
}

/// The pause after one of so many microseconds.
fn next_pause(pause: u64) -> u64 {
    pause.saturating_mul(2).min(LONGEST_PAUSE)
}

/// For how many milliseconds it is waited for these: those that are not killed alone have little to wait for.
fn patience_for(running: &[Orphan]) -> u128 {
    if running.iter().any(|orphan| orphan.sign == Sign::Identifier) {
        PATIENCE
    } else {
        GRACE
    }
}

/// Whether so many milliseconds are over since this moment.
fn are_over<R: Clock>(rt: &R, milliseconds: u128, began: Duration) -> bool {
    match rt.monotonic() {
        Ok(now) => now.checked_sub(began).unwrap_or(Duration::ZERO).as_millis() >= milliseconds,
        Err(_) => true,
    }
}

impl Orphans {
    /// Whether there are none.
    pub fn is_empty(&self) -> bool {
        self.found.is_empty()
    }

    /// How many there are.
    pub fn count(&self) -> usize {
        self.found.len()
    }

    /// The identifiers of the rounds whose they are.
    pub fn into_rounds(self) -> Vec<String> {
        let Orphans { rounds, .. } = self;
        rounds
    }

    /// What is looked for.
    fn sought<R: Files + AllocGlobal>(&self, rt: &R) -> Result<Sought<'_>, OrphanFault> {
        Ok(Sought {
            rounds: &self.rounds,
            named: &self.named,
            user: user_of(rt, own_number(rt))?,
            sessions: &self.sessions,
            noted: &self.noted,
        })
    }

    /// The lines of those that are known by what was noted of them alone, for the file of the next manager.
    ///
    /// # Errors
    /// Lack of memory.
    pub fn notes<R: Files + AllocGlobal>(&self, rt: &R) -> Result<String, AllocError> {
        noted_lines(rt, &self.noted)
    }

    /// Whether the file of the identifiers came with a copy of the folder: it names rounds, and each of them is of another folder.
    fn is_copied(&self) -> bool {
        self.rounds.is_empty() && !self.named.is_empty()
    }

    /// Finds them, for the first time. Without an identifier and without a note there is nothing to look for.
    fn find<R: Files + Clock + AllocGlobal + Clone + Drop>(
        &mut self,
        rt: &R,
    ) -> Result<(), OrphanFault> {
        if self.rounds.is_empty() && self.noted.is_empty() {
            return Ok(());
        }
        self.spared = own_line(rt)?;
        self.found = self.look(rt)?;
        Ok(())
    }

    /// Looks at all processes: those of the rounds that run now. Where none is seen it looks again, since one may have started
    /// another one, and ended, while the list was read.
    fn look<R: Files + Clock + AllocGlobal + Clone + Drop>(
        &self,
        rt: &R,
    ) -> Result<Vec<Orphan>, OrphanFault> {
        let sought = self.sought(rt)?;
        let found = all_of(rt, sought, &self.spared)?;
        if found.is_empty() {
            return all_of(rt, sought, &self.spared);
        }
        Ok(found)
    }

    /// Whether a process was found before.
    fn has(&self, orphan: &Orphan) -> bool {
        self.found.iter().any(|known| known.is_same(orphan))
    }

    /// Adds those that were not found before, which were started meanwhile by others of the round.
    fn add_new(&mut self, running: Vec<Orphan>) -> Result<(), AllocError> {
        for orphan in running {
            if !self.has(&orphan) {
                self.found.push(orphan)?;
            }
        }
        Ok(())
    }

    /// Ends all, and those that they start meanwhile: first those that none of them started, and the others where they don't end
    /// by themselves after these. Those that are known by what was noted alone are waited for, and not killed: the notes are a file,
    /// into which others may have written.
    fn end<R: Processes + Files<File = File> + Clock + AllocGlobal + Clone + Drop>(
        &mut self,
        rt: &R,
        log: &mut LineFile,
    ) -> Result<(), OrphanFault> {
        let began = rt.monotonic().unwrap_or(Duration::ZERO);
        let mut pause = FIRST_PAUSE;
        let mut running = self.look(rt)?;
        self.kill(rt, &running, true)?;
        for _ in 0..LOOKS {
            if running.is_empty() || are_over(rt, patience_for(&running), began) {
                break;
            }
            if are_over(rt, GRACE, began) {
                self.kill(rt, &running, false)?;
            }
            self.add_new(running)?;
            thread::sleep(rt, Duration::from_micros(pause));
            pause = next_pause(pause);
            running = self.look(rt)?;
        }
        self.tell_ended(rt, log, &running)
    }

    /// Kills these, or those of them alone that none of them started. What the system refuses is seen as they are looked at.
    fn kill<R: Processes + Files<File = File> + Clock + AllocGlobal + Clone + Drop>(
        &self,
        rt: &R,
        running: &[Orphan],
        first_alone: bool,
    ) -> Result<(), OrphanFault> {
        if let Some(words) = kill_words(rt, running, self.sought(rt)?, first_alone)? {
            let _ = run_shell(rt.alloc(), rt, words.as_str());
        }
        Ok(())
    }

    /// Writes which were killed, and which of them still run.
    fn tell_ended<R: Clock + AllocGlobal>(
        &self,
        rt: &R,
        log: &mut LineFile,
        running: &[Orphan],
    ) -> Result<(), OrphanFault> {
        for orphan in &self.found {
            let still_runs = running.iter().any(|other| other.is_same(orphan));
            let done = if still_runs { "refused" } else { "killed" };
            tell(rt, log, orphan, done)?;
        }
        if running.is_empty() {
            Ok(())
        } else {
            Err(OrphanFault::StillRuns)
        }
    }

    /// Waits until all have ended, and those that they start meanwhile.
    fn wait<R: Files<File = File> + Clock + AllocGlobal + Clone + Drop>(
        &mut self,
        rt: &R,
        log: &mut LineFile,
    ) -> Result<(), OrphanFault> {
        let mut pause = FIRST_PAUSE;
        for _ in 0..u64::MAX {
            let running = self.look(rt)?;
            if running.is_empty() {
                break;
            }
            self.add_new(running)?;
            thread::sleep(rt, Duration::from_micros(pause));
            pause = next_pause(pause);
        }
        tell_all(rt, log, &self.found, "waited")?;
        Ok(())
    }

    /// Deals with them by this rule; the log says what was done with each. Answers whether some are left.
    ///
    /// # Errors
    /// `StillRuns` where one that was killed is not gone after ten seconds, in which it is waited for all together, or one is left
    /// that may not be killed; `NotAsked`
    /// where the system refuses to say which processes there are; `Memory`.
    pub fn settle<R: Processes + Files<File = File> + Clock + AllocGlobal + Clone + Drop>(
        &mut self,
        rt: &R,
        rule: OrphanRule,
        log: &mut LineFile,
    ) -> Result<bool, OrphanFault> {
        match rule {
            OrphanRule::Kill => self.end(rt, log)?,
            OrphanRule::Wait => self.wait(rt, log)?,
            OrphanRule::Leave => tell_all(rt, log, &self.found, "left")?,
        }
        Ok(rule == OrphanRule::Leave)
    }
}

/// The greatest size in bytes of a file of processes or identifiers, 64 MiB.
const MOST_BYTES: u64 = 1 << 26;

/// The text of a regular file of no more than 64 MiB.
fn regular_text<R: Files + AllocGlobal>(rt: &R, path: &str) -> io::Result<String> {
    require_regular(rt, path)?;
    if fs::metadata(rt, path)?.len() > MOST_BYTES {
        return Err(io::Error::new(ErrorKind::InvalidInput, "it is too large"));
    }
    fs::read_to_string(rt, path)
}

/// The text of the file of this path; none where it is missing.
///
/// # Errors
/// This fault where the system refuses to read it, or it is no regular file, no text or larger than 64 MiB; `Memory`.
pub(crate) fn text_at<R: Files + AllocGlobal>(
    rt: &R,
    path: &str,
    fault: OrphanFault,
) -> Result<Option<String>, OrphanFault> {
    match regular_text(rt, path) {
        Ok(text) => Ok(Some(text)),
        Err(error) if error.kind() == ErrorKind::NotFound => Ok(None),
        Err(error) if error.kind() == ErrorKind::OutOfMemory => Err(OrphanFault::Memory),
        Err(_) => Err(fault),
    }
}

/// The sessions of these managers, as far as their lines say them.
fn sessions_of(
    alloc: Global,
    managers: &[Option<NotedManager<'_>>],
) -> Result<Vec<u32>, AllocError> {
    let mut sessions = Vec::new(alloc);
    for manager in managers {
        if let Some(session) = manager.and_then(|manager| manager.session) {
            sessions.push(session)?;
        }
    }
    Ok(sessions)
}

/// The processes of the rounds of these identifiers that an earlier manager left: those that have one in their environment, and
/// children that it noted whose environment doesn't tell whose they are. No environment with an identifier tells it where the file of the
/// identifiers is missing or was cut short. There are none where that file came with a copy of the folder, as that of the processes did.
/// The first path is that of the file of the managers' processes, the second one that of the file of the identifiers: each names a
/// manager last.
///
/// # Errors
/// `NotRead` where the first file is there and the system refuses to read it, or it is no regular one; `NotKnown` the same of the
/// second; `StillWorks` where one of these two managers still runs: somebody removed its lock; `NotAsked` where the system refuses to say which processes there are; `Memory`.
pub fn orphans_of<R: Files<File = File> + Clock + AllocGlobal + Clone + Drop>(
    rt: &R,
    rounds: Vec<String>,
    children: &str,
    round: &str,
) -> Result<Orphans, OrphanFault> {
    let noted = text_at(rt, children, OrphanFault::NotRead)?;
    let kept = text_at(rt, round, OrphanFault::NotKnown)?;
    let noted = noted.as_ref().map_or("", |text| text.as_str());
    let kept = kept.as_ref().map_or("", |text| text.as_str());
    let managers = [noted, kept].map(|text| last_manager(text));
    let mut orphans = Orphans {
        rounds,
        named: named_rounds(rt.alloc(), kept)?,
        sessions: sessions_of(rt.alloc(), &managers)?,
        noted: Vec::new(rt.alloc()),
        spared: Vec::new(rt.alloc()),
        found: Vec::new(rt.alloc()),
    };
    let runs = managers
        .iter()
        .flatten()
        .any(|manager| is_alive(rt, manager));
    if orphans.is_copied() {
        return Ok(orphans);
    }
    if runs {
        return Err(OrphanFault::StillWorks);
    }
    orphans.noted = noted_that_run(rt, noted)?;
    orphans.find(rt)?;
    Ok(orphans)
}
