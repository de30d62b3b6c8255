//! What the system says of its processes.

use crate::orphans::OrphanFault;
use log_lines::push_word;
use std::alloc::AllocError;
use std::fs;
use std::io::{self, ErrorKind};
use std::os::unix::fs::MetadataExt;
use std::rt::Files;

/// What the system says of the program of a process.
#[derive(Clone, Copy, Debug, PartialEq, Eq)]
pub(crate) enum Program {
    /// There is none, and none will come: the process has ended, or is a thread of the system.
    Never,
    /// The process is on its way to it.
    Coming,
    /// It is there, and its stack begins here: that of the next program begins elsewhere.
    Here(u64),
    /// The process has left it, and is ending.
    Left,
    /// The first thread of the process has ended, and others go on: they alone have it.
    OfThreads,
}

/// What the system says of a process.
#[derive(Clone, Copy, Debug, PartialEq, Eq)]
pub(crate) struct Standing {
    /// Whether it has ended, and waits only for somebody to ask how.
    pub(crate) ended: bool,
    /// The process that started it, or one that stands for that since it ended.
    pub(crate) parent: u32,
    /// Its group: where a terminal's Ctrl-C goes.
    pub(crate) group: u32,
    /// Its session.
    pub(crate) session: u32,
    /// When it began, in ticks of the system's clock.
    pub(crate) began: u64,
    /// How far it is with its program.
    pub(crate) program: Program,
    /// Whether it still has the program of the process that started it.
    pub(crate) forked: bool,
}

/// What comes after the name of a program, which is in parentheses and may have any bytes: what follows the last parenthesis.
fn behind_name(stat: &[u8]) -> &[u8] {
    match stat.iter().rposition(|byte| *byte == b')') {
        Some(place) => &stat[place + 1..],
        None => &[],
    }
}

/// The flag of the system that says of a process that it is ending (PF_EXITING).
const ENDING: u64 = 0x4;

/// The flag that says that it has started no program since it was forked (PF_FORKNOEXEC).
const FORKED: u64 = 0x40;

/// The flag that says that it is a thread of the system, which has no program (PF_KTHREAD).
const THREAD: u64 = 0x20_0000;

/// What a text says that the system has of a process, from after its name on: the first word is its state, the second its
/// parent, the third its group, the fourth its session, the seventh its flags, the eighteenth how many threads it has, and the
/// twentieth when it began. The twenty-fourth is where its code begins, 0 until its program is there, and the twenty-sixth where its
/// stack begins. The state is that of its first thread: one that has ended is counted as long as others go on.
fn standing_behind(text: &str) -> Option<Standing> {
    let mut words = text.split(' ');
    let state = words.nth(1)?;
    let parent = words.next()?.parse::<u32>().ok()?;
    let group = words.next()?.parse::<u32>().ok()?;
    let session = words.next()?.parse::<u32>().ok()?;
    let flags = words.nth(2)?.parse::<u64>().ok()?;
    let threads = words.nth(10)?.parse::<u64>().ok()?;
    let began = words.nth(1)?.parse::<u64>().ok()?;
    let code = words.nth(3)?.parse::<u64>().ok()?;
    let stack = words.nth(1)?.parse::<u64>().ok()?;
    let is_first_gone = matches!(state, "Z" | "X" | "x");
    let ended = is_first_gone && threads <= 1;
    let program = if ended || flags & THREAD != 0 {
        Program::Never
    } else if is_first_gone {
        Program::OfThreads
    } else if flags & ENDING != 0 {
        Program::Left
    } else if code == 0 {
        Program::Coming
    } else {
        Program::Here(stack)
    };
    Some(Standing {
        ended,
        parent,
        group,
        session,
        began,
        program,
        forked: flags & FORKED != 0,
    })
}

/// The code of the system that says that there is no such process any more (ESRCH).
const NO_PROCESS: i32 = 3;

/// What a question about a process came to: nothing where there is no such process, or where it is none that this user may
/// ask about. Any other refusal is a fault, since it says nothing of the process.
fn asked<T>(answer: io::Result<T>) -> Result<Option<T>, OrphanFault> {
    match answer {
        Ok(value) => Ok(Some(value)),
        Err(error) if error.raw_os_error() == Some(NO_PROCESS) => Ok(None),
        Err(error) => match error.kind() {
            ErrorKind::NotFound | ErrorKind::PermissionDenied => Ok(None),
            ErrorKind::OutOfMemory => Err(OrphanFault::Memory),
            _ => Err(OrphanFault::NotAsked),
        },
    }
}

/// What the system says of the process of this number; none where there is none.
///
/// # Errors
/// `NotAsked` where the question is refused; `Memory`.
pub(crate) fn asked_of<R: Files + AllocGlobal>(
    rt: &R,
    process: u32,
) -> Result<Option<Standing>, OrphanFault> {
    let path = format!(in rt.alloc(); "/proc/{process}/stat")?;
    let Some(bytes) = asked(fs::read(rt, path.as_str()))? else {
        return Ok(None);
    };
    Ok(
        str::from_utf8(behind_name(&bytes))
            .ok()
            .and_then(standing_behind),
    )
}

/// The same; none where it is refused, too.
pub(crate) fn standing_of<R: Files + AllocGlobal>(rt: &R, process: u32) -> Option<Standing> {
    asked_of(rt, process).ok()?
}

/// The same as any thread of a process says it; none where none says anything.
///
/// # Errors
/// `NotAsked` where the question is refused; `Memory`.
fn environment_of_threads<R: Files + AllocGlobal + Clone + Drop>(
    rt: &R,
    process: u32,
) -> Result<Option<Vec<u8>>, OrphanFault> {
    let folder = format!(in rt.alloc(); "/proc/{process}/task")?;
    let Some(entries) = asked(fs::read_dir(rt, folder.as_str()))? else {
        return Ok(None);
    };
    for entry in entries {
        let Some(entry) = asked(entry)? else {
            continue;
        };
        let path = format!(in rt.alloc(); "/proc/{process}/task/{}/environ", entry.file_name())?;
        match asked(fs::read(rt, path.as_str()))? {
            Some(environment) if !environment.is_empty() => return Ok(Some(environment)),
            _ => {}
        }
    }
    Ok(None)
}

/// The environment with which the program of a process was started, that is so: settings, a byte 0 after each; none where there
/// is no such process, or it can't be read: it is another user's, say.
///
/// # Errors
/// `NotAsked` where the question is refused; `Memory`.
pub(crate) fn environment_of<R: Files + AllocGlobal + Clone + Drop>(
    rt: &R,
    process: u32,
    standing: &Standing,
) -> Result<Option<Vec<u8>>, OrphanFault> {
    if standing.program == Program::OfThreads {
        return environment_of_threads(rt, process);
    }
    let path = format!(in rt.alloc(); "/proc/{process}/environ")?;
    asked(fs::read(rt, path.as_str()))
}

/// The device and the number of the file of a program; none where there is none.
///
/// # Errors
/// `NotAsked` where the question is refused; `Memory`.
fn file_of<R: Files>(rt: &R, path: &str) -> Result<Option<(u64, u64)>, OrphanFault> {
    Ok(asked(fs::metadata(rt, path))?.map(|found| (found.dev(), found.ino())))
}

/// Whether a process has the program of this one.
///
/// # Errors
/// `NotAsked` where the question is refused; `Memory`.
pub(crate) fn has_own_program<R: Files + AllocGlobal>(
    rt: &R,
    process: u32,
) -> Result<bool, OrphanFault> {
    let path = format!(in rt.alloc(); "/proc/{process}/exe")?;
    let Some(found) = file_of(rt, path.as_str())? else {
        return Ok(false);
    };
    Ok(file_of(rt, "/proc/self/exe")? == Some(found))
}

/// Whether the system has no words of a process: those with which its program is started.
///
/// # Errors
/// `NotAsked` where the question is refused; `Memory`.
pub(crate) fn is_wordless<R: Files + AllocGlobal>(
    rt: &R,
    process: u32,
) -> Result<bool, OrphanFault> {
    let path = format!(in rt.alloc(); "/proc/{process}/cmdline")?;
    let words = asked(fs::read(rt, path.as_str()))?;
    Ok(words.is_none_or(|words| words.is_empty()))
}

/// The number of the user as whom a process runs; none where there is no such process.
///
/// # Errors
/// `NotAsked` where the question is refused; `Memory`.
pub(crate) fn user_of<R: Files + AllocGlobal>(
    rt: &R,
    process: u32,
) -> Result<Option<u32>, OrphanFault> {
    let path = format!(in rt.alloc(); "/proc/{process}")?;
    match asked(fs::metadata(rt, path.as_str()))? {
        Some(found) => Ok(Some(found.uid())),
        None => Ok(None),
    }
}

/// The text of a small file of the system; none where it is refused.
fn text_of<R: Files + AllocGlobal>(rt: &R, path: &str) -> Option<String> {
    fs::read_to_string(rt, path).ok()
}

/// The number of this process, 0 where the system doesn't say it.
pub(crate) fn own_number<R: Files + AllocGlobal>(rt: &R) -> u32 {
    match text_of(rt, "/proc/self/stat") {
        Some(text) => number_in(text.as_str()),
        None => 0,
    }
}

fn number_in(stat: &str) -> u32 {
    match stat.split_once(' ') {
        Some((number, _)) => number.parse::<u32>().unwrap_or(0),
        None => 0,
    }
}

/// Words that each end with a byte 0, as a shell reads them.
fn quoted_words(words: &str, text: &mut String) -> Result<(), AllocError> {
    let mut first = true;
    for word in words.trim_end_matches('\0').split('\0') {
        if !first {
            text.push(' ')?;
        }
        first = false;
        push_word(text, word)?;
    }
    Ok(())
}

/// The words with which the process of this number was started, as a shell reads them; none where the
/// system doesn't say them.
pub(crate) fn words_of<R: Files + AllocGlobal>(rt: &R, process: u32) -> Option<String> {
    let path = format!(in rt.alloc(); "/proc/{process}/cmdline").ok()?;
    let words = text_of(rt, path.as_str())?;
    let mut text = String::new(rt.alloc());
    // A process that is on its way to its program has none for a moment.
    if words.is_empty() {
        return Some(text);
    }
    quoted_words(words.as_str(), &mut text).ok()?;
    Some(text)
}

/// The numbers of all processes.
///
/// # Errors
/// `NotAsked` where the system doesn't list them; `Memory`.
pub(crate) fn all_numbers<R: Files + AllocGlobal + Clone + Drop>(
    rt: &R,
) -> Result<Vec<u32>, OrphanFault> {
    let mut numbers = Vec::new(rt.alloc());
    let Some(entries) = asked(fs::read_dir(rt, "/proc"))? else {
        return Err(OrphanFault::NotAsked);
    };
    for entry in entries {
        let Some(entry) = asked(entry)? else {
            continue;
        };
        if let Ok(number) = entry.file_name().parse::<u32>() {
            numbers.push(number)?;
        }
    }
    Ok(numbers)
}

/// The name that the system has since it was started.
pub(crate) fn boot_of<R: Files + AllocGlobal>(rt: &R) -> Option<String> {
    let text = text_of(rt, "/proc/sys/kernel/random/boot_id")?;
    String::from_str(rt.alloc(), text.as_str().trim()).ok()
}
