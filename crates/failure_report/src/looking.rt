//! What is found by looking at files: the end of an error output, and what is wrong with a command that
//! could not be started.

use crate::details::{Quote, SeenCommand};
use crate::notes::Refused;
use crate::quotes::{last_lines, push_all_shown};
use dag_reader::Text;
use log_lines::{push_word, unquoted};
use node_machine::Outcome;
use std::alloc::{AllocError, Global};
use std::fs::{self, File};
use std::io::ErrorKind;
use std::os::unix::fs::{FileExt, MetadataExt};
use std::rt::Files;
use std::str;

/// How many bytes of the end of an error output are read.
const TAIL: u64 = 65_536;

/// How many bytes of the beginning of a program are read.
const HEAD: usize = 256;

/// The codes of the system that say that it has no process (EAGAIN) or no descriptor (ENFILE, EMFILE)
/// to give.
const PASSING: [i32; 3] = [11, 23, 24];

/// The code that says that a file may not be executed or written (EACCES).
const NOT_ALLOWED: i32 = 13;

/// The bits of a mode by which somebody may execute a file.
const SOMEBODY_RUNS: u32 = 0o111;

/// The code that says that a disk is full (ENOSPC).
const DISK_FULL: i32 = 28;

/// Programs that read the file which their first word names.
const READERS: [&str; 12] = [
    "sh", "bash", "dash", "ash", "ksh", "zsh", "python", "python3", "perl", "ruby", "node",
    "Rscript",
];

/// The end of a file, as far as the system gives it.
fn end_of(alloc: Global, file: &File, size: u64) -> Result<Vec<u8>, Quote> {
    let length = size.min(TAIL);
    let Ok(mut bytes) = vec![in alloc; 0u8; length as usize] else {
        return Err(Quote::Empty);
    };
    match file.read_at(&mut bytes, size - length) {
        Ok(count) => {
            bytes.truncate(count);
            Ok(bytes)
        }
        Err(_) => Err(Quote::NoFile),
    }
}

/// The last lines of a file of this size.
fn lines_of(alloc: Global, file: &File, size: u64) -> Result<Quote, AllocError> {
    match end_of(alloc, file, size) {
        Ok(bytes) if bytes.is_empty() => Ok(Quote::Empty),
        Ok(bytes) => Ok(Quote::Lines(last_lines(alloc, &bytes, size > TAIL)?)),
        Err(quote) => Ok(quote),
    }
}

/// What the file of this path has at its end. What is no file, as a pipe or a terminal, is not opened.
///
/// # Errors
/// Lack of memory.
pub(crate) fn quote_of<R: Files<File = File> + AllocGlobal>(
    rt: &R,
    path: &str,
) -> Result<Quote, AllocError> {
    let alloc = rt.alloc();
    let size = match fs::metadata(rt, path) {
        Ok(found) if !found.is_file() => return Ok(Quote::NoFile),
        Ok(found) => found.len(),
        Err(error) if error.kind() == ErrorKind::NotFound => return Ok(Quote::Missing),
        Err(error) => return Ok(Quote::Refused(format!(in alloc; "{error}")?)),
    };
    match File::open(rt, path) {
        Ok(file) => lines_of(alloc, &file, size),
        Err(error) => Ok(Quote::Refused(format!(in alloc; "{error}")?)),
    }
}

/// Some words, and a path after them.
fn about(alloc: Global, words: &str, path: &str) -> Result<Option<String>, AllocError> {
    let mut text = String::from_str(alloc, words)?;
    push_word(&mut text, path)?;
    Ok(Some(text))
}

/// Some words.
fn said(alloc: Global, words: &str) -> Result<Option<String>, AllocError> {
    Ok(Some(String::from_str(alloc, words)?))
}

/// Whether nothing has this path.
fn is_missing<R: Files>(rt: &R, path: &str) -> bool {
    match fs::metadata(rt, path) {
        Ok(_) => false,
        Err(error) => error.kind() == ErrorKind::NotFound,
    }
}

/// The folder of the file of an absolute path.
fn folder_of(path: &str) -> &str {
    match path.rsplit_once('/') {
        Some(("", _)) | None => "/",
        Some((folder, _)) => folder,
    }
}

/// The last part of a path.
fn base_of(path: &str) -> &str {
    match path.rsplit_once('/') {
        Some((_, base)) => base,
        None => path,
    }
}

/// What is wrong with a folder.
fn folder_repair<R: Files + AllocGlobal>(rt: &R, path: &str) -> Result<Option<String>, AllocError> {
    match fs::metadata(rt, path) {
        Ok(found) if found.is_dir() => Ok(None),
        Ok(_) => about(rt.alloc(), "this is no folder: ", path),
        Err(error) if error.kind() == ErrorKind::NotFound => {
            about(rt.alloc(), "that folder is missing: mkdir -p ", path)
        }
        Err(_) => Ok(None),
    }
}

/// What is wrong with a file that is to take a stream.
fn output_repair<R: Files + AllocGlobal>(rt: &R, path: &str) -> Result<Option<String>, AllocError> {
    match fs::metadata(rt, path) {
        Ok(found) if found.is_dir() => about(rt.alloc(), "this is a folder, no file: ", path),
        _ => folder_repair(rt, folder_of(path)),
    }
}

/// What is wrong with such a file, which the system refused with this code, if that is known.
fn refused_output_repair<R: Files + AllocGlobal>(
    rt: &R,
    path: &str,
    code: Option<i32>,
) -> Result<Option<String>, AllocError> {
    let alloc = rt.alloc();
    match code {
        Some(NOT_ALLOWED) if is_missing(rt, path) => {
            let words = "you may not write in that folder: chmod u+w ";
            about(alloc, words, folder_of(path))
        }
        Some(NOT_ALLOWED) => about(alloc, "you may not write that file: chmod u+w ", path),
        Some(DISK_FULL) => about(alloc, "that disk is full: df ", folder_of(path)),
        _ => output_repair(rt, path),
    }
}

/// What is wrong with a file that is to be read.
fn input_repair<R: Files + AllocGlobal>(rt: &R, path: &str) -> Result<Option<String>, AllocError> {
    if is_missing(rt, path) {
        return about(rt.alloc(), "that file is missing: ", path);
    }
    Ok(None)
}

/// The first bytes of a file, as far as the system gives them.
fn first_bytes<R: Files<File = File> + AllocGlobal>(rt: &R, path: &str) -> Option<Vec<u8>> {
    let file = File::open(rt, path).ok()?;
    let mut bytes = vec![in rt.alloc(); 0u8; HEAD].ok()?;
    let count = file.read_at(&mut bytes, 0).ok()?;
    bytes.truncate(count);
    Some(bytes)
}

/// The first line of some bytes, without its LF.
fn first_line(bytes: &[u8]) -> &[u8] {
    match bytes.iter().position(|byte| *byte == b'\n') {
        Some(end) => &bytes[..end],
        None => bytes,
    }
}

/// What is wrong with a program whose first line, after `#!`, is this.
fn reader_repair<R: Files + AllocGlobal>(
    rt: &R,
    path: &str,
    line: &[u8],
) -> Result<Option<String>, AllocError> {
    let alloc = rt.alloc();
    if line.last() == Some(&b'\r') {
        let words = "its first line ends with a carriage return (CR): sed -i 's/\\r$//' ";
        return about(alloc, words, path);
    }
    let Ok(text) = str::from_utf8(line) else {
        return Ok(None);
    };
    match text.split_whitespace().next() {
        Some(reader) if is_missing(rt, reader) => about(
            alloc,
            "its first line names a program that is missing: ",
            reader,
        ),
        _ => Ok(None),
    }
}

/// What is wrong with a program that has these first bytes.
fn beginning_repair<R: Files + AllocGlobal>(
    rt: &R,
    path: &str,
    bytes: &[u8],
) -> Result<Option<String>, AllocError> {
    let line = first_line(bytes);
    if let Some(reader) = line.strip_prefix(b"#!".as_slice()) {
        return reader_repair(rt, path, reader);
    }
    if bytes.starts_with(b"\x7fELF".as_slice()) {
        return Ok(None);
    }
    said(
        rt.alloc(),
        "its first line does not say what reads it: write #!/bin/sh there, or what does",
    )
}

/// What is wrong with a program that is not there. Perhaps its words are after it.
fn missing_repair<R: Files + AllocGlobal>(
    rt: &R,
    path: &str,
) -> Result<Option<String>, AllocError> {
    let alloc = rt.alloc();
    if let Some((program, words)) = path.split_once(' ') {
        if fs::metadata(rt, program).is_ok_and(|found| found.is_file()) {
            let mut text = String::from_str(
                alloc,
                "there is no such program: write executable = ",
            )?;
            push_all_shown(&mut text, program)?;
            text.push_str(" and arguments = ")?;
            push_all_shown(&mut text, words)?;
            return Ok(Some(text));
        }
    }
    let words = if path.contains("/~") || path.contains("/$") {
        "there is no such program: no shell reads its path, so write the whole path in place of ~ or a variable: "
    } else {
        "there is no such program: put it there, or mend its path: "
    };
    about(alloc, words, path)
}

/// Why a program of this mode may not be executed, and the beginning of a command.
fn not_allowed_words(mode: u32) -> &'static str {
    if mode & SOMEBODY_RUNS == 0 {
        "it may not be executed: chmod +x "
    } else {
        "only others may execute it, or its disk is mounted with noexec (findmnt -T), or the program of its first line may not be executed: ls -l "
    }
}

/// What is wrong with a program, where the system refused it with this code, if that is known.
fn program_repair<R: Files<File = File> + AllocGlobal>(
    rt: &R,
    path: &str,
    code: Option<i32>,
) -> Result<Option<String>, AllocError> {
    let alloc = rt.alloc();
    let mode = match fs::metadata(rt, path) {
        Ok(found) if found.is_dir() => return about(alloc, "this is a folder, no program: ", path),
        // It is not opened: a pipe would wait for somebody who writes.
        Ok(found) if !found.is_file() => {
            return about(
                alloc,
                "this is a pipe, a device or a socket, no program: ",
                path,
            );
        }
        Ok(found) => found.mode(),
        Err(error) if error.kind() == ErrorKind::NotFound => return missing_repair(rt, path),
        Err(_) => return about(alloc, "a folder of its path may not be looked into: ", path),
    };
    if code == Some(NOT_ALLOWED) {
        return about(alloc, not_allowed_words(mode), path);
    }
    match first_bytes(rt, path) {
        Some(bytes) => beginning_repair(rt, path, &bytes),
        None => Ok(None),
    }
}

/// The code of the system in what it said.
fn code_in(reason: &str) -> Option<i32> {
    let (_, behind) = reason.split_once("(os error ")?;
    let (code, _) = behind.split_once(')')?;
    code.parse().ok()
}

/// How a start that was refused, as the log says it, is mended.
fn refused_repair<R: Files<File = File> + AllocGlobal>(
    rt: &R,
    refused: &Refused<'_>,
) -> Result<Option<String>, AllocError> {
    let alloc = rt.alloc();
    let code = code_in(refused.reason);
    if let Some(code) = code {
        if PASSING.contains(&code) {
            let words =
                "the system had no process or descriptor to give for ten seconds: let fewer run at once, as by --maxjobs 4, or raise its limits, see ulimit -u and ulimit -n";
            return said(alloc, words);
        }
    }
    let path = unquoted(alloc, refused.path)?;
    match refused.what {
        "program" => program_repair(rt, path.as_str(), code),
        "folder" => folder_repair(rt, path.as_str()),
        "input" => input_repair(rt, path.as_str()),
        _ => refused_output_repair(rt, path.as_str(), code),
    }
}

/// What is wrong with a stream, if one is named.
fn stream_repair<R: Files + AllocGlobal>(
    rt: &R,
    path: &Option<Text>,
) -> Result<Option<String>, AllocError> {
    match path {
        Some(path) => output_repair(rt, path.as_str()),
        None => Ok(None),
    }
}

/// How a command that was not started is mended, where nothing is known of why.
fn command_repair<R: Files<File = File> + AllocGlobal>(
    rt: &R,
    command: &SeenCommand,
) -> Result<Option<String>, AllocError> {
    if let Some(input) = &command.input {
        let repair = input_repair(rt, input.as_str())?;
        if repair.is_some() {
            return Ok(repair);
        }
    }
    for path in [&command.output, &command.error] {
        let repair = stream_repair(rt, path)?;
        if repair.is_some() {
            return Ok(repair);
        }
    }
    let repair = folder_repair(rt, command.folder.as_str())?;
    if repair.is_some() {
        return Ok(repair);
    }
    program_repair(rt, command.program.as_str(), None)
}

/// What a program says that writes on a full disk.
const SAYS_FULL: &str = "No space left on device";

/// Whether the last lines of a file say that a disk is full.
fn says_full<R: Files<File = File> + AllocGlobal>(
    rt: &R,
    path: &Option<Text>,
) -> Result<bool, AllocError> {
    let Some(path) = path else {
        return Ok(false);
    };
    match quote_of(rt, path.as_str())? {
        Quote::Lines(lines) => Ok(lines.iter().any(|line| line.as_str().contains(SAYS_FULL))),
        _ => Ok(false),
    }
}

/// How a command is mended that ended with this exit and said why.
fn said_repair<R: Files<File = File> + AllocGlobal>(
    rt: &R,
    command: &SeenCommand,
    code: u8,
) -> Result<Option<String>, AllocError> {
    if code != 0 && says_full(rt, &command.error)? {
        return said(rt.alloc(), "a disk is full: df says which, and how full");
    }
    exit_repair(rt, command, code)
}

/// How a command is mended that ended with this exit: a program that reads a file has none to read.
fn exit_repair<R: Files + AllocGlobal>(
    rt: &R,
    command: &SeenCommand,
    code: u8,
) -> Result<Option<String>, AllocError> {
    let alloc = rt.alloc();
    if let Some(first) = &command.first {
        let reads = READERS.contains(&base_of(command.program.as_str()));
        if code != 0 && reads && !base_of(first.as_str()).starts_with('-') {
            let path = first.as_str();
            if is_missing(rt, path) {
                return about(alloc, "the file that it is to read is missing: ", path);
            }
        }
    }
    match code {
        124 => said(alloc, "`timeout` ends with 124 where the time is over"),
        126 => said(
            alloc,
            "a shell ends with 126 where it may not execute a program",
        ),
        127 => said(
            alloc,
            "a shell ends with 127 where it does not find a program",
        ),
        139 => said(
            alloc,
            "139 is 128 and SIGSEGV: what it ran used memory that is not its own, a fault of that program",
        ),
        137 => said(
            alloc,
            "137 is 128 and SIGKILL: what it ran was killed; where memory ran out, the kernel's log says so (dmesg)",
        ),
        _ => Ok(None),
    }
}

/// What is known of a program that this signal ended.
fn signal_repair(alloc: Global, number: u8) -> Result<Option<String>, AllocError> {
    match number {
        9 => said(
            alloc,
            "it was killed; where memory ran out, the kernel's log says so (dmesg)",
        ),
        6 => said(
            alloc,
            "it gave up by itself (abort): its error output may say why",
        ),
        7 | 11 => said(
            alloc,
            "it used memory that is not its own, a fault of the program: call it by hand, in a debugger (gdb)",
        ),
        24 => said(alloc, "it took more processor time than it may (ulimit -t)"),
        25 => said(alloc, "a file grew larger than it may (ulimit -f)"),
        _ => Ok(None),
    }
}

/// How what is wrong with a phase that ended so is mended, as far as looking at its files tells.
///
/// # Errors
/// Lack of memory.
pub(crate) fn repair_of<R: Files<File = File> + AllocGlobal>(
    rt: &R,
    command: &SeenCommand,
    outcome: Outcome,
    refused: Option<&Refused<'_>>,
) -> Result<Option<String>, AllocError> {
    match (outcome, refused) {
        (Outcome::NoStart, Some(refused)) => refused_repair(rt, refused),
        (Outcome::NoStart, None) => command_repair(rt, command),
        (Outcome::Exit(code), _) => said_repair(rt, command, code),
        (Outcome::Signal(number), _) => signal_repair(rt.alloc(), number),
        _ => Ok(None),
    }
}
