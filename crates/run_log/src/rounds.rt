//! The identifier of a round, and the file beside the journal that keeps it.

use crate::children::{last_manager, manager_line};
use crate::orphans::{OrphanFault, text_at};
use crate::processes::{boot_of, own_number};
use event_journal::{PERMISSIONS, require_regular};
use std::alloc::{AllocError, Global};
use std::fs::{self, File, OpenOptions};
use std::io::{self, Write};
use std::os::unix::fs::{MetadataExt, OpenOptionsExt};
use std::rt::Files;
use std::time::{Clock, Duration};

/// Where a folder or a file is: its device and its number there. A copy of it is somewhere else; the number of a device is another one
/// once the system was started again, and on another machine.
#[derive(Clone, Copy, Debug, PartialEq, Eq)]
pub struct Seat {
    device: u64,
    number: u64,
}

impl Seat {
    /// Whether this is that of a folder which is there now. Where it is from before, the device plays no part.
    fn is_of(self, now: Seat, is_from_before: bool) -> bool {
        self.number == now.number && (is_from_before || self.device == now.device)
    }
}

/// Where the folder or the file of this path is.
///
/// # Errors
/// What the system refuses.
pub fn seat_of<R: Files>(rt: &R, path: &str) -> io::Result<Seat> {
    let found = fs::metadata(rt, path)?;
    Ok(Seat {
        device: found.dev(),
        number: found.ino(),
    })
}

/// What a line says: an identifier and where its folder is; none where it is another one, or is cut short.
fn round_in(line: &str) -> Option<(&str, Seat)> {
    let mut fields = line.split('\t');
    let round = fields.next()?;
    let device = fields.next()?.parse::<u64>().ok()?;
    let number = fields.next()?.parse::<u64>().ok()?;
    if round.is_empty() || fields.next().is_some() {
        return None;
    }
    Some((round, Seat { device, number }))
}

/// What a line says of the number of its file; none where it is another one, or is cut short.
fn file_in(line: &str) -> Option<u64> {
    match line.split_once('\t') {
        Some(("file", number)) => number.parse::<u64>().ok(),
        _ => None,
    }
}

/// Whether these lines were written into this file, before the system was started last or on another one, so that the numbers of devices
/// in them say nothing.
fn is_from_before<R: Files + AllocGlobal>(rt: &R, path: &str, text: &str) -> bool {
    let Some(number) = text.lines().find_map(file_in) else {
        return false;
    };
    let (Some(manager), Some(boot)) = (last_manager(text), boot_of(rt)) else {
        return false;
    };
    match fs::symlink_metadata(rt, path) {
        Ok(found) => found.ino() == number && manager.boot != boot.as_str(),
        Err(_) => false,
    }
}

/// The identifiers that the file of this path keeps for the round of a folder: first its own, then those of earlier rounds of
/// which processes were left. There are none where the file is missing, or was copied with its folder.
///
/// # Errors
/// `NotKnown` where the system refuses to read the file or to say where the folder is, or it is no regular one; `Memory`.
pub fn kept_rounds<R: Files + AllocGlobal>(
    rt: &R,
    path: &str,
    folder: &str,
) -> Result<Vec<String>, OrphanFault> {
    let mut rounds = Vec::new(rt.alloc());
    let Some(text) = text_at(rt, path, OrphanFault::NotKnown)? else {
        return Ok(rounds);
    };
    let Ok(seat) = seat_of(rt, folder) else {
        return Err(OrphanFault::NotKnown);
    };
    let is_from_before = is_from_before(rt, path, text.as_str());
    for line in text.as_str().lines() {
        match round_in(line) {
            Some((round, kept)) if kept.is_of(seat, is_from_before) => {
                rounds.push(String::from_str(rt.alloc(), round)?)?;
            }
            _ => {}
        }
    }
    Ok(rounds)
}

/// The identifiers that these lines name, of whatever folder. A line that is cut short names none: only its end says where its folder is.
pub(crate) fn named_rounds(alloc: Global, text: &str) -> Result<Vec<String>, AllocError> {
    let mut rounds = Vec::new(alloc);
    let Some((whole, _cut)) = text.rsplit_once('\n') else {
        return Ok(rounds);
    };
    for line in whole.lines() {
        if let Some((round, _seat)) = round_in(line) {
            rounds.push(String::from_str(alloc, round)?)?;
        }
    }
    Ok(rounds)
}

/// Whether the file of this path keeps this identifier as that of its round. Where it is missing or can't be read, it does not.
pub fn keeps_round<R: Files + AllocGlobal>(rt: &R, path: &str, round: &str) -> bool {
    let Ok(Some(text)) = text_at(rt, path, OrphanFault::NotKnown) else {
        return false;
    };
    match text.as_str().lines().next().and_then(round_in) {
        Some((kept, _seat)) => kept == round,
        None => false,
    }
}

/// An identifier that no other round has: a random one of the system, or else one of the time and of this process.
///
/// # Errors
/// Lack of memory.
pub fn new_round<R: Files + Clock + AllocGlobal>(rt: &R) -> Result<String, AllocError> {
    if let Ok(text) = fs::read_to_string(rt, "/proc/sys/kernel/random/uuid") {
        let round = text.as_str().trim();
        if !round.is_empty() {
            return String::from_str(rt.alloc(), round);
        }
    }
    let now = rt.since_1970().unwrap_or(Duration::ZERO);
    let (seconds, nanoseconds) = (now.as_secs(), now.subsec_nanos());
    format!(in rt.alloc(); "{seconds}-{nanoseconds}-{}", own_number(rt))
}

/// The lines of these identifiers, that of the number of their file, and that of this process, which is the manager, as far as the system
/// says what is in it.
fn lines_of<R: Files + AllocGlobal>(
    rt: &R,
    rounds: &[String],
    seat: Seat,
    number: u64,
) -> Result<String, AllocError> {
    let mut text = String::new(rt.alloc());
    for round in rounds {
        writeln!(text, "{round}\t{}\t{}", seat.device, seat.number)?;
    }
    writeln!(text, "file\t{number}")?;
    if let Some(line) = boot_of(rt).and_then(|boot| manager_line(rt, boot.as_str())) {
        text.push_str(line.as_str())?;
    }
    Ok(text)
}

/// Keeps these identifiers for the round of a folder, and who its manager is, in the file of this path, in place of what it had:
/// it is written under another name first, so that at each moment the file has all of the one or all of the other. Where it is to
/// outlive the machine, since jobs elsewhere do, it is on the disk with its name as this returns.
///
/// # Errors
/// What the system refuses.
pub fn keep_rounds<R: Files<File = File> + AllocGlobal>(
    rt: &R,
    path: &str,
    folder: &str,
    rounds: &[String],
    outlives: bool,
) -> io::Result<()> {
    let seat = seat_of(rt, folder)?;
    let new = format!(in rt.alloc(); "{path}.new")?;
    require_regular(rt, new.as_str())?;
    let mut options = OpenOptions::new();
    options.write(true).create(true).truncate(true);
    let mut file = options.mode(PERMISSIONS).open(rt, new.as_str())?;
    let text = lines_of(rt, rounds, seat, file.metadata()?.ino())?;
    file.write_all(text.as_str().as_bytes())?;
    if outlives {
        file.sync_all()?;
    }
    fs::rename(rt, new.as_str(), path)?;
    if outlives {
        File::open(rt, folder)?.sync_all()?;
    }
    Ok(())
}
