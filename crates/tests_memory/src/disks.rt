//! Journals on disks in memory, and the growth of such a disk.
ghost use Rattle.std.specs.Prelude.{IsFalse};
ghost use Rattle.event_journal_log.specs.Slot.{has_slot};
ghost use Rattle.event_journal_log.specs.Journal.{journal_disk, is_broken, IsSettled};

use crate::said::say;
use anyhow::{Result, bail};
use event_journal::{Disk, DiskFault, Journal, JournalFault, MemDisk, Opened, has_slot};
use node_machine::{Key, Outcome, Phase, Record};
use std::alloc::{AllocError, Global};

/// How many records a journal may have.
pub const SLOTS: u32 = 1000;

/// How many bytes a disk may have.
pub const ROOM: usize = 100_000;

const DIGEST: [u8; 32] = [7; 32];

const JOB: Key = Key {
    node: 0,
    attempt: 0,
    phase: Phase::Job,
};

/// The records of a job that fails once.
static FAILS_ONCE: [Record; 4] = [
    Record::Life,
    Record::Launch(JOB, 1),
    Record::End(JOB, Outcome::Exit(1)),
    Record::Finish(1),
];

// Adds these records.
fn add_all<D: Disk + Drop>(journal: &mut Journal<D>, records: &[Record]) -> Result<(), JournalFault>
    requires settled { D.honest (journal_disk journal.old) → IsFalse (is_broken journal.old)
        → IsSettled D.Disk journal.old }
{
    for record in records {
        if has_slot(record) {
            journal.append_body(record)?;
            journal.open_gate()?;
        }
    }
    Ok(())
}

/// A disk with a journal of these records.
pub fn written(
    alloc: Global,
    digest: &[u8; 32],
    records: &[Record],
) -> Result<MemDisk, JournalFault> {
    match Journal::open(alloc, MemDisk::new(alloc, ROOM), digest, false, SLOTS) {
        Ok(Opened::Fresh(journal)) => {
            let mut journal = journal;
            journal.create_gate()?;
            journal.create_header(0, 1, digest, false)?;
            add_all(&mut journal, records)?;
            Ok(journal.into_disk())
        }
        Ok(Opened::Found(journal, _)) => Ok(journal.into_disk()),
        Err((_, fault)) => Err(fault),
    }
}

fn peek_line(alloc: Global, disk: &mut MemDisk) -> Result<String, AllocError> {
    match Journal::peek(alloc, disk) {
        Ok(Some(peek)) => {
            let (used, next, finished) = (peek.used, peek.next, peek.finished);
            format!(in alloc; "peek {used} {next} {finished}")
        }
        Ok(None) => format!(in alloc; "peek none"),
        Err(fault) => format!(in alloc; "peek {fault}"),
    }
}

fn records_line<D: Disk + Drop>(
    alloc: Global,
    journal: &mut Journal<D>,
) -> Result<String, AllocError>
    requires settled { D.honest (journal_disk journal.old) → IsFalse (is_broken journal.old)
        → IsSettled D.Disk journal.old }
    ensures settled { D.honest (journal_disk journal.new) → IsFalse (is_broken journal.new)
        → IsSettled D.Disk journal.new }
{
    match journal.records(alloc) {
        Ok(records) => format!(in alloc; "records {}", records.len()),
        Err(fault) => format!(in alloc; "records {fault}"),
    }
}

// Opens a disk, which a refusal hands back, and reads the records.
fn opened(rt: HostRuntime, disk: MemDisk) -> Result<()> {
    let mut disk = disk;
    let size = disk.bytes().len();
    for _ in 0..2 {
        match Journal::open(rt.alloc(), disk, &DIGEST, false, SLOTS) {
            Ok(Opened::Found(journal, _)) => {
                let mut journal = journal;
                println!(rt; "open found")?;
                if say(rt, records_line(rt.alloc(), &mut journal))? {
                    say(rt, records_line(rt.alloc(), &mut journal))?;
                }
                return Ok(());
            }
            Ok(Opened::Fresh(_)) => bail!("no journal"),
            Err((back, fault)) => {
                disk = back;
                println!(rt; "open {fault}")?;
            }
        }
        if disk.bytes().len() != size {
            bail!("a refused call has changed the disk");
        }
    }
    bail!("memory is wanting twice");
}

// Prints what a call of a disk came to, without memory; whether it was refused. Then the disk has to be what it was.
fn tell(
    rt: HostRuntime,
    name: &str,
    answer: Result<(), DiskFault>,
    before: (usize, usize),
    disk: &MemDisk,
) -> Result<bool> {
    let (size, events) = (disk.bytes().len(), disk.events().len());
    if answer.is_err() && (size, events) != before {
        bail!("a refused call has changed the disk");
    }
    match answer {
        Ok(()) => println!(rt; "{name} {size} {events}")?,
        Err(DiskFault::Full) => println!(rt; "{name} J2 DiskFull")?,
        Err(DiskFault::Failed) => {
            println!(rt; "{name} J1 Device")?;
            return Ok(true);
        }
    }
    Ok(false)
}

fn seen(disk: &MemDisk) -> (usize, usize) {
    (disk.bytes().len(), disk.events().len())
}

fn write(rt: HostRuntime, disk: &mut MemDisk, bytes: &[u8]) -> Result<bool> {
    let before = seen(disk);
    if bytes.len() > 100 || disk.bytes().len() > 100 {
        bail!("too many bytes");
    }
    let place = disk.bytes().len();
    let answer = disk.write_at(place, bytes);
    tell(rt, "write_at", answer, before, disk)
}

fn cut(rt: HostRuntime, disk: &mut MemDisk) -> Result<bool> {
    let before = seen(disk);
    let answer = disk.cut(0);
    tell(rt, "cut", answer, before, disk)
}

fn sync(rt: HostRuntime, disk: &mut MemDisk) -> Result<bool> {
    let before = seen(disk);
    let answer = disk.sync();
    tell(rt, "sync", answer, before, disk)
}

// A disk of 65 bytes: it grows until it is full.
fn grown(rt: HostRuntime) -> Result<()> {
    let mut disk = MemDisk::new(rt.alloc(), 65);
    for bytes in [[0u8; 33].as_slice(), [1; 32].as_slice(), [2; 1].as_slice()] {
        if write(rt, &mut disk, bytes)? {
            write(rt, &mut disk, bytes)?;
        }
    }
    Ok(())
}

// The first call of a disk takes room for what it notes.
fn cut_and_synced(rt: HostRuntime) -> Result<()> {
    let mut bytes = Vec::new(rt.alloc());
    bytes.push(7)?;
    let mut disk = MemDisk::of(rt.alloc(), bytes, 65);
    if cut(rt, &mut disk)? {
        cut(rt, &mut disk)?;
    }
    let mut empty = MemDisk::new(rt.alloc(), 65);
    if sync(rt, &mut empty)? {
        sync(rt, &mut empty)?;
    }
    Ok(())
}

/// Makes each call, and once more where it wants memory.
pub fn make_calls(rt: HostRuntime) -> Result<()> {
    let mut disk = written(rt.alloc(), &DIGEST, &FAILS_ONCE)?;
    if say(rt, peek_line(rt.alloc(), &mut disk))? {
        say(rt, peek_line(rt.alloc(), &mut disk))?;
    }
    opened(rt, disk)?;
    grown(rt)?;
    cut_and_synced(rt)
}
