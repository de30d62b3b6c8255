//! Appends records to the journal of a path, up to a count, and prints how many records there are
//! after each that was acknowledged. A test kills it and opens the journal again.

ghost use Rattle.std.specs.Prelude.{IfOk, IsTrue, IsFalse};
ghost use Rattle.event_journal_log.specs.Slot.{has_slot};
ghost use Rattle.event_journal_log.specs.Journal.{journal_disk, is_broken, IsSettled};

use anyhow::{Result, bail};
use event_journal::FileDisk;
use event_journal_log::{Disk, Journal, JournalFault, Opened};
use node_machine::{Key, Phase, Record};
use std::alloc::Global;

const DIGEST: [u8; 32] = [7; 32];

const SLOTS: u32 = 16_777_216;

fn entry_at(place: u32) -> Record
    ensures { IsTrue (has_slot result) }
{
    let key = Key {
        node: place,
        attempt: 0,
        phase: Phase::Job,
    };
    Record::Launch(key, u64::from(place))
}

fn begin<D: Disk + Drop>(alloc: Global, disk: D) -> Result<(Journal<D>, Vec<Record>), JournalFault>
    ensures settled { IfOk result (λ begun. D.honest (journal_disk begun.0)
        → IsFalse (is_broken begun.0) → IsSettled D.Disk begun.0) }
{
    match Journal::open(alloc, disk, &DIGEST, false, SLOTS) {
        Ok(Opened::Fresh(journal)) => {
            let mut journal = journal;
            journal.create_gate()?;
            journal.create_header(0, 1, &DIGEST, false)?;
            Ok((journal, Vec::new(alloc)))
        }
        Ok(Opened::Found(journal, records)) => Ok((journal, records)),
        Err((_, fault)) => Err(fault),
    }
}

fn add<D: Disk + Drop>(journal: &mut Journal<D>, place: u32) -> Result<(), JournalFault>
    requires settled { D.honest (journal_disk journal.old) → IsFalse (is_broken journal.old)
        → IsSettled D.Disk journal.old }
    ensures settled { D.honest (journal_disk journal.new) → IsFalse (is_broken journal.new)
        → IsSettled D.Disk journal.new }
{
    journal.append_body(&entry_at(place))?;
    journal.open_gate()
}

// How many records there are, where they are those that this program appends.
fn count_of(records: &[Record]) -> Option<u32> {
    let mut count: u32 = 0;
    for entry in records {
        if *entry != entry_at(count) {
            return None;
        }
        count = count.checked_add(1)?;
    }
    Some(count)
}

/// Appends to the journal of this path, until it has so many records.
pub fn append(rt: HostRuntime, path: String, most: u32) -> Result<()> {
    let (mut journal, records) = begin(rt.alloc(), FileDisk::at(rt, path))?;
    let Some(count) = count_of(&records) else {
        bail!("a record that was never appended");
    };
    println!(rt; "{count}")?;
    for place in count..most {
        add(&mut journal, place)?;
        println!(rt; "{}", place + 1)?;
    }
    Ok(())
}
