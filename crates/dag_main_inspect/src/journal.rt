//! The journal of a round, read once.

ghost use Rattle.std.specs.Prelude.{◌≡◌, false, is_some, Some, IfOk, IfErr};
ghost use Rattle.std.specs.Option.{option_map};
ghost use Rattle.std.specs.Cow.{cow_slice_items};
ghost use Rattle.event_journal_log.specs.Image.{replay_of};
ghost use Rattle.dag_main_check.specs.declared.fault.RunFault.TheVariants.{Memory};
ghost use Rattle.dag_main_inspect.specs.Statused.{journal_bytes, records_in_bytes, IsRecordsFault};
ghost use Rattle.dag_main_inspect.specs.LastRound.{Decodes, IsHead};

use crate::statuses::{bytes_in, in_journal, records_of};
use dag_main_check::RunFault;
use event_journal_log::{Decoded, JournalFault, decode_bytes};
use node_machine::Record;
use run_plan::Plan;
use std::alloc::Global;
use std::borrow::CowSlice;
use std::marker::Model;

/// What the header of a journal says, and whether its last record is the end of the run.
#[derive(Clone, Copy)]
pub(crate) struct Head {
    pub(crate) used: u16,
    pub(crate) always_post: bool,
    pub(crate) finished: bool,
}

/// What bytes were decoded as.
#[derive(Drop)]
struct Reading {
    /// The journal that they are; none where none was begun, and where they can't be read.
    decoded: Option<Decoded>,
    is_readable: bool,
}

/// Reads bytes as a journal.
///
/// # Errors
/// `Memory` alone.
fn read(alloc: Global, bytes: &[u8]) -> Result<Reading, RunFault>
    ensures decodes { IfOk result (λ reading. Decodes bytes.now reading.decoded) }
    ensures err { IfErr result (λ fault. fault ≡ Memory) }
{
    match decode_bytes(alloc, bytes) {
        Ok(decoded) => Ok(Reading {
            decoded,
            is_readable: true,
        }),
        Err(JournalFault::Memory) => Err(RunFault::Memory),
        Err(_) => Ok(Reading {
            decoded: None,
            is_readable: false,
        }),
    }
}

/// A journal as it was read, once: its bytes, where it is there, and what they are.
#[derive(Drop)]
pub struct ReadJournal {
    bytes: Option<Vec<u8>>,
    reading: Reading,
}

impl Model for ReadJournal {
    ghost use Rattle.std.specs.Prelude.{ℕ, List, Option};
    ghost use Rattle.std.specs.Option.{option_map};
    ghost use Rattle.dag_main_inspect.specs.Statused.{journal_bytes};
    ghost use Rattle.dag_main_inspect.specs.LastRound.{Decodes};

    ghost Value = { Option (List ℕ) };

    ghost view = { λ a. option_map (λ b. b.items) a.bytes };

    ghost invariant = { λ a. Decodes (journal_bytes (option_map (λ b. b.items) a.bytes)) a.reading.decoded };
}

impl ReadJournal {
    /// That of these bytes; none where there is no journal.
    ///
    /// # Errors
    /// `Memory` alone.
    pub(crate) fn new(alloc: Global, bytes: Option<Vec<u8>>) -> Result<ReadJournal, RunFault>
        ensures same { IfOk result (λ journal. journal ≡ option_map (λ b. b.items) bytes) }
        ensures err { IfErr result (λ fault. fault ≡ Memory) }
    {
        let reading = read(alloc, bytes_in(bytes.as_deref()))?;
        Ok(ReadJournal { bytes, reading })
    }

    /// Whether there is one.
    pub fn is_there(&self) -> bool
        ensures { result ≡ is_some self.now }
    {
        self.bytes.is_some()
    }

    /// Its bytes; none where there is none.
    pub fn bytes(&self) -> &[u8]
        ensures { result.now ≡ journal_bytes self.now }
    {
        bytes_in(self.bytes.as_deref())
    }

    /// Whether its bytes are those of a journal, or of none that was begun.
    pub(crate) fn is_readable(&self) -> bool {
        self.reading.is_readable
    }

    /// What its header says, and whether its last record is the end of the run.
    pub(crate) fn head(&self) -> Head
        ensures { IsHead self.now result }
    {
        match &self.reading.decoded {
            Some(decoded) => {
                let peek = decoded.peek();
                Head {
                    used: peek.used,
                    always_post: peek.always_post,
                    finished: peek.finished,
                }
            }
            None => Head {
                used: 0,
                always_post: false,
                finished: false,
            },
        }
    }

    /// Its records, the oldest first, where it is that of a run of this plan; none where none was begun.
    ///
    /// # Errors
    /// The fault of the journal (`InManager`), or `Memory`.
    pub(crate) fn records(
        &self,
        alloc: Global,
        plan: &Plan,
    ) -> Result<CowSlice<'_, Record, Global>, RunFault>
        ensures ok { IfOk result (λ records. records_in_bytes plan.now (journal_bytes self.now) ≡ Some (cow_slice_items records)) }
        ensures refused { IfErr result (IsRecordsFault plan.now (journal_bytes self.now)) }
    {
        let Some(decoded) = &self.reading.decoded else {
            // Which fault it is, the plan decides.
            return Ok(CowSlice::Owned(records_of(alloc, plan, self.bytes())?));
        };
        match decoded.records_for(plan.digest(), plan.always_post()) {
            Ok(records) => Ok(CowSlice::Borrowed(records)),
            Err(fault) => Err(in_journal(fault)),
        }
    }
}
