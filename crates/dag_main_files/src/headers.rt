//! What the header of a journal says.

ghost use Rattle.std.specs.Prelude.{◌≡◌, ℕ, List, IfOk, IfErr};
ghost use Rattle.event_journal_log.specs.Image.{replay_of};
ghost use Rattle.event_journal_log.specs.Peeks.{ReadsPeek};
ghost use Rattle.dag_main_files.specs.Beside.{IsJournalFault};
ghost use Rattle.dag_main_files.specs.Journals.{read_fault, IsUnread};

use dag_main_check::RunFault;
use event_journal_log::{Disk, Journal, JournalFault, Peek, peek_bytes};
use recovery_manager::ManagerFault;
use std::alloc::Global;

/// What is returned for the fault of a journal.
pub fn read_fault(fault: JournalFault) -> RunFault
    ensures { result ≡ read_fault fault }
{
    match fault {
        JournalFault::Memory => RunFault::Memory,
        fault => RunFault::InManager(ManagerFault::Journal(fault)),
    }
}

/// What the header of a journal says that has these bytes; none where none was begun.
///
/// # Errors
/// `InManager` with the fault of bytes that can't be read, and `Memory`.
pub fn peek_in(alloc: Global, bytes: &[u8]) -> Result<Option<Peek>, RunFault>
    ensures peek { IfOk result (λ peek. ReadsPeek peek (replay_of bytes.now)) }
    ensures refused { IfErr result (IsUnread bytes.now) }
    ensures kind { (top : List ℕ) → IfErr result (IsJournalFault top) }
{
    match peek_bytes(alloc, bytes) {
        Ok(peek) => Ok(peek),
        Err(fault) => Err(read_fault(fault)),
    }
}

/// What the header of the journal on a disk says, where a journal was begun there.
///
/// # Errors
/// `InManager` with the fault of a journal that can't be read, and `Memory`.
pub(crate) fn peek_on<D: Disk + Drop>(alloc: Global, disk: &mut D) -> Result<Option<Peek>, RunFault>
    ensures gives { D.honest disk.old → IfOk result (λ peek. ReadsPeek peek (replay_of (D.seen disk.old))) }
    ensures refused { (top : List ℕ) → IfErr result (IsJournalFault top) }
{
    match Journal::peek(alloc, disk) {
        Ok(peek) => Ok(peek),
        Err(fault) => Err(read_fault(fault)),
    }
}
