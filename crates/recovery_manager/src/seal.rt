// The rescue file of a run that may end, written before the run's end is recorded.
ghost use Rattle.std.specs.Prelude.{◌≡◌, string_bytes, IfOk, IfErr};
ghost use Rattle.recovery_manager.specs.Rescue.{rescue_text_for};
ghost use Rattle.recovery_manager.specs.Seal.{sealed_disk, sealed_count};
ghost use Rattle.recovery_manager.specs.declared.fault.ManagerFault.TheVariants.{Memory};

use crate::ManagerFault;
use event_journal_log::Disk;
use rescue_file::rescue_text;
use sched_core::Core;
use std::alloc::Global;

/// What a run's end is recorded by: the disk of its rescue file, with the file's text on it, or no
/// disk where no rescue file is needed.
///
/// It is of as many records as the run had. `Manager::finish` takes it, and refuses it where the
/// run has gone on since.
#[derive(Drop)]
pub struct Sealed<R: Disk + Drop> {
    disk: Option<R>,
    count: usize,
}

impl<R: Disk + Drop> Sealed<R> {
    /// The disk of the rescue file; none where no rescue file is needed.
    pub fn into_disk(self) -> Option<R>
        ensures { result ≡ sealed_disk self }
    {
        self.disk
    }

    /// How many records the run had.
    pub(crate) fn count(&self) -> usize
        ensures { result ≡ sealed_count self.now }
    {
        self.count
    }

    pub(crate) fn of(disk: Option<R>, count: usize) -> Self
        ensures disk { sealed_disk result ≡ disk }
        ensures count { sealed_count result ≡ count }
    {
        Sealed { disk, count }
    }
}

/// The text of the rescue file of a run.
pub(crate) fn text_of(alloc: Global, core: &Core<'_>) -> Result<String, ManagerFault>
    ensures text { IfOk result (λ text. string_bytes text
        ≡ rescue_text_for core.now.plan core.now.past) }
    ensures err { IfErr result (λ fault. fault ≡ Memory) }
{
    let Ok(marks) = core.marks(alloc) else {
        return Err(ManagerFault::Memory);
    };
    match rescue_text(alloc, core.plan().graph(), &marks) {
        Ok(text) => Ok(text),
        Err(_) => Err(ManagerFault::Memory),
    }
}
