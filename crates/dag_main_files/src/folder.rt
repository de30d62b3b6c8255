//! Files by their paths, as the program finds them.

ghost use Rattle.std.specs.Prelude.{◌≡◌, ◌≤◌, Bool, true, false, ℕ, List, None, IfOk, IfErr, is_some};
ghost use Rattle.std.specs.Option.{option_map};
ghost use Rattle.splices_flat.specs.Opening as opening;
ghost use Rattle.splices_flat.specs.FileSet.{bytes_of};
ghost use Rattle.event_journal_log.specs.Peeks.{ReadsPeek};
ghost use Rattle.dag_main_check.specs.declared.fault.RunFault.TheVariants.{Memory};
ghost use Rattle.dag_main_files.specs.Beside.{folder_name_of, IsRefusalOf, IsRefusalHeld, IsInputFault, IsJournalFault};
ghost use Rattle.dag_main_files.specs.Folder.{journal_in, IsHighestThere, IsJournalFaultHeld};

use crate::beside::{LAST_NUMBER, Place, journal_path, read_beside, rescue_path};
use crate::headers::{peek_in, peek_on};
use crate::inputs::{read_named, read_standard_input};
use crate::rounds::disk_at;
use dag_main_check::RunFault;
use event_journal_log::Peek;
use splices_flat::{FileSet, path_in};
use std::alloc::Global;
use std::fs::{self, File};
use std::rt::Files;

/// Where the files of a DAG are found by their paths: in the system's folders (`SystemFolder`), or in memory
/// (`FileSet`).
///
/// What is said of bytes is said of an honest folder: it answers what it holds, and nobody changes that
/// meanwhile.
pub trait Folder {
    /// The bytes of each file that can be read, by its path.
    ghost holds: { Self → opening.Files };

    /// Which paths are there, also of a file that can't be read.
    ghost has: { Self → List ℕ → Bool };

    /// Whether `-` is standard input.
    ghost streams: { Self → Type 0 };

    /// The premise under which it answers what it holds.
    ghost honest: { Self → Type 0 };

    /// The bytes of the DAG file of this path, which the caller names; none where there is none, or it can't be
    /// read. It may be a pipe.
    ///
    /// # Errors
    /// `FileRefused` with `-` where this path asks for standard input and that can't be read; `Memory`, also for
    /// more than 256 MiB.
    fn top(&self, alloc: Global, path: &str) -> Result<Option<Vec<u8>>, RunFault>
        ensures bytes { honest self.now → IfOk result (λ bytes. option_map (λ b. b.items) bytes ≡ holds self.now path.now) }
        ensures refused { IfErr result (IsInputFault path.now) }
        ensures unstreamed { ¬ (streams self.now) → IfErr result (λ fault. fault ≡ Memory) };

    /// The bytes of the file of this path, which a line names; none where there is none, or it can't be read.
    ///
    /// # Errors
    /// `Memory` alone, also for a file of more than 256 MiB.
    fn input(&self, alloc: Global, path: &str) -> Result<Option<Vec<u8>>, RunFault>
        ensures bytes { honest self.now → IfOk result (λ bytes. option_map (λ b. b.items) bytes ≡ holds self.now path.now) }
        ensures refused { IfErr result (λ fault. fault ≡ Memory) };

    /// The bytes of a file of this path that dagrun writes beside a DAG file; none where it is missing.
    ///
    /// # Errors
    /// `FileRefused` with the path of a file that the system refuses to read, that is no regular file, or that may be
    /// another user's; `Memory`.
    fn beside(&self, alloc: Global, path: &str) -> Result<Option<Vec<u8>>, RunFault>
        ensures bytes { honest self.now → IfOk result (λ bytes. option_map (λ b. b.items) bytes ≡ holds self.now path.now) }
        ensures named { IfErr result (IsRefusalOf path.now) }
        // A file that is refused isn't held.
        ensures unheld { honest self.now → IfErr result (IsRefusalHeld (holds self.now) path.now) };

    /// Whether the path of a file that dagrun writes beside a DAG file is there. Where the system doesn't tell, it is taken
    /// to be: what is refused is returned as it is read.
    ///
    /// # Errors
    /// `Memory` alone.
    fn is_there(&self, alloc: Global, path: &str) -> Result<bool, RunFault>
        ensures there { honest self.now → IfOk result (λ there. there ≡ has self.now path.now) }
        ensures refused { IfErr result (λ fault. fault ≡ Memory) };

    /// The highest number of a rescue file of this DAG file that is there, 0 for none.
    ///
    /// # Errors
    /// `FileRefused` with the folder that the system refuses to list; `Memory`.
    fn highest(&self, alloc: Global, top: &str) -> Result<u16, RunFault>
        ensures highest { IfOk result (λ number. number ≤ 999) }
        ensures there { honest self.now → IfOk result (IsHighestThere (has self.now) top.now) }
        ensures refused { IfErr result (IsRefusalOf (folder_name_of top.now)) };

    /// What the header of the journal of this DAG file says, and whether its last record is the end of a run; none
    /// where no journal was begun.
    ///
    /// # Errors
    /// `FileRefused` with the path of a journal that may be another user's; `InManager` with the fault of one that can't
    /// be read; `Memory`.
    fn journal(&self, alloc: Global, top: &str) -> Result<Option<Peek>, RunFault>
        ensures peek { honest self.now → IfOk result (λ peek. ReadsPeek peek (journal_in (holds self.now) top.now)) }
        ensures refused { IfErr result (IsJournalFault top.now) }
        // One that is refused isn't held, or its bytes are no journal.
        ensures refused_held { honest self.now → IfErr result (IsJournalFaultHeld (holds self.now) top.now) };
}

/// The system's files, as they are seen from a folder. That it is honest is a premise, which nothing here
/// proves: whoever calls for it must know that the system tells the bytes of files, and that nobody writes them
/// meanwhile.
#[derive(Drop)]
pub struct SystemFolder<'a, R> {
    /// The system.
    pub rt: &'a R,
    /// The folder: absolute, or empty for that of the process.
    pub seat: String,
    /// Whether `-` is standard input where the caller names it.
    pub has_input: bool,
    /// Whether root goes by files of others that stand beside a DAG file, and others by those of root.
    pub trusts_owner: bool,
}

impl<'a, R: Files + AllocGlobal> SystemFolder<'a, R> {
    /// Sees to it that the file of this path, which dagrun writes beside a DAG file, was put there by nobody else, as
    /// `Place::trusts` says it.
    ///
    /// # Errors
    /// `FileRefused` with the path of a file that may be another user's; `Memory`.
    fn goes_by(&self, path: &str) -> Result<(), RunFault>
        ensures named { IfErr result (IsRefusalOf path.now) }
    {
        let place = Place {
            folder: self.seat.as_str(),
            top: path,
        };
        place.trusts(self.rt, path, self.trusts_owner)
    }
}

impl<'a, R: Files<File = File> + Input + AllocGlobal + Copy + Drop> Folder for SystemFolder<'a, R> {
    ghost holds = { λ _ _. None };

    ghost has = { λ _ _. false };

    ghost streams = { λ folder. folder.has_input ≡ true };

    ghost honest = { λ _. ⊥ };

    fn top(&self, alloc: Global, path: &str) -> Result<Option<Vec<u8>>, RunFault> {
        if self.has_input && path == "-" {
            return Ok(Some(read_standard_input(alloc, self.rt)?));
        }
        read_named(alloc, self.rt, self.seat.as_str(), path, true)
    }

    fn input(&self, alloc: Global, path: &str) -> Result<Option<Vec<u8>>, RunFault> {
        read_named(alloc, self.rt, self.seat.as_str(), path, false)
    }

    fn beside(&self, alloc: Global, path: &str) -> Result<Option<Vec<u8>>, RunFault> {
        self.goes_by(path)?;
        read_beside(alloc, self.rt, self.seat.as_str(), path)
    }

    fn is_there(&self, alloc: Global, path: &str) -> Result<bool, RunFault> {
        let place = path_in(alloc, self.seat.as_str(), path)?;
        Ok(fs::exists(self.rt, place.as_str()).unwrap_or(true))
    }

    fn highest(&self, _alloc: Global, top: &str) -> Result<u16, RunFault> {
        let place = Place {
            folder: self.seat.as_str(),
            top,
        };
        place.highest(self.rt)
    }

    fn journal(&self, alloc: Global, top: &str) -> Result<Option<Peek>, RunFault> {
        let path = journal_path(alloc, top)?;
        self.goes_by(path.as_str())?;
        let place = Place {
            folder: self.seat.as_str(),
            top,
        };
        let mut disk = disk_at(*self.rt, &place, path.as_str())?;
        peek_on(alloc, &mut disk)
    }
}

/// A file set is a folder in memory, which is always honest.
impl Folder for FileSet {
    ghost holds = { λ set. bytes_of set };

    ghost has = { λ set path. is_some (bytes_of set path) };

    ghost streams = { λ _. ⊥ };

    ghost honest = { λ _. Unit {0} };

    fn top(&self, alloc: Global, path: &str) -> Result<Option<Vec<u8>>, RunFault> {
        copied(alloc, self.get(path))
    }

    fn input(&self, alloc: Global, path: &str) -> Result<Option<Vec<u8>>, RunFault> {
        copied(alloc, self.get(path))
    }

    fn beside(&self, alloc: Global, path: &str) -> Result<Option<Vec<u8>>, RunFault> {
        copied(alloc, self.get(path))
    }

    fn is_there(&self, _alloc: Global, path: &str) -> Result<bool, RunFault> {
        Ok(self.get(path).is_some())
    }

    fn highest(&self, alloc: Global, top: &str) -> Result<u16, RunFault> {
        let mut number = LAST_NUMBER;
        while number > 0 {
            let path = rescue_path(alloc, top, number)?;
            if self.get(path.as_str()).is_some() {
                break;
            }
            number -= 1;
        }
        Ok(number)
    }

    fn journal(&self, alloc: Global, top: &str) -> Result<Option<Peek>, RunFault> {
        let path = journal_path(alloc, top)?;
        match self.get(path.as_str()) {
            Some(bytes) => peek_in(alloc, bytes),
            None => Ok(None),
        }
    }
}

/// A copy of bytes, where there are some.
fn copied(alloc: Global, bytes: Option<&[u8]>) -> Result<Option<Vec<u8>>, RunFault>
    ensures copy { IfOk result (λ copy. option_map (λ b. b.items) copy ≡ option_map (λ b. b.now) bytes.entry) }
    ensures refused { IfErr result (λ fault. fault ≡ Memory) }
{
    match bytes {
        Some(bytes) => Ok(Some(Vec::from_slice(alloc, bytes)?)),
        None => Ok(None),
    }
}
