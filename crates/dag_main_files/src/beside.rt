//! The files beside a DAG file: its journal, its rescue files and its lock.

ghost use Rattle.std.specs.Prelude.{◌≡◌, ◌≤◌, ◌∷◌, ◌++◌, [], ℕ, List, All, Contains, map, IfOk, IfErr, OnOk, OnErr};
ghost use Rattle.rescue_file.specs.Numbered.{IsFileNumber, rescue_name_of};
ghost use Rattle.splices_flat.specs.Paths.{join};
ghost use Rattle.dag_main_check.specs.declared.fault.RunFault.TheVariants.{Memory};
ghost use Rattle.dag_main_files.specs.Beside.{journal_name_of, lock_name_of, folder_name_of, IsRefusalOf, IsRescueMoveFault, IsNameLength, HasRoomForNames, IsRoomFault};
ghost use Rattle.dag_main_files.specs.Changes.{Makes, AreHigher, locks, unlocks, syncs_names, puts_journal_away, rescue_away, puts_rescues_away};
ghost use Rattle.dag_main_files.specs.declared.changes.Change.TheVariants.{Renamed};

use crate::changes::{Change, Changes, Noted};
use crate::locking::{Lock, is_locked, lock_in_time, lock_opened};
use crate::owners::is_trusted;
use crate::rescues::numbers_above;
use dag_main_check::RunFault;
use dag_reader::Text;
use event_journal::require_regular;
use memchr::memrchr;
use rescue_file::{pick_number, rescue_name};
use splices_flat::path_in;
use std::alloc::{AllocError, Global};
use std::fs::{self, File};
use std::io::{self, ErrorKind};
use std::rt::Files;
use std::time::Clock;

/// The greatest number of a rescue file.
pub const LAST_NUMBER: u16 = 999;

/// The greatest length of a file's name in bytes, on the file systems of Linux.
const LONGEST_NAME: usize = 255;

/// A DAG file, and the folder from which its path is taken where it is relative.
#[derive(Clone, Copy)]
pub struct Place<'a> {
    /// The folder: absolute, or empty for that of the process.
    pub folder: &'a str,
    /// The path of the DAG file.
    pub top: &'a str,
}

/// What is returned for the file of this path, which the system refuses: `Memory` for lack of memory, or
/// else `FileRefused` with the path.
pub fn refused(alloc: Global, path: &str, error: &io::Error) -> RunFault
    ensures path { IsRefusalOf path.now result }
{
    if error.kind() == ErrorKind::OutOfMemory {
        return RunFault::Memory;
    }
    match String::from_str(alloc, path) {
        Ok(path) => RunFault::FileRefused(path),
        Err(_) => RunFault::Memory,
    }
}

/// The path of the journal of this DAG file: its own, and `.journal`.
pub fn journal_path(alloc: Global, top: &str) -> Result<Text, AllocError>
    ensures { IfOk result (λ name. name ≡ journal_name_of top.now) }
{
    Text::joined(alloc, top, ".journal")
}

/// The path of the file that a manager locks.
fn lock_path(alloc: Global, top: &str) -> Result<Text, AllocError>
    ensures { IfOk result (λ name. name ≡ lock_name_of top.now) }
{
    Text::joined(alloc, top, ".lock")
}

/// The path of the rescue file of this number, which is from 1 to 999: that of the DAG file,
/// `.rescue` and three digits.
///
/// # Errors
/// `Memory` alone.
pub fn rescue_path(alloc: Global, top: &str, number: u16) -> Result<Text, RunFault>
    requires { IsFileNumber number }
    ensures name { IfOk result (λ name. name ≡ rescue_name_of top.now number) }
    ensures err { IfErr result (λ fault. fault ≡ Memory) }
{
    rescue_name(alloc, top, number).map_err(|_| RunFault::Memory)
}

/// How many bytes the name of a file has by its path.
fn name_length(path: &[u8]) -> usize
    ensures { IsNameLength path.now result }
{
    match memrchr(b'/', path) {
        Some(slash) => path.len() - slash - 1,
        None => path.len(),
    }
}

/// The last part of a path.
fn base_of(path: &str) -> &str {
    match path.rsplit_once('/') {
        Some((_, base)) => base,
        None => path,
    }
}

/// The folder of a file, `.` where its path has none.
fn folder_of(path: &str) -> &str
    ensures { result.now ≡ folder_name_of path.now }
{
    match path.rfind('/') {
        Some(0) => "/",
        Some(slash) => &path[..slash],
        None => ".",
    }
}

impl<'a> Place<'a> {
    /// A path as seen from the folder.
    pub fn at(&self, alloc: Global, path: &str) -> Result<Text, AllocError>
        ensures { IfOk result (λ place. place ≡ join self.now.folder.now path.now) }
    {
        path_in(alloc, self.folder, path)
    }

    /// The names in the folder of the DAG file.
    ///
    /// # Errors
    /// `FileRefused` with the folder that the system refuses to list; `Memory`.
    fn names<R: Files + AllocGlobal + Clone + Drop>(&self, rt: &R) -> Result<Vec<Text>, RunFault>
        ensures { IfErr result (IsRefusalOf (folder_name_of self.now.top.now)) }
    {
        let alloc = rt.alloc();
        let folder = folder_of(self.top);
        let place = self.at(alloc, folder)?;
        match names_in(rt, place.as_str()) {
            Ok(names) => Ok(names),
            Err(error) => Err(refused(alloc, folder, &error)),
        }
    }

    /// The highest number of a rescue file that is there, 0 for none.
    ///
    /// # Errors
    /// `FileRefused` with the folder that the system refuses to list; `Memory`.
    pub fn highest<R: Files + AllocGlobal + Clone + Drop>(&self, rt: &R) -> Result<u16, RunFault>
        ensures highest { IfOk result (λ number. number ≤ 999) }
        ensures refused { IfErr result (IsRefusalOf (folder_name_of self.now.top.now)) }
    {
        let names = self.names(rt)?;
        Ok(pick_number(names.as_slice(), base_of(self.top)))
    }

    /// The bytes of the file of this path; none where it is missing.
    ///
    /// # Errors
    /// `FileRefused` with the path of a file that the system refuses to read, or that is no regular file;
    /// `Memory`, also for a journal of more than 513 MiB, a log of more than 512 MiB and any other file of more than 64 MiB.
    pub fn read<R: Files + AllocGlobal>(
        &self,
        rt: &R,
        path: &str,
    ) -> Result<Option<Vec<u8>>, RunFault>
        ensures { IfErr result (IsRefusalOf path.now) }
    {
        read_beside(rt.alloc(), rt, self.folder, path)
    }

    /// Locks the file beside the DAG file that is named for it, until the lock is given back or dropped or
    /// the process ends; the file is made where it is missing. Where another process has it, it is tried
    /// again for a third of a second: a child that a manager was making as it was killed holds its lock
    /// for a moment. The journal, where there is one, is locked too: a lock file that somebody removed
    /// lets nobody in.
    ///
    /// # Errors
    /// `FileRefused` with the path of the lock, where the system refuses it, it is no regular file, or
    /// another process has it or the journal; `Memory`.
    pub fn lock<R: Files<File = File> + Clock + AllocGlobal>(
        &self,
        rt: &R,
        changes: &mut Changes,
    ) -> Result<Lock, RunFault>
        ensures refused { IfErr result (IsRefusalOf (lock_name_of self.now.top.now)) }
        ensures changes { OnOk result (changes.new ≡ changes.old ++ locks self.now.top.now) }
        ensures no_change { OnErr result (changes.new ≡ changes.old) }
    {
        let alloc = rt.alloc();
        let path = lock_path(alloc, self.top)?;
        let place = self.at(alloc, path.as_str())?;
        let file = match lock_in_time(rt, place.as_str()) {
            Ok(Some(file)) => file,
            Ok(None) => return Err(self.taken(alloc)),
            Err(error) => return Err(refused(alloc, path.as_str(), &error)),
        };
        let mut lock = Lock::of(file);
        match self.lock_journal(rt, &mut lock) {
            Ok(()) => {
                changes.note(&path, Change::Locked);
                Ok(lock)
            }
            Err(fault) => {
                lock.remove_file(rt, place.as_str());
                Err(fault)
            }
        }
    }

    /// Whether a manager works on the DAG: another process has its lock. Where the system doesn't tell, none does.
    pub fn is_at_work<R: Files<File = File> + AllocGlobal>(&self, rt: &R) -> bool {
        let alloc = rt.alloc();
        match lock_path(alloc, self.top) {
            Ok(path) => match self.at(alloc, path.as_str()) {
                Ok(place) => is_locked(rt, place.as_str()),
                Err(_) => false,
            },
            Err(_) => false,
        }
    }

    /// Locks the journal, where there is one that may be read. A round that begins calls this once it has
    /// made its journal, too.
    ///
    /// # Errors
    /// `FileRefused` with the path of the lock, where another process has locked the journal; `Memory`.
    pub fn lock_journal<R: Files<File = File> + Clock + AllocGlobal>(
        &self,
        rt: &R,
        lock: &mut Lock,
    ) -> Result<(), RunFault>
        ensures { IfErr result (IsRefusalOf (lock_name_of self.now.top.now)) }
    {
        let alloc = rt.alloc();
        lock.frees_journal();
        let place = self.at(alloc, journal_path(alloc, self.top)?.as_str())?;
        let Ok(journal) = open_regular(rt, place.as_str()) else {
            return Ok(());
        };
        if !lock_opened(rt, &journal) {
            return Err(self.taken(alloc));
        }
        lock.holds(journal);
        Ok(())
    }

    /// Gives a lock back: the file that is named for it is removed while it is locked, where the name is
    /// still that of this file.
    pub fn unlock<R: Files + AllocGlobal>(&self, rt: &R, lock: Lock, changes: &mut Changes)
        ensures { changes.new ≡ changes.old ++ unlocks }
    {
        let alloc = rt.alloc();
        if let Ok(path) = lock_path(alloc, self.top) {
            if let Ok(place) = self.at(alloc, path.as_str()) {
                lock.remove_file(rt, place.as_str());
            }
        }
        changes.happened(Change::Unlocked);
    }

    /// Sees to it that the file of this path, which is beside the DAG file, was put there by nobody
    /// else: where others may put files into that folder, and it is there, it is this user's. With
    /// `trust_owner` root trusts the files of others, and others trust those of root.
    ///
    /// # Errors
    /// `FileRefused` with the path of a file that may be another user's; `Memory`.
    pub fn trusts<R: Files + AllocGlobal>(
        &self,
        rt: &R,
        path: &str,
        trust_owner: bool,
    ) -> Result<(), RunFault>
        ensures named { IfErr result (IsRefusalOf path.now) }
    {
        let alloc = rt.alloc();
        let folder = self.at(alloc, folder_of(self.top))?;
        let place = self.at(alloc, path)?;
        if is_trusted(rt, folder.as_str(), place.as_str(), trust_owner) {
            return Ok(());
        }
        match String::from_str(alloc, path) {
            Ok(path) => Err(RunFault::FileRefused(path)),
            Err(_) => Err(RunFault::Memory),
        }
    }

    /// Sees to it that the file of this path is no symbolic link, pipe, socket or device, and no larger than one that is read.
    ///
    /// # Errors
    /// `FileRefused` with the path of such a one; `Memory`, also for one that is too large, as `read` says it.
    pub fn is_regular<R: Files + AllocGlobal>(&self, rt: &R, path: &str) -> Result<(), RunFault>
        ensures named { IfErr result (IsRefusalOf path.now) }
    {
        let place = self.at(rt.alloc(), path)?;
        match require_readable(rt, place.as_str()) {
            Ok(()) => Ok(()),
            Err(error) => Err(refused(rt.alloc(), path, &error)),
        }
    }

    /// Whether the longest name that a round can need beside the DAG file, that of a rescue file that
    /// is put away, is one that a file can have.
    ///
    /// # Errors
    /// `FileRefused` with that name, where it is longer than 255 bytes; `Memory`.
    pub fn has_room_for_names(&self, alloc: Global) -> Result<(), RunFault>
        ensures room { IfOk result (λ _. HasRoomForNames self.now.top.now) }
        ensures refused { IfErr result (IsRoomFault self.now.top.now) }
    {
        let Ok(longest) = Text::joined(alloc, self.top, ".rescue999.old") else {
            return Err(RunFault::Memory);
        };
        if name_length(longest.as_str().as_bytes()) <= LONGEST_NAME {
            return Ok(());
        }
        match String::from_str(alloc, longest.as_str()) {
            Ok(name) => Err(RunFault::FileRefused(name)),
            Err(_) => Err(RunFault::Memory),
        }
    }

    /// What is returned where another manager runs the DAG: `FileRefused` with the path of the lock, or `Memory`.
    pub fn taken(&self, alloc: Global) -> RunFault
        ensures { IsRefusalOf (lock_name_of self.now.top.now) result }
    {
        let Ok(path) = lock_path(alloc, self.top) else {
            return RunFault::Memory;
        };
        match String::from_str(alloc, path.as_str()) {
            Ok(path) => RunFault::FileRefused(path),
            Err(_) => RunFault::Memory,
        }
    }

    /// Gives the file of a path another one, in place of the file that has it.
    fn rename<R: Files + AllocGlobal>(
        &self,
        rt: &R,
        path: &Text,
        new: &Text,
        changes: &mut Changes,
    ) -> Result<(), RunFault>
        ensures refused { IfErr result (IsRefusalOf path.now) }
        ensures changes { OnOk result (changes.new ≡ changes.old ++ (path.now, Renamed new.now) ∷ []) }
        ensures no_change { OnErr result (changes.new ≡ changes.old) }
    {
        let alloc = rt.alloc();
        let from = self.at(alloc, path.as_str())?;
        let to = self.at(alloc, new.as_str())?;
        match fs::rename(rt, from.as_str(), to.as_str()) {
            Ok(()) => {
                changes.note(path, Change::Renamed(Noted::name(new)));
                Ok(())
            }
            Err(error) => Err(refused(alloc, path.as_str(), &error)),
        }
    }

    /// Brings the names in the folder of the DAG file to the disk; where the system refuses it, this
    /// path is returned.
    fn sync_names<R: Files<File = File> + AllocGlobal>(
        &self,
        rt: &R,
        path: &str,
        changes: &mut Changes,
    ) -> Result<(), RunFault>
        ensures refused { IfErr result (IsRefusalOf path.now) }
        ensures changes { OnOk result (changes.new ≡ changes.old ++ syncs_names self.now.top.now) }
        ensures no_change { OnErr result (changes.new ≡ changes.old) }
    {
        let alloc = rt.alloc();
        let folder = Text::new(alloc, folder_of(self.top))?;
        let place = self.at(alloc, folder.as_str())?;
        match sync_folder(rt, place.as_str()) {
            Ok(()) => {
                changes.note(&folder, Change::Synced);
                Ok(())
            }
            Err(error) => Err(refused(alloc, path, &error)),
        }
    }

    /// Gives the journal of a finished round its other name, in place of the one that has it, and
    /// syncs the folder.
    ///
    /// # Errors
    /// `FileRefused` with the journal's path, where the system refuses either; `Memory`.
    pub fn put_journal_away<R: Files<File = File> + AllocGlobal>(
        &self,
        rt: &R,
        changes: &mut Changes,
    ) -> Result<(), RunFault>
        ensures refused { IfErr result (IsRefusalOf (journal_name_of self.now.top.now)) }
        ensures changes { Makes result (puts_journal_away self.now.top.now) changes.old changes.new }
    {
        let alloc = rt.alloc();
        let path = journal_path(alloc, self.top)?;
        let old = Text::joined(alloc, self.top, ".journal.old")?;
        self.rename(rt, &path, &old, changes)?;
        self.sync_names(rt, path.as_str(), changes)
    }

    /// Adds `.old` to the name of the rescue file of this number, from 1 to 999, in place of the file
    /// that has it.
    fn put_rescue_away<R: Files + AllocGlobal>(
        &self,
        rt: &R,
        number: u16,
        changes: &mut Changes,
    ) -> Result<(), RunFault>
        requires { IsFileNumber number }
        ensures refused { IfErr result (IsRefusalOf (rescue_name_of self.now.top.now number)) }
        ensures changes { OnOk result (changes.new ≡ changes.old ++ rescue_away self.now.top.now number ∷ []) }
        ensures no_change { OnErr result (changes.new ≡ changes.old) }
    {
        let alloc = rt.alloc();
        let path = rescue_path(alloc, self.top, number)?;
        let old = Text::joined(alloc, path.as_str(), ".old")?;
        self.rename(rt, &path, &old, changes)
    }

    /// Adds `.old` to the names of the rescue files of these numbers, in their order, each in place of the file that has that name.
    ///
    /// # Errors
    /// `FileRefused` with the path of the first file that the system refuses to rename: the later ones keep their names. `Memory`.
    fn put_each_away<R: Files + AllocGlobal>(
        &self,
        rt: &R,
        numbers: &[u16],
        changes: &mut Changes,
    ) -> Result<(), RunFault>
        requires { All IsFileNumber numbers.now }
        ensures refused { IfErr result (λ fault. (number : ℕ) × Contains numbers.now number × IsRefusalOf (rescue_name_of self.now.top.now number) fault) }
        ensures changes { Makes result (map (rescue_away self.now.top.now) numbers.now) changes.old changes.new }
    {
        for number in numbers {
            self.put_rescue_away(rt, *number, changes)?;
        }
        Ok(())
    }

    /// Adds `.old` to the names of the rescue files with higher numbers than this one, the highest
    /// first, each in place of the file that has that name, and syncs the folder.
    ///
    /// # Errors
    /// `FileRefused` with the folder where the system refuses to list or to sync it, or with the path of
    /// the first file that it refuses to rename: those with lower numbers keep their names. `Memory`.
    pub fn put_rescues_away<R: Files<File = File> + AllocGlobal + Clone + Drop>(
        &self,
        rt: &R,
        from: u16,
        changes: &mut Changes,
    ) -> Result<(), RunFault>
        ensures refused { IfErr result (IsRescueMoveFault self.now.top.now from) }
        ensures changes { (numbers : List ℕ) × AreHigher from numbers × Makes result (puts_rescues_away self.now.top.now numbers) changes.old changes.new }
    {
        let names = self.names(rt)?;
        let numbers = numbers_above(rt.alloc(), names.as_slice(), base_of(self.top), from)?;
        self.put_each_away(rt, &numbers, changes)?;
        self.sync_names(rt, folder_of(self.top), changes)
    }
}

/// The bytes of a file of this path, as seen from a folder; none where it is missing.
///
/// # Errors
/// Those of `Place::read`.
pub(crate) fn read_beside<R: Files + AllocGlobal>(
    alloc: Global,
    rt: &R,
    seat: &str,
    path: &str,
) -> Result<Option<Vec<u8>>, RunFault>
    ensures named { IfErr result (IsRefusalOf path.now) }
{
    let place = path_in(alloc, seat, path)?;
    match read_regular(rt, place.as_str()) {
        Ok(bytes) => Ok(Some(bytes)),
        Err(error) if error.kind() == ErrorKind::NotFound => Ok(None),
        Err(error) => Err(refused(alloc, path, &error)),
    }
}

/// Opens a regular file. A pipe would keep whoever opens it waiting.
fn open_regular<R: Files<File = File>>(rt: &R, path: &str) -> io::Result<File> {
    require_regular(rt, path)?;
    File::open(rt, path)
}

/// The greatest size of a journal in bytes, 513 MiB: dagrun writes at most 2^24 slots of 32 bytes, after a header.
const MOST_OF_JOURNAL: u64 = (1 << 29) + (1 << 20);

/// The greatest size of a log in bytes, 512 MiB.
const MOST_OF_LOG: u64 = 1 << 29;

/// The greatest size of any other file beside a DAG file that is read whole, 64 MiB.
const MOST_OF_OTHERS: u64 = 1 << 26;

/// The greatest size of the file of this path.
fn most_bytes(path: &str) -> u64 {
    if path.ends_with(".journal") || path.ends_with(".journal.old") {
        MOST_OF_JOURNAL
    } else if path.ends_with(".log") || path.ends_with(".log.old") {
        MOST_OF_LOG
    } else {
        MOST_OF_OTHERS
    }
}

/// Sees to it that the file of this path is a regular one, or missing, and not too large: such a one is answered as if there were
/// no memory for it.
fn require_readable<R: Files>(rt: &R, path: &str) -> io::Result<()> {
    require_regular(rt, path)?;
    match fs::metadata(rt, path) {
        Ok(found) if found.len() > most_bytes(path) => {
            Err(io::Error::from(ErrorKind::OutOfMemory))
        }
        _ => Ok(()),
    }
}

/// The bytes of a regular file. One that is too large is answered as if there were no memory for it.
fn read_regular<R: Files + AllocGlobal>(rt: &R, path: &str) -> io::Result<Vec<u8>> {
    require_readable(rt, path)?;
    fs::read(rt, path)
}

/// Brings the names in a folder to the disk.
fn sync_folder<R: Files<File = File>>(rt: &R, folder: &str) -> io::Result<()> {
    File::open(rt, folder)?.sync_all()
}

/// The names in a folder, those apart that are no text.
fn names_in<R: Files + AllocGlobal + Clone + Drop>(rt: &R, folder: &str) -> io::Result<Vec<Text>> {
    let alloc = rt.alloc();
    let mut names = Vec::new(alloc);
    for entry in fs::read_dir(rt, folder)? {
        match entry {
            Ok(entry) => names.push(Text::new(alloc, entry.file_name())?)?,
            Err(error) if error.kind() == ErrorKind::InvalidFilename => {}
            Err(error) => return Err(error),
        }
    }
    Ok(names)
}
