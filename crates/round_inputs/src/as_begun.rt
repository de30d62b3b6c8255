//! The files of a folder as a round saw them when it began.

ghost use Rattle.std.specs.Prelude.{◌≡◌, ◌≢◌, ◌≤◌, ◌↔◌, true, false, None, Some, nat_eq, IsTrue, IfOk, IfErr, IfSome, IfNone, length, string_bytes};
ghost use Rattle.std.specs.List.{starts_with};
ghost use Rattle.std.specs.Option.{option_map};
ghost use Rattle.splices_flat.specs.FileSet.{entries_of};
ghost use Rattle.dag_main_check.specs.declared.fault.RunFault.TheVariants.{Memory};
ghost use Rattle.round_inputs.specs.Begun.{begun_head, begun_text_of, rescue_kept};
ghost use Rattle.round_inputs.specs.AsBegun.{kept_at, kept_in, as_begun, digest_at, HasNoHeader, IsBegunRound, IsFileOf, IsNotOf, IsNotKnown, cause_of, IsSeenBy, IsNotSeenBy, IsNotBegun};
ghost use Rattle.round_inputs.specs.declared.as_begun.NotKnown.TheVariants.{Refused};

use crate::begun::{Begun, begun_in, push_begun_head};
use crate::fault::BadBytes;
use crate::listing::begun_path;
use dag_main_check::RunFault;
use dag_main_files::{Folder, journal_path, peek_in};
use dag_reader::Text;
use event_journal_log::{JournalFault, Peek};
use recovery_manager::ManagerFault;
use std::alloc::{AllocError, Global};

/// By which files a round is shown.
#[derive(Clone, Copy, Debug, PartialEq, Eq)]
pub enum ByFiles {
    /// By the files as they are.
    AsTheyAre,
    /// By those with which it began, where they are kept, else by the files as they are.
    AsKept,
    /// By those with which it began.
    AsItBegan,
}

/// A folder as a round saw it when it began: the files with which the round was begun are found as they were then, and all
/// others as they are.
#[derive(Drop)]
pub struct AsBegun<'a, F> {
    /// The folder.
    pub folder: &'a F,
    /// What the round was begun with; none where all files are found as they are.
    pub begun: Option<Begun>,
}

impl Begun {
    /// The bytes of the file of this path that is kept.
    fn kept(&self, path: &str) -> Option<&[u8]>
        ensures { option_map (λ b. b.now) result ≡ kept_at self.now path.now }
    {
        if let Some(bytes) = self.files.get(path) {
            return Some(bytes);
        }
        match self.rescue_file() {
            Some((name, bytes)) if name == path => Some(bytes),
            _ => None,
        }
    }
}

impl<'a, F> AsBegun<'a, F> {
    /// The bytes of the file of this path that is kept.
    fn kept(&self, path: &str) -> Option<&[u8]>
        ensures { option_map (λ b. b.now) result ≡ kept_in self.now.begun path.now }
    {
        match &self.begun {
            Some(begun) => begun.kept(path),
            None => None,
        }
    }
}

/// A copy of these bytes.
fn copied(alloc: Global, bytes: &[u8]) -> Result<Option<Vec<u8>>, RunFault>
    ensures copied { IfOk result (λ copy. option_map (λ b. b.items) copy ≡ Some bytes.now) }
    ensures refused { IfErr result (λ fault. fault ≡ Memory) }
{
    Ok(Some(Vec::from_slice(alloc, bytes)?))
}

impl<'a, F: Folder> Folder for AsBegun<'a, F> {
    ghost holds = { λ seen. as_begun seen.begun (F.holds seen.folder.now) };

    ghost has = { λ seen. F.has seen.folder.now };

    ghost streams = { λ seen. F.streams seen.folder.now };

    ghost honest = { λ seen. F.honest seen.folder.now };

    fn top(&self, alloc: Global, path: &str) -> Result<Option<Vec<u8>>, RunFault> {
        match self.kept(path) {
            Some(bytes) => copied(alloc, bytes),
            None => self.folder.top(alloc, path),
        }
    }

    fn input(&self, alloc: Global, path: &str) -> Result<Option<Vec<u8>>, RunFault> {
        match self.kept(path) {
            Some(bytes) => copied(alloc, bytes),
            None => self.folder.input(alloc, path),
        }
    }

    fn beside(&self, alloc: Global, path: &str) -> Result<Option<Vec<u8>>, RunFault> {
        match self.kept(path) {
            Some(bytes) => copied(alloc, bytes),
            None => self.folder.beside(alloc, path),
        }
    }

    fn is_there(&self, alloc: Global, path: &str) -> Result<bool, RunFault> {
        self.folder.is_there(alloc, path)
    }

    fn highest(&self, alloc: Global, top: &str) -> Result<u16, RunFault> {
        self.folder.highest(alloc, top)
    }

    fn journal(&self, alloc: Global, top: &str) -> Result<Option<Peek>, RunFault> {
        let path = journal_path(alloc, top)?;
        match self.kept(path.as_str()) {
            Some(bytes) => peek_in(alloc, bytes),
            None => self.folder.journal(alloc, top),
        }
    }
}

/// Why it is not known what the last round of a DAG file was begun with.
#[derive(Drop)]
enum NotKnown {
    /// Nothing is kept of it, and the fault by which that is refused.
    NothingKept(RunFault),
    /// What is kept is refused.
    Refused(RunFault),
}

impl From<RunFault> for NotKnown {
    ghost from_gives = { λ fault known. known ≡ Refused fault };

    fn from(fault: RunFault) -> NotKnown {
        NotKnown::Refused(fault)
    }
}

impl From<AllocError> for NotKnown {
    ghost from_gives = { λ _ known. known ≡ Refused Memory };

    fn from(_e: AllocError) -> NotKnown {
        NotKnown::Refused(RunFault::Memory)
    }
}

/// What is returned for the file of this path, by which nothing can be gone.
fn refused(alloc: Global, path: &Text) -> Result<RunFault, AllocError>
    ensures { IfOk result (IsFileOf path.now) }
{
    Ok(RunFault::FileRefused(String::from_str(alloc, path.as_str())?))
}

/// The bytes of the file of this path that dagrun writes beside a DAG file; none where none can be read.
fn readable<F: Folder>(alloc: Global, folder: &F, path: &Text) -> Result<Option<Vec<u8>>, RunFault>
    ensures held { F.honest folder.now → IfOk result (λ bytes. option_map (λ b. b.items) bytes ≡ F.holds folder.now path.now) }
    ensures refused { IfErr result (λ fault. fault ≡ Memory) }
{
    match folder.beside(alloc, path.as_str()) {
        Ok(bytes) => Ok(bytes),
        Err(RunFault::FileRefused(_)) => Ok(None),
        Err(_) => Err(RunFault::Memory),
    }
}

/// Whether this is the digest in the header of a journal.
fn is_of(journal: &[u8], digest: &[u8; 32]) -> bool
    requires { 40 ≤ length journal.now }
    ensures { IsTrue result ↔ (digest.now ≡ digest_at journal.now) }
{
    digest[..] == journal[8..40]
}

/// Whether these bytes begin as the file does that keeps the round of this journal.
fn begins_as_kept(alloc: Global, journal: &[u8], bytes: &[u8]) -> Result<bool, AllocError>
    requires { 40 ≤ length journal.now }
    ensures { IfOk result (λ begins. begins ≡ starts_with nat_eq bytes.now (begun_head (digest_at journal.now))) }
{
    let mut digest = [0; 32];
    digest.copy_from_slice(&journal[8..40]);
    let mut head = Vec::new(alloc);
    push_begun_head(alloc, &mut head, &digest)?;
    Ok(bytes.starts_with(head.as_slice()))
}

/// The bytes of the journal of a DAG file, where it has a header.
fn journal_beside<F: Folder>(
    alloc: Global,
    folder: &F,
    path: &Text,
) -> Result<Option<Vec<u8>>, RunFault>
    ensures header { IfOk result (λ journal. IfSome journal (λ journal. 40 ≤ length journal.items)) }
    ensures held { F.honest folder.now → IfOk result (λ journal. IfSome journal (λ journal. F.holds folder.now path.now ≡ Some journal.items)) }
    ensures none { F.honest folder.now → IfOk result (λ journal. IfNone journal (HasNoHeader (F.holds folder.now path.now))) }
    ensures refused { IfErr result (λ fault. fault ≡ Memory) }
{
    let Some(journal) = readable(alloc, folder, path)? else {
        return Ok(None);
    };
    if journal.len() < 40 {
        return Ok(None);
    }
    Ok(Some(journal))
}

/// What the round of this journal was begun with, as the bytes of this path say, which are those of the file that keeps it.
fn begun_of(alloc: Global, path: &Text, journal: &[u8], bytes: &[u8]) -> Result<Begun, NotKnown>
    requires { 40 ≤ length journal.now }
    ensures spelled { IfOk result (λ begun. begun_text_of begun.digest (entries_of begun.files) (rescue_kept begun.rescue) ≡ bytes.now) }
    ensures same { IfOk result (λ begun. begun.digest ≡ digest_at journal.now) }
    ensures not { IfErr result (IsNotOf path.now journal.now bytes.now) }
{
    match begun_in(alloc, bytes) {
        Ok(begun) => {
            if is_of(journal, &begun.digest) {
                return Ok(begun);
            }
            let other = ManagerFault::Journal(JournalFault::OtherInputs);
            Err(NotKnown::NothingKept(RunFault::InManager(other)))
        }
        Err(BadBytes::NotSpelled) => {
            let fault = refused(alloc, path)?;
            if begins_as_kept(alloc, journal, bytes)? {
                return Err(NotKnown::Refused(fault));
            }
            Err(NotKnown::NothingKept(fault))
        }
        Err(BadBytes::Memory) => Err(NotKnown::Refused(RunFault::Memory)),
    }
}

/// What the last round of a DAG file was begun with, as the file beside it says.
fn last_begun<F: Folder>(alloc: Global, folder: &F, top: &str) -> Result<Begun, NotKnown>
    ensures held { F.honest folder.now → IfOk result (IsBegunRound (F.holds folder.now) top.now) }
    ensures not_held { F.honest folder.now → IfErr result (IsNotKnown (F.holds folder.now) top.now) }
    ensures refused { IfErr result (λ why. IsNotBegun top.now (cause_of why)) }
{
    let path = journal_path(alloc, top)?;
    let Some(journal) = journal_beside(alloc, folder, &path)? else {
        return Err(NotKnown::NothingKept(refused(alloc, &path)?));
    };
    let path = begun_path(alloc, top)?;
    let Some(bytes) = readable(alloc, folder, &path)? else {
        return Err(NotKnown::NothingKept(refused(alloc, &path)?));
    };
    begun_of(alloc, &path, &journal, &bytes)
}

/// A folder as the last round of the DAG file of this path is to be shown: by the files as they are, or by those with which it
/// began, by the file beside it that keeps them.
///
/// # Errors
/// Where it is to be shown as it began: `FileRefused` with the path of the journal or of that file, where none can be read; J5
/// (`OtherInputs`) where it keeps another round. Where it is to be shown so only if it is kept, these show the files as they are.
/// In both cases `FileRefused` with the path of that file where it is this round's and not as it was written; `Memory`.
pub fn seen_by<'a, F: Folder>(
    alloc: Global,
    folder: &'a F,
    top: &str,
    by: ByFiles,
) -> Result<AsBegun<'a, F>, RunFault>
    ensures folder { IfOk result (λ seen. seen.folder.now ≡ folder.now) }
    ensures held { F.honest folder.now → IfOk result (λ seen. IsSeenBy (F.holds folder.now) top.now by seen.begun) }
    ensures refused { IfErr result (IsNotBegun top.now) }
    ensures other { IfErr result (λ fault. by ≢ ByFiles.AsTheyAre) }
    ensures refused_held { F.honest folder.now → IfErr result (IsNotSeenBy (F.holds folder.now) top.now by) }
{
    match by {
        ByFiles::AsTheyAre => Ok(AsBegun {
            folder,
            begun: None,
        }),
        ByFiles::AsKept => match last_begun(alloc, folder, top) {
            Ok(kept) => Ok(AsBegun {
                folder,
                begun: Some(kept),
            }),
            Err(NotKnown::NothingKept(_fault)) => Ok(AsBegun {
                folder,
                begun: None,
            }),
            Err(NotKnown::Refused(fault)) => Err(fault),
        },
        ByFiles::AsItBegan => match last_begun(alloc, folder, top) {
            Ok(begun) => Ok(AsBegun {
                folder,
                begun: Some(begun),
            }),
            Err(NotKnown::NothingKept(fault)) => Err(fault),
            Err(NotKnown::Refused(fault)) => Err(fault),
        },
    }
}
