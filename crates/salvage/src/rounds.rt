//! Rounds that may be salvaged, and what they were begun with.

ghost use Rattle.std.specs.Prelude.{◌≡◌, ◌≤◌, ◌↔◌, Some, All, IsTrue, IfOk, IfErr, OnOk, is_some, length, slice_range, option_map};
ghost use Rattle.splices_flat.specs.FileSet.{entries_of};
ghost use Rattle.event_journal_log.specs.Image.{IsRescueNumber};
ghost use Rattle.salvage.specs.Round.{is_passed_over, IsRoundLeft, sum_in, IsSame, IsSameRescue};
ghost use Rattle.dag_main_files.specs.Beside.{journal_name_of};
ghost use Rattle.dag_main_files.specs.Folder as held;
ghost use Rattle.round_inputs.specs.Inputs.{inputs_name_of, inputs_text_of};
ghost use Rattle.salvage.specs.Refused.{IsNoNumber, IsNotLeft, IsNoRound, IsNoInputs};
ghost use Rattle.salvage.specs.Others.{IsOtherFile, IsFirstOther, IsOtherRescue, IsOther};
ghost use Rattle.salvage.specs.Sight.{held_files_if};

use crate::fault::SalvageFault;
use dag_main_check::RunFault;
use dag_main_files::{Folder, LAST_NUMBER, journal_path, peek_in, rescue_path};
use dag_reader::Text;
use event_journal_log::Peek;
use round_inputs::{BadBytes, Inputs, inputs_in, inputs_path};
use sha2::{Digest, Sha256};
use splices_flat::FileSet;
use std::alloc::Global;

/// A round that may be salvaged, as its journal says.
#[derive(Drop)]
pub(crate) struct RoundLeft {
    /// The bytes of the journal.
    pub journal: Vec<u8>,
    /// Whether it has ended; else it was cut short.
    pub ended: bool,
    /// The digest of its plan.
    pub digest: [u8; 32],
    /// The number of the rescue file that it read, 0 for none.
    pub used: u16,
    /// The number of the rescue file that it would have written.
    pub next: u16,
    /// Whether POST scripts run after PRE scripts that failed, too.
    pub always_post: bool,
}

/// The digest in the header of a journal; zeros where the bytes have no header.
pub(crate) fn digest_in(journal: &[u8]) -> [u8; 32]
    ensures { 40 ≤ length journal.now → result ≡ slice_range journal.now 8 40 }
{
    let mut digest = [0; 32];
    if journal.len() < 40 {
        return digest;
    }
    digest.copy_from_slice(&journal[8..40]);
    digest
}

/// The numbers of the rescue files that a header has, that of the file which was read first.
///
/// # Errors
/// `NotThere` with the first that no rescue file has.
fn numbers_in(peek: &Peek) -> Result<(u16, u16), RunFault>
    ensures numbers { IfOk result (λ numbers. (numbers.0 ≤ 999) × IsRescueNumber numbers.1
        × (numbers.0 ≡ peek.now.used) × (numbers.1 ≡ peek.now.next)) }
    ensures refused { IfErr result (IsNoNumber peek.now.used peek.now.next) }
{
    if peek.used > LAST_NUMBER {
        return Err(RunFault::NotThere(peek.used));
    }
    if peek.next < 1 || peek.next > LAST_NUMBER {
        return Err(RunFault::NotThere(peek.next));
    }
    Ok((peek.used, peek.next))
}

/// Whether a round is passed over: it has ended, and those that have ended are not taken, too.
fn is_passed_over(too: bool, ended: bool) -> bool
    ensures { result ≡ is_passed_over too ended }
{
    ended && !too
}

/// The round of a journal of this path that has these bytes; those that have ended are taken too, or not.
///
/// # Errors
/// A journal that can't be read (`Refused`), one that was not begun (`NoJournal`), one of a round that has
/// ended, where such a round is not taken (`Ended`), and a number in its header that no rescue file has (`Refused`).
fn round_in(
    alloc: Global,
    name: Text,
    journal: Vec<u8>,
    too: bool,
) -> Result<RoundLeft, SalvageFault>
    ensures left { IfOk result (λ round. IsRoundLeft too round.ended round.journal.items round.digest round.used round.next round.always_post) }
    ensures kept { IfOk result (λ round. round.journal.items ≡ journal.items) }
    ensures refused { IfErr result (IsNotLeft too name journal.items) }
{
    let Some(peek) = peek_in(alloc, journal.as_slice())? else {
        return Err(SalvageFault::NoJournal(name));
    };
    if is_passed_over(too, peek.finished) {
        return Err(SalvageFault::Ended(name));
    }
    let (used, next) = numbers_in(&peek)?;
    Ok(RoundLeft {
        digest: digest_in(journal.as_slice()),
        journal,
        ended: peek.finished,
        used,
        next,
        always_post: peek.always_post,
    })
}

/// The last round of a DAG file, which was cut short, or has ended where such a round is taken, too.
///
/// # Errors
/// `NoJournal`, a journal that the system refuses to read, and then as `round_in`.
pub(crate) fn round_left<F: Folder>(
    alloc: Global,
    folder: &F,
    top: &str,
    too: bool,
) -> Result<RoundLeft, SalvageFault>
    ensures left { IfOk result (λ round. IsRoundLeft too round.ended round.journal.items round.digest round.used round.next round.always_post) }
    // Its journal is the one that the folder holds.
    ensures held { F.honest folder.now → IfOk result (λ round.
        F.holds folder.now (journal_name_of top.now) ≡ Some round.journal.items) }
    ensures refused { IfErr result (IsNoRound too (held_files_if (F.honest folder.now) (F.holds folder.now) (F.has folder.now) top.now) top.now) }
{
    let name = journal_path(alloc, top)?;
    match folder.beside(alloc, name.as_str())? {
        Some(journal) => round_in(alloc, name, journal, too),
        None => Err(SalvageFault::NoJournal(name)),
    }
}

/// Whether this is the digest of what a round was begun with.
fn has_digest(inputs: &Inputs, digest: &[u8; 32]) -> bool
    ensures { IsTrue result ↔ (inputs.now.digest ≡ digest.now) }
{
    inputs.digest[..] == digest[..]
}

/// What a round was begun with that has this digest.
///
/// # Errors
/// `NoInputs`, `BadInputs`, and `OtherRound` where another digest is there; a file that the system
/// refuses to read.
pub(crate) fn inputs_with<F: Folder>(
    alloc: Global,
    folder: &F,
    top: &str,
    digest: &[u8; 32],
) -> Result<Inputs, SalvageFault>
    ensures inputs { IfOk result (λ inputs. inputs.digest ≡ digest.now) }
    // The file that the folder holds spells them.
    ensures held { F.honest folder.now → IfOk result (λ inputs.
        F.holds folder.now (inputs_name_of top.now) ≡ Some (inputs_text_of inputs.digest inputs.files.items)) }
    ensures refused { IfErr result (IsNoInputs (held_files_if (F.honest folder.now) (F.holds folder.now) (F.has folder.now) top.now) top.now digest.now) }
{
    let name = inputs_path(alloc, top)?;
    let Some(bytes) = folder.beside(alloc, name.as_str())? else {
        return Err(SalvageFault::NoInputs(name));
    };
    let inputs = match inputs_in(alloc, bytes.as_slice()) {
        Ok(inputs) => inputs,
        Err(BadBytes::NotSpelled) => return Err(SalvageFault::BadInputs(name)),
        Err(BadBytes::Memory) => return Err(SalvageFault::Refused(RunFault::Memory)),
    };
    if !has_digest(&inputs, digest) {
        return Err(SalvageFault::OtherRound(name));
    }
    Ok(inputs)
}

/// Compares a file with what the round was begun with.
///
/// # Errors
/// `NotListed` where it is none of the round's files, `Changed` where it has another sum; `Memory`.
fn check_file(alloc: Global, inputs: &Inputs, path: &str, bytes: &[u8]) -> Result<(), SalvageFault>
    ensures same { OnOk result (IsSame inputs.now.files.items (path.now, bytes.now)) }
    ensures refused { IfErr result (IsOtherFile inputs.now.files.items (path.now, bytes.now)) }
{
    match inputs.sum_of(path) {
        None => Err(SalvageFault::NotListed(Text::new(alloc, path)?)),
        Some(sum) if sum != Sha256::digest(bytes) => {
            Err(SalvageFault::Changed(Text::new(alloc, path)?))
        }
        Some(_) => Ok(()),
    }
}

/// Compares the files of a set, in the order of their paths.
///
/// # Errors
/// As `check_file`, for the first of them.
fn check_files(alloc: Global, inputs: &Inputs, files: &FileSet) -> Result<(), SalvageFault>
    ensures same { OnOk result (All (IsSame inputs.now.files.items) (entries_of files.now)) }
    ensures refused { IfErr result (IsFirstOther inputs.now.files.items (entries_of files.now)) }
{
    for (path, bytes) in files.iter() {
        check_file(alloc, inputs, path.as_str(), bytes.as_slice())?;
    }
    Ok(())
}

/// Whether the file of this path is one of those that the round was begun with.
fn has_file(inputs: &Inputs, path: &Text) -> bool
    ensures { result ≡ is_some (sum_in inputs.now.files.items path.now) }
{
    inputs.sum_of(path.as_str()).is_some()
}

/// The bytes of the rescue file that the round read: none where it read none.
///
/// # Errors
/// As `check_file`; `Changed` where the file that it read is missing; a file that the system refuses to
/// read.
fn rescue_in<F: Folder>(
    alloc: Global,
    folder: &F,
    top: &str,
    inputs: &Inputs,
    used: u16,
) -> Result<Option<Vec<u8>>, SalvageFault>
    requires { used ≤ 999 }
    ensures same { IfOk result (λ bytes. IsSameRescue inputs.now.files.items top.now used
        (option_map (λ b. b.items) bytes)) }
    // It is the one that the folder holds.
    ensures held { F.honest folder.now → IfOk result (λ bytes.
        option_map (λ b. b.items) bytes ≡ held.rescue_in (F.holds folder.now) top.now used) }
    ensures refused { IfErr result (IsOtherRescue (held_files_if (F.honest folder.now) (F.holds folder.now) (F.has folder.now) top.now)
        inputs.now.files.items top.now used) }
{
    if used == 0 {
        return Ok(None);
    }
    let path = rescue_path(alloc, top, used)?;
    match folder.beside(alloc, path.as_str())? {
        Some(bytes) => {
            check_file(alloc, inputs, path.as_str(), bytes.as_slice())?;
            Ok(Some(bytes))
        }
        None if has_file(inputs, &path) => Err(SalvageFault::Changed(path)),
        None => Ok(None),
    }
}

/// The bytes of the rescue file that a round read, none where it read none, where the DAG files and it are those
/// that the round was begun with.
///
/// # Errors
/// As `check_files`, and then as `rescue_in`.
pub(crate) fn rescue_as_it_was<F: Folder>(
    alloc: Global,
    folder: &F,
    top: &str,
    inputs: &Inputs,
    files: &FileSet,
    used: u16,
) -> Result<Option<Vec<u8>>, SalvageFault>
    requires { used ≤ 999 }
    ensures files { IfOk result (λ bytes. All (IsSame inputs.now.files.items) (entries_of files.now)) }
    ensures same { IfOk result (λ bytes. IsSameRescue inputs.now.files.items top.now used
        (option_map (λ b. b.items) bytes)) }
    // It is the one that the folder holds.
    ensures held { F.honest folder.now → IfOk result (λ bytes.
        option_map (λ b. b.items) bytes ≡ held.rescue_in (F.holds folder.now) top.now used) }
    ensures refused { IfErr result (IsOther (held_files_if (F.honest folder.now) (F.holds folder.now) (F.has folder.now) top.now)
        inputs.now.files.items top.now used files.now) }
{
    check_files(alloc, inputs, files)?;
    rescue_in(alloc, folder, top, inputs, used)
}
