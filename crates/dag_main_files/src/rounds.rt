//! Which round of a DAG a run is: what its journal and its rescue files say.

ghost use Rattle.std.specs.Prelude.{ℕ, List, ◌≡◌, ◌≤◌, Bool, true, false, None, Some, IfOk, IfErr, option_map, if◌then◌else◌};
ghost use Rattle.event_journal_log.specs.Image.{IsRescueNumber};
ghost use Rattle.event_journal.specs.Files.{file_path};
ghost use Rattle.splices_flat.specs.Paths.{join};
ghost use Rattle.rescue_file.specs.Numbered.{IsFileNumber, rescue_name_of};
ghost use Rattle.dag_main_check.specs.Planned.{in_line, named_by};
ghost use Rattle.dag_main_check.specs.declared.fault.RunFault.TheVariants.{Memory};
ghost use Rattle.dag_main_files.specs.Beside.{IsRoundFault, IsRoundBy, GoesOnBy, IsRescueOf, IsRescueReadFault, number_behind, journal_name_of};
ghost use Rattle.dag_main_files.specs.Folder.{IsRoundFrom, rescue_in, IsBadHeader, IsRoundFaultHeld, IsRescueReadFaultHeld};

use crate::beside::{LAST_NUMBER, Place, journal_path, rescue_path};
use crate::folder::Folder;
use dag_main_check::RunFault;
use dag_reader::Text;
use event_journal::FileDisk;
use event_journal_log::Peek;
use rescue_file::RescueFault;
use run_plan::PlanFault;
use std::alloc::Global;
use std::fs::File;
use std::rt::Files;

/// What is done with the journal of a DAG.
#[derive(Clone, Copy, Debug, PartialEq, Eq)]
pub enum Journaled {
    /// There is none: one is made.
    Nothing,
    /// The one that is there is of a finished run: it is put away, and one is made.
    Finished,
    /// The run goes on.
    Unfinished,
}

/// A round of a DAG.
#[derive(Clone, Copy, Debug, PartialEq, Eq)]
pub struct Round {
    /// What is done with the journal.
    pub journal: Journaled,
    /// The number of the rescue file that is read, 0 for none.
    pub used: u16,
    /// The number of the rescue file that is written where one is needed.
    pub next: u16,
    /// Whether it goes back to an earlier round: the rescue file is read that is asked for, and those
    /// of higher numbers are put away first.
    pub goes_back: bool,
    /// Whether POST scripts run after PRE scripts that failed, too.
    pub always_post: bool,
}

/// The number after the highest; 999 is written again.
fn number_after(highest: u16) -> u16
    ensures number { IsRescueNumber result }
    ensures behind { result ≡ number_behind highest }
{
    if highest < LAST_NUMBER {
        highest + 1
    } else {
        LAST_NUMBER
    }
}

/// The number of the rescue file that a new round reads, 0 for none.
fn number_read(autorescue: bool, highest: u16) -> u16
    ensures { result ≡ (if autorescue then highest else 0) }
{
    if autorescue { highest } else { 0 }
}

/// The disk of the file of this path. Nothing is opened yet.
///
/// # Errors
/// `Memory` alone.
pub(crate) fn disk_at<R: Files<File = File> + AllocGlobal + Copy + Drop>(
    rt: R,
    place: &Place<'_>,
    path: &str,
) -> Result<FileDisk<R>, RunFault>
    ensures { IfErr result (λ fault. fault ≡ Memory) }
{
    let alloc = rt.alloc();
    let at = place.at(alloc, path)?;
    Ok(FileDisk::at(rt, String::from_str(alloc, at.as_str())?))
}

/// The disk of the journal, for the manager that holds the lock. Nothing is opened yet.
///
/// # Errors
/// `Memory` alone.
pub fn journal_disk<R: Files<File = File> + AllocGlobal + Copy + Drop>(
    rt: R,
    place: &Place<'_>,
) -> Result<FileDisk<R>, RunFault>
    ensures path { IfOk result (λ disk. file_path disk ≡ join place.now.folder.now (journal_name_of place.now.top.now)) }
    ensures refused { IfErr result (λ fault. fault ≡ Memory) }
{
    let alloc = rt.alloc();
    let path = journal_path(alloc, place.top)?;
    let at = place.at(alloc, path.as_str())?;
    Ok(FileDisk::renewed(rt, String::from_str(alloc, at.as_str())?))
}

/// The disk of the rescue file of this number, from 1 to 999, which is written beside it, under its name
/// with `.new` after it, and named once it is whole. Nothing is opened yet.
///
/// # Errors
/// `Memory` alone.
pub fn rescue_disk<R: Files<File = File> + AllocGlobal + Copy + Drop>(
    rt: R,
    place: &Place<'_>,
    number: u16,
) -> Result<FileDisk<R>, RunFault>
    requires { IsFileNumber number }
    ensures path { IfOk result (λ disk. file_path disk ≡ join place.now.folder.now (rescue_name_of place.now.top.now number)) }
    ensures refused { IfErr result (λ fault. fault ≡ Memory) }
{
    let alloc = rt.alloc();
    let path = rescue_path(alloc, place.top, number)?;
    let draft = Text::joined(alloc, path.as_str(), ".new")?;
    let path = place.at(alloc, path.as_str())?;
    let draft = place.at(alloc, draft.as_str())?;
    let path = String::from_str(alloc, path.as_str())?;
    let draft = String::from_str(alloc, draft.as_str())?;
    Ok(FileDisk::drafted(rt, path, draft))
}

/// The round that the journal and the rescue files that are there make of a run. Where a number is
/// given, a new round goes back to the rescue file of that number, whatever `autorescue` says. A new
/// round runs POST scripts as `always_post` says; one that goes on, as the journal's header does.
///
/// # Errors
/// In this order: `NotThere` with the number that is given, where it is 0 or above 999 or its file is
/// missing; a journal that may be another user's, or that can't be read; `Unfinished`, where a number is
/// given and the journal's run has not ended; else a number in the header of such a journal that no rescue file has, that of the
/// file read first; a folder that can't be listed.
pub fn round_of<F: Folder>(
    alloc: Global,
    folder: &F,
    top: &str,
    autorescue: bool,
    from: Option<u16>,
    always_post: bool,
) -> Result<Round, RunFault>
    // It is the one that is found by the journal and the rescue files that the folder holds.
    ensures held { F.honest folder.now → IfOk result
        (IsRoundFrom (F.holds folder.now) (F.has folder.now) top.now autorescue from always_post) }
    ensures numbers { IfOk result (λ round. IsRescueNumber round.next × (round.used ≤ 999)) }
    ensures back { IfOk result (λ round. round.goes_back ≡ true → IsFileNumber round.used) }
    ensures by { IfOk result (IsRoundBy autorescue from always_post) }
    ensures refused { IfErr result (IsRoundFault top.now from) }
    // The refusal too is for what the folder holds.
    ensures refused_held { F.honest folder.now → IfErr result (IsRoundFaultHeld (F.holds folder.now) (F.has folder.now) top.now from) }
{
    match from {
        Some(number) => {
            if number == 0 || number > LAST_NUMBER {
                return Err(RunFault::NotThere(number));
            }
            round_behind(alloc, folder, top, number, always_post)
        }
        None => next_round(alloc, folder, top, autorescue, always_post),
    }
}

/// The round that comes next.
///
/// # Errors
/// In this order: a journal that may be another user's, or that can't be read; a number in the header of an unfinished one that no rescue file has,
/// that of the file read first; a folder that can't be listed.
fn next_round<F: Folder>(
    alloc: Global,
    folder: &F,
    top: &str,
    autorescue: bool,
    always_post: bool,
) -> Result<Round, RunFault>
    ensures held { F.honest folder.now → IfOk result
        (IsRoundFrom (F.holds folder.now) (F.has folder.now) top.now autorescue None always_post) }
    ensures numbers { IfOk result (λ round. IsRescueNumber round.next × (round.used ≤ 999)) }
    ensures back { IfOk result (λ round. round.goes_back ≡ true → IsFileNumber round.used) }
    ensures by { IfOk result (IsRoundBy autorescue None always_post) }
    ensures refused { IfErr result (IsRoundFault top.now None) }
    ensures refused_held { F.honest folder.now → IfErr result (IsRoundFaultHeld (F.holds folder.now) (F.has folder.now) top.now None) }
{
    let journal = match folder.journal(alloc, top)? {
        None => Journaled::Nothing,
        Some(peek) if peek.finished => Journaled::Finished,
        Some(peek) => return unfinished(&peek),
    };
    let highest = folder.highest(alloc, top)?;
    Ok(Round {
        journal,
        used: number_read(autorescue, highest),
        next: number_after(highest),
        goes_back: false,
        always_post,
    })
}

/// The round that goes back to the rescue file of this number, which is from 1 to 999.
///
/// # Errors
/// In this order: `NotThere` with the number, where its file is missing; a journal that may be another user's, or that
/// can't be read;
/// `Unfinished`, where its run has not ended; a folder that can't be listed.
fn round_behind<F: Folder>(
    alloc: Global,
    folder: &F,
    top: &str,
    number: u16,
    always_post: bool,
) -> Result<Round, RunFault>
    requires { IsFileNumber number }
    ensures held { (autorescue : Bool) → F.honest folder.now → IfOk result
        (IsRoundFrom (F.holds folder.now) (F.has folder.now) top.now autorescue (Some number) always_post) }
    ensures numbers { IfOk result (λ round. IsRescueNumber round.next × (round.used ≤ 999)) }
    ensures back { IfOk result (λ round. round.goes_back ≡ true → IsFileNumber round.used) }
    ensures by { (autorescue : Bool) → IfOk result (IsRoundBy autorescue (Some number) always_post) }
    ensures refused { IfErr result (IsRoundFault top.now (Some number)) }
    ensures refused_held { F.honest folder.now → IfErr result (IsRoundFaultHeld (F.holds folder.now) (F.has folder.now) top.now (Some number)) }
{
    let path = rescue_path(alloc, top, number)?;
    if !folder.is_there(alloc, path.as_str())? {
        return Err(RunFault::NotThere(number));
    }
    let journal = match folder.journal(alloc, top)? {
        None => Journaled::Nothing,
        Some(peek) if peek.finished => Journaled::Finished,
        Some(_) => return Err(RunFault::Unfinished),
    };
    // Before anything is changed: the folder is one that can be listed.
    folder.highest(alloc, top)?;
    Ok(Round {
        journal,
        used: number,
        next: number_after(number),
        goes_back: true,
        always_post,
    })
}

/// The round of an unfinished journal, whose header has the numbers and says whether POST always runs.
fn unfinished(peek: &Peek) -> Result<Round, RunFault>
    ensures numbers { IfOk result (λ round. IsRescueNumber round.next × (round.used ≤ 999)) }
    ensures back { IfOk result (λ round. round.goes_back ≡ true → IsFileNumber round.used) }
    ensures by { (autorescue asked : Bool) → IfOk result (IsRoundBy autorescue None asked) }
    ensures ahead { IfOk result (λ round. round.goes_back ≡ false) }
    ensures header { IfOk result (GoesOnBy peek.now.used peek.now.next peek.now.always_post) }
    ensures refused { (top : List ℕ) → IfErr result (IsRoundFault top None) }
    ensures bad { IfErr result (IsBadHeader peek.now.used peek.now.next) }
{
    if peek.used > LAST_NUMBER {
        return Err(RunFault::NotThere(peek.used));
    }
    if peek.next < 1 || peek.next > LAST_NUMBER {
        return Err(RunFault::NotThere(peek.next));
    }
    Ok(Round {
        journal: Journaled::Unfinished,
        used: peek.used,
        next: peek.next,
        goes_back: false,
        always_post: peek.always_post,
    })
}

/// The bytes of the rescue file that a round reads: none where it reads none, and where its file is
/// missing by now, unless the round goes back to it.
///
/// # Errors
/// `NotThere` with the number of a file that is missing where the round goes back to it; `FileRefused`
/// with the path of a file that may be another user's, as `Place::trusts` tells it, or that the system
/// refuses to read; `Memory`.
pub fn rescue_of<R: Files + AllocGlobal, F: Folder>(
    rt: &R,
    folder: &F,
    place: &Place<'_>,
    round: &Round,
    trust_owner: bool,
) -> Result<Option<Vec<u8>>, RunFault>
    requires used { round.now.used ≤ 999 }
    requires back { round.now.goes_back ≡ true → IsFileNumber round.now.used }
    // It is the one that the folder holds.
    ensures held { F.honest folder.now → IfOk result (λ bytes.
        option_map (λ b. b.items) bytes ≡ rescue_in (F.holds folder.now) place.now.top.now round.now.used) }
    ensures read { IfOk result (λ bytes. IsRescueOf round.now (option_map (λ b. b.items) bytes)) }
    ensures refused { IfErr result (IsRescueReadFault place.now.top.now round.now) }
    // The refusal too is for what the folder holds, and for this file.
    ensures refused_held { F.honest folder.now → IfErr result (IsRescueReadFaultHeld (F.holds folder.now) place.now.top.now round.now) }
{
    if round.used == 0 {
        return Ok(None);
    }
    let alloc = rt.alloc();
    let path = rescue_path(alloc, place.top, round.used)?;
    place.trusts(rt, path.as_str(), trust_owner)?;
    let bytes = folder.beside(alloc, path.as_str())?;
    if round.goes_back && bytes.is_none() {
        return Err(RunFault::NotThere(round.used));
    }
    Ok(bytes)
}

/// A fault of a plan, with the path of the rescue file where it is that of a line there.
pub fn named(fault: RunFault, rescue: Option<Text>) -> RunFault
    ensures { result ≡ named_by (in_line fault) rescue fault }
{
    match (in_line(&fault), rescue) {
        (Some(line), Some(path)) => RunFault::InRescue(path, line),
        (_, _) => fault,
    }
}

/// The fault of a line of the rescue file, if it is one.
fn in_line(fault: &RunFault) -> Option<RescueFault>
    ensures { result ≡ in_line fault.now }
{
    match fault {
        RunFault::InPlan(PlanFault::InRescue(fault)) => Some(*fault),
        _ => None,
    }
}
