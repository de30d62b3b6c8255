//! A round that was cut short, or has ended, made into a rescue file.

ghost use Rattle.std.specs.Str.{bytes_eq};
ghost use Rattle.sha2.specs.Sha256.{sha256};
ghost use Rattle.std.specs.Prelude.{◌≡◌, ◌++◌, ◌≤◌, Some, IfOk, IfErr, OnOk, OnErr, string_bytes, option_map};
ghost use Rattle.splices_flat.specs.FileSet.{bytes_of};
ghost use Rattle.rescue_file.specs.Numbered.{IsFileNumber, rescue_name_of};
ghost use Rattle.dag_main_check.specs.declared.fault.RunFault.TheVariants.{Memory};
ghost use Rattle.dag_main_files.specs.Beside.{journal_name_of, IsRefusalOf};
ghost use Rattle.dag_main_files.specs.Changes.{writes_rescue, under_lock};
ghost use Rattle.dag_main_files.specs.Folder.{IsReadFrom};
ghost use Rattle.round_inputs.specs.Inputs.{inputs_name_of, inputs_text_of};
ghost use Rattle.salvage.specs.Round.{IsRoundLeft};
ghost use Rattle.salvage.specs.Salvaged.{IsBarePlan, change_line, IsChangeFrom, any_change, AreChanges, report_line};
ghost use Rattle.salvage.specs.Answered.{IsMadeOfSame, IsMadeOf, HasWrittenNone, IsHeldMade, IsSalvageOf, IsSalvageFrom};
ghost use Rattle.salvage.specs.Refused.{IsBarePlanFault, IsUnmade, IsNotOwn, IsSalvageFault, old_journal_name_of};
ghost use Rattle.salvage.specs.Changes.{writes_salvage, IsRescueMadeIf, SalvagesInPart, LeavesSalvage};
ghost use Rattle.salvage.specs.Sight.{held_files_if};

use crate::changed::{Made, made_of_changed};
use crate::fault::SalvageFault;
use crate::rescue::{Salvaged, salvage_text};
use crate::rounds::{RoundLeft, inputs_with, rescue_as_it_was, round_left};
use dag_main_check::{Answer, RunFault, graph_of, warning_text};
use dag_main_files::{
    Change, Changes, Folder, Noted, Place, Reading, files_of, journal_path, named, rescue_disk,
    rescue_path,
};
use dag_reader::Text;
use event_journal_log::put_bytes;
use round_inputs::{Inputs, Listed};
use run_plan::Plan;
use sha2::{Digest, Sha256};
use splices_flat::FileSet;
use std::alloc::{AllocError, Global};
use std::fs::{self, File};
use std::rt::Files;
use std::time::Clock;

/// The plan of a round, with no submit file read.
///
/// # Errors
/// Those of the DAG files (`InFiles`, `Cycle`) and of the rescue file (`InRescue`), and `Memory`.
fn plan_of_round(
    alloc: Global,
    top: &str,
    files: &FileSet,
    round: &RoundLeft,
    rescue: Option<&[u8]>,
) -> Result<Plan, RunFault>
    requires { round.now.used ≤ 999 }
    ensures plan { IfOk result (IsBarePlan round.now.always_post (bytes_of files.now) top.now
        (option_map (λ b. b.now) rescue.entry)) }
    ensures refused { IfErr result (IsBarePlanFault round.now.always_post (bytes_of files.now) top.now round.now.used
        (option_map (λ b. b.now) rescue.entry)) }
{
    let graph = graph_of(alloc, files, top)?;
    match Plan::build_bare(alloc, graph, rescue, round.always_post) {
        Ok(plan) => Ok(plan),
        Err((_graph, fault)) if fault.is_memory() => Err(RunFault::Memory),
        Err((_graph, fault)) if round.used == 0 => Err(RunFault::InPlan(fault)),
        Err((_graph, fault)) => {
            let path = rescue_path(alloc, top, round.used)?;
            Err(named(RunFault::InPlan(fault), Some(path)))
        }
    }
}

/// What is made of a round by these files and this rescue file, which are those that it was begun with.
///
/// # Errors
/// Those of `plan_of_round`, and then those of `salvage_text`.
fn made_of_same(
    alloc: Global,
    top: &str,
    files: &FileSet,
    round: &RoundLeft,
    rescue: Option<&[u8]>,
) -> Result<Made, RunFault>
    requires { round.now.used ≤ 999 }
    ensures made { IfOk result (λ made. IsMadeOfSame round.now.always_post (bytes_of files.now) top.now (option_map (λ b. b.now) rescue.entry)
        round.now.journal.items (string_bytes made.text) made.done made.total (string_bytes made.warnings)) }
    ensures refused { IfErr result (IsUnmade round.now.always_post (bytes_of files.now) top.now round.now.used
        (option_map (λ b. b.now) rescue.entry) round.now.journal.items) }
{
    let plan = plan_of_round(alloc, top, files, round, rescue)?;
    let Salvaged { text, done } = salvage_text(alloc, &plan, round.journal.as_slice())?;
    Ok(Made {
        text,
        done,
        total: plan.count() as usize,
        warnings: warning_text(alloc, plan.graph().flat().warnings())?,
    })
}

/// How a file differs from what the round was begun with, if it does.
#[derive(Clone, Copy, PartialEq, Eq)]
enum Difference {
    /// It has other bytes, or can't be read.
    Other,
    /// It is missing.
    Missing,
}

/// Whether this is the sum of these bytes.
fn is_sum(bytes: &[u8], sum: &[u8; 32]) -> bool
    ensures { result ≡ bytes_eq (sha256 bytes.now) sum.now }
{
    let found = Sha256::digest(bytes);
    found[..] == sum[..]
}

/// How a file is changed, if it is.
fn change_of<F: Folder>(
    alloc: Global,
    folder: &F,
    file: &Listed,
) -> Result<Option<Difference>, RunFault>
    ensures held { F.honest folder.now → IfOk result (IsChangeFrom (F.holds folder.now) (F.has folder.now) file.now) }
    ensures refused { IfErr result (λ fault. fault ≡ Memory) }
{
    let path = file.path.as_str();
    let Some(bytes) = folder.input(alloc, path)? else {
        if folder.is_there(alloc, path)? {
            return Ok(Some(Difference::Other));
        }
        return Ok(Some(Difference::Missing));
    };
    if is_sum(bytes.as_slice(), &file.sum) {
        return Ok(None);
    }
    Ok(Some(Difference::Other))
}

/// Adds the line of a file, if it is changed.
fn push_change(text: &mut String, path: &str, change: Option<Difference>) -> Result<(), AllocError>
    ensures { OnOk result (string_bytes text.new ≡ string_bytes text.old ++ change_line path.now change) }
{
    match change {
        Some(Difference::Other) => writeln!(text, "changed since the round began: {path}"),
        Some(Difference::Missing) => writeln!(text, "missing since the round began: {path}"),
        None => Ok(()),
    }
}

/// The lines of the files that are no longer as they were when the round began.
fn changes_since<F: Folder>(alloc: Global, folder: &F, inputs: &Inputs) -> Result<String, RunFault>
    ensures changes { IfOk result (λ text. AreChanges any_change inputs.now.files.items (string_bytes text)) }
    ensures held { F.honest folder.now → IfOk result (λ text.
        AreChanges (IsChangeFrom (F.holds folder.now) (F.has folder.now)) inputs.now.files.items (string_bytes text)) }
    ensures refused { IfErr result (λ fault. fault ≡ Memory) }
{
    let mut text = String::new(alloc);
    for file in inputs.files.iter() {
        let change = change_of(alloc, folder, file)?;
        push_change(&mut text, file.path.as_str(), change)?;
    }
    Ok(text)
}

/// What is printed of a round that is salvaged.
fn report_of(
    alloc: Global,
    place: &Place<'_>,
    next: u16,
    made: &Made,
    changes: &str,
) -> Result<String, RunFault>
    requires { IsFileNumber next }
    ensures text { IfOk result (λ text. string_bytes text
        ≡ report_line made.now.done made.now.total (rescue_name_of place.now.top.now next) ++ changes.now) }
    ensures err { IfErr result (λ fault. fault ≡ Memory) }
{
    let path = rescue_path(alloc, place.top, next)?;
    let name = path.as_str();
    let (done, total) = (made.done, made.total);
    let mut text = String::new(alloc);
    writeln!(text, "{done} of {total} nodes are done: {name}")?;
    text.push_str(changes)?;
    Ok(text)
}

/// Writes the rescue file of this number, under another name; it is synced and renamed.
///
/// # Errors
/// `FileRefused` with its path where the system refuses it, and `Memory`.
pub fn write_rescue<R: Files<File = File> + AllocGlobal + Copy + Drop>(
    rt: R,
    place: &Place<'_>,
    number: u16,
    text: &String,
    changes: &mut Changes,
) -> Result<(), RunFault>
    requires { IsFileNumber number }
    ensures refused { IfErr result (IsRefusalOf (rescue_name_of place.now.top.now number)) }
    ensures changes { OnOk result (changes.new ≡ changes.old ++ writes_rescue place.now.top.now number (string_bytes text.now)) }
    ensures no_change { OnErr result (changes.new ≡ changes.old) }
{
    let alloc = rt.alloc();
    let path = rescue_path(alloc, place.top, number)?;
    let mut disk = rescue_disk(rt, place, number)?;
    match put_bytes(&mut disk, text.as_bytes()) {
        Ok(()) => {
            changes.note(&path, Change::Written(Noted::text(text)));
            Ok(())
        }
        Err(_) => Err(RunFault::FileRefused(String::from_str(alloc, path.as_str())?)),
    }
}

/// A round, once nothing of it is refused: what it is, what it was begun with, and what is
/// made of it.
#[derive(Drop)]
struct Found {
    round: RoundLeft,
    inputs: Inputs,
    made: Made,
}

/// What is made of a round by these DAG files as they are now.
///
/// # Errors
/// As `salvage_here` has them from the DAG files on that are not as they were.
fn made_of_round<F: Folder>(
    alloc: Global,
    folder: &F,
    top: &str,
    inputs: &Inputs,
    files: &FileSet,
    round: &RoundLeft,
    too: bool,
) -> Result<Made, SalvageFault>
    requires left { IsRoundLeft too round.now.ended round.now.journal.items round.now.digest round.now.used round.now.next round.now.always_post }
    requires journal { F.honest folder.now → F.holds folder.now (journal_name_of top.now) ≡ Some round.now.journal.items }
    requires inputs { F.honest folder.now → F.holds folder.now (inputs_name_of top.now)
        ≡ Some (inputs_text_of round.now.digest inputs.now.files.items) }
    requires files { F.honest folder.now → IsReadFrom (F.holds folder.now) top.now files.now }
    requires none { F.honest folder.now → HasWrittenNone (F.holds folder.now) top.now round.now.next round.now.ended }
    ensures made { IfOk result (λ made. (is : IsMadeOf too top.now round.now.next inputs.now.files.items (string_bytes made.text)
        made.done made.total (string_bytes made.warnings))
        × (F.honest folder.now → IsHeldMade too (F.holds folder.now) top.now round.now.next inputs.now.files.items (string_bytes made.text)
        made.done made.total (string_bytes made.warnings) is)) }
    ensures refused { IfErr result (IsSalvageFault too (held_files_if (F.honest folder.now) (F.holds folder.now) (F.has folder.now) top.now) top.now) }
{
    let other = match rescue_as_it_was(alloc, folder, top, inputs, files, round.used) {
        Ok(rescue) => return Ok(made_of_same(alloc, top, files, round, rescue.as_deref())?),
        Err(other) => other,
    };
    match other.own() {
        Ok(change) => made_of_changed(alloc, folder, top, files, round, change),
        Err(fault) => Err(SalvageFault::Refused(fault)),
    }
}

/// Sees to it that a round that has ended has written no rescue file: the next round goes by that one.
///
/// # Errors
/// `Ended` where the file is there; a file that the system refuses to read; `Memory`.
fn has_written_none<F: Folder>(
    alloc: Global,
    folder: &F,
    top: &str,
    round: &RoundLeft,
    too: bool,
) -> Result<(), SalvageFault>
    requires left { IsRoundLeft too round.now.ended round.now.journal.items round.now.digest round.now.used round.now.next round.now.always_post }
    requires journal { F.honest folder.now → F.holds folder.now (journal_name_of top.now) ≡ Some round.now.journal.items }
    ensures none { F.honest folder.now → OnOk result (HasWrittenNone (F.holds folder.now) top.now round.now.next round.now.ended) }
    ensures refused { IfErr result (IsSalvageFault too (held_files_if (F.honest folder.now) (F.holds folder.now) (F.has folder.now) top.now) top.now) }
{
    if !round.ended {
        return Ok(());
    }
    let path = rescue_path(alloc, top, round.next)?;
    match folder.beside(alloc, path.as_str())? {
        Some(_bytes) => Err(SalvageFault::Ended(journal_path(alloc, top)?)),
        None => Ok(()),
    }
}

/// The round of a DAG file, read under the lock; one that has ended is taken too, or not.
///
/// # Errors
/// As `salvage_here` has them from the journal on, before anything is changed.
fn read_round<F: Folder>(
    alloc: Global,
    folder: &F,
    top: &str,
    too: bool,
) -> Result<Found, SalvageFault>
    ensures read { IfOk result (λ found. (is : IsMadeOf too top.now found.round.next found.inputs.files.items (string_bytes found.made.text)
        found.made.done found.made.total (string_bytes found.made.warnings))
        × (F.honest folder.now → IsHeldMade too (F.holds folder.now) top.now found.round.next found.inputs.files.items (string_bytes found.made.text)
        found.made.done found.made.total (string_bytes found.made.warnings) is)) }
    ensures next { IfOk result (λ found. IsFileNumber found.round.next) }
    ensures left { IfOk result (λ found. IsRoundLeft too found.round.ended found.round.journal.items found.round.digest found.round.used found.round.next
        found.round.always_post) }
    ensures journal { F.honest folder.now → IfOk result (λ found. F.holds folder.now (journal_name_of top.now) ≡ Some found.round.journal.items) }
    ensures refused { IfErr result (IsSalvageFault too (held_files_if (F.honest folder.now) (F.holds folder.now) (F.has folder.now) top.now) top.now) }
{
    let round = round_left(alloc, folder, top, too)?;
    has_written_none(alloc, folder, top, &round, too)?;
    let inputs = inputs_with(alloc, folder, top, &round.digest)?;
    let files = files_of(alloc, folder, top, Reading::SplicesAlone)?;
    let made = made_of_round(alloc, folder, top, &inputs, &files, &round, too)?;
    Ok(Found {
        round,
        inputs,
        made,
    })
}

/// Makes a rescue file of the last round of a DAG file, under the lock.
///
/// # Errors
/// As `salvage_here` has them from the journal on.
fn salvage_locked<R: Files<File = File> + AllocGlobal + Copy + Drop, F: Folder>(
    rt: R,
    folder: &F,
    place: &Place<'_>,
    too: bool,
    changes: &mut Changes,
) -> Result<Answer, SalvageFault>
    ensures salvaged { IfOk result (λ answer. IsSalvageOf too place.now.top.now
        (string_bytes answer.text) (string_bytes answer.warnings) answer.status) }
    ensures held { F.honest folder.now → IfOk result (λ answer. IsSalvageFrom too (F.holds folder.now) (F.has folder.now) place.now.top.now
        (string_bytes answer.text) (string_bytes answer.warnings) answer.status) }
    ensures refused { IfErr result (IsSalvageFault too (held_files_if (F.honest folder.now) (F.holds folder.now) (F.has folder.now) place.now.top.now) place.now.top.now) }
    ensures changes { IfOk result (λ answer. (is : IsSalvageOf too place.now.top.now (string_bytes answer.text) (string_bytes answer.warnings) answer.status)
        × (F.honest folder.now → IsHeldMade too (F.holds folder.now) place.now.top.now is.next is.listed is.rescue_text is.done is.total (string_bytes answer.warnings) is.made)
        × (changes.new ≡ changes.old ++ writes_salvage place.now.top.now is.next is.rescue_text)) }
    ensures begun { IfErr result (λ fault. SalvagesInPart (IsRescueMadeIf (F.honest folder.now) too (F.holds folder.now) place.now.top.now) place.now.top.now fault
        changes.old changes.new) }
{
    let alloc = rt.alloc();
    let found = read_round(alloc, folder, place.top, too)?;
    let changed = changes_since(alloc, folder, &found.inputs)?;
    let Found { round, made, .. } = found;
    let text = report_of(alloc, place, round.next, &made, changed.as_str())?;
    write_rescue(rt, place, round.next, &made.text, changes)?;
    place.put_journal_away(&rt, changes)?;
    let Made { warnings, .. } = made;
    Ok(Answer {
        text,
        warnings,
        status: 0,
    })
}

/// Sees to it that no folder has the name under which the journal is put away.
///
/// # Errors
/// `FileRefused` with that name; `Memory`.
fn has_no_folder<R: Files + AllocGlobal>(rt: &R, place: &Place<'_>) -> Result<(), RunFault>
    ensures { IfErr result (IsRefusalOf (old_journal_name_of place.now.top.now)) }
{
    let alloc = rt.alloc();
    let old = Text::joined(alloc, place.top, ".journal.old")?;
    match fs::symlink_metadata(rt, place.at(alloc, old.as_str())?.as_str()) {
        Ok(found) if found.is_dir() => match String::from_str(alloc, old.as_str()) {
            Ok(old) => Err(RunFault::FileRefused(old)),
            Err(_) => Err(RunFault::Memory),
        },
        _ => Ok(()),
    }
}

/// Sees to it that the journal and the lock were put there by nobody else, where others may write into their folder, and that the
/// journal can be put away.
///
/// # Errors
/// `FileRefused` with the first that may be another user's, or with the other name of the journal where that is a folder's; `Memory`.
pub fn has_own_files<R: Files + AllocGlobal>(
    rt: &R,
    place: &Place<'_>,
    trust_owner: bool,
) -> Result<(), RunFault>
    ensures { IfErr result (IsNotOwn place.now.top.now) }
{
    let journal = journal_path(rt.alloc(), place.top)?;
    place.trusts(rt, journal.as_str(), trust_owner)?;
    let lock = Text::joined(rt.alloc(), place.top, ".lock")?;
    place.trusts(rt, lock.as_str(), trust_owner)?;
    has_no_folder(rt, place)
}

/// Makes a rescue file of the last round of the DAG file of this path, which was cut short, of the files that stand
/// in a folder; and of one that has ended, where such a round is taken `too`. Relative paths are taken from its path, which is absolute; both are as they were for `run`.
///
/// The rescue file has the number that the journal's header names as the next, and marks the nodes that are
/// done by the journal's records: it is the one that the round would have written had it stopped there. Where a DAG file
/// or the rescue file that the round read is not as it was, and the file beside the DAG file that keeps them is there,
/// it marks the nodes of the DAG files as they are now whose names are those of nodes that are done. Once it
/// is on the disk the journal is put away as `.journal.old`, so that `run` begins a round with this rescue
/// file. The answer is how many nodes are done, and which files of the round are no longer as they were, with
/// status 0.
///
/// # Errors
/// In this order, each before anything is changed: no journal (`NoJournal`), a journal or a lock that may be another
/// user's (`FileRefused`, as `Place::trusts` tells it), a folder that has the name `.journal.old` (`FileRefused` with it), another manager that runs the DAG
/// (`FileRefused` with the file that it has locked), a journal that the system refuses or that can't be read,
/// a round that has ended (`Ended`) and is not taken, or whose rescue file is there, a number in the header that no rescue file has (`NotThere`), what the round
/// was begun with (`NoInputs`, `BadInputs`, `OtherRound`), the first DAG file in the order of paths that is not
/// as it was (`NotListed`, `Changed`), then so the rescue file that the round read, but where the file that keeps them
/// is there, is spelled as it is written and has the journal's digest (a file there that may be another user's is
/// `FileRefused`), a fault of the DAG files, as that the file of a splice is missing (`InFiles`), and a record that may not follow those before it
/// (`InManager`). Then a rescue file or a journal that the system refuses (`FileRefused`); the same call goes on
/// from there. Lack of memory may come before any.
pub fn salvage_here<R: Files<File = File> + Clock + AllocGlobal + Copy + Drop, F: Folder>(
    rt: R,
    folder: &F,
    place: &Place<'_>,
    too: bool,
    trust_owner: bool,
    changes: &mut Changes,
) -> Result<Answer, SalvageFault>
    ensures salvaged { IfOk result (λ answer. IsSalvageOf too place.now.top.now
        (string_bytes answer.text) (string_bytes answer.warnings) answer.status) }
    // It is that of the files that the folder holds.
    ensures held { F.honest folder.now → IfOk result (λ answer. IsSalvageFrom too (F.holds folder.now) (F.has folder.now) place.now.top.now
        (string_bytes answer.text) (string_bytes answer.warnings) answer.status) }
    ensures refused { IfErr result (IsSalvageFault too (held_files_if (F.honest folder.now) (F.holds folder.now) (F.has folder.now) place.now.top.now) place.now.top.now) }
    // What it changes: under the lock the rescue file that it reports of is written, and then the journal is put away.
    ensures changes { IfOk result (λ answer. (is : IsSalvageOf too place.now.top.now (string_bytes answer.text) (string_bytes answer.warnings) answer.status)
        × (F.honest folder.now → IsHeldMade too (F.holds folder.now) place.now.top.now is.next is.listed is.rescue_text is.done is.total (string_bytes answer.warnings) is.made)
        × (changes.new ≡ changes.old ++ under_lock place.now.top.now (writes_salvage place.now.top.now is.next is.rescue_text))) }
    // Where it is refused, nothing is written; or the rescue file of the round is, and the system refuses to put the journal away.
    ensures begun { IfErr result (λ fault. LeavesSalvage (IsRescueMadeIf (F.honest folder.now) too (F.holds folder.now) place.now.top.now) place.now.top.now fault
        changes.old changes.new) }
{
    let alloc = rt.alloc();
    let journal = journal_path(alloc, place.top)?;
    if !folder.is_there(alloc, journal.as_str())? {
        return Err(SalvageFault::NoJournal(journal));
    }
    has_own_files(&rt, place, trust_owner)?;
    let lock = place.lock(&rt, changes)?;
    let answer = salvage_locked(rt, folder, place, too, changes);
    place.unlock(&rt, lock, changes);
    answer
}
