//! Nodes of the last round that are to run again, from the files that are beside its DAG file.

ghost use Rattle.std.specs.Prelude.{◌≡◌, [], true, map, IfOk, IfErr, OnErr, string_bytes};
ghost use Rattle.rescue_file.specs.Numbered.{IsFileNumber, rescue_name_of};
ghost use Rattle.dag_main_check.specs.declared.fault.RunFault.TheVariants.{Memory};
ghost use Rattle.salvage.specs.Salvaged.{report_line};
ghost use Rattle.dag_main_files.specs.Beside.{journal_name_of, IsRefusalOf};
ghost use Rattle.dag_main_files.specs.Changes.{Makes};
ghost use Rattle.dag_main_files.specs.Folder.{any_paths, these_paths};
ghost use Rattle.dag_main_files.specs.Opened.{changing, fixed};
ghost use Rattle.redo.specs.Answered.{no_round_line, IsMarkedOf, IsFoundOfNames, IsRedoReport, IsRedo, IsNotWritten, IsNoRedo};
ghost use Rattle.redo.specs.Changes.{clears_cut_short, WritesMarks, MakesRedone, MakesRedo};
ghost use Rattle.redo.specs.Numbers.{IsNextNumber};

use crate::marks::{Redone, redone_text};
use crate::numbers::next_number;
use dag_main_check::{Answer, REFUSED, RunFault, warning_text};
use dag_main_files::{Changes, Folder, Place, journal_path, rescue_path};
use dag_main_inspect::open_round;
use failure_report::{Named, numbers_of};
use log_lines::push_word;
use salvage::{has_own_files, write_rescue};
use sched_core::Core;
use std::alloc::{AllocError, Global};
use std::fs::File;
use std::rt::Files;
use std::time::Clock;

/// The next rescue file of a round, how many nodes the round has, and the warnings of its files.
#[derive(Drop)]
struct Marked {
    redone: Redone,
    total: u32,
    warnings: String,
}

/// What is found of nodes that are to run again.
#[derive(Drop)]
enum Found {
    /// The rescue file without them.
    Marked(Marked),
    /// A name is none of a node; the line that reports it.
    Unknown(String),
}

/// The rescue file of a run as it is now, without these nodes.
fn marked_of(
    alloc: Global,
    core: &Core<'_>,
    only: bool,
    numbers: &[u32],
) -> Result<Marked, RunFault>
    ensures marked { IfOk result (λ marked. IsMarkedOf core.now.plan core.now.past only numbers.now
        (string_bytes marked.redone.text) marked.redone.done marked.total (string_bytes marked.warnings)) }
    ensures err { IfErr result (λ fault. fault ≡ Memory) }
{
    let redone = redone_text(alloc, core, only, numbers)?;
    let warnings = warning_text(alloc, core.plan().graph().flat().warnings())?;
    let total = core.plan().count();
    Ok(Marked {
        redone,
        total,
        warnings,
    })
}

/// What is found of the nodes of these names in a run as it is now.
fn found_in(
    alloc: Global,
    core: &Core<'_>,
    top: &str,
    names: &[&str],
    only: bool,
) -> Result<Found, RunFault>
    ensures found { IfOk result (IsFoundOfNames core.now.plan core.now.past top.now (map (λ n. n.now) names.now) only) }
    ensures err { IfErr result (λ fault. fault ≡ Memory) }
{
    let numbered = numbers_of(alloc, core.plan(), top, names)?;
    match numbered {
        Named::Nodes(numbers) => {
            let marked = marked_of(alloc, core, only, &numbers)?;
            Ok(Found::Marked(marked))
        }
        Named::Unknown(line) => Ok(Found::Unknown(line)),
    }
}

/// The line of a rescue file of this number that marks so many nodes.
fn report_of(
    alloc: Global,
    top: &str,
    number: u16,
    done: usize,
    total: u32,
) -> Result<String, RunFault>
    requires { IsFileNumber number }
    ensures text { IfOk result (λ text. string_bytes text ≡ report_line done total (rescue_name_of top.now number)) }
    ensures err { IfErr result (λ fault. fault ≡ Memory) }
{
    let path = rescue_path(alloc, top, number)?;
    let name = path.as_str();
    let mut text = String::new(alloc);
    writeln!(text, "{done} of {total} nodes are done: {name}")?;
    Ok(text)
}

/// Puts the journal of a round away, if that was cut short.
///
/// # Errors
/// `FileRefused` with the journal's path, where the system refuses it; `Memory`.
fn clear_cut_short<R: Files<File = File> + AllocGlobal + Copy + Drop>(
    rt: R,
    place: &Place<'_>,
    cut_short: bool,
    changes: &mut Changes,
) -> Result<(), RunFault>
    ensures refused { IfErr result (IsRefusalOf (journal_name_of place.now.top.now)) }
    ensures changes { Makes result (clears_cut_short cut_short place.now.top.now) changes.old changes.new }
    ensures was_cut_short { OnErr result (cut_short ≡ true) }
{
    if !cut_short {
        return Ok(());
    }
    place.put_journal_away(&rt, changes)
}

/// Writes the rescue file of a round; the journal of one that was cut short is put away then.
///
/// # Errors
/// Those of `next_number`, and a rescue file or a journal that the system refuses (`FileRefused`); `Memory`.
fn write_marked<R: Files<File = File> + AllocGlobal + Copy + Drop, F: Folder>(
    rt: R,
    folder: &F,
    place: &Place<'_>,
    journal: &[u8],
    marked: Marked,
    changes: &mut Changes,
) -> Result<Answer, RunFault>
    ensures report { IfOk result (λ answer. IsRedoReport (IsNextNumber any_paths place.now.top.now journal.now) place.now.top.now marked.redone.done marked.total (string_bytes marked.warnings)
        (string_bytes answer.text) (string_bytes answer.warnings) answer.status) }
    ensures held { F.honest folder.now → IfOk result (λ answer.
        IsRedoReport (IsNextNumber (these_paths (F.has folder.now)) place.now.top.now journal.now) place.now.top.now marked.redone.done marked.total (string_bytes marked.warnings)
        (string_bytes answer.text) (string_bytes answer.warnings) answer.status) }
    ensures refused { IfErr result (IsNotWritten place.now.top.now journal.now) }
    // The rescue file has that text and the round's next number, and the journal is put away of a round that was cut short alone.
    ensures changes { WritesMarks (λ number. IsNextNumber any_paths place.now.top.now journal.now number
        × (F.honest folder.now → IsNextNumber (these_paths (F.has folder.now)) place.now.top.now journal.now number))
        place.now.top.now journal.now (string_bytes marked.redone.text) marked.redone.done marked.total result changes.old changes.new }
{
    let alloc = rt.alloc();
    let next = next_number(alloc, folder, place.top, journal)?;
    let text = report_of(
        alloc,
        place.top,
        next.number,
        marked.redone.done,
        marked.total,
    )?;
    write_rescue(rt, place, next.number, &marked.redone.text, changes)?;
    clear_cut_short(rt, place, next.cut_short, changes)?;
    Ok(Answer {
        text,
        warnings: marked.warnings,
        status: 0,
    })
}

/// The answer of the last round of a DAG file, under the lock.
///
/// # Errors
/// As `redo_here` has them from the journal on.
fn redo_locked<R: Files<File = File> + AllocGlobal + Copy + Drop, F: Folder>(
    rt: R,
    folder: &F,
    place: &Place<'_>,
    names: &[&str],
    only: bool,
    changes: &mut Changes,
) -> Result<Answer, RunFault>
    ensures redone { IfOk result (λ answer. IsRedo changing any_paths place.now.top.now (map (λ n. n.now) names.now) only
        (string_bytes answer.text) (string_bytes answer.warnings) answer.status) }
    // It is that of the files, the journal and the rescue file that the folder holds.
    ensures held { F.honest folder.now → IfOk result (λ answer.
        IsRedo (fixed (F.holds folder.now)) (these_paths (F.has folder.now)) place.now.top.now (map (λ n. n.now) names.now) only
        (string_bytes answer.text) (string_bytes answer.warnings) answer.status) }
    ensures refused { IfErr result (IsNoRedo changing place.now.top.now) }
    // The refusal too is for what the folder holds.
    ensures refused_held { F.honest folder.now → IfErr result (IsNoRedo (fixed (F.holds folder.now)) place.now.top.now) }
    ensures changes { MakesRedone changing any_paths place.now.top.now (map (λ n. n.now) names.now) only result changes.old changes.new }
    ensures changes_held { F.honest folder.now → MakesRedone (fixed (F.holds folder.now)) (these_paths (F.has folder.now)) place.now.top.now
        (map (λ n. n.now) names.now) only result changes.old changes.new }
{
    let alloc = rt.alloc();
    let round = open_round(alloc, folder, place.top)?;
    let core = round.core(alloc)?;
    let found = found_in(alloc, &core, place.top, names, only)?;
    match found {
        Found::Marked(marked) => { write_marked(rt, folder, place, round.bytes(), marked, changes) }
        Found::Unknown(line) => Ok(Answer {
            text: String::new(alloc),
            warnings: line,
            status: REFUSED,
        }),
    }
}

/// What is reported where there is no round.
fn no_round_text(alloc: Global, top: &str) -> Result<String, AllocError>
    ensures { IfOk result (λ line. string_bytes line ≡ no_round_line top.now) }
{
    let mut line = String::new(alloc);
    line.push_str("dagrun: ")?;
    push_word(&mut line, top)?;
    line.push_str(" has no round whose nodes are done\n")?;
    Ok(line)
}

/// The answer where there is no round.
///
/// # Errors
/// `Memory` alone.
fn no_round(alloc: Global, top: &str) -> Result<Answer, RunFault>
    ensures answer { IfOk result (λ answer. (string_bytes answer.text ≡ [])
        × (string_bytes answer.warnings ≡ no_round_line top.now) × (answer.status ≡ 125)) }
    ensures err { IfErr result (λ fault. fault ≡ Memory) }
{
    let line = no_round_text(alloc, top)?;
    Ok(Answer {
        text: String::new(alloc),
        warnings: line,
        status: REFUSED,
    })
}

/// Sees to it that nodes of a DAG file run again that are done: writes the next rescue file of its last round, finished or cut short,
/// without the nodes of these names and, unless these `only` run again, without all that come after them. Relative paths are
/// taken from the folder's path.
///
/// Each ordinary node is marked that is done by the journal's records and doesn't run again. Of a round that was cut short the
/// rescue file has the number that the journal's header names as the next, and the journal is put away as `.journal.old` once it is
/// on the disk; of one that has ended it has the number after the highest that is there, and the journal stays. So `run` begins
/// a round with this rescue file. The answer is how many nodes it marks, with status 0.
///
/// Where there is no journal, and where a name is none of a node, nothing is changed: a warning reports it, with no text and with
/// status 125.
///
/// # Errors
/// In this order, each before anything is changed: a journal or a lock that may be another user's (`FileRefused`, as
/// `Place::trusts` has it), a folder that has the name `.journal.old` (`FileRefused` with it), another manager that runs the DAG
/// (`FileRefused` with the file that it has locked); then those of `answer_here` for the status; then a number in the journal's
/// header that no rescue file has (`NotThere`), and a folder that the system refuses to list (`FileRefused`). Then a rescue file or
/// a journal that the system refuses (`FileRefused`). Lack of memory may come before any.
pub fn redo_here<R: Files<File = File> + Clock + AllocGlobal + Copy + Drop, F: Folder>(
    rt: R,
    folder: &F,
    place: &Place<'_>,
    names: &[&str],
    only: bool,
    trust_owner: bool,
    changes: &mut Changes,
) -> Result<Answer, RunFault>
    ensures redone { IfOk result (λ answer. IsRedo changing any_paths place.now.top.now (map (λ n. n.now) names.now) only
        (string_bytes answer.text) (string_bytes answer.warnings) answer.status) }
    // It is that of the files, the journal and the rescue file that the folder holds.
    ensures held { F.honest folder.now → IfOk result (λ answer.
        IsRedo (fixed (F.holds folder.now)) (these_paths (F.has folder.now)) place.now.top.now (map (λ n. n.now) names.now) only
        (string_bytes answer.text) (string_bytes answer.warnings) answer.status) }
    ensures refused { IfErr result (IsNoRedo changing place.now.top.now) }
    // The refusal too is for what the folder holds.
    ensures refused_held { F.honest folder.now → IfErr result (IsNoRedo (fixed (F.holds folder.now)) place.now.top.now) }
    // What it changes: under the lock the rescue file is written that it reports, and then the journal of a round that was cut short is put away.
    ensures changes { MakesRedo changing any_paths place.now.top.now (map (λ n. n.now) names.now) only result changes.old changes.new }
    // The rescue file is that of the files, the journal and the rescue files that the folder holds.
    ensures changes_held { F.honest folder.now → MakesRedo (fixed (F.holds folder.now)) (these_paths (F.has folder.now)) place.now.top.now
        (map (λ n. n.now) names.now) only result changes.old changes.new }
{
    let alloc = rt.alloc();
    let journal = journal_path(alloc, place.top)?;
    let is_there = folder.is_there(alloc, journal.as_str())?;
    if !is_there {
        return no_round(alloc, place.top);
    }
    has_own_files(&rt, place, trust_owner)?;
    let lock = place.lock(&rt, changes)?;
    let answer = redo_locked(rt, folder, place, names, only, changes);
    place.unlock(&rt, lock, changes);
    answer
}
