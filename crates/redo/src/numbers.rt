//! The number of the next rescue file.

ghost use Rattle.std.specs.Prelude.{◌≡◌, ◌≤◌, ℕ, List, Some, true, false, IfOk, IfErr};
ghost use Rattle.event_journal_log.specs.Image.{replay_of};
ghost use Rattle.event_journal_log.specs.Peeks.{ReadsPeek};
ghost use Rattle.rescue_file.specs.Numbered.{IsFileNumber};
ghost use Rattle.dag_main_check.specs.declared.fault.RunFault.TheVariants.{NotThere};
ghost use Rattle.dag_main_files.specs.Beside.{folder_name_of, IsRefusalOf, number_behind};
ghost use Rattle.dag_main_files.specs.Folder.{IsHighestThere, any_paths, these_paths};
ghost use Rattle.redo.specs.Numbers.{is_cut_short, IsNextNumber, IsNoNextNumber};

use dag_main_check::RunFault;
use dag_main_files::{Folder, LAST_NUMBER, peek_in};
use event_journal_log::Peek;
use std::alloc::Global;

/// The number of the next rescue file of a round.
#[derive(Clone, Copy)]
pub(crate) struct Next {
    pub number: u16,
    /// Whether the round was cut short.
    pub cut_short: bool,
}

/// The number after the highest; 999 is written again.
fn number_after(highest: u16) -> u16
    ensures number { IsFileNumber result }
    ensures after { result ≡ number_behind highest }
{
    if highest < LAST_NUMBER {
        highest + 1
    } else {
        LAST_NUMBER
    }
}

/// The number of the next rescue file of a round that was cut short, by its header.
///
/// # Errors
/// `NotThere` with a number that no rescue file has.
fn next_in_header(next: u16) -> Result<Next, RunFault>
    ensures number { IfOk result (λ found. IsFileNumber found.number) }
    ensures cut_short { IfOk result (λ found. found.cut_short ≡ true) }
    ensures same { IfOk result (λ found. found.number ≡ next) }
    ensures refused { IfErr result (λ fault. (¬ (IsFileNumber next)) × (fault ≡ NotThere next)) }
{
    if next < 1 || next > LAST_NUMBER {
        return Err(RunFault::NotThere(next));
    }
    Ok(Next {
        number: next,
        cut_short: true,
    })
}

/// The number of the next rescue file of another round: that after the highest.
///
/// # Errors
/// `FileRefused` with the folder that the system refuses to list; `Memory`.
fn next_in_folder<F: Folder>(alloc: Global, folder: &F, top: &str) -> Result<Next, RunFault>
    ensures number { IfOk result (λ found. IsFileNumber found.number) }
    ensures cut_short { IfOk result (λ found. found.cut_short ≡ false) }
    ensures after { IfOk result (λ found. (highest : ℕ) × (highest ≤ 999) × (found.number ≡ number_behind highest)) }
    ensures held { F.honest folder.now → IfOk result (λ found. (highest : ℕ) × IsHighestThere (F.has folder.now) top.now highest × (found.number ≡ number_behind highest)) }
    ensures refused { IfErr result (IsRefusalOf (folder_name_of top.now)) }
{
    let highest = folder.highest(alloc, top)?;
    Ok(Next {
        number: number_after(highest),
        cut_short: false,
    })
}

/// The number of the next rescue file of a round, by what its header says.
///
/// # Errors
/// As `next_number` has them but for the first.
fn next_by<F: Folder>(alloc: Global, folder: &F, top: &str, peek: &Peek) -> Result<Next, RunFault>
    ensures number { IfOk result (λ next. IsFileNumber next.number) }
    ensures cut_short { IfOk result (λ next. (journal : List ℕ) → ReadsPeek (Some peek.now) (replay_of journal) → next.cut_short ≡ is_cut_short (replay_of journal)) }
    ensures next { IfOk result (λ next. (journal : List ℕ) → ReadsPeek (Some peek.now) (replay_of journal) → IsNextNumber any_paths top.now journal next.number) }
    ensures held { F.honest folder.now → IfOk result (λ next. (journal : List ℕ) → ReadsPeek (Some peek.now) (replay_of journal)
        → IsNextNumber (these_paths (F.has folder.now)) top.now journal next.number) }
    ensures refused { IfErr result (λ fault. (journal : List ℕ) → ReadsPeek (Some peek.now) (replay_of journal) → IsNoNextNumber top.now journal fault) }
{
    if peek.finished {
        return next_in_folder(alloc, folder, top);
    }
    next_in_header(peek.next)
}

/// The number of the next rescue file of the round whose journal has these bytes: of one that was cut short that of its header,
/// and of another one the number after the highest.
///
/// # Errors
/// A journal that can't be read (`InManager`), a number in its header that no rescue file has (`NotThere`), a folder that the
/// system refuses to list (`FileRefused`); `Memory`.
pub(crate) fn next_number<F: Folder>(
    alloc: Global,
    folder: &F,
    top: &str,
    journal: &[u8],
) -> Result<Next, RunFault>
    ensures number { IfOk result (λ next. IsFileNumber next.number) }
    ensures cut_short { IfOk result (λ next. next.cut_short ≡ is_cut_short (replay_of journal.now)) }
    ensures next { IfOk result (λ next. IsNextNumber any_paths top.now journal.now next.number) }
    ensures held { F.honest folder.now → IfOk result (λ next. IsNextNumber (these_paths (F.has folder.now)) top.now journal.now next.number) }
    ensures refused { IfErr result (IsNoNextNumber top.now journal.now) }
{
    match peek_in(alloc, journal)? {
        Some(peek) => next_by(alloc, folder, top, &peek),
        None => next_in_folder(alloc, folder, top),
    }
}
