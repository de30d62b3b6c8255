//! A round whose DAG files or rescue file were changed since it began.

ghost use Rattle.std.specs.Prelude.{◌≡◌, ◌↔◌, ℕ, List, IsTrue, Some, IfOk, IfErr, IfSome, string_bytes};
ghost use Rattle.splices_flat.specs.FileSet.{bytes_of, entries_of};
ghost use Rattle.dag_main_check.specs.declared.fault.RunFault.TheVariants.{Memory};
ghost use Rattle.dag_main_files.specs.Beside.{IsRefusalOf, IsRefusalHeld};
ghost use Rattle.round_inputs.specs.Begun.{begun_name_of, begun_text_of, rescue_kept};
ghost use Rattle.salvage.specs.Carried.{IsBegunPlan};
ghost use Rattle.salvage.specs.Answered.{IsMadeOfChanged};
ghost use Rattle.salvage.specs.Refused.{IsNotCarried};
ghost use Rattle.salvage.specs.Sight.{held_files_if};

use crate::carried::{carry_over, warnings_of};
use crate::fault::SalvageFault;
use crate::rounds::RoundLeft;
use dag_main_check::{RunFault, graph_of, plan_with};
use dag_main_files::Folder;
use round_inputs::{BadBytes, Begun, begun_in, begun_path};
use run_plan::Plan;
use splices_flat::FileSet;
use std::alloc::Global;

/// What is made of a round: the text of its rescue file, how many nodes this marks, of how many, and warnings.
#[derive(Drop)]
pub(crate) struct Made {
    pub text: String,
    pub done: usize,
    pub total: usize,
    pub warnings: String,
}

/// Whether two digests are one.
fn is_digest(found: &[u8; 32], digest: &[u8; 32]) -> bool
    ensures { IsTrue result ↔ (found.now ≡ digest.now) }
{
    found[..] == digest[..]
}

/// The files that the round of this digest was begun with, where a file beside the DAG file keeps them: none where
/// it is missing, is not spelled as it is written, or is of another round.
///
/// # Errors
/// `FileRefused` with a file that the system refuses to read or that may be another user's; `Memory`.
fn begun_with<F: Folder>(
    alloc: Global,
    folder: &F,
    top: &str,
    digest: &[u8; 32],
) -> Result<Option<Begun>, RunFault>
    ensures digest { IfOk result (λ begun. IfSome begun (λ found. found.digest ≡ digest.now)) }
    // The file that the folder holds spells them.
    ensures held { F.honest folder.now → IfOk result (λ begun. IfSome begun (λ found.
        F.holds folder.now (begun_name_of top.now) ≡ Some (begun_text_of found.digest (entries_of found.files) (rescue_kept found.rescue)))) }
    ensures refused { IfErr result (IsRefusalOf (begun_name_of top.now)) }
    ensures unheld { F.honest folder.now → IfErr result (IsRefusalHeld (F.holds folder.now) (begun_name_of top.now)) }
{
    let name = begun_path(alloc, top)?;
    let Some(bytes) = folder.beside(alloc, name.as_str())? else {
        return Ok(None);
    };
    let begun = match begun_in(alloc, bytes.as_slice()) {
        Ok(begun) => begun,
        Err(BadBytes::NotSpelled) => return Ok(None),
        Err(BadBytes::Memory) => return Err(RunFault::Memory),
    };
    if !is_digest(&begun.digest, digest) {
        return Ok(None);
    }
    Ok(Some(begun))
}

/// The plan of a round, where a file beside the DAG file keeps what the round was begun with: none where it doesn't,
/// or where the plan of the files that it keeps has another digest than the round's.
///
/// # Errors
/// As `begun_with`.
fn old_plan<F: Folder>(
    alloc: Global,
    folder: &F,
    top: &str,
    round: &RoundLeft,
) -> Result<Option<Plan>, RunFault>
    ensures plan { IfOk result (λ plan. IfSome plan (λ old. (begun : List ℕ)
        × IsBegunPlan round.now.always_post top.now round.now.digest begun old
        × (F.honest folder.now → F.holds folder.now (begun_name_of top.now) ≡ Some begun))) }
    ensures refused { IfErr result (IsRefusalOf (begun_name_of top.now)) }
    ensures unheld { F.honest folder.now → IfErr result (IsRefusalHeld (F.holds folder.now) (begun_name_of top.now)) }
{
    let Some(begun) = begun_with(alloc, folder, top, &round.digest)? else {
        return Ok(None);
    };
    let rescue = begun.rescue_bytes();
    let plan = match plan_with(alloc, &begun.files, top, rescue, round.always_post) {
        Ok(plan) => plan,
        Err(RunFault::Memory) => return Err(RunFault::Memory),
        Err(_) => return Ok(None),
    };
    if !is_digest(plan.digest(), &round.digest) {
        return Ok(None);
    }
    Ok(Some(plan))
}

/// What is made of a round by these DAG files, which are not those that it was begun with, or by a rescue file that
/// is not the one that it read: this fault says so.
///
/// # Errors
/// This fault, where no file keeps what the round was begun with; a file that the system refuses or that may be another user's;
/// a fault of the DAG files, as they are now; and a record that may not follow those before it, in the plan of the files that are kept.
pub(crate) fn made_of_changed<F: Folder>(
    alloc: Global,
    folder: &F,
    top: &str,
    files: &FileSet,
    round: &RoundLeft,
    other: SalvageFault,
) -> Result<Made, SalvageFault>
    ensures made { IfOk result (λ made. IsMadeOfChanged (λ begun. F.honest folder.now → F.holds folder.now (begun_name_of top.now) ≡ Some begun)
        round.now.always_post (bytes_of files.now) top.now round.now.digest round.now.journal.items
        (string_bytes made.text) made.done made.total (string_bytes made.warnings)) }
    ensures refused { IfErr result (IsNotCarried (held_files_if (F.honest folder.now) (F.holds folder.now) (F.has folder.now) top.now)
        round.now.always_post (bytes_of files.now) top.now round.now.digest round.now.journal.items other) }
{
    let Some(old) = old_plan(alloc, folder, top, round)? else {
        return Err(other);
    };
    let graph = graph_of(alloc, files, top)?;
    let carried = carry_over(alloc, &old, round.journal.as_slice(), &graph)?;
    let warnings = warnings_of(alloc, &graph, &carried.gone)?;
    Ok(Made {
        text: carried.text,
        done: carried.done,
        total: graph.flat().nodes().len(),
        warnings,
    })
}
