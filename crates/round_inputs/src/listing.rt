//! The files that say what a round was begun with, as they are written.

ghost use Rattle.std.specs.Prelude.{◌≡◌, ◌∷◌, ◌++◌, [], map, codes, IfOk, IfErr, IfSome, OnOk, OnErr};
ghost use Rattle.std.specs.Option.{option_map};
ghost use Rattle.splices_flat.specs.FileSet.{entries_of};
ghost use Rattle.dag_main_check.specs.declared.fault.RunFault.TheVariants.{Memory};
ghost use Rattle.dag_main_files.specs.Beside.{IsRefusalOf};
ghost use Rattle.dag_main_files.specs.declared.changes.Change.TheVariants.{Written};
ghost use Rattle.round_inputs.specs.Begun.{begun_name_of};
ghost use Rattle.round_inputs.specs.Inputs.{listed_of, rescue_entry, inputs_name_of};
ghost use Rattle.round_inputs.specs.KeptInputs.{rescue_read, keeps_sums, begun_of_round, keeps_files};

use crate::begun::begun_text;
use crate::inputs::{Inputs, inputs_of, inputs_text};
use dag_main_check::RunFault;
use dag_main_files::{Change, Changes, LAST_NUMBER, Noted, Place, rescue_path};
use dag_reader::Text;
use event_journal::FileDisk;
use event_journal_log::put_bytes;
use splices_flat::FileSet;
use std::alloc::{AllocError, Global};
use std::fs::{self, File, OpenOptions};
use std::os::unix::fs::OpenOptionsExt;
use std::rt::Files;

/// The greatest size of the text that keeps the files of a round, in bytes, 64 MiB: no larger file is read there.
pub const MOST_OF_BEGUN: usize = 1 << 26;

/// The permissions of a file that only its owner reads.
const OWNER_ALONE: u32 = 0o600;

/// The path of the file beside a DAG file that says what its last round was begun with: that of the DAG
/// file, and `.inputs`.
pub fn inputs_path(alloc: Global, top: &str) -> Result<Text, AllocError>
    ensures { IfOk result (λ name. name ≡ inputs_name_of top.now) }
{
    Text::joined(alloc, top, ".inputs")
}

/// The path of the file beside a DAG file that keeps the files which its last round was begun with: that of the
/// DAG file, and `.begun`.
pub fn begun_path(alloc: Global, top: &str) -> Result<Text, AllocError>
    ensures { IfOk result (λ name. name ≡ begun_name_of top.now) }
{
    Text::joined(alloc, top, ".begun")
}

/// The disk of the file of this path, which is written under its name with `.new` after it, and named once it is
/// whole.
fn drafted_disk<R: Files<File = File> + AllocGlobal + Copy + Drop>(
    rt: R,
    place: &Place<'_>,
    path: &str,
) -> Result<FileDisk<R>, AllocError> {
    let alloc = rt.alloc();
    let draft = Text::joined(alloc, path, ".new")?;
    let path = place.at(alloc, path)?;
    let draft = place.at(alloc, draft.as_str())?;
    let path = String::from_str(alloc, path.as_str())?;
    let draft = String::from_str(alloc, draft.as_str())?;
    Ok(FileDisk::drafted(rt, path, draft))
}

/// Writes the file of this path under another name, which is synced and renamed, and syncs the folder.
///
/// # Errors
/// `FileRefused` with the path, where the system refuses it: then it stays as it was. `Memory`.
fn write_drafted<R: Files<File = File> + AllocGlobal + Copy + Drop>(
    rt: R,
    place: &Place<'_>,
    path: &Text,
    text: &Vec<u8>,
    changes: &mut Changes,
) -> Result<(), RunFault>
    ensures refused { IfErr result (IsRefusalOf path.now) }
    ensures changes { OnOk result (changes.new ≡ changes.old ++ (path.now, Written text.now.items) ∷ []) }
    ensures no_change { OnErr result (changes.new ≡ changes.old) }
{
    let mut disk = drafted_disk(rt, place, path.as_str())?;
    match put_bytes(&mut disk, text) {
        Ok(()) => {
            changes.note(path, Change::Written(Noted::bytes(text)));
            Ok(())
        }
        Err(_) => Err(RunFault::FileRefused(String::from_str(rt.alloc(), path.as_str())?)),
    }
}

/// What a round of this DAG file was begun with: the rescue file too, of this number, if it read one.
fn inputs_at(
    alloc: Global,
    place: &Place<'_>,
    digest: &[u8; 32],
    files: &FileSet,
    used: u16,
    rescue: Option<&[u8]>,
) -> Result<Inputs, RunFault>
    ensures digest { IfOk result (λ inputs. inputs.digest ≡ digest.now) }
    ensures files { IfOk result (λ inputs. inputs.files.items
        ≡ map listed_of (entries_of files.now ++ rescue_entry (rescue_read place.now.top.now used (option_map (λ b. b.now) rescue.entry)))) }
    ensures err { IfErr result (λ fault. fault ≡ Memory) }
{
    match rescue {
        Some(bytes) if 1 <= used && used <= LAST_NUMBER => {
            let path = rescue_path(alloc, place.top, used)?;
            Ok(inputs_of(alloc, digest, files, Some((path.as_str(), bytes)))?)
        }
        _ => Ok(inputs_of(alloc, digest, files, None)?),
    }
}

/// Writes what a round is begun with beside its DAG file, in place of what is there of an earlier one: the
/// digest of its plan, the files that this is a digest of, and the rescue file of this number, if the round
/// read one. The text is written under another name, synced and renamed, and the folder synced.
///
/// # Errors
/// `FileRefused` with the path of that file, where the system refuses it: then it stays as it was. `Memory`.
pub fn write_inputs<R: Files<File = File> + AllocGlobal + Copy + Drop>(
    rt: R,
    place: &Place<'_>,
    digest: &[u8; 32],
    files: &FileSet,
    used: u16,
    rescue: Option<&[u8]>,
    changes: &mut Changes,
) -> Result<(), RunFault>
    ensures refused { IfErr result (IsRefusalOf (inputs_name_of place.now.top.now)) }
    ensures changes { OnOk result (changes.new
        ≡ changes.old ++ keeps_sums place.now.top.now digest.now (entries_of files.now) used (option_map (λ b. b.now) rescue.entry)) }
    ensures no_change { OnErr result (changes.new ≡ changes.old) }
{
    let alloc = rt.alloc();
    let inputs = inputs_at(alloc, place, digest, files, used, rescue)?;
    let text = inputs_text(alloc, &inputs)?;
    let path = inputs_path(alloc, place.top)?;
    write_drafted(rt, place, &path, &text, changes)
}

/// How many bytes these files and this rescue file have, at least: those of their paths and their own.
fn least_size(files: &FileSet, rescue: Option<&[u8]>) -> usize {
    let mut size = match rescue {
        Some(bytes) => bytes.len(),
        None => 0,
    };
    for (path, bytes) in files.iter() {
        size = size.saturating_add(path.len()).saturating_add(bytes.len());
    }
    size
}

/// The text that keeps the files of a round, unless it is too large.
fn begun_at(
    alloc: Global,
    place: &Place<'_>,
    digest: &[u8; 32],
    files: &FileSet,
    used: u16,
    rescue: Option<&[u8]>,
) -> Result<Option<Vec<u8>>, RunFault>
    ensures text { IfOk result (λ text. IfSome text (λ bytes. bytes.items
        ≡ begun_of_round place.now.top.now digest.now (entries_of files.now) used (option_map (λ b. b.now) rescue.entry))) }
    ensures err { IfErr result (λ fault. fault ≡ Memory) }
{
    if least_size(files, rescue) > MOST_OF_BEGUN {
        return Ok(None);
    }
    let text = match rescue {
        Some(bytes) if 1 <= used && used <= LAST_NUMBER => {
            let path = rescue_path(alloc, place.top, used)?;
            begun_text(alloc, digest, files, Some((path.as_str(), bytes)))?
        }
        _ => begun_text(alloc, digest, files, None)?,
    };
    if text.len() > MOST_OF_BEGUN {
        return Ok(None);
    }
    Ok(Some(text))
}

/// Makes the draft of the file of this path, empty, as one that only its owner may read: the files of a round may be such.
fn make_private<R: Files<File = File> + AllocGlobal>(
    rt: &R,
    place: &Place<'_>,
    path: &str,
) -> Result<(), AllocError> {
    let alloc = rt.alloc();
    let draft = Text::joined(alloc, path, ".new")?;
    let draft = place.at(alloc, draft.as_str())?;
    let _ = fs::remove_file(rt, draft.as_str());
    let mut options = OpenOptions::new();
    let made = options.write(true).create_new(true).mode(OWNER_ALONE);
    let _ = made.open(rt, draft.as_str());
    Ok(())
}

/// Writes the files that a round is begun with beside its DAG file, as `write_inputs` writes their sums, and
/// answers whether it did: a text of more than 64 MiB is left out, and the file of an earlier round is removed. Only its
/// owner may read it.
///
/// # Errors
/// `FileRefused` with the path of that file, where the system refuses it: then it stays as it was. `Memory`.
pub fn write_begun<R: Files<File = File> + AllocGlobal + Copy + Drop>(
    rt: R,
    place: &Place<'_>,
    digest: &[u8; 32],
    files: &FileSet,
    used: u16,
    rescue: Option<&[u8]>,
    changes: &mut Changes,
) -> Result<bool, RunFault>
    ensures refused { IfErr result (IsRefusalOf (begun_name_of place.now.top.now)) }
    ensures changes { IfOk result (λ is_kept. changes.new
        ≡ changes.old ++ keeps_files is_kept place.now.top.now digest.now (entries_of files.now) used (option_map (λ b. b.now) rescue.entry)) }
    ensures no_change { OnErr result (changes.new ≡ changes.old) }
{
    let alloc = rt.alloc();
    let path = begun_path(alloc, place.top)?;
    let Some(text) = begun_at(alloc, place, digest, files, used, rescue)? else {
        let file = place.at(alloc, path.as_str())?;
        let _ = fs::remove_file(&rt, file.as_str());
        changes.note(&path, Change::Removed);
        return Ok(false);
    };
    make_private(&rt, place, path.as_str())?;
    write_drafted(rt, place, &path, &text, changes)?;
    Ok(true)
}
