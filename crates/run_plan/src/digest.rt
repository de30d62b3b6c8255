//! The digest of what a plan is made from.

ghost use Rattle.std.specs.Prelude.{◌≡◌, ◌++◌, ℕ, List, []};
ghost use Rattle.std.specs.Option.{option_map, option_map_or};
ghost use Rattle.std.specs.List.{flat_map};
ghost use Rattle.sha2.specs.Hashers.{Holds256};
ghost use Rattle.splices_flat.specs.FileSet.{entries_of};
ghost use Rattle.run_plan.specs.Digest.{digest_of, sized, sized_file, sized_rescue};

use sha2::{Digest, Sha256};
use splices_flat::FileSet;

/// Adds a text after its length.
fn add_sized(hasher: &mut Sha256, text: &[u8])
    ensures { (m : List ℕ) → Holds256 hasher.old m → Holds256 hasher.new (m ++ sized text.now) }
{
    let length = (text.len() as u64).to_be_bytes();
    hasher.update(&length[..]);
    hasher.update(text);
}

/// Adds each file's name and content.
fn add_files(hasher: &mut Sha256, files: &FileSet)
    ensures { (m : List ℕ) → Holds256 hasher.old m → Holds256 hasher.new (m ++ flat_map sized_file (entries_of files.now)) }
{
    for (name, bytes) in files.iter() {
        add_sized(hasher, name.as_bytes());
        add_sized(hasher, bytes.as_slice());
    }
}

/// Adds a byte that says whether there is a rescue file, and its content.
fn add_rescue(hasher: &mut Sha256, rescue: Option<&[u8]>)
    ensures { (m : List ℕ) → Holds256 hasher.old m → Holds256 hasher.new (m ++ sized_rescue (option_map (λ b. b.now) rescue.entry)) }
{
    match rescue {
        Some(bytes) => {
            hasher.update(&[1u8][..]);
            add_sized(hasher, bytes);
        }
        None => hasher.update(&[0u8][..]),
    }
}

/// The digest of the path of the DAG file, of the files in the order of the bytes of their names,
/// and of the rescue file.
pub(crate) fn digest_of(top: &str, files: Option<&FileSet>, rescue: Option<&[u8]>) -> [u8; 32]
    ensures { result ≡ digest_of top.now (option_map_or (λ set. entries_of set.now) files.entry []) (option_map (λ b. b.now) rescue.entry) }
{
    let mut hasher = Sha256::new();
    add_sized(&mut hasher, top.as_bytes());
    if let Some(files) = files {
        add_files(&mut hasher, files);
    }
    add_rescue(&mut hasher, rescue);
    hasher.finalize()
}
