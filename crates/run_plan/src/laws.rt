//! Laws of the definitions alone. No program calls them.

ghost use Rattle.std.specs.Prelude.{◌≡◌, ℕ, List, Option};
ghost use Rattle.splices_flat.specs.FileSet.{bytes_of, entries_of};
ghost use Rattle.splices_flat.specs.declared.file_set.FileSet.{FileSet};
ghost use Rattle.run_plan.specs.Digest.{digest_of};

/// Sets with the same files have one digest, in whatever order the files were added.
pub fn equal_files()
    ensures { (a b : FileSet) → ((name : List ℕ) → bytes_of a name ≡ bytes_of b name) → (top : List ℕ) (rescue : Option (List ℕ)) →
        digest_of top (entries_of a) rescue ≡ digest_of top (entries_of b) rescue }
{}
