//! What holds of the definitions alone. No program calls these functions.

ghost use Rattle.std.specs.Prelude.{◌≡◌, ℕ, List, [], None, Ok};
ghost use Rattle.splices_flat.specs.Dag.{Dag};
ghost use Rattle.splices_flat.specs.Faults.{files_fault};
ghost use Rattle.splices_flat.specs.Forest.{Tree, tree_files};
ghost use Rattle.splices_flat.specs.Opened.{dag_at, flat_of};
ghost use Rattle.splices_flat.specs.Opening.{Files, tree_at};
ghost use Rattle.splices_flat.specs.OpenedFiles.{IsOpenedTree};
ghost use Rattle.splices_flat.specs.Regular.{IsRegular};

/// What is opened are the files that the rules say: each is there, its lines spell its commands,
/// and the files of its SPLICE lines are opened in their order. There is one such opening alone.
pub fn one_opening()
    ensures opened { (files : Files) (top : List ℕ) (tree : Tree) →
        tree_at files top ≡ Ok tree → IsOpenedTree files top tree }
    ensures one { (files : Files) (top : List ℕ) (tree other : Tree) →
        IsOpenedTree files top tree → IsOpenedTree files top other → tree ≡ other }
{}

/// Files are opened exactly where the rules open them: they are there, spell commands and don't lie
/// in themselves, declare their names once and FINAL in the top file alone, and are not too many or
/// too deep. They make a DAG exactly where no name in them is where it can't be.
pub fn refused_by_rules_alone()
    ensures opens { (files : Files) (top : List ℕ) (tree : Tree) →
        IsOpenedTree files top tree → IsRegular tree → tree_at files top ≡ Ok tree }
    ensures regular { (files : Files) (top : List ℕ) (tree : Tree) →
        tree_at files top ≡ Ok tree → IsRegular tree }
    ensures dag { (files : Files) (top : List ℕ) (tree : Tree) →
        IsOpenedTree files top tree → IsRegular tree → files_fault (tree_files [] tree) ≡ None →
        dag_at files top ≡ Ok (flat_of top tree) }
    ensures only { (files : Files) (top : List ℕ) (dag : Dag) → dag_at files top ≡ Ok dag →
        (tree : Tree) × IsOpenedTree files top tree × IsRegular tree
        × (files_fault (tree_files [] tree) ≡ None) × (dag ≡ flat_of top tree) }
{}
