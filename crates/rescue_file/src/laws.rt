//! What holds of the definitions alone. No program calls these functions.

ghost use Rattle.std.specs.Prelude.{◌≡◌, ℕ, Bool, List, length, Ok};
ghost use Rattle.std.specs.List.{range_with_len};
ghost use Rattle.splices_flat.specs.Dag.{Dag};
ghost use Rattle.splices_flat.specs.Opening.{Files};
ghost use Rattle.splices_flat.specs.Opened.{dag_at};
ghost use Rattle.rescue_file.specs.Written.{ordinary_names, marked, rescue_text_of};
ghost use Rattle.rescue_file.specs.Reading.{rescued_of};
ghost use Rattle.rescue_file.specs.Fit.{AreFit};

/// What is written is read again: the numbers of the marked nodes, in plan order.
pub fn read_back()
    ensures { (dag : Dag) (marks : List Bool) → AreFit dag
        → rescued_of dag (rescue_text_of (ordinary_names dag) marks)
        ≡ Ok (marked (range_with_len 0 (length dag.nodes)) marks) }
{}

/// What the files of a DAG say is such a DAG, so `read_back` holds of it.
pub fn opened_is_fit()
    ensures { (files : Files) (top : List ℕ) (dag : Dag) → dag_at files top ≡ Ok dag → AreFit dag }
{}
