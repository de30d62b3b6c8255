//! What holds of the definitions alone. No program calls these functions.

ghost use Rattle.std.specs.Prelude.{◌≡◌, List, IsTrue, ◌&&◌, is_none};
ghost use Rattle.node_machine.specs.declared.Course.{Course};
ghost use Rattle.node_machine.specs.declared.Ended.{Ended};
ghost use Rattle.node_machine.specs.Story.{next_after, is_good_after, value_after, attempts_ended_after, attempts_after, phases_of, is_history, BeginsWith};
ghost use Rattle.node_machine.specs.MachineState.{machine_after, next_of, attempts_ended};

/// The phases of a node that ended are the beginning of its story by their outcomes.
pub fn histories()
    ensures { (course : Course) (es : List Ended) → IsTrue (is_history course es) →
        BeginsWith (phases_of (attempts_after course es)) es }
{}

/// Step by step a node is where its story by the outcomes so far says.
pub fn stands()
    ensures next { (course : Course) (es : List Ended) → IsTrue (is_history course es) →
        next_after course es ≡ next_of (machine_after course es) (machine_after course es).phase }
    ensures good { (course : Course) (es : List Ended) → IsTrue (is_history course es) →
        is_good_after course es
        ≡ (is_none (machine_after course es).phase && (machine_after course es).good) }
    ensures value { (course : Course) (es : List Ended) → IsTrue (is_history course es) →
        value_after course es ≡ (machine_after course es).value }
    ensures attempts { (course : Course) (es : List Ended) → IsTrue (is_history course es) →
        attempts_ended_after course es ≡ attempts_ended (machine_after course es) }
{}
