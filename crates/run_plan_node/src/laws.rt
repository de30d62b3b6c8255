//! Laws of the definitions alone. No program calls them.

ghost use Rattle.std.specs.Prelude.{◌≡◌, ℕ, ◌≤◌, true, false, Ok};
ghost use Rattle.node_machine.specs.declared.Phase.{Phase};
ghost use Rattle.run_plan_node.specs.declared.command.ChildCommand.{ChildCommand};
ghost use Rattle.run_plan_node.specs.declared.command.PhaseFacts.{PhaseFacts};
ghost use Rattle.run_plan_node.specs.Node.{NodeSpec};
ghost use Rattle.run_plan_node.specs.Commands.{phase_command, is_expandable, uses_whole_run, greatest, HaveSameEnds};

/// Where the texts of a node's job can be expanded in its last attempt with the greatest launch
/// number, each of its phases has a command in each attempt that is allowed.
pub fn commands_exist()
    ensures { (node : NodeSpec) (attempt : ℕ) (phase : Phase) (facts : PhaseFacts) →
        is_expandable node ≡ true → attempt ≤ node.course.retries → facts.launch ≤ greatest →
        (command : ChildCommand) × (phase_command node attempt phase facts ≡ Ok command) }
{}

/// The commands of a node without whole-run words follow from the attempt and from how the phases
/// before ended in it: what else is known of a run doesn't change them.
pub fn plain_commands()
    ensures { (node : NodeSpec) (attempt : ℕ) (phase : Phase) (facts other : PhaseFacts) →
        is_expandable node ≡ true → uses_whole_run node ≡ false → attempt ≤ node.course.retries →
        HaveSameEnds phase facts other →
        phase_command node attempt phase facts ≡ phase_command node attempt phase other }
{}
