//! What holds of the definitions alone. No program calls these functions.

ghost use Rattle.dag_reader.specs.Blanks.{ReadsOnlyItsFields};
ghost use Rattle.dag_reader.specs.Leftmost.{FaultsAreLeftmost};

/// The fault of a command is the first from the left: the words before it begin a command, and
/// with the word that has it they begin none.
pub fn leftmost()
    ensures { FaultsAreLeftmost }
{}

/// The command of a line reads only what the words of the line fill.
pub fn only_its_fields()
    ensures { ReadsOnlyItsFields }
{}
