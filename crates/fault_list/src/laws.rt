//! What holds of the definitions alone. No program calls these functions.

ghost use Rattle.std.specs.Prelude.{◌≡◌, ℕ, ◌-◌, List};
ghost use Rattle.fault_list.specs.Emptied.{lines_emptied, lines_in, without_line};

/// The lines of a text in which one is emptied are those of the text, in which it and those that continue it are empty: all
/// others stay, with their numbers.
pub fn other_lines_stay()
    ensures { (number : ℕ) (text : List ℕ) →
        lines_in (without_line number text) ≡ lines_emptied (number - 1) (lines_in text) }
{}
