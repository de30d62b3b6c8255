//! The columns that a text takes on a terminal.

ghost use Rattle.std.specs.Prelude.{◌≡◌, ◌≤◌, nat_le, chars};
ghost use Rattle.run_progress.specs.Columns.{column_count, columns};

use unicode_width::UnicodeWidthChar;

/// The columns that a terminal gives a character; a control character takes none.
fn column_count(character: char) -> usize
    ensures is { result ≡ column_count character }
    ensures few { result ≤ 3 }
{
    match character.width() {
        Some(count) => count,
        None => 0,
    }
}

/// Whether a text takes no more columns than this on a terminal, which goes by each character alone.
pub fn fits(text: &str, width: usize) -> bool
    ensures { result ≡ nat_le (columns (chars text.now)) width }
{
    let mut room = width;
    for character in text.chars() {
        let own = column_count(character);
        if room < own {
            return false;
        }
        room -= own;
    }
    true
}
