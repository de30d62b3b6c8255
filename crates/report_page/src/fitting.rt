//! Names, as long as there is room for them.

use crate::shapes::Caption;

/// How wide a letter of a drawing is at most, in pixels: its letters are all as wide as one another, but for those of
/// some scripts, which are twice as wide.
pub(crate) const LETTER: u64 = 8;

/// How many letters a character takes at most.
fn letters_of(character: char) -> u64 {
    if character.is_ascii() { 1 } else { 2 }
}

/// How many letters a name takes at most.
pub(crate) fn letters_in(name: &str) -> u64 {
    let mut letters: u64 = 0;
    for character in name.chars() {
        letters = letters.saturating_add(letters_of(character));
    }
    letters
}

/// A name, or its beginning where it takes more letters.
pub(crate) fn fitting<'a>(name: &'a str, most: u64) -> Caption<'a> {
    let mut letters: u64 = 0;
    for (place, character) in name.char_indices() {
        letters = letters.saturating_add(letters_of(character));
        if letters > most {
            return match name.get(..place) {
                Some(front) => Caption::Cut(front),
                None => Caption::Name(name),
            };
        }
    }
    Caption::Name(name)
}
