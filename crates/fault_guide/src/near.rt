//! The word that somebody may have meant.

ghost use Rattle.std.specs.Prelude.{◌≡◌, ◌≤◌, map, option_map, IfOk};
ghost use Rattle.fault_guide.specs.Near.{most_edits, IsNearest};

use std::alloc::{AllocError, Global};
use strsim::osa_distance;

/// How many letters of a word may be other ones, missing, too many or swapped.
fn most_edits(word: &str) -> usize
    ensures most { result ≡ most_edits word.now }
    ensures few { result ≤ 3 }
{
    (word.len() / 3).min(3)
}

/// The one of some words that is nearest to this one, the first of several, where one is near: a letter of three
/// may differ, three at most, and as many bytes may be more or less. So a word of one or two letters is near itself alone.
///
/// # Errors
/// Lack of memory.
pub fn nearest<'a>(
    alloc: Global,
    word: &str,
    words: &[&'a str],
) -> Result<Option<&'a str>, AllocError>
    ensures { IfOk result (λ found. IsNearest word.now (map (λ w. w.now) words.now) (option_map (λ w. w.now) found)) }
{
    let most = most_edits(word);
    let mut found = None;
    let mut least = most + 1;
    for other in words {
        if other.len().abs_diff(word.len()) > most {
            continue;
        }
        let edits = osa_distance(alloc, word, other)?;
        if edits >= least {
            continue;
        }
        least = edits;
        found = Some(*other);
    }
    Ok(found)
}
