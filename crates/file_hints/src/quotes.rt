//! Double quotes in arguments of the old style.

ghost use Rattle.std.specs.Prelude.{◌≡◌};
ghost use Rattle.file_hints.specs.Quotes.{has_bare_quote, quote_hint};

use crate::hint::Hint;
use crate::macros::begins_with;

/// What is odd in these arguments, which are expanded: they are of the old style, and have a double quote without a backslash. It is a
/// letter of a word, and opens no group.
pub fn quote_hint(text: &str) -> Option<Hint>
    ensures { result ≡ quote_hint text.now }
{
    let bytes = text.as_bytes();
    if !begins_with(b'"', bytes) && has_bare_quote(bytes) {
        Some(Hint::BareQuote)
    } else {
        None
    }
}

/// Whether a text has a double quote with no backslash before it.
fn has_bare_quote(text: &[u8]) -> bool
    ensures { result ≡ has_bare_quote 0 text.now }
{
    let mut before = 0;
    let mut rest = text;
    while let [byte, behind @ ..] = rest {
        if *byte == b'"' && before != b'\\' {
            return true;
        }
        before = *byte;
        rest = behind;
    }
    false
}
