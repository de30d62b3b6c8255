//! The names in a text.

ghost use Rattle.std.specs.Prelude.{◌≡◌, IfOk, IfSome};
ghost use Rattle.vars_macros.specs.NameTable.{KeepsNumbers};
ghost use Rattle.vars_macros.specs.NamePlaces.{AreNamesOf, IsNameOf, name_at};

use crate::cut::{lawful_name, word_len};
use crate::numbering::Names;
use std::alloc::{AllocError, Global};
use std::collections::BTreeMap;

/// How long a name in a text is, and its number.
#[derive(Clone, Copy, Debug)]
pub(crate) struct Name {
    pub(crate) len: usize,
    pub(crate) number: usize,
}

/// The names after the parentheses of a text, by the places where they begin.
#[derive(Debug, Drop)]
pub(crate) struct NamePlaces {
    names: BTreeMap<usize, Name>,
}

impl NamePlaces {
    /// Those of a text, which is gone over once. Each name gets a number.
    pub(crate) fn of(
        alloc: Global,
        text: &[u8],
        names: &mut Names,
    ) -> Result<NamePlaces, AllocError>
        ensures names { IfOk result (λ places. AreNamesOf names.new text.now (name_at places)) }
        ensures keeps { KeepsNumbers names.old names.new }
    {
        let mut places = BTreeMap::new(alloc);
        for at in 0..text.len() {
            if text[at] == b'(' {
                if let Some(name) = name_ahead(alloc, &text[at + 1..], names)? {
                    places.insert(at + 1, name)?;
                }
            }
        }
        Ok(NamePlaces { names: places })
    }

    /// The name that begins at this place.
    pub(crate) fn get(&self, at: usize) -> Option<Name>
        ensures { result ≡ name_at self.now at }
    {
        self.names.get(&at).copied()
    }
}

/// The name that a text begins with, if a reference may have it. It gets a number.
fn name_ahead(alloc: Global, text: &[u8], names: &mut Names) -> Result<Option<Name>, AllocError>
    ensures name { IfOk result (λ found. IfSome found (λ name. IsNameOf names.new text.now name)) }
    ensures keeps { KeepsNumbers names.old names.new }
{
    match lawful_name(&text[..word_len(text)]) {
        Some(name) => {
            let number = names.give(name.to_ascii_lowercase(alloc)?)?;
            Ok(Some(Name {
                len: name.len(),
                number,
            }))
        }
        None => Ok(None),
    }
}
