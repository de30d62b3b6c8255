//! Parts of texts.

ghost use Rattle.std.specs.Prelude.{◌≡◌, ◌<◌, ◌≤◌, ◌+◌, ◌^◌, [], Some, length, take, drop, slice_get, IfSome, option_copied};
ghost use Rattle.vars_macros.specs.Cut.{closing};
ghost use Rattle.vars_macros.specs.NamePlaces.{AreNamesOf, AreNamesIn, IsNameOf, name_at_place};
ghost use Rattle.vars_macros.specs.Pairs.{ArePairsOf, ArePairsIn, closer_in, closer_of};

use crate::naming::{Name, NamePlaces};
use crate::numbering::Names;
use crate::pairs::Pairs;

/// A part of a text, from the place `start` of it on, with the text's pairs of parentheses and its
/// names: so how far a reference reaches, and which name it has, is found without going over it.
#[derive(Clone, Copy)]
pub(crate) struct Part<'a> {
    bytes: &'a [u8],
    start: usize,
    pairs: Option<&'a Pairs>,
    places: Option<&'a NamePlaces>,
    names: &'a Names,
    ghost fits: { start + length bytes.now < 2 ^ 64 },
    ghost paired: { ArePairsIn start bytes.now (closer_in (option_copied pairs)) },
    ghost named: { AreNamesIn names.now start bytes.now (name_at_place (option_copied places)) },
}

impl<'a> Part<'a> {
    /// The whole of a text, whose names have these numbers.
    pub(crate) fn whole(
        text: &'a [u8],
        pairs: &'a Pairs,
        places: Option<&'a NamePlaces>,
        names: &'a Names,
    ) -> Part<'a>
        requires pairs { ArePairsOf text.now (closer_of pairs.now) }
        requires names { AreNamesOf names.now text.now (name_at_place (option_copied places)) }
        ensures bytes { result.bytes.now ≡ text.now }
        ensures names { result.names.now ≡ names.now }
    {
        Part {
            bytes: text,
            start: 0,
            pairs: Some(pairs),
            places,
            names,
        }
    }

    /// Nothing.
    pub(crate) fn empty(names: &'a Names) -> Part<'a>
        ensures bytes { result.bytes.now ≡ [] }
        ensures names { result.names.now ≡ names.now }
    {
        Part {
            bytes: b"",
            start: 0,
            pairs: None,
            places: None,
            names,
        }
    }

    /// The bytes.
    pub(crate) fn bytes(self) -> &'a [u8]
        ensures { result.now ≡ self.entry.bytes.now }
    {
        self.bytes
    }

    /// What is after the first `n` bytes.
    pub(crate) fn behind(self, n: usize) -> Part<'a>
        requires { n ≤ length self.bytes.now }
        ensures bytes { result.bytes.now ≡ drop n self.entry.bytes.now }
        ensures names { result.names.now ≡ self.entry.names.now }
    {
        Part {
            bytes: &self.bytes[n..],
            start: self.start + n,
            pairs: self.pairs,
            places: self.places,
            names: self.names,
        }
    }

    /// The first `n` bytes.
    pub(crate) fn first(self, n: usize) -> Part<'a>
        requires { n ≤ length self.bytes.now }
        ensures bytes { result.bytes.now ≡ take n self.entry.bytes.now }
        ensures names { result.names.now ≡ self.entry.names.now }
    {
        Part {
            bytes: &self.bytes[..n],
            start: self.start,
            pairs: self.pairs,
            places: self.places,
            names: self.names,
        }
    }

    /// Of a part that a parenthesis opens: how many bytes are between it and the one that closes
    /// it.
    pub(crate) fn closing(self) -> Option<usize>
        requires { slice_get self.bytes.now 0 ≡ Some 40 }
        ensures value { result ≡ closing (drop 1 self.entry.bytes.now) }
        ensures within { IfSome result (λ n. n + 1 < length self.entry.bytes.now) }
    {
        let close = self.pairs?.closer_of(self.start)?;
        if close < self.start + self.bytes.len() {
            Some(close - (self.start + 1))
        } else {
            None
        }
    }

    /// The name that the part begins with, where it is known.
    pub(crate) fn name(self) -> Option<Name>
        ensures { IfSome result (λ name. IsNameOf self.entry.names.now self.entry.bytes.now name) }
    {
        let name = self.places?.get(self.start)?;
        if name.len <= self.bytes.len() {
            Some(name)
        } else {
            None
        }
    }
}
