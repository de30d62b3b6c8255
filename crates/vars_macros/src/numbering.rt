//! Names and their numbers.

ghost use Rattle.std.specs.Prelude.{◌≡◌, ◌<◌, ℕ, List, Some, None, IfOk, IsTrue, length, string_bytes};
ghost use Rattle.std.specs.HashMap.{get_by_text};
ghost use Rattle.vars_macros.specs.Names.{lower};
ghost use Rattle.vars_macros.specs.Numbering.{NumbersAreApart};

use indexmap::IndexMap;
use std::alloc::{AllocError, Global};

/// Names in lower case. Each has a number from 0 on, by which it is found without going over its
/// bytes, and by its number the place of what was assigned to it last.
#[derive(Debug, Drop)]
pub(crate) struct Names {
    numbers: IndexMap<String, usize>,
    last: Vec<Option<usize>>,
    ghost apart: { NumbersAreApart (get_by_text numbers) (length last.items) },
}

impl Names {
    ghost use Rattle.vars_macros.specs.NameTable.{IsGiven, KeepsNumbers, last_at, number_of_name, place_in};

    /// No names.
    pub(crate) fn new(alloc: Global) -> Names
        ensures { (key : List ℕ) → place_in result key ≡ None }
    {
        Names {
            numbers: IndexMap::new(alloc),
            last: Vec::new(alloc),
        }
    }

    /// The number of a name, if it has one.
    pub(crate) fn number(&self, key: &str) -> Option<usize>
        ensures { result ≡ number_of_name self.now key.now }
    {
        self.numbers.get(key).copied()
    }

    /// The number of a name in any case of ASCII letters, if it has one.
    pub(crate) fn number_in_any_case(
        &self,
        alloc: Global,
        name: &str,
    ) -> Result<Option<usize>, AllocError>
        ensures { IfOk result (λ number. number ≡ number_of_name self.now (lower name.now)) }
    {
        // The names that are read for each job are in lower case, and need no copy.
        if is_lower(name.as_bytes()) {
            return Ok(self.number(name));
        }
        let key = name.to_ascii_lowercase(alloc)?;
        Ok(self.number(key.as_str()))
    }

    /// The number of a name, which gets one where it has none.
    pub(crate) fn give(&mut self, key: String) -> Result<usize, AllocError>
        ensures given { IfOk result (λ number. number_of_name self.new (string_bytes key) ≡ Some number) }
        ensures within { IfOk result (λ number. number < length self.new.last.items) }
        ensures keeps { KeepsNumbers self.old self.new }
    {
        if let Some(number) = self.number(key.as_str()) {
            return Ok(number);
        }
        let number = self.last.len();
        self.last.push(None)?;
        self.numbers.insert(key, number)?;
        Ok(number)
    }

    /// The place of what was assigned last to the name with this number.
    pub(crate) fn last(&self, number: usize) -> Option<usize>
        ensures { result ≡ last_at self.now.last.items (Some number) }
    {
        match self.last.get(number) {
            Some(place) => *place,
            None => None,
        }
    }

    /// Something was assigned to the name with this number.
    pub(crate) fn assign(&mut self, number: usize, place: usize)
        requires { number < length self.old.last.items }
        ensures numbers { (key : List ℕ) → number_of_name self.new key ≡ number_of_name self.old key }
        ensures places { (key : List ℕ) → number_of_name self.old key ≡ Some number → IsGiven (place_in self.old) (place_in self.new) key place }
    {
        self.last[number] = Some(place);
    }
}

/// Whether no byte is an ASCII letter in upper case.
fn is_lower(name: &[u8]) -> bool
    ensures { IsTrue result → lower name.now ≡ name.now }
{
    !name.iter().any(|byte| byte.is_ascii_uppercase())
}
