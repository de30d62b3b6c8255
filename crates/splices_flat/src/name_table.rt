//! Names in the order in which they were added.

ghost use Rattle.std.specs.Prelude.{◌≡◌, ◌++◌, [], ◌∷◌, ◌<◌, ◌==◌, false, length, position, IfSome, OnOk, OnErr};
ghost use Rattle.std.specs.List.{list_any};
ghost use Rattle.std.specs.Str.{bytes_eq};

use indexmap::IndexSet;
use std::alloc::{AllocError, Global};
use std::marker::Model;

/// Names, each of which has the number of its place. A contract sees the list of them.
#[derive(Debug, Drop)]
pub struct NameTable {
    names: IndexSet<String>,
}

impl Model for NameTable {
    ghost use Rattle.std.specs.Prelude.{ℕ, List, string_bytes, map};

    ghost Value = { List (List ℕ) };

    ghost view = { λ t. map string_bytes t.names.keys };
}

impl NameTable {
    /// No names.
    pub fn new(alloc: Global) -> NameTable
        ensures { result ≡ [] }
    {
        NameTable {
            names: IndexSet::new(alloc),
        }
    }

    /// The place of a name, if it is there.
    pub fn place_of(&self, name: &str) -> Option<usize>
        ensures value { result ≡ position (bytes_eq name.now) self.now }
        ensures within { IfSome result (λ k. k < length self.now) }
    {
        self.names.get_index_of(name)
    }

    /// How many names there are.
    pub fn len(&self) -> usize
        ensures { result ≡ length self.now }
    {
        self.names.len()
    }

    /// Whether there are none.
    pub fn is_empty(&self) -> bool
        ensures { result ≡ (length self.now == 0) }
    {
        self.names.is_empty()
    }

    /// Whether a name is there.
    pub fn has(&self, name: &str) -> bool
        ensures { result ≡ list_any (bytes_eq name.now) self.now }
    {
        self.names.contains(name)
    }

    /// Adds a name that is not there; it has the next place.
    pub fn add(&mut self, alloc: Global, name: &str) -> Result<(), AllocError>
        requires { list_any (bytes_eq name.now) self.old ≡ false }
        ensures ok { OnOk result (self.new ≡ self.old ++ name.now ∷ []) }
        ensures err { OnErr result (self.new ≡ self.old) }
    {
        self.names.insert(String::from_str(alloc, name)?)?;
        Ok(())
    }
}
