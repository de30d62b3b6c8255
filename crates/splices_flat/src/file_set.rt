//! Files by their names.

ghost use Rattle.std.specs.Prelude.{◌≡◌, ◌≢◌, ℕ, List, None, Some, OnOk, OnErr};
ghost use Rattle.std.specs.Option.{option_map};
ghost use Rattle.std.specs.BTreeMap.{IsOrdered, keys};
ghost use Rattle.std.specs.List.Sorted.{IsStrictlySortedBy-prop};
ghost use Rattle.std.specs.Prelude.{string_cmp};

use std::alloc::{AllocError, Global};
use std::collections::BTreeMap;
use std::collections::btree_map::Iter;

/// Files by their names, in the order of the bytes of the names. So sets with the same files have
/// them in the same order.
#[derive(Drop)]
pub struct FileSet {
    files: BTreeMap<String, Vec<u8>>,
    ghost rising: { IsOrdered string_cmp files } by { IsStrictlySortedBy-prop string_cmp (keys files) },
}

impl FileSet {
    ghost use Rattle.splices_flat.specs.FileSet.{bytes_of};

    pub fn new(alloc: Global) -> FileSet
        ensures { (name : List ℕ) → bytes_of result name ≡ None }
    {
        FileSet {
            files: BTreeMap::new(alloc),
        }
    }

    /// Puts a file under this name, in place of one that was there. Where memory runs out, all files
    /// stay as they were.
    pub fn add(&mut self, alloc: Global, name: &str, bytes: &[u8]) -> Result<(), AllocError>
        ensures added { OnOk result (bytes_of self.new name.now ≡ Some bytes.now) }
        ensures others { OnOk result ((other : List ℕ) → other ≢ name.now → bytes_of self.new other ≡ bytes_of self.old other) }
        ensures refused { OnErr result ((other : List ℕ) → bytes_of self.new other ≡ bytes_of self.old other) }
    {
        self.add_owned(alloc, name, Vec::from_slice(alloc, bytes)?)
    }

    /// The same of bytes that are handed over, and not copied.
    pub fn add_owned(&mut self, alloc: Global, name: &str, bytes: Vec<u8>) -> Result<(), AllocError>
        ensures added { OnOk result (bytes_of self.new name.now ≡ Some bytes.items) }
        ensures others { OnOk result ((other : List ℕ) → other ≢ name.now → bytes_of self.new other ≡ bytes_of self.old other) }
        ensures refused { OnErr result ((other : List ℕ) → bytes_of self.new other ≡ bytes_of self.old other) }
    {
        self.files.insert(String::from_str(alloc, name)?, bytes)?;
        Ok(())
    }

    /// What was last put under this name.
    pub fn get(&self, name: &str) -> Option<&[u8]>
        ensures { option_map (λ b. b.now) result ≡ bytes_of self.now name.now }
    {
        match self.files.get(name) {
            Some(bytes) => Some(bytes.as_slice()),
            None => None,
        }
    }

    /// The names and the files, in the order of the bytes of the names.
    pub fn iter(&self) -> Iter<'_, String, Vec<u8>>
        ensures entries { result ≡ self.now.files.entries }
        ensures in_order { IsOrdered string_cmp self.now.files }
    {
        self.files.iter()
    }
}
