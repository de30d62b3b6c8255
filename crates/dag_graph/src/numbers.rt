//! Lists of numbers of nodes.

ghost use Rattle.std.specs.Prelude.{replicate, ◌≡◌, ◌++◌, ◌∷◌, [], ◌<◌, ◌^◌, ℕ, OnOk, IfOk, length, slice_index_or, map, if◌then◌else◌};
ghost use Rattle.std.specs.List.{All, range_with_len, sum_by};
ghost use Rattle.dag_graph.specs.Numbers.{has, IsLast, AreBelow, holders_of};

use smallvec::SmallVec;
use std::alloc::{AllocError, Global};
use std::marker::Model;

/// Numbers of nodes, of which up to four take no allocation. A contract sees the list of them.
#[derive(Drop)]
pub(crate) struct Numbers {
    numbers: SmallVec<u32, 4>,
}

impl Model for Numbers {
    ghost use Rattle.std.specs.Prelude.{List, ℕ};

    ghost Value = { List ℕ };

    ghost view = { λ n. n.numbers.items };
}

impl Numbers {
    /// No numbers.
    pub(crate) fn new(alloc: Global) -> Numbers
        ensures { result ≡ [] }
    {
        Numbers {
            numbers: SmallVec::new(alloc),
        }
    }

    /// The numbers as a slice.
    pub(crate) fn as_slice(&self) -> &[u32]
        ensures { result.now ≡ self.now }
    {
        self.numbers.as_slice()
    }

    /// Adds a number after the others.
    pub(crate) fn push(&mut self, number: u32) -> Result<(), AllocError>
        ensures { OnOk result (self.new ≡ self.old ++ number ∷ []) }
    {
        self.numbers.push(number)?;
        Ok(())
    }

    /// Adds numbers after the others.
    pub(crate) fn extend(&mut self, numbers: &[u32]) -> Result<(), AllocError>
        ensures { OnOk result (self.new ≡ self.old ++ numbers.now) }
    {
        self.numbers.extend_from_slice(numbers)
    }

    /// Adds a number after the others, unless it is the last of them.
    pub(crate) fn add(&mut self, number: u32) -> Result<(), AllocError>
        ensures kept { IsLast self.old number → OnOk result (self.new ≡ self.old) }
        ensures added { ¬ (IsLast self.old number) → OnOk result (self.new ≡ self.old ++ number ∷ []) }
    {
        match self.numbers.as_slice().last() {
            Some(last) if *last == number => Ok(()),
            _ => {
                self.numbers.push(number)?;
                Ok(())
            }
        }
    }
}

/// As many lists, each of which is empty.
pub(crate) fn empty_lists(alloc: Global, count: usize) -> Result<Vec<Numbers>, AllocError>
    ensures { IfOk result (λ v. v.items ≡ replicate count []) }
{
    let mut lists = Vec::new(alloc);
    for index in 0..count {
        let _ = index;
        lists.push(Numbers::new(alloc))?;
    }
    Ok(lists)
}

/// Adds a number to the list at each of these places; a place may be there more than once.
pub(crate) fn add_at(
    lists: &mut Vec<Numbers>,
    places: &[u32],
    number: u32,
) -> Result<(), AllocError>
    requires within { All (λ m. m < length lists.old.items) places.now }
    requires unused { (v : ℕ) → v < length lists.old.items → ¬ (IsLast (slice_index_or lists.old.items v []) number) }
    ensures len { length lists.new.items ≡ length lists.old.items }
    ensures each { OnOk result ((v : ℕ) → v < length lists.old.items → slice_index_or lists.new.items v [] ≡ slice_index_or lists.old.items v [] ++ (if has places.now v then number ∷ [] else [])) }
{
    for place in places {
        lists[*place as usize].add(number)?;
    }
    Ok(())
}

/// Of each of `count` numbers the lists that hold it, ascending and each once.
pub(crate) fn inverted(
    alloc: Global,
    count: usize,
    lists: &[Numbers],
) -> Result<Vec<Numbers>, AllocError>
    requires few { length lists.now < 2 ^ 32 }
    requires within { AreBelow count lists.now }
    ensures { IfOk result (λ v. v.items ≡ map (holders_of lists.now) (range_with_len 0 count)) }
{
    let mut inverse = empty_lists(alloc, count)?;
    for (number, list) in lists.iter().enumerate() {
        add_at(&mut inverse, list.as_slice(), number as u32)?;
    }
    Ok(inverse)
}

/// How many numbers are in lists.
pub(crate) fn total_length(lists: &[Numbers]) -> usize
    requires { sum_by length lists.now < 2 ^ 64 }
    ensures { result ≡ sum_by length lists.now }
{
    let mut total = 0;
    for list in lists {
        total += list.as_slice().len();
    }
    total
}
