//! The parentheses of a text that close one another.

ghost use Rattle.std.specs.Prelude.{◌≡◌, IfOk};
ghost use Rattle.vars_macros.specs.Pairs.{ArePairsOf, closer_of};

use std::alloc::{AllocError, Global};
use std::collections::BTreeMap;

/// Where the parentheses of a text are closed, by the places where they open.
#[derive(Debug, Drop)]
pub(crate) struct Pairs {
    closers: BTreeMap<usize, usize>,
}

impl Pairs {
    /// The pairs of a text, which is gone over once.
    pub(crate) fn of(alloc: Global, text: &[u8]) -> Result<Pairs, AllocError>
        ensures { IfOk result (λ pairs. ArePairsOf text.now (closer_of pairs)) }
    {
        let mut closers = BTreeMap::new(alloc);
        let mut unpaired = Vec::new(alloc);
        for at in (0..text.len()).rev() {
            match text[at] {
                b')' => unpaired.push(at)?,
                b'(' => {
                    if let Some(close) = unpaired.pop() {
                        closers.insert(at, close)?;
                    }
                }
                _ => {}
            }
        }
        Ok(Pairs { closers })
    }

    /// Where the parenthesis is closed that opens at this place.
    pub(crate) fn closer_of(&self, at: usize) -> Option<usize>
        ensures { result ≡ closer_of self.now at }
    {
        self.closers.get(&at).copied()
    }
}
