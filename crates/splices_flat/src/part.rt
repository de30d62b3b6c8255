//! What a splice is to the lines of the file that names it.

ghost use Rattle.std.specs.Prelude.{◌≡◌, ◌++◌, [], ◌∷◌, OnOk, OnErr};

use crate::flat::Side;
use std::alloc::{AllocError, Global};
use std::marker::Model;

/// Numbers of nodes.
#[derive(Debug, Drop)]
pub struct Numbers {
    items: Vec<usize>,
}

impl Model for Numbers {
    ghost use Rattle.std.specs.Prelude.{ℕ, List};

    ghost Value = { List ℕ };

    ghost view = { λ n. n.items.items };
}

impl Numbers {
    /// The numbers as a slice.
    pub fn as_slice(&self) -> &[usize]
        ensures { result.now ≡ self.now }
    {
        self.items.as_slice()
    }

    /// No numbers.
    pub fn new(alloc: Global) -> Numbers
        ensures { result ≡ [] }
    {
        Numbers {
            items: Vec::new(alloc),
        }
    }

    /// Puts a number after the others; where memory is refused they stay as they were.
    pub fn push(&mut self, number: usize) -> Result<(), AllocError>
        ensures ok { OnOk result (self.new ≡ self.old ++ number ∷ []) }
        ensures err { OnErr result (self.new ≡ self.old) }
    {
        // Most sides of a line have one node, and a list that grows by itself begins with room for four.
        if self.items.is_empty() {
            self.items.reserve_exact(1)?;
        }
        self.items.push(number)?;
        Ok(())
    }

    /// Puts numbers after the others.
    pub fn append(&mut self, numbers: &[usize]) -> Result<(), AllocError>
        ensures { OnOk result (self.new ≡ self.old ++ numbers.now) }
    {
        self.items.extend_from_slice(numbers)?;
        Ok(())
    }
}

/// The nodes of a splice with no parent in it, those with no child in it, and how many it has.
#[derive(Debug, Drop)]
pub struct Part {
    pub heads: Numbers,
    pub tails: Numbers,
    pub count: usize,
}

impl Part {
    ghost use Rattle.splices_flat.specs.Edges.{side_of};

    /// The nodes that a splice stands for on this side of an edge: as a parent those with no child in
    /// it, as a child those with no parent in it.
    pub fn side(&self, side: Side) -> &[usize]
        ensures { result.now ≡ side_of side self.now }
    {
        match side {
            Side::Parent => self.tails.as_slice(),
            Side::Child => self.heads.as_slice(),
        }
    }
}
