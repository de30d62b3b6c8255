//! A topological order, or a path that comes back.
//!
//! From each node in turn the climb goes up to a parent that has no place in the order yet, and on
//! from there. A node all of whose parents have a place gets the next one. A parent without a place
//! that was met before is on the path, so the path from it on is a cycle. Each node is met once,
//! and each parent of a node looked at once or twice.

ghost use Rattle.std.specs.Prelude.{◌≡◌, ◌<◌, ◌≤◌, ◌+◌, ◌-◌, ◌^◌, [], true, false, None, Some, IfOk, OnOk, IfNone, length, replicate, slice_get, slice_index};
ghost use Rattle.std.specs.Option.{MatchOption};
ghost use Rattle.dag_graph.specs.Numbers.{AreBelow};
ghost use Rattle.dag_graph.specs.Climb.{IsClimb, IsClosed, ClimbsOn, IsThrough, IsFullClimb, up, is_entered, is_placed, with_entered, with_passed, with_order_place};

use crate::numbers::Numbers;
use std::alloc::{AllocError, Global};
use std::marker::Model;

/// How far the climb is.
#[derive(Drop)]
pub(crate) struct Climb {
    /// The nodes that were met.
    entered: Vec<bool>,
    /// The nodes in the order.
    placed: Vec<bool>,
    /// Of each node how many of its parents have a place.
    next: Vec<usize>,
    order: Vec<u32>,
    /// From a node to one of its parents, and so on.
    path: Vec<u32>,
}

impl Model for Climb {
    ghost use Rattle.dag_graph.specs.Climb.{Climbing};

    ghost Value = { Climbing };

    ghost view = { λ c. record { entered = c.entered.items; placed = c.placed.items; next = c.next.items; order = c.order.items; path = c.path.items } };
}

impl Climb {
    /// No node is met.
    pub(crate) fn new(alloc: Global, count: usize) -> Result<Climb, AllocError>
        ensures { IfOk result (λ c. c ≡ record { entered = replicate count false; placed = replicate count false; next = replicate count 0; order = []; path = [] }) }
    {
        Ok(Climb {
            entered: vec![in alloc; false; count]?,
            placed: vec![in alloc; false; count]?,
            next: vec![in alloc; 0; count]?,
            order: Vec::new(alloc),
            path: Vec::new(alloc),
        })
    }

    /// The nodes that have a place, in their order.
    pub(crate) fn into_order(self) -> Vec<u32>
        ensures { result.items ≡ self.order }
    {
        self.order
    }

    /// The path, its last node at the end.
    pub(crate) fn path(&self) -> &[u32]
        ensures { result.now ≡ self.now.path }
    {
        self.path.as_slice()
    }

    fn is_entered(&self, node: u32) -> bool
        requires { node < length self.now.entered }
        ensures { result ≡ is_entered self.now node }
    {
        self.entered[node as usize]
    }

    fn is_placed(&self, node: u32) -> bool
        requires { node < length self.now.placed }
        ensures { result ≡ is_placed self.now node }
    {
        self.placed[node as usize]
    }

    /// How many parents of a node have a place.
    fn passed(&self, node: u32) -> usize
        requires { node < length self.now.next }
        ensures { result ≡ slice_index self.now.next node }
    {
        self.next[node as usize]
    }

    /// The last node of the path.
    fn last(&self) -> Option<u32>
        ensures { result ≡ slice_get self.now.path (length self.now.path - 1) }
    {
        self.path.last().copied()
    }

    /// The path goes on to a node.
    fn enter(&mut self, node: u32) -> Result<(), AllocError>
        requires { node < length self.old.entered }
        ensures { OnOk result (self.new ≡ with_entered self.old node) }
    {
        self.entered[node as usize] = true;
        self.path.push(node)?;
        Ok(())
    }

    /// One more parent of a node has a place.
    fn pass(&mut self, node: u32)
        requires inside { node < length self.old.next }
        requires fits { slice_index self.old.next node + 1 < 2 ^ 64 }
        ensures { self.new ≡ with_passed self.old node }
    {
        self.next[node as usize] += 1;
    }

    /// The last node of the path gets the next place in the order.
    fn place(&mut self, node: u32) -> Result<(), AllocError>
        requires { node < length self.old.placed }
        ensures { OnOk result (self.new ≡ with_order_place self.old node) }
    {
        self.placed[node as usize] = true;
        self.order.push(node)?;
        let _ = self.path.pop();
        Ok(())
    }

    /// Looks at the next parent of the last node of the path. An answer is a parent on the path.
    fn meet(
        &mut self,
        parents: &[Numbers],
        node: u32,
        parent: u32,
    ) -> Result<Option<u32>, AllocError>
        requires below { AreBelow (length parents.now) parents.now }
        requires climb { IsClimb parents.now self.old }
        requires last { slice_get self.old.path (length self.old.path - 1) ≡ Some node }
        requires turn { slice_index self.old.next node < length (up parents.now node) }
        requires parent { parent ≡ slice_index (up parents.now node) (slice_index self.old.next node) }
        requires fits { length (up parents.now node) < 2 ^ 64 }
        ensures { IfOk result (λ r. MatchOption r (ClimbsOn parents.now self.old self.new) (λ p. IsClosed parents.now self.new.path p)) }
    {
        let _ = parents;
        if self.is_placed(parent) {
            self.pass(node);
            return Ok(None);
        }
        if self.is_entered(parent) {
            return Ok(Some(parent));
        }
        self.enter(parent)?;
        Ok(None)
    }

    /// Looks at the next parent of the last node of the path, or gives the node its place. An
    /// answer is a parent on the path.
    fn step(&mut self, parents: &[Numbers], node: u32) -> Result<Option<u32>, AllocError>
        requires below { AreBelow (length parents.now) parents.now }
        requires climb { IsClimb parents.now self.old }
        requires last { slice_get self.old.path (length self.old.path - 1) ≡ Some node }
        ensures { IfOk result (λ r. MatchOption r (ClimbsOn parents.now self.old self.new) (λ p. IsClosed parents.now self.new.path p)) }
    {
        let own = parents[node as usize].as_slice();
        let turn = self.passed(node);
        if turn < own.len() {
            return self.meet(parents, node, own[turn]);
        }
        self.place(node)?;
        Ok(None)
    }

    /// Goes on until the path is empty. An answer is a parent on the path.
    fn go_up(&mut self, parents: &[Numbers]) -> Result<Option<u32>, AllocError>
        requires below { AreBelow (length parents.now) parents.now }
        requires climb { IsClimb parents.now self.old }
        ensures { IfOk result (λ r. MatchOption r (IsThrough parents.now self.old self.new) (λ p. IsClosed parents.now self.new.path p)) }
    {
        while let Some(node) = self.last() {
            let met = self.step(parents, node)?;
            if met.is_some() {
                return Ok(met);
            }
        }
        Ok(None)
    }

    /// Climbs from a node, unless it was met. An answer is a parent on the path.
    fn climb_from(&mut self, parents: &[Numbers], start: u32) -> Result<Option<u32>, AllocError>
        requires below { AreBelow (length parents.now) parents.now }
        requires climb { IsClimb parents.now self.old }
        requires empty { self.old.path ≡ [] }
        requires start { start < length parents.now }
        ensures back { IfOk result (λ r. MatchOption r (IsThrough parents.now self.old self.new) (λ p. IsClosed parents.now self.new.path p)) }
        ensures entered { IfOk result (λ r. IfNone r (is_entered self.new start ≡ true)) }
    {
        if self.is_entered(start) {
            return Ok(None);
        }
        self.enter(start)?;
        self.go_up(parents)
    }

    /// Climbs from each node in turn. An answer is a parent on the path.
    pub(crate) fn climb(&mut self, parents: &[Numbers]) -> Result<Option<u32>, AllocError>
        requires few { length parents.now ≤ 65536 }
        requires below { AreBelow (length parents.now) parents.now }
        requires climb { IsClimb parents.now self.old }
        requires empty { self.old.path ≡ [] }
        ensures { IfOk result (λ r. MatchOption r (IsFullClimb parents.now self.new) (λ p. IsClosed parents.now self.new.path p)) }
    {
        for start in 0..parents.len() {
            let met = self.climb_from(parents, start as u32)?;
            if met.is_some() {
                return Ok(met);
            }
        }
        Ok(None)
    }
}
