//! The nodes that may start, best first: those of greater priority, and of one priority those that
//! come first in plan order.
#![tactic(auto)]

ghost use Rattle.std.specs.Prelude.{◌≡◌, ◌<◌, ◌≤◌, ◌+◌, ℕ, [], ◌↔◌, length, slice_index_or, IsTrue, IsOk, IfErr, OnOk, OnErr};
ghost use Rattle.std.specs.List.{Contains, insert, remove};
ghost use Rattle.ready_queue.specs.declared.Member.{Member};
ghost use Rattle.ready_queue.specs.declared.QueueFault.TheVariants.{Present, Absent, Memory};
ghost use Rattle.ready_queue.specs.Queue.{nodes_of, comes_before, IsOrdered, AreApart, IsBest, IsPlaceOf};

mod nodes;
mod row;

use nodes::{add_node, has_node, remove_node};
use row::Row;
use std::alloc::{AllocError, AllocFailed, Global};
use std::marker::Model;
use thiserror::Error;

/// A node that may start: its number in plan order, and its priority.
#[derive(Clone, Copy, Debug, PartialEq, Eq)]
pub struct Member {
    pub node: u32,
    pub priority: i32,
}

/// Why a call of a queue is refused.
#[derive(Clone, Copy, Debug, PartialEq, Eq, Error)]
pub enum QueueFault {
    /// The node that is added is there already, at whatever priority.
    #[error("Q1 Present")]
    Present,
    /// What is removed is no member.
    #[error("Q2 Absent")]
    Absent,
    /// Memory was refused.
    #[error("Q3 Memory")]
    Memory,
}

impl From<AllocError> for QueueFault {
    ghost from_gives = { λ _ fault. fault ≡ Memory };

    fn from(_e: AllocError) -> QueueFault {
        QueueFault::Memory
    }
}

impl<T: Drop> From<AllocFailed<T>> for QueueFault {
    ghost from_gives = { λ _ fault. fault ≡ Memory };

    fn from(_e: AllocFailed<T>) -> QueueFault {
        QueueFault::Memory
    }
}

/// Nodes with their priorities, best first, each node once. A place is found by halving.
#[derive(Drop)]
pub struct ReadyQueue {
    members: Row<Member>,
    /// the nodes of the members, in plan order
    nodes: Row<u32>,
}

impl Model for ReadyQueue {
    ghost use Rattle.std.specs.Prelude.{min};
    ghost use Rattle.ready_queue.specs.Queue.{Queue, IsIndexed};

    ghost Value = { Queue };

    ghost view = { λ a. record {
      members = a.members.items;
      room = min a.members.room a.nodes.room;
    } };

    ghost invariant = { λ a. IsIndexed a.members.items a.nodes.items };
}

/// Whether one member comes before another.
fn comes_before(member: Member, other: Member) -> bool
    ensures { result ≡ comes_before member other }
{
    if member.priority == other.priority {
        member.node < other.node
    } else {
        member.priority > other.priority
    }
}

/// The place of a member among these, or that where it belongs.
fn place_of(members: &[Member], member: Member) -> usize
    requires { IsOrdered members.now }
    ensures { IsPlaceOf members.now member result }
{
    members.partition_point(|other| comes_before(*other, member))
}

fn is_same(member: Member, other: Member) -> bool
    ensures { IsTrue result ↔ (member ≡ other) }
{
    member == other
}

/// Whether this member is at its place among these.
fn is_there(members: &[Member], member: Member, place: usize) -> bool
    requires ordered { IsOrdered members.now }
    requires place { IsPlaceOf members.now member place }
    ensures is { IsTrue result ↔ Contains members.now member }
    ensures there { IsTrue result → (place < length members.now) × (slice_index_or members.now place member ≡ member) }
{
    place < members.len() && is_same(members[place], member)
}

impl ReadyQueue {
    /// A queue without members.
    pub fn new(alloc: Global) -> ReadyQueue
        ensures { result.members ≡ [] }
    {
        ReadyQueue {
            members: Row::new(alloc),
            nodes: Row::new(alloc),
        }
    }

    /// Makes room for so many members more.
    pub fn reserve(&mut self, count: usize) -> Result<(), QueueFault>
        ensures members { self.new.members ≡ self.old.members }
        ensures ok { OnOk result (count ≤ self.new.room) }
        ensures room { self.old.room ≤ self.new.room }
        ensures err { IfErr result (λ fault. fault ≡ Memory) }
    {
        self.members.reserve(count)?;
        self.nodes.reserve(count)?;
        Ok(())
    }

    /// The members, best first.
    pub fn members(&self) -> &[Member]
        ensures is { result.now ≡ self.now.members }
        ensures ordered { IsOrdered self.now.members }
        ensures apart { AreApart self.now.members }
    {
        let _nodes = &self.nodes;
        self.members.items()
    }

    /// Whether this is a member.
    pub fn contains(&self, member: Member) -> bool
        ensures { IsTrue result ↔ Contains self.now.members member }
    {
        let members = self.members.items();
        is_there(members, member, place_of(members, member))
    }

    /// Adds a node that is not there, at its place. It takes no memory.
    pub fn add(&mut self, member: Member) -> Result<(), QueueFault>
        requires { 0 < self.old.room }
        ensures refused { IsOk result ↔ (Contains (nodes_of self.old.members) member.node → ⊥) }
        ensures added { OnOk result ((place : ℕ) × (place ≤ length self.old.members)
            × (self.new.members ≡ insert self.old.members place member)) }
        ensures room { self.old.room ≤ self.new.room + 1 }
        ensures unchanged { OnErr result (self.new ≡ self.old) }
        ensures err { IfErr result (λ fault. fault ≡ Present) }
    {
        if has_node(self.nodes.items(), member.node) {
            return Err(QueueFault::Present);
        }
        let place = place_of(self.members.items(), member);
        self.members.insert(place, member);
        add_node(&mut self.nodes, member.node);
        Ok(())
    }

    /// Takes a member out.
    pub fn remove(&mut self, member: Member) -> Result<(), QueueFault>
        ensures refused { IsOk result ↔ Contains self.old.members member }
        ensures removed { OnOk result ((place : ℕ) × (place < length self.old.members)
            × (slice_index_or self.old.members place member ≡ member)
            × (self.new.members ≡ remove self.old.members place)) }
        ensures room { self.old.room ≤ self.new.room }
        ensures freed { OnOk result (self.old.room + 1 ≤ self.new.room) }
        ensures unchanged { OnErr result (self.new ≡ self.old) }
        ensures err { IfErr result (λ fault. fault ≡ Absent) }
    {
        let place = place_of(self.members.items(), member);
        if !is_there(self.members.items(), member, place) {
            return Err(QueueFault::Absent);
        }
        self.members.remove(place);
        remove_node(&mut self.nodes, member.node);
        Ok(())
    }

    /// Takes all members out.
    pub fn clear(&mut self)
        ensures members { self.new.members ≡ [] }
        ensures room { self.old.room + length self.old.members ≤ self.new.room }
    {
        self.members.clear();
        self.nodes.clear();
    }

    /// The best of the members whose nodes are allowed, or none where none is.
    pub fn best_where<F: Fn(u32) -> bool>(&self, allowed: F) -> Option<Member>
        requires { F.IsAlwaysCallable allowed }
        ensures { IsBest (F.post allowed) self.now.members result }
    {
        best_in(self.members.items(), allowed)
    }
}

/// The first of these members whose node is allowed, or none where none is.
fn best_in<F: Fn(u32) -> bool>(members: &[Member], allowed: F) -> Option<Member>
    requires ordered { IsOrdered members.now }
    requires callable { F.IsAlwaysCallable allowed }
    ensures { IsBest (F.post allowed) members.now result }
{
    for member in members {
        if allowed(member.node) {
            return Some(*member);
        }
    }
    None
}
