//! A row of items whose head is taken out without moving the others: where it was there is a gap.

ghost use Rattle.std.specs.Prelude.{◌≡◌, ◌+◌, ◌-◌, ◌<◌, ◌≤◌, [], length, drop, vec_len, vec_capacity, OnOk, IsOk};
ghost use Rattle.std.specs.List.{insert, remove};

use std::alloc::{AllocError, Global};
use std::marker::Model;

/// Items in a row. Where heads were taken out there is a gap, which is room too: for a new head as it is, for other
/// items once it is closed.
#[derive(Drop)]
pub struct Row<T> {
    /// the gap, then the items
    all: Vec<T>,
    /// how long the gap is
    gap: usize,
}

impl<T> Model for Row<T> {
    ghost use Rattle.std.specs.Prelude.{◌+◌, ◌-◌, ◌≤◌, drop, vec_len, vec_capacity};
    ghost use Rattle.ready_queue.specs.Row.{Contents};

    ghost Value = { Contents T };

    ghost view = { λ a. record {
      items = drop a.gap a.all.items;
      room = vec_capacity a.all - vec_len a.all + a.gap;
    } };

    ghost invariant = { λ a. a.gap ≤ vec_len a.all };
}

impl<T: Copy> Row<T> {
    /// A row without items.
    pub fn new(alloc: Global) -> Row<T>
        ensures { result.items ≡ [] }
    {
        Row {
            all: Vec::new(alloc),
            gap: 0,
        }
    }

    /// Makes room for so many items more. It can fail only where it is not there.
    pub fn reserve(&mut self, count: usize) -> Result<(), AllocError>
        ensures items { self.new.items ≡ self.old.items }
        ensures ok { OnOk result (count ≤ self.new.room) }
        ensures room { self.old.room ≤ self.new.room }
        ensures enough { count ≤ self.old.room → IsOk result }
    {
        self.all.reserve(count.saturating_sub(self.gap))?;
        Ok(())
    }

    /// The items.
    pub fn items(&self) -> &[T]
        ensures { result.now ≡ self.now.items }
    {
        &self.all[self.gap..]
    }

    /// Inserts an item where there is room for it: at the head into the gap, if there is one.
    pub fn insert(&mut self, place: usize, item: T)
        requires place { place ≤ length self.old.items }
        requires room { 0 < self.old.room }
        ensures items { self.new.items ≡ insert self.old.items place item }
        ensures room { self.old.room ≤ self.new.room + 1 }
    {
        if place == 0 && self.gap > 0 {
            self.gap -= 1;
            self.all[self.gap] = item;
            return;
        }
        self.gap = make_room(&mut self.all, self.gap);
        let _ = self.all.insert(self.gap + place, item);
    }

    /// Takes the item at a place out.
    pub fn remove(&mut self, place: usize)
        requires { place < length self.old.items }
        ensures items { self.new.items ≡ remove self.old.items place }
        ensures room { self.old.room + 1 ≤ self.new.room }
    {
        if place == 0 {
            self.gap += 1;
        } else {
            let _ = self.all.remove(self.gap + place);
        }
    }

    /// Takes all items out.
    pub fn clear(&mut self)
        ensures items { self.new.items ≡ [] }
        ensures room { self.old.room + length self.old.items ≤ self.new.room }
    {
        self.all.clear();
        self.gap = 0;
    }
}

/// Closes a gap at the head where there is no room after the items, and says how long it is then.
fn make_room<T: Copy>(all: &mut Vec<T>, gap: usize) -> usize
    requires within { gap ≤ vec_len all.old }
    requires room { 0 < vec_capacity all.old - vec_len all.old + gap }
    ensures within { result ≤ vec_len all.new }
    ensures items { drop result all.new.items ≡ drop gap all.old.items }
    ensures room { vec_len all.new < vec_capacity all.new }
    ensures many { vec_capacity all.new - vec_len all.new + result ≡ vec_capacity all.old - vec_len all.old + gap }
{
    if all.len() < all.capacity() {
        return gap;
    }
    let _ = all.drain(..gap);
    0
}
