//! The replicas of a backup, in the order of their places.

ghost use Rattle.std.specs.Prelude.{◌≡◌, ◌<◌, [], length, IfOk, IfErr, OnOk, OnErr};
ghost use Rattle.std.specs.Borrow.{Lends, sem};
ghost use Rattle.std.specs.List.{HoldsAt, insert, remove};
ghost use Rattle.backup.specs.Slots.{AreOrdered, IsAt, IsGapFor, with_stored};
ghost use Rattle.backup.specs.contracts.shelf.Shelf.{the_row};
ghost use Rattle.backup.specs.contracts.stored.Stored.{the_row as stored_row};

use crate::slots::{Slot, is_at, place_among};
use crate::stored::Stored;
use entry::NoMemory;
use std::alloc::Global;
use std::marker::Model;

/// The replicas of a backup, by master, then by segment. A contract sees the list.
#[derive(Drop)]
pub(crate) struct Shelf {
    slots: Vec<Slot>,
    /// Which replica was used last. The next op mostly is for the same one.
    last: usize,
}

impl Model for Shelf {
    ghost use Rattle.backup.specs.Slots.{Slots, AreOrdered};

    ghost Value = { Slots };

    ghost view = { λ s. s.slots.items };

    ghost invariant = { λ s. AreOrdered s.slots.items };
}

impl Shelf {
    /// No replicas. It takes no memory.
    pub(crate) fn new(alloc: Global) -> Shelf
        ensures { result ≡ [] }
    {
        Shelf {
            slots: Vec::new(alloc),
            last: 0,
        }
    }

    /// Which replica is at a place. If there is none, which one it would be.
    #[inline(always)]
    pub(crate) fn find(&mut self, place: (u64, u64)) -> Result<usize, usize>
        ensures found { IfOk result (IsAt self.old place) }
        ensures absent { IfErr result (IsGapFor self.old place) }
        ensures ordered { AreOrdered self.old }
        ensures same { self.new ≡ self.old }
    {
        if is_at(&self.slots, self.last, place) {
            return Ok(self.last);
        }
        let found = place_among(&self.slots, place);
        if let Ok(at) = found {
            self.last = at;
        }
        found
    }

    /// A replica, to be changed.
    pub(crate) fn stored_mut(&mut self, at: usize) -> &mut Stored
        requires { at < length self.old }
        ensures* writes_back { sem 𝓛 (Lends the_row stored_row self.entry result (λ w. with_stored self.old at w)) }
        ensures value { HoldsAt (λ slot. slot.1 ≡ result.now) self.old at }
    {
        &mut self.slots[at].1
    }

    /// Whether a replica has memory for so many bytes more.
    #[inline(always)]
    pub(crate) fn has_room(&self, at: usize, more: usize) -> bool
        requires { at < length self.now }
    {
        self.slots[at].1.has_room(more)
    }

    /// Moves the bytes of a replica into other memory.
    pub(crate) fn move_into(&mut self, at: usize, memory: Vec<u8>)
        requires { at < length self.old }
        ensures { self.new ≡ self.old }
    {
        self.slots[at].1.move_into(memory);
    }

    /// One more replica, at the place that was found for it. On `Err` nothing changed.
    pub(crate) fn insert(
        &mut self,
        at: usize,
        place: (u64, u64),
        stored: Stored,
    ) -> Result<(), NoMemory>
        requires { IsGapFor self.old place at }
        ensures ok { OnOk result (self.new ≡ insert self.old at (place, stored)) }
        ensures err { OnErr result (self.new ≡ self.old) }
    {
        self.slots.insert(at, (place, stored))?;
        self.last = at;
        Ok(())
    }

    /// Takes a replica out.
    pub(crate) fn remove(&mut self, at: usize) -> Stored
        requires { at < length self.old }
        ensures { self.new ≡ remove self.old at }
    {
        self.slots.remove(at).1
    }

    /// Drops all replicas.
    pub(crate) fn clear(&mut self)
        ensures { self.new ≡ [] }
    {
        self.slots.clear();
    }

    /// All replicas, each behind its place.
    pub(crate) fn as_slice(&self) -> &[Slot]
        ensures all { result.now ≡ self.entry.now }
        ensures ordered { AreOrdered self.entry.now }
    {
        &self.slots
    }
}
