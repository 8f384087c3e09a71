//! A list of places, which each look-up walks.

ghost use Rattle.std.specs.Prelude.{◌≡◌, ℕ, ◌+◌, ◌<◌, ◌≤◌, ◌∷◌, ◌++◌, [], Option, true, false, length, OnOk, OnErr};
ghost use Rattle.std.specs.List.{position, remove};
ghost use Rattle.entry.specs.declared.key.Key.{Key};
ghost use Rattle.entry.specs.View.{shown_key};
ghost use Rattle.places.specs.declared.place.Place.{Place as PlaceValue};
ghost use Rattle.places.specs.Lists.{found_in, has_hash, is_of, AreKeptIn, IsCandidateIn, holds_in, relocated_in};
ghost use Rattle.places.specs.Lists.{without};
ghost use Rattle.place_index.specs.Steps.{IsShuffled};

use crate::table::Table;
use crate::walk::{first_slot, slot_at, slot_of};
use entry::{KeyRef, NoMemory};
use places::{Held, Place, Resolve};
use std::alloc::Global;
use std::marker::Model;

/// A list of places: the plainest table. A look-up, a move and a removal walk the list.
#[derive(Drop)]
pub struct PlaceList {
    held: Vec<Held>,
}

impl Model for PlaceList {
    ghost use Rattle.std.specs.Prelude.{◌-◌, vec_len, vec_capacity};
    ghost use Rattle.place_index.specs.Steps.{ListValue};

    ghost Value = { ListValue };

    ghost view = { λ i. record { held = i.held.items; room = vec_capacity i.held - vec_len i.held } };
}

impl PlaceList {
    /// Returns the number of places in the list.
    pub fn len(&self) -> usize
        ensures { result ≡ length self.now.held }
    {
        self.held.len()
    }

    /// Returns the places in the list.
    pub fn as_slice(&self) -> &[Held]
        ensures { result.now ≡ self.now.held }
    {
        self.held.as_slice()
    }

    /// Returns the slot of the key's place. The call is out of line, which keeps the code of `get_rarely` short where
    /// it is inlined.
    #[cold]
    fn seek<R: Resolve>(&self, hash: u64, resolver: &R, key: &KeyRef<'_>) -> Option<usize>
        ensures { result ≡ position (is_of (R.keys resolver.now) (shown_key key.now) hash) self.now.held }
    {
        slot_of(&self.held, hash, resolver, key)
    }

    /// Returns the same as `get`. It is fast if the list is empty, for a caller that mostly finds keys elsewhere.
    #[inline(always)]
    pub fn get_rarely<R: Resolve>(&self, hash: u64, resolver: &R, key: &KeyRef<'_>) -> Option<Place>
        ensures { (hash_of : Key → ℕ) → hash ≡ hash_of (shown_key key.now)
            → AreKeptIn hash_of (R.keys resolver.now) self.now.held
            → result ≡ found_in (R.keys resolver.now) (shown_key key.now) self.now.held }
    {
        if self.held.is_empty() {
            return None;
        }
        let slot = self.seek(hash, resolver, key)?;
        Some(self.held[slot].place)
    }

    /// Returns the slot of the first place with this hash. The call is out of line, like `seek`.
    #[cold]
    fn seek_hash(&self, hash: u64) -> Option<usize>
        ensures { result ≡ position (has_hash hash) self.now.held }
    {
        first_slot(&self.held, hash)
    }

    /// Returns the same as `candidate`. It is fast if the list is empty, for a caller that mostly finds one elsewhere.
    #[inline(always)]
    pub fn candidate_rarely(&self, hash: u64) -> Option<Place>
        ensures { (hash_of : Key → ℕ) (keys : PlaceValue → Option Key) (k : Key) → hash ≡ hash_of k
            → AreKeptIn hash_of keys self.now.held → IsCandidateIn keys k self.now.held result }
    {
        if self.held.is_empty() {
            return None;
        }
        let slot = self.seek_hash(hash)?;
        Some(self.held[slot].place)
    }

    /// Reserves memory for `more` further places. If the call fails, nothing changed.
    pub fn reserve(&mut self, more: usize) -> Result<(), NoMemory>
        ensures room { OnOk result (more ≤ self.new.room) }
        ensures same { self.new.held ≡ self.old.held }
        ensures err { OnErr result (self.new ≡ self.old) }
    {
        self.held.reserve(more)
    }

    /// Adds a place, for which memory is reserved. The call allocates nothing.
    pub fn insert(&mut self, held: Held)
        requires { 0 < self.old.room }
        ensures held { self.new.held ≡ self.old.held ++ held ∷ [] }
        ensures room { self.old.room ≡ self.new.room + 1 }
    {
        self.held.push_reserved(held);
    }

    /// Removes the place in this slot.
    pub fn cut(&mut self, slot: usize)
        requires { slot < length self.old.held }
        ensures held { self.new.held ≡ remove self.old.held slot }
        ensures room { self.old.room ≤ self.new.room }
    {
        self.held.remove(slot);
    }

    /// Moves `held` to the place `to`, under the same hash. Returns true if it was in the list. The list's memory
    /// stays as it is.
    pub fn put(&mut self, held: Held, to: Place) -> bool
        ensures had { result ≡ holds_in self.old.held held }
        ensures moved { self.new.held ≡ relocated_in held to self.old.held }
        ensures room { self.new.room ≡ self.old.room }
    {
        match slot_at(&self.held, held) {
            Some(slot) => {
                self.held[slot].place = to;
                true
            }
            None => false,
        }
    }

    /// Removes `held` from the list. Returns true if it was in the list. The list keeps its memory.
    pub fn leave_out(&mut self, held: Held) -> bool
        ensures had { result ≡ holds_in self.old.held held }
        ensures taken { self.new.held ≡ without held self.old.held }
        ensures room { self.old.room ≤ self.new.room }
    {
        match slot_at(&self.held, held) {
            Some(slot) => {
                self.cut(slot);
                true
            }
            None => false,
        }
    }

    /// Adds a place. If the list has to grow, it grows by this place only. If memory runs out, nothing changed.
    pub fn push_exact(&mut self, held: Held) -> Result<(), NoMemory>
        ensures ok { OnOk result (self.new.held ≡ self.old.held ++ held ∷ []) }
        ensures err { OnErr result (self.new ≡ self.old) }
    {
        self.held.reserve_exact(1)?;
        self.held.push_reserved(held);
        Ok(())
    }
}

impl Table for PlaceList {
    ghost places = { λ l. l.held };

    fn new(alloc: Global) -> PlaceList
        ensures { result ≡ record { held = []; room = 0 } }
    {
        PlaceList {
            held: Vec::new(alloc),
        }
    }

    #[inline]
    fn get<R: Resolve>(&self, hash: u64, resolver: &R, key: &KeyRef<'_>) -> Option<Place> {
        let slot = slot_of(&self.held, hash, resolver, key)?;
        Some(self.held[slot].place)
    }

    #[inline]
    fn candidate(&self, hash: u64) -> Option<Place> {
        let slot = first_slot(&self.held, hash)?;
        Some(self.held[slot].place)
    }

    #[inline]
    fn holds(&self, held: Held) -> bool {
        slot_at(&self.held, held).is_some()
    }

    #[inline]
    fn holds_first(&self, held: Held) -> bool {
        self.holds(held)
    }

    #[inline]
    fn touch(&self, _hash: u64) -> u64 {
        self.held.len() as u64
    }

    fn relocate(&mut self, held: Held, to: Place) -> bool {
        self.put(held, to)
    }

    fn take_out(&mut self, held: Held) -> bool {
        self.leave_out(held)
    }

    fn push(&mut self, held: Held) -> Result<(), NoMemory> {
        self.held.push(held)?;
        Ok(())
    }

    fn presize(&mut self, _keys: usize) {}

    fn grow(&mut self, _keys: usize) {}
}
