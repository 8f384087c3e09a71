//! The places of a bucket that are in its slots.

ghost use Rattle.std.specs.Prelude.{◌≡◌, ℕ, ◌<◌, ◌∷◌, ◌++◌, [], Option, true, false};
ghost use Rattle.entry.specs.declared.key.Key.{Key};
ghost use Rattle.entry.specs.View.{shown_key};
ghost use Rattle.places.specs.declared.place.Place.{Place as PlaceValue};
ghost use Rattle.places.specs.Lists.{found_in, AreKeptIn, IsCandidateIn, holds_in, relocated_in, without};
ghost use Rattle.place_index.specs.Steps.{BringsNoHash, IsShuffled};

use crate::packed::{LOWS, Packed, parts};
use crate::slots::{SLOTS, Slots};
use arrayvec::ArrayVec;
use entry::KeyRef;
use places::{Held, Place, Resolve, stands};
use std::marker::Model;

/// Up to eight places, in slots within the bucket. A contract sees a list of the places.
#[derive(Drop)]
pub(crate) struct Near {
    slots: Slots,
}

impl Model for Near {
    ghost use Rattle.std.specs.Prelude.{List};
    ghost use Rattle.places.specs.declared.place.Held.{Held};
    ghost use Rattle.hash_index.specs.Packing.{taken};

    ghost Value = { List Held };

    ghost view = { λ n. taken n.slots };
}

impl Near {
    /// Makes eight free slots, without a place.
    pub(crate) fn new() -> Near
        ensures { result ≡ [] }
    {
        Near {
            slots: Slots::new(),
        }
    }

    /// Returns the places, unpacked.
    pub(crate) fn places(&self) -> ArrayVec<Held, SLOTS>
        ensures { result.items ≡ self.now }
    {
        let mut places = ArrayVec::new();
        for slot in 0..self.slots.len() {
            let held = self.slots.get(slot);
            if held.hash >= LOWS {
                places.push(held);
            }
        }
        places
    }

    /// Returns the place of a key with this hash; `None` if the key has none in a slot.
    #[inline(always)]
    pub(crate) fn get<R: Resolve>(&self, hash: u64, resolver: &R, key: &KeyRef<'_>) -> Option<Place>
        ensures { (hash_of : Key → ℕ) → hash ≡ hash_of (shown_key key.now)
            → AreKeptIn hash_of (R.keys resolver.now) self.now
            → result ≡ found_in (R.keys resolver.now) (shown_key key.now) self.now }
    {
        self.slots.show_valid();
        let (tag, low) = parts(hash)?;
        let slot = self.slots.first_hashed(tag, low);
        if slot >= SLOTS {
            return None;
        }
        let place = self.slots.get(slot).place;
        if stands(resolver, key, place) {
            return Some(place);
        }
        let slot = self.slots.first_of(hash, resolver, key);
        if slot >= SLOTS {
            return None;
        }
        Some(self.slots.get(slot).place)
    }

    /// Returns the first place that a slot has under this hash; `None` if no slot has one.
    #[inline(always)]
    pub(crate) fn candidate(&self, hash: u64) -> Option<Place>
        ensures { (hash_of : Key → ℕ) (keys : PlaceValue → Option Key) (k : Key) → hash ≡ hash_of k
            → AreKeptIn hash_of keys self.now → IsCandidateIn keys k self.now result }
    {
        self.slots.show_valid();
        let (tag, low) = parts(hash)?;
        let slot = self.slots.first_hashed(tag, low);
        if slot >= SLOTS {
            return None;
        }
        Some(self.slots.get(slot).place)
    }

    /// Returns true if a slot has this place under this hash.
    #[inline(always)]
    pub(crate) fn holds(&self, held: Held) -> bool
        ensures { result ≡ holds_in self.now held }
    {
        self.slots.show_valid();
        match Packed::of(held) {
            Some(packed) => self.slots.first_same(&packed) < SLOTS,
            None => false,
        }
    }

    /// Reads a little of each cache line of the slots, so that they are in the cache soon. The result is meaningless;
    /// it only keeps the compiler from removing the load.
    #[inline(always)]
    pub(crate) fn touch(&self) -> u64 {
        self.slots.touch()
    }

    /// Moves `held` to the place `to`, under the same hash; returns true if a slot had it.
    #[inline(always)]
    pub(crate) fn relocate(&mut self, held: Held, to: Place) -> bool
        requires { to.at < 8388608 }
        ensures had { result ≡ holds_in self.old held }
        ensures moved { self.new ≡ relocated_in held to self.old }
    {
        self.slots.show_valid();
        let Some(packed) = Packed::of(held) else {
            return false;
        };
        let slot = self.slots.first_by_tag(&packed);
        if slot >= SLOTS {
            return false;
        }
        self.slots.go_to(slot, &packed, to);
        true
    }

    /// Takes `held` out; returns true if a slot had it.
    #[inline(always)]
    pub(crate) fn take_out(&mut self, held: Held) -> bool
        ensures had { result ≡ holds_in self.old held }
        ensures taken { self.new ≡ without held self.old }
    {
        self.slots.show_valid();
        let Some(packed) = Packed::of(held) else {
            return false;
        };
        let slot = self.slots.first_by_tag(&packed);
        if slot >= SLOTS {
            return false;
        }
        self.slots.free(slot);
        true
    }

    /// Puts a place into a free slot; returns true if it did. Returns false if no slot is free, or if no slot can hold
    /// the hash or the offset.
    #[inline]
    pub(crate) fn fill(&mut self, held: Held) -> bool
        ensures filled { result ≡ true → IsShuffled (self.old ++ held ∷ []) self.new }
        ensures hashes { result ≡ true → BringsNoHash (self.old ++ held ∷ []) self.new }
        ensures same { result ≡ false → self.new ≡ self.old }
    {
        let Some(packed) = Packed::of(held) else {
            return false;
        };
        let slot = self.slots.first_free();
        if slot >= SLOTS {
            return false;
        }
        self.slots.put(slot, &packed);
        true
    }
}
