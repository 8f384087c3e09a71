//! The front of a chain: its first places, which lie in the table itself.

ghost use Rattle.std.specs.Prelude.{◌≡◌, ℕ, ◌∷◌, ◌++◌, [], Option, true, false};
ghost use Rattle.entry.specs.declared.key.Key.{Key};
ghost use Rattle.entry.specs.View.{shown_key};
ghost use Rattle.places.specs.declared.place.Place.{Place as PlaceValue};
ghost use Rattle.places.specs.Lists.{found_in, AreKeptIn, IsCandidateIn, holds_in, relocated_in, without};

use arrayvec::ArrayVec;
use entry::KeyRef;
use place_index::{first_slot, is_same_held, slot_at, slot_of};
use places::{Held, Place, Resolve};
use std::marker::Model;

/// The most places of a chain that lie in the table itself.
const IN_FRONT: usize = 3;

/// Up to three places, which need no allocated memory. A contract sees them as a list.
#[derive(Drop)]
pub(crate) struct Front {
    held: ArrayVec<Held, IN_FRONT>,
}

impl Model for Front {
    ghost use Rattle.std.specs.Prelude.{List};
    ghost use Rattle.places.specs.declared.place.Held.{Held};

    ghost Value = { List Held };

    ghost view = { λ f. f.held.items };
}

impl Front {
    /// Makes a front without places.
    pub(crate) fn new() -> Front
        ensures { result ≡ [] }
    {
        Front {
            held: ArrayVec::new(),
        }
    }

    /// Returns the places that the front holds.
    #[inline]
    pub(crate) fn as_slice(&self) -> &[Held]
        ensures { result.now ≡ self.now }
    {
        self.held.as_slice()
    }

    /// Returns the place of the key, whose hash is `hash`, or None if the front has no place for it.
    #[inline]
    pub(crate) fn get<R: Resolve>(&self, hash: u64, resolver: &R, key: &KeyRef<'_>) -> Option<Place>
        ensures { (hash_of : Key → ℕ) → hash ≡ hash_of (shown_key key.now)
            → AreKeptIn hash_of (R.keys resolver.now) self.now
            → result ≡ found_in (R.keys resolver.now) (shown_key key.now) self.now }
    {
        let slot = slot_of(&self.held, hash, resolver, key)?;
        Some(self.held[slot].place)
    }

    /// Returns the first place that the front holds under this hash, or None if it holds none.
    #[inline]
    pub(crate) fn candidate(&self, hash: u64) -> Option<Place>
        ensures { (hash_of : Key → ℕ) (keys : PlaceValue → Option Key) (k : Key) → hash ≡ hash_of k
            → AreKeptIn hash_of keys self.now → IsCandidateIn keys k self.now result }
    {
        let slot = first_slot(&self.held, hash)?;
        Some(self.held[slot].place)
    }

    /// Returns true if the front holds this place under this hash.
    #[inline]
    pub(crate) fn holds(&self, held: Held) -> bool
        ensures { result ≡ holds_in self.now held }
    {
        slot_at(&self.held, held).is_some()
    }

    /// Returns true if the first place of the front is this place under this hash.
    #[inline]
    pub(crate) fn holds_first(&self, held: Held) -> bool
        ensures { result ≡ true → holds_in self.now held ≡ true }
    {
        match self.held.first() {
            Some(one) => is_same_held(one, held),
            None => false,
        }
    }

    /// Prefetches the first place of the front. The result has no meaning; it keeps the compiler from removing the
    /// load.
    #[inline(always)]
    pub(crate) fn touch(&self) -> u64 {
        match self.held.first() {
            Some(one) => one.place.segment ^ one.place.at as u64,
            None => 0,
        }
    }

    /// Moves `held` to the place `to`, under the same hash. Returns true if the front held it.
    #[inline]
    pub(crate) fn relocate(&mut self, held: Held, to: Place) -> bool
        ensures had { result ≡ holds_in self.old held }
        ensures moved { self.new ≡ relocated_in held to self.old }
    {
        match slot_at(&self.held, held) {
            Some(slot) => {
                self.held[slot].place = to;
                true
            }
            None => false,
        }
    }

    /// Removes `held` from the front. Returns true if the front held it.
    #[inline]
    pub(crate) fn take_out(&mut self, held: Held) -> bool
        ensures had { result ≡ holds_in self.old held }
        ensures taken { self.new ≡ without held self.old }
    {
        match slot_at(&self.held, held) {
            Some(slot) => {
                self.held.remove(slot);
                true
            }
            None => false,
        }
    }

    /// Adds a place if there is room for it. Returns true if there was.
    #[inline]
    pub(crate) fn fill(&mut self, held: Held) -> bool
        ensures filled { result ≡ true → self.new ≡ self.old ++ held ∷ [] }
        ensures same { result ≡ false → self.new ≡ self.old }
    {
        if self.held.is_full() {
            return false;
        }
        self.held.push(held);
        true
    }
}
