//! A bucket of places.

ghost use Rattle.std.specs.Prelude.{◌≡◌, ℕ, ◌<◌, ◌∷◌, ◌++◌, [], Option, true, OnOk, OnErr};
ghost use Rattle.entry.specs.declared.key.Key.{Key};
ghost use Rattle.entry.specs.View.{shown_key};
ghost use Rattle.places.specs.declared.place.Place.{Place as PlaceValue};
ghost use Rattle.places.specs.Lists.{found_in, AreKeptIn, IsCandidateIn, holds_in, relocated_in, without};
ghost use Rattle.place_index.specs.Steps.{BringsNoHash, IsShuffled};

use crate::near::Near;
use crate::overflow::Overflow;
use entry::{KeyRef, NoMemory};
use places::{Held, Place, Resolve};
use std::alloc::Global;
use std::marker::Model;

/// The places of the hashes that belong to one bucket. A bucket has 128 bytes, with slots for up to eight places.
/// Other places overflow into a list outside these bytes.
#[derive(Drop)]
pub(crate) struct Bucket {
    overflow: Overflow,
    near: Near,
}

impl Model for Bucket {
    ghost use Rattle.std.specs.Prelude.{◌++◌, List};
    ghost use Rattle.places.specs.declared.place.Held.{Held};

    ghost Value = { List Held };

    ghost view = { λ b. b.near ++ b.overflow };
}

impl Bucket {
    /// Makes a bucket of no places. Takes no memory outside the bucket.
    pub(crate) fn new() -> Bucket
        ensures { result ≡ [] }
    {
        Bucket {
            overflow: Overflow::new(),
            near: Near::new(),
        }
    }

    /// Returns the slots, and the list of what overflows.
    #[inline]
    pub(crate) fn parts(&self) -> (&Near, &Overflow)
        ensures { result.0.now ++ result.1.now ≡ self.now }
    {
        (&self.near, &self.overflow)
    }

    /// Returns the place of a key with this hash; `None` if the key has none here.
    #[inline(always)]
    pub(crate) fn get<R: Resolve>(&self, hash: u64, resolver: &R, key: &KeyRef<'_>) -> Option<Place>
        ensures { (hash_of : Key → ℕ) → hash ≡ hash_of (shown_key key.now)
            → AreKeptIn hash_of (R.keys resolver.now) self.now
            → result ≡ found_in (R.keys resolver.now) (shown_key key.now) self.now }
    {
        match self.near.get(hash, resolver, key) {
            Some(place) => Some(place),
            None => self.overflow.get(hash, resolver, key),
        }
    }

    /// Returns the first place that the bucket holds under this hash; `None` if it holds none.
    #[inline(always)]
    pub(crate) fn candidate(&self, hash: u64) -> Option<Place>
        ensures { (hash_of : Key → ℕ) (keys : PlaceValue → Option Key) (k : Key) → hash ≡ hash_of k
            → AreKeptIn hash_of keys self.now → IsCandidateIn keys k self.now result }
    {
        match self.near.candidate(hash) {
            Some(place) => Some(place),
            None => self.overflow.candidate(hash),
        }
    }

    /// Returns true if the bucket holds this place under this hash.
    #[inline(always)]
    pub(crate) fn holds(&self, held: Held) -> bool
        ensures { result ≡ holds_in self.now held }
    {
        self.near.holds(held) || self.overflow.holds(held)
    }

    /// Returns true if a slot of the bucket has this place under this hash.
    #[inline(always)]
    pub(crate) fn holds_first(&self, held: Held) -> bool
        ensures { result ≡ true → holds_in self.now held ≡ true }
    {
        self.near.holds(held)
    }

    /// Reads a little of each cache line of the bucket, and of what overflows, so that they are in the cache soon. The
    /// result is meaningless; it only keeps the compiler from removing the loads.
    #[inline(always)]
    pub(crate) fn touch(&self) -> u64 {
        self.near.touch() ^ self.overflow.touch()
    }

    /// Moves `held` to the place `to`, under the same hash; returns true if the bucket held it.
    #[inline(always)]
    pub(crate) fn relocate(&mut self, held: Held, to: Place) -> bool
        requires { to.at < 8388608 }
        ensures had { result ≡ holds_in self.old held }
        ensures moved { self.new ≡ relocated_in held to self.old }
    {
        self.near.relocate(held, to) || self.overflow.relocate(held, to)
    }

    /// Takes `held` out; returns true if the bucket held it.
    #[inline(always)]
    pub(crate) fn take_out(&mut self, held: Held) -> bool
        ensures had { result ≡ holds_in self.old held }
        ensures taken { self.new ≡ without held self.old }
    {
        self.near.take_out(held) || self.overflow.take_out(held)
    }

    /// Adds a place: to a free slot, or else to the list of what overflows. If the list has no room, it takes memory
    /// for one place more. On `Err` nothing changed.
    #[inline]
    pub(crate) fn push(&mut self, held: Held, alloc: Global) -> Result<(), NoMemory>
        ensures ok { OnOk result (IsShuffled (self.old ++ held ∷ []) self.new) }
        ensures hashes { OnOk result (BringsNoHash (self.old ++ held ∷ []) self.new) }
        ensures err { OnErr result (self.new ≡ self.old) }
    {
        if self.near.fill(held) {
            return Ok(());
        }
        self.overflow.push(held, alloc)
    }
}
