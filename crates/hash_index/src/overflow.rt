//! The places of a bucket that are in none of its slots.

ghost use Rattle.std.specs.Prelude.{◌≡◌, ℕ, ◌∷◌, ◌++◌, [], Option, OnOk, OnErr};
ghost use Rattle.entry.specs.declared.key.Key.{Key};
ghost use Rattle.entry.specs.View.{shown_key};
ghost use Rattle.places.specs.declared.place.Place.{Place as PlaceValue};
ghost use Rattle.places.specs.Lists.{found_in, AreKeptIn, IsCandidateIn, holds_in, relocated_in, without};

use entry::{KeyRef, NoMemory};
use place_index::{PlaceList, Table};
use places::{Held, Place, Resolve};
use std::alloc::{AllocError, Global};
use std::marker::Model;

/// A list of places. It takes 16 bytes until the first place is added. A contract sees the list.
#[derive(Drop)]
pub(crate) struct Overflow {
    list: Option<Box<PlaceList>>,
}

impl Model for Overflow {
    ghost use Rattle.std.specs.Prelude.{List};
    ghost use Rattle.places.specs.declared.place.Held.{Held};
    ghost use Rattle.hash_index.specs.Buckets.{listed};

    ghost Value = { List Held };

    ghost view = { λ o. listed o.list };
}

impl Overflow {
    /// Makes a list of no places. Takes no memory outside the bucket.
    pub(crate) fn new() -> Overflow
        ensures { result ≡ [] }
    {
        Overflow { list: None }
    }

    /// Returns the places.
    #[inline]
    pub(crate) fn as_slice(&self) -> &[Held]
        ensures { result.now ≡ self.now }
    {
        match &self.list {
            Some(list) => list.as_slice(),
            None => &[],
        }
    }

    /// Returns the place of a key with this hash; `None` if the key has none in the list.
    #[inline(always)]
    pub(crate) fn get<R: Resolve>(&self, hash: u64, resolver: &R, key: &KeyRef<'_>) -> Option<Place>
        ensures { (hash_of : Key → ℕ) → hash ≡ hash_of (shown_key key.now)
            → AreKeptIn hash_of (R.keys resolver.now) self.now
            → result ≡ found_in (R.keys resolver.now) (shown_key key.now) self.now }
    {
        match &self.list {
            Some(list) => list.get_rarely(hash, resolver, key),
            None => None,
        }
    }

    /// Returns the first place that the list has under this hash; `None` if it has none.
    #[inline(always)]
    pub(crate) fn candidate(&self, hash: u64) -> Option<Place>
        ensures { (hash_of : Key → ℕ) (keys : PlaceValue → Option Key) (k : Key) → hash ≡ hash_of k
            → AreKeptIn hash_of keys self.now → IsCandidateIn keys k self.now result }
    {
        match &self.list {
            Some(list) => list.candidate_rarely(hash),
            None => None,
        }
    }

    /// Returns true if the list has this place under this hash.
    #[inline]
    pub(crate) fn holds(&self, held: Held) -> bool
        ensures { result ≡ holds_in self.now held }
    {
        match &self.list {
            Some(list) => list.holds(held),
            None => false,
        }
    }

    /// Reads the first place, if there is one, so that the list is in the cache soon. The result is meaningless.
    #[inline(always)]
    pub(crate) fn touch(&self) -> u64 {
        match &self.list {
            Some(list) => match list.as_slice().first() {
                Some(held) => held.hash,
                None => 0,
            },
            None => 0,
        }
    }

    /// Moves `held` to the place `to`, under the same hash; returns true if the list had it.
    #[inline]
    pub(crate) fn relocate(&mut self, held: Held, to: Place) -> bool
        ensures had { result ≡ holds_in self.old held }
        ensures moved { self.new ≡ relocated_in held to self.old }
    {
        match &mut self.list {
            Some(list) => list.put(held, to),
            None => false,
        }
    }

    /// Takes `held` out; returns true if the list had it. The list keeps its memory.
    #[inline]
    pub(crate) fn take_out(&mut self, held: Held) -> bool
        ensures had { result ≡ holds_in self.old held }
        ensures taken { self.new ≡ without held self.old }
    {
        match &mut self.list {
            Some(list) => list.leave_out(held),
            None => false,
        }
    }

    /// Adds a place at the end. If there is no room for it, the list takes memory for just one place more. On `Err`
    /// the places are as before.
    pub(crate) fn push(&mut self, held: Held, alloc: Global) -> Result<(), NoMemory>
        ensures ok { OnOk result (self.new ≡ self.old ++ held ∷ []) }
        ensures err { OnErr result (self.new ≡ self.old) }
    {
        if self.list.is_none() {
            self.list = Some(Box::new(alloc, PlaceList::new(alloc))?);
        }
        match &mut self.list {
            Some(list) => list.push_exact(held),
            None => Err(AllocError),
        }
    }
}
