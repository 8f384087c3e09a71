//! Chains: the lists of places of which a table consists.

ghost use Rattle.std.specs.Prelude.{◌≡◌, ℕ, ◌∷◌, ◌++◌, [], Option, true, OnOk, OnErr};
ghost use Rattle.entry.specs.declared.key.Key.{Key};
ghost use Rattle.entry.specs.View.{shown_key};
ghost use Rattle.places.specs.declared.place.Place.{Place as PlaceValue};
ghost use Rattle.places.specs.Lists.{found_in, AreKeptIn, IsCandidateIn, holds_in, relocated_in, without};
ghost use Rattle.place_index.specs.Steps.{BringsNoHash, IsShuffled};

use crate::front::Front;
use entry::{KeyRef, NoMemory};
use place_index::{PlaceList, Table};
use places::{Held, Place, Resolve};
use std::alloc::Global;
use std::marker::Model;

/// A chain: the places whose hashes belong to it. The first three places lie in the table itself, and the others in
/// memory of their own. If one of the first three is removed, the next place that is pushed takes its room.
#[derive(Drop)]
pub(crate) struct Chain {
    front: Front,
    more: PlaceList,
}

impl Model for Chain {
    ghost use Rattle.std.specs.Prelude.{◌++◌, List};
    ghost use Rattle.places.specs.declared.place.Held.{Held};

    ghost Value = { List Held };

    ghost view = { λ c. c.front ++ c.more.held };
}

impl Chain {
    /// Makes a chain without places. This call allocates no memory.
    pub(crate) fn new(alloc: Global) -> Chain
        ensures { result ≡ [] }
    {
        Chain {
            front: Front::new(),
            more: PlaceList::new(alloc),
        }
    }

    /// Returns the places that lie in the table itself, and the others.
    #[inline]
    pub(crate) fn parts(&self) -> (&[Held], &[Held])
        ensures { result.0.now ++ result.1.now ≡ self.now }
    {
        (self.front.as_slice(), self.more.as_slice())
    }

    /// Returns the place of the key, whose hash is `hash`, or None if the chain has no place for it.
    #[inline]
    pub(crate) fn get<R: Resolve>(&self, hash: u64, resolver: &R, key: &KeyRef<'_>) -> Option<Place>
        ensures { (hash_of : Key → ℕ) → hash ≡ hash_of (shown_key key.now)
            → AreKeptIn hash_of (R.keys resolver.now) self.now
            → result ≡ found_in (R.keys resolver.now) (shown_key key.now) self.now }
    {
        match self.front.get(hash, resolver, key) {
            Some(place) => Some(place),
            None => self.more.get(hash, resolver, key),
        }
    }

    /// Returns the first place that the chain holds under this hash, or None if it holds none.
    #[inline]
    pub(crate) fn candidate(&self, hash: u64) -> Option<Place>
        ensures { (hash_of : Key → ℕ) (keys : PlaceValue → Option Key) (k : Key) → hash ≡ hash_of k
            → AreKeptIn hash_of keys self.now → IsCandidateIn keys k self.now result }
    {
        match self.front.candidate(hash) {
            Some(place) => Some(place),
            None => self.more.candidate(hash),
        }
    }

    /// Returns true if the chain holds this place under this hash.
    #[inline]
    pub(crate) fn holds(&self, held: Held) -> bool
        ensures { result ≡ holds_in self.now held }
    {
        self.front.holds(held) || self.more.holds(held)
    }

    /// Returns true if the first place of the chain is this place under this hash.
    #[inline]
    pub(crate) fn holds_first(&self, held: Held) -> bool
        ensures { result ≡ true → holds_in self.now held ≡ true }
    {
        self.front.holds_first(held)
    }

    /// Prefetches the first place of the chain. The result has no meaning; it keeps the compiler from removing the
    /// load.
    #[inline(always)]
    pub(crate) fn touch(&self) -> u64 {
        self.front.touch()
    }

    /// Moves `held` to the place `to`, under the same hash. Returns true if the chain held it.
    pub(crate) fn relocate(&mut self, held: Held, to: Place) -> bool
        ensures had { result ≡ holds_in self.old held }
        ensures moved { self.new ≡ relocated_in held to self.old }
    {
        self.front.relocate(held, to) || self.more.put(held, to)
    }

    /// Removes `held` from the chain. Returns true if the chain held it.
    pub(crate) fn take_out(&mut self, held: Held) -> bool
        ensures had { result ≡ holds_in self.old held }
        ensures taken { self.new ≡ without held self.old }
    {
        self.front.take_out(held) || self.more.leave_out(held)
    }

    /// Adds a place: in the table itself if the chain has room there, or else in memory that grows by one place. If
    /// memory runs out, nothing changed.
    #[inline]
    pub(crate) fn push(&mut self, held: Held) -> Result<(), NoMemory>
        ensures ok { OnOk result (IsShuffled (self.old ++ held ∷ []) self.new) }
        ensures hashes { OnOk result (BringsNoHash (self.old ++ held ∷ []) self.new) }
        ensures err { OnErr result (self.new ≡ self.old) }
    {
        if self.front.fill(held) {
            return Ok(());
        }
        self.more.push_exact(held)
    }
}
