//! Tables, in which an index keeps its places.

ghost use Rattle.std.specs.Prelude.{◌≡◌, ℕ, ◌<◌, ◌∷◌, ◌++◌, [], List, Option, true, false, OnOk, OnErr};
ghost use Rattle.entry.specs.declared.key.Key.{Key};
ghost use Rattle.entry.specs.View.{shown_key};
ghost use Rattle.places.specs.declared.place.Held.{Held as HeldValue};
ghost use Rattle.places.specs.declared.place.Place.{Place as PlaceValue};
ghost use Rattle.places.specs.Lists.{found_in, AreKeptIn, IsCandidateIn, holds_in, relocated_in, without};
ghost use Rattle.place_index.specs.Steps.{IsShuffled};

use entry::{KeyRef, NoMemory};
use places::{Held, Place, Resolve};
use std::alloc::Global;

/// A table of places, each under a hash. A table knows no keys, and so fits every hasher and every resolver.
pub trait Table: Drop {
    /// The places that the table holds.
    ghost places: { Self → List HeldValue };

    /// Makes a table without places. This call allocates no memory.
    fn new(alloc: Global) -> Self
        ensures { places result ≡ [] };

    /// Returns the place of the key, whose hash is `hash`, or None if the table has no place for it.
    fn get<R: Resolve>(&self, hash: u64, resolver: &R, key: &KeyRef<'_>) -> Option<Place>
        ensures { (hash_of : Key → ℕ) → hash ≡ hash_of (shown_key key.now)
            → AreKeptIn hash_of (R.keys resolver.now) (places self.now)
            → result ≡ found_in (R.keys resolver.now) (shown_key key.now) (places self.now) };

    /// Returns the first place that the table holds under this hash, or None if it holds none. No key is read.
    fn candidate(&self, hash: u64) -> Option<Place>
        ensures { (hash_of : Key → ℕ) (keys : PlaceValue → Option Key) (k : Key) → hash ≡ hash_of k
            → AreKeptIn hash_of keys (places self.now) → IsCandidateIn keys k (places self.now) result };

    /// Returns true if the table holds this place under this hash.
    fn holds(&self, held: Held) -> bool
        ensures { result ≡ holds_in (places self.now) held };

    /// Returns true if the table finds this place under this hash where it looks first. If the result is false, the
    /// table may still hold the place; `holds` tells.
    fn holds_first(&self, held: Held) -> bool
        ensures { result ≡ true → holds_in (places self.now) held ≡ true };

    /// Prefetches the memory in which the table looks first for this hash. The result has no meaning; it keeps the
    /// compiler from removing the load.
    fn touch(&self, hash: u64) -> u64;

    /// Moves `held` to the place `to`, under the same hash. Returns true if the table held it.
    fn relocate(&mut self, held: Held, to: Place) -> bool
        requires { to.at < 8388608 }
        ensures had { result ≡ holds_in (places self.old) held }
        ensures moved { places self.new ≡ relocated_in held to (places self.old) };

    /// Removes `held` from the table. Returns true if the table held it.
    fn take_out(&mut self, held: Held) -> bool
        ensures had { result ≡ holds_in (places self.old) held }
        ensures taken { IsShuffled (without held (places self.old)) (places self.new) }
        ensures same { result ≡ false → places self.new ≡ places self.old };

    /// Adds a place. The call fails if memory runs out, or if the table can't hold such a hash or such an offset.
    fn push(&mut self, held: Held) -> Result<(), NoMemory>
        ensures ok { OnOk result (IsShuffled (places self.old ++ held ∷ []) (places self.new)) }
        ensures err { OnErr result (places self.new ≡ places self.old) };

    /// Tells a table without places how many keys will come. The table may grow for them at once, as far as there is
    /// memory, or do nothing.
    fn presize(&mut self, keys: usize)
        requires { places self.old ≡ [] }
        ensures { places self.new ≡ [] };

    /// Grows the table, if it should be larger for this many keys and there is memory. The places may change their
    /// order.
    fn grow(&mut self, keys: usize)
        ensures { IsShuffled (places self.old) (places self.new) };
}
