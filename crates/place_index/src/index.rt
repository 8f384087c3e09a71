//! The index: a map from keys to places of the log.

ghost use Rattle.std.specs.Prelude.{◌≡◌, ◌+◌, ◌<◌, ◌≤◌, ◌∷◌, ◌++◌, [], Option, Some, None, true, false, length, OnOk};
ghost use Rattle.std.specs.Prelude.{OnErr};
ghost use Rattle.entry.specs.declared.key.Key.{Key};
ghost use Rattle.entry.specs.View.{shown_key};
ghost use Rattle.places.specs.declared.place.Place.{Place as PlaceValue};
ghost use Rattle.places.specs.Hashing.{pieces};
ghost use Rattle.places.specs.Map.{found, AreKeptBy, IsSetBy, IsSameMapBy, IsCandidate};
ghost use Rattle.places.specs.Relocation.{no_places, holds, relocated};
ghost use Rattle.place_index.specs.Steps.{IsShuffled};

use crate::list::PlaceList;
use crate::table::Table;
use entry::{KeyRef, NoMemory};
use places::{Held, KeyHash, KeyHasher, Place, Resolve, piece};
use std::alloc::{AllocError, Global};
use std::marker::Model;

/// A map from keys to places of a log, over a hasher and a table. It holds no keys: the owner of the log gives the key
/// at a place (`Resolve`).
///
/// `get`, `set`, `remove` and `move_to` are the calls by key. Each of them hashes its key, and reads the keys at the
/// places that are held under the same hash, mostly one. A caller that has looked a key up knows its hash and its
/// place. `insert`, `relocate` and `take_out` take these two; they hash nothing and read no key.
///
/// - Promise: each key that stands at a held place is found at that place (*found*). This needs a resolver for which a
///   key stands at each held place, and no key stands at two (*AreKept*).
/// - Failure: only `reserve` can fail, if memory runs out. After `reserve(k)` there is room for the next k new keys.
/// - Cost: a look-up hashes a key, and asks the table and the few places that wait for memory.
///
/// ```text
/// index.reserve(1)?;
/// index.set(&images, &key, Place { segment: 3, at: 32 });     // `images` gives this key at this place
/// assert!(index.get(&images, &key) == Some(Place { segment: 3, at: 32 }));
/// let hash = index.hash(&key);
/// index.relocate(Held { hash, place: Place { segment: 3, at: 32 } }, Place { segment: 5, at: 18 });
/// ```
#[derive(Drop)]
pub struct PlaceIndex<H: KeyHash, T: Table> {
    hasher: H,
    table: T,
    /// The places that wait: those for which the table got no memory.
    waiting: PlaceList,
    len: usize,
    room: usize,
}

impl<H: KeyHash, T: Table> Model for PlaceIndex<H, T> {
    ghost use Rattle.std.specs.Prelude.{◌++◌};
    ghost use Rattle.places.specs.Map.{IndexValue};
    ghost use Rattle.place_index.specs.Steps.{IsWhole};

    ghost Value = { IndexValue };

    ghost view = { λ i. record {
      held = record { seed = H.seed i.hasher; list = T.places i.table ++ i.waiting.held };
      room = i.room;
    } };

    ghost invariant = { λ i. IsWhole (T.places i.table) i.waiting i.len i.room };
}

impl<T: Table> PlaceIndex<KeyHasher, T> {
    /// Makes an index without keys, with the fast hasher, which has no secret. This call allocates no memory.
    pub fn new(alloc: Global) -> PlaceIndex<KeyHasher, T>
        ensures { result ≡ record { held = no_places []; room = 0 } }
    {
        PlaceIndex::<KeyHasher, T>::with_hasher(alloc, KeyHasher::new())
    }
}

impl<H: KeyHash, T: Table> PlaceIndex<H, T> {
    /// Makes an index without keys, with this hasher. This call allocates no memory.
    pub fn with_hasher(alloc: Global, hasher: H) -> PlaceIndex<H, T>
        ensures { result ≡ record { held = no_places (H.seed hasher); room = 0 } }
    {
        PlaceIndex {
            hasher,
            table: T::new(alloc),
            waiting: PlaceList::new(alloc),
            len: 0,
            room: 0,
        }
    }

    /// Returns the number of keys in the index.
    pub fn len(&self) -> usize
        ensures { result ≡ length self.now.held.list }
    {
        self.len
    }

    /// Returns the piece of the key's hash, under which the index holds the key's place.
    #[inline]
    pub fn hash(&self, key: &KeyRef<'_>) -> u64
        ensures { result ≡ pieces H.hash_of self.now.held.seed (shown_key key.now) }
    {
        piece(self.hasher.hash(key))
    }

    /// Returns the place of the key, or None if it has none. The caller gives the hash that the index has for the key.
    #[inline(always)]
    pub fn get_hashed<R: Resolve>(&self, hash: u64, resolver: &R, key: &KeyRef<'_>) -> Option<Place>
        requires { hash ≡ pieces H.hash_of self.now.held.seed (shown_key key.now) }
        ensures { AreKeptBy H.hash_of (R.keys resolver.now) self.now.held
            → result ≡ found (R.keys resolver.now) (shown_key key.now) self.now.held }
    {
        match self.table.get(hash, resolver, key) {
            Some(place) => Some(place),
            None => self.waiting.get_rarely(hash, resolver, key),
        }
    }

    /// Returns the first place that is held under this hash, or None if there is none. No key is read. If the sought
    /// key stands at this place, it is the key's place. If another key stands there, only `get` can tell.
    #[inline(always)]
    pub fn candidate(&self, hash: u64) -> Option<Place>
        ensures { (keys : PlaceValue → Option Key) (k : Key) → hash ≡ pieces H.hash_of self.now.held.seed k
            → AreKeptBy H.hash_of keys self.now.held → IsCandidate keys k self.now.held result }
    {
        match self.table.candidate(hash) {
            Some(place) => Some(place),
            None => self.waiting.candidate_rarely(hash),
        }
    }

    /// Reserves memory for `more` further keys, which `set` or `insert` can then add without failing. The call
    /// allocates nothing if there is room for them. If it fails, nothing changed.
    pub fn reserve(&mut self, more: usize) -> Result<(), NoMemory>
        ensures room { OnOk result (more ≤ self.new.room) }
        ensures same { self.new.held ≡ self.old.held }
        ensures err { OnErr result (self.new ≡ self.old) }
        ensures full { OnErr result (self.old.room < more) }
    {
        if more <= self.room {
            return Ok(());
        }
        if self.len.checked_add(more).is_none() {
            return Err(AllocError);
        }
        self.waiting.reserve(more)?;
        self.room = more;
        Ok(())
    }

    /// Adds the place of a key that has none, under the key's hash. The call never fails: if the table gets no memory
    /// for the place, the place waits in a list. No key is read.
    pub fn insert(&mut self, held: Held)
        requires room { 0 < self.old.room }
        ensures set { (keys : PlaceValue → Option Key) (k : Key) → AreKeptBy H.hash_of keys self.old.held
            → found keys k self.old.held ≡ None → keys held.place ≡ Some k
            → held.hash ≡ pieces H.hash_of self.old.held.seed k
            → IsSetBy H.hash_of keys self.old.held k (Some held.place) self.new.held }
        ensures seed { self.new.held.seed ≡ self.old.held.seed }
        ensures room { self.old.room ≤ self.new.room + 1 }
    {
        self.len += 1;
        self.room -= 1;
        if self.table.push(held).is_err() {
            self.waiting.insert(held);
        }
    }

    /// Tells an index without keys how many keys will come. Its table may grow for them at once, as far as there is
    /// memory, so that `grow` has nothing to do until there are more. The call does nothing if the index has a key.
    pub fn presize(&mut self, keys: usize)
        ensures { self.new ≡ self.old }
    {
        if self.len == 0 {
            self.table.presize(keys);
        }
    }

    /// Grows the table if it is too small for its keys, and moves the places that wait into it. Each key keeps its
    /// place. The call never fails: places for which there is no memory go on waiting.
    pub fn grow(&mut self)
        ensures same { (keys : PlaceValue → Option Key) → AreKeptBy H.hash_of keys self.old.held
            → IsSameMapBy H.hash_of keys self.old.held self.new.held }
        ensures seed { self.new.held.seed ≡ self.old.held.seed }
        ensures room { self.new.room ≡ self.old.room }
    {
        self.table.grow(self.len);
        take_in(&mut self.table, &mut self.waiting);
    }

    /// Returns true if the index holds this place under this hash. No key is read.
    #[inline(always)]
    pub fn holds(&self, held: Held) -> bool
        ensures { result ≡ holds self.now.held held }
    {
        self.table.holds(held) || self.waiting.holds(held)
    }

    /// Returns true if the table finds this place under this hash where it looks first. If the result is false, the
    /// index may still hold the place; `holds` tells. The memory reads of several such calls in a row overlap.
    #[inline]
    pub fn holds_first(&self, held: Held) -> bool
        ensures { result ≡ true → holds self.now.held held ≡ true }
    {
        self.table.holds_first(held)
    }

    /// Prefetches the memory in which the table looks first for this hash. The result has no meaning; it keeps the
    /// compiler from removing the load. Several prefetches in a row overlap.
    #[inline(always)]
    pub fn touch(&self, hash: u64) -> u64 {
        self.table.touch(hash)
    }

    /// Moves `held` to the place `to`, under the same hash. Returns true if the index held it. The call allocates no
    /// memory, and no key is read.
    #[inline(always)]
    pub fn relocate(&mut self, held: Held, to: Place) -> bool
        requires { to.at < 8388608 }
        ensures had { result ≡ holds self.old.held held }
        ensures moved { self.new.held ≡ relocated held to self.old.held }
        ensures room { self.new.room ≡ self.old.room }
    {
        self.table.relocate(held, to) || self.waiting.put(held, to)
    }

    /// Removes `held`, so that the key that was found there has no place. Returns true if the index held it. No key is
    /// read.
    pub fn take_out(&mut self, held: Held) -> bool
        ensures had { result ≡ holds self.old.held held }
        ensures taken { (keys : PlaceValue → Option Key) (k : Key) → AreKeptBy H.hash_of keys self.old.held
            → found keys k self.old.held ≡ Some held.place → held.hash ≡ pieces H.hash_of self.old.held.seed k
            → IsSetBy H.hash_of keys self.old.held k None self.new.held }
        ensures seed { self.new.held.seed ≡ self.old.held.seed }
        ensures same { result ≡ false → self.new.held ≡ self.old.held }
        ensures room { self.old.room ≤ self.new.room }
    {
        if self.table.take_out(held) {
            self.len -= 1;
            return true;
        }
        if self.waiting.leave_out(held) {
            self.len -= 1;
            return true;
        }
        false
    }
}

/// Moves each waiting place into the table, if the table gets memory for it. The other places go on waiting.
fn take_in<T: Table>(table: &mut T, waiting: &mut PlaceList)
    ensures places { IsShuffled (T.places table.old ++ waiting.old.held) (T.places table.new ++ waiting.new.held) }
    ensures room { waiting.old.room ≤ waiting.new.room }
{
    let mut left = waiting.len();
    while left > 0 {
        left -= 1;
        let held = waiting.as_slice()[left];
        if table.push(held).is_ok() {
            waiting.cut(left);
        }
    }
}
