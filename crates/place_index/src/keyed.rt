//! The calls of an index by key.

ghost use Rattle.std.specs.Prelude.{◌≡◌, ◌+◌, ◌<◌, ◌≤◌, Some, None, is_some, if◌then◌else◌};
ghost use Rattle.entry.specs.View.{shown_key};
ghost use Rattle.places.specs.Map.{found, AreKeptBy, IsSetBy};

use crate::index::PlaceIndex;
use crate::table::Table;
use entry::KeyRef;
use places::{Held, KeyHash, Place, Resolve};

impl<H: KeyHash, T: Table> PlaceIndex<H, T> {
    /// Returns the place of the key, or None if it has none.
    pub fn get<R: Resolve>(&self, resolver: &R, key: &KeyRef<'_>) -> Option<Place>
        ensures { AreKeptBy H.hash_of (R.keys resolver.now) self.now.held
            → result ≡ found (R.keys resolver.now) (shown_key key.now) self.now.held }
    {
        self.get_hashed(self.hash(key), resolver, key)
    }

    /// Makes this the place of the key, whether or not the key had one. The call never fails, since there is room for
    /// one more key.
    pub fn set<R: Resolve>(&mut self, resolver: &R, key: &KeyRef<'_>, place: Place)
        requires room { 0 < self.old.room }
        requires offset { place.at < 8388608 }
        ensures set { let keys = R.keys resolver.now in let k = shown_key key.now in
            AreKeptBy H.hash_of keys self.old.held → keys place ≡ Some k
            → IsSetBy H.hash_of keys self.old.held k (Some place) self.new.held }
        ensures room { self.old.room ≤ self.new.room + 1 }
    {
        let hash = self.hash(key);
        match self.get_hashed(hash, resolver, key) {
            Some(was) => {
                self.relocate(Held { hash, place: was }, place);
            }
            None => self.insert(Held { hash, place }),
        }
    }

    /// Removes the key from the index. Returns the place that it had, or None if it had none.
    pub fn remove<R: Resolve>(&mut self, resolver: &R, key: &KeyRef<'_>) -> Option<Place>
        ensures had { AreKeptBy H.hash_of (R.keys resolver.now) self.old.held
            → result ≡ found (R.keys resolver.now) (shown_key key.now) self.old.held }
        ensures removed { AreKeptBy H.hash_of (R.keys resolver.now) self.old.held
            → IsSetBy H.hash_of (R.keys resolver.now) self.old.held (shown_key key.now) None self.new.held }
        ensures room { self.old.room ≤ self.new.room }
    {
        let hash = self.hash(key);
        match self.get_hashed(hash, resolver, key) {
            Some(place) => {
                self.take_out(Held { hash, place });
                Some(place)
            }
            None => None,
        }
    }

    /// Makes this the place of the key, if the key has a place. Returns true if it has one.
    pub fn move_to<R: Resolve>(&mut self, resolver: &R, key: &KeyRef<'_>, place: Place) -> bool
        requires { place.at < 8388608 }
        ensures had { let keys = R.keys resolver.now in AreKeptBy H.hash_of keys self.old.held
            → result ≡ is_some (found keys (shown_key key.now) self.old.held) }
        ensures moved { let keys = R.keys resolver.now in let k = shown_key key.now in let old = self.old.held in
            AreKeptBy H.hash_of keys old → keys place ≡ Some k
            → IsSetBy H.hash_of keys old k (if is_some (found keys k old) then Some place else None) self.new.held }
        ensures room { self.new.room ≡ self.old.room }
    {
        let hash = self.hash(key);
        match self.get_hashed(hash, resolver, key) {
            Some(there) => {
                self.relocate(Held { hash, place: there }, place);
                true
            }
            None => false,
        }
    }
}
