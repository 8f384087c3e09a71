//! Resolvers, which give the key at a place.

ghost use Rattle.std.specs.Prelude.{◌≡◌, Option};
ghost use Rattle.std.specs.Option.{option_map, option_map_or};
ghost use Rattle.entry.specs.declared.key.Key.{Key};
ghost use Rattle.entry.specs.View.{shown_key};
ghost use Rattle.places.specs.declared.place.Place.{Place as PlaceValue};
ghost use Rattle.places.specs.Lists.{tells};

use crate::place::Place;
use entry::KeyRef;

/// A resolver: it gives the key at a place of the log, for an index that holds no keys.
pub trait Resolve {
    /// The key at each place, or nothing.
    ghost keys: { Self → PlaceValue → Option Key };

    /// Returns the key of the object at this place, or None if no object stands there.
    fn key_at(&self, place: Place) -> Option<KeyRef<'_>>
        ensures { option_map shown_key result ≡ keys self.entry.now place };
}

/// Returns true if the key stands at the place.
#[inline]
pub fn stands<R: Resolve>(resolver: &R, key: &KeyRef<'_>, place: Place) -> bool
    ensures { result ≡ tells (R.keys resolver.now) (shown_key key.now) place }
{
    match resolver.key_at(place) {
        Some(found) => *key == found,
        None => false,
    }
}
