//! A log of made-up places, and the keys that stand there.

ghost use Rattle.std.specs.Prelude.{◌<◌, ◌/◌, slice_get};

use entry::{Key, KeyRef};
use places::{Place, Resolve};
use std::alloc::Global;

/// How many places in turn have the same key.
pub const PLACES_PER_KEY: usize = 1000;

/// How many keys have their places where an index can hold them.
const MOST_KEYS: usize = 8000;

/// A log of made-up places: the first thousand have the first key, and so on.
#[derive(Drop)]
pub struct Keys {
    keys: Vec<Key>,
}

impl Resolve for Keys {
    ghost keys = { λ s p. slice_get s.keys.items (p.at / 1000) };

    fn key_at(&self, place: Place) -> Option<KeyRef<'_>> {
        match self.keys.get(place.at / PLACES_PER_KEY) {
            Some(key) => Some(key.view()),
            None => None,
        }
    }
}

impl Keys {
    /// The key of a number.
    pub fn key(&self, number: usize) -> Option<KeyRef<'_>> {
        self.key_at(place_of(number, 0))
    }
}

/// A place at which the key of this number stands: each offset below a thousand is another one.
pub fn place_of(number: usize, offset: usize) -> Place {
    Place {
        segment: offset as u64 % 16,
        at: number % MOST_KEYS * PLACES_PER_KEY + offset % PLACES_PER_KEY,
    }
}

/// The place, if it lies where an index can hold it, as each place of `place_of` does.
pub fn near(place: Place) -> Place
    ensures { result.at < 8388608 }
{
    Place {
        segment: place.segment,
        at: place.at % 8_388_608,
    }
}

/// The key of a number. There are two tables.
pub fn new_key(alloc: Global, number: usize) -> Option<Key> {
    Key::new(alloc, number as u64 % 2, &(number / 2).to_be_bytes()).ok()
}

/// So many keys.
pub fn new_keys(alloc: Global, count: usize) -> Option<Keys> {
    let mut keys = Vec::new(alloc);
    for number in 0..count {
        keys.push(new_key(alloc, number)?).ok()?;
    }
    Some(Keys { keys })
}

/// Whether they are one place, or none.
pub fn is_same(one: Option<Place>, other: Option<Place>) -> bool {
    match one {
        None => other.is_none(),
        Some(one) => match other {
            None => false,
            Some(other) => one.segment == other.segment && one.at == other.at,
        },
    }
}

/// Which form of an index goes wrong first, and where, of what both do.
pub fn first_form(buckets: Option<usize>, chains: Option<usize>) -> Option<(&'static str, usize)> {
    match buckets {
        Some(at) => Some(("buckets", at)),
        None => match chains {
            Some(at) => Some(("chains", at)),
            None => None,
        },
    }
}
