//! A generated row of calls of an index and of the plain one.

use crate::keys::{Keys, PLACES_PER_KEY, is_same, near, new_keys};
use chain_index::ChainTable;
use entry::KeyRef;
use hash_index::BucketTable;
use place_index::{PlaceIndex, PlaceList, Table};
use places::{Held, KeyHasher, Place, Resolve};
use std::alloc::Global;

/// How many keys there are: so few that chains hold several, and that calls meet what earlier ones left.
const KEY_COUNT: usize = 300;

/// How many calls the generated row has.
const CALLS: usize = 100_000;

/// The plain index: a list.
type Plain = PlaceIndex<KeyHasher, PlaceList>;

/// The next number of a row that looks random.
fn next(roll: u64) -> u64 {
    let roll = roll ^ roll << 13;
    let roll = roll ^ roll >> 7;
    roll ^ roll << 17
}

/// Inserts a place in both. Now and then the table doesn't grow at once.
fn insert<T: Table>(index: &mut PlaceIndex<KeyHasher, T>, plain: &mut Plain, held: Held) -> bool {
    if index.reserve(1).is_err() {
        return false;
    }
    if plain.reserve(1).is_err() {
        return false;
    }
    index.insert(held);
    if held.place.segment % 4 != 0 {
        index.grow();
    }
    plain.insert(held);
    true
}

/// Whether both tell alike that they hold the place.
fn holds<T: Table>(index: &PlaceIndex<KeyHasher, T>, plain: &Plain, held: Held) -> bool {
    index.holds(held) == plain.holds(held) && (plain.holds(held) || !index.holds_first(held))
}

/// Asks both for a place and for another one under its hash, and moves the one to the other in both.
fn relocate<T: Table>(
    index: &mut PlaceIndex<KeyHasher, T>,
    plain: &mut Plain,
    held: Held,
    place: Place,
) -> bool {
    let hash = held.hash;
    let place = near(place);
    holds(index, plain, held)
        && holds(index, plain, Held { hash, place })
        && index.relocate(held, place) == plain.relocate(held, place)
        && holds(index, plain, held)
        && holds(index, plain, Held { hash, place })
}

/// The key gets this place in both, whether or not it had one.
fn put<T: Table>(
    index: &mut PlaceIndex<KeyHasher, T>,
    plain: &mut Plain,
    keys: &Keys,
    key: &KeyRef<'_>,
    place: Place,
) -> bool {
    let hash = plain.hash(key);
    match plain.get(keys, key) {
        Some(there) => relocate(index, plain, Held { hash, place: there }, place),
        None => insert(index, plain, Held { hash, place }),
    }
}

/// The same by the call of the index that takes a key.
fn set<T: Table>(
    index: &mut PlaceIndex<KeyHasher, T>,
    plain: &mut Plain,
    keys: &Keys,
    key: &KeyRef<'_>,
    place: Place,
) -> bool {
    if index.reserve(1).is_err() {
        return false;
    }
    if plain.reserve(1).is_err() {
        return false;
    }
    index.set(keys, key, near(place));
    let hash = plain.hash(key);
    match plain.get(keys, key) {
        Some(there) => plain.relocate(Held { hash, place: there }, near(place)),
        None => {
            plain.insert(Held { hash, place });
            true
        }
    }
}

/// What is held of a key that has a place; else this place under its hash.
fn held_or(plain: &Plain, keys: &Keys, key: &KeyRef<'_>, place: Place) -> Held {
    Held {
        hash: plain.hash(key),
        place: plain.get(keys, key).unwrap_or(place),
    }
}

/// One call of both with a key, and whether they answer alike.
fn answers_alike<T: Table>(
    index: &mut PlaceIndex<KeyHasher, T>,
    plain: &mut Plain,
    keys: &Keys,
    key: &KeyRef<'_>,
    place: Place,
    roll: u64,
) -> bool {
    let held = held_or(plain, keys, key, place);
    match roll % 10 {
        0 | 1 => put(index, plain, keys, key, place),
        2 => set(index, plain, keys, key, place),
        3 => is_same(index.get(keys, key), plain.get(keys, key)),
        // No two of these keys have the same hash.
        4 => is_same(index.candidate(held.hash), plain.get(keys, key)),
        5 | 6 => relocate(index, plain, held, place),
        7 => index.move_to(keys, key, near(place)) == plain.relocate(held, near(place)),
        8 => index.remove(keys, key).is_some() == plain.take_out(held),
        _ => index.take_out(held) == plain.take_out(held),
    }
}

/// One call of both, and whether they are alike.
fn is_alike<T: Table>(
    index: &mut PlaceIndex<KeyHasher, T>,
    plain: &mut Plain,
    keys: &Keys,
    roll: u64,
) -> bool {
    let number = (roll >> 32) as usize % KEY_COUNT;
    let place = Place {
        segment: roll >> 8 & 15,
        at: number * PLACES_PER_KEY + (roll >> 12) as usize % PLACES_PER_KEY,
    };
    match keys.key_at(place) {
        Some(key) => {
            answers_alike(index, plain, keys, &key, place, roll) && index.len() == plain.len()
        }
        None => false,
    }
}

/// The first call after which the two differ.
fn first_unlike<T: Table>(alloc: Global, keys: &Keys) -> Option<usize> {
    let mut index = PlaceIndex::<KeyHasher, T>::new(alloc);
    let mut plain = PlaceIndex::<KeyHasher, PlaceList>::new(alloc);
    let mut roll = 0x9e37_79b9_7f4a_7c15;
    for call in 0..CALLS {
        roll = next(roll);
        if !is_alike(&mut index, &mut plain, keys, roll) {
            return Some(call);
        }
    }
    None
}

/// The first call after which an index over this table isn't the plain one.
fn first_wrong<T: Table>(alloc: Global) -> Option<usize> {
    match new_keys(alloc, KEY_COUNT) {
        Some(keys) => first_unlike::<T>(alloc, &keys),
        None => Some(0),
    }
}

#[test]
fn buckets_are_the_plain_index(rt: HostRuntime) {
    assert_eq!(rt; first_wrong::<BucketTable>(rt.alloc()), None);
}

#[test]
fn chains_are_the_plain_index(rt: HostRuntime) {
    assert_eq!(rt; first_wrong::<ChainTable>(rt.alloc()), None);
}
