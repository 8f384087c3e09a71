//! An index that grows key by key, and shrinks again.

use crate::keys::{Keys, first_form, is_same, near, new_keys, place_of};
use chain_index::ChainTable;
use hash_index::BucketTable;
use place_index::{PlaceIndex, Table};
use places::KeyHasher;
use std::alloc::Global;

/// How many keys are set.
const MOST: usize = 4096;

/// Whether the key is found at its place, or not, as it should be.
fn is_found<T: Table>(
    index: &PlaceIndex<KeyHasher, T>,
    keys: &Keys,
    number: usize,
    should: bool,
) -> bool {
    let place = if should {
        Some(place_of(number, 0))
    } else {
        None
    };
    match keys.key(number) {
        Some(key) => is_same(index.get(keys, &key), place),
        None => false,
    }
}

/// Sets the key's place, if memory is left.
fn is_set<T: Table>(index: &mut PlaceIndex<KeyHasher, T>, keys: &Keys, number: usize) -> bool {
    if index.reserve(1).is_err() {
        return false;
    }
    match keys.key(number) {
        None => false,
        Some(key) => {
            index.set(keys, &key, near(place_of(number, 0)));
            index.grow();
            true
        }
    }
}

/// Whether the key had its place, and is removed.
fn is_removed<T: Table>(index: &mut PlaceIndex<KeyHasher, T>, keys: &Keys, number: usize) -> bool {
    match keys.key(number) {
        Some(key) => is_same(index.remove(keys, &key), Some(place_of(number, 0))),
        None => false,
    }
}

/// Whether of these keys those of an odd number are found, those of an even number or not, and the next one isn't.
fn are_found<T: Table>(
    index: &PlaceIndex<KeyHasher, T>,
    keys: &Keys,
    count: usize,
    with_even: bool,
) -> bool {
    for number in 0..count {
        if !is_found(index, keys, number, with_even || number % 2 == 1) {
            return false;
        }
    }
    is_found(index, keys, count, false)
}

/// The first key after which not all is as it should be, while one after another is set.
fn first_lost<T: Table>(index: &mut PlaceIndex<KeyHasher, T>, keys: &Keys) -> Option<usize> {
    for number in 0..MOST {
        let count = number + 1;
        let is_set = is_set(index, keys, number);
        if !is_set || !is_found(index, keys, number, true) || index.len() != count {
            return Some(number);
        }
        if count.is_power_of_two() && !are_found(index, keys, count, true) {
            return Some(number);
        }
    }
    None
}

/// Whether every second key is removed, and had its place.
fn are_removed<T: Table>(index: &mut PlaceIndex<KeyHasher, T>, keys: &Keys) -> bool {
    for half in 0..MOST / 2 {
        if !is_removed(index, keys, 2 * half) {
            return false;
        }
    }
    true
}

/// The first step that goes wrong: each key is set, every second is removed, and all are looked up.
fn first_bad_step<T: Table>(alloc: Global, keys: &Keys) -> Option<usize> {
    let mut index = PlaceIndex::<KeyHasher, T>::new(alloc);
    if let Some(number) = first_lost(&mut index, keys) {
        return Some(number);
    }
    if !are_removed(&mut index, keys) {
        return Some(MOST);
    }
    if !are_found(&index, keys, MOST, false) || index.len() != MOST / 2 {
        return Some(MOST + 1);
    }
    None
}

/// The form of an index that goes wrong, and the step.
fn first_wrong(alloc: Global) -> Option<(&'static str, usize)> {
    match new_keys(alloc, MOST + 1) {
        Some(keys) => first_form(
            first_bad_step::<BucketTable>(alloc, &keys),
            first_bad_step::<ChainTable>(alloc, &keys),
        ),
        None => Some(("the keys", 0)),
    }
}

#[test]
fn an_index_grows(rt: HostRuntime) {
    assert_eq!(rt; first_wrong(rt.alloc()), None);
}
