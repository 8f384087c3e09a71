//! The hashes of keys, with a secret and without one.

use crate::keys::{Keys, new_keys};
use crate::one_hash;
use chain_index::ChainTable;
use hash_index::BucketTable;
use place_index::{PlaceIndex, Table};
use places::{KeyHasher, Secret};
use std::alloc::Global;

/// How many keys are hashed.
const KEY_COUNT: usize = 10;

const ONE: Option<Secret> = Some(Secret {
    first: 0x0123_4567_89ab_cdef,
    second: 0xfedc_ba98_7654_3210,
});

const OTHER: Option<Secret> = Some(Secret {
    first: 0x0123_4567_89ab_cdef,
    second: 0xfedc_ba98_7654_3211,
});

/// Two secrets, and whether ten keys have the same hashes under both.
struct Case {
    one: Option<Secret>,
    other: Option<Secret>,
    is_alike: bool,
}

const CASES: &[Case] = &[
    Case {
        one: None,
        other: None,
        is_alike: true,
    },
    Case {
        one: None,
        other: ONE,
        is_alike: false,
    },
    Case {
        one: ONE,
        other: ONE,
        is_alike: true,
    },
    Case {
        one: ONE,
        other: OTHER,
        is_alike: false,
    },
];

/// The hasher of this secret, if there is one.
fn hasher(secret: Option<Secret>) -> KeyHasher {
    match secret {
        Some(secret) => KeyHasher::with_secret(secret),
        None => KeyHasher::new(),
    }
}

/// The hash of a key in an index.
fn hash_in<T: Table>(index: &PlaceIndex<KeyHasher, T>, keys: &Keys, number: usize) -> Option<u64> {
    match keys.key(number) {
        Some(key) => Some(index.hash(&key)),
        None => None,
    }
}

/// Whether ten keys have the same hashes in both.
fn hash_alike<T: Table>(
    one: &PlaceIndex<KeyHasher, T>,
    other: &PlaceIndex<KeyHasher, T>,
    keys: &Keys,
) -> bool {
    for number in 0..KEY_COUNT {
        if hash_in(one, keys, number) != hash_in(other, keys, number) {
            return false;
        }
    }
    true
}

/// Whether the hashes are as the case says.
fn is_case<T: Table>(alloc: Global, keys: &Keys, case: &Case) -> bool {
    let one = PlaceIndex::<KeyHasher, T>::with_hasher(alloc, hasher(case.one));
    let other = PlaceIndex::<KeyHasher, T>::with_hasher(alloc, hasher(case.other));
    hash_alike(&one, &other, keys) == case.is_alike
}

/// The first case of which that isn't so, over both tables.
fn first_wrong_case(alloc: Global, keys: &Keys) -> Option<usize> {
    for (number, case) in CASES.iter().enumerate() {
        if !is_case::<BucketTable>(alloc, keys, case) || !is_case::<ChainTable>(alloc, keys, case) {
            return Some(number);
        }
    }
    None
}

/// The same, with the keys made.
fn first_wrong(alloc: Global) -> Option<usize> {
    match new_keys(alloc, KEY_COUNT) {
        Some(keys) => first_wrong_case(alloc, &keys),
        None => Some(CASES.len()),
    }
}

/// The hash of the key 7 under this secret.
fn hash_of(alloc: Global, secret: Option<Secret>) -> Option<u64> {
    let index = PlaceIndex::<KeyHasher, BucketTable>::with_hasher(alloc, hasher(secret));
    match new_keys(alloc, KEY_COUNT) {
        Some(keys) => hash_in(&index, &keys, 7),
        None => None,
    }
}

/// What goes wrong first in an index without a secret, and then in one with a secret.
fn first_wrong_answer(alloc: Global) -> Option<(&'static str, usize)> {
    match one_hash::first_wrong(alloc, hasher(None)) {
        Some(wrong) => Some(wrong),
        None => one_hash::first_wrong(alloc, hasher(ONE)),
    }
}

#[test]
fn hashes_depend_on_the_secret(rt: HostRuntime) {
    assert_eq!(rt; first_wrong(rt.alloc()), None);
}

/// These numbers never change.
#[test]
fn a_hash_stays(rt: HostRuntime) {
    let hashes = (hash_of(rt.alloc(), None), hash_of(rt.alloc(), ONE));
    assert_eq!(rt; hashes, (Some(30_374_082), Some(29_733_489)));
}

#[test]
fn answers_are_the_same_with_a_secret(rt: HostRuntime) {
    assert_eq!(rt; first_wrong_answer(rt.alloc()), None);
}
