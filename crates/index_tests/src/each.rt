//! Each call of an index, with one key.

use crate::keys::{Keys, is_same, near, new_keys};
use entry::KeyRef;
use hash_index::Index;
use places::{Held, Place};
use std::alloc::Global;

/// A call of an index with one key, and its answer.
enum Call {
    Insert(Place),
    Set(Place),
    MoveTo(Place, bool),
    Remove(Option<Place>),
    Get(Option<Place>),
    Candidate(Option<Place>),
    Holds(Place, bool),
    HoldsFirst(Place, bool),
    Relocate(Place, Place, bool),
    Len(usize),
    TakeOut(Place, bool),
}

const FIRST: Place = Place { segment: 1, at: 7 };

const SECOND: Place = Place { segment: 2, at: 9 };

const EACH: &[Call] = &[
    Call::Insert(FIRST),
    Call::Get(Some(FIRST)),
    Call::Candidate(Some(FIRST)),
    Call::Holds(FIRST, true),
    Call::HoldsFirst(FIRST, true),
    Call::Relocate(FIRST, SECOND, true),
    Call::Holds(FIRST, false),
    Call::Len(1),
    Call::TakeOut(FIRST, false),
    Call::TakeOut(SECOND, true),
    Call::Get(None),
    Call::Remove(None),
    Call::MoveTo(FIRST, false),
    Call::Set(FIRST),
    Call::Set(SECOND),
    Call::Len(1),
    Call::MoveTo(FIRST, true),
    Call::Get(Some(FIRST)),
    Call::Remove(Some(FIRST)),
    Call::Get(None),
];

/// What the index holds if the key has this place.
fn held(index: &Index, key: &KeyRef<'_>, place: &Place) -> Held {
    Held {
        hash: index.hash(key),
        place: *place,
    }
}

/// Inserts a place, if memory is left.
fn is_inserted(index: &mut Index, held: Held) -> bool {
    if index.reserve(1).is_err() {
        return false;
    }
    index.insert(held);
    index.grow();
    true
}

/// Sets the place of a key, if memory is left.
fn is_set(index: &mut Index, keys: &Keys, key: &KeyRef<'_>, place: Place) -> bool {
    if index.reserve(1).is_err() {
        return false;
    }
    index.set(keys, key, near(place));
    true
}

/// Whether the call has its answer.
fn is_answered(index: &mut Index, keys: &Keys, key: &KeyRef<'_>, call: &Call) -> bool {
    match call {
        Call::Insert(place) => is_inserted(index, held(index, key, place)),
        Call::Set(place) => is_set(index, keys, key, *place),
        Call::MoveTo(place, had) => index.move_to(keys, key, near(*place)) == *had,
        Call::Remove(place) => is_same(index.remove(keys, key), *place),
        Call::Get(place) => is_same(index.get(keys, key), *place),
        Call::Candidate(place) => is_same(index.candidate(index.hash(key)), *place),
        Call::Holds(place, holds) => index.holds(held(index, key, place)) == *holds,
        Call::HoldsFirst(place, holds) => index.holds_first(held(index, key, place)) == *holds,
        Call::Relocate(from, to, had) => {
            index.relocate(held(index, key, from), near(*to)) == *had
        }
        Call::Len(len) => index.len() == *len,
        Call::TakeOut(place, had) => index.take_out(held(index, key, place)) == *had,
    }
}

/// The first call that is answered otherwise.
fn first_other(alloc: Global, keys: &Keys, key: &KeyRef<'_>) -> Option<usize> {
    let mut index = Index::new(alloc);
    for (number, call) in EACH.iter().enumerate() {
        if !is_answered(&mut index, keys, key, call) {
            return Some(number);
        }
    }
    None
}

/// The first of the calls with key 0 that is answered otherwise.
fn first_other_of(alloc: Global, keys: &Keys) -> Option<usize> {
    match keys.key(0) {
        Some(key) => first_other(alloc, keys, &key),
        None => Some(0),
    }
}

/// The same, with the key made.
fn first_wrong(alloc: Global) -> Option<usize> {
    match new_keys(alloc, 1) {
        Some(keys) => first_other_of(alloc, &keys),
        None => Some(0),
    }
}

#[test]
fn each_call_of_an_index(rt: HostRuntime) {
    assert_eq!(rt; first_wrong(rt.alloc()), None);
}
