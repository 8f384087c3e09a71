//! Keys that fall together: all have one hash, or one of two.

ghost use Rattle.std.specs.Prelude.{◌≡◌, true, [], ◌==◌, if◌then◌else◌};
ghost use Rattle.place_index.specs.Runs.{AreWithin, IsWithin};

use crate::keys::{Keys, first_form, is_same, new_key, new_keys, place_of};
use chain_index::ChainTable;
use entry::{Key, KeyRef};
use hash_index::BucketTable;
use place_index::{MapAnswer, MapCall, PlaceIndex, PlaceList, Table, run};
use places::KeyHash;
use std::alloc::Global;

/// How many keys there are.
const KEY_COUNT: usize = 1000;

/// A hash that is always 0.
#[derive(Clone, Copy)]
struct Zero;

impl KeyHash for Zero {
    ghost seed = { λ h. [] };

    ghost hash_of = { λ seed k. 0 };

    fn hash(&self, _key: &KeyRef<'_>) -> u64 {
        0
    }
}

/// A hash that has no bit or all, by the key's table.
#[derive(Clone, Copy)]
struct Two;

impl KeyHash for Two {
    ghost seed = { λ h. [] };

    ghost hash_of = { λ seed k. if k.table == 0 then 0 else 18446744073709551615 };

    fn hash(&self, key: &KeyRef<'_>) -> u64 {
        if key.table == 0 { 0 } else { u64::MAX }
    }
}

/// A call with a key. The first turn of calls sets each key, the second moves it to another place, the third removes it
/// if its number is even, and the fourth looks it up.
fn call_of(turn: usize, number: usize, key: Key) -> MapCall {
    match turn {
        0 => MapCall::Set(key, place_of(number, 1)),
        1 => MapCall::MoveTo(key, place_of(number, 2)),
        2 if number % 2 == 0 => MapCall::Remove(key),
        _ => MapCall::Get(key),
    }
}

/// What such a call answers.
fn answer_of(turn: usize, number: usize) -> MapAnswer {
    match turn {
        0 => MapAnswer::Set,
        1 => MapAnswer::Moved(true),
        3 if number % 2 == 0 => MapAnswer::Found(None),
        _ => MapAnswer::Found(Some(place_of(number, 2))),
    }
}

/// All the calls.
fn new_calls(alloc: Global) -> Option<Vec<MapCall>> {
    let mut calls = Vec::new(alloc);
    for call in 0..4 * KEY_COUNT {
        let number = call % KEY_COUNT;
        let key = new_key(alloc, number)?;
        calls.push(call_of(call / KEY_COUNT, number, key)).ok()?;
    }
    Some(calls)
}

/// Whether the call's place, if it has one, lies where an index can hold it.
fn is_within(call: &MapCall) -> bool
    ensures { result ≡ true → IsWithin call.now }
{
    match call {
        MapCall::Get(_) => true,
        MapCall::Set(_, place) => place.at < 8_388_608,
        MapCall::Remove(_) => true,
        MapCall::MoveTo(_, place) => place.at < 8_388_608,
    }
}

/// Whether each call's place does.
fn are_within(calls: &[MapCall]) -> bool
    ensures { result ≡ true → AreWithin calls.now }
{
    for call in calls {
        if !is_within(call) {
            return false;
        }
    }
    true
}

/// Whether two answers are the same.
fn is_same_answer(one: &MapAnswer, other: &MapAnswer) -> bool {
    match one {
        MapAnswer::Found(place) => match other {
            MapAnswer::Found(other) => is_same(*place, *other),
            _ => false,
        },
        MapAnswer::Set => matches!(other, MapAnswer::Set),
        MapAnswer::Moved(had) => match other {
            MapAnswer::Moved(other) => *had == *other,
            _ => false,
        },
    }
}

/// The first answer that is another one; the count of answers if there aren't as many as calls.
fn first_other(answers: &[MapAnswer]) -> Option<usize> {
    for (call, answer) in answers.iter().enumerate() {
        let wanted = answer_of(call / KEY_COUNT, call % KEY_COUNT);
        if !is_same_answer(answer, &wanted) {
            return Some(call);
        }
    }
    if answers.len() != 4 * KEY_COUNT {
        return Some(answers.len());
    }
    None
}

/// The first of the calls that an index of this hash and this table answers otherwise.
fn first_other_of<H: KeyHash + Copy, T: Table>(
    alloc: Global,
    hasher: H,
    keys: &Keys,
    calls: &[MapCall],
) -> Option<usize> {
    if !are_within(calls) {
        return Some(0);
    }
    let mut index = PlaceIndex::<H, T>::with_hasher(alloc, hasher);
    match run(alloc, &mut index, keys, calls) {
        Ok(answers) => first_other(answers.as_slice()),
        Err(_) => Some(0),
    }
}

/// The form of an index of this hash that answers one of the calls otherwise, and the call.
fn first_wrong_of<H: KeyHash + Copy>(
    alloc: Global,
    hasher: H,
    keys: &Keys,
    calls: &[MapCall],
) -> Option<(&'static str, usize)> {
    match first_other_of::<H, PlaceList>(alloc, hasher, keys, calls) {
        Some(call) => Some(("the plain index", call)),
        None => first_form(
            first_other_of::<H, BucketTable>(alloc, hasher, keys, calls),
            first_other_of::<H, ChainTable>(alloc, hasher, keys, calls),
        ),
    }
}

/// The same, with the keys and the calls made.
pub fn first_wrong<H: KeyHash + Copy>(alloc: Global, hasher: H) -> Option<(&'static str, usize)> {
    let Some(keys) = new_keys(alloc, KEY_COUNT) else {
        return Some(("the keys", 0));
    };
    match new_calls(alloc) {
        Some(calls) => first_wrong_of(alloc, hasher, &keys, calls.as_slice()),
        None => Some(("the calls", 0)),
    }
}

#[test]
fn keys_of_one_hash(rt: HostRuntime) {
    assert_eq!(rt; first_wrong(rt.alloc(), Zero), None);
}

#[test]
fn keys_of_two_hashes(rt: HostRuntime) {
    assert_eq!(rt; first_wrong(rt.alloc(), Two), None);
}
