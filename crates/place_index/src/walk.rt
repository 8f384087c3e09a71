//! Searches that walk a list of held places.

ghost use Rattle.std.specs.Prelude.{◌≡◌};
ghost use Rattle.std.specs.List.{position};
ghost use Rattle.entry.specs.View.{shown_key};
ghost use Rattle.places.specs.Lists.{is_of, has_hash, is_same};

use entry::KeyRef;
use places::{Held, Resolve, stands};

/// Returns true if this is the key's place, held under this hash. The key at the place is read only if the hashes are
/// equal.
#[inline]
pub fn is_place_of<R: Resolve>(one: &Held, hash: u64, resolver: &R, key: &KeyRef<'_>) -> bool
    ensures { result ≡ is_of (R.keys resolver.now) (shown_key key.now) hash one.now }
{
    one.hash == hash && stands(resolver, key, one.place)
}

/// Returns true if this is the sought place under the sought hash.
#[inline]
pub fn is_same_held(one: &Held, sought: Held) -> bool
    ensures { result ≡ is_same sought one.now }
{
    (one.hash == sought.hash)
        & (one.place.segment == sought.place.segment)
        & (one.place.at == sought.place.at)
}

/// Returns the first slot that has the key's place under this hash, or None if no slot has it.
#[inline]
pub fn slot_of<R: Resolve>(
    held: &[Held],
    hash: u64,
    resolver: &R,
    key: &KeyRef<'_>,
) -> Option<usize>
    ensures { result ≡ position (is_of (R.keys resolver.now) (shown_key key.now) hash) held.now }
{
    held.iter()
        .position(|one| is_place_of(one, hash, resolver, key))
}

/// Returns the first slot that has the sought place under the sought hash, or None if no slot has it.
#[inline]
pub fn slot_at(held: &[Held], sought: Held) -> Option<usize>
    ensures { result ≡ position (is_same sought) held.now }
{
    held.iter().position(|one| is_same_held(one, sought))
}

/// Returns the first slot that has this hash, or None if no slot has it.
#[inline]
pub fn first_slot(held: &[Held], hash: u64) -> Option<usize>
    ensures { result ≡ position (has_hash hash) held.now }
{
    held.iter().position(|one| one.hash == hash)
}
