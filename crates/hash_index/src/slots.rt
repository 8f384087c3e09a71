//! The slots of a bucket.

ghost use Rattle.std.specs.Prelude.{◌≡◌, ℕ, ◌+◌, ◌*◌, ◌<◌, length, get_or, set, replicate, ◌==◌, if◌then◌else◌};
ghost use Rattle.std.specs.Int.{w64, trailing_zeros};
ghost use Rattle.std.specs.List.{AllByRecursion, position_or_len};
ghost use Rattle.entry.specs.View.{shown_key};
ghost use Rattle.places.specs.declared.place.Held.{Held as HeldValue};
ghost use Rattle.places.specs.Lists.{has_hash, is_of, is_same};
ghost use Rattle.hash_index.specs.Packing.{unpacked, has_tag, has_low, is_free, IsPackable};

use crate::packed::{LOWS, OFFSETS, Packed};
use entry::KeyRef;
use places::{Held, Place, Resolve, stands};
use std::marker::Model;
use std::simd::prelude::*;

/// A bucket has this many slots.
pub(crate) const SLOTS: usize = 8;

/// Eight slots, with an array for each field. A contract sees a list of eight places. Those with a hash below 512 are
/// free slots.
#[derive(Drop)]
pub(crate) struct Slots {
    /// The upper 16 bits of each piece of a hash; 0 in a free slot.
    tags: [u16; SLOTS],
    /// The offset of each place in the lower 23 bits, and the lower nine bits of the piece above it.
    ats: [u32; SLOTS],
    /// The segment of each place.
    segments: [u64; SLOTS],
}

impl Model for Slots {
    ghost use Rattle.std.specs.Prelude.{List};
    ghost use Rattle.places.specs.declared.place.Held.{Held};
    ghost use Rattle.hash_index.specs.Packing.{slots_of, AreWords};

    ghost Value = { List Held };

    ghost view = { λ s. slots_of s.tags s.ats s.segments };

    ghost invariant = { λ s. AreWords 65536 s.tags × AreWords 4294967296 s.ats };
}

/// Returns the number of the lowest bit that is set, counted from 0; 8 if no bit is set.
#[inline(always)]
fn lowest(bits: u64) -> usize
    ensures { result ≡ if bits == 0 then 8 else trailing_zeros w64 bits }
{
    if bits == 0 {
        SLOTS
    } else {
        bits.trailing_zeros() as usize
    }
}

impl Slots {
    /// Does nothing. Its clause gives the limits of the hashes and offsets in slots.
    #[inline(always)]
    pub(crate) fn show_valid(&self)
        ensures { AllByRecursion IsPackable self.now }
    {
        let _tag = self.tags[0];
    }

    /// Returns the number of slots, 8.
    #[inline(always)]
    pub(crate) fn len(&self) -> usize
        ensures len { length self.now ≡ 8 }
        ensures result { result ≡ 8 }
    {
        let _tag = self.tags[0];
        SLOTS
    }

    /// Makes eight free slots.
    pub(crate) fn new() -> Slots
        ensures { result ≡ replicate 8 (unpacked 0 0 0) }
    {
        Slots {
            tags: [0; SLOTS],
            ats: [0; SLOTS],
            segments: [0; SLOTS],
        }
    }

    /// Returns the place in a slot, with its hash.
    #[inline(always)]
    pub(crate) fn get(&self, slot: usize) -> Held
        requires { slot < 8 }
        ensures slot { result ≡ get_or self.now slot result }
        ensures len { length self.now ≡ 8 }
    {
        let at = self.ats[slot];
        Held {
            hash: self.tags[slot] as u64 * LOWS + (at / OFFSETS) as u64,
            place: Place {
                segment: self.segments[slot],
                at: (at % OFFSETS) as usize,
            },
        }
    }

    /// Returns true if a slot has this place under this hash. The code has no branch.
    #[inline(always)]
    fn has(&self, slot: usize, sought: &Packed) -> bool
        requires { slot < 8 }
        ensures { (d : HeldValue) → result ≡ is_same sought.now (get_or self.now slot d) }
    {
        (self.tags[slot] == sought.tag)
            & (self.ats[slot] == sought.at)
            & (self.segments[slot] == sought.segment)
    }

    /// Returns the first slot that has this tag; 8 if none has it. Compares all tags at once.
    #[inline(always)]
    fn first_tagged(&self, tag: u16) -> usize
        ensures slot { result ≡ position_or_len (has_tag tag) self.now }
        ensures len { length self.now ≡ 8 }
    {
        let same = u16x8::from_array(self.tags).simd_eq(u16x8::splat(tag));
        lowest(same.to_bitmask())
    }

    /// Reads the first and the last segment early. False for every log: no segment has the id `u64::MAX`.
    #[inline(always)]
    fn has_last_segment(&self) -> bool {
        (self.segments[0] == u64::MAX) | (self.segments[SLOTS - 1] == u64::MAX)
    }

    /// Returns the first slot that has this place under this hash; 8 if none has it. Compares each slot whole, without
    /// an early exit, so that the processor has no branch to predict.
    #[inline(always)]
    pub(crate) fn first_same(&self, sought: &Packed) -> usize
        ensures slot { result ≡ position_or_len (is_same sought.now) self.now }
        ensures len { length self.now ≡ 8 }
    {
        let mut found = self.len();
        let mut slot = found;
        while slot > 0 {
            slot -= 1;
            if self.has(slot, sought) {
                found = slot;
            }
        }
        found
    }

    /// Returns true if the hash of a slot has these lower nine bits.
    #[inline(always)]
    fn is_low(&self, slot: usize, low: u32) -> bool
        requires { slot < 8 }
        ensures { (d : HeldValue) → result ≡ has_low low (get_or self.now slot d) }
    {
        self.ats[slot] / OFFSETS == low
    }

    /// Returns the same slot as `first_same`, for a caller that changes the slot. Mostly the tag decides, so that the
    /// slot is known early. Some processors hold later loads back while they don't know the slot of a store.
    #[inline(always)]
    pub(crate) fn first_by_tag(&self, sought: &Packed) -> usize
        ensures slot { result ≡ position_or_len (is_same sought.now) self.now }
        ensures len { length self.now ≡ 8 }
    {
        let slot = self.first_tagged(sought.tag);
        if slot >= SLOTS {
            return slot;
        }
        if self.has_last_segment() {
            return self.search_same(sought);
        }
        if self.has(slot, sought) {
            return slot;
        }
        self.search_same(sought)
    }

    /// Calls `first_same`, out of line, since two slots rarely have the same tag.
    #[cold]
    fn search_same(&self, sought: &Packed) -> usize
        ensures slot { result ≡ position_or_len (is_same sought.now) self.now }
        ensures len { length self.now ≡ 8 }
    {
        self.first_same(sought)
    }

    /// Returns true if a slot has this hash, given as its tag and its lower nine bits. The code has no branch.
    #[inline(always)]
    fn is_hashed(&self, slot: usize, tag: u16, low: u32) -> bool
        requires slot { slot < 8 }
        requires low { low < 512 }
        ensures { (d : HeldValue) → result ≡ has_hash (tag * 512 + low) (get_or self.now slot d) }
    {
        (self.tags[slot] == tag) & (self.ats[slot] / OFFSETS == low)
    }

    /// Returns the same slot as `first_hashed`, by a look at all slots. The function is out of line, since two slots
    /// rarely have the same tag.
    #[cold]
    fn search_hashed(&self, tag: u16, low: u32) -> usize
        requires { low < 512 }
        ensures slot { result ≡ position_or_len (has_hash (tag * 512 + low)) self.now }
        ensures len { length self.now ≡ 8 }
    {
        let mut found = self.len();
        let mut slot = found;
        while slot > 0 {
            slot -= 1;
            if self.is_hashed(slot, tag, low) {
                found = slot;
            }
        }
        found
    }

    /// Returns the first slot with this hash, given as its tag and its lower nine bits; 8 if none has it.
    #[inline(always)]
    pub(crate) fn first_hashed(&self, tag: u16, low: u32) -> usize
        requires { low < 512 }
        ensures slot { result ≡ position_or_len (has_hash (tag * 512 + low)) self.now }
        ensures len { length self.now ≡ 8 }
    {
        let slot = self.first_tagged(tag);
        if slot >= SLOTS {
            return slot;
        }
        if self.has_last_segment() {
            return self.search_hashed(tag, low);
        }
        if self.is_low(slot, low) {
            return slot;
        }
        self.search_hashed(tag, low)
    }

    /// Returns the first slot with this hash at whose place the key stands; 8 if there is none. Few keys need this
    /// search: those whose hash is also another key's.
    #[cold]
    pub(crate) fn first_of<R: Resolve>(&self, hash: u64, resolver: &R, key: &KeyRef<'_>) -> usize
        ensures slot { result ≡ position_or_len (is_of (R.keys resolver.now) (shown_key key.now) hash) self.now }
        ensures len { length self.now ≡ 8 }
    {
        let mut found = self.len();
        let mut slot = found;
        while slot > 0 {
            slot -= 1;
            let held = self.get(slot);
            if held.hash == hash && stands(resolver, key, held.place) {
                found = slot;
            }
        }
        found
    }

    /// Returns the first free slot; 8 if none is free.
    #[inline(always)]
    pub(crate) fn first_free(&self) -> usize
        ensures slot { result ≡ position_or_len is_free self.now }
        ensures len { length self.now ≡ 8 }
    {
        self.first_tagged(0)
    }

    /// Puts a packed place into a slot.
    #[inline(always)]
    pub(crate) fn put(&mut self, slot: usize, packed: &Packed)
        requires { slot < 8 }
        ensures { self.new ≡ set self.old slot packed.now }
    {
        self.tags[slot] = packed.tag;
        self.ats[slot] = packed.at;
        self.segments[slot] = packed.segment;
    }

    /// Moves the place in a slot to `to`, under the same hash.
    #[inline(always)]
    pub(crate) fn go_to(&mut self, slot: usize, packed: &Packed, to: Place)
        requires slot { slot < 8 }
        requires offset { to.at < 8388608 }
        requires same { get_or self.old slot packed.now ≡ packed.now }
        ensures { self.new ≡ set self.old slot (record { hash = packed.now.hash; place = to }) }
    {
        self.ats[slot] = packed.at / OFFSETS * OFFSETS + to.at as u32;
        self.segments[slot] = to.segment;
    }

    /// Frees a slot.
    #[inline(always)]
    pub(crate) fn free(&mut self, slot: usize)
        requires { slot < 8 }
        ensures { self.new ≡ set self.old slot (unpacked 0 0 0) }
    {
        self.tags[slot] = 0;
        self.ats[slot] = 0;
        self.segments[slot] = 0;
    }

    /// Reads the first tag, and the first and the last segment, so that all slots are in the cache soon. A bucket may
    /// lie in three cache lines. The result is meaningless.
    #[inline(always)]
    pub(crate) fn touch(&self) -> u64 {
        self.tags[0] as u64 ^ self.segments[0] ^ self.segments[SLOTS - 1]
    }
}
