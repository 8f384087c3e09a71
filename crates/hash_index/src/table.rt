//! The table of an index: places in buckets, by their hashes.

ghost use Rattle.std.specs.Prelude.{◌≡◌, ◌+◌, ◌<◌, [], OnOk, OnErr};
ghost use Rattle.place_index.specs.Steps.{IsShuffled};

use crate::address::bucket_at;
use crate::blocks::Blocks;
use crate::bucket::Bucket;
use crate::dividing::divided;
use entry::{KeyRef, NoMemory};
use place_index::Table;
use places::{Held, Place, Resolve};
use std::alloc::{AllocError, Global};
use std::marker::Model;

/// A table that isn't small gets one more bucket once it has this many keys for each bucket.
const KEYS_PER_BUCKET: usize = 6;

/// A small table gets one more bucket once it has this many keys for each bucket. Memory costs little there, and fewer
/// places overflow.
const KEYS_IF_SMALL: usize = 4;

/// A table of fewer buckets than this is small.
const SMALL: usize = 1024;

/// A table of places in buckets: each place is in the bucket of its hash. A contract sees the places of all buckets as
/// one list.
#[derive(Drop)]
pub struct BucketTable {
    alloc: Global,
    buckets: Blocks,
}

impl Model for BucketTable {
    ghost use Rattle.std.specs.Prelude.{List, length};
    ghost use Rattle.places.specs.declared.place.Held.{Held};
    ghost use Rattle.place_index.specs.Parted.{places_in, AreInParts};
    ghost use Rattle.hash_index.specs.Buckets.{bucket_of};

    ghost Value = { List Held };

    ghost view = { λ t. places_in t.buckets };

    ghost invariant = { λ t. AreInParts (bucket_of (length t.buckets)) 0 t.buckets };
}

/// Returns the number of buckets that a table should have for so many keys.
#[inline]
fn buckets_for(keys: usize) -> usize {
    let if_small = keys / KEYS_IF_SMALL + 1;
    if if_small < SMALL {
        return if_small;
    }
    (keys / KEYS_PER_BUCKET + 1).max(SMALL)
}

impl BucketTable {
    /// Adds a bucket to a table of no places. On `Err` nothing changed.
    fn add_empty(&mut self) -> Result<(), NoMemory>
        requires { self.old ≡ [] }
        ensures { self.new ≡ [] }
    {
        self.buckets.push(Bucket::new(), self.alloc)
    }

    /// Adds a bucket, which takes its places from one other bucket if there is one. On `Err` nothing changed.
    fn add_bucket(&mut self) -> Result<(), NoMemory>
        ensures ok { OnOk result (IsShuffled self.old self.new) }
        ensures err { OnErr result (self.new ≡ self.old) }
    {
        let count = self.buckets.len();
        if count == 0 {
            return self.buckets.push(Bucket::new(), self.alloc);
        }
        let source = bucket_at(count, count as u64);
        let parts = divided(self.buckets.get(source), count, self.alloc)?;
        self.buckets.push(parts.goes, self.alloc)?;
        self.buckets.put(source, parts.stays);
        Ok(())
    }
}

impl Table for BucketTable {
    ghost places = { λ t. t };

    fn new(alloc: Global) -> BucketTable {
        BucketTable {
            alloc,
            buckets: Blocks::new(alloc),
        }
    }

    #[inline(always)]
    fn get<R: Resolve>(&self, hash: u64, resolver: &R, key: &KeyRef<'_>) -> Option<Place> {
        if self.buckets.len() == 0 {
            return None;
        }
        let at = bucket_at(self.buckets.len(), hash);
        let bucket = self.buckets.get(at);
        bucket.get(hash, resolver, key)
    }

    #[inline(always)]
    fn candidate(&self, hash: u64) -> Option<Place> {
        if self.buckets.len() == 0 {
            return None;
        }
        let at = bucket_at(self.buckets.len(), hash);
        let bucket = self.buckets.get(at);
        bucket.candidate(hash)
    }

    #[inline(always)]
    fn holds(&self, held: Held) -> bool {
        if self.buckets.len() == 0 {
            return false;
        }
        let at = bucket_at(self.buckets.len(), held.hash);
        let bucket = self.buckets.get(at);
        bucket.holds(held)
    }

    #[inline(always)]
    fn holds_first(&self, held: Held) -> bool {
        if self.buckets.len() == 0 {
            return false;
        }
        let at = bucket_at(self.buckets.len(), held.hash);
        let bucket = self.buckets.get(at);
        bucket.holds_first(held)
    }

    #[inline(always)]
    fn touch(&self, hash: u64) -> u64 {
        if self.buckets.len() == 0 {
            return 0;
        }
        let at = bucket_at(self.buckets.len(), hash);
        self.buckets.get(at).touch()
    }

    #[inline(always)]
    fn relocate(&mut self, held: Held, to: Place) -> bool {
        if self.buckets.len() == 0 {
            return false;
        }
        let at = bucket_at(self.buckets.len(), held.hash);
        self.buckets.relocate(at, held, to)
    }

    fn take_out(&mut self, held: Held) -> bool {
        if self.buckets.len() == 0 {
            return false;
        }
        let at = bucket_at(self.buckets.len(), held.hash);
        self.buckets.take_out(at, held)
    }

    /// Adds a place to its bucket. A table of no buckets refuses each place.
    fn push(&mut self, held: Held) -> Result<(), NoMemory> {
        if self.buckets.len() == 0 {
            return Err(AllocError);
        }
        let at = bucket_at(self.buckets.len(), held.hash);
        self.buckets.add(at, held, self.alloc)
    }

    /// Adds buckets until there are enough for so many keys, or until one is refused.
    fn presize(&mut self, keys: usize) {
        for _ in self.buckets.len()..buckets_for(keys) {
            if self.add_empty().is_err() {
                return;
            }
        }
    }

    /// Adds one bucket if there are too few for so many keys. If the bucket is refused, the table stays as it is.
    fn grow(&mut self, keys: usize) {
        if self.buckets.len() < buckets_for(keys) {
            let _ = self.add_bucket();
        }
    }
}
