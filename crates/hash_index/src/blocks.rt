//! The buckets of a table, in blocks.

ghost use Rattle.std.specs.Prelude.{◌≡◌, ◌<◌, ◌≤◌, ◌∷◌, ◌++◌, [], length, get_or, set, OnOk, OnErr};
ghost use Rattle.std.specs.Borrow.{Lends, sem};
ghost use Rattle.places.specs.Lists.{holds_in, relocated_in, without};
ghost use Rattle.place_index.specs.Steps.{BringsNoHash, IsShuffled};
ghost use Rattle.hash_index.specs.contracts.blocks.Blocks.{the_row};
ghost use Rattle.hash_index.specs.contracts.bucket.Bucket.{the_row as bucket_row};

use crate::bucket::Bucket;
use entry::NoMemory;
use places::{Held, Place};
use std::alloc::{AllocError, Global};
use std::marker::Model;

/// An allocation takes memory for this many buckets.
const BLOCK: usize = 64;

/// A table has at most this many buckets.
const MOST: usize = 1 << 62;

/// A list of buckets, in blocks of 64. No bucket moves when the list grows. A contract sees the list.
#[derive(Drop)]
pub(crate) struct Blocks {
    blocks: Vec<Vec<Bucket>>,
    len: usize,
}

impl Model for Blocks {
    ghost use Rattle.std.specs.Prelude.{◌≤◌, List};
    ghost use Rattle.places.specs.declared.place.Held.{Held};
    ghost use Rattle.hash_index.specs.Buckets.{in_blocks, AreBlocks};

    ghost Value = { List (List Held) };

    ghost view = { λ b. in_blocks b.blocks.items };

    ghost invariant = { λ b. AreBlocks b.len b.blocks.items × (b.len ≤ 4611686018427387904) };
}

impl Blocks {
    /// Makes a list of no buckets. Takes no memory.
    pub(crate) fn new(alloc: Global) -> Blocks
        ensures { result ≡ [] }
    {
        Blocks {
            blocks: Vec::new(alloc),
            len: 0,
        }
    }

    /// Returns the number of buckets.
    #[inline(always)]
    pub(crate) fn len(&self) -> usize
        ensures len { result ≡ length self.now }
        ensures limit { result ≤ 4611686018427387904 }
    {
        self.len
    }

    /// Returns bucket number `at`.
    #[inline(always)]
    pub(crate) fn get(&self, at: usize) -> &Bucket
        requires { at < length self.now }
        ensures { result.now ≡ get_or self.now at [] }
    {
        &self.blocks[at / BLOCK][at % BLOCK]
    }

    /// Returns bucket number `at`, to be changed.
    #[inline(always)]
    fn bucket_mut(&mut self, at: usize) -> &mut Bucket
        requires { at < length self.old }
        ensures* writes_back { sem 𝓛 (Lends the_row bucket_row self.entry result (λ w. set self.old at w)) }
        ensures value { result.now ≡ get_or self.old at [] }
    {
        let block = &mut self.blocks[at / BLOCK];
        &mut block[at % BLOCK]
    }

    /// Moves `held` to the place `to` in bucket number `at`, under the same hash; returns true if the bucket held it.
    #[inline(always)]
    pub(crate) fn relocate(&mut self, at: usize, held: Held, to: Place) -> bool
        requires at { at < length self.old }
        requires offset { to.at < 8388608 }
        ensures had { result ≡ holds_in (get_or self.old at []) held }
        ensures moved { self.new ≡ set self.old at (relocated_in held to (get_or self.old at [])) }
    {
        self.bucket_mut(at).relocate(held, to)
    }

    /// Takes `held` out of bucket number `at`; returns true if the bucket held it.
    pub(crate) fn take_out(&mut self, at: usize, held: Held) -> bool
        requires { at < length self.old }
        ensures had { result ≡ holds_in (get_or self.old at []) held }
        ensures taken { self.new ≡ set self.old at (without held (get_or self.old at [])) }
    {
        self.bucket_mut(at).take_out(held)
    }

    /// Adds a place to bucket number `at`. On `Err` nothing changed.
    pub(crate) fn add(&mut self, at: usize, held: Held, alloc: Global) -> Result<(), NoMemory>
        requires { at < length self.old }
        ensures only { self.new ≡ set self.old at (get_or self.new at []) }
        ensures ok { OnOk result (IsShuffled (get_or self.old at [] ++ held ∷ []) (get_or self.new at [])) }
        ensures hashes { OnOk result (BringsNoHash (get_or self.old at [] ++ held ∷ []) (get_or self.new at [])) }
        ensures err { OnErr result (self.new ≡ self.old) }
    {
        self.bucket_mut(at).push(held, alloc)
    }

    /// Replaces bucket number `at` with `bucket`.
    pub(crate) fn put(&mut self, at: usize, bucket: Bucket)
        requires { at < length self.old }
        ensures { self.new ≡ set self.old at bucket }
    {
        *self.bucket_mut(at) = bucket;
    }

    /// Adds a bucket at the end. On `Err` nothing changed.
    pub(crate) fn push(&mut self, bucket: Bucket, alloc: Global) -> Result<(), NoMemory>
        ensures ok { OnOk result (self.new ≡ self.old ++ bucket ∷ []) }
        ensures err { OnErr result (self.new ≡ self.old) }
    {
        if self.len >= MOST {
            return Err(AllocError);
        }
        if self.len % BLOCK == 0 {
            let mut block = Vec::with_capacity(alloc, BLOCK)?;
            block.push(bucket)?;
            self.blocks.push(block)?;
        } else {
            let last = self.len / BLOCK;
            self.blocks[last].push(bucket)?;
        }
        self.len += 1;
        Ok(())
    }
}
