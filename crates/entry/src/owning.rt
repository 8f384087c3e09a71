//! Conversions between a view of an entry, which borrows the bytes of a text, and an entry that owns its bytes.

ghost use Rattle.std.specs.Prelude.{◌≡◌, ◌<◌, Some, length, true, false, IfOk, OnErr, IsSomeAnd, slice_get};
ghost use Rattle.entry.specs.Format.{HoldsList};
ghost use Rattle.entry.specs.Text.{lists_lengths, listed_len};
ghost use Rattle.entry.specs.View.{shown, shown_key, shown_object, shown_tombstone, shown_digest, shown_ids};

use crate::digest::{Digest, Lengths, Listed};
use crate::entry::{Entry, Object, Tombstone};
use crate::fault::NoMemory;
use crate::key::{Key, KeyBytes};
use crate::kind::DIGEST_LEN;
use crate::limits::{Ids, Value};
use crate::reading::u64_at;
use crate::view::{DigestRef, EntryRef, KeyRef, ObjectRef, TombstoneRef};
use std::alloc::Global;

impl<'a> KeyRef<'a> {
    /// Copies the key into memory of its own.
    pub fn to_key(&self, alloc: Global) -> Result<Key, NoMemory>
        ensures { IfOk result (λ key. key ≡ shown_key self.now) }
    {
        let bytes = KeyBytes::from_slice(alloc, self.bytes)?;
        Ok(Key {
            table: self.table,
            bytes,
        })
    }
}

impl<'a> ObjectRef<'a> {
    /// Copies the object into memory of its own.
    pub fn to_object(&self, alloc: Global) -> Result<Object, NoMemory>
        ensures { IfOk result (λ object. object ≡ shown_object self.now) }
    {
        let key = self.key.to_key(alloc)?;
        let value = Value::from_slice(alloc, self.value)?;
        Ok(Object {
            key,
            version: self.version,
            value,
        })
    }
}

impl<'a> TombstoneRef<'a> {
    /// Copies the tombstone into memory of its own.
    fn to_tombstone(&self, alloc: Global) -> Result<Tombstone, NoMemory>
        ensures { IfOk result (λ tombstone. tombstone ≡ shown_tombstone self.now) }
    {
        let key = self.key.to_key(alloc)?;
        let segment = self.segment;
        Ok(Tombstone {
            key,
            version: self.version,
            segment,
        })
    }
}

impl<'a> DigestRef<'a> {
    /// Returns how many segments the digest lists.
    pub fn count(&self) -> usize
        ensures { result ≡ length (shown_ids self.now) }
    {
        self.count
    }

    /// Returns true if the digest lists the lengths of its segments.
    pub fn lists_lengths(&self) -> bool
        ensures { result ≡ lists_lengths (shown_digest self.now) }
    {
        self.has_lengths
    }

    /// Returns the id of the segment at this place of the digest. Places count from 0.
    pub fn id(&self, place: usize) -> u64
        requires { place < length (shown_ids self.now) }
        ensures { slice_get (shown_ids self.now) place ≡ Some result }
    {
        if self.has_lengths {
            u64_at(self.text, DIGEST_LEN + 16 * place)
        } else {
            u64_at(self.text, DIGEST_LEN + 8 * place)
        }
    }

    /// Returns the length of the segment at this place of the digest, or None if the digest lists no lengths.
    pub fn len(&self, place: usize) -> Option<u64>
        requires { place < length (shown_ids self.now) }
        ensures { IsSomeAnd (slice_get (shown_ids self.now) place)
            (λ id. result ≡ listed_len id (shown_digest self.now)) }
    {
        if self.has_lengths {
            Some(u64_at(self.text, DIGEST_LEN + 16 * place + 8))
        } else {
            None
        }
    }

    /// Copies the ids into memory of their own.
    fn to_ids(&self, alloc: Global) -> Result<Ids, NoMemory>
        requires { self.now.has_lengths ≡ false }
        ensures { IfOk result (λ ids. Digest.Ids ids ≡ shown_digest self.now) }
    {
        let mut ids = Vec::with_capacity(alloc, self.count)?;
        for i in 0..self.count {
            ids.push(u64_at(self.text, DIGEST_LEN + 8 * i))?;
        }
        Ok(Ids::new(ids))
    }

    /// Copies the ids and the lengths of the segments into memory of their own.
    fn to_lengths(&self, alloc: Global) -> Result<Lengths, NoMemory>
        requires { self.now.has_lengths ≡ true }
        ensures { IfOk result (λ segments. Digest.Lengths segments ≡ shown_digest self.now) }
    {
        let mut segments = Vec::with_capacity(alloc, self.count)?;
        for i in 0..self.count {
            let id = u64_at(self.text, DIGEST_LEN + 16 * i);
            let len = u64_at(self.text, DIGEST_LEN + 16 * i + 8);
            segments.push(Listed { id, len })?;
        }
        Ok(Lengths::new(segments))
    }

    /// Copies the digest into memory of its own.
    fn to_digest(&self, alloc: Global) -> Result<Digest, NoMemory>
        ensures { IfOk result (λ digest. digest ≡ shown_digest self.now) }
    {
        if self.has_lengths {
            Ok(Digest::Lengths(self.to_lengths(alloc)?))
        } else {
            Ok(Digest::Ids(self.to_ids(alloc)?))
        }
    }
}

impl<'a> EntryRef<'a> {
    /// Copies the entry into memory of its own. For a header and for a safe version the call allocates no memory.
    pub fn to_entry(&self, alloc: Global) -> Result<Entry, NoMemory>
        ensures ok { IfOk result (λ entry. entry ≡ shown self.now) }
        ensures err { OnErr result (HoldsList (shown self.now)) }
    {
        match self {
            EntryRef::Header(header) => Ok(Entry::Header(*header)),
            EntryRef::Digest(digest) => Ok(Entry::Digest(digest.to_digest(alloc)?)),
            EntryRef::Safe(version) => Ok(Entry::Safe(*version)),
            EntryRef::Object(object) => Ok(Entry::Object(object.to_object(alloc)?)),
            EntryRef::Tombstone(tombstone) => Ok(Entry::Tombstone(tombstone.to_tombstone(alloc)?)),
        }
    }
}

impl Key {
    /// Returns a view of the key, without a copy of its bytes.
    pub fn view(&self) -> KeyRef<'_>
        ensures { shown_key result ≡ self.entry.now }
    {
        KeyRef {
            table: self.table,
            bytes: self.bytes.as_slice(),
        }
    }
}
