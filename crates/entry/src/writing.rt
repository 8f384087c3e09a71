//! The writer of entries.

ghost use Rattle.std.specs.Prelude.{◌≡◌, ◌+◌, ◌*◌, ◌<◌, ◌≤◌, ◌^◌, [], ◌∷◌, ◌++◌, length};
ghost use Rattle.std.specs.Prelude.{vec_len, vec_capacity, OnOk, OnErr};
ghost use Rattle.std.specs.List.{flat_map};
ghost use Rattle.entry.specs.Format.{spelling, digest_spelling, listed_bytes, number_bytes, IsEntry};
ghost use Rattle.entry.specs.View.{shown_key, shown_object, shown_tombstone};

use crate::digest::{Digest, Listed};
use crate::entry::{Entry, Role};
use crate::fault::NoMemory;
use crate::kind::{OBJECT_LEN, TOMBSTONE_LEN};
use crate::limits::Version;
use crate::view::{KeyRef, ObjectRef, TombstoneRef};
use byteorder::{BigEndian, ByteOrder};

#[tactic(auto, unfolding(crate::specs::Format::number_bytes))]
fn put_u64(out: &mut Vec<u8>, number: u64)
    requires { vec_len out.old + 8 ≤ vec_capacity out.old }
    ensures items { out.new.items ≡ out.old.items ++ number_bytes 8 number }
    ensures len { vec_len out.new ≡ vec_len out.old + 8 }
    ensures capacity { vec_capacity out.old ≤ vec_capacity out.new }
{
    let mut bytes = [0; 8];
    BigEndian::write_u64(&mut bytes, number);
    out.extend_from_slice(&bytes).unwrap()
}

#[tactic(auto, unfolding(crate::specs::Format::number_bytes))]
fn put_u32(out: &mut Vec<u8>, number: u32)
    requires { vec_len out.old + 4 ≤ vec_capacity out.old }
    ensures items { out.new.items ≡ out.old.items ++ number_bytes 4 number }
    ensures len { vec_len out.new ≡ vec_len out.old + 4 }
    ensures capacity { vec_capacity out.old ≤ vec_capacity out.new }
{
    let mut bytes = [0; 4];
    BigEndian::write_u32(&mut bytes, number);
    out.extend_from_slice(&bytes).unwrap()
}

/// Appends these bytes to `out`, which has room for them.
fn put_bytes(out: &mut Vec<u8>, bytes: &[u8])
    requires { vec_len out.old + length bytes.now ≤ vec_capacity out.old }
    ensures items { out.new.items ≡ out.old.items ++ bytes.now }
    ensures len { vec_len out.new ≡ vec_len out.old + length bytes.now }
    ensures capacity { vec_capacity out.old ≤ vec_capacity out.new }
{
    out.extend_from_slice(bytes).unwrap()
}

/// Appends one byte to `out`, which has room for it.
fn put_u8(out: &mut Vec<u8>, number: u8)
    requires { vec_len out.old + 1 ≤ vec_capacity out.old }
    ensures items { out.new.items ≡ out.old.items ++ number ∷ [] }
    ensures len { vec_len out.new ≡ vec_len out.old + 1 }
    ensures capacity { vec_capacity out.old ≤ vec_capacity out.new }
{
    out.push(number).unwrap()
}

/// Appends ids to `out`, which has room for them. Each id takes 8 bytes.
fn put_ids(out: &mut Vec<u8>, ids: &[u64])
    requires { vec_len out.old + 8 * length ids.now ≤ vec_capacity out.old }
    ensures { out.new.items ≡ out.old.items ++ flat_map (number_bytes 8) ids.now }
{
    for id in ids {
        put_u64(out, *id);
    }
}

/// Appends listed segments to `out`, which has room for them. The id and the length of a segment take 8 bytes each.
fn put_listed(out: &mut Vec<u8>, segments: &[Listed])
    requires { vec_len out.old + 16 * length segments.now ≤ vec_capacity out.old }
    ensures { out.new.items ≡ out.old.items ++ flat_map listed_bytes segments.now }
{
    for segment in segments {
        put_u64(out, segment.id);
        put_u64(out, segment.len);
    }
}

fn put_digest(out: &mut Vec<u8>, digest: &Digest)
    requires { vec_len out.old + length (digest_spelling digest.now) ≤ vec_capacity out.old }
    ensures { out.new.items ≡ out.old.items ++ digest_spelling digest.now }
{
    match digest {
        Digest::Ids(ids) => {
            put_u8(out, 2);
            put_u32(out, ids.as_slice().len() as u32);
            put_ids(out, ids.as_slice());
        }
        Digest::Lengths(segments) => {
            put_u8(out, 6);
            put_u32(out, segments.as_slice().len() as u32);
            put_listed(out, segments.as_slice());
        }
    }
}

/// Returns the fixed part of an object.
#[inline(always)]
#[tactic(auto, unfolding(crate::specs::Format::number_bytes))]
fn object_front(table: u64, version: u64, key_len: u16, value_len: u32) -> [u8; OBJECT_LEN]
    ensures { result ≡ 4 ∷ number_bytes 8 table ++ number_bytes 8 version ++ number_bytes 2 key_len
        ++ number_bytes 4 value_len }
{
    let mut front = [4; OBJECT_LEN];
    BigEndian::write_u64(&mut front[1..], table);
    BigEndian::write_u64(&mut front[9..], version);
    BigEndian::write_u16(&mut front[17..], key_len);
    BigEndian::write_u32(&mut front[19..], value_len);
    front
}

/// Returns the fixed part of a tombstone.
#[inline(always)]
#[tactic(auto, unfolding(crate::specs::Format::number_bytes))]
fn tombstone_front(table: u64, version: u64, segment: u64, key_len: u16) -> [u8; TOMBSTONE_LEN]
    ensures { result ≡ 5 ∷ number_bytes 8 table ++ number_bytes 8 version ++ number_bytes 8 segment
        ++ number_bytes 2 key_len }
{
    let mut front = [5; TOMBSTONE_LEN];
    BigEndian::write_u64(&mut front[1..], table);
    BigEndian::write_u64(&mut front[9..], version);
    BigEndian::write_u64(&mut front[17..], segment);
    BigEndian::write_u16(&mut front[25..], key_len);
    front
}

/// Appends an object to `out`, which has room for it: its fixed part as one piece, and then its key and its value.
#[inline(always)]
fn put_object(out: &mut Vec<u8>, key: &KeyRef, version: Version, value: &[u8])
    requires limit { length value.now ≤ 2097152 }
    requires room { vec_len out.old + (23 + length key.now.bytes.now + length value.now) ≤ vec_capacity out.old }
    ensures items { out.new.items ≡ out.old.items ++
        spelling (Entry.Object (record { key = shown_key key.now; version = version; value = value.now })) }
    ensures capacity { vec_capacity out.old ≤ vec_capacity out.new }
{
    let front = object_front(
        key.table,
        version.get(),
        key.bytes.len() as u16,
        value.len() as u32,
    );
    put_bytes(out, &front);
    put_bytes(out, key.bytes);
    put_bytes(out, value);
}

#[inline(always)]
fn put_tombstone(out: &mut Vec<u8>, key: &KeyRef, version: Version, segment: u64)
    requires { vec_len out.old + (27 + length key.now.bytes.now) ≤ vec_capacity out.old }
    ensures items { out.new.items ≡ out.old.items ++
        spelling (Entry.Tombstone (record { key = shown_key key.now; version = version; segment = segment })) }
    ensures capacity { vec_capacity out.old ≤ vec_capacity out.new }
{
    let front = tombstone_front(key.table, version.get(), segment, key.bytes.len() as u16);
    put_bytes(out, &front);
    put_bytes(out, key.bytes);
}

/// Appends the spelling of an entry to `out`, which has room for it.
fn put_entry(out: &mut Vec<u8>, entry: &Entry)
    requires { vec_len out.old + length (spelling entry.now) ≤ vec_capacity out.old }
    ensures { out.new.items ≡ out.old.items ++ spelling entry.now }
{
    match entry {
        Entry::Header(header) => {
            put_u8(out, 1);
            put_u64(out, header.master);
            put_u64(out, header.segment);
            put_u8(out, header.role.byte());
        }
        Entry::Digest(digest) => put_digest(out, digest),
        Entry::Safe(version) => {
            put_u8(out, 3);
            put_u64(out, version.get());
        }
        Entry::Object(object) => {
            let key = object.key.view();
            put_object(out, &key, object.version, object.value.as_slice());
        }
        Entry::Tombstone(tombstone) => {
            let key = tombstone.key.view();
            put_tombstone(out, &key, tombstone.version, tombstone.segment);
        }
    }
}

/// Appends the spelling of an entry to `out`. If memory runs out, then the bytes of `out` stay as they were.
pub fn write_entry(entry: &Entry, out: &mut Vec<u8>) -> Result<(), NoMemory>
    ensures valid { IsEntry entry.now }
    ensures ok { OnOk result (out.new.items ≡ out.old.items ++ spelling entry.now) }
    ensures err { OnErr result (out.new.items ≡ out.old.items) }
    ensures full { OnErr result (vec_capacity out.old < vec_len out.old + length (spelling entry.now)) }
{
    out.reserve(entry.spelled_len())?;
    put_entry(out, entry);
    Ok(())
}

impl<'a> ObjectRef<'a> {
    /// Returns how many bytes the object has in a text.
    pub fn spelled_len(&self) -> usize
        ensures len { result ≡ length (spelling (Entry.Object (shown_object self.now))) }
        ensures limit { result ≤ 23 + 1024 + 2097152 }
        ensures valid { IsEntry (Entry.Object (shown_object self.now)) }
    {
        self.version.get();
        let _table = self.key.table;
        OBJECT_LEN + self.key.bytes.len() + self.value.len()
    }

    /// Appends the spelling of the object to `out`. If memory runs out, then the bytes of `out` stay as they were.
    pub fn write(&self, out: &mut Vec<u8>) -> Result<(), NoMemory>
        ensures ok { OnOk result
            (out.new.items ≡ out.old.items ++ spelling (Entry.Object (shown_object self.now))) }
        ensures err { OnErr result (out.new.items ≡ out.old.items) }
        ensures full { OnErr result
            (vec_capacity out.old < vec_len out.old + length (spelling (Entry.Object (shown_object self.now)))) }
        ensures capacity { vec_capacity out.old ≤ vec_capacity out.new }
    {
        out.reserve(self.spelled_len())?;
        put_object(out, &self.key, self.version, self.value);
        Ok(())
    }
}

impl<'a> TombstoneRef<'a> {
    /// Returns how many bytes the tombstone has in a text.
    pub fn spelled_len(&self) -> usize
        ensures len { result ≡ length (spelling (Entry.Tombstone (shown_tombstone self.now))) }
        ensures limit { result ≤ 27 + 1024 }
        ensures valid { IsEntry (Entry.Tombstone (shown_tombstone self.now)) }
    {
        self.version.get();
        let _table = self.key.table;
        let _segment = self.segment;
        TOMBSTONE_LEN + self.key.bytes.len()
    }

    /// Appends the spelling of the tombstone to `out`. If memory runs out, then the bytes of `out` stay as they were.
    pub fn write(&self, out: &mut Vec<u8>) -> Result<(), NoMemory>
        ensures ok { OnOk result
            (out.new.items ≡ out.old.items ++ spelling (Entry.Tombstone (shown_tombstone self.now))) }
        ensures err { OnErr result (out.new.items ≡ out.old.items) }
        ensures full { OnErr result
            (vec_capacity out.old < vec_len out.old + length (spelling (Entry.Tombstone (shown_tombstone self.now)))) }
        ensures capacity { vec_capacity out.old ≤ vec_capacity out.new }
    {
        out.reserve(self.spelled_len())?;
        put_tombstone(out, &self.key, self.version, self.segment);
        Ok(())
    }
}
