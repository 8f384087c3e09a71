//! The reader of entries.

ghost use Rattle.std.specs.Prelude.{◌≡◌, ◌+◌, ◌*◌, ◌≤◌, ◌<◌, ◌++◌, ℕ, List, Some, length};
ghost use Rattle.std.specs.Prelude.{slice_index, IfOk, IfErr, IsOkAnd, MatchResult};
ghost use Rattle.entry.specs.Format.{Begins, MayFail, IsEntry, spelling, number_at, kind_byte};
ghost use Rattle.entry.specs.Format.{ids_at, rises, listed_at, are_listed, first_fault, front_of};
ghost use Rattle.entry.specs.View.{shown, Reads};

use crate::digest::is_len;
use crate::entry::{Entry, Header, Role};
use crate::fault::EntryFault;
use crate::key::MAX_KEY_LEN;
use crate::kind::{
    DIGEST_LEN, HEADER_LEN, Kind, OBJECT, OBJECT_LEN, SAFE_LEN, TOMBSTONE, TOMBSTONE_LEN,
};
use crate::limits::{MAX_VALUE_LEN, SafeVersion, Version};
use crate::view::{DigestRef, EntryRef, KeyRef, ObjectRef, TombstoneRef};
use std::alloc::Global;

#[tactic(auto, unfolding(crate::specs::Format::number_at))]
pub(crate) fn u64_at(bytes: &[u8], at: usize) -> u64
    requires { at + 8 ≤ length bytes.now }
    ensures { result ≡ number_at 8 at bytes.now }
{
    u64::from_be_bytes(bytes[at..at + 8].try_into().unwrap())
}

#[tactic(auto, unfolding(crate::specs::Format::number_at))]
fn u32_at(bytes: &[u8], at: usize) -> u32
    requires { at + 4 ≤ length bytes.now }
    ensures { result ≡ number_at 4 at bytes.now }
{
    u32::from_be_bytes(bytes[at..at + 4].try_into().unwrap())
}

#[tactic(auto, unfolding(crate::specs::Format::number_at))]
fn u16_at(bytes: &[u8], at: usize) -> u16
    requires { at + 2 ≤ length bytes.now }
    ensures { result ≡ number_at 2 at bytes.now }
{
    u16::from_be_bytes(bytes[at..at + 2].try_into().unwrap())
}

fn read_header(bytes: &[u8]) -> Result<(EntryRef<'_>, usize), EntryFault>
    requires fixed { 18 ≤ length bytes.now }
    ensures { Reads Kind.Header bytes.entry.now result }
{
    let Some(role) = Role::from_byte(bytes[17]) else {
        return Err(EntryFault::BadField);
    };
    let header = Header {
        master: u64_at(bytes, 1),
        segment: u64_at(bytes, 9),
        role,
    };
    Ok((EntryRef::Header(header), HEADER_LEN))
}

/// Returns true if the ids of the digest rise strictly.
fn ids_rise(bytes: &[u8], count: usize) -> bool
    requires { 5 + 8 * count ≤ length bytes.now }
    ensures { result ≡ rises (ids_at count 5 bytes.now) }
{
    for i in 1..count {
        if u64_at(bytes, DIGEST_LEN + 8 * (i - 1)) >= u64_at(bytes, DIGEST_LEN + 8 * i) {
            return false;
        }
    }
    true
}

fn read_digest(bytes: &[u8]) -> Result<(EntryRef<'_>, usize), EntryFault>
    requires fixed { 5 ≤ length bytes.now }
    ensures { Reads Kind.Digest bytes.entry.now result }
{
    let count = u32_at(bytes, 1) as usize;
    let end = DIGEST_LEN + 8 * count;
    if bytes.len() < end {
        return Err(EntryFault::Short);
    }
    if !ids_rise(bytes, count) {
        return Err(EntryFault::BadField);
    }
    let digest = DigestRef {
        count,
        text: bytes,
        has_lengths: false,
    };
    Ok((EntryRef::Digest(digest), end))
}

/// Returns true if each length in the digest is within its limits, and the ids rise strictly.
fn are_segments(bytes: &[u8], count: usize) -> bool
    requires { 5 + 16 * count ≤ length bytes.now }
    ensures { result ≡ are_listed (listed_at count 5 bytes.now) }
{
    for i in 1..count {
        let at = DIGEST_LEN + 16 * (i - 1);
        if !is_len(u64_at(bytes, at + 8)) {
            return false;
        }
        if u64_at(bytes, at) >= u64_at(bytes, at + 16) {
            return false;
        }
    }
    count == 0 || is_len(u64_at(bytes, DIGEST_LEN + 16 * (count - 1) + 8))
}

fn read_lengths(bytes: &[u8]) -> Result<(EntryRef<'_>, usize), EntryFault>
    requires fixed { 5 ≤ length bytes.now }
    ensures { Reads Kind.Lengths bytes.entry.now result }
{
    let count = u32_at(bytes, 1) as usize;
    let end = DIGEST_LEN + 16 * count;
    if bytes.len() < end {
        return Err(EntryFault::Short);
    }
    if !are_segments(bytes, count) {
        return Err(EntryFault::BadField);
    }
    let digest = DigestRef {
        count,
        text: bytes,
        has_lengths: true,
    };
    Ok((EntryRef::Digest(digest), end))
}

fn read_safe(bytes: &[u8]) -> Result<(EntryRef<'_>, usize), EntryFault>
    requires fixed { 9 ≤ length bytes.now }
    ensures { Reads Kind.Safe bytes.entry.now result }
{
    let Some(version) = SafeVersion::new(u64_at(bytes, 1)) else {
        return Err(EntryFault::BadField);
    };
    Ok((EntryRef::Safe(version), SAFE_LEN))
}

#[inline(always)]
fn read_object(bytes: &[u8]) -> Result<(EntryRef<'_>, usize), EntryFault>
    requires fixed { 23 ≤ length bytes.now }
    ensures { Reads Kind.Object bytes.entry.now result }
{
    let table = u64_at(bytes, 1);
    let Some(version) = Version::new(u64_at(bytes, 9)) else {
        return Err(EntryFault::BadField);
    };
    let key_len = u16_at(bytes, 17) as usize;
    let value_len = u32_at(bytes, 19) as usize;
    if key_len == 0 || key_len > MAX_KEY_LEN || value_len > MAX_VALUE_LEN {
        return Err(EntryFault::BadField);
    }
    let key_end = OBJECT_LEN + key_len;
    let end = key_end + value_len;
    if bytes.len() < end {
        return Err(EntryFault::Short);
    }
    let key = KeyRef {
        table,
        bytes: &bytes[OBJECT_LEN..key_end],
    };
    let object = ObjectRef {
        key,
        version,
        value: &bytes[key_end..end],
    };
    Ok((EntryRef::Object(object), end))
}

#[inline(always)]
fn read_tombstone(bytes: &[u8]) -> Result<(EntryRef<'_>, usize), EntryFault>
    requires fixed { 27 ≤ length bytes.now }
    ensures { Reads Kind.Tombstone bytes.entry.now result }
{
    let table = u64_at(bytes, 1);
    let Some(version) = Version::new(u64_at(bytes, 9)) else {
        return Err(EntryFault::BadField);
    };
    let key_len = u16_at(bytes, 25) as usize;
    if key_len == 0 || key_len > MAX_KEY_LEN {
        return Err(EntryFault::BadField);
    }
    let end = TOMBSTONE_LEN + key_len;
    if bytes.len() < end {
        return Err(EntryFault::Short);
    }
    let key = KeyRef {
        table,
        bytes: &bytes[TOMBSTONE_LEN..end],
    };
    let tombstone = TombstoneRef {
        key,
        version,
        segment: u64_at(bytes, 17),
    };
    Ok((EntryRef::Tombstone(tombstone), end))
}

#[inline(always)]
fn read_kind(kind: Kind, bytes: &[u8]) -> Result<(EntryRef<'_>, usize), EntryFault>
    ensures { Reads kind bytes.entry.now result }
{
    if bytes.len() < kind.fixed_len() {
        return Err(EntryFault::Short);
    }
    match kind {
        Kind::Header => read_header(bytes),
        Kind::Digest => read_digest(bytes),
        Kind::Safe => read_safe(bytes),
        Kind::Object => read_object(bytes),
        Kind::Tombstone => read_tombstone(bytes),
        Kind::Lengths => read_lengths(bytes),
    }
}

/// Reads the entry at the front of the bytes, whose first byte says this kind.
#[inline(always)]
fn read_as(kind: Kind, bytes: &[u8]) -> Result<(EntryRef<'_>, usize), EntryFault>
    requires some { 0 < length bytes.now }
    requires first { slice_index bytes.now 0 ≡ kind_byte kind }
    ensures found { IfOk result (λ read. Begins bytes.entry.now (shown read.0) read.1) }
    ensures front { IfOk result (λ read. front_of bytes.entry.now ≡ Some (shown read.0, read.1)) }
    ensures fault { IfErr result (λ fault. first_fault bytes.entry.now ≡ Some fault) }
{
    read_kind(kind, bytes)
}

/// Reads the entry at the front of the bytes, whose first byte is `byte`.
#[inline(never)]
fn read_any(byte: u8, bytes: &[u8]) -> Result<(EntryRef<'_>, usize), EntryFault>
    requires some { 0 < length bytes.now }
    requires first { slice_index bytes.now 0 ≡ byte }
    ensures found { IfOk result (λ read. Begins bytes.entry.now (shown read.0) read.1) }
    ensures front { IfOk result (λ read. front_of bytes.entry.now ≡ Some (shown read.0, read.1)) }
    ensures fault { IfErr result (λ fault. first_fault bytes.entry.now ≡ Some fault) }
{
    match Kind::from_byte(byte) {
        Some(kind) => read_as(kind, bytes),
        None => Err(EntryFault::UnknownKind),
    }
}

// Most entries are objects and tombstones. Only their readers are inlined in the caller, which then keeps their fields
// in registers.
#[inline(always)]
fn read_front(bytes: &[u8]) -> Result<(EntryRef<'_>, usize), EntryFault>
    ensures found { IfOk result (λ read. Begins bytes.entry.now (shown read.0) read.1) }
    ensures front { IfOk result (λ read. front_of bytes.entry.now ≡ Some (shown read.0, read.1)) }
    ensures fault { IfErr result (λ fault. first_fault bytes.entry.now ≡ Some fault) }
{
    let Some(byte) = bytes.first() else {
        return Err(EntryFault::Short);
    };
    match *byte {
        OBJECT => read_as(Kind::Object, bytes),
        TOMBSTONE => read_as(Kind::Tombstone, bytes),
        _ => match read_any(*byte, bytes) {
            Ok((entry, taken)) => Ok((entry, taken)),
            Err(fault) => Err(fault),
        },
    }
}

impl<'a> EntryRef<'a> {
    /// Reads the entry at the front of the bytes. Returns it with its length in bytes. The reader doesn't look at what
    /// follows the entry, and allocates no memory.
    #[inline(always)]
    pub fn read(bytes: &'a [u8]) -> Result<(EntryRef<'a>, usize), EntryFault>
        // The bytes begin with the spelling of the entry that was read.
        ensures found { IfOk result (λ read. Begins bytes.entry.now (shown read.0) read.1) }
        ensures front { IfOk result (λ read. front_of bytes.entry.now ≡ Some (shown read.0, read.1)) }
        // If the bytes begin with the spelling of an entry, then this entry is read.
        ensures complete { (entry : Entry) (rest : List ℕ) → IsEntry entry → bytes.entry.now ≡ spelling entry ++ rest →
            IsOkAnd result (λ read. (shown read.0 ≡ entry) × (read.1 ≡ length (spelling entry))) }
        // The fault is that of the first test that fails.
        ensures fault { IfErr result (λ fault. first_fault bytes.entry.now ≡ Some fault) }
    {
        read_front(bytes)
    }
}

/// Reads the entry at the front of the bytes into memory of its own. Returns it with its length in bytes. The reader
/// doesn't look at what follows the entry.
pub fn read_entry(alloc: Global, bytes: &[u8]) -> Result<(Entry, usize), EntryFault>
    // The bytes begin with the spelling of the entry that was read.
    ensures found { IfOk result (λ read. Begins bytes.now read.0 read.1) }
    // If the bytes begin with the spelling of an entry, then this entry is read, unless memory runs out.
    ensures complete { (entry : Entry) (rest : List ℕ) → IsEntry entry → bytes.now ≡ spelling entry ++ rest →
        MatchResult result (λ read. (read.0 ≡ entry) × (read.1 ≡ length (spelling entry)))
        (λ fault. fault ≡ EntryFault.NoMemory) }
    // The fault is that of the first test that fails. NoMemory comes only if no test fails.
    ensures fault { IfErr result (λ fault. MayFail bytes.now fault) }
{
    match EntryRef::read(bytes) {
        Ok((entry, taken)) => Ok((entry.to_entry(alloc)?, taken)),
        Err(fault) => Err(fault),
    }
}
