//! Segments that own their memory.

ghost use Rattle.std.specs.Prelude.{◌≡◌, ◌+◌, ◌≤◌, ◌<◌, ◌↔◌, ◌++◌, ◌∷◌, [], List, length};
ghost use Rattle.std.specs.Prelude.{map, true, IfOk, OnOk, OnErr, IsErrOf, IsSomeAnd};
ghost use Rattle.entry.specs.declared.entry.Entry.{Entry};
ghost use Rattle.entry.specs.Format.{spelling, IsEntry};
ghost use Rattle.entry.specs.Text.{text_of, entries_in, IsSegment, ends_with, listed_ids, are_data};
ghost use Rattle.entry.specs.View.{shown};
ghost use Rattle.std.specs.Option.{option_map};
ghost use Rattle.segment.specs.Bytes.{IsSegmentBytes, standing_at};

use crate::entries::Entries;
use crate::fault::AppendFault;
use crate::growing::{append_unit, trim_text};
use crate::view::SegmentRef;
use entry::{
    Digest, Entry, EntryRef, HEADER_LEN, Header, NoMemory, Role, SAFE_LEN, SafeVersion, write_entry,
};
use std::alloc::Global;
use std::marker::Model;

/// The most bytes of a segment.
pub const MAX_SEGMENT_LEN: usize = 8_388_608;

/// A segment that owns its text. A contract sees the list of its entries.
#[derive(Drop)]
pub struct Segment {
    bytes: Vec<u8>,
}

impl Model for Segment {
    ghost use Rattle.std.specs.Prelude.{List};
    ghost use Rattle.entry.specs.declared.entry.Entry.{Entry};
    ghost use Rattle.entry.specs.Text.{entries_in};
    ghost use Rattle.segment.specs.Bytes.{IsSegmentBytes};

    ghost Value = { List Entry };

    ghost view = { λ s. entries_in s.bytes.items };

    ghost invariant = { λ s. IsSegmentBytes s.bytes.items };
}

/// Appends the spelling of an entry.
fn append_entry(entry: Entry, bytes: &mut Vec<u8>) -> Result<(), NoMemory>
    ensures valid { IsEntry entry }
    ensures ok { OnOk result (bytes.new.items ≡ bytes.old.items ++ spelling entry) }
{
    write_entry(&entry, bytes)
}

impl Segment {
    ghost use Rattle.segment.specs.View.{entries_left};

    /// Makes a head of a master's log, with its opening alone: header, digest and safe version.
    pub fn begin_head(
        alloc: Global,
        master: u64,
        id: u64,
        digest: Digest,
        safe: SafeVersion,
    ) -> Result<Segment, NoMemory>
        requires last { ends_with id (listed_ids digest) ≡ true }
        requires count { length (listed_ids digest) ≤ 262144 }
        ensures { IfOk result (λ segment.
            segment ≡ Entry.Header (record { master = master; segment = id; role = Role.Head })
            ∷ Entry.Digest digest ∷ Entry.Safe safe ∷ []) }
    {
        let len = HEADER_LEN + digest.spelled_len() + SAFE_LEN;
        let mut bytes = Vec::with_capacity(alloc, len)?;
        let header = Header {
            master,
            segment: id,
            role: Role::Head,
        };
        append_entry(Entry::Header(header), &mut bytes)?;
        append_entry(Entry::Digest(digest), &mut bytes)?;
        append_entry(Entry::Safe(safe), &mut bytes)?;
        Ok(Segment { bytes })
    }

    /// Makes a survivor of a cleaning pass, with its header alone.
    pub fn begin_survivor(alloc: Global, master: u64, id: u64) -> Result<Segment, NoMemory>
        ensures { IfOk result (λ segment.
            segment ≡ Entry.Header (record { master = master; segment = id; role = Role.Survivor }) ∷ []) }
    {
        let mut bytes = Vec::with_capacity(alloc, HEADER_LEN)?;
        let header = Header {
            master,
            segment: id,
            role: Role::Survivor,
        };
        append_entry(Entry::Header(header), &mut bytes)?;
        Ok(Segment { bytes })
    }

    /// Makes the segment that has this text. The bytes are neither read nor copied.
    pub fn of_text(bytes: Vec<u8>) -> Segment
        requires { IsSegmentBytes bytes.items }
        ensures { result ≡ entries_in bytes.items }
    {
        Segment { bytes }
    }

    /// Appends objects and tombstones if the segment then has at most `limit` bytes. All of them are appended, or none.
    /// Returns the offset of the first one.
    #[inline(always)]
    pub fn append(&mut self, unit: &[EntryRef<'_>], limit: usize) -> Result<usize, AppendFault>
        requires data { are_data (map shown unit.now) ≡ true }
        requires limit { limit ≤ MAX_SEGMENT_LEN }
        ensures ok { OnOk result (self.new ≡ self.old ++ map shown unit.now) }
        ensures place { IfOk result (λ at. at ≡ length (text_of self.old)) }
        // A unit that doesn't fit is reported as such, even if memory is short.
        ensures full { IsErrOf result AppendFault.Full ↔
            (limit < length (text_of self.old) + length (text_of (map shown unit.now))) }
        ensures err { OnErr result (self.new ≡ self.old) }
    {
        append_unit(&mut self.bytes, unit, limit)
    }

    /// Takes memory for a text of `len` bytes. An append takes no more memory as long as the text stays within `len`.
    pub fn reserve(&mut self, len: usize) -> Result<(), NoMemory>
        ensures { self.new ≡ self.old }
    {
        let more = len.saturating_sub(self.bytes.len());
        self.bytes.reserve_exact(more)
    }

    /// Gives back the memory beyond `len` bytes, or beyond the text if the text is longer. If this memory is at most a
    /// sixteenth of the whole, the segment keeps it.
    pub fn trim(&mut self, len: usize)
        ensures { self.new ≡ self.old }
    {
        trim_text(&mut self.bytes, len);
    }

    /// Moves the text into this memory, which another segment had. If the text needs more memory and there is none, the
    /// segment stays where it is.
    pub fn move_into(&mut self, memory: Vec<u8>)
        ensures { self.new ≡ self.old }
    {
        let mut bytes = memory;
        bytes.clear();
        if bytes.extend_from_slice(self.bytes.as_slice()).is_ok() {
            self.bytes = bytes;
        }
    }

    /// Returns the text, in the memory of the segment.
    #[inline(always)]
    pub fn into_text(self) -> Vec<u8>
        ensures valid { IsSegmentBytes result.items }
        ensures entries { entries_in result.items ≡ self }
    {
        self.bytes
    }

    /// Returns the text.
    pub fn bytes(&self) -> &[u8]
        ensures text { result.now ≡ text_of self.now }
        ensures valid { IsSegment self.now }
        ensures limit { length result.now ≤ MAX_SEGMENT_LEN }
    {
        self.bytes.as_slice()
    }

    /// Returns how many bytes the text has.
    pub fn bytes_len(&self) -> usize
        ensures { result ≡ length (text_of self.now) }
    {
        self.bytes().len()
    }

    /// Returns the entries in order.
    pub fn entries(&self) -> Entries<'_>
        ensures entries { entries_left result ≡ self.entry.now }
        ensures limit { length (entries_left result) ≤ MAX_SEGMENT_LEN }
    {
        self.view().entries()
    }

    /// Returns the entry that can be read at this offset in bytes, or None if there is none.
    #[inline(always)]
    pub fn entry_at(&self, at: usize) -> Option<EntryRef<'_>>
        ensures standing { option_map shown result ≡ standing_at at (text_of self.entry.now) }
        // Each entry of the segment is found where it begins.
        ensures found { (before after : List Entry) (entry : Entry) →
            self.entry.now ≡ before ++ entry ∷ after → at ≡ length (text_of before) →
            IsSomeAnd result (λ found. shown found ≡ entry) }
    {
        self.view().entry_at(at)
    }

    /// Borrows the segment, without a copy.
    #[inline(always)]
    pub fn view(&self) -> SegmentRef<'_>
        ensures { result ≡ self.entry.now }
    {
        SegmentRef {
            bytes: self.bytes.as_slice(),
        }
    }
}

impl<'a> SegmentRef<'a> {
    /// Copies the segment into memory of its own.
    pub fn to_segment(&self, alloc: Global) -> Result<Segment, NoMemory>
        ensures { IfOk result (λ segment. segment ≡ self.now) }
    {
        let bytes = Vec::from_slice(alloc, self.bytes)?;
        Ok(Segment { bytes })
    }
}
