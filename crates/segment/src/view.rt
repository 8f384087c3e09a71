//! Segments in borrowed bytes, which are read without a copy.

ghost use Rattle.std.specs.Prelude.{◌≡◌, ◌≤◌, ℕ, List, Some, length, IfOk, IfErr, IsOkAnd, IsSomeAnd, ◌++◌, ◌∷◌};
ghost use Rattle.std.specs.Option.{option_map};
ghost use Rattle.entry.specs.declared.entry.Entry.{Entry};
ghost use Rattle.entry.specs.View.{shown, shown_digest};
ghost use Rattle.entry.specs.Text.{text_of, entries_in, Opening, opening_of, header_of, IsSegment, IsTextOf};
ghost use Rattle.segment.specs.Bytes.{IsSegmentBytes, standing_at};
ghost use Rattle.segment.specs.Faults.{IsSegmentFault};

use crate::entries::Entries;
use crate::fault::SegmentFault;
use crate::reading::check;
use entry::{DigestRef, EntryRef, Header, SafeVersion};
use std::marker::Model;

/// A segment whose text is borrowed. A contract sees the list of its entries.
#[derive(Drop)]
pub struct SegmentRef<'a> {
    pub(crate) bytes: &'a [u8],
}

impl<'a> Model for SegmentRef<'a> {
    ghost use Rattle.std.specs.Prelude.{List};
    ghost use Rattle.entry.specs.declared.entry.Entry.{Entry};
    ghost use Rattle.entry.specs.Text.{entries_in};
    ghost use Rattle.segment.specs.Bytes.{IsSegmentBytes};

    ghost Value = { List Entry };

    ghost view = { λ s. entries_in s.bytes.now };

    ghost invariant = { λ s. IsSegmentBytes s.bytes.now };
}

impl<'a> SegmentRef<'a> {
    ghost use Rattle.segment.specs.View.{entries_left};

    /// Reads the segment whose text the bytes are. The call takes no memory.
    pub fn read(bytes: &'a [u8]) -> Result<SegmentRef<'a>, SegmentFault>
        // The bytes are the text of the segment that is read.
        ensures found { IfOk result (λ segment. IsTextOf bytes.entry.now segment) }
        // The text of each segment within the limit is read.
        ensures complete { (entries : List Entry) →
            IsTextOf bytes.entry.now entries → length bytes.entry.now ≤ 8388608 →
            IsOkAnd result (λ segment. segment ≡ entries) }
        // A fault names the first test that fails.
        ensures fault { IfErr result (λ fault. IsSegmentFault bytes.entry.now fault) }
    {
        match check(bytes) {
            Ok(()) => Ok(SegmentRef { bytes }),
            Err(fault) => Err(fault),
        }
    }

    /// Makes the segment that has this text. The bytes are not read.
    #[inline(always)]
    pub fn of_text(bytes: &'a [u8]) -> SegmentRef<'a>
        requires { IsSegmentBytes bytes.now }
        ensures { result ≡ entries_in bytes.entry.now }
    {
        SegmentRef { bytes }
    }

    /// Returns the same segment. Its text is not copied.
    #[inline(always)]
    pub fn copy(&self) -> SegmentRef<'a>
        ensures { result ≡ self.entry.now }
    {
        SegmentRef { bytes: self.bytes }
    }

    /// Returns the text.
    #[inline(always)]
    pub fn bytes(&self) -> &'a [u8]
        ensures text { result.now ≡ text_of self.entry.now }
        ensures valid { IsSegment self.entry.now }
        ensures limit { length result.now ≤ 8388608 }
    {
        self.bytes
    }

    /// Returns the header, with which each segment begins.
    pub fn header(&self) -> Header
        ensures { header_of self.now ≡ Some result }
    {
        let mut entries = Entries { rest: self.bytes };
        match entries.next() {
            Some(EntryRef::Header(header)) => header,
            _ => unreachable!(),
        }
    }

    /// Returns the digest of a head, or None for a survivor.
    pub fn digest(&self) -> Option<DigestRef<'a>>
        ensures { option_map shown_digest result ≡
            option_map (λ (o : Opening). o.digest) (opening_of self.entry.now) }
    {
        let mut entries = Entries { rest: self.bytes };
        entries.next();
        match entries.next() {
            Some(EntryRef::Digest(digest)) => Some(digest),
            _ => None,
        }
    }

    /// Returns the safe version of a head, or None for a survivor.
    pub fn safe(&self) -> Option<SafeVersion>
        ensures { result ≡ option_map (λ (o : Opening). o.safe) (opening_of self.now) }
    {
        let mut entries = Entries { rest: self.bytes };
        entries.next();
        entries.next();
        match entries.next() {
            Some(entry) => match &entry {
                EntryRef::Safe(safe) => Some(*safe),
                _ => None,
            },
            None => None,
        }
    }

    /// Returns the entries in order.
    pub fn entries(&self) -> Entries<'a>
        ensures entries { entries_left result ≡ self.entry.now }
        ensures limit { length (entries_left result) ≤ 8388608 }
    {
        Entries { rest: self.bytes }
    }

    /// Returns the entry that can be read at this offset in bytes, or None if there is none.
    #[inline(always)]
    pub fn entry_at(&self, at: usize) -> Option<EntryRef<'a>>
        ensures standing { option_map shown result ≡ standing_at at (text_of self.entry.now) }
        // Each entry of the segment is found where it begins.
        ensures found { (before after : List Entry) (entry : Entry) →
            self.entry.now ≡ before ++ entry ∷ after → at ≡ length (text_of before) →
            IsSomeAnd result (λ found. shown found ≡ entry) }
    {
        if at > self.bytes.len() {
            return None;
        }
        match EntryRef::read(&self.bytes[at..]) {
            Ok((entry, _)) => Some(entry),
            Err(_) => None,
        }
    }
}
