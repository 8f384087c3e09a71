//! The image of one segment.

ghost use Rattle.std.specs.Prelude.{◌≡◌, ◌+◌, ◌≤◌, ◌<◌, ◌↔◌, true, length, map, IfOk, IfErr, OnOk, OnErr, IsErrOf};
ghost use Rattle.entry.specs.Text.{text_of, entries_in, are_data};
ghost use Rattle.entry.specs.View.{shown};
ghost use Rattle.segment.specs.Bytes.{IsSegmentBytes, IsDataText};
ghost use Rattle.images.specs.Image.{new_image};

use entry::EntryRef;
use segment::{AppendFault, Segment, SegmentRef, append_text, append_unit, trim_text};
use std::marker::Model;

/// The image of a segment: its number and its text.
#[derive(Drop)]
pub struct Image {
    /// The segment's number.
    id: u64,
    text: Vec<u8>,
    /// For how many bytes of text the image is sure to have memory; 0 if it takes no appends.
    room: usize,
    /// True if the image still takes appends. It then has memory for `room` bytes.
    is_whole: bool,
    /// How many backups hold the segment.
    replicas: u8,
}

impl Model for Image {
    ghost use Rattle.std.specs.Prelude.{◌≤◌, vec_capacity};
    ghost use Rattle.entry.specs.Text.{entries_in};
    ghost use Rattle.segment.specs.Bytes.{IsSegmentBytes};
    ghost use Rattle.images.specs.Image.{Image as ImageValue};

    ghost Value = { ImageValue };

    ghost view = { λ s. record {
      id = s.id;
      segment = entries_in s.text.items;
      is_whole = s.is_whole;
      room = s.room;
      replicas = s.replicas;
    } };

    ghost invariant = { λ s. IsSegmentBytes s.text.items × (s.room ≤ vec_capacity s.text) };
}

impl Image {
    ghost use Rattle.images.specs.Image.{closed_image, whole_image};
    ghost use Rattle.images.specs.Steps.{with_unit, trimmed, replaced_by, more_replicas, fewer_replicas};

    /// Makes the image of a segment that takes no appends, and that `replicas` backups hold, at most 64.
    #[inline(always)]
    pub(crate) fn closed(id: u64, segment: Segment, replicas: usize) -> Image
        requires { replicas ≤ 64 }
        ensures { result ≡ closed_image id segment replicas }
    {
        Image {
            id,
            text: segment.into_text(),
            room: 0,
            is_whole: false,
            replicas: replicas as u8,
        }
    }

    /// Makes the image of a segment that takes appends, with memory for `room` bytes. No backup holds the segment yet.
    /// If memory runs out, the segment is handed back.
    pub(crate) fn whole(id: u64, segment: Segment, room: usize) -> Result<Image, Segment>
        ensures ok { IfOk result (λ image. image ≡ whole_image id segment room) }
        ensures err { IfErr result (λ back. back ≡ segment) }
    {
        let mut text = segment.into_text();
        let more = room.saturating_sub(text.len());
        if text.reserve_exact(more).is_err() {
            return Err(Segment::of_text(text));
        }
        Ok(Image {
            id,
            text,
            room,
            is_whole: true,
            replicas: 0,
        })
    }

    /// The segment's number.
    #[inline(always)]
    pub fn id(&self) -> u64
        ensures { result ≡ self.now.id }
    {
        self.id
    }

    /// Borrows the segment, without a copy.
    #[inline(always)]
    pub fn segment(&self) -> SegmentRef<'_>
        ensures { result ≡ self.entry.now.segment }
    {
        SegmentRef::of_text(self.text.as_slice())
    }

    /// Returns true if the image still takes appends.
    #[inline(always)]
    pub fn is_whole(&self) -> bool
        ensures { result ≡ self.now.is_whole }
    {
        self.is_whole
    }

    /// How many backups hold the segment.
    #[inline(always)]
    pub fn replicas(&self) -> usize
        ensures replicas { result ≡ self.now.replicas }
        ensures small { result ≤ 255 }
    {
        self.replicas as usize
    }

    /// Counts one more backup that holds the segment.
    pub(crate) fn add_replica(&mut self)
        requires { self.old.replicas < 64 }
        ensures { self.new ≡ more_replicas self.old }
    {
        self.replicas += 1;
    }

    /// Counts one backup fewer that holds the segment. A count of 0 stays 0.
    pub(crate) fn lose_replica(&mut self)
        ensures { self.new ≡ fewer_replicas self.old }
    {
        self.replicas = self.replicas.saturating_sub(1);
    }

    /// Returns how many bytes the text has.
    #[inline(always)]
    pub fn bytes_len(&self) -> usize
        ensures { result ≡ length (text_of self.now.segment) }
    {
        self.text.len()
    }

    /// Appends objects and tombstones if the text then has at most `limit` bytes, for which the image has room. All of
    /// them are appended, or none. Returns the offset of the first one. The call takes no memory.
    #[inline(always)]
    pub(crate) fn append(
        &mut self,
        unit: &[EntryRef<'_>],
        limit: usize,
    ) -> Result<usize, AppendFault>
        requires data { are_data (map shown unit.now) ≡ true }
        requires limit { limit ≤ 8388608 }
        requires room { limit ≤ self.old.room }
        ensures ok { OnOk result (self.new ≡ with_unit (map shown unit.now) self.old) }
        ensures place { IfOk result (λ at. at ≡ length (text_of self.old.segment)) }
        ensures full { IsErrOf result AppendFault.Full ↔
            (limit < length (text_of self.old.segment) + length (text_of (map shown unit.now))) }
        ensures fault { IfErr result (λ fault. fault ≡ AppendFault.Full) }
        ensures err { OnErr result (self.new ≡ self.old) }
    {
        append_unit(&mut self.text, unit, limit)
    }

    /// Appends the objects and tombstones whose text `more` is, as `append` does.
    #[inline(always)]
    pub(crate) fn append_text(&mut self, more: &[u8], limit: usize) -> Result<usize, AppendFault>
        requires data { IsDataText more.now }
        requires limit { limit ≤ 8388608 }
        requires room { limit ≤ self.old.room }
        ensures ok { OnOk result (self.new ≡ with_unit (entries_in more.now) self.old) }
        ensures place { IfOk result (λ at. at ≡ length (text_of self.old.segment)) }
        ensures full { IsErrOf result AppendFault.Full ↔
            (limit < length (text_of self.old.segment) + length more.now) }
        ensures fault { IfErr result (λ fault. fault ≡ AppendFault.Full) }
        ensures err { OnErr result (self.new ≡ self.old) }
    {
        append_text(&mut self.text, more, limit)
    }

    /// Ends the appends to the image, and gives back its memory beyond `len` bytes, as `trim_text` does.
    pub(crate) fn trim(&mut self, len: usize)
        ensures { self.new ≡ trimmed self.old }
    {
        self.room = 0;
        self.is_whole = false;
        trim_text(&mut self.text, len);
    }

    /// Replaces the segment by another one. The image takes no appends then.
    pub(crate) fn replace(&mut self, segment: Segment)
        ensures { self.new ≡ replaced_by segment self.old }
    {
        self.room = 0;
        self.is_whole = false;
        self.text = segment.into_text();
    }

    /// Returns the text, in the memory of the image.
    #[inline(always)]
    pub(crate) fn into_text(self) -> Vec<u8>
        ensures valid { IsSegmentBytes result.items }
        ensures entries { entries_in result.items ≡ self.segment }
    {
        self.text
    }

    /// Returns the segment, in the memory of the image.
    pub(crate) fn into_segment(self) -> Segment
        ensures { result ≡ self.segment }
    {
        Segment::of_text(self.text)
    }
}

/// Makes the image of a segment that no backup holds yet. If the image takes appends, it gets memory for `room` bytes.
/// If memory for these runs out, the segment is handed back.
pub(crate) fn new_image(
    id: u64,
    segment: Segment,
    is_whole: bool,
    room: usize,
) -> Result<Image, Segment>
    ensures ok { IfOk result (λ image. image ≡ new_image room id segment is_whole) }
    ensures err { IfErr result (λ back. (back ≡ segment) × (is_whole ≡ true)) }
{
    if is_whole {
        return Image::whole(id, segment, room);
    }
    Ok(Image::closed(id, segment, 0))
}
