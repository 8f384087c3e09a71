//! Large segments, wills and lines. There is memory for each of them, so no call may refuse one.

ghost use Rattle.std.specs.Prelude.{◌≡◌, ◌≤◌, true, length};
ghost use Rattle.entry.specs.Limits.{ids_in};
ghost use Rattle.entry.specs.Text.{ends_with, listed_ids};

use crate::compactions::{add_read, set};
use crate::seglets::add;
use crate::segments::append;
use compactor::{LogSet, compact};
use entry::{Digest, Entry, Listed, SafeVersion, read_entry, write_entry};
use hash_index::Index;
use images::Images;
use lines::{LineReader, Taken};
use segment::{MAX_SEGMENT_LEN, Segment};
use std::alloc::Global;
use std::io;
use tablet_will::{Size, Tablet, make_will};

/// How a segment begins.
#[derive(Clone, Copy, Debug)]
enum Opening {
    /// As a head, whose digest lists the ids from 1 to its own.
    Ids,
    /// The same, and a length for each id.
    Lengths,
    /// As the survivor of a pass.
    Survivor,
}

/// How a segment begins, its number, how many objects follow, and how many bytes each of their values has. A digest has
/// 262,144 ids at most, and a segment 8,388,608 bytes: one of these heads has just as many, and a survivor six fewer.
const SEGMENTS: &[(Opening, u32, u64, u32)] = &[
    (Opening::Ids, 1, 2_000, 10),
    (Opening::Ids, 300, 7, 1_000_000),
    (Opening::Ids, 1, 8, 1_048_540),
    (Opening::Ids, 262_144, 1, 1),
    (Opening::Lengths, 262_144, 1, 1),
    (Opening::Survivor, 1, 8, 1_048_542),
];

/// Where the digest begins in the text of a head.
const DIGEST_AT: usize = 18;

/// How many bytes an object has besides its value: its key has eight.
const OBJECT_LEN: usize = 31;

/// The header of a segment of master 1.
fn add_header(text: &mut Vec<u8>, id: u32, role: u8) -> bool {
    text.extend_from_slice(b"\x01\0\0\0\0\0\0\0\x01").is_ok()
        && text.extend_from_slice(&u64::from(id).to_be_bytes()).is_ok()
        && text.push(role).is_ok()
}

/// A digest that has the ids from 1 on, and a length of 48 for each if it lists them.
fn add_digest(text: &mut Vec<u8>, ids: u32, kind: u8, len: &[u8]) -> bool {
    let mut is_added = text.push(kind).is_ok();
    is_added = is_added && text.extend_from_slice(&ids.to_be_bytes()).is_ok();
    for id in 0..u64::from(ids) {
        is_added = is_added
            && text
                .extend_from_slice(&id.wrapping_add(1).to_be_bytes())
                .is_ok();
        is_added = is_added && text.extend_from_slice(len).is_ok();
    }
    is_added
}

/// What the segment of this number begins with.
fn add_opening(text: &mut Vec<u8>, opening: Opening, id: u32) -> bool {
    let safe = b"\x03\0\0\0\0\0\0\0\x01";
    match opening {
        Opening::Ids => {
            add_header(text, id, 0)
                && add_digest(text, id, 2, &[])
                && text.extend_from_slice(safe).is_ok()
        }
        Opening::Lengths => {
            add_header(text, id, 0)
                && add_digest(text, id, 6, b"\0\0\0\0\0\0\0\x30")
                && text.extend_from_slice(safe).is_ok()
        }
        Opening::Survivor => add_header(text, id, 1),
    }
}

/// An object of table 1 and version 1, whose key is a number, and whose value has zeros.
fn add_object(text: &mut Vec<u8>, number: u64, value: u32) -> bool {
    let end = text
        .len()
        .saturating_add(OBJECT_LEN)
        .saturating_add(value as usize);
    text.extend_from_slice(b"\x04\0\0\0\0\0\0\0\x01\0\0\0\0\0\0\0\x01\0\x08")
        .is_ok()
        && text.extend_from_slice(&value.to_be_bytes()).is_ok()
        && text.extend_from_slice(&number.to_be_bytes()).is_ok()
        && text.resize(end, 0).is_ok()
}

/// The text of a segment with objects.
fn text_of(alloc: Global, opening: Opening, id: u32, objects: u64, value: u32) -> Option<Vec<u8>> {
    let mut text = Vec::new(alloc);
    let mut is_added = add_opening(&mut text, opening, id);
    for number in 0..objects {
        is_added = is_added && add_object(&mut text, number, value);
    }
    if is_added { Some(text) } else { None }
}

/// Whether the last of these ids is this one.
fn ends_with(ids: &[u64], id: u64) -> bool
    ensures { result ≡ true → ends_with id ids.now ≡ true }
{
    match ids.last() {
        Some(last) => *last == id,
        None => false,
    }
}

/// Whether the last of these segments has this id.
fn ends_with_segment(segments: &[Listed], id: u64) -> bool
    ensures { result ≡ true → ends_with id (ids_in segments.now) ≡ true }
{
    match segments.last() {
        Some(last) => last.id == id,
        None => false,
    }
}

/// Whether the last id of a digest is this one.
fn is_last(digest: &Digest, id: u64) -> bool
    ensures { result ≡ true → ends_with id (listed_ids digest.now) ≡ true }
{
    match digest {
        Digest::Ids(ids) => ends_with(ids.as_slice(), id),
        Digest::Lengths(segments) => ends_with_segment(segments.as_slice(), id),
    }
}

/// Whether a head may list as many segments as a digest.
fn are_few(digest: &Digest) -> bool
    ensures { result ≡ true → length (listed_ids digest.now) ≤ 262144 }
{
    match digest {
        Digest::Ids(ids) => ids.as_slice().len() <= 262_144,
        Digest::Lengths(segments) => segments.as_slice().len() <= 262_144,
    }
}

/// The head that a digest opens.
fn head_of(alloc: Global, digest: Digest, id: u64) -> Option<Segment> {
    if !is_last(&digest, id) || !are_few(&digest) {
        return None;
    }
    Segment::begin_head(alloc, 1, id, digest, SafeVersion::first()).ok()
}

/// Whether an entry is written as these bytes begin.
fn is_written(alloc: Global, entry: &Entry, bytes: &[u8]) -> bool {
    let mut out = Vec::new(alloc);
    write_entry(entry, &mut out).is_ok() && bytes.starts_with(out.as_slice())
}

/// The head that an entry opens, if it is a digest and is written as these bytes begin.
fn head_by(alloc: Global, entry: &Entry, bytes: &[u8], id: u64) -> Option<Segment> {
    if !is_written(alloc, entry, bytes) {
        return None;
    }
    match entry {
        Entry::Digest(digest) => head_of(alloc, digest.clone().ok()?, id),
        _ => None,
    }
}

/// The head that the digest opens with which these bytes begin.
fn begin_head(alloc: Global, bytes: &[u8], id: u64) -> Option<Segment> {
    match &read_entry(alloc, bytes) {
        Ok((entry, _)) => head_by(alloc, entry, bytes, id),
        Err(_) => None,
    }
}

/// The segment of this number, without objects, that begins as the text does.
fn begin(alloc: Global, text: &[u8], opening: Opening, id: u64) -> Option<Segment> {
    match opening {
        Opening::Survivor => Segment::begin_survivor(alloc, 1, id).ok(),
        _ => begin_head(alloc, text.get(DIGEST_AT..)?, id),
    }
}

/// Whether a segment has this text, once so many objects of it are appended one after another.
fn grows(segment: &mut Segment, text: &[u8], objects: u64) -> bool {
    for _ in 0..objects {
        let at = segment.bytes_len();
        let Some(object) = text.get(at..) else {
            return false;
        };
        if append(segment, object, MAX_SEGMENT_LEN) != Some(Ok(at)) {
            return false;
        }
    }
    segment.bytes() == text
}

/// Whether a segment that begins as the text does grows to it.
fn is_made(alloc: Global, text: &[u8], opening: Opening, id: u32, objects: u64) -> bool {
    match &mut begin(alloc, text, opening, u64::from(id)) {
        Some(segment) => grows(segment, text, objects),
        None => false,
    }
}

/// Sets the places of all objects of image 1, the first of which is at this offset.
fn are_set(images: &Images, index: &mut Index, first: usize, objects: u64, len: usize) -> bool {
    let Some(segment) = images.get(1) else {
        return false;
    };
    let mut at = first;
    for _ in 0..objects {
        if !set(index, &segment, at) {
            return false;
        }
        at = at.saturating_add(len);
    }
    true
}

/// Whether image 1 keeps all that it has when it is compacted.
fn is_kept(alloc: Global, images: &Images, index: &mut Index, text: &[u8]) -> bool {
    let log = LogSet {
        closed: images,
        head: 3,
        new: None,
    };
    match images.get(1) {
        Some(segment) => match compact(alloc, 1, &segment, index, &log) {
            Ok(kept) => kept.bytes() == text,
            Err(_) => false,
        },
        None => false,
    }
}

/// Whether the text is read as an image, all of whose objects live, and is compacted.
fn is_compacted(alloc: Global, text: &[u8], objects: u64, value: u32) -> bool {
    let mut images = Images::new(alloc, MAX_SEGMENT_LEN, 65_536, 1_000);
    let mut index = Index::new(alloc);
    let len = OBJECT_LEN.saturating_add(value as usize);
    let first = text
        .len()
        .saturating_sub(len.saturating_mul(objects as usize));
    add_read(alloc, &mut images, 1, text, false)
        && are_set(&images, &mut index, first, objects, len)
        && is_kept(alloc, &images, &mut index, text)
}

/// Whether a segment of this size is read, made and compacted.
fn is_served(alloc: Global, opening: Opening, id: u32, objects: u64, value: u32) -> bool {
    match &text_of(alloc, opening, id, objects, value) {
        Some(text) => {
            is_made(alloc, text, opening, id, objects) && is_compacted(alloc, text, objects, value)
        }
        None => false,
    }
}

#[test]
fn large_segments_are_served(rt: HostRuntime) {
    for (opening, id, objects, value) in SEGMENTS {
        assert!(rt;
            is_served(rt.alloc(), *opening, *id, *objects, *value),
            "{opening:?} {id} {objects} {value}"
        );
    }
}

/// Whether so many heads that take appends are added, each with the memory of a whole segment.
fn are_added(alloc: Global, images: &mut Images, count: u64) -> bool {
    for id in 0..count {
        if !add(alloc, images, id) {
            return false;
        }
    }
    images.free() == 0
}

#[test]
fn many_images_are_added(rt: HostRuntime) {
    let mut small = Images::new(rt.alloc(), 512, 64, 80_000);
    assert!(rt; are_added(rt.alloc(), &mut small, 10_000));
    let mut large = Images::new(rt.alloc(), MAX_SEGMENT_LEN, 65_536, 4_096);
    assert!(rt; are_added(rt.alloc(), &mut large, 32));
}

/// How many partitions a table with so many objects has, each at a place of its own, if a partition has one object.
fn partitions(alloc: Global, objects: u32) -> Option<u32> {
    let mut sizes = Vec::new(alloc);
    for place in 0..u64::from(objects) {
        let size = Size {
            table: 1,
            place,
            bytes: 40,
        };
        sizes.push(size).ok()?;
    }
    let tablet = Tablet {
        table: 1,
        first: 0,
        last: u64::MAX,
    };
    match make_will(alloc, &[tablet], sizes.as_slice(), 1_000, 1) {
        Ok(will) => Some(will.partitions()),
        Err(_) => None,
    }
}

#[test]
fn large_wills_are_made(rt: HostRuntime) {
    for objects in [65, 1_000, 10_000] {
        assert!(rt;
            partitions(rt.alloc(), objects) == Some(objects),
            "{objects}"
        );
    }
}

/// How many bytes a line has, and how it is taken.
const LINES: &[(usize, Taken)] = &[
    (100, Taken::Ended),
    (4_096, Taken::Ended),
    (4_097, Taken::TooLong),
];

/// Whether a line of so many bytes is taken so.
fn is_taken(alloc: Global, len: usize, want: Taken) -> bool {
    let mut text = Vec::new(alloc);
    if text.resize(len, b'#').is_err() || text.push(b'\n').is_err() {
        return false;
    }
    let mut reader = text.as_slice();
    let mut lines = LineReader::new(alloc);
    lines.next_line(&mut reader, &mut io::sink(), false) == Ok(want)
}

#[test]
fn large_lines_are_read(rt: HostRuntime) {
    for (len, want) in LINES {
        assert!(rt; is_taken(rt.alloc(), *len, *want), "{len}");
    }
}
