//! Compaction of one segment, with entries of each kind that stays or goes.

ghost use Rattle.std.specs.Prelude.{◌≡◌};
ghost use Rattle.std.specs.Option.{option_map};
ghost use Rattle.entry.specs.View.{shown_object};
ghost use Rattle.compactor.specs.Places.{object_in};

use crate::vectors::{FIRST, OBJECT, are_spelt, bytes_of};
use compactor::{LogSet, compact};
use entry::{EntryRef, Key, KeyRef, ObjectRef};
use hash_index::{Held, Index, Place, Resolve};
use images::Images;
use segment::{Segment, SegmentRef, read_segment};
use std::alloc::Global;

/// Table 1, version 2, key `a`, value `y`.
pub const NEWER: &str = "04 0000000000000001 0000000000000002 0001 00000001 61 79";

/// Table 1, version 3, key `d`, value `z`.
pub const OTHER: &str = "04 0000000000000001 0000000000000003 0001 00000001 64 7a";

/// A tombstone that names segment 1, which is closed.
pub const OF_CLOSED: &str = "05 0000000000000001 0000000000000001 0000000000000001 0001 62";

/// One that names segment 4, the head that is being opened.
pub const OF_NEW: &str = "05 0000000000000001 0000000000000001 0000000000000004 0001 65";

/// One that names segment 7, which left the log.
const OF_LEFT: &str = "05 0000000000000001 0000000000000002 0000000000000007 0001 63";

/// What the segment has, and what it keeps.
pub const BEFORE: &[&str] = &[FIRST, OBJECT, OF_CLOSED, OF_LEFT, NEWER, OF_NEW, OTHER];

const AFTER: &[&str] = &[FIRST, OF_CLOSED, NEWER, OF_NEW, OTHER];

/// Keys of table 1, and the offset at which each is found in what is kept.
const FOUND: &[(&[u8], usize)] = &[(b"a", 68), (b"d", 121)];

/// The image of every segment.
#[derive(Clone, Copy)]
struct Image<'a> {
    segment: &'a Segment,
}

impl<'a> Resolve for Image<'a> {
    ghost use Rattle.std.specs.Prelude.{ℕ};
    ghost use Rattle.compactor.specs.Places.{keys_in};

    ghost keys = { λ s. keys_in (λ (n : ℕ). s.segment.now) };

    fn key_at(&self, place: Place) -> Option<KeyRef<'_>> {
        match object_at(&self.segment.view(), place.at) {
            None => None,
            Some(object) => Some(object.key),
        }
    }
}

/// The object that begins at an offset.
fn object_at<'a>(segment: &SegmentRef<'a>, at: usize) -> Option<ObjectRef<'a>>
    ensures { option_map shown_object result ≡ object_in segment.entry.now at }
{
    match segment.entry_at(at) {
        Some(EntryRef::Object(object)) => Some(object),
        _ => None,
    }
}

/// Sets the place of the object at an offset of segment 1.
pub fn set(index: &mut Index, segment: &SegmentRef<'_>, at: usize) -> bool {
    if index.reserve(1).is_err() {
        return false;
    }
    match object_at(segment, at) {
        None => false,
        Some(object) => {
            let hash = index.hash(&object.key);
            index.insert(Held {
                hash,
                place: Place { segment: 1, at },
            });
            true
        }
    }
}

/// Sets the places of the two objects of `BEFORE` that live, if they lie in image 1.
pub fn set_both(index: &mut Index, images: &Images) -> bool {
    match images.get(1) {
        Some(segment) => set(index, &segment, 121) && set(index, &segment, 174),
        None => false,
    }
}

/// Adds an image, if there is none of its number and there is room.
fn add(images: &mut Images, id: u64, segment: Segment, is_whole: bool) -> bool {
    if images.get(id).is_some() || images.segment_len() < segment.bytes_len() {
        return false;
    }
    match images.add(id, segment, is_whole) {
        Ok(()) => true,
        Err(_) => false,
    }
}

/// Adds the image of the segment that is read from these bytes.
pub fn add_read(alloc: Global, images: &mut Images, id: u64, bytes: &[u8], is_whole: bool) -> bool {
    match read_segment(alloc, bytes) {
        Ok(segment) => add(images, id, segment, is_whole),
        Err(_) => false,
    }
}

/// Adds the image of the segment of these texts. Whether it was added.
pub fn add_spelt(
    alloc: Global,
    images: &mut Images,
    id: u64,
    texts: &[&str],
    is_whole: bool,
) -> bool {
    match bytes_of(alloc, texts) {
        Some(bytes) => add_read(alloc, images, id, bytes.as_slice(), is_whole),
        None => false,
    }
}

/// Whether a key of table 1 is found at an offset.
fn is_found(alloc: Global, index: &Index, segment: &Segment, key: &[u8], at: usize) -> bool {
    match Key::new(alloc, 1, key) {
        Ok(key) => match index.get(&Image { segment }, &key.view()) {
            Some(place) => place.at == at,
            None => false,
        },
        Err(_) => false,
    }
}

/// Whether the segment has what is kept, and each key is found there.
fn is_after(alloc: Global, index: &Index, segment: &Segment) -> bool {
    for (key, at) in FOUND {
        if !is_found(alloc, index, segment, key, *at) {
            return false;
        }
    }
    are_spelt(alloc, AFTER, segment.bytes())
}

/// Compacts image 1. The head is segment 3, and segment 4 is being opened. Whether what is kept is found.
fn is_compacted(alloc: Global, images: &Images, index: &mut Index) -> bool {
    let log = LogSet {
        closed: images,
        head: 3,
        new: Some(4),
    };
    match images.get(1) {
        None => false,
        Some(segment) => match compact(alloc, 1, &segment, index, &log) {
            Ok(kept) => is_after(alloc, index, &kept),
            Err(_) => false,
        },
    }
}

/// What goes wrong first if two objects of image 1 live and it is compacted.
fn first_wrong(alloc: Global, images: &mut Images, index: &mut Index) -> Option<&'static str> {
    if !add_spelt(alloc, images, 1, BEFORE, false) {
        return Some("the image");
    }
    if !set_both(index, images) {
        return Some("the places");
    }
    if !is_compacted(alloc, images, index) {
        return Some("what is kept");
    }
    None
}

#[test]
fn what_is_kept_is_found(rt: HostRuntime) {
    let mut images = Images::new(rt.alloc(), 512, 64, 400);
    let mut index = Index::new(rt.alloc());
    assert_eq!(rt; first_wrong(rt.alloc(), &mut images, &mut index), None);
}
