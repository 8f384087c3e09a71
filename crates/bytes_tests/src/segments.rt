//! The vectors of segments, and a head that is made and grows.

use crate::vectors::{FIRST, LENGTHS, OBJECT, SAFE, SURVIVOR, are_spelt, bytes_of};
use entry::{Digest, EntryRef, Ids, SafeVersion};
use segment::*;
use std::alloc::Global;
use std::test::Fail;

/// The header of the first head.
const HEADER: &str = "01 0000000000000001 0000000000000001 00";

/// A digest that lists that head with its length.
const LISTED: &str = "06 00000001 0000000000000001 0000000000000030";

/// Texts, and how many entries the segment of their bytes has, or why the bytes are no segment.
const SEGMENTS: &[(&[&str], Result<usize, SegmentFault>)] = &[
    (&[FIRST], Ok(3)),
    (&[FIRST, OBJECT], Ok(4)),
    (&[LENGTHS], Ok(3)),
    (&[LENGTHS, OBJECT], Ok(4)),
    (&[SURVIVOR], Ok(1)),
    (&[], Err(SegmentFault::BadOrder(0))),
    (&[OBJECT], Err(SegmentFault::BadOrder(0))),
    (&[FIRST, SURVIVOR], Err(SegmentFault::BadOrder(40))),
    (&[SURVIVOR, SAFE], Err(SegmentFault::BadOrder(18))),
    (
        &["01 0000000000000001 0000000000000001 00 02 00000000 03 0000000000000001"],
        Err(SegmentFault::BadOrder(18)),
    ),
    // A digest with lengths may not be empty, end with another segment, stand elsewhere, or list a length of 17.
    (
        &[HEADER, "06 00000000", "03 0000000000000001"],
        Err(SegmentFault::BadOrder(18)),
    ),
    (
        &[
            HEADER,
            "06 00000002 0000000000000001 0000000000000030 0000000000000002 0000000000000030",
        ],
        Err(SegmentFault::BadOrder(18)),
    ),
    (&[FIRST, LISTED], Err(SegmentFault::BadOrder(40))),
    (&[HEADER, LISTED, LISTED], Err(SegmentFault::BadOrder(39))),
    (&[SURVIVOR, LISTED], Err(SegmentFault::BadOrder(18))),
    (
        &[HEADER, "06 00000001 0000000000000001 0000000000000011"],
        Err(SegmentFault::BadEntry(18)),
    ),
    // Fronts of the first head: its header, and all but its last byte.
    (&[HEADER], Err(SegmentFault::BadOrder(18))),
    (
        &["01 0000000000000001 0000000000000001 00 02 00000001 0000000000000001 03 00000000000000"],
        Err(SegmentFault::BadEntry(31)),
    ),
];

/// How many entries the segment of these bytes has.
fn count(alloc: Global, bytes: &[u8]) -> Result<usize, SegmentFault> {
    match read_segment(alloc, bytes) {
        Ok(segment) => Ok(segment.entries().count()),
        Err(fault) => Err(fault),
    }
}

/// Whether the bytes of these texts are read with this answer.
fn is_read(alloc: Global, texts: &[&str], want: Result<usize, SegmentFault>) -> bool {
    match bytes_of(alloc, texts) {
        Some(bytes) => count(alloc, bytes.as_slice()) == want,
        None => false,
    }
}

#[test]
fn segments_are_read(rt: HostRuntime) {
    for (texts, want) in SEGMENTS {
        assert!(rt; is_read(rt.alloc(), texts, *want), "{texts:?}");
    }
}

/// Head 1 of master 1, empty.
fn new_head(alloc: Global) -> Option<Segment> {
    let ids = Ids::new(Vec::from_slice(alloc, &[1]).ok()?);
    Segment::begin_head(alloc, 1, 1, Digest::Ids(ids), SafeVersion::first()).ok()
}

/// Limits of a head in turn, what becomes of an object that is appended within each, and the head's texts then.
const GROWTH: &[(usize, Result<usize, AppendFault>, &[&str])] = &[
    (64, Err(AppendFault::Full), &[FIRST]),
    (65, Ok(40), &[FIRST, OBJECT]),
];

/// Appends the object that these bytes spell to a segment, within a limit.
pub fn append(
    segment: &mut Segment,
    object: &[u8],
    limit: usize,
) -> Option<Result<usize, AppendFault>> {
    match EntryRef::read(object) {
        Ok((EntryRef::Object(object), _)) => {
            let unit = &[EntryRef::Object(object)];
            Some(segment.append(unit, limit.min(MAX_SEGMENT_LEN)))
        }
        _ => None,
    }
}

/// The first limit within which an object is appended otherwise.
fn first_other(alloc: Global, segment: &mut Segment, object: &[u8]) -> Option<usize> {
    for (limit, want, texts) in GROWTH {
        if append(segment, object, *limit) != Some(*want) {
            return Some(*limit);
        }
        if !are_spelt(alloc, texts, segment.bytes()) {
            return Some(*limit);
        }
    }
    None
}

#[test]
fn a_head_begins_and_grows(rt: HostRuntime) -> Result<(), Fail> {
    let object = bytes_of(rt.alloc(), &[OBJECT]).ok_or("no memory")?;
    let mut segment = new_head(rt.alloc()).ok_or("no memory")?;
    assert_eq!(rt;
        first_other(rt.alloc(), &mut segment, object.as_slice()),
        None
    );
    Ok(())
}
