//! Bytes of segments and of their entries, and what is rebuilt from them.

use claims::{Objects, Rebuilt, ReplayFault};
use entry::ObjectRef;
use recovery_plan::Segments;
use segment::SegmentRef;
use std::alloc::Global;
use std::fmt::Display;

/// The headers of survivors 1 to 6 of master 1.
pub const ONE: &[u8] = b"\x01\0\0\0\0\0\0\0\x01\0\0\0\0\0\0\0\x01\x01";

pub const TWO: &[u8] = b"\x01\0\0\0\0\0\0\0\x01\0\0\0\0\0\0\0\x02\x01";

pub const THREE: &[u8] = b"\x01\0\0\0\0\0\0\0\x01\0\0\0\0\0\0\0\x03\x01";

pub const FOUR: &[u8] = b"\x01\0\0\0\0\0\0\0\x01\0\0\0\0\0\0\0\x04\x01";

pub const FIVE: &[u8] = b"\x01\0\0\0\0\0\0\0\x01\0\0\0\0\0\0\0\x05\x01";

pub const LAST: &[u8] = b"\x01\0\0\0\0\0\0\0\x01\0\0\0\0\0\0\0\x06\x01";

/// Objects of table 1, each named by its key, its version and its value.
pub const A_1_X: &[u8] = b"\x04\0\0\0\0\0\0\0\x01\0\0\0\0\0\0\0\x01\0\x01\0\0\0\x01ax";

pub const A_1_Y: &[u8] = b"\x04\0\0\0\0\0\0\0\x01\0\0\0\0\0\0\0\x01\0\x01\0\0\0\x01ay";

pub const A_2_Y: &[u8] = b"\x04\0\0\0\0\0\0\0\x01\0\0\0\0\0\0\0\x02\0\x01\0\0\0\x01ay";

pub const A_2_Z: &[u8] = b"\x04\0\0\0\0\0\0\0\x01\0\0\0\0\0\0\0\x02\0\x01\0\0\0\x01az";

pub const A_4_S: &[u8] = b"\x04\0\0\0\0\0\0\0\x01\0\0\0\0\0\0\0\x04\0\x01\0\0\0\x01as";

pub const AA_3_R: &[u8] = b"\x04\0\0\0\0\0\0\0\x01\0\0\0\0\0\0\0\x03\0\x02\0\0\0\x01aar";

pub const B_2_Y: &[u8] = b"\x04\0\0\0\0\0\0\0\x01\0\0\0\0\0\0\0\x02\0\x01\0\0\0\x01by";

pub const B_2_Q: &[u8] = b"\x04\0\0\0\0\0\0\0\x01\0\0\0\0\0\0\0\x02\0\x01\0\0\0\x01bq";

/// An object of table 2.
pub const IN_2_A_1_P: &[u8] = b"\x04\0\0\0\0\0\0\0\x02\0\0\0\0\0\0\0\x01\0\x01\0\0\0\x01ap";

/// Tombstones of table 1 for objects of segment 1, each named by its key and its version.
pub const A_1_DEAD: &[u8] = b"\x05\0\0\0\0\0\0\0\x01\0\0\0\0\0\0\0\x01\0\0\0\0\0\0\0\x01\0\x01a";

pub const B_2_DEAD: &[u8] = b"\x05\0\0\0\0\0\0\0\x01\0\0\0\0\0\0\0\x02\0\0\0\0\0\0\0\x01\0\x01b";

/// The bytes of segments, each in parts.
pub type Log = &'static [&'static [&'static [u8]]];

/// The key `a` is put twice; `b` is put and deleted.
pub const LOG: Log = &[
    &[ONE, A_1_X, B_2_Y],
    &[TWO, A_1_DEAD, A_2_Z, B_2_DEAD],
    &[THREE],
];

/// Version 1 of `a` has two values.
pub const CLASHING: Log = &[&[ONE, A_1_X], &[TWO, A_1_Y], &[THREE, A_2_Z]];

fn text_of(alloc: Global, parts: &[&[u8]]) -> Option<Vec<u8>> {
    let mut bytes = Vec::new(alloc);
    for part in parts {
        bytes.extend_from_slice(part).ok()?;
    }
    Some(bytes)
}

/// The bytes of each segment.
pub fn texts_of(alloc: Global, log: Log) -> Option<Vec<Vec<u8>>> {
    let mut texts = Vec::new(alloc);
    for parts in log {
        texts.push(text_of(alloc, parts)?).ok()?;
    }
    Some(texts)
}

/// The segments that these bytes are.
pub fn segments_of<'a>(alloc: Global, texts: &'a [Vec<u8>]) -> Option<Segments<'a>> {
    let mut segments = Vec::new(alloc);
    for text in texts {
        match SegmentRef::read(text.as_slice()) {
            Ok(segment) => segments.push(segment).ok()?,
            Err(_) => return None,
        }
    }
    Some(Segments::new(segments))
}

/// An object: its table, key, version and value.
pub type Shown = (u64, &'static [u8], u64, &'static [u8]);

fn is_shown(object: &ObjectRef<'_>, want: &Shown) -> bool {
    let (table, key, version, value) = *want;
    let is_of_key = object.key.table == table && object.key.bytes == key;
    let is_same = object.version.get() == version && object.value == value;
    is_of_key && is_same
}

/// Whether these are the objects, in this order.
pub fn are_shown(objects: &Objects, want: &[Shown]) -> bool {
    let mut are_same = objects.len() == want.len();
    for (object, shown) in objects.iter().zip(want) {
        are_same = are_same && is_shown(&object, shown);
    }
    are_same
}

/// Whether the text of the fault is this.
pub fn is_named<T: Display>(alloc: Global, fault: &T, want: &str) -> bool {
    match format!(in alloc; "{fault}") {
        Ok(text) => text.as_str() == want,
        Err(_) => false,
    }
}

/// The objects and the safe version, or the text of the fault.
pub type Outcome = Result<(&'static [Shown], u64), &'static str>;

fn is_rebuilt(rebuilt: &Rebuilt, want: &Outcome) -> bool {
    match want {
        Ok((objects, safe)) => {
            are_shown(&rebuilt.objects, objects) && rebuilt.safe.get() == *safe
        }
        Err(_) => false,
    }
}

fn is_refused(alloc: Global, fault: &ReplayFault, want: &Outcome) -> bool {
    match want {
        Ok(_) => false,
        Err(name) => is_named(alloc, fault, name),
    }
}

/// Whether that is what a log was rebuilt to.
pub fn is_outcome(alloc: Global, outcome: &Result<Rebuilt, ReplayFault>, want: &Outcome) -> bool {
    match outcome {
        Ok(rebuilt) => is_rebuilt(rebuilt, want),
        Err(fault) => is_refused(alloc, fault, want),
    }
}
