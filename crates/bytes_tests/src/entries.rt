//! The vectors of entries, read and written, and the places of keys.

use crate::vectors::{GREATEST, OBJECT, SAFE, SURVIVOR, TOMBSTONE, bytes_of};
use entry::*;
use std::alloc::Global;
use std::test::Fail;

/// Bytes, and how many of them the entry at their front takes, or why there is no entry.
type Row = (&'static str, Result<usize, EntryFault>);

const ENTRIES: &[Row] = &[
    ("01 0000000000000001 0000000000000001 00", Ok(18)),
    (SURVIVOR, Ok(18)),
    ("02 00000001 0000000000000001", Ok(13)),
    ("02 00000000", Ok(5)),
    ("03 0000000000000001", Ok(9)),
    ("03 0000000000000001 ff", Ok(9)),
    (SAFE, Ok(9)),
    (OBJECT, Ok(25)),
    (TOMBSTONE, Ok(28)),
    (GREATEST, Ok(24)),
    ("", Err(EntryFault::Short)),
    ("06", Err(EntryFault::Short)),
    ("07", Err(EntryFault::UnknownKind)),
    ("00 ff ff", Err(EntryFault::UnknownKind)),
    ("03", Err(EntryFault::Short)),
    ("03 0000000000000000", Err(EntryFault::BadField)),
    ("03 4000000000000002", Err(EntryFault::BadField)),
    (
        "01 0000000000000001 0000000000000001 02",
        Err(EntryFault::BadField),
    ),
    ("02 00000002 0000000000000002", Err(EntryFault::Short)),
    (
        "02 00000002 0000000000000002 0000000000000001",
        Err(EntryFault::BadField),
    ),
    (
        "02 00000002 0000000000000002 0000000000000002",
        Err(EntryFault::BadField),
    ),
    ("06 00000000", Ok(5)),
    ("06 00000001 0000000000000001 0000000000000012 ff", Ok(21)),
    ("06 00000001 0000000000000001 0000000000800000", Ok(21)),
    (
        "06 00000001 0000000000000001 0000000000000011",
        Err(EntryFault::BadField),
    ),
    (
        "06 00000001 0000000000000001 0000000000800001",
        Err(EntryFault::BadField),
    ),
    (
        "06 00000001 0000000000000001 8000000000000012",
        Err(EntryFault::BadField),
    ),
    (
        "06 00000002 0000000000000001 0000000000000012 ffffffffffffffff 0000000000000030",
        Ok(37),
    ),
    (
        "06 00000002 0000000000000002 0000000000000012 0000000000000001 0000000000000030",
        Err(EntryFault::BadField),
    ),
    (
        "06 00000002 0000000000000002 0000000000000012 0000000000000002 0000000000000030",
        Err(EntryFault::BadField),
    ),
    (
        "06 00000002 0000000000000001 0000000000000011 0000000000000002 0000000000000030",
        Err(EntryFault::BadField),
    ),
    (
        "06 00000002 0000000000000001 0000000000000012 0000000000000002 0000000000000000",
        Err(EntryFault::BadField),
    ),
    ("06 000000", Err(EntryFault::Short)),
    (
        "06 00000002 0000000000000002 0000000000000011 0000000000000001",
        Err(EntryFault::Short),
    ),
    (
        "04 0000000000000001 0000000000000000",
        Err(EntryFault::Short),
    ),
    (
        "04 0000000000000001 0000000000000000 0001 00000001",
        Err(EntryFault::BadField),
    ),
    (
        "04 0000000000000001 0000000000000001 0000 00000001 78",
        Err(EntryFault::BadField),
    ),
    (
        "04 0000000000000001 0000000000000001 0401 00000000",
        Err(EntryFault::BadField),
    ),
    (
        "04 0000000000000001 0000000000000001 0001 00000001 61",
        Err(EntryFault::Short),
    ),
    (
        "04 0000000000000001 4000000000000001 0001 00000000 61",
        Err(EntryFault::BadField),
    ),
    (
        "05 0000000000000001 0000000000000001 0000000000000001 0000 61",
        Err(EntryFault::BadField),
    ),
];

/// Reads the entry at the front, and writes it.
fn copy_entry(alloc: Global, bytes: &[u8], out: &mut Vec<u8>) -> Result<usize, EntryFault> {
    match read_entry(alloc, bytes) {
        Ok((entry, taken)) => match write_entry(&entry, out) {
            Ok(()) => Ok(taken),
            Err(_) => Err(EntryFault::NoMemory),
        },
        Err(fault) => Err(fault),
    }
}

/// Whether these bytes are read with this answer, and what is written of them are those that were taken.
fn is_copied(alloc: Global, bytes: &[u8], want: Result<usize, EntryFault>) -> bool {
    let mut out = Vec::new(alloc);
    let taken = copy_entry(alloc, bytes, &mut out);
    let written = bytes.get(..taken.unwrap_or(0)) == Some(out.as_slice());
    taken == want && written
}

/// The first row that is answered otherwise.
fn first_other(alloc: Global, rows: &[Row]) -> Option<&'static str> {
    for (text, want) in rows {
        match bytes_of(alloc, &[text]) {
            None => return Some(text),
            Some(bytes) => {
                if !is_copied(alloc, bytes.as_slice(), *want) {
                    return Some(text);
                }
            }
        }
    }
    None
}

#[test]
fn entries_are_read_and_written(rt: HostRuntime) {
    assert_eq!(rt; first_other(rt.alloc(), ENTRIES), None);
}

/// Whether the entry is an object with these fields.
fn is_object(entry: &Entry, table: u64, key: &[u8], version: u64, value: &[u8]) -> bool {
    let Entry::Object(object) = entry else {
        return false;
    };
    object.key.table == table
        && object.key.bytes.as_slice() == key
        && object.version.get() == version
        && object.value.as_slice() == value
}

/// Whether the bytes of an object are read as one with its fields.
fn is_read(alloc: Global, bytes: &[u8]) -> bool {
    match read_entry(alloc, bytes) {
        Ok((entry, _)) => is_object(&entry, 1, b"a", 1, b"x"),
        Err(_) => false,
    }
}

#[test]
fn an_object_has_its_fields(rt: HostRuntime) -> Result<(), Fail> {
    let bytes = bytes_of(rt.alloc(), &[OBJECT]).ok_or("no memory")?;
    assert!(rt; is_read(rt.alloc(), bytes.as_slice()));
    Ok(())
}

/// Whether the bytes of a head's digest are read as one that lists segment 1 with this length.
fn is_listed(bytes: &[u8], want: Option<u64>) -> bool {
    match EntryRef::read(bytes) {
        Ok((EntryRef::Digest(digest), _)) => {
            digest.count() == 1 && digest.id(0) == 1 && digest.len(0) == want
        }
        _ => false,
    }
}

/// Digests of the first head, and the length that they list.
const DIGESTS: &[(&str, Option<u64>)] = &[
    ("02 00000001 0000000000000001", None),
    ("06 00000001 0000000000000001 0000000000000030", Some(48)),
];

#[test]
fn digests_list_lengths(rt: HostRuntime) -> Result<(), Fail> {
    for (text, want) in DIGESTS {
        let bytes = bytes_of(rt.alloc(), &[text]).ok_or("no memory")?;
        assert!(rt; is_listed(bytes.as_slice(), *want), "{text}");
    }
    Ok(())
}

/// The tablet of the keys of table 1 that begin with `a`.
const TABLET: Tablet = Tablet {
    table: 1,
    first: 0x6100_0000_0000_0000,
    last: 0x61ff_ffff_ffff_ffff,
};

/// Keys of table 1, the place of each, and whether the tablet has it.
const KEYS: &[(&[u8], Result<(u64, bool), KeyFault>)] = &[
    (b"a", Ok((0x6100_0000_0000_0000, true))),
    (b"b", Ok((0x6200_0000_0000_0000, false))),
    (b"ab", Ok((0x6162_0000_0000_0000, true))),
    (b"abcdefghi", Ok((0x6162_6364_6566_6768, true))),
    (b"", Err(KeyFault::Empty)),
    (&[0; 1025], Err(KeyFault::TooLong)),
];

/// The place of a key of table 1, and whether tablets have it.
fn told(alloc: Global, tablets: &Tablets, bytes: &[u8]) -> Result<(u64, bool), KeyFault> {
    let key = Key::new(alloc, 1, bytes)?;
    Ok((
        place(&key),
        tablets.are_valid() && tablets.have(&key.view()),
    ))
}

#[test]
fn keys_have_places(rt: HostRuntime) -> Result<(), Fail> {
    let tablets = Tablets::new(Vec::from_slice(rt.alloc(), &[TABLET])?);
    for (bytes, want) in KEYS {
        assert!(rt; told(rt.alloc(), &tablets, bytes) == *want, "{bytes:?}");
    }
    Ok(())
}
