//! Files that a journal is opened over, and what comes of it.

use std::alloc::Global;
use take_journal::{Journal, MemoryDevice, OpenFault, Tear};

/// A file, and how many texts it has, or why it is refused.
type Row = (&'static [u8], Result<usize, OpenFault>);

const ROWS: &[Row] = &[
    (b"", Ok(0)),
    (b"\x00", Ok(0)),
    // A gate that was torn as it was written.
    (b"\x07", Ok(0)),
    (b"\x01", Ok(0)),
    (b"\x01\x00\x00\x00\x03\x01ab\x00", Ok(1)),
    (b"\x01\x00\x00\x00\x01\x01\x01\x00\x00\x00\x00\x00", Ok(2)),
    // A closed gate, and what an append left behind it.
    (b"\x00\x00\x00\x00\x01\x01\x00", Ok(0)),
    (b"\x01\x00\x00\x00\x01\x01\x00\xff\xff", Ok(1)),
    // A gate that was torn as it was opened. What stands behind it is whole, or a mending that was cut short left it.
    (b"\x01\x00\x00\x00\x01\x01\x09\x00\x00\x00\x01a\x00", Ok(1)),
    (b"\x01\x00\x00\x00\x01\x01\x09\x00\x00\x00\x01a", Ok(1)),
    (b"\x01\x00\x00\x00\x01\x01\x09\x00\x00", Ok(1)),
    // No crash leaves these.
    (b"\x01\x00", Err(OpenFault::Damaged(0))),
    (b"\x01\x00\x00\x00\x02\x01", Err(OpenFault::Damaged(0))),
    (
        b"\x01\x00\x00\x00\x01\x01\x01\x00\x00\x00\x09a",
        Err(OpenFault::Damaged(6)),
    ),
    (
        b"\x01\x00\x00\x00\x01\x01\x09\x00\x00\x00\x01a\x00\x00",
        Err(OpenFault::Damaged(6)),
    ),
    (
        b"\x01\x00\x00\x00\x01\x01\x09\x00\x00\x00\x01a\x02",
        Err(OpenFault::Damaged(6)),
    ),
    // Another version, and no version.
    (
        b"\x01\x00\x00\x00\x01\x02\x00",
        Err(OpenFault::OtherVersion),
    ),
    (b"\x01\x00\x00\x00\x00\x00", Err(OpenFault::OtherVersion)),
];

/// What comes of a file.
fn answer_of(alloc: Global, file: &[u8]) -> Result<usize, OpenFault> {
    let tear = Tear {
        kept: 0,
        junk: None,
    };
    match MemoryDevice::new(alloc, file, u64::MAX, tear) {
        Ok(device) => match Journal::new(device).open(alloc, file) {
            Ok(texts) => Ok(texts.len()),
            Err(fault) => Err(fault),
        },
        Err(_) => Err(OpenFault::NoMemory),
    }
}

/// The first row that is answered otherwise.
fn first_other(alloc: Global) -> Option<usize> {
    for i in 0..ROWS.len() {
        let (file, answer) = &ROWS[i];
        if answer_of(alloc, *file) != *answer {
            return Some(i);
        }
    }
    None
}

#[test]
fn damage_is_named_with_its_place(rt: HostRuntime) {
    assert_eq!(rt; first_other(rt.alloc()), None);
}
