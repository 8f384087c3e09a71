//! The texts of a registry, as bytes.

use registry_text::{Record, read_fleet, read_record, write_fleet, write_record};
use std::alloc::Global;

/// A record, and its text.
struct Row {
    record: Record,
    text: &'static [u8],
}

const ROWS: &[Row] = &[
    Row {
        record: Record::Journal {
            backup: 3,
            id: 258,
            count: u64::MAX,
        },
        text: b"\x02\x00\x00\x00\x00\x00\x00\x00\x03\x00\x00\x00\x00\x00\x00\x01\x02\xff\xff\xff\xff\xff\xff\xff\xff",
    },
    Row {
        record: Record::Raise { master: 1, head: 2 },
        text: b"\x03\x00\x00\x00\x00\x00\x00\x00\x01\x00\x00\x00\x00\x00\x00\x00\x02",
    },
    Row {
        record: Record::Master(7),
        text: b"\x04\x00\x00\x00\x00\x00\x00\x00\x07",
    },
    Row {
        record: Record::Format(2),
        text: b"\x05\x00\x00\x00\x00\x00\x00\x00\x02",
    },
];

/// Bytes that are no record's text.
const OTHERS: &[&[u8]] = &[
    b"",
    b"\x04",
    b"\x04\x00\x00\x00\x00\x00\x00\x00",
    b"\x04\x00\x00\x00\x00\x00\x00\x00\x07\x00",
    b"\x03\x00\x00\x00\x00\x00\x00\x00\x01",
    b"\x02\x00\x00\x00\x00\x00\x00\x00\x03\x00\x00\x00\x00\x00\x00\x01\x02",
    b"\x06\x00\x00\x00\x00\x00\x00\x00\x07",
    b"\x01R\x00\x00\x00\x00\x00\x00\x00\x09\x00\x00",
];

/// The text of store 9 with the options 5 and 256.
const FLEET: &[u8] = b"\x01R\x00\x00\x00\x00\x00\x00\x00\x09\x00\x02\
    \x00\x00\x00\x00\x00\x00\x00\x05\x00\x00\x00\x00\x00\x00\x01\x00";

/// Bytes that name no store.
const NO_FLEETS: &[&[u8]] = &[
    b"",
    b"\x01",
    b"\x01R\x00\x00\x00\x00\x00\x00\x00\x09\x00",
    b"\x01R\x00\x00\x00\x00\x00\x00\x00\x09\x00\x00\x00",
    b"\x01R\x00\x00\x00\x00\x00\x00\x00\x09\x00\x01",
    b"\x01B\x00\x00\x00\x00\x00\x00\x00\x09\x00\x00",
    b"\x02R\x00\x00\x00\x00\x00\x00\x00\x09\x00\x00",
];

fn is_written_as(alloc: Global, record: &Record, text: &[u8]) -> bool {
    let mut written = Vec::new(alloc);
    write_record(&mut written, record).is_ok() && written.as_slice() == text
}

/// Whether the record is written as this text, and what is read from the text is written so, too.
fn is_exact(alloc: Global, row: &Row) -> bool {
    match read_record(row.text) {
        Some(read) => {
            is_written_as(alloc, &row.record, row.text) && is_written_as(alloc, &read, row.text)
        }
        None => false,
    }
}

fn is_fleet_written(alloc: Global) -> bool {
    let mut written = Vec::new(alloc);
    write_fleet(&mut written, 9, &[5, 256]).is_ok() && written.as_slice() == FLEET
}

fn is_fleet_read(alloc: Global) -> bool {
    match read_fleet(alloc, FLEET) {
        Ok(Some(fleet)) => fleet.id == 9 && fleet.options.as_slice() == [5, 256].as_slice(),
        _ => false,
    }
}

fn is_no_fleet(alloc: Global, text: &[u8]) -> bool {
    match read_fleet(alloc, text) {
        Ok(None) => true,
        _ => false,
    }
}

fn first_other(alloc: Global) -> Option<usize> {
    for i in 0..ROWS.len() {
        if !is_exact(alloc, &ROWS[i]) {
            return Some(i);
        }
    }
    for i in 0..OTHERS.len() {
        if read_record(OTHERS[i]).is_some() {
            return Some(100 + i);
        }
    }
    for i in 0..NO_FLEETS.len() {
        if !is_no_fleet(alloc, NO_FLEETS[i]) {
            return Some(200 + i);
        }
    }
    None
}

#[test]
fn records_are_spelled(rt: HostRuntime) {
    assert_eq!(rt; first_other(rt.alloc()), None);
}

#[test]
fn a_store_is_spelled(rt: HostRuntime) {
    let alloc = rt.alloc();
    assert!(rt; is_fleet_written(alloc));
    assert!(rt; is_fleet_read(alloc));
}
