//! The texts of ops, as bytes.

use op_text::{read_op, write_op};
use replica::{Act, Op};
use std::alloc::Global;

/// An op of master 1 and segment 2, and its text.
struct Row {
    act: Act<'static>,
    text: &'static [u8],
}

const ROWS: &[Row] = &[
    Row {
        act: Act::Open(b"ab"),
        text: b"\x01\x00\x00\x00\x00\x00\x00\x00\x01\x00\x00\x00\x00\x00\x00\x00\x02ab",
    },
    Row {
        act: Act::Extend {
            at: 258,
            bytes: b"c",
        },
        text: b"\x02\x00\x00\x00\x00\x00\x00\x00\x01\x00\x00\x00\x00\x00\x00\x00\x02\x00\x00\x00\x00\x00\x00\x01\x02c",
    },
    Row {
        act: Act::Close,
        text: b"\x03\x00\x00\x00\x00\x00\x00\x00\x01\x00\x00\x00\x00\x00\x00\x00\x02",
    },
    Row {
        act: Act::Seal(b""),
        text: b"\x04\x00\x00\x00\x00\x00\x00\x00\x01\x00\x00\x00\x00\x00\x00\x00\x02",
    },
    Row {
        act: Act::Free,
        text: b"\x05\x00\x00\x00\x00\x00\x00\x00\x01\x00\x00\x00\x00\x00\x00\x00\x02",
    },
];

/// Bytes that are no op's text.
const OTHERS: &[&[u8]] = &[
    b"",
    b"\x03",
    b"\x03\x00\x00\x00\x00\x00\x00\x00\x01\x00\x00\x00\x00\x00\x00\x00",
    b"\x03\x00\x00\x00\x00\x00\x00\x00\x01\x00\x00\x00\x00\x00\x00\x00\x02\x00",
    b"\x02\x00\x00\x00\x00\x00\x00\x00\x01\x00\x00\x00\x00\x00\x00\x00\x02\x00\x00\x00\x00\x00\x00\x01",
    b"\x05\x00\x00\x00\x00\x00\x00\x00\x01\x00\x00\x00\x00\x00\x00\x00\x02\x05",
    b"\x06\x00\x00\x00\x00\x00\x00\x00\x01\x00\x00\x00\x00\x00\x00\x00\x02",
    b"\x00\x00\x00\x00\x00\x00\x00\x00\x01\x00\x00\x00\x00\x00\x00\x00\x02",
];

fn is_written_as(alloc: Global, op: &Op<'_>, text: &[u8]) -> bool {
    let mut written = Vec::new(alloc);
    write_op(&mut written, op).is_ok() && written.as_slice() == text
}

/// Whether the op is written as this text, and what is read from the text is written so, too.
fn is_exact(alloc: Global, row: &Row) -> bool {
    let op = Op {
        master: 1,
        segment: 2,
        act: row.act,
    };
    match read_op(row.text) {
        Some(read) => is_written_as(alloc, &op, row.text) && is_written_as(alloc, &read, row.text),
        None => false,
    }
}

fn first_other(alloc: Global) -> Option<usize> {
    for i in 0..ROWS.len() {
        if !is_exact(alloc, &ROWS[i]) {
            return Some(i);
        }
    }
    for i in 0..OTHERS.len() {
        if read_op(OTHERS[i]).is_some() {
            return Some(100 + i);
        }
    }
    None
}

#[test]
fn ops_are_spelled(rt: HostRuntime) {
    assert_eq!(rt; first_other(rt.alloc()), None);
}
