//! A master with a limit of live bytes, and one for each object.

use crate::asks::Ask::{Delete, Get, Put, Write};
use crate::asks::{Ask, SEAT, command_of};
use crate::masters::limited_master;
use backup::MemoryFleet;
use recovery::master::{If, Master, Refusal, Step};
use std::alloc::Global;

/// The most bytes of an object, and the most bytes of all live objects.
const LIMITS: (u64, u64) = (90, 115);

/// A value whose object, with a key of one byte, has as many bytes as an object may have.
const LONGEST: &[u8] = &[b'x'; 66];

/// A value with one byte more, of which a quarter of a segment would have room.
const TOO_LONG: &[u8] = &[b'x'; 67];

/// An ask, the refusal of its command if it is refused, and the bytes of the live objects afterwards.
type Row = (Ask, Option<Refusal>, u64);

const ROWS: &[Row] = &[
    (Put(b"a", b'x', If::Any), None, 25),
    (Write(1, b"b", TOO_LONG), Some(Refusal::TooBig), 25),
    (Write(1, b"b", LONGEST), None, 115),
    (Put(b"c", b'x', If::Any), Some(Refusal::Overcommit), 115),
    (Put(b"a", b'y', If::Any), None, 115),
    (Put(b"c", b'x', If::Version(1)), None, 115),
    (Get(b"b"), None, 115),
    (Delete(b"a"), None, 90),
    (Delete(b"a"), None, 90),
    (Put(b"c", b'x', If::Any), None, 115),
    (Put(b"b", b'x', If::Any), None, 50),
];

/// Opens the first head.
fn open(master: &mut Master<MemoryFleet>) -> bool {
    master.step(Step::Push).is_ok() && master.step(Step::Push).is_ok()
}

/// Applies the command of a row, and compares its refusal and the bytes of the live objects.
fn is_so(alloc: Global, master: &mut Master<MemoryFleet>, row: &Row) -> bool {
    let (ask, refusal, live) = row;
    let Some(command) = command_of(alloc, ask) else {
        return false;
    };
    let refused = match master.step(Step::Apply(SEAT, command)) {
        Ok(_) => None,
        Err(refusal) => Some(refusal),
    };
    refused == *refusal && master.live() == *live && master.most_live() == LIMITS.1
}

/// How many rows hold, one after another.
fn rows_passed(alloc: Global) -> usize {
    let Some(mut master) = limited_master(alloc, LIMITS) else {
        return 0;
    };
    if !open(&mut master) {
        return 0;
    }
    let rows = ROWS.iter();
    rows.take_while(|row| is_so(alloc, &mut master, row))
        .count()
}

#[test]
fn puts_stay_within_their_limits(rt: HostRuntime) {
    assert!(rt; rows_passed(rt.alloc()) == ROWS.len());
}
