//! Ops of a long run, and what memory holds after some of them.

use backup::MemoryBackup;
use replica::{Act, Holding, Op};
use std::alloc::Global;

/// How many ops the run has.
pub(crate) const OPS: usize = 200;

/// The op of this number. Five of them make a segment, close it, make another and free that.
pub(crate) fn op_of(number: usize) -> Op<'static> {
    let round = (number / 5) as u64;
    let (segment, act) = match number % 5 {
        0 => (round, Act::Open(b"head")),
        1 => (
            round,
            Act::Extend {
                at: 4,
                bytes: b"\x00\x01\x02",
            },
        ),
        2 => (round + 1000, Act::Seal(b"survivor")),
        3 => (round, Act::Close),
        _ => (round + 1000, Act::Free),
    };
    Op {
        master: round % 3,
        segment,
        act,
    }
}

/// What memory holds after so many of the ops.
pub(crate) fn memory_after(alloc: Global, count: usize) -> Option<MemoryBackup> {
    let mut memory = MemoryBackup::new(alloc);
    for number in 0..count {
        if memory.take(alloc, &op_of(number)).is_err() {
            return None;
        }
    }
    Some(memory)
}

fn is_same(one: &Holding<'_>, other: &Holding<'_>) -> bool {
    let is_same_text = one.bytes.as_slice() == other.bytes.as_slice();
    let is_same_place = one.master == other.master && one.segment == other.segment;
    is_same_place && is_same_text && one.is_open == other.is_open
}

fn are_same(ones: &[Holding<'_>], others: &[Holding<'_>]) -> bool {
    if ones.len() != others.len() {
        return false;
    }
    for i in 0..ones.len() {
        if !is_same(&ones[i], &others[i]) {
            return false;
        }
    }
    true
}

/// Whether two backups hold the same replicas.
pub(crate) fn hold_same(alloc: Global, one: &MemoryBackup, other: &MemoryBackup) -> bool {
    let mut ones = Vec::new(alloc);
    let mut others = Vec::new(alloc);
    if one.show(0, &mut ones).is_err() || other.show(0, &mut others).is_err() {
        return false;
    }
    are_same(&ones, &others)
}

/// Whether a backup holds what memory holds after so many of the ops.
pub(crate) fn is_after(alloc: Global, memory: &MemoryBackup, count: usize) -> bool {
    match memory_after(alloc, count) {
        Some(expected) => hold_same(alloc, memory, &expected),
        None => false,
    }
}
