//! One row of calls over a fleet in memory and over one with files.

use crate::calls::{ROWS, answer_to};
use crate::making::{NEVER, WHOLE, members};
use backup::MemoryFleet;
use file_fleet::FileFleet;
use fleets::Fleets;
use registry_file::RegistryFile;
use replica::{Fleet, Holding};
use std::alloc::Global;
use take_journal::{MemoryDevice, Tear};

fn is_same(one: &Holding<'_>, other: &Holding<'_>) -> bool {
    let is_same_text = one.bytes.as_slice() == other.bytes.as_slice();
    let is_same_place = one.master == other.master && one.segment == other.segment;
    is_same_place && is_same_text && one.backup == other.backup && one.is_open == other.is_open
}

pub(crate) fn are_same(ones: &[Holding<'_>], others: &[Holding<'_>]) -> bool {
    if ones.len() != others.len() {
        return false;
    }
    for i in 0..ones.len() {
        if !is_same(&ones[i], &others[i]) {
            return false;
        }
    }
    true
}

/// Whether two fleets hold the same on a backup.
fn hold_same(
    alloc: Global,
    one: &Fleets<MemoryDevice, RegistryFile<MemoryDevice>>,
    other: &Fleets<MemoryDevice, RegistryFile<MemoryDevice>>,
    backup: u64,
) -> bool {
    match one.holdings(alloc, backup) {
        Ok(ones) => match other.holdings(alloc, backup) {
            Ok(others) => are_same(&ones, &others),
            Err(_) => false,
        },
        Err(_) => false,
    }
}

/// Whether two fleets count the same, and have the same least heads.
fn count_same(
    one: &Fleets<MemoryDevice, RegistryFile<MemoryDevice>>,
    other: &Fleets<MemoryDevice, RegistryFile<MemoryDevice>>,
) -> bool {
    let is_same_count = one.takes() == other.takes() && one.end() == other.end();
    let is_same_head = one.least(1) == other.least(1) && one.least(2) == other.least(2);
    is_same_count && is_same_head && one.faults() == other.faults()
}

/// The first call that isn't answered by both as its row says, or after which they differ.
fn first_other(
    alloc: Global,
    one: &mut Fleets<MemoryDevice, RegistryFile<MemoryDevice>>,
    other: &mut Fleets<MemoryDevice, RegistryFile<MemoryDevice>>,
) -> Option<usize> {
    for i in 0..ROWS.len() {
        let (asked, answer) = &ROWS[i];
        if answer_to(one, asked) != *answer || answer_to(other, asked) != *answer {
            return Some(i);
        }
        if !count_same(one, other) {
            return Some(i);
        }
        for backup in 0..4 {
            if !hold_same(alloc, one, other, backup) {
                return Some(i);
            }
        }
    }
    None
}

/// A fleet with files. The devices of the backups and of the registry stop at these calls. None if one stops too early.
pub(crate) fn with_files(
    alloc: Global,
    stops: [u64; 3],
    registry: u64,
    tear: Tear,
) -> Option<Fleets<MemoryDevice, RegistryFile<MemoryDevice>>> {
    match members(alloc, stops, registry, tear) {
        Some(members) => Some(Fleets::Files(FileFleet::new(alloc, members))),
        None => None,
    }
}

fn are_alike(alloc: Global) -> bool {
    let Some(mut files) = with_files(alloc, [NEVER; 3], NEVER, WHOLE) else {
        return false;
    };
    match MemoryFleet::new(alloc, 3) {
        Ok(memory) => first_other(alloc, &mut Fleets::Memory(memory), &mut files).is_none(),
        Err(_) => false,
    }
}

#[test]
fn both_fleets_answer_alike(rt: HostRuntime) {
    assert!(rt; are_alike(rt.alloc()));
}
