//! Many replicas, and a segment with many entries. There is memory for all of them, so no call may refuse them.

use backup::{MemoryFleet, divide};
use recovery_plan::plan;
use replica::{Act, Bytes, Fleet, Holding, Inventory, Op};
use segment::SegmentRef;
use std::alloc::Global;
use tablet_will::{Size, Tablet, Will, make_will};

/// The header of a segment of master 1, with its role: 0 for a head, 1 for a survivor.
fn add_header(text: &mut Vec<u8>, segment: u64, role: u8) -> bool {
    text.extend_from_slice(b"\x01\0\0\0\0\0\0\0\x01").is_ok()
        && text.extend_from_slice(&segment.to_be_bytes()).is_ok()
        && text.push(role).is_ok()
}

/// A head of master 1 without objects, whose digest has the ids from 1 to its own.
fn head_of(alloc: Global, ids: u32) -> Option<Vec<u8>> {
    let mut text = Vec::new(alloc);
    let mut is_added = add_header(&mut text, u64::from(ids), 0) && text.push(2).is_ok();
    is_added = is_added && text.extend_from_slice(&ids.to_be_bytes()).is_ok();
    for id in 0..u64::from(ids) {
        is_added = is_added
            && text
                .extend_from_slice(&id.wrapping_add(1).to_be_bytes())
                .is_ok();
    }
    if is_added && text.extend_from_slice(b"\x03\0\0\0\0\0\0\0\x01").is_ok() {
        Some(text)
    } else {
        None
    }
}

/// The texts of survivors of master 1 without entries, from this many ids but the last.
fn survivors(alloc: Global, ids: u32) -> Option<Vec<Vec<u8>>> {
    let mut texts = Vec::new(alloc);
    for id in 1..u64::from(ids) {
        let mut text = Vec::new(alloc);
        if !add_header(&mut text, id, 1) {
            return None;
        }
        texts.push(text).ok()?;
    }
    Some(texts)
}

/// A replica of master 1.
fn holding_of(text: &[u8], segment: u64, is_open: bool) -> Holding<'_> {
    Holding {
        backup: segment % 3,
        master: 1,
        segment,
        bytes: Bytes::new(text),
        is_open,
    }
}

/// Closed replicas of the survivors from 1 on, and an open one of the head.
fn inventory_of<'a>(
    alloc: Global,
    survivors: &'a [Vec<u8>],
    head: &'a [u8],
    ids: u32,
) -> Option<Inventory<'a>> {
    let mut holdings = Vec::new(alloc);
    for (text, segment) in survivors.iter().zip(1..u64::from(ids)) {
        holdings
            .push(holding_of(text.as_slice(), segment, false))
            .ok()?;
    }
    holdings.push(holding_of(head, u64::from(ids), true)).ok()?;
    Some(Inventory::new(holdings))
}

/// How many segments the plan has.
fn planned(alloc: Global, inventory: &Inventory<'_>) -> Option<usize> {
    match &plan(alloc, inventory, 1, 0) {
        Ok(plan) => Some(plan.segments.as_slice().len()),
        Err(_) => None,
    }
}

/// Whether there is a plan of all segments of a log with so many ids.
fn is_planned(alloc: Global, ids: u32) -> bool {
    match (&survivors(alloc, ids), &head_of(alloc, ids)) {
        (Some(survivors), Some(head)) => {
            match &inventory_of(alloc, survivors.as_slice(), head.as_slice(), ids) {
                Some(inventory) => planned(alloc, inventory) == Some(ids as usize),
                None => false,
            }
        }
        _ => false,
    }
}

#[test]
fn large_logs_are_planned(rt: HostRuntime) {
    for ids in [21, 300, 2_000] {
        assert!(rt; is_planned(rt.alloc(), ids), "{ids}");
    }
}

/// A survivor with objects of table 1, whose keys are the numbers from 0 on, as eight bytes.
fn segment_with(alloc: Global, objects: u64) -> Option<Vec<u8>> {
    let mut text = Vec::new(alloc);
    let mut is_added = add_header(&mut text, 1, 1);
    for number in 0..objects {
        is_added = is_added
            && text
                .extend_from_slice(b"\x04\0\0\0\0\0\0\0\x01\0\0\0\0\0\0\0\x01\0\x08\0\0\0\x01")
                .is_ok()
            && text.extend_from_slice(&number.to_be_bytes()).is_ok()
            && text.push(b'x').is_ok();
    }
    if is_added { Some(text) } else { None }
}

/// The will of table 1 in which each of the first places has a partition.
fn will_of(alloc: Global, partitions: u64) -> Option<Will> {
    let mut sizes = Vec::new(alloc);
    for place in 0..partitions {
        let size = Size {
            table: 1,
            place,
            bytes: 1,
        };
        sizes.push(size).ok()?;
    }
    let tablet = Tablet {
        table: 1,
        first: 0,
        last: u64::MAX,
    };
    make_will(alloc, &[tablet], sizes.as_slice(), 100, 1).ok()
}

/// How many groups a segment is divided into, and how many entries they have.
fn divided(alloc: Global, segment: &SegmentRef<'_>, will: &Will) -> Option<(usize, usize)> {
    match &divide(alloc, segment, will) {
        Ok(groups) => {
            let mut entries: usize = 0;
            for group in groups {
                entries = entries.saturating_add(group.entries.len());
            }
            Some((groups.len(), entries))
        }
        Err(_) => None,
    }
}

/// Whether a segment with so many objects is divided into so many groups.
fn is_divided(alloc: Global, objects: u64, partitions: u64) -> bool {
    match (&segment_with(alloc, objects), &will_of(alloc, partitions)) {
        (Some(text), Some(will)) => match SegmentRef::read(text.as_slice()) {
            Ok(segment) => {
                divided(alloc, &segment, will) == Some((partitions as usize, objects as usize))
            }
            Err(_) => false,
        },
        _ => false,
    }
}

#[test]
fn large_segments_are_divided(rt: HostRuntime) {
    for (objects, partitions) in [(200, 1), (65, 65), (10_000, 1_000)] {
        assert!(rt;
            is_divided(rt.alloc(), objects, partitions),
            "{objects} {partitions}"
        );
    }
}

/// Opens a replica of the segment at the backup, and extends it.
fn is_taken(fleet: &mut MemoryFleet, backup: u64, segment: u64, bytes: &[u8]) -> bool {
    let at = bytes.len();
    for act in [Act::Open(bytes), Act::Extend { at, bytes }] {
        let op = Op {
            master: 1,
            segment,
            act,
        };
        if fleet.take(backup, &op).is_err() {
            return false;
        }
    }
    true
}

/// Whether each backup takes replicas of so many segments.
fn are_taken(fleet: &mut MemoryFleet, backups: u64, segments: u64, bytes: &[u8]) -> bool {
    for backup in 0..backups {
        for segment in 0..segments {
            if !is_taken(fleet, backup, segment, bytes) {
                return false;
            }
        }
    }
    true
}

/// How many replicas the list of all has.
fn listed(alloc: Global, fleet: &MemoryFleet) -> usize {
    match &fleet.inventory(alloc) {
        Ok(inventory) => inventory.as_slice().len(),
        Err(_) => 0,
    }
}

/// How many labels the list of all has.
fn labelled(alloc: Global, fleet: &MemoryFleet) -> usize {
    match &fleet.labels(alloc) {
        Ok(labels) => labels.as_slice().len(),
        Err(_) => 0,
    }
}

/// How many replicas backup 0 shows.
fn held(alloc: Global, fleet: &MemoryFleet) -> usize {
    match &fleet.holdings(alloc, 0) {
        Ok(holdings) => holdings.len(),
        Err(_) => 0,
    }
}

/// Whether all replicas are listed, labelled and shown.
fn are_shown(alloc: Global, fleet: &MemoryFleet, backups: u64, segments: u64) -> bool {
    let all = backups.saturating_mul(segments) as usize;
    listed(alloc, fleet) == all
        && labelled(alloc, fleet) == all
        && held(alloc, fleet) == segments as usize
}

/// Whether a fleet takes replicas of so many bytes, and shows all.
fn is_filled(alloc: Global, backups: u64, segments: u64, len: usize) -> bool {
    let mut bytes = Vec::new(alloc);
    if bytes.resize(len, 0).is_err() {
        return false;
    }
    match MemoryFleet::new(alloc, backups) {
        Ok(mut fleet) => {
            are_taken(&mut fleet, backups, segments, bytes.as_slice())
                && are_shown(alloc, &fleet, backups, segments)
        }
        Err(_) => false,
    }
}

#[test]
fn large_fleets_take_and_show(rt: HostRuntime) {
    for (backups, segments, len) in [(64, 40, 100), (3, 5, 1_000_000), (1, 2_000, 10)] {
        assert!(rt;
            is_filled(rt.alloc(), backups, segments, len),
            "{backups} {segments} {len}"
        );
    }
}
