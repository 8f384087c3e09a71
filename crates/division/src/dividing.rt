//! A segment's entries, sent to the partitions of a will.

ghost use Rattle.std.specs.Prelude.{◌≡◌, ◌<◌, map, IfOk, IfErr, OnOk, vec_len, vec_capacity};
ghost use Rattle.entry.specs.Text.{text_of};
ghost use Rattle.entry.specs.View.{shown, shown_key};
ghost use Rattle.division.specs.Groups.{grouped};
ghost use Rattle.division.specs.Division.{IsDivision, AreCovered, IsDivideFault, IsSought, IsFound};
ghost use Rattle.division.specs.Gathering.{AreEmpty, AreGathered, ArePlaces, group_at};

use crate::fault::DivideFault;
use crate::gathered::Gathered;
use crate::group::Group;
use crate::placed::GroupEntries;
use crate::straying::first_stray;
use entry::{EntryRef, KeyRef, NoMemory};
use segment::SegmentRef;
use std::alloc::{AllocError, Global};
use tablet_will::Will;

/// The error of a walk over a segment that stopped: a key has no partition, or memory ran out.
#[derive(Drop)]
struct Stopped;

impl From<AllocError> for Stopped {
    fn from(_error: AllocError) -> Stopped {
        Stopped
    }
}

/// The partition of a key, which is never `Ok(None)`. The walk stops if the key has no partition.
#[inline(always)]
fn partition_of_key(key: &KeyRef<'_>, will: &Will) -> Result<Option<u32>, Stopped>
    ensures { IfOk result (IsFound will.now (shown_key key.now)) }
{
    match will.partition_of_ref(key) {
        Some(partition) => Ok(Some(partition)),
        None => Err(Stopped),
    }
}

/// The partition of the key of an object or a tombstone, or `Ok(None)` for another entry. The walk stops if the key has
/// no partition.
#[inline(always)]
fn sought(entry: &EntryRef<'_>, will: &Will) -> Result<Option<u32>, Stopped>
    ensures { IfOk result (IsSought will.now (shown entry.now)) }
{
    match entry {
        EntryRef::Object(object) => partition_of_key(&object.key, will),
        EntryRef::Tombstone(tombstone) => partition_of_key(&tombstone.key, will),
        _ => Ok(None),
    }
}

/// Makes an empty list of places for each partition.
fn none_gathered(alloc: Global, partitions: u32) -> Result<Vec<Gathered>, NoMemory>
    ensures { IfOk result (λ all. AreEmpty partitions all.items) }
{
    let mut all = Vec::with_capacity(alloc, partitions as usize)?;
    for partition in 0..partitions {
        let none = Gathered {
            partition,
            places: Vec::new(alloc),
        };
        all.push(none)?;
    }
    Ok(all)
}

/// Makes room for one more place. If the list is full, its memory doubles. The first place gets memory for one place
/// only, because with many partitions most groups of a segment have an entry or two.
fn make_room(places: &mut Vec<u32>) -> Result<(), NoMemory>
    ensures items { places.new.items ≡ places.old.items }
    ensures room { OnOk result (vec_len places.new < vec_capacity places.new) }
{
    if places.len() < places.capacity() {
        return Ok(());
    }
    places.reserve_exact(places.len().max(1))
}

/// Gathers the places of a segment's objects and tombstones, for each partition of the will.
fn gather(alloc: Global, segment: &SegmentRef<'_>, will: &Will) -> Result<Vec<Gathered>, Stopped>
    ensures ok { IfOk result (λ all. AreGathered will.now segment.now all.items) }
    ensures covered { OnOk result (AreCovered will.now segment.now) }
{
    let mut all = none_gathered(alloc, will.partitions())?;
    let text = segment.bytes();
    let mut at = 0;
    while at < text.len() {
        let Ok((entry, taken)) = EntryRef::read(&text[at..]) else {
            unreachable!()
        };
        if let Some(partition) = sought(&entry, will)? {
            let gathered = &mut all[partition as usize];
            make_room(&mut gathered.places)?;
            gathered.places.push_reserved(at as u32);
        }
        at += taken;
    }
    Ok(all)
}

/// Makes a group of each partition's places in the segment, which has this id.
fn groups_at<'a>(
    alloc: Global,
    id: u64,
    segment: &SegmentRef<'a>,
    all: Vec<Gathered>,
) -> Result<Vec<Group<'a>>, NoMemory>
    requires { ArePlaces (text_of segment.now) all.items }
    ensures { IfOk result (λ groups.
        map grouped groups.items ≡ map (group_at id (text_of segment.entry.now)) all.items) }
{
    let mut groups = Vec::with_capacity(alloc, all.len())?;
    for gathered in all {
        let group = Group {
            segment: id,
            partition: gathered.partition,
            entries: GroupEntries::at_places(segment.copy(), gathered.places),
        };
        groups.push(group)?;
    }
    Ok(groups)
}

/// Finds out why a walk over the segment stopped: Stray if some key has no partition, else NoMemory.
fn fault_of<'a>(segment: &SegmentRef<'a>, will: &Will) -> DivideFault<'a>
    ensures { IsDivideFault will.now segment.entry.now result }
{
    match first_stray(segment, will) {
        Some(key) => DivideFault::Stray(key),
        None => DivideFault::NoMemory,
    }
}

/// Divides a segment: returns a group for each partition of the will, in order, with the objects and tombstones whose
/// keys are in the partition. A group may be empty. The entries stay in the segment's bytes: a group takes 4 bytes for
/// each entry, and a few words besides. If some key is in no partition, the fault is Stray with such a key. NoMemory
/// comes only if each key has a partition.
pub fn divide<'a>(
    alloc: Global,
    segment: &SegmentRef<'a>,
    will: &Will,
) -> Result<Vec<Group<'a>>, DivideFault<'a>>
    ensures ok { IfOk result (λ groups. IsDivision will.now segment.entry.now (map grouped groups.items)) }
    ensures covered { OnOk result (AreCovered will.now segment.entry.now) }
    ensures fault { IfErr result (IsDivideFault will.now segment.entry.now) }
{
    let all = match gather(alloc, segment, will) {
        Ok(all) => all,
        Err(_) => return Err(fault_of(segment, will)),
    };
    let id = segment.header().segment;
    match groups_at(alloc, id, segment, all) {
        Ok(groups) => Ok(groups),
        Err(_) => Err(DivideFault::NoMemory),
    }
}
