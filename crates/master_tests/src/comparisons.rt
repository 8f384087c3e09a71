//! The store does what the plain slow programs do.

use crate::answers::{reply, told};
use crate::asks::{Ask, command_of};
use crate::drills::will_of;
use backup::MemoryFleet;
use entry::{Entry, EntryRef, Object, ObjectRef};
use recovery::master::{Command, Look, Master, Reply, Shown, Step};
use recovery::replay::{Objects, Rebuilt};
use recovery::{GroupOrder, recover};
use replica::Fleet;
use segment::SegmentRef;
use std::alloc::Global;
use versioned_map::{VersionedMap, meaning};

/// What was found.
pub fn value(reply: &Reply) -> &[u8] {
    match reply {
        Reply::Found(_, value) => value.as_slice(),
        _ => &[],
    }
}

fn is_same_reply(left: &Reply, right: &Reply) -> bool {
    told(left) == told(right) && value(left) == value(right)
}

fn gives(master: &mut Master<MemoryFleet>, command: Command, want: &Reply) -> bool {
    match &reply(master, command) {
        Some(reply) => is_same_reply(reply, want),
        None => false,
    }
}

/// Whether both give the same reply.
fn is_same_step(
    alloc: Global,
    master: &mut Master<MemoryFleet>,
    map: &mut VersionedMap,
    ask: &Ask,
) -> bool {
    let Some(command) = command_of(alloc, ask) else {
        return false;
    };
    match &map.apply(&command) {
        Ok(want) => gives(master, command, want),
        Err(_) => false,
    }
}

fn is_same_object(left: &Object, right: &Object) -> bool {
    let is_table = left.key.table == right.key.table;
    let is_key = is_table && left.key.bytes.as_slice() == right.key.bytes.as_slice();
    let is_version = left.version.get() == right.version.get();
    is_key && is_version && left.value.as_slice() == right.value.as_slice()
}

fn has(objects: &[Object], want: &Object) -> bool {
    let mut is_found = false;
    for object in objects {
        is_found = is_found || is_same_object(object, want);
    }
    is_found
}

fn is_same_as(left: &ObjectRef<'_>, right: &Object) -> bool {
    let is_table = left.key.table == right.key.table;
    let is_key = is_table && left.key.bytes == right.key.bytes.as_slice();
    let is_version = left.version.get() == right.version.get();
    is_key && is_version && left.value == right.value.as_slice()
}

fn has_rebuilt(objects: &Objects, want: &Object) -> bool {
    let mut is_found = false;
    for object in objects.iter() {
        is_found = is_found || is_same_as(&object, want);
    }
    is_found
}

/// Whether these are the objects of the map, in any order.
fn are_rebuilt_of(objects: &Objects, map: &VersionedMap) -> bool {
    let mut are_same = objects.len() == map.objects().len();
    for object in map.objects() {
        are_same = are_same && has_rebuilt(objects, object);
    }
    are_same
}

/// Whether these are the objects of the map, in any order.
fn are_of(objects: &[Object], map: &VersionedMap) -> bool {
    let mut are_same = objects.len() == map.objects().len();
    for object in map.objects() {
        are_same = are_same && has(objects, object);
    }
    are_same
}

/// The entries of a segment's bytes.
fn entries_of(alloc: Global, bytes: &[u8]) -> Option<Vec<Entry>> {
    let Ok(segment) = SegmentRef::read(bytes) else {
        return None;
    };
    let mut entries = Vec::new(alloc);
    for entry in segment.entries() {
        let entry: EntryRef<'_> = entry;
        entries.push(entry.to_entry(alloc).ok()?).ok()?;
    }
    Some(entries)
}

/// Whether the bytes of a segment mean the map.
fn mean(alloc: Global, bytes: &[u8], map: &VersionedMap) -> bool {
    let Some(entries) = entries_of(alloc, bytes) else {
        return false;
    };
    match &meaning(alloc, entries.as_slice()) {
        Ok(objects) => are_of(objects.as_slice(), map),
        Err(_) => false,
    }
}

/// Whether the image of head 1 means the map.
fn is_meant(alloc: Global, master: &Master<MemoryFleet>, map: &VersionedMap) -> bool {
    match &master.look(Look::Image(1)) {
        Ok(Shown::Image(Some(image))) => mean(alloc, image.as_slice(), map),
        _ => false,
    }
}

/// What master 1 is rebuilt to from this fleet.
pub fn rebuilt(alloc: Global, fleet: &MemoryFleet) -> Option<Rebuilt> {
    let inventory = fleet.inventory(alloc).ok()?;
    let will = will_of(alloc, &[])?;
    recover(
        alloc,
        &inventory,
        1,
        fleet.least(1),
        &will,
        &GroupOrder::Forward,
    )
    .ok()
}

fn is_rebuilt(alloc: Global, fleet: &MemoryFleet, map: &VersionedMap) -> bool {
    match &rebuilt(alloc, fleet) {
        Some(rebuilt) => are_rebuilt_of(&rebuilt.objects, map),
        None => false,
    }
}

fn push(master: &mut Master<MemoryFleet>, times: usize) {
    for _ in 0..times {
        let _ = master.step(Step::Push);
    }
}

/// Makes all steps. Whether all replies are those of the map.
fn are_same_steps(
    alloc: Global,
    master: &mut Master<MemoryFleet>,
    map: &mut VersionedMap,
    asks: &[Ask],
) -> bool {
    let mut are_same = true;
    for ask in asks {
        are_same = are_same && is_same_step(alloc, master, map, ask);
    }
    are_same
}

/// Whether a new master replies to these commands as the plain map does, whether its head then means that map, and
/// whether its replicas do once all is pushed.
pub fn is_the_plain_map(alloc: Global, master: &mut Master<MemoryFleet>, asks: &[Ask]) -> bool {
    let mut map = VersionedMap::new(alloc);
    push(master, 2);
    let is_same = are_same_steps(alloc, master, &mut map, asks) && map.safe().get() == 5;
    let is_meant = is_meant(alloc, master, &map);
    push(master, 2 * asks.len());
    is_same && is_meant && is_rebuilt(alloc, master.fleet(), &map)
}
