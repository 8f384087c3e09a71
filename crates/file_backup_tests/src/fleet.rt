//! A fleet of three backups, one of whose devices stops, or its registry's, and what the next start finds.

ghost use Rattle.std.specs.Prelude.{◌≡◌, IfSome};
ghost use Rattle.take_journal.specs.Memory.{memory_bytes, memory_has_failed, memory_leaves};
ghost use Rattle.file_fleet.specs.Members.{AreSafe, IsFresh};
ghost use Rattle.file_fleet.specs.Noting.{IsSound, noted_by};

use crate::memories::{is_after, op_of};
use crate::stopped::{FIRST, WHOLE};
use file_fleet::{FileFleet, FleetRegistry, Member, Members};
use registry_file::RegistryFile;
use registry_text::{ALL_FRAMES, Record};
use replica::{Bench, Fleet, TakeFault};
use std::alloc::Global;
use take_journal::MemoryDevice;

/// A file with a first text and no op.
const BEGUN: &[u8] = b"\x01\x00\x00\x00\x01\x01\x00";

/// How many ops each backup is handed.
const EACH: usize = 20;

/// A device that never stops.
const NEVER: u64 = u64::MAX;

/// A registry that names three journals, if its device doesn't stop before. That takes 20 calls.
fn begun_registry(alloc: Global, stops_at: u64) -> Option<RegistryFile<MemoryDevice>>
    ensures { IfSome result (λ r. IsSound memory_bytes memory_leaves memory_has_failed r) }
{
    let Ok(device) = MemoryDevice::new(alloc, b"", stops_at, WHOLE) else {
        return None;
    };
    let mut registry = RegistryFile::new(alloc, device);
    let _ = registry.begin(alloc, 7, &[]);
    for backup in 0..3 {
        let record = Record::Journal {
            backup,
            id: backup + 1,
            count: ALL_FRAMES,
        };
        let _ = registry.put(alloc, &record);
    }
    if registry.is_out() {
        return None;
    }
    Some(registry)
}

/// A registry over what a crash left.
fn found_registry(alloc: Global, disk: &[u8]) -> Option<RegistryFile<MemoryDevice>>
    ensures { IfSome result (λ r. IsSound memory_bytes memory_leaves memory_has_failed r) }
{
    let Ok(device) = MemoryDevice::new(alloc, disk, NEVER, WHOLE) else {
        return None;
    };
    let mut registry = RegistryFile::new(alloc, device);
    let _ = registry.open(alloc, disk);
    if registry.is_out() {
        return None;
    }
    Some(registry)
}

/// Adds a backup whose file has these bytes.
fn add_member(
    alloc: Global,
    members: &mut Members<MemoryDevice, RegistryFile<MemoryDevice>>,
    disk: &[u8],
    stops_at: u64,
) -> bool
    requires { AreSafe memory_bytes memory_leaves memory_has_failed (λ r. noted_by r)
        (λ r. IsSound memory_bytes memory_leaves memory_has_failed r) members.old }
    ensures { AreSafe memory_bytes memory_leaves memory_has_failed (λ r. noted_by r)
        (λ r. IsSound memory_bytes memory_leaves memory_has_failed r) members.new }
{
    match MemoryDevice::new(alloc, disk, stops_at, WHOLE) {
        Ok(device) => {
            let backup = members.backups();
            let mut member = Member::new(alloc, members.registry().file(backup), device);
            let span = members.registry().span(backup);
            match member.open(alloc, span, disk) {
                Ok(()) => members.add(member).is_ok(),
                Err(_) => false,
            }
        }
        Err(_) => false,
    }
}

/// Hands each backup its ops in turn. How many each took.
fn take_each(
    alloc: Global,
    fleet: &mut FileFleet<MemoryDevice, RegistryFile<MemoryDevice>>,
) -> [usize; 3] {
    let mut counts = [0; 3];
    for number in 0..3 * EACH {
        let backup = number % 3;
        match fleet.take(backup as u64, &op_of(counts[backup])) {
            Ok(()) => counts[backup] = counts[backup].saturating_add(1),
            Err(_) => {}
        }
    }
    counts
}

/// Whether the backups hold what they took. Where `more` says so, one may hold an op more.
fn hold_counts(
    alloc: Global,
    members: &[Member<MemoryDevice>],
    counts: [usize; 3],
    more: bool,
) -> bool {
    if members.len() != 3 {
        return false;
    }
    for i in 0..3 {
        let memory = members[i].backup().memory();
        if !is_after(alloc, memory, counts[i])
            && !(more && is_after(alloc, memory, counts[i].saturating_add(1)))
        {
            return false;
        }
    }
    true
}

/// Whether the next start finds what was answered.
fn is_found(
    alloc: Global,
    old: &Members<MemoryDevice, RegistryFile<MemoryDevice>>,
    counts: [usize; 3],
    more: bool,
) -> bool {
    let Some(registry) = found_registry(alloc, old.registry().journal().device().disk()) else {
        return false;
    };
    let mut members = Members::new(alloc, registry);
    let list = old.list();
    for i in 0..list.len() {
        // The registry has to name the file that the backup goes on in.
        if members.registry().file(i as u64) != list[i].id() {
            return false;
        }
        if !add_member(
            alloc,
            &mut members,
            list[i].backup().journal().device().disk(),
            NEVER,
        ) {
            return false;
        }
    }
    hold_counts(alloc, members.list(), counts, more)
}

/// What stops: the device of a backup, that of the registry, and how many ops each backup takes then.
struct Row {
    stops: [u64; 3],
    registry: u64,
    counts: [usize; 3],
}

const ROWS: &[Row] = &[
    // nothing stops
    Row {
        stops: [NEVER; 3],
        registry: NEVER,
        counts: [EACH; 3],
    },
    // four calls open a file, and each take makes four
    Row {
        stops: [NEVER, 17, NEVER],
        registry: NEVER,
        counts: [EACH, 3, EACH],
    },
    Row {
        stops: [5, NEVER, 32],
        registry: NEVER,
        counts: [0, EACH, 6],
    },
    // the registry can't note the second failure, and the fleet is halted
    Row {
        stops: [NEVER, 17, 31],
        registry: 25,
        counts: [7, 3, 6],
    },
];

fn survives(alloc: Global, row: &Row) -> bool {
    let Some(registry) = begun_registry(alloc, row.registry) else {
        return false;
    };
    let mut members = Members::new(alloc, registry);
    for i in 0..3 {
        if !add_member(alloc, &mut members, BEGUN, row.stops[i]) {
            return false;
        }
    }
    let mut fleet = FileFleet::new(alloc, members);
    let counts = take_each(alloc, &mut fleet);
    counts == row.counts
        && hold_counts(alloc, fleet.members().list(), counts, false)
        && is_found(alloc, fleet.members(), counts, row.registry != NEVER)
}

// ---- what is asked of a fleet

fn is_fault(answer: Result<(), TakeFault>) -> bool {
    match answer {
        Err(TakeFault::Fault) => true,
        _ => false,
    }
}

/// Whether two faults come when they are asked for. Backup 0 takes four ops.
fn meets_faults(fleet: &mut FileFleet<MemoryDevice, RegistryFile<MemoryDevice>>) -> bool {
    fleet.fault_at(2, false);
    let one = fleet.take(0, &op_of(0)).is_ok();
    let is_lost = is_fault(fleet.take(0, &op_of(1)));
    let two = fleet.take(0, &op_of(1)).is_ok();
    fleet.fault_at(1, true);
    let is_taken = is_fault(fleet.take(0, &op_of(2)));
    let four = fleet.take(0, &op_of(3)).is_ok();
    one && is_lost && two && is_taken && four && fleet.faults() == 2
}

/// Whether a limit stops the fleet, and a retirement frees the two replicas that are left: they are another master's.
fn meets_limit(fleet: &mut FileFleet<MemoryDevice, RegistryFile<MemoryDevice>>) -> bool {
    fleet.limit(1);
    let is_taken = fleet.take(0, &op_of(1)).is_ok();
    let is_spent = match fleet.take(1, &op_of(1)) {
        Err(TakeFault::Spent) => true,
        _ => false,
    };
    fleet.limit(u64::MAX);
    is_taken && is_spent && fleet.retire(1).is_ok() && fleet.takes() == 9
}

/// A backup that holds nothing, with a file of its own.
fn begun_member(alloc: Global, id: u64) -> Option<Member<MemoryDevice>>
    requires { id ≡ 0 → ⊥ }
    ensures { IfSome result (λ m. IsFresh memory_bytes memory_leaves memory_has_failed m) }
{
    match MemoryDevice::new(alloc, b"", NEVER, WHOLE) {
        Ok(device) => {
            let mut member = Member::new(alloc, id, device);
            match member.begin(alloc, FIRST) {
                Ok(()) => Some(member),
                Err(_) => None,
            }
        }
        Err(_) => None,
    }
}

/// The id of the first backup's file.
fn first_id(list: &[Member<MemoryDevice>]) -> Option<u64> {
    Some(list.first()?.id())
}

/// Whether a backup that is lost is empty, and takes ops in its new file.
fn meets_loss(
    alloc: Global,
    fleet: &mut FileFleet<MemoryDevice, RegistryFile<MemoryDevice>>,
) -> bool {
    match begun_member(alloc, 9) {
        Some(next) => {
            fleet.lose(0, next).is_ok()
                && first_id(fleet.members().list()) == Some(9)
                && hold_counts(alloc, fleet.members().list(), [0; 3], false)
                && fleet.take(0, &op_of(0)).is_ok()
                && fleet.take(1, &op_of(0)).is_ok()
        }
        None => false,
    }
}

/// Clients in threads share a fleet under a lock, so it has to go from thread to thread.
fn may_be_sent<T: Send>(_value: &T) -> bool {
    true
}

fn meets_requests(alloc: Global) -> bool {
    let Some(registry) = begun_registry(alloc, NEVER) else {
        return false;
    };
    let mut members = Members::new(alloc, registry);
    for i in 0..3 {
        if !add_member(alloc, &mut members, BEGUN, NEVER) {
            return false;
        }
    }
    let mut fleet = FileFleet::new(alloc, members);
    may_be_sent(&fleet)
        && meets_faults(&mut fleet)
        && hold_counts(alloc, fleet.members().list(), [4, 0, 0], false)
        && is_found(alloc, fleet.members(), [4, 0, 0], false)
        && meets_loss(alloc, &mut fleet)
        && is_found(alloc, fleet.members(), [1, 1, 0], false)
        && meets_limit(&mut fleet)
        && hold_counts(alloc, fleet.members().list(), [0; 3], false)
        && is_found(alloc, fleet.members(), [0; 3], false)
}

#[test]
fn a_fleet_meets_what_is_asked(rt: HostRuntime) {
    assert!(rt; meets_requests(rt.alloc()));
}

fn first_loss(alloc: Global) -> Option<usize> {
    for i in 0..ROWS.len() {
        if !survives(alloc, &ROWS[i]) {
            return Some(i);
        }
    }
    None
}

#[test]
fn a_fleet_finds_what_it_answered(rt: HostRuntime) {
    assert_eq!(rt; first_loss(rt.alloc()), None);
}
