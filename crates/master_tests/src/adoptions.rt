//! Masters that adopt what was recovered of the one before them, or don't.

ghost use Rattle.std.specs.Prelude.{◌≡◌, ◌≤◌, ◌==◌, ℕ, None, IfSome};
ghost use Rattle.std.specs.List.{list_any};
ghost use Rattle.backup.specs.State.{fleet_state};
ghost use Rattle.recovery.specs.master.Registry.{IsUnraised};
ghost use Rattle.recovery.specs.master.master_state.Config.{config_fault};
ghost use Rattle.replica.specs.declared.holding.Holding.{Holding as HoldingValue};

use crate::answers::{Call, passed, run};
use crate::asks::Ask;
use crate::asks::Ask::{Delete, Get, Push, Put, Roll, Write};
use crate::comparisons::rebuilt;
use crate::masters::{config_of, new_master};
use backup::MemoryFleet;
use recovery::master::{Config, If, Master, Refusal};
use recovery::replay::{Rebuilt, adopt, seglets_needed};
use replica::{Bench, Fleet, Holding};
use std::alloc::Global;

/// Whether one of these replicas is of the master.
fn has_replica(holdings: &[Holding<'_>], master: u64) -> bool
    ensures { result ≡ list_any (λ (h : HoldingValue). h.master == master) holdings.now }
{
    holdings.iter().any(|holding| holding.master == master)
}

/// The configuration of master 2, if it can be made on the fleet: that has the backups, and no replica of such a
/// master.
fn config_on(alloc: Global, fleet: &MemoryFleet, seglets: u64) -> Option<Config>
    ensures checked { IfSome result (λ config. config_fault config ≡ None) }
    ensures backups { IfSome result (λ config. config.backups ≤ (fleet_state fleet.now).backups) }
    ensures none { IfSome result (λ config.
        (b s : ℕ) → (fleet_state fleet.now).picture b config.master s ≡ None) }
    ensures least { IfSome result (λ config. IsUnraised config.master (fleet_state fleet.now)) }
{
    let config = config_of(alloc, 2, seglets)?;
    let Ok(inventory) = fleet.inventory(alloc) else {
        return None;
    };
    if has_replica(inventory.as_slice(), config.master) {
        return None;
    }
    if fleet.backups() < config.backups || fleet.least(config.master) != 0 {
        return None;
    }
    Some(config)
}

/// The calls of the master that adopts the list. Or the refusal, how many objects the list has that comes back, and its
/// safe version.
type Want = Result<&'static [Call], (Refusal, usize, u64)>;

/// What master 1 is asked, how many ops the fleet takes after that, the seglets of master 2, and what comes of it.
type Row = (&'static [Ask], u64, u64, Want);

fn is_refused(refusal: Refusal, rebuilt: &Rebuilt, want: &Want) -> bool {
    match want {
        Ok(_) => false,
        Err(want) => (refusal, rebuilt.objects.len(), rebuilt.safe.get()) == *want,
    }
}

fn goes_on(alloc: Global, master: &mut Master<MemoryFleet>, want: &Want) -> bool {
    match want {
        Ok(calls) => passed(alloc, master, calls) == calls.len(),
        Err(_) => false,
    }
}

/// A master, or why it did not adopt the list, and what comes back.
type Adopted = Result<Master<MemoryFleet>, (Refusal, Rebuilt, MemoryFleet)>;

fn is_told(alloc: Global, adopted: &mut Adopted, want: &Want) -> bool {
    match adopted {
        Ok(master) => goes_on(alloc, master, want),
        Err((refusal, rebuilt, _)) => is_refused(*refusal, rebuilt, want),
    }
}

fn is_adopted(
    alloc: Global,
    rebuilt: Rebuilt,
    config: Config,
    fleet: MemoryFleet,
    want: &Want,
) -> bool
    requires config { config_fault config ≡ None }
    requires backups { config.backups ≤ (fleet_state fleet).backups }
    requires none { (b s : ℕ) → (fleet_state fleet).picture b config.master s ≡ None }
    requires least { IsUnraised config.master (fleet_state fleet) }
{
    let mut adopted = adopt(alloc, rebuilt, config, fleet);
    is_told(alloc, &mut adopted, want)
}

/// Whether that comes of it if the fleet is what master 1 left.
fn is_followed(alloc: Global, fleet: MemoryFleet, seglets: u64, want: &Want) -> bool {
    let Some(config) = config_on(alloc, &fleet, seglets) else {
        return false;
    };
    match rebuilt(alloc, &fleet) {
        Some(rebuilt) => is_adopted(alloc, rebuilt, config, fleet, want),
        None => false,
    }
}

/// What a new master leaves that was asked this.
fn left(alloc: Global, asks: &[Ask]) -> Option<MemoryFleet> {
    let mut master = new_master(alloc)?;
    let is_run = run(alloc, &mut master, asks);
    let fleet = master.crash();
    if is_run { Some(fleet) } else { None }
}

fn is_lived(alloc: Global, row: &Row) -> bool {
    let (asks, limit, seglets, want) = row;
    let Some(mut fleet) = left(alloc, asks) else {
        return false;
    };
    fleet.limit(*limit);
    is_followed(alloc, fleet, *seglets, want)
}

/// Two keys, of which `a` is put twice.
const SHORT: &[Ask] = &[
    Push(2),
    Put(b"a", b'x', If::Any),
    Put(b"b", b'y', If::Any),
    Put(b"a", b'z', If::Any),
    Push(2),
];

/// Versions rise, and a new key gets the safe version. The replicas of master 1 are there until they are freed.
const AFTER: &[Call] = &[
    Call::Replies(Get(b"a"), ("found", 2)),
    Call::Replies(Get(b"b"), ("found", 2)),
    Call::Replies(Put(b"a", b'w', If::Version(2)), ("ok", 3)),
    Call::Replies(Put(b"c", b'w', If::Absent), ("ok", 3)),
    Call::Replies(Delete(b"b"), ("ok", 2)),
    Call::Replies(Get(b"b"), ("none", 0)),
    Call::Counts(1, 2, 6),
    Call::Holds(&[(1, 1, 1, 143), (1, 2, 1, 90), (2, 1, 1, 143), (2, 2, 1, 90)]),
    Call::Retires,
    Call::Holds(&[(1, 2, 1, 90), (2, 2, 1, 90)]),
];

/// Both objects are on both backups.
const PUSHED: &[Call] = &[
    Call::Counts(1, 0, 0),
    Call::Holds(&[(1, 1, 1, 143), (1, 2, 1, 90), (2, 1, 1, 143), (2, 2, 1, 90)]),
];

/// A value of which four fill a segment.
const QUARTER: &[u8] = &[b'x'; 76];

/// Nine long puts, and a roll before each third.
const NINE: &[Ask] = &[
    Push(2),
    Roll,
    Push(4),
    Write(1, b"a", QUARTER),
    Push(2),
    Write(1, b"b", QUARTER),
    Push(2),
    Write(1, b"c", QUARTER),
    Push(2),
    Roll,
    Push(4),
    Write(1, b"d", QUARTER),
    Push(2),
    Write(1, b"e", QUARTER),
    Push(2),
    Write(1, b"f", QUARTER),
    Push(2),
    Roll,
    Push(4),
    Write(1, b"g", QUARTER),
    Push(2),
    Write(1, b"h", QUARTER),
    Push(2),
    Write(1, b"i", QUARTER),
    Push(2),
];

/// The nine objects are in three segments, and nothing has to be pushed.
const ALL: &[Call] = &[
    Call::Counts(3, 0, 0),
    Call::Replies(Get(b"a"), ("found", 1)),
    Call::Replies(Get(b"i"), ("found", 9)),
];

const ROWS: &[Row] = &[
    (SHORT, u64::MAX, 64, Ok(AFTER)),
    // Two Opens and an Extend of both objects are taken. With one Extend more all is pushed.
    (SHORT, 3, 64, Err((Refusal::Spent, 2, 3))),
    (SHORT, 4, 64, Ok(PUSHED)),
    // Nine objects close two segments of seven seglets each, and three whole segments have to be there, of eight each.
    (NINE, u64::MAX, 37, Err((Refusal::Full, 9, 10))),
    (NINE, u64::MAX, 38, Ok(ALL)),
];

/// How many seglets a new master needs for what master 1 left.
fn needed_on(alloc: Global, fleet: &MemoryFleet) -> Option<u64> {
    let config = config_of(alloc, 2, 64)?;
    match &rebuilt(alloc, fleet) {
        Some(list) => seglets_needed(list, &config),
        None => None,
    }
}

/// How many a new master needs after another one was asked this.
fn needed(alloc: Global, asks: &[Ask]) -> Option<u64> {
    match &left(alloc, asks) {
        Some(fleet) => needed_on(alloc, fleet),
        None => None,
    }
}

#[test]
fn a_master_follows(rt: HostRuntime) {
    for (place, row) in ROWS.iter().enumerate() {
        assert!(rt; is_lived(rt.alloc(), row), "row {place}");
    }
}

#[test]
fn nine_objects_need_38_seglets(rt: HostRuntime) {
    assert!(rt; needed(rt.alloc(), NINE) == Some(38));
}
