//! The power is cut amid each call of a drill.

use crate::masters::{TABLETS, master};
use crash_fleet::CrashFleet;
use entry::{Key, Value};
use file_drill::{FileDrill, FileDrillFault, run_file_drill};
use recovery::master::{Command, If, Master, Step};
use recovery::{GroupOrder, PlanFault, RecoveryFault, make_will};
use std::alloc::Global;
use take_journal::MemoryDevice;

/// A device that never stops.
const NEVER: u64 = u64::MAX;

/// More than the calls of the backup's device.
const MOST_CALLS: u64 = 32;

/// At most so many calls the devices make before there is a master.
const MAKING: u64 = 20;

/// How many puts a drill makes.
const PUTS: u64 = 2;

fn add_put(alloc: Global, steps: &mut Vec<Step>, key: &[u8]) -> Option<()> {
    let key = Key::new(alloc, 1, key).ok()?;
    let value = Value::from_slice(alloc, b"value").ok()?;
    steps
        .push(Step::Apply(0, Command::Put(key, value, If::Any)))
        .ok()?;
    steps.push(Step::Push).ok()
}

/// The head is opened, two keys are put, and each put is pushed.
fn steps(alloc: Global) -> Option<Vec<Step>> {
    let mut steps = Vec::new(alloc);
    steps.push(Step::Push).ok()?;
    add_put(alloc, &mut steps, b"a")?;
    add_put(alloc, &mut steps, b"b")?;
    Some(steps)
}

/// A drill that keeps the backup.
fn drilled(
    alloc: Global,
    master: Master<CrashFleet<MemoryDevice>>,
) -> Option<Result<FileDrill<MemoryDevice>, FileDrillFault>> {
    let Some(steps) = steps(alloc) else {
        return None;
    };
    match make_will(alloc, TABLETS, &[], u64::MAX, u64::MAX) {
        Ok(will) => Some(run_file_drill(
            alloc,
            master,
            steps.as_slice(),
            &[0],
            &will,
            &GroupOrder::Forward,
        )),
        Err(_) => None,
    }
}

/// Whether the head is lost.
fn is_no_head(fault: &RecoveryFault) -> bool {
    match fault {
        RecoveryFault::Plan(PlanFault::NoHead) => true,
        _ => false,
    }
}

/// Whether each durable put was recovered, and whether all were durable if no device stopped.
fn is_kept(drill: &FileDrill<MemoryDevice>, is_whole: bool) -> bool {
    let durable = drill.durable;
    let are_all = !is_whole || durable == PUTS;
    let are_kept = match &drill.recovered {
        Ok(rebuilt) => rebuilt.objects.len() as u64 >= durable,
        Err(fault) => is_no_head(fault) && durable == 0,
    };
    are_all && are_kept
}

/// Whether a drill keeps what is durable if the devices of the backup and of the registry stop at these calls.
fn survives(alloc: Global, backup: u64, registry: u64) -> bool {
    let Some(master) = master(alloc, backup, registry) else {
        return backup <= MAKING;
    };
    match drilled(alloc, master) {
        Some(Ok(drill)) => is_kept(&drill, backup == NEVER),
        _ => false,
    }
}

/// The first stop after which a durable put is lost.
fn first_loss(alloc: Global, registry: u64) -> Option<u64> {
    for backup in 1..MOST_CALLS {
        if !survives(alloc, backup, registry) {
            return Some(backup);
        }
    }
    None
}

/// The first stop of the registry's device at which there is a master.
fn first_made(alloc: Global) -> u64 {
    for registry in 1..MAKING {
        if master(alloc, NEVER, registry).is_some() {
            return registry;
        }
    }
    NEVER
}

#[test]
fn each_stop_keeps_what_is_durable(rt: HostRuntime) {
    let alloc = rt.alloc();
    assert!(rt; survives(alloc, NEVER, NEVER));
    assert_eq!(rt; first_loss(alloc, NEVER), None);
    assert_eq!(rt; first_loss(alloc, first_made(alloc)), None);
}
