//! Commands that come again and again, with a cleaner and without one.

use crate::commands::Ask::{Delete, Put};
use crate::masters::{config_of, master_of};
use backup::MemoryFleet;
use entry::{Key, Value};
use std::alloc::Global;
use tending::driving::master::{Command, If, Master, Refusal, Step};
use tending::driving::{push_all, roll_all};
use tending::{Notes, Policy, tend};

/// A command on a key of table 1.
#[derive(Clone, Copy)]
pub enum Ask {
    /// A put of 40 bytes.
    Put(&'static [u8]),
    Delete(&'static [u8]),
}

/// The command of an ask.
fn command_of(alloc: Global, ask: &Ask) -> Option<Command> {
    match ask {
        Ask::Put(key) => {
            let value = Value::from_slice(alloc, &[b'x'; 40]).ok()?;
            Some(Command::Put(Key::new(alloc, 1, key).ok()?, value, If::Any))
        }
        Ask::Delete(key) => Some(Command::Delete(Key::new(alloc, 1, key).ok()?)),
    }
}

/// Applies a command, and pushes until its record is durable.
fn try_once(alloc: Global, master: &mut Master<MemoryFleet>, ask: &Ask) -> Result<(), Refusal> {
    let Some(command) = command_of(alloc, ask) else {
        return Err(Refusal::NoMemory);
    };
    match master.step(Step::Apply(0, command)) {
        Ok(_) => push_all(master),
        Err(refusal) => Err(refusal),
    }
}

/// The same, after a roll if the head has no room.
pub fn serve(alloc: Global, master: &mut Master<MemoryFleet>, ask: &Ask) -> Result<(), Refusal> {
    if let Err(refusal) = try_once(alloc, master, ask) {
        if refusal != Refusal::Rolling {
            return Err(refusal);
        }
        roll_all(master)?;
        return try_once(alloc, master, ask);
    }
    Ok(())
}

/// What is asked in turn, how many commands come, how many steps the cleaner may make after each of them, which take of
/// the fleet ends in a fault (0: none does), and the refusal that stops it all, if one does.
type Row = (&'static [Ask], usize, u64, u64, Option<Refusal>);

/// Gives a master the commands of a row. The first refusal, of a command or of the cleaner.
fn stopped(
    alloc: Global,
    master: &mut Master<MemoryFleet>,
    policy: &Policy,
    row: &Row,
) -> Option<Refusal> {
    let (asks, count, most, fault, _) = row;
    let mut notes = Notes::new(alloc);
    master.fault_at(*fault, true);
    for place in 0..*count {
        let Some(ask) = asks.get(place % asks.len().max(1)) else {
            return None;
        };
        if let Err(refusal) = serve(alloc, master, ask) {
            return Some(refusal);
        }
        if let Err(refusal) = tend(master, policy, &mut notes, *most) {
            return Some(refusal);
        }
    }
    None
}

/// Whether a new master, given the commands of a row, stops as it says.
fn is_so(alloc: Global, row: &Row) -> bool {
    let Some(config) = config_of(alloc) else {
        return false;
    };
    let policy = Policy::of(&config);
    match master_of(alloc, config) {
        Some(mut master) => stopped(alloc, &mut master, &policy, row) == row.4,
        None => false,
    }
}

/// Four keys, again and again.
pub const OVERWRITES: &[Ask] = &[Put(b"a"), Put(b"b"), Put(b"c"), Put(b"d")];

/// One key that comes and goes.
pub const TURNS: &[Ask] = &[Put(b"a"), Delete(b"a")];

const ROWS: &[Row] = &[
    (OVERWRITES, 400, 0, 0, Some(Refusal::Full)),
    (OVERWRITES, 400, 16, 0, None),
    (TURNS, 1000, 0, 0, Some(Refusal::Full)),
    (TURNS, 1000, 16, 0, None),
    // A backup fails in one of four takes that follow one another.
    (OVERWRITES, 400, 16, 97, None),
    (OVERWRITES, 400, 16, 98, None),
    (OVERWRITES, 400, 16, 99, None),
    (OVERWRITES, 400, 16, 100, None),
];

#[test]
fn a_cleaner_leaves_room(rt: HostRuntime) {
    for (place, row) in ROWS.iter().enumerate() {
        assert!(rt; is_so(rt.alloc(), row), "row {place}");
    }
}
