//! Rounds of a cleaner for commands that find no room.

use crate::commands::Ask::{self, Put};
use crate::commands::{OVERWRITES, TURNS, serve};
use crate::masters::{config_of, master_of};
use backup::MemoryFleet;
use entry::Row as Ids;
use std::alloc::Global;
use tending::driving::master::{Master, Refusal, Step};
use tending::{Notes, Policy, make_room};

/// Each two bytes that follow one another are a key.
const TEXT: &[u8] = b"abcdefghijklmnopqrstuvwxyz0123456789ABCDEFGHIJKLMNOPQRSTUVWXYZ";

/// What is done before the round.
enum Before {
    /// So many of the commands, in turn.
    Served(usize),
    /// The commands, in turn, until one is refused as Full.
    Filled,
    /// The same. Then a pass over segment 1 begins.
    Cleaning,
    /// The same. Then a backup fails in the next take.
    Faulty,
    /// The same. Then a pass over segment 1 begins, and the fleet takes no more ops.
    Spent,
}

/// The commands, what is done before the round, what the round answers, and whether the next command is accepted then.
type Row = (&'static [Ask], Before, Result<bool, Refusal>, bool);

const ROWS: &[Row] = &[
    // Memory isn't short, so the cleaner begins nothing.
    (OVERWRITES, Before::Served(0), Ok(false), true),
    (OVERWRITES, Before::Served(4), Ok(false), true),
    // Most of the log is dead.
    (OVERWRITES, Before::Filled, Ok(true), true),
    // One round gives back memory, but not as much as the next command's roll needs.
    (TURNS, Before::Filled, Ok(true), false),
    // A pass is under way, and comes to its end first.
    (OVERWRITES, Before::Cleaning, Ok(true), true),
    // A backup fails in the midst, and the cleaner goes on without it.
    (OVERWRITES, Before::Faulty, Ok(true), true),
    // The pass can't be ended.
    (OVERWRITES, Before::Spent, Err(Refusal::Spent), false),
];

/// Serves commands in turn, up to so many, until one is refused. The refusal, if one is.
fn serve_up_to(
    alloc: Global,
    master: &mut Master<MemoryFleet>,
    asks: &[Ask],
    most: usize,
) -> Option<Refusal> {
    for place in 0..most {
        let ask = asks.get(place % asks.len().max(1))?;
        if let Err(refusal) = serve(alloc, master, ask) {
            return Some(refusal);
        }
    }
    None
}

/// Prepares a master for a round. Whether that could be done.
fn prepare(alloc: Global, master: &mut Master<MemoryFleet>, asks: &[Ask], before: &Before) -> bool {
    if let Before::Served(count) = before {
        return serve_up_to(alloc, master, asks, *count).is_none();
    }
    if serve_up_to(alloc, master, asks, 1_000) != Some(Refusal::Full) {
        return false;
    }
    match before {
        Before::Cleaning => begin_pass(alloc, master),
        Before::Faulty => {
            master.fault_at(1, false);
            true
        }
        Before::Spent => {
            master.limit(0);
            begin_pass(alloc, master)
        }
        _ => true,
    }
}

/// Begins a pass over segment 1. Whether that could be done.
fn begin_pass(alloc: Global, master: &mut Master<MemoryFleet>) -> bool {
    match Vec::from_slice(alloc, &[1]) {
        Ok(ids) => master.step(Step::BeginClean(Ids::new(ids))).is_ok(),
        Err(_) => false,
    }
}

/// Whether a round of a new master answers as the row says.
fn is_so(alloc: Global, row: &Row) -> bool {
    let (asks, before, want, is_accepted) = row;
    let Some(config) = config_of(alloc) else {
        return false;
    };
    let policy = Policy::of(&config);
    let Some(mut master) = master_of(alloc, config) else {
        return false;
    };
    if !prepare(alloc, &mut master, asks, before) {
        return false;
    }
    let mut notes = Notes::new(alloc);
    let answer = make_room(&mut master, &policy, &mut notes);
    answer == *want && serve_up_to(alloc, &mut master, asks, 1).is_none() == *is_accepted
}

#[test]
fn a_round_makes_room(rt: HostRuntime) {
    for (place, row) in ROWS.iter().enumerate() {
        assert!(rt; is_so(rt.alloc(), row), "row {place}");
    }
}

/// Gives a new master keys that all stay, with rounds of the cleaner behind each refusal as Full, until a round gives
/// back no seglet. Returns how many keys it took.
fn fill(alloc: Global) -> Option<usize> {
    let config = config_of(alloc)?;
    let policy = Policy::of(&config);
    let mut master = master_of(alloc, config)?;
    let mut notes = Notes::new(alloc);
    let mut taken: usize = 0;
    for _ in 0..100 {
        match serve(
            alloc,
            &mut master,
            &Put(TEXT.get(taken..taken.saturating_add(2))?),
        ) {
            Ok(()) => taken += 1,
            Err(Refusal::Full) => {
                if make_room(&mut master, &policy, &mut notes) == Ok(false) {
                    return Some(taken);
                }
            }
            Err(_) => return None,
        }
    }
    None
}

#[test]
fn a_full_table_stays_full(rt: HostRuntime) {
    assert!(rt; fill(rt.alloc()) == Some(31));
}
