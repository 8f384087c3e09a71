//! What the tests have a store do beside its calls: turns of a cleaner, rolls, limits and faults.

use crate::asks::{Do, command_of, is_made};
use crate::slow::Watch;
use replica::{Bench, Fleet};
use std::alloc::Global;
use std::sync::Wait;
use store_clients::locked_log::{CleanTurn, Naming, Notes, Policy, Receipt, Seat, Store};
use store_clients::master::{Look, Refusal, Shown, StepAnswer};

fn kind(answer: &Result<StepAnswer, Refusal>) -> (&'static str, u64, u64) {
    match answer {
        Ok(StepAnswer::Begun(survivors)) => ("begun", survivors.first, survivors.count as u64),
        Ok(StepAnswer::Moved) => ("moved", 0, 0),
        Ok(StepAnswer::Carried) => ("carried", 0, 0),
        Ok(StepAnswer::Dropped) => ("dropped", 0, 0),
        Ok(StepAnswer::Sealed(backup)) => ("sealed", *backup, 0),
        Ok(StepAnswer::Rolling(id)) => ("rolling", *id, 0),
        Ok(StepAnswer::Opened(backup, id)) => ("opened", *backup, *id),
        Ok(StepAnswer::Closed(backup, id)) => ("closed", *backup, *id),
        Ok(StepAnswer::Freed(id, backup)) => ("freed", *id, *backup),
        Ok(_) => ("other", 0, 0),
        Err(_) => ("refused", 0, 0),
    }
}

pub fn turns<F: Fleet, B: Naming, R: Wait>(
    rt: &R,
    store: &Store<F, B>,
    want: (&'static str, u64, u64),
) -> bool {
    let kind = kind(&store.turn(rt, CleanTurn::Next));
    kind == want
}

/// The policy of a cleaner for a small master.
const POLICY: Policy = Policy {
    segment: 512,
    seglet: 64,
    spare: 4,
    stored: 130,
    stones: 25,
};

/// Has a cleaner tend the log until it rests, or has made 16 steps. How many it made, or `None` after a refusal.
fn tend<F: Fleet, B: Naming, R: Wait>(
    rt: &R,
    store: &Store<F, B>,
    notes: &mut Notes,
) -> Option<u64> {
    for made in 0..16 {
        match store.tend(rt, &POLICY, notes) {
            Ok(Some(_)) => {}
            Ok(None) => return Some(made),
            Err(_) => return None,
        }
    }
    Some(16)
}

/// Makes the call so many times, and has a cleaner tend the log behind each. Whether each was answered, and the cleaner
/// made a step, or none, as wanted.
pub fn is_tended<F: Fleet, B: Naming, R: Wait>(
    rt: &R,
    alloc: Global,
    store: &Store<F, B>,
    seat: &mut Seat<B>,
    what: &Do,
    times: u64,
    want: bool,
) -> bool {
    let mut notes = Notes::new(alloc);
    let mut steps: u64 = 0;
    for _ in 0..times {
        if !is_made(rt, store, seat, command_of(alloc, what)) {
            return false;
        }
        match tend(rt, store, &mut notes) {
            Some(made) => steps = steps.saturating_add(made),
            None => return false,
        }
    }
    (steps > 0) == want
}

pub fn limits<F: Bench, B: Naming, R: Wait>(rt: &R, store: &Store<F, B>, takes: u64) -> bool {
    store.limit(rt, takes);
    true
}

pub fn runs_short(watch: &Watch) -> bool {
    watch.run_short();
    true
}

pub fn faults<F: Bench, B: Naming, R: Wait>(rt: &R, store: &Store<F, B>, number: u64) -> bool {
    store.fault_at(rt, number, false);
    true
}

/// Whether so many rolls were made, of four pushes each.
pub fn rolls<F: Fleet, B: Naming, R: Wait>(rt: &R, store: &Store<F, B>, times: u64) -> bool {
    for _ in 0..times {
        if !makes(rt, store, CleanTurn::BeginRoll) {
            return false;
        }
        for _ in 0..4 {
            if !makes(rt, store, CleanTurn::Push) {
                return false;
            }
        }
    }
    true
}

fn makes<F: Fleet, B: Naming, R: Wait>(rt: &R, store: &Store<F, B>, turn: CleanTurn) -> bool {
    store.turn(rt, turn).is_ok()
}

/// Whether so many seglets are used, and no take was asked for.
pub fn looks<F: Fleet, B: Naming, R: Wait>(
    rt: &R,
    store: &Store<F, B>,
    watch: &Watch,
    used: u64,
) -> bool {
    let before = watch.takes();
    let is_wanted = match &store.look(rt, Look::Room) {
        Ok(Shown::Room(in_use, _)) => *in_use == used,
        _ => false,
    };
    is_wanted && watch.takes() == before
}

pub fn meets<F: Fleet, B: Naming, R: Wait>(
    rt: &R,
    store: &Store<F, B>,
    seat: &mut Seat<B>,
    receipts: &[Receipt<B>],
    at: usize,
) -> bool {
    match receipts.get(at) {
        Some(receipt) => store.meet(rt, seat, receipt),
        None => false,
    }
}
