//! One call of a thread, which waits for room.

ghost use Rattle.std.specs.Prelude.{◌≡◌, ◌≤◌, ◌+◌, OnOk};
ghost use Rattle.loads.specs.Asks.{HasAsked};

use crate::cleaning::{Cleaned, Cleaner, clean_a_little, clean_behind};
use counted_calls::locked_log::{CallFault, Naming, Notes, Policy, Seat, Store};
use counted_calls::master::{Command, Refusal, Reply};
use replica::Fleet;
use std::sync::Wait;
use std::thread;

/// How often a call that finds the history full has the store forget, and is made again, at most.
const MOST_TRIES: u64 = 131_072;

/// How often a thread that finds no room cleans a little and calls again, at most.
const MOST_TURNS: u64 = 262_144;

/// There is no room for good if the cleaner has no step in so many turns that follow on one another.
const MOST_IDLE: u64 = 64;

/// What came of a try.
#[derive(Drop)]
pub(crate) enum Asked {
    Answered(Reply),
    /// There is no record, and nothing changed.
    Refused(Refusal),
    /// There may be a record.
    Left(CallFault),
}

/// Tries a call once.
fn ask_once<F: Fleet, B: Naming, R: Wait>(
    rt: &R,
    store: &Store<F, B>,
    seat: &mut Seat<B>,
    command: &Command,
) -> Asked
    ensures { HasAsked seat.old result seat.new }
{
    match store.ask(rt, seat, command) {
        Ok((reply, _receipt)) => Asked::Answered(reply),
        Err(fault) => match fault {
            CallFault::Refused(refusal) => Asked::Refused(refusal),
            other => Asked::Left(other),
        },
    }
}

/// Calls, and cleans by turns until there is room. It is refused as Full only if there is no room for good: the cleaner
/// has no step in 64 turns, or 262,144 turns made no room.
fn ask_and_clean<F: Fleet, B: Naming, R: Wait>(
    rt: &R,
    store: &Store<F, B>,
    seat: &mut Seat<B>,
    command: &Command,
    policy: &Policy,
    notes: &mut Notes,
) -> Asked
    ensures { HasAsked seat.old result seat.new }
{
    let mut idle: u64 = 0;
    for _ in 0..MOST_TURNS {
        match ask_once(rt, store, seat, command) {
            Asked::Refused(Refusal::Full) => {}
            other => return other,
        }
        match clean_a_little(rt, store, policy, notes) {
            Cleaned::Steps => idle = 0,
            Cleaned::Nothing => {
                idle = idle.saturating_add(1);
                thread::yield_now();
            }
            Cleaned::Refused(refusal) => return Asked::Refused(refusal),
        }
        if idle >= MOST_IDLE {
            return Asked::Refused(Refusal::Full);
        }
    }
    Asked::Refused(Refusal::Full)
}

/// Tries a call. If it finds no room, it waits until no other thread cleans, and then cleans and calls by turns. So
/// threads that find no room sleep, but for the one that makes it.
fn ask_for_room<F: Fleet, B: Naming, R: Wait>(
    rt: &R,
    store: &Store<F, B>,
    seat: &mut Seat<B>,
    command: &Command,
    policy: &Policy,
    cleaner: &Cleaner,
) -> Asked
    ensures { HasAsked seat.old result seat.new }
{
    match ask_once(rt, store, seat, command) {
        Asked::Refused(Refusal::Full) => {}
        other => return other,
    }
    let mut held = cleaner.wait(rt);
    ask_and_clean(rt, store, seat, command, policy, &mut *held)
}

/// Whether the command writes to the log.
fn is_put(command: &Command) -> bool {
    match command {
        Command::Get(_) => false,
        _ => true,
    }
}

/// Makes one call, and answers its reply once its record is durable. If it is refused for want of room in the log or in
/// the history, the thread cleans or forgets, and calls again. A refusal as Full or as HistoryFull is for good. Behind
/// a put it cleans a little while memory is short.
pub(crate) fn ask<F: Fleet, B: Naming, R: Wait>(
    rt: &R,
    store: &Store<F, B>,
    seat: &mut Seat<B>,
    command: &Command,
    policy: &Policy,
    cleaner: &Cleaner,
) -> Result<Reply, CallFault>
    ensures number { seat.new.number ≡ seat.old.number }
    ensures count { seat.old.count ≤ seat.new.count }
    ensures one { OnOk result (seat.new.count ≡ seat.old.count + 1) }
{
    for _ in 0..MOST_TRIES {
        match ask_for_room(rt, store, seat, command, policy, cleaner) {
            Asked::Answered(reply) => {
                if is_put(command) {
                    clean_behind(rt, store, policy, cleaner);
                }
                return Ok(reply);
            }
            Asked::Left(fault) => return Err(fault),
            Asked::Refused(Refusal::HistoryFull) => {
                let _forgotten = store.forget(rt);
                thread::yield_now();
            }
            Asked::Refused(refusal) => return Err(CallFault::Refused(refusal)),
        }
    }
    Err(CallFault::Refused(Refusal::HistoryFull))
}
