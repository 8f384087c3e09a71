//! Days of clients over a master: what it has done in the morning, its clients and its cleaner, and what there is at
//! the end. Each client's records are its own rounds, and its gate is told of its first put once that was answered.

use crate::masters::{HALTING, Morning, RECORDS, has_no_pass, prepare, small_master};
use crate::slow::Watch;
use gate::{Gate, NoGate};
use holding::Holding;
use replica::Fleet;
use std::alloc::Global;
use std::sync::Wait;
use std::test::Fail;
use std::thread::Threads;
use store_clients::locked_log::CallFault;
use store_clients::master::{CommandRef, Master, RecordRef, Refusal, ReplyRef};
use store_clients::{Outcome, Workload, clients_over};

/// How many clients, how many rounds of each, and how many passes.
type Work = (u64, u64, u64);

/// The morning, the work, and what there is at the end: the count of accepted calls, or `None` for HistoryFull; the
/// value that the last record found, or nothing; the records; and the head. No pass is open then.
type Day = (Morning, Work, Option<u64>, &'static [u8], usize, u64);

/// A pass takes the number of its survivor, and its commit that of a head.
const DAYS: &[Day] = &[
    (Morning::New, (2, 3, 0), Some(12), b"3", 12, 1),
    (Morning::New, (0, 3, 1), Some(0), b"", 0, 1),
    (Morning::New, (3, 0, 0), Some(0), b"", 0, 1),
    (Morning::New, (1, 100, 0), None, b"12", 24, 2),
    (Morning::Rolled, (0, 0, 0), Some(0), b"", 0, 2),
    (Morning::Rolled, (0, 0, 1), Some(0), b"", 0, 4),
    (Morning::Rolled, (0, 0, 2), Some(0), b"", 0, 6),
    (Morning::Cleaning, (0, 0, 0), Some(0), b"", 0, 4),
    (Morning::Cleaning, (2, 3, 1), Some(12), b"3", 12, 4),
    (Morning::Served, (2, 3, 0), Some(12), b"3", 16, 1),
    (Morning::Served, (1, 100, 0), None, b"10", 24, 2),
];

/// Whether the last record found this value. Without records it is nothing.
fn has_found<F: Fleet>(master: &Master<F>, value: &[u8]) -> bool {
    let history = master.history();
    if history.is_empty() {
        return value.is_empty();
    }
    match history.get(history.len() - 1) {
        Some(record) => is_found(&record.reply, value),
        None => false,
    }
}

fn is_found(reply: &ReplyRef<'_>, value: &[u8]) -> bool {
    match reply {
        ReplyRef::Found(_, found) => found.bytes == value,
        _ => false,
    }
}

/// The keys of the clients, and the values of their rounds.
const KEYS: &[&[u8]] = &[b"c0", b"c1", b"c2"];

const VALUES: &[&[u8]] = &[
    b"1", b"2", b"3", b"4", b"5", b"6", b"7", b"8", b"9", b"10", b"11", b"12",
];

/// Whether this call of a client with this key, counted from 0, is of its round: a put of the round's number, or a get
/// that finds it.
fn is_of_round(record: &RecordRef<'_>, key: &[u8], call: usize) -> bool {
    let Some(value) = VALUES.get(call / 2) else {
        return false;
    };
    match &record.command {
        CommandRef::Put(of, put, _) => call % 2 == 0 && of.bytes == key && put.bytes == *value,
        CommandRef::Get(of) => call % 2 == 1 && of.bytes == key && is_found(&record.reply, value),
        CommandRef::Delete(_) => false,
    }
}

/// Whether the records of the seat are the rounds of a client with this key.
fn has_rounds<F: Fleet>(master: &Master<F>, seat: u64, key: &[u8]) -> bool {
    let history = master.history();
    let mut calls: usize = 0;
    for place in 0..history.len() {
        match history.get(place) {
            Some(record) if record.seat == seat => {
                if !is_of_round(&record, key, calls) {
                    return false;
                }
                calls = calls.saturating_add(1);
            }
            _ => {}
        }
    }
    true
}

/// Whether each client made its own rounds.
fn has_all_rounds<F: Fleet>(master: &Master<F>) -> bool {
    let mut seat: u64 = 0;
    for key in KEYS {
        seat = seat.saturating_add(1);
        if !has_rounds(master, seat, key) {
            return false;
        }
    }
    true
}

/// Whether it ended as the day says.
fn is_wanted<F: Fleet>(
    alloc: Global,
    master: &mut Master<F>,
    calls: &Result<u64, CallFault>,
    day: &Day,
) -> bool {
    let (_, _, count, value, records, head) = day;
    let is_answered = match calls {
        Ok(n) => *count == Some(*n),
        Err(CallFault::Refused(Refusal::HistoryFull)) => count.is_none(),
        Err(_) => false,
    };
    let has_records = master.history().len() == *records;
    let has_head = master.head() == *head;
    let has_found = has_found(master, value) && has_all_rounds(master);
    is_answered && has_records && has_head && has_found && has_no_pass(alloc, master)
}

/// Whether the day ends as it says.
fn ends_so<R: Threads + Wait + Sync, G: Gate + Sync>(
    rt: &R,
    alloc: Global,
    watch: &Watch,
    day: &Day,
    gate: &G,
) -> bool {
    let Some(mut master) = small_master(alloc, watch, HALTING, RECORDS) else {
        return false;
    };
    prepare(alloc, &mut master, day.0);
    let (clients, rounds, passes) = day.1;
    let work = Workload {
        clients: clients.min(63),
        rounds: rounds.min(1_000_000),
        passes,
    };
    let Outcome {
        mut master,
        calls,
        is_known,
    } = clients_over(rt, alloc, master, RECORDS, work, gate);
    is_known && is_wanted(alloc, &mut master, &calls, day)
}

#[test]
fn days_end_as_wanted(rt: HostRuntime) -> Result<(), Fail> {
    let watch = Watch::new();
    for (at, day) in DAYS.iter().enumerate() {
        assert!(rt; ends_so(&rt, rt.alloc(), &watch, day, &NoGate), "day {at}");
    }
    Ok(())
}

/// Two clients are there at one time.
#[test]
fn clients_overlap(rt: HostRuntime) -> Result<(), Fail> {
    let watch = Watch::new();
    let gate = Holding::new();
    assert!(rt; ends_so(&rt, rt.alloc(), &watch, &DAYS[0], &gate));
    assert!(rt; gate.has_seen());
    Ok(())
}

/// Lets a take that waits go on once a client's first put was answered.
#[derive(Clone, Copy)]
struct Early<'a> {
    watch: &'a Watch,
}

impl<'a> Gate for Early<'a> {
    fn enter(&self, _worker: usize) {
        self.watch.finish();
    }

    fn leave(&self, _worker: usize) {}
}

/// No gate is told of a first put before the takes that have to come first.
#[test]
fn gate_waits_for_a_first_answer(rt: HostRuntime) -> Result<(), Fail> {
    let watch = Watch::new();
    watch.slow_down();
    let gate = Early { watch: &watch };
    assert!(rt; ends_so(&rt, rt.alloc(), &watch, &DAYS[0], &gate));
    assert!(rt; !watch.has_seen());
    Ok(())
}
