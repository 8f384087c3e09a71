//! Logs that are rebuilt by workers, by wills, in several orders of their groups.

use crate::divided::will_of;
use crate::logs::*;
use crate::rebuilds::{LEFT, ORDERED, Ordered, plan_of};
use gate::{Gate, NoGate};
use holding::Holding;
use rebuild_threads::rebuild_threads;
use std::alloc::Global;
use std::sync::Wait;
use std::sync::atomic::{AtomicU64, Ordering};
use std::thread;
use std::thread::Threads;

/// How many workers there are.
const WORKERS: &[usize] = &[1, 2, 3, 64];

fn is_rebuilt_by<R: Threads + Wait + Sync, G: Gate + Sync>(
    rt: &R,
    alloc: Global,
    row: &Ordered,
    workers: usize,
    gate: &G,
) -> bool {
    let (log, table, partitions, order, want) = row;
    let workers = workers.clamp(1, 64);
    let Some(texts) = texts_of(alloc, log) else {
        return false;
    };
    match (
        &plan_of(alloc, 0, texts.as_slice()),
        &will_of(alloc, *table, *partitions),
    ) {
        (Some(plan), Some(will)) => is_outcome(
            alloc,
            &rebuild_threads(rt, alloc, plan, will, order, workers, gate),
            want,
        ),
        _ => false,
    }
}

/// However many workers there are, a log is rebuilt to the same, and refused for the same.
#[test]
fn logs_are_rebuilt_by_workers(rt: HostRuntime) {
    for workers in WORKERS {
        for (place, row) in ORDERED.iter().enumerate() {
            let is_same = is_rebuilt_by(&rt, rt.alloc(), row, *workers, &NoGate);
            assert!(rt; is_same, "row {place}, {workers} workers");
        }
    }
}

/// A log of three segments in two partitions.
const OVERLAP: &Ordered = &(LOG, 1, 2, &[0, 1, 2, 3, 4, 5], LEFT);

/// Two workers are there at one time.
#[test]
fn workers_overlap(rt: HostRuntime) {
    let gate = Holding::new();
    assert!(rt; is_rebuilt_by(&rt, rt.alloc(), OVERLAP, 2, &gate));
    assert!(rt; gate.has_seen());
}

/// How many turns a worker waits at most.
const TURNS: u64 = 1_000_000;

/// Holds a worker at its start for its turns, or until another is at its end.
#[derive(Drop)]
struct Late {
    held: usize,
    other: usize,
    /// 1 once the other is at its end.
    ended: AtomicU64,
    /// 1 once the held one has seen that.
    seen: AtomicU64,
}

impl Gate for Late {
    fn enter(&self, worker: usize) {
        if worker != self.held {
            return;
        }
        for _ in 0..TURNS {
            if self.ended.load(Ordering::SeqCst) == 1 {
                self.seen.store(1, Ordering::SeqCst);
                return;
            }
            thread::yield_now();
        }
    }

    fn leave(&self, worker: usize) {
        if worker == self.other {
            self.ended.store(1, Ordering::SeqCst);
        }
    }
}

/// Six segments in two partitions. The six groups of partition 0 come first.
const SIX: &Ordered = &(
    &[&[ONE, A_1_X], &[TWO], &[THREE], &[FOUR], &[FIVE], &[LAST]],
    1,
    2,
    &[0, 2, 4, 6, 8, 10, 1, 3, 5, 7, 9, 11],
    Ok((&[(1, b"a", 1, b"x")], 2)),
);

/// Four segments in six partitions.
const WIDE: &Ordered = &(
    &[&[ONE, A_1_X], &[TWO], &[THREE], &[FOUR]],
    1,
    6,
    &[
        0, 1, 2, 3, 4, 5, 6, 7, 8, 9, 10, 11, 12, 13, 14, 15, 16, 17, 18, 19, 20, 21, 22, 23,
    ],
    Ok((&[(1, b"a", 1, b"x")], 2)),
);

/// A log, how many workers there are, which of them is held until which other is at its end, and whether it sees that.
type Held = (&'static Ordered, usize, usize, usize, bool);

/// Partition p is of worker p % workers, and no more than four groups wait for a worker. If more are sent to the held
/// one, the calling thread waits for it, and no other has an end.
const HELD: &[Held] = &[
    // each has one partition: six groups
    (SIX, 2, 0, 1, false),
    (SIX, 2, 1, 0, false),
    // workers 0 and 1 have two partitions: eight groups; workers 2 and 3 have four
    (WIDE, 4, 0, 1, false),
    (WIDE, 4, 1, 2, false),
    (WIDE, 4, 2, 3, true),
    (WIDE, 4, 3, 2, true),
];

fn is_held<R: Threads + Wait + Sync>(rt: &R, alloc: Global, row: &Held) -> bool {
    let (log, workers, held, other, sees) = row;
    let gate = Late {
        held: *held,
        other: *other,
        ended: AtomicU64::new(0),
        seen: AtomicU64::new(0),
    };
    let is_same = is_rebuilt_by(rt, alloc, log, *workers, &gate);
    let has_seen = gate.seen.load(Ordering::SeqCst) == 1;
    is_same && has_seen == *sees
}

#[test]
fn groups_wait_for_their_worker(rt: HostRuntime) {
    for (place, row) in HELD.iter().enumerate() {
        assert!(rt; is_held(&rt, rt.alloc(), row), "row {place}");
    }
}

/// Counts the workers that begin, and those that end.
#[derive(Drop)]
struct Counting {
    begun: AtomicU64,
    ended: AtomicU64,
}

impl Gate for Counting {
    fn enter(&self, _worker: usize) {
        self.begun.fetch_add(1, Ordering::SeqCst);
    }

    fn leave(&self, _worker: usize) {
        self.ended.fetch_add(1, Ordering::SeqCst);
    }
}

/// Whether so many workers begin and end.
fn are_counted<R: Threads + Wait + Sync>(rt: &R, alloc: Global, workers: usize) -> bool {
    let gate = Counting {
        begun: AtomicU64::new(0),
        ended: AtomicU64::new(0),
    };
    let is_same = is_rebuilt_by(rt, alloc, OVERLAP, workers, &gate);
    let begun = gate.begun.load(Ordering::SeqCst);
    let ended = gate.ended.load(Ordering::SeqCst);
    is_same && begun == workers as u64 && ended == begun
}

/// Each worker begins and ends, be it without a partition.
#[test]
fn each_worker_begins_and_ends(rt: HostRuntime) {
    for workers in WORKERS {
        assert!(rt; are_counted(&rt, rt.alloc(), *workers), "{workers}");
    }
}
