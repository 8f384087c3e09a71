//! What threads clean: one of them at a time, with what all of them have noted.

use counted_calls::locked_log::{Naming, Notes, Policy, Store};
use counted_calls::master::{Refusal, StepAnswer};
use replica::Fleet;
use std::sync::atomic::{AtomicBool, AtomicU64, Ordering};
use std::sync::{Mutex, MutexGuard, Wait};
use std::thread;
use std::time::{Clock, Duration};

/// How many steps of the cleaner a thread makes at most before it looks about again.
const STEPS: u64 = 16;

/// How often so many steps are made at most before the threads start.
const MOST_AT_FIRST: u64 = 4_096;

/// How many microseconds a cleaner sleeps if there is nothing to clean.
const REST: u64 = 50;

/// How often a thread looks whether no other thread cleans, before it goes on without cleaning.
const LOOKS: u64 = 64;

/// What threads share that clean: what is noted of segments, which one thread at a time has, and whether memory was
/// short when one of them cleaned last.
#[derive(Drop)]
pub(crate) struct Cleaner {
    notes: Mutex<Notes>,
    is_short: AtomicBool,
}

/// What came of a few steps of the cleaner.
#[derive(Drop)]
pub(crate) enum Cleaned {
    /// One was made, or more.
    Steps,
    /// Nothing has to begin, or nothing may.
    Nothing,
    /// The first one was refused for good.
    Refused(Refusal),
}

/// What came of the steps if this many were made, and the next one was refused so; `None` if nothing was next.
fn came_of(made: u64, refusal: Option<Refusal>) -> Cleaned {
    if made > 0 {
        return Cleaned::Steps;
    }
    match refusal {
        None | Some(Refusal::Full) | Some(Refusal::Pass(_)) => Cleaned::Nothing,
        Some(refusal) => Cleaned::Refused(refusal),
    }
}

/// Makes a few steps of the cleaner, of which one at most compacts a segment: that step is as long as many others. A
/// step in which a backup is lost counts as made.
pub(crate) fn clean_a_little<F: Fleet, B: Naming, R: Wait>(
    rt: &R,
    store: &Store<F, B>,
    policy: &Policy,
    notes: &mut Notes,
) -> Cleaned {
    for made in 0..STEPS {
        match store.tend(rt, policy, notes) {
            Ok(Some(StepAnswer::Compacted(_, _))) => return Cleaned::Steps,
            Ok(Some(_)) => {}
            Ok(None) => return came_of(made, None),
            Err(Refusal::Lost(_)) => {}
            Err(refusal) => return came_of(made, Some(refusal)),
        }
    }
    Cleaned::Steps
}

/// Cleans until nothing has to begin, before the threads start. So the segments that are there are read while no call
/// waits for the lock.
pub(crate) fn clean_at_first<F: Fleet, B: Naming, R: Wait>(
    rt: &R,
    store: &Store<F, B>,
    policy: &Policy,
    notes: &mut Notes,
) {
    for _ in 0..MOST_AT_FIRST {
        match clean_a_little(rt, store, policy, notes) {
            Cleaned::Steps => {}
            _ => return,
        }
    }
}

impl Cleaner {
    /// Nothing is known to be short.
    pub(crate) fn new(notes: Notes) -> Cleaner {
        Cleaner {
            notes: Mutex::new(notes),
            is_short: AtomicBool::new(false),
        }
    }

    /// What is noted, once no other thread cleans. Whoever asks has found that memory is short.
    pub(crate) fn wait<R: Wait>(&self, rt: &R) -> MutexGuard<'_, Notes> {
        self.is_short.store(true, Ordering::SeqCst);
        self.notes.lock(rt)
    }
}

/// What is noted, once no other thread cleans; None if another one cleans whenever this one looks. Between two looks
/// other threads run. Nobody sleeps, so nobody has to be woken.
fn free_notes(cleaner: &Cleaner) -> Option<MutexGuard<'_, Notes>> {
    for _ in 0..LOOKS {
        match cleaner.notes.try_lock() {
            Some(held) => return Some(held),
            None => thread::yield_now(),
        }
    }
    None
}

/// Makes a few steps of the cleaner, while no other thread cleans. None if another one does.
fn clean_in_turn<F: Fleet, B: Naming, R: Wait>(
    rt: &R,
    store: &Store<F, B>,
    policy: &Policy,
    cleaner: &Cleaner,
) -> Option<Cleaned> {
    let mut held = free_notes(cleaner)?;
    let cleaned = clean_a_little(rt, store, policy, &mut *held);
    let is_short = match cleaned {
        Cleaned::Steps => true,
        _ => false,
    };
    cleaner.is_short.store(is_short, Ordering::SeqCst);
    Some(cleaned)
}

/// Makes a few steps behind a put if memory was short when a thread cleaned last, unless another thread cleans all the
/// while. So each put pays for a part of the cleaning, or waits a little, and mostly none comes that finds no room and
/// waits for all of it.
pub(crate) fn clean_behind<F: Fleet, B: Naming, R: Wait>(
    rt: &R,
    store: &Store<F, B>,
    policy: &Policy,
    cleaner: &Cleaner,
) {
    if cleaner.is_short.load(Ordering::SeqCst) {
        let _cleaned = clean_in_turn(rt, store, policy, cleaner);
    }
}

/// Makes the steps of the cleaner that come next, until so many threads have ended. If none comes next, it sleeps for
/// a moment. A refusal for good ends the cleaner: then threads clean for themselves.
pub(crate) fn clean<F: Fleet, B: Naming, R: Wait + Clock>(
    rt: &R,
    store: &Store<F, B>,
    policy: Policy,
    cleaner: &Cleaner,
    threads: u64,
    ended: &AtomicU64,
) {
    for _ in rt.forever() {
        if ended.load(Ordering::SeqCst) >= threads {
            return;
        }
        match clean_in_turn(rt, store, &policy, cleaner) {
            None | Some(Cleaned::Steps) => {}
            Some(Cleaned::Nothing) => thread::sleep(rt, Duration::from_micros(REST)),
            Some(Cleaned::Refused(_)) => return,
        }
    }
}
