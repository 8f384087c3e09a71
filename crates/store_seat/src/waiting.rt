//! How a thread waits for the lock.

use std::hint::spin_loop;
use std::sync::{Mutex, MutexGuard, Wait};
use std::thread::yield_now;

/// How many pauses of the processor come before the second try.
const FIRST_PAUSES: u32 = 16;

/// The most pauses before a later try.
const MOST_PAUSES: u32 = 128;

/// How often a thread then tries to take a lock that is held, before it sleeps until the lock is free.
const TRIES: u32 = 2_000;

/// Takes the lock. If it is held, the thread pauses, and tries again. Before each further try it lets other threads
/// run, and pauses twice as long as before, up to a limit: each try takes the lock's cache line from the thread that has
/// the lock. It sleeps after 2,000 tries: a holding of a store's lock mostly ends before a sleeper would be awake. With
/// more threads than processors, the thread that has the lock gets a processor soon, since the others let it run.
/// Whoever tries takes the lock before those who sleep.
#[inline(always)]
pub fn take<'a, T, R: Wait>(rt: &R, lock: &'a Mutex<T>) -> MutexGuard<'a, T> {
    match lock.try_lock() {
        Some(guard) => guard,
        None => take_held(rt, lock),
    }
}

/// Takes a lock that was held a moment ago.
#[inline(never)]
fn take_held<'a, T, R: Wait>(rt: &R, lock: &'a Mutex<T>) -> MutexGuard<'a, T> {
    let mut pauses = FIRST_PAUSES;
    for _ in 0..TRIES {
        for _ in 0..pauses {
            spin_loop();
        }
        if let Some(guard) = lock.try_lock() {
            return guard;
        }
        yield_now();
        pauses = pauses.saturating_mul(2).min(MOST_PAUSES);
    }
    lock.lock(rt)
}
