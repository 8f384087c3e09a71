//! The mark is raised and read while the lock is held.

use crate::slow::Watch;
use replica::Fleet;
use std::sync::Wait;
use std::thread;
use std::thread::Threads;
use store_clients::locked_log::{CleanTurn, Naming, Receipt, Seat, Store};

/// Whether the last seat raises the mark by the receipt in one thread and seat 0 reads it in another, while a push of a
/// third waits and holds the lock. A body that waits for the lock reaches the limit of turns, and the push isn't let
/// go.
pub fn is_free<F: Fleet + Send, B: Naming + Send + Sync, R: Threads + Wait + Sync>(
    rt: &R,
    store: &Store<F, B>,
    seats: &mut Vec<Seat<B>>,
    receipts: &mut Vec<Receipt<B>>,
    at: usize,
    watch: &Watch,
) -> bool {
    let Some(receipt) = receipts.get_mut(at) else {
        return false;
    };
    let place = receipt.place();
    let receipt = receipt.again();
    let Some(raiser) = seats.pop() else {
        return false;
    };
    watch.slow_down();
    let is_free = thread::scope(thread::scope_env(), rt, |scope| -> bool {
        let pushes = scope.spawn(move || drop(store.turn(rt, CleanTurn::Push)));
        let raises = scope.spawn(move || raise_behind(store, raiser, receipt, watch));
        let is_read = reads(store, seats, place, watch);
        pushes.is_ok() && raises.is_ok() && is_read
    });
    is_free && watch.has_seen()
}

/// Raises the mark once a take waits.
fn raise_behind<F: Fleet, B: Naming>(
    store: &Store<F, B>,
    raiser: Seat<B>,
    receipt: Receipt<B>,
    watch: &Watch,
) {
    let mut raiser = raiser;
    if watch.wait_for_take() {
        store.raise(&mut raiser, &receipt);
        watch.tell_raise();
    }
}

/// Whether the mark is at the place once it was raised. Then the take that waits goes on.
fn reads<F: Fleet, B: Naming>(
    store: &Store<F, B>,
    seats: &mut Vec<Seat<B>>,
    place: u64,
    watch: &Watch,
) -> bool {
    let is_raised = watch.wait_for_raise();
    let is_read = match seats.get_mut(0) {
        Some(seat) => store.mark(seat) == place,
        None => false,
    };
    watch.finish();
    is_raised && is_read
}
