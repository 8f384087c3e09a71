//! The lock is let go between the pushes of a call.

use crate::slow::Watch;
use replica::Bench;
use std::sync::Wait;
use store_clients::locked_log::{Naming, Store};

/// Comes for the lock while a take holds it, and limits the fleet once it has it.
pub fn come_in<F: Bench, B: Naming, R: Wait>(rt: &R, store: &Store<F, B>, watch: &Watch) {
    if watch.wait_for_take() {
        watch.finish();
        store.limit(rt, u64::MAX);
    }
}
