//! The cleaner that runs beside clients.

use counted_calls::locked_log::{CleanTurn, Naming, Store};
use counted_calls::master::{Refusal, StepAnswer};
use replica::Fleet;
use std::sync::Wait;
use std::thread;

/// After this many turns that did nothing the cleaner ends.
const IDLE: u64 = 1000;

/// Makes the turns that are next until this many passes have ended or a thousand turns did nothing, and then ends an
/// open pass. A pass that was open before counts too. If a turn opens a failover, the cleaner pushes it to its end.
/// Any other refusal ends the cleaner.
pub(crate) fn clean<F: Fleet, B: Naming, R: Wait>(rt: &R, store: &Store<F, B>, passes: u64) {
    // Nobody else begins a pass, so once enough have begun, the open one is the last.
    let mut begun: u64 = if store.has_pass(rt) { 1 } else { 0 };
    let mut idle: u64 = 0;
    let mut is_mending = false;
    for _ in rt.forever() {
        let is_enough = begun >= passes || idle >= IDLE;
        let answer = if is_enough {
            match store.turn_in_pass(rt) {
                Some(answer) => answer,
                None if is_mending => store.turn(rt, CleanTurn::Push),
                None => return,
            }
        } else {
            store.turn(rt, CleanTurn::Next)
        };
        match answer {
            Ok(StepAnswer::Begun(_)) => begun = begun.saturating_add(1),
            Ok(_) => {}
            Err(Refusal::Lost(_)) => is_mending = true,
            // While a failover is open, the next turn is a push.
            Err(Refusal::Nothing) => {
                is_mending = false;
                idle = idle.saturating_add(1);
                thread::yield_now();
            }
            Err(_) => return,
        }
    }
}
