//! One thread of a load: its operations, from the first to the last or to the first fault.

ghost use Rattle.std.specs.Prelude.{◌≡◌, ◌≤◌, ◌<◌, ◌+◌, ◌*◌, ◌^◌, IfOk};

use crate::cleaning::Cleaner;
use crate::operations::operate;
use crate::plan::Task;
use crate::work::Work;
use counted_calls::locked_log::{CallFault, Naming, Seat, Store};
use load_keys::Keys;
use replica::Fleet;
use std::io::Eprint;
use std::sync::Wait;
use std::sync::atomic::{AtomicU64, Ordering};
use std::thread::Promise;
use std::time::Clock;

/// Behind so many operations of a thread the store forgets.
const FORGETS: u64 = 1_024;

/// What a thread leaves behind.
#[derive(Drop)]
pub struct Thread<B: Naming> {
    /// The thread's seat, or `None` if the thread could not be started.
    pub seat: Option<Seat<B>>,
    /// How many of its calls were answered, or the fault that ended it.
    pub calls: Result<u64, CallFault>,
    /// What it worked with, or `None` if the thread could not be started.
    pub work: Option<Work>,
}

/// What a thread ends with.
#[derive(Drop)]
pub(crate) struct Ended<B: Naming> {
    pub(crate) seat: Seat<B>,
    pub(crate) calls: Result<u64, CallFault>,
    pub(crate) work: Work,
}

/// What a thread promises: it gives back the seat of this number, which made this many records before.
#[derive(Clone, Copy)]
pub(crate) struct Promised {
    pub(crate) number: u64,
    pub(crate) count: u64,
}

impl<B: Naming> Promise<Ended<B>> for Promised {
    ghost use Rattle.std.specs.Prelude.{◌≡◌, ◌+◌, ◌≤◌, IfOk};

    ghost kept_by = { λ p r. (r.seat.number ≡ p.number) × (p.count ≤ r.seat.count)
        × IfOk r.calls (λ n. r.seat.count ≡ p.count + n) };
}

/// Makes all operations of a thread, and counts it as ended.
pub(crate) fn serve<F: Fleet, B: Naming, R: Wait + Clock + Eprint>(
    rt: &R,
    store: &Store<F, B>,
    cleaner: &Cleaner,
    seat: Seat<B>,
    work: Work,
    task: Task,
    keys: &Keys,
    made: &AtomicU64,
    ended: &AtomicU64,
) -> Ended<B>
    requires { task.plan.operations < 2 ^ 62 }
    ensures number { result.seat.number ≡ seat.number }
    ensures count { seat.count ≤ result.seat.count }
    ensures calls { IfOk result.calls (λ n. result.seat.count ≡ seat.count + n) }
{
    let mut seat = seat;
    let mut work = work;
    let calls = serve_all(rt, store, cleaner, &mut seat, &mut work, &task, keys, made);
    let _before = ended.fetch_add(1, Ordering::SeqCst);
    Ended { seat, calls, work }
}

/// Makes all operations, up to the first fault.
fn serve_all<F: Fleet, B: Naming, R: Wait + Clock + Eprint>(
    rt: &R,
    store: &Store<F, B>,
    cleaner: &Cleaner,
    seat: &mut Seat<B>,
    work: &mut Work,
    task: &Task,
    keys: &Keys,
    made: &AtomicU64,
) -> Result<u64, CallFault>
    requires { task.now.plan.operations < 2 ^ 62 }
    ensures number { seat.new.number ≡ seat.old.number }
    ensures count { seat.old.count ≤ seat.new.count }
    ensures calls { IfOk result (λ n. seat.new.count ≡ seat.old.count + n) }
{
    let mut calls: u64 = 0;
    for done in 0..task.plan.operations {
        let more = operate(rt, store, cleaner, seat, work, task, keys, made)?;
        calls += more;
        work.operations = work.operations.saturating_add(1);
        show(rt, task, done);
        forget(rt, store, done);
    }
    Ok(calls)
}

/// Has the store forget, behind each 1,024th operation of the thread.
fn forget<F: Fleet, B: Naming, R: Wait>(rt: &R, store: &Store<F, B>, done: u64) {
    if done % FORGETS == FORGETS - 1 {
        let _forgotten = store.forget(rt);
    }
}

/// Shows how far the first thread is, at each percent, if that is asked for.
fn show<R: Eprint>(rt: &R, task: &Task, done: u64) {
    let step = (task.plan.operations / 100).max(1);
    if task.plan.is_shown && task.thread == 1 && done % step == 0 {
        let percent = done / step;
        let _ = eprint!(rt; "\r{percent} % ");
    }
}
