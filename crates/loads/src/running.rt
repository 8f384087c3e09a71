//! Threads of one scope, and a cleaner beside them.

ghost use Rattle.std.specs.Prelude.{◌≡◌, ◌<◌, ◌^◌};
ghost use Rattle.loads.specs.Threads.{IsKept};

use crate::cleaning::{Cleaner, clean};
use crate::client::{Ended, Promised, Thread, serve};
use crate::plan::{Plan, Task};
use crate::work::Work;
use counted_calls::locked_log::{CallFault, Naming, Seat, Store};
use counted_calls::master::Refusal;
use entry::NoMemory;
use load_keys::Keys;
use replica::Fleet;
use std::io::Eprint;
use std::marker::Model;
use std::sync::Wait;
use std::sync::atomic::AtomicU64;
use std::thread;
use std::thread::{PromisedHandle, Threads};
use std::time::Clock;

/// A thread, if it could be started. Contracts see what it promises.
#[derive(Drop)]
struct Started<B: Naming> {
    handle: Option<PromisedHandle<Ended<B>, Promised>>,
    promise: Promised,
}

impl<B: Naming> Model for Started<B> {
    ghost use Rattle.std.specs.Prelude.{◌≡◌, IfSome};
    ghost use Rattle.loads.specs.declared.client.Promised.{Promised};

    ghost Value = { Promised };

    ghost view = { λ s. s.promise };

    ghost invariant = { λ s. IfSome s.handle (λ h. h.promise ≡ s.promise) };
}

impl<B: Naming> Started<B> {
    /// Waits for the thread's end.
    fn join<R: Threads>(self, rt: &R) -> Thread<B>
        ensures { IsKept self result }
    {
        let Started { handle, promise: _ } = self;
        match handle {
            Some(handle) => {
                let Ended { seat, calls, work } = handle.join(rt);
                Thread {
                    seat: Some(seat),
                    calls,
                    work: Some(work),
                }
            }
            None => Thread {
                seat: None,
                calls: Err(CallFault::Refused(Refusal::NoMemory)),
                work: None,
            },
        }
    }
}

/// Each seat makes the operations of the plan in a thread of its own, beside a cleaner if the plan has one. The result
/// has the threads in the order of their seats. A thread that can't be started is refused for want of memory, and its
/// seat is gone. With NoMemory the seats are gone; a thread that was started before went on to its end.
pub(crate) fn run_threads<
    F: Fleet + Send,
    B: Naming + Send + Sync,
    R: Threads + Wait + Clock + Eprint + Sync,
>(
    rt: &R,
    store: &Store<F, B>,
    cleaner: &Cleaner,
    seats: Vec<Seat<B>>,
    plan: Plan,
    keys: &Keys,
    made: &AtomicU64,
    ended: &AtomicU64,
) -> Result<Vec<Thread<B>>, NoMemory>
    requires { plan.operations < 2 ^ 62 }
{
    thread::scope(
        thread::scope_env(),
        rt,
        |scope| -> Result<Vec<Thread<B>>, NoMemory>
            requires { plan.operations < 2 ^ 62 }
        {
            let Plan {
                alloc,
                threads,
                policy,
                ..
            } = plan;
            let mut started = Vec::with_capacity(alloc, seats.len())?;
            let mut done = Vec::with_capacity(alloc, seats.len())?;
            let cleaned = if plan.has_cleaner { threads } else { 0 };
            let _cleaner = scope.spawn(move || clean(rt, store, policy, cleaner, cleaned, ended));
            for seat in seats {
                let task = Task {
                    plan,
                    thread: seat.number().saturating_add(1),
                };
                let promise = Promised {
                    number: seat.number(),
                    count: seat.count(),
                };
                let work = Work::new(&task)?;
                let job = move || serve(rt, store, cleaner, seat, work, task, keys, made, ended);
                let handle = scope.spawn_with(promise, job).ok();
                started.push(Started { handle, promise })?;
            }
            for one in started {
                done.push(one.join(rt))?;
            }
            Ok(done)
        },
    )
}
