//! Clients as threads of one scope, and a cleaner beside them.

ghost use Rattle.std.specs.Prelude.{◌≡◌, ◌<◌, ◌^◌, IfOk};
ghost use Rattle.store_clients.specs.Clients.{AreClients, IsKept};

use crate::cleaning::clean;
use crate::client::{Client, Ended, Rounds, serve};
use crate::task::Task;
use counted_calls::locked_log::{CallFault, Naming, Seat, Store};
use counted_calls::master::Refusal;
use entry::NoMemory;
use gate::Gate;
use replica::Fleet;
use std::alloc::Global;
use std::marker::Model;
use std::sync::Wait;
use std::thread;
use std::thread::{PromisedHandle, Threads};

/// A client's thread, if it could be started. Contracts see what it promises.
#[derive(Drop)]
struct Started<B: Naming> {
    handle: Option<PromisedHandle<Ended<B>, Rounds>>,
    promise: Rounds,
}

impl<B: Naming> Model for Started<B> {
    ghost use Rattle.std.specs.Prelude.{◌≡◌, IfSome};
    ghost use Rattle.store_clients.specs.declared.client.Rounds.{Rounds};

    ghost Value = { Rounds };

    ghost view = { λ s. s.promise };

    ghost invariant = { λ s. IfSome s.handle (λ h. h.promise ≡ s.promise) };
}

impl<B: Naming> Started<B> {
    /// Waits for the thread's end.
    fn join<R: Threads>(self, rt: &R) -> Client<B>
        ensures { IsKept self result }
    {
        let Started { handle, promise: _ } = self;
        match handle {
            Some(handle) => {
                let Ended { seat, calls } = handle.join(rt);
                let _count = seat.count();
                Client {
                    seat: Some(seat),
                    calls,
                }
            }
            None => Client {
                seat: None,
                calls: Err(CallFault::Refused(Refusal::NoMemory)),
            },
        }
    }
}

/// Each seat's client makes this many rounds, in a thread of its own, beside a cleaner that makes this many passes.
/// The result has the clients in the order of their seats. A client whose thread can't be started is refused for want
/// of memory, and its seat is gone. A cleaner whose thread can't be started makes no turn. Each client, by its place
/// from 0, tells the gate that its first put was answered, and that it ends. With NoMemory the seats are gone, and no
/// thread was started.
pub fn run_clients<
    F: Fleet + Send,
    B: Naming + Send + Sync,
    R: Threads + Wait + Sync,
    G: Gate + Sync,
>(
    rt: &R,
    alloc: Global,
    store: &Store<F, B>,
    seats: Vec<Seat<B>>,
    rounds: u64,
    passes: u64,
    gate: &G,
) -> Result<Vec<Client<B>>, NoMemory>
    requires { rounds < 2 ^ 62 }
    ensures { IfOk result (λ clients. AreClients rounds seats.items clients.items) }
{
    thread::scope(
        thread::scope_env(),
        rt,
        |scope| -> Result<Vec<Client<B>>, NoMemory>
            requires { rounds < 2 ^ 62 }
            ensures { IfOk result (λ clients. AreClients rounds seats.items clients.items) }
        {
            // Room for all is taken before a thread is started.
            let mut started = Vec::with_capacity(alloc, seats.len())?;
            let mut clients = Vec::with_capacity(alloc, seats.len())?;
            let _cleaner = scope.spawn(move || clean(rt, store, passes));
            for seat in seats {
                let task = Task {
                    alloc,
                    client: started.len(),
                    rounds,
                };
                let promise = Rounds {
                    rounds,
                    number: seat.number(),
                    count: seat.count(),
                };
                let job = move || serve(rt, store, seat, task, gate);
                let handle = scope.spawn_with(promise, job).ok();
                started.push(Started { handle, promise })?;
            }
            for one in started {
                clients.push(one.join(rt))?;
            }
            Ok(clients)
        },
    )
}
