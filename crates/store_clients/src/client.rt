//! A client: its rounds over a store.

ghost use Rattle.std.specs.Prelude.{◌≡◌, ◌+◌, ◌*◌, ◌≤◌, ◌<◌, ◌^◌, IfOk, OnOk};

use crate::task::{Asked, Task};
use counted_calls::call;
use counted_calls::locked_log::{CallFault, Naming, Seat, Store};
use counted_calls::master::Refusal;
use gate::Gate;
use replica::Fleet;
use std::sync::Wait;
use std::thread::Promise;

/// What a client hands back at its end.
#[derive(Drop)]
pub struct Client<B: Naming> {
    /// The client's seat, or `None` if its thread could not be started.
    pub seat: Option<Seat<B>>,
    /// How many of the client's calls were accepted, or its first refusal.
    pub calls: Result<u64, CallFault>,
}

/// What a client's thread ends with.
#[derive(Drop)]
pub(crate) struct Ended<B: Naming> {
    pub(crate) seat: Seat<B>,
    pub(crate) calls: Result<u64, CallFault>,
}

/// What a client's thread promises: this many rounds by the seat of this number, which made this many records before.
#[derive(Clone, Copy)]
pub(crate) struct Rounds {
    pub(crate) rounds: u64,
    pub(crate) number: u64,
    pub(crate) count: u64,
}

impl<B: Naming> Promise<Ended<B>> for Rounds {
    ghost use Rattle.std.specs.Prelude.{◌≡◌, ◌*◌, ◌+◌, ◌≤◌, IfOk};

    ghost kept_by = { λ p r. (r.seat.number ≡ p.number) × (p.count ≤ r.seat.count)
        × IfOk r.calls (λ n. (n ≡ 2 * p.rounds) × (r.seat.count ≡ p.count + n)) };
}

/// Makes all rounds of a client. The gate is told when its first put was answered, and when the client ends.
pub(crate) fn serve<F: Fleet, B: Naming, R: Wait, G: Gate>(
    rt: &R,
    store: &Store<F, B>,
    seat: Seat<B>,
    task: Task,
    gate: &G,
) -> Ended<B>
    requires { task.rounds < 2 ^ 62 }
    ensures number { result.seat.number ≡ seat.number }
    ensures count { seat.count ≤ result.seat.count }
    ensures calls { IfOk result.calls (λ n. (n ≡ 2 * task.rounds) × (result.seat.count ≡ seat.count + n)) }
{
    let mut seat = seat;
    let calls = serve_all(rt, store, &mut seat, task, gate);
    gate.leave(task.client);
    Ended { seat, calls }
}

/// Makes all rounds of a client, up to the first refusal. Memory for its commands is taken before the first round.
fn serve_all<F: Fleet, B: Naming, R: Wait, G: Gate>(
    rt: &R,
    store: &Store<F, B>,
    seat: &mut Seat<B>,
    task: Task,
    gate: &G,
) -> Result<u64, CallFault>
    requires { task.rounds < 2 ^ 62 }
    ensures number { seat.new.number ≡ seat.old.number }
    ensures count { seat.old.count ≤ seat.new.count }
    ensures calls { IfOk result (λ n. (n ≡ 2 * task.rounds) × (seat.new.count ≡ seat.old.count + n)) }
{
    match Asked::new(task.alloc, task.client) {
        Ok(mut asked) => serve_rounds(rt, store, seat, task, &mut asked, gate),
        Err(_) => Err(CallFault::Refused(Refusal::NoMemory)),
    }
}

/// Makes all rounds with these commands, up to the first refusal.
fn serve_rounds<F: Fleet, B: Naming, R: Wait, G: Gate>(
    rt: &R,
    store: &Store<F, B>,
    seat: &mut Seat<B>,
    task: Task,
    asked: &mut Asked,
    gate: &G,
) -> Result<u64, CallFault>
    requires { task.rounds < 2 ^ 62 }
    ensures number { seat.new.number ≡ seat.old.number }
    ensures count { seat.old.count ≤ seat.new.count }
    ensures calls { IfOk result (λ n. (n ≡ 2 * task.rounds) × (seat.new.count ≡ seat.old.count + n)) }
{
    for round in 0..task.rounds {
        put(rt, store, seat, asked, round + 1)?;
        if round == 0 {
            gate.enter(task.client);
        }
        call(rt, store, seat, asked.get())?;
    }
    Ok(2 * task.rounds)
}

/// Makes the put of a round, if there was memory for its value.
fn put<F: Fleet, B: Naming, R: Wait>(
    rt: &R,
    store: &Store<F, B>,
    seat: &mut Seat<B>,
    asked: &mut Asked,
    round: u64,
) -> Result<(), CallFault>
    ensures number { seat.new.number ≡ seat.old.number }
    ensures count { seat.old.count ≤ seat.new.count }
    ensures one { OnOk result (seat.new.count ≡ seat.old.count + 1) }
{
    match asked.go_on(round) {
        Ok(()) => call(rt, store, seat, asked.put()),
        Err(_) => Err(CallFault::Refused(Refusal::NoMemory)),
    }
}
