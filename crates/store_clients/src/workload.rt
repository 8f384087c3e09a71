//! Clients over a master: a store is made over it, clients run, and the master is taken back.

ghost use Rattle.std.specs.Prelude.{◌≡◌, ◌≤◌, ◌<◌, ◌*◌, ◌+◌, ◌++◌, ◌^◌, List, [], IfOk, OnOk, IsTrue};
ghost use Rattle.std.specs.Prelude.{length, drop, take};
ghost use Rattle.counted_calls.specs.master.log_laws.Data.{durable_of};
ghost use Rattle.counted_calls.specs.master.master_state.Log.{log_of};
ghost use Rattle.counted_calls.specs.locked_log.Made.{IsMade, made_now};
ghost use Rattle.counted_calls.specs.locked_log.store_seat.Seats.{SeatValue};
ghost use Rattle.counted_calls.specs.master.Valid.{IsValid};
ghost use Rattle.counted_calls.specs.master.World.{world};
ghost use Rattle.store_clients.specs.Clients.{Matches};
ghost use Rattle.history.specs.Seats.{AreAccepted};
ghost use Rattle.history_row.specs.Rows.{IsRowOf};
ghost use Rattle.store_clients.specs.Workloads.{HasServed, IsBack};

use crate::client::Client;
use crate::running::run_clients;
use counted_calls::locked_log::{Blank, CallFault, Naming, Seat, Store};
use counted_calls::master::{Master, Refusal};
use counted_calls::take_back;
use gate::Gate;
use replica::Fleet;
use std::alloc::Global;
use std::marker::Brand;
use std::sync::Wait;
use std::thread::Threads;

/// How many seats the store has: seat 0 for whoever owns the master, and one for each client that there may be.
pub const SEATS: u64 = 64;

/// How many clients there are, how many rounds each makes, and how many passes a cleaner makes beside them.
#[derive(Clone, Copy)]
pub struct Workload {
    pub clients: u64,
    pub rounds: u64,
    pub passes: u64,
}

/// What comes of clients over a master.
#[derive(Drop)]
pub struct Outcome<F: Fleet> {
    /// The master, which goes on with its history.
    pub master: Master<F>,
    /// How many calls were accepted, or the first refusal of the lowest client that was refused.
    pub calls: Result<u64, CallFault>,
    /// Whether the store could tell whose its records are when it was closed.
    pub is_known: bool,
}

/// Makes a store over the master, has the clients make their rounds beside a cleaner, and takes the master back. The
/// store has a cell for each call, but no more than `records`, which is how many records the master's history takes:
/// a call that finds no cell would find the history full. If all calls were accepted, but the store can't tell
/// whose its records are, or not all are durable, the refusal is `SeatUnknown`. Only tests show that this comes just
/// if no call was made, and earlier records weren't durable.
pub fn clients_over<F: Fleet + Send, R: Threads + Wait + Sync, G: Gate + Sync>(
    rt: &R,
    alloc: Global,
    master: Master<F>,
    records: u64,
    work: Workload,
    gate: &G,
) -> Outcome<F>
    requires records { records ≡ master.knows.config.history }
    requires clients { work.clients ≤ 63 }
    requires rounds { work.rounds < 2 ^ 40 }
    ensures made { IsMade (made_now 64 (world F.state master)) (world F.state result.master) }
    ensures valid { IsValid result.master.knows (F.state result.master.fleet) }
    ensures count { IfOk result.calls (λ n. n ≡ 2 * work.rounds * work.clients) }
    ensures durable { OnOk result.calls
        (durable_of (log_of result.master.knows) ≡ length result.master.knows.history) }
    ensures known { OnOk result.calls (IsTrue result.is_known) }
    ensures accepted { OnOk result.calls
        (AreAccepted work.clients work.rounds master.knows.history result.master.knows.history) }
{
    master.show_valid();
    let calls = 2 * work.rounds * work.clients;
    match Blank::make(alloc, calls.min(records), SEATS) {
        Ok(blank) => clients_in::<F, Brand, R, G>(rt, alloc, blank, master, work, gate),
        Err(_) => Outcome {
            master,
            calls: Err(CallFault::Refused(Refusal::NoMemory)),
            is_known: true,
        },
    }
}

/// Does so with the parts of a store that this brand names.
fn clients_in<F: Fleet + Send, B: Naming + Send + Sync, R: Threads + Wait + Sync, G: Gate + Sync>(
    rt: &R,
    alloc: Global,
    blank: Blank,
    master: Master<F>,
    work: Workload,
    gate: &G,
) -> Outcome<F>
    requires empty { IsRowOf blank.row [] }
    requires seats { blank.seats ≡ 64 }
    requires cells { (blank.cells ≡ B.cells) × (blank.seats ≡ B.made.seats) }
    requires start { B.start ≡ length master.knows.history }
    requires ledger { (blank.name ≡ B.name) × (blank.parts ≡ B.parts) }
    requires mark { blank.table ≡ B.table }
    requires made { B.made ≡ made_now 64 (world F.state master) }
    requires clients { work.clients ≤ 63 }
    requires rounds { work.rounds < 2 ^ 40 }
    ensures made { IsMade (made_now 64 (world F.state master)) (world F.state result.master) }
    ensures valid { IsValid result.master.knows (F.state result.master.fleet) }
    ensures count { IfOk result.calls (λ n. n ≡ 2 * work.rounds * work.clients) }
    ensures durable { OnOk result.calls
        (durable_of (log_of result.master.knows) ≡ length result.master.knows.history) }
    ensures known { OnOk result.calls (IsTrue result.is_known) }
    ensures accepted { OnOk result.calls
        (AreAccepted work.clients work.rounds master.knows.history result.master.knows.history) }
{
    master.show_valid();
    let (store, mut seats) = match Store::<F, B>::share(alloc, blank, master) {
        Ok(pair) => pair,
        Err((_, master)) => {
            return Outcome {
                master,
                calls: Err(CallFault::Refused(Refusal::NoMemory)),
                is_known: true,
            };
        }
    };
    let outcome = run_seats(rt, alloc, &store, &mut seats, work, gate);
    let (master, is_known) = take_back(store, seats);
    // If any call was made, the last record was answered, so all are durable. Only tests show that it is so.
    let is_durable = master.durable() == master.history().len() as u64;
    match outcome {
        Ok(()) if is_known && is_durable => Outcome {
            master,
            calls: Ok(2 * work.rounds * work.clients),
            is_known,
        },
        Ok(()) => Outcome {
            master,
            calls: Err(CallFault::SeatUnknown),
            is_known,
        },
        Err(fault) => Outcome {
            master,
            calls: Err(fault),
            is_known,
        },
    }
}

/// Has the seats from 1 on make their rounds. With Ok the seats are those that were given: the first one, those of the
/// clients, and the others.
fn run_seats<F: Fleet + Send, B: Naming + Send + Sync, R: Threads + Wait + Sync, G: Gate + Sync>(
    rt: &R,
    alloc: Global,
    store: &Store<F, B>,
    seats: &mut Vec<Seat<B>>,
    work: Workload,
    gate: &G,
) -> Result<(), CallFault>
    requires clients { work.clients + 1 ≤ length seats.old.items }
    requires rounds { work.rounds < 2 ^ 40 }
    ensures { OnOk result ((served : List SeatValue)
        × (seats.new.items ≡ take 1 (take (1 + work.clients) seats.old.items)
        ++ (served ++ drop (1 + work.clients) seats.old.items))
        × Matches (HasServed work.rounds) (drop 1 (take (1 + work.clients) seats.old.items)) served) }
{
    let no_memory = CallFault::Refused(Refusal::NoMemory);
    let Ok(mut idle) = seats.split_off(1 + work.clients as usize) else {
        return Err(no_memory);
    };
    let Ok(chosen) = seats.split_off(1) else {
        return Err(no_memory);
    };
    let Ok(clients) = run_clients(rt, alloc, store, chosen, work.rounds, work.passes, gate) else {
        return Err(no_memory);
    };
    gather(clients, seats)?;
    match seats.append(&mut idle) {
        Ok(()) => Ok(()),
        Err(_) => Err(no_memory),
    }
}

/// The clients' seats, in their order; or the first refusal, by lowest client.
fn gather<B: Naming>(clients: Vec<Client<B>>, seats: &mut Vec<Seat<B>>) -> Result<(), CallFault>
    ensures { OnOk result ((served : List SeatValue) × (seats.new.items ≡ seats.old.items ++ served)
        × Matches IsBack clients.items served) }
{
    for one in clients {
        let Client { seat, calls } = one;
        calls?;
        match seat {
            Some(seat) => match seats.push(seat) {
                Ok(()) => {}
                Err(_) => return Err(CallFault::Refused(Refusal::NoMemory)),
            },
            None => return Err(CallFault::Refused(Refusal::NoMemory)),
        }
    }
    Ok(())
}
