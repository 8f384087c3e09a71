//! A load over a master: a store is made over it, threads run, and the master is taken back.

ghost use Rattle.std.specs.Prelude.{◌≡◌, ◌≤◌, ◌<◌, ◌^◌, [], length};
ghost use Rattle.counted_calls.specs.locked_log.Made.{IsMade, made_now};
ghost use Rattle.counted_calls.specs.master.Valid.{IsValid};
ghost use Rattle.counted_calls.specs.master.World.{world};
ghost use Rattle.history_row.specs.Rows.{IsRowOf};

use crate::cleaning::{Cleaner, clean_at_first};
use crate::client::Thread;
use crate::plan::Plan;
use crate::running::run_threads;
use crate::tracing::nanos;
use crate::work::Work;
use counted_calls::locked_log::{Blank, CallFault, Naming, Notes, Seat, Store};
use counted_calls::master::{Master, Refusal};
use counted_calls::take_back;
use load_keys::Keys;
use replica::Fleet;
use std::alloc::Global;
use std::io::Eprint;
use std::marker::Brand;
use std::sync::Wait;
use std::sync::atomic::AtomicU64;
use std::thread::Threads;
use std::time::Clock;

/// What comes of a load over a master.
#[derive(Drop)]
pub struct Outcome<F: Fleet> {
    /// The master, which goes on with its history.
    pub master: Master<F>,
    /// What each thread leaves behind, in the order of their numbers.
    pub works: Vec<Work>,
    /// The fault of the first thread that was ended by one.
    pub fault: Option<CallFault>,
    /// How many nanoseconds the threads took, from the start of the first one to the end of the last one.
    pub took: u64,
    /// Whether the store could tell whose its records are when it was closed.
    pub is_known: bool,
}

/// Has threads make their operations over a master whose table has the objects below `made`, and takes the master
/// back. The keys that they draw are of `keys`. A load that makes new keys counts them in `made`.
pub fn run_load<F: Fleet + Send, R: Threads + Wait + Clock + Eprint + Sync>(
    rt: &R,
    master: Master<F>,
    plan: Plan,
    keys: &Keys,
    made: &AtomicU64,
) -> Outcome<F>
    requires threads { (1 ≤ plan.threads) × (plan.threads ≤ 63) }
    requires operations { plan.operations < 2 ^ 40 }
    ensures made { IsMade (made_now plan.threads (world F.state master)) (world F.state result.master) }
    ensures valid { IsValid result.master.knows (F.state result.master.fleet) }
{
    master.show_valid();
    let calls = 2 * plan.operations * plan.threads;
    match Blank::make(plan.alloc, calls, plan.threads) {
        Ok(blank) => load_in::<F, Brand, R>(rt, blank, master, plan, keys, made),
        Err(_) => refused(plan.alloc, master),
    }
}

/// What comes of it if memory runs out before a thread is started.
fn refused<F: Fleet>(alloc: Global, master: Master<F>) -> Outcome<F>
    ensures { result.master ≡ master }
{
    Outcome {
        master,
        works: Vec::new(alloc),
        fault: Some(CallFault::Refused(Refusal::NoMemory)),
        took: 0,
        is_known: true,
    }
}

/// Does so with the parts of a store that this brand names.
fn load_in<F: Fleet + Send, B: Naming + Send + Sync, R: Threads + Wait + Clock + Eprint + Sync>(
    rt: &R,
    blank: Blank,
    master: Master<F>,
    plan: Plan,
    keys: &Keys,
    made: &AtomicU64,
) -> Outcome<F>
    requires empty { IsRowOf blank.row [] }
    requires seats { (blank.seats ≡ plan.threads) × (1 ≤ plan.threads) × (plan.threads ≤ 63) }
    requires cells { (blank.cells ≡ B.cells) × (blank.seats ≡ B.made.seats) }
    requires start { B.start ≡ length master.knows.history }
    requires ledger { (blank.name ≡ B.name) × (blank.parts ≡ B.parts) }
    requires mark { blank.table ≡ B.table }
    requires made { B.made ≡ made_now plan.threads (world F.state master) }
    requires operations { plan.operations < 2 ^ 40 }
    ensures made { IsMade (made_now plan.threads (world F.state master)) (world F.state result.master) }
    ensures valid { IsValid result.master.knows (F.state result.master.fleet) }
{
    master.show_valid();
    let (store, seats) = match Store::<F, B>::share(plan.alloc, blank, master) {
        Ok(pair) => pair,
        Err((_, master)) => return refused(plan.alloc, master),
    };
    let mut back = Vec::new(plan.alloc);
    let mut works = Vec::new(plan.alloc);
    let (fault, took) = run_seats(rt, &store, seats, plan, keys, made, &mut back, &mut works);
    let (master, is_known) = take_back(store, back);
    Outcome {
        master,
        works,
        fault,
        took,
        is_known,
    }
}

/// Cleans first. Then the seats make their operations, and what the threads leave behind is collected. The result is
/// the first fault, and how long the threads took.
fn run_seats<F: Fleet + Send, B: Naming + Send + Sync, R: Threads + Wait + Clock + Eprint + Sync>(
    rt: &R,
    store: &Store<F, B>,
    seats: Vec<Seat<B>>,
    plan: Plan,
    keys: &Keys,
    made: &AtomicU64,
    back: &mut Vec<Seat<B>>,
    works: &mut Vec<Work>,
) -> (Option<CallFault>, u64)
    requires { plan.operations < 2 ^ 40 }
{
    let mut noted = Notes::new(plan.alloc);
    clean_at_first(rt, store, &plan.policy, &mut noted);
    let cleaner = Cleaner::new(noted);
    let ended = AtomicU64::new(0);
    let start = nanos(rt);
    let outcome = run_threads(rt, store, &cleaner, seats, plan, keys, made, &ended);
    let took = nanos(rt).saturating_sub(start);
    match outcome {
        Ok(threads) => (gather(threads, back, works), took),
        Err(_) => (Some(CallFault::Refused(Refusal::NoMemory)), took),
    }
}

/// Collects seats and work. The result is the first fault.
fn gather<B: Naming>(
    threads: Vec<Thread<B>>,
    back: &mut Vec<Seat<B>>,
    works: &mut Vec<Work>,
) -> Option<CallFault> {
    let mut first = None;
    for one in threads {
        let Thread { seat, calls, work } = one;
        if let Err(fault) = calls {
            if first.is_none() {
                first = Some(fault);
            }
        }
        if !keep(seat, work, back, works) {
            return Some(CallFault::Refused(Refusal::NoMemory));
        }
    }
    first
}

/// Keeps the seat and the work of a thread. False if memory runs out.
fn keep<B: Naming>(
    seat: Option<Seat<B>>,
    work: Option<Work>,
    back: &mut Vec<Seat<B>>,
    works: &mut Vec<Work>,
) -> bool {
    if let Some(seat) = seat {
        if back.push(seat).is_err() {
            return false;
        }
    }
    match work {
        Some(work) => works.push(work).is_ok(),
        None => true,
    }
}
