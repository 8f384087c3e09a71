//! Days of a store, and how they end.

ghost use Rattle.std.specs.Prelude.{◌≡◌, ◌≤◌, [], length};
ghost use Rattle.history_row.specs.Rows.{IsRowOf};
ghost use Rattle.store_clients.specs.locked_log.Made.{IsMade};
ghost use Rattle.store_clients.specs.master.World.{world};

use crate::asks::{Act, is_answered};
use crate::masters::{Shape, serve_before, small_master};
use crate::slow::{SlowFleet, Watch};
use replica::{Bench, Fleet};
use std::alloc::Global;
use std::marker::Brand;
use std::sync::Wait;
use std::thread::Threads;
use store_clients::locked_log::{Blank, Naming, Receipt, Row, Seat, Store};
use store_clients::master::Master;

/// The size of a store: how many seats it has, 1 to 64, and how many cells; how many records the history of its master
/// keeps; and how many gets the master served before, with a put behind them that is no longer pushed, or 0 for
/// neither.
pub type Size = (u64, u64, u64, u64);

/// How many were answered as wanted up to the first that was not; the place behind the last receipt that the row told;
/// and how many seglets the master uses that came back.
pub type Evening = (usize, usize, u64);

/// How many are answered as wanted, up to the first that is not.
pub fn answered<F: Bench + Send, B: Naming + Send + Sync, R: Threads + Wait + Sync>(
    rt: &R,
    alloc: Global,
    store: &Store<F, B>,
    watch: &Watch,
    seats: &mut Vec<Seat<B>>,
    receipts: &mut Vec<Receipt<B>>,
    asks: &[(usize, Act)],
) -> usize {
    for (at, ask) in asks.iter().enumerate() {
        if !is_answered(rt, alloc, store, watch, seats, receipts, ask) {
            return at;
        }
    }
    asks.len()
}

/// How many of the receipts the row tells.
fn told_by<F: Fleet, B: Naming>(
    master: &Master<F>,
    row: &mut Row<B>,
    receipts: &mut Vec<Receipt<B>>,
) -> usize {
    let mut told = 0;
    for receipt in receipts.iter_mut() {
        let place = receipt.place() as usize;
        if row.reaches(place) && place < master.history().len() {
            row.tell(receipt);
            told = place + 1;
        }
    }
    told
}

fn told_at_close<F: Fleet, B: Naming>(
    closed: &mut Result<(Master<F>, Row<B>), Master<F>>,
    receipts: &mut Vec<Receipt<B>>,
) -> usize {
    match closed {
        Ok((master, row)) => told_by(master, row, receipts),
        Err(_) => 0,
    }
}

fn used<F: Fleet>(master: &Master<F>) -> u64 {
    master.used_seglets()
}

fn used_at_close<F: Fleet, B: Naming>(closed: &Result<(Master<F>, Row<B>), Master<F>>) -> u64 {
    match closed {
        Ok((master, _)) => used(master),
        Err(master) => used(master),
    }
}

fn evening<F: Bench + Send + Drop, B: Naming + Send + Sync, R: Threads + Wait + Sync>(
    rt: &R,
    alloc: Global,
    store: Store<F, B>,
    watch: &Watch,
    mut seats: Vec<Seat<B>>,
    asks: &[(usize, Act)],
) -> Evening {
    let mut receipts = Vec::new(alloc);
    let answered = answered(rt, alloc, &store, watch, &mut seats, &mut receipts, asks);
    let mut closed = store.close(seats);
    let told = told_at_close(&mut closed, &mut receipts);
    (answered, told, used_at_close(&closed))
}

fn day<F: Bench + Send + Drop, B: Naming + Send + Sync, R: Threads + Wait + Sync>(
    rt: &R,
    alloc: Global,
    blank: Blank,
    master: Master<F>,
    watch: &Watch,
    asks: &[(usize, Act)],
) -> Option<Evening>
    requires empty { IsRowOf blank.row [] }
    requires seats { (1 ≤ blank.seats) × (blank.seats ≤ 64) }
    requires cells { (blank.cells ≡ B.cells) × (blank.seats ≡ B.made.seats) }
    requires start { B.start ≡ length master.knows.history }
    requires ledger { (blank.name ≡ B.name) × (blank.parts ≡ B.parts) }
    requires mark { blank.table ≡ B.table }
    requires made { IsMade B.made (world F.Fleet.state master) }
{
    match Store::<F, B>::share(alloc, blank, master) {
        Ok((store, seats)) => Some(evening(rt, alloc, store, watch, seats, asks)),
        Err(_) => None,
    }
}

/// Does what is asked of a store of this size, over a master of this shape.
pub fn run_day<R: Threads + Wait + Sync>(
    rt: &R,
    alloc: Global,
    watch: &Watch,
    size: Size,
    shape: Shape,
    asks: &[(usize, Act)],
) -> Option<Evening> {
    let (seats, cells, records, earlier) = size;
    let mut master = small_master(alloc, watch, shape, records)?;
    if earlier > 0 && !serve_before(alloc, &mut master, earlier) {
        return None;
    }
    match Blank::make(alloc, cells, seats.max(1).min(64)) {
        Ok(blank) => day::<SlowFleet<'_>, Brand, R>(rt, alloc, blank, master, watch, asks),
        Err(_) => None,
    }
}
