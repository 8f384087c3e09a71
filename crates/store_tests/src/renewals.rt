//! Stores that are renewed: days of one master, each in a store of its own, which goes on where the last one was
//! paused.

ghost use Rattle.std.specs.Prelude.{◌≡◌, ◌≤◌, ◌+◌, [], length};
ghost use Rattle.history_row.specs.Rows.{IsRowOf};
ghost use Rattle.store_clients.specs.locked_log.Made.{IsMade};
ghost use Rattle.store_clients.specs.master.World.{world};

use crate::asks::{Act, Do};
use crate::masters::{HALTING, small_master};
use crate::slow::{SlowFleet, Watch};
use crate::stores::answered;
use replica::Bench;
use std::alloc::Global;
use std::marker::Brand;
use std::sync::Wait;
use std::test::Fail;
use std::thread::Threads;
use store_clients::locked_log::{Blank, Naming, Paused, Seat, Store};
use store_clients::master::{If, Refusal};

/// How many cells a day has beside those of the records that are filed anew, and what is asked.
type Day = (u64, &'static [(usize, Act)]);

/// Seat 1 has a record that it wasn't answered, and seat 0 makes calls until no cell is left.
const FIRST: &[(usize, Act)] = &[
    (0, Act::Calls(Do::Put(b"a", b"x", If::Any), 0, ("ok", 1))),
    (1, Act::Limits(0)),
    (
        1,
        Act::Fails(Do::Put(b"b", b"y", If::Any), Some(1), Refusal::Spent),
    ),
    (0, Act::Limits(u64::MAX)),
    (0, Act::Repeats(Do::Get(b"b"), 1_498)),
    (0, Act::FindsNoCell(Do::Get(b"b"), None)),
    (0, Act::Forgets(0)),
    (0, Act::Counts(1_500, 1_499)),
];

/// Each seat has its number and its first number, and seat 1 settles its record. Then a block is forgotten. A call gets
/// the next place, until no cell is left.
const SECOND: &[(usize, Act)] = &[
    (0, Act::Counts(1_500, 1_498)),
    (1, Act::Counts(0, 1)),
    (2, Act::Counts(0, 0)),
    (0, Act::Settles(1, None)),
    (0, Act::Settles(9, None)),
    (1, Act::Settles(0, None)),
    (0, Act::Forgets(0)),
    (1, Act::Settles(1, Some(("ok", 2)))),
    (1, Act::Counts(2, 1)),
    (0, Act::Forgets(1_024)),
    (0, Act::Calls(Do::Get(b"b"), 1_500, ("found", 2))),
    (2, Act::Calls(Do::Get(b"b"), 1_501, ("found", 2))),
    (0, Act::FindsNoCell(Do::Get(b"b"), None)),
];

/// No record is left to settle, so none is filed anew. The first numbers are those of the day before.
const THIRD: &[(usize, Act)] = &[
    (0, Act::Counts(1_501, 0)),
    (1, Act::Counts(2, 0)),
    (2, Act::Counts(1_502, 0)),
    (1, Act::Settles(1, None)),
    (2, Act::Settles(1_501, None)),
    (1, Act::Calls(Do::Get(b"b"), 1_502, ("found", 2))),
    (1, Act::FindsNoCell(Do::Get(b"b"), None)),
];

const DAYS: &[Day] = &[(1_500, FIRST), (2, SECOND), (1, THIRD)];

/// Does what is asked of a store, and pauses it. How many were answered as wanted, and what the store leaves.
fn pass<F: Bench + Send + Drop, B: Naming + Send + Sync, R: Threads + Wait + Sync>(
    rt: &R,
    alloc: Global,
    store: Store<F, B>,
    mut seats: Vec<Seat<B>>,
    watch: &Watch,
    asks: &[(usize, Act)],
) -> Option<(usize, Paused<F>)> {
    let mut receipts = Vec::new(alloc);
    let answered = answered(rt, alloc, &store, watch, &mut seats, &mut receipts, asks);
    match store.pause(seats) {
        Ok((paused, _row)) => Some((answered, paused)),
        Err(_) => None,
    }
}

/// The day of a store that goes on where one was paused.
fn day<F: Bench + Send + Drop, B: Naming + Send + Sync, R: Threads + Wait + Sync>(
    rt: &R,
    alloc: Global,
    blank: Blank,
    paused: Paused<F>,
    watch: &Watch,
    asks: &[(usize, Act)],
) -> Option<(usize, Paused<F>)>
    requires empty { IsRowOf blank.row [] }
    requires room { length paused.master.knows.history ≤ paused.start + length blank.row }
    requires seats { blank.seats ≡ length paused.book }
    requires cells { (blank.cells ≡ B.cells) × (blank.seats ≡ B.made.seats) }
    requires start { B.start ≡ paused.start }
    requires ledger { (blank.name ≡ B.name) × (blank.parts ≡ B.parts) }
    requires mark { blank.table ≡ B.table }
    requires made { IsMade B.made (world F.Fleet.state paused.master) }
{
    match Store::<F, B>::renew(alloc, blank, paused) {
        Ok((store, seats)) => pass(rt, alloc, store, seats, watch, asks),
        Err(_) => None,
    }
}

/// A day with so many cells more, after a pause.
fn run_day<'a, R: Threads + Wait + Sync>(
    rt: &R,
    alloc: Global,
    paused: Paused<SlowFleet<'a>>,
    watch: &'a Watch,
    asked: &Day,
) -> Option<(usize, Paused<SlowFleet<'a>>)> {
    match paused.blank(alloc, asked.0.min(1_000_000)) {
        Ok(blank) => { day::<SlowFleet<'a>, Brand, R>(rt, alloc, blank, paused, watch, asked.1) }
        Err(_) => None,
    }
}

/// How many were answered as wanted on each day, one behind the other, of a store with three seats.
fn run_days<R: Threads + Wait + Sync>(rt: &R, alloc: Global, watch: &Watch) -> Option<usize> {
    let master = small_master(alloc, watch, HALTING, 3_000)?;
    let mut paused = match Paused::over(alloc, master, 3) {
        Ok(paused) => paused,
        Err(_) => return None,
    };
    let mut all = 0;
    for asked in DAYS {
        match run_day(rt, alloc, paused, watch, asked) {
            Some((answered, next)) => {
                all = answered.saturating_add(all);
                paused = next;
            }
            None => return None,
        }
    }
    Some(all)
}

/// A record that was left without an answer is settled in the next store, across a forgetting.
#[test]
fn stores_go_on(rt: HostRuntime) -> Result<(), Fail> {
    let watch = Watch::new();
    let came = run_days(&rt, rt.alloc(), &watch);
    let wanted = Some(FIRST.len() + SECOND.len() + THIRD.len());
    assert!(rt; came == wanted, "{came:?}");
    Ok(())
}
