//! Days of a store with one seat or two: what a seat is answered, a record that is left without an answer and one that
//! is settled, also in a failover or for want of memory, receipts that another seat is shown, the mark, also while a
//! push waits, and a cleaner that makes room.

use crate::asks::{Act, Do};
use crate::masters::{HALTING, LARGE, LASTING, RECORDS, Shape};
use crate::slow::Watch;
use crate::stores::{Evening, Size, run_day};
use std::alloc::Global;
use std::sync::Wait;
use std::test::Fail;
use std::thread::Threads;
use store_clients::master::{If, Refusal};

/// Puts and a delete whose conditions hold or don't.
const CONDITIONS: &[(usize, Act)] = &[
    (0, Act::Calls(Do::Put(b"a", b"x", If::Absent), 0, ("ok", 1))),
    (
        0,
        Act::Calls(Do::Put(b"a", b"x", If::Absent), 1, ("mismatch", 1)),
    ),
    (
        0,
        Act::Calls(Do::Put(b"a", b"x", If::Version(1)), 2, ("ok", 2)),
    ),
    (
        0,
        Act::Calls(Do::Put(b"a", b"x", If::Version(1)), 3, ("mismatch", 2)),
    ),
    (
        0,
        Act::Calls(Do::Put(b"b", b"y", If::Version(1)), 4, ("mismatch", 0)),
    ),
    (0, Act::Calls(Do::Delete(b"b"), 5, ("none", 0))),
    (0, Act::Counts(6, 6)),
];

/// A put and a delete hand one unit to each of two replicas. A get, a put whose condition fails and a delete of nothing
/// hand over nothing, and are answered by the one step that applies them. The first put opens the first head before
/// that.
const TAKEN: &[(usize, Act)] = &[
    (0, Act::Takes(Do::Put(b"a", b"x", If::Any), 0, ("ok", 1), 4)),
    (0, Act::Takes(Do::Put(b"a", b"x", If::Any), 1, ("ok", 2), 2)),
    (0, Act::Takes(Do::Get(b"a"), 2, ("found", 2), 0)),
    (0, Act::Takes(Do::Put(b"b", b"x", If::Any), 3, ("ok", 2), 2)),
    (
        0,
        Act::Takes(Do::Put(b"a", b"x", If::Absent), 4, ("mismatch", 2), 0),
    ),
    (0, Act::Takes(Do::Delete(b"a"), 5, ("ok", 2), 2)),
    (0, Act::Takes(Do::Delete(b"a"), 6, ("none", 0), 0)),
    (0, Act::Takes(Do::Get(b"a"), 7, ("none", 0), 0)),
];

/// A value that no segment of 512 bytes may have.
const LONG: &[u8] = &[b'x'; 77];

/// A refused command leaves no record. One that the fleet has no take for leaves its record; the seat's next call
/// pushes it, and is answered behind it.
const UNSURE: &[(usize, Act)] = &[
    (0, Act::Calls(Do::Put(b"a", b"x", If::Any), 0, ("ok", 1))),
    (
        0,
        Act::Fails(Do::Put(b"a", LONG, If::Any), None, Refusal::TooBig),
    ),
    (0, Act::Limits(1)),
    (
        0,
        Act::Fails(Do::Put(b"b", b"y", If::Any), Some(1), Refusal::Spent),
    ),
    (0, Act::Counts(1, 2)),
    (0, Act::Limits(u64::MAX)),
    (0, Act::Calls(Do::Get(b"b"), 2, ("found", 2))),
    (0, Act::Counts(3, 3)),
];

/// Three records of seat 0 and one of seat 1 are left without an answer. Seat 0 settles neither seat 1's record nor one
/// that there isn't. Once the fleet takes ops again, it settles its second, and after that neither the one below it nor
/// the same again. Seat 1 settles its own, and seat 0's last is durable with that.
const SETTLED: &[(usize, Act)] = &[
    (0, Act::Calls(Do::Put(b"a", b"x", If::Any), 0, ("ok", 1))),
    (0, Act::Limits(0)),
    (
        0,
        Act::Fails(Do::Put(b"b", b"y", If::Any), Some(1), Refusal::Spent),
    ),
    (0, Act::Fails(Do::Get(b"b"), Some(2), Refusal::Spent)),
    (1, Act::Fails(Do::Delete(b"a"), Some(3), Refusal::Spent)),
    (0, Act::Fails(Do::Get(b"a"), Some(4), Refusal::Spent)),
    (0, Act::Settles(3, None)),
    (0, Act::Settles(5, None)),
    (0, Act::Limits(u64::MAX)),
    (0, Act::Settles(2, Some(("found", 2)))),
    (0, Act::Counts(3, 4)),
    (0, Act::Settles(1, None)),
    (0, Act::Settles(2, None)),
    (1, Act::Counts(0, 1)),
    (1, Act::Settles(3, Some(("ok", 1)))),
    (1, Act::Counts(4, 1)),
    (0, Act::Settles(4, Some(("none", 0)))),
    (0, Act::Counts(5, 4)),
    (0, Act::Calls(Do::Get(b"b"), 5, ("found", 2))),
];

/// One seat makes two calls. Another is shown both receipts, the later first, and its own call is above them. Each
/// receipt agrees with a second one of its place. Then both read the mark.
const MET: &[(usize, Act)] = &[
    (0, Act::Calls(Do::Put(b"a", b"x", If::Any), 0, ("ok", 1))),
    (0, Act::Calls(Do::Put(b"a", b"x", If::Any), 1, ("ok", 2))),
    (1, Act::Reads(0)),
    (1, Act::Meets(1)),
    (1, Act::Counts(2, 0)),
    (1, Act::Meets(0)),
    (1, Act::Counts(2, 0)),
    (1, Act::Calls(Do::Put(b"a", b"x", If::Any), 2, ("ok", 3))),
    (0, Act::Agrees(0)),
    (1, Act::Agrees(2)),
    (1, Act::Raises(2)),
    (0, Act::Raises(1)),
    (0, Act::Reads(2)),
    (1, Act::Reads(2)),
];

const X: Do = Do::Put(b"a", &[b'x'; 76], If::Any);

/// Four rolls make the log full. A cleaner frees four segments in 39 turns, and a put has room.
const TURNED: &[(usize, Act)] = &[
    (0, Act::Calls(X, 0, ("ok", 1))),
    (0, Act::Calls(X, 1, ("ok", 2))),
    (0, Act::Calls(X, 2, ("ok", 3))),
    (0, Act::Calls(X, 3, ("ok", 4))),
    (0, Act::Calls(X, 4, ("ok", 5))),
    (0, Act::Calls(X, 5, ("ok", 6))),
    (0, Act::Calls(X, 6, ("ok", 7))),
    (0, Act::Calls(X, 7, ("ok", 8))),
    (0, Act::Calls(X, 8, ("ok", 9))),
    (0, Act::Calls(X, 9, ("ok", 10))),
    (0, Act::Calls(X, 10, ("ok", 11))),
    (0, Act::Calls(X, 11, ("ok", 12))),
    (0, Act::Calls(X, 12, ("ok", 13))),
    (0, Act::Calls(X, 13, ("ok", 14))),
    (0, Act::Calls(X, 14, ("ok", 15))),
    (0, Act::Fails(X, None, Refusal::Full)),
    (0, Act::Turns(("begun", 6, 1))),
    (0, Act::Turns(("dropped", 0, 0))),
    (0, Act::Turns(("carried", 0, 0))),
    (0, Act::Turns(("dropped", 0, 0))),
    (0, Act::Turns(("carried", 0, 0))),
    (0, Act::Turns(("dropped", 0, 0))),
    (0, Act::Turns(("carried", 0, 0))),
    (0, Act::Turns(("dropped", 0, 0))),
    (0, Act::Turns(("carried", 0, 0))),
    (0, Act::Turns(("dropped", 0, 0))),
    (0, Act::Turns(("carried", 0, 0))),
    (0, Act::Turns(("dropped", 0, 0))),
    (0, Act::Turns(("carried", 0, 0))),
    (0, Act::Turns(("dropped", 0, 0))),
    (0, Act::Turns(("carried", 0, 0))),
    (0, Act::Turns(("dropped", 0, 0))),
    (0, Act::Turns(("carried", 0, 0))),
    (0, Act::Turns(("dropped", 0, 0))),
    (0, Act::Turns(("carried", 0, 0))),
    (0, Act::Turns(("dropped", 0, 0))),
    (0, Act::Turns(("carried", 0, 0))),
    (0, Act::Turns(("dropped", 0, 0))),
    (0, Act::Turns(("carried", 0, 0))),
    (0, Act::Turns(("dropped", 0, 0))),
    (0, Act::Turns(("sealed", 0, 0))),
    (0, Act::Turns(("sealed", 1, 0))),
    (0, Act::Turns(("rolling", 7, 0))),
    (0, Act::Turns(("opened", 1, 7))),
    (0, Act::Turns(("opened", 2, 7))),
    (0, Act::Turns(("closed", 2, 5))),
    (0, Act::Turns(("closed", 0, 5))),
    (0, Act::Turns(("freed", 1, 1))),
    (0, Act::Turns(("freed", 1, 2))),
    (0, Act::Turns(("freed", 2, 2))),
    (0, Act::Turns(("freed", 2, 0))),
    (0, Act::Turns(("freed", 3, 0))),
    (0, Act::Turns(("freed", 3, 1))),
    (0, Act::Turns(("freed", 4, 1))),
    (0, Act::Turns(("freed", 4, 2))),
    (0, Act::Calls(X, 15, ("ok", 16))),
];

/// One seat raises the mark by its receipt of place 5, another by its own of place 3. Both then read 5.
const MARKED: &[(usize, Act)] = &[
    (0, Act::Calls(Do::Get(b"a"), 0, ("none", 0))),
    (0, Act::Calls(Do::Get(b"a"), 1, ("none", 0))),
    (0, Act::Calls(Do::Get(b"a"), 2, ("none", 0))),
    (1, Act::Calls(Do::Get(b"a"), 3, ("none", 0))),
    (1, Act::Calls(Do::Get(b"a"), 4, ("none", 0))),
    (0, Act::Calls(Do::Get(b"a"), 5, ("none", 0))),
    (0, Act::Raises(5)),
    (1, Act::Raises(3)),
    (0, Act::Reads(5)),
    (1, Act::Reads(5)),
];

/// Calls of two seats; then a push waits, and the mark is raised to the place of the second call and read.
const OVERTAKEN: &[(usize, Act)] = &[
    (0, Act::Calls(Do::Get(b"a"), 0, ("none", 0))),
    (1, Act::Calls(Do::Get(b"a"), 1, ("none", 0))),
    (0, Act::Overtakes(1)),
];

/// A backup fails in a put's first push, and the put pushes the failover to its end. Later another fails, and no
/// further one may: the master is halted.
const FAILED_OVER: &[(usize, Act)] = &[
    (0, Act::Calls(Do::Put(b"a", b"x", If::Any), 0, ("ok", 1))),
    (0, Act::Faults(1)),
    (0, Act::Calls(Do::Put(b"b", b"y", If::Any), 1, ("ok", 2))),
    (0, Act::Counts(2, 2)),
    (0, Act::Faults(1)),
    (
        0,
        Act::Fails(Do::Put(b"c", b"z", If::Any), Some(2), Refusal::Halted),
    ),
    (0, Act::Stays(2, Refusal::Halted)),
    (0, Act::Counts(2, 3)),
];

/// A put is left in a failover since the fleet takes no more ops. Until it does, the put isn't settled, and another
/// seat's has no record. Then that seat's pushes the failover to its end, and the first is settled.
const LEFT: &[(usize, Act)] = &[
    (0, Act::Calls(Do::Put(b"a", b"x", If::Any), 0, ("ok", 1))),
    (0, Act::Faults(1)),
    (0, Act::Limits(2)),
    (
        0,
        Act::Fails(Do::Put(b"b", b"y", If::Any), Some(1), Refusal::Spent),
    ),
    (0, Act::Stays(1, Refusal::Spent)),
    (
        1,
        Act::Fails(Do::Put(b"c", b"z", If::Any), None, Refusal::Spent),
    ),
    (0, Act::Limits(u64::MAX)),
    (1, Act::Calls(Do::Put(b"c", b"z", If::Any), 2, ("ok", 3))),
    (0, Act::Settles(1, Some(("ok", 2)))),
    (0, Act::Counts(2, 2)),
];

/// A put is left before its first push. A backup fails when it is settled, and `settle` pushes the failover to its end,
/// also from the midst of it.
const SETTLED_OVER: &[(usize, Act)] = &[
    (0, Act::Calls(Do::Put(b"a", b"x", If::Any), 0, ("ok", 1))),
    (0, Act::Limits(0)),
    (
        0,
        Act::Fails(Do::Put(b"b", b"y", If::Any), Some(1), Refusal::Spent),
    ),
    (0, Act::Limits(3)),
    (0, Act::Faults(1)),
    (0, Act::Stays(1, Refusal::Spent)),
    (0, Act::Limits(u64::MAX)),
    (0, Act::Settles(1, Some(("ok", 2)))),
    (0, Act::Counts(2, 2)),
];

/// A backup fails that has replicas of two thirds of forty closed segments. Each is sealed anew before the put is
/// answered, which lets another thread in meanwhile.
const MENDED: &[(usize, Act)] = &[
    (0, Act::Calls(Do::Put(b"a", b"x", If::Any), 0, ("ok", 1))),
    (0, Act::Rolls(40)),
    (0, Act::Faults(1)),
    (
        0,
        Act::LetsIn(Do::Put(b"b", b"y", If::Any), 1, ("ok", 2), 30),
    ),
    (0, Act::Calls(Do::Put(b"c", b"z", If::Any), 2, ("ok", 3))),
];

/// A take is refused for memory: in a put, in settling it, and in a roll that has to come before a put. None of them
/// tries again.
const SHORT: &[(usize, Act)] = &[
    (0, Act::Calls(X, 0, ("ok", 1))),
    (0, Act::RunsShort),
    (0, Act::Fails(X, Some(1), Refusal::NoMemory)),
    (0, Act::RunsShort),
    (0, Act::Stays(1, Refusal::NoMemory)),
    (0, Act::Settles(1, Some(("ok", 2)))),
    (0, Act::Calls(X, 2, ("ok", 3))),
    (0, Act::RunsShort),
    (0, Act::Fails(X, None, Refusal::NoMemory)),
    (0, Act::Calls(X, 3, ("ok", 4))),
];

/// A look pushes nothing, though a record waits for it; and it compacts nothing, though all but one are dead.
const LOOKED: &[(usize, Act)] = &[
    (0, Act::Calls(X, 0, ("ok", 1))),
    (0, Act::Calls(X, 1, ("ok", 2))),
    (0, Act::Calls(X, 2, ("ok", 3))),
    (0, Act::Calls(X, 3, ("ok", 4))),
    (0, Act::Limits(0)),
    (0, Act::Fails(X, Some(4), Refusal::Spent)),
    (0, Act::Limits(u64::MAX)),
    (0, Act::Looks(15)),
];

/// A store over a master with three gets and a put, which isn't durable, has two cells. What is durable counts as
/// shown, and no earlier record is settled. Two calls find a cell each, and a third finds none, which leaves no record.
const SHARED: &[(usize, Act)] = &[
    (0, Act::Counts(3, 0)),
    (0, Act::Settles(3, None)),
    (0, Act::Settles(1, None)),
    (0, Act::Calls(Do::Put(b"a", b"x", If::Any), 4, ("ok", 2))),
    (0, Act::Counts(5, 1)),
    (0, Act::Settles(3, None)),
    (
        0,
        Act::FindsNoCell(Do::Put(b"a", LONG, If::Any), Some(Refusal::TooBig)),
    ),
    (0, Act::Calls(Do::Get(b"e"), 5, ("found", 1))),
    (
        0,
        Act::FindsNoCell(Do::Put(b"a", LONG, If::Any), Some(Refusal::TooBig)),
    ),
    (0, Act::FindsNoCell(Do::Get(b"e"), None)),
    (0, Act::Counts(6, 2)),
];

/// The history keeps 1,500 records. Seat 1 leaves its second without an answer, which holds all later ones: after 1,498
/// gets of seat 0 the history is full, and nothing is forgotten. Once the record is settled, a block is forgotten,
/// though seat 2 never calls, and calls go on.
const FORGOTTEN: &[(usize, Act)] = &[
    (1, Act::Calls(Do::Put(b"a", b"x", If::Any), 0, ("ok", 1))),
    (1, Act::Limits(0)),
    (
        1,
        Act::Fails(Do::Put(b"b", b"y", If::Any), Some(1), Refusal::Spent),
    ),
    (0, Act::Limits(u64::MAX)),
    (0, Act::Repeats(Do::Get(b"b"), 1_498)),
    (0, Act::Forgets(0)),
    (0, Act::Fails(Do::Get(b"b"), None, Refusal::HistoryFull)),
    (1, Act::Settles(1, Some(("ok", 2)))),
    (0, Act::Forgets(1_024)),
    (0, Act::Settles(9, None)),
    (0, Act::Calls(Do::Get(b"b"), 1_500, ("found", 2))),
    (0, Act::Forgets(1_024)),
    (2, Act::Counts(0, 0)),
];

/// One key is put again and again. Without a cleaner the log would be full after some twenty puts. One that tends it
/// rests while memory isn't short, and then keeps room for all.
const TENDED: &[(usize, Act)] = &[(0, Act::Tends(X, 8, false)), (0, Act::Tends(X, 90, true))];

/// The size of a store, the shape of its master and what they ask; then the place behind the last receipt that the row
/// told at its close, and how many seglets the master used.
type Day = (Size, Shape, &'static [(usize, Act)], usize, u64);

/// One seat, and two, over a new master.
const ONE: Size = (1, RECORDS, RECORDS, 0);

const TWO: Size = (2, RECORDS, RECORDS, 0);

const DAYS: &[Day] = &[
    (ONE, HALTING, CONDITIONS, 6, 8),
    (ONE, HALTING, TAKEN, 8, 8),
    (ONE, HALTING, UNSURE, 3, 8),
    (TWO, HALTING, SETTLED, 6, 8),
    (TWO, HALTING, MET, 3, 8),
    (ONE, HALTING, TURNED, 16, 22),
    (TWO, HALTING, MARKED, 6, 8),
    (ONE, LASTING, FAILED_OVER, 2, 10),
    (TWO, LASTING, LEFT, 2, 10),
    (ONE, LASTING, SETTLED_OVER, 2, 10),
    (ONE, LARGE, MENDED, 3, 317),
    (ONE, HALTING, SHORT, 4, 15),
    (ONE, HALTING, LOOKED, 4, 15),
    ((1, 2, RECORDS, 3), HALTING, SHARED, 6, 8),
    ((3, 2_000, 1_500, 0), HALTING, FORGOTTEN, 1_501, 8),
    ((1, 100, 100, 0), LASTING, TENDED, 0, 32),
];

/// How a day ended.
fn end_of<R: Threads + Wait + Sync>(rt: &R, alloc: Global, day: &Day) -> Option<Evening> {
    let watch = Watch::new();
    run_day(rt, alloc, &watch, day.0, day.1, day.2)
}

#[test]
fn stores_answer_as_wanted(rt: HostRuntime) -> Result<(), Fail> {
    for (at, day) in DAYS.iter().enumerate() {
        let came = end_of(&rt, rt.alloc(), day);
        let wanted = Some((day.2.len(), day.3, day.4));
        assert!(rt; came == wanted, "day {at}: {came:?}");
    }
    Ok(())
}

/// One thread raises the mark and another reads it, while a third holds the lock.
#[test]
fn mark_free(rt: HostRuntime) -> Result<(), Fail> {
    let came = end_of(&rt, rt.alloc(), &(TWO, HALTING, OVERTAKEN, 2, 8));
    assert!(rt; came == Some((3, 2, 8)), "{came:?}");
    Ok(())
}
