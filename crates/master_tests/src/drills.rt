//! A master's whole life on a small fleet, and its recovery from the backups that are kept, in several orders.

use crate::asks::Ask::{Clean, Copy, Get, Push, Put, Roll, Seal};
use crate::asks::{Ask, steps_of};
use crate::masters::{TABLETS, new_master_in};
use backup::MemoryFleet;
use entry::{NoMemory, Row, Size};
use recovery::master::{If, Master};
use recovery::replay::{Objects, Rebuilt};
use recovery::{Course, Drill, GroupOrder, RecoveryFault, run_drill};
use std::alloc::Global;
use tablet_will::{Will, make_will};

/// An order of groups.
pub enum Order {
    Forward,
    Reverse,
    Given(&'static [usize]),
}

/// What a master is asked, the backups that are kept, the objects that begin the partitions of the will, and the order
/// in which groups are replayed.
pub type Life = (&'static [Ask], &'static [u64], &'static [Size], Order);

fn order_of(alloc: Global, order: &Order) -> Option<GroupOrder> {
    match order {
        Order::Forward => Some(GroupOrder::Forward),
        Order::Reverse => Some(GroupOrder::Reverse),
        Order::Given(numbers) => {
            let numbers = Vec::from_slice(alloc, numbers).ok()?;
            Some(GroupOrder::Given(Row::new(numbers)))
        }
    }
}

/// The will of all tablets in which each of these objects begins a partition but for the first.
pub fn will_of(alloc: Global, sizes: &[Size]) -> Option<Will> {
    make_will(alloc, TABLETS, sizes, u64::MAX, 1).ok()
}

pub fn course_of(alloc: Global, life: &Life) -> Option<Course> {
    let (asks, kept, sizes, order) = life;
    let order = order_of(alloc, order)?;
    let kept = Vec::from_slice(alloc, kept).ok()?;
    let will = will_of(alloc, sizes)?;
    let steps = steps_of(alloc, asks)?;
    Some(Course {
        steps,
        kept,
        will,
        order,
    })
}

/// The keys of table 1 with their versions, and the safe version; or the text of the fault.
pub type Recovered = Result<(&'static [(&'static [u8], u64)], u64), &'static str>;

fn are_keys(objects: &Objects, want: &[(&'static [u8], u64)]) -> bool {
    let mut are_same = objects.len() == want.len();
    for (object, (key, version)) in objects.iter().zip(want) {
        let is_key = object.key.table == 1 && object.key.bytes == *key;
        are_same = are_same && is_key && object.version.get() == *version;
    }
    are_same
}

/// Whether that is what came back.
pub fn is_rebuilt(rebuilt: &Rebuilt, want: &Recovered) -> bool {
    match want {
        Ok((keys, safe)) => are_keys(&rebuilt.objects, keys) && rebuilt.safe.get() == *safe,
        Err(_) => false,
    }
}

fn is_text(alloc: Global, fault: &RecoveryFault, want: &str) -> bool {
    match &format!(in alloc; "{fault}") {
        Ok(text) => text.as_str() == want,
        Err(_) => false,
    }
}

fn is_named(alloc: Global, fault: &RecoveryFault, want: &Recovered) -> bool {
    match want {
        Ok(_) => false,
        Err(name) => is_text(alloc, fault, name),
    }
}

fn is_recovered(
    alloc: Global,
    recovered: &Result<Rebuilt, RecoveryFault>,
    want: &Recovered,
) -> bool {
    match recovered {
        Ok(rebuilt) => is_rebuilt(rebuilt, want),
        Err(fault) => is_named(alloc, fault, want),
    }
}

/// A drill, or the master if memory ran out.
type Drilled = Result<Drill<MemoryFleet>, (NoMemory, Master<MemoryFleet>)>;

/// The format of the log, and which take ends in a fault, though its op is taken. With 0 none does.
type Start = (u64, u64);

/// How many records were durable as the master stopped, how many pushes an open failover still needed, and what came
/// back.
type Want = (u64, u64, Recovered);

/// Whether it stopped so.
fn is_stopped(drill: &Drill<MemoryFleet>, durable: u64, pushes_left: u64) -> bool {
    drill.durable == durable && drill.pushes_left == pushes_left
}

fn is_told(alloc: Global, drilled: &Drilled, want: &Want) -> bool {
    let (durable, pushes_left, recovered) = want;
    match drilled {
        Ok(drill) => {
            is_stopped(drill, *durable, *pushes_left)
                && is_recovered(alloc, &drill.recovered, recovered)
        }
        Err(_) => false,
    }
}

fn is_drilled(alloc: Global, start: Start, course: &Course, want: &Want) -> bool {
    let (format, fault) = start;
    let Some(mut master) = new_master_in(alloc, format) else {
        return false;
    };
    master.fault_at(fault, true);
    let (steps, kept) = (course.steps.as_slice(), course.kept.as_slice());
    let drilled = run_drill(alloc, master, steps, kept, &course.will, &course.order);
    is_told(alloc, &drilled, want)
}

fn is_lived(alloc: Global, start: Start, life: &Life, want: &Want) -> bool {
    match &course_of(alloc, life) {
        Some(course) => is_drilled(alloc, start, course, want),
        None => false,
    }
}

/// Opens the head on backups 1 and 2, puts `a` on both, and puts `b` on backup 1 alone.
const ONE_BEHIND: &[Ask] = &[
    Push(2),
    Put(b"a", b'x', If::Any),
    Push(2),
    Put(b"b", b'x', If::Any),
    Push(1),
];

/// Puts `a` and `b`, and hands both to backup 1 alone.
const BATCH_BEHIND: &[Ask] = &[
    Push(2),
    Put(b"a", b'x', If::Any),
    Put(b"b", b'y', If::Any),
    Push(1),
];

/// Puts `a`, and gets it.
const READ: &[Ask] = &[Push(2), Put(b"a", b'x', If::Any), Get(b"a"), Push(3)];

/// Puts `a` and `b`, rolls to head 2, and puts `a` again.
const TWO_SEGMENTS: &[Ask] = &[
    Push(2),
    Put(b"a", b'x', If::Any),
    Put(b"b", b'y', If::Any),
    Push(2),
    Roll,
    Push(4),
    Put(b"a", b'z', If::Any),
    Push(2),
];

/// The same, and then a pass takes segment 1 out of the log: `b` goes to survivor 3, and head 4 commits it.
const COMMITTED: &[Ask] = &[
    Push(2),
    Put(b"a", b'x', If::Any),
    Put(b"b", b'y', If::Any),
    Push(2),
    Roll,
    Push(4),
    Put(b"a", b'z', If::Any),
    Push(2),
    Clean(&[1]),
    Copy,
    Copy,
    Seal,
    Seal,
    Roll,
    Push(4),
];

/// Puts `a` and `b`, and pushes `b` until nothing is left, also if its first Extend ends in a fault.
const PUSHED: &[Ask] = &[
    Push(2),
    Put(b"a", b'x', If::Any),
    Push(2),
    Put(b"b", b'x', If::Any),
    Push(9),
];

/// Format 1, without a fault.
const CALM: Start = (1, 0);

/// Format 2, and the fifth take ends in a fault.
const FAILS: Start = (2, 5);

/// The places of `a` and `b`.
const SPLIT: &[Size] = &[
    Size {
        table: 1,
        place: 0x6100_0000_0000_0000,
        bytes: 1,
    },
    Size {
        table: 1,
        place: 0x6200_0000_0000_0000,
        bytes: 1,
    },
];

/// All backups.
const ALL: &[u64] = &[0, 1, 2];

const BOTH: Recovered = Ok((&[(b"a", 1), (b"b", 2)], 3));

const AGAIN: Recovered = Ok((&[(b"a", 2), (b"b", 2)], 3));

const ONE: Recovered = Ok((&[(b"a", 1)], 2));

const EMPTY: Recovered = Ok((&[], 1));

const NO_HEAD: Recovered = Err("NoHead");

const ROWS: &[(Start, Life, Want)] = &[
    (CALM, (READ, ALL, &[], Order::Forward), (2, 0, ONE)),
    (CALM, (ONE_BEHIND, ALL, &[], Order::Forward), (1, 0, BOTH)),
    (CALM, (ONE_BEHIND, ALL, &[], Order::Reverse), (1, 0, BOTH)),
    (
        CALM,
        (ONE_BEHIND, &[2, 0], &[], Order::Forward),
        (1, 0, ONE),
    ),
    (
        CALM,
        (ONE_BEHIND, &[2, 0], &[], Order::Reverse),
        (1, 0, ONE),
    ),
    (
        CALM,
        (ONE_BEHIND, &[0], &[], Order::Forward),
        (1, 0, NO_HEAD),
    ),
    (
        CALM,
        (ONE_BEHIND, &[0], &[], Order::Reverse),
        (1, 0, NO_HEAD),
    ),
    (CALM, (BATCH_BEHIND, ALL, &[], Order::Forward), (0, 0, BOTH)),
    (
        CALM,
        (BATCH_BEHIND, &[1, 0], &[], Order::Forward),
        (0, 0, BOTH),
    ),
    (
        CALM,
        (BATCH_BEHIND, &[2, 0], &[], Order::Forward),
        (0, 0, EMPTY),
    ),
    // The head is open on backup 1 alone, and nothing was put. If that one is lost, no head is left.
    (CALM, (&[], ALL, &[], Order::Forward), (0, 0, NO_HEAD)),
    (
        CALM,
        (&[Push(1)], &[0, 1], &[], Order::Forward),
        (0, 0, EMPTY),
    ),
    (
        CALM,
        (&[Push(1)], &[0, 2], &[], Order::Forward),
        (0, 0, NO_HEAD),
    ),
    // One backup is lost after a roll, and after a commit.
    (
        CALM,
        (TWO_SEGMENTS, &[1, 2], SPLIT, Order::Forward),
        (3, 0, AGAIN),
    ),
    (
        CALM,
        (TWO_SEGMENTS, &[0, 2], SPLIT, Order::Forward),
        (3, 0, AGAIN),
    ),
    (
        CALM,
        (TWO_SEGMENTS, &[0, 1], SPLIT, Order::Forward),
        (3, 0, AGAIN),
    ),
    (CALM, (COMMITTED, ALL, SPLIT, Order::Forward), (3, 0, AGAIN)),
    (
        CALM,
        (COMMITTED, &[1, 2], SPLIT, Order::Forward),
        (3, 0, AGAIN),
    ),
    (
        CALM,
        (COMMITTED, &[0, 2], SPLIT, Order::Reverse),
        (3, 0, AGAIN),
    ),
    (
        CALM,
        (COMMITTED, &[0, 1], SPLIT, Order::Forward),
        (3, 0, AGAIN),
    ),
    // A failover is open, and the durable count stays. Seven pushes are left: an Extend, three Opens, the raise and two
    // Closes.
    (FAILS, (ONE_BEHIND, ALL, &[], Order::Forward), (1, 7, BOTH)),
    (
        FAILS,
        (ONE_BEHIND, &[0, 2], &[], Order::Forward),
        (1, 7, ONE),
    ),
    (FAILS, (PUSHED, &[0, 1], &[], Order::Forward), (2, 0, BOTH)),
    (FAILS, (PUSHED, &[0, 2], &[], Order::Forward), (2, 0, BOTH)),
    (FAILS, (PUSHED, &[1, 2], &[], Order::Forward), (2, 0, BOTH)),
    (
        FAILS,
        (PUSHED, &[1], &[], Order::Forward),
        (2, 0, Err("HeadTooOld 1")),
    ),
    // Groups 0 and 1 are of segment 1, and 2 and 3 of segment 2. A given order counts as forwards.
    (
        CALM,
        (TWO_SEGMENTS, ALL, SPLIT, Order::Forward),
        (3, 0, AGAIN),
    ),
    (
        CALM,
        (TWO_SEGMENTS, ALL, SPLIT, Order::Given(&[2, 0, 3, 1])),
        (3, 0, AGAIN),
    ),
    (
        CALM,
        (TWO_SEGMENTS, ALL, SPLIT, Order::Given(&[1, 3, 0, 2])),
        (3, 0, AGAIN),
    ),
    (
        CALM,
        (TWO_SEGMENTS, ALL, SPLIT, Order::Given(&[3, 2, 1, 0])),
        (3, 0, AGAIN),
    ),
    (
        CALM,
        (TWO_SEGMENTS, ALL, SPLIT, Order::Given(&[0, 3, 2, 1, 3])),
        (3, 0, Err("Double 2")),
    ),
    (
        CALM,
        (TWO_SEGMENTS, ALL, SPLIT, Order::Given(&[2, 0, 3, 0])),
        (3, 0, Err("Double 1")),
    ),
    (
        CALM,
        (TWO_SEGMENTS, ALL, SPLIT, Order::Given(&[3, 0, 1])),
        (3, 0, Err("MissingGroup 2")),
    ),
    (
        CALM,
        (TWO_SEGMENTS, ALL, SPLIT, Order::Given(&[3, 0, 2])),
        (3, 0, Err("MissingGroup 1")),
    ),
    (
        CALM,
        (TWO_SEGMENTS, ALL, SPLIT, Order::Given(&[4, 0, 3, 1, 2])),
        (3, 0, Err("Stranger")),
    ),
];

#[test]
fn a_drill_recovers_what_is_left(rt: HostRuntime) {
    for (place, (start, life, want)) in ROWS.iter().enumerate() {
        assert!(rt; is_lived(rt.alloc(), *start, life, want), "row {place}");
    }
}
