//! Ops on a small fleet: some fit, and some don't.

use backup::MemoryFleet;
use replica::{Act, Bench, Fleet, Holding, Op, TakeFault};
use std::alloc::Global;

/// A backup, a master and a segment.
type Place = (u64, u64, u64);

/// A replica: where it is, its bytes, and whether it is open.
type Shown = (Place, &'static [u8], bool);

/// A call of the fleet, and its answer.
enum Call {
    Take(Place, Act<'static>, Result<(), TakeFault>),
    /// A master, and the id of a head.
    Raise(u64, u64, Result<(), TakeFault>),
    /// The least head of a master.
    Least(u64, u64),
    Limit(u64),
    /// Which take is to end in a fault, and whether it is taken.
    Fault(u64, bool),
    End(u64),
    Lose(u64),
    /// The master that is kept.
    Retire(u64, Result<(), TakeFault>),
    /// How many backups there are, how many ops they took, and how many ended in a fault.
    Counts(u64, u64, u64),
    /// What one backup holds.
    Held(u64, &'static [Shown]),
    /// What all backups hold.
    All(&'static [Shown]),
}

fn is_shown(holding: &Holding<'_>, want: &Shown) -> bool {
    let ((backup, master, segment), bytes, is_open) = *want;
    let is_there = holding.backup == backup && holding.master == master;
    let is_same = holding.bytes.as_slice() == bytes && holding.is_open == is_open;
    is_there && holding.segment == segment && is_same
}

fn are_shown(holdings: &[Holding<'_>], want: &[Shown]) -> bool {
    let mut are_same = holdings.len() == want.len();
    for (holding, shown) in holdings.iter().zip(want) {
        are_same = are_same && is_shown(holding, shown);
    }
    are_same
}

fn is_taken(
    fleet: &mut MemoryFleet,
    place: Place,
    act: Act<'_>,
    want: Result<(), TakeFault>,
) -> bool {
    let (backup, master, segment) = place;
    let op = Op {
        master,
        segment,
        act,
    };
    fleet.take(backup, &op) == want
}

fn is_held(alloc: Global, fleet: &MemoryFleet, backup: u64, want: &[Shown]) -> bool {
    match &fleet.holdings(alloc, backup) {
        Ok(holdings) => are_shown(holdings.as_slice(), want),
        Err(_) => false,
    }
}

fn are_all(alloc: Global, fleet: &MemoryFleet, want: &[Shown]) -> bool {
    match &fleet.inventory(alloc) {
        Ok(inventory) => are_shown(inventory.as_slice(), want),
        Err(_) => false,
    }
}

/// Makes the call. Whether that is its answer.
fn is_answered(alloc: Global, fleet: &mut MemoryFleet, call: &Call) -> bool {
    match call {
        Call::Take(place, act, want) => is_taken(fleet, *place, *act, *want),
        Call::Raise(master, id, want) => fleet.raise(*master, *id) == *want,
        Call::Least(master, want) => fleet.least(*master) == *want,
        Call::Limit(ops) => {
            fleet.limit(*ops);
            true
        }
        Call::Fault(takes, taken) => {
            fleet.fault_at(*takes, *taken);
            true
        }
        Call::End(want) => fleet.end() == *want,
        Call::Lose(backup) => {
            fleet.lose(*backup);
            true
        }
        Call::Retire(keep, want) => fleet.retire(*keep) == *want,
        Call::Counts(backups, takes, faults) => {
            (fleet.backups(), fleet.takes(), fleet.faults()) == (*backups, *takes, *faults)
        }
        Call::Held(backup, want) => is_held(alloc, fleet, *backup, want),
        Call::All(want) => are_all(alloc, fleet, want),
    }
}

/// How many calls of a fleet with so many backups, from the first on, have the answers that they say. It is none if
/// memory runs out.
fn passed(alloc: Global, backups: u64, calls: &[Call]) -> usize {
    let Ok(mut fleet) = MemoryFleet::new(alloc, backups) else {
        return 0;
    };
    for (place, call) in calls.iter().enumerate() {
        if !is_answered(alloc, &mut fleet, call) {
            return place;
        }
    }
    calls.len()
}

const OPEN: Act<'static> = Act::Open(b"ab");

const EXTEND: Act<'static> = Act::Extend { at: 2, bytes: b"c" };

const SEAL: Act<'static> = Act::Seal(b"de");

const SHUT: Act<'static> = Act::Seal(b"ab");

const WRONG: Result<(), TakeFault> = Err(TakeFault::Wrong);

const SPENT: Result<(), TakeFault> = Err(TakeFault::Spent);

const FAULT: Result<(), TakeFault> = Err(TakeFault::Fault);

/// An op is taken if it fits.
const FITS: &[Call] = &[
    // a replica that is open
    Call::Take((0, 1, 7), OPEN, Ok(())),
    Call::Take((0, 1, 7), EXTEND, Ok(())),
    Call::Take((0, 1, 7), OPEN, WRONG),
    Call::Take((0, 1, 7), EXTEND, WRONG),
    Call::Take((0, 1, 7), SEAL, WRONG),
    // none
    Call::Take((1, 1, 7), EXTEND, WRONG),
    Call::Take((1, 1, 7), Act::Close, WRONG),
    Call::Take((1, 1, 7), Act::Free, WRONG),
    // one that is closed
    Call::Take((1, 1, 7), SEAL, Ok(())),
    Call::Take((1, 1, 7), OPEN, WRONG),
    Call::Take((1, 1, 7), EXTEND, WRONG),
    Call::Take((1, 1, 7), Act::Close, WRONG),
    Call::Take((1, 1, 7), SEAL, WRONG),
    // one that is gone
    Call::Take((0, 1, 9), SEAL, Ok(())),
    Call::Take((0, 1, 9), Act::Free, Ok(())),
    Call::Take((0, 1, 9), Act::Free, WRONG),
    Call::Take((0, 1, 9), OPEN, Ok(())),
    Call::Take((0, 1, 9), Act::Free, Ok(())),
    // no backup
    Call::Take((2, 1, 7), OPEN, WRONG),
    Call::Take((2, 1, 7), SEAL, WRONG),
    Call::Take((2, 1, 7), Act::Free, WRONG),
    Call::Counts(2, 7, 0),
    Call::Held(0, &[((0, 1, 7), b"abc", true)]),
    Call::Held(1, &[((1, 1, 7), b"de", false)]),
];

/// A fleet takes as many ops as its limit says.
const LIMITED: &[Call] = &[
    Call::End(u64::MAX),
    Call::Limit(1),
    Call::Take((0, 1, 1), OPEN, Ok(())),
    Call::Take((0, 1, 2), OPEN, SPENT),
    Call::Take((9, 1, 2), OPEN, SPENT),
    Call::Limit(u64::MAX),
    Call::End(u64::MAX),
    Call::Take((0, 1, 2), OPEN, Ok(())),
];

/// A least head is only ever raised, and a raise is a take.
const RAISED: &[Call] = &[
    Call::Least(2, 0),
    Call::Raise(2, 5, Ok(())),
    Call::Raise(1, 7, Ok(())),
    Call::Raise(2, 3, Ok(())),
    Call::Raise(2, 5, Ok(())),
    Call::Least(1, 7),
    Call::Least(2, 5),
    Call::Least(3, 0),
    Call::Counts(1, 4, 0),
    // a fault, of a raise that is lost and of one that is taken
    Call::Fault(2, false),
    Call::Take((0, 1, 7), OPEN, Ok(())),
    Call::Raise(2, 6, FAULT),
    Call::Least(2, 5),
    Call::Counts(1, 5, 1),
    Call::Fault(1, true),
    Call::Raise(2, 6, FAULT),
    Call::Least(2, 6),
    Call::Counts(1, 6, 2),
    // the limit
    Call::Limit(1),
    Call::Raise(2, 7, Ok(())),
    Call::Raise(2, 8, SPENT),
    Call::Least(2, 7),
    Call::Counts(1, 7, 2),
    // a backup that is lost leaves the registry
    Call::Lose(0),
    Call::Least(2, 7),
];

/// A backup that is lost is empty.
const LOST: &[Call] = &[
    Call::Take((2, 1, 5), OPEN, Ok(())),
    Call::Take((0, 1, 9), OPEN, Ok(())),
    Call::Take((1, 1, 5), OPEN, Ok(())),
    Call::Take((0, 1, 4), OPEN, Ok(())),
    Call::All(&[
        ((0, 1, 4), b"ab", true),
        ((0, 1, 9), b"ab", true),
        ((1, 1, 5), b"ab", true),
        ((2, 1, 5), b"ab", true),
    ]),
    Call::Lose(0),
    Call::All(&[((1, 1, 5), b"ab", true), ((2, 1, 5), b"ab", true)]),
    Call::Take((0, 1, 4), SEAL, Ok(())),
    Call::All(&[
        ((0, 1, 4), b"de", false),
        ((1, 1, 5), b"ab", true),
        ((2, 1, 5), b"ab", true),
    ]),
];

/// The replicas of other masters than 2 are freed.
const RETIRED: &[Call] = &[
    Call::Take((2, 1, 5), SHUT, Ok(())),
    Call::Take((0, 2, 4), SHUT, Ok(())),
    Call::Take((0, 1, 9), SHUT, Ok(())),
    Call::Take((0, 1, 4), SHUT, Ok(())),
    Call::Take((1, 3, 4), SHUT, Ok(())),
    Call::Take((2, 2, 4), SHUT, Ok(())),
    Call::Retire(2, Ok(())),
    Call::All(&[((0, 2, 4), b"ab", false), ((2, 2, 4), b"ab", false)]),
    Call::Counts(3, 10, 0),
];

/// A limit ends that.
const RETIRED_IN_PART: &[Call] = &[
    Call::Take((2, 1, 5), SHUT, Ok(())),
    Call::Take((0, 2, 4), SHUT, Ok(())),
    Call::Take((0, 1, 9), SHUT, Ok(())),
    Call::Take((0, 1, 4), SHUT, Ok(())),
    Call::Take((1, 3, 4), SHUT, Ok(())),
    Call::Take((2, 2, 4), SHUT, Ok(())),
    Call::Limit(1),
    Call::Retire(2, SPENT),
    Call::All(&[
        ((0, 1, 9), b"ab", false),
        ((0, 2, 4), b"ab", false),
        ((1, 3, 4), b"ab", false),
        ((2, 1, 5), b"ab", false),
        ((2, 2, 4), b"ab", false),
    ]),
];

/// How many backups a fleet has, and the calls of it.
const RUNS: &[(u64, &[Call])] = &[
    (2, FITS),
    (1, LIMITED),
    (1, RAISED),
    (3, LOST),
    (3, RETIRED),
    (3, RETIRED_IN_PART),
];

#[test]
fn fleets_answer(rt: HostRuntime) {
    for (run, (backups, calls)) in RUNS.iter().enumerate() {
        let passed = passed(rt.alloc(), *backups, calls);
        assert!(rt; passed == calls.len(), "run {run}: call {passed}");
    }
}
