//! Plans of damaged inventories, and which replicas they take.

use recovery_plan::{Plan, PlanFault, plan};
use replica::{Bytes, Holding, Inventory};
use std::alloc::Global;

/// The first head of master 1. It has no objects.
const FIRST: &[u8] =
    b"\x01\0\0\0\0\0\0\0\x01\0\0\0\0\0\0\0\x01\0\x02\0\0\0\x01\0\0\0\0\0\0\0\x01\x03\0\0\0\0\0\0\0\x01";

/// That head with an object: table 1, version 1, key `a`, value `x`.
const FULL: &[u8] =
    b"\x01\0\0\0\0\0\0\0\x01\0\0\0\0\0\0\0\x01\0\x02\0\0\0\x01\0\0\0\0\0\0\0\x01\x03\0\0\0\0\0\0\0\x01\
    \x04\0\0\0\0\0\0\0\x01\0\0\0\0\0\0\0\x01\0\x01\0\0\0\x01ax";

/// Head 2 of master 1, whose digest lists 1 and 2.
const NEXT: &[u8] =
    b"\x01\0\0\0\0\0\0\0\x01\0\0\0\0\0\0\0\x02\0\x02\0\0\0\x02\0\0\0\0\0\0\0\x01\0\0\0\0\0\0\0\x02\
    \x03\0\0\0\0\0\0\0\x01";

/// The first head of master 1 with its length in its digest.
const LISTED: &[u8] =
    b"\x01\0\0\0\0\0\0\0\x01\0\0\0\0\0\0\0\x01\0\x06\0\0\0\x01\0\0\0\0\0\0\0\x01\0\0\0\0\0\0\0\x30\
    \x03\0\0\0\0\0\0\0\x01";

/// Head 2 of master 1, whose digest lists 1 with 48 bytes, and 2.
const AFTER_48: &[u8] =
    b"\x01\0\0\0\0\0\0\0\x01\0\0\0\0\0\0\0\x02\0\x06\0\0\0\x02\0\0\0\0\0\0\0\x01\0\0\0\0\0\0\0\x30\
    \0\0\0\0\0\0\0\x02\0\0\0\0\0\0\0\x40\x03\0\0\0\0\0\0\0\x01";

/// The same with 49 bytes for 1.
const AFTER_49: &[u8] =
    b"\x01\0\0\0\0\0\0\0\x01\0\0\0\0\0\0\0\x02\0\x06\0\0\0\x02\0\0\0\0\0\0\0\x01\0\0\0\0\0\0\0\x31\
    \0\0\0\0\0\0\0\x02\0\0\0\0\0\0\0\x40\x03\0\0\0\0\0\0\0\x01";

/// The header of survivor 3 of master 1.
const SURVIVOR: &[u8] = b"\x01\0\0\0\0\0\0\0\x01\0\0\0\0\0\0\0\x03\x01";

/// A replica: its backup, master and segment, its bytes, and whether it is open.
type Replica<'a> = (u64, u64, u64, &'a [u8], bool);

/// The bytes of each segment of a plan, or why there is none.
type Want = Result<&'static [&'static [u8]], PlanFault>;

fn holding_of<'a>(replica: &Replica<'a>) -> Holding<'a> {
    let (backup, master, segment, bytes, is_open) = *replica;
    Holding {
        backup,
        master,
        segment,
        bytes: Bytes::new(bytes),
        is_open,
    }
}

fn inventory_of<'a>(alloc: Global, replicas: &[Replica<'a>]) -> Option<Inventory<'a>> {
    let mut holdings = Vec::new(alloc);
    for replica in replicas {
        holdings.push(holding_of(replica)).ok()?;
    }
    Some(Inventory::new(holdings))
}

fn has_texts(plan: &Plan<'_>, want: &Want) -> bool {
    let Ok(texts) = *want else {
        return false;
    };
    let segments = plan.segments.as_slice();
    let mut are_same = segments.len() == texts.len();
    for (segment, text) in segments.iter().zip(texts) {
        are_same = are_same && segment.bytes() == *text;
    }
    are_same
}

fn is_planned(
    alloc: Global,
    replicas: &[Replica<'_>],
    master: u64,
    least: u64,
    want: &Want,
) -> bool {
    let Some(inventory) = inventory_of(alloc, replicas) else {
        return false;
    };
    match &plan(alloc, &inventory, master, least) {
        Ok(plan) => has_texts(plan, want),
        Err(fault) => *want == Err(*fault),
    }
}

#[test]
fn a_front_of_a_head_is_a_plan_or_bad(rt: HostRuntime) {
    for len in 0..66 {
        let want: Want = match len {
            40 => Ok(&[FIRST]),
            65 => Ok(&[FULL]),
            _ => Err(PlanFault::BadReplica(1, 1)),
        };
        let replicas = &[(1, 1, 1, FULL.split_at(len).0, true)];
        assert!(rt; is_planned(rt.alloc(), replicas, 1, 0, &want), "{len}");
    }
}

/// Replicas, the master that is to be recovered, and its plan.
struct Row {
    replicas: &'static [Replica<'static>],
    master: u64,
    want: Want,
}

const ROWS: &[Row] = &[
    // damage
    Row {
        replicas: &[(1, 1, 2, FIRST, true)],
        master: 1,
        want: Err(PlanFault::BadReplica(1, 2)),
    },
    Row {
        replicas: &[(1, 1, 1, FIRST, false)],
        master: 1,
        want: Err(PlanFault::HeadClosed(1)),
    },
    Row {
        replicas: &[(0, 1, 3, SURVIVOR, false)],
        master: 1,
        want: Err(PlanFault::NoHead),
    },
    Row {
        replicas: &[(0, 7, 1, b"\xff", true)],
        master: 1,
        want: Err(PlanFault::NoHead),
    },
    Row {
        replicas: &[(1, 2, 1, FIRST, true)],
        master: 2,
        want: Err(PlanFault::BadReplica(1, 1)),
    },
    Row {
        replicas: &[(1, 1, 2, NEXT, true)],
        master: 1,
        want: Err(PlanFault::Missing(1)),
    },
    // the longest replica of the head
    Row {
        replicas: &[(1, 1, 1, FIRST, true), (2, 1, 1, FULL, true)],
        master: 1,
        want: Ok(&[FULL]),
    },
    // a replica that is shown twice is taken once
    Row {
        replicas: &[(1, 1, 1, FIRST, true), (1, 1, 1, FIRST, true)],
        master: 1,
        want: Ok(&[FIRST]),
    },
    // of another segment than the head, a closed replica
    Row {
        replicas: &[
            (0, 1, 1, FULL, true),
            (1, 1, 1, FIRST, false),
            (1, 1, 2, NEXT, true),
        ],
        master: 1,
        want: Ok(&[FIRST, NEXT]),
    },
    // the replica of the lowest backup
    Row {
        replicas: &[
            (2, 1, 1, FULL, false),
            (1, 1, 1, FIRST, false),
            (1, 1, 2, NEXT, true),
        ],
        master: 1,
        want: Ok(&[FIRST, NEXT]),
    },
    // no segment that the digest doesn't list
    Row {
        replicas: &[(0, 1, 3, SURVIVOR, false), (1, 1, 1, FIRST, true)],
        master: 1,
        want: Ok(&[FIRST]),
    },
];

#[test]
fn replicas_are_planned(rt: HostRuntime) {
    for (place, row) in ROWS.iter().enumerate() {
        assert!(rt;
            is_planned(rt.alloc(), row.replicas, row.master, 0, &row.want),
            "row {place}"
        );
    }
}

/// Replicas of master 1, the least head that may be used, and the plan.
struct Kept {
    replicas: &'static [Replica<'static>],
    least: u64,
    want: Want,
}

const KEPT: &[Kept] = &[
    // the least head
    Kept {
        replicas: &[(1, 1, 1, LISTED, true)],
        least: 1,
        want: Ok(&[LISTED]),
    },
    Kept {
        replicas: &[(1, 1, 1, LISTED, true)],
        least: 2,
        want: Err(PlanFault::HeadTooOld(1)),
    },
    Kept {
        replicas: &[(1, 1, 1, FIRST, false), (1, 1, 2, NEXT, false)],
        least: 3,
        want: Err(PlanFault::HeadTooOld(2)),
    },
    Kept {
        replicas: &[(0, 1, 3, SURVIVOR, false)],
        least: 4,
        want: Err(PlanFault::NoHead),
    },
    Kept {
        replicas: &[(1, 1, 1, FIRST, true), (1, 1, 2, FIRST, true)],
        least: 4,
        want: Err(PlanFault::BadReplica(1, 2)),
    },
    // an open replica of the listed length, and of less
    Kept {
        replicas: &[(1, 1, 1, LISTED, true), (2, 1, 2, AFTER_48, true)],
        least: 0,
        want: Ok(&[LISTED, AFTER_48]),
    },
    Kept {
        replicas: &[(1, 1, 1, LISTED, true), (2, 1, 2, AFTER_49, true)],
        least: 0,
        want: Err(PlanFault::Missing(1)),
    },
    // a closed one of less
    Kept {
        replicas: &[(1, 1, 1, LISTED, false), (2, 1, 2, AFTER_49, true)],
        least: 2,
        want: Ok(&[LISTED, AFTER_49]),
    },
    // the longest open one is long enough
    Kept {
        replicas: &[
            (0, 1, 1, FIRST, true),
            (1, 1, 1, FULL, true),
            (2, 1, 2, AFTER_49, true),
        ],
        least: 0,
        want: Ok(&[FULL, AFTER_49]),
    },
    // a head without lengths beside them
    Kept {
        replicas: &[(1, 1, 1, LISTED, true), (2, 1, 2, NEXT, true)],
        least: 0,
        want: Ok(&[LISTED, NEXT]),
    },
];

#[test]
fn lengths_and_the_least_head_are_kept(rt: HostRuntime) {
    for (place, row) in KEPT.iter().enumerate() {
        assert!(rt;
            is_planned(rt.alloc(), row.replicas, 1, row.least, &row.want),
            "row {place}"
        );
    }
}
