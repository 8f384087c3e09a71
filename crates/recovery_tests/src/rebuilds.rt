//! What short logs are rebuilt to: without a will, and by wills in several orders of their groups.

use crate::divided::will_of;
use crate::logs::*;
use entry::{SafeVersion, Version};
use rebuilding::{rebuild, rebuild_plain};
use recovery_plan::Plan;
use std::alloc::Global;

/// The safe version above this version, or the first one.
fn safe_of(used: u64) -> SafeVersion {
    match Version::new(used) {
        Some(version) => version.safe_above(),
        None => SafeVersion::first(),
    }
}

/// A plan of the segments that these bytes are.
pub fn plan_of<'a>(alloc: Global, used: u64, texts: &'a [Vec<u8>]) -> Option<Plan<'a>> {
    match segments_of(alloc, texts) {
        Some(segments) => Some(Plan {
            segments,
            safe: safe_of(used),
        }),
        None => None,
    }
}

/// The greatest version below the recorded safe version, the segments, and what they are rebuilt to.
type Row = (u64, Log, Outcome);

fn is_rebuilt(alloc: Global, row: &Row) -> bool {
    let (used, log, want) = row;
    let Some(texts) = texts_of(alloc, log) else {
        return false;
    };
    match &plan_of(alloc, *used, texts.as_slice()) {
        Some(plan) => is_outcome(alloc, &rebuild_plain(alloc, plan), want),
        None => false,
    }
}

/// In any order the entry of greatest rank counts. Two values of one version clash, even if there is a later version.
/// Objects are sorted by table and key.
const ROWS: &[Row] = &[
    (
        1,
        &[&[ONE, A_1_X], &[TWO, A_1_DEAD, A_2_Y]],
        Ok((&[(1, b"a", 2, b"y")], 3)),
    ),
    (
        1,
        &[&[ONE, A_1_DEAD, A_2_Y], &[TWO, A_1_X]],
        Ok((&[(1, b"a", 2, b"y")], 3)),
    ),
    (
        1,
        &[&[ONE, A_1_X], &[TWO, A_1_X]],
        Ok((&[(1, b"a", 1, b"x")], 2)),
    ),
    (1, &[&[ONE, A_1_X], &[TWO, A_1_DEAD]], Ok((&[], 2))),
    (1, &[&[ONE, A_1_DEAD], &[TWO, A_1_X]], Ok((&[], 2))),
    (8, &[&[ONE, A_1_DEAD], &[TWO]], Ok((&[], 9))),
    (1, &[&[ONE, A_1_X], &[TWO, A_1_Y]], Err("Clash")),
    (1, &[&[ONE, A_1_X], &[TWO, A_1_Y, A_2_Y]], Err("Clash")),
    (
        1,
        &[&[ONE, IN_2_A_1_P, B_2_Q], &[TWO, AA_3_R, A_4_S]],
        Ok((
            &[
                (1, b"a", 4, b"s"),
                (1, b"aa", 3, b"r"),
                (1, b"b", 2, b"q"),
                (2, b"a", 1, b"p"),
            ],
            5,
        )),
    ),
    (0, LOG, LEFT),
    (0, CLASHING, Err("Clash")),
];

/// What is left of `LOG`.
pub const LEFT: Outcome = Ok((&[(1, b"a", 2, b"z")], 3));

#[test]
fn logs_are_rebuilt(rt: HostRuntime) {
    for (place, row) in ROWS.iter().enumerate() {
        assert!(rt; is_rebuilt(rt.alloc(), row), "row {place}");
    }
}

/// A log of three segments, the table of the will and how many partitions that has, an order of the groups, and the
/// outcome.
pub type Ordered = (Log, u64, usize, &'static [usize], Outcome);

/// Whatever the will and the order, a log is rebuilt to the same, if the order names each group once.
pub const ORDERED: &[Ordered] = &[
    // forwards, backwards, and by other rules
    (LOG, 1, 1, &[0, 1, 2], LEFT),
    (LOG, 1, 1, &[2, 1, 0], LEFT),
    (LOG, 1, 1, &[1, 2, 0], LEFT),
    (LOG, 1, 2, &[0, 1, 2, 3, 4, 5], LEFT),
    (LOG, 1, 2, &[5, 4, 3, 2, 1, 0], LEFT),
    (LOG, 1, 2, &[1, 3, 5, 4, 2, 0], LEFT),
    (
        LOG,
        1,
        7,
        &[
            0, 1, 2, 3, 4, 5, 6, 7, 8, 9, 10, 11, 12, 13, 14, 15, 16, 17, 18, 19, 20,
        ],
        LEFT,
    ),
    (
        LOG,
        1,
        7,
        &[
            20, 19, 18, 17, 16, 15, 14, 13, 12, 11, 10, 9, 8, 7, 6, 5, 4, 3, 2, 1, 0,
        ],
        LEFT,
    ),
    (
        LOG,
        1,
        7,
        &[
            7, 0, 14, 1, 15, 8, 16, 2, 9, 17, 10, 3, 4, 18, 11, 19, 12, 5, 20, 13, 6,
        ],
        LEFT,
    ),
    (CLASHING, 1, 1, &[0, 2, 1], Err("Clash")),
    (CLASHING, 1, 2, &[5, 3, 1, 0, 2, 4], Err("Clash")),
    // orders that do not name each group once, and a will of another table
    (LOG, 1, 2, &[0, 1, 2, 3, 1, 5], Err("Double 1")),
    (LOG, 1, 2, &[5, 4, 3, 2, 1, 6], Err("Stranger")),
    (LOG, 1, 2, &[5, 4, 1, 0], Err("MissingGroup 2")),
    (LOG, 1, 1, &[], Err("MissingGroup 1")),
    (LOG, 2, 1, &[0, 1, 2], Err("Stray")),
];

fn is_rebuilt_in(alloc: Global, row: &Ordered) -> bool {
    let (log, table, partitions, order, want) = row;
    let Some(texts) = texts_of(alloc, log) else {
        return false;
    };
    match (
        &plan_of(alloc, 0, texts.as_slice()),
        &will_of(alloc, *table, *partitions),
    ) {
        (Some(plan), Some(will)) => is_outcome(alloc, &rebuild(alloc, plan, will, order), want),
        _ => false,
    }
}

#[test]
fn logs_are_rebuilt_in_any_order(rt: HostRuntime) {
    for (place, row) in ORDERED.iter().enumerate() {
        assert!(rt; is_rebuilt_in(rt.alloc(), row), "row {place}");
    }
}
