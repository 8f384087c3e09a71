//! Logs that are divided by wills, and replayed partition by partition.

use crate::logs::*;
use backup::{Group, divide};
use claims::ReplayFault;
use partition_replay::{Replay, Replayed};
use recovery_plan::Segments;
use segment::SegmentRef;
use std::alloc::Global;
use std::fmt::Write;
use tablet_will::{Size, Tablet, Will, make_will};

const IDS: &[u64] = &[1, 2, 3];

/// The places of the keys `a` to `g`.
const PLACES: &[u64] = &[
    0x6100_0000_0000_0000,
    0x6200_0000_0000_0000,
    0x6300_0000_0000_0000,
    0x6400_0000_0000_0000,
    0x6500_0000_0000_0000,
    0x6600_0000_0000_0000,
    0x6700_0000_0000_0000,
];

/// The will of a table in which each of these first places has a partition.
pub fn will_of(alloc: Global, table: u64, partitions: usize) -> Option<Will> {
    let tablet = Tablet {
        table,
        first: 0,
        last: u64::MAX,
    };
    let mut sizes = Vec::new(alloc);
    for place in PLACES.iter().take(partitions) {
        let size = Size {
            table,
            place: *place,
            bytes: 1,
        };
        sizes.push(size).ok()?;
    }
    make_will(alloc, &[tablet], sizes.as_slice(), 100, 1).ok()
}

/// Hands a group to the replay. Appends the fault, if it is refused.
fn hand<'a>(replay: &mut Replay<'a>, group: Group<'a>, text: &mut String) {
    if let Err(fault) = replay.take(group) {
        let _ = write!(text, "{fault}, ");
    }
}

/// Hands over the segment's group of the partition, or the groups of all. Appends each fault.
fn hand_groups<'a>(
    alloc: Global,
    replay: &mut Replay<'a>,
    segment: &SegmentRef<'a>,
    will: &Will,
    only: Option<u32>,
    text: &mut String,
) {
    match divide(alloc, segment, will) {
        Ok(groups) => {
            for group in groups {
                if only.is_none() || only == Some(group.partition) {
                    hand(replay, group, text);
                }
            }
        }
        Err(fault) => {
            let _ = write!(text, "{fault}, ");
        }
    }
}

/// The faults of a partition's replay, one after another, and its objects and their greatest version, or its fault at
/// the end.
type Part = (&'static str, Result<(&'static [Shown], u64), &'static str>);

fn is_replayed(replayed: &Replayed, want: &Part) -> bool {
    match &want.1 {
        Ok((objects, greatest)) => {
            are_shown(&replayed.objects, objects) && replayed.greatest == *greatest
        }
        Err(_) => false,
    }
}

fn is_unfinished(alloc: Global, fault: &ReplayFault, want: &Part) -> bool {
    match &want.1 {
        Ok(_) => false,
        Err(name) => is_named(alloc, fault, name),
    }
}

fn is_end(alloc: Global, replay: Replay<'_>, want: &Part) -> bool {
    match &replay.finish() {
        Ok(replayed) => is_replayed(replayed, want),
        Err(fault) => is_unfinished(alloc, fault, want),
    }
}

/// A log, the table of the will, the order of the segments, whether each replay is handed the groups of all partitions,
/// and what comes of each partition.
struct Row {
    log: Log,
    table: u64,
    order: &'static [usize],
    all: bool,
    parts: &'static [Part],
}

fn is_part(
    alloc: Global,
    segments: &[SegmentRef<'_>],
    will: &Will,
    row: &Row,
    partition: u32,
    want: &Part,
) -> bool {
    let Ok(mut replay) = Replay::new(alloc, partition, IDS) else {
        return false;
    };
    let mut text = String::new(alloc);
    let only = if row.all { None } else { Some(partition) };
    for place in row.order {
        if let Some(segment) = segments.get(*place) {
            hand_groups(alloc, &mut replay, segment, will, only, &mut text);
        }
    }
    text.as_str() == want.0 && is_end(alloc, replay, want)
}

fn are_parts(alloc: Global, segments: &Segments<'_>, will: &Will, row: &Row) -> bool {
    let mut are_same = will.partitions() as usize == row.parts.len();
    for (partition, want) in (0..will.partitions()).zip(row.parts) {
        are_same = are_same && is_part(alloc, segments.as_slice(), will, row, partition, want);
    }
    are_same
}

fn is_divided(alloc: Global, row: &Row) -> bool {
    let Some(texts) = texts_of(alloc, row.log) else {
        return false;
    };
    match (
        &segments_of(alloc, texts.as_slice()),
        &will_of(alloc, row.table, row.parts.len()),
    ) {
        (Some(segments), Some(will)) => are_parts(alloc, segments, will, row),
        _ => false,
    }
}

/// `LOG` with one more segment, 4.
const WITH_STRANGER: Log = &[
    &[ONE, A_1_X, B_2_Y],
    &[FOUR, A_4_S],
    &[TWO, A_1_DEAD, A_2_Z, B_2_DEAD],
    &[THREE],
];

/// Segment 2 comes twice. The first of the two has another value of version 1 of `a`.
const CLASHING_ONCE: Log = &[&[ONE, A_1_X], &[TWO, B_2_Q, A_1_Y], &[TWO], &[THREE]];

/// What is left of `LOG` in the partition of `a`, and in others.
const OF_A: Part = ("", Ok((&[(1, b"a", 2, b"z")], 2)));

const OF_B: Part = ("", Ok((&[], 2)));

const OF_NONE: Part = ("", Ok((&[], 0)));

const OF_SEVEN: &[Part] = &[OF_A, OF_B, OF_NONE, OF_NONE, OF_NONE, OF_NONE, OF_NONE];

/// In any order the groups of a partition stand for the same objects. A group that is refused changes nothing.
const ROWS: &[Row] = &[
    Row {
        log: LOG,
        table: 1,
        order: &[0, 1, 2],
        all: false,
        parts: &[OF_A],
    },
    Row {
        log: LOG,
        table: 1,
        order: &[2, 1, 0],
        all: false,
        parts: &[OF_A],
    },
    Row {
        log: LOG,
        table: 1,
        order: &[1, 2, 0],
        all: false,
        parts: &[OF_A],
    },
    Row {
        log: LOG,
        table: 1,
        order: &[0, 1, 2],
        all: false,
        parts: &[OF_A, OF_B],
    },
    Row {
        log: LOG,
        table: 1,
        order: &[2, 1, 0],
        all: false,
        parts: &[OF_A, OF_B],
    },
    Row {
        log: LOG,
        table: 1,
        order: &[0, 1, 2],
        all: false,
        parts: OF_SEVEN,
    },
    Row {
        log: LOG,
        table: 1,
        order: &[2, 1, 0],
        all: false,
        parts: OF_SEVEN,
    },
    Row {
        log: LOG,
        table: 1,
        order: &[0, 1, 1, 2],
        all: false,
        parts: &[("Double 2, ", Ok((&[(1, b"a", 2, b"z")], 2)))],
    },
    Row {
        log: LOG,
        table: 1,
        order: &[2],
        all: false,
        parts: &[("", Err("MissingGroup 1"))],
    },
    Row {
        log: LOG,
        table: 1,
        order: &[0, 2],
        all: false,
        parts: &[("", Err("MissingGroup 2"))],
    },
    // A group of a segment that the plan doesn't have comes between the others.
    Row {
        log: WITH_STRANGER,
        table: 1,
        order: &[0, 1, 2, 3],
        all: false,
        parts: &[("Stranger, ", Ok((&[(1, b"a", 2, b"z")], 2)))],
    },
    Row {
        log: LOG,
        table: 1,
        order: &[0, 1, 2],
        all: true,
        parts: &[
            (
                "Stranger, Stranger, Stranger, ",
                Ok((&[(1, b"a", 2, b"z")], 2)),
            ),
            ("Stranger, Stranger, Stranger, ", Ok((&[], 2))),
        ],
    },
    Row {
        log: CLASHING,
        table: 1,
        order: &[0, 1, 2],
        all: false,
        parts: &[("Clash, ", Err("MissingGroup 2"))],
    },
    // A group that clashes is refused whole, and another of its segment is taken.
    Row {
        log: CLASHING_ONCE,
        table: 1,
        order: &[0, 1, 2, 3],
        all: false,
        parts: &[("Clash, ", Ok((&[(1, b"a", 1, b"x")], 1)))],
    },
    // A clash that a later version covers passes.
    Row {
        log: CLASHING,
        table: 1,
        order: &[2, 1, 0],
        all: false,
        parts: &[("", Ok((&[(1, b"a", 2, b"z")], 2)))],
    },
    Row {
        log: LOG,
        table: 2,
        order: &[0, 1, 2],
        all: false,
        parts: &[("Stray, Stray, ", Err("MissingGroup 1"))],
    },
];

#[test]
fn divided_logs_are_replayed(rt: HostRuntime) {
    for (place, row) in ROWS.iter().enumerate() {
        assert!(rt; is_divided(rt.alloc(), row), "row {place}");
    }
}
