//! Wills: how tablets are cut by objects and by bytes, where keys go, and which fault comes first.

use entry::Key;
use std::alloc::Global;
use std::test::Fail;
use tablet_will::{Part, Size, Tablet, Will, WillFault, make_will};

const A: u64 = 0x6100_0000_0000_0000;

const AB: u64 = 0x6162_0000_0000_0000;

const B: u64 = 0x6200_0000_0000_0000;

const LAST: u64 = u64::MAX;

/// The table, the first and the last place, and the partition of each part of a will; and how many partitions there
/// are.
type Parts = (&'static [(u64, u64, u64, u32)], u32);

/// The table, the first and the last place of each tablet; the table, the place and the bytes of each object; the most
/// bytes and objects of a partition; and the will or the fault.
struct Row {
    tablets: &'static [(u64, u64, u64)],
    sizes: &'static [(u64, u64, u64)],
    limits: (u64, u64),
    want: Result<Parts, WillFault>,
}

const ROWS: &[Row] = &[
    // Four tables, and objects with the keys a and b.
    Row {
        tablets: &[(1, 0, LAST), (2, 0, LAST), (3, 0, LAST), (4, 0, LAST)],
        sizes: &[(1, A, 33), (1, B, 33)],
        limits: (1_048_576, 1),
        want: Ok((
            &[
                (1, 0, 0x61ff_ffff_ffff_ffff, 0),
                (1, B, LAST, 1),
                (2, 0, LAST, 1),
                (3, 0, LAST, 1),
                (4, 0, LAST, 1),
            ],
            2,
        )),
    },
    // One table, and objects with the keys a, ab and b.
    Row {
        tablets: &[(1, 0, LAST)],
        sizes: &[(1, A, 33), (1, AB, 34), (1, B, 33)],
        limits: (1_048_576, 1),
        want: Ok((
            &[
                (1, 0, 0x6161_ffff_ffff_ffff, 0),
                (1, AB, 0x61ff_ffff_ffff_ffff, 1),
                (1, B, LAST, 2),
            ],
            3,
        )),
    },
    // The objects of one place stay together.
    Row {
        tablets: &[(1, 0, LAST)],
        sizes: &[(1, 5, 33), (1, 5, 33), (1, 6, 33)],
        limits: (1_048_576, 1),
        want: Ok((&[(1, 0, 5, 0), (1, 6, LAST, 1)], 2)),
    },
    // A partition that begins at a tablet's first place leaves no empty part before it.
    Row {
        tablets: &[(1, 0, 9), (1, 10, 19)],
        sizes: &[(1, 5, 33), (1, 10, 33)],
        limits: (1_048_576, 1),
        want: Ok((&[(1, 0, 9, 0), (1, 10, 19, 1)], 2)),
    },
    // A partition has just its bytes, also if their sum is above 64 bits.
    Row {
        tablets: &[(1, 0, LAST)],
        sizes: &[(1, 5, LAST), (1, 6, 0), (1, 7, 1)],
        limits: (LAST, 1000),
        want: Ok((&[(1, 0, 6, 0), (1, 7, LAST, 1)], 2)),
    },
    // No object.
    Row {
        tablets: &[(7, 3, 3)],
        sizes: &[],
        limits: (1, 1),
        want: Ok((&[(7, 3, 3, 0)], 1)),
    },
    // The first test that fails names the fault.
    Row {
        tablets: &[(1, 0, 9), (1, 9, 19)],
        sizes: &[(2, 0, 1)],
        limits: (0, 0),
        want: Err(WillFault::BadTablets),
    },
    Row {
        tablets: &[(1, 0, 9)],
        sizes: &[(2, 0, 1)],
        limits: (1, 0),
        want: Err(WillFault::BadLimits),
    },
    Row {
        tablets: &[(1, 0, 9)],
        sizes: &[(1, 2, 1), (1, 1, 1)],
        limits: (1, 1),
        want: Err(WillFault::StraySize),
    },
    Row {
        tablets: &[(1, 0, 9)],
        sizes: &[(1, 2, 1), (1, 10, 1)],
        limits: (1, 1),
        want: Err(WillFault::StraySize),
    },
];

fn tablets_of(alloc: Global, tablets: &[(u64, u64, u64)]) -> Option<Vec<Tablet>> {
    let mut list = Vec::new(alloc);
    for (table, first, last) in tablets {
        let tablet = Tablet {
            table: *table,
            first: *first,
            last: *last,
        };
        if list.push(tablet).is_err() {
            return None;
        }
    }
    Some(list)
}

fn sizes_of(alloc: Global, sizes: &[(u64, u64, u64)]) -> Option<Vec<Size>> {
    let mut list = Vec::new(alloc);
    for (table, place, bytes) in sizes {
        let size = Size {
            table: *table,
            place: *place,
            bytes: *bytes,
        };
        if list.push(size).is_err() {
            return None;
        }
    }
    Some(list)
}

fn will_of(alloc: Global, row: &Row) -> Result<Will, WillFault> {
    let Some(tablets) = tablets_of(alloc, row.tablets) else {
        return Err(WillFault::NoMemory);
    };
    let Some(sizes) = sizes_of(alloc, row.sizes) else {
        return Err(WillFault::NoMemory);
    };
    let (max_bytes, max_objects) = row.limits;
    make_will(
        alloc,
        tablets.as_slice(),
        sizes.as_slice(),
        max_bytes,
        max_objects,
    )
}

fn is_part(part: &Part, want: &(u64, u64, u64, u32)) -> bool {
    let (table, first, last, partition) = *want;
    part.table == table && part.first == first && part.last == last && part.partition == partition
}

/// Whether the will has these parts and no others, and so many partitions.
fn has(will: &Will, want: &Parts) -> bool {
    let (parts, partitions) = *want;
    for (part, want) in will.parts().iter().zip(parts) {
        if !is_part(part, want) {
            return false;
        }
    }
    will.parts().len() == parts.len() && will.partitions() == partitions
}

/// Whether the row's tablets are cut as it says, or refused for its reason.
fn is_cut(alloc: Global, row: &Row) -> bool {
    match will_of(alloc, row) {
        Ok(will) => match &row.want {
            Ok(parts) => has(&will, parts),
            Err(_) => false,
        },
        Err(fault) => match &row.want {
            Ok(_) => false,
            Err(want) => fault == *want,
        },
    }
}

#[test]
fn tablets_are_cut_by_the_rule(rt: HostRuntime) {
    for (number, row) in ROWS.iter().enumerate() {
        assert!(rt; is_cut(rt.alloc(), row), "row {number}");
    }
}

/// Tables and keys, and the partition of each in the will of the second row.
const KEYS: &[(u64, &[u8], Option<u32>)] = &[
    (1, b"A", Some(0)),
    (1, b"a", Some(0)),
    (1, b"aaz", Some(0)),
    (1, b"ab", Some(1)),
    (1, b"azzzzzzzz", Some(1)),
    (1, b"b", Some(2)),
    (1, b"z", Some(2)),
    (2, b"a", None),
];

/// Whether a key goes to this partition.
fn goes_to(alloc: Global, will: &Will, table: u64, bytes: &[u8], want: Option<u32>) -> bool {
    match Key::new(alloc, table, bytes) {
        Ok(key) => will.partition_of(&key) == want,
        Err(_) => false,
    }
}

#[test]
fn keys_go_to_partitions(rt: HostRuntime) -> Result<(), Fail> {
    let will = will_of(rt.alloc(), &ROWS[1])?;
    for (table, bytes, want) in KEYS {
        assert!(rt;
            goes_to(rt.alloc(), &will, *table, bytes, *want),
            "{bytes:?}"
        );
    }
    Ok(())
}
