//! The scripts: each life of a master is a list of lines. A recovery comes between two lives.

use store_lines::Options;

/// The lines of one life after another.
type Lives = &'static [&'static [&'static [u8]]];

/// Lives, and whether recoveries replay the groups in reverse.
pub struct Script {
    pub lives: Lives,
    pub is_reversed: bool,
}

/// The options of all stores.
pub const OPTIONS: Options = Options {
    backups: 3,
    replicas: 2,
    step: 1,
    segment: 512,
    seglet: 64,
    seglets: 64,
    tables: 4,
    history: 100,
    bytes: 1_048_576,
    objects: 1_000_000,
    format: 1,
    largest: u64::MAX,
    live: u64::MAX,
    tend: 0,
    forget: false,
};

/// A script with tombstones.
const TOMBSTONES: Lives = &[&[
    b"put 1 a x",
    b"put 1 a y",
    b"put 1 b z",
    b"del 1 a",
    b"put 1 a w",
]];

/// A script with tombstones that a pass carries, and with a pass that drops them.
const CARRIED: Lives = &[
    &[
        b"put 1 a x",
        b"put 1 a y",
        b"put 1 b z",
        b"del 1 a",
        b"put 1 a w",
        b"del 1 a",
        b"roll",
        b"clean 1",
        b"clean 3",
        b"log",
    ],
    &[b"put 1 a q"],
];

/// A script with a delete in the midst of a pass.
const DELETED: Lives = &[
    &[
        b"put 1 a x",
        b"roll",
        b"begin 1",
        b"copy",
        b"del 1 a",
        b"seal",
        b"seal",
        b"roll",
        b"free",
        b"free",
        b"clean 2",
        b"log",
    ],
    &[],
];

/// A script whose plan has three segments.
const PLANNED: Lives = &[
    &[
        b"put 1 a x",
        b"put 1 b y",
        b"roll",
        b"put 1 a z",
        b"del 1 b",
        b"roll",
    ],
    &[],
];

pub const SCRIPTS: &[Script] = &[
    Script {
        lives: TOMBSTONES,
        is_reversed: false,
    },
    Script {
        lives: CARRIED,
        is_reversed: false,
    },
    Script {
        lives: DELETED,
        is_reversed: false,
    },
    Script {
        lives: PLANNED,
        is_reversed: false,
    },
    Script {
        lives: PLANNED,
        is_reversed: true,
    },
];
