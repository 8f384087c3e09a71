//! Runs of a new master: its steps, the turns of a cleaner, what it tells of a command before it is applied, the sizes
//! of its live objects, copies of its records, what it frees, and that it does what the plain programs do.

use crate::answers::{Call, passed_by_new};
use crate::asks::Ask;
use crate::asks::Ask::{Delete, Get, Push, Put, Roll, Write};
use recovery::master::If;

/// Two pushes, a put, a get, and three pushes.
const STEPS: &[Call] = &[
    Call::Answers(
        &[Push(2), Put(b"a", b'x', If::Any), Get(b"a"), Push(3)],
        &[
            ("opened", 1, 1),
            ("opened", 2, 1),
            ("applied", 0, 0),
            ("applied", 1, 0),
            ("extended", 1, 1),
            ("extended", 2, 1),
            ("Nothing", 0, 0),
        ],
    ),
    Call::Counts(1, 2, 2),
    Call::NoImage(2),
];

/// A push hands over all that a replica lacks: two puts go to each replica in one Extend. After two more commands the
/// first replica takes two units, after a third one the second takes all three, and then the first takes one.
const BATCHES: &[Call] = &[
    Call::Run(&[Push(2)]),
    Call::Answers(
        &[Put(b"a", b'x', If::Any), Put(b"b", b'y', If::Any), Push(3)],
        &[
            ("applied", 0, 0),
            ("applied", 1, 0),
            ("extended", 1, 1),
            ("extended", 2, 1),
            ("Nothing", 0, 0),
        ],
    ),
    Call::Counts(1, 2, 2),
    Call::Holds(&[(1, 1, 1, 90), (2, 1, 1, 90)]),
    Call::Run(&[Put(b"c", b'x', If::Any), Delete(b"b"), Push(1)]),
    Call::Counts(1, 2, 4),
    Call::Holds(&[(1, 1, 1, 143), (2, 1, 1, 90)]),
    Call::Run(&[Put(b"d", b'x', If::Any), Get(b"d"), Push(1)]),
    Call::Counts(1, 4, 6),
    Call::Holds(&[(1, 1, 1, 143), (2, 1, 1, 168)]),
    Call::Run(&[Push(1)]),
    Call::Counts(1, 6, 6),
    Call::Holds(&[(1, 1, 1, 168), (2, 1, 1, 168)]),
];

/// Puts `a`, rolls to head 2, puts `a` again, and rolls to head 3. Then there are two closed segments.
const FILL: &[Ask] = &[
    Push(2),
    Put(b"a", b'x', If::Any),
    Push(2),
    Roll,
    Push(4),
    Put(b"a", b'y', If::Any),
    Push(2),
    Roll,
    Push(4),
];

/// A pass over 1 and 2, one over the head 3 that it closed and its survivor, and the begin of a third. In the first the
/// tombstone of `a` is carried, because it names a victim; in the second it is dropped.
const TURNS: &[Call] = &[
    Call::Run(FILL),
    Call::Victims(&[1, 2]),
    Call::Turn(("begun", 4, 1)),
    Call::Turn(("dropped", 0, 0)),
    Call::Turn(("carried", 0, 0)),
    Call::Turn(("moved", 0, 0)),
    Call::Turn(("sealed", 1, 0)),
    Call::Turn(("sealed", 2, 0)),
    Call::Turn(("rolling", 5, 0)),
    Call::Turn(("opened", 2, 5)),
    Call::Turn(("opened", 0, 5)),
    Call::Turn(("closed", 0, 3)),
    Call::Turn(("closed", 1, 3)),
    Call::Turn(("freed", 1, 1)),
    Call::Turn(("freed", 2, 1)),
    Call::Turn(("freed", 2, 2)),
    Call::Turn(("freed", 0, 2)),
    Call::Turn(("begun", 6, 1)),
    Call::Turn(("dropped", 0, 0)),
    Call::Turn(("moved", 0, 0)),
    Call::Turn(("sealed", 0, 0)),
    Call::Turn(("sealed", 1, 0)),
    Call::Turn(("rolling", 7, 0)),
    Call::Turn(("opened", 1, 7)),
    Call::Turn(("opened", 2, 7)),
    Call::Turn(("closed", 2, 5)),
    Call::Turn(("closed", 0, 5)),
    Call::Turn(("freed", 0, 3)),
    Call::Turn(("freed", 1, 3)),
    Call::Turn(("freed", 1, 4)),
    Call::Turn(("freed", 2, 4)),
    Call::Turn(("begun", 8, 1)),
];

/// A value of which four fill a segment.
const LARGE: &[u8] = &[b'x'; 76];

/// Fills two segments with four objects each, and rolls to head 3.
const FILL_WHOLE: &[Ask] = &[
    Push(2),
    Write(1, b"a", LARGE),
    Write(1, b"b", LARGE),
    Write(1, b"c", LARGE),
    Write(1, b"d", LARGE),
    Push(2),
    Roll,
    Push(4),
    Write(1, b"e", LARGE),
    Write(1, b"f", LARGE),
    Write(1, b"g", LARGE),
    Write(1, b"h", LARGE),
    Push(2),
    Roll,
    Push(4),
];

/// A pass with two survivors, and the begin of another. Seals go by survivor, and then by replica.
const TWO_SURVIVORS: &[Call] = &[
    Call::Run(FILL_WHOLE),
    Call::Victims(&[1, 2]),
    Call::Turn(("begun", 4, 2)),
    Call::Turn(("moved", 0, 0)),
    Call::Turn(("moved", 0, 0)),
    Call::Turn(("moved", 0, 0)),
    Call::Turn(("moved", 0, 0)),
    Call::Turn(("moved", 0, 0)),
    Call::Turn(("moved", 0, 0)),
    Call::Turn(("moved", 0, 0)),
    Call::Turn(("moved", 0, 0)),
    Call::Turn(("sealed", 1, 0)),
    Call::Turn(("sealed", 2, 0)),
    Call::Turn(("sealed", 2, 0)),
    Call::Turn(("sealed", 0, 0)),
    Call::Turn(("rolling", 6, 0)),
    Call::Turn(("opened", 0, 6)),
    Call::Turn(("opened", 1, 6)),
    Call::Turn(("closed", 0, 3)),
    Call::Turn(("closed", 1, 3)),
    Call::Turn(("freed", 1, 1)),
    Call::Turn(("freed", 2, 1)),
    Call::Turn(("freed", 2, 2)),
    Call::Turn(("freed", 0, 2)),
    Call::Victims(&[3, 4, 5]),
    Call::Turn(("begun", 7, 2)),
];

/// A new master opens its head, and has nothing to clean.
const IDLE: &[Call] = &[
    Call::Turn(("opened", 1, 1)),
    Call::Turn(("opened", 2, 1)),
    Call::Rests,
    Call::Victims(&[]),
];

/// Before a replica is open, only commands that append nothing pass. Nothing that is told changes the master.
const QUESTIONS: &[Call] = &[
    Call::Would(Get(b"a"), ("none", 0)),
    Call::Would(Put(b"a", b'x', If::Any), ("Rolling", 0)),
    Call::Would(Put(b"a", b'x', If::Version(1)), ("mismatch", 0)),
    Call::Run(&[Push(2), Put(b"a", b'x', If::Any)]),
    Call::Would(Get(b"a"), ("found", 1)),
    Call::Would(Put(b"a", b'y', If::Any), ("ok", 2)),
    Call::Would(Put(b"a", b'y', If::Absent), ("mismatch", 1)),
    Call::Would(Delete(b"a"), ("ok", 1)),
    Call::Would(Delete(b"b"), ("none", 0)),
    Call::Would(Get(b"a"), ("found", 1)),
    Call::Counts(1, 0, 1),
];

/// Four keys, of which `a` is put twice and `b` is deleted; the first put lies in a closed segment. What is left has
/// the places of `a`, of `longer t`, and of `A` in table 2. Each has 23 bytes, those of its key and its value's.
const SIZED: &[Call] = &[
    Call::Run(&[
        Push(2),
        Put(b"a", b'x', If::Any),
        Put(b"b", b'y', If::Any),
        Put(b"longer than a place", b'z', If::Any),
        Push(2),
        Roll,
        Push(4),
        Write(2, b"A", b"four"),
        Put(b"a", b'w', If::Any),
        Delete(b"b"),
    ]),
    Call::Sizes(&[
        (1, 0x6100000000000000, 25),
        (1, 0x6c6f6e6765722074, 43),
        (2, 0x4100000000000000, 28),
    ]),
];

const TWENTY: &[u8] = b"a value of 20 bytes.";

/// Two records with a value of more than 15 bytes.
const COPIED: &[Call] = &[
    Call::Run(&[Push(2), Write(1, b"a", TWENTY), Get(b"a")]),
    Call::Copy(0, (b"a", TWENTY, ("ok", 1), b"")),
    Call::Copy(1, (b"a", b"", ("found", 1), TWENTY)),
];

/// A master keeps its own replicas.
const RETIRED: &[Call] = &[
    Call::Run(&[Push(2)]),
    Call::Retires,
    Call::Holds(&[(1, 1, 1, 40), (2, 1, 1, 40)]),
];

/// Commands on a few keys, so that most of them find what an earlier one left.
const COMPARED: &[Call] = &[Call::Compares(&[
    Get(b"a"),
    Put(b"a", b'x', If::Any),
    Put(b"a", b'y', If::Absent),
    Put(b"a", b'y', If::Version(1)),
    Put(b"a", b'z', If::Version(7)),
    Put(b"b", b'z', If::Version(1)),
    Put(b"b", b'p', If::Absent),
    Put(b"c", b'q', If::Any),
    Get(b"a"),
    Delete(b"a"),
    Delete(b"a"),
    Delete(b"c"),
    Put(b"a", b'w', If::Any),
    Put(b"b", b'p', If::Any),
])];

const RUNS: &[&[Call]] = &[
    STEPS,
    BATCHES,
    TURNS,
    TWO_SURVIVORS,
    IDLE,
    QUESTIONS,
    SIZED,
    COPIED,
    RETIRED,
    COMPARED,
];

/// A take for the second put ends in a fault of backup 2, and the master goes on without it. The head's other replica
/// gets the put, and its lost one is replaced. Head 3 is opened on both backups that are left, the registry is raised
/// to it, head 2 is closed, and segment 1 is sealed anew. Until then no unit is taken, and no further record is
/// durable.
const FAILOVER: &[Call] = &[
    Call::Run(&[
        Push(2),
        Put(b"a", b'x', If::Any),
        Push(2),
        Roll,
        Push(4),
        Put(b"b", b'y', If::Any),
    ]),
    Call::Left(0),
    Call::Fault(1, false),
    Call::Answers(&[Push(1)], &[("Lost", 2, 0)]),
    Call::Left(8),
    Call::Counts(2, 1, 2),
    Call::Answers(
        &[Put(b"c", b'z', If::Any), Get(b"b"), Push(2)],
        &[
            ("Rolling", 0, 0),
            ("applied", 2, 0),
            ("extended", 0, 2),
            ("opened", 1, 2),
        ],
    ),
    Call::Left(6),
    Call::Answers(
        &[Push(3)],
        &[("opened", 0, 3), ("opened", 1, 3), ("raised", 3, 0)],
    ),
    Call::Left(3),
    Call::Counts(2, 1, 3),
    Call::Goes(("closed", 0, 2)),
    Call::Goes(("closed", 1, 2)),
    Call::Left(1),
    Call::Counts(3, 1, 3),
    Call::Goes(("repaired", 0, 1)),
    Call::Left(0),
    Call::Counts(3, 3, 3),
    Call::Answers(
        &[Put(b"c", b'z', If::Any), Push(3)],
        &[
            ("applied", 3, 0),
            ("extended", 0, 3),
            ("extended", 1, 3),
            ("Nothing", 0, 0),
        ],
    ),
];

#[test]
fn a_master_answers(rt: HostRuntime) {
    for (run, calls) in RUNS.iter().enumerate() {
        let passed = passed_by_new(rt.alloc(), 1, calls);
        assert!(rt; passed == calls.len(), "run {run}: call {passed}");
    }
}

#[test]
fn a_master_goes_on_without_a_backup(rt: HostRuntime) {
    let passed = passed_by_new(rt.alloc(), 2, FAILOVER);
    assert!(rt; passed == FAILOVER.len(), "call {passed}");
}
