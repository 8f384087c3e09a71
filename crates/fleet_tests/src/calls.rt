//! Calls of a fleet, in a row, and what each answers.

use fleets::Fleets;
use registry_file::RegistryFile;
use replica::{Act, Bench, Fleet, Op, TakeFault};
use take_journal::MemoryDevice;

/// A call of a fleet.
#[derive(Clone, Copy)]
pub(crate) enum Call {
    /// An op of a backup, on the replica of a master's segment.
    Take(u64, u64, u64, Act<'static>),
    /// Raises the least head of a master.
    Raise(u64, u64),
    /// Names the master that a recovery is for. Of a fleet in memory nothing is asked.
    Name(u64),
    /// Asks for a fault, whose op is taken or not.
    Fault(u64, bool),
    Limit(u64),
    /// Frees the replicas of all masters but one.
    Retire(u64),
}

/// The calls with the answer of each.
pub(crate) const ROWS: &[(Call, Result<(), TakeFault>)] = &[
    (Call::Take(0, 1, 0, Act::Open(b"head")), Ok(())),
    (Call::Take(1, 1, 0, Act::Open(b"head")), Ok(())),
    (Call::Take(2, 1, 0, Act::Open(b"")), Ok(())),
    (
        Call::Take(0, 1, 0, Act::Open(b"again")),
        Err(TakeFault::Wrong),
    ),
    (
        Call::Take(3, 1, 0, Act::Open(b"no backup")),
        Err(TakeFault::Wrong),
    ),
    (
        Call::Take(
            0,
            1,
            0,
            Act::Extend {
                at: 4,
                bytes: b"\x00\x01",
            },
        ),
        Ok(()),
    ),
    (
        Call::Take(
            1,
            1,
            0,
            Act::Extend {
                at: 4,
                bytes: b"\x00\x01",
            },
        ),
        Ok(()),
    ),
    (
        Call::Take(
            1,
            1,
            0,
            Act::Extend {
                at: 4,
                bytes: b"late",
            },
        ),
        Err(TakeFault::Wrong),
    ),
    (
        Call::Take(
            2,
            1,
            0,
            Act::Extend {
                at: 0,
                bytes: b"all",
            },
        ),
        Ok(()),
    ),
    (Call::Take(0, 1, 1, Act::Seal(b"survivor")), Ok(())),
    (Call::Take(0, 1, 1, Act::Close), Err(TakeFault::Wrong)),
    (Call::Name(1), Ok(())),
    (Call::Raise(1, 2), Ok(())),
    (Call::Raise(1, 1), Ok(())),
    (Call::Take(0, 1, 0, Act::Close), Ok(())),
    (
        Call::Take(
            0,
            1,
            0,
            Act::Extend {
                at: 6,
                bytes: b"closed",
            },
        ),
        Err(TakeFault::Wrong),
    ),
    (Call::Take(1, 1, 0, Act::Close), Ok(())),
    (Call::Fault(2, false), Ok(())),
    (Call::Take(0, 2, 0, Act::Open(b"next")), Ok(())),
    (
        Call::Take(1, 2, 0, Act::Open(b"next")),
        Err(TakeFault::Fault),
    ),
    (Call::Take(1, 2, 0, Act::Open(b"next")), Ok(())),
    (Call::Fault(1, true), Ok(())),
    (
        Call::Take(2, 2, 0, Act::Seal(b"next")),
        Err(TakeFault::Fault),
    ),
    (Call::Take(2, 2, 0, Act::Free), Ok(())),
    (Call::Fault(1, false), Ok(())),
    (Call::Raise(2, 7), Err(TakeFault::Fault)),
    (Call::Limit(1), Ok(())),
    (Call::Raise(2, 5), Ok(())),
    (
        Call::Take(0, 2, 1, Act::Open(b"spent")),
        Err(TakeFault::Spent),
    ),
    (Call::Limit(u64::MAX), Ok(())),
    (Call::Take(2, 1, 0, Act::Free), Ok(())),
    (Call::Take(2, 1, 0, Act::Free), Err(TakeFault::Wrong)),
    (Call::Name(2), Ok(())),
    (Call::Retire(2), Ok(())),
];

/// Names a master, if the fleet has files.
fn name(
    fleet: &mut Fleets<MemoryDevice, RegistryFile<MemoryDevice>>,
    master: u64,
) -> Result<(), TakeFault> {
    match fleet {
        Fleets::Memory(_) => Ok(()),
        Fleets::Files(files) => match files.name_master(master) {
            Ok(()) => Ok(()),
            Err(_) => Err(TakeFault::Fault),
        },
    }
}

/// What a call answers.
pub(crate) fn answer_to(
    fleet: &mut Fleets<MemoryDevice, RegistryFile<MemoryDevice>>,
    call: &Call,
) -> Result<(), TakeFault> {
    match *call {
        Call::Take(backup, master, segment, act) => {
            let op = Op {
                master,
                segment,
                act,
            };
            fleet.take(backup, &op)
        }
        Call::Raise(master, id) => fleet.raise(master, id),
        Call::Name(master) => name(fleet, master),
        Call::Fault(takes, taken) => {
            fleet.fault_at(takes, taken);
            Ok(())
        }
        Call::Limit(takes) => {
            fleet.limit(takes);
            Ok(())
        }
        Call::Retire(keep) => fleet.retire(keep),
    }
}
