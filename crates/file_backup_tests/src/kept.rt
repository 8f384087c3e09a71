//! A run of puts to a registry whose device stops at each of its calls, and what the next start finds.

ghost use Rattle.std.specs.Prelude.{IfSome};
ghost use Rattle.take_journal.specs.Memory.{memory_bytes, memory_has_failed, memory_leaves};
ghost use Rattle.registry_file.specs.File.{IsBacked};

use crate::stopped::WHOLE;
use registry_file::{Registry, RegistryFault, RegistryFile};
use registry_text::Record;
use std::alloc::Global;
use take_journal::{Journal, MemoryDevice, Tear};

/// How many puts the run has.
const PUTS: usize = 60;

/// The record of this number.
fn record_of(number: usize) -> Record {
    let round = (number / 6) as u64;
    match number % 6 {
        0 => Record::Journal {
            backup: round % 3,
            id: 100 + round,
            count: u64::MAX,
        },
        1 => Record::Raise {
            master: 1,
            head: 10 + round,
        },
        2 => Record::Raise { master: 1, head: 5 },
        3 => Record::Master(1 + round),
        4 => Record::Format(1 + round % 2),
        _ => Record::Journal {
            backup: round % 3,
            id: 100 + round,
            count: round,
        },
    }
}

/// What a registry keeps of backups 0 to 2, of master 1, and else.
#[derive(Clone, Copy, PartialEq, Eq)]
struct Summary {
    ids: [u64; 3],
    counts: [u64; 3],
    least: u64,
    master: u64,
    format: u64,
}

const NOTHING: Summary = Summary {
    ids: [0; 3],
    counts: [0; 3],
    least: 0,
    master: 0,
    format: 0,
};

/// The same after a record.
fn after(old: Summary, record: &Record) -> Summary {
    let mut new = old;
    match *record {
        Record::Journal { backup, id, count } => {
            if backup < 3 {
                new.ids[backup as usize] = id;
                new.counts[backup as usize] = count;
            }
        }
        Record::Raise { head, .. } => new.least = old.least.max(head),
        Record::Master(number) => new.master = number,
        Record::Format(number) => new.format = number,
    }
    new
}

/// What is kept after so many of the records.
fn expected(count: usize) -> Summary {
    let mut summary = NOTHING;
    for number in 0..count {
        summary = after(summary, &record_of(number));
    }
    summary
}

fn summary_of(registry: &Registry) -> Summary {
    let mut summary = NOTHING;
    for backup in 0..3 {
        if let Some(file) = registry.journal(backup as u64) {
            summary.ids[backup] = file.id;
            summary.counts[backup] = file.count;
        }
    }
    summary.least = registry.least(1);
    summary.master = registry.master().unwrap_or(0);
    summary.format = registry.format().unwrap_or(0);
    summary
}

fn is_after(registry: &Registry, count: usize) -> bool {
    let is_fleet = registry.fleet().id == 9 && registry.fleet().options.len() == 2;
    is_fleet && summary_of(registry) == expected(count)
}

/// A registry on an empty file, begun if the device doesn't stop before.
fn begun(alloc: Global, stops_at: u64, tear: Tear) -> Option<RegistryFile<MemoryDevice>>
    ensures { IfSome result (λ registry. IsBacked memory_bytes memory_leaves memory_has_failed registry) }
{
    match MemoryDevice::new(alloc, b"", stops_at, tear) {
        Ok(device) => {
            let mut registry = RegistryFile::new(alloc, device);
            let _is_begun = registry.begin(alloc, 9, &[5, 256]).is_ok();
            Some(registry)
        }
        Err(_) => None,
    }
}

/// Puts the records up to one that is refused. How many were put.
fn put_each(alloc: Global, registry: &mut RegistryFile<MemoryDevice>) -> usize
    requires { IsBacked memory_bytes memory_leaves memory_has_failed registry.old }
{
    for number in 0..PUTS {
        if registry.put(alloc, &record_of(number)).is_err() {
            return number;
        }
    }
    PUTS
}

/// Whether the next start finds what was answered, with the record that was under way or without it.
fn is_found(alloc: Global, disk: &[u8], count: usize) -> bool {
    match MemoryDevice::new(alloc, disk, u64::MAX, WHOLE) {
        Ok(device) => {
            let mut registry = RegistryFile::new(alloc, device);
            match registry.open(alloc, disk) {
                Ok(()) => {
                    is_after(registry.registry(), count)
                        || (count < PUTS && is_after(registry.registry(), count + 1))
                }
                Err(fault) => fault == RegistryFault::NotBegun && count == 0,
            }
        }
        Err(_) => false,
    }
}

/// Whether memory keeps what was answered, and so does the file after a stop.
fn survives(alloc: Global, stops_at: u64, tear: Tear) -> bool {
    match begun(alloc, stops_at, tear) {
        Some(mut registry) => {
            let count = put_each(alloc, &mut registry);
            (count == 0 || is_after(registry.registry(), count))
                && registry.is_out() == (count < PUTS)
                && is_found(alloc, registry.journal().device().disk(), count)
        }
        None => false,
    }
}

/// The first stop after which something is lost. A put makes four calls of the device, and what comes before makes
/// eight.
fn first_loss(alloc: Global, tear: Tear) -> Option<u64> {
    for stops_at in 1..4 * PUTS as u64 + 10 {
        if !survives(alloc, stops_at, tear) {
            return Some(stops_at);
        }
    }
    None
}

#[test]
fn each_stop_leaves_what_was_kept(rt: HostRuntime) {
    let alloc = rt.alloc();
    assert_eq!(rt; first_loss(alloc, WHOLE), None);
    let junk = Tear {
        kept: 3,
        junk: Some(1),
    };
    assert_eq!(rt; first_loss(alloc, junk), None);
}

/// Whether the registry goes on in a new file, which is shorter and keeps the same.
fn goes_on(alloc: Global, registry: &mut RegistryFile<MemoryDevice>) -> bool {
    match MemoryDevice::new(alloc, b"", u64::MAX, WHOLE) {
        Ok(device) => {
            let mut journal = Journal::new(device);
            match registry.copy_to(alloc, &mut journal) {
                Ok(()) => {
                    let own = registry.go_on_with(journal);
                    let disk = registry.journal().device().disk();
                    disk.len() < own.device().disk().len() && is_found(alloc, disk, PUTS)
                }
                Err(_) => false,
            }
        }
        Err(_) => false,
    }
}

fn is_rewritten(alloc: Global) -> bool {
    match begun(alloc, u64::MAX, WHOLE) {
        Some(mut registry) => {
            put_each(alloc, &mut registry) == PUTS
                && goes_on(alloc, &mut registry)
                && is_after(registry.registry(), PUTS)
        }
        None => false,
    }
}

#[test]
fn a_rewritten_file_keeps_the_same(rt: HostRuntime) {
    assert!(rt; is_rewritten(rt.alloc()));
}

/// A file that no put has made, and why it is refused.
struct Row {
    file: &'static [u8],
    fault: RegistryFault,
}

const ROWS: &[Row] = &[
    Row {
        file: b"",
        fault: RegistryFault::NotBegun,
    },
    Row {
        file: b"\x01\x00\x00\x00\x01\x02\x00",
        fault: RegistryFault::OtherVersion,
    },
    Row {
        file: b"\x01\x00\x00\x00\x01\x01\x00",
        fault: RegistryFault::WrongRecord(0),
    },
    Row {
        file: b"\x01\x00\x00\x00\x0c\x01R\x00\x00\x00\x00\x00\x00\x00\x09\x00\x00\x01\x00\x00\x00\x01\x09\x00",
        fault: RegistryFault::WrongRecord(1),
    },
    Row {
        file: b"\x01\x00\x00\x00\x0c\x01R\x00\x00\x00\x00\x00\x00\x00\x09\x00\x00\
            \x01\x00\x00\x00\x0c\x01R\x00\x00\x00\x00\x00\x00\x00\x09\x00\x00\x00",
        fault: RegistryFault::WrongRecord(1),
    },
    Row {
        file: b"\x01\x00\x00\x00\x0c\x01R\x00\x00\x00\x00\x00\x00\x00\x09\x00\x00\x01\x00",
        fault: RegistryFault::Damaged(17),
    },
];

fn is_refused(alloc: Global, row: &Row) -> bool {
    match MemoryDevice::new(alloc, row.file, u64::MAX, WHOLE) {
        Ok(device) => {
            let mut registry = RegistryFile::new(alloc, device);
            match registry.open(alloc, row.file) {
                Ok(()) => false,
                Err(fault) => fault == row.fault,
            }
        }
        Err(_) => false,
    }
}

fn first_other(alloc: Global) -> Option<usize> {
    for i in 0..ROWS.len() {
        if !is_refused(alloc, &ROWS[i]) {
            return Some(i);
        }
    }
    None
}

#[test]
fn wrong_registries_are_refused(rt: HostRuntime) {
    assert_eq!(rt; first_other(rt.alloc()), None);
}
