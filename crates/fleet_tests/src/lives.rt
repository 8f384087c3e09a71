//! A store whose lives follow one another over files in memory.

ghost use Rattle.take_journal.specs.Memory.{memory_bytes, memory_has_failed, memory_leaves};
ghost use Rattle.file_fleet.specs.Members.{AreSafe};
ghost use Rattle.file_fleet.specs.Noting.{IsSound, noted_by};

use crate::making::{NEVER, WHOLE, found_of, members};
use embedded::recovery::{GroupOrder, Rebuilt};
use embedded::whole_will;
use file_fleet::{FleetRegistry, Members};
use file_store::{FileStore, If, Options, Status, empty_table, start};
use found_recovery::recover_found;
use registry_file::RegistryFile;
use std::alloc::Global;
use take_journal::MemoryDevice;

/// Begins a life with this table.
fn begin(
    alloc: Global,
    table: &Rebuilt,
    members: Members<MemoryDevice, RegistryFile<MemoryDevice>>,
) -> Option<FileStore<MemoryDevice, RegistryFile<MemoryDevice>>>
    requires { AreSafe memory_bytes memory_leaves memory_has_failed (λ r. noted_by r)
        (λ r. IsSound memory_bytes memory_leaves memory_has_failed r) members }
{
    match start(alloc, table, &Options::usual(), members) {
        Ok(store) => Some(store),
        Err(_) => None,
    }
}

/// A new store.
fn first_life(alloc: Global) -> Option<FileStore<MemoryDevice, RegistryFile<MemoryDevice>>> {
    match members(alloc, [NEVER; 3], NEVER, WHOLE) {
        Some(members) => begin(alloc, &empty_table(alloc), members),
        None => None,
    }
}

/// The next life, of what a crash leaves of a store now.
fn next_life(
    alloc: Global,
    left: &Members<MemoryDevice, RegistryFile<MemoryDevice>>,
) -> Option<FileStore<MemoryDevice, RegistryFile<MemoryDevice>>> {
    let Ok(will) = whole_will(alloc, &Options::usual()) else {
        return None;
    };
    let Some(found) = found_of(alloc, left) else {
        return None;
    };
    let Some(master) = found.registry().master() else {
        return None;
    };
    match recover_found(alloc, &found, master, &will, &GroupOrder::Forward) {
        Ok(table) => match found.into_members(alloc) {
            Ok(members) => begin(alloc, &table, members),
            Err(_) => None,
        },
        Err(_) => None,
    }
}

/// A life of a store: the first one, or the one after what a crash leaves now.
fn life(
    alloc: Global,
    left: Option<&Members<MemoryDevice, RegistryFile<MemoryDevice>>>,
) -> Option<FileStore<MemoryDevice, RegistryFile<MemoryDevice>>> {
    match left {
        Some(left) => next_life(alloc, left),
        None => first_life(alloc),
    }
}

/// Whether two keys are put, and one of them is deleted.
fn is_written(store: &mut FileStore<MemoryDevice, RegistryFile<MemoryDevice>>) -> bool {
    let kept = store.put(1, b"kept", b"first\0value", If::Absent);
    let gone = store.put(1, b"gone", b"", If::Any);
    let deleted = store.delete(1, b"gone");
    let none = store.put(1, b"", b"", If::Any);
    let is_done = kept.status == Status::Ok && gone.status == Status::Ok;
    is_done && deleted.status == Status::Ok && none.status == Status::Refused
}

/// Whether the one key is found, and the other isn't.
fn is_read(store: &mut FileStore<MemoryDevice, RegistryFile<MemoryDevice>>) -> bool {
    let gone = store.get(1, b"gone");
    let kept = store.get(1, b"kept");
    let is_value = match store.value(kept.place) {
        Some(value) => value == b"first\0value".as_slice(),
        None => false,
    };
    gone.status == Status::None && kept.version == 1 && is_value
}

/// Whether a store reads what was written, before and after it freed what the last life left. The first one writes it.
fn is_kept(
    store: &mut Option<FileStore<MemoryDevice, RegistryFile<MemoryDevice>>>,
    is_first: bool,
) -> bool {
    match store {
        Some(store) => {
            (!is_first || is_written(store))
                && is_read(store)
                && store.retire().is_ok()
                && is_read(store)
        }
        None => false,
    }
}

/// The backups of a store.
fn members_of(
    store: &Option<FileStore<MemoryDevice, RegistryFile<MemoryDevice>>>,
) -> Option<&Members<MemoryDevice, RegistryFile<MemoryDevice>>> {
    match store {
        Some(store) => Some(store.master.fleet.members()),
        None => None,
    }
}

fn both(one: bool, other: bool) -> bool {
    one && other
}

/// Whether so many lives, one after another, read what the first one wrote.
fn are_kept(
    alloc: Global,
    left: Option<&Members<MemoryDevice, RegistryFile<MemoryDevice>>>,
    lives: u64,
) -> bool {
    if lives == 0 {
        return true;
    }
    let mut store = life(alloc, left);
    let one = is_kept(&mut store, left.is_none());
    let others = are_kept(alloc, members_of(&store), lives - 1);
    both(one, others)
}

#[test]
fn each_life_has_the_table_of_the_last(rt: HostRuntime) {
    assert!(rt; are_kept(rt.alloc(), None, 3));
}
