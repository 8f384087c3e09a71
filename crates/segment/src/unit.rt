//! Units: objects and tombstones that are appended together.

ghost use Rattle.std.specs.Prelude.{◌≡◌, ◌+◌, ◌≤◌, ◌<◌, ◌++◌, ◌↔◌, true, length, map, vec_len};
ghost use Rattle.std.specs.Prelude.{vec_capacity, IfSome, IsSome, OnSome, OnOk, OnErr};
ghost use Rattle.std.specs.List.{AllByRecursion};
ghost use Rattle.entry.specs.Format.{spelling, IsEntry};
ghost use Rattle.entry.specs.Text.{text_of, is_data, are_data};
ghost use Rattle.entry.specs.View.{shown};

use entry::{EntryRef, NoMemory};

/// Returns how many bytes the spelling of an object or a tombstone has.
fn spelled_len(entry: &EntryRef) -> usize
    requires { is_data (shown entry.now) ≡ true }
    ensures len { result ≡ length (spelling (shown entry.now)) }
    ensures limit { result ≤ 23 + 1024 + 2097152 }
    ensures valid { IsEntry (shown entry.now) }
{
    match entry {
        EntryRef::Object(object) => object.spelled_len(),
        EntryRef::Tombstone(tombstone) => tombstone.spelled_len(),
        _ => unreachable!(),
    }
}

/// Appends the spelling of an object or a tombstone.
fn write(entry: &EntryRef, out: &mut Vec<u8>) -> Result<(), NoMemory>
    requires { is_data (shown entry.now) ≡ true }
    ensures ok { OnOk result (out.new.items ≡ out.old.items ++ spelling (shown entry.now)) }
    ensures full { OnErr result (vec_capacity out.old < vec_len out.old + length (spelling (shown entry.now))) }
    ensures capacity { vec_capacity out.old ≤ vec_capacity out.new }
{
    match entry {
        EntryRef::Object(object) => object.write(out),
        EntryRef::Tombstone(tombstone) => tombstone.write(out),
        _ => unreachable!(),
    }
}

/// Returns how many bytes the spellings of a unit have together, or None if they have more than `room`.
pub(crate) fn len_within(unit: &[EntryRef<'_>], room: usize) -> Option<usize>
    requires data { are_data (map shown unit.now) ≡ true }
    requires limit { room ≤ 8388608 }
    ensures len { IfSome result (λ len. len ≡ length (text_of (map shown unit.now))) }
    ensures fits { IsSome result ↔ (length (text_of (map shown unit.now)) ≤ room) }
    ensures valid { OnSome result (AllByRecursion IsEntry (map shown unit.now)) }
{
    let mut len = 0;
    for entry in unit {
        len += spelled_len(entry);
        if len > room {
            return None;
        }
    }
    Some(len)
}

/// Appends the spellings of a unit. The vector has room for them.
pub(crate) fn write_all(unit: &[EntryRef<'_>], out: &mut Vec<u8>)
    requires data { are_data (map shown unit.now) ≡ true }
    requires room { vec_len out.old + length (text_of (map shown unit.now)) ≤ vec_capacity out.old }
    ensures items { out.new.items ≡ out.old.items ++ text_of (map shown unit.now) }
    ensures capacity { vec_capacity out.old ≤ vec_capacity out.new }
{
    for entry in unit {
        write(entry, out).unwrap();
    }
}
