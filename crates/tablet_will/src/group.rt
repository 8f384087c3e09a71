//! Sizes of one place, as a group, and where partitions begin.

ghost use Rattle.std.specs.Prelude.{◌≡◌, ◌<◌, ◌≤◌, ◌*◌, ◌∷◌, ◌==◌, ◌&&◌, length, drop, IfOk};
ghost use Rattle.tablet_will.specs.Rule.{groups, starts_of};

use entry::{NoMemory, Size};
use std::alloc::Global;

/// How many bytes and objects there are at one place of a table.
#[derive(Clone, Copy)]
pub(crate) struct Group {
    pub table: u64,
    pub place: u64,
    pub bytes: u128,
    pub objects: usize,
}

/// The place of a table where a partition begins.
#[derive(Clone, Copy)]
pub(crate) struct Start {
    pub table: u64,
    pub place: u64,
}

/// A partition that is being filled: its number, and how many bytes and objects it has so far.
#[derive(Clone, Copy)]
pub(crate) struct Load {
    pub partition: usize,
    pub bytes: u128,
    pub objects: usize,
}

fn is_same_place(size: &Size, other: &Size) -> bool
    ensures { result ≡ ((size.now.table == other.now.table) && (size.now.place == other.now.place)) }
{
    size.table == other.table && size.place == other.place
}

/// Returns the group of the first size and of those right after it that have the same place.
fn first_group(sizes: &[Size]) -> Group
    requires { 0 < length sizes.now }
    ensures group { groups sizes.now ≡ result ∷ groups (drop result.objects sizes.now) }
    ensures some { 0 < result.objects }
    ensures within { result.objects ≤ length sizes.now }
    ensures bytes { result.bytes ≤ 18446744073709551615 * result.objects }
{
    let first = &sizes[0];
    let mut bytes = first.bytes as u128;
    let mut objects = 1;
    while objects < sizes.len() && is_same_place(first, &sizes[objects]) {
        bytes += sizes[objects].bytes as u128;
        objects += 1;
    }
    Group {
        table: first.table,
        place: first.place,
        bytes,
        objects,
    }
}

impl Load {
    ghost use Rattle.std.specs.Prelude.{◌≡◌, ◌+◌, ◌<◌, ◌^◌};
    ghost use Rattle.tablet_will.specs.Rule.{begins_next};

    /// Returns true if the next partition begins at the group, because this one has no room for it.
    fn is_full_for(&self, group: &Group, max_bytes: u64, max_objects: u64) -> bool
        requires bytes { self.now.bytes + group.now.bytes < 2 ^ 128 }
        requires objects { self.now.objects + group.now.objects < 2 ^ 64 }
        ensures { result ≡ begins_next max_bytes max_objects self.now group.now }
    {
        self.objects > 0
            && self.partition < 4294967294
            && (self.bytes + group.bytes > max_bytes as u128
                || self.objects + group.objects > max_objects as usize)
    }
}

/// Returns the places where the partitions 1, 2, .. begin.
pub(crate) fn starts_of(
    alloc: Global,
    sizes: &[Size],
    max_bytes: u64,
    max_objects: u64,
) -> Result<Vec<Start>, NoMemory>
    ensures starts { IfOk result (λ starts. starts.items ≡ starts_of max_bytes max_objects sizes.now) }
{
    let mut starts = Vec::new(alloc);
    let mut load = Load {
        partition: 0,
        bytes: 0,
        objects: 0,
    };
    let mut at = 0;
    while at < sizes.len() {
        let group = first_group(&sizes[at..]);
        if load.is_full_for(&group, max_bytes, max_objects) {
            starts.push(Start {
                table: group.table,
                place: group.place,
            })?;
            load = Load {
                partition: load.partition + 1,
                bytes: group.bytes,
                objects: group.objects,
            };
        } else {
            load.bytes += group.bytes;
            load.objects += group.objects;
        }
        at += group.objects;
    }
    Ok(starts)
}
