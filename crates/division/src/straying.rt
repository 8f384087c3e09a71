//! A key that has no partition, found without memory.

ghost use Rattle.entry.specs.View.{shown};
ghost use Rattle.division.specs.Division.{IsKeyOf, IsStrayOf, IsStrayIn};

use entry::{EntryRef, KeyRef};
use segment::SegmentRef;
use tablet_will::Will;

/// The key of an object or a tombstone, or None for another entry.
fn key_of<'a>(entry: &EntryRef<'a>) -> Option<KeyRef<'a>>
    ensures { IsKeyOf (shown entry.entry.now) result }
{
    match entry {
        EntryRef::Object(object) => Some(object.key),
        EntryRef::Tombstone(tombstone) => Some(tombstone.key),
        _ => None,
    }
}

/// The key of the entry, if the entry is an object or a tombstone and its key has no partition.
fn stray_of<'a>(entry: &EntryRef<'a>, will: &Will) -> Option<KeyRef<'a>>
    ensures { IsStrayOf will.now (shown entry.entry.now) result }
{
    match key_of(entry) {
        Some(key) => {
            if will.partition_of_ref(&key).is_some() {
                None
            } else {
                Some(key)
            }
        }
        None => None,
    }
}

/// The first key of the segment that has no partition, or None if each key has one. It takes no memory.
pub(crate) fn first_stray<'a>(segment: &SegmentRef<'a>, will: &Will) -> Option<KeyRef<'a>>
    ensures { IsStrayIn will.now segment.entry.now result }
{
    for entry in segment.entries() {
        if let Some(key) = stray_of(&entry, will) {
            return Some(key);
        }
    }
    None
}
