//! The meaning of a bag of entries, found by comparing each object with all entries.

ghost use Rattle.std.specs.Prelude.{◌≡◌, ◌<◌, ◌≤◌, ◌↔◌, IsTrue, IfOk, OnErr, is_some};
ghost use Rattle.entry.specs.declared.entry.Entry.{Entry as EntryValue};
ghost use Rattle.entry.specs.declared.entry.Object.{Object as ObjectValue};
ghost use Rattle.entry.specs.Meaning.{IsMeaning, IsClean, IsOfKey, rank_of, among, contents_of};
ghost use Rattle.versioned_map.specs.Map.{AreOfDifferentKeys};

use crate::copies::copy_object;
use entry::{Entry, Key, NoMemory, Object};
use std::alloc::Global;

/// Returns true if the entry is of the object's key and ranks above the object.
fn outranks(entry: &Entry, object: &Object) -> bool
    ensures { IsTrue result ↔
        (IsOfKey object.now.key entry.now × (rank_of (Entry.Object object.now) < rank_of entry.now)) }
{
    match entry {
        Entry::Object(other) => other.key == object.key && other.version > object.version,
        Entry::Tombstone(tombstone) => tombstone.key == object.key
            && tombstone.version >= object.version,
        _ => false,
    }
}

/// Returns true if no entry of the bag is of the object's key and ranks above the object.
fn is_top(bag: &[Entry], object: &Object) -> bool
    ensures { IsTrue result ↔
        ((e : EntryValue) → among bag.now e → IsOfKey object.now.key e →
        rank_of e ≤ rank_of (Entry.Object object.now)) }
{
    !bag.iter().any(|entry| outranks(entry, object))
}

fn is_listed(objects: &[Object], key: &Key) -> bool
    ensures { result ≡ is_some (contents_of objects.now key.now) }
{
    objects.iter().any(|object| object.key == *key)
}

/// Returns the objects of the bag that no entry of it outranks, at most one for each key. Each object is compared with
/// all entries, so the cost is quadratic. The call allocates memory for copies of the objects.
pub fn meaning(alloc: Global, bag: &[Entry]) -> Result<Vec<Object>, NoMemory>
    ensures meaning { IfOk result (λ objects.
        IsClean (among bag.now) → IsMeaning (among bag.now) (contents_of objects.items)) }
    ensures once { IfOk result (λ objects. AreOfDifferentKeys objects.items) }
    // The call allocates memory only if there is an object in the bag.
    ensures refused { OnErr result ((o : ObjectValue) × among bag.now (Entry.Object o)) }
{
    let mut objects = Vec::new(alloc);
    for entry in bag {
        if let Entry::Object(object) = entry {
            if is_top(bag, object) && !is_listed(objects.as_slice(), &object.key) {
                objects.push(copy_object(alloc, object)?)?;
            }
        }
    }
    Ok(objects)
}
