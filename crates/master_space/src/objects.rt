//! The live objects of a table, in the order of their keys.

ghost use Rattle.std.specs.Prelude.{◌≡◌, ◌++◌, map, IfOk, OnOk};
ghost use Rattle.std.specs.Cmp.Lexicographic.{slice_cmp};
ghost use Rattle.std.specs.List.Sorted.{IsPermutation, IsSortedByKey};
ghost use Rattle.std.specs.Option.{option_map, option_to_list};
ghost use Rattle.std.specs.Ordering.{nat_cmp};
ghost use Rattle.entry.specs.declared.view.ObjectRef.{ObjectRef as ObjectRefValue};
ghost use Rattle.entry.specs.View.{shown, shown_object};
ghost use Rattle.master_state.specs.Log.{state_now};
ghost use Rattle.master_state.specs.Sizes.{live_at, live_from, live_objects};
ghost use Rattle.master_space.specs.Objects.{AreObjectsOf, of_table};

use entry::{EntryRef, NoMemory, ObjectRef};
use hash_index::{Held, Index, Place};
use master_state::Core;
use object_list::ObjectList;
use segment::SegmentRef;
use std::alloc::Global;

/// Lists the live objects of a table, sorted by the bytes of their keys, and changes nothing. The list has bytes of its
/// own. Every entry of the log in memory is read, and the n objects of the table are sorted in n log n steps. Besides
/// the list they take 64 bytes each meanwhile, and up to twice that while these grow.
pub fn sorted_objects(core: &Core, table: u64) -> Result<ObjectList, NoMemory>
    ensures { IfOk result (λ objects. AreObjectsOf (state_now core.now).contents table objects) }
{
    core.show_valid();
    let mut objects = objects_in(core, table)?;
    sort(&mut objects);
    packed(core.alloc, objects.as_slice())
}

/// The live objects of a table, in the order in which they lie in the images. No byte is copied.
fn objects_in(core: &Core, table: u64) -> Result<Vec<ObjectRef<'_>>, NoMemory>
    ensures { IfOk result (λ objects. map shown_object objects.items ≡ of_table table (live_objects core.entry.now)) }
{
    let mut objects = Vec::new(core.alloc);
    for image in core.closed.as_slice() {
        add_objects(
            image.id(),
            &image.segment(),
            &core.index,
            table,
            &mut objects,
        )?;
    }
    let head = core.head.image().view();
    add_objects(core.head.id(), &head, &core.index, table, &mut objects)?;
    Ok(objects)
}

/// Returns the object at this place. `None` means that the entry is no object of the table, or that the index doesn't
/// hold the place under the hash of its key.
fn object_in<'a>(
    entry: &EntryRef<'a>,
    place: Place,
    index: &Index,
    table: u64,
) -> Option<ObjectRef<'a>>
    ensures { option_to_list (option_map shown_object result)
        ≡ of_table table (option_to_list (live_at index.now.held place (shown entry.entry.now))) }
{
    let EntryRef::Object(object) = entry else {
        return None;
    };
    if object.key.table != table {
        return None;
    }
    let hash = index.hash(&object.key);
    if !index.holds(Held { hash, place }) {
        return None;
    }
    Some(ObjectRef {
        key: object.key,
        version: object.version,
        value: object.value,
    })
}

/// Adds the live objects that a segment has of a table.
fn add_objects<'a>(
    id: u64,
    segment: &SegmentRef<'a>,
    index: &Index,
    table: u64,
    objects: &mut Vec<ObjectRef<'a>>,
) -> Result<(), NoMemory>
    ensures { OnOk result (map shown_object objects.new.items ≡ map shown_object objects.old.items
        ++ of_table table (live_from index.now.held id 0 segment.now)) }
{
    let text = segment.bytes();
    let mut at = 0;
    while at < text.len() {
        let Ok((entry, taken)) = EntryRef::read(&text[at..]) else {
            unreachable!()
        };
        let place = Place { segment: id, at };
        if let Some(object) = object_in(&entry, place, index, table) {
            objects.reserve(1)?;
            objects.push_reserved(object);
        }
        at += taken;
    }
    Ok(())
}

/// Sorts objects by the bytes of their keys.
fn sort(objects: &mut Vec<ObjectRef<'_>>)
    ensures same { IsPermutation objects.old.items objects.new.items }
    ensures order { IsSortedByKey (λ (o : ObjectRefValue). o.key.bytes.now) (slice_cmp nat_cmp) objects.new.items }
{
    objects.sort_unstable_by_key(|object| object.key.bytes);
}

/// How many bytes the spellings of the objects have together, to ask for their memory once.
fn spelled_len(objects: &[ObjectRef<'_>]) -> usize {
    let mut bytes: usize = 0;
    for object in objects {
        bytes = bytes.saturating_add(object.spelled_len());
    }
    bytes
}

/// Copies the objects into a list.
fn packed(alloc: Global, objects: &[ObjectRef<'_>]) -> Result<ObjectList, NoMemory>
    ensures { IfOk result (λ list. list ≡ map shown_object objects.now) }
{
    let mut list = ObjectList::with_capacity(alloc, spelled_len(objects))?;
    for object in objects {
        list.push(object)?;
    }
    Ok(list)
}
