//! The sizes of the live objects, from which a will is made.

ghost use Rattle.std.specs.Prelude.{◌≡◌, ◌++◌, map, true, IfOk, OnOk};
ghost use Rattle.std.specs.List.Sorted.{IsPermutation};
ghost use Rattle.std.specs.Option.{option_map};
ghost use Rattle.entry.specs.View.{shown};
ghost use Rattle.tablet_will.specs.Sizes.{are_in_order};
ghost use Rattle.master_state.specs.Log.{state_now};
ghost use Rattle.master_state.specs.Sizes.{AreSizesOf, size_of, live_at, live_from, live_objects};

use entry::{EntryRef, NoMemory, OBJECT_LEN, Size};
use hash_index::{Held, Index, Place};
use master_state::Core;
use segment::SegmentRef;

/// Lists the sizes of the live objects, sorted by table, then by place, and changes nothing. A size has the table and
/// the place of the object's key, and the length of the object's entry in bytes.
pub fn sorted_sizes(core: &Core) -> Result<Vec<Size>, NoMemory>
    ensures { IfOk result (λ sizes. AreSizesOf (state_now core.now).contents sizes.items) }
{
    core.show_valid();
    let mut sizes = live_sizes(core)?;
    sort(&mut sizes);
    Ok(sizes)
}

/// Lists the sizes of the live objects, in the order in which the objects lie in the images.
fn live_sizes(core: &Core) -> Result<Vec<Size>, NoMemory>
    ensures { IfOk result (λ sizes. sizes.items ≡ map size_of (live_objects core.now)) }
{
    let mut sizes = Vec::with_capacity(core.alloc, core.index.len())?;
    for image in core.closed.as_slice() {
        add_sizes(image.id(), &image.segment(), &core.index, &mut sizes)?;
    }
    let head = core.head.image().view();
    add_sizes(core.head.id(), &head, &core.index, &mut sizes)?;
    Ok(sizes)
}

/// Returns the size of the object at this place. `None` means that the entry is no object, or that the index doesn't
/// hold the place under the hash of its key.
fn live_size(entry: &EntryRef<'_>, place: Place, index: &Index) -> Option<Size>
    ensures { result ≡ option_map size_of (live_at index.now.held place (shown entry.now)) }
{
    let EntryRef::Object(object) = entry else {
        return None;
    };
    let size = Size {
        table: object.key.table,
        place: object.key.place(),
        bytes: (OBJECT_LEN + object.key.bytes.len() + object.value.len()) as u64,
    };
    let hash = index.hash(&object.key);
    if index.holds(Held { hash, place }) {
        Some(size)
    } else {
        None
    }
}

/// Adds the sizes of a segment's live objects to `sizes`.
fn add_sizes(
    id: u64,
    segment: &SegmentRef<'_>,
    index: &Index,
    sizes: &mut Vec<Size>,
) -> Result<(), NoMemory>
    ensures { OnOk result (sizes.new.items ≡
        sizes.old.items ++ map size_of (live_from index.now.held id 0 segment.now)) }
{
    let text = segment.bytes();
    let mut at = 0;
    while at < text.len() {
        let Ok((entry, taken)) = EntryRef::read(&text[at..]) else {
            unreachable!()
        };
        let place = Place { segment: id, at };
        if let Some(size) = live_size(&entry, place, index) {
            sizes.push(size)?;
        }
        at += taken;
    }
    Ok(())
}

/// Sorts sizes by table, then by place.
fn sort(sizes: &mut Vec<Size>)
    ensures same { IsPermutation sizes.old.items sizes.new.items }
    ensures order { are_in_order sizes.new.items ≡ true }
{
    sizes.sort_unstable_by_key(|size| (size.table, size.place));
}
