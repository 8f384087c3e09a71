//! Which entries of a segment are kept, and how many bytes they have.

ghost use Rattle.std.specs.Prelude.{◌≡◌, ◌+◌, ◌<◌, ◌≤◌, length, filter, if◌then◌else◌};
ghost use Rattle.entry.specs.Text.{text_of, is_data, IsSegment};
ghost use Rattle.entry.specs.View.{shown};
ghost use Rattle.places.specs.Relocation.{holds};
ghost use Rattle.compactor.specs.Asked.{asked_of, asked_bytes, counted, held_bytes};
ghost use Rattle.compactor.specs.Kept.{kept, kept_of};
ghost use Rattle.compactor.specs.Log.{ids_of_log};
ghost use Rattle.compactor.specs.Moved.{moved_one};

use crate::log_set::LogSet;
use arrayvec::ArrayVec;
use entry::EntryRef;
use hash_index::{Held, Index, Place};
use segment::SegmentRef;

/// Objects are looked up in batches of this many.
const SIDE_BY_SIDE: usize = 8;

/// An object of a segment that waits for its look-up.
#[derive(Clone, Copy, Default)]
pub(crate) struct Asked {
    /// The hash under which the index holds its key's place.
    pub hash: u64,
    /// Its offset in the segment, in bytes.
    pub at: usize,
    /// Its length in bytes.
    pub len: usize,
}

impl Asked {
    /// Returns the hash and the place for which the index is asked.
    fn held(self, id: u64) -> Held
        ensures { result ≡ asked_of id self }
    {
        Held {
            hash: self.hash,
            place: Place {
                segment: id,
                at: self.at,
            },
        }
    }
}

/// Returns true if the entry at this place is kept: an object if the index holds its place, a tombstone if the log set
/// has the segment that it names. Opening entries are always kept.
pub fn kept(entry: &EntryRef<'_>, place: Place, index: &Index, log: &LogSet<'_>) -> bool
    ensures { result ≡ kept (ids_of_log log.now) index.now.held place (shown entry.now) }
{
    match entry {
        EntryRef::Object(object) => {
            let hash = index.hash(&object.key);
            index.holds(Held { hash, place })
        }
        EntryRef::Tombstone(tombstone) => log.has(tombstone.segment),
        _ => true,
    }
}

/// Returns the bytes of those objects that the index holds. Looks into the bucket of each hash before it recurses, so
/// that the cache misses overlap. Looks further afterwards for the objects that it didn't find there.
fn held_bytes(asked: &[Asked], id: u64, index: &Index) -> usize
    requires { asked_bytes asked.now ≤ 8388608 }
    ensures sum { result ≡ held_bytes index.now.held id asked.now }
    ensures limit { result ≤ asked_bytes asked.now }
{
    let Some((one, others)) = asked.split_first() else {
        return 0;
    };
    let held = one.held(id);
    let is_first = index.holds_first(held);
    let len = held_bytes(others, id, index);
    if is_first || index.holds(held) {
        len + one.len
    } else {
        len
    }
}

/// Adds an object to the batch. A full batch is looked up and emptied first. Returns the bytes of the kept objects
/// that were looked up, or 0.
fn ask(one: Asked, asked: &mut ArrayVec<Asked, SIDE_BY_SIDE>, id: u64, index: &Index) -> usize
    requires { asked_bytes asked.old.items ≤ 8388608 }
    ensures sum { result + held_bytes index.now.held id asked.new.items
        ≡ held_bytes index.now.held id asked.old.items
        + (if holds index.now.held (asked_of id one) then one.len else 0) }
    ensures limit { result + asked_bytes asked.new.items ≤ asked_bytes asked.old.items + one.len }
{
    let mut len = 0;
    if asked.is_full() {
        len = held_bytes(asked.as_slice(), id, index);
        asked.clear();
    }
    asked.push(one);
    len
}

/// Counts a tombstone if it is kept, and adds an object to the batch. An opening entry doesn't count. Returns the
/// bytes that were counted, with those of a batch that was looked up.
fn count(
    entry: &EntryRef<'_>,
    place: Place,
    len: usize,
    asked: &mut ArrayVec<Asked, SIDE_BY_SIDE>,
    index: &Index,
    log: &LogSet<'_>,
) -> usize
    requires { asked_bytes asked.old.items + len ≤ 8388608 }
    ensures sum { result + held_bytes index.now.held place.segment asked.new.items
        ≡ held_bytes index.now.held place.segment asked.old.items
        + counted (ids_of_log log.now) index.now.held place (shown entry.now) len }
    ensures limit { result + asked_bytes asked.new.items ≤ asked_bytes asked.old.items + len }
{
    match entry {
        EntryRef::Object(object) => {
            let hash = index.hash(&object.key);
            let at = place.at;
            ask(Asked { hash, at, len }, asked, place.segment, index)
        }
        EntryRef::Tombstone(tombstone) => { if log.has(tombstone.segment) { len } else { 0 } }
        _ => 0,
    }
}

/// Counts an entry of a segment as `count` does, and an opening entry too.
fn count_any(
    entry: &EntryRef<'_>,
    place: Place,
    len: usize,
    asked: &mut ArrayVec<Asked, SIDE_BY_SIDE>,
    index: &Index,
    log: &LogSet<'_>,
) -> usize
    requires { asked_bytes asked.old.items + len ≤ 8388608 }
    ensures sum { result + held_bytes index.now.held place.segment asked.new.items
        ≡ held_bytes index.now.held place.segment asked.old.items
        + (if kept (ids_of_log log.now) index.now.held place (shown entry.now) then len else 0) }
    ensures limit { result + asked_bytes asked.new.items ≤ asked_bytes asked.old.items + len }
{
    match entry {
        EntryRef::Object(_) => count(entry, place, len, asked, index, log),
        EntryRef::Tombstone(_) => count(entry, place, len, asked, index, log),
        _ => len,
    }
}

/// Returns how many bytes the kept entries of a segment have. The call reads the whole segment.
pub fn kept_len(id: u64, segment: &SegmentRef<'_>, index: &Index, log: &LogSet<'_>) -> usize
    ensures { result ≡ length (text_of (kept_of (ids_of_log log.now) index.now.held id segment.now)) }
{
    let text = segment.bytes();
    let mut asked = ArrayVec::new();
    let mut len = 0;
    let mut at = 0;
    while at < text.len() {
        let Ok((entry, taken)) = EntryRef::read(&text[at..]) else {
            unreachable!()
        };
        let place = Place { segment: id, at };
        len += count_any(&entry, place, taken, &mut asked, index, log);
        at += taken;
    }
    len + held_bytes(asked.as_slice(), id, index)
}

/// Returns how many bytes the kept objects and tombstones of a segment have. Its opening entries don't count. The call
/// reads the whole segment.
pub fn kept_bytes(id: u64, segment: &SegmentRef<'_>, index: &Index, log: &LogSet<'_>) -> usize
    ensures kept { result ≡ length (text_of
        (filter is_data (kept_of (ids_of_log log.now) index.now.held id segment.now))) }
    ensures valid { IsSegment segment.now }
    ensures limit { result ≤ 8388608 }
{
    let text = segment.bytes();
    let mut asked = ArrayVec::new();
    let mut len = 0;
    let mut at = 0;
    while at < text.len() {
        let Ok((entry, taken)) = EntryRef::read(&text[at..]) else {
            unreachable!()
        };
        let place = Place { segment: id, at };
        len += count(&entry, place, taken, &mut asked, index, log);
        at += taken;
    }
    len + held_bytes(asked.as_slice(), id, index)
}

/// Returns true if the entry at this place is kept. The index then leads to the new place of a kept object.
pub(crate) fn kept_and_moved(
    entry: &EntryRef<'_>,
    place: Place,
    to: Place,
    index: &mut Index,
    log: &LogSet<'_>,
) -> bool
    requires { to.at < 8388608 }
    ensures kept { result ≡ kept (ids_of_log log.now) index.old.held place (shown entry.now) }
    ensures moved { index.new.held ≡ moved_one place to (shown entry.now) index.old.held }
    ensures room { index.new.room ≡ index.old.room }
{
    match entry {
        EntryRef::Object(object) => {
            let hash = index.hash(&object.key);
            index.relocate(Held { hash, place }, to)
        }
        _ => kept(entry, place, index, log),
    }
}
