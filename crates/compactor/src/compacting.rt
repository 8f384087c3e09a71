//! Compaction of one segment.

ghost use Rattle.std.specs.Prelude.{◌≡◌, ◌+◌, ◌-◌, ◌≤◌, ◌++◌, [], length, vec_len, vec_capacity, IfOk, OnOk, OnErr};
ghost use Rattle.entry.specs.Text.{text_of, IsTextOf};
ghost use Rattle.compactor.specs.Kept.{kept_of};
ghost use Rattle.compactor.specs.Log.{ids_of_log};
ghost use Rattle.compactor.specs.Moved.{Follows};
ghost use Rattle.compactor.specs.Piece.{piece};

use crate::keeping::{kept_and_moved, kept_len};
use crate::log_set::LogSet;
use entry::{EntryRef, NoMemory};
use hash_index::{Index, Place};
use segment::{Segment, SegmentRef};
use std::alloc::Global;

/// The objects among so many entries are prefetched at once.
const AHEAD: usize = 32;

/// Appends the bytes of a text from one offset to another. The caller has taken memory for them.
fn append_piece(text: &[u8], from: usize, to: usize, out: &mut Vec<u8>)
    requires order { from ≤ to }
    requires within { to ≤ length text.now }
    requires room { vec_len out.old + (to - from) ≤ vec_capacity out.old }
    ensures items { out.new.items ≡ out.old.items ++ piece from to text.now }
    ensures len { vec_len out.new ≡ vec_len out.old + (to - from) }
    ensures capacity { vec_capacity out.old ≤ vec_capacity out.new }
{
    out.extend_from_slice(&text[from..to]).unwrap()
}

/// Reads some entries ahead of an offset, and prefetches what the index has for their objects. Returns the offset
/// behind them. No contract speaks of it.
fn touch_ahead(text: &[u8], from: usize, index: &Index) -> usize {
    let mut at = from;
    let mut touched = 0;
    for _ in 0..AHEAD {
        if at >= text.len() {
            break;
        }
        let Ok((entry, taken)) = EntryRef::read(&text[at..]) else {
            break;
        };
        if let EntryRef::Object(object) = entry {
            touched |= index.touch(index.hash(&object.key));
        }
        at += taken;
    }
    // What was loaded has no meaning. Since the result depends on it, the compiler keeps the loads.
    if touched == u64::MAX { from } else { at }
}

/// Copies the kept entries of a segment to `out`. Kept entries that lie together are copied as one piece. The index
/// then leads to the copy of each kept object.
fn copy_kept(
    id: u64,
    segment: &SegmentRef<'_>,
    index: &mut Index,
    log: &LogSet<'_>,
    out: &mut Vec<u8>,
)
    requires empty { out.old.items ≡ [] }
    requires room { length (text_of (kept_of (ids_of_log log.now) index.old.held id segment.now))
        ≤ vec_capacity out.old }
    ensures copied { IsTextOf out.new.items (kept_of (ids_of_log log.now) index.old.held id segment.now) }
    ensures limit { length out.new.items ≤ 8388608 }
    ensures followed { Follows (ids_of_log log.now) id segment.now index.old.held index.new.held }
    ensures room { index.new.room ≡ index.old.room }
{
    let text = segment.bytes();
    let mut from = 0;
    let mut at = 0;
    let mut touched = 0;
    while at < text.len() {
        if at >= touched {
            touched = touch_ahead(text, at, index);
        }
        let Ok((entry, taken)) = EntryRef::read(&text[at..]) else {
            unreachable!()
        };
        let place = Place { segment: id, at };
        let to = Place {
            segment: id,
            at: out.len() + (at - from),
        };
        if !kept_and_moved(&entry, place, to, index, log) {
            append_piece(text, from, at, out);
            from = at + taken;
        }
        at += taken;
    }
    append_piece(text, from, at, out);
}

/// Makes a segment of a segment's kept entries, with one allocation. The index then leads to each kept object in the
/// new segment. On `Err` memory ran out, and nothing changed.
pub fn compact(
    alloc: Global,
    id: u64,
    segment: &SegmentRef<'_>,
    index: &mut Index,
    log: &LogSet<'_>,
) -> Result<Segment, NoMemory>
    ensures compacted { IfOk result (λ s. s ≡ kept_of (ids_of_log log.now) index.old.held id segment.now) }
    ensures followed { OnOk result (Follows (ids_of_log log.now) id segment.now index.old.held index.new.held) }
    ensures room { index.new.room ≡ index.old.room }
    ensures err { OnErr result (index.new ≡ index.old) }
{
    let len = kept_len(id, segment, index, log);
    compact_to_len(alloc, id, segment, index, log, len)
}

/// Makes a segment of a segment's kept entries as `compact` does, where the caller knows that they have `len` bytes.
/// The call reads the segment once. On `Err` memory ran out, and nothing changed.
pub fn compact_to_len(
    alloc: Global,
    id: u64,
    segment: &SegmentRef<'_>,
    index: &mut Index,
    log: &LogSet<'_>,
    len: usize,
) -> Result<Segment, NoMemory>
    requires known { len ≡ length (text_of (kept_of (ids_of_log log.now) index.old.held id segment.now)) }
    ensures compacted { IfOk result (λ s. s ≡ kept_of (ids_of_log log.now) index.old.held id segment.now) }
    ensures followed { OnOk result (Follows (ids_of_log log.now) id segment.now index.old.held index.new.held) }
    ensures room { index.new.room ≡ index.old.room }
    ensures err { OnErr result (index.new ≡ index.old) }
{
    let mut bytes = Vec::with_capacity(alloc, len)?;
    copy_kept(id, segment, index, log, &mut bytes);
    Ok(Segment::of_text(bytes))
}
