//! Entries that a pass read ahead.

ghost use Rattle.std.specs.Prelude.{◌≡◌, ◌+◌, ◌<◌, [], drop, length, nat_lt, slice_get, sum_by};
ghost use Rattle.std.specs.Prelude.{IfSome, IfNone};
ghost use Rattle.cleaner.specs.Passes.{seen_len, IsSeenAt, IsAhead};
ghost use Rattle.cleaner.specs.Walks.{IsBetween, IsAtData};

use arrayvec::ArrayVec;
use entry::EntryRef;
use hash_index::Index;
use segment::SegmentRef;
use std::marker::Model;

/// A pass reads at most this many entries ahead.
const AHEAD: usize = 32;

/// What a pass remembers of an object or a tombstone that it read.
#[derive(Clone, Copy)]
pub enum Seen {
    /// An object: the hash under which the index holds its key's place, and its length in bytes.
    Object(u64, usize),
    /// A tombstone: the segment that it names, and its length in bytes.
    Tombstone(u64, usize),
}

impl Default for Seen {
    fn default() -> Seen {
        Seen::Tombstone(0, 0)
    }
}

impl Seen {
    /// Returns the length of the entry in bytes.
    #[inline(always)]
    pub(crate) fn len(self) -> usize
        ensures { result ≡ seen_len self }
    {
        match self {
            Seen::Object(_, len) => len,
            Seen::Tombstone(_, len) => len,
        }
    }
}

/// The next objects and tombstones of a victim, read in one go. Contracts see those that aren't treated yet.
#[derive(Drop)]
pub struct Ahead {
    /// The first `near` victims are still in cache, with what the index holds of them.
    near: usize,
    /// How many of the entries are treated.
    treated: usize,
    /// The results of prefetches. They are meaningless; they only keep the compiler from removing the loads.
    touched: u64,
    seen: ArrayVec<Seen, AHEAD>,
}

impl Model for Ahead {
    ghost use Rattle.std.specs.Prelude.{◌≤◌, List, drop, length};
    ghost use Rattle.cleaner.specs.declared.ahead.Seen.{Seen};

    ghost Value = { List Seen };

    ghost view = { λ a. drop a.treated a.seen.items };

    ghost invariant = { λ a. a.treated ≤ length a.seen.items };
}

/// Returns what a pass remembers of the entry at an offset of a segment; `None` if no object or tombstone stands
/// there.
#[inline(always)]
fn seen_at(segment: &SegmentRef<'_>, at: usize, index: &Index) -> Option<Seen>
    requires { IsBetween segment.now at }
    ensures seen { IfSome result (IsSeenAt index.now.held.seed segment.now at) }
    ensures other { IfNone result (IsAtData segment.now at → ⊥) }
{
    let text = segment.bytes();
    if at >= text.len() {
        return None;
    }
    let Ok((entry, len)) = EntryRef::read(&text[at..]) else {
        unreachable!()
    };
    match entry {
        EntryRef::Object(object) => Some(Seen::Object(index.hash(&object.key), len)),
        EntryRef::Tombstone(tombstone) => Some(Seen::Tombstone(tombstone.segment, len)),
        _ => None,
    }
}

/// Reads the objects and tombstones of a segment from an offset on, at most 32 of them, and stops at any other entry.
/// Returns the offset behind the last one.
pub(crate) fn gather(
    segment: &SegmentRef<'_>,
    from: usize,
    index: &Index,
    seen: &mut ArrayVec<Seen, AHEAD>,
) -> usize
    requires empty { seen.old.items ≡ [] }
    requires at { IsAtData segment.now from }
    ensures ahead { IsAhead index.now.held.seed segment.now from seen.new.items }
    ensures end { result ≡ from + sum_by seen_len seen.new.items }
    ensures between { IsBetween segment.now result }
{
    let mut at = from;
    for _ in 0..AHEAD {
        let Some(one) = seen_at(segment, at, index) else {
            return at;
        };
        seen.push(one);
        at += one.len();
    }
    at
}

impl Ahead {
    /// Makes an `Ahead` without entries. The first `near` victims are still in cache.
    pub(crate) fn new(near: usize) -> Ahead
        ensures { result ≡ [] }
    {
        Ahead {
            near,
            treated: 0,
            touched: 0,
            seen: ArrayVec::new(),
        }
    }

    /// Returns the next entry; `None` if no entry that was read is left.
    #[inline(always)]
    pub(crate) fn first(&self) -> Option<Seen>
        ensures { result ≡ slice_get self.now 0 }
    {
        self.seen.as_slice().get(self.treated).copied()
    }

    /// Counts the next entry as treated; returns true if more entries were read.
    #[inline(always)]
    pub(crate) fn pass(&mut self) -> bool
        requires { 0 < length self.old }
        ensures rest { self.new ≡ drop 1 self.old }
        ensures more { result ≡ nat_lt 0 (length self.new) }
    {
        let read = self.seen.len();
        self.treated += 1;
        self.treated < read
    }

    /// Reads entries ahead from an offset of a segment, where an object or tombstone stands. Those read before are
    /// forgotten.
    pub(crate) fn read(&mut self, segment: &SegmentRef<'_>, from: usize, index: &Index)
        requires { IsAtData segment.now from }
        ensures { IsAhead index.now.held.seed segment.now from self.new }
    {
        self.treated = 0;
        self.seen.clear();
        let _end = gather(segment, from, index, &mut self.seen);
    }

    /// Prefetches what the index has for the objects that were read. Does nothing for a victim that is still in cache.
    pub(crate) fn touch(&mut self, victim: usize, index: &Index)
        ensures { self.new ≡ self.old }
    {
        if victim < self.near {
            return;
        }
        let mut touched = 0;
        for one in self.seen.as_slice() {
            if let Seen::Object(hash, _) = one {
                touched ^= index.touch(*hash);
            }
        }
        self.touched = touched;
    }
}
