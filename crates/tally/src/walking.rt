//! The tombstones of a segment that are kept.

ghost use Rattle.std.specs.Prelude.{◌≡◌, ◌≤◌, length};
ghost use Rattle.entry.specs.Format.{spelling};
ghost use Rattle.entry.specs.Text.{is_data, text_of};
ghost use Rattle.entry.specs.View.{shown};
ghost use Rattle.compactor.specs.Log.{ids_of_log};
ghost use Rattle.tally.specs.Live.{stone_one, stone_bytes};
ghost use Rattle.tally.specs.Opening.{front_of};

use compactor::LogSet;
use entry::EntryRef;
use segment::SegmentRef;

/// The bytes of a cache line.
const LINE: usize = 64;

/// So many cache lines are loaded at once.
const LINES: usize = 64;

/// Loads some bytes of a text from an offset on, so that their cache misses overlap. Returns the offset behind them. No
/// contract speaks of it.
fn load_ahead(text: &[u8], from: usize) -> usize {
    let mut at = from;
    let mut loaded: u64 = 0;
    for _ in 0..LINES {
        if at >= text.len() {
            break;
        }
        loaded = loaded.rotate_left(9) ^ u64::from(text[at]);
        at = at.saturating_add(LINE);
    }
    // What was loaded has no meaning. Since the result depends on it, the compiler keeps the loads.
    if loaded == u64::MAX { from } else { at }
}

/// Returns how many bytes a segment's tombstones have that name a segment of the log set. The call reads the whole
/// segment, and doesn't look into the index.
pub fn stones_in(segment: &SegmentRef<'_>, log: &LogSet<'_>) -> usize
    ensures sum { result ≡ stone_bytes (ids_of_log log.now) segment.now }
    ensures limit { result ≤ 8388608 }
{
    let text = segment.bytes();
    let mut len = 0;
    let mut at = 0;
    let mut loaded = 0;
    while at < text.len() {
        if at >= loaded {
            loaded = load_ahead(text, at);
        }
        let Ok((entry, taken)) = EntryRef::read(&text[at..]) else {
            unreachable!()
        };
        len += stone_len(&entry, taken, log);
        at += taken;
    }
    len
}

/// Returns how many bytes a segment has before its first object or tombstone. The call reads no more of it.
pub fn opening_len(segment: &SegmentRef<'_>) -> usize
    ensures sum { result ≡ length (text_of (front_of segment.now)) }
    ensures limit { result ≤ 8388608 }
{
    let text = segment.bytes();
    let mut at = 0;
    while at < text.len() {
        let Ok((entry, taken)) = EntryRef::read(&text[at..]) else {
            unreachable!()
        };
        if is_data(&entry) {
            return at;
        }
        at += taken;
    }
    at
}

/// Returns true if the entry is an object or a tombstone.
fn is_data(entry: &EntryRef<'_>) -> bool
    ensures { result ≡ is_data (shown entry.now) }
{
    match entry {
        EntryRef::Object(_) | EntryRef::Tombstone(_) => true,
        _ => false,
    }
}

/// Returns the bytes of an entry, which are `len`, if it is a tombstone that names a segment of the log set, else 0.
fn stone_len(entry: &EntryRef<'_>, len: usize, log: &LogSet<'_>) -> usize
    requires { len ≡ length (spelling (shown entry.now)) }
    ensures { result ≡ stone_one (ids_of_log log.now) (shown entry.now) }
{
    match entry {
        EntryRef::Tombstone(tombstone) => { if log.has(tombstone.segment) { len } else { 0 } }
        _ => 0,
    }
}
