//! Reading segments.

ghost use Rattle.std.specs.Prelude.{◌≡◌, ◌≢◌, ◌≤◌, ◌<◌, List, length, IfOk, IfErr, MatchResult};
ghost use Rattle.entry.specs.declared.entry.Entry.{Entry};
ghost use Rattle.entry.specs.Text.{IsTextOf, IsSegmentText, entries_in};
ghost use Rattle.segment.specs.Faults.{IsSegmentFault};
ghost use Rattle.segment.specs.Walk.{IsWalked};
ghost use Rattle.segment.specs.Bytes.{IsSegmentBytes};

use crate::expected::Expected;
use crate::fault::SegmentFault;
use crate::segment::{MAX_SEGMENT_LEN, Segment};
use crate::view::SegmentRef;
use entry::EntryRef;
use std::alloc::Global;

/// Reads the entry at an offset. Returns the offset after this entry, and what has to come there.
fn step(bytes: &[u8], at: usize, expected: Expected) -> Result<(usize, Expected), SegmentFault>
    requires limit { length bytes.now ≤ 8388608 }
    requires more { at < length bytes.now }
    requires walked { IsWalked bytes.now at expected }
    ensures above { IfOk result (λ next. at < next.0) }
    ensures walked { IfOk result (λ next. IsWalked bytes.now next.0 next.1) }
    ensures fault { IfErr result (λ fault. IsSegmentFault bytes.now fault) }
    ensures memory { IfErr result (λ fault. fault ≢ SegmentFault.NoMemory) }
{
    match EntryRef::read(&bytes[at..]) {
        Ok((entry, taken)) => match expected.next(&entry) {
            Some(next) => Ok((at + taken, next)),
            None => Err(SegmentFault::BadOrder(at)),
        },
        Err(_) => Err(SegmentFault::BadEntry(at)),
    }
}

/// Tests whether the bytes are the text of a segment. A fault names the first test that fails.
pub(crate) fn check(bytes: &[u8]) -> Result<(), SegmentFault>
    ensures ok { IfOk result (λ _. IsSegmentBytes bytes.now) }
    ensures fault { IfErr result (λ fault. IsSegmentFault bytes.now fault) }
    ensures memory { IfErr result (λ fault. fault ≢ SegmentFault.NoMemory) }
{
    if bytes.len() > MAX_SEGMENT_LEN {
        return Err(SegmentFault::TooLong);
    }
    let mut at = 0;
    let mut expected = Expected::Header;
    while at < bytes.len() {
        (at, expected) = step(bytes, at, expected)?;
    }
    match expected {
        Expected::Data => Ok(()),
        _ => Err(SegmentFault::BadOrder(at)),
    }
}

/// Returns a copy of the segment whose text the bytes are.
pub fn read_segment(alloc: Global, bytes: &[u8]) -> Result<Segment, SegmentFault>
    // The bytes are the text of the segment that is read.
    ensures found { IfOk result (λ segment. IsTextOf bytes.now segment) }
    // The text of each segment within the limit is read, unless memory runs out.
    ensures complete { (entries : List Entry) → IsTextOf bytes.now entries → length bytes.now ≤ MAX_SEGMENT_LEN →
        MatchResult result (λ segment. segment ≡ entries) (λ fault. fault ≡ SegmentFault.NoMemory) }
    // A fault names the first test that fails. NoMemory comes only if no test fails.
    ensures fault { IfErr result (λ fault. IsSegmentFault bytes.now fault) }
{
    match SegmentRef::read(bytes) {
        Ok(segment) => Ok(segment.to_segment(alloc)?),
        Err(fault) => Err(fault),
    }
}
