//! The text of a segment in a vector: how it grows, and how its spare memory is given back.

ghost use Rattle.std.specs.Prelude.{◌≡◌, ◌+◌, ◌≤◌, ◌<◌, ◌↔◌, ◌++◌, length, map, true, vec_capacity};
ghost use Rattle.std.specs.Prelude.{IfOk, IfErr, OnOk, OnErr, IsErrOf};
ghost use Rattle.entry.specs.Text.{text_of, entries_in, are_data};
ghost use Rattle.entry.specs.View.{shown};
ghost use Rattle.segment.specs.Bytes.{IsSegmentBytes, IsDataText};

use crate::fault::AppendFault;
use crate::unit::{len_within, write_all};
use entry::EntryRef;

/// Appends objects and tombstones to the text of a segment if the text then has at most `limit` bytes. All of them are
/// appended, or none. Returns the offset of the first one. A vector with room for `limit` bytes takes no more memory.
#[inline(always)]
pub fn append_unit(
    text: &mut Vec<u8>,
    unit: &[EntryRef<'_>],
    limit: usize,
) -> Result<usize, AppendFault>
    requires segment { IsSegmentBytes text.old.items }
    requires data { are_data (map shown unit.now) ≡ true }
    requires limit { limit ≤ 8388608 }
    ensures valid { IsSegmentBytes text.new.items }
    ensures ok { OnOk result (entries_in text.new.items ≡ entries_in text.old.items ++ map shown unit.now) }
    ensures place { IfOk result (λ at. at ≡ length text.old.items) }
    // A unit that doesn't fit is reported as such, even if memory is short.
    ensures full { IsErrOf result AppendFault.Full ↔
        (limit < length text.old.items + length (text_of (map shown unit.now))) }
    ensures room { limit ≤ vec_capacity text.old → IfErr result (λ fault. fault ≡ AppendFault.Full) }
    ensures err { OnErr result (text.new.items ≡ text.old.items) }
    ensures capacity { vec_capacity text.old ≤ vec_capacity text.new }
{
    let at = text.len();
    let Some(room) = limit.checked_sub(at) else {
        return Err(AppendFault::Full);
    };
    let Some(len) = len_within(unit, room) else {
        return Err(AppendFault::Full);
    };
    text.reserve(len)?;
    write_all(unit, text);
    Ok(at)
}

/// Appends the objects and tombstones whose text `more` is, as `append_unit` does.
#[inline(always)]
pub fn append_text(text: &mut Vec<u8>, more: &[u8], limit: usize) -> Result<usize, AppendFault>
    requires segment { IsSegmentBytes text.old.items }
    requires data { IsDataText more.now }
    requires limit { limit ≤ 8388608 }
    ensures valid { IsSegmentBytes text.new.items }
    ensures ok { OnOk result (entries_in text.new.items ≡ entries_in text.old.items ++ entries_in more.now) }
    ensures place { IfOk result (λ at. at ≡ length text.old.items) }
    // A text that doesn't fit is reported as such, even if memory is short.
    ensures full { IsErrOf result AppendFault.Full ↔ (limit < length text.old.items + length more.now) }
    ensures room { limit ≤ vec_capacity text.old → IfErr result (λ fault. fault ≡ AppendFault.Full) }
    ensures err { OnErr result (text.new.items ≡ text.old.items) }
    ensures capacity { vec_capacity text.old ≤ vec_capacity text.new }
{
    let at = text.len();
    if at + more.len() > limit {
        return Err(AppendFault::Full);
    }
    text.extend_from_slice(more)?;
    Ok(at)
}

/// Gives back the vector's memory beyond `len` bytes, or beyond the text if the text is longer. If this memory is at
/// most a sixteenth of the whole, the vector keeps it: so little is of no use to anybody else.
pub fn trim_text(text: &mut Vec<u8>, len: usize)
    ensures { text.new.items ≡ text.old.items }
{
    let whole = text.capacity();
    let kept = len.max(text.len());
    if whole.saturating_sub(kept) > whole / 16 {
        text.shrink_to(len);
    }
}
