//! Copies of an entry from one image to another.

ghost use Rattle.std.specs.Prelude.{◌≡◌, ◌+◌, ◌<◌, ◌≤◌, ◌↔◌, ◌∷◌, [], length};
ghost use Rattle.std.specs.Prelude.{IfSome, IfOk, IfErr, OnOk, OnErr, IsErrOf, IsSomeAnd};
ghost use Rattle.entry.specs.Format.{spelling};
ghost use Rattle.entry.specs.Text.{text_of, entries_in};
ghost use Rattle.segment.specs.Bytes.{IsDataText, standing_at};
ghost use Rattle.images.specs.Sorted.{AreRising, image_of, changed};
ghost use Rattle.images.specs.Steps.{with_unit, len_at, entry_at, StandsData, HasData};

use crate::hints::Hints;
use crate::image::Image;
use crate::placing::place_of;
use segment::{AppendFault, SegmentRef};

/// Returns the text of the object or tombstone at this offset of a segment. The text has `len` bytes.
#[inline(always)]
fn text_at<'a>(source: &SegmentRef<'a>, at: usize, len: usize) -> &'a [u8]
    requires { StandsData (text_of source.now) at len }
    ensures data { IsDataText result.now }
    ensures entry { IfSome (standing_at at (text_of source.entry.now)) (λ e. entries_in result.now ≡ e ∷ []) }
{
    &source.bytes()[at..at + len]
}

/// Appends a copy of an object or tombstone to the target if the target then has at most `limit` bytes, for which it
/// has room. The object or tombstone is at offset `at` of the source, and has `len` bytes. Returns the offset of the
/// copy.
#[inline(always)]
fn append_copy(
    source: &Image,
    at: usize,
    len: usize,
    target: &mut Image,
    limit: usize,
) -> Result<usize, AppendFault>
    requires data { StandsData (text_of source.now.segment) at len }
    requires limit { limit ≤ 8388608 }
    requires room { limit ≤ target.old.room }
    ensures ok { OnOk result (IfSome (standing_at at (text_of source.now.segment))
        (λ e. target.new ≡ with_unit (e ∷ []) target.old)) }
    ensures place { IfOk result (λ at. at ≡ length (text_of target.old.segment)) }
    ensures full { IfSome (standing_at at (text_of source.now.segment)) (λ e. IsErrOf result AppendFault.Full ↔
        (limit < length (text_of target.old.segment) + length (spelling e))) }
    ensures fault { IfErr result (λ fault. fault ≡ AppendFault.Full) }
    ensures err { OnErr result (target.new ≡ target.old) }
{
    let segment = source.segment();
    target.append_text(text_at(&segment, at, len), limit)
}

/// Appends a copy of an object or tombstone to the image `to`, in a list by rising id, if this image then has at most
/// `limit` bytes, for which it has room. The object or tombstone is at offset `at` of the image `from`, which has a
/// lower id, and has `len` bytes. Returns the offset of the copy.
pub(crate) fn copy_entry(
    images: &mut [Image],
    from: u64,
    at: usize,
    len: usize,
    to: u64,
    limit: usize,
    hints: &Hints,
) -> Result<usize, AppendFault>
    requires rising { AreRising images.old }
    requires order { from < to }
    requires room { IsSomeAnd (image_of images.old to) (λ image. limit ≤ image.room) }
    requires data { HasData images.old from at len }
    requires limit { limit ≤ 8388608 }
    ensures ok { OnOk result (IfSome (entry_at images.old from at)
        (λ e. images.new ≡ changed images.old to (with_unit (e ∷ [])))) }
    ensures place { IfOk result (λ at. at ≡ len_at images.old to) }
    ensures full { IfSome (entry_at images.old from at) (λ e. IsErrOf result AppendFault.Full ↔
        (limit < len_at images.old to + length (spelling e))) }
    ensures fault { IfErr result (λ fault. fault ≡ AppendFault.Full) }
    ensures err { OnErr result (images.new ≡ images.old) }
    ensures len { length images.new ≡ length images.old }
{
    let Some(source) = place_of(images, from, hints) else {
        unreachable!()
    };
    let Some(target) = place_of(images, to, hints) else {
        unreachable!()
    };
    let (earlier, later) = images.split_at_mut(target);
    append_copy(&earlier[source], at, len, &mut later[0], limit)
}
