//! How many survivors a pass has.

ghost use Rattle.std.specs.Prelude.{◌≡◌, ◌+◌, ◌*◌, ◌≤◌, length, nat_le, Some, None, IsSome, if◌then◌else◌};
ghost use Rattle.std.specs.List.{AllByRecursion};
ghost use Rattle.std.specs.Option.{option_map};
ghost use Rattle.entry.specs.Text.{text_of, IsSegment};
ghost use Rattle.images.specs.Sorted.{segment_of};
ghost use Rattle.cleaner.specs.declared.fitting.PassSize.{PassSize as SizeOfPass};
ghost use Rattle.cleaner.specs.Passes.{images_in, ids_in};
ghost use Rattle.cleaner.specs.KeptLengths.{survivors_over, bytes_in};

use crate::filling::fill;
use crate::level::Level;
use compactor::LogSet;
use hash_index::Index;
use images::Images;

/// The most victims of a pass.
pub const MAX_VICTIMS: usize = 32;

/// The most survivors of a pass.
pub const MAX_SURVIVORS: usize = 4;

/// If victims have at most this many bytes together, those that were just read count as still in cache, with what the
/// index holds of them.
const NEAR: usize = 4_194_304;

/// What a pass over some victims needs.
#[derive(Clone, Copy)]
pub struct PassSize {
    /// How many survivors the kept entries of the victims fill.
    pub survivors: usize,
    /// How many of the first victims were read and may still be in cache.
    pub near: usize,
}

/// Returns how many bytes some segments have together.
fn bytes_in(ids: &[u64], images: &Images) -> usize
    requires there { AllByRecursion (λ s. IsSome (segment_of images.now.images s)) ids.now }
    requires few { length ids.now ≤ 32 }
    ensures sum { result ≡ bytes_in (images_in images.now.images) ids.now }
    ensures valid { AllByRecursion (λ s. IsSegment (images_in images.now.images s)
        × (length (text_of (images_in images.now.images s)) ≤ images.now.segment)) ids.now }
    ensures limit { result ≤ 8388608 * length ids.now }
{
    let Some((id, others)) = ids.split_first() else {
        return 0;
    };
    images.show_valid();
    let Some(segment) = images.get(*id) else {
        unreachable!()
    };
    segment.bytes().len() + bytes_in(others, images)
}

/// Returns how many survivors the kept entries of at most 32 victims fill, in their order; `None` if they fill more
/// than 4. Reads the victims one after another. Stops once the survivor that is filled has room for all bytes of the
/// victims that are left, or once a fifth survivor would begin.
pub fn fit(
    victims: &[u64],
    images: &Images,
    index: &Index,
    head: u64,
    new: Option<u64>,
    segment: usize,
) -> Option<PassSize>
    requires there { AllByRecursion (λ s. IsSome (segment_of images.now.images s)) victims.now }
    requires few { length victims.now ≤ 32 }
    requires segment { segment ≡ images.now.segment }
    ensures count { let survivors = survivors_over segment (ids_in images.now.images head new) index.now.held
        (images_in images.now.images) victims.now in
        option_map (λ (size : SizeOfPass). size.survivors) result
        ≡ (if nat_le survivors 4 then Some survivors else None) }
    ensures valid { AllByRecursion (λ s. IsSegment (images_in images.now.images s)
        × (length (text_of (images_in images.now.images s)) ≤ segment)) victims.now }
{
    images.show_valid();
    let log = LogSet {
        closed: images,
        head,
        new,
    };
    let mut left = bytes_in(victims, images);
    let near = if left <= NEAR { victims.len() } else { 0 };
    let mut level = Level::first();
    for (read, id) in victims.iter().enumerate() {
        if level.len + left <= segment {
            return Some(PassSize {
                survivors: level.survivor + 1,
                near: near.min(read),
            });
        }
        let Some(victim) = images.get(*id) else {
            unreachable!()
        };
        left -= victim.bytes().len();
        level = fill(*id, &victim, index, &log, level, segment);
        if level.survivor >= MAX_SURVIVORS {
            return None;
        }
    }
    Some(PassSize {
        survivors: level.survivor + 1,
        near,
    })
}
