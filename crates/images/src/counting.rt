//! How many seglets images count.

ghost use Rattle.std.specs.Prelude.{◌≡◌, ◌<◌, ◌≤◌, ◌^◌, ◌/◌, sum_by, if◌then◌else◌};
ghost use Rattle.std.specs.Int.{div_ceil};
ghost use Rattle.images.specs.Images.{count_of};

use crate::image::Image;

/// Returns how many seglets a text of `len` bytes fills, the last one perhaps in part.
pub(crate) fn seglets_of(len: usize, seglet: usize) -> u64
    requires { 0 < seglet }
    ensures { result ≡ div_ceil len seglet }
{
    len.div_ceil(seglet) as u64
}

/// Returns how many seglets the image of a text of `len` bytes counts. If the image takes appends, they are those of a
/// whole segment. Else they are those that the text fills.
pub(crate) fn new_count(len: usize, is_whole: bool, segment: usize, seglet: usize) -> u64
    requires { 0 < seglet }
    ensures { result ≡ (if is_whole then segment / seglet else div_ceil len seglet) }
{
    if is_whole {
        return (segment / seglet) as u64;
    }
    seglets_of(len, seglet)
}

/// Returns how many seglets an image counts.
pub(crate) fn count_of(image: &Image, segment: usize, seglet: usize) -> u64
    requires { 0 < seglet }
    ensures { result ≡ count_of segment seglet image.now }
{
    new_count(image.bytes_len(), image.is_whole(), segment, seglet)
}

/// Returns how many seglets all images count together, by a walk over them.
pub(crate) fn recounted(images: &[Image], segment: usize, seglet: usize) -> u64
    requires seglet { 0 < seglet }
    requires sum { sum_by (count_of segment seglet) images.now ≤ 2 ^ 32 }
    ensures { result ≡ sum_by (count_of segment seglet) images.now }
{
    let mut sum = 0;
    for image in images {
        sum += count_of(image, segment, seglet);
    }
    sum
}
