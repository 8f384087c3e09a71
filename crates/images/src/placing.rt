//! The places of images in a list.

ghost use Rattle.std.specs.Prelude.{◌≡◌, ◌<◌, ◌≤◌, true, length, insert, IfSome, IfNone, None};
ghost use Rattle.images.specs.Image.{Image as ImageValue};
ghost use Rattle.images.specs.Sorted.{AreRising, image_of, added};
ghost use Rattle.images.specs.Place.{IsPlaceOf};

use crate::hints::Hints;
use crate::image::Image;

/// Returns the place of the image of this id in a list by rising id, or None if there is no such image. Mostly a hint
/// leads to the image, or shows that there is none. Else a binary search finds out.
#[inline(always)]
pub(crate) fn place_of(images: &[Image], id: u64, hints: &Hints) -> Option<usize>
    requires { AreRising images.now }
    ensures found { IfSome result (IsPlaceOf images.now id) }
    ensures absent { IfNone result (image_of images.now id ≡ None) }
{
    let at = hints.of(id);
    if is_at(images, id, at) {
        Some(at)
    } else if is_between(images, id, at) {
        None
    } else {
        place_among(images, id)
    }
}

/// Returns true if the image of this id is at this place.
#[inline(always)]
fn is_at(images: &[Image], id: u64, at: usize) -> bool
    ensures { result ≡ true → IsPlaceOf images.now id at }
{
    at < images.len() && images[at].id() == id
}

/// Returns true if the image at this place has a higher id, and the image before it, if any, has a lower id. Then no
/// image has this id.
#[inline(always)]
fn is_between(images: &[Image], id: u64, at: usize) -> bool
    requires { AreRising images.now }
    ensures { result ≡ true → image_of images.now id ≡ None }
{
    if at >= images.len() || images[at].id() <= id {
        return false;
    }
    at == 0 || images[at - 1].id() < id
}

/// Returns the place of the image of this id, or None if there is no such image. A binary search finds out.
fn place_among(images: &[Image], id: u64) -> Option<usize>
    requires { AreRising images.now }
    ensures found { IfSome result (IsPlaceOf images.now id) }
    ensures absent { IfNone result (image_of images.now id ≡ None) }
{
    images.binary_search_by_key(&id, |image| image.id()).ok()
}

/// Returns the place where an image of this id belongs in a list by rising id: after all images whose ids are not
/// higher.
pub(crate) fn place_for(images: &[Image], id: u64) -> usize
    requires { AreRising images.now }
    ensures within { result ≤ length images.now }
    ensures place { (image : ImageValue) → image.id ≡ id → insert images.now result image ≡ added image images.now }
{
    images.partition_point(|image| image.id() <= id)
}
