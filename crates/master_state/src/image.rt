//! The images of a log: that of the head, that of the head that a roll is opening, and those of closed segments.

ghost use Rattle.std.specs.Prelude.{◌≡◌};
ghost use Rattle.master_state.specs.Images.{image_among};

use images::Images;
use log_head::Head;
use segment::SegmentRef;

/// A view of the image of the segment with this id, or `None` if there is no such image. Nothing is copied.
#[inline(always)]
pub fn image_of<'a>(head: &'a Head, closed: &'a Images, id: u64) -> Option<SegmentRef<'a>>
    ensures { result ≡ image_among head.entry.now closed.entry.now.images id }
{
    if head.id() == id {
        return Some(head.image().view());
    }
    match head.roll() {
        Some(roll) if roll.id == id => Some(roll.image.view()),
        _ => closed.get(id),
    }
}
