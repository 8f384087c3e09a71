//! The places of segments in lists by rising id. Whoever goes through such a list in order mostly asks for the next
//! place, so that one is looked at first; else a binary search finds out.

ghost use Rattle.std.specs.Prelude.{◌<◌, length, IfSome};

use driving::master::{Image, Tally};

/// Returns the place of a segment's image in a list, if it is there. Place `next` is looked at first.
pub(crate) fn image_place(images: &[Image], next: usize, id: u64) -> Option<usize>
    ensures { IfSome result (λ at. at < length images.now) }
{
    if next < images.len() && images[next].id() == id {
        return Some(next);
    }
    match images.binary_search_by_key(&id, |image| image.id()) {
        Ok(at) => Some(at),
        Err(_) => None,
    }
}

/// Returns the place of a segment's tally in a list, if it is there. Place `next` is looked at first.
pub(crate) fn tally_place(tallies: &[Tally], next: usize, id: u64) -> Option<usize>
    ensures { IfSome result (λ at. at < length tallies.now) }
{
    if next < tallies.len() && tallies[next].segment == id {
        return Some(next);
    }
    match tallies.binary_search_by_key(&id, |tally| tally.segment) {
        Ok(at) => Some(at),
        Err(_) => None,
    }
}

/// Returns the place of an id in a list, if it is there. Place `next` is looked at first.
pub(crate) fn id_place(ids: &[u64], next: usize, id: u64) -> Option<usize> {
    if next < ids.len() && ids[next] == id {
        return Some(next);
    }
    ids.binary_search(&id).ok()
}
