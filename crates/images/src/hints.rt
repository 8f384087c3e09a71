//! Hints for the places of images in their list.

ghost use Rattle.std.specs.Prelude.{◌≤◌, length};

use crate::image::Image;
use std::alloc::Global;

/// How many hints there are at first.
const FIRST: usize = 64;

/// For each of the last segment numbers, the place of the first image that has this number or a greater one. A hint
/// only spares a search. Each use of a hint tests it, so no contract speaks of hints.
#[derive(Drop)]
pub(crate) struct Hints {
    /// The hints. The low bits of a number lead to its hint. The count of hints is zero or a power of two.
    places: Vec<u32>,
}

impl Hints {
    /// Makes hints for no number. The call takes no memory.
    pub(crate) fn new(alloc: Global) -> Hints {
        Hints {
            places: Vec::new(alloc),
        }
    }

    /// Returns the index of a number's hint.
    #[inline(always)]
    fn slot(&self, id: u64) -> usize {
        id as usize & self.places.len().wrapping_sub(1)
    }

    /// Returns the place in the list where the image of this number may be.
    #[inline(always)]
    pub(crate) fn of(&self, id: u64) -> usize {
        match self.places.as_slice().get(self.slot(id)) {
            Some(place) => *place as usize,
            None => 0,
        }
    }

    /// Doubles the count of hints if there are at most four for each image, and if there is memory for them.
    pub(crate) fn grow(&mut self, images: &[Image]) {
        let len = self.places.len();
        if images.len() >= len / 4 && self.places.resize(FIRST.max(2 * len), 0).is_ok() {
            self.added(images, 0);
        }
    }

    /// Renews the hints after an image was added to the list at this place.
    pub(crate) fn added(&mut self, images: &[Image], at: usize) {
        for place in at..images.len() {
            let before = if place == 0 {
                0
            } else {
                images[place - 1].id()
            };
            let hint = u32::try_from(place).unwrap_or(u32::MAX);
            self.point(before, images[place].id(), hint);
        }
    }

    /// Lets the hints of the numbers above `before`, up to `id`, lead to this place. If these numbers are more than
    /// there are hints, only the last ones get a hint.
    fn point(&mut self, before: u64, id: u64, place: u32) {
        let count = id.saturating_sub(before).min(self.places.len() as u64);
        for back in 0..count {
            let slot = self.slot(id - back);
            if let Some(hint) = self.places.as_mut_slice().get_mut(slot) {
                *hint = place;
            }
        }
    }

    /// Renews the hints after the image at this place was removed from the list.
    pub(crate) fn removed(&mut self, at: usize) {
        for hint in self.places.as_mut_slice() {
            if *hint as usize > at {
                *hint -= 1;
            }
        }
    }
}
