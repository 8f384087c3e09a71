//! How many backups hold each segment that has an image.

ghost use Rattle.std.specs.Prelude.{◌≡◌, ◌<◌, None, length, IsSomeAnd, slice_index_or};
ghost use Rattle.images.specs.Image.{Image as ImageValue};
ghost use Rattle.images.specs.Sorted.{image_of, replicas_of, changed, changed_at};
ghost use Rattle.images.specs.Steps.{more_replicas, fewer_replicas};

use crate::images::Images;
use crate::placing::place_of;

impl Images {
    /// Returns how many backups hold the segment of this number, or 0 if it has no image.
    pub fn replicas(&self, id: u64) -> usize
        ensures { result ≡ replicas_of self.now.images id }
    {
        match place_of(self.images.as_slice(), id, &self.hints) {
            Some(at) => self.images[at].replicas(),
            None => 0,
        }
    }

    /// Counts one more backup that holds the segment of this number.
    pub fn add_replica(&mut self, id: u64)
        requires { IsSomeAnd (image_of self.old.images id) (λ image. image.replicas < 64) }
        ensures { self.new ≡ record self.old { images = changed self.old.images id more_replicas } }
    {
        let Some(at) = place_of(self.images.as_slice(), id, &self.hints) else {
            unreachable!()
        };
        self.images[at].add_replica();
    }

    /// Returns the number of the segment whose image is at this place of the list.
    pub fn id_at(&self, place: usize) -> u64
        requires { place < length self.now.images }
        ensures { (image : ImageValue) → result ≡ (slice_index_or self.now.images place image).id }
    {
        self.images[place].id()
    }

    /// Returns how many backups hold the segment whose image is at this place of the list.
    pub fn replicas_at(&self, place: usize) -> usize
        requires { place < length self.now.images }
        ensures { (image : ImageValue) → result ≡ (slice_index_or self.now.images place image).replicas }
    {
        self.images[place].replicas()
    }

    /// Counts one backup fewer that holds the segment whose image is at this place of the list. A count of 0 stays 0.
    pub fn lose_at(&mut self, place: usize)
        requires { place < length self.old.images }
        ensures { self.new ≡ record self.old { images = changed_at self.old.images place fewer_replicas } }
    {
        self.images[place].lose_replica();
    }
}
