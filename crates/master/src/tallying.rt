//! What a master has counted of its segments.

ghost use Rattle.std.specs.Prelude.{◌≡◌, List, length, IfSome};
ghost use Rattle.std.specs.Option.{option_map};
ghost use Rattle.entry.specs.declared.entry.Entry.{Entry};
ghost use Rattle.entry.specs.Text.{text_of};
ghost use Rattle.images.specs.Sorted.{segment_of};
ghost use Rattle.master_core.specs.master_space.Choosing.{kept_bytes};
ghost use Rattle.master_core.specs.master_state.Invariant.{AreTallied};
ghost use Rattle.master_core.specs.master_state.Log.{images_of, log_set_ids};
ghost use Rattle.tally.specs.Opening.{front_of};
ghost use Rattle.tally.specs.Rows.{IsRight};
ghost use Rattle.master.specs.World.{world};

use crate::master::Master;
use images::Image;
use master_core::{
    Tally, image_len_of, kept_bytes_of, opening_len_of, recount, tallies_of, tally_of,
};
use replica::Fleet;

impl<F: Fleet> Master<F> {
    /// How many bytes of a closed segment's objects and tombstones are kept, or `None` if no closed segment has this
    /// id. It takes no memory, and looks at no entry if the segment was counted since the last commit of a pass.
    pub fn kept_bytes(&self, id: u64) -> Option<usize>
        ensures { result ≡ option_map (λ (es : List Entry). kept_bytes self.now.knows id)
            (segment_of self.now.knows.closed id) }
    {
        kept_bytes_of(&self.core, id)
    }

    /// How many bytes the image of a closed segment has, or `None` if no closed segment has this id.
    pub fn image_len(&self, id: u64) -> Option<usize>
        ensures { result ≡ option_map (λ (es : List Entry). length (text_of es)) (segment_of self.now.knows.closed id) }
    {
        image_len_of(&self.core, id)
    }

    /// How many bytes the image of a closed segment has before its first object or tombstone, or `None` if no closed
    /// segment has this id.
    pub fn opening_len(&self, id: u64) -> Option<usize>
        ensures { result ≡ option_map (λ (es : List Entry). length (text_of (front_of es)))
            (segment_of self.now.knows.closed id) }
    {
        opening_len_of(&self.core, id)
    }

    /// Counts a closed segment anew. Nothing else changes, and without memory nothing does. It reads the whole segment,
    /// and looks up its objects only if the segment wasn't counted yet.
    pub fn recount(&mut self, id: u64)
        ensures same { world F.state self.new ≡ world F.state self.old }
    {
        recount(&mut self.core, id);
    }

    /// The images of the closed segments, by rising id.
    pub fn closed(&self) -> &[Image]
        ensures { result.now ≡ self.entry.now.knows.closed }
    {
        self.core.closed.as_slice()
    }

    /// What is counted of segments, by rising id. A segment may have no tally.
    pub fn tallies(&self) -> &[Tally]
        ensures { AreTallied self.entry.now.knows result.now }
    {
        tallies_of(&self.core)
    }

    /// What is counted of a segment, or `None` if it isn't counted. The number of tombstones is exact only if it is
    /// fresh.
    pub fn tally(&self, id: u64) -> Option<Tally>
        ensures segment { IfSome result (λ row. row.segment ≡ id) }
        ensures right { IfSome result (IsRight (log_set_ids self.now.knows) self.now.knows.index
            (images_of self.now.knows)) }
    {
        tally_of(&self.core, id)
    }
}
