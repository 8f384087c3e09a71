//! The new head of a failover, before it is put into a core.

ghost use Rattle.std.specs.Prelude.{◌≡◌, ◌<◌, ◌≤◌};
ghost use Rattle.entry.specs.Text.{text_of};
ghost use Rattle.log_head.specs.Head.{IsHeadValue};
ghost use Rattle.master_failover.specs.Mending.{new_text, put_data, MayPut};

use log_head::{Head, Roll};

/// The new head of a failover, before it is put into a core.
#[derive(Drop)]
pub enum NewHead {
    /// No head was open on all its backups yet. The new head takes the place of the first one.
    First(Head),
    /// The new head is that of a roll, which closes the old head.
    Next(Roll),
}

impl NewHead {
    /// Returns the bytes of the new head's image, which is its opening.
    pub fn bytes(&self) -> &[u8]
        ensures { result.now ≡ text_of (new_text self.entry.now) }
    {
        match self {
            NewHead::First(head) => head.image().bytes(),
            NewHead::Next(roll) => roll.image.bytes(),
        }
    }

    /// Puts the new head in the place of the first head, or begins the roll to it. No replica of the new head counts as
    /// open yet. If a roll begins, the old head's image gives back the memory beyond the seglets that it fills. Each
    /// seglet has `seglet` bytes.
    pub fn put(self, head: &mut Head, seglet: usize)
        requires seglet { (0 < seglet) × (seglet ≤ 65536) }
        requires may { MayPut head.old self }
        ensures put { head.new ≡ put_data self head.old }
        ensures valid { IsHeadValue head.new }
    {
        match self {
            NewHead::First(new) => *head = new,
            NewHead::Next(roll) => {
                let kept = head.image().bytes().len().div_ceil(seglet) * seglet;
                head.set_roll(roll, kept);
            }
        }
    }
}
