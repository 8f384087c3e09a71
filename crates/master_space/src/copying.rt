//! How one entry of a pass is copied and counted.

ghost use Rattle.std.specs.Prelude.{◌≡◌, ◌+◌, false};
ghost use Rattle.cleaner.specs.KeptLengths.{HasRoomsIn};
ghost use Rattle.cleaner.specs.Passes.{ids_in, next_len, is_at_end, IsPass, CopiesOne};
ghost use Rattle.master_space.specs.Counting.{next_victim, IsCopyCounted};

use cleaner::{Copied, Pass};
use hash_index::Index;
use images::Images;
use tally::Tallies;

/// Treats the next entry of a pass, and counts it where it now lies. The call takes no memory, and can't fail.
pub(crate) fn copy_next(
    pass: &mut Pass,
    closed: &mut Images,
    index: &mut Index,
    tallies: &mut Tallies,
    head: u64,
    new: Option<u64>,
) -> Copied
    requires pass { IsPass index.old.held.seed closed.old.images pass.old }
    requires more { is_at_end pass.old ≡ false }
    requires room { HasRoomsIn closed.old.segment (ids_in closed.old.images head new) pass.old closed.old.images
        index.old.held }
    ensures copied { CopiesOne closed.old.segment (ids_in closed.old.images head new) pass.old closed.old.images
        index.old.held result pass.new closed.new.images index.new.held }
    ensures pass { IsPass index.new.held.seed closed.new.images pass.new }
    ensures images { closed.new ≡ record closed.old { images = closed.new.images } }
    ensures room { index.new.room ≡ index.old.room }
    ensures counted { IsCopyCounted result (next_victim pass.old) (pass.new.survivors.first + pass.new.filling)
        (next_len pass.old) tallies.old tallies.new }
{
    let victim = pass.victims.as_slice()[pass.cursor.victim];
    let len = pass.next_len();
    let copied = pass.copy_one(closed, index, head, new);
    let survivor = pass.survivors.id(pass.filling);
    count_copy(tallies, copied, victim, survivor, len);
    copied
}

/// Counts what became of an entry of `len` bytes of a victim: an object that was moved lives in the survivor now, and a
/// tombstone that was carried is kept there, too.
fn count_copy(tallies: &mut Tallies, copied: Copied, victim: u64, survivor: u64, len: usize)
    ensures { IsCopyCounted copied victim survivor len tallies.old tallies.new }
{
    match copied {
        Copied::Moved => {
            tallies.shrink(victim, len);
            tallies.grow(survivor, len, 0);
        }
        Copied::Carried => tallies.grow(survivor, 0, len),
        Copied::Dropped => {}
    }
}
