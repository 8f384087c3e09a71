//! What the segments of a log keep.

ghost use Rattle.std.specs.Prelude.{◌≡◌};
ghost use Rattle.driving.specs.master.World.{world};

use crate::finding::{image_place, tally_place};
use crate::notes::{Note, Notes};
use crate::policy::{Policy, product};
use driving::master::Master;
use entry::NoMemory;
use replica::Fleet;

/// What a closed segment keeps, and what cleaning it gives back.
#[derive(Clone, Copy)]
pub(crate) struct Weight {
    pub id: u64,
    /// The seglets of its image.
    pub seglets: u64,
    /// The bytes of its kept objects and tombstones.
    pub kept: u64,
    /// The bytes of its kept tombstones.
    pub stones: u64,
    /// How many seglets a compaction of the segment gives back.
    pub gain: u64,
    /// How many bytes of memory a pass over the segment gives back, but for what is kept of it, and twice those of the
    /// tombstones that name it: they aren't kept any more then.
    pub gives: u64,
}

/// Counts the live objects of the segments of the digest in force that weren't counted yet.
pub(crate) fn count_all<F: Fleet>(master: &mut Master<F>) -> Result<(), NoMemory>
    ensures { world F.state master.new ≡ world F.state master.old }
{
    let ids = master.digest()?;
    let mut next = 0;
    for id in ids.as_slice() {
        match tally_place(master.tallies(), next, *id) {
            Some(at) => next = at.saturating_add(1),
            None => master.recount(*id),
        }
    }
    Ok(())
}

/// Counts the seglets of many lengths, each by a multiplication in place of a division. The count is right for lengths
/// below 2^40 and seglets of 2 to 2^23 bytes.
#[derive(Clone, Copy)]
struct SegletCounter {
    seglet: u64,
    /// 2^64 over the bytes of a seglet, rounded up.
    factor: u64,
}

impl SegletCounter {
    fn new(seglet: u64) -> SegletCounter {
        SegletCounter {
            seglet,
            factor: (u64::MAX / seglet.max(1)).saturating_add(1),
        }
    }

    /// The seglets of so many bytes.
    fn count(&self, bytes: u64) -> u64 {
        let most = bytes.saturating_add(self.seglet).saturating_sub(1);
        (product(most, self.factor) >> 64) as u64
    }
}

/// The weight of a segment with this note, whose image has `len` bytes and of which `kept` are kept.
fn weigh(counter: &SegletCounter, note: &Note, len: u64, kept: u64) -> Weight {
    let seglets = counter.count(len);
    let after = counter.count(kept.saturating_add(note.opening));
    Weight {
        id: note.id,
        seglets,
        kept,
        stones: note.stones.min(kept),
        gain: seglets.saturating_sub(after),
        gives: seglets
            .saturating_mul(counter.seglet)
            .saturating_sub(kept)
            .saturating_add(1)
            .saturating_add(note.named.saturating_mul(2)),
    }
}

/// The weights of the noted segments that are closed. The call goes once through the notes, the images and the tallies,
/// which are all by rising id, and reads no segment that was counted.
pub(crate) fn weigh_all<F: Fleet>(
    master: &Master<F>,
    policy: &Policy,
    notes: &Notes,
) -> Result<Vec<Weight>, NoMemory> {
    let (images, tallies) = (master.closed(), master.tallies());
    let counter = SegletCounter::new(policy.seglet);
    let (mut image, mut tally) = (0, 0);
    let mut weights = Vec::with_capacity(notes.alloc(), notes.as_slice().len())?;
    for note in notes.as_slice() {
        if let Some(at) = image_place(images, image, note.id) {
            image = at.saturating_add(1);
            let kept = match tally_place(tallies, tally, note.id) {
                Some(at) => {
                    tally = at.saturating_add(1);
                    u64::from(tallies[at].live).saturating_add(note.stones)
                }
                None => master.kept_bytes(note.id).unwrap_or(0) as u64,
            };
            let len = images[at].bytes_len() as u64;
            weights.push(weigh(&counter, note, len, kept))?;
        }
    }
    Ok(weights)
}
