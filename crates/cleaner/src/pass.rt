//! A pass over some segments of the log.

ghost use Rattle.std.specs.Prelude.{◌≡◌, ◌+◌, ◌<◌, ◌≤◌, false, length, drop, IfSome, IsSome};
ghost use Rattle.std.specs.Prelude.{slice_get};
ghost use Rattle.std.specs.List.{AllByRecursion};
ghost use Rattle.images.specs.Sorted.{segment_of};
ghost use Rattle.cleaner.specs.Passes.{images_in, ids_in, AreVictims, AreIds, places_of, rest_of, is_at_end, is_ready};
ghost use Rattle.cleaner.specs.Passes.{next_seal, next_len, seen_len, IsCursorAt, IsPass, CopiesOne};
ghost use Rattle.cleaner.specs.KeptLengths.{HasRoomsIn};
ghost use Rattle.cleaner.specs.Walks.{IsPositionBetween, GoesTo};

use crate::ahead::Ahead;
use crate::survivors::{Survivors, first_lacking};
use crate::treating::treat;
use crate::walking::{WalkPosition, next_position};
use entry::Row;
use hash_index::{Index, Place};
use images::Images;

/// Where a pass is among its victims.
#[derive(Drop)]
pub struct Cursor {
    /// Which victim, counted from 0 in the given order. At the end of the pass it is the number of victims.
    pub victim: usize,
    /// The offset in its image, in bytes.
    pub at: usize,
    /// The entries there that were read ahead.
    pub ahead: Ahead,
}

/// What became of an entry.
#[derive(Clone, Copy)]
pub enum Copied {
    /// An object was copied, and the index leads to the copy.
    Moved,
    /// A tombstone was copied.
    Carried,
    /// The entry isn't kept.
    Dropped,
}

/// A pass copies what is kept of its victims to new segments, the survivors. It fills one after the other.
#[derive(Drop)]
pub struct Pass {
    /// The segments that the pass empties, in the order in which they were given.
    pub victims: Row<u64>,
    /// The next entry to be treated.
    pub cursor: Cursor,
    /// The segments to which the kept entries are copied.
    pub survivors: Survivors,
    /// Which survivor is filled, counted from 0. Those before it are full.
    pub filling: usize,
    /// True if the roll that is under way is the commit of the pass.
    pub is_committing: bool,
}

/// Moves the cursor to the first object or tombstone from a position on, and reads ahead there. If there is none, the
/// cursor goes behind the last victim.
fn go_to(cursor: &mut Cursor, from: WalkPosition, victims: &[u64], images: &Images, index: &Index)
    requires there { AllByRecursion (λ s. IsSome (segment_of images.now.images s)) victims.now }
    requires within { from.victim ≤ length victims.now }
    requires between { IsPositionBetween (images_in images.now.images) (drop from.victim victims.now) from.at }
    ensures { GoesTo index.now.held.seed (images_in images.now.images) victims.now from cursor.new }
{
    let position = next_position(victims, images, from);
    cursor.victim = position.victim;
    cursor.at = position.at;
    if position.victim < victims.len() {
        let Some(segment) = images.get(victims[position.victim]) else {
            unreachable!()
        };
        cursor.ahead.read(&segment, position.at, index);
    }
}

/// Moves the cursor on from an object or tombstone of this length, which was treated.
#[inline(always)]
fn go_on(cursor: &mut Cursor, len: usize, victims: &[u64], images: &Images, index: &Index)
    requires there { AllByRecursion (λ s. IsSome (segment_of images.now.images s)) victims.now }
    requires within { cursor.old.victim < length victims.now }
    requires cursor { IsCursorAt index.now.held.seed (images_in images.now.images) (drop cursor.old.victim victims.now)
        cursor.old }
    requires len { IfSome (slice_get cursor.old.ahead 0) (λ x. len ≡ seen_len x) }
    ensures { GoesTo index.now.held.seed (images_in images.now.images) victims.now
        (record { victim = cursor.old.victim; at = cursor.old.at + len }) cursor.new }
{
    let at = cursor.at + len;
    if cursor.ahead.pass() {
        cursor.at = at;
    } else {
        let behind = WalkPosition {
            victim: cursor.victim,
            at,
        };
        go_to(cursor, behind, victims, images, index);
        cursor.ahead.touch(cursor.victim, index);
    }
}

impl Pass {
    /// Begins a pass over `victims`. The first `near` of them are still in cache, as `fit` reported. What the pass
    /// reads ahead is right for `index`, and for any index with the same seed. Allocates nothing.
    pub fn begin(
        victims: Row<u64>,
        near: usize,
        survivors: Survivors,
        images: &Images,
        index: &Index,
    ) -> Pass
        requires { AreVictims images.now.images survivors.first victims }
        ensures begun { result ≡ record {
          victims = victims;
          cursor = result.cursor;
          survivors = survivors;
          filling = 0;
          is_committing = false;
        } }
        ensures rest { let images = images_in images.now.images in rest_of images result ≡ places_of images victims }
        ensures within { result.cursor.victim ≤ length victims }
        ensures cursor { IsCursorAt index.now.held.seed (images_in images.now.images)
            (drop result.cursor.victim victims) result.cursor }
    {
        let mut cursor = Cursor {
            victim: 0,
            at: 0,
            ahead: Ahead::new(near),
        };
        let start = WalkPosition { victim: 0, at: 0 };
        go_to(&mut cursor, start, victims.as_slice(), images, index);
        Pass {
            victims,
            cursor,
            survivors,
            filling: 0,
            is_committing: false,
        }
    }

    /// Returns true if each object and tombstone of the victims was treated.
    pub fn is_at_end(&self) -> bool
        ensures { result ≡ is_at_end self.now }
    {
        self.cursor.victim == self.victims.as_slice().len()
    }

    /// Returns true if the pass may be committed: each object and tombstone of the victims was treated, and each
    /// survivor has at least `replicas` replicas.
    pub fn is_ready(&self, replicas: usize, images: &Images) -> bool
        requires { AreIds self.now.survivors }
        ensures { result ≡ is_ready replicas images.now.images self.now }
    {
        self.is_at_end() && first_lacking(self.survivors, replicas, images).is_none()
    }

    /// Returns the id of the survivor that is sealed next, and how many replicas it has. Survivors are sealed one
    /// after the other. Returns `None` before the pass is at its end, and once each survivor has at least `replicas`
    /// replicas.
    pub fn next_seal(&self, replicas: usize, images: &Images) -> Option<(u64, usize)>
        requires { AreIds self.now.survivors }
        ensures { result ≡ next_seal replicas images.now.images self.now }
    {
        if self.is_at_end() {
            first_lacking(self.survivors, replicas, images)
        } else {
            None
        }
    }

    /// Returns the length in bytes of the object or tombstone that is treated next; 0 at the end.
    #[inline(always)]
    pub fn next_len(&self) -> usize
        ensures { result ≡ next_len self.now }
    {
        match self.cursor.ahead.first() {
            Some(seen) => seen.len(),
            None => 0,
        }
    }

    /// Treats the next object or tombstone. A kept entry is copied to the end of the survivor that is filled, or to
    /// the next survivor if it doesn't fit there. The index then leads to the copy of an object. The call takes no
    /// memory, and can't fail.
    pub fn copy_one(
        &mut self,
        images: &mut Images,
        index: &mut Index,
        head: u64,
        new: Option<u64>,
    ) -> Copied
        requires pass { IsPass index.old.held.seed images.old.images self.old }
        requires more { is_at_end self.old ≡ false }
        requires room { HasRoomsIn images.old.segment (ids_in images.old.images head new) self.old images.old.images
            index.old.held }
        ensures copied { CopiesOne images.old.segment (ids_in images.old.images head new) self.old images.old.images
            index.old.held result self.new images.new.images index.new.held }
        ensures pass { IsPass index.new.held.seed images.new.images self.new }
        ensures images { images.new ≡ record images.old { images = images.new.images } }
        ensures room { index.new.room ≡ index.old.room }
    {
        let victims = self.victims.as_slice();
        let place = Place {
            segment: victims[self.cursor.victim],
            at: self.cursor.at,
        };
        let Some(seen) = self.cursor.ahead.first() else {
            unreachable!()
        };
        let copied = treat(
            seen,
            place,
            self.survivors,
            &mut self.filling,
            images,
            index,
            head,
            new,
        );
        go_on(&mut self.cursor, seen.len(), victims, images, index);
        copied
    }
}
