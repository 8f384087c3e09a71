//! What a pass does with one entry.

ghost use Rattle.std.specs.Prelude.{◌≡◌, ◌+◌, ◌<◌, ◌≤◌, ◌∷◌, [], length};
ghost use Rattle.std.specs.Prelude.{IfSome, IfNone, IsSome};
ghost use Rattle.std.specs.List.{AllByRecursion};
ghost use Rattle.entry.specs.Format.{spelling};
ghost use Rattle.entry.specs.Text.{text_of};
ghost use Rattle.segment.specs.Bytes.{standing_at};
ghost use Rattle.images.specs.Sorted.{IsWhole, segment_of, changed};
ghost use Rattle.images.specs.Steps.{entry_at, with_unit, len_at, HasData};
ghost use Rattle.compactor.specs.Log.{ids_of_log};
ghost use Rattle.cleaner.specs.Filling.{filled_one};
ghost use Rattle.cleaner.specs.KeptLengths.{lengths_at};
ghost use Rattle.cleaner.specs.Passes.{images_in, ids_in, survivor_ids, level_at, copy_place, seen_len};
ghost use Rattle.cleaner.specs.Passes.{AreIds, IsSeenAt};
ghost use Rattle.cleaner.specs.Walks.{HasFate, HasPlace, Treats};

use crate::ahead::Seen;
use crate::pass::Copied;
use crate::survivors::Survivors;
use compactor::LogSet;
use hash_index::{Held, Index, Place};
use images::Images;

/// What becomes of the next entry of a pass.
#[derive(Clone, Copy)]
pub(crate) enum Fate {
    /// An object that is kept, as the index holds it.
    Object(Held),
    /// A tombstone that is kept.
    Tombstone,
    /// An object or a tombstone that isn't kept.
    Dead,
}

/// Returns what becomes of the entry at a place. `seen` is what the pass remembers of the entry.
#[inline(always)]
fn fate_of(seen: Seen, place: Place, index: &Index, log: &LogSet<'_>) -> Fate
    requires { IsSeenAt index.now.held.seed (images_in log.now.closed.now.images place.segment) place.at seen }
    ensures { HasFate (ids_of_log log.now) index.now.held (images_in log.now.closed.now.images) place result
        (seen_len seen) }
{
    match seen {
        Seen::Object(hash, _) => {
            let held = Held { hash, place };
            if index.holds(held) {
                Fate::Object(held)
            } else {
                Fate::Dead
            }
        }
        Seen::Tombstone(segment, _) => {
            if log.has(segment) {
                Fate::Tombstone
            } else {
                Fate::Dead
            }
        }
    }
}

/// Copies the object or tombstone at a place, of this length, to the end of a survivor's image. Returns the offset of
/// the copy there, in bytes. If the entry doesn't fit there, returns `None`, and nothing changes.
fn copy_to(images: &mut Images, place: Place, len: usize, survivor: u64) -> Option<usize>
    requires order { place.segment < survivor }
    requires whole { IsWhole images.old.images survivor }
    requires of_data { HasData images.old.images place.segment place.at len }
    ensures copied { IfSome result (λ to. IfSome (entry_at images.old.images place.segment place.at) (λ e. images.new ≡
        record images.old { images = changed images.old.images survivor (with_unit (e ∷ [])) })) }
    ensures fits { IfSome result (λ to. IfSome (entry_at images.old.images place.segment place.at)
        (λ e. len_at images.old.images survivor + length (spelling e) ≤ images.old.segment)) }
    ensures place { IfSome result (λ at. at ≡ len_at images.old.images survivor) }
    ensures limit { IfSome result (λ at. at < 8388608) }
    ensures same { IfNone result (images.new ≡ images.old) }
    ensures full { IfNone result (IfSome (entry_at images.old.images place.segment place.at)
        (λ e. images.old.segment < len_at images.old.images survivor + length (spelling e))) }
{
    images.show_valid();
    match images.copy_entry(place.segment, place.at, len, survivor) {
        Ok(at) => Some(at),
        Err(_) => None,
    }
}

/// Copies the object or tombstone at a place, of this length, to the survivor that is filled, or to the next one if it
/// doesn't fit there. One of the two has room. Returns the place of the copy.
fn copy(
    images: &mut Images,
    place: Place,
    len: usize,
    survivors: Survivors,
    filling: &mut usize,
) -> Place
    requires order { place.segment < survivors.first }
    requires whole { AllByRecursion (IsWhole images.old.images) (survivor_ids survivors) }
    requires ids { AreIds survivors }
    requires of_data { HasData images.old.images place.segment place.at len }
    requires room { IfSome (entry_at images.old.images place.segment place.at)
        (λ e. HasPlace images.old.segment survivors filling.old images.old.images (length (spelling e))) }
    ensures copied { IfSome (entry_at images.old.images place.segment place.at) (λ e. images.new ≡ record images.old {
      images = changed images.old.images (survivors.first + filling.new) (with_unit (e ∷ []));
    }) }
    ensures filling { IfSome (entry_at images.old.images place.segment place.at) (λ e. filling.new ≡ (filled_one
        images.old.segment (level_at survivors filling.old images.old.images) (length (spelling e))).survivor) }
    ensures place { result ≡ copy_place (survivors.first + filling.new) images.old.images }
    ensures limit { result.at < 8388608 }
{
    let segment = survivors.id(*filling);
    if let Some(at) = copy_to(images, place, len, segment) {
        return Place { segment, at };
    }
    *filling += 1;
    let segment = survivors.id(*filling);
    let Some(at) = copy_to(images, place, len, segment) else {
        unreachable!()
    };
    Place { segment, at }
}

/// Treats the object or tombstone at a place. `seen` is what the pass remembers of it. A kept entry is copied to a
/// survivor, and the index then leads to the copy of an object. Returns what became of the entry.
pub(crate) fn treat(
    seen: Seen,
    place: Place,
    survivors: Survivors,
    filling: &mut usize,
    images: &mut Images,
    index: &mut Index,
    head: u64,
    new: Option<u64>,
) -> Copied
    requires order { place.segment < survivors.first }
    requires there { IsSome (segment_of images.old.images place.segment) }
    requires whole { AllByRecursion (IsWhole images.old.images) (survivor_ids survivors) }
    requires ids { AreIds survivors }
    requires at { IsSeenAt index.old.held.seed (images_in images.old.images place.segment) place.at seen }
    requires room { AllByRecursion (HasPlace images.old.segment survivors filling.old images.old.images)
        (lengths_at (ids_in images.old.images head new) index.old.held place
        (standing_at place.at (text_of (images_in images.old.images place.segment)))) }
    ensures treated { Treats images.old.segment (ids_in images.old.images head new) images.old.images index.old.held
        place survivors filling.old result (seen_len seen) filling.new images.new.images index.new.held }
    ensures images { images.new ≡ record images.old { images = images.new.images } }
    ensures room { index.new.room ≡ index.old.room }
{
    let log = LogSet {
        closed: images,
        head,
        new,
    };
    match fate_of(seen, place, index, &log) {
        Fate::Object(held) => {
            let to = copy(images, place, seen.len(), survivors, filling);
            index.relocate(held, to);
            Copied::Moved
        }
        Fate::Tombstone => {
            copy(images, place, seen.len(), survivors, filling);
            Copied::Carried
        }
        Fate::Dead => Copied::Dropped,
    }
}
