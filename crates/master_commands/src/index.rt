//! The index together with the images: how a key's object is found, and how the index follows a change.

ghost use Rattle.std.specs.Prelude.{◌≡◌, ◌<◌, true};
ghost use Rattle.std.specs.Option.{option_map};
ghost use Rattle.entry.specs.View.{shown_key, shown_object};
ghost use Rattle.entry.specs.declared.key.Key.{Key};
ghost use Rattle.places.specs.Hashing.{hash_of};
ghost use Rattle.places.specs.Map.{AreKept};
ghost use Rattle.master_commands.specs.Change.{creates, puts};
ghost use Rattle.master_state.specs.Images.{images_among};
ghost use Rattle.master_state.specs.compactor.Places.{object_in, object_there, keys_in};
ghost use Rattle.master_state.specs.Index.{FindsObject};
ghost use Rattle.master_commands.specs.Index.{IsMoved};

use crate::change::Change;
use entry::{EntryRef, KeyRef, ObjectRef};
use hash_index::{Held, Index, Place, Resolve};
use images::Images;
use log_head::Head;
use master_state::image_of;
use segment::SegmentRef;

/// The images of a log as a resolver: they tell the index which key the object at a place has.
#[derive(Drop)]
pub struct LogImages<'a> {
    pub head: &'a Head,
    /// The images of the closed segments.
    pub closed: &'a Images,
}

impl<'a> Resolve for LogImages<'a> {
    ghost keys = { λ images. keys_in (images_among images.head.now images.closed.now.images) };

    fn key_at(&self, place: Place) -> Option<KeyRef<'_>> {
        match object_there(self.head, self.closed, place) {
            None => None,
            Some(object) => Some(object.key),
        }
    }
}

/// The object that begins at this offset of the image, if one does.
#[inline(always)]
fn object_in<'a>(image: &SegmentRef<'a>, at: usize) -> Option<ObjectRef<'a>>
    ensures { option_map shown_object result ≡ object_in image.entry.now at }
{
    match image.entry_at(at) {
        Some(EntryRef::Object(object)) => Some(object),
        _ => None,
    }
}

/// The object at this place of the images, if one is there.
#[inline(always)]
pub(crate) fn object_there<'a>(
    head: &'a Head,
    closed: &'a Images,
    place: Place,
) -> Option<ObjectRef<'a>>
    ensures { option_map shown_object result ≡
        object_there (images_among head.entry.now closed.entry.now.images) place }
{
    let image = image_of(head, closed, place.segment)?;
    object_in(&image, place.at)
}

/// The place and the object of a key with this hash, or None if the index finds no object of the key. If the candidate
/// is already the key's place, one image is looked up and one entry is read.
#[inline(always)]
pub fn find_object<'a>(
    head: &'a Head,
    closed: &'a Images,
    index: &Index,
    hash: u64,
    key: &KeyRef<'_>,
) -> Option<(Place, ObjectRef<'a>)>
    requires { hash ≡ hash_of index.now.held.seed (shown_key key.now) }
    ensures { let images = images_among head.entry.now closed.entry.now.images in
        AreKept (keys_in images) index.now.held → FindsObject images index.now.held (shown_key key.now) result }
{
    let place = index.candidate(hash)?;
    match object_there(head, closed, place) {
        Some(object) if *key == object.key => Some((place, object)),
        // The match makes the result anew, so that the compiler doesn't keep the result of the usual case in memory.
        _ => match find_by_keys(head, closed, index, hash, key) {
            Some((place, object)) => Some((place, object)),
            None => None,
        },
    }
}

/// Finds the object of a key whose candidate is the place of another key's object. The keys at the other places under
/// the hash are read.
#[inline(never)]
fn find_by_keys<'a>(
    head: &'a Head,
    closed: &'a Images,
    index: &Index,
    hash: u64,
    key: &KeyRef<'_>,
) -> Option<(Place, ObjectRef<'a>)>
    requires { hash ≡ hash_of index.now.held.seed (shown_key key.now) }
    ensures { let images = images_among head.entry.now closed.entry.now.images in
        AreKept (keys_in images) index.now.held → FindsObject images index.now.held (shown_key key.now) result }
{
    let place = index.get_hashed(hash, &LogImages { head, closed }, key)?;
    match object_there(head, closed, place) {
        None => None,
        Some(object) => Some((place, object)),
    }
}

/// Changes the index as the change says. `held` has the key's hash, and the place of its old object if there is one.
/// The new object, if there is one, is at `place`.
#[inline(always)]
pub fn move_object(index: &mut Index, change: &Change, held: Held, place: Place)
    requires room { creates change.now ≡ true → 0 < index.old.room }
    requires offset { puts change.now ≡ true → place.at < 8388608 }
    ensures { (k : Key) → held.hash ≡ hash_of index.old.held.seed k
        → IsMoved index.old.held change.now k held.place place index.new.held }
{
    match change {
        Change::Nothing => {}
        Change::Create(_) => {
            let hash = held.hash;
            index.insert(Held { hash, place });
            index.grow();
        }
        Change::Replace(_, _) => {
            index.relocate(held, place);
        }
        Change::Delete(_) => {
            index.take_out(held);
        }
    }
}
