//! Images in memory, with the sum of the seglets that they count.

ghost use Rattle.std.specs.Prelude.{◌≡◌, ◌+◌, ◌<◌, ◌≤◌, ◌↔◌, ◌∷◌, [], true, false, None, length, map, sum_by};
ghost use Rattle.std.specs.Prelude.{IfOk, IfErr, OnOk, OnErr, IsErrAnd, IsErrOf, IsErr, IsSome, IfSome};
ghost use Rattle.std.specs.Int.{div_ceil};
ghost use Rattle.entry.specs.declared.entry.Entry.{Entry};
ghost use Rattle.entry.specs.declared.entry.Role.{Role};
ghost use Rattle.entry.specs.Format.{spelling};
ghost use Rattle.entry.specs.Text.{text_of, are_data};
ghost use Rattle.entry.specs.View.{shown};

use crate::copying::copy_entry;
use crate::counting::{count_of, new_count, recounted, seglets_of};
use crate::fault::ImagesFault;
use crate::hints::Hints;
use crate::image::{Image, new_image};
use crate::placing::{place_for, place_of};
use crate::spares::Spares;
use entry::{EntryRef, NoMemory};
use segment::{AppendFault, Segment, SegmentRef};
use std::alloc::Global;
use std::marker::Model;

/// The images of a master's segments in memory, by rising id, and how many of its seglets they count.
#[derive(Drop)]
pub struct Images {
    /// The most bytes of a segment.
    segment: usize,
    /// The bytes of a seglet.
    seglet: usize,
    /// How many seglets there are.
    seglets: u64,
    pub(crate) images: Vec<Image>,
    /// How many seglets are counted.
    used: u64,
    /// Hints for the places of the images in the list.
    pub(crate) hints: Hints,
    /// Memory that dropped images have left.
    spares: Spares,
}

impl Model for Images {
    ghost use Rattle.std.specs.Prelude.{◌≡◌, vec_capacity, sum_by};
    ghost use Rattle.images.specs.Images.{ImagesValue, IsImages, count_of};

    ghost Value = { ImagesValue };

    ghost view = { λ s. record {
      segment = s.segment;
      seglet = s.seglet;
      seglets = s.seglets;
      images = s.images.items;
      room = vec_capacity s.images;
    } };

    ghost invariant = { λ s. (s.used ≡ sum_by (count_of s.segment s.seglet) s.images.items) × IsImages (record {
      segment = s.segment;
      seglet = s.seglet;
      seglets = s.seglets;
      images = s.images.items;
      room = vec_capacity s.images;
    }) };
}

impl Images {
    ghost use Rattle.images.specs.Image.{Image as ImageValue, closed_image, whole_image, new_image};
    ghost use Rattle.images.specs.Images.{ImagesValue, IsImages, AreSizes};
    ghost use Rattle.images.specs.Images.{count_of, count_at, used_seglets, free_seglets};
    ghost use Rattle.images.specs.Sorted.{IsWhole, image_of, segment_of, replicas_of, added, changed, changed_at};
    ghost use Rattle.images.specs.Sorted.{without};
    ghost use Rattle.images.specs.Steps.{with_unit, trimmed, replaced_by, more_replicas, fewer_replicas, len_at};
    ghost use Rattle.images.specs.Steps.{entry_at, HasData};

    /// Makes an empty list of images. A segment has at most `segment` bytes. There are `seglets` seglets of `seglet`
    /// bytes each. The call takes no memory.
    pub fn new(alloc: Global, segment: usize, seglet: usize, seglets: u64) -> Images
        requires { AreSizes segment seglet seglets }
        ensures { result ≡ record { segment = segment; seglet = seglet; seglets = seglets; images = []; room = 0 } }
    {
        Images {
            segment,
            seglet,
            seglets,
            images: Vec::new(alloc),
            used: 0,
            hints: Hints::new(alloc),
            spares: Spares::new(alloc),
        }
    }

    /// Shows contracts what is true of all images in memory. The call does nothing.
    pub fn show_valid(&self)
        ensures { IsImages self.now }
    {
        let _used = self.used;
    }

    /// The most bytes of a segment.
    pub fn segment_len(&self) -> usize
        ensures { result ≡ self.now.segment }
    {
        self.segment
    }

    /// How many seglets are counted.
    pub fn used(&self) -> u64
        ensures used { result ≡ used_seglets self.now }
        ensures valid { IsImages self.now }
    {
        self.used
    }

    /// Returns how many seglets are free.
    pub fn free(&self) -> u64
        ensures free { result ≡ free_seglets self.now }
        ensures valid { IsImages self.now }
    {
        self.seglets - self.used
    }

    /// Returns the same as `used`, by a walk over all images.
    pub fn recount(&self) -> u64
        ensures { result ≡ used_seglets self.now }
    {
        recounted(self.images.as_slice(), self.segment, self.seglet)
    }

    /// Returns how many images there are.
    pub fn len(&self) -> usize
        ensures { result ≡ length self.now.images }
    {
        self.images.len()
    }

    /// Returns the images, by rising id.
    pub fn as_slice(&self) -> &[Image]
        ensures images { result.now ≡ self.entry.now.images }
        ensures valid { IsImages self.now }
    {
        self.images.as_slice()
    }

    /// Returns the segment of this number, without a copy, or None if it has no image.
    #[inline(always)]
    pub fn get(&self, id: u64) -> Option<SegmentRef<'_>>
        ensures { result ≡ segment_of self.entry.now.images id }
    {
        let at = place_of(self.images.as_slice(), id, &self.hints)?;
        Some(self.images[at].segment())
    }

    /// Returns memory for a whole segment if a dropped image has left some.
    pub fn take_spare(&mut self) -> Option<Vec<u8>>
        ensures { self.new ≡ self.old }
    {
        self.spares.take()
    }

    /// Makes room for `more` further images in the list. So many further images need no more memory for the list.
    pub fn reserve(&mut self, more: usize) -> Result<(), NoMemory>
        ensures same { self.new ≡ record self.old { room = self.new.room } }
        ensures grown { self.old.room ≤ self.new.room }
        ensures ok { OnOk result (length self.old.images + more ≤ self.new.room) }
        ensures full { OnErr result (self.old.room < length self.old.images + more) }
    {
        self.images.reserve(more)?;
        self.hints.grow(self.images.as_slice());
        Ok(())
    }

    /// Adds the image of a segment at its place in the list. No image has this number yet, and the segment has at most
    /// `segment_len` bytes. If `is_whole`, the image takes appends, and the call takes memory for a whole segment. If
    /// the image isn't added, the segment is handed back. `NoRoom` comes exactly if the image counts more seglets than
    /// are free. `NoMemory` comes only if the image takes appends, or if the list has no room for another image.
    pub fn add(
        &mut self,
        id: u64,
        segment: Segment,
        is_whole: bool,
    ) -> Result<(), (ImagesFault, Segment)>
        requires other { image_of self.old.images id ≡ None }
        requires within { length (text_of segment) ≤ self.old.segment }
        ensures ok { OnOk result (self.new ≡ record self.old {
          images = added (new_image self.old.segment id segment is_whole) self.old.images;
          room = self.new.room;
        }) }
        ensures err { OnErr result (self.new ≡ self.old) }
        ensures no_room { IsErrAnd result (λ e. e.0 ≡ ImagesFault.NoRoom) ↔ (free_seglets self.old <
            count_of self.old.segment self.old.seglet (new_image self.old.segment id segment is_whole)) }
        ensures no_memory { is_whole ≡ false → IsErrAnd result (λ e. e.0 ≡ ImagesFault.NoMemory) →
            self.old.room ≤ length self.old.images }
        ensures back { IfErr result (λ e. e.1 ≡ segment) }
    {
        let count = new_count(segment.bytes_len(), is_whole, self.segment, self.seglet);
        if count > self.seglets - self.used {
            return Err((ImagesFault::NoRoom, segment));
        }
        let image = match new_image(id, segment, is_whole, self.segment) {
            Ok(image) => image,
            Err(segment) => return Err((ImagesFault::NoMemory, segment)),
        };
        if self.images.reserve(1).is_err() {
            return Err((ImagesFault::NoMemory, image.into_segment()));
        }
        self.add_image(image);
        Ok(())
    }

    /// Adds the image of a segment that takes no appends, as `add` does. `replicas` backups hold the segment, at most
    /// 64. The list has room for the image, and the seglets that it counts are free. The call can't fail, takes no
    /// memory, and moves only images with a higher number.
    pub fn add_closed(&mut self, id: u64, segment: Segment, replicas: usize)
        requires other { image_of self.old.images id ≡ None }
        requires within { length (text_of segment) ≤ self.old.segment }
        requires room { length self.old.images < self.old.room }
        requires free { count_of self.old.segment self.old.seglet (closed_image id segment replicas)
            ≤ free_seglets self.old }
        requires few { replicas ≤ 64 }
        ensures { self.new ≡ record self.old { images = added (closed_image id segment replicas) self.old.images } }
    {
        self.add_image(Image::closed(id, segment, replicas));
    }

    /// Makes the image of a new survivor, with memory for a whole segment. If a dropped image has left such memory, the
    /// call uses it. The image is not added to the list.
    pub fn begin_survivor(&mut self, alloc: Global, master: u64, id: u64) -> Result<Image, NoMemory>
        ensures survivor { IfOk result (λ image. image ≡ whole_image id
            (Entry.Header (record { master = master; segment = id; role = Role.Survivor }) ∷ []) self.old.segment) }
        ensures same { self.new ≡ self.old }
    {
        let mut survivor = Segment::begin_survivor(alloc, master, id)?;
        if let Some(spare) = self.spares.take() {
            survivor.move_into(spare);
        }
        match Image::whole(id, survivor, self.segment) {
            Ok(image) => Ok(image),
            Err(_) => Err(NoMemory),
        }
    }

    /// Adds an image, as `add_closed` does. If the image takes appends, it has memory for a whole segment.
    pub fn add_image(&mut self, image: Image)
        requires other { image_of self.old.images image.id ≡ None }
        requires within { length (text_of image.segment) ≤ self.old.segment }
        requires memory { image.is_whole ≡ true → self.old.segment ≤ image.room }
        requires room { length self.old.images < self.old.room }
        requires free { count_of self.old.segment self.old.seglet image ≤ free_seglets self.old }
        ensures { self.new ≡ record self.old { images = added image self.old.images } }
    {
        self.used += count_of(&image, self.segment, self.seglet);
        let at = place_for(self.images.as_slice(), image.id());
        self.images.insert(at, image).unwrap();
        self.hints.added(self.images.as_slice(), at);
    }

    /// Appends a unit to an image that takes appends. All of the unit is appended, or nothing. Returns the offset of
    /// its first entry. `Full` comes exactly if the segment would have too many bytes. There is no other fault,
    /// because the call takes no memory.
    pub fn append(&mut self, id: u64, unit: &[EntryRef<'_>]) -> Result<usize, AppendFault>
        requires whole { IsWhole self.old.images id }
        requires data { are_data (map shown unit.now) ≡ true }
        ensures ok { OnOk result (self.new ≡ record self.old {
          images = changed self.old.images id (with_unit (map shown unit.now));
        }) }
        ensures place { IfOk result (λ at. at ≡ len_at self.old.images id) }
        ensures full { IsErrOf result AppendFault.Full ↔
            (self.old.segment < len_at self.old.images id + length (text_of (map shown unit.now))) }
        ensures fault { IfErr result (λ fault. fault ≡ AppendFault.Full) }
        ensures err { OnErr result (self.new ≡ self.old) }
    {
        let Some(at) = place_of(self.images.as_slice(), id, &self.hints) else {
            unreachable!()
        };
        self.images[at].append(unit, self.segment)
    }

    /// Appends a copy of an object or tombstone to the image `to`, which takes appends. The object or tombstone is at
    /// offset `at` of the image `from`, which has a lower number, and has `len` bytes. Returns the offset of the copy.
    /// `Full` comes exactly if the segment would have too many bytes, and then nothing changes. There is no other
    /// fault, because the call takes no memory.
    pub fn copy_entry(
        &mut self,
        from: u64,
        at: usize,
        len: usize,
        to: u64,
    ) -> Result<usize, AppendFault>
        requires order { from < to }
        requires whole { IsWhole self.old.images to }
        requires data { HasData self.old.images from at len }
        ensures ok { OnOk result (IfSome (entry_at self.old.images from at)
            (λ e. self.new ≡ record self.old { images = changed self.old.images to (with_unit (e ∷ [])) })) }
        ensures place { IfOk result (λ at. at ≡ len_at self.old.images to) }
        ensures full { IfSome (entry_at self.old.images from at) (λ e. IsErrOf result AppendFault.Full ↔
            (self.old.segment < len_at self.old.images to + length (spelling e))) }
        ensures fault { IfErr result (λ fault. fault ≡ AppendFault.Full) }
        ensures err { OnErr result (self.new ≡ self.old) }
    {
        copy_entry(
            self.images.as_mut_slice(),
            from,
            at,
            len,
            to,
            self.segment,
            &self.hints,
        )
    }

    /// Ends the appends to the image of this number. The image then counts its length in seglets, rounded up, and gives
    /// back the memory beyond these, as `trim_text` does. If there is no image of this number, nothing changes.
    pub fn trim(&mut self, id: u64)
        ensures { self.new ≡ record self.old { images = changed self.old.images id trimmed } }
    {
        let Some(at) = place_of(self.images.as_slice(), id, &self.hints) else {
            return;
        };
        let image = &mut self.images[at];
        let before = count_of(image, self.segment, self.seglet);
        let count = seglets_of(image.bytes_len(), self.seglet);
        image.trim(count as usize * self.seglet);
        self.used = self.used - before + count;
    }

    /// Replaces the segment of the image of this number. The image takes no appends then. A segment that isn't taken
    /// is handed back with `NoRoom`. This fault comes exactly if the new segment counts more seglets than are free
    /// together with those that the old segment counts.
    pub fn replace(&mut self, id: u64, segment: Segment) -> Result<(), (ImagesFault, Segment)>
        requires there { IsSome (image_of self.old.images id) }
        requires within { length (text_of segment) ≤ self.old.segment }
        ensures ok { OnOk result (self.new ≡ record self.old {
          images = changed self.old.images id (replaced_by segment);
        }) }
        ensures err { OnErr result (self.new ≡ self.old) }
        ensures no_room { IsErr result ↔ (free_seglets self.old + count_at self.old id <
            div_ceil (length (text_of segment)) self.old.seglet) }
        ensures back { IfErr result (λ e. (e.0 ≡ ImagesFault.NoRoom) × (e.1 ≡ segment)) }
    {
        let Some(at) = place_of(self.images.as_slice(), id, &self.hints) else {
            unreachable!()
        };
        let image = &mut self.images[at];
        let others = self.used - count_of(image, self.segment, self.seglet);
        let count = seglets_of(segment.bytes_len(), self.seglet);
        if count > self.seglets - others {
            return Err((ImagesFault::NoRoom, segment));
        }
        image.replace(segment);
        self.used = others + count;
        Ok(())
    }

    /// Drops the image of this number, and frees the seglets that it counts. If its memory is enough for a whole
    /// segment, the call may keep it for a later image: it keeps memory for at most 8 segments, and for no more than
    /// free seglets allow. If there is no such image, nothing changes.
    pub fn drop_segment(&mut self, id: u64)
        ensures { self.new ≡ record self.old { images = without self.old.images id } }
    {
        if let Some(at) = place_of(self.images.as_slice(), id, &self.hints) {
            let image = self.images.remove(at);
            self.hints.removed(at);
            self.used -= count_of(&image, self.segment, self.seglet);
            let free = (self.seglets - self.used) as usize * self.seglet;
            self.spares.leave(image.into_text(), self.segment, free);
        }
    }
}
