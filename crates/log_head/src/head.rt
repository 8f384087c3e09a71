//! The head of the log: its image, where its units end, and what each replica of it has.

ghost use Rattle.std.specs.Prelude.{◌≡◌, ◌+◌, ◌<◌, ◌≤◌, ◌^◌, [], length, map, take};
ghost use Rattle.std.specs.Prelude.{true, Some, None, IfSome, IfOk, OnOk, OnErr, IsErrOf, slice_get};
ghost use Rattle.entry.specs.Text.{text_of, are_data};
ghost use Rattle.entry.specs.View.{shown};
ghost use Rattle.std.specs.Prelude.{nat_le, Option, ◌==◌};
ghost use Rattle.std.specs.Option.{option_map, option_copied};

use crate::lagging::lagging;
use entry::{Digest, EntryRef, Ids, Lengths, Listed, NoMemory, SafeVersion};
use segment::{AppendFault, Segment};
use std::alloc::Global;
use std::marker::Model;

/// Where the unit of one command ends.
#[derive(Clone, Copy)]
pub struct UnitEnd {
    /// The number of the command's record in the history, from 0.
    pub number: u64,
    /// The offset in bytes at which the unit ends in the image.
    pub end: u32,
}

/// A roll to the next head, which is opened on its backups before the old head is closed.
#[derive(Drop)]
pub struct Roll {
    /// The new head's number.
    pub id: u64,
    /// The new head's image: its opening.
    pub image: Segment,
    /// How many replicas of the new head are open.
    pub opened: usize,
    /// How many replicas of the old head are closed.
    pub closed: usize,
}

/// The head of a log. Its replicas are opened in order. Each replica has the first bytes of the image, up to the
/// opening's or a unit's end.
#[derive(Drop)]
pub struct Head {
    pub(crate) id: u64,
    /// How many replicas the head will have.
    pub(crate) replicas: usize,
    pub(crate) image: Segment,
    /// The offset in bytes at which the units begin in the image, behind the opening and what was loaded.
    pub(crate) base: usize,
    pub(crate) units: Vec<UnitEnd>,
    /// How many units each opened replica has.
    pub(crate) taken: Vec<usize>,
    pub(crate) roll: Option<Roll>,
}

impl Model for Head {
    ghost use Rattle.std.specs.Prelude.{◌≤◌, vec_capacity};
    ghost use Rattle.log_head.specs.Head.{HeadValue, IsHeadValue};

    ghost Value = { HeadValue };

    ghost view = { λ h. record {
      id = h.id;
      replicas = h.replicas;
      image = h.image;
      base = h.base;
      units = h.units.items;
      taken = h.taken.items;
      roll = h.roll;
    } };

    // `taken` has room for a count of each replica, so to open one never fails
    ghost invariant = { λ h. (h.replicas ≤ vec_capacity h.taken) × IsHeadValue (record {
      id = h.id;
      replicas = h.replicas;
      image = h.image;
      base = h.base;
      units = h.units.items;
      taken = h.taken.items;
      roll = h.roll;
    }) };
}

impl Head {
    ghost use Rattle.log_head.specs.declared.head.UnitEnd.{UnitEnd as UnitValue};
    ghost use Rattle.log_head.specs.Head.{HeadValue, IsHeadValue, end_of, record_at, len_with, everywhere, is_open};
    ghost use Rattle.log_head.specs.Head.{IsLagging};
    ghost use Rattle.log_head.specs.Steps.{lone_start, fresh_head, with_unit_end, with_opened_replica, with_all_taken};
    ghost use Rattle.log_head.specs.Steps.{with_whole_replica, lost, settled};
    ghost use Rattle.log_head.specs.Next.{bytes_between};
    ghost use Rattle.log_laws.specs.Heads.{Start};

    /// Makes a head with this id of a log without other segments, in this format. The image holds the opening alone,
    /// and has memory for `room` bytes in all. No replica is open yet.
    pub fn begin(
        alloc: Global,
        master: u64,
        id: u64,
        replicas: usize,
        format: u64,
        safe: SafeVersion,
        room: usize,
    ) -> Result<Head, NoMemory>
        requires { replicas ≤ 64 }
        ensures begun { IfOk result (λ head. head ≡ fresh_head master replicas (lone_start id format safe)) }
        ensures valid { IfOk result (λ head. IsHeadValue head) }
    {
        let taken = Vec::with_capacity(alloc, replicas)?;
        let mut image = first_image(alloc, master, id, format, safe)?;
        image.reserve(room)?;
        let base = image.bytes().len();
        Ok(Head {
            id,
            replicas,
            image,
            base,
            units: Vec::new(alloc),
            taken,
            roll: None,
        })
    }

    /// Shows, to proofs alone, what is true of every head.
    pub fn show_valid(&self)
        ensures { IsHeadValue self.now }
    {
        let _id = self.id;
    }

    /// Returns the head's id.
    pub fn id(&self) -> u64
        ensures id { result ≡ self.now.id }
        ensures valid { IsHeadValue self.now }
    {
        self.id
    }

    pub fn image(&self) -> &Segment
        ensures image { result.now ≡ self.now.image }
        ensures valid { IsHeadValue self.now }
    {
        &self.image
    }

    /// Returns the number of units.
    pub fn count(&self) -> usize
        ensures { result ≡ length self.now.units }
    {
        self.units.len()
    }

    /// Returns the number of replicas that were opened.
    pub fn opened(&self) -> usize
        ensures { result ≡ length self.now.taken }
    {
        self.taken.len()
    }

    /// Returns true if all replicas are open and no roll is under way.
    pub fn is_open(&self) -> bool
        ensures open { result ≡ is_open self.now }
        ensures valid { IsHeadValue self.now }
    {
        self.taken.len() == self.replicas && self.roll.is_none()
    }

    /// Returns the roll that is under way, if any.
    pub fn roll(&self) -> Option<&Roll>
        ensures { option_copied result ≡ self.entry.now.roll }
    {
        self.roll.as_ref()
    }

    /// Returns true if the image with `bytes` more bytes has at most `limit` bytes.
    pub fn fits(&self, bytes: usize, limit: usize) -> bool
        requires { bytes ≤ 2 ^ 32 }
        ensures { result ≡ nat_le (length (text_of self.now.image) + bytes) limit }
    {
        self.image.bytes().len() + bytes <= limit
    }

    /// Returns the bytes with which a replica is opened: the opening, and what was loaded.
    pub fn opening(&self) -> &[u8]
        ensures { result.now ≡ take self.entry.now.base (text_of self.entry.now.image) }
    {
        let end = self.end_of(0);
        &self.image.bytes()[..end]
    }

    /// Returns the number of units that a replica has.
    pub fn units_of(&self, replica: usize) -> usize
        requires { replica < length self.now.taken }
        ensures units { slice_get self.now.taken replica ≡ Some result }
        ensures small { replica < 64 }
        ensures within { result ≤ length self.now.units }
    {
        self.taken[replica]
    }

    /// Returns the offset in bytes at which the first units end: the length of a replica that has just these units.
    #[tactic(auto, using(crate::proofs::Heads::end_of_le, crate::proofs::Heads::end_of_last))]
    pub fn end_of(&self, units: usize) -> usize
        requires { units ≤ length self.now.units }
        ensures end { result ≡ end_of self.now.base self.now.units units }
        ensures within { result ≤ length (text_of self.now.image) }
    {
        match units.checked_sub(1) {
            None => self.base,
            Some(last) => self.units[last].end as usize,
        }
    }

    /// Returns what a replica with just the first `units` lacks: the offset at which it ends, and the bytes of all
    /// units from there on.
    #[tactic(auto, using(crate::proofs::Heads::end_of_all))]
    pub fn behind(&self, units: usize) -> (usize, &[u8])
        requires { units ≤ length self.now.units }
        ensures start { result.0 ≡ end_of self.entry.now.base self.entry.now.units units }
        ensures bytes { result.1.now ≡ bytes_between self.entry.now units (length self.entry.now.units) }
    {
        let start = self.end_of(units);
        (start, &self.image.bytes()[start..])
    }

    /// Returns the number of the replica with the fewest units, and of several the first. Returns `None` if each
    /// opened replica has all units. It looks at each replica once.
    pub fn lagging(&self) -> Option<usize>
        ensures { IsLagging (length self.now.units) self.now.taken result }
    {
        lagging(self.taken.as_slice(), self.units.len())
    }

    /// Returns the number of the record of the first unit that some replica lacks. Returns `None` if each replica has
    /// all units.
    pub fn first_missing(&self) -> Option<u64>
        ensures valid { IsHeadValue self.now }
        ensures missing { result ≡ record_at self.now.units (everywhere self.now) }
    {
        match self.units.get(self.everywhere()) {
            None => None,
            Some(unit) => Some(unit.number),
        }
    }

    /// Returns how many of the first units every replica has. While a replica isn't open yet, that is none.
    fn everywhere(&self) -> usize
        ensures { result ≡ everywhere self.now }
    {
        if self.taken.len() < self.replicas {
            return 0;
        }
        match self.lagging() {
            None => self.units.len(),
            Some(replica) => self.units_of(replica),
        }
    }

    /// Counts a replica that was opened and has no units yet.
    pub fn open(&mut self)
        requires { length self.old.taken < self.old.replicas }
        ensures opened { self.new ≡ with_opened_replica self.old }
        ensures valid { IsHeadValue self.new }
    {
        self.taken.push_reserved(0)
    }

    /// Counts the replacement of a lost replica, which was opened with all units.
    pub fn open_whole(&mut self)
        requires { length self.old.taken < self.old.replicas }
        ensures opened { self.new ≡ with_whole_replica self.old }
        ensures valid { IsHeadValue self.new }
    {
        self.taken.push_reserved(self.units.len())
    }

    /// Removes a lost replica, if one is named. The numbers of the replicas behind it then fall by one. Abandons a
    /// roll that is under way, and returns the image of its new head.
    pub fn lose(&mut self, replica: Option<usize>) -> Option<Segment>
        requires { IfSome replica (λ j. j < length self.old.taken) }
        ensures lost { self.new ≡ lost self.old replica }
        ensures image { result ≡ option_map (λ r. r.image) self.old.roll }
        ensures valid { IsHeadValue self.new }
    {
        if let Some(replica) = replica {
            self.taken.remove(replica);
        }
        match self.roll.take() {
            None => None,
            Some(roll) => {
                let Roll { image, .. } = roll;
                Some(image)
            }
        }
    }

    /// Counts that a replica took all units that it lacked.
    pub fn extend(&mut self, replica: usize)
        requires { replica < length self.old.taken }
        ensures extended { self.new ≡ with_all_taken self.old replica }
        ensures valid { IsHeadValue self.new }
    {
        self.taken[replica] = self.units.len();
    }

    /// Appends a unit: the objects and tombstones of the record with this number. Returns `Full` if the image would
    /// have more than `limit` bytes, and `NoMemory` if there is no memory for it. A refusal changes nothing.
    #[tactic(auto, using(crate::proofs::Heads::EndAt_push, crate::proofs::Heads::all_more, crate::proofs::Heads::text_more))]
    #[inline(always)]
    pub fn append(
        &mut self,
        unit: &[EntryRef<'_>],
        number: u64,
        limit: usize,
    ) -> Result<(), AppendFault>
        requires some { 0 < length unit.now }
        requires data { are_data (map shown unit.now) ≡ true }
        requires limit { limit ≤ 8388608 }
        ensures ok { OnOk result (self.new ≡ with_unit_end self.old number (map shown unit.now)) }
        ensures limit { OnOk result (len_with self.old.image (map shown unit.now) ≤ limit) }
        ensures full { IsErrOf result AppendFault.Full → limit < len_with self.old.image (map shown unit.now) }
        ensures err { OnErr result (self.new ≡ self.old) }
        ensures valid { OnOk result (IsHeadValue self.new) }
    {
        if self.units.reserve(1).is_err() {
            return Err(AppendFault::NoMemory);
        }
        self.image.append(unit, limit)?;
        let end = self.image.bytes().len();
        self.units.push_reserved(UnitEnd {
            number,
            end: end as u32,
        });
        Ok(())
    }

    /// Counts all that the head holds as loaded, so the head has no units. Call it once each replica has all units.
    pub fn begin_history(&mut self)
        ensures settled { self.new ≡ settled self.old }
        ensures valid { IsHeadValue self.new }
    {
        self.base = self.image.bytes().len();
        self.units.clear();
        self.taken.fill(0);
    }
}

ghost use Rattle.log_head.specs.Steps.{lone_start};
ghost use Rattle.log_laws.specs.Heads.{digest_with, start_entries};
ghost use Rattle.log_laws.specs.HeadSteps.{no_lens};

/// Makes the image of a head whose digest lists the head alone: its opening.
fn first_image(
    alloc: Global,
    master: u64,
    id: u64,
    format: u64,
    safe: SafeVersion,
) -> Result<Segment, NoMemory>
    ensures { IfOk result (λ image. image ≡ start_entries master (lone_start id format safe)) }
{
    let digest = first_digest(alloc, id, format)?;
    Segment::begin_head(alloc, master, id, digest, safe)
}

/// Makes the digest that lists this head alone. Under format 2 it lists the length of the head's opening.
fn first_digest(alloc: Global, id: u64, format: u64) -> Result<Digest, NoMemory>
    ensures { IfOk result (λ digest. digest ≡ digest_with [] (no_lens format) id) }
{
    if format == 2 {
        let mut segments = Vec::with_capacity(alloc, 1)?;
        segments.push(Listed { id, len: 48 })?;
        return Ok(Digest::Lengths(Lengths::new(segments)));
    }
    let mut ids = Vec::with_capacity(alloc, 1)?;
    ids.push(id)?;
    Ok(Digest::Ids(Ids::new(ids)))
}
