//! What a cleaner has noted of the tombstones of closed segments.

ghost use Rattle.std.specs.Prelude.{◌<◌, ◌≤◌, vec_len, IfOk, IfErr};

use crate::finding::{id_place, image_place};
use driving::master::Master;
use entry::{EntryRef, NoMemory, TOMBSTONE_LEN};
use replica::Fleet;
use segment::SegmentRef;
use std::alloc::Global;
use std::marker::Model;
use std::mem::replace;

/// A segment, and the bytes of some tombstones that lie in it or name it.
#[derive(Clone, Copy)]
struct Stones {
    segment: u64,
    bytes: u64,
}

/// What is noted of a closed segment.
#[derive(Drop)]
pub(crate) struct Note {
    pub id: u64,
    /// Whether the segment was read.
    is_read: bool,
    /// The bytes of its opening.
    pub opening: u64,
    /// The bytes of its tombstones that name a segment of the digest in force.
    pub stones: u64,
    /// The bytes of the noted segments' tombstones that name this one.
    pub named: u64,
    /// The segments that its tombstones name, by rising id. Some of these segments may have left the digest.
    names: Vec<Stones>,
    /// The tombstones that name this segment, by the rising id of the segment in which they are. Some of these segments
    /// may have left the digest.
    namers: Vec<Stones>,
}

/// What a cleaner has noted of a master's closed segments: how long their openings are, and which segments their
/// tombstones name. So it reads each closed segment once, and none again after the commit of a pass. Notes decide what
/// is cleaned first, and never whether it is right: contracts see nothing of them.
#[derive(Drop)]
pub struct Notes {
    /// The number of the master, or 0 at first.
    master: u64,
    /// The id of the head when the notes were last brought up to date.
    head: u64,
    /// What is noted of each closed segment of the digest in force, by rising id.
    notes: Vec<Note>,
}

impl Model for Notes {
    ghost Value = { Unit {0} };

    ghost view = { λ n. tt };
}

impl Notes {
    /// Makes empty notes. The call takes no memory.
    pub fn new(alloc: Global) -> Notes {
        Notes {
            master: 0,
            head: 0,
            notes: Vec::new(alloc),
        }
    }

    /// Where their memory comes from.
    pub(crate) fn alloc(&self) -> Global {
        *self.notes.allocator()
    }

    /// What is noted, by rising id.
    pub(crate) fn as_slice(&self) -> &[Note] {
        self.notes.as_slice()
    }

    /// Whether the master has another head than when the notes were last brought up to date, or is another master. Its
    /// digest in force is the same if it hasn't.
    pub(crate) fn are_behind<F: Fleet>(&self, master: &Master<F>) -> bool {
        self.master != master.number() || self.head != master.head()
    }

    /// Brings the notes up to date. What left the digest in force is taken out, and each segment that was closed since
    /// is read. The notes of another master are dropped.
    pub(crate) fn update<F: Fleet>(&mut self, master: &Master<F>) -> Result<(), NoMemory> {
        if self.master != master.number() {
            self.master = master.number();
            self.notes.clear();
        }
        // If memory runs out, they stay behind.
        self.head = 0;
        let row = master.digest()?;
        let ids = row.as_slice();
        let gone = self.gone(ids)?;
        self.forget(gone.as_slice());
        self.add_all(master, ids)?;
        self.head = master.head();
        Ok(())
    }

    /// The noted segments that aren't among these.
    fn gone(&self, ids: &[u64]) -> Result<Vec<u64>, NoMemory> {
        let mut gone = Vec::new(self.alloc());
        let mut next = 0;
        for note in self.notes.iter() {
            match id_place(ids, next, note.id) {
                Some(at) => next = at.saturating_add(1),
                None => gone.push(note.id)?,
            }
        }
        Ok(gone)
    }

    /// Takes out the notes of these segments, which are by rising id. The tombstones that name one of them are kept no
    /// more, and those that lie in one of them are gone.
    fn forget(&mut self, gone: &[u64]) {
        if gone.is_empty() {
            return;
        }
        for id in gone {
            self.leave(*id);
        }
        self.notes
            .retain(|note| gone.binary_search(&note.id).is_err());
    }

    /// Takes off what tombstones of this segment or for it count in the notes of others.
    fn leave(&mut self, id: u64) {
        let Ok(at) = self.notes.binary_search_by_key(&id, |note| note.id) else {
            return;
        };
        let alloc = self.alloc();
        let namers = replace(&mut self.notes[at].namers, Vec::new(alloc));
        self.lower_stones(namers.as_slice());
        if at < self.notes.len() {
            let names = replace(&mut self.notes[at].names, Vec::new(alloc));
            self.lower_named(names.as_slice());
        }
    }

    /// These tombstones name a segment that leaves, so they are kept no more. The call goes once through the notes.
    fn lower_stones(&mut self, namers: &[Stones]) {
        let mut next = 0;
        for namer in namers {
            if let Some(note) = self.note_from(&mut next, namer.segment) {
                note.stones = note.stones.saturating_sub(namer.bytes);
            }
        }
    }

    /// The tombstones that named these segments leave. The call goes once through the notes.
    fn lower_named(&mut self, names: &[Stones]) {
        let mut next = 0;
        for name in names {
            if let Some(note) = self.note_from(&mut next, name.segment) {
                note.named = note.named.saturating_sub(name.bytes);
            }
        }
    }

    /// The note of a segment, if there is one. It is looked for from a place on, which goes on to it.
    fn note_from(&mut self, next: &mut usize, id: u64) -> Option<&mut Note> {
        *next = self.place_from(*next, id);
        match self.notes.get_mut(*next) {
            Some(note) if note.id == id => Some(note),
            _ => None,
        }
    }

    /// The place of the first note from a place on whose segment has this id or a greater one.
    fn place_from(&self, from: usize, id: u64) -> usize {
        for place in from..self.notes.len() {
            if self.notes[place].id >= id {
                return place;
            }
        }
        self.notes.len()
    }

    /// Notes the segments of a digest that lists these, but for the head and those that are noted. All get their notes
    /// before one is read: a tombstone may name a segment with a higher id than its own, a survivor.
    fn add_all<F: Fleet>(&mut self, master: &Master<F>, ids: &[u64]) -> Result<(), NoMemory> {
        let mut next = 0;
        for id in ids {
            if self.is_noted_at(next, *id) {
                next = next.saturating_add(1);
            } else if *id != master.head() {
                next = self.add(*id)?.saturating_add(1);
            }
        }
        for at in 0..self.notes.len() {
            self.read(master, ids, at)?;
        }
        Ok(())
    }

    /// Whether the note at this place is that of the segment.
    fn is_noted_at(&self, at: usize, id: u64) -> bool {
        at < self.notes.len() && self.notes[at].id == id
    }

    /// Adds the note of a segment that isn't read yet, if it has none, and returns its place.
    fn add(&mut self, id: u64) -> Result<usize, NoMemory> {
        match self.notes.binary_search_by_key(&id, |note| note.id) {
            Ok(at) => Ok(at),
            Err(at) => {
                let note = Note::new(self.alloc(), id);
                self.notes.insert(at, note)?;
                Ok(at)
            }
        }
    }

    /// Reads the segment of the note at a place, if it wasn't read yet, and notes its tombstones with the segments that
    /// they name. The digest lists these segments. The note of one that isn't closed stays empty.
    fn read<F: Fleet>(
        &mut self,
        master: &Master<F>,
        ids: &[u64],
        at: usize,
    ) -> Result<(), NoMemory> {
        if at >= self.notes.len() || self.notes[at].is_read {
            return Ok(());
        }
        let alloc = self.alloc();
        let id = self.notes[at].id;
        let images = master.closed();
        let mut named = match image_place(images, images.len(), id) {
            Some(place) => all_named(alloc, &images[place].segment())?,
            None => Vec::new(alloc),
        };
        named.sort_unstable_by_key(|one| one.segment);
        let named = summed(alloc, named.as_slice(), ids)?;
        self.add_namers(id, named.as_slice(), ids)?;
        let opening = master.opening_len(id).unwrap_or(0) as u64;
        if at < self.notes.len() {
            let note = &mut self.notes[at];
            note.opening = opening;
            note.stones = bytes_of(named.as_slice());
            note.names = named;
            note.is_read = true;
        }
        Ok(())
    }

    /// Notes with each segment that tombstones of this one name how many bytes these have. `named` is by rising id.
    fn add_namers(&mut self, id: u64, named: &[Stones], ids: &[u64]) -> Result<(), NoMemory> {
        let mut next = 0;
        for one in named {
            if let Some(note) = self.note_from(&mut next, one.segment) {
                note.add_namer(id, one.bytes, ids)?;
            }
        }
        Ok(())
    }
}

impl Note {
    /// The note of a segment that isn't read yet.
    fn new(alloc: Global, id: u64) -> Note {
        Note {
            id,
            is_read: false,
            opening: 0,
            stones: 0,
            named: 0,
            names: Vec::new(alloc),
            namers: Vec::new(alloc),
        }
    }

    /// Notes that tombstones of a segment of so many bytes name this one. What left the digest, which lists these, is
    /// dropped once it may be half of what is noted.
    fn add_namer(&mut self, id: u64, bytes: u64, ids: &[u64]) -> Result<(), NoMemory> {
        if self.namers.len() / 2 > ids.len() {
            self.namers
                .retain(|one| ids.binary_search(&one.segment).is_ok());
        }
        match self.place_of(id) {
            Ok(at) => {
                self.named = self.named.saturating_sub(self.namers[at].bytes);
                self.namers[at].bytes = bytes;
            }
            Err(at) => {
                self.namers.insert(at, Stones { segment: id, bytes })?;
            }
        }
        self.named = self.named.saturating_add(bytes);
        Ok(())
    }

    /// The place among `namers` of the segment with this id, or else that where it belongs. Mostly it is the newest.
    fn place_of(&self, id: u64) -> Result<usize, usize>
        ensures there { IfOk result (λ at. at < vec_len self.now.namers) }
        ensures new { IfErr result (λ at. at ≤ vec_len self.now.namers) }
    {
        match self.namers.last() {
            Some(last) if last.segment >= id => {
                self.namers.binary_search_by_key(&id, |one| one.segment)
            }
            _ => Err(self.namers.len()),
        }
    }
}

/// The tombstones of a segment, each by itself.
fn all_named(alloc: Global, segment: &SegmentRef<'_>) -> Result<Vec<Stones>, NoMemory> {
    let mut named = Vec::new(alloc);
    for entry in segment.entries() {
        let entry: EntryRef<'_> = entry;
        if let EntryRef::Tombstone(tombstone) = &entry {
            named.push(Stones {
                segment: tombstone.segment,
                bytes: (TOMBSTONE_LEN + tombstone.key.bytes.len()) as u64,
            })?;
        }
    }
    Ok(named)
}

/// One sum for each of these segments that is named.
fn summed(alloc: Global, named: &[Stones], ids: &[u64]) -> Result<Vec<Stones>, NoMemory> {
    let mut sums = Vec::new(alloc);
    for one in named {
        if !add_to_last(&mut sums, *one) && ids.binary_search(&one.segment).is_ok() {
            sums.push(*one)?;
        }
    }
    Ok(sums)
}

/// Adds to the last sum if that is of the same segment. False if it isn't.
fn add_to_last(sums: &mut Vec<Stones>, one: Stones) -> bool {
    let count = sums.len();
    if count == 0 || sums[count - 1].segment != one.segment {
        return false;
    }
    sums[count - 1].bytes = sums[count - 1].bytes.saturating_add(one.bytes);
    true
}

/// The bytes of all of them.
fn bytes_of(named: &[Stones]) -> u64 {
    let mut bytes: u64 = 0;
    for one in named {
        bytes = bytes.saturating_add(one.bytes);
    }
    bytes
}
