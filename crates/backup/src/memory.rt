//! What one backup holds.

ghost use Rattle.std.specs.Prelude.{◌≡◌, ℕ, ◌++◌, [], length, OnOk, OnErr, IfOk, IfSome, None, Err, is_some};
ghost use Rattle.std.specs.Prelude.{◌+◌, ◌<◌, vec_len, vec_capacity};
ghost use Rattle.replica.specs.Op.{shown_act, Extend, Close, Free};
ghost use Rattle.replica.specs.Take.{effect};
ghost use Rattle.backup.specs.Acts.{adding, MayGrow};
ghost use Rattle.backup.specs.Retire.{spots_of_others};
ghost use Rattle.backup.specs.Slots.{AreOrdered, IsAt};
ghost use Rattle.backup.specs.Shelf.{replica_at, holdings_of, ActsAt, KeepsOthers, IsInOrder};

use crate::shelf::Shelf;
use crate::stored::{Stored, block_len, is_making};
use entry::NoMemory;
use replica::{Act, Holding, Op, Spot, TakeFault};
use std::alloc::Global;

/// How many freed replicas leave their memory for the next ones.
const SPARES: usize = 8;

/// A replica that is opened gets this much memory at first: the head that a pass commits stays short. A longer one
/// moves.
const FIRST: usize = 16_384;

/// The first of some memory that has so many bytes, and not many more.
fn fitting(spares: &[Vec<u8>], wanted: usize) -> Option<usize>
    ensures { IfSome result (λ at. at < length spares.now) }
{
    for (at, spare) in spares.iter().enumerate() {
        let capacity = spare.capacity();
        if capacity >= wanted && capacity - wanted <= wanted / 16 {
            return Some(at);
        }
    }
    None
}

/// A backup in memory: its replicas by master, then by segment.
#[derive(Drop)]
pub struct MemoryBackup {
    replicas: Shelf,
    /// The most bytes that a closed replica has had here. An open one mostly comes to as many.
    longest: usize,
    /// Memory of replicas that were freed. The bytes in it mean nothing.
    spares: Vec<Vec<u8>>,
}

impl MemoryBackup {
    /// A backup that holds nothing. It takes no memory.
    pub fn new(alloc: Global) -> MemoryBackup
        ensures { (m s : ℕ) → replica_at result m s ≡ None }
    {
        MemoryBackup {
            replicas: Shelf::new(alloc),
            longest: 0,
            spares: Vec::new(alloc),
        }
    }

    /// Does what an op asks. The op is refused as Wrong if it doesn't fit, else as NoMemory. A Close and a Free take no
    /// memory.
    #[inline(always)]
    pub fn take(&mut self, alloc: Global, op: &Op<'_>) -> Result<(), TakeFault>
        ensures named { ActsAt (shown_act op.now.act) op.now.master op.now.segment self.old result self.new }
        ensures others { KeepsOthers op.now.master op.now.segment self.old self.new }
        ensures memory { result ≡ Err TakeFault.NoMemory → MayGrow (shown_act op.now.act) }
    {
        let place = (op.master, op.segment);
        match op.act {
            Act::Open(bytes) => self.add(alloc, place, bytes, true),
            Act::Extend { at, bytes } => self.extend(alloc, place, at, bytes),
            Act::Close => self.close(place),
            Act::Seal(bytes) => self.add(alloc, place, bytes, false),
            Act::Free => self.free(place),
        }
    }

    /// Whether an op fits, so that it isn't refused as Wrong.
    pub fn fits(&mut self, op: &Op<'_>) -> bool
        ensures fits { result ≡ is_some (effect (shown_act op.now.act)
            (replica_at self.old op.now.master op.now.segment)) }
        ensures same { self.new.replicas ≡ self.old.replicas }
    {
        match self.replicas.find((op.master, op.segment)) {
            Ok(found) => self.replicas.as_slice()[found].1.allows(&op.act),
            Err(_) => is_making(&op.act),
        }
    }

    /// Memory for a replica that comes to so many bytes: that of a freed one that had about as much, if there is one.
    /// If more is refused, it is what there is.
    fn room(&mut self, alloc: Global, len: usize) -> Vec<u8>
        ensures room { result.items ≡ [] }
        ensures same { self.new.replicas ≡ self.old.replicas }
    {
        let wanted = block_len(len);
        let mut room = match fitting(self.spares.as_slice(), wanted) {
            Some(at) => self.spares.swap_remove(at),
            None => Vec::new(alloc),
        };
        room.clear();
        let _ = room.reserve_exact(wanted);
        room
    }

    /// A copy of the bytes of a new replica.
    fn copy(&mut self, alloc: Global, bytes: &[u8], is_open: bool) -> Result<Vec<u8>, NoMemory>
        ensures copy { IfOk result (λ copy. copy.items ≡ bytes.now) }
        ensures same { self.new.replicas ≡ self.old.replicas }
    {
        if self.spares.capacity() == 0 {
            let _ = self.spares.reserve_exact(SPARES);
        }
        let grows_to = if is_open { self.longest.min(FIRST) } else { 0 };
        let mut copy = self.room(alloc, grows_to.max(bytes.len()));
        copy.extend_from_slice(bytes)?;
        Ok(copy)
    }

    /// Moves a replica that gets so many bytes more into memory for as many as one here has come to, unless that is too
    /// little.
    fn enlarge(&mut self, alloc: Global, found: usize, more: usize)
        requires { found < length self.old.replicas }
        ensures { self.new.replicas ≡ self.old.replicas }
    {
        let (_, stored) = &self.replicas.as_slice()[found];
        if self.longest.saturating_sub(stored.len()) >= more {
            let room = self.room(alloc, self.longest);
            self.replicas.move_into(found, room);
        }
    }

    /// Keeps memory for the next replicas, in the place of some kept earlier if there is enough. It takes none.
    fn spare(&mut self, bytes: Vec<u8>)
        ensures { self.new.replicas ≡ self.old.replicas }
    {
        if bytes.capacity() <= FIRST || self.spares.capacity() == 0 {
            return;
        }
        if self.spares.len() == self.spares.capacity() {
            self.spares.remove(0);
        }
        self.spares.push_reserved(bytes);
    }

    fn add(
        &mut self,
        alloc: Global,
        place: (u64, u64),
        bytes: &[u8],
        is_open: bool,
    ) -> Result<(), TakeFault>
        ensures named { ActsAt (adding bytes.now is_open) place.0 place.1 self.old result self.new }
        ensures others { KeepsOthers place.0 place.1 self.old self.new }
    {
        let Err(at) = self.replicas.find(place) else {
            return Err(TakeFault::Wrong);
        };
        let Ok(copy) = self.copy(alloc, bytes, is_open) else {
            return Err(TakeFault::NoMemory);
        };
        match self.replicas.insert(at, place, Stored::new(copy, is_open)) {
            Ok(()) => Ok(()),
            Err(_) => Err(TakeFault::NoMemory),
        }
    }

    /// Extends a replica that has no room for the bytes: mostly it moves before.
    #[inline(never)]
    fn extend_moved(
        &mut self,
        alloc: Global,
        place: (u64, u64),
        found: usize,
        at: usize,
        bytes: &[u8],
    ) -> Result<(), TakeFault>
        requires ordered { AreOrdered self.old.replicas }
        requires found { IsAt self.old.replicas place found }
        ensures named { ActsAt (Extend at bytes.now) place.0 place.1 self.old result self.new }
        ensures others { KeepsOthers place.0 place.1 self.old self.new }
    {
        self.enlarge(alloc, found, bytes.len());
        self.replicas.stored_mut(found).extend(at, bytes)
    }

    #[inline(always)]
    fn extend(
        &mut self,
        alloc: Global,
        place: (u64, u64),
        at: usize,
        bytes: &[u8],
    ) -> Result<(), TakeFault>
        ensures named { ActsAt (Extend at bytes.now) place.0 place.1 self.old result self.new }
        ensures others { KeepsOthers place.0 place.1 self.old self.new }
    {
        match self.replicas.find(place) {
            Ok(found) => {
                if !self.replicas.has_room(found, bytes.len()) {
                    return self.extend_moved(alloc, place, found, at, bytes);
                }
                self.replicas.stored_mut(found).extend(at, bytes)
            }
            Err(_) => Err(TakeFault::Wrong),
        }
    }

    fn close(&mut self, place: (u64, u64)) -> Result<(), TakeFault>
        ensures named { ActsAt Close place.0 place.1 self.old result self.new }
        ensures others { KeepsOthers place.0 place.1 self.old self.new }
        ensures memory { ¬ (result ≡ Err TakeFault.NoMemory) }
    {
        match self.replicas.find(place) {
            Ok(found) => {
                let stored = self.replicas.stored_mut(found);
                self.longest = self.longest.max(stored.len());
                stored.close()
            }
            Err(_) => Err(TakeFault::Wrong),
        }
    }

    fn free(&mut self, place: (u64, u64)) -> Result<(), TakeFault>
        ensures named { ActsAt Free place.0 place.1 self.old result self.new }
        ensures others { KeepsOthers place.0 place.1 self.old self.new }
        ensures memory { ¬ (result ≡ Err TakeFault.NoMemory) }
    {
        match self.replicas.find(place) {
            Ok(found) => {
                let stored = self.replicas.remove(found);
                self.spare(stored.into_bytes());
                Ok(())
            }
            Err(_) => Err(TakeFault::Wrong),
        }
    }

    /// Forgets every replica, and hands back the memory that freed ones left.
    pub fn clear(&mut self)
        ensures { (m s : ℕ) → replica_at self.new m s ≡ None }
    {
        self.replicas.clear();
        self.spares.clear();
    }

    /// Appends all replicas to a list, by master, then by segment, as those of the backup of this number. Their bytes
    /// stay here. On `Err` nothing is appended.
    pub fn show<'a>(&'a self, backup: u64, list: &mut Vec<Holding<'a>>) -> Result<(), NoMemory>
        ensures shown { OnOk result (list.new.items ≡ list.old.items ++ holdings_of backup self.entry.now) }
        ensures ordered { IsInOrder self.entry.now }
        ensures err { OnErr result (list.new.items ≡ list.old.items) }
        // Memory is wanted only if the list has no room for all of them.
        ensures full { OnErr result
            (vec_capacity list.old < vec_len list.old + length (holdings_of backup self.entry.now)) }
    {
        list.reserve(self.replicas.as_slice().len())?;
        for (place, stored) in self.replicas.as_slice() {
            let holding = stored.show(backup, place.0, place.1);
            list.push_reserved(holding);
        }
        Ok(())
    }

    /// Appends to a list where the replicas of other masters than `keep` are, by master, then by segment, as those of
    /// the backup of this number. After NoMemory some have been appended.
    pub fn list_others(&self, keep: u64, backup: u64, list: &mut Vec<Spot>) -> Result<(), NoMemory>
        ensures listed { OnOk result
            (list.new.items ≡ list.old.items ++ spots_of_others keep (holdings_of backup self.now)) }
        ensures ordered { IsInOrder self.now }
        // Memory is wanted only for the place of such a replica.
        ensures needed { OnErr result (0 < length (spots_of_others keep (holdings_of backup self.now))) }
    {
        for (place, _) in self.replicas.as_slice() {
            if place.0 != keep {
                list.push(Spot {
                    backup,
                    master: place.0,
                    segment: place.1,
                })?;
            }
        }
        Ok(())
    }
}
