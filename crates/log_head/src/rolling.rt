//! What a head pushes next, and how it rolls to the next head.

ghost use Rattle.std.specs.Prelude.{◌≡◌, ◌+◌, ◌<◌, ◌≤◌, ◌++◌, ◌∷◌, [], None, Some, true, length, IfOk, IfSome, IsSome};
ghost use Rattle.std.specs.Prelude.{OnOk, OnErr, is_some};
ghost use Rattle.entry.specs.Limits.{AreLengths};
ghost use Rattle.entry.specs.Text.{text_of, IsSegment};
ghost use Rattle.std.specs.List.Sorted.{IsStrictlyIncreasing};
ghost use Rattle.log_laws.specs.Heads.{start_entries};
ghost use Rattle.replica.specs.Op.{shown_op};
ghost use Rattle.log_head.specs.Head.{digest_of, is_open, is_up_to, lacks_to, record_at, IsHeadValue, IsRollValue};
ghost use Rattle.log_head.specs.Next.{IsNextPush, HasOp, op_of};
ghost use Rattle.log_head.specs.Steps.{start_after, others_after, with_roll, with_new_replica, with_closed_replica};
ghost use Rattle.log_head.specs.Steps.{fresh_roll, old_image, lens_after};

use crate::head::{Head, Roll};
use crate::leaving::{next_digest, next_ids};
use crate::next::Next;
use entry::{Listed, NoMemory, SafeVersion};
use replica::{Act, Op};
use segment::Segment;
use std::alloc::Global;
use std::mem::replace;

/// How the digest of the next head differs from the digest in force.
#[derive(Clone, Copy)]
pub struct Leaving<'a> {
    /// The ids that it leaves out. The search for each id of the digest in force goes through all of them.
    pub victims: &'a [u64],
    /// The segments that it takes in, each at its place. Their ids rise.
    pub survivors: &'a [Listed],
}

/// The memory of the two images of a roll.
#[derive(Drop)]
pub struct RollMemory {
    /// The memory of a dropped image, for the new image.
    pub spare: Option<Vec<u8>>,
    /// For how many bytes in all the new image gets memory.
    pub room: usize,
    /// The old image gives back its memory above so many bytes, unless that is little.
    pub kept: usize,
}

impl Head {
    /// Returns what the next push does. Returns `None` if each replica has all units and no roll is under way.
    pub fn next_push(&self) -> Option<Next>
        ensures next { IsNextPush self.now result }
        ensures valid { IsHeadValue self.now }
    {
        if self.taken.len() < self.replicas {
            return Some(Next::OpenFirst(self.taken.len()));
        }
        if let Some(replica) = self.lagging() {
            return Some(Next::Extend(replica));
        }
        match &self.roll {
            None => None,
            Some(roll) if roll.opened < self.replicas => Some(Next::OpenNew(roll.opened)),
            Some(roll) => Some(Next::CloseOld(roll.closed)),
        }
    }

    /// Returns what the next push does, if some replica lacks a unit of a record up to this number. Returns `None` if
    /// each replica has the units of all records up to this number.
    pub fn next_for(&self, number: u64) -> Option<Next>
        ensures next { IfSome result (λ next. IsNextPush self.now (Some next)) }
        ensures lacks { is_some result ≡ lacks_to self.now number }
        ensures valid { IsHeadValue self.now }
    {
        if self.taken.len() < self.replicas {
            let is_lacking = self.has_unit_to(0, number);
            return is_lacking.then_some(Next::OpenFirst(self.taken.len()));
        }
        let replica = self.lagging()?;
        let is_lacking = self.has_unit_to(self.units_of(replica), number);
        is_lacking.then_some(Next::Extend(replica))
    }

    /// Returns true if there is a unit at this place, and its record has at most this number.
    fn has_unit_to(&self, place: usize, number: u64) -> bool
        ensures { result ≡ is_up_to number (record_at self.now.units place) }
    {
        match self.units.get(place) {
            None => false,
            Some(unit) => unit.number <= number,
        }
    }

    /// Returns the op that a push hands to the backup.
    pub fn op(&self, master: u64, next: Next) -> Op<'_>
        requires { HasOp self.now next }
        ensures { shown_op result ≡ op_of master self.entry.now next }
    {
        match next {
            Next::OpenFirst(_) => Op {
                master,
                segment: self.id,
                act: Act::Open(self.opening()),
            },
            Next::Extend(replica) => {
                let (at, bytes) = self.behind(self.units_of(replica));
                Op {
                    master,
                    segment: self.id,
                    act: Act::Extend { at, bytes },
                }
            }
            Next::OpenWhole(_) => Op {
                master,
                segment: self.id,
                act: Act::Open(self.image.bytes()),
            },
            Next::OpenNew(_) => match &self.roll {
                Some(roll) => Op {
                    master,
                    segment: roll.id,
                    act: Act::Open(roll.image.bytes()),
                },
                None => unreachable!(),
            },
            Next::CloseOld(_) => Op {
                master,
                segment: self.id,
                act: Act::Close,
            },
        }
    }

    /// Returns a copy of the ids of the digest in force.
    pub fn digest(&self, alloc: Global) -> Result<Vec<u64>, NoMemory>
        ensures { IfOk result (λ ids. ids.items ≡ digest_of self.now.image) }
    {
        let leaving = Leaving {
            victims: &[],
            survivors: &[],
        };
        next_ids(alloc, &self.image, leaving)
    }

    /// Begins a roll to the head with this id. The new digest lists the ids of the digest in force without the victims
    /// and with the survivors, and then the new id. If the digest in force lists lengths, the new digest does so too:
    /// it lists this head with the length of its image, and the new head with the length of its opening. An ordinary
    /// roll has no victims and no survivors. A refusal changes nothing.
    pub fn begin_roll(
        &mut self,
        alloc: Global,
        master: u64,
        id: u64,
        safe: SafeVersion,
        leaving: Leaving<'_>,
        memory: RollMemory,
    ) -> Result<(), NoMemory>
        requires open { is_open self.old ≡ true }
        requires some { 0 < self.old.replicas }
        requires rise { IsStrictlyIncreasing (others_after self.old.image leaving ++ id ∷ []) }
        requires count { length (others_after self.old.image leaving) < 262144 }
        requires survivors { AreLengths leaving.survivors.now }
        ensures begun { let survivors = leaving.entry.survivors.now in
            let start = start_after self.old leaving.entry.victims.now survivors id safe in
            OnOk result (self.new ≡ with_roll self.old master start) }
        ensures valid { OnOk result (IsHeadValue self.new) }
        ensures err { OnErr result (self.new ≡ self.old) }
    {
        let RollMemory { spare, room, kept } = memory;
        let roll = self.next_roll(alloc, master, id, safe, leaving, spare, room, 0)?;
        self.set_roll(roll, kept);
        Ok(())
    }

    /// Makes the roll that `begin_roll` would begin, for `set_roll`, with `closed` replicas of the old head closed
    /// already. The new image lies in the spare memory, if some is given, and has memory for `room` bytes. The head
    /// doesn't change.
    pub fn next_roll(
        &self,
        alloc: Global,
        master: u64,
        id: u64,
        safe: SafeVersion,
        leaving: Leaving<'_>,
        spare: Option<Vec<u8>>,
        room: usize,
        closed: usize,
    ) -> Result<Roll, NoMemory>
        requires opened { length self.now.taken ≡ self.now.replicas }
        requires closed { closed < self.now.replicas }
        requires rise { IsStrictlyIncreasing (others_after self.now.image leaving ++ id ∷ []) }
        requires count { length (others_after self.now.image leaving) < 262144 }
        requires survivors { AreLengths leaving.survivors.now }
        ensures roll { let survivors = leaving.entry.survivors.now in
            let start = start_after self.now leaving.entry.victims.now survivors id safe in
            IfOk result (λ roll. roll ≡ record (fresh_roll master start) { closed = closed }) }
        ensures valid { IfOk result (λ roll. IsRollValue self.now.replicas (length self.now.taken) roll) }
    {
        let mut image = next_image(alloc, self.id, &self.image, master, id, safe, leaving)?;
        if let Some(spare) = spare {
            image.move_into(spare);
        }
        image.reserve(room)?;
        Ok(Roll {
            id,
            image,
            opened: 0,
            closed,
        })
    }

    /// Begins this roll. The old image gives back its memory above `kept` bytes, unless that is little.
    pub fn set_roll(&mut self, roll: Roll, kept: usize)
        requires none { self.old.roll ≡ None }
        requires roll { IsRollValue self.old.replicas (length self.old.taken) roll }
        ensures begun { self.new ≡ record self.old { roll = Some roll } }
        ensures valid { IsHeadValue self.new }
    {
        self.image.trim(kept);
        self.roll = Some(roll);
    }

    /// Counts a replica of the new head that was opened.
    pub fn open_new(&mut self)
        requires few { IfSome self.old.roll (λ r. r.opened < self.old.replicas) }
        requires rolling { IsSome self.old.roll }
        ensures opened { IfSome self.old.roll (λ r. self.new ≡ with_new_replica self.old r) }
        ensures valid { IsHeadValue self.new }
    {
        if let Some(roll) = &mut self.roll {
            roll.opened += 1;
        }
    }

    /// Counts a replica of the old head that was closed. The last one puts the new head in force. The call then
    /// returns the old image.
    pub fn close_old(&mut self) -> Option<Segment>
        requires open { IfSome self.old.roll (λ r. r.opened ≡ self.old.replicas) }
        requires rolling { IsSome self.old.roll }
        ensures closed { IfSome self.old.roll (λ r. self.new ≡ with_closed_replica self.old r) }
        ensures old { IfSome self.old.roll (λ r. result ≡ old_image self.old r) }
        ensures valid { IsHeadValue self.new }
    {
        let Some(mut roll) = self.roll.take() else {
            unreachable!();
        };
        if roll.closed + 1 < self.replicas {
            roll.closed += 1;
            self.roll = Some(roll);
            return None;
        }
        let Roll { id, image, .. } = roll;
        self.id = id;
        self.base = image.bytes().len();
        self.units.clear();
        self.taken.fill(0);
        Some(replace(&mut self.image, image))
    }
}

/// Makes the image of the next head, which has this id and follows the head `old`: its opening.
fn next_image(
    alloc: Global,
    old: u64,
    image: &Segment,
    master: u64,
    id: u64,
    safe: SafeVersion,
    leaving: Leaving<'_>,
) -> Result<Segment, NoMemory>
    requires rise { IsStrictlyIncreasing (others_after image.now leaving ++ id ∷ []) }
    requires count { length (others_after image.now leaving) < 262144 }
    requires segment { IsSegment image.now }
    requires limit { length (text_of image.now) ≤ 8388608 }
    requires survivors { AreLengths leaving.survivors.now }
    ensures { let others = others_after image.now leaving.entry in
        let lens = lens_after old image.now leaving.entry.survivors.now others in
        IfOk result (λ next. next
        ≡ start_entries master (record { id = id; others = others; lens = lens; safe = safe })) }
{
    let digest = next_digest(alloc, old, image, id, leaving)?;
    Segment::begin_head(alloc, master, id, digest, safe)
}
