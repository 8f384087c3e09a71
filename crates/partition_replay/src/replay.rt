//! Replays a partition of a log group by group.

ghost use Rattle.std.specs.Prelude.{◌≡◌, ◌≢◌, ◌==◌, ℕ, map, [], IfOk, IfErr, OnOk, OnErr, IsErr};
ghost use Rattle.std.specs.List.{list_any};
ghost use Rattle.division.specs.Groups.{grouped};
ghost use Rattle.division.specs.declared.group.Group.{Group as GroupValue};
ghost use Rattle.partition_replay.specs.Replaying.{IsReplayed, IsTakeFault, IsFinishFault, Takes, taken, IsLowest};
ghost use Rattle.partition_replay.specs.Replaying.{lower_of, IsPlaced, IsMisplaced};

use crate::keeping::{drop_dead, gather, kept_claims, put};
use crate::kept::Keeping;
use claims::{Objects, ReplayFault, safe_above, winners};
use division::Group;
use entry::SafeVersion;
use std::alloc::{AllocError, Global};
use std::marker::Model;

/// What the groups of a partition stand for.
#[derive(Drop)]
pub struct Replayed {
    /// The objects, sorted by table and then by the bytes of the key. Each key is there once.
    pub objects: Objects,
    /// The greatest version of an object or a tombstone, or 0.
    pub greatest: u64,
}

/// A replay of one partition. It takes the partition's group of each segment, in any order. A contract sees which
/// groups it is to take, and which it took.
#[derive(Drop)]
pub struct Replay<'a> {
    alloc: Global,
    partition: u32,
    ids: Vec<u64>,
    groups: Vec<Group<'a>>,
    // The claim of greatest rank of each key in the groups.
    kept: Keeping<'a>,
}

impl<'a> Model for Replay<'a> {
    ghost use Rattle.std.specs.Prelude.{map};
    ghost use Rattle.division.specs.Groups.{grouped, bag_of};
    ghost use Rattle.claims.specs.Claims.{claims_of};
    ghost use Rattle.partition_replay.specs.Keeping.{AreTops, kept_at};
    ghost use Rattle.partition_replay.specs.Replaying.{Replaying};

    ghost Value = { Replaying };

    ghost view = { λ r. record {
      partition = r.partition;
      ids = r.ids.items;
      groups = map grouped r.groups.items;
    } };

    ghost invariant = { λ r.
        AreTops (claims_of (bag_of (map grouped r.groups.items))) (kept_at r.kept.entries) };
}

/// Whether one of the groups is of this segment.
fn has_group(groups: &[Group<'_>], segment: u64) -> bool
    ensures { result ≡ list_any (λ (g : GroupValue). g.segment == segment) groups.now }
{
    groups.iter().any(|group| group.segment == segment)
}

/// Whether the segment is one of these.
fn has_id(ids: &[u64], segment: u64) -> bool
    ensures { result ≡ list_any (λ (id : ℕ). id == segment) ids.now }
{
    ids.iter().any(|id| *id == segment)
}

/// A copy of the ids. Without ids it takes no memory.
fn copied(alloc: Global, ids: &[u64]) -> Result<Vec<u64>, AllocError>
    ensures ok { IfOk result (λ copy. copy.items ≡ ids.now) }
    ensures err { IsErr result → ids.now ≢ [] }
{
    if ids.is_empty() {
        return Ok(Vec::new(alloc));
    }
    Vec::from_slice(alloc, ids)
}

/// The lower of the two ids, or `id` if `lowest` is None.
fn lower(lowest: Option<u64>, id: u64) -> u64
    ensures { result ≡ lower_of lowest id }
{
    match lowest {
        Some(low) if low <= id => low,
        _ => id,
    }
}

/// The lowest of the segments that have no group.
fn lowest_missing(ids: &[u64], groups: &[Group<'_>]) -> Option<u64>
    ensures { IsLowest ids.now (map grouped groups.now) result }
{
    let mut lowest = None;
    for id in ids {
        if !has_group(groups, *id) {
            lowest = Some(lower(lowest, *id));
        }
    }
    lowest
}

impl<'a> Replay<'a> {
    /// A replay of a partition of these segments, before the first group. Without segments it takes no memory.
    pub fn new(alloc: Global, partition: u32, ids: &[u64]) -> Result<Replay<'a>, ReplayFault>
        ensures ok { IfOk result (λ replay.
            replay ≡ record { partition = partition; ids = ids.now; groups = [] }) }
        ensures err { IfErr result (λ fault. (fault ≡ ReplayFault.NoMemory) × (ids.now ≢ [])) }
    {
        Ok(Replay {
            alloc,
            partition,
            ids: copied(alloc, ids)?,
            groups: Vec::new(alloc),
            kept: Keeping::new(alloc),
        })
    }

    // Whether a group of this segment and partition may come next.
    fn check_place(&self, segment: u64, partition: u32) -> Result<(), ReplayFault>
        ensures ok { OnOk result (IsPlaced self.now segment partition) }
        ensures err { IfErr result (IsMisplaced self.now segment partition) }
    {
        if partition != self.partition {
            return Err(ReplayFault::Stranger);
        }
        if !has_id(self.ids.as_slice(), segment) {
            return Err(ReplayFault::Stranger);
        }
        if has_group(self.groups.as_slice(), segment) {
            return Err(ReplayFault::Double(segment));
        }
        Ok(())
    }

    /// Takes a group. It is refused as a Stranger if it is of another partition, or of no segment that is replayed; as
    /// a Double if its segment has a group already; and for a Clash if one of its objects has, as it comes, the
    /// version of the object that is kept of its key, and another value. The tests are made in this order, and memory
    /// is asked for after the first two. A group that is refused changes nothing.
    ///
    /// What is kept of a key is its object or tombstone of greatest rank so far: of the groups before, and of the
    /// entries of this group that came before. So two objects that clash pass if a later version of their key came
    /// before the second of them. A log for which `rebuild_plain` answers Ok has no two such objects.
    ///
    /// For a group of n entries it takes n steps, if the hashes of their keys are spread, and memory for n of them,
    /// which it gives back. What is kept takes 64 bytes for each key that came, and up to twice that while it grows,
    /// beside a table of hashes.
    pub fn take(&mut self, group: Group<'a>) -> Result<(), ReplayFault>
        ensures ok { OnOk result (self.new ≡ taken self.old (grouped group.entry)) }
        ensures sound { OnOk result (Takes self.old (grouped group.entry)) }
        ensures err { OnErr result (self.new ≡ self.old) }
        ensures fault { IfErr result (IsTakeFault self.old (grouped group.entry)) }
    {
        self.check_place(group.segment, group.partition)?;
        let fresh = gather(self.alloc, &self.kept, &group.entries)?;
        self.kept.reserve(fresh.len())?;
        self.groups.reserve(1)?;
        put(&mut self.kept, fresh);
        self.groups.push_reserved(group);
        Ok(())
    }

    /// What the groups stand for, in memory of its own, once each segment has a group. MissingGroup names the lowest
    /// segment without one.
    pub fn finish(self) -> Result<Replayed, ReplayFault>
        ensures ok { IfOk result (IsReplayed self.entry) }
        ensures fault { IfErr result (IsFinishFault self.entry) }
    {
        self.outcome()
    }

    fn outcome(&self) -> Result<Replayed, ReplayFault>
        ensures ok { IfOk result (IsReplayed self.now) }
        ensures fault { IfErr result (IsFinishFault self.now) }
    {
        if let Some(id) = lowest_missing(self.ids.as_slice(), self.groups.as_slice()) {
            return Err(ReplayFault::MissingGroup(id));
        }
        let mut claims = kept_claims(self.alloc, &self.kept)?;
        let greatest = safe_above(SafeVersion::first(), claims.as_slice()).get() - 1;
        drop_dead(&mut claims);
        claims.sort_unstable();
        let objects = winners(self.alloc, claims.as_slice())?;
        Ok(Replayed { objects, greatest })
    }
}
