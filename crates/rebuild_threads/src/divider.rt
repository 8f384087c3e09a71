//! Divides a log segment by segment, as its groups are asked for.

ghost use Rattle.std.specs.Prelude.{◌≡◌, ◌<◌, ◌/◌, map, length, IfErr, OnOk, slice_index_or, [], true, false};
ghost use Rattle.division.specs.Division.{AreCovered, IsDivision};
ghost use Rattle.division.specs.Groups.{grouped};
ghost use Rattle.tablet_will.specs.Parts.{partitions_of};
ghost use Rattle.rebuild_threads.specs.Divided.{IsDivideSetback};

use division::{DivideFault, Group, divide};
use partitions::{Division, Parcel, Setback};
use segment::SegmentRef;
use std::alloc::{AllocError, Global};
use std::marker::{Model, PhantomData};
use tablet_will::Will;

/// Hands out the groups of a log by their numbers: group n is of segment n / partitions and of partition n %
/// partitions. A segment is divided when one of its groups is first asked for. Contracts see which segments are
/// divided.
#[derive(Drop)]
pub struct Divider<'s, 'a, D: Division> {
    segments: &'s [SegmentRef<'a>],
    will: &'s Will,
    partitions: usize,
    divided: Vec<bool>,
    /// The groups of divided segments that were not asked for yet.
    parcels: Vec<Option<Parcel<'a, D>>>,
    of: PhantomData<D>,
}

impl<'s, 'a, D: Division> Model for Divider<'s, 'a, D> {
    ghost use Rattle.std.specs.Prelude.{List, Bool};
    ghost use Rattle.rebuild_threads.specs.Divided.{AreDivided};

    ghost Value = { List Bool };

    ghost view = { λ d. d.divided.items };

    ghost invariant = { λ d.
        AreDivided D.parts D.segments d.segments.now d.will.now d.partitions d.divided.items };
}

/// Puts the groups of the segment at this place where `take` finds them by their numbers.
fn add_parcels<'a, D: Division>(
    parcels: &mut [Option<Parcel<'a, D>>],
    at: usize,
    first: usize,
    groups: Vec<Group<'a>>,
)
    requires below { at < length D.segments }
    requires groups { IsDivision D.parts (slice_index_or D.segments at []) (map grouped groups.items) }
{
    for group in groups {
        let n = first.saturating_add(group.partition as usize);
        if n < parcels.len() {
            parcels[n] = Some(Parcel::new(at, group));
        }
    }
}

/// A list of `count` empty places for groups.
fn empty_places<'a, D: Division>(
    alloc: Global,
    count: usize,
) -> Result<Vec<Option<Parcel<'a, D>>>, AllocError> {
    let mut places = Vec::with_capacity(alloc, count)?;
    for _ in 0..count {
        places.push(None)?;
    }
    Ok(places)
}

impl<'s, 'a, D: Division> Divider<'s, 'a, D> {
    /// A divider of these segments by the will. `count` is the number of all their groups.
    pub fn new(
        alloc: Global,
        segments: &'s [SegmentRef<'a>],
        will: &'s Will,
        count: usize,
    ) -> Result<Divider<'s, 'a, D>, AllocError>
        requires segments { segments.now ≡ D.segments }
        requires parts { will.now ≡ D.parts }
    {
        Ok(Divider {
            segments,
            will,
            partitions: will.partitions() as usize,
            divided: vec![in alloc; false; segments.len()]?,
            parcels: empty_places(alloc, count)?,
            of: PhantomData,
        })
    }

    /// Divides the segment at this place.
    fn divide(&mut self, alloc: Global, at: usize) -> Result<(), Setback>
        requires { at < length self.old }
        ensures ok { OnOk result (slice_index_or self.new at false ≡ true) }
        ensures setback { IfErr result (IsDivideSetback D.parts D.segments) }
    {
        let Some(segment) = self.segments.get(at) else {
            unreachable!();
        };
        let groups = match divide(alloc, segment, self.will) {
            Ok(groups) => groups,
            Err(DivideFault::NoMemory) => return Err(Setback::NoMemory),
            Err(DivideFault::Stray(_)) => return Err(Setback::Stray),
        };
        let first = at.saturating_mul(self.partitions);
        add_parcels(self.parcels.as_mut_slice(), at, first, groups);
        self.divided[at] = true;
        Ok(())
    }

    /// The group with this number, or None if it was taken before or there is none. With Ok each key of the group's
    /// segment has a partition.
    pub fn take(&mut self, alloc: Global, n: usize) -> Result<Option<Parcel<'a, D>>, Setback>
        ensures covered { OnOk result (n / partitions_of D.parts < length D.segments →
            AreCovered D.parts (slice_index_or D.segments (n / partitions_of D.parts) [])) }
        ensures setback { IfErr result (IsDivideSetback D.parts D.segments) }
    {
        let at = n / self.partitions;
        if at >= self.divided.len() {
            return Ok(None);
        }
        if !self.divided[at] {
            self.divide(alloc, at)?;
        }
        if n >= self.parcels.len() {
            return Ok(None);
        }
        Ok(self.parcels[n].take())
    }
}
