//! Joins the lists of the partitions to that of the log.

ghost use Rattle.std.specs.Prelude.{◌≡◌, ◌++◌, ◌+◌, max, IfOk, IfErr, OnOk, OnErr, IsTrue};
ghost use Rattle.entry.specs.Meaning.{IsClean, among};
ghost use Rattle.tablet_will.specs.Parts.{partitions_of, AreParts};
ghost use Rattle.division.specs.Division.{AreCovered};
ghost use Rattle.claims.specs.Bags.{segments_bag};
ghost use Rattle.claims.specs.Listed.{AreOrdered};
ghost use Rattle.partitions.specs.Parted.{IsListed, bag_in};
ghost use Rattle.claims.specs.Rebuilt.{IsRebuilt};
ghost use Rattle.partitions.specs.Setbacks.{IsOutside};

use crate::parcel::Division;
use crate::setback::Setback;
use claims::{Objects, Rebuilt};
use entry::SafeVersion;
use object_list::ObjectList;
use std::alloc::Global;
use std::cmp::Ordering;
use std::marker::{Model, PhantomData};

/// What one partition of a division stands for. A contract sees the partition's number.
#[derive(Drop)]
pub struct PartList<D: Division> {
    partition: u32,
    objects: Objects,
    safe: SafeVersion,
    of: PhantomData<D>,
}

impl<D: Division> Model for PartList<D> {
    ghost use Rattle.std.specs.Prelude.{ℕ};
    ghost use Rattle.partitions.specs.Parted.{IsListed, bag_in};

    ghost Value = { ℕ };

    ghost view = { λ l. l.partition };

    ghost invariant = { λ l. IsListed (bag_in D.parts l.partition D.segments) D.safe l.objects l.safe };
}

impl<D: Division> PartList<D> {
    /// The list of this partition: its objects, and a safe version for what follows them.
    pub fn new(partition: u32, objects: Objects, safe: SafeVersion) -> PartList<D>
        requires { IsListed (bag_in D.parts partition D.segments) D.safe objects safe }
        ensures { result ≡ partition }
    {
        PartList {
            partition,
            objects,
            safe,
            of: PhantomData,
        }
    }

    /// The number of the partition.
    pub fn partition(&self) -> u32
        ensures { result ≡ self.now }
    {
        self.partition
    }
}

/// The lists of the first partitions, one behind the other. Each list stays as it is, so nothing is copied. A contract
/// sees how many partitions are joined.
#[derive(Drop)]
pub struct Joined<D: Division> {
    count: u32,
    objects: Objects,
    safe: SafeVersion,
    of: PhantomData<D>,
}

impl<D: Division> Model for Joined<D> {
    ghost use Rattle.std.specs.Prelude.{ℕ};
    ghost use Rattle.partitions.specs.Parted.{AreJoined};

    ghost Value = { ℕ };

    ghost view = { λ j. j.count };

    ghost invariant = { λ j. AreJoined D.parts D.segments D.safe j.count j.objects j.safe };
}

/// Whether all keys of the later list come behind those of the first one.
fn follows(objects: &Objects, later: &Objects) -> bool
    requires objects { AreOrdered objects.now }
    requires later { AreOrdered later.now }
    ensures { IsTrue result → AreOrdered (objects.now ++ later.now) }
{
    let Some(last) = objects.last() else {
        return true;
    };
    let Some(first) = later.first() else {
        return true;
    };
    matches!(last.key.cmp(&first.key), Ordering::Less)
}

/// The greater of the two.
fn greater(one: SafeVersion, other: SafeVersion) -> SafeVersion
    ensures { result ≡ max one other }
{
    if one < other { other } else { one }
}

impl<D: Division> Joined<D> {
    /// A join without a list yet. `recorded` is the safe version that the log records. It takes no memory.
    pub fn new(alloc: Global, recorded: SafeVersion) -> Joined<D>
        requires { recorded ≡ D.safe }
        ensures { result ≡ 0 }
    {
        Joined {
            count: 0,
            objects: Objects::new(alloc, ObjectList::new(alloc)),
            safe: recorded,
            of: PhantomData,
        }
    }

    /// Appends the list of the next partition. The setback is NotWhole if the list is another partition's, or if its
    /// keys don't come behind those before. If the list is refused, nothing changes.
    pub fn add(&mut self, list: PartList<D>) -> Result<(), Setback>
        ensures ok { OnOk result (self.new ≡ self.old + 1) }
        ensures err { OnErr result (self.new ≡ self.old) }
        ensures setback { IfErr result IsOutside }
    {
        if list.partition != self.count || self.count == u32::MAX {
            return Err(Setback::NotWhole);
        }
        if !follows(&self.objects, &list.objects) {
            return Err(Setback::NotWhole);
        }
        let PartList {
            partition: _,
            objects,
            safe,
            of: _,
        } = list;
        self.objects.append(objects)?;
        self.safe = greater(self.safe, safe);
        self.count += 1;
        Ok(())
    }

    /// What the log stands for, once the lists of all partitions are joined.
    pub fn finish(self) -> Rebuilt
        requires whole { self ≡ partitions_of D.parts }
        requires parts { AreParts D.parts }
        requires covered { AreCovered D.parts (segments_bag D.segments) }
        ensures ok { IsRebuilt D.segments D.safe result }
        ensures clean { IsClean (among (segments_bag D.segments)) }
    {
        Rebuilt {
            objects: self.objects,
            safe: self.safe,
        }
    }
}
