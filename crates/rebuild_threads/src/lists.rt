//! The lists that workers end with, in the order of their partitions.

ghost use Rattle.std.specs.Prelude.{◌≡◌, length, IfOk, IfErr, OnOk};
ghost use Rattle.entry.specs.Meaning.{IsClean, among};
ghost use Rattle.tablet_will.specs.Parts.{partitions_of, AreParts};
ghost use Rattle.division.specs.Division.{AreCovered};
ghost use Rattle.claims.specs.Bags.{segments_bag};
ghost use Rattle.claims.specs.Rebuilt.{IsRebuilt};
ghost use Rattle.partitions.specs.Setbacks.{IsSetback};

use claims::Rebuilt;
use entry::SafeVersion;
use partitions::{Division, Joined, PartList, Setback};
use std::alloc::Global;

/// An empty place for the list of each partition.
pub fn empty_places<D: Division>(
    alloc: Global,
    partitions: u32,
) -> Result<Vec<Option<PartList<D>>>, Setback>
    ensures long { IfOk result (λ places. length places.items ≡ partitions) }
    ensures setback { IfErr result (λ s. s ≡ Setback.NoMemory) }
{
    let mut places = Vec::with_capacity(alloc, partitions as usize)?;
    for _ in 0..partitions {
        places.push(None)?;
    }
    Ok(places)
}

/// Puts each list at the place of its partition.
pub fn place_all<D: Division>(places: &mut Vec<Option<PartList<D>>>, lists: Vec<PartList<D>>)
    ensures { length places.new.items ≡ length places.old.items }
{
    for list in lists {
        let n = list.partition() as usize;
        if n < places.len() {
            places[n] = Some(list);
        }
    }
}

/// Joins the lists of all partitions. The setback is NotWhole if a list is missing.
pub fn join_all<D: Division>(
    alloc: Global,
    places: &mut [Option<PartList<D>>],
    recorded: SafeVersion,
) -> Result<Rebuilt, Setback>
    requires recorded { recorded ≡ D.safe }
    requires long { length places.old ≡ partitions_of D.parts }
    requires parts { AreParts D.parts }
    requires covered { AreCovered D.parts (segments_bag D.segments) }
    ensures ok { IfOk result (IsRebuilt D.segments D.safe) }
    ensures clean { OnOk result (IsClean (among (segments_bag D.segments))) }
    ensures setback { IfErr result (IsSetback D.parts D.segments) }
{
    let mut joined = Joined::new(alloc, recorded);
    for n in 0..places.len() {
        match places[n].take() {
            Some(list) => joined.add(list)?,
            None => return Err(Setback::NotWhole),
        }
    }
    Ok(joined.finish())
}
