//! What a worker gathers of one partition.

ghost use Rattle.std.specs.Prelude.{◌≡◌, ◌++◌, map, length, Bool, true, false, IfOk, IfErr, OnOk, OnErr, All};
ghost use Rattle.std.specs.List.{list_all};
ghost use Rattle.entry.specs.Format.{IsObject};
ghost use Rattle.claims.specs.Claims.{claimed, claims_of, has_clash, objects_in, tops};
ghost use Rattle.partitions.specs.Parted.{entries_in};
ghost use Rattle.partitions.specs.Setbacks.{IsOutside, IsSetback};

use crate::listing::PartList;
use crate::parcel::{Division, Parcel};
use crate::setback::Setback;
use claims::{Claim, Objects, ReplayFault, add_claims, safe_above, winners};
use entry::{NoMemory, SafeVersion};
use std::alloc::{AllocError, Global};
use std::marker::{Model, PhantomData};

/// What came of one partition so far: a mark for each segment whose group came, and the groups that are not empty. The
/// groups are read only once all are there. So the claims of the partition take memory once, and just what they need.
/// A contract sees the number of the partition.
#[derive(Drop)]
pub struct Share<'a, D: Division> {
    partition: u32,
    marks: Vec<bool>,
    parcels: Vec<Parcel<'a, D>>,
}

impl<'a, D: Division> Model for Share<'a, D> {
    ghost use Rattle.std.specs.Prelude.{ℕ};
    ghost use Rattle.claims.specs.Claims.{claims_of};
    ghost use Rattle.partitions.specs.Parted.{AreGathered, entries_in};

    ghost Value = { ℕ };

    ghost view = { λ s. s.partition };

    ghost invariant = { λ s.
        AreGathered D.parts D.segments s.partition s.marks.items (claims_of (entries_in s.parcels.items)) };
}

/// Whether all marks are set.
fn are_whole(marks: &[bool]) -> bool
    ensures test { result ≡ list_all (λ (mark : Bool). mark) marks.now }
    ensures each { result ≡ true → All (λ mark. mark ≡ true) marks.now }
{
    marks.iter().all(|mark| *mark)
}

/// Keeps a parcel, unless it is empty. If memory runs out, nothing changes.
fn keep<'a, D: Division>(
    parcels: &mut Vec<Parcel<'a, D>>,
    parcel: Parcel<'a, D>,
) -> Result<(), AllocError>
    ensures ok { OnOk result (entries_in parcels.new.items ≡ entries_in parcels.old.items ++ parcel.entry.entries) }
    ensures err { OnErr result (parcels.new.items ≡ parcels.old.items) }
{
    if parcel.is_empty() {
        return Ok(());
    }
    parcels.reserve(1)?;
    parcels.push_reserved(parcel);
    Ok(())
}

/// How many entries the parcels have in all, to reserve memory for their claims.
fn count_entries<'a, D: Division>(parcels: &[Parcel<'a, D>]) -> usize {
    let mut count: usize = 0;
    for parcel in parcels {
        count = count.saturating_add(parcel.len());
    }
    count
}

/// The claims of the parcels' entries, in their order.
fn claims_in<'a, D: Division>(
    alloc: Global,
    parcels: &[Parcel<'a, D>],
) -> Result<Vec<Claim<'a>>, NoMemory>
    ensures { IfOk result (λ claims. map claimed claims.items ≡ claims_of (entries_in parcels.now)) }
{
    let mut claims = Vec::with_capacity(alloc, count_entries(parcels))?;
    for parcel in parcels {
        add_claims(&mut claims, parcel.entries())?;
    }
    Ok(claims)
}

/// The objects among the last claims of their keys. The claims have to be sorted. The setback is Clash if two
/// neighbours clash.
fn listed(alloc: Global, claims: &[Claim<'_>]) -> Result<Objects, Setback>
    ensures objects { IfOk result (λ objects. objects ≡ objects_in (tops (map claimed claims.now))) }
    ensures valid { IfOk result (λ objects. All IsObject objects) }
    ensures clean { OnOk result (has_clash (map claimed claims.now) ≡ false) }
    ensures setback { IfErr result (λ s. s ≡ Setback.Clash → has_clash (map claimed claims.now) ≡ true) }
    ensures covered { IfErr result (λ s. s ≡ Setback.Stray → ⊥) }
{
    match winners(alloc, claims) {
        Ok(objects) => Ok(objects),
        Err(ReplayFault::NoMemory) => Err(Setback::NoMemory),
        Err(_) => Err(Setback::Clash),
    }
}

impl<'a, D: Division> Share<'a, D> {
    /// A share of this partition, before any group came. The log has `segments` segments.
    pub fn new(alloc: Global, partition: u32, segments: usize) -> Result<Share<'a, D>, NoMemory>
        requires { segments ≡ length D.segments }
        ensures { IfOk result (λ share. share ≡ partition) }
    {
        Ok(Share {
            partition,
            marks: vec![in alloc; false; segments]?,
            parcels: Vec::new(alloc),
        })
    }

    /// Takes a group, in one step, however long it is. The setback is NotWhole if the group is of another partition,
    /// or if a group of its segment came before. If the group is refused, nothing changes.
    pub fn take(&mut self, parcel: Parcel<'a, D>) -> Result<(), Setback>
        ensures same { self.new ≡ self.old }
        ensures setback { IfErr result IsOutside }
    {
        if parcel.partition() != self.partition {
            return Err(Setback::NotWhole);
        }
        let at = parcel.at();
        if at >= self.marks.len() {
            return Err(Setback::NotWhole);
        }
        if self.marks[at] {
            return Err(Setback::NotWhole);
        }
        keep(&mut self.parcels, parcel)?;
        self.marks[at] = true;
        Ok(())
    }

    /// What the partition stands for. The setback is NotWhole if the group of some segment didn't come. For n entries
    /// it takes n log n steps, and memory for their claims, which it gives back at its end.
    pub fn finish(self, alloc: Global, recorded: SafeVersion) -> Result<PartList<D>, Setback>
        requires { recorded ≡ D.safe }
        ensures { IfErr result (IsSetback D.parts D.segments) }
    {
        if !are_whole(self.marks.as_slice()) {
            return Err(Setback::NotWhole);
        }
        let mut claims = claims_in(alloc, self.parcels.as_slice())?;
        let safe = safe_above(recorded, claims.as_slice());
        claims.sort_unstable();
        let objects = listed(alloc, claims.as_slice())?;
        Ok(PartList::new(self.partition, objects, safe))
    }
}
