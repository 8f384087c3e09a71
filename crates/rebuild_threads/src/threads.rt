//! Workers, each in a thread of its own, and what they are sent.

ghost use Rattle.std.specs.Prelude.{◌≡◌, ◌≤◌, ◌<◌, ℕ, length, IfOk, IfErr, OnOk};
ghost use Rattle.entry.specs.Meaning.{IsClean, among};
ghost use Rattle.division.specs.Division.{AreCovered};
ghost use Rattle.claims.specs.Bags.{segments_bag};
ghost use Rattle.claims.specs.Rebuilt.{IsRebuilt};
ghost use Rattle.rebuilding.specs.Rebuilds.{AreApart, IsRebuildFault, CanBeRebuilt, NamesEach, count_of, ids_of};
ghost use Rattle.rebuilding.specs.Turns.{replayed};
ghost use Rattle.partitions.specs.Setbacks.{IsSetback};
ghost use Rattle.rebuild_threads.specs.Divided.{IsDivideSetback};
ghost use Rattle.tablet_will.specs.Parts.{partitions_of};

use crate::divider::Divider;
use crate::lists::{empty_places, join_all, place_all};
use crate::worker::{Work, run};
use claims::{Rebuilt, ReplayFault};
use crossbeam_channel::{Sender, bounded};
use entry::SafeVersion;
use gate::Gate;
use partitions::{Division, Parcel, PartList, Setback};
use rebuilding::{check_order, rebuild};
use recovery_plan::Plan;
use std::alloc::Global;
use std::marker::{Brand, PhantomData};
use std::sync::Wait;
use std::thread;
use std::thread::{Promise, PromisedHandle, Threads};
use tablet_will::Will;

/// How many groups may wait for a worker.
const PLACES: usize = 4;

/// What a worker promises: if it ends with a Clash, the log has one.
#[derive(Drop)]
struct Honest<D: Division> {
    of: PhantomData<D>,
}

impl<D: Division> Honest<D> {
    fn new() -> Honest<D> {
        Honest { of: PhantomData }
    }
}

impl<D: Division> Promise<Result<Vec<PartList<D>>, Setback>> for Honest<D> {
    ghost use Rattle.std.specs.Prelude.{IfErr};
    ghost use Rattle.partitions.specs.Setbacks.{IsSetback};

    ghost kept_by = { λ p r. IfErr r (IsSetback D.parts D.segments) };
}

/// Divides the log, and sends its groups in this order, each to the worker of its partition. A group whose worker has
/// ended is dropped. With Ok each segment was divided, since the order names each group.
fn send_all<'a, D: Division, R: Wait>(
    rt: &R,
    alloc: Global,
    divider: &mut Divider<'_, 'a, D>,
    order: &[usize],
    ends: &[Sender<Parcel<'a, D>>],
) -> Result<(), Setback>
    requires ends { 0 < length ends.now }
    requires parts { 0 < partitions_of D.parts }
    requires order { NamesEach (count_of D.segments D.parts) order.now }
    ensures covered { OnOk result (AreCovered D.parts (segments_bag D.segments)) }
    ensures setback { IfErr result (IsDivideSetback D.parts D.segments) }
{
    for n in order {
        if let Some(parcel) = divider.take(alloc, *n)? {
            let to = parcel.partition() as usize % ends.len();
            let _ = ends[to].send(rt, parcel);
        }
    }
    Ok(())
}

/// Waits for the workers, and puts each list that they end with at the place of its partition.
fn lists_from<D: Division, R: Threads>(
    rt: &R,
    alloc: Global,
    workers: Vec<PromisedHandle<Result<Vec<PartList<D>>, Setback>, Honest<D>>>,
    partitions: u32,
) -> Result<Vec<Option<PartList<D>>>, Setback>
    ensures long { IfOk result (λ places. length places.items ≡ partitions) }
    ensures setback { IfErr result (IsSetback D.parts D.segments) }
{
    let mut places = empty_places(alloc, partitions)?;
    for worker in workers {
        let lists = worker.join(rt)?;
        place_all(&mut places, lists);
    }
    Ok(places)
}

/// Starts the workers, sends them all groups, and waits for them. The answer has a place for each partition's list.
fn lists_of<'a, D: Division + Send + Sync + 'static, R: Threads + Wait + Sync, G: Gate + Sync>(
    rt: &R,
    alloc: Global,
    divider: &mut Divider<'_, 'a, D>,
    order: &[usize],
    recorded: SafeVersion,
    work: Work,
    gate: &G,
) -> Result<Vec<Option<PartList<D>>>, Setback>
    requires workers { 0 < work.workers }
    requires segments { work.segments ≡ length D.segments }
    requires recorded { recorded ≡ D.safe }
    requires parts { 0 < partitions_of D.parts }
    requires order { NamesEach (count_of D.segments D.parts) order.now }
    ensures long { IfOk result (λ places. length places.items ≡ work.partitions) }
    ensures covered { OnOk result (AreCovered D.parts (segments_bag D.segments)) }
    ensures setback { IfErr result (IsSetback D.parts D.segments) }
{
    thread::scope(
        thread::scope_env(),
        rt,
        |scope| -> Result<Vec<Option<PartList<D>>>, Setback>
            requires workers { 0 < work.workers }
            requires segments { work.segments ≡ length D.segments }
            requires recorded { recorded ≡ D.safe }
            requires parts { 0 < partitions_of D.parts }
            requires order { NamesEach (count_of D.segments D.parts) order.now }
            ensures long { IfOk result (λ places. length places.items ≡ work.partitions) }
            ensures covered { OnOk result (AreCovered D.parts (segments_bag D.segments)) }
            ensures setback { IfErr result (IsSetback D.parts D.segments) }
        {
            let partitions = work.partitions;
            let mut ends = Vec::new(alloc);
            let mut handles = Vec::new(alloc);
            for worker in 0..work.workers {
                let (to, from) = bounded(alloc, PLACES)?;
                ends.push(to)?;
                let job = move || -> Result<Vec<PartList<D>>, Setback>
                    requires segments { work.segments ≡ length D.segments }
                    requires recorded { recorded ≡ D.safe }
                    ensures { IfErr result (IsSetback D.parts D.segments) }
                { run(rt, alloc, from, recorded, work, worker, gate) };
                match scope.spawn_with(Honest::<D>::new(), job) {
                    Ok(handle) => handles.push(handle)?,
                    Err(_) => return Err(Setback::NotWhole),
                }
            }
            send_all(rt, alloc, divider, order, ends.as_slice())?;
            drop(ends);
            lists_from(rt, alloc, handles, partitions)
        },
    )
}

/// What the log of the division stands for, rebuilt by workers. `count` is the number of the log's groups.
fn by_workers<'a, D: Division + Send + Sync + 'static, R: Threads + Wait + Sync, G: Gate + Sync>(
    rt: &R,
    alloc: Global,
    plan: &'a Plan<'_>,
    will: &'a Will,
    count: usize,
    order: &[usize],
    workers: usize,
    gate: &G,
) -> Result<Rebuilt, Setback>
    requires workers { 0 < workers }
    requires segments { D.segments ≡ plan.now.segments }
    requires parts { D.parts ≡ will.now }
    requires safe { D.safe ≡ plan.now.safe }
    requires order { NamesEach (count_of plan.now.segments will.now) order.now }
    ensures ok { IfOk result (IsRebuilt plan.entry.now.segments plan.entry.now.safe) }
    ensures turns { IfOk result (IsRebuilt
        (replayed plan.entry.now.segments will.entry.now order.now) plan.entry.now.safe) }
    ensures clean { OnOk result (IsClean (among (segments_bag plan.entry.now.segments))) }
    ensures covered { OnOk result (AreCovered will.entry.now (segments_bag plan.entry.now.segments)) }
    ensures setback { IfErr result (IsSetback will.entry.now plan.entry.now.segments) }
{
    let segments = plan.segments.as_slice();
    let recorded = plan.safe;
    let work = Work {
        workers,
        partitions: will.partitions(),
        segments: segments.len(),
    };
    let mut divider = Divider::<D>::new(alloc, segments, will, count)?;
    let mut places = lists_of(rt, alloc, &mut divider, order, recorded, work, gate)?;
    join_all(alloc, places.as_mut_slice(), recorded)
}

/// What the plan's log stands for, rebuilt by workers. The type D is the brand of this division.
fn rebuild_on<'a, D: Division + Send + Sync + 'static, R: Threads + Wait + Sync, G: Gate + Sync>(
    rt: &R,
    alloc: Global,
    plan: &'a Plan<'_>,
    will: &'a Will,
    order: &[usize],
    workers: usize,
    gate: &G,
) -> Result<Rebuilt, ReplayFault>
    requires workers { (1 ≤ workers) × (workers ≤ 64) }
    requires segments { D.segments ≡ plan.now.segments }
    requires parts { D.parts ≡ will.now }
    requires safe { D.safe ≡ plan.now.safe }
    ensures ok { IfOk result (IsRebuilt plan.entry.now.segments plan.entry.now.safe) }
    ensures turns { IfOk result (IsRebuilt
        (replayed plan.entry.now.segments will.entry.now order.now) plan.entry.now.safe) }
    ensures clean { OnOk result (IsClean (among (segments_bag plan.entry.now.segments))) }
    ensures covered { OnOk result (AreCovered will.entry.now (segments_bag plan.entry.now.segments)) }
    ensures order { OnOk result (NamesEach (count_of plan.entry.now.segments will.entry.now) order.now) }
    ensures ids { OnOk result (AreApart (ids_of plan.entry.now.segments)) }
    ensures fault { IfErr result (IsRebuildFault plan.entry.now.segments will.entry.now order.now) }
    ensures whole { IfErr result (λ fault.
        CanBeRebuilt plan.entry.now.segments will.entry.now order.now → fault ≡ ReplayFault.NoMemory) }
{
    let count = check_order(alloc, plan.segments.as_slice(), will, order)?;
    match by_workers::<D, R, G>(rt, alloc, plan, will, count, order, workers, gate) {
        Ok(rebuilt) => Ok(rebuilt),
        Err(Setback::NoMemory) => Err(ReplayFault::NoMemory),
        Err(Setback::Clash) => Err(ReplayFault::Clash),
        Err(Setback::Stray) => rebuild(alloc, plan, will, order),
        Err(Setback::NotWhole) => rebuild(alloc, plan, will, order),
    }
}

/// Rebuilds the objects that the plan's segments mean, with 1 to 64 workers, each in a thread of its own. The calling
/// thread divides the segments by the will, and sends the groups in this order. Partition p goes to worker p %
/// workers, and at most four groups wait for a worker. The gate is told when each worker begins and ends. A worker
/// without a partition begins and ends, too.
///
/// With Ok the result is that of `rebuild`, and the call is refused for the same reasons. Order and ids are tested
/// before a worker is started. If a key has no partition, if a worker can't be started, or if some group doesn't come
/// to its worker exactly once, the calling thread answers by `rebuild`.
///
/// The calling thread takes about n + s p steps for n entries in s segments and p partitions, and each worker n log n
/// for its own n entries.
pub fn rebuild_threads<R: Threads + Wait + Sync, G: Gate + Sync>(
    rt: &R,
    alloc: Global,
    plan: &Plan<'_>,
    will: &Will,
    order: &[usize],
    workers: usize,
    gate: &G,
) -> Result<Rebuilt, ReplayFault>
    requires workers { (1 ≤ workers) × (workers ≤ 64) }
    ensures ok { IfOk result (IsRebuilt plan.now.segments plan.now.safe) }
    ensures turns { IfOk result (IsRebuilt (replayed plan.now.segments will.now order.now) plan.now.safe) }
    ensures clean { OnOk result (IsClean (among (segments_bag plan.now.segments))) }
    ensures covered { OnOk result (AreCovered will.now (segments_bag plan.now.segments)) }
    ensures order { OnOk result (NamesEach (count_of plan.now.segments will.now) order.now) }
    ensures ids { OnOk result (AreApart (ids_of plan.now.segments)) }
    ensures fault { IfErr result (IsRebuildFault plan.now.segments will.now order.now) }
    ensures whole { IfErr result (λ fault.
        CanBeRebuilt plan.now.segments will.now order.now → fault ≡ ReplayFault.NoMemory) }
{
    rebuild_on::<Brand, R, G>(rt, alloc, plan, will, order, workers, gate)
}
