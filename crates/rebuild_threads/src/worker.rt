//! A worker: it gathers the groups of its partitions, and ends with their lists.

ghost use Rattle.std.specs.Prelude.{◌≡◌, ◌<◌, ℕ, length, IfOk, IfErr, IfSome, OnOk};
ghost use Rattle.partitions.specs.Setbacks.{IsSetback};

use crossbeam_channel::Receiver;
use entry::SafeVersion;
use gate::Gate;
use partitions::{Division, Parcel, PartList, Setback, Share};
use std::alloc::Global;
use std::sync::Wait;

/// What is the same for all workers.
#[derive(Clone, Copy)]
pub struct Work {
    /// How many workers there are. Partition p belongs to worker p % workers.
    pub workers: usize,
    pub partitions: u32,
    /// How many segments the log has.
    pub segments: usize,
}

/// Adds an empty share for each partition of this worker, in order.
fn add_shares<'a, D: Division>(
    alloc: Global,
    shares: &mut Vec<Share<'a, D>>,
    work: Work,
    worker: usize,
) -> Result<(), Setback>
    requires { work.segments ≡ length D.segments }
    ensures { IfErr result (λ s. s ≡ Setback.NoMemory) }
{
    let segments = work.segments;
    let workers = work.workers.max(1);
    for partition in 0..work.partitions {
        if partition as usize % workers == worker {
            let share = Share::new(alloc, partition, segments)?;
            shares.push(share)?;
        }
    }
    Ok(())
}

/// Hands a parcel to the share of its partition.
fn put<'a, D: Division>(
    shares: &mut [Share<'a, D>],
    parcel: Parcel<'a, D>,
    workers: usize,
) -> Result<(), Setback>
    ensures { IfErr result (IsSetback D.parts D.segments) }
{
    let place = parcel.partition() as usize / workers.max(1);
    if place >= shares.len() {
        return Err(Setback::NotWhole);
    }
    shares[place].take(parcel)
}

/// Finishes each share, and gives the lists of all of them.
fn finish<'a, D: Division>(
    alloc: Global,
    shares: Vec<Share<'a, D>>,
    recorded: SafeVersion,
) -> Result<Vec<PartList<D>>, Setback>
    requires { recorded ≡ D.safe }
    ensures { IfErr result (IsSetback D.parts D.segments) }
{
    let mut lists = Vec::with_capacity(alloc, shares.len())?;
    for share in shares {
        let list = share.finish(alloc, recorded)?;
        lists.push(list)?;
    }
    Ok(lists)
}

/// Gathers groups until none can come any more. After a setback the worker goes on receiving, and drops what comes.
fn replay<'a, D: Division, R: Wait>(
    rt: &R,
    alloc: Global,
    from: Receiver<Parcel<'a, D>>,
    recorded: SafeVersion,
    work: Work,
    worker: usize,
) -> Result<Vec<PartList<D>>, Setback>
    requires segments { work.segments ≡ length D.segments }
    requires recorded { recorded ≡ D.safe }
    ensures { IfErr result (IsSetback D.parts D.segments) }
{
    let workers = work.workers;
    let mut shares = Vec::new(alloc);
    let mut so_far = add_shares(alloc, &mut shares, work, worker);
    for _ in rt.forever() {
        let Ok(parcel) = from.recv(rt) else {
            break;
        };
        if so_far.is_ok() {
            so_far = put(shares.as_mut_slice(), parcel, workers);
        }
    }
    so_far?;
    finish(alloc, shares, recorded)
}

/// Runs a worker from its start to its end. It tells the gate that it begins, gathers its groups, and tells the gate
/// that it ends.
pub fn run<'a, D: Division, R: Wait, G: Gate>(
    rt: &R,
    alloc: Global,
    from: Receiver<Parcel<'a, D>>,
    recorded: SafeVersion,
    work: Work,
    worker: usize,
    gate: &G,
) -> Result<Vec<PartList<D>>, Setback>
    requires segments { work.segments ≡ length D.segments }
    requires recorded { recorded ≡ D.safe }
    ensures { IfErr result (IsSetback D.parts D.segments) }
{
    gate.enter(worker);
    let lists = replay(rt, alloc, from, recorded, work, worker);
    gate.leave(worker);
    lists
}
