//! A log that is rebuilt from its groups, whatever the will and the order in which they come.

ghost use Rattle.std.specs.Prelude.{◌≡◌, ◌++◌, map, length, IfOk, IfErr, OnOk};
ghost use Rattle.entry.specs.Meaning.{IsClean, among};
ghost use Rattle.division.specs.Division.{AreCovered};
ghost use Rattle.division.specs.Groups.{grouped, bag_of};
ghost use Rattle.claims.specs.Bags.{segments_bag};
ghost use Rattle.claims.specs.Claims.{claimed, claims_of};
ghost use Rattle.rebuilding.specs.Rebuilds.{AreApart, IsRebuildFault, CanBeRebuilt, NamesEach, count_of, ids_of};
ghost use Rattle.claims.specs.Rebuilt.{IsRebuilt};
ghost use Rattle.rebuilding.specs.Turns.{all_groups, entries_in_turn, replayed, AreAllCovered};
ghost use Rattle.claims.specs.Settled.{AreOf};
ghost use Rattle.rebuilding.specs.Turns.{IsGroupsFault, IsPassedOn};

use crate::checking::check_order;
use claims::{Claim, Rebuilt, ReplayFault, add_claims, rebuilt_from};
use division::{DivideFault, Group, divide};
use entry::NoMemory;
use recovery_plan::Plan;
use segment::SegmentRef;
use std::alloc::Global;
use tablet_will::Will;

/// Appends the groups to the list.
fn append<'a>(all: &mut Vec<Group<'a>>, groups: Vec<Group<'a>>) -> Result<(), NoMemory>
    ensures { OnOk result (all.new.items ≡ all.old.items ++ groups.entry.items) }
{
    for group in groups {
        all.reserve(1)?;
        all.push_reserved(group);
    }
    Ok(())
}

/// The fault of a rebuild if a segment can't be divided. A Stray has a copy of the key. If memory for the copy runs
/// out, the fault is NoMemory.
fn refused(alloc: Global, fault: &DivideFault<'_>) -> ReplayFault
    ensures { IsPassedOn fault.now result }
{
    match fault {
        DivideFault::Stray(key) => match key.to_key(alloc) {
            Ok(key) => ReplayFault::Stray(key),
            Err(_) => ReplayFault::NoMemory,
        },
        DivideFault::NoMemory => ReplayFault::NoMemory,
    }
}

/// The groups of all segments, segment by segment, and of each segment by partition.
fn groups_in<'a>(
    alloc: Global,
    segments: &[SegmentRef<'a>],
    will: &Will,
    partitions: u32,
) -> Result<Vec<Group<'a>>, ReplayFault>
    ensures ok { IfOk result (λ groups. map grouped groups.items ≡ all_groups will.now segments.entry.now) }
    ensures covered { OnOk result (AreAllCovered will.now segments.entry.now) }
    ensures fault { IfErr result (IsGroupsFault will.now segments.entry.now) }
{
    let count = segments.len().saturating_mul(partitions as usize);
    let mut all = Vec::with_capacity(alloc, count)?;
    for segment in segments {
        let groups = match divide(alloc, segment, will) {
            Ok(groups) => groups,
            Err(fault) => return Err(refused(alloc, &fault)),
        };
        append(&mut all, groups)?;
    }
    Ok(all)
}

/// How many entries the groups have in all, to reserve memory for their claims.
fn count_entries(groups: &[Group<'_>]) -> usize {
    let mut count: usize = 0;
    for group in groups {
        count = count.saturating_add(group.entries.len());
    }
    count
}

/// The claims of the groups' entries, group by group in this order.
fn claims_in_order<'a>(
    alloc: Global,
    groups: &[Group<'a>],
    order: &[usize],
) -> Result<Vec<Claim<'a>>, NoMemory>
    requires { NamesEach (length groups.now) order.now }
    ensures of { IfOk result (λ claims. AreOf (bag_of (map grouped groups.now)) (map claimed claims.items)) }
    ensures turns { IfOk result (λ claims. map claimed claims.items ≡
        claims_of (segments_bag (entries_in_turn (map grouped groups.now) order.now))) }
{
    let mut claims = Vec::with_capacity(alloc, count_entries(groups))?;
    for n in order {
        add_claims(&mut claims, &groups[*n].entries)?;
    }
    Ok(claims)
}

/// The claims of the segments' entries. The will divides the segments, and the groups are taken in this order.
fn claims_divided<'a>(
    alloc: Global,
    segments: &[SegmentRef<'a>],
    will: &Will,
    order: &[usize],
) -> Result<Vec<Claim<'a>>, ReplayFault>
    ensures ok { IfOk result (λ claims. AreOf (segments_bag segments.entry.now) (map claimed claims.items)) }
    ensures turns { IfOk result (λ claims. map claimed claims.items ≡
        claims_of (segments_bag (replayed segments.entry.now will.now order.now))) }
    ensures covered { OnOk result (AreCovered will.now (segments_bag segments.entry.now)) }
    ensures order { OnOk result (NamesEach (count_of segments.entry.now will.now) order.now) }
    ensures ids { OnOk result (AreApart (ids_of segments.entry.now)) }
    ensures fault { IfErr result (IsRebuildFault segments.entry.now will.now order.now) }
{
    check_order(alloc, segments, will, order)?;
    let groups = groups_in(alloc, segments, will, will.partitions())?;
    Ok(claims_in_order(alloc, groups.as_slice(), order)?)
}

/// Rebuilds the objects that the plan's segments mean, in memory of their own. Each segment is divided by the will,
/// and the groups of all partitions are taken in this order. Groups are counted from 0, segment by segment and of each
/// segment by partition: group n is of segment n / partitions of the plan, and of partition n % partitions. With Ok
/// the result is that of `rebuild_plain`, whatever the will and the order.
///
/// - Double: two places of the order name groups of one partition, and both groups are of a segment with this id: one
///   group that is named twice, or groups of two segments that have the same id.
/// - Stranger: a number of the order is not below the count of groups.
/// - MissingGroup: the id of the segment whose group is the first one that the order leaves out.
/// - Stray: the key of an entry that is in no partition.
/// - Clash: two values of one key and version, even if a later version covers them.
/// - NoMemory: each number of the order is below the count of groups, and if the order names each group once, the ids
///   of the segments differ.
///
/// If the order names each group once, the ids differ, the log is clean and each key has a partition, then only want
/// of memory refuses.
///
/// For n entries in s segments and p partitions it takes about n log n + s p steps, and at most s s more if the
/// segments' ids don't rise.
pub fn rebuild(
    alloc: Global,
    plan: &Plan<'_>,
    will: &Will,
    order: &[usize],
) -> Result<Rebuilt, ReplayFault>
    ensures ok { IfOk result (IsRebuilt plan.now.segments plan.now.safe) }
    ensures turns { IfOk result (IsRebuilt (replayed plan.now.segments will.now order.now) plan.now.safe) }
    ensures clean { OnOk result (IsClean (among (segments_bag plan.now.segments))) }
    ensures covered { OnOk result (AreCovered will.now (segments_bag plan.now.segments)) }
    ensures order { OnOk result (NamesEach (count_of plan.now.segments will.now) order.now) }
    ensures ids { OnOk result (AreApart (ids_of plan.now.segments)) }
    ensures fault { IfErr result (IsRebuildFault plan.now.segments will.now order.now) }
    ensures whole { IfErr result (λ fault.
        CanBeRebuilt plan.now.segments will.now order.now → fault ≡ ReplayFault.NoMemory) }
{
    let mut claims = claims_divided(alloc, plan.segments.as_slice(), will, order)?;
    rebuilt_from(alloc, plan.safe, &mut claims)
}
