//! A partition that is gathered and listed as a worker does it. If a worker gave up, the calling thread would answer in
//! its place, and no answer would tell.

ghost use Rattle.std.specs.Prelude.{◌≡◌, ◌<◌, ◌∷◌, [], length, map, slice_index_or};
ghost use Rattle.division.specs.Division.{IsDivision};
ghost use Rattle.division.specs.Groups.{grouped};

use crate::divided::will_of;
use crate::logs::{LOG, segments_of, texts_of};
use division::{Group, divide};
use entry::SafeVersion;
use partitions::{Division, Joined, Parcel, Share};
use segment::SegmentRef;
use std::alloc::Global;
use std::marker::Brand;
use tablet_will::Will;

/// Whether the share takes its group of the first segment.
fn takes<'a, D: Division>(share: &mut Share<'a, D>, groups: Vec<Group<'a>>) -> bool
    requires below { 0 < length D.segments }
    requires groups { IsDivision D.parts (slice_index_or D.segments 0 []) (map grouped groups.items) }
{
    let mut is_taken = false;
    for group in groups {
        if group.partition == 0 {
            is_taken = share.take(Parcel::new(0, group)).is_ok();
        }
    }
    is_taken
}

/// Whether a log of this segment alone is gathered and listed, and the list of its first partition is joined.
fn is_listed_of<'a, D: Division>(
    alloc: Global,
    segment: &SegmentRef<'a>,
    will: &Will,
    recorded: SafeVersion,
) -> bool
    requires segments { D.segments ≡ segment.now ∷ [] }
    requires parts { D.parts ≡ will.now }
    requires safe { D.safe ≡ recorded }
{
    let (Ok(groups), Ok(mut share)) = (divide(alloc, segment, will), Share::<D>::new(alloc, 0, 1))
    else {
        return false;
    };
    if !takes(&mut share, groups) {
        return false;
    }
    match share.finish(alloc, recorded) {
        Ok(list) => Joined::<D>::new(alloc, recorded).add(list).is_ok(),
        Err(_) => false,
    }
}

fn is_listed(alloc: Global, segment: &SegmentRef<'_>, will: &Will) -> bool {
    is_listed_of::<Brand>(alloc, segment, will, SafeVersion::first())
}

fn are_listed(alloc: Global) -> bool {
    let (Some(texts), Some(will)) = (texts_of(alloc, LOG), will_of(alloc, 1, 2)) else {
        return false;
    };
    let Some(segments) = segments_of(alloc, texts.as_slice()) else {
        return false;
    };
    match segments.as_slice().first() {
        Some(segment) => is_listed(alloc, segment, &will),
        None => false,
    }
}

#[test]
fn a_share_is_taken_listed_and_joined(rt: HostRuntime) {
    assert!(rt; are_listed(rt.alloc()));
}
