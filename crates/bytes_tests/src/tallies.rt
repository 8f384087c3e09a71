//! What is counted of segments: each call, and what it leaves of the others.

use std::alloc::Global;
use std::test::Fail;
use tally::Tallies;

/// A call, or what is then counted of a segment.
enum Call {
    Reserve(usize),
    Begin(u64),
    Grow(u64, usize, usize),
    Shrink(u64, usize),
    Commit(&'static [u64]),
    Put(u64, usize, usize),
    Clear,
    /// The bytes of a segment's objects and of its tombstones, and whether the latter are exact.
    Has(u64, u32, u32, bool),
    HasNo(u64),
}

const RUNS: &[&[Call]] = &[
    // Three segments begin. One without reserved memory and one below the others don't.
    &[
        Call::Begin(1),
        Call::HasNo(1),
        Call::Reserve(3),
        Call::Begin(2),
        Call::Begin(5),
        Call::Begin(5),
        Call::Begin(4),
        Call::Begin(9),
        Call::HasNo(1),
        Call::Has(2, 0, 0, true),
        Call::HasNo(4),
        Call::Has(5, 0, 0, true),
        Call::Has(9, 0, 0, true),
        Call::HasNo(10),
        Call::Clear,
        Call::HasNo(2),
        Call::HasNo(9),
    ],
    // Each counts by itself. A segment that isn't there stays away, and nothing falls below 0.
    &[
        Call::Put(7, 100, 20),
        Call::Put(3, 50, 0),
        Call::Put(5, 10, 1),
        Call::Grow(5, 25, 30),
        Call::Grow(4, 1, 1),
        Call::Shrink(7, 40),
        Call::Shrink(3, 51),
        Call::Shrink(8, 1),
        Call::Has(3, 0, 0, true),
        Call::HasNo(4),
        Call::Has(5, 35, 31, true),
        Call::Has(7, 60, 20, true),
        Call::HasNo(8),
        Call::Put(5, 8, 9),
        Call::Has(5, 8, 9, true),
    ],
    // Victims go. Tombstones aren't exact any more until their segment is counted anew.
    &[
        Call::Put(1, 10, 0),
        Call::Put(2, 20, 5),
        Call::Put(3, 30, 6),
        Call::Put(4, 40, 7),
        Call::Commit(&[3, 1]),
        Call::HasNo(1),
        Call::Has(2, 20, 5, false),
        Call::HasNo(3),
        Call::Has(4, 40, 7, false),
        Call::Grow(2, 1, 2),
        Call::Has(2, 21, 7, false),
        Call::Put(4, 40, 6),
        Call::Has(4, 40, 6, true),
        Call::Put(6, 60, 0),
        Call::Commit(&[]),
        Call::Has(6, 60, 0, true),
        Call::Has(4, 40, 6, false),
    ],
    // A count above 2^32 - 1 isn't kept.
    &[
        Call::Put(1, 4_294_967_295, 4_294_967_290),
        Call::Put(2, 4_294_967_296, 0),
        Call::Put(3, 0, 4_294_967_296),
        Call::HasNo(2),
        Call::HasNo(3),
        Call::Grow(1, 0, 5),
        Call::Has(1, 4_294_967_295, 4_294_967_295, true),
        Call::Shrink(1, 4_294_967_297),
        Call::Has(1, 0, 4_294_967_295, true),
        Call::Grow(1, 0, 1),
        Call::HasNo(1),
        Call::Put(1, 5, 5),
        Call::Grow(1, 4_294_967_296, 0),
        Call::HasNo(1),
    ],
];

/// Whether so much is counted of the segment.
fn has(tallies: &Tallies, segment: u64, live: u32, stones: u32, is_fresh: bool) -> bool {
    match tallies.get(segment) {
        Some(row) => {
            row.segment == segment
                && row.live == live
                && row.stones == stones
                && row.is_fresh == is_fresh
        }
        None => false,
    }
}

/// Makes the call. Whether the segment that it asks for has what it says.
fn is_answered(tallies: &mut Tallies, call: &Call) -> bool {
    match call {
        Call::Reserve(more) => tallies.reserve(*more),
        Call::Begin(segment) => tallies.begin(*segment),
        Call::Grow(segment, live, stones) => tallies.grow(*segment, *live, *stones),
        Call::Shrink(segment, live) => tallies.shrink(*segment, *live),
        Call::Commit(victims) => tallies.commit(victims),
        Call::Put(segment, live, stones) => tallies.put(*segment, *live, *stones),
        Call::Clear => tallies.clear(),
        Call::Has(segment, live, stones, is_fresh) => {
            return has(tallies, *segment, *live, *stones, *is_fresh);
        }
        Call::HasNo(segment) => return tallies.get(*segment).is_none(),
    }
    true
}

/// The first call that is answered otherwise.
fn first_other(alloc: Global, calls: &[Call]) -> Option<usize> {
    let mut tallies = Tallies::new(alloc);
    for (number, call) in calls.iter().enumerate() {
        if !is_answered(&mut tallies, call) {
            return Some(number);
        }
    }
    None
}

#[test]
fn each_call_counts_its_segment(rt: HostRuntime) -> Result<(), Fail> {
    for (run, calls) in RUNS.iter().enumerate() {
        assert_eq!(rt; first_other(rt.alloc(), calls), None, "run {run}");
    }
    Ok(())
}
