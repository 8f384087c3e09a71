//! How much memory a load's log has.

use crate::options::Options;
use embedded::Options as StoreOptions;
use loads::Load;

/// The bytes of an object beside those of its value: its entry's, and those of the longest key.
const BESIDE: u64 = 43;

/// The bytes of a seglet.
const SEGLET: u64 = 4_096;

/// How many keys there are at the end, or more.
fn most_keys(options: &Options) -> u64 {
    match options.load {
        Load::D => options.records.saturating_add(options.operations / 10),
        _ => options.records,
    }
}

/// The bytes of memory of which the objects fill that share.
fn memory(options: &Options) -> u64 {
    most_keys(options)
        .saturating_mul(options.length.saturating_add(BESIDE))
        .saturating_mul(100)
        / options.live.max(1)
}

/// The bytes of a segment: a log of many bytes has large ones, and an object has at most a quarter of one.
fn segment(options: &Options, memory: u64) -> u64 {
    if options.length > 200_000 || memory > 1 << 34 {
        8_388_608
    } else if options.length > 10_000 || memory > 1 << 26 {
        1_048_576
    } else {
        65_536
    }
}

/// What the store is made with. Eight segments come on top: heads, survivors, and what a pass works with.
pub fn store_options(options: &Options) -> StoreOptions {
    let mut made = StoreOptions::usual();
    let memory = memory(options);
    let segment = segment(options, memory);
    made.segment = segment;
    made.seglet = SEGLET;
    made.seglets = memory.saturating_add(segment.saturating_mul(8)) / SEGLET;
    made
}
