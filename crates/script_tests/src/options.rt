//! What command lines set. Those that are refused, the help and the version are tested over the built program.

use script::{Options, options};
use std::alloc::Global;

/// The numbers of the options, in the order of the help.
fn numbers(options: &Options) -> [u64; 14] {
    let Options {
        backups,
        replicas,
        step,
        segment,
        seglet,
        ..
    } = *options;
    let Options {
        seglets,
        tables,
        history,
        bytes,
        objects,
        format,
        largest,
        live,
        tend,
        ..
    } = *options;
    [
        backups, replicas, step, segment, seglet, seglets, tables, history, bytes, objects, format,
        largest, live, tend,
    ]
}

/// The number of an option that sets no limit.
const NONE: u64 = u64::MAX;

/// Command lines, what numbers they set, and whether a master forgets.
const ROWS: &[(&[&str], [u64; 14], bool)] = &[
    (
        &["ramlog"],
        [
            3, 2, 1, 512, 64, 64, 4, 1048576, 1048576, 1000000, 1, NONE, NONE, 0,
        ],
        false,
    ),
    (
        &[
            "ramlog",
            "--seglets",
            "32",
            "--segment=8388608",
            "--backups=64",
            "--step",
            "3",
            "--objects=4294967296",
            "--history",
            "1",
            "--tables=+7",
            "--format=2",
            "--largest=24",
            "--live",
            "0",
            "--forget",
            "--tend=65536",
        ],
        [
            64, 2, 3, 8388608, 64, 32, 7, 1, 1048576, 4294967296, 2, 24, 0, 65536,
        ],
        true,
    ),
];

fn are_set(alloc: Global, words: &[&str], want: &[u64; 14], forgets: bool) -> bool {
    match &options(alloc, words) {
        Ok(options) => numbers(options) == *want && options.forget == forgets,
        Err(_) => false,
    }
}

#[test]
fn words_set_the_options(rt: HostRuntime) {
    for (words, want, forgets) in ROWS {
        assert!(rt; are_set(rt.alloc(), words, want, *forgets), "{words:?}");
    }
}
