//! What a store is made with.

ghost use Rattle.std.specs.Prelude.{◌≡◌, IfOk};
ghost use Rattle.recovery.specs.Orders.{Covers};
ghost use Rattle.embedded.specs.Options.{config_of, tables_to};

use entry::{NoMemory, Tablet, Tablets};
use recovery::master::{Config, KeyHasher};
use std::alloc::Global;
use tablet_will::{Will, WillFault, make_will};

/// What a store is made with: plain numbers, whose ranges are those of `master::Config`.
#[derive(Clone, Copy)]
pub struct Options {
    /// How many backups there are: 1 to 64.
    pub backups: u64,
    /// How many replicas each segment has: 1 to `backups`.
    pub replicas: u64,
    /// How far apart the first homes of consecutive segments lie: 1 to 64.
    pub step: u64,
    /// The bytes of a segment: 512 to 8,388,608, a multiple of `seglet`. An object has at most a quarter of that.
    pub segment: u64,
    /// The bytes of a seglet: 64 to 65,536.
    pub seglet: u64,
    /// How many seglets of memory the log may take: at least those of four segments, at most 2^32.
    pub seglets: u64,
    /// How many tables there are, numbered from 1: at least 1.
    pub tables: u64,
    /// The most records that the history keeps: 1 to 1,048,576. A store forgets the oldest ones only once it keeps
    /// more than 1,024.
    pub history: u64,
    /// The format of the log, 1 or 2. Only under format 2 a master goes on without a backup that failed.
    pub format: u64,
    /// The most bytes of one object: 23 and those of its key and its value. `u64::MAX` sets no limit.
    pub largest: u64,
    /// The most bytes of all live objects together. `u64::MAX` sets no limit.
    pub live: u64,
}

impl Options {
    /// Three backups with all segments on each, a log of four megabytes in segments of 64 kilobytes, one table, and no
    /// limit of live bytes.
    pub fn usual() -> Options {
        Options {
            backups: 3,
            replicas: 3,
            step: 1,
            segment: 65_536,
            seglet: 4_096,
            seglets: 1_024,
            tables: 1,
            history: 1_048_576,
            format: 2,
            largest: u64::MAX,
            live: u64::MAX,
        }
    }
}

/// The tables from 1 to `count`, each as one whole tablet.
fn tables(alloc: Global, count: u64) -> Result<Vec<Tablet>, NoMemory>
    ensures { IfOk result (λ tablets. tablets.items ≡ tables_to count) }
{
    let mut tablets = Vec::new(alloc);
    for before in 0..count {
        tablets.push(Tablet {
            table: before + 1,
            first: 0,
            last: u64::MAX,
        })?;
    }
    Ok(tablets)
}

/// The configuration of the master with this number.
pub fn configuration(alloc: Global, options: &Options, master: u64) -> Result<Config, NoMemory>
    ensures { IfOk result (λ config. config ≡ config_of options.now master) }
{
    let tablets = tables(alloc, options.tables)?;
    Ok(Config {
        master,
        backups: options.backups,
        replicas: options.replicas,
        step: options.step,
        segment: options.segment,
        seglet: options.seglet,
        seglets: options.seglets,
        tablets: Tablets::new(tablets),
        history: options.history,
        hasher: KeyHasher::new(),
        format: options.format,
        largest: options.largest,
        most_live: options.live,
    })
}

/// A will that is one partition over all tables.
pub fn whole_will(alloc: Global, options: &Options) -> Result<Will, WillFault>
    ensures { IfOk result (λ will. Covers (tables_to options.now.tables) will) }
{
    let tablets = tables(alloc, options.tables)?;
    make_will(alloc, tablets.as_slice(), &[], u64::MAX, u64::MAX)
}
