//! The configuration that a master is made with: its limits, and the placement of replicas.

ghost use Rattle.std.specs.Prelude.{◌≡◌, ◌<◌, ◌≤◌, ◌%◌, length, None, Some, IfSome};
ghost use Rattle.std.specs.Result.{result_err};
ghost use Rattle.packing.specs.Limits.{AreBounded};
ghost use Rattle.packing.specs.Packing.{AreSound};
ghost use Rattle.master_state.specs.Config.{config_fault, has_backups, has_live, sizes_of};
ghost use Rattle.master_state.specs.Log.{backup_at, home, working, place_in};
ghost use Rattle.master_state.specs.Names.{config_fault_name};

use crate::failover::Failed;
use entry::Tablets;
use hash_index::KeyHasher;
use packing::{Sizes, is_limit};
use segment::MAX_SEGMENT_LEN;
use std::error::Error;
use std::fmt;

/// The configuration that a master is made with. `check` tells if the numbers are within their limits.
#[derive(Drop)]
pub struct Config {
    /// The master's number.
    pub master: u64,
    /// How many backups there are: 1 to 64. They are numbered from 0.
    pub backups: u64,
    /// How many replicas each segment has: 1 to `backups`.
    pub replicas: u64,
    /// How far apart the first homes of consecutive segments lie: 1 to 64.
    pub step: u64,
    /// The bytes of a segment: 512 to 8,388,608, a multiple of `seglet`.
    pub segment: u64,
    /// The bytes of a seglet: 64 to 65,536.
    pub seglet: u64,
    /// How many seglets of memory the master may count: at least those of four segments, at most 2^32.
    pub seglets: u64,
    /// The tablets that the master owns: at least one, sorted and disjoint.
    pub tablets: Tablets,
    /// The most records that the history takes: 1 to 1,048,576.
    pub history: u64,
    /// How the index hashes keys. With a secret, nobody who picks keys can make many of them fall into one bucket. No
    /// answer depends on the hasher.
    pub hasher: KeyHasher,
    /// The format of the log, 1 or 2. Under format 2 the digest of each head lists the lengths of its segments.
    pub format: u64,
    /// The most bytes of one object: 23 and those of its key and its value. A put of a longer one is TooBig. `u64::MAX`
    /// sets no limit beside the quarter of a segment.
    pub largest: u64,
    /// The most bytes that puts make of all live objects together, each counted as above. `u64::MAX` sets no limit. Any
    /// other number has to be one up to which a new master of the same sizes can load every table.
    pub most_live: u64,
}

/// What is wrong with a configuration.
#[derive(Clone, Copy, Debug, PartialEq, Eq)]
pub enum ConfigFault {
    BadBackups,
    BadStep,
    BadSegment,
    BadSeglet,
    BadBudget,
    BadTablets,
    BadHistory,
    BadFormat,
    BadLive,
}

impl Error for ConfigFault {}

impl fmt::Display for ConfigFault {
    ghost output = { λ fault. Some (config_fault_name fault) };

    fn fmt<W: fmt::Write>(&self, f: &mut fmt::Formatter<W>) -> fmt::Result {
        f.write_str(self.name())
    }
}

impl ConfigFault {
    /// The name that is printed.
    pub fn name(&self) -> &'static str
        ensures { result.now ≡ config_fault_name self.now }
    {
        match self {
            ConfigFault::BadBackups => "BadBackups",
            ConfigFault::BadStep => "BadStep",
            ConfigFault::BadSegment => "BadSegment",
            ConfigFault::BadSeglet => "BadSeglet",
            ConfigFault::BadBudget => "BadBudget",
            ConfigFault::BadTablets => "BadTablets",
            ConfigFault::BadHistory => "BadHistory",
            ConfigFault::BadFormat => "BadFormat",
            ConfigFault::BadLive => "BadLive",
        }
    }
}

/// The remainder of a division. The compiler turns a division by a constant into a multiplication, which is faster. So
/// the small divisors, which are the usual numbers of backups, have cases of their own.
#[inline(always)]
fn rest(number: u64, divisor: u64) -> u64
    requires { 0 < divisor }
    ensures { result ≡ number % divisor }
{
    match divisor {
        2 => number % 2,
        3 => number % 3,
        4 => number % 4,
        5 => number % 5,
        6 => number % 6,
        7 => number % 7,
        8 => number % 8,
        _ => number % divisor,
    }
}

impl Config {
    /// Returns Ok if the configuration is within its limits. Else the error names the first limit that is broken, in
    /// this order: backups, step, seglet, segment, budget, tablets, history, format, live bytes.
    pub fn check(&self) -> Result<(), ConfigFault>
        ensures { result_err result ≡ config_fault self.now }
    {
        if !self.has_backups() {
            return Err(ConfigFault::BadBackups);
        }
        if self.step < 1 || self.step > 64 {
            return Err(ConfigFault::BadStep);
        }
        if self.seglet < 64 || self.seglet > 65_536 {
            return Err(ConfigFault::BadSeglet);
        }
        if self.segment < 512
            || self.segment > MAX_SEGMENT_LEN as u64
            || self.segment % self.seglet != 0
        {
            return Err(ConfigFault::BadSegment);
        }
        if self.seglets < 4 * (self.segment / self.seglet) || self.seglets > 4_294_967_296 {
            return Err(ConfigFault::BadBudget);
        }
        if !self.tablets.are_valid() {
            return Err(ConfigFault::BadTablets);
        }
        if self.history < 1 || self.history > 1_048_576 {
            return Err(ConfigFault::BadHistory);
        }
        if self.format < 1 || self.format > 2 {
            return Err(ConfigFault::BadFormat);
        }
        if !self.has_live() {
            return Err(ConfigFault::BadLive);
        }
        Ok(())
    }

    /// Returns true if the live objects have no limit, or one that leaves room for any table.
    #[tactic(auto, unfolding(crate::specs::Config::has_live))]
    fn has_live(&self) -> bool
        requires sound { AreSound (sizes_of self.now) }
        requires bounded { AreBounded (sizes_of self.now) }
        ensures { result ≡ has_live self.now }
    {
        self.most_live == u64::MAX || is_limit(&self.sizes(), self.largest, self.most_live)
    }

    /// The sizes that decide how a log of this configuration is laid out.
    pub fn sizes(&self) -> Sizes
        ensures { result ≡ sizes_of self.now }
    {
        Sizes {
            segment: self.segment,
            seglet: self.seglet,
            seglets: self.seglets,
            format: self.format,
        }
    }

    /// Returns true if a segment has at least one replica, there are at least as many backups as replicas, and there
    /// are at most 64 backups.
    fn has_backups(&self) -> bool
        ensures { result ≡ has_backups self.now }
    {
        self.replicas >= 1 && self.replicas <= self.backups && self.backups <= 64
    }

    /// The home of a replica of a segment. The replica with number j has the backup at place j among the backups that
    /// haven't failed, in the segment's order. So replicas of one segment lie on different backups.
    #[inline(always)]
    pub fn home(&self, failed: &Failed, segment: u64, replica: usize) -> u64
        requires config { config_fault self.now ≡ None }
        requires replica { replica < length (working self.now failed.now segment) }
        ensures { result ≡ home self.now failed.now segment replica }
    {
        if failed.is_empty() {
            return self.backup_at(segment, replica as u64);
        }
        self.working_home(failed, segment, replica)
    }

    /// The backup at this place of a segment's order, which is a circle of all backups.
    #[inline(always)]
    fn backup_at(&self, segment: u64, place: u64) -> u64
        requires config { config_fault self.now ≡ None }
        requires place { place < 64 }
        ensures { result ≡ backup_at self.now segment place }
    {
        rest(
            rest(segment, self.backups) * self.step + place,
            self.backups,
        )
    }

    /// The home of a replica of a segment, found by a walk along the segment's order past the backups that failed.
    fn working_home(&self, failed: &Failed, segment: u64, replica: usize) -> u64
        requires config { config_fault self.now ≡ None }
        requires replica { replica < length (working self.now failed.now segment) }
        ensures { result ≡ home self.now failed.now segment replica }
    {
        let mut left = replica;
        for place in 0..self.backups {
            let backup = self.backup_at(segment, place);
            if failed.has(backup) {
                continue;
            }
            if left == 0 {
                return backup;
            }
            left -= 1;
        }
        unreachable!()
    }

    /// Which of the first `replicas` replicas of a segment is on this backup, if any is.
    pub fn place_in(
        &self,
        failed: &Failed,
        segment: u64,
        replicas: usize,
        backup: u64,
    ) -> Option<usize>
        requires config { config_fault self.now ≡ None }
        requires replicas { replicas ≤ length (working self.now failed.now segment) }
        ensures place { result ≡ place_in self.now failed.now segment replicas backup }
        ensures within { IfSome result (λ j. j < replicas) }
    {
        for replica in 0..replicas {
            if self.home(failed, segment, replica) == backup {
                return Some(replica);
            }
        }
        None
    }
}
