//! The fourteen options, each with its name, range, default and help.
ghost use Rattle.std.specs.Prelude.{◌≡◌, false};
ghost use Rattle.clap.specs.Words.{IsPlainArg, found_of, one_text, rule_of};
ghost use Rattle.command_line.specs.CommandLine.{ReadsNumber, number_rule};

use clap::builder::ValueParser;
use clap::{Arg, ArgAction, ArgMatches};
use std::alloc::Global;

/// An option `--NAME N`, where N is a number from `least` to `most`.
#[derive(Clone, Copy)]
pub(crate) struct NumberOption {
    name: &'static str,
    least: u64,
    most: u64,
    default: u64,
    help: &'static str,
}

pub(crate) const BACKUPS: NumberOption = NumberOption {
    name: "backups",
    least: 1,
    most: 64,
    default: 3,
    help: "Backups of the fleet: 1 to 64 [default: 3]",
};

pub(crate) const REPLICAS: NumberOption = NumberOption {
    name: "replicas",
    least: 1,
    most: 64,
    default: 2,
    help: "Replicas of each segment, at most as many as backups: 1 to 64 [default: 2]",
};

pub(crate) const STEP: NumberOption = NumberOption {
    name: "step",
    least: 1,
    most: 64,
    default: 1,
    help: "Backups from the first replica of a segment to that of the next: 1 to 64 [default: 1]",
};

pub(crate) const SEGMENT: NumberOption = NumberOption {
    name: "segment",
    least: 512,
    most: 8388608,
    default: 512,
    help: "Bytes of a segment, a multiple of --seglet, with --seglets to match: 512 to 8388608 [default: 512]",
};

pub(crate) const SEGLET: NumberOption = NumberOption {
    name: "seglet",
    least: 64,
    most: 65536,
    default: 64,
    help: "Bytes of a seglet, the unit in which memory is counted: 64 to 65536 [default: 64]",
};

pub(crate) const SEGLETS: NumberOption = NumberOption {
    name: "seglets",
    least: 4,
    most: 4294967296,
    default: 64,
    help: "Seglets of the master's memory, at least 4 * segment / seglet: 4 to 4294967296 [default: 64]",
};

pub(crate) const TABLES: NumberOption = NumberOption {
    name: "tables",
    least: 1,
    most: 64,
    default: 4,
    help: "Tables, numbered from 1: 1 to 64 [default: 4]",
};

pub(crate) const HISTORY: NumberOption = NumberOption {
    name: "history",
    least: 1,
    most: 1048576,
    default: 1048576,
    help: "Most records of a history, one for each accepted command: 1 to 1048576 [default: 1048576]",
};

pub(crate) const BYTES: NumberOption = NumberOption {
    name: "bytes",
    least: 1,
    most: 4294967296,
    default: 1048576,
    help: "Most bytes of a partition of a will: 1 to 4294967296 [default: 1048576]",
};

pub(crate) const OBJECTS: NumberOption = NumberOption {
    name: "objects",
    least: 1,
    most: 4294967296,
    default: 1000000,
    help: "Most objects of a partition of a will: 1 to 4294967296 [default: 1000000]",
};

pub(crate) const FORMAT: NumberOption = NumberOption {
    name: "format",
    least: 1,
    most: 2,
    default: 1,
    help: "Format of the log: 2 lists each segment with its length: 1 to 2 [default: 1]",
};

pub(crate) const LARGEST: NumberOption = NumberOption {
    name: "largest",
    least: 24,
    most: 8388608,
    default: u64::MAX,
    help: "Most bytes of an object, 23 + key + value: 24 to 8388608 [default: a quarter of a segment]",
};

pub(crate) const LIVE: NumberOption = NumberOption {
    name: "live",
    least: 0,
    most: 281474976710656,
    default: u64::MAX,
    help: "Most bytes of live objects; 0 for the most that always load: 0 to 281474976710656 [default: none]",
};

pub(crate) const TEND: NumberOption = NumberOption {
    name: "tend",
    least: 0,
    most: 65536,
    default: 0,
    help: "Most steps of the cleaner behind each put, new, cas and del: 0 to 65536 [default: 0]",
};

/// All options, in the order of the help.
pub(crate) const OPTIONS: &[NumberOption] = &[
    BACKUPS, REPLICAS, STEP, SEGMENT, SEGLET, SEGLETS, TABLES, HISTORY, BYTES, OBJECTS, FORMAT,
    LARGEST, LIVE, TEND,
];

impl NumberOption {
    /// The option as an argument of a command.
    pub(crate) fn argument<'a>(self, alloc: Global) -> Arg<'a>
        ensures rule { rule_of result ≡ number_rule self.name.now self.least self.most }
        ensures plain { IsPlainArg result }
        ensures local { result.global ≡ false }
    {
        Arg::new(alloc, self.name)
            .long(self.name)
            .value_name("N")
            .action(ArgAction::Set)
            .value_parser(ValueParser::Unsigned(self.least, self.most))
            .help(self.help)
    }

    /// The option's number, or its default if the words don't name it.
    pub(crate) fn number(self, matches: &ArgMatches<'_>) -> u64
        ensures { ReadsNumber self.default (one_text (found_of matches.now) self.name.now) result }
    {
        matches.get_one::<u64>(self.name).unwrap_or(self.default)
    }
}
