//! The options that take no number, each with its name and help.
ghost use Rattle.std.specs.Prelude.{◌≡◌, false};
ghost use Rattle.clap.specs.Words.{IsPlainArg, found_of, one_text, rule_of};
ghost use Rattle.command_line.specs.CommandLine.{ReadsFlag, flag_rule};

use clap::builder::ValueParser;
use clap::{Arg, ArgAction, ArgMatches};
use std::alloc::Global;

/// An option `--NAME`, which is set if the words name it.
#[derive(Clone, Copy)]
pub(crate) struct FlagOption {
    name: &'static str,
    help: &'static str,
}

pub(crate) const FORGET: FlagOption = FlagOption {
    name: "forget",
    help: "Lets a master forget its durable records, by blocks of 1024",
};

impl FlagOption {
    /// The option as an argument of a command.
    pub(crate) fn argument<'a>(self, alloc: Global) -> Arg<'a>
        ensures rule { rule_of result ≡ flag_rule self.name.now }
        ensures plain { IsPlainArg result }
        ensures local { result.global ≡ false }
    {
        Arg::new(alloc, self.name)
            .long(self.name)
            .action(ArgAction::SetTrue)
            .value_parser(ValueParser::Bool)
            .help(self.help)
    }

    /// Whether the words set the option.
    pub(crate) fn is_set(self, matches: &ArgMatches<'_>) -> bool
        ensures { ReadsFlag (one_text (found_of matches.now) self.name.now) result }
    {
        matches.get_flag(self.name)
    }
}
