//! Reads the options from the words of the command line.
ghost use Rattle.std.specs.Prelude.{◌≡◌, IfOk, length};
ghost use Rattle.clap.specs.Words.{FailsBy, found_of, one_text};
ghost use Rattle.clap.specs.Walk.{texts};
ghost use Rattle.command_line.specs.CommandLine.{HasOptions, IsCommand, IsDefault, ReadsOptions};
ghost use Rattle.command_line.specs.CommandLine.{ramlog, ramlog_faults, ramlog_matches};

use crate::flag_option::FORGET;
use crate::help::{ABOUT, AFTER_HELP, USAGE, VERSION};
use crate::number_option::{
    BACKUPS, BYTES, FORMAT, HISTORY, LARGEST, LIVE, OBJECTS, OPTIONS, REPLICAS, SEGLET, SEGLETS,
    SEGMENT, STEP, TABLES, TEND,
};
use crate::settings::Options;
use clap::{ArgMatches, Command, Error};
use std::alloc::{AllocError, Global};

/// The command of the program.
fn command<'a>(alloc: Global) -> Result<Command<'a>, AllocError>
    ensures { IfOk result (IsCommand ramlog) }
{
    let mut command = Command::new(alloc, "ramlog")
        .about(ABOUT)
        .after_help(AFTER_HELP)
        .override_usage(USAGE)
        .version(VERSION);
    for option in OPTIONS {
        command = command.arg(option.argument(alloc))?;
    }
    command.arg(FORGET.argument(alloc))
}

/// Reads the words of the command line, of which the first is the program's name and isn't read.
///
/// The error is clap's: its text is what the program prints, and its exit code is 2, or 0 if `--help` or `--version`
/// was asked for.
pub fn options<'a>(alloc: Global, words: &'a [&'a str]) -> Result<Options, Error>
    // each field is the number of its option's entry in clap's matches, or the default without one
    ensures reads { IfOk result (HasOptions (ramlog_matches (texts words.entry.now))) }
    // the words are taken only if clap finds no fault in them; the error is of the fault's kind, or memory ran out
    ensures refuses { FailsBy (ramlog_faults (texts words.entry.now)) result }
    // the program's name alone gives the defaults, unless memory runs out
    ensures bare { length words.entry.now ≡ 1 → IsDefault result }
{
    let command = command(alloc)?;
    let matches = command.try_get_matches_from(words)?;
    Ok(read_matches(&matches))
}

/// The options that clap found.
fn read_matches(matches: &ArgMatches<'_>) -> Options
    ensures { ReadsOptions (one_text (found_of matches.now)) result }
{
    Options {
        backups: BACKUPS.number(matches),
        replicas: REPLICAS.number(matches),
        step: STEP.number(matches),
        segment: SEGMENT.number(matches),
        seglet: SEGLET.number(matches),
        seglets: SEGLETS.number(matches),
        tables: TABLES.number(matches),
        history: HISTORY.number(matches),
        bytes: BYTES.number(matches),
        objects: OBJECTS.number(matches),
        format: FORMAT.number(matches),
        largest: LARGEST.number(matches),
        live: LIVE.number(matches),
        tend: TEND.number(matches),
        forget: FORGET.is_set(matches),
    }
}
