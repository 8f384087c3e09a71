//! The program, from its words to its exit status.

ghost use Rattle.std.specs.Prelude.{◌≡◌, IfOk, IfErr};
ghost use Rattle.clap.specs.Walk.{texts};
ghost use Rattle.clap.specs.Words.{FailsBy};
ghost use Rattle.command_line.specs.CommandLine.{ramlog_faults, ramlog_matches};
ghost use Rattle.script.specs.Program.{RunsMatches, RunsOptions, Streams, end_status};

use crate::running::run_script;
use crate::session::FIRST_MASTER;
use clap::Error;
use command_line::{Options, options};
use next_master::answers::{ErrorOutput, ScriptFault, report, report_config};
use next_master::{configuration, with_limit};
use std::alloc::Global;
use std::io::{BufRead, Write};
use std::sync::Wait;
use std::thread::Threads;

/// Runs the program: it reads the options from the words, does what they say, and answers the exit status. The first
/// word is the program's name. A limit of live bytes of 0 stands for the greatest one. With `is_raw` keys and values
/// are any bytes, each behind its length. If it keeps going, a bad line is reported and skipped; the exit status is
/// then that of a bad line.
///
/// The error is clap's. Nothing was read then, and nothing was written to either output: the caller prints the error's
/// text. Its exit code is 2, or 0 if `--help` or `--version` was asked for.
pub fn run_program<'a, H: Threads + Wait + Sync, R: BufRead, W: Write, E: Write + Drop>(
    rt: &H,
    alloc: Global,
    words: &'a [&'a str],
    is_raw: bool,
    keeps_going: bool,
    reader: &mut R,
    writer: &mut W,
    errors: &mut ErrorOutput<E>,
) -> Result<u8, Error>
    // The program does what the options say that clap finds in the words.
    ensures ran { IfOk result (RunsMatches keeps_going is_raw (ramlog_matches (texts words.entry.now))
        (record { input = R.remaining reader.old; output = W.contents writer.old; errors = errors.old })
        (record { input = R.remaining reader.new; output = W.contents writer.new; errors = errors.new })) }
    // The words are refused only for a fault that clap finds in them, or because memory ran out.
    ensures refused { FailsBy (ramlog_faults (texts words.entry.now)) result }
    ensures unread { IfErr result (λ _. R.remaining reader.new ≡ R.remaining reader.old) }
    ensures unwritten { IfErr result (λ _. W.contents writer.new ≡ W.contents writer.old) }
    ensures unreported { IfErr result (λ _. errors.new ≡ errors.old) }
{
    match options(alloc, words) {
        Ok(options) => {
            let options = with_limit(&options);
            Ok(run_options(
                rt,
                alloc,
                options,
                is_raw,
                keeps_going,
                reader,
                writer,
                errors,
            ))
        }
        Err(error) => Err(error),
    }
}

/// Checks the configuration of the options, runs the script, and reports how the run ended. Answers the exit status.
pub fn run_options<H: Threads + Wait + Sync, R: BufRead, W: Write, E: Write + Drop>(
    rt: &H,
    alloc: Global,
    options: Options,
    is_raw: bool,
    keeps_going: bool,
    reader: &mut R,
    writer: &mut W,
    errors: &mut ErrorOutput<E>,
) -> u8
    ensures { RunsOptions keeps_going is_raw options
        (record { input = R.remaining reader.old; output = W.contents writer.old; errors = errors.old })
        (record { input = R.remaining reader.new; output = W.contents writer.new; errors = errors.new })
        result }
{
    let Ok(config) = configuration(alloc, &options, FIRST_MASTER) else {
        return report(&ScriptFault::NoMemory, errors);
    };
    match config.check() {
        Err(fault) => report_config(&config, fault, errors),
        Ok(()) => match run_script(
            rt,
            alloc,
            reader,
            writer,
            errors,
            options,
            is_raw,
            keeps_going,
        ) {
            Ok(skipped) => end_status(skipped),
            Err(fault) => report(&fault, errors),
        },
    }
}

/// The exit status of a run that came to its end: that of a bad line if one was skipped.
fn end_status(skipped: bool) -> u8
    ensures { result ≡ end_status skipped }
{
    if skipped { 2 } else { 0 }
}
