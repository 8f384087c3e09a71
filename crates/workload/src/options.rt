//! The words of the command line.

use crate::session::Fault;
use loads::{Load, Spread};

/// What `--help` prints.
pub const HELP: &str = "\
workload [--NAME=VALUE ..]: a core load of the Yahoo Cloud Serving Benchmark over a store in memory, on three backups

  --load=A            half reads, half updates (A); 95 % reads (B); reads (C); reads of the latest keys and 5 % new
                      keys (D); half reads, and half reads that are followed by a put under the condition of that
                      version (F); updates, which is none of the benchmark's (W)
  --spread=zipf       how keys are drawn: uniform, zipf (exponent 0.99, scrambled) or latest; for load D latest, if
                      not said
  --threads=1         how many threads call: 1 to 63
  --records=1000      how many objects there are at first: 1 to 100,000,000
  --operations=10000  how many operations all threads make together: below 10^12; one of load F may take two calls
  --length=100        the bytes of a value: 1 to 1,048,576; a value has its number, and isn't shorter than that
  --seed=1            what keys and calls are drawn from
  --live=50           how many percent of the log's memory the objects fill, with those of load D: 1 to 90
  --cleaner           a cleaner runs beside the threads; without it a thread that finds no room cleans
  --trace=FILE        writes each call as a line for bin/linearizable
  --stop=N            the backups take N more steps once the objects are there, and no more; then the master is
                      dropped, and the next one recovers. A trace gets what it has then.

It prints puts of the first objects a second and operations a second, and of reads and of updates the latency that 50,
95, 99 and 99.9 of 100 calls don't exceed, and the greatest one, in nanoseconds on the clock. All but the greatest may
be too large by one part in 32. A call waits until its record is on all backups of the store, which are in the memory
of this process.
";

/// What the words say.
#[derive(Clone, Copy)]
pub struct Options {
    pub load: Load,
    pub spread: Option<Spread>,
    pub threads: u64,
    pub records: u64,
    pub operations: u64,
    pub length: u64,
    pub seed: u64,
    pub live: u64,
    pub stop: Option<u64>,
    pub has_cleaner: bool,
    pub is_shown: bool,
    pub wants_help: bool,
}

impl Options {
    /// What holds if no word says otherwise.
    pub fn usual() -> Options {
        Options {
            load: Load::A,
            spread: None,
            threads: 1,
            records: 1_000,
            operations: 10_000,
            length: 100,
            seed: 1,
            live: 50,
            stop: None,
            has_cleaner: false,
            is_shown: false,
            wants_help: false,
        }
    }
}

/// A number from `least` to `most`.
fn number(value: &str, least: u64, most: u64) -> Result<u64, Fault> {
    match value.parse::<u64>() {
        Ok(number) if number >= least && number <= most => Ok(number),
        _ => Err(Fault::Misuse),
    }
}

/// The spread of this name.
fn spread(value: &str) -> Result<Spread, Fault> {
    match value {
        "uniform" => Ok(Spread::Uniform),
        "zipf" => Ok(Spread::Zipf),
        "latest" => Ok(Spread::Latest),
        _ => Err(Fault::Misuse),
    }
}

/// The load of this letter.
fn load(value: &str) -> Result<Load, Fault> {
    match Load::of(value) {
        Some(load) => Ok(load),
        None => Err(Fault::Misuse),
    }
}

/// Sets the option of this name, which isn't a file.
fn set(options: &mut Options, name: &str, value: &str) -> Result<(), Fault> {
    match name {
        "--load" => options.load = load(value)?,
        "--spread" => options.spread = Some(spread(value)?),
        "--threads" => options.threads = number(value, 1, 63)?,
        "--records" => options.records = number(value, 1, 100_000_000)?,
        "--operations" => options.operations = number(value, 0, 999_999_999_999)?,
        "--length" => options.length = number(value, 1, 1_048_576)?,
        "--seed" => options.seed = number(value, 0, u64::MAX)?,
        "--live" => options.live = number(value, 1, 90)?,
        "--stop" => options.stop = Some(number(value, 0, 999_999_999_999)?),
        _ => return Err(Fault::Misuse),
    }
    Ok(())
}

/// Reads the words behind the first one, and answers the file of the trace.
pub fn read_options<'a>(
    words: &'a [String],
    options: &mut Options,
) -> Result<Option<&'a str>, Fault> {
    let mut path = None;
    for at in 1..words.len() {
        let word = words[at].as_str();
        match word {
            "--help" => options.wants_help = true,
            "--cleaner" => options.has_cleaner = true,
            _ => match word.split_once('=') {
                Some(("--trace", file)) => path = Some(file),
                Some((name, value)) => set(options, name, value)?,
                None => return Err(Fault::Misuse),
            },
        }
    }
    Ok(path)
}
