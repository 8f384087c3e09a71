//! The program `workload [--NAME=VALUE ..]`: threads that make the operations of a core load of the Yahoo Cloud Serving
//! Benchmark over a store in memory, and how long their calls took. `workload --help` says what the names are.
#![tactic(auto)]

mod filling;
mod options;
mod recovered;
mod report;
mod session;
mod sizes;

use freed_memory::keep_freed;
use options::{HELP, Options, read_options};
use session::{Fault, run};
use std::alloc::Global;
use std::env;
use std::io::{Eprint, IsTerminal, Print};
use std::process::ExitCode;
use std::rt::Files;
use std::sync::Wait;
use std::thread::Threads;
use std::time::Clock;

/// The exit status of a bad command line.
const MISUSE: u8 = 2;

/// Runs the program with these words, of which the first is its own name.
fn run_words<R: Threads + Wait + Clock + Eprint + Print + Files + Sync>(
    rt: &R,
    alloc: Global,
    words: &[String],
    is_shown: bool,
) -> Result<(), Fault> {
    let mut options = Options::usual();
    options.is_shown = is_shown;
    let path = read_options(words, &mut options)?;
    if options.wants_help {
        print!(rt; "{HELP}")?;
        return Ok(());
    }
    run(rt, alloc, &options, path)
}

fn main(rt: HostRuntime) -> ExitCode {
    keep_freed(rt.alloc());
    let Ok(all) = env::args(&rt) else {
        return ExitCode::from(MISUSE);
    };
    let Ok(words) = all.collect::<Vec<String>>(rt.alloc()) else {
        return ExitCode::FAILURE;
    };
    let is_shown = rt.stderr().is_terminal();
    match run_words(&rt, rt.alloc(), words.as_slice(), is_shown) {
        Ok(()) => ExitCode::SUCCESS,
        Err(fault) => {
            let text = fault.text();
            let _ = eprintln!(rt; "workload: {text}");
            ExitCode::from(fault.status())
        }
    }
}
