//! The program `ramlog [options] < script`: reads a script from standard input, and writes what it answers to standard
//! output. With `--dir=PATH` the script's store is in a folder, or in several, and outlives the process.
#![tactic(auto)]

mod folder;
mod until_end;

use clap::Error;
use clap::error::ErrorKind;
use folder::run_folders;
use freed_memory::keep_freed;
use script::{ErrorOutput, ScriptFault, report, run_program};
use std::alloc::Global;
use std::env;
use std::io::{self, BufReader, BufWriter, IsTerminal};
use std::process::ExitCode;
use std::sync::Wait;
use std::thread::Threads;
use until_end::UntilEnd;

/// The exit status of a bad command line, and of a bad line of a script.
const MISUSE: u8 = 2;

/// The word by which a fault is explained on standard error, also if that is no terminal. It may stand anywhere.
const EXPLAIN: &str = "--explain";

/// The word by which keys and values are any bytes, each behind its length. It may stand anywhere.
const RAW: &str = "--raw";

/// The word by which a bad line is reported and skipped, also if standard input is no terminal. It may stand anywhere.
const KEEP_GOING: &str = "--keep-going";

/// The word that names a folder of a store on the disk, which follows it. It may stand anywhere, and several times.
const DIR: &str = "--dir";

/// How many bytes the program reads or writes at once.
const BLOCK: usize = 65_536;

/// Which of the words above the command line has.
#[derive(Clone, Copy)]
struct Flags {
    explains: bool,
    is_raw: bool,
    keeps_going: bool,
}

/// Writes the line of a fault to standard error, and answers the exit status.
fn fail(rt: &HostRuntime, fault: ScriptFault) -> ExitCode {
    let mut errors = ErrorOutput::new(rt.stderr().lock(), rt.stderr().is_terminal());
    ExitCode::from(report(&fault, &mut errors))
}

/// The words of the command line. If they can't be read, that was reported, and the error is the exit status.
fn read_arguments(rt: &HostRuntime) -> Result<Vec<String>, ExitCode> {
    match env::args(rt) {
        Ok(all) => match all.collect(rt.alloc()) {
            Ok(arguments) => Ok(arguments),
            Err(_) => Err(fail(rt, ScriptFault::NoMemory)),
        },
        Err(error) if error.kind() == io::ErrorKind::OutOfMemory => {
            Err(fail(rt, ScriptFault::NoMemory))
        }
        Err(_) => {
            let _ = rt.eprintln("ramlog: the command line is not UTF-8");
            Err(ExitCode::from(MISUSE))
        }
    }
}

/// Prints what clap says of the words, and answers the exit status.
fn refuse(rt: &HostRuntime, error: &Error) -> ExitCode {
    if error.kind() == ErrorKind::OutOfMemory {
        return fail(rt, ScriptFault::NoMemory);
    }
    let _ = error.print(rt);
    if error.exit_code() == 0 {
        ExitCode::SUCCESS
    } else {
        ExitCode::from(MISUSE)
    }
}

/// Runs the program from standard input to standard output. It writes in blocks, and writes what it answered before it
/// waits for more input. If it `explains`, or if the errors go to a terminal, the errors also say why a line is bad,
/// and which commands may have been made. If it keeps going, or if the lines come from a terminal, a bad line is
/// skipped. `threads` and `rt` are one handle, but only a parameter with these bounds can start threads.
fn run<H: Threads + Wait + Sync>(
    threads: &H,
    rt: &HostRuntime,
    words: &[&str],
    flags: Flags,
) -> Result<u8, Error> {
    let explains = flags.explains || rt.stderr().is_terminal();
    let keeps_going = flags.keeps_going || rt.stdin().is_terminal();
    let mut errors = ErrorOutput::new(rt.stderr().lock(), explains);
    let Ok(mut reader) = BufReader::with_capacity(rt.alloc(), BLOCK, UntilEnd::new(rt.reader()))
    else {
        return Ok(report(&ScriptFault::NoMemory, &mut errors));
    };
    let Ok(mut writer) = BufWriter::with_capacity(rt.alloc(), BLOCK, rt.stdout().lock()) else {
        return Ok(report(&ScriptFault::NoMemory, &mut errors));
    };
    run_program(
        threads,
        rt.alloc(),
        words,
        flags.is_raw,
        keeps_going,
        &mut reader,
        &mut writer,
        &mut errors,
    )
}

impl Flags {
    /// Sets the flag that an argument asks for. False if it asks for none.
    fn take(&mut self, argument: &str) -> bool {
        match argument {
            EXPLAIN => self.explains = true,
            RAW => self.is_raw = true,
            KEEP_GOING => self.keeps_going = true,
            _ => return false,
        }
        true
    }
}

/// What the arguments ask for.
#[derive(Drop)]
struct Asked<'a> {
    /// The words that the options are read from.
    words: Vec<&'a str>,
    folders: Vec<&'a str>,
    flags: Flags,
    /// The next argument is a folder.
    awaits_folder: bool,
}

impl<'a> Asked<'a> {
    /// Nothing is asked for.
    fn nothing(alloc: Global) -> Asked<'a> {
        Asked {
            words: Vec::new(alloc),
            folders: Vec::new(alloc),
            flags: Flags {
                explains: false,
                is_raw: false,
                keeps_going: false,
            },
            awaits_folder: false,
        }
    }

    /// Takes the next argument. False if memory ran out.
    fn take(&mut self, argument: &'a str) -> bool {
        if self.awaits_folder {
            self.awaits_folder = false;
            return self.folders.push(argument).is_ok();
        }
        if argument == DIR {
            self.awaits_folder = true;
            return true;
        }
        match argument.strip_prefix("--dir=") {
            Some(path) => self.folders.push(path).is_ok(),
            None => self.flags.take(argument) || self.words.push(argument).is_ok(),
        }
    }
}

/// Runs the program with these words. The options know none of the words of `Flags`, and no folder.
fn run_arguments<H: Threads + Wait + Sync>(
    threads: &H,
    rt: &HostRuntime,
    arguments: &[String],
) -> ExitCode {
    let mut asked = Asked::nothing(rt.alloc());
    for argument in arguments {
        if !asked.take(argument.as_str()) {
            return fail(rt, ScriptFault::NoMemory);
        }
    }
    if asked.awaits_folder {
        let _ = rt.eprintln("ramlog: --dir has a folder behind it");
        return ExitCode::from(MISUSE);
    }
    let words = asked.words.as_slice();
    let ran = match asked.folders.as_slice() {
        [] => run(threads, rt, words, asked.flags),
        [first, others @ ..] => run_folders(rt, first, others, words, asked.flags),
    };
    match ran {
        Ok(status) => ExitCode::from(status),
        Err(error) => refuse(rt, &error),
    }
}

fn main(rt: HostRuntime) -> ExitCode {
    keep_freed(rt.alloc());
    match read_arguments(&rt) {
        Ok(arguments) => run_arguments(&rt, &rt, arguments.as_slice()),
        Err(status) => status,
    }
}
