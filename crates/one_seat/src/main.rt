//! The program `one_seat [options] < script`: it runs a script as `ramlog` does and prints the same, but drives each
//! master through a store of one seat. When a store is closed, the program compares the receipts of all calls with the
//! history of the master that comes back, and prints what differs.
#![tactic(auto)]

ghost use Rattle.std.specs.Prelude.{IfOk};
ghost use Rattle.store_lines.specs.Lives.{IsChecked};

mod coordinator;
mod down;
mod life;
mod lives;
mod living;

use clap::Error;
use clap::error::ErrorKind;
use lives::run_script;
use std::env;
use std::io::{self, BufReader, BufWriter, IsTerminal};
use std::process::ExitCode;
use std::sync::Wait;
use store_lines::master::Config;
use store_lines::{
    Dialogue, ErrorOutput, FIRST_MASTER, Options, ScriptFault, configuration, options, report,
    report_config, with_limit,
};

/// The exit status of a bad command line.
const MISUSE: u8 = 2;

/// Writes the line of a fault to standard error, and answers the exit status.
fn fail(rt: &HostRuntime, fault: ScriptFault) -> ExitCode {
    let mut errors = ErrorOutput::new(rt.stderr().lock(), rt.stderr().is_terminal());
    ExitCode::from(report(&fault, &mut errors))
}

/// Prints what clap says of the words.
fn refuse(rt: &HostRuntime, error: &Error) -> ExitCode {
    if error.kind() == ErrorKind::OutOfMemory {
        return fail(rt, ScriptFault::NoMemory);
    }
    let _ = error.print(rt);
    if error.exit_code() == 0 {
        ExitCode::SUCCESS
    } else {
        ExitCode::from(MISUSE)
    }
}

/// The words of the command line.
fn read_arguments(rt: &HostRuntime) -> Result<Vec<String>, ExitCode> {
    match env::args(rt) {
        Ok(all) => match all.collect(rt.alloc()) {
            Ok(arguments) => Ok(arguments),
            Err(_) => Err(fail(rt, ScriptFault::NoMemory)),
        },
        Err(_) => Err(ExitCode::from(MISUSE)),
    }
}

/// The options that the words say.
fn read_options(rt: &HostRuntime, arguments: &[String]) -> Result<Options, ExitCode> {
    let mut words = Vec::new(rt.alloc());
    for argument in arguments {
        if words.push(argument.as_str()).is_err() {
            return Err(fail(rt, ScriptFault::NoMemory));
        }
    }
    match options(rt.alloc(), words.as_slice()) {
        Ok(options) => Ok(with_limit(&options)),
        Err(error) => Err(refuse(rt, &error)),
    }
}

/// The configuration of the options, if it is one that a master can have.
fn check(rt: &HostRuntime, options: &Options) -> Result<Config, ExitCode>
    ensures { IfOk result (IsChecked options.now) }
{
    let Ok(config) = configuration(rt.alloc(), options, FIRST_MASTER) else {
        return Err(fail(rt, ScriptFault::NoMemory));
    };
    match config.check() {
        Ok(()) => Ok(config),
        Err(fault) => {
            let mut errors = ErrorOutput::new(rt.stderr().lock(), rt.stderr().is_terminal());
            Err(ExitCode::from(report_config(&config, fault, &mut errors)))
        }
    }
}

/// Runs the script from standard input to standard output.
fn run<R: Wait + Input + Print + AllocGlobal>(
    rt: &R,
    options: &Options,
    config: Config,
) -> Result<(), ScriptFault>
    requires { IsChecked options.now config }
{
    let Ok(reader) = BufReader::new(rt.alloc(), rt.reader()) else {
        return Err(ScriptFault::NoMemory);
    };
    let Ok(writer) = BufWriter::new(rt.alloc(), io::writer(rt)) else {
        return Err(ScriptFault::NoMemory);
    };
    let mut dialogue = Dialogue::new(rt.alloc(), reader, writer);
    run_script(rt, rt.alloc(), &mut dialogue, options, config);
    dialogue.end()
}

fn main(rt: HostRuntime) -> ExitCode {
    let arguments = match read_arguments(&rt) {
        Ok(arguments) => arguments,
        Err(status) => return status,
    };
    let options = match read_options(&rt, arguments.as_slice()) {
        Ok(options) => options,
        Err(status) => return status,
    };
    match check(&rt, &options) {
        Ok(config) => match run(&rt, &options, config) {
            Ok(()) => ExitCode::SUCCESS,
            Err(fault) => fail(&rt, fault),
        },
        Err(status) => status,
    }
}
