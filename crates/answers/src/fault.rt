//! Why a run of a script ends early.

ghost use Rattle.std.specs.Prelude.{◌≡◌, ◌++◌, Some};
ghost use Rattle.answers.specs.Errors.{Writes};
ghost use Rattle.lines.specs.Texts.{number_text};
ghost use Rattle.recovery.specs.master.master_state.Config.{config_fault};
ghost use Rattle.answers.specs.Texts.{config_lines, config_why_line, error_line, exit_status, fault_lines};
ghost use Rattle.answers.specs.Texts.{script_fault_text, why_line};

use crate::errors::ErrorOutput;
use lines::Reason;
use recovery::master::{Config, ConfigFault};
use std::error::Error;
use std::fmt;
use std::io::Write;

/// Why a run of a script ended early. The lines before were run, and their output was handed to the writer.
#[derive(Clone, Copy, Debug, PartialEq, Eq)]
pub enum ScriptFault {
    /// 1: the line with this number, counted from 1, is bad for this reason.
    BadLine(u64, Reason),
    /// 2: the reader failed.
    ReadFailed,
    /// 3: the writer failed.
    WriteFailed,
    /// 4: memory ran out at the start, or for a line or a text of the script's own.
    NoMemory,
}

impl Error for ScriptFault {}

impl ScriptFault {
    /// The words of the fault's text, and the number after them, if there is one.
    fn words(&self) -> (&'static str, Option<u64>)
        ensures { script_fault_text self.now ≡ result.0.now ++ number_text result.1 }
    {
        match self {
            ScriptFault::BadLine(number, _) => ("bad line ", Some(*number)),
            ScriptFault::ReadFailed => ("cannot read", None),
            ScriptFault::WriteFailed => ("cannot write", None),
            ScriptFault::NoMemory => ("no memory", None),
        }
    }

    /// The exit status of the program.
    fn status(&self) -> u8
        ensures { result ≡ exit_status self.now }
    {
        match self {
            ScriptFault::BadLine(..) => 2,
            _ => 1,
        }
    }
}

impl fmt::Display for ScriptFault {
    ghost output = { λ fault. Some (script_fault_text fault) };

    fn fmt<W: fmt::Write>(&self, f: &mut fmt::Formatter<W>) -> fmt::Result {
        match self.words() {
            (words, Some(number)) => write!(f, "{words}{number}"),
            (words, None) => write!(f, "{words}"),
        }
    }
}

/// Writes the line of a fault and, if the output explains faults, one that says why. Answers the program's exit
/// status: 2 for a bad line, else 1. It takes no memory.
pub fn report<W: Write + Drop>(fault: &ScriptFault, errors: &mut ErrorOutput<W>) -> u8
    ensures lines { Writes errors.old errors.new (fault_lines errors.old.explains fault.now) }
    ensures status { result ≡ exit_status fault.now }
{
    let (words, number) = fault.words();
    write_line(errors, words, "", number);
    write_why(errors, fault);
    errors.flush();
    fault.status()
}

/// Writes why a line is bad, if the output explains faults.
fn write_why<W: Write + Drop>(errors: &mut ErrorOutput<W>, fault: &ScriptFault)
    ensures { Writes errors.old errors.new (why_line errors.old.explains fault.now) }
{
    if !errors.explains() {
        return;
    }
    if let ScriptFault::BadLine(_, reason) = fault {
        let (words, more, number) = reason.words();
        write_line(errors, words, more, number);
    }
}

/// Writes a line: words, and then a number, if there is one.
fn write_line<W: Write + Drop>(
    errors: &mut ErrorOutput<W>,
    words: &str,
    more: &str,
    number: Option<u64>,
)
    ensures { Writes errors.old errors.new (error_line (words.now ++ more.now ++ number_text number)) }
{
    errors.write(b"ramlog: ");
    errors.write(words.as_bytes());
    errors.write(more.as_bytes());
    if let Some(number) = number {
        let mut digits = itoa::Buffer::new();
        errors.write(digits.format(number).as_bytes());
    }
    errors.write(b"\n");
}

/// Writes the line of a bad configuration and, if the output explains faults, one that says which options disagree.
/// Answers the program's exit status, 2. It takes no memory.
pub fn report_config<W: Write + Drop>(
    config: &Config,
    fault: ConfigFault,
    errors: &mut ErrorOutput<W>,
) -> u8
    requires { config_fault config.now ≡ Some fault }
    ensures lines { Writes errors.old errors.new (config_lines errors.old.explains config.now fault) }
    ensures status { result ≡ 2 }
{
    write_line(errors, "bad configuration ", fault.name(), None);
    write_config_why(errors, config, fault);
    errors.flush();
    2
}

/// Writes which options disagree, if the output explains faults, and by how much, unless it is the limit of live
/// bytes.
fn write_config_why<W: Write + Drop>(
    errors: &mut ErrorOutput<W>,
    config: &Config,
    fault: ConfigFault,
)
    requires { config_fault config.now ≡ Some fault }
    ensures { Writes errors.old errors.new (config_why_line errors.old.explains config.now fault) }
{
    if !errors.explains() {
        return;
    }
    match fault {
        ConfigFault::BadBackups => {
            let by = config.replicas.saturating_sub(config.backups);
            write_line(
                errors,
                "--replicas is more than --backups by ",
                "",
                Some(by),
            );
        }
        ConfigFault::BadSegment => {
            let by = config.segment % config.seglet;
            write_line(
                errors,
                "--segment is more than a multiple of --seglet by ",
                "",
                Some(by),
            );
        }
        ConfigFault::BadBudget => {
            let least = 4 * (config.segment / config.seglet);
            let by = least.saturating_sub(config.seglets);
            write_line(
                errors,
                "--seglets is less than those of four segments by ",
                "",
                Some(by),
            );
        }
        ConfigFault::BadLive => write_line(
            errors,
            "--live is more than a new master can always load",
            "",
            None,
        ),
        _ => {}
    }
}
