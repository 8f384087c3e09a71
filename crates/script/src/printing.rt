//! What a run writes of a line: its answer, and what the error output says of it.

ghost use Rattle.std.specs.Prelude.{true};
ghost use Rattle.script.specs.Runs.{has_unsure, unsure_line};
ghost use Rattle.next_master.specs.answers.Errors.{Reports, Writes};
ghost use Rattle.next_master.specs.answers.declared.answer.Answer.{Answer as AnswerValue};
ghost use Rattle.script.specs.Sessions.{IsPrintedAs};
ghost use Rattle.script.specs.Turns.{IsPrinted, IsPrintedPlain, ReportsBadLine};

use crate::outcome::Outcome;
use crate::session::Session;
use next_master::answers::{Answer, ErrorOutput, ScriptFault, report};
use raw_answers::write_told;
use std::io::Write;

/// Reports a fault that is a bad line, and does nothing for another. Answers whether it is one.
#[inline(never)]
pub(crate) fn report_bad_line<E: Write + Drop>(
    fault: &ScriptFault,
    errors: &mut ErrorOutput<E>,
) -> bool
    ensures { ReportsBadLine fault.now errors.old errors.new result }
{
    match fault {
        ScriptFault::BadLine(..) => {
            report(fault, errors);
            true
        }
        ScriptFault::ReadFailed => false,
        ScriptFault::WriteFailed => false,
        ScriptFault::NoMemory => false,
    }
}

/// Reports that the command of the line with this number may have been made, if that is so and the error output
/// explains. Before the line a master had made so many records.
pub(crate) fn report_unsure<E: Write + Drop>(
    session: &Session,
    made: Option<u64>,
    number: u64,
    errors: &mut ErrorOutput<E>,
)
    ensures { Reports errors.old errors.new
        (unsure_line (has_unsure made session.now.node) errors.old.explains number) }
{
    if !errors.explains() {
        return;
    }
    if session.has_unsure(made) {
        write_unsure(number, errors);
    }
}

/// Writes the line that says that the command of the line with this number may have been made.
#[inline(never)]
fn write_unsure<E: Write + Drop>(number: u64, errors: &mut ErrorOutput<E>)
    ensures { Writes errors.old errors.new (unsure_line true true number) }
{
    let mut digits = itoa::Buffer::new();
    errors.write(b"ramlog: the command of line ");
    errors.write(digits.format(number).as_bytes());
    errors.write(b" may have been made\n");
    errors.flush();
}

/// Writes the answer that a line came to.
pub(crate) fn print<W: Write>(
    writer: &mut W,
    session: &Session,
    outcome: &Outcome,
    is_raw: bool,
) -> Result<(), ScriptFault>
    requires { (answer : AnswerValue) × IsPrintedAs session.now outcome.now answer }
    ensures { (answer : AnswerValue) → IsPrintedAs session.now outcome.now answer →
        IsPrinted is_raw (W.contents writer.old) (W.contents writer.new) answer result }
{
    match outcome {
        Outcome::Answered(answer) => print_answer(writer, answer, is_raw),
        Outcome::Replied(place) => match session.write_reply(*place, writer, is_raw) {
            Ok(()) => Ok(()),
            Err(_) => Err(ScriptFault::WriteFailed),
        },
    }
}

/// Writes the answer of a line without a command. So Ok comes with false.
pub(crate) fn print_plain<W: Write>(
    writer: &mut W,
    answer: &Answer,
    is_raw: bool,
) -> Result<bool, ScriptFault>
    ensures { IsPrintedPlain is_raw (W.contents writer.old) (W.contents writer.new) answer.now result }
{
    match write_told(writer, answer, is_raw) {
        Ok(()) => Ok(false),
        Err(_) => Err(ScriptFault::WriteFailed),
    }
}

/// Writes an answer.
fn print_answer<W: Write>(writer: &mut W, answer: &Answer, is_raw: bool) -> Result<(), ScriptFault>
    ensures { IsPrinted is_raw (W.contents writer.old) (W.contents writer.new) answer.now result }
{
    match write_told(writer, answer, is_raw) {
        Ok(()) => Ok(()),
        Err(_) => Err(ScriptFault::WriteFailed),
    }
}
