//! Runs a script, line by line.

ghost use Rattle.std.specs.Prelude.{◌≡◌, None, true};
ghost use Rattle.next_master.specs.master.master_state.Config.{config_fault};
ghost use Rattle.command_line.specs.declared.settings.Options.{Options as OptionsValue};
ghost use Rattle.lines.specs.Grammar.{IsLine, shown_command, shown_line};
ghost use Rattle.raw_lines.specs.Raw.{SaysIn};
ghost use Rattle.lines.specs.Reading.{IsLineText};
ghost use Rattle.next_master.specs.cluster.Told.{command_of};
ghost use Rattle.next_master.specs.Configuration.{config_of};
ghost use Rattle.script.specs.Runs.{RunsScript};
ghost use Rattle.next_master.specs.answers.declared.answer.Answer.{Answer as AnswerValue};
ghost use Rattle.script.specs.declared.session.Session.{Session as SessionValue};
ghost use Rattle.script.specs.Sessions.{BeginsSession, Forgets, SessionAnswers, Stands, IsTended, TriesCommand};
ghost use Rattle.script.specs.Turns.{HasValue, IsNoMore, IsPrinted, PrintsText};
ghost use Rattle.script.specs.Turns.{TakesText, TakesTurn};

use crate::printing::{print, print_plain, report_bad_line, report_unsure};
use crate::session::{LineFault, Session};
use command_line::Options;
use lines::{CommandLine, Line, LineReader, ReadFault, Reason, Taken};
use next_master::answers::{ErrorOutput, ScriptFault};
use next_master::cluster::Tried;
use raw_lines::{one_plain_line, parse_text};
use std::alloc::Global;
use std::io::{BufRead, Write};
use std::sync::Wait;
use std::thread::Threads;

/// Runs the lines of the reader in order, and hands the answer of each to the writer. It flushes the writer before it
/// waits for more lines. With `is_raw` keys and values are any bytes, each behind its length.
///
/// A bad line ends the run. If it keeps going, a bad line is reported on the error output and skipped instead, but for
/// one that is too long. Ok says whether a line was skipped.
pub fn run_script<H: Threads + Wait + Sync, R: BufRead, W: Write, E: Write + Drop>(
    rt: &H,
    alloc: Global,
    reader: &mut R,
    writer: &mut W,
    errors: &mut ErrorOutput<E>,
    options: Options,
    is_raw: bool,
    keeps_going: bool,
) -> Result<bool, ScriptFault>
    requires { config_fault (config_of options 1) ≡ None }
    // The lines tell of one legal life after another. Exactly their answers were written. A bad line is named.
    ensures { RunsScript keeps_going is_raw options (R.remaining reader.old) (R.remaining reader.new)
        (W.contents writer.old) (W.contents writer.new) errors.old errors.new result }
{
    let Ok(mut session) = Session::start(alloc, &options) else {
        return Err(ScriptFault::NoMemory);
    };
    run_and_flush(
        rt,
        alloc,
        reader,
        writer,
        errors,
        &mut session,
        is_raw,
        keeps_going,
    )
}

/// Runs all lines on a session at its start, and flushes the writer.
fn run_and_flush<H: Threads + Wait + Sync, R: BufRead, W: Write, E: Write + Drop>(
    rt: &H,
    alloc: Global,
    reader: &mut R,
    writer: &mut W,
    errors: &mut ErrorOutput<E>,
    session: &mut Session,
    is_raw: bool,
    keeps_going: bool,
) -> Result<bool, ScriptFault>
    requires { (options : OptionsValue) × BeginsSession options session.old }
    ensures { (options : OptionsValue) → BeginsSession options session.old →
        RunsScript keeps_going is_raw options (R.remaining reader.old) (R.remaining reader.new)
        (W.contents writer.old) (W.contents writer.new) errors.old errors.new result }
{
    let ran = run_lines(
        rt,
        alloc,
        reader,
        writer,
        errors,
        session,
        is_raw,
        keeps_going,
    );
    let flushed = writer.flush();
    match ran {
        Ok(_) if flushed.is_err() => Err(ScriptFault::WriteFailed),
        ran => ran,
    }
}

/// Runs all lines on a session at its start.
fn run_lines<H: Threads + Wait + Sync, R: BufRead, W: Write, E: Write + Drop>(
    rt: &H,
    alloc: Global,
    reader: &mut R,
    writer: &mut W,
    errors: &mut ErrorOutput<E>,
    session: &mut Session,
    is_raw: bool,
    keeps_going: bool,
) -> Result<bool, ScriptFault>
    requires { (options : OptionsValue) × BeginsSession options session.old }
    ensures { (options : OptionsValue) → BeginsSession options session.old →
        RunsScript keeps_going is_raw options (R.remaining reader.old) (R.remaining reader.new)
        (W.contents writer.old) (W.contents writer.new) errors.old errors.new result }
{
    let mut lines = LineReader::new(alloc);
    let mut skipped = false;
    for number in 1..u64::MAX {
        match run_next(
            rt,
            reader,
            writer,
            errors,
            &mut lines,
            session,
            number,
            &mut skipped,
            is_raw,
            keeps_going,
        ) {
            Ok(true) => {}
            Ok(false) => return Ok(skipped),
            Err(fault) => return Err(fault),
        }
    }
    match no_more(reader, writer, &mut lines, is_raw) {
        Ok(()) => Ok(skipped),
        Err(fault) => Err(fault),
    }
}

/// Takes the next line, which has this number, and runs it, or skips it. Answers whether more lines may come.
fn run_next<H: Threads + Wait + Sync, R: BufRead, W: Write, E: Write + Drop>(
    rt: &H,
    reader: &mut R,
    writer: &mut W,
    errors: &mut ErrorOutput<E>,
    lines: &mut LineReader,
    session: &mut Session,
    number: u64,
    skipped: &mut bool,
    is_raw: bool,
    keeps_going: bool,
) -> Result<bool, ScriptFault>
    requires stands { Stands session.old }
    ensures { TakesTurn keeps_going is_raw session.old session.new number
        (R.remaining reader.old) (R.remaining reader.new) (W.contents writer.old) (W.contents writer.new)
        errors.old errors.new skipped.old skipped.new result }
{
    match lines.next_line(reader, writer, is_raw) {
        Ok(Taken::Ended) => match run_or_skip(
            rt,
            writer,
            errors,
            session,
            lines.text(),
            number,
            skipped,
            is_raw,
            keeps_going,
        ) {
            Ok(()) => Ok(true),
            Err(fault) => Err(fault),
        },
        Ok(Taken::Last) => match run_or_skip(
            rt,
            writer,
            errors,
            session,
            lines.text(),
            number,
            skipped,
            is_raw,
            keeps_going,
        ) {
            Ok(()) => Ok(false),
            Err(fault) => Err(fault),
        },
        Ok(Taken::Nothing) => Ok(false),
        Ok(Taken::TooLong) => Err(ScriptFault::BadLine(number, Reason::TooLong)),
        Err(ReadFault::ReadFailed) => Err(ScriptFault::ReadFailed),
        Err(ReadFault::WriteFailed) => Err(ScriptFault::WriteFailed),
        Err(ReadFault::NoMemory) => Err(ScriptFault::NoMemory),
    }
}

/// Runs the line of a text. If it is bad and the run keeps going, the line is reported and skipped. A command that may
/// have been made, though it has no reply, is reported if the error output explains.
fn run_or_skip<H: Threads + Wait + Sync, W: Write, E: Write + Drop>(
    rt: &H,
    writer: &mut W,
    errors: &mut ErrorOutput<E>,
    session: &mut Session,
    text: &[u8],
    number: u64,
    skipped: &mut bool,
    is_raw: bool,
    keeps_going: bool,
) -> Result<(), ScriptFault>
    requires text { IsLineText is_raw text.now }
    requires stands { Stands session.old }
    ensures { TakesText keeps_going is_raw session.old session.new text.now number
        (W.contents writer.old) (W.contents writer.new) errors.old errors.new skipped.old skipped.new result }
{
    let made = session.made();
    match run_text(rt, writer, session, text, number, is_raw) {
        Ok(true) => {
            report_unsure(session, made, number, errors);
            Ok(())
        }
        Ok(false) => Ok(()),
        Err(fault) => {
            if !keeps_going {
                return Err(fault);
            }
            if !report_bad_line(&fault, errors) {
                return Err(fault);
            }
            *skipped = true;
            Ok(())
        }
    }
}

/// Runs the line of a text, and writes its answer. Behind that the master may forget. Ok says whether the line has a
/// command.
#[tactic(auto, using(crate::proofs::Commanding::line_in, crate::proofs::Commanding::value_in, crate::proofs::Commanding::has_no_command))]
fn run_text<H: Threads + Wait + Sync, W: Write>(
    rt: &H,
    writer: &mut W,
    session: &mut Session,
    text: &[u8],
    number: u64,
    is_raw: bool,
) -> Result<bool, ScriptFault>
    requires text { IsLineText is_raw text.now }
    requires stands { Stands session.old }
    ensures { PrintsText is_raw session.old session.new text.now number
        (W.contents writer.old) (W.contents writer.new) result }
{
    let line = match parse_text(text, is_raw) {
        Ok(line) => line,
        Err(reason) => {
            session.forget();
            return Err(ScriptFault::BadLine(number, reason));
        }
    };
    match line {
        Line::Command(command) => {
            let printed = run_command(writer, session, command, is_raw);
            session.forget();
            match printed {
                Ok(()) => Ok(true),
                Err(fault) => Err(fault),
            }
        }
        other => {
            let printed = run_other(rt, writer, session, text, other, number, is_raw);
            session.forget();
            printed
        }
    }
}

/// Runs the line of a command, and writes its answer. It makes no room for an answer, since the reply is mostly
/// written from the history.
#[inline(always)]
fn run_command<W: Write>(
    writer: &mut W,
    session: &mut Session,
    line: CommandLine<'_>,
    is_raw: bool,
) -> Result<(), ScriptFault>
    requires value { HasValue (shown_command line) }
    ensures { (answer : AnswerValue) × SessionAnswers session.old (shown_command line.entry) session.new answer
        × IsPrinted is_raw (W.contents writer.old) (W.contents writer.new) answer result }
{
    let steps = session.steps_behind(line);
    if steps > 0 {
        return run_tended(writer, session, line, steps, is_raw);
    }
    match session.serve(line) {
        Tried::Replied(place) => match session.write_reply(place, writer, is_raw) {
            Ok(()) => Ok(()),
            Err(_) => Err(ScriptFault::WriteFailed),
        },
        tried => finish_command(writer, session, line, tried, is_raw),
    }
}

/// Runs the line of a command beside the cleaner, which makes up to so many steps behind it, and writes its answer.
#[inline(never)]
fn run_tended<W: Write>(
    writer: &mut W,
    session: &mut Session,
    line: CommandLine<'_>,
    steps: u64,
    is_raw: bool,
) -> Result<(), ScriptFault>
    requires value { HasValue (shown_command line) }
    requires tended { IsTended session.old (shown_command line) steps }
    ensures { (answer : AnswerValue) × SessionAnswers session.old (shown_command line.entry) session.new answer
        × IsPrinted is_raw (W.contents writer.old) (W.contents writer.new) answer result }
{
    let outcome = session.serve_tended(line, steps);
    print(writer, session, &outcome, is_raw)
}

/// Goes on with the line of a command that was tried, and writes its answer.
#[inline(never)]
fn finish_command<W: Write>(
    writer: &mut W,
    session: &mut Session,
    line: CommandLine<'_>,
    tried: Tried,
    is_raw: bool,
) -> Result<(), ScriptFault>
    requires value { HasValue (shown_command line) }
    requires tried { (first : SessionValue) × TriesCommand first (shown_command line) session.old tried }
    ensures { (first : SessionValue) → TriesCommand first (shown_command line.entry) session.old tried →
        (answer : AnswerValue) × SessionAnswers first (shown_command line.entry) session.new answer
        × IsPrinted is_raw (W.contents writer.old) (W.contents writer.new) answer result }
{
    let outcome = session.finish(line, tried);
    print(writer, session, &outcome, is_raw)
}

/// Runs the line of this text, which has no command, and writes its answer. So Ok comes with false.
#[inline(never)]
fn run_other<H: Threads + Wait + Sync, W: Write>(
    rt: &H,
    writer: &mut W,
    session: &mut Session,
    _text: &[u8],
    line: Line<'_>,
    number: u64,
    is_raw: bool,
) -> Result<bool, ScriptFault>
    requires says { SaysIn is_raw _text.now (shown_line line) }
    requires line { IsLine (shown_line line) }
    requires other { command_of (shown_line line) ≡ None }
    requires stands { Stands session.old }
    ensures { (last : SessionValue) → Forgets session.new last → PrintsText is_raw session.old last _text.now number
        (W.contents writer.old) (W.contents writer.new) result }
{
    let backups = session.backups();
    match session.run_any(rt, line) {
        Ok(answer) => print_plain(writer, &answer, is_raw),
        Err(LineFault::NoBackup) => {
            // This text is that of no other line.
            one_plain_line();
            Err(ScriptFault::BadLine(number, Reason::NoBackup(backups)))
        }
        Err(LineFault::NoLaterMaster) => {
            one_plain_line();
            Err(ScriptFault::BadLine(number, Reason::NoLaterMaster))
        }
        Err(LineFault::NoMemory) => Err(ScriptFault::NoMemory),
    }
}

/// Ends a run of which no further line can have a number: only the end of the input may follow.
fn no_more<R: BufRead, W: Write>(
    reader: &mut R,
    writer: &mut W,
    lines: &mut LineReader,
    is_raw: bool,
) -> Result<(), ScriptFault>
    ensures { IsNoMore is_raw (R.remaining reader.old) (R.remaining reader.new)
        (W.contents writer.old) (W.contents writer.new) result }
{
    match lines.next_line(reader, writer, is_raw) {
        Ok(Taken::Nothing) => Ok(()),
        Ok(_) => Err(ScriptFault::BadLine(u64::MAX, Reason::TooMany)),
        Err(ReadFault::ReadFailed) => Err(ScriptFault::ReadFailed),
        Err(ReadFault::WriteFailed) => Err(ScriptFault::WriteFailed),
        Err(ReadFault::NoMemory) => Err(ScriptFault::NoMemory),
    }
}
