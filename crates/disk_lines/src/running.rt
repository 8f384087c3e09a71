//! Runs lines: groups of commands, and other lines one by one.

ghost use Rattle.std.specs.Prelude.{◌<◌, ◌-◌, ◌^◌, List, ℕ};
ghost use Rattle.lines.specs.Grammar.{shown_command};
ghost use Rattle.lines.specs.Reading.{TakesLine};
ghost use Rattle.embedded.specs.declared.reply.Reply.{Reply as ReplyValue};
ghost use Rattle.disk_lines.specs.Lines.{CarriesOutLine, IsShown};
ghost use Rattle.disk_lines.specs.Runs.{RunsFrom};
ghost use Rattle.disk_lines.specs.Turns.{IsWritten, Known, PrintsText, TakesTurn};

use crate::answering::answer_group;
use crate::gathering::gather;
use crate::printing::{write_bytes, write_reply, write_table};
use crate::serving::serve_line;
use crate::upkeep::Upkeep;
use answers::ScriptFault;
use file_fleet::FleetRegistry;
use file_store::FileStore;
use lines::{CommandLine, Line, LineReader, ReadFault, Reason, Taken};
use raw_lines::parse_text;
use std::alloc::Global;
use std::io::{BufRead, Write};
use take_journal::Device;

/// Runs the lines of the reader, from the one with this number on, until they end, or until a bad line or a fault ends
/// the run.
pub(crate) fn run_from<R: BufRead, W: Write, D: Device, G: FleetRegistry, U: Upkeep<D, G>>(
    alloc: Global,
    reader: &mut R,
    writer: &mut W,
    store: &mut FileStore<D, G>,
    upkeep: &mut U,
    first: u64,
    is_raw: bool,
) -> Result<(), ScriptFault>
    ensures { RunsFrom is_raw first store.old.master.knows store.new.master.knows
        (R.remaining reader.old) (R.remaining reader.new) (W.contents writer.old) (W.contents writer.new) result }
{
    let mut lines = LineReader::new(alloc);
    let mut number = first;
    while number < u64::MAX {
        match tend_turn(
            alloc, reader, writer, &mut lines, store, upkeep, number, is_raw,
        ) {
            Ok(Some(next)) => number = next,
            Ok(None) => return Ok(()),
            Err(fault) => return Err(fault),
        }
    }
    Err(ScriptFault::BadLine(u64::MAX, Reason::TooMany))
}

/// Runs lines as `run_turn` does, and calls `upkeep` behind them.
fn tend_turn<R: BufRead, W: Write, D: Device, G: FleetRegistry, U: Upkeep<D, G>>(
    alloc: Global,
    reader: &mut R,
    writer: &mut W,
    lines: &mut LineReader,
    store: &mut FileStore<D, G>,
    upkeep: &mut U,
    number: u64,
    is_raw: bool,
) -> Result<Option<u64>, ScriptFault>
    requires { number < 2 ^ 64 - 1 }
    ensures { TakesTurn is_raw number store.old.master.knows store.new.master.knows
        (R.remaining reader.old) (R.remaining reader.new) (W.contents writer.old) (W.contents writer.new) result }
{
    let ran = run_turn(alloc, reader, writer, lines, store, number, is_raw);
    upkeep.between(store);
    ran
}

/// Runs lines from the one with this number on: a group of commands that are at hand together, and the line that ends
/// it, if one does. Either may be missing. The commands of the group are applied, then pushed together, and only then
/// answered. Answers the number of the next line, if one may come.
fn run_turn<R: BufRead, W: Write, D: Device, G: FleetRegistry>(
    alloc: Global,
    reader: &mut R,
    writer: &mut W,
    lines: &mut LineReader,
    store: &mut FileStore<D, G>,
    number: u64,
    is_raw: bool,
) -> Result<Option<u64>, ScriptFault>
    requires { number < 2 ^ 64 - 1 }
    ensures { TakesTurn is_raw number store.old.master.knows store.new.master.knows
        (R.remaining reader.old) (R.remaining reader.new) (W.contents writer.old) (W.contents writer.new) result }
{
    store.master.show_valid();
    let (count, gathered) = gather(reader, writer, lines, store, number, is_raw);
    store.master.show_valid();
    if let Err(fault) = answer_group(writer, store, count, is_raw) {
        return Err(fault);
    }
    match gathered {
        Ok(Some(taken)) => {
            run_taken(
                alloc,
                writer,
                store,
                lines.text(),
                taken,
                number + count,
                is_raw,
            )
        }
        Ok(None) => Ok(Some(number + count)),
        Err(ReadFault::ReadFailed) => Err(ScriptFault::ReadFailed),
        Err(ReadFault::WriteFailed) => Err(ScriptFault::WriteFailed),
        Err(ReadFault::NoMemory) => Err(ScriptFault::NoMemory),
    }
}

/// Runs the line that was taken behind a group, which has this number, by itself. Answers the number of the next line,
/// if one may come.
fn run_taken<W: Write, D: Device, G: FleetRegistry>(
    alloc: Global,
    writer: &mut W,
    store: &mut FileStore<D, G>,
    text: &[u8],
    taken: Taken,
    number: u64,
    is_raw: bool,
) -> Result<Option<u64>, ScriptFault>
    requires { number < 2 ^ 64 - 1 }
    ensures { (had left : Known) → TakesLine is_raw had left text.now taken
        → TakesTurn is_raw number store.old.master.knows store.new.master.knows had left
        (W.contents writer.old) (W.contents writer.new) result }
{
    match taken {
        Taken::Ended => match run_text(alloc, writer, store, text, number, is_raw) {
            Ok(()) => Ok(Some(number + 1)),
            Err(fault) => Err(fault),
        },
        Taken::Last => match run_text(alloc, writer, store, text, number, is_raw) {
            Ok(()) => Ok(None),
            Err(fault) => Err(fault),
        },
        Taken::Nothing => Ok(None),
        Taken::TooLong => Err(ScriptFault::BadLine(number, Reason::TooLong)),
    }
}

/// Runs the line of a text, and writes what is printed of it.
fn run_text<W: Write, D: Device, G: FleetRegistry>(
    alloc: Global,
    writer: &mut W,
    store: &mut FileStore<D, G>,
    text: &[u8],
    number: u64,
    is_raw: bool,
) -> Result<(), ScriptFault>
    ensures { PrintsText is_raw store.old.master.knows store.new.master.knows text.now number
        (W.contents writer.old) (W.contents writer.new) result }
{
    let line = match parse_text(text, is_raw) {
        Ok(line) => line,
        Err(reason) => return Err(ScriptFault::BadLine(number, reason)),
    };
    match line {
        Line::Idle => Ok(()),
        Line::Command(command) => run_command(writer, store, command, is_raw),
        Line::List { table } => write_table(alloc, writer, store, table, is_raw),
        _ => write_bytes(writer, b"refused NotOnDisk\n"),
    }
}

/// Carries out the command of a line, and writes what came of it.
fn run_command<W: Write, D: Device, G: FleetRegistry>(
    writer: &mut W,
    store: &mut FileStore<D, G>,
    line: CommandLine<'_>,
    is_raw: bool,
) -> Result<(), ScriptFault>
    ensures { (r : ReplyValue) × CarriesOutLine store.old.master.knows (shown_command line.entry) r
        store.new.master.knows × (printed : List ℕ) × IsShown is_raw store.new.master.knows r printed
        × IsWritten (W.contents writer.old) (W.contents writer.new) printed result }
{
    let reply = serve_line(store, line);
    write_reply(writer, store, &reply, is_raw)
}
