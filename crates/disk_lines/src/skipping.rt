//! Runs all lines, and goes on behind bad ones if it keeps going.

ghost use Rattle.std.specs.Prelude.{◌≡◌, ◌<◌, ◌-◌, ◌^◌, true, false};
ghost use Rattle.disk_lines.specs.Skips.{MaySkip, RunsLines, Skips};

use crate::running::run_from;
use crate::upkeep::Upkeep;
use answers::{ErrorOutput, ScriptFault, report};
use file_fleet::FleetRegistry;
use file_store::FileStore;
use lines::Reason;
use std::alloc::Global;
use std::io::{BufRead, Write};
use take_journal::Device;

/// Runs the lines of the reader in order, and hands what is printed of each to the writer. Commands whose lines are at
/// hand together, up to 1,024, are a group: they are applied one after another, then pushed together, and only then
/// answered. So a command that is alone at hand is answered at once, and of many each pays a part of the syncs. It
/// flushes the writer before it waits for more lines. With `is_raw` keys and values are any bytes, each behind its
/// length. A fault ends the run: what was answered before is on the disk. Between the lines it calls `upkeep`.
///
/// A bad line ends the run. If it keeps going, a bad line is reported on the error output and skipped instead, but for
/// one that is too long. Ok says whether a line was skipped.
pub fn run_lines<
    R: BufRead,
    W: Write,
    E: Write + Drop,
    D: Device,
    G: FleetRegistry,
    U: Upkeep<D, G>,
>(
    alloc: Global,
    reader: &mut R,
    writer: &mut W,
    errors: &mut ErrorOutput<E>,
    store: &mut FileStore<D, G>,
    upkeep: &mut U,
    is_raw: bool,
    keeps_going: bool,
) -> Result<bool, ScriptFault>
    // Each line was run, in order, over the store's own master, by itself or in a group. Exactly what is printed of
    // them was written. Each bad line is named.
    ensures { RunsLines keeps_going is_raw store.old.master.knows store.new.master.knows
        (R.remaining reader.old) (R.remaining reader.new) (W.contents writer.old) (W.contents writer.new)
        errors.old errors.new result }
{
    let ran = run_past(
        alloc,
        reader,
        writer,
        errors,
        store,
        upkeep,
        is_raw,
        keeps_going,
    );
    let flushed = writer.flush();
    match ran {
        Ok(_) if flushed.is_err() => Err(ScriptFault::WriteFailed),
        ran => ran,
    }
}

/// Runs all lines, and goes on behind bad ones if it keeps going.
fn run_past<R: BufRead, W: Write, E: Write + Drop, D: Device, G: FleetRegistry, U: Upkeep<D, G>>(
    alloc: Global,
    reader: &mut R,
    writer: &mut W,
    errors: &mut ErrorOutput<E>,
    store: &mut FileStore<D, G>,
    upkeep: &mut U,
    is_raw: bool,
    keeps_going: bool,
) -> Result<bool, ScriptFault>
    ensures { RunsLines keeps_going is_raw store.old.master.knows store.new.master.knows
        (R.remaining reader.old) (R.remaining reader.new) (W.contents writer.old) (W.contents writer.new)
        errors.old errors.new result }
{
    let mut first = 1;
    let mut skipped = false;
    while first < u64::MAX {
        match run_from(alloc, reader, writer, store, upkeep, first, is_raw) {
            Ok(()) => return Ok(skipped),
            Err(fault) => match skip(&fault, errors, keeps_going) {
                Some(next) => {
                    first = next;
                    skipped = true;
                }
                None => return Err(fault),
            },
        }
    }
    Err(ScriptFault::BadLine(u64::MAX, Reason::TooMany))
}

/// Reports a bad line behind which a run can go on, if it keeps going, and answers the number of the next line. Else it
/// answers None, and reports nothing.
fn skip<E: Write + Drop>(
    fault: &ScriptFault,
    errors: &mut ErrorOutput<E>,
    keeps_going: bool,
) -> Option<u64>
    ensures { Skips keeps_going fault.now errors.old errors.new result }
{
    if !keeps_going {
        return None;
    }
    match fault {
        ScriptFault::BadLine(number, why) => {
            if !has_next(*number, why) {
                return None;
            }
            report(fault, errors);
            Some(*number + 1)
        }
        _ => None,
    }
}

/// Whether a run can go on behind a line with this number that is bad for this reason.
fn has_next(number: u64, why: &Reason) -> bool
    ensures yes { result ≡ true → MaySkip why.now × (number < 2 ^ 64 - 1) }
    ensures no { result ≡ false → MaySkip why.now → number < 2 ^ 64 - 1 → ⊥ }
{
    match why {
        Reason::TooLong | Reason::TooMany => false,
        _ => number < u64::MAX,
    }
}
