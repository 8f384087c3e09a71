//! Answers of one line with several numbers or words.

ghost use Rattle.std.specs.Prelude.{◌≡◌, ◌+◌, ◌≤◌, ◌++◌, ◌∷◌, [], codes, length};
ghost use Rattle.std.specs.Fmt.{decimal};
ghost use Rattle.recovery.specs.master.cleaner.Passes.{survivor_ids};
ghost use Rattle.answers.specs.Texts.{asked_text, begun_text, cleaned_text, limit_text, live_text};
ghost use Rattle.answers.specs.Texts.{needs_text, op_text, room_text, spaced_text};
ghost use Rattle.answers.specs.Errors.{IsHanded};
ghost use Rattle.lines.specs.Grammar.{fate_word};
ghost use Rattle.std.specs.List.{flat_map};

use crate::answer::write_number;
use crate::handing::{WriteFailed, hand};
use crate::short_line::ShortLine;
use crate::tables::write_spaced;
use recovery::master::Survivors;
use std::io::Write;

/// Writes a line of words and two numbers: those of an op's backup and segment, for example.
#[inline(never)]
pub(crate) fn write_op<W: Write>(
    writer: &mut W,
    words: &[u8],
    first: u64,
    second: u64,
) -> Result<(), WriteFailed>
    requires { length words.now ≤ 20 }
    ensures { IsHanded (W.contents writer.old) (W.contents writer.new)
        (op_text words.now first second) result }
{
    hand(writer, op_line(words, first, second).as_slice())
}

/// The line of words and two numbers.
#[inline(always)]
fn op_line(words: &[u8], first: u64, second: u64) -> ShortLine
    requires { length words.now ≤ 20 }
    ensures { result ≡ op_text words.now first second }
{
    let mut line = ShortLine::new();
    line.put_number(second);
    line.put_space();
    line.put_number(first);
    line.put(words);
    line
}

/// Writes the line of a fault that was asked for.
#[inline(never)]
pub(crate) fn write_fault<W: Write>(
    writer: &mut W,
    takes: u64,
    taken: bool,
) -> Result<(), WriteFailed>
    ensures { IsHanded (W.contents writer.old) (W.contents writer.new) (asked_text takes taken) result }
{
    hand(writer, fault_line(takes, taken).as_slice())
}

/// The line of a fault that was asked for.
#[inline(always)]
fn fault_line(takes: u64, taken: bool) -> ShortLine
    ensures { result ≡ asked_text takes taken }
{
    let mut line = ShortLine::new();
    line.put(fate_of(taken));
    line.put_space();
    line.put_number(takes);
    line.put(b"fault ");
    line
}

/// The word that says whether an op is taken.
fn fate_of(taken: bool) -> &'static [u8]
    ensures word { result.now ≡ fate_word taken }
    ensures short { length result.now ≤ 5 }
{
    if taken { b"taken" } else { b"lost" }
}

/// Writes the line of clients, the rounds of each, and the calls that were accepted.
#[inline(never)]
pub(crate) fn write_counted<W: Write>(
    writer: &mut W,
    clients: u64,
    rounds: u64,
    calls: u64,
) -> Result<(), WriteFailed>
    ensures { IsHanded (W.contents writer.old) (W.contents writer.new)
        (codes "clients " ++ decimal clients ++ 32 ∷ op_text [] rounds calls) result }
{
    hand(writer, counted_line(clients, rounds, calls).as_slice())
}

/// The line of clients, of their rounds and of their calls.
#[inline(always)]
fn counted_line(clients: u64, rounds: u64, calls: u64) -> ShortLine
    ensures { result ≡ codes "clients " ++ decimal clients ++ 32 ∷ op_text [] rounds calls }
{
    let mut line = ShortLine::new();
    line.put_number(calls);
    line.put_space();
    line.put_number(rounds);
    line.put_space();
    line.put_number(clients);
    line.put(b"clients ");
    line
}

/// Writes the line of the seglets that are counted, and free.
#[inline(never)]
pub(crate) fn write_room<W: Write>(writer: &mut W, used: u64, free: u64) -> Result<(), WriteFailed>
    ensures { IsHanded (W.contents writer.old) (W.contents writer.new) (room_text used free) result }
{
    hand(writer, room_line(used, free).as_slice())
}

/// The line of the seglets that are counted, and of those that are free.
#[inline(always)]
fn room_line(used: u64, free: u64) -> ShortLine
    ensures { result ≡ room_text used free }
{
    let mut line = ShortLine::new();
    line.put_number(free);
    line.put(b" free ");
    line.put_number(used);
    line.put(b"used ");
    line
}

/// Writes the line of the bytes of all live objects, and of their limit.
#[inline(never)]
pub(crate) fn write_live<W: Write>(writer: &mut W, bytes: u64, most: u64) -> Result<(), WriteFailed>
    ensures { IsHanded (W.contents writer.old) (W.contents writer.new) (live_text bytes most) result }
{
    hand(writer, live_line(bytes, most).as_slice())
}

/// The line of the bytes of all live objects, and of their limit.
#[inline(always)]
fn live_line(bytes: u64, most: u64) -> ShortLine
    ensures { result ≡ live_text bytes most }
{
    let mut line = ShortLine::new();
    put_limit(&mut line, most);
    line.put_space();
    line.put_number(bytes);
    line.put(b"live ");
    line
}

/// Puts a limit in front of a line: its number, or the word none.
#[inline(always)]
fn put_limit(line: &mut ShortLine, most: u64)
    requires { 20 + length line.old ≤ 240 }
    ensures put { line.new ≡ limit_text most ++ line.old }
    ensures len { length line.new ≤ 20 + length line.old }
{
    if most == u64::MAX {
        line.put(b"none");
    } else {
        line.put_number(most);
    }
}

/// Writes the line of the seglets that a new master needs.
#[inline(never)]
pub(crate) fn write_needs<W: Write>(writer: &mut W, needed: Option<u64>) -> Result<(), WriteFailed>
    ensures { IsHanded (W.contents writer.old) (W.contents writer.new) (needs_text needed) result }
{
    match needed {
        Some(seglets) => write_number(writer, b"needs ", seglets, b'\n'),
        None => hand(writer, b"needs segments\n"),
    }
}

/// Writes the line of the survivors of a pass that began.
#[inline(never)]
pub(crate) fn write_begun<W: Write>(writer: &mut W, survivors: Survivors) -> Result<(), WriteFailed>
    ensures { IsHanded (W.contents writer.old) (W.contents writer.new) (begun_text survivors) result }
{
    hand(writer, b"begun")?;
    write_survivors(writer, survivors)?;
    hand(writer, b"\n")
}

/// Writes the line of the survivors of a cleaning, and of the head that it ended with.
#[inline(never)]
pub(crate) fn write_cleaned<W: Write>(
    writer: &mut W,
    survivors: Survivors,
    head: u64,
) -> Result<(), WriteFailed>
    ensures { IsHanded (W.contents writer.old) (W.contents writer.new) (cleaned_text survivors head) result }
{
    hand(writer, b"cleaned")?;
    write_survivors(writer, survivors)?;
    write_number(writer, b" ", head, b'\n')
}

/// Writes the numbers of survivors, each after a space.
fn write_survivors<W: Write>(writer: &mut W, survivors: Survivors) -> Result<(), WriteFailed>
    ensures { IsHanded (W.contents writer.old) (W.contents writer.new)
        (flat_map spaced_text (survivor_ids survivors)) result }
{
    for place in 0..survivors.count {
        // In 128 bits, so that the sum always fits.
        let id = survivors.first as u128 + place as u128;
        write_spaced(writer, id)?;
    }
    Ok(())
}
