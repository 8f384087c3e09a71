//! What is printed of lines.

ghost use Rattle.std.specs.Prelude.{◌≡◌, ◌≤◌, ◌-◌, ◌++◌, ◌∷◌, [], true, length, List, ℕ};
ghost use Rattle.std.specs.Option.{option_map};
ghost use Rattle.history.specs.View.{shown_reply};
ghost use Rattle.versioned_map.specs.declared.command.Reply.{Reply as MapReply};
ghost use Rattle.raw_answers.specs.Texts.{reply_in};
ghost use Rattle.answers.specs.driving.Served.{is_of_push};
ghost use Rattle.embedded.specs.Replies.{IsReadAt, kept_reply, number_of};
ghost use Rattle.disk_lines.specs.Lines.{IsShown, ShowsTable, word_of};
ghost use Rattle.disk_lines.specs.Turns.{IsPushed, IsWritten, told_at, told_from};

use answers::replay::Objects;
use answers::{Answer, ScriptFault, hand};
use embedded::master::Refusal;
use entry::NoMemory;
use file_fleet::FleetRegistry;
use file_store::{FileStore, Reply, Status};
use history::ReplyRef;
use raw_answers::{write_reply_in, write_told};
use std::alloc::Global;
use std::io::Write;
use take_journal::Device;

/// The word of the refusal that has this number.
fn word_of(number: u64) -> &'static str
    ensures { result.now ≡ word_of number }
{
    match number {
        1 => "TooBig",
        2 => "Full",
        3 => "VersionsSpent",
        4 => "HistoryFull",
        5 => "NoMemory",
        6 => "Halted",
        7 => "Rolling",
        10 => "Spent",
        11 => "SegmentsSpent",
        12 => "NoTablet",
        13 => "Lost",
        14 => "Overcommit",
        _ => "Down",
    }
}

/// Writes these bytes.
pub(crate) fn write_bytes<W: Write>(writer: &mut W, bytes: &[u8]) -> Result<(), ScriptFault>
    ensures { IsWritten (W.contents writer.old) (W.contents writer.new) bytes.now result }
{
    match hand(writer, bytes) {
        Ok(()) => Ok(()),
        Err(_) => Err(ScriptFault::WriteFailed),
    }
}

/// Writes a line of two words, of which the first ends with a space.
fn write_words<W: Write>(writer: &mut W, first: &[u8], second: &str) -> Result<(), ScriptFault>
    ensures { IsWritten (W.contents writer.old) (W.contents writer.new) (first.now ++ second.now ++ 10 ∷ []) result }
{
    match write_bytes(writer, first) {
        Ok(()) => match write_bytes(writer, second.as_bytes()) {
            Ok(()) => write_bytes(writer, b"\n"),
            Err(fault) => Err(fault),
        },
        Err(fault) => Err(fault),
    }
}

/// The reply of the record at this place, unless it is forgotten.
fn reply_at<D: Device, G: FleetRegistry>(
    store: &FileStore<D, G>,
    place: u64,
) -> Option<ReplyRef<'_>>
    ensures { option_map shown_reply result ≡ kept_reply store.entry.now.master.knows place }
{
    store.master.history().reply(place as usize)
}

/// Writes the reply of the record at a place.
fn write_record<W: Write, D: Device, G: FleetRegistry>(
    writer: &mut W,
    store: &FileStore<D, G>,
    place: u64,
    is_raw: bool,
) -> Result<(), ScriptFault>
    requires { (reply : MapReply) × IsReadAt store.now.master.knows place reply }
    ensures { (reply : MapReply) → IsReadAt store.now.master.knows place reply →
        IsWritten (W.contents writer.old) (W.contents writer.new) (reply_in is_raw reply) result }
{
    match reply_at(store, place) {
        Some(reply) => match write_reply_in(writer, &reply, is_raw) {
            Ok(()) => Ok(()),
            Err(_) => Err(ScriptFault::WriteFailed),
        },
        None => unreachable!(),
    }
}

/// Writes what came of a command.
pub(crate) fn write_reply<W: Write, D: Device, G: FleetRegistry>(
    writer: &mut W,
    store: &FileStore<D, G>,
    reply: &Reply,
    is_raw: bool,
) -> Result<(), ScriptFault>
    requires { (printed : List ℕ) × IsShown is_raw store.now.master.knows reply.now printed }
    ensures { (printed : List ℕ) × IsShown is_raw store.now.master.knows reply.now printed
        × IsWritten (W.contents writer.old) (W.contents writer.new) printed result }
{
    match reply.status {
        Status::Refused => write_words(writer, b"refused ", word_of(reply.refusal)),
        Status::Unsure => write_words(writer, b"unsure ", word_of(reply.refusal)),
        _ => write_record(writer, store, reply.place, is_raw),
    }
}

/// The word of a refusal that a push may give.
pub(crate) fn word_of_push(refusal: &Refusal) -> &'static str
    requires { is_of_push refusal.now ≡ true }
    ensures { result.now ≡ word_of (number_of refusal.now) }
{
    match refusal {
        Refusal::Halted => "Halted",
        Refusal::Spent => "Spent",
        Refusal::NoMemory => "NoMemory",
        _ => unreachable!(),
    }
}

/// Writes what came of the record at a place that was pushed for: its reply, or that it isn't durable, and why.
fn write_pushed<W: Write, D: Device, G: FleetRegistry>(
    writer: &mut W,
    store: &FileStore<D, G>,
    place: u64,
    why: &str,
    is_raw: bool,
) -> Result<(), ScriptFault>
    requires { (reply : MapReply) × IsReadAt store.now.master.knows place reply }
    ensures { IsWritten (W.contents writer.old) (W.contents writer.new)
        (told_at is_raw store.now.master.knows why.now place) result }
{
    if place < store.master.durable() {
        write_record(writer, store, place, is_raw)
    } else {
        write_words(writer, b"unsure ", why)
    }
}

/// Writes what came of the records at these places, the last of which was pushed for. `why` is the word of the refusal
/// that ended the push, if one did.
pub(crate) fn write_group<W: Write, D: Device, G: FleetRegistry>(
    writer: &mut W,
    store: &FileStore<D, G>,
    first: u64,
    end: u64,
    why: &str,
    is_raw: bool,
) -> Result<(), ScriptFault>
    requires within { first ≤ end }
    requires kept { store.now.master.knows.forgotten ≤ first }
    requires there { end ≡ length store.now.master.knows.history }
    requires pushed { IsPushed store.now.master.knows why.now }
    ensures { IsWritten (W.contents writer.old) (W.contents writer.new)
        (told_from is_raw store.now.master.knows why.now first (end - first)) result }
{
    for place in first..end {
        if let Err(fault) = write_pushed(writer, store, place, why, is_raw) {
            return Err(fault);
        }
    }
    Ok(())
}

/// Writes the objects of a table, and how many there are.
pub(crate) fn write_table<W: Write, D: Device, G: FleetRegistry>(
    alloc: Global,
    writer: &mut W,
    store: &FileStore<D, G>,
    table: u64,
    is_raw: bool,
) -> Result<(), ScriptFault>
    ensures { (printed : List ℕ) × ShowsTable is_raw store.now.master.knows table printed
        × IsWritten (W.contents writer.old) (W.contents writer.new) printed result }
{
    match store.master.objects(table) {
        Ok(objects) => {
            match write_told(
                writer,
                &Answer::Listed(Objects::new(alloc, objects)),
                is_raw,
            ) {
                Ok(()) => Ok(()),
                Err(_) => Err(ScriptFault::WriteFailed),
            }
        }
        Err(NoMemory) => write_bytes(writer, b"refused NoMemory\n"),
    }
}
