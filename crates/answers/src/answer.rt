//! What a line answers, and its text.

ghost use Rattle.std.specs.Prelude.{◌≡◌, ◌+◌, ◌≤◌, ◌++◌, ◌∷◌, [], codes, drop, length, IfSome};
ghost use Rattle.std.specs.Fmt.{decimal};
ghost use Rattle.answers.specs.Texts.{answer_text, reply_text, step_text, take_fault_text};
ghost use Rattle.answers.specs.Errors.{IsHanded};
ghost use Rattle.history.specs.View.{shown_reply};

use crate::counts::{
    write_begun, write_cleaned, write_counted, write_fault, write_live, write_needs, write_op,
    write_room,
};
use crate::handing::{WriteFailed, hand};
use crate::limits::Limits;
use crate::segment_rows::write_segments;
use crate::short_line::ShortLine;
use crate::tables::{write_hex, write_labels, write_log, write_objects, write_will};
use arrayvec::ArrayString;
use entry::{Row, Version};
use history::{ReplyRef, view_reply};
use itoa::write_digits;
use recovery::master::{Refusal, Reply, SegmentRow, StepAnswer, Survivors};
use recovery::replay::Objects;
use recovery::{Rebuilt, RecoveryFault};
use replica::{Labels, TakeFault};
use std::fmt::{Display, Write as _};
use std::io::Write;
use tablet_will::Part;

/// What a line of a script answers. A command that was refused as Halted or NoMemory may have been applied. After a
/// refusal as Halted or Lost a backup may have taken the op of the line.
#[derive(Drop)]
pub enum Answer {
    /// Nothing is printed.
    Silent,
    Reply(Reply),
    Refused(Refusal),
    /// The bytes of the image of a segment.
    Hex(Row<u8>),
    /// There is no image of this segment.
    NotInLog(u64),
    /// How many more ops the fleet takes.
    Stop(u64),
    /// A fault was asked for: in which take it comes, 1 for the next one, and whether the op of that take is taken.
    Fault(u64, bool),
    /// Masters that start later write format 2.
    Format,
    /// The fleet had taken as many ops as it may, and the master was dropped. The command of the line may have been
    /// applied.
    Stopped,
    Crashed,
    /// The backup that lost all that it held.
    Lost(u64),
    Recovered(Rebuilt),
    NotRecovered(RecoveryFault),
    /// The table was adopted, but the replicas of other masters weren't all freed, and the new master was dropped.
    /// After Fault nobody knows whether the backup took the op.
    NotRetired(TakeFault),
    /// Nothing was recovered, since no number is left for a new master.
    NumbersSpent,
    /// The number of the head, which is open.
    Head(u64),
    /// What the one step did that was asked for.
    Step(StepAnswer),
    /// The survivors of the cleaning that was made, and the head that it ended with.
    Cleaned(Survivors, u64),
    /// How many steps the cleaner made.
    Tended(u64),
    /// How many clients made how many rounds each, and how many calls were accepted.
    Counted(u64, u64, u64),
    /// The ids of the digest in force.
    Log(Row<u64>),
    /// How many seglets of memory are counted as used, and how many are free.
    Room(u64, u64),
    /// The master's segments: first those that have an image, by rising id, then those that wait to be freed.
    Segments(Row<SegmentRow>),
    /// The live objects of a table, in the order of their keys' bytes.
    Listed(Objects),
    /// How many bytes all live objects have together, and how many puts may make them. `u64::MAX` bytes stand for as
    /// many or more, and as the second number for no limit.
    Live(u64, u64),
    /// How many seglets a new master needs to adopt the table that a recovery finds. None if no number is enough: a
    /// digest lists too few segments.
    Needs(Option<u64>),
    /// Masters that start later have this many seglets.
    Seglets(u64),
    /// The parts of the will that was made and handed to the coordinator, and the limits of its partitions.
    Will(Row<Part>, Limits),
    /// No will was made: by these limits a partition may have no byte, or no object.
    BadLimits(Limits),
    /// What the backups hold.
    Holdings(Labels),
    /// The line was refused: there is no master.
    Down,
    /// The line was refused: there is a master.
    Up,
    /// A store of clients could not tell whose its records were. Only tests show that this never comes.
    SeatUnknown,
    /// A cell of a store of clients did not take its record. Only tests show that this never comes.
    CellRefused,
}

// Functions that write a reply are inlined. Those that write a long answer are not: a reply would clear room for their
// results, too.

/// Writes the lines of an answer, each with its line feed.
#[inline(always)]
pub fn write_answer<W: Write>(writer: &mut W, answer: &Answer) -> Result<(), WriteFailed>
    ensures { IsHanded (W.contents writer.old) (W.contents writer.new) (answer_text answer.now) result }
{
    match answer {
        Answer::Silent => Ok(()),
        Answer::Reply(reply) => write_reply(writer, &view_reply(reply)),
        Answer::Refused(refusal) => write_refused(writer, refusal),
        Answer::Hex(bytes) => write_hex(writer, bytes.as_slice()),
        Answer::NotInLog(segment) => write_number(writer, b"refused NotInLog ", *segment, b'\n'),
        Answer::Stop(takes) => write_number(writer, b"stop ", *takes, b'\n'),
        Answer::Fault(takes, taken) => write_fault(writer, *takes, *taken),
        Answer::Format => hand(writer, b"format 2\n"),
        Answer::Stopped => hand(writer, b"stopped\n"),
        Answer::Crashed => hand(writer, b"crashed\n"),
        Answer::Lost(backup) => write_number(writer, b"lost ", *backup, b'\n'),
        Answer::Recovered(rebuilt) => write_objects(writer, &rebuilt.objects, b"recovered "),
        Answer::NotRecovered(fault) => write_refused(writer, fault),
        Answer::NotRetired(fault) => write_take_fault(writer, *fault),
        Answer::NumbersSpent => hand(writer, b"refused NumbersSpent\n"),
        Answer::Head(id) => write_number(writer, b"head ", *id, b'\n'),
        Answer::Step(made) => write_step(writer, made),
        Answer::Cleaned(survivors, head) => write_cleaned(writer, *survivors, *head),
        Answer::Tended(made) => write_number(writer, b"tended ", *made, b'\n'),
        Answer::Counted(clients, rounds, calls) => {
            write_counted(writer, *clients, *rounds, *calls)
        }
        Answer::Log(ids) => write_log(writer, ids.as_slice()),
        Answer::Room(used, free) => write_room(writer, *used, *free),
        Answer::Segments(rows) => write_segments(writer, rows.as_slice()),
        Answer::Listed(objects) => write_objects(writer, objects, b"listed "),
        Answer::Live(bytes, most) => write_live(writer, *bytes, *most),
        Answer::Needs(needed) => write_needs(writer, *needed),
        Answer::Seglets(seglets) => write_number(writer, b"seglets ", *seglets, b'\n'),
        Answer::Will(parts, _) => write_will(writer, parts.as_slice()),
        Answer::BadLimits(_) => hand(writer, b"refused BadLimits\n"),
        Answer::Holdings(labels) => write_labels(writer, labels.as_slice()),
        Answer::Down => hand(writer, b"refused Down\n"),
        Answer::Up => hand(writer, b"refused Up\n"),
        Answer::SeatUnknown => hand(writer, b"refused SeatUnknown\n"),
        Answer::CellRefused => hand(writer, b"refused CellRefused\n"),
    }
}

/// Writes the line of a reply, whose value may lie anywhere.
#[inline(always)]
pub fn write_reply<W: Write>(writer: &mut W, reply: &ReplyRef<'_>) -> Result<(), WriteFailed>
    ensures { IsHanded (W.contents writer.old) (W.contents writer.new)
        (reply_text (shown_reply reply.now)) result }
{
    match reply {
        ReplyRef::Found(version, value) => write_versioned(writer, *version, value.bytes),
        ReplyRef::None => hand(writer, b"none\n"),
        ReplyRef::Ok(version) => write_number(writer, b"ok ", version.get(), b'\n'),
        ReplyRef::Mismatch(None) => hand(writer, b"mismatch none\n"),
        ReplyRef::Mismatch(Some(version)) => {
            write_number(writer, b"mismatch ", version.get(), b'\n')
        }
    }
}

/// Writes the line of a step that was made.
#[inline(never)]
fn write_step<W: Write>(writer: &mut W, made: &StepAnswer) -> Result<(), WriteFailed>
    ensures { IsHanded (W.contents writer.old) (W.contents writer.new) (step_text made.now) result }
{
    match made {
        StepAnswer::Applied(_, reply) => write_reply(writer, &view_reply(reply)),
        StepAnswer::Extended(backup, segment) => write_op(writer, b"extend ", *backup, *segment),
        StepAnswer::Opened(backup, segment) => write_op(writer, b"open ", *backup, *segment),
        StepAnswer::Closed(backup, segment) => write_op(writer, b"close ", *backup, *segment),
        StepAnswer::Rolling(id) => write_number(writer, b"opening ", *id, b'\n'),
        StepAnswer::Compacted(segment, len) => write_op(writer, b"compacted ", *segment, *len),
        StepAnswer::Begun(survivors) => write_begun(writer, *survivors),
        StepAnswer::Moved => hand(writer, b"moved\n"),
        StepAnswer::Carried => hand(writer, b"carried\n"),
        StepAnswer::Dropped => hand(writer, b"dropped\n"),
        StepAnswer::Sealed(backup) => write_number(writer, b"sealed ", *backup, b'\n'),
        StepAnswer::Freed(segment, backup) => write_op(writer, b"freed ", *segment, *backup),
        StepAnswer::Raised(id) => write_number(writer, b"raise ", *id, b'\n'),
        StepAnswer::Repaired(backup, segment) => write_op(writer, b"repair ", *backup, *segment),
    }
}

/// The most bytes of the line of a refusal or of a recovery's fault.
const REFUSED_LEN: usize = 96;

/// Writes the line of a refusal, in one write. The line has room for each text of a refusal.
#[inline(never)]
fn write_refused<W: Write, D: Display>(writer: &mut W, why: &D) -> Result<(), WriteFailed>
    ensures { IfSome (D.output why.now) (λ text. IsHanded (W.contents writer.old) (W.contents writer.new)
        (codes "refused " ++ text ++ 10 ∷ []) result) }
{
    match refused_line(why) {
        Some(line) => hand(writer, line.as_bytes()),
        None => Err(WriteFailed),
    }
}

/// The line of a refusal, or None if it has no room.
fn refused_line<D: Display>(why: &D) -> Option<ArrayString<REFUSED_LEN>>
    ensures { IfSome (D.output why.now) (λ text. IfSome result (λ line.
        line.bytes ≡ codes "refused " ++ text ++ 10 ∷ [])) }
{
    let mut line = ArrayString::<REFUSED_LEN>::new();
    match writeln!(line, "refused {why}") {
        Ok(()) => Some(line),
        Err(_) => None,
    }
}

/// Writes the line of a fault of a take.
#[inline(always)]
fn write_take_fault<W: Write>(writer: &mut W, fault: TakeFault) -> Result<(), WriteFailed>
    ensures { IsHanded (W.contents writer.old) (W.contents writer.new)
        (codes "refused " ++ take_fault_text fault ++ 10 ∷ []) result }
{
    match fault {
        TakeFault::NoMemory => hand(writer, b"refused NoMemory\n"),
        TakeFault::Wrong => hand(writer, b"refused Wrong\n"),
        TakeFault::Fault => hand(writer, b"refused Halted\n"),
        TakeFault::Spent => hand(writer, b"refused Spent\n"),
    }
}

/// Writes words, a number in decimal digits, and a last byte, in one write.
#[inline(always)]
pub fn write_number<W: Write>(
    writer: &mut W,
    words: &[u8],
    number: u64,
    last: u8,
) -> Result<(), WriteFailed>
    requires { length words.now ≤ 20 }
    ensures { IsHanded (W.contents writer.old) (W.contents writer.new)
        (words.now ++ decimal number ++ last ∷ []) result }
{
    let mut line = [last; 48];
    let start = put_number_line(&mut line, words, number);
    hand(writer, &line[start..])
}

/// Puts words and a number before the last byte of the line, and answers where the words begin.
#[inline(always)]
fn put_number_line(line: &mut [u8; 48], words: &[u8], number: u64) -> usize
    requires { length words.now ≤ 20 }
    ensures line { drop result line.new ≡ words.now ++ decimal number ++ drop 47 line.old }
    ensures start { result ≤ 47 }
{
    let digits = write_digits(number, line, 47);
    let start = digits - words.len();
    line[start..digits].copy_from_slice(words);
    start
}

/// Writes the end of a line that shows a version and a value.
#[inline(always)]
pub(crate) fn write_versioned<W: Write>(
    writer: &mut W,
    version: Version,
    value: &[u8],
) -> Result<(), WriteFailed>
    ensures { IsHanded (W.contents writer.old) (W.contents writer.new)
        (decimal version ++ 32 ∷ value.now ++ 10 ∷ []) result }
{
    if value.len() <= SHORT_VALUE_LEN {
        return write_short(writer, version.get(), value);
    }
    write_number(writer, b"", version.get(), b' ')?;
    hand(writer, value)?;
    hand(writer, b"\n")
}

/// The most bytes of a value that is written together with its version.
const SHORT_VALUE_LEN: usize = 128;

/// Writes a number in decimal digits, a space, a short value and a line feed, in one write.
#[inline(always)]
fn write_short<W: Write>(writer: &mut W, number: u64, value: &[u8]) -> Result<(), WriteFailed>
    requires { length value.now ≤ 128 }
    ensures { IsHanded (W.contents writer.old) (W.contents writer.new)
        (decimal number ++ 32 ∷ value.now ++ 10 ∷ []) result }
{
    hand(writer, versioned_line(number, value).as_slice())
}

/// The line of a number and a short value.
#[inline(always)]
fn versioned_line(number: u64, value: &[u8]) -> ShortLine
    requires { length value.now ≤ 128 }
    ensures { result ≡ decimal number ++ 32 ∷ value.now ++ 10 ∷ [] }
{
    let mut line = ShortLine::new();
    line.put(value);
    line.put_space();
    line.put_number(number);
    line
}
