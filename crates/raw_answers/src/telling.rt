//! Writes answers as a script with raw bytes prints them.

ghost use Rattle.std.specs.Prelude.{◌≡◌, ◌≤◌, ◌++◌, ◌∷◌, [], false, length, true};
ghost use Rattle.std.specs.Fmt.{decimal};
ghost use Rattle.answers.specs.Errors.{IsHanded};
ghost use Rattle.entry.specs.View.{shown_object};
ghost use Rattle.history.specs.View.{shown_reply};
ghost use Rattle.raw_lines.specs.Raw.{counted};
ghost use Rattle.raw_answers.specs.Texts.{raw_object_text, raw_objects_text, raw_reply_text, reply_in, told_text};

use answers::replay::Objects;
use answers::{Answer, WriteFailed, hand, write_answer, write_number, write_reply};
use entry::{ObjectRef, Version};
use history::{ReplyRef, view_reply};
use std::io::Write;

/// Writes the lines of an answer, each with its line feed, as a script with raw bytes (`is_raw`) or one of words alone
/// prints them.
#[tactic(auto, using(crate::proofs::Parts::told_plain))]
#[inline(always)]
pub fn write_told<W: Write>(
    writer: &mut W,
    answer: &Answer,
    is_raw: bool,
) -> Result<(), WriteFailed>
    ensures { IsHanded (W.contents writer.old) (W.contents writer.new) (told_text is_raw answer.now) result }
{
    if is_raw {
        return write_raw(writer, answer);
    }
    write_answer(writer, answer)
}

/// Writes the line of a reply, whose value may lie anywhere.
#[inline(always)]
pub fn write_reply_in<W: Write>(
    writer: &mut W,
    reply: &ReplyRef<'_>,
    is_raw: bool,
) -> Result<(), WriteFailed>
    ensures { IsHanded (W.contents writer.old) (W.contents writer.new)
        (reply_in is_raw (shown_reply reply.now)) result }
{
    if is_raw {
        return write_raw_reply(writer, reply);
    }
    write_reply(writer, reply)
}

/// Writes the lines of an answer with raw bytes.
#[inline(never)]
fn write_raw<W: Write>(writer: &mut W, answer: &Answer) -> Result<(), WriteFailed>
    ensures { IsHanded (W.contents writer.old) (W.contents writer.new) (told_text true answer.now) result }
{
    match answer {
        Answer::Reply(reply) => write_raw_reply(writer, &view_reply(reply)),
        Answer::Recovered(rebuilt) => write_raw_objects(writer, &rebuilt.objects, b"recovered "),
        Answer::Listed(objects) => write_raw_objects(writer, objects, b"listed "),
        other => write_answer(writer, other),
    }
}

/// Writes the line of a reply with raw bytes.
#[inline(never)]
fn write_raw_reply<W: Write>(writer: &mut W, reply: &ReplyRef<'_>) -> Result<(), WriteFailed>
    ensures { IsHanded (W.contents writer.old) (W.contents writer.new)
        (raw_reply_text (shown_reply reply.now)) result }
{
    match reply {
        ReplyRef::Found(version, value) => write_raw_value(writer, *version, value.bytes),
        other => write_reply(writer, other),
    }
}

/// Writes a version, and a value behind its length.
fn write_raw_value<W: Write>(
    writer: &mut W,
    version: Version,
    value: &[u8],
) -> Result<(), WriteFailed>
    ensures { IsHanded (W.contents writer.old) (W.contents writer.new)
        (decimal version ++ 32 ∷ (counted value.now ++ 10 ∷ [])) result }
{
    write_number(writer, b"", version.get(), b' ')?;
    write_counted(writer, value, b'\n')
}

/// Writes bytes behind their length, and one byte more.
fn write_counted<W: Write>(writer: &mut W, bytes: &[u8], last: u8) -> Result<(), WriteFailed>
    ensures { IsHanded (W.contents writer.old) (W.contents writer.new) (counted bytes.now ++ last ∷ []) result }
{
    write_number(writer, b"", bytes.len() as u64, b':')?;
    hand(writer, bytes)?;
    hand(writer, &[last])
}

/// Writes the line of an object.
fn write_raw_object<W: Write>(writer: &mut W, object: &ObjectRef<'_>) -> Result<(), WriteFailed>
    ensures { IsHanded (W.contents writer.old) (W.contents writer.new)
        (raw_object_text (shown_object object.now)) result }
{
    write_number(writer, b"", object.key.table, b' ')?;
    write_counted(writer, object.key.bytes, b' ')?;
    write_raw_value(writer, object.version, object.value)
}

/// Writes a line for each object, in order, and a line with these words and their number.
#[inline(never)]
fn write_raw_objects<W: Write>(
    writer: &mut W,
    objects: &Objects,
    words: &[u8],
) -> Result<(), WriteFailed>
    requires { length words.now ≤ 20 }
    ensures { IsHanded (W.contents writer.old) (W.contents writer.new)
        (raw_objects_text words.now objects.now) result }
{
    for object in objects.iter() {
        write_raw_object(writer, &object)?;
    }
    write_number(writer, words, objects.len() as u64, b'\n')
}
