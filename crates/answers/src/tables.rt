//! Answers of many rows: images, wills, digests, replicas and objects.

ghost use Rattle.std.specs.Prelude.{◌≡◌, ◌<◌, ◌+◌, ◌≤◌, ◌++◌, ◌∷◌, [], length, false};
ghost use Rattle.std.specs.Fmt.{digit_glyph};
ghost use Rattle.tablet_will.specs.Parts.{partitions_of};
ghost use Rattle.answers.specs.Texts.{hex_digits, hex_text, label_text, log_text, object_text, objects_text};
ghost use Rattle.answers.specs.Texts.{part_text, place_text, spaced_text, state_text, will_text};
ghost use Rattle.answers.specs.Errors.{IsHanded};
ghost use Rattle.std.specs.List.{flat_map};
ghost use Rattle.entry.specs.View.{shown_object};

use crate::answer::{write_number, write_versioned};
use crate::handing::{WriteFailed, hand};
use crate::short_line::ShortLine;
use entry::ObjectRef;
use recovery::replay::Objects;
use replica::Label;
use std::io::Write;
use tablet_will::Part;

/// Writes two digits for each byte, and a line feed.
#[inline(never)]
pub(crate) fn write_hex<W: Write>(writer: &mut W, bytes: &[u8]) -> Result<(), WriteFailed>
    ensures { IsHanded (W.contents writer.old) (W.contents writer.new) (hex_text bytes.now) result }
{
    write_hex_bytes(writer, bytes)?;
    hand(writer, b"\n")
}

/// Writes two digits for each byte.
fn write_hex_bytes<W: Write>(writer: &mut W, bytes: &[u8]) -> Result<(), WriteFailed>
    ensures { IsHanded (W.contents writer.old) (W.contents writer.new) (flat_map hex_digits bytes.now) result }
{
    for byte in bytes {
        hand(writer, &[hex_digit(*byte / 16), hex_digit(*byte % 16)])?;
    }
    Ok(())
}

/// A lower case hexadecimal digit.
fn hex_digit(digit: u8) -> u8
    requires { digit < 16 }
    ensures { result ≡ digit_glyph false digit }
{
    if digit < 10 {
        b'0' + digit
    } else {
        b'a' - 10 + digit
    }
}

/// Writes a place as 16 hexadecimal digits, and a space.
fn write_place<W: Write>(writer: &mut W, place: u64) -> Result<(), WriteFailed>
    ensures { IsHanded (W.contents writer.old) (W.contents writer.new) (place_text place ++ 32 ∷ []) result }
{
    write_hex_bytes(writer, &place.to_be_bytes())?;
    hand(writer, b" ")
}

/// Writes the line of a part.
fn write_part<W: Write>(writer: &mut W, part: &Part) -> Result<(), WriteFailed>
    ensures { IsHanded (W.contents writer.old) (W.contents writer.new) (part_text part.now) result }
{
    write_number(writer, b"", part.table, b' ')?;
    write_place(writer, part.first)?;
    write_place(writer, part.last)?;
    write_number(writer, b"", part.partition as u64, b'\n')
}

/// Writes a line for each part of a will, in order, and a line with the number of partitions.
#[inline(never)]
pub(crate) fn write_will<W: Write>(writer: &mut W, parts: &[Part]) -> Result<(), WriteFailed>
    ensures { IsHanded (W.contents writer.old) (W.contents writer.new) (will_text parts.now) result }
{
    for part in parts {
        write_part(writer, part)?;
    }
    write_number(writer, b"partitions ", count_partitions(parts), b'\n')
}

/// How many partitions the parts have.
fn count_partitions(parts: &[Part]) -> u64
    ensures { result ≡ partitions_of parts.now }
{
    match parts {
        [] => 0,
        [.., part] => part.partition as u64 + 1,
    }
}

/// Writes the line of a digest.
#[inline(never)]
pub(crate) fn write_log<W: Write>(writer: &mut W, ids: &[u64]) -> Result<(), WriteFailed>
    ensures { IsHanded (W.contents writer.old) (W.contents writer.new) (log_text ids.now) result }
{
    hand(writer, b"log")?;
    write_ids(writer, ids)?;
    hand(writer, b"\n")
}

/// Writes numbers, each after a space.
fn write_ids<W: Write>(writer: &mut W, ids: &[u64]) -> Result<(), WriteFailed>
    ensures { IsHanded (W.contents writer.old) (W.contents writer.new) (flat_map spaced_text ids.now) result }
{
    for id in ids {
        write_spaced(writer, *id as u128)?;
    }
    Ok(())
}

/// Writes a number after a space.
pub(crate) fn write_spaced<W: Write>(writer: &mut W, number: u128) -> Result<(), WriteFailed>
    ensures { IsHanded (W.contents writer.old) (W.contents writer.new) (spaced_text number) result }
{
    hand(writer, b" ")?;
    hand(writer, itoa::Buffer::new().format(number).as_bytes())
}

/// Writes the line of a replica.
fn write_label<W: Write>(writer: &mut W, label: &Label) -> Result<(), WriteFailed>
    ensures { IsHanded (W.contents writer.old) (W.contents writer.new) (label_text label.now) result }
{
    hand(writer, label_line(label).as_slice())
}

/// The line of a replica.
#[inline(always)]
fn label_line(label: &Label) -> ShortLine
    ensures { result ≡ label_text label.now }
{
    let mut line = ShortLine::new();
    line.put(state_of(label.is_open));
    line.put_space();
    line.put_number(label.len as u64);
    line.put_space();
    line.put_number(label.segment);
    line.put_space();
    line.put_number(label.master);
    line.put_space();
    line.put_number(label.backup);
    line
}

/// The word of a replica's state.
fn state_of(is_open: bool) -> &'static [u8]
    ensures word { state_text is_open ≡ 32 ∷ result.now ++ 10 ∷ [] }
    ensures short { length result.now ≤ 6 }
{
    if is_open { b"open" } else { b"closed" }
}

/// Writes a line for each replica, in order.
#[inline(never)]
pub(crate) fn write_labels<W: Write>(writer: &mut W, labels: &[Label]) -> Result<(), WriteFailed>
    ensures { IsHanded (W.contents writer.old) (W.contents writer.new)
        (flat_map label_text labels.now) result }
{
    for label in labels {
        write_label(writer, label)?;
    }
    Ok(())
}

/// The most bytes of key and value of an object whose line is written at once.
const SHORT_OBJECT_LEN: usize = 176;

/// Writes the line of an object whose key and value are short, in one write.
#[inline(always)]
fn write_short_object<W: Write>(writer: &mut W, object: &ObjectRef<'_>) -> Result<(), WriteFailed>
    requires { length object.now.key.bytes.now + length object.now.value.now ≤ 176 }
    ensures { IsHanded (W.contents writer.old) (W.contents writer.new)
        (object_text (shown_object object.now)) result }
{
    hand(writer, object_line(object).as_slice())
}

/// The line of an object whose key and value are short.
#[inline(always)]
fn object_line(object: &ObjectRef<'_>) -> ShortLine
    requires { length object.now.key.bytes.now + length object.now.value.now ≤ 176 }
    ensures { result ≡ object_text (shown_object object.now) }
{
    let mut line = ShortLine::new();
    line.put(object.value);
    line.put_space();
    line.put_number(object.version.get());
    line.put_space();
    line.put(object.key.bytes);
    line.put_space();
    line.put_number(object.key.table);
    line
}

/// Writes the line of an object whose key and value may be long.
fn write_long_object<W: Write>(writer: &mut W, object: &ObjectRef<'_>) -> Result<(), WriteFailed>
    ensures { IsHanded (W.contents writer.old) (W.contents writer.new)
        (object_text (shown_object object.now)) result }
{
    write_number(writer, b"", object.key.table, b' ')?;
    hand(writer, object.key.bytes)?;
    hand(writer, b" ")?;
    write_versioned(writer, object.version, object.value)
}

/// Writes the line of an object.
fn write_object<W: Write>(writer: &mut W, object: &ObjectRef<'_>) -> Result<(), WriteFailed>
    ensures { IsHanded (W.contents writer.old) (W.contents writer.new)
        (object_text (shown_object object.now)) result }
{
    if object.key.bytes.len() + object.value.len() <= SHORT_OBJECT_LEN {
        write_short_object(writer, object)
    } else {
        write_long_object(writer, object)
    }
}

/// Writes a line for each object, in order, and a line with these words and their number.
#[inline(never)]
pub(crate) fn write_objects<W: Write>(
    writer: &mut W,
    objects: &Objects,
    words: &[u8],
) -> Result<(), WriteFailed>
    requires { length words.now ≤ 20 }
    ensures { IsHanded (W.contents writer.old) (W.contents writer.new) (objects_text words.now objects.now) result }
{
    for object in objects.iter() {
        write_object(writer, &object)?;
    }
    write_number(writer, words, objects.len() as u64, b'\n')
}
