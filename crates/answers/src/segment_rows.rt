//! The rows of a master's segments, and their text.

ghost use Rattle.std.specs.Prelude.{◌≡◌, ◌≤◌, length};
ghost use Rattle.std.specs.List.{flat_map};
ghost use Rattle.answers.specs.Errors.{IsHanded};
ghost use Rattle.answers.specs.Texts.{role_text, segment_text};

use crate::handing::{WriteFailed, hand};
use crate::short_line::ShortLine;
use recovery::master::{Role, SegmentRow};
use std::io::Write;

/// Writes a line for each row, in order.
#[inline(never)]
pub(crate) fn write_segments<W: Write>(
    writer: &mut W,
    rows: &[SegmentRow],
) -> Result<(), WriteFailed>
    ensures { IsHanded (W.contents writer.old) (W.contents writer.new)
        (flat_map segment_text rows.now) result }
{
    for row in rows {
        write_segment(writer, row)?;
    }
    Ok(())
}

/// Writes the line of a row, in one write.
fn write_segment<W: Write>(writer: &mut W, row: &SegmentRow) -> Result<(), WriteFailed>
    ensures { IsHanded (W.contents writer.old) (W.contents writer.new) (segment_text row.now) result }
{
    hand(writer, segment_line(row).as_slice())
}

/// The line of a row.
#[inline(always)]
fn segment_line(row: &SegmentRow) -> ShortLine
    ensures { result ≡ segment_text row.now }
{
    let mut line = ShortLine::new();
    line.put_number(row.replicas as u64);
    line.put_space();
    line.put_number(row.kept as u64);
    line.put_space();
    line.put_number(row.len as u64);
    line.put_space();
    line.put(role_word(row.role));
    line.put_space();
    line.put_number(row.id);
    line
}

/// The word of a role.
fn role_word(role: Role) -> &'static [u8]
    ensures word { role_text role ≡ result.now }
    ensures short { length result.now ≤ 8 }
{
    match role {
        Role::Head => b"head",
        Role::Opening => b"opening",
        Role::Closed => b"closed",
        Role::Victim => b"victim",
        Role::Survivor => b"survivor",
        Role::Waiting => b"waiting",
    }
}
