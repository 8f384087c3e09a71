//! Parses a line of either kind of script.

ghost use Rattle.std.specs.Prelude.{IfErr, IfOk, IsErr, true};
ghost use Rattle.lines.specs.Grammar.{LineValue, shown_line};
ghost use Rattle.lines.specs.Reasons.{HasReason};
ghost use Rattle.raw_lines.specs.Raw.{SaysIn};

use crate::commands::parse_command;
use lines::{Line, Reason, one_line, parse_line};

/// Parses the text of a line, without the line feed that ends it, of a script with raw bytes (`is_raw`) or of words
/// alone. With Err the line is bad for this reason. It takes no memory: a key and a value are parts of the text.
#[inline(always)]
pub fn parse_text(text: &[u8], is_raw: bool) -> Result<Line<'_>, Reason>
    ensures sound { IfOk result (λ line. SaysIn is_raw text.entry.now (shown_line line)) }
    ensures complete { IsErr result → (line : LineValue) → ¬ SaysIn is_raw text.entry.now line }
    ensures reason { IfErr result (HasReason text.entry.now) }
{
    if is_raw {
        return parse_raw(text);
    }
    parse_line(text)
}

/// The same of a script with raw bytes.
fn parse_raw(text: &[u8]) -> Result<Line<'_>, Reason>
    ensures sound { IfOk result (λ line. SaysIn true text.entry.now (shown_line line)) }
    ensures complete { IsErr result → (line : LineValue) → ¬ SaysIn true text.entry.now line }
    ensures reason { IfErr result (HasReason text.entry.now) }
{
    if let Some(command) = parse_command(text) {
        return Ok(Line::Command(command));
    }
    one_line();
    match parse_line(text) {
        Ok(Line::Command(_)) => Err(Reason::Uncounted),
        Ok(line) => Ok(line),
        Err(_) if has_key(text) => Err(Reason::Uncounted),
        Err(reason) => Err(reason),
    }
}

/// Whether the text begins as a line that has a key.
fn has_key(text: &[u8]) -> bool {
    matches!(
        text,
        [b'p', b'u', b't', b' ', ..]
            | [b'n', b'e', b'w', b' ', ..]
            | [b'c', b'a', b's', b' ', ..]
            | [b'g', b'e', b't', b' ', ..]
            | [b'd', b'e', b'l', b' ', ..]
    )
}
