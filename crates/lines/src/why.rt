//! Finds out why a line is bad.

ghost use Rattle.std.specs.Prelude.{◌≡◌, [], IfSome, IsTrue};
ghost use Rattle.lines.specs.Reasons.{HasCapital, HasHidden, HasReason, HasWord, IsWrong, IsWrongWord};
ghost use Rattle.lines.specs.Cutting.{words_left};

use crate::reason::{Reason, Shape};
use crate::words::{MAX_KEY_LEN, Words, is_number, split_word};

/// The commands, each with its shape.
const COMMANDS: &[(&str, Shape)] = &[
    ("put", Shape::Value),
    ("new", Shape::Value),
    ("cas", Shape::Version),
    ("get", Shape::Key),
    ("del", Shape::Key),
    ("compact", Shape::Segment),
    ("roll", Shape::Alone),
    ("beginroll", Shape::Alone),
    ("push", Shape::Alone),
    ("log", Shape::Alone),
    ("room", Shape::Alone),
    ("segments", Shape::Alone),
    ("list", Shape::Table),
    ("live", Shape::Alone),
    ("needs", Shape::Alone),
    ("hex", Shape::Segment),
    ("stop", Shape::Ops),
    ("fault", Shape::Fault),
    ("format", Shape::Format),
    ("seglets", Shape::Seglets),
    ("crash", Shape::Alone),
    ("lose", Shape::Backup),
    ("will", Shape::Alone),
    ("recover", Shape::Order),
    ("holdings", Shape::Alone),
    ("clean", Shape::Segments),
    ("begin", Shape::Segments),
    ("copy", Shape::Alone),
    ("seal", Shape::Alone),
    ("free", Shape::Alone),
    ("tend", Shape::Steps),
    ("clients", Shape::Clients),
];

/// Why a text is no line.
pub(crate) fn reason_of(text: &[u8]) -> Reason
    ensures { HasReason text.now result }
{
    if matches!(text, [.., b'\r']) {
        return Reason::CarriageReturn;
    }
    if let Some(byte) = hidden_byte(text) {
        return Reason::Byte(byte);
    }
    if has_empty_word(text) {
        return Reason::Spaces;
    }
    let (first, rest) = split_word(text);
    match command(first) {
        Some((name, shape)) => match wrong_word(rest, shape) {
            Some(reason) => reason,
            None => Reason::Shape(name, shape),
        },
        None if has_capital(first) => Reason::Capital,
        None => Reason::Unknown,
    }
}

/// The first byte that is neither a space nor visible.
fn hidden_byte(text: &[u8]) -> Option<u8>
    ensures { IfSome result (HasHidden text.now) }
{
    text.iter()
        .copied()
        .find(|byte| *byte < 0x20 || *byte > 0x7e)
}

/// Whether the text has a word without a byte.
fn has_empty_word(text: &[u8]) -> bool
    ensures { IsTrue result → HasWord text.now [] }
{
    let mut words = Words::of(text);
    while let Some(word) = words.next_word() {
        if word.is_empty() {
            return true;
        }
    }
    false
}

/// The command with this name.
fn command(name: &[u8]) -> Option<(&'static str, Shape)>
    ensures { IfSome result (λ command. command.0.now ≡ name.now) }
{
    COMMANDS
        .iter()
        .copied()
        .find(|command| command.0.as_bytes() == name)
}

/// Whether one of the bytes is a capital letter.
fn has_capital(word: &[u8]) -> bool
    ensures { IsTrue result → HasCapital word.now }
{
    word.iter().any(|byte| byte.is_ascii_uppercase())
}

/// Why one of the words behind a command's name is wrong. `None` if there are more or fewer words than the command
/// has.
fn wrong_word(rest: Option<&[u8]>, shape: Shape) -> Option<Reason>
    ensures { IfSome result (IsWrong (words_left rest.entry)) }
{
    match shape {
        Shape::Value => wrong_of(rest, &[WordKind::Number, WordKind::Key, WordKind::Any]),
        Shape::Version => wrong_of(
            rest,
            &[
                WordKind::Number,
                WordKind::Key,
                WordKind::Number,
                WordKind::Any,
            ],
        ),
        Shape::Key => wrong_of(rest, &[WordKind::Number, WordKind::Key]),
        Shape::Table
        | Shape::Segment
        | Shape::Ops
        | Shape::Backup
        | Shape::Seglets
        | Shape::Steps => wrong_of(rest, &[WordKind::Number]),
        Shape::Fault => wrong_of(rest, &[WordKind::Number, WordKind::Any]),
        Shape::Segments => wrong_number(rest),
        Shape::Clients => wrong_of(
            rest,
            &[WordKind::Number, WordKind::Number, WordKind::Number],
        ),
        Shape::Order | Shape::Alone | Shape::Format => None,
    }
}

/// A kind of word behind a command's name.
#[derive(Clone, Copy)]
enum WordKind {
    Number,
    Key,
    Any,
}

/// Why one of the words isn't of its kind. `None` if there are more or fewer words than kinds.
fn wrong_of(rest: Option<&[u8]>, kinds: &[WordKind]) -> Option<Reason>
    ensures { IfSome result (IsWrong (words_left rest.entry)) }
{
    let mut words = Words::left(rest);
    let mut found = None;
    for kind in kinds {
        let word = words.next_word()?;
        if found.is_none() {
            found = wrong_of_kind(word, *kind);
        }
    }
    words.end()?;
    found
}

/// Why the word isn't of this kind, or `None` if it is.
fn wrong_of_kind(word: &[u8], kind: WordKind) -> Option<Reason>
    ensures { IfSome result (IsWrongWord word.now) }
{
    match kind {
        WordKind::Number if !is_number(word) => Some(Reason::Number),
        WordKind::Key if word.len() > MAX_KEY_LEN => Some(Reason::LongKey),
        _ => None,
    }
}

/// The reason Number if one of the words is no number.
fn wrong_number(rest: Option<&[u8]>) -> Option<Reason>
    ensures { IfSome result (IsWrong (words_left rest.entry)) }
{
    let mut words = Words::left(rest);
    while let Some(word) = words.next_word() {
        if !is_number(word) {
            return Some(Reason::Number);
        }
    }
    None
}
