//! Frames as bytes: a gate, the length of a text in four bytes, and the text. A gate is open (1) or closed (0).

ghost use Rattle.std.specs.Prelude.{◌≡◌, ◌++◌, ◌∷◌, [], length, IfOk, MatchOption, None, OnOk, Some};
ghost use Rattle.take_journal.specs.Frames.{AreShort, IsShort, at_rest, end_of, first_frame, frame, len_bytes};
ghost use Rattle.take_journal.specs.Frames.{named_len, recovered, split_at, texts_of};

use byteorder::{BigEndian, ByteOrder};
use std::alloc::{AllocError, Global};

pub(crate) const OPEN: u8 = 1;

pub(crate) const CLOSED: u8 = 0;

/// How many bytes a frame has beside its text.
const FRONT_LEN: usize = 5;

/// Adds a frame with an open gate.
#[tactic(auto, unfolding(crate::specs::Frames::len_bytes))]
fn add_frame(bytes: &mut Vec<u8>, text: &[u8]) -> Result<(), AllocError>
    requires short { IsShort text.now }
    ensures { OnOk result (bytes.new.items ≡ bytes.old.items ++ frame text.now) }
{
    let mut front = [OPEN, 0, 0, 0, 0];
    BigEndian::write_u32(&mut front[1..], text.len() as u32);
    bytes.extend_from_slice(&front)?;
    bytes.extend_from_slice(text)
}

/// Adds a closed gate.
fn add_gate(bytes: &mut Vec<u8>) -> Result<(), AllocError>
    ensures { OnOk result (bytes.new.items ≡ bytes.old.items ++ 0 ∷ []) }
{
    bytes.extend_from_slice(&[CLOSED])
}

/// The frame of a text, and a closed gate behind it.
pub(crate) fn one_frame(alloc: Global, text: &[u8]) -> Result<Vec<u8>, AllocError>
    requires short { IsShort text.now }
    ensures { IfOk result (λ bytes. bytes.items ≡ at_rest (text.now ∷ [])) }
{
    let mut bytes = Vec::with_capacity(alloc, text.len() + FRONT_LEN + 1)?;
    add_frame(&mut bytes, text)?;
    add_gate(&mut bytes)?;
    Ok(bytes)
}

/// The frames of the texts, and a closed gate behind them.
pub(crate) fn all_frames(alloc: Global, texts: &[Vec<u8>]) -> Result<Vec<u8>, AllocError>
    requires short { AreShort (texts_of texts.now) }
    ensures { IfOk result (λ bytes. bytes.items ≡ at_rest (texts_of texts.now)) }
{
    let mut bytes = Vec::new(alloc);
    for i in 0..texts.len() {
        add_frame(&mut bytes, &texts[i])?;
    }
    add_gate(&mut bytes)?;
    Ok(bytes)
}

/// The text that stands behind an open gate, and what stands behind that; None if it is cut short.
#[tactic(auto, unfolding(crate::specs::Frames::named_len))]
pub(crate) fn split_text(bytes: &[u8]) -> Option<(&[u8], &[u8])>
    ensures { MatchOption result (split_at (named_len bytes.entry.now) bytes.entry.now ≡ None)
        (λ first. (split_at (named_len bytes.entry.now) bytes.entry.now ≡ Some (first.0.now, first.1.now))
        × IsShort first.0.now) }
{
    if bytes.len() < 4 {
        return None;
    }
    let len = BigEndian::read_u32(bytes) as usize;
    if bytes.len() - 4 < len {
        return None;
    }
    let rest = &bytes[4..];
    Some((&rest[..len], &rest[len..]))
}

/// The text of the first frame, and what stands behind it; None if its gate is not open, or if it is cut short.
pub(crate) fn first_text(bytes: &[u8]) -> Option<(&[u8], &[u8])>
    ensures { MatchOption result (first_frame bytes.entry.now ≡ None)
        (λ first. (first_frame bytes.entry.now ≡ Some (first.0.now, first.1.now)) × IsShort first.0.now) }
{
    match bytes {
        [OPEN, rest @ ..] => split_text(rest),
        _ => None,
    }
}

/// The texts that a file stands for.
pub(crate) fn read_texts(alloc: Global, bytes: &[u8]) -> Result<Vec<Vec<u8>>, AllocError>
    ensures { IfOk result (λ texts. texts_of texts.items ≡ recovered bytes.now) }
{
    let mut texts = Vec::new(alloc);
    let mut rest = bytes;
    while let Some((text, after)) = first_text(rest) {
        texts.push(text.to_vec(alloc)?)?;
        rest = after;
    }
    Ok(texts)
}

/// What stands behind the frames that count.
pub(crate) fn end_of_frames(bytes: &[u8]) -> &[u8]
    ensures { result.now ≡ end_of bytes.entry.now }
{
    let mut rest = bytes;
    while let Some((_, after)) = first_text(rest) {
        rest = after;
    }
    rest
}
