//! What is left of a text, read part by part.

ghost use Rattle.std.specs.Prelude.{◌≡◌, ◌≢◌, ◌∷◌, ◌++◌, ◌≤◌, ℕ, List, [], IfSome, IsNone, length, false, true};
ghost use Rattle.std.specs.List.{All};
ghost use Rattle.std.specs.Fmt.{decimal};
ghost use Rattle.lines.specs.Keys.{IsKey};
ghost use Rattle.raw_lines.specs.Cutting.{CutsAt, HasNoBytes, HasNoKeyFront, HasNoNumber};
ghost use Rattle.raw_lines.specs.Raw.{counted};

use lines::parse_number;
use memchr::memchr;
use std::marker::Model;

/// The most bytes of a key.
const MAX_KEY_LEN: u64 = 1024;

/// The most bytes of a value.
const MAX_VALUE_LEN: u64 = 2_097_152;

/// The bytes of a text that are still to be read.
#[derive(Drop)]
pub(crate) struct Rest<'a> {
    bytes: &'a [u8],
}

impl<'a> Model for Rest<'a> {
    ghost Value = { List ℕ };

    ghost view = { λ r. r.bytes.now };
}

impl<'a> Rest<'a> {
    /// The whole text.
    pub(crate) fn of(bytes: &'a [u8]) -> Self
        ensures { result ≡ bytes.entry.now }
    {
        Rest { bytes }
    }

    /// Takes the bytes before the first byte of this value, and that byte.
    #[tactic(auto, using(crate::proofs::Behind::cut_out))]
    pub(crate) fn until(&mut self, end: u8) -> Option<&'a [u8]>
        ensures { CutsAt end self.old self.new result }
    {
        match memchr(end, self.bytes) {
            Some(at) => {
                let front = &self.bytes[..at];
                self.bytes = &self.bytes[at + 1..];
                Some(front)
            }
            None => None,
        }
    }

    /// Takes a number in decimal digits, and the byte of this value behind it.
    #[tactic(auto, using(crate::proofs::Cuts::no_number, crate::proofs::Cuts::no_end))]
    pub(crate) fn number(&mut self, end: u8) -> Option<u64>
        ensures sound { IfSome result (λ n. (self.old ≡ decimal n ++ end ∷ self.new)
            × All (λ b. b ≢ end) (decimal n)) }
        ensures complete { IsNone result → HasNoNumber end self.old }
    {
        parse_number(self.until(end)?)
    }

    /// Takes at most so many bytes behind their length.
    #[tactic(auto, using(crate::proofs::Cuts::no_length, crate::proofs::Cuts::too_long, crate::proofs::Cuts::counted_out))]
    fn counted(&mut self, most: u64) -> Option<&'a [u8]>
        ensures sound { IfSome result (λ bytes. (self.old ≡ counted bytes.now ++ self.new)
            × (length bytes.now ≤ most)) }
        ensures complete { IsNone result → HasNoBytes most self.old }
    {
        let len = self.number(b':')?;
        if len > most {
            return None;
        }
        if len > self.bytes.len() as u64 {
            return None;
        }
        let len = len as usize;
        let front = &self.bytes[..len];
        self.bytes = &self.bytes[len..];
        Some(front)
    }

    /// Takes a space, and answers whether there was one.
    fn space(&mut self) -> bool
        ensures there { result ≡ true → self.old ≡ 32 ∷ self.new }
        ensures kept { result ≡ false → (self.new ≡ self.old) × ((rest : List ℕ) → self.old ≢ 32 ∷ rest) }
    {
        match self.bytes {
            [b' ', rest @ ..] => {
                self.bytes = rest;
                true
            }
            _ => false,
        }
    }

    /// Whether nothing is left.
    fn is_at_end(&self) -> bool
        ensures ended { result ≡ true → self.now ≡ [] }
        ensures more { result ≡ false → self.now ≢ [] }
    {
        self.bytes.is_empty()
    }

    /// Takes a key and the space behind it.
    #[tactic(auto, using(crate::proofs::Cuts::no_key, crate::proofs::Cuts::no_other_key))]
    pub(crate) fn key(&mut self) -> Option<&'a [u8]>
        ensures sound { IfSome result (λ key. (self.old ≡ counted key.now ++ 32 ∷ self.new) × IsKey key.now) }
        ensures complete { IsNone result → HasNoKeyFront self.old }
    {
        let key = self.counted(MAX_KEY_LEN)?;
        if key.is_empty() {
            return None;
        }
        if !self.space() {
            return None;
        }
        Some(key)
    }

    /// The key with which the text ends.
    #[tactic(auto, using(crate::proofs::Cuts::no_last, crate::proofs::Cuts::no_other_last, crate::proofs::Cuts::at_end))]
    pub(crate) fn last_key(mut self) -> Option<&'a [u8]>
        ensures sound { IfSome result (λ key. (self.entry ≡ counted key.now) × IsKey key.now) }
        ensures complete { IsNone result → (key : List ℕ) → IsKey key → self.entry ≢ counted key }
    {
        let key = self.counted(MAX_KEY_LEN)?;
        if key.is_empty() {
            return None;
        }
        if !self.is_at_end() {
            return None;
        }
        Some(key)
    }

    /// The value with which the text ends.
    #[tactic(auto, using(crate::proofs::Cuts::no_value, crate::proofs::Cuts::no_other_value, crate::proofs::Cuts::at_end))]
    pub(crate) fn value(mut self) -> Option<&'a [u8]>
        ensures sound { IfSome result (λ value. (self.entry ≡ counted value.now)
            × (length value.now ≤ 2097152)) }
        ensures complete { IsNone result → (value : List ℕ) → length value ≤ 2097152 → self.entry ≢ counted value }
    {
        let value = self.counted(MAX_VALUE_LEN)?;
        if !self.is_at_end() {
            return None;
        }
        Some(value)
    }
}
