//! The words of a text, read one after another.

ghost use Rattle.std.specs.Prelude.{◌≡◌, ◌≢◌, ◌∷◌, ◌^◌, ◌<◌, ◌≤◌, ◌↔◌, ℕ, List, [], IfSome, IsNone, IsSome, IsTrue};
ghost use Rattle.std.specs.Prelude.{MatchOption, length};
ghost use Rattle.std.specs.List.{All, slice_split};
ghost use Rattle.std.specs.Fmt.{decimal};
ghost use Rattle.std.specs.Str.Parse.{AllDigits, digits_value};
ghost use Rattle.lines.specs.Cutting.{IsNumberWord, is_space, words_left};
ghost use Rattle.lines.specs.Keys.{IsKeyWord, IsWord};
ghost use Rattle.lines.specs.Numbers.{numbers_of};
ghost use Rattle.lines.specs.Words.{AreNumbers, IsVisible, IsVisibleFront};

use crate::numbers::Numbers;
use std::marker::Model;

/// The most bytes of a key.
pub(crate) const MAX_KEY_LEN: usize = 1024;

/// The words of a text that are still to be read. A space ends each word but the last.
#[derive(Drop)]
pub(crate) struct Words<'a> {
    rest: Option<&'a [u8]>,
}

impl<'a> Model for Words<'a> {
    ghost Value = { List (List ℕ) };

    ghost view = { λ w. words_left w.rest };
}

impl<'a> Words<'a> {
    /// The words of the text: one or more.
    pub(crate) fn of(text: &'a [u8]) -> Self
        ensures { result ≡ slice_split is_space text.entry.now }
    {
        Words { rest: Some(text) }
    }

    /// The words that are left of a text.
    pub(crate) fn left(rest: Option<&'a [u8]>) -> Self
        ensures { result ≡ words_left rest.entry }
    {
        Words { rest }
    }

    /// The next word. It is empty if two spaces have no byte between them.
    pub(crate) fn next_word(&mut self) -> Option<&'a [u8]>
        ensures { MatchOption result ((self.old ≡ []) × (self.new ≡ []))
            (λ word. self.old ≡ word.now ∷ self.new) }
    {
        let (word, rest) = split_word(self.rest?);
        self.rest = rest;
        Some(word)
    }

    /// The next word as a number.
    pub(crate) fn number(&mut self) -> Option<u64>
        ensures sound { IfSome result (λ n. self.old ≡ decimal n ∷ self.new) }
        ensures complete { IsNone result
            → (n : ℕ) (rest : List (List ℕ)) → n < 2 ^ 64 → self.old ≢ decimal n ∷ rest }
    {
        parse_number(self.next_word()?)
    }

    /// The next word as a number from 1 to `most`.
    pub(crate) fn count(&mut self, most: u64) -> Option<u64>
        ensures sound { IfSome result (λ n. (self.old ≡ decimal n ∷ self.new) × (1 ≤ n) × (n ≤ most)) }
        ensures complete { IsNone result
            → (n : ℕ) (rest : List (List ℕ)) → 1 ≤ n → n ≤ most → self.old ≢ decimal n ∷ rest }
    {
        let count = self.number()?;
        if count == 0 || count > most {
            return None;
        }
        Some(count)
    }

    /// The next word as a key.
    pub(crate) fn key(&mut self) -> Option<&'a [u8]>
        ensures sound { IfSome result (λ key. (self.old ≡ key.now ∷ self.new) × IsKeyWord key.now) }
        ensures complete { IsNone result
            → (key : List ℕ) (rest : List (List ℕ)) → IsKeyWord key → self.old ≢ key ∷ rest }
    {
        let key = self.next_word()?;
        (is_word(key) && key.len() <= MAX_KEY_LEN).then_some(key)
    }

    /// The only word that is left, as a key.
    pub(crate) fn last_key(self) -> Option<&'a [u8]>
        ensures sound { IfSome result (λ key. (self.entry ≡ key.now ∷ []) × IsKeyWord key.now) }
        ensures complete { IsNone result → (key : List ℕ) → IsKeyWord key → self.entry ≢ key ∷ [] }
    {
        let key = self.last()?;
        (key.len() <= MAX_KEY_LEN).then_some(key)
    }

    /// The only word that is left.
    pub(crate) fn last(self) -> Option<&'a [u8]>
        ensures sound { IfSome result (λ word. (self.entry ≡ word.now ∷ []) × IsWord word.now) }
        ensures complete { IsNone result → (word : List ℕ) → IsWord word → self.entry ≢ word ∷ [] }
    {
        let rest = self.rest?;
        is_word(rest).then_some(rest)
    }

    /// The words that are left as numbers, one or more.
    pub(crate) fn numbers(self) -> Option<Numbers<'a>>
        ensures sound { IfSome result (λ numbers. AreNumbers self.entry (numbers_of numbers)) }
        ensures complete { IsNone result → (ns : List ℕ) → ¬ AreNumbers self.entry ns }
    {
        if is_row(self.rest) {
            Some(Numbers { rest: self.rest })
        } else {
            None
        }
    }

    /// `Some` if no word is left.
    pub(crate) fn end(mut self) -> Option<()>
        ensures { IsSome result ↔ (self.entry ≡ []) }
    {
        match self.next_word() {
            Some(_) => None,
            None => Some(()),
        }
    }
}

/// The bytes before the first space, and those behind it if there is one.
pub(crate) fn split_word(text: &[u8]) -> (&[u8], Option<&[u8]>)
    ensures { slice_split is_space text.entry.now ≡ result.0.now ∷ words_left result.1 }
{
    match text.iter().position(|byte| *byte == b' ') {
        Some(at) => (&text[..at], Some(&text[at + 1..])),
        None => (text, None),
    }
}

/// Whether the bytes are a word.
fn is_word(bytes: &[u8]) -> bool
    ensures { IsTrue result ↔ IsWord bytes.now }
{
    !bytes.is_empty() && visible_len(bytes) == bytes.len()
}

/// How many bytes at the front are visible.
// Not inlined, so that its loops hold no values of the caller.
#[inline(never)]
fn visible_len(bytes: &[u8]) -> usize
    ensures { IsVisibleFront bytes.now result }
{
    let mut len = 0;
    // Many bytes at a time, and then eight, as long as all of them are visible.
    while bytes.len() - len >= 32 && are_visible(&bytes[len..len + 32]) {
        len += 32;
    }
    while bytes.len() - len >= 8 && are_visible(&bytes[len..len + 8]) {
        len += 8;
    }
    while len < bytes.len() && is_visible(bytes[len]) {
        len += 1;
    }
    len
}

/// Whether all of a few bytes are visible. It looks at each of them.
#[inline(always)]
fn are_visible(bytes: &[u8]) -> bool
    ensures { IsTrue result ↔ All IsVisible bytes.now }
{
    let mut all = true;
    for byte in bytes {
        all &= is_visible(*byte);
    }
    all
}

#[inline(always)]
fn is_visible(byte: u8) -> bool
    ensures { IsTrue result ↔ IsVisible byte }
{
    (0x21..=0x7e).contains(&byte)
}

/// Whether one word or more is left, and each of them is a number.
fn is_row(rest: Option<&[u8]>) -> bool
    ensures { IsTrue result ↔ (0 < length (words_left rest.entry)) × All IsNumberWord (words_left rest.entry) }
{
    match rest {
        Some(text) => are_numbers(text),
        None => false,
    }
}

/// Whether each word of the text is a number.
fn are_numbers(text: &[u8]) -> bool
    ensures { IsTrue result ↔ All IsNumberWord (slice_split is_space text.entry.now) }
{
    let mut words = Words::of(text);
    while let Some(word) = words.next_word() {
        if !is_number(word) {
            return false;
        }
    }
    true
}

/// Whether the word is a number.
pub(crate) fn is_number(word: &[u8]) -> bool
    ensures { IsTrue result ↔ IsNumberWord word.now }
{
    parse_number(word).is_some()
}

/// The number of 64 bits that is written as this word, in decimal digits without leading zeros.
pub fn parse_number(word: &[u8]) -> Option<u64>
    ensures sound { IfSome result (λ n. word.now ≡ decimal n) }
    ensures complete { IsNone result → (n : ℕ) → n < 2 ^ 64 → word.now ≢ decimal n }
{
    if word.is_empty() {
        return None;
    }
    if word[0] != b'0' {
        return digits_value(word);
    }
    if word.len() == 1 { Some(0) } else { None }
}

/// The number that is written in these decimal digits.
fn digits_value(digits: &[u8]) -> Option<u64>
    ensures sound { IfSome result (λ n. AllDigits 10 digits.now × (digits_value 10 digits.now ≡ n)) }
    ensures fits { IfSome result (λ n. n < 2 ^ 64) }
    ensures complete { IsNone result → AllDigits 10 digits.now → 2 ^ 64 ≤ digits_value 10 digits.now }
{
    let mut number = 0u64;
    for byte in digits {
        if !byte.is_ascii_digit() {
            return None;
        }
        number = number
            .checked_mul(10)?
            .checked_add(u64::from(*byte - b'0'))?;
    }
    Some(number)
}
