//! A short line, put together in one place before it is written.

ghost use Rattle.std.specs.Prelude.{◌≡◌, ◌+◌, ◌≤◌, ◌∷◌, ◌++◌, [], length};
ghost use Rattle.std.specs.Fmt.{decimal};

use itoa::write_digits;
use std::marker::Model;

/// The most bytes of a short line.
const SHORT_LINE_LEN: usize = 240;

/// The end of a line of at most 240 bytes. It grows at its front, so no part needs to know how long the parts before
/// it are. A contract sees its bytes.
#[derive(Drop)]
pub(crate) struct ShortLine {
    bytes: [u8; SHORT_LINE_LEN],
    /// Where the line begins in `bytes`.
    start: usize,
}

impl Model for ShortLine {
    ghost use Rattle.std.specs.Prelude.{◌≤◌, List, ℕ, drop};

    ghost Value = { List ℕ };

    ghost view = { λ l. drop l.start l.bytes };

    ghost invariant = { λ l. l.start ≤ 240 };
}

impl ShortLine {
    /// A line with its line feed alone.
    #[inline(always)]
    pub(crate) fn new() -> ShortLine
        ensures { result ≡ 10 ∷ [] }
    {
        ShortLine {
            bytes: [b'\n'; SHORT_LINE_LEN],
            start: SHORT_LINE_LEN - 1,
        }
    }

    /// The bytes of the line so far.
    #[inline(always)]
    pub(crate) fn as_slice(&self) -> &[u8]
        ensures { result.now ≡ self.now }
    {
        &self.bytes[self.start..]
    }

    /// Puts a space in front of the line.
    #[inline(always)]
    pub(crate) fn put_space(&mut self)
        requires { 1 + length self.old ≤ 240 }
        ensures { self.new ≡ 32 ∷ self.old }
    {
        self.start -= 1;
        self.bytes[self.start] = b' ';
    }

    /// Puts bytes in front of the line.
    #[inline(always)]
    pub(crate) fn put(&mut self, bytes: &[u8])
        requires { length bytes.now + length self.old ≤ 240 }
        ensures put { self.new ≡ bytes.now ++ self.old }
        ensures len { length self.new ≡ length bytes.now + length self.old }
    {
        let end = self.start;
        self.start = end - bytes.len();
        self.bytes[self.start..end].copy_from_slice(bytes);
    }

    /// Puts a number in decimal digits in front of the line.
    #[inline(always)]
    pub(crate) fn put_number(&mut self, number: u64)
        requires { 20 + length self.old ≤ 240 }
        ensures put { self.new ≡ decimal number ++ self.old }
        ensures len { length self.new ≤ 20 + length self.old }
    {
        self.start = write_digits(number, &mut self.bytes, self.start);
    }
}
