//! Where a line ends that may have raw bytes: which of its bytes are raw.

ghost use Rattle.std.specs.Prelude.{◌≡◌, false, IsTrue};
ghost use Rattle.lines.specs.Scanning.{IsInBytes, first_of_word, left, longer, next_digit, next_of_word, starts, step};

/// The most raw bytes that a length may name.
const MAX_RAW_LEN: u64 = 2_097_152;

/// How a line stands behind a front of it: what its next byte may be.
#[derive(Clone, Copy)]
pub(crate) enum Scan {
    /// No raw bytes come in this line.
    Words,
    /// The line begins.
    Start,
    /// A word begins.
    Between,
    /// In a word.
    Within,
    /// In the digits of a word, which so far are this number.
    Length(u64),
    /// Before so many raw bytes, one or more.
    Bytes(u64),
}

impl Scan {
    /// The start of a line, which may have raw bytes or not.
    pub(crate) fn start(is_raw: bool) -> Scan
        ensures { result ≡ starts is_raw }
    {
        if is_raw { Scan::Start } else { Scan::Words }
    }

    /// Whether this byte ends the line: it is a line feed, and no raw byte.
    #[inline(always)]
    pub(crate) fn ends_at(self, byte: u8) -> bool
        ensures ends { IsTrue result → (byte ≡ 10) × (IsInBytes self → ⊥) }
        ensures goes_on { result ≡ false → byte ≡ 10 → IsInBytes self }
    {
        match self {
            Scan::Bytes(_) => false,
            _ => byte == b'\n',
        }
    }

    /// How the line stands behind one byte more.
    #[inline(always)]
    pub(crate) fn behind(self, byte: u8) -> Scan
        ensures { result ≡ step self byte }
    {
        match self {
            Scan::Words => Scan::Words,
            Scan::Start => {
                if byte == b'#' {
                    Scan::Words
                } else {
                    first_of_word(byte)
                }
            }
            Scan::Between => first_of_word(byte),
            Scan::Within => next_of_word(byte),
            Scan::Length(number) => next_digit(number, byte),
            Scan::Bytes(count) => left(count.saturating_sub(1)),
        }
    }
}

/// How a line stands behind the first byte of a word.
fn first_of_word(byte: u8) -> Scan
    ensures { result ≡ first_of_word byte }
{
    if byte.is_ascii_digit() {
        Scan::Length(u64::from(byte - b'0'))
    } else {
        next_of_word(byte)
    }
}

/// How a line stands behind a byte of a word, or behind the space that ends it.
fn next_of_word(byte: u8) -> Scan
    ensures { result ≡ next_of_word byte }
{
    if byte == b' ' {
        Scan::Between
    } else {
        Scan::Within
    }
}

/// How a line stands behind a byte that follows the digits of this number.
fn next_digit(number: u64, byte: u8) -> Scan
    ensures { result ≡ next_digit number byte }
{
    if byte.is_ascii_digit() {
        longer(number, u64::from(byte - b'0'))
    } else if byte == b':' {
        left(number)
    } else {
        next_of_word(byte)
    }
}

/// How a line stands behind one digit more. A number that is too great for a length is a word like any other.
fn longer(number: u64, digit: u64) -> Scan
    ensures { result ≡ longer number digit }
{
    match number.checked_mul(10) {
        Some(tens) => match tens.checked_add(digit) {
            Some(sum) if sum <= MAX_RAW_LEN => Scan::Length(sum),
            _ => Scan::Within,
        },
        None => Scan::Within,
    }
}

/// How a line stands before so many raw bytes.
fn left(count: u64) -> Scan
    ensures { result ≡ left count }
{
    if count == 0 {
        Scan::Within
    } else {
        Scan::Bytes(count)
    }
}
