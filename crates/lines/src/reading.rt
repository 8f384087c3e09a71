//! Reading lines one at a time, each of a bounded length, in a dialogue with a writer.

ghost use Rattle.std.specs.Prelude.{◌≡◌, ◌+◌, ◌≤◌, ◌++◌, [], true, List, ℕ, length, IfErr, IfOk, IfSome, OnErr};
ghost use Rattle.std.specs.Prelude.{vec_capacity};
ghost use Rattle.std.specs.Prelude.{vec_len};
ghost use Rattle.std.specs.Io.KnownBytes.{Keeps};
ghost use Rattle.lines.specs.Reading.{BeginsWithLine, IsFrontOfLine, IsFrontOfWords, StopsIn, TakesByte, TakesLine};
ghost use Rattle.lines.specs.Reading.{TakesShown};
ghost use Rattle.lines.specs.Scanning.{line_limit};

use crate::scan::Scan;
use memchr::memchr;
use std::alloc::Global;
use std::io::{BufRead, ErrorKind, Read, Write};
use std::marker::Model;
use thiserror::Error;

/// Why no line was taken.
#[derive(Clone, Copy, Debug, PartialEq, Eq, Error)]
pub enum ReadFault {
    /// The reader failed.
    #[error("cannot read")]
    ReadFailed,
    /// The writer failed to hand over what it held.
    #[error("cannot write")]
    WriteFailed,
    #[error("no memory")]
    NoMemory,
}

/// What `next_line` found.
#[derive(Clone, Copy, PartialEq, Eq)]
pub enum Taken {
    /// A line that its line feed ended.
    Ended,
    /// The last line, which has a byte or more and no line feed.
    Last,
    /// More bytes than a line may have. The rest of the line is left in the reader.
    TooLong,
    /// The input had ended.
    Nothing,
}

/// The most bytes of a line of words, without its line feed.
const MAX_LINE_LEN: usize = 4096;

/// The most bytes of a line with raw bytes, without its line feed: 4,096 and those of the longest value.
const MAX_RAW_LINE_LEN: usize = 2_101_248;

/// The most bytes of a line, without its line feed.
fn line_limit(is_raw: bool) -> usize
    ensures { result ≡ line_limit is_raw }
{
    if is_raw {
        MAX_RAW_LINE_LEN
    } else {
        MAX_LINE_LEN
    }
}

/// Reads lines one at a time, and holds the text of the last, without its line feed.
#[derive(Drop)]
pub struct LineReader {
    text: Vec<u8>,
    /// Whether all bytes that the reader showed are used up. The reader may then wait before it shows more.
    is_spent: bool,
}

impl Model for LineReader {
    ghost Value = { List ℕ };

    ghost view = { λ r. r.text.items };
}

impl LineReader {
    pub fn new(alloc: Global) -> LineReader
        ensures { result ≡ [] }
    {
        LineReader {
            text: Vec::new(alloc),
            is_spent: true,
        }
    }

    /// The line that was read last.
    pub fn text(&self) -> &[u8]
        ensures { result.now ≡ self.now }
    {
        self.text.as_slice()
    }

    /// Reads the next line. If raw bytes may stand in it (`is_raw`), it ends at the first line feed that isn't one of
    /// them, and may have 2,101,248 bytes in place of 4,096.
    ///
    /// The writer is flushed before the reader is asked for bytes that it didn't show yet. So whoever sends a line and
    /// waits for its answer gets it. While the reader has more to show, the writer may go on writing in blocks.
    ///
    /// It asks for the memory of the longest line before it reads anything. It tries an interrupted read again.
    pub fn next_line<R: BufRead, W: Write>(
        &mut self,
        reader: &mut R,
        writer: &mut W,
        is_raw: bool,
    ) -> Result<Taken, ReadFault>
        ensures taken { IfOk result (TakesLine is_raw (R.remaining reader.old) (R.remaining reader.new) self.new) }
        ensures fault { IfErr result (StopsIn is_raw (R.remaining reader.old) (R.remaining reader.new) self.new) }
        ensures flushed { Keeps (W.contents writer.old) (W.contents writer.new) }
    {
        self.text.clear();
        let limit = line_limit(is_raw);
        if self.text.reserve(limit + 1).is_err() {
            return Err(ReadFault::NoMemory);
        }
        let mut scan = Scan::start(is_raw);
        'parts: while self.text.len() <= limit {
            if self.is_spent && writer.flush().is_err() {
                return Err(ReadFault::WriteFailed);
            }
            match take_shown(reader, &mut self.text, &mut self.is_spent, limit, scan)? {
                Took::Ended => return Ok(Taken::Ended),
                Took::Part(behind) => scan = behind,
                // Only a read is certain to find the end of the input.
                Took::Nothing => match next_byte(reader)? {
                    Some(byte) if scan.ends_at(byte) => return Ok(Taken::Ended),
                    Some(byte) => {
                        self.text.push_reserved(byte);
                        scan = scan.behind(byte);
                    }
                    None if self.text.is_empty() => return Ok(Taken::Nothing),
                    None => return Ok(Taken::Last),
                },
            }
        }
        Ok(Taken::TooLong)
    }

    /// Whether the next line is at hand: the reader has shown all of it before, with its line feed. Whoever answers
    /// several lines together takes the next one only then, so that no answer waits for a line that isn't there yet.
    ///
    /// The answer takes no byte, and waits for none: without bytes that were shown and not taken it is false, and a
    /// reader with such bytes shows them again. Cost: it looks at each byte of the line.
    pub fn has_line<R: BufRead>(&self, reader: &mut R, is_raw: bool) -> bool
        ensures at_hand { result ≡ true → IfSome (R.remaining reader.old) (BeginsWithLine is_raw) }
        ensures kept { Keeps (R.remaining reader.old) (R.remaining reader.new) }
    {
        if self.is_spent {
            return false;
        }
        match reader.fill_buf() {
            Ok(shown) => has_end(shown, is_raw),
            Err(_) => false,
        }
    }
}

/// Whether a whole line is at the front of what is shown.
fn has_end(shown: &[u8], is_raw: bool) -> bool
    ensures { result ≡ true → BeginsWithLine is_raw shown.now }
{
    let (_, is_ended, _) = front_of_line(shown, line_limit(is_raw) + 1, Scan::start(is_raw));
    is_ended
}

/// The next byte of the reader, or `None` at its end.
fn next_byte<R: Read>(reader: &mut R) -> Result<Option<u8>, ReadFault>
    ensures taken { IfOk result (TakesByte (R.remaining reader.old) (R.remaining reader.new)) }
    ensures failed { IfErr result (λ fault. fault ≡ ReadFault.ReadFailed) }
    ensures none_lost { OnErr result (Keeps (R.remaining reader.old) (R.remaining reader.new)) }
{
    for _ in 0..u64::MAX {
        let mut buffer = [0u8; 1];
        match reader.read(&mut buffer) {
            Ok(0) => return Ok(None),
            Ok(_) => return Ok(Some(buffer[0])),
            Err(error) if error.kind() == ErrorKind::Interrupted => {}
            Err(_) => return Err(ReadFault::ReadFailed),
        }
    }
    Err(ReadFault::ReadFailed)
}

/// What `take_shown` took.
#[derive(Clone, Copy)]
enum Took {
    /// The last bytes of the line, and its line feed.
    Ended,
    /// A byte of the line or more, behind which the line stands so.
    Part(Scan),
    /// Nothing: the reader was interrupted, or shows no byte.
    Nothing,
}

/// Takes what the reader shows of a line, which stands so far.
fn take_shown<R: BufRead>(
    reader: &mut R,
    line: &mut Vec<u8>,
    is_spent: &mut bool,
    limit: usize,
    scan: Scan,
) -> Result<Took, ReadFault>
    requires short { vec_len line.old ≤ limit }
    requires room { limit + 1 ≤ vec_capacity line.old }
    requires small { limit ≤ 2101248 }
    ensures taken { TakesShown limit scan (R.remaining reader.old) (R.remaining reader.new)
        line.old.items line.new.items result }
    ensures capacity { vec_capacity line.old ≤ vec_capacity line.new }
{
    let shown = match reader.fill_buf() {
        Ok([]) => return Ok(Took::Nothing),
        Ok(shown) => shown,
        Err(error) if error.kind() == ErrorKind::Interrupted => return Ok(Took::Nothing),
        Err(_) => return Err(ReadFault::ReadFailed),
    };
    let (len, is_ended, behind) = front_of_line(shown, limit + 1 - line.len(), scan);
    append(line, &shown[..len]);
    *is_spent = len + usize::from(is_ended) == shown.len();
    if is_ended {
        reader.consume(len + 1);
        Ok(Took::Ended)
    } else {
        reader.consume(len);
        Ok(Took::Part(behind))
    }
}

/// How many of the first `most` bytes come before the line feed that ends the line, and whether that is among them;
/// and how the line stands behind them.
fn front_of_line(shown: &[u8], most: usize, scan: Scan) -> (usize, bool, Scan)
    ensures { IsFrontOfLine shown.now most scan result.0 result.1 result.2 }
{
    match scan {
        Scan::Words => {
            let (len, is_ended) = front_of_words(shown, most);
            (len, is_ended, Scan::Words)
        }
        scan => front_of_raw(shown, most, scan),
    }
}

/// How many of the first `most` bytes come before a line feed, and whether there is a line feed among them.
fn front_of_words(shown: &[u8], most: usize) -> (usize, bool)
    ensures { IsFrontOfWords shown.now most result.0 result.1 }
{
    let most = shown.len().min(most);
    match memchr(b'\n', &shown[..most]) {
        Some(at) => (at, true),
        None => (most, false),
    }
}

/// The same as `front_of_line`, byte by byte.
fn front_of_raw(shown: &[u8], most: usize, scan: Scan) -> (usize, bool, Scan)
    ensures { IsFrontOfLine shown.now most scan result.0 result.1 result.2 }
{
    let most = shown.len().min(most);
    let mut behind = scan;
    let mut len = 0;
    while len < most {
        let byte = shown[len];
        if behind.ends_at(byte) {
            return (len, true, behind);
        }
        behind = behind.behind(byte);
        len += 1;
    }
    (len, false, behind)
}

/// Appends bytes for which there is room.
fn append(line: &mut Vec<u8>, bytes: &[u8])
    requires { vec_len line.old + length bytes.now ≤ vec_capacity line.old }
    ensures items { line.new.items ≡ line.old.items ++ bytes.now }
    ensures capacity { vec_capacity line.old ≤ vec_capacity line.new }
{
    line.extend_from_slice(bytes).unwrap();
}
