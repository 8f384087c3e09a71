//! Lines are read and parsed.

use lines::*;
use std::alloc::Global;
use std::io::{self, BufRead, BufReader, ErrorKind, Read};
use std::test::Fail;

/// Lines, and what each says.
const GOOD: &[(&str, &str)] = &[
    ("", "Ok(Idle)"),
    ("#", "Ok(Idle)"),
    ("# any\ttext  ", "Ok(Idle)"),
    (
        "put 1 a x",
        "Ok(Command(Put { table: 1, key: KeyWord { bytes: [97] }, value: [120] }))",
    ),
    (
        "put 0 ! ~",
        "Ok(Command(Put { table: 0, key: KeyWord { bytes: [33] }, value: [126] }))",
    ),
    (
        "get 2 put",
        "Ok(Command(Get { table: 2, key: KeyWord { bytes: [112, 117, 116] } }))",
    ),
    (
        "get 18446744073709551615 #",
        "Ok(Command(Get { table: 18446744073709551615, key: KeyWord { bytes: [35] } }))",
    ),
    ("hex 10", "Ok(Hex { segment: 10 })"),
    ("list 0", "Ok(List { table: 0 })"),
    ("room", "Ok(Room)"),
    ("stop 0", "Ok(Stop { takes: 0 })"),
    ("stop 20", "Ok(Stop { takes: 20 })"),
    ("fault 1 taken", "Ok(Fault { takes: 1, taken: true })"),
    (
        "fault 18446744073709551615 lost",
        "Ok(Fault { takes: 18446744073709551615, taken: false })",
    ),
    ("crash", "Ok(Crash)"),
    ("lose 3", "Ok(Lose { backup: 3 })"),
    ("lose 64", "Ok(Lose { backup: 64 })"),
    ("compact 2", "Ok(Compact { segment: 2 })"),
    ("will", "Ok(Will)"),
    ("recover", "Ok(Recover { order: Forward })"),
    ("recover reverse", "Ok(Recover { order: Reverse })"),
    ("recover threads 1", "Ok(Recover { order: Threads(1) })"),
    ("recover threads 64", "Ok(Recover { order: Threads(64) })"),
    ("clean 1", "Ok(Clean { segments: [1] })"),
    ("clean 3 0 2", "Ok(Clean { segments: [3, 0, 2] })"),
    (
        "begin 18446744073709551615",
        "Ok(Begin { segments: [18446744073709551615] })",
    ),
    ("begin 2 2 10", "Ok(Begin { segments: [2, 2, 10] })"),
    ("copy", "Ok(Copy)"),
    ("seal", "Ok(Seal)"),
    ("free", "Ok(Free)"),
    (
        "clients 1 1 0",
        "Ok(Clients { clients: 1, rounds: 1, passes: 0 })",
    ),
    (
        "clients 63 1000000 18446744073709551615",
        "Ok(Clients { clients: 63, rounds: 1000000, passes: 18446744073709551615 })",
    ),
];

/// What a line of clients has.
const CLIENTS: &str =
    "clients has a number of clients (1 to 63), of rounds (1 to 1000000) and of passes";

/// What a line of a recovery has.
const RECOVER: &str =
    "recover has nothing behind it, or reverse, or threads and a number of workers (1 to 64)";

/// What a line of a fault has.
const FAULT: &str = "fault has the number of a take, counted from 1, and taken or lost";

/// Bad lines, and why each is bad.
const BAD: &[(&[u8], &str)] = &[
    (
        b"hex 00",
        "a number has digits, no sign and no leading zero, and is below 2^64",
    ),
    (
        b"hex 01",
        "a number has digits, no sign and no leading zero, and is below 2^64",
    ),
    (
        b"hex +1",
        "a number has digits, no sign and no leading zero, and is below 2^64",
    ),
    (
        b"hex 0x1",
        "a number has digits, no sign and no leading zero, and is below 2^64",
    ),
    (
        b"hex 18446744073709551616",
        "a number has digits, no sign and no leading zero, and is below 2^64",
    ),
    (
        b"get 01 a",
        "a number has digits, no sign and no leading zero, and is below 2^64",
    ),
    (
        b"cas 1 a 01 x",
        "a number has digits, no sign and no leading zero, and is below 2^64",
    ),
    (
        b"clean x",
        "a number has digits, no sign and no leading zero, and is below 2^64",
    ),
    (
        b"begin 1 -2",
        "a number has digits, no sign and no leading zero, and is below 2^64",
    ),
    (
        b"clients 1 1 18446744073709551616",
        "a number has digits, no sign and no leading zero, and is below 2^64",
    ),
    (
        b"clean 1 18446744073709551616",
        "a number has digits, no sign and no leading zero, and is below 2^64",
    ),
    (
        b"put 1  a x",
        "one space stands between two words, and none at an end",
    ),
    (
        b"put 1 a  x",
        "one space stands between two words, and none at an end",
    ),
    (
        b" crash",
        "one space stands between two words, and none at an end",
    ),
    (
        b"crash ",
        "one space stands between two words, and none at an end",
    ),
    (
        b"clean ",
        "one space stands between two words, and none at an end",
    ),
    (b"recover\r", "a carriage return ends the line"),
    (b"put 1 a x\r", "a carriage return ends the line"),
    (
        b"put 1 a\0 x",
        "a word has visible characters, and not the byte 0",
    ),
    (
        b"put 1 a \x7f",
        "a word has visible characters, and not the byte 127",
    ),
    (
        b"put 1 \xc3\xa4 x",
        "a word has visible characters, and not the byte 195",
    ),
    (
        b"get\t1 a",
        "a word has visible characters, and not the byte 9",
    ),
    (
        b"get 1 a\n",
        "a word has visible characters, and not the byte 10",
    ),
    (b"reverse", "the first word is no command"),
    (b"puts 1 a x", "the first word is no command"),
    (b"PUT 1 a x", "the name of a command has lower case letters"),
    (b"put 1 a", "put has a table, a key and a value"),
    (b"put 1 a x y", "put has a table, a key and a value"),
    (b"put 01 a", "put has a table, a key and a value"),
    (b"new 1 a", "new has a table, a key and a value"),
    (
        b"cas 1 a x",
        "cas has a table, a key, a version and a value",
    ),
    (b"get 1", "get has a table and a key"),
    (b"del 1 a x", "del has a table and a key"),
    (b"hex", "hex has the number of a segment"),
    (b"hex 1 2", "hex has the number of a segment"),
    (b"list", "list has the number of a table"),
    (b"list 1 2", "list has the number of a table"),
    (b"compact", "compact has the number of a segment"),
    (b"stop", "stop has a number of ops"),
    (b"fault 0 lost", FAULT),
    (b"fault 1 gone", FAULT),
    (b"fault 1", FAULT),
    (b"lose 1 2", "lose has the number of a backup"),
    (b"clean", "clean has the numbers of one segment or more"),
    (b"begin", "begin has the numbers of one segment or more"),
    (b"recover forward", RECOVER),
    (b"recover reverse reverse", RECOVER),
    (b"recover threads", RECOVER),
    (b"recover threads 0", RECOVER),
    (b"recover threads 65", RECOVER),
    (b"recover threads 03", RECOVER),
    (b"recover threads x", RECOVER),
    (b"recover threads 3 3", RECOVER),
    (b"recover reverse 3", RECOVER),
    (b"recover 3", RECOVER),
    (b"will 1", "will has nothing behind it"),
    (b"crash 1", "crash has nothing behind it"),
    (b"copy 1", "copy has nothing behind it"),
    (b"clients 4 100", CLIENTS),
    (b"clients 4 100 5 6", CLIENTS),
    (b"clients 0 1 0", CLIENTS),
    (b"clients 64 1 0", CLIENTS),
    (b"clients 1 0 0", CLIENTS),
    (b"clients 1 1000001 0", CLIENTS),
];

/// Whether the line of this text is shown so.
fn is_shown(alloc: Global, text: &str, want: &str) -> bool {
    match format!(in alloc; "{:?}", parse_line(text.as_bytes())) {
        Ok(shown) => shown.as_str() == want,
        Err(_) => false,
    }
}

#[test]
fn good_lines_are_parsed(rt: HostRuntime) {
    for (text, want) in GOOD {
        assert!(rt; is_shown(rt.alloc(), text, want), "{text}");
    }
}

/// Whether a line has these segments.
fn has_segments(alloc: Global, text: &[u8], want: &[u64]) -> bool {
    match parse_line(text) {
        Ok(Line::Begin { segments }) => match segments.collect::<Vec<u64>>(alloc) {
            Ok(ids) => ids.as_slice() == want,
            Err(_) => false,
        },
        _ => false,
    }
}

#[test]
fn segments_come_in_order(rt: HostRuntime) {
    let text = b"begin 30 4 18446744073709551615 4";
    assert!(rt; has_segments(rt.alloc(), text, &[30, 4, u64::MAX, 4]));
}

/// Whether the line is bad for this reason.
fn is_bad(alloc: Global, text: &[u8], want: &str) -> bool {
    let Err(reason) = parse_line(text) else {
        return false;
    };
    match format!(in alloc; "{reason}") {
        Ok(said) => said.as_str() == want,
        Err(_) => false,
    }
}

#[test]
fn bad_lines_have_a_reason(rt: HostRuntime) {
    for (text, want) in BAD {
        assert!(rt; is_bad(rt.alloc(), text, want), "{text:?}");
    }
}

/// What a call takes of the reader, or why it takes no line; and the bytes of the line.
type Row = (Result<Taken, ReadFault>, &'static [u8]);

/// Whether the next line of the reader is taken so, and has these bytes.
fn is_taken<R: BufRead>(
    reader: &mut R,
    lines: &mut LineReader,
    want: &Result<Taken, ReadFault>,
    text: &[u8],
) -> bool {
    let taken = lines.next_line(reader, &mut io::sink(), false);
    taken == *want && lines.text() == text
}

/// The first row of which the next line of the reader differs.
fn first_other<R: BufRead>(reader: &mut R, lines: &mut LineReader, rows: &[Row]) -> Option<usize> {
    for (number, (want, text)) in rows.iter().enumerate() {
        if !is_taken(reader, lines, want, text) {
            return Some(number);
        }
    }
    None
}

const LINES: &[Row] = &[
    (Ok(Taken::Ended), b"crash"),
    (Ok(Taken::Ended), b""),
    (Ok(Taken::Ended), b"# x\r"),
    (Ok(Taken::Last), b"last"),
    (Ok(Taken::Nothing), b""),
    (Ok(Taken::Nothing), b""),
];

#[test]
fn lines_are_read(rt: HostRuntime) {
    let mut reader: &[u8] = b"crash\n\n# x\r\nlast";
    let mut lines = LineReader::new(rt.alloc());
    assert_eq!(rt; first_other(&mut reader, &mut lines, LINES), None);
}

/// A reader that is interrupted before each byte, and fails after its bytes.
#[derive(Drop)]
struct Failing<'a> {
    bytes: &'a [u8],
    interrupts: bool,
}

impl<'a> Read for Failing<'a> {
    fn read(&mut self, buf: &mut [u8]) -> io::Result<usize> {
        self.interrupts = !self.interrupts;
        if self.interrupts {
            return Err(io::Error::from(ErrorKind::Interrupted));
        }
        let Some((first, rest)) = self.bytes.split_first() else {
            return Err(io::Error::from(ErrorKind::Other));
        };
        match buf.first_mut() {
            None => Ok(0),
            Some(place) => {
                *place = *first;
                self.bytes = rest;
                Ok(1)
            }
        }
    }
}

const FAULTS: &[Row] = &[
    (Ok(Taken::Ended), b"crash"),
    (Err(ReadFault::ReadFailed), b"rec"),
    (Err(ReadFault::ReadFailed), b""),
];

#[test]
fn faults_are_told(rt: HostRuntime) -> Result<(), Fail> {
    let failing = Failing {
        bytes: b"crash\nrec",
        interrupts: false,
    };
    let mut reader = BufReader::new(rt.alloc(), failing)?;
    let mut lines = LineReader::new(rt.alloc());
    assert_eq!(rt; first_other(&mut reader, &mut lines, FAULTS), None);
    Ok(())
}
