//! A whole script, the lines of faults, and a writer that holds bytes back. Other scripts are in `examples/`.

use script::*;
use std::alloc::Global;
use std::cell::Cell;
use std::io::{self, BufRead, BufReader, ErrorKind, Read, Write};
use std::sync::Wait;
use std::thread::Threads;

/// The line that a run writes to its error output, and its exit status.
type End = (&'static str, u8);

const WELL: End = ("", 0);

const CANNOT_READ: End = ("ramlog: cannot read\n", 1);

const CANNOT_WRITE: End = ("ramlog: cannot write\n", 1);

/// Whether the run of the default options ends so.
fn ends<H: Threads + Wait + Sync, R: BufRead, W: Write>(
    rt: &H,
    alloc: Global,
    reader: &mut R,
    writer: &mut W,
    want: End,
) -> bool {
    let mut errors = ErrorOutput::new(Vec::new(alloc), true);
    match run_program(
        rt,
        alloc,
        &["ramlog"],
        false,
        false,
        reader,
        writer,
        &mut errors,
    ) {
        Ok(status) => (errors.writer().as_slice(), status) == (want.0.as_bytes(), want.1),
        Err(_) => false,
    }
}

/// Whether the run writes this output, and ends so.
fn prints<H: Threads + Wait + Sync, R: BufRead>(
    rt: &H,
    alloc: Global,
    reader: &mut R,
    output: &[u8],
    want: End,
) -> bool {
    let mut written = Vec::new(alloc);
    ends(rt, alloc, reader, &mut written, want) && written.as_slice() == output
}

#[test]
fn a_script_prints_its_answers(rt: HostRuntime) {
    let mut script: &[u8] = b"put 1 a x\ncrash\nrecover";
    let output: &[u8] = b"ok 1\ncrashed\n1 a 1 x\nrecovered 1\n";
    assert!(rt; prints(&rt, rt.alloc(), &mut script, output, WELL));
}

/// Faults, and the line and the exit status of each.
const FAULTS: &[(ScriptFault, End)] = &[
    (
        ScriptFault::BadLine(7, Reason::LongKey),
        (
            "ramlog: bad line 7\nramlog: a key has at most 1024 bytes\n",
            2,
        ),
    ),
    (ScriptFault::ReadFailed, CANNOT_READ),
    (ScriptFault::WriteFailed, CANNOT_WRITE),
    (ScriptFault::NoMemory, ("ramlog: no memory\n", 1)),
];

fn is_reported(alloc: Global, fault: &ScriptFault, want: End) -> bool {
    let mut errors = ErrorOutput::new(Vec::new(alloc), true);
    let status = report(fault, &mut errors);
    errors.writer().as_slice() == want.0.as_bytes() && status == want.1
}

#[test]
fn each_fault_has_its_line(rt: HostRuntime) {
    for (place, (fault, want)) in FAULTS.iter().enumerate() {
        assert!(rt; is_reported(rt.alloc(), fault, *want), "fault {place}");
    }
}

/// Words, a script, and what is said of them at a terminal.
const EXPLAINED: &[(&[&str], &[u8], &str)] = &[
    (
        &["ramlog"],
        b"lose 3\n",
        "ramlog: bad line 1\nramlog: backups count from 0, and there are 3\n",
    ),
    (
        &["ramlog"],
        b"put 1 a\n",
        "ramlog: bad line 1\nramlog: put has a table, a key and a value\n",
    ),
    (
        &["ramlog", "--replicas", "5"],
        b"",
        "ramlog: bad configuration BadBackups\nramlog: --replicas is more than --backups by 2\n",
    ),
    (
        &["ramlog", "--segment", "600"],
        b"",
        "ramlog: bad configuration BadSegment\nramlog: --segment is more than a multiple of --seglet by 24\n",
    ),
    (
        &["ramlog", "--seglets", "31"],
        b"",
        "ramlog: bad configuration BadBudget\nramlog: --seglets is less than those of four segments by 1\n",
    ),
    // The record was made, and its push ends in a fault. The next command finds the master halted, and has no record.
    (
        &["ramlog"],
        b"put 1 a x\nfault 1 lost\nput 1 a y\nput 1 a z\n",
        "ramlog: the command of line 3 may have been made\n",
    ),
    (
        &["ramlog"],
        b"stop 0\nput 1 a x\n",
        "ramlog: the command of line 2 may have been made\n",
    ),
];

/// Whether these lines are written to the error output.
fn is_explained<H: Threads + Wait + Sync>(
    rt: &H,
    alloc: Global,
    words: &[&str],
    script: &[u8],
    want: &str,
) -> bool {
    let mut reader = script;
    let mut errors = ErrorOutput::new(Vec::new(alloc), true);
    match run_program(
        rt,
        alloc,
        words,
        false,
        false,
        &mut reader,
        &mut io::sink(),
        &mut errors,
    ) {
        Ok(_) => errors.writer().as_slice() == want.as_bytes(),
        Err(_) => false,
    }
}

#[test]
fn faults_are_explained(rt: HostRuntime) {
    for (words, script, want) in EXPLAINED {
        assert!(rt;
            is_explained(&rt, rt.alloc(), words, script, want),
            "{want}"
        );
    }
}

/// Pieces of a script that are read one by one, and how many bytes of answers must have come before each.
const PIECES: &[(&[u8], usize)] = &[
    (b"put 1 a x\n", 0),
    (b"get 1 a\nge", 5),
    (b"t 1 b\n# nothing\n", 9),
    (b"crash", 14),
    (b"\nrec", 14),
    (b"over\n", 22),
];

/// A reader of the pieces from this place on. It fails at a piece if the answers before it have not come.
#[derive(Drop)]
struct Asking<'a> {
    place: usize,
    shown: &'a Cell<usize>,
}

impl Read for Asking<'_> {
    fn read(&mut self, buffer: &mut [u8]) -> io::Result<usize> {
        let Some((piece, answered)) = PIECES.get(self.place) else {
            return Ok(0);
        };
        if self.shown.get() != *answered || buffer.len() < piece.len() {
            return Err(io::Error::from(ErrorKind::Other));
        }
        buffer[..piece.len()].copy_from_slice(piece);
        self.place = self.place.saturating_add(1);
        Ok(piece.len())
    }
}

/// A writer that holds bytes back until it is flushed. It is flushed this often, and then fails.
#[derive(Drop)]
struct Held<'a> {
    held: usize,
    shown: &'a Cell<usize>,
    flushes: usize,
}

impl Write for Held<'_> {
    fn write(&mut self, bytes: &[u8]) -> io::Result<usize> {
        self.held = self.held.saturating_add(bytes.len());
        Ok(bytes.len())
    }

    fn flush(&mut self) -> io::Result<()> {
        if self.flushes == 0 {
            return Err(io::Error::from(ErrorKind::Other));
        }
        self.flushes -= 1;
        self.shown.set(self.held);
        Ok(())
    }
}

/// Whether the run of the pieces ends so if the writer can be flushed this often.
fn ends_over<H: Threads + Wait + Sync>(
    rt: &H,
    alloc: Global,
    shown: &Cell<usize>,
    flushes: usize,
    want: End,
) -> bool {
    let asking = Asking { place: 0, shown };
    let mut writer = Held {
        held: 0,
        shown,
        flushes,
    };
    let Ok(mut reader) = BufReader::new(alloc, asking) else {
        return false;
    };
    ends(rt, alloc, &mut reader, &mut writer, want)
}

/// Whether it ends so, and so many bytes came.
fn is_asked<H: Threads + Wait + Sync>(
    rt: &H,
    alloc: Global,
    flushes: usize,
    bytes: usize,
    want: End,
) -> bool {
    let shown = Cell::new(0);
    let is_end = ends_over(rt, alloc, &shown, flushes, want);
    is_end && shown.get() == bytes
}

/// How often the writer can be flushed, how many bytes come, and how the run of the pieces ends.
const FLUSHES: &[(usize, usize, End)] = &[
    (0, 0, CANNOT_WRITE),
    (3, 9, CANNOT_WRITE),
    (6, 22, CANNOT_WRITE),
    // only the last flush fails
    (7, 42, CANNOT_WRITE),
    (8, 42, WELL),
];

#[test]
fn answers_are_flushed_before_more_is_read(rt: HostRuntime) {
    for (flushes, bytes, want) in FLUSHES {
        assert!(rt;
            is_asked(&rt, rt.alloc(), *flushes, *bytes, *want),
            "{flushes}"
        );
    }
}
