//! Reads and writes that fail: the first of a run alone, then the second, and so on, until a run meets none that fails.

use script::{ErrorOutput, ScriptFault, configuration, options, run_script};
use std::alloc::Global;
use std::cell::Cell;
use std::io::{self, BufRead, BufReader, ErrorKind, Read, Write};
use std::sync::Wait;
use std::thread::Threads;

/// The lines of a script, and what each prints.
const LINES: &[(&[u8], &[u8])] = &[
    (b"put 1 a x\n", b"ok 1\n"),
    (b"get 1 a\n", b"1 x\n"),
    (b"# nothing\n", b""),
    (b"log\n", b"log 1\n"),
    (b"crash\n", b"crashed\n"),
    (b"recover\n", b"1 a 1 x\nrecovered 1\n"),
    (b"del 1 a\n", b"ok 1\n"),
];

/// The script, and all that it prints.
#[derive(Drop)]
struct Texts {
    script: Vec<u8>,
    output: Vec<u8>,
}

fn texts_of(alloc: Global, lines: &[(&[u8], &[u8])]) -> Option<Texts> {
    let mut script = Vec::new(alloc);
    let mut output = Vec::new(alloc);
    for (line, answer) in lines {
        script.extend_from_slice(line).ok()?;
        output.extend_from_slice(answer).ok()?;
    }
    Some(Texts { script, output })
}

/// How many bytes the answers have of the lines that end within so many bytes of the script.
fn answered(bytes: usize) -> usize {
    let mut end = 0usize;
    let mut answered = 0usize;
    for (line, answer) in LINES {
        end = end.saturating_add(line.len());
        if end <= bytes {
            answered = answered.saturating_add(answer.len());
        }
    }
    answered
}

/// One call fails, and no other.
#[derive(Drop)]
struct Fault {
    /// How many calls come before it.
    before: Cell<usize>,
    has_come: Cell<bool>,
}

impl Fault {
    fn after(calls: usize) -> Fault {
        Fault {
            before: Cell::new(calls),
            has_come: Cell::new(false),
        }
    }

    /// Whether the present call is the one that fails.
    fn comes(&self) -> bool {
        let before = self.before.get();
        let is_it = before == 0 && !self.has_come.get();
        self.before.set(before.saturating_sub(1));
        if is_it {
            self.has_come.set(true);
        }
        is_it
    }
}

/// A reader of these bytes, of which it gives so many at a time.
#[derive(Drop)]
struct Pieces<'a> {
    bytes: &'a [u8],
    size: usize,
    given: &'a Cell<usize>,
    fault: &'a Fault,
}

impl Read for Pieces<'_> {
    fn read(&mut self, buffer: &mut [u8]) -> io::Result<usize> {
        if self.fault.comes() {
            return Err(io::Error::from(ErrorKind::Other));
        }
        let len = self.size.min(buffer.len()).min(self.bytes.len());
        let (piece, rest) = self.bytes.split_at(len);
        buffer[..len].copy_from_slice(piece);
        self.bytes = rest;
        self.given.set(self.given.get().saturating_add(len));
        Ok(len)
    }
}

/// A writer that keeps what it takes.
#[derive(Drop)]
struct Kept<'a> {
    bytes: Vec<u8>,
    fault: &'a Fault,
    /// It was handed bytes after a call of it had failed.
    is_late: bool,
}

impl Write for Kept<'_> {
    fn write(&mut self, bytes: &[u8]) -> io::Result<usize> {
        self.is_late = self.is_late || self.fault.has_come.get();
        if self.fault.comes() {
            return Err(io::Error::from(ErrorKind::Other));
        }
        self.bytes.write(bytes)
    }

    fn flush(&mut self) -> io::Result<()> {
        if self.fault.comes() {
            return Err(io::Error::from(ErrorKind::Other));
        }
        Ok(())
    }
}

/// How the run of the default options ends. None if it lacks memory before.
fn end_of<H: Threads + Wait + Sync, R: BufRead, W: Write>(
    rt: &H,
    alloc: Global,
    reader: &mut R,
    writer: &mut W,
) -> Option<Result<(), ScriptFault>> {
    let Ok(options) = options(alloc, &["ramlog"]) else {
        return None;
    };
    let Ok(config) = configuration(alloc, &options, 1) else {
        return None;
    };
    match config.check() {
        Err(_) => None,
        Ok(()) => {
            let mut errors = ErrorOutput::new(io::sink(), false);
            match run_script(
                rt,
                alloc,
                reader,
                writer,
                &mut errors,
                options,
                false,
                false,
            ) {
                Ok(_) => Some(Ok(())),
                Err(fault) => Some(Err(fault)),
            }
        }
    }
}

/// How a run should end in which these came.
fn wanted(reads: &Fault, writes: &Fault) -> Result<(), ScriptFault> {
    if reads.has_come.get() {
        Err(ScriptFault::ReadFailed)
    } else if writes.has_come.get() {
        Err(ScriptFault::WriteFailed)
    } else {
        Ok(())
    }
}

/// Whether the run of the script in pieces of this size ends as it should, and writes the answers to all lines that it
/// was given. If a write fails, answers to lines of the last piece may be missing.
fn is_run<H: Threads + Wait + Sync>(
    rt: &H,
    alloc: Global,
    texts: &Texts,
    size: usize,
    reads: &Fault,
    writes: &Fault,
) -> bool {
    let given = Cell::new(0);
    let pieces = Pieces {
        bytes: texts.script.as_slice(),
        size,
        given: &given,
        fault: reads,
    };
    let mut kept = Kept {
        bytes: Vec::new(alloc),
        fault: writes,
        is_late: false,
    };
    let Ok(mut reader) = BufReader::new(alloc, pieces) else {
        return false;
    };
    let end = end_of(rt, alloc, &mut reader, &mut kept);
    let missing = if writes.has_come.get() { size } else { 0 };
    let least = answered(given.get().saturating_sub(missing));
    let most = answered(given.get());
    let is_front = texts.output.as_slice().starts_with(kept.bytes.as_slice());
    let is_whole = least <= kept.bytes.len() && kept.bytes.len() <= most;
    end == Some(wanted(reads, writes)) && is_front && is_whole && !kept.is_late
}

/// More calls than a run makes.
const MOST: usize = 1000;

/// Fails each read in turn. How many reads a run makes; 0 if one ends otherwise than it should.
fn count_reads<H: Threads + Wait + Sync>(
    rt: &H,
    alloc: Global,
    texts: &Texts,
    size: usize,
) -> usize {
    for calls in 0..MOST {
        let (reads, writes) = (Fault::after(calls), Fault::after(MOST));
        if !is_run(rt, alloc, texts, size, &reads, &writes) {
            return 0;
        }
        if !reads.has_come.get() {
            return calls;
        }
    }
    0
}

/// Fails each call of the writer in turn. How many a run makes; 0 if one ends otherwise than it should.
fn count_writes<H: Threads + Wait + Sync>(
    rt: &H,
    alloc: Global,
    texts: &Texts,
    size: usize,
) -> usize {
    for calls in 0..MOST {
        let (reads, writes) = (Fault::after(MOST), Fault::after(calls));
        if !is_run(rt, alloc, texts, size, &reads, &writes) {
            return 0;
        }
        if !writes.has_come.get() {
            return calls;
        }
    }
    0
}

/// How many bytes a read gives at most: one, a part of a line or of two, and the whole script.
const SIZES: &[usize] = &[1, 7, 1000];

fn are_told<H: Threads + Wait + Sync>(rt: &H, alloc: Global, size: usize) -> bool {
    match &texts_of(alloc, LINES) {
        Some(texts) => {
            count_reads(rt, alloc, texts, size) > 1 && count_writes(rt, alloc, texts, size) > 1
        }
        None => false,
    }
}

#[test]
fn each_read_and_each_write_fails_in_turn(rt: HostRuntime) {
    for size in SIZES {
        assert!(rt; are_told(&rt, rt.alloc(), *size), "{size}");
    }
}
