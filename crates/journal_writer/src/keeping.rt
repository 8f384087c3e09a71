//! A journal on the disk: to open it, and to append to it.

ghost use Rattle.std.specs.Prelude.{◌≡◌, false, IfOk, OnOk};
ghost use Rattle.disk_file.specs.Disk.{contents, has_failed, may_leave};
ghost use Rattle.take_journal.specs.Device.{LeavesJust};
ghost use Rattle.take_journal.specs.Journal.{IsSound, device_of, takes_more};

use crate::fault::Fault;
use disk_file::{DiskFile, Folder, OpenError, Opened};
use std::io::{self, BufRead, BufReader, BufWriter, Write};
use std::time::Instant;
use take_journal::{Journal, JournalFault, OpenFault, VERSION};

/// Opens the journal, or makes it if it isn't there. It prints the texts if it `shows` them.
pub fn open_journal(
    rt: &HostRuntime,
    folder: &Folder,
    name: &str,
    shows: bool,
) -> Result<Journal<DiskFile>, Fault>
    ensures sound { IfOk result (λ j. IsSound contents may_leave has_failed j) }
{
    let opened = match folder.open_file(rt, name) {
        Ok(opened) => opened,
        Err(OpenError::Missing) => Opened {
            file: folder.make_file(rt, name)?,
            bytes: Vec::new(rt.alloc()),
        },
        Err(error) => return Err(error.into()),
    };
    let mut journal = Journal::new(opened.file);
    begin(rt, &mut journal, &opened.bytes, shows)?;
    Ok(journal)
}

/// Opens a journal whose file has these bytes. The first text of a new one has the version alone.
fn begin(
    rt: &HostRuntime,
    journal: &mut Journal<DiskFile>,
    bytes: &[u8],
    shows: bool,
) -> Result<(), Fault>
    requires closed { takes_more journal.old ≡ false }
    requires bytes { bytes.now ≡ contents (device_of journal.old) }
    requires durable { LeavesJust bytes.now (may_leave (device_of journal.old)) }
    requires unfailed { has_failed (device_of journal.old) ≡ false }
    ensures sound { OnOk result (IsSound contents may_leave has_failed journal.new) }
{
    let texts = match journal.open(rt.alloc(), bytes) {
        Ok(texts) => texts,
        Err(fault) => return Err(open_fault(journal, fault)),
    };
    if texts.is_empty() {
        append(rt, journal, &[VERSION])?;
    }
    if shows {
        show(rt, &texts)?;
    }
    Ok(())
}

/// Prints the texts behind the first one, and their count.
fn show(rt: &HostRuntime, texts: &[Vec<u8>]) -> io::Result<()> {
    let mut count = 0u64;
    let mut writer = BufWriter::new(rt.alloc(), io::writer(rt))?;
    for text in texts.iter().skip(1) {
        writer.write_all(b"text ")?;
        writer.write_all(text)?;
        writer.write_all(b"\n")?;
        count = count.saturating_add(1);
    }
    writer.flush()?;
    println!(rt; "open {count}")
}

/// Why a journal wasn't opened.
fn open_fault(journal: &Journal<DiskFile>, fault: OpenFault) -> Fault {
    match fault {
        OpenFault::NoMemory => Fault::NoMemory,
        OpenFault::OtherVersion => Fault::OtherVersion,
        OpenFault::Damaged(at) => Fault::Damaged(at),
        OpenFault::Failed => fault_of(journal, JournalFault::Failed),
    }
}

/// Why a journal took no text.
fn fault_of(journal: &Journal<DiskFile>, fault: JournalFault) -> Fault {
    match journal.device().failure() {
        Some(error) => Fault::Failed(error),
        None => match fault {
            JournalFault::NoMemory => Fault::NoMemory,
            JournalFault::Full | JournalFault::Closed | JournalFault::Failed => Fault::Full,
        },
    }
}

/// Appends a text of less than 2^32 bytes.
fn append(rt: &HostRuntime, journal: &mut Journal<DiskFile>, text: &[u8]) -> Result<(), Fault>
    requires sound { IsSound contents may_leave has_failed journal.old }
    ensures sound { IsSound contents may_leave has_failed journal.new }
{
    if text.len() > u32::MAX as usize {
        return Err(Fault::Full);
    }
    match journal.append(rt.alloc(), text) {
        Ok(()) => Ok(()),
        Err(fault) => Err(fault_of(journal, fault)),
    }
}

/// Appends each line of the input, and prints `ok` once it is on the disk.
pub fn append_lines(rt: &HostRuntime, journal: &mut Journal<DiskFile>) -> Result<(), Fault>
    requires sound { IsSound contents may_leave has_failed journal.old }
{
    let reader = BufReader::new(rt.alloc(), rt.reader())?;
    for line in reader.lines(rt.alloc()) {
        append(rt, journal, line?.as_bytes())?;
        println!(rt; "ok")?;
    }
    Ok(())
}

/// Appends so many texts of so many bytes each, and prints how many nanoseconds that took.
pub fn append_many(
    rt: &HostRuntime,
    journal: &mut Journal<DiskFile>,
    texts: u64,
    bytes: usize,
) -> Result<(), Fault>
    requires sound { IsSound contents may_leave has_failed journal.old }
{
    let text = vec![in rt.alloc(); b'.'; bytes]?;
    let start = Instant::now(rt)?;
    for _ in 0..texts {
        append(rt, journal, &text)?;
    }
    println!(rt; "{}", start.elapsed(rt)?.as_nanos())?;
    Ok(())
}
