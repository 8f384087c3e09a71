//! A registry in memory, and the file of its journal.

ghost use Rattle.std.specs.Prelude.{◌≡◌, ◌⊎◌, ◌≤◌, ◌^◌, ◌++◌, [], ◌∷◌, Err, IfErr, OnErr, OnOk, true, false};
ghost use Rattle.take_journal.specs.Crash.{LeftByAppend, LeftByMending};
ghost use Rattle.take_journal.specs.Device.{AnyMoment, LeavesJust};
ghost use Rattle.take_journal.specs.Frames.{IsShort, recovered};
ghost use Rattle.take_journal.specs.Journal.{IsSettled, StandsFor, device_of, end_at, takes_more};
ghost use Rattle.registry_file.specs.Kept.{after, begun, kept_in};
ghost use Rattle.registry_file.specs.File.{IsBacked, IsJournalOf, LeftByMaking, LeftByPut, Shows, TellsWhy};
ghost use Rattle.registry_file.specs.File.{MayRefuse, is_out, journal_of, kept_by, told};
ghost use Rattle.registry_text.specs.RecordText.{FitsRecord, record_text};

use crate::whole::{replay, whole_texts};
use crate::{Registry, RegistryFault};
use registry_text::{Fleet, Record, are_short, one_record, write_record};
use std::alloc::Global;
use std::mem::replace;
use take_journal::{Device, Journal, JournalFault, OpenFault};

/// A registry in memory that writes what it keeps to a journal.
///
/// Memory keeps a record when the journal has it on the disk, and never before. A registry is *out* once its device
/// failed. Then it answers Failed to each record, and asks nothing of its device.
#[derive(Drop)]
pub struct RegistryFile<D: Device> {
    pub(crate) registry: Registry,
    pub(crate) journal: Journal<D>,
    /// The text of the last record. Its memory serves the next one.
    pub(crate) text: Vec<u8>,
    pub(crate) is_out: bool,
}

impl<D: Device> RegistryFile<D> {
    /// A registry that is out until its file is begun or opened. It takes no memory.
    pub fn new(alloc: Global, device: D) -> Self
        ensures out { is_out result ≡ true }
        ensures device { device_of (journal_of result) ≡ device }
        ensures closed { takes_more (journal_of result) ≡ false }
        ensures nothing { kept_by result ≡ begun (record { id = 0; options = [] }) }
    {
        RegistryFile {
            registry: Registry::new(
                alloc,
                Fleet {
                    id: 0,
                    options: Vec::new(alloc),
                },
            ),
            journal: Journal::new(device),
            text: Vec::new(alloc),
            is_out: true,
        }
    }

    /// Whether the registry is out.
    pub fn is_out(&self) -> bool
        ensures { result ≡ is_out self.now }
    {
        self.is_out
    }

    /// The journal of the registry.
    pub fn journal(&self) -> &Journal<D>
        ensures { result.now ≡ journal_of self.now }
    {
        &self.journal
    }

    /// What the registry keeps.
    pub fn registry(&self) -> &Registry
        ensures { kept_in result.now ≡ kept_by self.now }
    {
        &self.registry
    }

    /// Begins the registry's file, which is empty, for a store with this id and these options. One text is appended.
    /// The answer is `NoMemory` also if there are 2^16 options or more. After an `Err` the registry is out.
    pub fn begin(&mut self, alloc: Global, id: u64, options: &[u64]) -> Result<(), RegistryFault>
        requires closed { takes_more (journal_of self.old) ≡ false }
        requires empty { D.contents (device_of (journal_of self.old)) ≡ [] }
        requires durable { LeavesJust [] (D.may_leave (device_of (journal_of self.old))) }
        requires unfailed { D.has_failed (device_of (journal_of self.old)) ≡ false }

        ensures backed { IsBacked D.contents D.may_leave D.has_failed self.new }
        ensures begun { OnOk result ((is_out self.new ≡ false)
            × (kept_by self.new ≡ begun (record { id = id; options = options.now }))) }
        ensures out { OnErr result (is_out self.new ≡ true) }

        // A crash at any moment of the call leaves no texts, or the store's.
        ensures any_moment { AnyMoment D.clock D.left_since
            (LeftByMaking (begun (record { id = id; options = options.now })))
            (device_of (journal_of self.old)) (device_of (journal_of self.new)) }
    {
        self.is_out = true;
        let Ok(options) = options.to_vec(alloc) else {
            return Err(RegistryFault::NoMemory);
        };
        self.registry = Registry::new(alloc, Fleet { id, options });
        write_whole(alloc, &self.registry, &mut self.journal)?;
        self.is_out = false;
        Ok(())
    }

    /// Opens the registry's file, which has just these bytes, and takes over what it keeps. What a crash left torn at
    /// its end is cut off. After an `Err` the registry is out.
    pub fn open(&mut self, alloc: Global, bytes: &[u8]) -> Result<(), RegistryFault>
        requires closed { takes_more (journal_of self.old) ≡ false }
        requires bytes { bytes.now ≡ D.contents (device_of (journal_of self.old)) }
        requires durable { LeavesJust bytes.now (D.may_leave (device_of (journal_of self.old))) }
        requires unfailed { D.has_failed (device_of (journal_of self.old)) ≡ false }

        ensures backed { IsBacked D.contents D.may_leave D.has_failed self.new }
        ensures opened { OnOk result ((is_out self.new ≡ false) × Shows (kept_by self.new) bytes.now) }
        ensures out { OnErr result (is_out self.new ≡ true) }

        // A file is named damaged only if no crash can have left it.
        ensures refused { IfErr result (λ fault. TellsWhy fault bytes.now) }

        // A crash at any moment of the call leaves a file of the same texts, which can be opened if this one can.
        ensures any_moment { AnyMoment D.clock D.left_since (LeftByMending bytes.now)
            (device_of (journal_of self.old)) (device_of (journal_of self.new)) }
    {
        self.is_out = true;
        let texts = match self.journal.open(alloc, bytes) {
            Ok(texts) => texts,
            Err(fault) => return Err(told(fault)),
        };
        self.registry = replay(alloc, &texts)?;
        self.is_out = false;
        Ok(())
    }

    /// Writes all that the registry keeps to a new file: the store, a record for each journal and each least head, and
    /// the master and the format. One gate opens them all. The registry goes on with its own journal.
    pub fn copy_to(&self, alloc: Global, journal: &mut Journal<D>) -> Result<(), RegistryFault>
        requires closed { takes_more journal.old ≡ false }
        requires empty { D.contents (device_of journal.old) ≡ [] }
        requires durable { LeavesJust [] (D.may_leave (device_of journal.old)) }
        requires unfailed { D.has_failed (device_of journal.old) ≡ false }

        ensures copied { OnOk result
            (IsJournalOf D.contents D.may_leave D.has_failed (kept_by self.now) journal.new) }

        // Until the call is done, the new file has no texts, or it keeps all of it.
        ensures any_moment { AnyMoment D.clock D.left_since (LeftByMaking (kept_by self.now))
            (device_of journal.old) (device_of journal.new) }
    {
        write_whole(alloc, &self.registry, journal)
    }

    /// Goes on with another journal that keeps the same, and hands back its own. A registry that was out is back.
    pub fn go_on_with(&mut self, journal: Journal<D>) -> Journal<D>
        requires copied { IsJournalOf D.contents D.may_leave D.has_failed (kept_by self.old) journal }
        ensures backed { IsBacked D.contents D.may_leave D.has_failed self.new }
        ensures goes_on { is_out self.new ≡ false }
        ensures journal { journal_of self.new ≡ journal }
        ensures own { result ≡ journal_of self.old }
        ensures same { kept_by self.new ≡ kept_by self.old }
    {
        self.is_out = false;
        replace(&mut self.journal, journal)
    }

    /// Keeps what a record says, and has it on the disk before the answer is Ok. Two writes and two syncs. Only at Ok
    /// does what is kept change.
    ///
    /// After NoMemory and Full nothing changed. After Failed the registry is out.
    pub fn put(&mut self, alloc: Global, record: &Record) -> Result<(), RegistryFault>
        requires backed { IsBacked D.contents D.may_leave D.has_failed self.old }

        ensures backed { IsBacked D.contents D.may_leave D.has_failed self.new }
        ensures put { OnOk result (kept_by self.new ≡ after (kept_by self.old) record.now) }
        ensures refused { OnErr result (kept_by self.new ≡ kept_by self.old) }
        ensures unchanged { IfErr result (λ fault. (fault ≡ RegistryFault.Failed)
            ⊎ ((journal_of self.new ≡ journal_of self.old) × (is_out self.new ≡ is_out self.old))) }
        ensures only { IfErr result MayRefuse }
        ensures full { result ≡ Err RegistryFault.Full → 2 ^ 60 ≤ end_at (journal_of self.old) }

        // A crash at any moment of the call leaves what was kept before it, or what is kept after the record.
        ensures any_moment { is_out self.old ≡ false → AnyMoment D.clock D.left_since
            (LeftByPut (kept_by self.old) record.now)
            (device_of (journal_of self.old)) (device_of (journal_of self.new)) }

        // It gives up only if the device failed. A registry that is out does nothing, and stays out.
        ensures gives_up { is_out self.old ≡ false → result ≡ Err RegistryFault.Failed →
            D.has_failed (device_of (journal_of self.new)) ≡ true }
        ensures halted { is_out self.old ≡ true → (result ≡ Err RegistryFault.Failed) × (self.new ≡ self.old) }
        ensures failed { result ≡ Err RegistryFault.Failed → is_out self.new ≡ true }
        ensures goes_on { OnOk result (is_out self.new ≡ false) }
    {
        if self.is_out {
            return Err(RegistryFault::Failed);
        }
        // What is read back from the text is this record and no other, and the text fits a frame.
        one_record();
        are_short();
        if !spell(&mut self.text, record) || self.registry.reserve().is_err() {
            return Err(RegistryFault::NoMemory);
        }
        match write_down(&mut self.journal, alloc, &self.text) {
            Written::Done => {}
            Written::NoMemory => return Err(RegistryFault::NoMemory),
            Written::Full => return Err(RegistryFault::Full),
            Written::Unknown => {
                self.is_out = true;
                return Err(RegistryFault::Failed);
            }
        }
        self.registry.note(record);
        Ok(())
    }
}

/// Writes the text of a record in the place of another. The answer is false if there is no memory for it.
fn spell(text: &mut Vec<u8>, record: &Record) -> bool
    ensures text { result ≡ true → text.new.items ≡ record_text record.now }
    ensures fits { result ≡ true → FitsRecord record.now }
{
    text.clear();
    write_record(text, record).is_ok()
}

/// Makes the file of a journal: the texts that keep what a registry keeps, all behind one gate.
fn write_whole<D: Device>(
    alloc: Global,
    registry: &Registry,
    journal: &mut Journal<D>,
) -> Result<(), RegistryFault>
    requires closed { takes_more journal.old ≡ false }
    requires empty { D.contents (device_of journal.old) ≡ [] }
    requires durable { LeavesJust [] (D.may_leave (device_of journal.old)) }
    requires unfailed { D.has_failed (device_of journal.old) ≡ false }

    ensures whole { OnOk result (IsJournalOf D.contents D.may_leave D.has_failed (kept_in registry.now) journal.new) }
    ensures any_moment { AnyMoment D.clock D.left_since (LeftByMaking (kept_in registry.now))
        (device_of journal.old) (device_of journal.new) }
{
    let Ok(texts) = whole_texts(alloc, registry) else {
        return Err(RegistryFault::NoMemory);
    };
    if let Err(fault) = journal.open(alloc, &[]) {
        return Err(told(fault));
    }
    match journal.append_all(alloc, &texts) {
        Ok(()) => Ok(()),
        Err(fault) => Err(not_written(fault)),
    }
}

/// Why texts weren't written, as a fault of their registry.
fn not_written(fault: JournalFault) -> RegistryFault {
    match fault {
        JournalFault::NoMemory => RegistryFault::NoMemory,
        JournalFault::Full => RegistryFault::Full,
        JournalFault::Closed | JournalFault::Failed => RegistryFault::Failed,
    }
}

/// Why a journal wasn't opened, as a fault of its registry.
fn told(fault: OpenFault) -> RegistryFault
    ensures { result ≡ told fault }
{
    match fault {
        OpenFault::NoMemory => RegistryFault::NoMemory,
        OpenFault::OtherVersion => RegistryFault::OtherVersion,
        OpenFault::Damaged(at) => RegistryFault::Damaged(at),
        OpenFault::Failed => RegistryFault::Failed,
    }
}

/// What came of a text for a journal.
#[derive(Clone, Copy)]
enum Written {
    /// It is on the disk.
    Done,
    /// Nothing was done: memory ran out.
    NoMemory,
    /// Nothing was done: the journal is full.
    Full,
    /// It is on the disk or not: the device failed.
    Unknown,
}

/// Adds a text to a journal that takes more.
fn write_down<D: Device>(journal: &mut Journal<D>, alloc: Global, text: &[u8]) -> Written
    requires ready { takes_more journal.old ≡ true }
    requires settled { IsSettled D.contents D.may_leave D.has_failed (device_of journal.old) (end_at journal.old) }
    requires short { IsShort text.now }

    ensures done { result ≡ Written.Done → StandsFor D.contents D.may_leave D.has_failed journal.new
        (recovered (D.contents (device_of journal.old)) ++ text.now ∷ []) }
    ensures no_memory { result ≡ Written.NoMemory → journal.new ≡ journal.old }
    ensures full { result ≡ Written.Full → (journal.new ≡ journal.old) × (2 ^ 60 ≤ end_at journal.old) }
    ensures unknown { result ≡ Written.Unknown → D.has_failed (device_of journal.new) ≡ true }
    ensures any_moment { AnyMoment D.clock D.left_since
        (LeftByAppend (recovered (D.contents (device_of journal.old))) (text.now ∷ []))
        (device_of journal.old) (device_of journal.new) }
{
    match journal.append(alloc, text) {
        Ok(()) => Written::Done,
        Err(JournalFault::Failed) => Written::Unknown,
        Err(JournalFault::Full) => Written::Full,
        Err(_) => Written::NoMemory,
    }
}
