//! A backup in memory, and the journal of what it took.

ghost use Rattle.std.specs.Prelude.{◌≡◌, ◌⊎◌, ◌++◌, [], ◌∷◌, ℕ, Some, None, Err};
ghost use Rattle.std.specs.Prelude.{IfErr, IfOk, OnOk, OnErr, is_some, length, take, true, false};
ghost use Rattle.replica.specs.Op.{shown_act, shown_op};
ghost use Rattle.replica.specs.Take.{effect};
ghost use Rattle.backup.specs.Acts.{MayGrow};
ghost use Rattle.op_text.specs.OpText.{FitsText, op_text};
ghost use Rattle.take_journal.specs.Crash.{HasVersion, LeftByAppend, LeftByMending};
ghost use Rattle.take_journal.specs.Device.{AnyMoment, LeavesJust};
ghost use Rattle.take_journal.specs.Frames.{IsShort, recovered};
ghost use Rattle.take_journal.specs.Journal.{IsSettled, StandsFor, device_of, end_at, takes_more};
ghost use Rattle.file_backup.specs.Replay.{after_op, held_in, shown};
ghost use Rattle.file_backup.specs.Mirror.{IsBacked, IsJournalOf, LeftByMaking, LeftByTake, Shows};
ghost use Rattle.file_backup.specs.Mirror.{TellsFirst, TellsWhy, is_out, journal_of, memory_of, replicas_of, told};

use crate::BackupFault;
use crate::reading::{first_texts, replay};
use crate::writing::{MAX_TEXT_LEN, whole_texts};
use backup::MemoryBackup;
use op_text::{one_op, write_op};
use replica::{Op, TakeFault};
use std::alloc::Global;
use std::mem::replace;
use take_journal::{Device, Journal, JournalFault, OpenFault};

/// A backup in memory that writes what it takes to a journal.
///
/// Memory takes an op when the journal has it on the disk, and never before. A backup is *out* once its device failed,
/// or once memory ran out for an op that the journal has. A backup that is out answers Fault to each op, and asks
/// nothing of its device.
#[derive(Drop)]
pub struct FileBackup<D: Device> {
    pub(crate) memory: MemoryBackup,
    pub(crate) journal: Journal<D>,
    /// The text of the last op. Its memory serves the next one.
    pub(crate) text: Vec<u8>,
    pub(crate) is_out: bool,
}

impl<D: Device> FileBackup<D> {
    /// A backup that holds nothing, and is out until its file is begun or opened. It takes no memory.
    pub fn new(alloc: Global, device: D) -> Self
        ensures out { is_out result ≡ true }
        ensures device { device_of (journal_of result) ≡ device }
        ensures closed { takes_more (journal_of result) ≡ false }
        ensures nothing { (m s : ℕ) → replicas_of result m s ≡ None }
    {
        FileBackup {
            memory: MemoryBackup::new(alloc),
            journal: Journal::new(device),
            text: Vec::new(alloc),
            is_out: true,
        }
    }

    /// Whether the backup is out.
    pub fn is_out(&self) -> bool
        ensures { result ≡ is_out self.now }
    {
        self.is_out
    }

    /// The journal of the backup.
    pub fn journal(&self) -> &Journal<D>
        ensures { result.now ≡ journal_of self.now }
    {
        &self.journal
    }

    /// What the backup holds.
    pub fn memory(&self) -> &MemoryBackup
        ensures { result.now ≡ memory_of self.now }
    {
        &self.memory
    }

    /// Begins the backup's file, which is empty. Its texts are `first`, and an op for each replica that the backup
    /// holds. The answer is how many texts it has. After an `Err` the backup is out.
    pub fn begin(&mut self, alloc: Global, first: &[u8]) -> Result<u64, BackupFault>
        requires closed { takes_more (journal_of self.old) ≡ false }
        requires empty { D.contents (device_of (journal_of self.old)) ≡ [] }
        requires durable { LeavesJust [] (D.may_leave (device_of (journal_of self.old))) }
        requires unfailed { D.has_failed (device_of (journal_of self.old)) ≡ false }
        requires version { HasVersion (first.now ∷ []) }
        requires short { IsShort first.now }

        ensures backed { IsBacked D.contents D.may_leave D.has_failed self.new }
        ensures begun { OnOk result (is_out self.new ≡ false) }
        ensures counted { IfOk result (λ count.
            count ≡ length (recovered (D.contents (device_of (journal_of self.new))))) }
        ensures same { replicas_of self.new ≡ replicas_of self.old }
        ensures any_moment { AnyMoment D.clock D.left_since (LeftByMaking (replicas_of self.old))
            (device_of (journal_of self.old)) (device_of (journal_of self.new)) }
    {
        self.is_out = true;
        let count = write_whole(alloc, first, &self.memory, &mut self.journal)?;
        self.is_out = false;
        Ok(count)
    }

    /// Opens the backup's file, which has just these bytes, and takes over what it shows. What a crash left torn at
    /// its end is cut off. After an `Err` the backup is out.
    pub fn open(&mut self, alloc: Global, bytes: &[u8]) -> Result<(), BackupFault>
        requires closed { takes_more (journal_of self.old) ≡ false }
        requires bytes { bytes.now ≡ D.contents (device_of (journal_of self.old)) }
        requires durable { LeavesJust bytes.now (D.may_leave (device_of (journal_of self.old))) }
        requires unfailed { D.has_failed (device_of (journal_of self.old)) ≡ false }

        ensures backed { IsBacked D.contents D.may_leave D.has_failed self.new }
        ensures opened { OnOk result ((is_out self.new ≡ false) × Shows (replicas_of self.new) bytes.now) }

        // A file is named damaged only if no crash can have left it.
        ensures refused { IfErr result (λ fault. TellsWhy fault bytes.now) }

        // A crash at any moment of the call leaves a file of the same texts, which can be opened if this one can.
        ensures any_moment { AnyMoment D.clock D.left_since (LeftByMending bytes.now)
            (device_of (journal_of self.old)) (device_of (journal_of self.new)) }
    {
        match self.open_counted(alloc, bytes) {
            Ok(_) => Ok(()),
            Err(fault) => Err(fault),
        }
    }

    /// Opens the backup's file as `open` does, and answers how many texts it has.
    pub fn open_counted(&mut self, alloc: Global, bytes: &[u8]) -> Result<u64, BackupFault>
        requires closed { takes_more (journal_of self.old) ≡ false }
        requires bytes { bytes.now ≡ D.contents (device_of (journal_of self.old)) }
        requires durable { LeavesJust bytes.now (D.may_leave (device_of (journal_of self.old))) }
        requires unfailed { D.has_failed (device_of (journal_of self.old)) ≡ false }

        ensures backed { IsBacked D.contents D.may_leave D.has_failed self.new }
        ensures opened { OnOk result ((is_out self.new ≡ false) × Shows (replicas_of self.new) bytes.now) }
        ensures counted { IfOk result (λ count.
            count ≡ length (recovered (D.contents (device_of (journal_of self.new))))) }

        // A file is named damaged only if no crash can have left it.
        ensures refused { IfErr result (λ fault. TellsWhy fault bytes.now) }

        // A crash at any moment of the call leaves a file of the same texts, which can be opened if this one can.
        ensures any_moment { AnyMoment D.clock D.left_since (LeftByMending bytes.now)
            (device_of (journal_of self.old)) (device_of (journal_of self.new)) }
    {
        self.is_out = true;
        let texts = match self.journal.open(alloc, bytes) {
            Ok(texts) => texts,
            Err(fault) => return Err(told(fault)),
        };
        self.memory = replay(alloc, &texts)?;
        self.is_out = false;
        Ok(texts.len() as u64)
    }

    /// Takes over what the first texts of the backup's file show, so many or all that there are. The file has just
    /// these bytes, and what a crash left torn at its end is cut off. The backup is out: it goes on in another
    /// journal.
    pub fn show_first(&mut self, alloc: Global, bytes: &[u8], count: u64) -> Result<(), BackupFault>
        requires closed { takes_more (journal_of self.old) ≡ false }
        requires bytes { bytes.now ≡ D.contents (device_of (journal_of self.old)) }
        requires durable { LeavesJust bytes.now (D.may_leave (device_of (journal_of self.old))) }
        requires unfailed { D.has_failed (device_of (journal_of self.old)) ≡ false }

        ensures backed { IsBacked D.contents D.may_leave D.has_failed self.new }
        ensures out { is_out self.new ≡ true }
        ensures shown { OnOk result (shown (take count (recovered bytes.now)) ≡ Some (replicas_of self.new)) }

        // A file is named damaged only if no crash can have left it.
        ensures refused { IfErr result (λ fault. TellsFirst count fault bytes.now) }

        // A crash at any moment of the call leaves a file of the same texts, which can be opened if this one can.
        ensures any_moment { AnyMoment D.clock D.left_since (LeftByMending bytes.now)
            (device_of (journal_of self.old)) (device_of (journal_of self.new)) }
    {
        self.is_out = true;
        let texts = match self.journal.open(alloc, bytes) {
            Ok(texts) => texts,
            Err(fault) => return Err(told(fault)),
        };
        self.memory = replay(alloc, first_texts(&texts, count))?;
        Ok(())
    }

    /// Writes all that the backup holds to a new file. Its texts are `first`, and an Open or a Seal for each replica,
    /// and one gate opens them all. The answer is how many texts it has. The backup goes on with its own journal.
    pub fn copy_to(
        &self,
        alloc: Global,
        first: &[u8],
        journal: &mut Journal<D>,
    ) -> Result<u64, BackupFault>
        requires closed { takes_more journal.old ≡ false }
        requires empty { D.contents (device_of journal.old) ≡ [] }
        requires durable { LeavesJust [] (D.may_leave (device_of journal.old)) }
        requires unfailed { D.has_failed (device_of journal.old) ≡ false }
        requires version { HasVersion (first.now ∷ []) }
        requires short { IsShort first.now }

        ensures copied { OnOk result
            (IsJournalOf D.contents D.may_leave D.has_failed (replicas_of self.now) journal.new) }
        ensures counted { IfOk result (λ count. count ≡ length (recovered (D.contents (device_of journal.new)))) }

        // Until the call is done, the new file has no texts, or it shows what the backup holds.
        ensures any_moment { AnyMoment D.clock D.left_since (LeftByMaking (replicas_of self.now))
            (device_of journal.old) (device_of journal.new) }
    {
        write_whole(alloc, first, &self.memory, journal)
    }

    /// Goes on with another journal that shows what the backup holds, and hands back its own. A backup that was out is
    /// back.
    pub fn go_on_with(&mut self, journal: Journal<D>) -> Journal<D>
        requires copied { IsJournalOf D.contents D.may_leave D.has_failed (replicas_of self.old) journal }
        ensures backed { IsBacked D.contents D.may_leave D.has_failed self.new }
        ensures goes_on { is_out self.new ≡ false }
        ensures journal { journal_of self.new ≡ journal }
        ensures own { result ≡ journal_of self.old }
        ensures same { replicas_of self.new ≡ replicas_of self.old }
    {
        self.is_out = false;
        replace(&mut self.journal, journal)
    }

    /// Does what an op asks, and has it on the disk before the answer is Ok. Only at Ok does memory change.
    ///
    /// The answer is Wrong if the op doesn't fit. It is NoMemory if there is no memory for the op's text, or if the
    /// text has 2^32 bytes or more, or if the journal is full; nothing changed then. After Fault the backup is out.
    pub fn take(&mut self, alloc: Global, op: &Op<'_>) -> Result<(), TakeFault>
        requires backed { IsBacked D.contents D.may_leave D.has_failed self.old }

        ensures backed { IsBacked D.contents D.may_leave D.has_failed self.new }
        ensures taken { OnOk result (after_op (replicas_of self.old) (shown_op op.now) ≡ Some (replicas_of self.new)) }
        ensures refused { OnErr result (replicas_of self.new ≡ replicas_of self.old) }
        ensures wrong { result ≡ Err TakeFault.Wrong → after_op (replicas_of self.old) (shown_op op.now) ≡ None }
        ensures memory { result ≡ Err TakeFault.NoMemory → journal_of self.new ≡ journal_of self.old }

        // A crash at any moment of the call leaves the replicas from before it, or those after it.
        ensures any_moment { is_out self.old ≡ false → AnyMoment D.clock D.left_since
            (LeftByTake (replicas_of self.old) (shown_op op.now))
            (device_of (journal_of self.old)) (device_of (journal_of self.new)) }

        // At Ok the journal has the op's text behind its others, and as long as it isn't out, no other one.
        ensures appended { OnOk result (recovered (D.contents (device_of (journal_of self.new)))
            ≡ recovered (D.contents (device_of (journal_of self.old))) ++ op_text (shown_op op.now) ∷ []) }
        ensures untouched { is_out self.new ≡ false → OnErr result (journal_of self.new ≡ journal_of self.old) }

        // A crash at any moment of the call leaves the texts from before it, with the op's text or without.
        ensures texts { is_out self.old ≡ false → AnyMoment D.clock D.left_since
            (LeftByAppend (recovered (D.contents (device_of (journal_of self.old)))) (op_text (shown_op op.now) ∷ []))
            (device_of (journal_of self.old)) (device_of (journal_of self.new)) }

        // It gives up only if the device failed, or if memory ran out for a longer replica.
        ensures gives_up { is_out self.old ≡ false → result ≡ Err TakeFault.Fault →
            (D.has_failed (device_of (journal_of self.new)) ≡ true) ⊎ MayGrow (shown_act op.now.act) }

        // A backup that is out does nothing, and stays out.
        ensures halted { is_out self.old ≡ true → (result ≡ Err TakeFault.Fault) × (self.new ≡ self.old) }
        ensures fault { result ≡ Err TakeFault.Fault → is_out self.new ≡ true }
        ensures goes_on { is_out self.old ≡ false → is_out self.new ≡ true → result ≡ Err TakeFault.Fault }
        ensures never_spent { result ≡ Err TakeFault.Spent → ⊥ }
    {
        if self.is_out {
            return Err(TakeFault::Fault);
        }
        if !self.memory.fits(op) {
            return Err(TakeFault::Wrong);
        }
        // The text says this op and no other.
        one_op();
        if !spell(&mut self.text, op) {
            return Err(TakeFault::NoMemory);
        }
        match write_down(&mut self.journal, alloc, &self.text) {
            Written::Done => {}
            Written::Not => return Err(TakeFault::NoMemory),
            Written::Unknown => {
                self.is_out = true;
                return Err(TakeFault::Fault);
            }
        }
        self.is_out = !enact(&mut self.memory, alloc, op);
        if self.is_out {
            return Err(TakeFault::Fault);
        }
        Ok(())
    }
}

/// Writes the text of an op in the place of another. The answer is false if there is no memory for it, or if it is too
/// long for a frame.
fn spell(text: &mut Vec<u8>, op: &Op<'_>) -> bool
    ensures text { result ≡ true → text.new.items ≡ op_text (shown_op op.now) }
    ensures short { result ≡ true → IsShort text.new.items }
    ensures fits { result ≡ true → FitsText (shown_op op.now) }
{
    text.clear();
    write_op(text, op).is_ok() && text.len() <= MAX_TEXT_LEN
}

/// Makes the file of a journal: its first text, and an op for each replica of a backup, all behind one gate. The
/// answer is how many texts it has.
fn write_whole<D: Device>(
    alloc: Global,
    first: &[u8],
    memory: &MemoryBackup,
    journal: &mut Journal<D>,
) -> Result<u64, BackupFault>
    requires closed { takes_more journal.old ≡ false }
    requires empty { D.contents (device_of journal.old) ≡ [] }
    requires durable { LeavesJust [] (D.may_leave (device_of journal.old)) }
    requires unfailed { D.has_failed (device_of journal.old) ≡ false }
    requires short { IsShort first.now }
    requires version { HasVersion (first.now ∷ []) }

    ensures whole { OnOk result (IsJournalOf D.contents D.may_leave D.has_failed (held_in memory.now) journal.new) }
    ensures counted { IfOk result (λ count. count ≡ length (recovered (D.contents (device_of journal.new)))) }
    ensures any_moment { AnyMoment D.clock D.left_since (LeftByMaking (held_in memory.now))
        (device_of journal.old) (device_of journal.new) }
{
    let Ok(texts) = whole_texts(alloc, first, memory) else {
        return Err(BackupFault::NoMemory);
    };
    if let Err(fault) = journal.open(alloc, &[]) {
        return Err(told(fault));
    }
    match journal.append_all(alloc, &texts) {
        Ok(()) => Ok(texts.len() as u64),
        Err(fault) => Err(not_written(fault)),
    }
}

/// Why texts weren't written, as a fault of their backup.
fn not_written(fault: JournalFault) -> BackupFault {
    match fault {
        JournalFault::NoMemory => BackupFault::NoMemory,
        JournalFault::Full => BackupFault::Full,
        JournalFault::Closed | JournalFault::Failed => BackupFault::Failed,
    }
}

/// Why a journal wasn't opened, as a fault of its backup.
fn told(fault: OpenFault) -> BackupFault
    ensures { result ≡ told fault }
{
    match fault {
        OpenFault::NoMemory => BackupFault::NoMemory,
        OpenFault::OtherVersion => BackupFault::OtherVersion,
        OpenFault::Damaged(at) => BackupFault::Damaged(at),
        OpenFault::Failed => BackupFault::Failed,
    }
}

/// What came of a text for a journal.
#[derive(Clone, Copy)]
enum Written {
    /// It is on the disk.
    Done,
    /// Nothing was done.
    Not,
    /// It is on the disk or not: the device failed.
    Unknown,
}

/// Adds a text to a journal that takes more.
fn write_down<D: Device>(journal: &mut Journal<D>, alloc: Global, text: &[u8]) -> Written
    requires ready { takes_more journal.old ≡ true }
    requires settled { IsSettled D.contents D.may_leave D.has_failed (device_of journal.old) (end_at journal.old) }
    requires short { IsShort text.now }

    ensures done { result ≡ Written.Done → StandsFor D.contents D.may_leave D.has_failed journal.new
        (recovered (D.contents (device_of journal.old)) ++ text.now ∷ []) }
    ensures not_done { result ≡ Written.Not → journal.new ≡ journal.old }
    ensures unknown { result ≡ Written.Unknown → D.has_failed (device_of journal.new) ≡ true }
    ensures any_moment { AnyMoment D.clock D.left_since
        (LeftByAppend (recovered (D.contents (device_of journal.old))) (text.now ∷ []))
        (device_of journal.old) (device_of journal.new) }
{
    match journal.append(alloc, text) {
        Ok(()) => Written::Done,
        Err(JournalFault::Failed) => Written::Unknown,
        Err(_) => Written::Not,
    }
}

/// Has memory do what an op asks that fits. The answer is false if memory ran out; nothing changed then.
fn enact(memory: &mut MemoryBackup, alloc: Global, op: &Op<'_>) -> bool
    requires fits { is_some (effect (shown_op op.now).act (held_in memory.old op.now.master op.now.segment)) ≡ true }
    ensures done { result ≡ true → after_op (held_in memory.old) (shown_op op.now) ≡ Some (held_in memory.new) }
    ensures not_done { result ≡ false → held_in memory.new ≡ held_in memory.old }
    ensures grows { result ≡ false → MayGrow (shown_act op.now.act) }
{
    memory.take(alloc, op).is_ok()
}
