//! One backup of a fleet.

ghost use Rattle.std.specs.Prelude.{◌≡◌, ◌<◌, [], ◌∷◌, Err, IfErr, OnErr, OnOk, length, None, Some, true, false, ℕ};
ghost use Rattle.replica.specs.Op.{shown_op};
ghost use Rattle.take_journal.specs.Crash.{HasVersion, LeftByMending};
ghost use Rattle.take_journal.specs.Device.{AnyMoment, LeavesJust};
ghost use Rattle.take_journal.specs.Frames.{IsShort, recovered};
ghost use Rattle.take_journal.specs.Journal.{device_of, takes_more};
ghost use Rattle.replica.specs.Take.{no_limit};
ghost use Rattle.file_backup.specs.Mirror.{IsJournalOf, LeftByMaking, LeftByTake, is_out, journal_of};
ghost use Rattle.file_backup.specs.Replay.{after_op};
ghost use Rattle.file_fleet.specs.Members.{IsFresh, IsMember, IsUnder, TellsUnder, device_at, replicas_at};
ghost use Rattle.file_fleet.specs.Files.{ShowsUnder};
ghost use Rattle.file_fleet.specs.declared.registry.Span.TheVariants.{First};

use crate::asked::fits;
use crate::registry::Span;
use entry::NoMemory;
use file_backup::{BackupFault, FileBackup};
use replica::{Op, TakeFault};
use std::alloc::Global;
use take_journal::{Device, Journal};

/// The most frames that the registry can name.
const MAX_FRAMES: u64 = u64::MAX - 1;

/// A backup with its journal, and how many frames of the journal were acknowledged.
#[derive(Drop)]
pub struct Member<D: Device> {
    pub(crate) backup: FileBackup<D>,
    /// The id of the journal's file.
    pub(crate) id: u64,
    pub(crate) frames: u64,
}

impl<D: Device> Member<D> {
    /// A backup that holds nothing, and is out until its file is begun or opened. The file has this id, which no other
    /// file of the backup has. It takes no memory.
    pub fn new(alloc: Global, id: u64, device: D) -> Self
        ensures member { IsMember D.contents D.may_leave D.has_failed result }
        ensures out { is_out result.backup ≡ true }
        ensures device { device_at result ≡ device }
        ensures id { result.id ≡ id }
        ensures closed { takes_more (journal_of result.backup) ≡ false }
        ensures nothing { (m s : ℕ) → replicas_at result m s ≡ None }
    {
        Member {
            backup: FileBackup::new(alloc, device),
            id,
            frames: 0,
        }
    }

    /// The backup.
    pub fn backup(&self) -> &FileBackup<D>
        ensures { result.now ≡ self.now.backup }
    {
        &self.backup
    }

    /// The id of the backup's file.
    pub fn id(&self) -> u64
        ensures { result ≡ self.now.id }
    {
        self.id
    }

    /// Begins the file of a backup, which is empty. Its first text is `first`, and the backup goes on in it. After an
    /// `Err` the backup is out.
    pub fn begin(&mut self, alloc: Global, first: &[u8]) -> Result<(), BackupFault>
        requires closed { takes_more (journal_of self.old.backup) ≡ false }
        requires empty { D.contents (device_at self.old) ≡ [] }
        requires durable { LeavesJust [] (D.may_leave (device_at self.old)) }
        requires unfailed { D.has_failed (device_at self.old) ≡ false }
        requires version { HasVersion (first.now ∷ []) }
        requires short { IsShort first.now }

        ensures begun { OnOk result (IsMember D.contents D.may_leave D.has_failed self.new) }
        ensures goes_on { OnOk result (is_out self.new.backup ≡ false) }
        ensures fresh { OnOk result ((self.old.id ≡ 0 → ⊥) → ((m s : ℕ) → replicas_at self.old m s ≡ None)
            → IsFresh D.contents D.may_leave D.has_failed self.new) }
        ensures same { replicas_at self.new ≡ replicas_at self.old }
        ensures id { self.new.id ≡ self.old.id }
        ensures any_moment { AnyMoment D.clock D.left_since (LeftByMaking (replicas_at self.old))
            (device_at self.old) (device_at self.new) }
    {
        match self.backup.begin(alloc, first) {
            Ok(count) if count <= MAX_FRAMES => {
                self.frames = count;
                Ok(())
            }
            Ok(_) => Err(BackupFault::NoMemory),
            Err(fault) => Err(fault),
        }
    }

    /// Opens the file of a backup that holds nothing. It has just these bytes, and so much of it counts. If all of it
    /// counts, the backup goes on in it. Else the backup shows what counts, and is out.
    pub fn open(&mut self, alloc: Global, span: Span, bytes: &[u8]) -> Result<(), BackupFault>
        requires closed { takes_more (journal_of self.old.backup) ≡ false }
        requires bytes { bytes.now ≡ D.contents (device_at self.old) }
        requires durable { LeavesJust bytes.now (D.may_leave (device_at self.old)) }
        requires unfailed { D.has_failed (device_at self.old) ≡ false }
        requires out { is_out self.old.backup ≡ true }
        requires member { IsMember D.contents D.may_leave D.has_failed self.old }
        requires nothing { (m s : ℕ) → replicas_at self.old m s ≡ None }

        ensures opened { OnOk result (IsMember D.contents D.may_leave D.has_failed self.new) }
        ensures shows { OnOk result (ShowsUnder span (replicas_at self.new) bytes.now) }
        ensures under { OnOk result (IsUnder D.may_leave span self.new) }
        ensures id { self.new.id ≡ self.old.id }

        // A file is named damaged only if no crash can have left it.
        ensures refused { IfErr result (λ fault. TellsUnder span fault bytes.now) }

        // A crash at any moment of the call leaves a file of the same texts, which can be opened if this one can.
        ensures any_moment { AnyMoment D.clock D.left_since (LeftByMending bytes.now)
            (device_at self.old) (device_at self.new) }
    {
        match span {
            Span::Nothing => Ok(()),
            Span::Whole => self.open_whole(alloc, bytes),
            Span::First(count) => self.backup.show_first(alloc, bytes, count),
        }
    }

    /// Opens the file of a backup, all of which counts.
    fn open_whole(&mut self, alloc: Global, bytes: &[u8]) -> Result<(), BackupFault>
        requires closed { takes_more (journal_of self.old.backup) ≡ false }
        requires bytes { bytes.now ≡ D.contents (device_at self.old) }
        requires durable { LeavesJust bytes.now (D.may_leave (device_at self.old)) }
        requires unfailed { D.has_failed (device_at self.old) ≡ false }

        ensures opened { OnOk result (IsMember D.contents D.may_leave D.has_failed self.new) }
        ensures goes_on { OnOk result (is_out self.new.backup ≡ false) }
        ensures id { self.new.id ≡ self.old.id }
        ensures shows { OnOk result (ShowsUnder Span.Whole (replicas_at self.new) bytes.now) }
        ensures refused { IfErr result (λ fault. TellsUnder Span.Whole fault bytes.now) }
        ensures any_moment { AnyMoment D.clock D.left_since (LeftByMending bytes.now)
            (device_at self.old) (device_at self.new) }
    {
        match self.backup.open_counted(alloc, bytes) {
            Ok(count) if count <= MAX_FRAMES => {
                self.frames = count;
                Ok(())
            }
            Ok(_) => Err(BackupFault::NoMemory),
            Err(fault) => Err(fault),
        }
    }

    /// Goes on in another journal that shows what the backup holds, and hands back its own.
    pub(crate) fn go_on_with(&mut self, id: u64, journal: Journal<D>, frames: u64) -> Journal<D>
        requires copied { IsJournalOf D.contents D.may_leave D.has_failed (replicas_at self.old) journal }
        requires counted { frames ≡ length (recovered (D.contents (device_of journal))) }
        requires limit { frames < no_limit }
        ensures member { IsMember D.contents D.may_leave D.has_failed self.new }
        ensures goes_on { is_out self.new.backup ≡ false }
        ensures same { replicas_at self.new ≡ replicas_at self.old }
        ensures id { self.new.id ≡ id }
    {
        self.id = id;
        self.frames = frames;
        self.backup.go_on_with(journal)
    }

    /// Whether the backup isn't out and an op fits what it holds. It takes memory for a list of all its replicas.
    pub(crate) fn has_place_for(&self, alloc: Global, op: &Op<'_>) -> Result<bool, NoMemory> {
        if self.backup.is_out() {
            return Ok(false);
        }
        let mut held = Vec::new(alloc);
        self.backup.memory().show(0, &mut held)?;
        Ok(fits(&held, op))
    }

    /// Hands an op to the backup, which isn't out. After Fault it is out, and its first frames, as many as were
    /// acknowledged, show what it holds.
    pub(crate) fn take(&mut self, alloc: Global, op: &Op<'_>) -> Result<(), TakeFault>
        requires member { IsMember D.contents D.may_leave D.has_failed self.old }
        requires goes_on { is_out self.old.backup ≡ false }

        ensures member { IsMember D.contents D.may_leave D.has_failed self.new }
        ensures taken { OnOk result (after_op (replicas_at self.old) (shown_op op.now) ≡ Some (replicas_at self.new)) }
        ensures refused { OnErr result (replicas_at self.new ≡ replicas_at self.old) }
        ensures wrong { result ≡ Err TakeFault.Wrong → after_op (replicas_at self.old) (shown_op op.now) ≡ None }
        ensures never_spent { result ≡ Err TakeFault.Spent → ⊥ }
        ensures out { is_out self.new.backup ≡ true → result ≡ Err TakeFault.Fault }
        ensures fault { result ≡ Err TakeFault.Fault → is_out self.new.backup ≡ true }
        ensures frames { OnErr result (self.new.frames ≡ self.old.frames) }
        ensures id { self.new.id ≡ self.old.id }

        // A crash at any moment of the call leaves the replicas from before it, or those after it. The frames from
        // before the call show the replicas from before it.
        ensures any_moment { AnyMoment D.clock D.left_since (LeftByTake (replicas_at self.old) (shown_op op.now))
            (device_at self.old) (device_at self.new) }
        ensures first { AnyMoment D.clock D.left_since (ShowsUnder (First self.old.frames) (replicas_at self.old))
            (device_at self.old) (device_at self.new) }
    {
        if self.frames >= MAX_FRAMES {
            return Err(TakeFault::NoMemory);
        }
        self.backup.take(alloc, op)?;
        self.frames += 1;
        Ok(())
    }
}
