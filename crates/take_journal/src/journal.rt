//! A journal of texts. A text counts once its gate is open, and a gate is opened once all behind it is on the disk.

ghost use Rattle.std.specs.Prelude.{◌≡◌, ◌≤◌, ◌<◌, ◌^◌, ◌+◌, ◌-◌, ◌⊎◌, ◌++◌, [], ◌∷◌, true, false, Err, OnErr};
ghost use Rattle.std.specs.Prelude.{OnOk, IfErr, IsErrOf, length};
ghost use Rattle.take_journal.specs.Crash.{LeftByAppend};
ghost use Rattle.take_journal.specs.Device.{AnyMoment};
ghost use Rattle.take_journal.specs.Frames.{AreShort, IsShort, recovered, texts_of};
ghost use Rattle.take_journal.specs.Journal.{IsBatch, IsSettled, IsSound, StandsFor};

use crate::frames::{CLOSED, OPEN, all_frames, one_frame};
use crate::{Device, DeviceFailed, JournalFault};
use std::alloc::Global;

/// A journal takes no more once its file has so many bytes.
const MAX_END: usize = 1 << 60;

/// A file of frames. A text is on the disk before it is acknowledged.
///
/// A journal is open or closed. A new one is closed, `open` opens it, and a call whose device fails closes it for good.
/// A closed journal asks nothing of its device.
#[derive(Drop)]
pub struct Journal<D: Device> {
    pub(crate) device: D,
    /// Where the closed gate stands behind the last frame.
    pub(crate) end: usize,
    pub(crate) is_open: bool,
}

impl<D: Device> Journal<D> {
    /// A journal that is closed.
    pub fn new(device: D) -> Self
        ensures closed { result.is_open ≡ false }
        ensures device { result.device ≡ device }
    {
        Journal {
            device,
            end: 0,
            is_open: false,
        }
    }

    /// Whether the journal is open.
    pub fn is_open(&self) -> bool
        ensures { result ≡ self.now.is_open }
    {
        self.is_open
    }

    /// How many bytes the frames of an open journal have. A closed one answers what it had as it was closed.
    pub fn len(&self) -> u64
        ensures { result ≡ self.now.end }
    {
        self.end as u64
    }

    /// The device.
    pub fn device(&self) -> &D
        ensures { result.now ≡ self.now.device }
    {
        &self.device
    }

    /// Adds a text of less than 2^32 bytes. At `Ok` it is acknowledged: each later crash leaves a file that has it. Two
    /// writes and two syncs.
    pub fn append(&mut self, alloc: Global, text: &[u8]) -> Result<(), JournalFault>
        requires sound { IsSound D.contents D.may_leave D.has_failed self.old }
        requires short { IsShort text.now }

        ensures sound { IsSound D.contents D.may_leave D.has_failed self.new }
        ensures acknowledged { OnOk result ((self.old.is_open ≡ true) × StandsFor D.contents D.may_leave D.has_failed
            self.new (recovered (D.contents self.old.device) ++ text.now ∷ [])) }

        // A crash at any moment of the call leaves the texts from before it, with the new one or without.
        ensures any_moment { self.old.is_open ≡ true → AnyMoment D.clock D.left_since
            (LeftByAppend (recovered (D.contents self.old.device)) (text.now ∷ [])) self.old.device self.new.device }

        // It asks nothing of the device of a closed journal, and fails only if the device does.
        ensures closed { self.old.is_open ≡ false → (result ≡ Err JournalFault.Closed) × (self.new ≡ self.old) }
        ensures told { IsErrOf result JournalFault.Closed → self.old.is_open ≡ false }
        ensures refused { IfErr result (λ fault. (fault ≡ JournalFault.Failed) ⊎ (self.new ≡ self.old)) }
        ensures err { OnErr result ((self.new ≡ self.old) ⊎ (self.new.is_open ≡ false)) }
        ensures failed { IsErrOf result JournalFault.Failed → D.has_failed self.new.device ≡ true }
        ensures full { IsErrOf result JournalFault.Full → 2 ^ 60 ≤ self.old.end }
    {
        if !self.is_open {
            return Err(JournalFault::Closed);
        }
        let frames = one_frame(alloc, text)?;
        self.put(&frames)
    }

    /// Adds texts of less than 2^32 bytes each, all of them or none. Two writes and two syncs.
    pub fn append_all(&mut self, alloc: Global, texts: &[Vec<u8>]) -> Result<(), JournalFault>
        requires sound { IsSound D.contents D.may_leave D.has_failed self.old }
        requires short { AreShort (texts_of texts.now) }

        ensures sound { IsSound D.contents D.may_leave D.has_failed self.new }
        ensures acknowledged { OnOk result ((self.old.is_open ≡ true) × StandsFor D.contents D.may_leave D.has_failed
            self.new (recovered (D.contents self.old.device) ++ texts_of texts.now)) }

        // A crash at any moment of the call leaves the texts from before it, with all of the new ones or none.
        ensures any_moment { self.old.is_open ≡ true → AnyMoment D.clock D.left_since (LeftByAppend
            (recovered (D.contents self.old.device)) (texts_of texts.now)) self.old.device self.new.device }

        ensures closed { self.old.is_open ≡ false → (result ≡ Err JournalFault.Closed) × (self.new ≡ self.old) }
        ensures told { IsErrOf result JournalFault.Closed → self.old.is_open ≡ false }
        ensures refused { IfErr result (λ fault. (fault ≡ JournalFault.Failed) ⊎ (self.new ≡ self.old)) }
        ensures err { OnErr result ((self.new ≡ self.old) ⊎ (self.new.is_open ≡ false)) }
        ensures failed { IsErrOf result JournalFault.Failed → D.has_failed self.new.device ≡ true }
        ensures full { IsErrOf result JournalFault.Full → 2 ^ 60 ≤ self.old.end }
    {
        if !self.is_open {
            return Err(JournalFault::Closed);
        }
        if texts.is_empty() {
            return Ok(());
        }
        let frames = all_frames(alloc, texts)?;
        self.put(&frames)
    }

    /// Adds frames, and closes the journal if the device fails.
    fn put(&mut self, frames: &[u8]) -> Result<(), JournalFault>
        requires ready { self.old.is_open ≡ true }
        requires settled { IsSettled D.contents D.may_leave D.has_failed self.old.device self.old.end }
        requires batch { IsBatch frames.now }

        ensures acknowledged { OnOk result (StandsFor D.contents D.may_leave D.has_failed self.new
            (recovered (D.contents self.old.device) ++ recovered frames.now)) }
        ensures any_moment { AnyMoment D.clock D.left_since (LeftByAppend (recovered (D.contents self.old.device))
            (recovered frames.now)) self.old.device self.new.device }
        ensures told { IsErrOf result JournalFault.Closed → ⊥ }
        ensures refused { IfErr result (λ fault. (fault ≡ JournalFault.Failed) ⊎ (self.new ≡ self.old)) }
        ensures err { OnErr result ((self.new ≡ self.old) ⊎ (self.new.is_open ≡ false)) }
        ensures failed { IsErrOf result JournalFault.Failed → D.has_failed self.new.device ≡ true }
        ensures full { IsErrOf result JournalFault.Full → 2 ^ 60 ≤ self.old.end }
    {
        if self.end >= MAX_END {
            return Err(JournalFault::Full);
        }
        self.is_open = false;
        write_frames(&mut self.device, self.end, frames)?;
        self.end += frames.len() - 1;
        self.is_open = true;
        Ok(())
    }
}

/// Writes frames behind the closed gate at `end`, and opens it once they are on the disk.
fn write_frames<D: Device>(device: &mut D, end: usize, frames: &[u8]) -> Result<(), DeviceFailed>
    requires settled { IsSettled D.contents D.may_leave D.has_failed device.old end }
    requires batch { IsBatch frames.now }
    requires room { end < 2 ^ 60 }

    ensures settled { OnOk result (IsSettled D.contents D.may_leave D.has_failed device.new
        (end + (length frames.now - 1))) }
    ensures texts { OnOk result (recovered (D.contents device.new)
        ≡ recovered (D.contents device.old) ++ recovered frames.now) }
    ensures any_moment { AnyMoment D.clock D.left_since (LeftByAppend (recovered (D.contents device.old))
        (recovered frames.now)) device.old device.new }
    ensures failed { OnErr result (D.has_failed device.new ≡ true) }
{
    device.write_at(end + 1, &frames[1..])?;
    device.sync()?;
    device.write_at(end, &[OPEN])?;
    device.sync()?;
    Ok(())
}
