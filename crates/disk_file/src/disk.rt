//! A file on the disk as a device: short writes go on, and after a failure nothing is asked any more.

ghost use Rattle.std.specs.Prelude.{◌≡◌, ◌⊎◌, ◌≤◌, ◌∷◌, ◌||◌, true, false, length, take, Some, None};
ghost use Rattle.std.specs.Prelude.{is_some, is_err, IfOk, OnErr, OnOk};
ghost use Rattle.take_journal.specs.Device.{EachFrom, IsTornCut, IsTornWrite, LeavesJust, Passes, overwritten};
ghost use Rattle.disk_file.specs.Events.{Failed, IsAnswer, outcome};
ghost use Rattle.disk_file.specs.Noted.{events_of};
ghost use Rattle.disk_file.specs.Standing.{standing, MayLeave, LeftSince};

use crate::history::Call;
use crate::noted::Noted;
use std::io;
use take_journal::{Device, DeviceFailed};

/// A file of the system that is written through to the disk.
#[derive(Drop)]
pub struct DiskFile {
    noted: Noted,
    failure: Option<io::Error>,
    ghost named: { (standing (events_of noted)).is_named ≡ true },
    ghost known: { (standing (events_of noted)).is_known ≡ true },
    ghost failed: { (standing (events_of noted)).has_failed ≡ is_some failure },
}

impl DiskFile {
    ghost use Rattle.disk_file.specs.Disk.{history};

    /// A file whose name and whose bytes are on the disk.
    pub(crate) fn new(noted: Noted) -> DiskFile
        requires named { (standing (events_of noted)).is_named ≡ true }
        requires known { (standing (events_of noted)).is_known ≡ true }
        requires unfailed { (standing (events_of noted)).has_failed ≡ false }
        ensures { history result ≡ events_of noted }
    {
        DiskFile {
            noted,
            failure: None,
        }
    }

    /// Why the first call failed that did; None if none has.
    pub fn failure(&self) -> Option<io::Error>
        ensures { is_some result ≡ (standing (history self.now)).has_failed }
    {
        self.failure
    }

    /// Asks the system, unless a call failed before.
    fn ask(&mut self, call: Call<'_>) -> Result<usize, DeviceFailed>
        ensures ok { IfOk result (λ n. (history self.new ≡ outcome call.entry (Some n) ∷ history self.old)
            × ((standing (history self.old)).has_failed ≡ false) × IsAnswer call.entry n) }
        ensures failed { OnErr result ((history self.new ≡ outcome call.entry None ∷ history self.old)
            ⊎ (history self.new ≡ Failed ∷ history self.old)) }
    {
        if self.failure.is_some() {
            self.noted.refuse();
            return Err(DeviceFailed);
        }
        match self.noted.ask(call) {
            Ok(taken) => Ok(taken),
            Err(error) => {
                self.failure = Some(error);
                Err(DeviceFailed)
            }
        }
    }

    /// Asks nothing of the system, and counts that as a failure.
    fn give_up(&mut self, error: io::Error) -> DeviceFailed
        ensures failed { history self.new ≡ Failed ∷ history self.old }
    {
        self.noted.refuse();
        if self.failure.is_none() {
            self.failure = Some(error);
        }
        DeviceFailed
    }
}

impl Device for DiskFile {
    ghost use Rattle.disk_file.specs.Disk.{history};
    ghost use Rattle.disk_file.specs.Moments.{counts_now_in, just_now_in};

    ghost contents = { λ f. (standing (history f)).contents };

    ghost may_leave = { λ f. MayLeave (history f) };

    ghost clock = { λ f. length (history f) };

    ghost left_since = { λ f. LeftSince (history f) };

    ghost has_failed = { λ f. (standing (history f)).has_failed };

    ghost counts_now = { λ f. counts_now_in (history f) };

    ghost just_now = { λ f. just_now_in (history f) };

    fn write_at(&mut self, at: usize, bytes: &[u8]) -> Result<(), DeviceFailed> {
        if bytes.len() > usize::MAX - at {
            return Err(self.give_up(io::ErrorKind::FileTooLarge.into()));
        }
        let mut done = 0;
        while done < bytes.len() {
            done += self.ask(Call::Write {
                at: at + done,
                bytes: &bytes[done..],
            })?;
        }
        Ok(())
    }

    fn cut(&mut self, len: usize) -> Result<(), DeviceFailed> {
        self.ask(Call::Cut { len })?;
        Ok(())
    }

    fn sync(&mut self) -> Result<(), DeviceFailed> {
        self.ask(Call::Sync)?;
        Ok(())
    }
}
